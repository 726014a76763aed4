//! Works: they run operations on cells.

ghost use Rattle.std.specs.Prelude.{◌≡◌, ◌+◌, ◌*◌, ◌≤◌, ℕ, List, [], length, true};
ghost use Rattle.std.specs.Prelude.{IfSome, IfNone};
ghost use Rattle.of_mem.specs.declared.work.TheConstants.{MOST_INSTRS};
ghost use Rattle.of_mem.specs.Meaning.{Meaning, IsSoundMeaning, HasRoom, KnowsSome, RunsAsWalked};
ghost use Rattle.of_mem.specs.OnDemand.{MayReadFrom, HasReadFrom, MayRunFrom, HasRunFrom};
ghost use Rattle.of_mem.specs.Part.{overlaid};

use crate::cells::Cells;
use crate::part::{Need, Part};
use crate::suspended_run::{MaySuspend, SuspendedRun};
use crate::workspace::Workspace;

/// The most words that an operation may have, and the most numbers that a reply may have.
pub const MOST_INSTRS: usize = 16;

/// The most callers of a work; a table of cell words has as many at most.
pub const MOST_CALLERS: u32 = 64;

/// The most data cells of a work; a table of cell words has as many at most.
pub const MOST_DATA_CELLS: u32 = 134_217_728;

/// With at most this number of data cells, an operation may write all of them.
pub const FEW_DATA_CELLS: u32 = 4096;

/// With more than `FEW_DATA_CELLS` data cells, an operation writes at most this number of them.
pub const MOST_WRITES: u32 = 238;

/// The least shape of the reply of a script that was aborted: the bits from this one on hold the
/// cause.
pub const LEAST_ABORT: u32 = 1 << 26;

/// A reply as a caller's own cells hold it: its shape, and its numbers. A number that the shape
/// doesn't mark is 0.
#[derive(Clone, Copy, Debug, PartialEq, Eq)]
pub struct RawReply {
    pub shape: u32,
    pub values: [u32; MOST_INSTRS],
}

/// A work runs operations on cells. The first `callers * (MOST_INSTRS + 2)` cells are the callers'
/// own, and no operation reads or writes them.
pub trait Work: MaySuspend {
    /// How many callers the work has.
    ghost many: { Self → ℕ };

    /// How many data cells the work has.
    ghost size: { Self → ℕ };

    /// Which lists of cells are lawful: operations run on them, and leave lawful ones.
    ghost lawful: { Self → List ℕ → Type 0 };

    /// What an operation does to a list of cells, what it replies, and how it runs if only some
    /// cells are known.
    ghost meaning: { Self → Meaning };

    /// The number of callers of the work.
    fn callers(&self) -> u32
        ensures { result ≡ many self.now };

    /// The number of data cells of the work.
    fn cells(&self) -> u32
        ensures { result ≡ size self.now };

    /// Runs an operation of 1 to `MOST_INSTRS` words on the known cells with the batch's writes
    /// over them. If `kept` keeps an earlier run of this operation, the run goes on from the word
    /// at which the earlier one stopped. Ok leaves the operation's writes as the script's, and the
    /// reply in `out`. An error names the cell that the run needs next; then the script has no
    /// writes and `out` is as before.
    fn run_on(
        &self,
        part: &mut Part,
        kept: &mut SuspendedRun,
        op: &[u64],
        out: &mut RawReply,
    ) -> Result<(), Need>
        requires agrees { KnowsSome (lawful self.now) (size self.now)
            (overlaid part.old.known part.old.batch) }
        requires cells { length part.old.known ≡ size self.now }
        requires empty { part.old.script ≡ [] }
        requires some { 1 ≤ length op.now }
        requires few { length op.now ≤ MOST_INSTRS }
        requires holds { Self.holds kept.old part.old }
        requires room { kept.old.room ≡ length part.old.known }
        ensures part { part.new ≡ record part.old { script = part.new.script } }
        ensures walk { RunsAsWalked (meaning self.now) (overlaid part.old.known part.old.batch)
            op.now result part.new.script out.old out.new }
        ensures holds { Self.holds kept.new part.old }
        ensures room { kept.new.room ≡ kept.old.room };

    /// Runs an operation of 1 to `MOST_INSTRS` words on the known cells with the batch's writes
    /// over them. Ok leaves the operation's writes as the script's, and the reply in `out`. An
    /// error names the cell that the run needs next; then the script has no writes and `out` is as
    /// before.
    final fn run(
        &self,
        part: &mut Workspace<Self>,
        op: &[u64],
        out: &mut RawReply,
    ) -> Result<(), Need>
        requires agrees { KnowsSome (lawful self.now) (size self.now)
            (overlaid part.old.known part.old.batch) }
        requires cells { length part.old.known ≡ size self.now }
        requires empty { part.old.script ≡ [] }
        requires some { 1 ≤ length op.now }
        requires few { length op.now ≤ MOST_INSTRS }
        ensures part { part.new ≡ record part.old { script = part.new.script } }
        ensures walk { RunsAsWalked (meaning self.now) (overlaid part.old.known part.old.batch)
            op.now result part.new.script out.old out.new }
    {
        self.run_on(&mut part.part, &mut part.kept, op, out)
    }

    /// Runs an operation of 1 to `MOST_INSTRS` words that is known to write nothing, on cells that
    /// it asks for one after the other. Ok leaves the reply in `out`. An error names the cell that
    /// the run needs next and that `cells` didn't give; then `out` is as before. None if the work
    /// runs no operation in this way; then nothing was read, and `run` is there.
    fn read_from<C: Cells>(
        &self,
        cells: &mut C,
        op: &[u64],
        out: &mut RawReply,
    ) -> Option<Result<(), Need>>
        requires may { MayReadFrom (meaning self.now) (lawful self.now) (size self.now) op.now
            (C.run cells.old) }
        requires reads { (meaning self.now).reads_only op.now ≡ true }
        requires some { 1 ≤ length op.now }
        requires few { length op.now ≤ MOST_INSTRS }
        ensures ran { IfSome result (λ r. HasReadFrom (meaning self.now) op.now
            (C.run cells.old) (C.run cells.new) r out.old out.new) }
        ensures none { IfNone result ((cells.new ≡ cells.old) × (out.new ≡ out.old)) }
    {
        None
    }

    /// Runs an operation of 1 to `MOST_INSTRS` words on cells that it asks for one after the other,
    /// and writes to them. Ok leaves the reply in `out`, and says whether the writes are to be
    /// undone. An error names the cell that the run needs next and that `cells` didn't give; then
    /// `out` is as before. None if the work runs no operation in this way; then nothing was read or
    /// written, and `run` is there.
    fn run_from<C: Cells>(
        &self,
        cells: &mut C,
        op: &[u64],
        out: &mut RawReply,
    ) -> Option<Result<bool, Need>>
        requires may { MayRunFrom (meaning self.now) (lawful self.now) (size self.now) op.now
            (C.run cells.old) }
        requires some { 1 ≤ length op.now }
        requires few { length op.now ≤ MOST_INSTRS }
        ensures ran { IfSome result (λ r. HasRunFrom (meaning self.now) op.now
            (C.run cells.old) (C.run cells.new) r out.old out.new) }
        ensures none { IfNone result ((cells.new ≡ cells.old) × (out.new ≡ out.old)) }
    {
        None
    }

    /// Whether an operation is known to write nothing.
    fn reads_only(&self, op: &[u64]) -> bool
        ensures { result ≡ (meaning self.now).reads_only op.now };

    ghost fits: { (w : Self) → HasRoom (many w) (size w) };

    ghost sound: { (w : Self)
        → IsSoundMeaning (meaning w) (lawful w) (many w * (MOST_INSTRS + 2)) (size w) };
}
