//! A handle: one caller of a memory of cells, for one thread at a time.

ghost use Rattle.std.specs.Prelude.{◌≡◌};
ghost use Rattle.of_cells.specs.Sequences.{seq_after as seq_told};

use crate::answer::RawAnswer;
use crate::calling::{call_with, go_on_with};
use crate::error::RunError;
use crate::memory::CellMemory;
use of_caller::Caller;
use of_mem::Work;
use of_row::Row;
use std::alloc::Global;
use std::sync::Arc;

/// How many words are unused at either end of a handle: 128 bytes, since processors fetch the lines
/// of the cache in pairs. A call writes into its handle at each step. If two handles side by side
/// shared a line, a step by one would take the line from the other's thread.
pub(crate) const APART: usize = 16;

// The last sequence that is known once a call has come to this.
fn seq_after(ended: &Result<RawAnswer, RunError>, known: u32) -> u32
    ensures { result ≡ seq_told ended.now known }
{
    match ended {
        Ok(answer) => answer.seq,
        Err(RunError::Spent { seq }) => *seq,
        Err(_) => known,
    }
}

/// One caller of a memory of cells, for one thread at a time.
#[derive(Drop)]
pub struct CellHandle<W: Work> {
    /// Unused, as `behind` is: no two handles share a line of the cache.
    pub(crate) front: [u64; APART],
    pub(crate) row: Arc<Row<W>, Global>,
    pub(crate) number: u32,
    /// The last sequence that the handle knows: that of its last ended call, or else the one that
    /// the memory knew when the handle came.
    pub(crate) seq: u32,
    pub(crate) caller: Caller<W>,
    pub(crate) behind: [u64; APART],
}

impl<W: Work> CellHandle<W> {
    ghost use Rattle.std.specs.Prelude.{◌≡◌, ◌≤◌, ℕ, List, length};
    ghost use Rattle.of_mem.specs.declared.work.TheConstants.{MOST_INSTRS};
    ghost use Rattle.of_cells.specs.Called.{made_with, LeavesAsItWas};
    ghost use Rattle.of_cells.specs.Within.{EndsWithin, IsNeverStopped, KeepsWithin, KeepsToStop};
    ghost use Rattle.of_cells.specs.Handles.{IsCellHandle, IsSame, number_of_handle, made_by};
    ghost use Rattle.of_cells.specs.Handles.{last_operation_of, steps_so_far, step_bound_of, HasOpen};
    ghost use Rattle.of_cells.specs.Handles.{StaysOpenOnlyIfStopped, RefusesCall, RefusesToGoOn};
    ghost use Rattle.of_cells.specs.Memories.{IsCellMemory, IsFrom, IsStill, HasMadeOf, HasOpenOf};
    ghost use Rattle.of_cells.specs.Handles.{OpensOnly, OpensNone, MakesAtMost, GoesOnWithin};
    ghost use Rattle.of_cells.specs.Handles.{MakesByTouch, GoesOnByTouch};
    ghost use Rattle.of_cells.specs.Handles.{steps_of_calls, RepliesAsMeant, MakesStepsAlone};
    ghost use Rattle.of_cells.specs.Within.{RisesWithin};
    ghost use Rattle.of_cells.specs.Telling.{BeginsAfterHeard, ResumesAfterHeard, KeepsKnown};
    ghost use Rattle.of_cells.specs.Telling.{LeavesOrder, TellsMemory};
    ghost use Rattle.of_cells.specs.Memories.{KnowsOthers, OthersStayOpen, OthersKnowOrder};
    ghost use Rattle.of_cells.specs.Memories.{PutsBack, RemembersAll};
    ghost use Rattle.of_cells.specs.Sequences.{KnowsSeqOf, seq_known_to, seq_known_in, left_of_handle};
    ghost use Rattle.std.specs.Prelude.{max};

    /// The handle's number.
    pub fn number(&self) -> u32
        ensures { result ≡ number_of_handle self.now }
    {
        self.number
    }

    /// The most sequences that may be left: all sequences after the last one that the handle knows.
    /// This is the sequence of the handle's last ended call; before the first such call, it is the
    /// one that the memory knew when the handle was enrolled. Other handles may have taken
    /// sequences since. The call makes no step on the table.
    pub fn sequences_left(&self) -> u32
        ensures { result ≡ left_of_handle self.now }
    {
        self.row.limit().saturating_sub(self.seq)
    }

    /// Runs an operation of 1 to `MOST_INSTRS` words, all of it or nothing, and answers with its
    /// reply.
    pub fn run(&mut self, op: &[u64]) -> Result<RawAnswer, RunError>
        requires handle { IsCellHandle W.meaning self.old }
        requires some { 1 ≤ length op.now }
        requires few { length op.now ≤ MOST_INSTRS }
        ensures handle { IsCellHandle W.meaning self.new }
        ensures same { IsSame self.old self.new }
        ensures made { made_by self.new ≡ made_with op.now result (made_by self.old) }
        ensures means { RepliesAsMeant W.meaning op.now self.old result }
        ensures open_call { StaysOpenOnlyIfStopped op.now result self.new }
        ensures cause { RefusesCall self.old result }
        ensures unmade { LeavesAsItWas result self.old self.new }
        ensures bound { EndsWithin (step_bound_of W.meaning self.old) result }
        ensures stopped { IsNeverStopped result }
        ensures only { OpensOnly op.now self.old self.new }
        ensures rise { MakesAtMost (step_bound_of W.meaning self.old) self.old self.new }
        ensures touched { MakesByTouch W.meaning W.lawful op.now self.old self.new }
        ensures behind { BeginsAfterHeard W.meaning result self.old self.new }
        ensures knows { KeepsKnown W.meaning self.old self.new }
        ensures alone { MakesStepsAlone self.old self.new }
        ensures seq { KnowsSeqOf result self.old self.new }
    {
        self.begin(op, None)
    }

    /// Runs an operation for at most this many steps. If they are too few, the call stays open.
    pub fn run_within(&mut self, op: &[u64], steps: u64) -> Result<RawAnswer, RunError>
        requires handle { IsCellHandle W.meaning self.old }
        requires some { 1 ≤ length op.now }
        requires few { length op.now ≤ MOST_INSTRS }
        ensures handle { IsCellHandle W.meaning self.new }
        ensures same { IsSame self.old self.new }
        ensures made { made_by self.new ≡ made_with op.now result (made_by self.old) }
        ensures means { RepliesAsMeant W.meaning op.now self.old result }
        ensures open_call { StaysOpenOnlyIfStopped op.now result self.new }
        ensures cause { RefusesCall self.old result }
        ensures unmade { LeavesAsItWas result self.old self.new }
        ensures bound { EndsWithin (step_bound_of W.meaning self.old) result }
        ensures within { KeepsWithin 0 steps (steps_so_far self.new) result }
        ensures only { OpensOnly op.now self.old self.new }
        ensures rise { MakesAtMost (step_bound_of W.meaning self.old) self.old self.new }
        ensures touched { MakesByTouch W.meaning W.lawful op.now self.old self.new }
        ensures behind { BeginsAfterHeard W.meaning result self.old self.new }
        ensures knows { KeepsKnown W.meaning self.old self.new }
        ensures alone { MakesStepsAlone self.old self.new }
        ensures seq { KnowsSeqOf result self.old self.new }
        ensures given { MakesAtMost steps self.old self.new }
    {
        self.begin(op, Some(steps))
    }

    fn begin(&mut self, op: &[u64], stop: Option<u64>) -> Result<RawAnswer, RunError>
        requires handle { IsCellHandle W.meaning self.old }
        requires some { 1 ≤ length op.now }
        requires few { length op.now ≤ MOST_INSTRS }
        ensures handle { IsCellHandle W.meaning self.new }
        ensures same { IsSame self.old self.new }
        ensures made { made_by self.new ≡ made_with op.now result (made_by self.old) }
        ensures means { RepliesAsMeant W.meaning op.now self.old result }
        ensures open_call { StaysOpenOnlyIfStopped op.now result self.new }
        ensures cause { RefusesCall self.old result }
        ensures unmade { LeavesAsItWas result self.old self.new }
        ensures bound { EndsWithin (step_bound_of W.meaning self.old) result }
        ensures stop { KeepsToStop 0 stop (steps_so_far self.new) result }
        ensures only { OpensOnly op.now self.old self.new }
        ensures rise { MakesAtMost (step_bound_of W.meaning self.old) self.old self.new }
        ensures touched { MakesByTouch W.meaning W.lawful op.now self.old self.new }
        ensures behind { BeginsAfterHeard W.meaning result self.old self.new }
        ensures knows { KeepsKnown W.meaning self.old self.new }
        ensures alone { MakesStepsAlone self.old self.new }
        ensures seq { KnowsSeqOf result self.old self.new }
        ensures given { RisesWithin stop (steps_of_calls self.old) (steps_of_calls self.new) }
    {
        if !self.caller.is_idle() {
            return Err(RunError::InCall);
        }
        if self.caller.made() == u32::MAX {
            return Err(RunError::NoTicket);
        }
        let result = call_with(&self.row, &mut self.caller, op, stop);
        self.seq = seq_after(&result, self.seq);
        result
    }

    /// Goes on with the open call, to its answer.
    pub fn go_on(&mut self) -> Result<RawAnswer, RunError>
        requires { IsCellHandle W.meaning self.old }
        ensures handle { IsCellHandle W.meaning self.new }
        ensures same { IsSame self.old self.new }
        ensures made { made_by self.new
            ≡ made_with (last_operation_of self.old) result (made_by self.old) }
        ensures means { RepliesAsMeant W.meaning (last_operation_of self.old) self.old result }
        ensures open_call { StaysOpenOnlyIfStopped (last_operation_of self.old) result self.new }
        ensures cause { RefusesToGoOn self.old result }
        ensures unmade { LeavesAsItWas result self.old self.new }
        ensures bound { EndsWithin (step_bound_of W.meaning self.old) result }
        ensures stopped { IsNeverStopped result }
        ensures only { OpensNone self.old self.new }
        ensures rise { GoesOnWithin (step_bound_of W.meaning self.old) self.old self.new }
        ensures touched { GoesOnByTouch W.meaning W.lawful self.old self.new }
        ensures behind { ResumesAfterHeard W.meaning result self.old self.new }
        ensures knows { KeepsKnown W.meaning self.old self.new }
        ensures alone { MakesStepsAlone self.old self.new }
        ensures seq { KnowsSeqOf result self.old self.new }
    {
        self.resume(None)
    }

    /// Goes on with the open call for at most this many steps. If they are too few, it stays open.
    pub fn go_on_within(&mut self, steps: u64) -> Result<RawAnswer, RunError>
        requires { IsCellHandle W.meaning self.old }
        ensures handle { IsCellHandle W.meaning self.new }
        ensures same { IsSame self.old self.new }
        ensures made { made_by self.new
            ≡ made_with (last_operation_of self.old) result (made_by self.old) }
        ensures means { RepliesAsMeant W.meaning (last_operation_of self.old) self.old result }
        ensures open_call { StaysOpenOnlyIfStopped (last_operation_of self.old) result self.new }
        ensures cause { RefusesToGoOn self.old result }
        ensures unmade { LeavesAsItWas result self.old self.new }
        ensures bound { EndsWithin (step_bound_of W.meaning self.old) result }
        ensures within { KeepsWithin (steps_so_far self.old) steps
            (steps_so_far self.new) result }
        ensures only { OpensNone self.old self.new }
        ensures rise { GoesOnWithin (step_bound_of W.meaning self.old) self.old self.new }
        ensures touched { GoesOnByTouch W.meaning W.lawful self.old self.new }
        ensures behind { ResumesAfterHeard W.meaning result self.old self.new }
        ensures knows { KeepsKnown W.meaning self.old self.new }
        ensures alone { MakesStepsAlone self.old self.new }
        ensures seq { KnowsSeqOf result self.old self.new }
        ensures given { MakesAtMost steps self.old self.new }
    {
        self.resume(Some(steps))
    }

    fn resume(&mut self, stop: Option<u64>) -> Result<RawAnswer, RunError>
        requires { IsCellHandle W.meaning self.old }
        ensures handle { IsCellHandle W.meaning self.new }
        ensures same { IsSame self.old self.new }
        ensures made { made_by self.new
            ≡ made_with (last_operation_of self.old) result (made_by self.old) }
        ensures means { RepliesAsMeant W.meaning (last_operation_of self.old) self.old result }
        ensures open_call { StaysOpenOnlyIfStopped (last_operation_of self.old) result self.new }
        ensures cause { RefusesToGoOn self.old result }
        ensures unmade { LeavesAsItWas result self.old self.new }
        ensures bound { EndsWithin (step_bound_of W.meaning self.old) result }
        ensures stop { KeepsToStop (steps_so_far self.old) stop
            (steps_so_far self.new) result }
        ensures only { OpensNone self.old self.new }
        ensures rise { GoesOnWithin (step_bound_of W.meaning self.old) self.old self.new }
        ensures touched { GoesOnByTouch W.meaning W.lawful self.old self.new }
        ensures behind { ResumesAfterHeard W.meaning result self.old self.new }
        ensures knows { KeepsKnown W.meaning self.old self.new }
        ensures alone { MakesStepsAlone self.old self.new }
        ensures seq { KnowsSeqOf result self.old self.new }
        ensures given { RisesWithin stop (steps_of_calls self.old) (steps_of_calls self.new) }
    {
        if self.caller.is_idle() {
            return Err(RunError::NoCall);
        }
        let result = go_on_with(&self.row, &mut self.caller, stop);
        self.seq = seq_after(&result, self.seq);
        result
    }

    /// Leaves the memory, which keeps the handle's calls. An open call stays open, and the number
    /// is free again.
    pub fn leave(self, memory: &mut CellMemory<W>)
        requires handle { IsCellHandle W.meaning self }
        requires memory { IsCellMemory W.meaning memory.old }
        requires from { IsFrom memory.old self }
        ensures memory { IsCellMemory W.meaning memory.new }
        ensures still { IsStill memory.old memory.new }
        ensures made { HasMadeOf memory.new (number_of_handle self) (made_by self) }
        ensures open_call { (op : List ℕ) → HasOpen self op
            → HasOpenOf memory.new (number_of_handle self) op }
        ensures others { KnowsOthers (number_of_handle self) memory.old memory.new }
        ensures others_open { OthersStayOpen (number_of_handle self) memory.old memory.new }
        ensures back { PutsBack memory.old memory.new self }
        ensures order { LeavesOrder W.meaning self memory.new }
        ensures others_order { OthersKnowOrder W.meaning (number_of_handle self)
            memory.old memory.new }
        // The memory knows the handle's ended calls, so calls that begin later come later in the
        // history.
        ensures heard { TellsMemory W.meaning self memory.new }
        ensures remembers { RemembersAll W.meaning memory.old memory.new }
        ensures seq { seq_known_in memory.new ≡ max (seq_known_in memory.old) (seq_known_to self) }
    {
        let CellHandle {
            front: _,
            row: _,
            number,
            seq,
            caller,
            behind: _,
        } = self;
        memory.take_in(number, seq, caller);
    }
}
