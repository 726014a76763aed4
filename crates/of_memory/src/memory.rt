//! A memory: it is opened, gives out handles, and is closed.

mod asking;

use crate::error::{InUse, OpenError, RenumberError};
use crate::handle::Handle;
use crate::saved::Saved;
use of_cells::{CellMemory, EnrolError, OpenError as CellOpenError};
use of_eval::Scripts;
use of_mem::{MOST_BLOCKS, MOST_CALLERS};
use std::alloc::{AllocError, Global};

/// A store on which threads run scripts, each by a handle of its own.
#[derive(Drop)]
pub struct Memory {
    pub(crate) alloc: Global,
    pub(crate) cells: CellMemory<Scripts>,
}

/// A memory whose sequences begin anew, and the saved state from which it goes on.
#[derive(Drop)]
pub struct Renumbered {
    pub memory: Memory,
    pub saved: Saved,
}

impl Memory {
    ghost use Rattle.std.specs.Prelude.{◌≡◌, ◌<◌, ℕ, List, [], IfOk, IfErr, OnErr};
    ghost use Rattle.of_script.specs.declared.instr.Instr.{Instr as TheInstr};
    ghost use Rattle.of_store.specs.Store.{Store, empty_store};
    ghost use Rattle.of_memory.specs.History.{Made};
    ghost use Rattle.of_memory.specs.Saving.{IsSaved, SavedHolds, saved_callers};
    ghost use Rattle.of_memory.specs.Saving.{saved_limit, saved_ticket};
    ghost use Rattle.of_memory.specs.Handles.{IsHandle, number_of_handle, HasMade, HasOpen};
    ghost use Rattle.of_memory.specs.Memories.{IsMemory, callers_of, limit_of, scripts_work_of};
    ghost use Rattle.of_memory.specs.Memories.{StartsWith, tickets_before, HasMadeOf, HasOpenOf};
    ghost use Rattle.of_memory.specs.Memories.{IsFrom, IsStill, KnowsOthers, OthersStayOpen};
    ghost use Rattle.of_memory.specs.Memories.{OthersKnowOrder, RemembersAll, HasHistory};
    ghost use Rattle.of_memory.specs.Memories.{HasNoneOpen, HasNoHandleOut, HasHandleOut, TakesOut};
    ghost use Rattle.of_memory.specs.Memories.{TakesNone};
    ghost use Rattle.of_memory.specs.Memories.{IsOpenCause, IsEnrolCause};
    ghost use Rattle.of_memory.specs.Lost.{EvictsRequest, EvictsNone};
    ghost use Rattle.of_memory.specs.Telling.{KnowsOrdersOf, HearsMemory};
    ghost use Rattle.of_memory.specs.Saving.{saved_seq};
    ghost use Rattle.of_memory.specs.Sequences.{seq_known_to, seq_known_in, left_of_memory};
    ghost use Rattle.of_memory.specs.Renewing.{GoesOnFromSaved, LeavesRenumbered, IsRenumberCause};

    /// An empty memory for 1 to 64 callers. `blocks` is how many keys and queued items it has room
    /// for: at most `MOST_BLOCKS`, 16,777,216. If `blocks` is above 512, the memory runs no
    /// instruction on keys in their order. `limit` is the last sequence that may be committed.
    pub fn open(alloc: Global, callers: u32, blocks: u32, limit: u32) -> Result<Memory, OpenError>
        ensures memory { IfOk result IsMemory }
        ensures callers { IfOk result (λ m. callers_of m ≡ callers) }
        ensures limit { IfOk result (λ m. limit_of m ≡ limit) }
        ensures empty { IfOk result (λ m. StartsWith m (empty_store blocks)) }
        ensures tickets { IfOk result (λ m.
            (n : ℕ) → n < callers → tickets_before m n ≡ 0) }
        ensures none { IfOk result (λ m. (n : ℕ) → n < callers → HasMadeOf m n []) }
        ensures cause { IfErr result (IsOpenCause callers blocks limit) }
        ensures idle { IfOk result HasNoneOpen }
        ensures seq { IfOk result (λ m. seq_known_in m ≡ 0) }
    {
        if callers == 0 || callers > MOST_CALLERS {
            return Err(OpenError::Callers { callers });
        }
        if blocks > MOST_BLOCKS {
            return Err(OpenError::Blocks { blocks });
        }
        match CellMemory::open(alloc, Scripts { callers, blocks }, limit) {
            Ok(cells) => Ok(Memory { alloc, cells }),
            Err(CellOpenError::OutOfMemory(error)) => Err(OpenError::OutOfMemory(error)),
            Err(CellOpenError::Limit { limit }) => Err(OpenError::Limit { limit }),
        }
    }

    /// A memory that goes on from what was saved. No call that is saved is run again.
    pub fn reopen(alloc: Global, saved: &Saved) -> Result<Memory, AllocError>
        requires { IsSaved saved.now }
        ensures memory { IfOk result IsMemory }
        ensures callers { IfOk result (λ m. callers_of m ≡ saved_callers saved.now) }
        ensures limit { IfOk result (λ m. limit_of m ≡ saved_limit saved.now) }
        ensures goes_on { IfOk result (λ m. (s : Store) → SavedHolds saved.now s → StartsWith m s) }
        ensures tickets { IfOk result (λ m. (n : ℕ) → n < saved_callers saved.now
            → tickets_before m n ≡ saved_ticket saved.now n) }
        ensures none { IfOk result (λ m.
            (n : ℕ) → n < saved_callers saved.now → HasMadeOf m n []) }
        ensures idle { IfOk result HasNoneOpen }
        ensures seq { IfOk result (λ m. seq_known_in m ≡ saved_seq saved.now) }
    {
        let cells = CellMemory::reopen(alloc, &saved.cells)?;
        Ok(Memory { alloc, cells })
    }

    /// How many callers the memory has.
    pub fn callers(&self) -> u32
        ensures { result ≡ callers_of self.now }
    {
        self.cells.callers()
    }

    /// The last sequence that may be committed.
    pub fn limit(&self) -> u32
        ensures { result ≡ limit_of self.now }
    {
        self.cells.limit()
    }

    /// The most sequences that may be left: all sequences after the last one that the memory knows.
    /// The memory knows the sequence with which it was opened, and those that handles knew when
    /// they left. Other handles may have taken sequences since.
    pub fn sequences_left(&self) -> u32
        ensures { result ≡ left_of_memory self.now }
    {
        self.cells.sequences_left()
    }

    /// Evicts the request of this number: makes it durable, so that a lost handle of the number no
    /// longer lacks a new machine because it isn't (`NotYet::RequestNotDurable`). If the memory has
    /// no such number, nothing is done.
    pub fn evict_request(&mut self, number: u32)
        requires { IsMemory self.old }
        ensures memory { IsMemory self.new }
        ensures still { IsStill self.old self.new }
        ensures none { TakesNone self.old self.new }
        ensures remembers { RemembersAll self.old self.new }
        ensures seq { seq_known_in self.new ≡ seq_known_in self.old }
        ensures evicted { EvictsRequest number self.old self.new }
        ensures same { EvictsNone number self.old self.new }
    {
        self.cells.evict_request(number);
    }

    // The scripts that it runs.
    pub(crate) fn scripts(&self) -> Scripts
        ensures { result ≡ scripts_work_of self.now }
    {
        self.cells.work()
    }

    /// A handle for this number, which goes on where the last handle of the number left. In the
    /// memory's history, the calls that the new handle begins come after all ended calls of handles
    /// that left before.
    pub fn enrol(&mut self, number: u32) -> Result<Handle, EnrolError>
        requires { IsMemory self.old }
        ensures memory { IsMemory self.new }
        ensures still { IsStill self.old self.new }
        ensures handle { IfOk result IsHandle }
        ensures from { IfOk result (IsFrom self.new) }
        ensures number { IfOk result (λ h. number_of_handle h ≡ number) }
        ensures made { IfOk result (λ h. (ms : List Made) → HasMadeOf self.old number ms
            → HasMade h ms) }
        ensures open_call { IfOk result (λ h. (script : List TheInstr)
            → HasOpenOf self.old number script → HasOpen h script) }
        ensures others { KnowsOthers number self.old self.new }
        ensures others_open { OthersStayOpen number self.old self.new }
        ensures cause { IfErr result (IsEnrolCause self.old number) }
        ensures taken { IfOk result (TakesOut self.old self.new) }
        ensures refused { OnErr result (TakesNone self.old self.new) }
        ensures order { IfOk result (KnowsOrdersOf self.old) }
        ensures others_order { OthersKnowOrder number self.old self.new }
        ensures heard { IfOk result (HearsMemory self.old) }
        ensures remembers { RemembersAll self.old self.new }
        ensures seq { IfOk result (λ h. seq_known_to h ≡ seq_known_in self.old) }
        ensures same_seq { seq_known_in self.new ≡ seq_known_in self.old }
    {
        let cells = self.cells.enrol(number)?;
        Ok(Handle { cells })
    }

    /// Closes the memory: the durable words are recovered and saved, and all else is given up. If
    /// a handle is out, and only then, the error hands the memory back.
    pub fn close(self) -> Result<Saved, InUse>
        requires { IsMemory self }
        ensures saved { IfOk result IsSaved }
        ensures history { IfOk result (HasHistory self) }
        ensures callers { IfOk result (λ d. saved_callers d ≡ callers_of self) }
        ensures limit { IfOk result (λ d. saved_limit d ≡ limit_of self) }
        // No handle is out, so no call that was answered is missing.
        ensures here { IfOk result (λ d. HasNoHandleOut self) }
        ensures cause { OnErr result (HasHandleOut self) }
        ensures in_use { IfErr result (λ e. e.0 ≡ self) }
    {
        let Memory { alloc, cells } = self;
        match cells.close() {
            Ok(cells) => Ok(Saved { cells }),
            Err(again) => Err(InUse(Memory {
                alloc,
                cells: again.0,
            })),
        }
    }

    /// Closes the memory, and opens a new one that goes on from what is saved of the old one, with
    /// sequences that begin anew. What is saved is handed out too, with each caller's last ticket
    /// and reply. If a handle is out, and only then, the error hands the old memory back. If memory
    /// runs out for the new table, the error hands out what is saved.
    pub fn renumbered(self) -> Result<Renumbered, RenumberError>
        requires { IsMemory self }
        ensures memory { IfOk result (λ r. IsMemory r.memory) }
        ensures goes_on { IfOk result (λ r. GoesOnFromSaved r.saved r.memory) }
        ensures saved { IfOk result (λ r. LeavesRenumbered self r.saved) }
        ensures anew { IfOk result (λ r. seq_known_in r.memory ≡ 0) }
        ensures cause { IfErr result (IsRenumberCause self) }
    {
        let alloc = self.alloc;
        let saved = match self.close() {
            Ok(saved) => saved.renumbered(),
            Err(InUse(memory)) => return Err(RenumberError::InUse(memory)),
        };
        match Memory::reopen(alloc, &saved) {
            Ok(memory) => Ok(Renumbered { memory, saved }),
            Err(_) => Err(RenumberError::OutOfMemory(saved)),
        }
    }
}
