//! A memory of cells: it is opened, gives out handles, and is closed.

mod looking;

ghost use Rattle.std.specs.Prelude.{◌≡◌};
ghost use Rattle.of_cell.specs.declared.word.TheConstants.{GREATEST_LIMIT};

use crate::error::{EnrolError, InUse, OpenError};
use crate::handle::{APART, CellHandle};
use crate::saved::{SavedCells, shape_for};
use crate::seating::{all_here, gather, put_at, seat_all, take_at};
use crate::telling::exchange;
use of_caller::Caller;
use of_cell::{GREATEST_LIMIT, Shape};
use of_mem::Work;
use of_row::{Pass, Row};
use std::alloc::{AllocError, Global};
use std::sync::Arc;

/// A table of cells on which threads run the operations of a work, each by a handle of its own.
#[derive(Drop)]
pub struct CellMemory<W: Work> {
    alloc: Global,
    row: Arc<Row<W>, Global>,
    /// The row's first pass: it has enrolled each number.
    pass: Pass,
    /// What the handles that have left knew.
    known: Option<Pass>,
    /// The last sequence that the memory knows: the greatest that a handle that has left knew, or
    /// the one with which the memory was opened.
    seq: u32,
    /// The callers that have no handle, by their numbers.
    callers: Vec<Option<Caller<W>>>,
    /// Room into which a close loads the durable words, so that the close allocates nothing. The
    /// room is empty until then, so that its pages are not touched while the memory is in use.
    room: Vec<u64>,
}

impl<W: Work> CellMemory<W> {
    ghost use Rattle.std.specs.Prelude.{◌≡◌, ◌<◌, ◌≤◌, ℕ, List, [], IfOk, IfErr};
    ghost use Rattle.std.proofs.Common.{replicate};
    ghost use Rattle.of_row.specs.Rows.{key_of};
    ghost use Rattle.of_row.specs.Keys.{FitsWork};
    ghost use Rattle.of_row.specs.Passes.{IsFirst};
    ghost use Rattle.of_row.specs.Views.{EndedCall};
    ghost use Rattle.of_cells.specs.Serving.{Serves, ended_of};
    ghost use Rattle.of_cells.specs.Called.{IsOpenAt};
    ghost use Rattle.of_cells.specs.Saving.{IsSavedCells, HoldsLawful, saved_cells, saved_work};
    ghost use Rattle.of_cells.specs.Saving.{saved_callers, saved_limit, saved_ticket};
    ghost use Rattle.of_cells.specs.Handles.{IsCellHandle, HasOpen, number_of_handle, made_by};
    ghost use Rattle.of_cells.specs.Memories.{IsCellMemory, row_of, work_of, callers_of, limit_of};
    ghost use Rattle.of_cells.specs.Memories.{cell_count_of, BeganLawful};
    ghost use Rattle.of_cells.specs.Memories.{cells_before, tickets_before, HasMadeOf, HasOpenOf};
    ghost use Rattle.of_cells.specs.Memories.{HasNoneOpen, HasNoHandleOut, HasHandleOut, IsFrom, IsStill};
    ghost use Rattle.of_cells.specs.Memories.{KnowsOthers, OthersStayOpen, HasHistory};
    ghost use Rattle.of_cells.specs.Memories.{IsOpenCause, IsEnrolCause, HasMadeNothing};
    ghost use Rattle.of_cells.specs.Memories.{TakesOut, TakesNone, PutsCaller, OthersKnowOrder};
    ghost use Rattle.of_cells.specs.Memories.{RemembersAll, SavesOwnCells, IsLimit, events_heard};
    ghost use Rattle.of_cells.specs.Lost.{EvictsRequest, EvictsNone};
    ghost use Rattle.of_cells.specs.Telling.{KnowsOrdersOf, HearsMemory};
    ghost use Rattle.of_cells.specs.Serving.{events_known_to};
    ghost use mathlib.Core.List.{IsPrefix};
    ghost use Rattle.std.specs.Prelude.{OnErr};
    ghost use Rattle.of_cells.specs.Saving.{saved_seq};
    ghost use Rattle.of_cells.specs.Sequences.{seq_known_to, seq_known_in, left_of_memory};
    ghost use Rattle.std.specs.Prelude.{max};

    /// A memory of zeros for this work. `limit` is the last sequence that may be committed.
    pub fn open(alloc: Global, work: W, limit: u32) -> Result<CellMemory<W>, OpenError>
        ensures memory { IfOk result (IsCellMemory W.meaning) }
        ensures work { IfOk result (λ m. work_of m ≡ work) }
        ensures callers { IfOk result (λ m. callers_of m ≡ W.many work) }
        ensures limit { IfOk result (λ m. limit_of m ≡ limit) }
        ensures within { IfOk result (λ m. IsLimit limit) }
        ensures size { IfOk result (λ m. cell_count_of m ≡ W.size work) }
        ensures zeros { IfOk result (λ m. cells_before W.meaning m ≡ replicate (W.size work) 0) }
        ensures lawful { IfOk result (BeganLawful W.size W.meaning W.lawful) }
        ensures tickets { IfOk result (λ m. (n : ℕ) → tickets_before W.meaning m n ≡ 0) }
        ensures none { IfOk result HasMadeNothing }
        ensures idle { IfOk result HasNoneOpen }
        ensures seq { IfOk result (λ m. seq_known_in m ≡ 0) }
        ensures cause { IfErr result (IsOpenCause limit) }
    {
        if limit == 0 || limit > GREATEST_LIMIT {
            return Err(OpenError::Limit { limit });
        }
        match CellMemory::zeros(alloc, work, limit) {
            Ok(memory) => Ok(memory),
            Err(error) => Err(OpenError::OutOfMemory(error)),
        }
    }

    // The same, with a limit in its range.
    fn zeros(alloc: Global, work: W, limit: u32) -> Result<CellMemory<W>, AllocError>
        requires { limit ≤ GREATEST_LIMIT }
        ensures memory { IfOk result (IsCellMemory W.meaning) }
        ensures work { IfOk result (λ m. work_of m ≡ work) }
        ensures callers { IfOk result (λ m. callers_of m ≡ W.many work) }
        ensures limit { IfOk result (λ m. limit_of m ≡ limit) }
        ensures size { IfOk result (λ m. cell_count_of m ≡ W.size work) }
        ensures zeros { IfOk result (λ m. cells_before W.meaning m ≡ replicate (W.size work) 0) }
        ensures lawful { IfOk result (BeganLawful W.size W.meaning W.lawful) }
        ensures tickets { IfOk result (λ m. (n : ℕ) → tickets_before W.meaning m n ≡ 0) }
        ensures none { IfOk result HasMadeNothing }
        ensures idle { IfOk result HasNoneOpen }
        ensures seq { IfOk result (λ m. seq_known_in m ≡ 0) }
    {
        let (row, pass) = Row::new(alloc, shape_for(work), limit, work)?;
        let memory = CellMemory::over(alloc, row, pass, 0)?;
        Ok(memory)
    }

    /// A memory that goes on from what was saved. No call that is saved is run again.
    pub fn reopen(alloc: Global, saved: &SavedCells<W>) -> Result<CellMemory<W>, AllocError>
        requires { IsSavedCells W.many W.size W.meaning W.lawful saved.now }
        ensures memory { IfOk result (IsCellMemory W.meaning) }
        ensures work { IfOk result (λ m. work_of m ≡ saved_work saved.now) }
        ensures callers { IfOk result (λ m. callers_of m ≡ saved_callers saved.now) }
        ensures limit { IfOk result (λ m. limit_of m ≡ saved_limit saved.now) }
        ensures size { IfOk result (λ m. cell_count_of m ≡ W.size (saved_work saved.now)) }
        ensures goes_on { IfOk result (λ m. cells_before W.meaning m ≡ saved_cells saved.now) }
        ensures lawful { IfOk result (BeganLawful W.size W.meaning W.lawful) }
        ensures tickets { IfOk result (λ m.
            (n : ℕ) → tickets_before W.meaning m n ≡ saved_ticket saved.now n) }
        ensures none { IfOk result HasMadeNothing }
        ensures idle { IfOk result HasNoneOpen }
        ensures seq { IfOk result (λ m. seq_known_in m ≡ saved_seq saved.now) }
    {
        let (row, pass) = Row::start(alloc, saved.shape, saved.limit, saved.work, &saved.row)?;
        let memory = CellMemory::over(alloc, row, pass, saved.seq())?;
        Ok(memory)
    }

    // A memory over a row with its first pass.
    fn over(alloc: Global, row: Row<W>, pass: Pass, seq: u32) -> Result<CellMemory<W>, AllocError>
        requires { IsFirst row pass }
        ensures memory { IfOk result (IsCellMemory W.meaning) }
        ensures row { IfOk result (λ m. row_of m ≡ row) }
        ensures none { IfOk result HasMadeNothing }
        ensures idle { IfOk result HasNoneOpen }
        ensures seq { IfOk result (λ m. seq_known_in m ≡ seq) }
    {
        let (callers, pass) = seat_all(alloc, &row, pass)?;
        let room = Vec::with_capacity(alloc, row.shape().durable_cells() as usize)?;
        let row = Arc::new(alloc, row)?;
        Ok(CellMemory {
            alloc,
            row,
            pass,
            known: None,
            seq,
            callers,
            room,
        })
    }

    /// The work whose operations the memory runs.
    pub fn work(&self) -> W
        ensures { result ≡ work_of self.now }
    {
        self.row.work()
    }

    /// How many callers the memory has.
    pub fn callers(&self) -> u32
        ensures { result ≡ callers_of self.now }
    {
        self.row.shape().callers
    }

    /// The last sequence that may be committed.
    pub fn limit(&self) -> u32
        ensures { result ≡ limit_of self.now }
    {
        self.row.limit()
    }

    /// The most sequences that may be left: all sequences after the last one that the memory knows.
    /// The memory knows the sequence with which it was opened, and those that handles knew when
    /// they left. Other handles may have taken sequences since.
    pub fn sequences_left(&self) -> u32
        ensures { result ≡ left_of_memory self.now }
    {
        self.limit().saturating_sub(self.seq)
    }

    /// Evicts the request of this number: makes it durable, so that a lost handle of the number no
    /// longer lacks a new machine because it isn't (`NotYet::RequestNotDurable`). If the memory has
    /// no such number, nothing is done.
    pub fn evict_request(&mut self, number: u32)
        requires { IsCellMemory W.meaning self.old }
        ensures memory { IsCellMemory W.meaning self.new }
        ensures still { IsStill self.old self.new }
        ensures none { TakesNone self.old self.new }
        ensures remembers { RemembersAll W.meaning self.old self.new }
        ensures seq { seq_known_in self.new ≡ seq_known_in self.old }
        ensures evicted { EvictsRequest number self.old self.new }
        ensures same { EvictsNone number self.old self.new }
    {
        if number < self.callers() {
            let request = self.row.shape().request(number);
            self.row.evict(&mut self.pass, request);
        }
    }

    /// A handle for this number, which goes on where the last handle of the number left.
    pub fn enrol(&mut self, number: u32) -> Result<CellHandle<W>, EnrolError>
        requires { IsCellMemory W.meaning self.old }
        ensures memory { IsCellMemory W.meaning self.new }
        ensures still { IsStill self.old self.new }
        ensures handle { IfOk result (IsCellHandle W.meaning) }
        ensures from { IfOk result (IsFrom self.new) }
        ensures number { IfOk result (λ h. number_of_handle h ≡ number) }
        ensures made { IfOk result (λ h. (es : List EndedCall)
            → HasMadeOf self.old number es → made_by h ≡ es) }
        ensures open_call { IfOk result (λ h. (op : List ℕ)
            → HasOpenOf self.old number op → HasOpen h op) }
        ensures others { KnowsOthers number self.old self.new }
        ensures others_open { OthersStayOpen number self.old self.new }
        ensures cause { IfErr result (IsEnrolCause self.old number) }
        ensures taken { IfOk result (TakesOut self.old self.new) }
        ensures refused { OnErr result (TakesNone self.old self.new) }
        ensures order { IfOk result (KnowsOrdersOf W.meaning self.old) }
        ensures others_order { OthersKnowOrder W.meaning number self.old self.new }
        // The handle knows of all ended calls of handles that have left, so its calls come later.
        ensures heard { IfOk result (HearsMemory W.meaning self.old) }
        ensures remembers { RemembersAll W.meaning self.old self.new }
        ensures seq { IfOk result (λ h. seq_known_to h ≡ seq_known_in self.old) }
        ensures same_seq { seq_known_in self.new ≡ seq_known_in self.old }
    {
        if number >= self.callers() {
            return Err(EnrolError::NoCaller { number });
        }
        let Ok(row) = Arc::try_clone(&self.row) else {
            return Err(EnrolError::OutOfMemory(AllocError));
        };
        match take_at(&mut self.callers, number as usize) {
            Some(mut caller) => {
                exchange(&self.row, &mut caller, &mut self.known);
                Ok(CellHandle {
                    front: [0; APART],
                    row,
                    number,
                    seq: self.seq,
                    caller,
                    behind: [0; APART],
                })
            }
            None => Err(EnrolError::Enrolled { number }),
        }
    }

    // Takes a caller in that has no handle any more, with all that it knows.
    pub(crate) fn take_in(&mut self, number: u32, seq: u32, mut caller: Caller<W>)
        requires memory { IsCellMemory W.meaning self.old }
        requires caller { Serves W.meaning (row_of self.old) number caller }
        ensures memory { IsCellMemory W.meaning self.new }
        ensures still { IsStill self.old self.new }
        ensures made { HasMadeOf self.new number (ended_of caller) }
        ensures open_call { (op : List ℕ) → IsOpenAt op caller → HasOpenOf self.new number op }
        ensures others { KnowsOthers number self.old self.new }
        ensures others_open { OthersStayOpen number self.old self.new }
        ensures back { PutsCaller number caller self.old self.new }
        ensures others_order { OthersKnowOrder W.meaning number self.old self.new }
        ensures known { IsPrefix (events_known_to caller) (events_heard self.new) }
        ensures remembers { IsPrefix (events_heard self.old) (events_heard self.new) }
        ensures seq { seq_known_in self.new ≡ max (seq_known_in self.old) seq }
    {
        exchange(&self.row, &mut caller, &mut self.known);
        self.seq = self.seq.max(seq);
        put_at(&mut self.callers, number as usize, caller);
    }

    /// Closes the memory: the durable words are recovered and saved, and all else is given up. If
    /// a handle is out, the error hands the memory back. A close allocates nothing.
    pub fn close(self) -> Result<SavedCells<W>, InUse<W>>
        requires { IsCellMemory W.meaning self }
        ensures saved { IfOk result (IsSavedCells W.many W.size W.meaning W.lawful) }
        ensures lawful { IfOk result (HoldsLawful W.lawful) }
        ensures history { IfOk result (HasHistory W.meaning self) }
        ensures own { IfOk result (SavesOwnCells W.meaning self) }
        ensures work { IfOk result (λ d. saved_work d ≡ work_of self) }
        ensures callers { IfOk result (λ d. saved_callers d ≡ callers_of self) }
        ensures limit { IfOk result (λ d. saved_limit d ≡ limit_of self) }
        // No handle is out, so no call that was answered is missing.
        ensures here { IfOk result (λ d. HasNoHandleOut self) }
        ensures cause { OnErr result (HasHandleOut self) }
        ensures in_use { IfErr result (λ e. e.0 ≡ self) }
    {
        if all_here(&self.callers) {
            Ok(self.close_at_home())
        } else {
            Err(InUse(self))
        }
    }

    // The same, while no handle is out. No caller makes a step then, so the words may be loaded
    // though the row is shared.
    fn close_at_home(self) -> SavedCells<W>
        requires memory { IsCellMemory W.meaning self }
        requires here { HasNoHandleOut self }
        ensures saved { IsSavedCells W.many W.size W.meaning W.lawful result }
        ensures lawful { HoldsLawful W.lawful result }
        ensures history { HasHistory W.meaning self result }
        ensures own { SavesOwnCells W.meaning self result }
        ensures work { saved_work result ≡ work_of self }
        ensures callers { saved_callers result ≡ callers_of self }
        ensures limit { saved_limit result ≡ limit_of self }
    {
        let CellMemory {
            row,
            pass,
            mut callers,
            room,
            ..
        } = self;
        let pass = gather(&row, pass, &mut callers);
        SavedCells::close(&row, pass, room)
    }

    // The sizes of its table, which are its work's.
    pub(crate) fn shape(&self) -> Shape
        ensures { FitsWork W.many W.size (key_of (row_of self.now)) }
    {
        self.row.shape()
    }

    // Where it takes its memory from.
    pub(crate) fn alloc(&self) -> Global {
        self.alloc
    }
}
