//! What a closed memory leaves.

ghost use Rattle.std.specs.Prelude.{◌≡◌, ◌<◌, ◌≤◌, ◌+◌, ◌↔◌, IfOk, IfSome, IsNone, length, map, slice_index_or};
ghost use Rattle.of_cell.specs.Words.{payload_of};
ghost use Rattle.of_mem.specs.declared.work.TheConstants.{MOST_INSTRS};
ghost use Rattle.of_core.specs.Starts.{start_on};
ghost use Rattle.of_recover.specs.OfShape.{IsShapeRow, row_after_recovery};

use crate::laws::rows_hold_history;
use of_cell::{Shape, payload_of};
use of_mem::{MOST_INSTRS, RawReply, Work};
use of_recover::laws::recovered_cells;
use of_recover::recover;
use of_row::{Pass, Row};
use std::alloc::{AllocError, Global};

/// How many data cells belong to each caller: its ticket, its reply's shape and the numbers in it.
const OWN_CELLS: u32 = MOST_INSTRS as u32 + 2;

/// The shape of a table for a work.
pub(crate) fn shape_for<W: Work>(work: W) -> Shape
    ensures callers { result.callers ≡ W.many work }
    ensures instrs { result.instrs ≡ MOST_INSTRS }
    ensures cells { result.cells ≡ W.size work }
{
    Shape {
        callers: work.callers(),
        instrs: MOST_INSTRS as u32,
        cells: work.cells(),
    }
}

// The words of the data cells in a durable row.
fn data_words(alloc: Global, shape: &Shape, row: &[u64]) -> Result<Vec<u64>, AllocError>
    requires { IsShapeRow shape.now row.now }
    ensures { IfOk result (λ words. words.items ≡ (start_on shape.now row.now).cells) }
{
    let first = shape.data_cell(0) as usize;
    Vec::from_slice(alloc, &row[first..first + shape.cells as usize])
}

// The numbers in these words.
fn numbers(alloc: Global, words: &[u64]) -> Result<Vec<u32>, AllocError>
    ensures { IfOk result (λ numbers. numbers.items ≡ map payload_of words.now) }
{
    words.iter().map(|word| payload_of(*word)).collect(alloc)
}

/// Recovers durable words, in place.
pub(crate) fn recover_words(shape: &Shape, words: &mut Vec<u64>)
    requires { IsShapeRow shape.now words.old.items }
    ensures row { words.new.items ≡ row_after_recovery shape.now words.old.items }
    ensures size { IsShapeRow shape.now words.new.items }
{
    recovered_cells(shape, words);
    recover(shape, words);
}

/// What a closed memory leaves: its durable words, recovered.
#[derive(Drop)]
pub struct SavedCells<W: Work> {
    pub(crate) work: W,
    pub(crate) shape: Shape,
    pub(crate) limit: u32,
    pub(crate) row: Vec<u64>,
}

impl<W: Work> SavedCells<W> {
    ghost use Rattle.of_core.specs.Fit.{IsEmptyWithRoom};
    ghost use Rattle.of_row.specs.Rows.{key_of, view_of_pass, IsRowPass, IsFirstPass};
    ghost use Rattle.of_row.specs.Gathered.{KeepsAsked};
    ghost use Rattle.of_cells.specs.Serving.{durable_count};
    ghost use Rattle.of_cells.specs.Saving.{IsSavedCells, HoldsLawful, SavesHistory, saved_work};
    ghost use Rattle.of_cells.specs.Saving.{saved_callers, saved_limit, saved_cells, saved_ticket};
    ghost use Rattle.of_cells.specs.Saving.{IsReplyIn, KeepsOwnCells};

    // Loads the durable words of a row on which no caller makes a step any more: they alone are
    // left, as after a crash. Then it recovers them. `words` is empty and has room for them.
    pub(crate) fn close(row: &Row<W>, mut pass: Pass, mut words: Vec<u64>) -> SavedCells<W>
        requires row { IsRowPass row.now pass }
        requires first { IsFirstPass pass }
        requires keeps { KeepsAsked (key_of row.now).callers (view_of_pass pass) }
        requires room { IsEmptyWithRoom (durable_count row.now) words }
        ensures work { saved_work result ≡ (key_of row.now).work }
        ensures callers { saved_callers result ≡ (key_of row.now).callers }
        ensures limit { saved_limit result ≡ (key_of row.now).limit }
        ensures saved { IsSavedCells W.many W.size W.meaning W.lawful result }
        ensures lawful { HoldsLawful W.lawful result }
        ensures leads { SavesHistory W.meaning row.now (view_of_pass pass) result }
        ensures own { KeepsOwnCells W.meaning row.now result }
    {
        let work = row.work();
        let limit = row.limit();
        rows_hold_history(work, limit);
        let shape = row.shape();
        row.load_durable(&mut pass, &mut words);
        recover_words(&shape, &mut words);
        SavedCells {
            work,
            shape,
            limit,
            row: words,
        }
    }

    /// The work whose cells are saved.
    pub fn work(&self) -> W
        ensures { result ≡ saved_work self.now }
    {
        self.work
    }

    /// How many callers the saved memory has.
    pub fn callers(&self) -> u32
        ensures { result ≡ saved_callers self.now }
    {
        self.shape.callers
    }

    /// The limit of a memory that goes on from what is saved: the last sequence that it may commit.
    pub fn limit(&self) -> u32
        ensures { result ≡ saved_limit self.now }
    {
        self.limit
    }

    /// The numbers in the data cells. The error is that memory ran out.
    pub fn numbers(&self, alloc: Global) -> Result<Vec<u32>, AllocError>
        requires { IsSavedCells W.many W.size W.meaning W.lawful self.now }
        ensures { IfOk result (λ cells. cells.items ≡ saved_cells self.now) }
    {
        let words = data_words(alloc, &self.shape, &self.row)?;
        let cells = numbers(alloc, &words)?;
        Ok(cells)
    }

    // The number in the word of a data cell.
    fn word_number(&self, cell: u32) -> u32
        requires saved { IsSavedCells W.many W.size W.meaning W.lawful self.now }
        requires cell { cell < W.size (saved_work self.now) }
        ensures { let words = (start_on self.now.shape self.now.row.items).cells in
            result ≡ payload_of (slice_index_or words cell 0) }
    {
        let place = self.shape.data_cell(cell);
        payload_of(self.row[place as usize])
    }

    /// The number in a data cell.
    pub fn number(&self, cell: u32) -> u32
        requires saved { IsSavedCells W.many W.size W.meaning W.lawful self.now }
        requires cell { cell < W.size (saved_work self.now) }
        ensures { result ≡ slice_index_or (saved_cells self.now) cell 0 }
    {
        self.word_number(cell)
    }

    /// How many calls of a caller are saved: the ticket of the caller's last saved call, also if
    /// another caller finished this call.
    pub fn ticket(&self, number: u32) -> u32
        requires saved { IsSavedCells W.many W.size W.meaning W.lawful self.now }
        requires number { number < saved_callers self.now }
        ensures { result ≡ saved_ticket self.now number }
    {
        self.number(number * OWN_CELLS)
    }

    // The reply in a caller's own cells.
    fn reply(&self, number: u32) -> RawReply
        requires saved { IsSavedCells W.many W.size W.meaning W.lawful self.now }
        requires number { number < saved_callers self.now }
        ensures { IsReplyIn self.now number result }
    {
        let own = number * OWN_CELLS;
        let mut values = [0; MOST_INSTRS];
        for place in 0..MOST_INSTRS {
            values[place] = self.number(own + 2 + place as u32);
        }
        RawReply {
            shape: self.number(own + 1),
            values,
        }
    }

    /// The ticket of a caller's last saved call, and the call's reply as data cells hold it. None
    /// if no call of the caller is saved. A saved call may be one whose caller was stopped before
    /// it got the reply.
    pub fn last_reply(&self, number: u32) -> Option<(u32, RawReply)>
        requires saved { IsSavedCells W.many W.size W.meaning W.lawful self.now }
        requires number { number < saved_callers self.now }
        ensures none { IsNone result ↔ (saved_ticket self.now number ≡ 0) }
        ensures ticket { IfSome result (λ r. r.0 ≡ saved_ticket self.now number) }
        ensures reply { IfSome result (λ r. IsReplyIn self.now number r.1) }
    {
        let ticket = self.ticket(number);
        if ticket == 0 {
            return None;
        }
        Some((ticket, self.reply(number)))
    }
}
