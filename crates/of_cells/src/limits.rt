//! What is saved, with another limit or with sequences that begin anew.

ghost use Rattle.std.specs.Prelude.{◌≡◌, false};
ghost use Rattle.of_recover.specs.OfShape.{IsShapeRow, row_after_recovery};
ghost use Rattle.of_recover.specs.Renumbered.{BeginsAnew};

use crate::error::LimitError;
use crate::saved::SavedCells;
use of_cell::{GREATEST_LIMIT, Shape, seq_of};
use of_mem::Work;
use of_recover::laws::{recovered_twice, renumbered_row};
use of_recover::renumber;

// Begins the sequences of a recovered row anew, in place.
fn renumber_words(shape: &Shape, words: &mut Vec<u64>)
    requires row { IsShapeRow shape.now words.old.items }
    requires recovered { row_after_recovery shape.now words.old.items ≡ words.old.items }
    ensures { BeginsAnew shape.now.callers shape.now.cells words.old.items words.new.items }
{
    recovered_twice(shape, words);
    renumbered_row(shape, words);
    renumber(shape, words);
}

impl<W: Work> SavedCells<W> {
    ghost use Rattle.std.specs.Prelude.{◌≡◌, IfOk, IfErr, OnErr};
    ghost use Rattle.of_cells.specs.Saving.{IsSavedCells, SavesSame, IsNoLimitOf};
    ghost use Rattle.of_cells.specs.Saving.{saved_limit, saved_seq};
    ghost use Rattle.of_cells.specs.Memories.{IsLimit};
    ghost use Rattle.of_cells.specs.Sequences.{left_of_saved};

    /// The last sequence that was committed.
    pub fn seq(&self) -> u32
        requires { IsSavedCells W.many W.size W.meaning W.lawful self.now }
        ensures { result ≡ saved_seq self.now }
    {
        seq_of(self.row[0])
    }

    /// How many sequences are left for a memory that goes on from what is saved.
    pub fn sequences_left(&self) -> u32
        requires { IsSavedCells W.many W.size W.meaning W.lawful self.now }
        ensures { result ≡ left_of_saved self.now }
    {
        self.limit.saturating_sub(self.seq())
    }

    /// The saved cells with another limit. The limit must be 1 to `GREATEST_LIMIT`, and not below
    /// the last committed sequence. If it isn't, the error hands back the saved cells, unchanged.
    pub fn with_limit(self, limit: u32) -> Result<SavedCells<W>, LimitError<W>>
        requires { IsSavedCells W.many W.size W.meaning W.lawful self }
        ensures saved { IfOk result (IsSavedCells W.many W.size W.meaning W.lawful) }
        ensures same { IfOk result (SavesSame self) }
        ensures seq { IfOk result (λ d. saved_seq d ≡ saved_seq self) }
        ensures limit { IfOk result (λ d. saved_limit d ≡ limit) }
        ensures refused { IfErr result (λ e. e.0 ≡ self) }
        ensures cause { OnErr result (IsNoLimitOf self limit) }
        ensures within { IfOk result (λ d. IsLimit limit) }
    {
        if limit == 0 || limit > GREATEST_LIMIT || limit < self.seq() {
            return Err(LimitError(self));
        }
        Ok(SavedCells { limit, ..self })
    }

    /// Keeps the numbers in the data cells, and sets the last committed sequence to 0. A memory
    /// that goes on from the result has all sequences up to its limit left.
    pub fn renumbered(mut self) -> SavedCells<W>
        requires { IsSavedCells W.many W.size W.meaning W.lawful self }
        ensures saved { IsSavedCells W.many W.size W.meaning W.lawful result }
        ensures same { SavesSame self result }
        ensures seq { saved_seq result ≡ 0 }
        ensures limit { saved_limit result ≡ saved_limit self }
    {
        renumber_words(&self.shape, &mut self.row);
        self
    }
}
