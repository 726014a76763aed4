//! The durable words of a table, and what is saved in them.

ghost use Rattle.std.specs.Prelude.{◌≡◌, ◌≤◌, IfOk, IfErr};
ghost use Rattle.of_cell.specs.declared.word.TheConstants.{GREATEST_LIMIT};
ghost use Rattle.of_cells.specs.Words.{AreSizesOf};

use crate::error::WordsError;
use crate::saved::{SavedCells, recover_words, shape_for};
use of_cell::{GREATEST_LIMIT, seq_of};
use of_mem::Work;
use std::alloc::Global;

/// How many words the table of a work has, and which of them are its durable words: as many as
/// `durable` says, one after the other, from the word `first` on.
#[derive(Clone, Copy, Debug, PartialEq, Eq)]
pub struct TableSizes {
    pub words: u32,
    pub first: u32,
    pub durable: u32,
}

/// The sizes of the table of a memory for a work.
pub fn sizes<W: Work>(work: W) -> TableSizes
    ensures { AreSizesOf (W.many work) (W.size work) result }
{
    let shape = shape_for(work);
    TableSizes {
        words: shape.words(),
        first: shape.durable_word(0),
        durable: shape.durable_cells(),
    }
}

impl<W: Work> SavedCells<W> {
    ghost use Rattle.of_cells.specs.Saving.{IsSavedCells, saved_limit, saved_words};
    ghost use Rattle.of_cells.specs.Words.{IsStartFor, AreDurableWords, IsSavedRow, WordsHold};
    ghost use Rattle.of_cells.specs.Words.{IsWordsCause};

    /// What recovery finds in the durable words of a table of this work, which were copied out of
    /// the table at any moment, also in the middle of calls. An open transaction is brought to its
    /// end. `limit` is the last sequence that may be committed: 1 to `GREATEST_LIMIT`, and not
    /// below the sequence that is found.
    pub fn from_words(
        alloc: Global,
        work: W,
        limit: u32,
        words: &[u64],
    ) -> Result<SavedCells<W>, WordsError>
        requires { AreDurableWords W.many W.size W.meaning W.lawful work words.now }
        ensures saved { IfOk result (IsSavedCells W.many W.size W.meaning W.lawful) }
        ensures holds { IfOk result (WordsHold W.many W.size work words.now) }
        ensures limit { IfOk result (λ d. saved_limit d ≡ limit) }
        ensures cause { IfErr result (IsWordsCause W.many W.size work limit words.now) }
    {
        if limit == 0 || limit > GREATEST_LIMIT {
            return Err(WordsError::Limit { limit });
        }
        let shape = shape_for(work);
        let count = words.len();
        if count != shape.durable_cells() as usize {
            return Err(WordsError::Count { count });
        }
        let Ok(mut row) = Vec::from_slice(alloc, words) else {
            return Err(WordsError::OutOfMemory);
        };
        recover_words(&shape, &mut row);
        let seq = seq_of(row[0]);
        if limit < seq {
            return Err(WordsError::PastLimit { seq });
        }
        Ok(SavedCells::of_recovered(work, limit, row))
    }

    /// The durable words that are saved, recovered.
    pub fn words(&self) -> &[u64]
        ensures { result.now ≡ saved_words self.now }
    {
        &self.row
    }

    /// A recovered row of durable words as what is saved, with this limit: 1 to `GREATEST_LIMIT`. A
    /// table must be able to start from the row, and recovery must leave the row as it is.
    pub fn of_recovered(work: W, limit: u32, row: Vec<u64>) -> SavedCells<W>
        requires few { limit ≤ GREATEST_LIMIT }
        requires row { IsStartFor W.many W.size W.meaning W.lawful work limit row.items }
        ensures saved { IsSavedCells W.many W.size W.meaning W.lawful result }
        ensures row { IsSavedRow W.many W.size work row.items result }
        ensures words { saved_words result ≡ row.items }
        ensures limit { saved_limit result ≡ limit }
    {
        SavedCells {
            work,
            shape: shape_for(work),
            limit,
            row,
        }
    }
}
