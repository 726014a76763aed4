//! The durable words of a memory's table, and what is saved in them.

ghost use Rattle.std.specs.Prelude.{◌≡◌, ◌≤◌, ◌↔◌, IfOk, IfErr, IfSome, IsSome, length};
ghost use Rattle.of_cell.specs.declared.word.TheConstants.{GREATEST_LIMIT};
ghost use Rattle.of_memory.specs.Saving.{IsSaved, saved_limit};
ghost use Rattle.of_memory.specs.Words.{AreCounts, AreSizesOf, IsSizeOfTables, durable_count};
ghost use Rattle.of_memory.specs.Words.{AreStartWords, IsWordsCause, WordsHold};
ghost use Rattle.of_memory.specs.declared.error.WordsError.TheVariants.{OutOfMemory};

use crate::error::WordsError;
use crate::image::saved_of;
use crate::saved::Saved;
use of_eval::{Scripts, shape_of};
use of_image::{ImageErr, image_of_words};
use of_mem::{MOST_BLOCKS, MOST_CALLERS};
use of_plan::GREATEST_LIMIT;
use std::alloc::Global;

/// How many words the table of a memory has, and which of them are its durable words: as many as
/// `durable` says, one after the other, from the word `first` on.
#[derive(Clone, Copy, Debug, PartialEq, Eq)]
pub struct TableSizes {
    pub words: u32,
    pub first: u32,
    pub durable: u32,
}

/// The sizes of the table of a memory with these callers and blocks. None if a count is out of its
/// range.
pub fn sizes(callers: u32, blocks: u32) -> Option<TableSizes>
    ensures in_range { IsSome result ↔ AreCounts callers blocks }
    ensures sizes { IfSome result (AreSizesOf callers blocks) }
    ensures tables { IfSome result (λ s. IsSizeOfTables callers blocks s.words) }
{
    if callers == 0 || callers > MOST_CALLERS || blocks > MOST_BLOCKS {
        return None;
    }
    let shape = shape_of(Scripts { callers, blocks });
    Some(TableSizes {
        words: shape.words(),
        first: shape.durable_word(0),
        durable: shape.durable_cells(),
    })
}

// What recovery finds in the durable words of a table for these scripts.
fn find(alloc: Global, scripts: Scripts, limit: u32, words: &[u64]) -> Result<Saved, WordsError>
    requires count { length words.now ≡ durable_count scripts.callers scripts.blocks }
    requires some { 1 ≤ limit }
    requires few { limit ≤ GREATEST_LIMIT }
    ensures saved { IfOk result IsSaved }
    ensures holds { IfOk result (WordsHold scripts.callers scripts.blocks words.now) }
    ensures limit { IfOk result (λ d. saved_limit d ≡ limit) }
    ensures cause { IfErr result (IsWordsCause scripts.callers scripts.blocks limit words.now) }
    ensures back { AreStartWords scripts limit words.now → IfErr result (λ e. e ≡ OutOfMemory) }
{
    let image = match image_of_words(alloc, &scripts.plot(), words) {
        Ok(image) => image,
        Err(ImageErr::Memory) => return Err(WordsError::OutOfMemory),
        Err(ImageErr::Bad { line: _ }) => unreachable!(),
        Err(ImageErr::Unlawful { cell }) => return Err(WordsError::Unlawful { cell }),
    };
    let seq = image.recovered.seq;
    if limit < seq {
        return Err(WordsError::PastLimit { seq });
    }
    Ok(saved_of(image, limit))
}

impl Saved {
    ghost use Rattle.of_eval.specs.declared.scripts.Scripts.{Scripts as TheScripts};
    ghost use Rattle.of_memory.specs.Words.{AreCountsOf};

    /// What recovery finds in the durable words of a memory's table, which were copied out of the
    /// table at any moment, also in the middle of calls. An open transaction is brought to its end.
    /// `limit` is the last sequence that may be committed; it must not be below the sequence in the
    /// words.
    pub fn from_words(
        alloc: Global,
        callers: u32,
        blocks: u32,
        limit: u32,
        words: &[u64],
    ) -> Result<Saved, WordsError>
        ensures saved { IfOk result IsSaved }
        ensures holds { IfOk result (WordsHold callers blocks words.now) }
        ensures limit { IfOk result (λ d. saved_limit d ≡ limit) }
        ensures cause { IfErr result (IsWordsCause callers blocks limit words.now) }
        // Words from which a table may start are taken, unless memory runs out.
        ensures back { (w : TheScripts) → AreCountsOf w callers blocks →
            AreStartWords w limit words.now → IfErr result (λ e. e ≡ OutOfMemory) }
    {
        if callers == 0 || callers > MOST_CALLERS {
            return Err(WordsError::Callers { callers });
        }
        if blocks > MOST_BLOCKS {
            return Err(WordsError::Blocks { blocks });
        }
        if limit == 0 || limit > GREATEST_LIMIT {
            return Err(WordsError::Limit { limit });
        }
        let scripts = Scripts { callers, blocks };
        let count = words.len();
        if count != shape_of(scripts).durable_cells() as usize {
            return Err(WordsError::Count { count });
        }
        find(alloc, scripts, limit, words)
    }
}
