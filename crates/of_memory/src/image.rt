//! The text of what is saved, and what is saved from its text.

ghost use Rattle.std.specs.Prelude.{◌≡◌, ◌≤◌, ◌+◌, IfOk, IfErr, length, slice_range};
ghost use Rattle.of_cell.specs.declared.word.TheConstants.{GREATEST_LIMIT};
ghost use Rattle.of_cell.specs.Cells.{durable_cells, table_words};
ghost use Rattle.of_mem.specs.declared.work.TheConstants.{MOST_INSTRS};
ghost use Rattle.of_recover.specs.Row.{IsDurableRow};
ghost use Rattle.of_report.specs.Image.{IsTableImage};
ghost use Rattle.of_memory.specs.Saving.{IsSaved, saved_limit};
ghost use Rattle.of_memory.specs.Texts.{IsImageOfSaved, IsPastAll};

use crate::error::ImageTextError;
use crate::saved::Saved;
use of_cell::Shape;
use of_cells::SavedCells;
use of_eval::{Scripts, shape_of};
use of_image::{ImageErr, Limits, image_parse_within, image_print};
use of_plan::GREATEST_LIMIT;
use of_report::Image;
use std::alloc::{AllocError, Global};

// The words of a table that starts from a durable row.
fn table_of(alloc: Global, shape: &Shape, row: &[u64]) -> Result<Vec<u64>, AllocError>
    requires { IsDurableRow shape.now.callers shape.now.cells row.now }
    ensures size { IfOk result (λ words. length words.items
        ≡ table_words shape.now.callers shape.now.instrs shape.now.cells) }
    ensures durable { let cells = durable_cells shape.now.callers shape.now.cells in
        IfOk result (λ words. slice_range words.items cells (cells + cells) ≡ row.now) }
{
    let mut words = Vec::from_slice(alloc, row)?;
    words.extend_from_slice(row)?;
    words.resize(shape.words() as usize, 0)?;
    Ok(words)
}

impl Saved {
    ghost use Rattle.std.specs.Prelude.{MatchResult};
    ghost use Rattle.of_memory.specs.declared.saved.Saved.{Saved as AnySaved};
    ghost use Rattle.of_memory.specs.declared.error.ImageTextError.TheVariants.{OutOfMemory};
    ghost use Rattle.of_memory.specs.Texts.{IsTextOfSaved, TextHolds, IsReadBack, IsTextCause};

    /// What is saved, as a text: an image, as the command line reads and writes it. The text has
    /// the store, and the last ticket and reply of each caller, but not the limit. The command line
    /// reads it only if a plan may have as many callers and blocks. The error is that memory ran
    /// out.
    pub fn image_text(&self, alloc: Global) -> Result<Vec<u8>, AllocError>
        requires { IsSaved self.now }
        ensures printed { IfOk result (λ text. IsTextOfSaved self.now text.items) }
        // The text can be read back.
        ensures holds { IfOk result (λ text. TextHolds text.items self.now) }
    {
        let scripts = self.scripts();
        let words = table_of(alloc, &shape_of(scripts), self.cells.words())?;
        image_print(alloc, &scripts.plot(), &words)
    }

    /// What is saved, read from a text that `image_text` or the command line has written. An open
    /// transaction is brought to its end. The limit is the greatest one.
    pub fn from_image(alloc: Global, text: &[u8]) -> Result<Saved, ImageTextError>
        ensures saved { IfOk result IsSaved }
        ensures holds { IfOk result (TextHolds text.now) }
        ensures limit { IfOk result (λ d. saved_limit d ≡ GREATEST_LIMIT) }
        ensures cause { IfErr result (IsTextCause text.now) }
        // A text that was written for something saved is read, unless memory runs out.
        ensures back { (d : AnySaved) → IsSaved d → TextHolds text.now d →
            MatchResult result (IsReadBack d) (λ e. e ≡ OutOfMemory) }
    {
        match image_parse_within(alloc, Limits::Table, text) {
            Ok(image) => save_image(image),
            Err(ImageErr::Memory) => Err(ImageTextError::OutOfMemory),
            Err(ImageErr::Bad { line }) => Err(ImageTextError::Bad { line }),
            Err(ImageErr::Unlawful { cell }) => Err(ImageTextError::Unlawful { cell }),
        }
    }
}

// What an image holds, if its sequence is within the limits.
fn save_image(image: Image) -> Result<Saved, ImageTextError>
    requires { IsTableImage MOST_INSTRS image }
    ensures saved { IfOk result IsSaved }
    ensures image { IfOk result (IsImageOfSaved image) }
    ensures limit { IfOk result (λ d. saved_limit d ≡ GREATEST_LIMIT) }
    ensures past { IfErr result (IsPastAll image) }
{
    let seq = image.recovered.seq;
    if seq > GREATEST_LIMIT {
        return Err(ImageTextError::PastLimits { seq });
    }
    Ok(saved_of(image, GREATEST_LIMIT))
}

// What an image holds, with this limit.
pub(crate) fn saved_of(image: Image, limit: u32) -> Saved
    requires image { IsTableImage MOST_INSTRS image }
    requires some { 1 ≤ limit }
    requires few { limit ≤ GREATEST_LIMIT }
    requires within { image.seq ≤ limit }
    ensures saved { IsSaved result }
    ensures image { IsImageOfSaved image result }
    ensures limit { saved_limit result ≡ limit }
{
    let scripts = Scripts {
        callers: image.callers,
        blocks: image.blocks,
    };
    Saved {
        cells: SavedCells::of_recovered(scripts, limit, image.durable),
    }
}
