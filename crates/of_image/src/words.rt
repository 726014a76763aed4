//! Images of durable words that come from no text.

ghost use Rattle.std.specs.Prelude.{◌≡◌, IfOk, IfErr, MatchResult};
ghost use Rattle.of_mem.specs.declared.work.TheConstants.{MOST_INSTRS};
ghost use Rattle.of_mem.specs.Plots.{data_cell_count};
ghost use Rattle.of_recover.specs.Row.{IsDurableRow};
ghost use Rattle.of_report.specs.Image.{Image as PlainImage, IsRestored, IsTableImage};
ghost use Rattle.of_report.specs.ImageRow.{row_in};
ghost use Rattle.of_image.specs.Parsed.{WordsAreRefused};
ghost use Rattle.of_image.specs.declared.error.ImageErr.TheVariants.{Memory};

use crate::error::ImageErr;
use crate::restore::restore;
use of_mem::Plot;
use of_report::Image;
use std::alloc::Global;

/// The image of a table's durable words: what recovery finds in them. An error names a cell, or
/// means out of memory; it never names a line.
pub fn image_of_words(alloc: Global, plot: &Plot, words: &[u64]) -> Result<Image, ImageErr>
    requires instrs { plot.now.instrs ≡ MOST_INSTRS }
    requires row { IsDurableRow plot.now.callers (data_cell_count plot.now) words.now }
    ensures ok { IfOk result (λ image.
        IsRestored MOST_INSTRS (row_in plot.now words.now) image) }
    ensures image { IfOk result (λ image. IsTableImage MOST_INSTRS image) }
    // If the error names a cell, this is the first at fault.
    ensures err { IfErr result (WordsAreRefused (row_in plot.now words.now)) }
    // Words that have an image are answered by it, unless memory runs out.
    ensures only { (image : PlainImage) →
        IsRestored MOST_INSTRS (row_in plot.now words.now) image →
        MatchResult result (λ i. i ≡ image) (λ e. e ≡ Memory) }
{
    let row = Vec::from_slice(alloc, words)?;
    Ok(restore(alloc, plot, row)?)
}
