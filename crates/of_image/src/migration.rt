//! Images of version 1, in version 2.

ghost use Rattle.std.specs.Prelude.{◌≡◌, ◌≤◌, ◌<◌, IfOk, IfErr, MatchResult, IfSome};
ghost use Rattle.of_cell.specs.Cells.{durable_cells};
ghost use Rattle.of_recover.specs.Row.{IsDurableRow};
ghost use Rattle.of_mem.specs.declared.work.TheConstants.{MOST_INSTRS};
ghost use Rattle.of_mem.specs.Plots.{data_cell_count};
ghost use Rattle.of_image.specs.declared.version.Version.TheVariants.{One, Two};
ghost use Rattle.of_image.specs.declared.error.ImageErr.TheVariants.{Memory};
ghost use Rattle.of_image.specs.ImageText.{image_text};
ghost use Rattle.of_report.specs.Image.{Image as PlainImage, IsImage};
ghost use Rattle.of_image.specs.Parsed.{ReadsImage, ImageIsRefused};
ghost use Rattle.of_image.specs.MovedRow.{earlier_address, moved_word_to, moved_words_to, moved_row, Migrates};
ghost use Rattle.of_report.specs.ImageRow.{row_in};

use crate::error::ImageErr;
use crate::parse::{plot_of, read};
use crate::printing::print_row;
use crate::version::Version;
use of_mem::Plot;
use of_plan::table_shape;
use of_report::Image;
use std::alloc::{AllocError, Global};

/// The data cell with the same meaning in the layout of shorter scripts, if there is one.
fn source(old: &Plot, new: &Plot, at: u32) -> Option<u32>
    requires callers { old.now.callers ≡ new.now.callers }
    requires blocks { old.now.blocks ≡ new.now.blocks }
    requires fewer { old.now.instrs ≤ new.now.instrs }
    requires at { at < data_cell_count new.now }
    ensures value { result ≡ earlier_address old.now.instrs new.now.instrs old.now.callers at }
    ensures below { IfSome result (λ a. a < data_cell_count old.now) }
{
    if at >= new.base() {
        return Some(old.base() + (at - new.base()));
    }
    let (caller, own) = (at / (new.instrs + 2), at % (new.instrs + 2));
    if own < old.instrs + 2 {
        Some(caller * (old.instrs + 2) + own)
    } else {
        None
    }
}

/// The word that a cell gets in the layout of longer scripts.
fn moved_word(old: &Plot, new: &Plot, words: &[u64], cell: u32) -> u64
    requires callers { old.now.callers ≡ new.now.callers }
    requires blocks { old.now.blocks ≡ new.now.blocks }
    requires fewer { old.now.instrs ≤ new.now.instrs }
    requires row { IsDurableRow old.now.callers (data_cell_count old.now) words.now }
    ensures { result ≡ moved_word_to old.now new.now words.now cell }
{
    let first = old.callers + 1;
    if cell < first {
        return words[cell as usize];
    }
    if cell - first >= new.cells() {
        return 0;
    }
    match source(old, new, cell - first) {
        Some(at) => words[(first + at) as usize],
        None => 0,
    }
}

/// A row in the layout of longer scripts: each cell has the word of the same meaning.
fn moved_words(alloc: Global, old: &Plot, new: &Plot, words: &[u64]) -> Result<Vec<u64>, AllocError>
    requires callers { old.now.callers ≡ new.now.callers }
    requires blocks { old.now.blocks ≡ new.now.blocks }
    requires fewer { old.now.instrs ≤ new.now.instrs }
    requires row { IsDurableRow old.now.callers (data_cell_count old.now) words.now }
    ensures { IfOk result (λ moved. moved.items ≡ moved_words_to old.now new.now words.now) }
{
    let mut moved = Vec::new(alloc);
    for cell in 0..table_shape(new).durable_cells() {
        moved.push(moved_word(old, new, words, cell))?;
    }
    Ok(moved)
}

/// The version 2 text of a version 1 image.
fn moved_text(alloc: Global, image: &Image) -> Result<Vec<u8>, AllocError>
    requires { IsImage 8 image.now }
    ensures { IfOk result (λ text.
        text.items ≡ image_text Two (moved_row 8 MOST_INSTRS image.now.row)) }
{
    let old = plot_of(Version::One, image.callers, image.blocks);
    let new = plot_of(Version::Two, image.callers, image.blocks);
    let words = moved_words(alloc, &old, &new, &image.durable)?;
    print_row(alloc, Version::Two, &new, &words)
}

/// The version 2 text of a version 1 text: the recovered row is moved to the layout of longer
/// scripts, and keeps its sequence, store and tickets.
pub fn migrate(alloc: Global, text: &[u8]) -> Result<Vec<u8>, ImageErr>
    // The result is the text of the moved row, which has the same sequence and the same store.
    ensures ok { IfOk result (λ moved. Migrates text.now moved.items) }
    // The line or the cell that an error names is one of the version 1 text.
    ensures err { IfErr result (ImageIsRefused One text.now) }
    // A text that has an image is answered by its moved row, unless memory runs out.
    ensures only { (image : PlainImage) → ReadsImage One text.now image →
        MatchResult result
        (λ moved. moved.items ≡ image_text Two (moved_row 8 MOST_INSTRS image.row))
        (λ e. e ≡ Memory) }
{
    let image = read(alloc, Version::One, text)?;
    Ok(moved_text(alloc, &image)?)
}
