//! Images from their texts.

ghost use Rattle.std.specs.Prelude.{◌≡◌, ◌≤◌, IfOk, IfErr, MatchResult};
ghost use Rattle.of_mem.specs.declared.work.TheConstants.{MOST_INSTRS};
ghost use Rattle.of_image.specs.Version.{instrs_of};
ghost use Rattle.of_report.specs.Image.{Image as PlainImage, IsImage};
ghost use Rattle.of_image.specs.Grammar.{grammar_within, IsImageIn};
ghost use Rattle.of_image.specs.Parsed.{ReadsIn, ReadsImage, IsRefusedIn, ImageIsRefused};
ghost use Rattle.of_image.specs.Faults.{HasFaultIn, HasImageFault};
ghost use Rattle.of_image.specs.declared.refusal.Refusal.TheVariants.{Memory as Unread};
ghost use Rattle.of_image.specs.declared.version.Version.TheVariants.{Two};
ghost use Rattle.of_image.specs.declared.error.ImageErr.TheVariants.{Memory};

use crate::error::ImageErr;
use crate::grammar::{Grammar, Limits};
use crate::parse_row::read_row;
use crate::refusal::Refusal;
use crate::restore::restore;
use crate::version::Version;
use of_mem::{MOST_BLOCKS, MOST_CALLERS, Plot};
use of_report::Image;
use std::alloc::Global;

/// Where the data cells of an image are.
pub(crate) fn plot_of(version: Version, callers: u32, blocks: u32) -> Plot
    requires some_callers { 1 ≤ callers }
    requires few_callers { callers ≤ MOST_CALLERS }
    requires few_blocks { blocks ≤ MOST_BLOCKS }
    ensures callers { result.callers ≡ callers }
    ensures instrs { result.instrs ≡ instrs_of version }
    ensures blocks { result.blocks ≡ blocks }
{
    Plot {
        callers,
        instrs: version.instrs(),
        blocks,
    }
}

/// The image that a text in a grammar has, or what is wrong with it.
fn read_in(alloc: Global, grammar: Grammar, text: &[u8]) -> Result<Image, Refusal>
    // The image is what recovery finds in the row that the text spells, and it is lawful.
    ensures ok { IfOk result (λ image. ReadsIn grammar text.now image) }
    // The piece is in the bad line, and the reason is true of it; or the cell is the first at
    // fault. In both cases the text has no image.
    ensures bad { IfErr result (HasFaultIn grammar text.now) }
    // A text that has an image is answered by it, unless memory runs out.
    ensures only { (image : PlainImage) → ReadsIn grammar text.now image →
        MatchResult result (λ i. i ≡ image) (λ e. e ≡ Unread) }
{
    let reading = read_row(alloc, grammar, text)?;
    let plot = plot_of(grammar.version, reading.callers, reading.blocks);
    restore(alloc, &plot, reading.words)
}

/// The image that a text of a version has, or what is wrong with it. The image has no more callers
/// and blocks than a plan may have.
pub fn read(alloc: Global, version: Version, text: &[u8]) -> Result<Image, Refusal>
    // The image is what recovery finds in the row that the text spells, and it is lawful.
    ensures ok { IfOk result (λ image. ReadsImage version text.now image) }
    // The piece is in the bad line, and the reason is true of it; or the cell is the first at
    // fault. In both cases the text has no image.
    ensures bad { IfErr result (HasImageFault version text.now) }
    // A text that has an image is answered by it, unless memory runs out.
    ensures only { (image : PlainImage) → ReadsImage version text.now image →
        MatchResult result (λ i. i ≡ image) (λ e. e ≡ Unread) }
{
    let limits = Limits::Plan;
    read_in(alloc, Grammar { version, limits }, text)
}

/// The image that a text of version 2 has, if the image is within these limits: what recovery finds
/// in its durable words.
pub fn image_parse_within(alloc: Global, limits: Limits, text: &[u8]) -> Result<Image, ImageErr>
    // The image is what recovery finds in the row that the text spells, and it is lawful.
    ensures ok { IfOk result (λ image. ReadsIn (grammar_within limits) text.now image) }
    ensures image { IfOk result (λ image. IsImageIn (grammar_within limits) image) }
    // If the error names a line, it is the bad one of a text that is not in the grammar; if it
    // names a cell, this is the first at fault.
    ensures err { IfErr result (IsRefusedIn (grammar_within limits) text.now) }
    // A text that has an image is answered by it, unless memory runs out.
    ensures only { (image : PlainImage) → ReadsIn (grammar_within limits) text.now image →
        MatchResult result (λ i. i ≡ image) (λ e. e ≡ Memory) }
{
    let version = Version::Two;
    Ok(read_in(alloc, Grammar { version, limits }, text)?)
}

/// The image that a text has: what recovery finds in its durable words. The image has no more
/// callers and blocks than a plan may have.
pub fn image_parse(alloc: Global, text: &[u8]) -> Result<Image, ImageErr>
    // The image is what recovery finds in the row that the text spells, and it is lawful.
    ensures ok { IfOk result (λ image. ReadsImage Two text.now image) }
    ensures image { IfOk result (λ image. IsImage MOST_INSTRS image) }
    // If the error names a line, it is the bad one of a text that is not in the grammar; if it
    // names a cell, this is the first at fault.
    ensures err { IfErr result (ImageIsRefused Two text.now) }
    // A text that has an image is answered by it, unless memory runs out.
    ensures only { (image : PlainImage) → ReadsImage Two text.now image →
        MatchResult result (λ i. i ≡ image) (λ e. e ≡ Memory) }
{
    image_parse_within(alloc, Limits::Plan, text)
}
