//! The printed text of the row that a text spells.

ghost use Rattle.std.specs.Prelude.{◌≡◌, IfOk, IfErr};
ghost use Rattle.of_image.specs.declared.version.Version.TheVariants.{Two};
ghost use Rattle.of_image.specs.Parsed.{IsNoImage};
ghost use Rattle.of_image.specs.PrintedAgain.{PrintsAgain};

use crate::error::ImageErr;
use crate::grammar::{Grammar, Limits};
use crate::parse::plot_of;
use crate::parse_row::read_row;
use crate::printing::print_row;
use crate::version::Version;
use std::alloc::Global;

/// The text that `image_print` gives for the row that a text spells: it has no skipped lines, and
/// one space between words. The row is not recovered.
pub fn image_again(alloc: Global, text: &[u8]) -> Result<Vec<u8>, ImageErr>
    ensures ok { IfOk result (λ again. PrintsAgain text.now again.items) }
    // If the error names a line, it is the bad one of a text that is not in the grammar.
    ensures err { IfErr result (IsNoImage Two text.now) }
{
    let (version, limits) = (Version::Two, Limits::Plan);
    let reading = read_row(alloc, Grammar { version, limits }, text)?;
    let plot = plot_of(version, reading.callers, reading.blocks);
    Ok(print_row(alloc, version, &plot, &reading.words)?)
}
