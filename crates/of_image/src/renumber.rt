//! Images whose sequences begin anew.

ghost use Rattle.std.specs.Prelude.{◌≡◌, IfOk, false, slice_index};
ghost use Rattle.of_recover.specs.Row.{IsDurableRow, is_open};
ghost use Rattle.of_recover.specs.Renumbered.{renumbered_words};
ghost use Rattle.of_mem.specs.declared.work.TheConstants.{MOST_INSTRS};
ghost use Rattle.of_report.specs.Image.{IsImage};
ghost use Rattle.of_image.specs.RenumberedImage.{Renumbers};

use crate::printing::print_row;
use crate::version::Version;
use of_cell::Shape;
use of_mem::{MOST_INSTRS, Plot};
use of_recover::laws::{recovered_twice, renumbered_row};
use of_recover::renumber;
use of_report::Image;
use std::alloc::{AllocError, Global};

/// The words of a recovered row after its sequences have begun anew.
fn renumbered(alloc: Global, shape: &Shape, durable: &[u64]) -> Result<Vec<u64>, AllocError>
    requires row { IsDurableRow shape.now.callers shape.now.cells durable.now }
    requires closed { is_open shape.now.callers (slice_index durable.now) ≡ false }
    ensures { IfOk result (λ words.
        words.items ≡ renumbered_words shape.now.callers shape.now.cells durable.now) }
{
    let mut words = Vec::from_slice(alloc, durable)?;
    renumber(shape, &mut words);
    Ok(words)
}

/// The text of an image after its sequences have begun anew: the store, the tickets, the shapes and
/// the replies stay the same. An error means out of memory.
#[tactic(auto, using(of_cell::proofs::Rooms::cells_small))]
pub fn renumbered_print(alloc: Global, image: &Image) -> Result<Vec<u8>, AllocError>
    requires { IsImage MOST_INSTRS image.now }
    ensures { IfOk result (λ text. Renumbers image.now text.items) }
{
    let plot = Plot {
        callers: image.callers,
        instrs: MOST_INSTRS as u32,
        blocks: image.blocks,
    };
    let shape = Shape {
        callers: plot.callers,
        instrs: plot.instrs,
        cells: plot.cells(),
    };
    recovered_twice(&shape, &image.durable);
    renumbered_row(&shape, &image.durable);
    let words = renumbered(alloc, &shape, &image.durable)?;
    print_row(alloc, Version::Two, &plot, &words)
}
