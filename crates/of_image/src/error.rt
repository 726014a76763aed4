//! Why a text is no image.

use crate::refusal::{ImageFault, Refusal};
use std::alloc::AllocError;
use std::fmt;

/// Why a text is answered with no image.
#[derive(Clone, Copy, Debug, PartialEq, Eq)]
pub enum ImageErr {
    /// Memory ran out.
    Memory,
    /// The text isn't in the grammar, and this is its bad line: the first with which no image's
    /// text begins, or the last one if the text only stops too early. Lines count from 1.
    Bad { line: u64 },
    /// The text is in the grammar, but in what recovery finds in its row this cell is the first at
    /// fault.
    Unlawful { cell: u32 },
}

impl From<AllocError> for ImageErr {
    ghost use Rattle.std.specs.Prelude.{◌≡◌};
    ghost use Rattle.of_image.specs.declared.error.ImageErr.TheVariants.{Memory};

    ghost from_gives = { λ _ e. e ≡ Memory };

    fn from(_e: AllocError) -> ImageErr {
        ImageErr::Memory
    }
}

impl From<Refusal> for ImageErr {
    ghost use Rattle.std.specs.Prelude.{◌≡◌};
    ghost use Rattle.of_image.specs.Parsed.{refusal_err};

    ghost from_gives = { λ r e. e ≡ refusal_err r };

    fn from(e: Refusal) -> ImageErr {
        match e {
            Refusal::Memory => ImageErr::Memory,
            Refusal::Fault { fault } => match fault {
                ImageFault::Line { piece } => ImageErr::Bad { line: piece.line },
                ImageFault::Cell { cell, .. } => ImageErr::Unlawful { cell },
            },
        }
    }
}

impl fmt::Display for ImageErr {
    ghost use Rattle.std.specs.Prelude.{Some};
    ghost use Rattle.of_image.specs.Messages.{error_text};

    ghost output = { λ e. Some (error_text e) };

    fn fmt<W: fmt::Write>(&self, f: &mut fmt::Formatter<W>) -> fmt::Result {
        match self {
            ImageErr::Memory => f.write_str("out of memory"),
            ImageErr::Bad { line } => write!(f, "bad image, line {line}"),
            ImageErr::Unlawful { cell } => write!(f, "unlawful image, cell {cell}"),
        }
    }
}

impl std::error::Error for ImageErr {}
