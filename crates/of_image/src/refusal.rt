//! What is wrong with a text that has no image.

ghost use Rattle.std.specs.Prelude.{◌≡◌, ◌≤◌, ◌-◌, ℕ, List, length, IfOk, MatchOption};
ghost use Rattle.of_plan.specs.Lines.{text_lines};
ghost use Rattle.of_plan.specs.Above.{line_at as the_line};
ghost use Rattle.of_plan.specs.BadLine.{HasBadLine};
ghost use Rattle.of_image.specs.declared.grammar.Grammar.{Grammar as TheGrammar};
ghost use Rattle.of_image.specs.ImageText.{IsTextIn};
ghost use Rattle.of_image.specs.ImageReading.{RowReading};
ghost use Rattle.of_image.specs.Reasons.{ImageLinesLeadTo, IsUnendedImage, IsTrueOfImage, IsTrueInImage, IsLineFault};
ghost use Rattle.of_image.specs.Fed.{RefusesImageLine};
ghost use Rattle.of_image.specs.Faults.{HasImage, IsImageFaultOf};
ghost use Rattle.of_image.specs.Messages.{piece_message};

use crate::feed::Bad;
use crate::grammar::Grammar;
use crate::law::Law;
use crate::parse::read;
use crate::reason::Reason;
use crate::version::Version;
use of_plan::above::{Wanted, find, line_at};
use of_plan::pieces::hidden;
use of_plan::point_out;
use std::alloc::{AllocError, Global};

/// Where a text is no image, and why: the bad line, counted from 1; the piece of it at fault, from
/// the byte `start` to before `end`; and the reason.
#[derive(Clone, Copy, Debug, PartialEq, Eq)]
pub struct BadPiece {
    pub line: u64,
    pub start: usize,
    pub end: usize,
    pub reason: Reason,
}

/// What is wrong with a text that has no image.
#[derive(Clone, Copy, Debug, PartialEq, Eq)]
pub enum ImageFault {
    /// The text isn't in the grammar, and this piece of it is at fault.
    Line { piece: BadPiece },
    /// The text is in the grammar, but in what recovery finds in its row this cell is the first at
    /// fault, and it breaks this law.
    Cell { cell: u32, law: Law },
}

/// Why a text is answered with no image.
#[derive(Clone, Copy, Debug, PartialEq, Eq)]
pub enum Refusal {
    /// Memory ran out.
    Memory,
    /// The text has no image, for this fault.
    Fault { fault: ImageFault },
}

impl From<AllocError> for Refusal {
    ghost use Rattle.std.specs.Prelude.{◌≡◌};
    ghost use Rattle.of_image.specs.declared.refusal.Refusal.TheVariants.{Memory};

    ghost from_gives = { λ _ e. e ≡ Memory };

    fn from(_e: AllocError) -> Refusal {
        Refusal::Memory
    }
}

/// The fault of a text that has no image; None if the text has one, so that it is read: in version
/// 2 by `image_parse`, in version 1 by `migrate`. The line or the cell is the one that these name.
/// An error means out of memory.
pub fn fault(alloc: Global, version: Version, text: &[u8]) -> Result<Option<ImageFault>, AllocError>
    ensures { IfOk result (λ found.
        MatchOption found (HasImage version text.now) (IsImageFaultOf version text.now)) }
{
    match read(alloc, version, text) {
        Ok(_) => Ok(None),
        Err(Refusal::Memory) => Err(AllocError),
        Err(Refusal::Fault { fault }) => Ok(Some(fault)),
    }
}

// The reason, with the line above that has the cell or a later one.
fn with_line(text: &[u8], above: u64, reason: Reason) -> Reason
    ensures { (g : TheGrammar) (p : RowReading) (before : List (List ℕ)) (piece : List ℕ)
        → ImageLinesLeadTo g text.now above p → IsTrueOfImage g reason p before piece
        → IsTrueInImage g result text.now above before piece }
{
    let Reason::CellPassed { cell } = reason else {
        return reason;
    };
    match find(text, above, Wanted::Cell { least: cell }) {
        Some((at, _)) => Reason::OutOfOrder { line: at + 1 },
        None => reason,
    }
}

// What is wrong with a text, from what is wrong with its line of this number.
pub(crate) fn in_text(grammar: Grammar, text: &[u8], number: u64, line: &[u8], bad: Bad) -> BadPiece
    requires first { 1 ≤ number }
    requires line { line.now ≡ the_line (text_lines text.now) (number - 1) }
    requires bad { HasBadLine (IsTextIn grammar) text.now number }
    requires is { (p : RowReading) × ImageLinesLeadTo grammar text.now (number - 1) p
        × RefusesImageLine grammar p line.now bad }
    ensures { IsLineFault grammar text.now result }
{
    let end = line.len() - bad.piece.left;
    if let Some(byte) = hidden(line, number - 1) {
        if byte.start < end {
            return BadPiece {
                line: number,
                start: byte.start,
                end: byte.end,
                reason: Reason::Flawed { flaw: byte.flaw },
            };
        }
    }
    BadPiece {
        line: number,
        start: end - bad.piece.size,
        end,
        reason: with_line(text, number - 1, bad.reason),
    }
}

// The same of a text without an end, whose last line this is.
pub(crate) fn at_end(grammar: Grammar, text: &[u8], number: u64, line: &[u8]) -> BadPiece
    requires first { 1 ≤ number }
    requires line { line.now ≡ the_line (text_lines text.now) (number - 1) }
    requires bad { HasBadLine (IsTextIn grammar) text.now number }
    requires none { IsUnendedImage grammar text.now (number - 1) }
    ensures { IsLineFault grammar text.now result }
{
    BadPiece {
        line: number,
        start: line.len(),
        end: line.len(),
        reason: Reason::EndMissing,
    }
}

// What is printed of the bad line of a text.
fn print_piece(alloc: Global, text: &[u8], piece: &BadPiece) -> Result<Vec<u8>, AllocError>
    requires first { 1 ≤ piece.now.line }
    requires order { piece.now.start ≤ piece.now.end }
    requires within { piece.now.end ≤ length (the_line (text_lines text.now) (piece.now.line - 1)) }
    ensures { IfOk result (λ out. out.items ≡ piece_message text.now piece.now) }
{
    let (line, _) = line_at(text, piece.line - 1);
    let reason = format!(in alloc; "{}", piece.reason)?;
    point_out(
        alloc,
        piece.line,
        line,
        piece.start,
        piece.end,
        reason.as_str(),
    )
}

impl ImageFault {
    ghost use Rattle.std.specs.Prelude.{◌≡◌, IfOk};
    ghost use Rattle.of_image.specs.declared.version.Version.{Version as TheVersion};
    ghost use Rattle.of_image.specs.Faults.{IsImageFaultOf};
    ghost use Rattle.of_image.specs.Messages.{fault_message};

    /// What is printed of the fault of a text. An error means out of memory.
    pub fn print(&self, alloc: Global, text: &[u8]) -> Result<Vec<u8>, AllocError>
        requires { (v : TheVersion) × IsImageFaultOf v text.now self.now }
        ensures { IfOk result (λ out. out.items ≡ fault_message text.now self.now) }
    {
        match self {
            ImageFault::Line { piece } => print_piece(alloc, text, piece),
            ImageFault::Cell { cell, law } => {
                let out = format!(in alloc; "cell {cell}: {law}\n")?;
                Ok(out.into_bytes())
            }
        }
    }
}
