//! What is wrong with a text that is no plan.

ghost use Rattle.std.specs.Prelude.{◌≡◌, ◌≤◌, ◌-◌, ℕ, List, length, false, IfOk, MatchOption};
ghost use Rattle.of_script.specs.Text.{text_words};
ghost use Rattle.of_plan.specs.Lines.{text_lines, is_skipped};
ghost use Rattle.of_plan.specs.Above.{line_at as the_line};
ghost use Rattle.of_plan.specs.BadLine.{HasBadLine};
ghost use Rattle.of_plan.specs.Grammar.{IsPlanText};
ghost use Rattle.of_plan.specs.Pieces.{IsBad, IsWholePiece};
ghost use Rattle.of_plan.specs.Reading.{Reading};
ghost use Rattle.of_plan.specs.Reasons.{LinesLeadTo, IsUnended, IsTrueOf, IsTrueIn, IsFaultOf};

use crate::above::{Wanted, find};
use crate::parser::feed::Bad;
use crate::parser::{Refusal, read};
use crate::pieces::hidden;
use crate::pointing::point_out;
use crate::reason::Reason;
use std::alloc::{AllocError, Global};

/// Where a text is no plan, and why: the bad line, counted from 1; the piece at fault, which is the
/// bytes of this line from `start` to before `end`, counted from 0; and the reason.
#[derive(Clone, Copy, Debug, PartialEq, Eq)]
pub struct BadPiece {
    pub line: u64,
    pub start: usize,
    pub end: usize,
    pub reason: Reason,
}

/// The fault of a text that is no plan; None if the text is in the grammar, so that `parse` reads
/// it. The line is the one that `parse` names. An error means out of memory.
pub fn fault(alloc: Global, text: &[u8]) -> Result<Option<BadPiece>, AllocError>
    ensures { IfOk result (λ found. MatchOption found (IsPlanText text.now) (IsFaultOf text.now)) }
{
    match read(alloc, text) {
        Ok(_) => Ok(None),
        Err(Refusal::Memory) => Err(AllocError),
        Err(Refusal::Bad { piece }) => Ok(Some(piece)),
    }
}

// The reason, with the line of the stop that the caller has already.
fn with_stop(text: &[u8], above: u64, reason: Reason) -> Reason
    ensures { (p : Reading) (before : List (List ℕ)) (piece : List ℕ) → LinesLeadTo text.now above p
        → IsTrueOf reason p before piece → IsTrueIn result text.now above before piece }
{
    let Reason::StopTwice { caller } = reason else {
        return reason;
    };
    match find(text, above, Wanted::Stop { caller }) {
        Some((at, _)) => Reason::SecondStop { line: at + 1 },
        None => reason,
    }
}

// What is wrong with a text, from what is wrong with its line of this number.
pub(crate) fn in_text(text: &[u8], number: u64, line: &[u8], bad: Bad) -> BadPiece
    requires first { 1 ≤ number }
    requires line { line.now ≡ the_line (text_lines text.now) (number - 1) }
    requires bad { HasBadLine IsPlanText text.now number }
    requires kept { is_skipped (text_words line.now) ≡ false }
    requires is { (p : Reading) × LinesLeadTo text.now (number - 1) p
        × IsBad line.now bad.piece (IsTrueOf bad.reason p) }
    ensures { IsFaultOf text.now result }
{
    let end = line.len() - bad.piece.left;
    if let Some(byte) = hidden(line, number - 1) {
        if byte.start < end {
            return BadPiece {
                line: number,
                start: byte.start,
                end: byte.end,
                reason: Reason::Flawed { flaw: byte.flaw },
            };
        }
    }
    BadPiece {
        line: number,
        start: end - bad.piece.size,
        end,
        reason: with_stop(text, number - 1, bad.reason),
    }
}

// The same of a text without an end, whose last line this is.
pub(crate) fn at_end(text: &[u8], number: u64, line: &[u8]) -> BadPiece
    requires first { 1 ≤ number }
    requires line { line.now ≡ the_line (text_lines text.now) (number - 1) }
    requires bad { HasBadLine IsPlanText text.now number }
    requires none { IsUnended text.now (number - 1) }
    ensures { IsFaultOf text.now result }
{
    BadPiece {
        line: number,
        start: line.len(),
        end: line.len(),
        reason: Reason::EndMissing,
    }
}

impl BadPiece {
    ghost use Rattle.std.specs.Prelude.{◌≡◌, IfOk};
    ghost use Rattle.of_plan.specs.Pointed.{bad_piece_message};

    /// What is printed of the fault of a text. An error means out of memory.
    pub fn print(&self, alloc: Global, text: &[u8]) -> Result<Vec<u8>, AllocError>
        requires { IsFaultOf text.now self.now }
        ensures { IfOk result (λ out. out.items ≡ bad_piece_message text.now self.now) }
    {
        let (line, _) = crate::above::line_at(text, self.line - 1);
        let reason = format!(in alloc; "{}", self.reason)?;
        point_out(
            alloc,
            self.line,
            line,
            self.start,
            self.end,
            reason.as_str(),
        )
    }
}
