//! Pieces of a line at fault: a word that should be a number, a word too many, a byte that cannot
//! be seen in print.

ghost use Rattle.std.specs.Prelude.{◌≡◌, ◌≤◌, ℕ, length, List, [], ◌∷◌, IfOk, IfSome, IfErr, MatchOption, None, Some};
ghost use Rattle.of_script.specs.Text.{text_words, EndsWith};
ghost use Rattle.of_script.specs.Reading.{next_number as number_after, slot_and_rest};
ghost use Rattle.of_plan.specs.Flaws.{IsNumberFlaw, IsHiddenByte};
ghost use Rattle.of_plan.specs.Pieces.{first_word, IsNextWord};

use crate::flaw::Flaw;
use crate::numerals::is_numeral;
use of_script::text::{next_number, word};

/// A piece of a line: how many bytes it has, and how many bytes of the line come after it.
#[derive(Clone, Copy, Debug, PartialEq, Eq)]
pub struct Piece {
    pub size: usize,
    pub left: usize,
}

/// A piece of a line, and what is wrong with it.
#[derive(Clone, Copy, Debug, PartialEq, Eq)]
pub struct FlawedPiece {
    pub piece: Piece,
    pub flaw: Flaw,
}

/// The next word of these bytes; their end if there is none.
pub fn next_word(bytes: &[u8]) -> Piece
    ensures { IsNextWord bytes.now result }
{
    match word(bytes) {
        None => Piece { size: 0, left: 0 },
        Some((first, rest)) => Piece {
            size: first.len(),
            left: rest.len(),
        },
    }
}

/// Why the next word of these bytes is no number up to `most`.
pub fn number_flaw(bytes: &[u8], most: u32) -> Flaw
    requires { number_after most (text_words bytes.now) ≡ None }
    ensures { IsNumberFlaw result most (first_word (text_words bytes.now)) }
{
    let Some((first, _)) = word(bytes) else {
        return Flaw::NumberMissing;
    };
    if first == b";".as_slice() {
        return Flaw::NumberMissing;
    }
    if !is_numeral(first) {
        return Flaw::NoNumber;
    }
    Flaw::TooGreat { most }
}

/// Reads the next word as a number up to `most`: the number and the bytes after it, or what is
/// wrong with the word. If `most` is 0, no number is wanted: the answer is 0 and all the bytes.
pub fn read_slot(bytes: &[u8], most: u32) -> Result<(u32, &[u8]), FlawedPiece>
    ensures ok { IfOk result
        (λ x. slot_and_rest most (text_words bytes.now) ≡ Some (x.0, text_words x.1.now)) }
    ensures small { IfOk result (λ x. x.0 ≤ most) }
    ensures rest { IfOk result (λ x. EndsWith bytes.now x.1.now) }
    ensures err { IfErr result (λ f. slot_and_rest most (text_words bytes.now) ≡ None) }
    ensures piece { IfErr result (λ f. IsNextWord bytes.now f.piece) }
    ensures flaw { IfErr result
        (λ f. IsNumberFlaw f.flaw most (first_word (text_words bytes.now))) }
{
    if most == 0 {
        return Ok((0, bytes));
    }
    match next_number(bytes, most) {
        Some(read) => Ok(read),
        None => Err(FlawedPiece {
            piece: next_word(bytes),
            flaw: number_flaw(bytes, most),
        }),
    }
}

/// The bytes after the next word, if this is the wanted word; otherwise the word that is there.
pub fn read_word<'a>(bytes: &'a [u8], wanted: &[u8]) -> Result<&'a [u8], Piece>
    ensures ok { IfOk result
        (λ rest. text_words bytes.now ≡ wanted.now ∷ text_words rest.now) }
    ensures rest { IfOk result (λ rest. EndsWith bytes.now rest.now) }
    ensures err { IfErr result (λ piece. (others : List (List ℕ)) →
        text_words bytes.now ≡ wanted.now ∷ others → ⊥) }
    ensures piece { IfErr result (IsNextWord bytes.now) }
{
    let Some((first, rest)) = word(bytes) else {
        return Err(next_word(bytes));
    };
    if first == wanted {
        return Ok(rest);
    }
    Err(next_word(bytes))
}

/// The next word of these bytes, where the line should end; None if there is none.
pub fn word_too_many(bytes: &[u8]) -> Option<Piece>
    ensures { MatchOption result (text_words bytes.now ≡ [])
        (λ piece. IsNextWord bytes.now piece × (first_word (text_words bytes.now) ≡ [] → ⊥)) }
{
    match word(bytes) {
        None => None,
        Some(_) => Some(next_word(bytes)),
    }
}

/// Bytes of a line that cannot be seen in print, from `start` to before `end`, and their flaw.
#[derive(Clone, Copy, Debug, PartialEq, Eq)]
pub struct HiddenByte {
    pub start: usize,
    pub end: usize,
    pub flaw: Flaw,
}

/// The first bytes of a line that cannot be seen in print: a byte order mark at the start of the
/// text, a tab, or a carriage return at the end of the line. `above` counts the lines above it.
pub fn hidden(line: &[u8], above: u64) -> Option<HiddenByte>
    ensures { IfSome result (IsHiddenByte above line.now) }
{
    if above == 0 && line.len() >= 3 && &line[0..3] == [239, 187, 191].as_slice() {
        return Some(HiddenByte {
            start: 0,
            end: 3,
            flaw: Flaw::ByteOrderMark,
        });
    }
    for at in 0..line.len() {
        if line[at] == b'\t' {
            return Some(HiddenByte {
                start: at,
                end: at + 1,
                flaw: Flaw::Tab,
            });
        }
    }
    if !line.is_empty() && line[line.len() - 1] == b'\r' {
        return Some(HiddenByte {
            start: line.len() - 1,
            end: line.len(),
            flaw: Flaw::CarriageReturn,
        });
    }
    None
}
