//! The lines of a text by their numbers, and what the lines above one say.

ghost use Rattle.std.specs.Prelude.{◌≡◌, ◌<◌, ◌+◌, ℕ, length, IsTrue, MatchOption, Some, None};
ghost use Rattle.of_script.specs.Text.{text_words};
ghost use Rattle.of_plan.specs.Lines.{text_lines};
ghost use Rattle.of_plan.specs.Above as lines_above;
ghost use Rattle.of_plan.specs.Above.{NoneSays, Says};

use crate::parser::line::GREATEST_CELL;
use crate::plan::MOST_PLAN_CALLERS;
use of_script::text::{cut, next_number, word};

/// Which lines of a text are looked for.
#[derive(Clone, Copy, Debug, PartialEq, Eq)]
pub enum Wanted {
    /// The stop lines of this caller.
    Stop { caller: u32 },
    /// In the text of an image, the lines of a cell with this number or a greater one.
    Cell { least: u32 },
}

// The number that follows the name of a line.
fn number_behind(name: &[u8], wanted: &[u8], rest: &[u8], most: u32) -> Option<u32>
    ensures { result ≡ lines_above.number_behind name.now wanted.now (text_words rest.now) most }
{
    if name != wanted {
        return None;
    }
    let (number, _) = next_number(rest, most)?;
    Some(number)
}

// The number that a line says, if it is one that is wanted.
pub(crate) fn said(wanted: Wanted, line: &[u8]) -> Option<u32>
    ensures { result ≡ lines_above.said wanted (text_words line.now) }
{
    let (name, rest) = word(line)?;
    match wanted {
        Wanted::Stop { caller } => {
            let found = number_behind(name, b"stop".as_slice(), rest, MOST_PLAN_CALLERS - 1)?;
            if found != caller {
                return None;
            }
            Some(found)
        }
        Wanted::Cell { least } => {
            let found = number_behind(name, b"cell".as_slice(), rest, GREATEST_CELL)?;
            if found < least {
                return None;
            }
            Some(found)
        }
    }
}

/// The line that has this many lines above it, or an empty line if the text has no such line; and
/// whether this line is the last one.
pub fn line_at(text: &[u8], above: u64) -> (&[u8], bool)
    ensures line { result.0.now ≡ lines_above.line_at (text_lines text.now) above }
    ensures last { IsTrue result.1 → length (text_lines text.now) ≡ above + 1 }
{
    let mut rest = text;
    let mut at: u64 = 0;
    loop {
        let (line, after) = cut(rest, b'\n');
        if at == above {
            return (line, after.is_none());
        }
        match after {
            Some(more) => rest = more,
            None => return (b"".as_slice(), false),
        }
        at += 1;
    }
}

/// Looks through the first `above` lines of the text for the first line that is wanted. The answer
/// is how many lines come before this line, and the number that it names. None if none of these
/// lines is wanted.
pub fn find(text: &[u8], above: u64, wanted: Wanted) -> Option<(u64, u32)>
    ensures { MatchOption result (NoneSays (text_lines text.now) above wanted)
        (λ x. Says (text_lines text.now) above wanted x.0 x.1) }
{
    let mut rest = text;
    let mut at: u64 = 0;
    while at < above {
        let (line, after) = cut(rest, b'\n');
        if let Some(number) = said(wanted, line) {
            return Some((at, number));
        }
        match after {
            Some(more) => rest = more,
            None => return None,
        }
        at += 1;
    }
    None
}
