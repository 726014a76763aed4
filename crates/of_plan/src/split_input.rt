//! The two parts of an input: the first ends with an end line, as a plan's text does.

ghost use Rattle.std.specs.Prelude.{◌↔◌, IsTrue};
ghost use Rattle.of_plan.specs.Parts.{IsEndLine, AreParts};

use of_script::text::{cut, word};

// Whether the only word of a line is `end`.
fn is_end(line: &[u8]) -> bool
    ensures { IsTrue result ↔ IsEndLine line.now }
{
    let Some((name, rest)) = word(line) else {
        return false;
    };
    match word(rest) {
        Some(_) => false,
        None => name == b"end".as_slice(),
    }
}

/// The two parts of an input: the first goes up to the first line whose only word is `end`, with
/// the newline of this line. If there is no such line, or no newline after it, the first part is
/// the whole input and the second is empty.
pub fn parts(text: &[u8]) -> (&[u8], &[u8])
    ensures { AreParts text.now result.0.now result.1.now }
{
    let mut rest = text;
    loop {
        let (line, after) = cut(rest, b'\n');
        let Some(more) = after else {
            return text.split_at(text.len());
        };
        if is_end(line) {
            return text.split_at(text.len() - more.len());
        }
        rest = more;
    }
}
