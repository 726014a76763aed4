//! What is said of a text that is no legal report: its first line that is wrong, and the rule that
//! it breaks, by its number in the list of docs/TEXTS.md.

ghost use Rattle.std.specs.Prelude.{◌≤◌, length};

use crate::cause::{Cause, EndRule, EntryRule};
use crate::line_rule::{LineRule, line_rule};
use of_plan::above::line_at;
use of_plan::point_out;
use of_script::text::word;
use std::alloc::{AllocError, Global};

// The word of an entry that breaks a rule, by the number of words before it, and what is said.
fn entry_reason(rule: EntryRule) -> (usize, &'static str) {
    match rule {
        EntryRule::NoCaller => (2, "the report breaks rule 1: the plan has no such caller"),
        EntryRule::NoScript => (2, "the report breaks rule 1: its caller has no script left"),
        EntryRule::Turn => (3, "the report breaks rule 1: it is another script's turn"),
        EntryRule::Place => (
            1,
            "the report breaks rule 3: its sequence or caller cannot come after the entry before it",
        ),
        EntryRule::Writes => (
            4,
            "the report breaks rule 3: it is a `read`, and its script writes",
        ),
    }
}

// The same of the line of a caller.
fn end_reason(rule: EndRule) -> (usize, &'static str) {
    match rule {
        EndRule::Missing => (
            0,
            "the report breaks rule 2: the line of a caller is missing",
        ),
        EndRule::Answered => (
            3,
            "the report breaks rule 2: its entries are not its answered calls and at most one open call",
        ),
        EndRule::Ending => (
            2,
            "the report breaks rule 6: it cannot have ended so with this number of answered calls",
        ),
        EndRule::Steps => (
            5,
            "the report breaks rule 7: its longest call has too many steps, or none was answered",
        ),
    }
}

// Where the word begins that has this many words before it, as claims are read; the end of the line
// if it has fewer.
fn word_at(line: &[u8], before: usize) -> usize
    ensures { result ≤ length line.now }
{
    if before == 0 {
        return 0;
    }
    let mut rest = line;
    for _ in 0..before {
        match word(rest) {
            Some((_, after)) => rest = after,
            None => return line.len(),
        }
    }
    match word(rest) {
        Some((first, after)) => {
            let end = line.len().saturating_sub(after.len());
            end.saturating_sub(first.len())
        }
        None => line.len(),
    }
}

// Where the word ends that this byte is in.
fn word_end(line: &[u8], at: usize) -> usize
    requires { at ≤ length line.now }
    ensures after { at ≤ result }
    ensures within { result ≤ length line.now }
{
    for end in at..line.len() {
        if line[end] == b' ' {
            return end;
        }
    }
    line.len()
}

// Where the word begins that goes up to this byte or on from it.
fn word_start(line: &[u8], at: usize) -> usize
    requires { at ≤ length line.now }
    ensures { result ≤ at }
{
    for back in 0..at {
        if line[at - 1 - back] == b' ' {
            return at - back;
        }
    }
    0
}

// Whether a word of the line ends before this byte.
fn word_ends(line: &[u8], at: usize) -> bool {
    match line.get(at) {
        Some(byte) => *byte == b' ',
        None => true,
    }
}

// How many bytes two lines begin with that are the same.
fn same_bytes(one: &[u8], other: &[u8]) -> usize
    ensures one { result ≤ length one.now }
    ensures other { result ≤ length other.now }
{
    let most = one.len().min(other.len());
    for at in 0..most {
        if one[at] != other[at] {
            return at;
        }
    }
    most
}

// Where the first word begins in which a line is another than is wanted.
fn first_word(found: &[u8], wanted: &[u8]) -> usize
    ensures found { result ≤ length found.now }
    ensures wanted { result ≤ length wanted.now }
{
    let at = same_bytes(found, wanted);
    if word_ends(found, at) && word_ends(wanted, at) {
        return at;
    }
    word_start(found, at)
}

// What is said of a line that is not the wanted one: both, and the first word in which they differ.
fn print_other(
    alloc: Global,
    number: u64,
    found: &[u8],
    wanted: &[u8],
) -> Result<Vec<u8>, AllocError> {
    let start = first_word(found, wanted);
    let spaced = found.get(start) == Some(&b' ');
    let doubled = spaced && (wanted.len() != start || word_ends(found, start + 1));
    let rule = if doubled {
        LineRule::Spelling
    } else {
        line_rule(found, wanted)
    };
    let end = word_end(found, start);
    let mut out = point_out(alloc, number, found, start, end, rule.text())?;
    if !wanted.is_empty() {
        let end = word_end(wanted, start);
        let expected = point_out(alloc, number, wanted, start, end, "expected")?;
        out.extend_from_slice(expected.as_slice())?;
    }
    Ok(out)
}

// What is said of a line that is not the wanted one and has this many lines above it.
fn print_line(
    alloc: Global,
    report: &[u8],
    above: u64,
    text: &[u8],
) -> Result<Vec<u8>, AllocError> {
    let (found, last) = line_at(report, above);
    let (wanted, _) = line_at(text, above);
    let (before, ends) = line_at(report, above.saturating_sub(1));
    let number = above.saturating_add(1);
    let end = before.len();
    if above != 0 && ends && wanted.is_empty() {
        return point_out(
            alloc,
            above,
            before,
            end,
            end,
            "the last line has no newline",
        );
    }
    let over = last || above != 0 && ends;
    if over && found.is_empty() && !wanted.is_empty() {
        let mut out = point_out(alloc, number, found, 0, 0, "the report stops here")?;
        let end = word_end(wanted, 0);
        let expected = point_out(alloc, number, wanted, 0, end, "expected")?;
        out.extend_from_slice(expected.as_slice())?;
        return Ok(out);
    }
    print_other(alloc, number, found, wanted)
}

// What is said of a word of a line that breaks a rule and has this many words before it.
fn print_word(
    alloc: Global,
    report: &[u8],
    above: u64,
    before: usize,
    reason: &str,
) -> Result<Vec<u8>, AllocError> {
    let (line, _) = line_at(report, above);
    let start = word_at(line, before);
    let end = word_end(line, start);
    point_out(alloc, above.saturating_add(1), line, start, end, reason)
}

// What is said if the line of a caller is missing: a line that begins as an entry or as a caller
// is spelled otherwise.
fn missing_reason(report: &[u8], above: u64, caller: u32) -> &'static str {
    let (line, _) = line_at(report, above);
    let (_, reason) = end_reason(EndRule::Missing);
    if line.starts_with(b"caller ".as_slice())
        || caller == 0 && line.starts_with(b"entry ".as_slice())
    {
        return LineRule::Spelling.text();
    }
    reason
}

impl Cause {
    /// What is printed of the cause; `report` is the text that was judged. An error means out of
    /// memory.
    pub fn print(&self, alloc: Global, report: &[u8]) -> Result<Vec<u8>, AllocError> {
        match self {
            Cause::Entry { index, rule } => {
                let (before, reason) = entry_reason(*rule);
                print_word(
                    alloc,
                    report,
                    (*index as u64).saturating_add(1),
                    before,
                    reason,
                )
            }
            Cause::Caller {
                entries,
                caller,
                rule,
            } => {
                let above = (*entries as u64)
                    .saturating_add(1)
                    .saturating_add(u64::from(*caller));
                let (before, reason) = end_reason(*rule);
                let reason = match rule {
                    EndRule::Missing => missing_reason(report, above, *caller),
                    _ => reason,
                };
                print_word(alloc, report, above, before, reason)
            }
            Cause::Line { above, wanted } => print_line(alloc, report, *above, wanted.as_slice()),
        }
    }
}
