//! What the lines of a text claim of a report: first the entries, and then the callers.

ghost use Rattle.std.specs.Prelude.{◌≡◌, IfOk};
ghost use Rattle.of_script.specs.Text.{text_words};
ghost use Rattle.of_check.specs.Claims as claimed;
ghost use Rattle.of_check.specs.Claims.{lines_of, read_lines, HasReadLines};

use of_report::EndState;
use of_script::text::{cut, next_number, word};
use std::alloc::{AllocError, Global};

/// What an entry says beyond the plan.
#[derive(Clone, Copy, Debug, PartialEq, Eq)]
pub(crate) struct CallClaim {
    pub seq: u32,
    pub caller: u32,
    pub index: u32,
    pub announced: bool,
}

/// What the line of a caller says beyond the entries.
#[derive(Clone, Copy, Debug, PartialEq, Eq)]
pub(crate) struct EndClaim {
    pub state: EndState,
    pub answered: u32,
    pub longest: u32,
}

/// What a text claims, in the order of its lines.
#[derive(Drop)]
pub(crate) struct Claims {
    pub calls: Vec<CallClaim>,
    pub ends: Vec<EndClaim>,
}

// Whether a call was announced, by the word of its kind.
fn kind_named(name: &[u8]) -> Option<bool>
    ensures { result ≡ claimed.kind_named name.now }
{
    if name == b"run".as_slice() {
        return Some(true);
    }
    if name == b"read".as_slice() {
        return Some(false);
    }
    None
}

// How a caller ended, by the word of its state.
fn state_named(name: &[u8]) -> Option<EndState>
    ensures { result ≡ claimed.state_named name.now }
{
    if name == b"done".as_slice() {
        return Some(EndState::Done);
    }
    if name == b"stopped".as_slice() {
        return Some(EndState::Stopped);
    }
    if name == b"spent".as_slice() {
        return Some(EndState::Spent);
    }
    None
}

// The claim in the words after `entry`.
fn call_in(bytes: &[u8]) -> Option<CallClaim>
    ensures { result ≡ claimed.call_in (text_words bytes.now) }
{
    let (seq, rest) = next_number(bytes, u32::MAX)?;
    let (caller, rest) = next_number(rest, u32::MAX)?;
    let (index, rest) = next_number(rest, u32::MAX)?;
    let (kind, _) = word(rest)?;
    let announced = kind_named(kind)?;
    Some(CallClaim {
        seq,
        caller,
        index,
        announced,
    })
}

// The claim in the words after `caller`.
fn end_in(bytes: &[u8]) -> Option<EndClaim>
    ensures { result ≡ claimed.end_in (text_words bytes.now) }
{
    let (_, rest) = word(bytes)?;
    let (state, rest) = word(rest)?;
    let state = state_named(state)?;
    let (answered, rest) = next_number(rest, u32::MAX)?;
    let (_, rest) = word(rest)?;
    let (longest, _) = next_number(rest, u32::MAX)?;
    Some(EndClaim {
        state,
        answered,
        longest,
    })
}

// What a line claims, if it is an entry's.
fn call_of_line(line: &[u8]) -> Option<CallClaim>
    ensures { result ≡ claimed.call_of_line (text_words line.now) }
{
    let (name, rest) = word(line)?;
    if name != b"entry".as_slice() {
        return None;
    }
    call_in(rest)
}

// What a line claims, if it is a caller's.
fn end_of_line(line: &[u8]) -> Option<EndClaim>
    ensures { result ≡ claimed.end_of_line (text_words line.now) }
{
    let (name, rest) = word(line)?;
    if name != b"caller".as_slice() {
        return None;
    }
    end_in(rest)
}

// Reads the entries in front of these lines, and leaves the lines after them. The error is out of
// memory.
fn read_calls(
    alloc: Global,
    lines: Option<&[u8]>,
) -> Result<(Vec<CallClaim>, Option<&[u8]>), AllocError>
    ensures { IfOk result (λ r.
        HasReadLines claimed.call_of_line (lines_of lines.entry) r.0.items (lines_of r.1)) }
{
    let mut calls = Vec::new(alloc);
    let mut rest = lines;
    while let Some(text) = rest {
        let (line, after) = cut(text, b'\n');
        match call_of_line(line) {
            Some(call) => calls.push(call)?,
            None => return Ok((calls, rest)),
        }
        rest = after;
    }
    Ok((calls, rest))
}

// Reads the lines of callers in front of these lines. An error means out of memory.
fn read_ends(alloc: Global, lines: Option<&[u8]>) -> Result<Vec<EndClaim>, AllocError>
    ensures { IfOk result (λ ends.
        ends.items ≡ read_lines claimed.end_of_line (lines_of lines.entry)) }
{
    let mut ends = Vec::new(alloc);
    let mut rest = lines;
    while let Some(text) = rest {
        let (line, after) = cut(text, b'\n');
        match end_of_line(line) {
            Some(end) => ends.push(end)?,
            None => return Ok(ends),
        }
        rest = after;
    }
    Ok(ends)
}

impl Claims {
    ghost use Rattle.of_check.specs.Claims.{call_claims_of_text, end_claims_of_text};

    /// What a text claims. An error means out of memory.
    pub(crate) fn read(alloc: Global, text: &[u8]) -> Result<Claims, AllocError>
        ensures calls { IfOk result (λ claims. claims.calls.items ≡ call_claims_of_text text.now) }
        ensures ends { IfOk result (λ claims. claims.ends.items ≡ end_claims_of_text text.now) }
    {
        let (_, lines) = cut(text, b'\n');
        let (calls, rest) = read_calls(alloc, lines)?;
        let ends = read_ends(alloc, rest)?;
        Ok(Claims { calls, ends })
    }
}
