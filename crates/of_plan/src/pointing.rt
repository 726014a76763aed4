//! A piece of a line, pointed out for a reader.

ghost use Rattle.std.specs.Prelude.{◌≡◌, ◌≤◌, ◌++◌, length, map, replicate, IfOk, OnOk};
ghost use Rattle.of_plan.specs.Pointed as pointed;

use std::alloc::{AllocError, Global};

// How many bytes of a line are shown before the piece, and how many in all.
const BEFORE: usize = 60;

const SHOWN: usize = 100;

// The byte as it is shown: a question mark for one that has no sign of its own.
fn sign(byte: u8) -> u8
    ensures { result ≡ pointed.sign byte }
{
    if byte < 32 || byte > 126 {
        return b'?';
    }
    byte
}

// Writes the signs of bytes at the end.
fn put_signs(out: &mut Vec<u8>, bytes: &[u8]) -> Result<(), AllocError>
    ensures { OnOk result (out.new.items ≡ out.old.items ++ map pointed.sign bytes.now) }
{
    for byte in bytes {
        out.push(sign(*byte))?;
    }
    Ok(())
}

// Writes a byte a number of times at the end.
fn put_times(out: &mut Vec<u8>, byte: u8, times: usize) -> Result<(), AllocError>
    ensures { OnOk result (out.new.items ≡ out.old.items ++ replicate times byte) }
{
    for _ in 0..times {
        out.push(byte)?;
    }
    Ok(())
}

// Writes a byte twice at the end, if something of a line is cut off.
fn put_cut(out: &mut Vec<u8>, byte: u8, is_cut: bool) -> Result<(), AllocError>
    ensures { OnOk result (out.new.items ≡ out.old.items ++ pointed.cut_mark byte is_cut) }
{
    if is_cut {
        return put_times(out, byte, 2);
    }
    Ok(())
}

// The first byte that is shown of a line of this many bytes.
fn first_shown(bytes: usize, start: usize) -> usize
    ensures value { result ≡ pointed.first_shown_byte bytes start }
    ensures upto { result ≤ start }
{
    if bytes <= SHOWN {
        return 0;
    }
    start.saturating_sub(BEFORE)
}

/// What is printed of a piece of a line, from the byte `start` to before `end`: the line's number,
/// the column and the reason, the line, and carets below the piece. Of a long line only what is
/// near the piece is shown, with two dots where it is cut. An error means out of memory.
pub fn point_out(
    alloc: Global,
    number: u64,
    line: &[u8],
    start: usize,
    end: usize,
    reason: &str,
) -> Result<Vec<u8>, AllocError>
    requires order { start ≤ end }
    requires within { end ≤ length line.now }
    ensures { IfOk result
        (λ out. out.items ≡ pointed.message number line.now start end reason.now) }
{
    let first = first_shown(line.len(), start);
    let last = line.len().min(first + SHOWN);
    let width = end.min(last).saturating_sub(start).max(1);
    let column = start as u64 + 1;
    let head = format!(in alloc; "line {number}, column {column}: {reason}\n    ")?;
    let mut out = Vec::new(alloc);
    out.extend_from_slice(head.as_bytes())?;
    put_cut(&mut out, b'.', first > 0)?;
    put_signs(&mut out, &line[first..last])?;
    put_cut(&mut out, b'.', last < line.len())?;
    out.extend_from_slice(b"\n    ".as_slice())?;
    put_cut(&mut out, b' ', first > 0)?;
    put_times(&mut out, b' ', start - first)?;
    put_times(&mut out, b'^', width)?;
    out.push(b'\n')?;
    Ok(out)
}
