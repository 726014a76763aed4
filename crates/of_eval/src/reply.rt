//! Replies as cells hold them.

ghost use Rattle.std.specs.Prelude.{◌≡◌, ◌≢◌, ◌≤◌, ◌<◌, ◌+◌, ◌*◌, ◌/◌, ◌%◌, IfSome, MatchOption, Some, None, All, ◌^◌, ℕ, length};
ghost use Rattle.of_script.specs.declared.instr.Reply.{Reply as TheReply};
ghost use Rattle.of_script.specs.declared.instr.Cause.{Cause as TheCause};
ghost use Rattle.of_store.specs.Replies.{IsSmall};
ghost use Rattle.of_eval.specs.Shapes.{IsWhole, IsHeldBy, reply_cells, code_of, abort_part as the_abort_part};
ghost use Rattle.of_eval.specs.Reading.{marked_in};
ghost use Rattle.of_eval.specs.Words.{reply_to};
ghost use Rattle.of_store.specs.Store.{Aborted};
ghost use Rattle.std.proofs.Common.{get_or, set};

use of_mem::{RawReply, SuspendedRun};
use of_script::{Abort, Cause, GREATEST, MOST_INSTRS, Reply};

/// The code that stands for a cause in a shape.
fn code(cause: Cause) -> u32
    ensures value { result ≡ code_of cause }
    ensures small { result ≤ 5 }
{
    match cause {
        Cause::Overflow => 1,
        Cause::Short => 2,
        Cause::NoRoom => 3,
        Cause::Differs => 4,
        Cause::BadOp => 5,
    }
}

/// The cause for which a code stands.
fn cause(code: u32) -> Option<Cause>
    ensures { MatchOption result ((c : TheCause) → code_of c ≢ code) (λ c. code_of c ≡ code) }
{
    match code {
        1 => Some(Cause::Overflow),
        2 => Some(Cause::Short),
        3 => Some(Cause::NoRoom),
        4 => Some(Cause::Differs),
        5 => Some(Cause::BadOp),
        _ => None,
    }
}

/// What an abort adds to the shape.
fn abort_part(abort: Option<Abort>) -> u32
    requires { IfSome abort (λ a. a.place < MOST_INSTRS) }
    ensures value { result ≡ the_abort_part abort }
    ensures small { result ≤ 16 * 2 ^ 21 + 5 * 2 ^ 26 }
{
    match abort {
        None => 0,
        Some(abort) => u32::from(abort.place) * (1 << 21) + code(abort.cause) * (1 << 26),
    }
}

/// A reply as it is written into cells: its shape and its numbers, with 0 at places that have no
/// number.
pub fn reply_cells(reply: &Reply) -> RawReply
    requires { IsWhole reply.now }
    ensures { result ≡ reply_cells reply.now }
{
    let mut shape = u32::from(reply.len) * (1 << 16) + abort_part(reply.abort);
    let mut values = [0; MOST_INSTRS];
    for i in 0..reply.len as usize {
        if let Some(value) = reply.values[i] {
            shape += 1 << i;
            values[i] = value;
        }
    }
    RawReply { shape, values }
}

// What the word at a place answered: `last` that of the first which `kept` hasn't.
fn answer_at(kept: &SuspendedRun, last: Option<u32>, place: usize) -> Option<u32>
    requires place { place ≤ kept.now.done }
    requires width { kept.now.done < length kept.now.values }
    ensures { result ≡ get_or (set kept.now.values kept.now.done last) place None }
{
    if place < kept.done() {
        kept.value(place)
    } else {
        last
    }
}

/// Writes the reply of a script that ran to its end: `kept` has the answers of all words but the
/// last, and `last` is the answer of the last.
// out of line, so that a run that lacks a cell doesn't clear this frame
#[inline(never)]
pub(crate) fn answers_in_cells(kept: &SuspendedRun, last: Option<u32>, out: &mut RawReply)
    requires few { kept.now.done < MOST_INSTRS }
    requires width { length kept.now.values ≡ MOST_INSTRS }
    requires past { (i : ℕ) → kept.now.done ≤ i → get_or kept.now.values i None ≡ None }
    ensures { out.new ≡ reply_cells (record {
      len = kept.now.done + 1;
      values = set kept.now.values kept.now.done last;
      abort = None;
    }) }
{
    let len = kept.done() + 1;
    out.shape = len as u32 * (1 << 16);
    out.values = [0; MOST_INSTRS];
    for i in 0..len {
        if let Some(value) = answer_at(kept, last, i) {
            out.shape += 1 << i;
            out.values[i] = value;
        }
    }
}

/// Writes the reply of a script of `len` words that aborted at a place.
#[inline(never)]
pub(crate) fn abort_in_cells(len: usize, place: usize, cause: Cause, out: &mut RawReply)
    requires few { len ≤ MOST_INSTRS }
    requires place { place < len }
    ensures { out.new ≡ reply_cells (reply_to len (Aborted place cause)) }
{
    *out = reply_cells(&Reply {
        len: len as u8,
        values: [None; MOST_INSTRS],
        abort: Some(Abort {
            place: place as u8,
            cause,
        }),
    });
}

/// How many instructions a script has, as the shape of its reply in cells says.
#[inline(always)]
pub fn reply_len(raw: &RawReply) -> u32
    ensures value { result ≡ raw.now.shape / 2 ^ 16 % 32 }
    ensures held { (r : TheReply) → IsHeldBy raw.now r → result ≡ r.len }
{
    raw.shape / (1 << 16) % 32
}

/// Which answers are numbers, as the shape of a reply in cells says: bit j is the mark of answer j.
#[inline(always)]
pub fn reply_marks(raw: &RawReply) -> u32
    ensures value { result ≡ raw.now.shape % 2 ^ 16 }
    ensures held { (r : TheReply) → IsHeldBy raw.now r
        → marked_in result raw.now.values ≡ r.values }
{
    raw.shape % (1 << 16)
}

/// The abort that the shape of a reply in cells tells of, if it tells of one.
#[inline(always)]
pub fn reply_abort(raw: &RawReply) -> Option<Abort>
    ensures { (r : TheReply) → IsHeldBy raw.now r → result ≡ r.abort }
{
    if raw.shape < 1 << 21 {
        return None;
    }
    told_abort(raw)
}

// The place and the cause that a shape tells; None if no cause has its code.
// out of line, so that what is called often is small
#[cold]
#[inline(never)]
fn told_abort(raw: &RawReply) -> Option<Abort>
    ensures { MatchOption result ((c : TheCause) → code_of c ≢ raw.now.shape / 2 ^ 26)
        (λ a. (a.place ≡ raw.now.shape / 2 ^ 21 % 32)
        × (code_of a.cause ≡ raw.now.shape / 2 ^ 26)) }
{
    let place = raw.shape / (1 << 21) % 32;
    let cause = cause(raw.shape / (1 << 26))?;
    Some(Abort {
        place: place as u8,
        cause,
    })
}

/// The reply that these cells hold. None exactly if they hold no reply: the shape is not the shape
/// of any reply, or a number that it marks is above `GREATEST`.
#[inline(always)]
pub fn reply_of(raw: &RawReply) -> Option<Reply>
    ensures some { IfSome result (IsHeldBy raw.now) }
    ensures only { (r : TheReply) → IsHeldBy raw.now r → result ≡ Some r }
{
    let len = reply_len(raw);
    if len == 0 {
        return None;
    }
    if len > MOST_INSTRS as u32 {
        return None;
    }
    if raw.shape < 1 << 21 {
        return answered_reply(raw, len);
    }
    aborted_reply(raw, len)
}

/// The numbers at the places that a mask marks. None if one of them is above `GREATEST`.
#[inline(always)]
fn marked_values(
    mask: u32,
    cells: &[u32; MOST_INSTRS],
    len: usize,
) -> Option<[Option<u32>; MOST_INSTRS]>
    requires few { len ≤ MOST_INSTRS }
    requires below { mask < 2 ^ len }
    ensures { MatchOption result (All IsSmall (marked_in mask cells.now) → ⊥)
        (λ values. (values ≡ marked_in mask cells.now) × All IsSmall values) }
{
    let mut values = [None; MOST_INSTRS];
    let mut rest = mask;
    for i in 0..len {
        if rest % 2 == 1 {
            if cells[i] > GREATEST {
                return None;
            }
            values[i] = Some(cells[i]);
        }
        rest /= 2;
    }
    Some(values)
}

/// The reply that these cells hold, if it is of a script that ran to its end.
#[inline(always)]
fn answered_reply(raw: &RawReply, len: u32) -> Option<Reply>
    requires len { len ≡ raw.now.shape / 2 ^ 16 % 32 }
    requires some { 1 ≤ len }
    requires few { len ≤ MOST_INSTRS }
    requires shape { raw.now.shape < 2 ^ 21 }
    ensures some { IfSome result (IsHeldBy raw.now) }
    ensures only { (r : TheReply) → IsHeldBy raw.now r → result ≡ Some r }
{
    let marks = reply_marks(raw);
    if marks >= 1 << len {
        return None;
    }
    let values = marked_values(marks, &raw.values, len as usize)?;
    Some(Reply {
        len: len as u8,
        values,
        abort: None,
    })
}

/// The reply that these cells hold, if it is of a script that aborted.
// out of line, so that what is called often is small
#[cold]
#[inline(never)]
fn aborted_reply(raw: &RawReply, len: u32) -> Option<Reply>
    requires len { len ≡ raw.now.shape / 2 ^ 16 % 32 }
    requires some { 1 ≤ len }
    requires few { len ≤ MOST_INSTRS }
    requires shape { 2 ^ 21 ≤ raw.now.shape }
    ensures some { IfSome result (IsHeldBy raw.now) }
    ensures only { (r : TheReply) → IsHeldBy raw.now r → result ≡ Some r }
{
    let abort = told_abort(raw)?;
    if reply_marks(raw) != 0 {
        return None;
    }
    let place = u32::from(abort.place);
    if place >= len {
        return None;
    }
    Some(Reply {
        len: len as u8,
        values: [None; MOST_INSTRS],
        abort: Some(abort),
    })
}
