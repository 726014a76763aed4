//! The lines of commits.

ghost use Rattle.std.specs.Prelude.{◌≡◌, ◌+◌, map, flat_map, OnOk};
ghost use Rattle.of_cell.specs.Words.{seq_of};
ghost use Rattle.of_core.specs.Inside.{call_value};
ghost use Rattle.of_play.specs.Trace.{call_part};
ghost use Rattle.of_play.specs.Committing.{commits_by_step, batch_line_after, commit_line_after};
ghost use Rattle.of_script.specs.Appending.{AppendsText};

use of_cell::seq_of;
use of_core::{Call, Op, Place};
use std::alloc::AllocError;
use std::fmt::Write;

// Whether a step from this place that finds this word commits a batch.
fn is_commit(place: Place, op: Op, found: u64) -> bool
    ensures { result ≡ commits_by_step place op found }
{
    match (place, op) {
        (Place::ExchangeCurrent, Op::Exchange { old, .. }) => found == old,
        _ => false,
    }
}

// Writes which script a call is, and whose.
fn put_call(out: &mut String, call: &Call) -> Result<(), AllocError>
    ensures { OnOk result (AppendsText out.old out.new (call_part (call_value call.now))) }
{
    write!(
        out,
        ", script {} of {}",
        call.ticket.saturating_sub(1),
        call.caller
    )
}

// Writes the line of a commit that finds this word.
fn put_batch(
    out: &mut String,
    number: u32,
    caller: u32,
    found: u64,
    calls: &[Call],
) -> Result<(), AllocError>
    ensures { OnOk result
        (AppendsText out.old out.new (batch_line_after number caller found calls.now)) }
{
    let seq = u64::from(seq_of(found)) + 1;
    write!(out, "{number} {caller} commits {seq}")?;
    for call in calls {
        put_call(out, call)?;
    }
    out.push_str("\n")
}

/// Writes the line of event `number`, a step of a caller, if the step commits these calls;
/// otherwise writes nothing.
pub fn put_commit(
    out: &mut String,
    number: u32,
    caller: u32,
    place: Place,
    op: Op,
    found: u64,
    calls: &[Call],
) -> Result<(), AllocError>
    ensures { OnOk result (AppendsText out.old out.new
        (commit_line_after (commits_by_step place op found) number caller found calls.now)) }
{
    if is_commit(place, op, found) {
        put_batch(out, number, caller, found, calls)
    } else {
        Ok(())
    }
}
