//! What the line of a step has after the change of the word.

ghost use Rattle.std.specs.Prelude.{◌≡◌, false, true, length, OnOk, IfSome};
ghost use Rattle.of_mem.specs.declared.work.TheConstants.{MOST_INSTRS};
ghost use Rattle.of_cell.specs.Words.{seq_of, payload_of};
ghost use Rattle.of_script.specs.declared.instr.Reply.{Reply};
ghost use Rattle.of_script.specs.Reading.{instr_at};
ghost use Rattle.of_eval.specs.Shapes.{IsHeldBy};
ghost use Rattle.of_caller.specs.Ends.{OutcomeHoldsReply};
ghost use Rattle.of_play.specs.TraceParts.{helper_part, exchange_part, raise_part, did_part, instr_part, pointer_part, shape_part, field_part, cell_use_part, request_part, log_part, cell_part, word_part, held_part, reply_part};
ghost use Rattle.of_script.specs.Appending.{AppendsText};

use crate::names::{CellUse, ShownCell, ShownWord};
use crate::trace_text::{put_cell_use, put_pair};
use of_cell::{payload_of, seq_of};
use of_core::{Op, Outcome};
use of_eval::reply_of;
use of_mem::RawReply;
use of_plan::Plan;
use of_report::put_reply;
use of_script::{Script, from_word, put_script};
use std::alloc::AllocError;
use std::fmt::Write;

/// Writes which caller a step helps.
pub fn put_help(out: &mut String, helps: Option<u32>) -> Result<(), AllocError>
    ensures { OnOk result (AppendsText out.old out.new (helper_part helps)) }
{
    match helps {
        None => Ok(()),
        Some(owner) => write!(out, "; helps {owner}"),
    }
}

// Writes that an exchange was lost, and what it would have done.
fn put_lost(out: &mut String, old: u64, new: u64) -> Result<(), AllocError>
    ensures { OnOk result (AppendsText out.old out.new (exchange_part false old new)) }
{
    out.push_str("; lost, wanted ")?;
    put_pair(out, old)?;
    out.push_str(" -> ")?;
    put_pair(out, new)
}

// Writes to what a raise would have raised.
fn put_wanted(out: &mut String, value: u64) -> Result<(), AllocError>
    ensures { OnOk result (AppendsText out.old out.new (raise_part true value)) }
{
    out.push_str("; wanted ")?;
    put_pair(out, value)
}

/// Writes how a step that found this word went: whether an exchange was won, and what a raise that
/// changed nothing wanted.
pub fn put_did(out: &mut String, op: Op, found: u64) -> Result<(), AllocError>
    ensures { OnOk result (AppendsText out.old out.new (did_part op found)) }
{
    match op {
        Op::Load { .. } | Op::Store { .. } => Ok(()),
        Op::Exchange { old, new, .. } => {
            if found == old {
                out.push_str("; won")
            } else {
                put_lost(out, old, new)
            }
        }
        Op::Raise { value, .. } => {
            if value < found {
                put_wanted(out, value)
            } else {
                Ok(())
            }
        }
    }
}

// Writes the instruction that a script word is.
fn put_instr(out: &mut String, value: u64) -> Result<(), AllocError>
    ensures { OnOk result (AppendsText out.old out.new (instr_part (instr_at value))) }
{
    let Some(instr) = from_word(value) else {
        return Ok(());
    };
    out.push_str("; ")?;
    put_script(out, &Script::new(&[instr]))
}

// Writes the block to which a pointer leads.
fn put_pointer(out: &mut String, pointer: u32) -> Result<(), AllocError>
    ensures { OnOk result (AppendsText out.old out.new (pointer_part pointer)) }
{
    if pointer == 0 {
        out.push_str("; no block")
    } else {
        write!(out, "; block {}", pointer - 1)
    }
}

// Writes of which reply a shape is.
fn put_shape(out: &mut String, shape: u32) -> Result<(), AllocError>
    ensures { OnOk result (AppendsText out.old out.new (shape_part shape)) }
{
    if shape == 0 {
        Ok(())
    } else if shape < 1 << 21 {
        write!(out, "; answers {}", shape / (1 << 16) % 32)
    } else {
        write!(out, "; aborted at {}", shape / (1 << 21) % 32)
    }
}

// Writes what the number of a data cell means.
fn put_number(out: &mut String, cell_use: CellUse, number: u32) -> Result<(), AllocError>
    ensures { OnOk result (AppendsText out.old out.new (cell_use_part cell_use number)) }
{
    match cell_use {
        CellUse::Shape(_) => put_shape(out, number),
        CellUse::Free | CellUse::Bucket(_) | CellUse::Front(_) | CellUse::Back(_) => {
            put_pointer(out, number)
        }
        CellUse::Block { field, .. } => {
            if field == 2 {
                put_pointer(out, number)
            } else {
                Ok(())
            }
        }
        CellUse::Ticket(_)
        | CellUse::Reply { .. }
        | CellUse::Register(_)
        | CellUse::Taken
        | CellUse::Keys
        | CellUse::Length(_) => Ok(()),
    }
}

// Writes whether the transaction of a request is open.
fn put_request(out: &mut String, value: u64) -> Result<(), AllocError>
    ensures { OnOk result (AppendsText out.old out.new (request_part value)) }
{
    if seq_of(value) == 0 {
        Ok(())
    } else if payload_of(value) == 0 {
        out.push_str("; open")
    } else {
        out.push_str("; closed")
    }
}

// Writes the data cell that a log word names.
fn put_entry(out: &mut String, plan: &Plan, at: u32, addr: u32) -> Result<(), AllocError>
    ensures { OnOk result (AppendsText out.old out.new (log_part plan.now.callers at addr)) }
{
    if at % 2 == 1 {
        out.push_str("; ")?;
        put_cell_use(out, CellUse::at(&plan.plot(), addr))
    } else {
        Ok(())
    }
}

// Writes what the word of a cell means.
fn put_cell_part(
    out: &mut String,
    plan: &Plan,
    cell: ShownCell,
    value: u64,
) -> Result<(), AllocError>
    ensures { OnOk result (AppendsText out.old out.new (cell_part plan.now.callers cell value)) }
{
    match cell {
        ShownCell::Current => Ok(()),
        ShownCell::Request(_) => put_request(out, value),
        ShownCell::Data(addr) => put_number(
            out,
            CellUse::at(&plan.plot(), addr),
            payload_of(value),
        ),
        ShownCell::Log { at, .. } => put_entry(out, plan, at, payload_of(value)),
    }
}

/// Writes what the value of a word of the table means.
pub fn put_meaning(
    out: &mut String,
    plan: &Plan,
    word: ShownWord,
    value: u64,
) -> Result<(), AllocError>
    ensures { OnOk result (AppendsText out.old out.new (word_part plan.now.callers word value)) }
{
    match word {
        ShownWord::Now(cell) | ShownWord::Durable(cell) => put_cell_part(out, plan, cell, value),
        ShownWord::Script { .. } => put_instr(out, value),
        ShownWord::Announcement(_) | ShownWord::Members => Ok(()),
    }
}

// Writes the reply that these cells hold.
fn put_held(out: &mut String, raw: &RawReply) -> Result<(), AllocError>
    requires held { (r : Reply) × IsHeldBy raw.now r }
    requires width { length raw.now.values ≡ MOST_INSTRS }
    ensures { OnOk result (AppendsText out.old out.new (held_part raw.now)) }
{
    let Some(reply) = reply_of(raw) else {
        unreachable!()
    };
    out.push_str("; reply")?;
    put_reply(out, &reply)
}

/// Writes the reply of a call that has ended.
pub fn put_reply_part(out: &mut String, outcome: Option<Outcome>) -> Result<(), AllocError>
    requires { IfSome outcome OutcomeHoldsReply }
    ensures { OnOk result (AppendsText out.old out.new (reply_part outcome)) }
{
    match outcome {
        None | Some(Outcome::Spent { .. }) | Some(Outcome::Lost { .. }) => Ok(()),
        Some(Outcome::Answered { raw, .. }) => put_held(out, &raw),
    }
}
