//! Texts of reports.

ghost use Rattle.std.specs.Prelude.{◌≡◌, ◌++◌, IfOk, OnOk, codes, decimal, map, take};
ghost use Rattle.of_store.specs.Replies.{reply_value_of};
ghost use Rattle.of_report.specs.Report.{entry_value, report_value};
ghost use Rattle.of_report.specs.Lines.{end_state_value};
ghost use Rattle.of_report.specs.ReportText.{reply_value_text, cause_text, reply_text, kind_text, entry_line, entry_lines, state_text, caller_line_text, caller_lines, seq_line, report_text};
ghost use Rattle.of_script.specs.Appending.{AppendsText};

use crate::report::{EndState, Entry, Line, Report};
use crate::store::put_store;
use itoa::Buffer;
use of_script::{Cause, Reply};
use std::alloc::{AllocError, Global};
use std::fmt::Write;

// The word of a cause.
fn cause_name(cause: Cause) -> &'static str
    ensures { result.now ≡ cause_text cause }
{
    match cause {
        Cause::Overflow => "overflow",
        Cause::Short => "short",
        Cause::NoRoom => "noroom",
        Cause::Differs => "differs",
        Cause::BadOp => "badop",
    }
}

/// Writes a number, after a space.
pub(crate) fn put_number(out: &mut String, number: u32) -> Result<(), AllocError>
    ensures { OnOk result (AppendsText out.old out.new (codes " " ++ decimal number)) }
{
    let mut buffer = Buffer::new();
    out.push_str(" ")?;
    out.push_str(buffer.format(number))
}

// Writes the value of an instruction, after a space.
fn put_value(out: &mut String, value: Option<u32>) -> Result<(), AllocError>
    ensures { OnOk result (AppendsText out.old out.new (reply_value_text value)) }
{
    match value {
        Some(number) => put_number(out, number),
        None => out.push_str(" none"),
    }
}

// The values of the instructions that were run.
fn answered_values(reply: &Reply) -> &[Option<u32>]
    ensures { result.now ≡ take reply.now.len reply.now.values }
{
    let values = reply.values.as_slice();
    &values[..usize::from(reply.len).min(values.len())]
}

/// Writes the words of a reply at the end of `out`, each after a space.
pub fn put_reply(out: &mut String, reply: &Reply) -> Result<(), AllocError>
    ensures { OnOk result (AppendsText out.old out.new (reply_text (reply_value_of reply.now))) }
{
    match reply.abort {
        Some(abort) => {
            let place = abort.place;
            let cause = cause_name(abort.cause);
            write!(out, " abort {place} {cause}")
        }
        None => {
            for value in answered_values(reply) {
                put_value(out, *value)?;
            }
            Ok(())
        }
    }
}

// The word of an entry's kind, after a space.
fn kind_name(announced: bool) -> &'static str
    ensures { result.now ≡ codes " " ++ kind_text announced }
{
    if announced { " run" } else { " read" }
}

// Writes the line of an entry.
fn put_entry(out: &mut String, entry: &Entry) -> Result<(), AllocError>
    ensures { OnOk result (AppendsText out.old out.new (entry_line (entry_value entry.now))) }
{
    out.push_str("entry")?;
    put_number(out, entry.seq)?;
    put_number(out, entry.caller)?;
    put_number(out, entry.index)?;
    out.push_str(kind_name(entry.announced))?;
    put_reply(out, &entry.reply)?;
    out.push_str("\n")
}

// The word for how a caller ended.
fn state_name(state: EndState) -> &'static str
    ensures { result.now ≡ state_text (end_state_value state) }
{
    match state {
        EndState::Done => "done",
        EndState::Stopped => "stopped",
        EndState::Spent => "spent",
    }
}

// Writes the line of a caller.
fn put_caller(out: &mut String, caller: usize, line: &Line) -> Result<(), AllocError>
    ensures { OnOk result
        (AppendsText out.old out.new (caller_line_text (caller, line.now))) }
{
    let state = state_name(line.state);
    write!(out, "caller {caller} {state}")?;
    write!(out, " {} {}", line.answered, line.entries)?;
    writeln!(out, " {}", line.longest)
}

// Writes the line of the sequence.
fn put_seq(out: &mut String, seq: u32) -> Result<(), AllocError>
    ensures { OnOk result (AppendsText out.old out.new (seq_line seq)) }
{
    writeln!(out, "seq {seq}")
}

// Writes the lines of the entries.
fn put_entries(out: &mut String, entries: &[Entry]) -> Result<(), AllocError>
    ensures { OnOk result
        (AppendsText out.old out.new (entry_lines (map entry_value entries.now))) }
{
    for entry in entries {
        put_entry(out, entry)?;
    }
    Ok(())
}

// Writes the lines of the callers.
fn put_callers(out: &mut String, callers: &[Line]) -> Result<(), AllocError>
    ensures { OnOk result
        (AppendsText out.old out.new (caller_lines callers.now)) }
{
    for (caller, line) in callers.iter().enumerate() {
        put_caller(out, caller, line)?;
    }
    Ok(())
}

impl Report {
    /// The text of the report.
    pub fn print(&self, alloc: Global) -> Result<Vec<u8>, AllocError>
        ensures { IfOk result (λ text. text.items ≡ report_text (report_value self.now)) }
    {
        let mut out = String::from_str(alloc, "onefile report 1\n")?;
        put_entries(&mut out, &self.entries)?;
        put_callers(&mut out, &self.callers)?;
        put_seq(&mut out, self.seq)?;
        put_store(&mut out, &self.store)?;
        out.push_str("end\n")?;
        Ok(out.into_bytes())
    }
}
