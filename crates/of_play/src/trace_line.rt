//! The lines of a trace.

ghost use Rattle.std.specs.Prelude.{OnOk, IfSome};
ghost use Rattle.of_caller.specs.Ends.{OutcomeHoldsReply};
ghost use Rattle.of_play.specs.TraceLine.{end_text, head_text, means_part, step_parts, step_line, rest_line, evict_line};
ghost use Rattle.of_script.specs.Appending.{AppendsText};

use crate::names::ShownWord;
use crate::trace_parts::{put_did, put_help, put_meaning, put_reply_part};
use crate::trace_text::{Change, put_change, step_name};
use of_core::{Op, Outcome, Place};
use of_plan::Plan;
use std::alloc::AllocError;
use std::fmt::Write;

/// A step that a caller has made.
#[derive(Clone, Copy)]
pub struct TraceStep {
    pub caller: u32,
    /// The index of the script that the call runs.
    pub index: u32,
    /// The place at which the call was before the step.
    pub place: Place,
    /// The operation of the step.
    pub op: Op,
    /// The caller whose log the step copied or applied, if the step was one of a help.
    pub helps: Option<u32>,
    pub change: Change,
    /// How the call has ended, if this was its last step.
    pub outcome: Option<Outcome>,
}

// Writes how a call has ended.
fn put_end(out: &mut String, outcome: Option<Outcome>) -> Result<(), AllocError>
    ensures { OnOk result (AppendsText out.old out.new (end_text outcome)) }
{
    match outcome {
        None => Ok(()),
        Some(Outcome::Spent { seq }) => write!(out, ", spent at {seq}"),
        Some(Outcome::Lost { seq }) => write!(out, ", lost at {seq}"),
        Some(
            Outcome::Answered {
                seq,
                announced,
                steps,
                ..
            },
        ) => {
            if announced {
                write!(out, ", answered at {seq} in {steps} steps")
            } else {
                write!(out, ", read at {seq} in {steps} steps")
            }
        }
    }
}

// Writes who has made an event, for which script, and the step.
fn put_head(out: &mut String, number: u32, step: &TraceStep) -> Result<(), AllocError>
    ensures { OnOk result (AppendsText out.old out.new (head_text number step.now)) }
{
    let name = step_name(step.place);
    write!(out, "{number} {}", step.caller)?;
    write!(out, " {} {name}, ", step.index)
}

// Writes what the word that was left means.
fn put_left(out: &mut String, plan: &Plan, change: &Change) -> Result<(), AllocError>
    ensures { OnOk result (AppendsText out.old out.new (means_part plan.now change.now)) }
{
    put_meaning(
        out,
        plan,
        ShownWord::at(&plan.shape(), change.word),
        change.left,
    )
}

// Writes the parts after the change.
fn put_parts(out: &mut String, plan: &Plan, step: &TraceStep) -> Result<(), AllocError>
    requires { IfSome step.now.outcome OutcomeHoldsReply }
    ensures { OnOk result (AppendsText out.old out.new (step_parts plan.now step.now)) }
{
    put_help(out, step.helps)?;
    put_did(out, step.op, step.change.found)?;
    put_left(out, plan, &step.change)?;
    put_reply_part(out, step.outcome)
}

/// Writes the line of a turn that has made a step.
pub fn put_step(
    out: &mut String,
    plan: &Plan,
    number: u32,
    step: &TraceStep,
) -> Result<(), AllocError>
    requires { IfSome step.now.outcome OutcomeHoldsReply }
    ensures { OnOk result (AppendsText out.old out.new (step_line plan.now number step.now)) }
{
    put_head(out, number, step)?;
    put_change(out, plan, &step.change)?;
    put_end(out, step.outcome)?;
    put_parts(out, plan, step)?;
    out.push_str("\n")
}

/// Writes the line of a turn that has done nothing.
pub fn put_rest(out: &mut String, number: u32, caller: u32) -> Result<(), AllocError>
    ensures { OnOk result (AppendsText out.old out.new (rest_line number caller)) }
{
    writeln!(out, "{number} {caller} nothing")
}

/// Writes the line of an eviction.
pub fn put_evict(
    out: &mut String,
    plan: &Plan,
    number: u32,
    change: &Change,
) -> Result<(), AllocError>
    ensures { OnOk result (AppendsText out.old out.new (evict_line plan.now number change.now)) }
{
    write!(out, "{number} evict, ")?;
    put_change(out, plan, change)?;
    put_left(out, plan, change)?;
    out.push_str("\n")
}
