//! The verdict on a text.

ghost use Rattle.std.specs.Prelude.{IfOk};
ghost use Rattle.of_check.specs.Verdict.{IsVerdict};

use crate::cause::Judgement;
use crate::judging::judge;
use of_plan::Plan;
use std::alloc::{AllocError, Global};

/// Whether a text is a legal report.
#[derive(Clone, Copy, Debug, PartialEq, Eq)]
pub enum Verdict {
    /// The text is that of a report that is legal for the plan.
    Legal,
    /// The text is that of no report that is legal for the plan.
    Illegal,
}

/// Whether a text is that of a report that is legal for the plan from the empty start. An error
/// means out of memory.
pub fn check(alloc: Global, plan: &Plan, text: &[u8]) -> Result<Verdict, AllocError>
    ensures { IfOk result (IsVerdict plan.now text.now) }
{
    match judge(alloc, plan, text)? {
        Judgement::Legal(_) => Ok(Verdict::Legal),
        Judgement::Illegal(_) => Ok(Verdict::Illegal),
    }
}
