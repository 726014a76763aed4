//! A row of zeros for a plan.

ghost use Rattle.std.specs.Prelude.{◌≡◌, IfOk};
ghost use Rattle.of_core.specs.Events.{zero_start};
ghost use Rattle.of_row.specs.Passes.{IsFirst};
ghost use Rattle.of_caller.specs.Tables.{plan_setup};
ghost use Rattle.of_caller.specs.PlanRows.{IsRowOf, HasStart, start_of_row};

use crate::laws::plan_keeps_laws;
use of_eval::Scripts;
use of_plan::Plan;
use of_row::{Pass, Row};
use std::alloc::{AllocError, Global};

/// A row of zeros for the callers of a plan, with its first pass. The error is that memory ran out.
pub fn zero_row_for(alloc: Global, plan: &Plan) -> Result<(Row<Scripts>, Pass), AllocError>
    ensures row { IfOk result (λ r. IsRowOf plan.now r.0) }
    ensures zeros { IfOk result (λ r. start_of_row r.0 ≡ zero_start (plan_setup plan.now)) }
    ensures start { IfOk result (λ r. HasStart plan.now r.0) }
    ensures pass { IfOk result (λ r. IsFirst r.0 r.1) }
{
    plan_keeps_laws(plan);
    let scripts = Scripts::of_plan(plan);
    let (row, pass) = Row::new(alloc, plan.shape(), plan.limit(), scripts)?;
    Ok((row, pass))
}
