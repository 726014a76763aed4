//! The report of what a plan's callers leave if they run at once.

ghost use Rattle.std.specs.Prelude.{◌≤◌, IfOk, vec_len, map};
ghost use Rattle.of_report.specs.Report.{report_value};
ghost use Rattle.of_tool.specs.Ran.{IsRunReport};
ghost use Rattle.of_tool.specs.Seen.{view_of};

use of_brake::Brake;
use of_caller::laws::{plan_keeps_laws, reports_respect_time, teams_are_lawful};
use of_caller::{team, zero_row_for};
use of_plan::{Ended, Plan};
use of_report::Report;
use of_row::Pass;
use std::alloc::{AllocError, Global};
use std::thread::Threads;

/// Runs a plan's callers at once on a table of zeros, each until its brake denies a step, while a
/// worker makes the plan's evictions. The result is the report, the record of the run, and the pass
/// that has seen the run. `brakes` has a brake for each caller, in order.
pub fn run_report<R: Threads + Sync>(
    rt: &R,
    alloc: Global,
    plan: &Plan,
    brakes: Vec<Box<dyn Brake + Send>>,
) -> Result<(Report, (Ended, Pass)), AllocError>
    requires { plan.now.callers ≤ vec_len brakes }
    ensures { IfOk result (λ r. IsRunReport (map (λ b. left b) brakes.items) plan.now
        (report_value r.0) r.1.0 (view_of r.1.1)) }
{
    plan_keeps_laws(plan);
    teams_are_lawful(plan);
    reports_respect_time(plan);
    let (row, pass) = zero_row_for(alloc, plan)?;
    let (ended, pass) = team(rt, alloc, row, pass, plan, brakes)?;
    let report = Report::make(alloc, plan, &ended)?;
    Ok((report, (ended, pass)))
}
