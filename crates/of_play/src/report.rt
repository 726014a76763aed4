//! The report of what a plan's schedule leaves.

ghost use Rattle.std.specs.Prelude.{IfOk};
ghost use Rattle.of_report.specs.Report.{report_value};
ghost use Rattle.of_play.specs.Played.{IsPlayedReport};

use crate::schedule_run::play;
use of_caller::laws::{plan_keeps_laws, reports_respect_time, runs_are_lawful};
use of_plan::Plan;
use of_report::Report;
use std::alloc::{AllocError, Global};

/// The report of what recovery finds after a plan's schedule was run on a bank, each turn and each
/// eviction in its order. In the report each call comes after the calls that ended before it began.
pub fn play_report(alloc: Global, plan: &Plan) -> Result<Report, AllocError>
    ensures { IfOk result (λ report. IsPlayedReport plan.now (report_value report)) }
{
    plan_keeps_laws(plan);
    runs_are_lawful();
    reports_respect_time(plan);
    let ended = play(alloc, plan)?;
    Report::make(alloc, plan, &ended)
}
