//! Laws of plans' tables, and of what a run leaves: functions that change nothing, whose contracts
//! are the theorems.

ghost use Rattle.of_plan.specs.Plan.{IsPlan};
ghost use Rattle.of_caller.specs.PlanLaws.{KeepsLaws};
ghost use Rattle.of_caller.specs.Starts.{ZerosAreEmpty};
ghost use Rattle.of_caller.specs.Teams.{TeamsAreLawful, TeamsKeepAllowances};
ghost use Rattle.of_caller.specs.Teams.{TeamsAreScheduled};
ghost use Rattle.of_caller.specs.Runs.{SchedulesAreMoments, StartsAreRuns, RepliesAreHeld};
ghost use Rattle.of_caller.specs.Runs.{RunsAreLawful, RunsAreReported, RunsKeepAllowances};
ghost use Rattle.of_caller.specs.Restarts.{RunsRestart, TeamsRestart};
ghost use Rattle.of_caller.specs.Behind.{ComesBehind, EndsFirst};
ghost use Rattle.of_caller.specs.InTime.{SchedulesRespectTime, TeamsRespectTime};

use of_core::laws::{
    calls_kept, every_call, every_moment, every_order, machines, starts, step_kept,
};
use of_eval::Scripts;
use of_mem::Work;
use of_plan::Plan;
use of_row::laws::runs_are_schedules;

/// The laws of the protocol hold for the table of a plan. From every start, the plan's schedules
/// lead to moments of the plan, and before any event there is a record of a run. A table of zeros
/// is at the plan's empty start.
pub fn plan_keeps_laws(plan: &Plan)
    ensures plan { IsPlan plan.now }
    ensures laws { KeepsLaws plan.now }
    ensures moments { SchedulesAreMoments plan.now }
    ensures starts { StartsAreRuns plan.now }
    ensures zeros { ZerosAreEmpty plan.now }
{
    let limit = plan.limit();
    let scripts = Scripts::of_plan(plan);
    step_kept(limit, scripts);
    calls_kept(limit, scripts);
    every_moment(limit, scripts);
    every_call(limit, scripts);
    starts(limit, scripts);
    machines();
}

/// A run of a plan leaves a lawful record, if its table has come to a moment of the plan, and the
/// answers and ending of each caller agree with how its calls ended. In the report, the sequence is
/// within the limit, an entry beyond a caller's answers was announced, and no answered call has
/// fewer steps than it must make. Each caller keeps to the number of its steps as an allowance.
pub fn runs_are_lawful()
    ensures replies { RepliesAreHeld }
    ensures lawful { RunsAreLawful }
    ensures reported { RunsAreReported }
    ensures allowances { RunsKeepAllowances }
{}

/// A team of a plan leaves a lawful record, and the record's report has all that holds of the
/// report of a run. The announced entries of the report are the calls of the batches that the
/// team's pass has seen. If a caller keeps to its stop, its calls in the report can be made with
/// this number of steps. A table may start from the recovered durable words, and this start is
/// where the report ends. Some schedule of the plan's callers, with the plan's evictions in their
/// order, leaves the same record.
pub fn teams_are_lawful(plan: &Plan)
    ensures lawful { TeamsAreLawful plan.now }
    ensures allowances { TeamsKeepAllowances plan.now }
    ensures restarts { TeamsRestart plan.now }
    ensures scheduled { TeamsAreScheduled plan.now }
{
    let limit = plan.limit();
    let scripts = Scripts::of_plan(plan);
    plan_keeps_laws(plan);
    runs_are_schedules(limit, scripts);
}

/// Recovery makes a row of the durable words that a run leaves, and a table may start from this
/// row. The table starts where the run's report ends: at the report's sequence and store, with each
/// caller after its last announced entry.
pub fn runs_restart()
    ensures { RunsRestart }
{}

/// If a caller has heard of an answer when it begins a call, this call comes after the answered one
/// in the history: at a higher sequence if it is announced, and at no lower one if it is a read.
/// This holds also if the call was stopped and went on. In the events that lead to any later moment
/// of the row, the answered call ends before this call begins.
pub fn answers_are_behind<W: Work>()
    ensures behind { ComesBehind W.meaning W.lawful }
    ensures events { EndsFirst W.meaning W.lawful }
{}

/// The report of what a plan's schedule leaves respects the schedule's real time: no entry comes
/// before the entries whose calls ended before its own call began. A team leaves what some schedule
/// leaves, with the plan's evictions in their order, and the team's report respects the real time
/// of that schedule.
pub fn reports_respect_time(plan: &Plan)
    ensures schedules { SchedulesRespectTime plan.now }
    ensures teams { TeamsRespectTime plan.now }
{
    let limit = plan.limit();
    let scripts = Scripts::of_plan(plan);
    plan_keeps_laws(plan);
    runs_are_schedules(limit, scripts);
    every_order(limit, scripts);
}
