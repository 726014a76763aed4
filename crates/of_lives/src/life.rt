//! A life that goes on from an image.

ghost use Rattle.std.specs.Prelude.{◌≡◌, ◌≤◌, IfOk, All, vec_len};
ghost use Rattle.of_mem.specs.declared.work.TheConstants.{MOST_INSTRS};
ghost use Rattle.of_eval.specs.Reported.{ReportsRun};
ghost use Rattle.of_report.specs.Report.{report_value, HasWholeReplies};
ghost use Rattle.of_report.specs.Image.{Image as PlainImage, IsImage, start_of_image};
ghost use Rattle.of_caller.specs.Stops.{KeepStops};
ghost use Rattle.of_caller.specs.Allowances.{KeepAllowances};
ghost use Rattle.of_lives.specs.OneHistory.{IsBehind};
ghost use Rattle.of_lives.specs.Images.{PlanFitsImage};
ghost use Rattle.of_lives.specs.Continuing.{IsLifeOf, LeavesImage};

use of_brake::Brake;
use of_caller::laws::teams_are_lawful;
use of_caller::team;
use of_eval::Scripts;
use of_plan::{Ended, Plan};
use of_report::{Image, Report};
use of_row::{Pass, Row};
use std::alloc::{AllocError, Global};
use std::thread::Threads;

/// What a life that went on from an image leaves.
#[derive(Drop)]
pub struct Life {
    /// The report of the run, which started from the image.
    pub report: Report,
    /// What the callers were answered, how each ended, and the words of their table.
    pub ended: Ended,
    /// The pass of the row, which has seen the whole run.
    pub pass: Pass,
}

/// Goes on from an image: runs all callers of the plan at once, over a table that starts from the
/// image's row. Each caller begins with the first script after its ticket, so no script that was
/// announced before is run again. `brakes` has a brake for each caller; the brake is armed with the
/// stop that the plan has for the caller.
///
/// The life leaves durable words in which recovery finds an image, and the next life can go on from
/// this image. An error means out of memory.
pub fn continue_from<R: Threads + Sync>(
    rt: &R,
    alloc: Global,
    image: &Image,
    plan: &Plan,
    brakes: Vec<Box<dyn Brake + Send>>,
) -> Result<Life, AllocError>
    requires image { IsImage MOST_INSTRS image.now }
    requires fits { PlanFitsImage image.now plan.now }
    requires brakes { plan.now.callers ≤ vec_len brakes }
    // The report is that of what a team has left, and is legal from the image's start.
    ensures team { IfOk result (λ l. IsLifeOf image.now plan.now
        l.ended l.pass.seat.me.0 (report_value l.report)) }
    ensures report { IfOk result (λ l. ReportsRun plan.now (start_of_image image.now)
        l.ended (report_value l.report)) }
    ensures whole { IfOk result (λ l. HasWholeReplies l.report) }
    // No call that the image holds is run again.
    ensures not_again { IfOk result (λ l.
        All (IsBehind (start_of_image image.now)) (report_value l.report).entries) }
    ensures stops { IfOk result (λ l. KeepStops (λ b. left b) plan.now l.ended 0 brakes.items) }
    // Each caller whose brake tells its steps left keeps its allowance.
    ensures allowances { IfOk result (λ l.
        KeepAllowances (λ b. left b) plan.now (report_value l.report) 0 brakes.items) }
    // The next life can go on from the image of the durable words, which is where this report ends.
    ensures leaves { let start = start_of_image image.now in
        IfOk result (λ l. (next : PlainImage) × LeavesImage plan.now start
        l.ended (report_value l.report) next) }
{
    teams_are_lawful(plan);
    let work = Scripts::of_plan(plan);
    let (row, pass) = Row::start(alloc, plan.shape(), plan.limit(), work, &image.durable)?;
    let (ended, pass) = team(rt, alloc, row, pass, plan, brakes)?;
    let report = Report::make_from(alloc, plan, image, &ended)?;
    Ok(Life {
        report,
        ended,
        pass,
    })
}
