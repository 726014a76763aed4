//! What `continue` does: a life that goes on from an image, and its text.

ghost use Rattle.std.specs.Prelude.{◌≡◌, ◌≤◌, IfOk, MatchResult, vec_len, map};
ghost use Rattle.of_mem.specs.declared.work.TheConstants.{MOST_INSTRS};
ghost use Rattle.of_report.specs.Image.{IsImage};
ghost use Rattle.of_lives.specs.Images.{PlanFitsImage};
ghost use Rattle.of_tool.specs.declared.command.Command.TheVariants.{Continue};
ghost use Rattle.of_tool.specs.Continued.{WritesLife};
ghost use Rattle.of_tool.specs.Seen.{Change, view_of};
ghost use Rattle.of_tool.specs.Refusals.{IsRefusedFor};
ghost use Rattle.of_tool.specs.Answer.{FailsBy, IsInputFor, MakesWith};

use crate::commands::TeamRecord;
use crate::input::life_in;
use crate::refusal::Failure;
use of_brake::Brake;
use of_caller::laws::reports_respect_time;
use of_image::image_print;
use of_lives::{Life, continue_from};
use of_plan::{Ended, Plan, parts};
use of_report::Image;
use of_row::Pass;
use std::alloc::{AllocError, Global};
use std::thread::Threads;

/// Goes on from an image by a plan that fits it. The text is the life's report, and after it the
/// image of the durable words that the life leaves; the run's record and pass are handed out too.
fn run_life<R: Threads + Sync>(
    rt: &R,
    alloc: Global,
    image: &Image,
    plan: &Plan,
    brakes: Vec<Box<dyn Brake + Send>>,
) -> Result<(Vec<u8>, (Ended, Pass)), AllocError>
    requires image { IsImage MOST_INSTRS image.now }
    requires fits { PlanFitsImage image.now plan.now }
    requires brakes { plan.now.callers ≤ vec_len brakes }
    ensures { IfOk result (λ r. WritesLife (map (λ b. left b) brakes.items)
        image.now plan.now r.1.0 (view_of r.1.1) r.0.items) }
{
    reports_respect_time(plan);
    let Life {
        report,
        ended,
        pass,
    } = continue_from(rt, alloc, image, plan, brakes)?;
    let mut text = report.print(alloc)?;
    let mut left = image_print(alloc, &plan.plot(), &ended.words)?;
    text.append(&mut left)?;
    Ok((text, (ended, pass)))
}

/// The text that `continue` prints, and the life's record with the pass of its team.
pub(crate) fn continue_text<R: Threads + Sync>(
    rt: &R,
    alloc: Global,
    input: &[u8],
    brakes: Vec<Box<dyn Brake + Send>>,
) -> Result<(Vec<u8>, TeamRecord), Failure>
    requires { vec_len brakes ≡ 16 }
    ensures { (source : Change) → IsInputFor Continue source input.now
        → MatchResult result
        (λ made. MakesWith (map (λ b. left b) brakes.items) Continue source made.0.items made.1)
        (FailsBy (IsRefusedFor Continue source)) }
{
    let (first, second) = parts(input);
    let (image, plan) = life_in(alloc, first, second)?;
    let (text, ran) = run_life(rt, alloc, &image, &plan, brakes)?;
    Ok((text, Some(ran)))
}
