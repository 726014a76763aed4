//! The callers of a team before they run. All that a team needs memory for is made here.

ghost use Rattle.std.specs.Prelude.{◌≡◌, ◌+◌, ◌<◌, ◌≤◌, [], IfOk, length, vec_len, vec_capacity};
ghost use Rattle.of_brake.specs.Stops.{IsArmedWith};
ghost use Rattle.of_plan.specs.Plan.{stop_of};
ghost use Rattle.of_row.specs.Rows.{IsRowPass, view_of_pass};
ghost use Rattle.of_row.specs.Passes.{IsFirst};
ghost use Rattle.of_caller.specs.Lanes.{IsPlanRow, Appends};
ghost use Rattle.of_caller.specs.Trees.{PrefixPaired};
ghost use Rattle.of_caller.specs.Seating.{HasSeated, IsSeat, Seated};

use crate::caller::Caller;
use crate::team_caller::{TeamCaller, push_within_capacity};
use of_brake::Brake;
use of_eval::Scripts;
use of_plan::{Ending, Plan};
use of_row::laws::members;
use of_row::{Pass, Row};
use std::alloc::{AllocError, Global};

// Arms a brake with a caller's stop.
fn arm(brake: &mut Box<dyn Brake + Send>, stop: Option<u64>)
    ensures { IsArmedWith (left brake.old) stop (left brake.new) }
{
    brake.arm(stop);
}

// Seats one caller, under a brake that is armed with its stop.
fn enrol_one(
    alloc: Global,
    row: &Row<Scripts>,
    plan: &Plan,
    pass: Pass,
    number: u32,
    mut brake: Box<dyn Brake + Send>,
    lanes: &mut Vec<TeamCaller>,
) -> Result<Pass, AllocError>
    requires row { IsPlanRow plan.now row.now }
    requires pass { IsRowPass row.now pass }
    requires seated { HasSeated number (view_of_pass pass) }
    requires number { number < plan.now.callers }
    requires room { vec_len lanes.old < vec_capacity lanes.old }
    ensures pass { IfOk result (IsRowPass row.now) }
    ensures seated { IfOk result (λ p. HasSeated (number + 1) (view_of_pass p)) }
    ensures lane { IfOk result (λ p. Appends (λ a. IsSeat plan.now row.now number a
        × IsArmedWith (left brake) (stop_of plan.now number) (left a.brake))
        lanes.old.items lanes.new.items) }
    ensures room { (vec_capacity lanes.old ≤ vec_capacity lanes.new)
        × (vec_len lanes.new ≤ vec_len lanes.old + 1) }
{
    members(row.work());
    let first = row.done(number);
    let answers = Vec::with_capacity(alloc, plan.scripts(number).len() - first as usize)?;
    arm(&mut brake, plan.stop(number));
    let Ok((member, pass)) = row.enrol(pass, number) else {
        unreachable!()
    };
    match Caller::new(alloc, row, member) {
        Ok(caller) => {
            push_within_capacity(
                lanes,
                TeamCaller {
                    number,
                    first,
                    caller,
                    brake,
                    answers,
                    ending: Ending::Stopped { asked: 1 },
                    apart: [0; 16],
                },
            );
            Ok(pass)
        }
        Err((_, error)) => Err(error),
    }
}

/// Enrols every caller of the plan. Each gets the brake whose index is the caller's number, armed
/// with the caller's stop. If memory runs out, no caller has made a step.
pub(crate) fn enrol_all(
    alloc: Global,
    row: &Row<Scripts>,
    plan: &Plan,
    mut pass: Pass,
    mut brakes: Vec<Box<dyn Brake + Send>>,
    lanes: &mut Vec<TeamCaller>,
) -> Result<Pass, AllocError>
    requires row { IsPlanRow plan.now row.now }
    requires pass { IsFirst row.now pass }
    requires brakes { plan.now.callers ≤ vec_len brakes }
    requires none { lanes.old.items ≡ [] }
    requires room { plan.now.callers ≤ vec_capacity lanes.old }
    ensures pass { IfOk result (IsRowPass row.now) }
    ensures seated { IfOk result (λ p. HasSeated plan.now.callers (view_of_pass p)) }
    ensures lanes { IfOk result (λ p. Seated plan.now row.now 0 lanes.new.items) }
    ensures all { IfOk result (λ p. length lanes.new.items ≡ plan.now.callers) }
    ensures armed { IfOk result (λ p. PrefixPaired
        (λ b a. IsArmedWith (left b) (stop_of plan.now a.number) (left a.brake))
        brakes.items lanes.new.items) }
{
    for number in 0..plan.callers() {
        let brake = brakes.remove(0);
        pass = enrol_one(alloc, row, plan, pass, number, brake, lanes)?;
    }
    Ok(pass)
}
