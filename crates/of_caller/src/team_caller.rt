//! One caller of a team: it makes the calls of its scripts, one after the other.

ghost use Rattle.std.specs.Prelude.{◌≡◌, ◌+◌, ◌-◌, ◌<◌, ◌≤◌, ◌++◌, ◌∷◌, []};
ghost use Rattle.std.specs.Prelude.{IfSome, IfNone, length, vec_len, vec_capacity};
ghost use Rattle.of_plan.specs.Plan.{scripts_of};
ghost use Rattle.of_caller.specs.Ends.{TellsAnswer};
ghost use Rattle.of_caller.specs.Lanes.{IsPlanRow, IsHeldAnswer, Appends, TakesStepsOfAnswers};
ghost use Rattle.of_caller.specs.Lanes.{KeepsToBrake, KeepsLeft};
ghost use Rattle.of_caller.specs.Lanes.{LaneAt, IsReady, LaneEnds, HasRun};

use crate::caller::{CallErr, Caller};
use of_brake::{Brake, Steps};
use of_core::Outcome;
use of_eval::{Scripts, reply_of};
use of_plan::{Answer, Ending, Plan};
use of_row::Row;
use of_script::{MOST_INSTRS, to_words};
use std::marker::Brand;
use std::sync::ledger::{Blank, Ledger};

/// A caller of a plan, with its brake, its answers and its ending.
#[derive(Drop)]
pub(crate) struct TeamCaller {
    pub(crate) number: u32,
    /// How many of the caller's scripts were done before the row's start.
    pub(crate) first: u32,
    pub(crate) caller: Caller<Scripts>,
    pub(crate) brake: Box<dyn Brake + Send>,
    /// The answers so far, with room for one to each script that isn't done.
    pub(crate) answers: Vec<Answer>,
    /// How the caller has ended; before it has run, an ending that says that its first step was
    /// denied.
    pub(crate) ending: Ending,
    /// Unused. Callers of a team are side by side in memory, and each writes its machine at each
    /// step. This keeps the next caller's fields off the cache line that is written.
    pub(crate) apart: [u64; 16],
}

/// Adds an item for which there is room.
pub(crate) fn push_within_capacity<T: Drop>(to: &mut Vec<T>, item: T)
    requires { vec_len to.old < vec_capacity to.old }
    ensures items { to.new.items ≡ to.old.items ++ item ∷ [] }
    ensures len { vec_len to.new ≡ vec_len to.old + 1 }
    ensures capacity { vec_capacity to.old ≤ vec_capacity to.new }
{
    let Ok(()) = to.push(item) else {
        unreachable!()
    };
}

// Notes an answer.
fn push_answer(answers: &mut Vec<Answer>, outcome: Outcome)
    requires held { IsHeldAnswer outcome }
    requires room { vec_len answers.old < vec_capacity answers.old }
    ensures told { Appends (TellsAnswer outcome) answers.old.items answers.new.items }
    ensures room { vec_capacity answers.old ≤ vec_capacity answers.new }
{
    let Outcome::Answered {
        seq,
        announced,
        raw,
        steps,
    } = outcome
    else {
        unreachable!()
    };
    let Some(reply) = reply_of(&raw) else {
        unreachable!()
    };
    push_within_capacity(
        answers,
        Answer {
            seq,
            announced,
            reply,
            steps,
        },
    );
}

// Makes the call of one script, and notes its answer; else the caller ends so.
fn make_call<L: Ledger>(
    row: &Row<Scripts>,
    plan: &Plan,
    index: u32,
    lane: &mut TeamCaller,
    steps: &mut Steps<L>,
) -> Option<Ending>
    requires row { IsPlanRow plan.now row.now }
    requires from { lane.old.first ≤ index }
    requires index { index < length (scripts_of plan.now lane.old.number) }
    requires ready { LaneAt plan.now row.now lane.old (index - lane.old.first) }
    ensures goes { IfNone result (LaneAt plan.now row.now lane.new (index - lane.old.first + 1)) }
    ensures ends { IfSome result (LaneEnds plan.now row.now lane.new) }
    ensures gave { IfNone result (TakesStepsOfAnswers (left lane.old.brake) (left lane.new.brake)
        lane.old.answers.items lane.new.answers.items) }
    ensures stop { IfSome result (KeepsToBrake (left lane.old.brake)
        lane.old.answers.items lane.new.answers.items) }
    ensures same { (lane.new.number ≡ lane.old.number) × (lane.new.first ≡ lane.old.first) }
{
    let mut words = [0; MOST_INSTRS];
    let script = &plan.scripts(lane.number)[index as usize];
    let count = to_words(script, &mut words);
    match lane
        .caller
        .call(row, &words[..count as usize], &mut lane.brake, steps)
    {
        Ok(outcome) => {
            push_answer(&mut lane.answers, outcome);
            None
        }
        Err(CallErr::Stopped { asked }) => Some(Ending::Stopped { asked }),
        Err(CallErr::Spent { seq }) => Some(Ending::Spent { seq }),
    }
}

// Makes the calls of the scripts that aren't done, until all are answered, or one has no answer.
fn make_calls<L: Ledger>(
    row: &Row<Scripts>,
    plan: &Plan,
    lane: &mut TeamCaller,
    steps: &mut Steps<L>,
) -> Ending
    requires row { IsPlanRow plan.now row.now }
    requires ready { LaneAt plan.now row.now lane.old 0 }
    ensures ends { LaneEnds plan.now row.now lane.new result }
    ensures stop { KeepsToBrake (left lane.old.brake)
        lane.old.answers.items lane.new.answers.items result }
    ensures same { (lane.new.number ≡ lane.old.number) × (lane.new.first ≡ lane.old.first) }
{
    for index in lane.first..plan.scripts(lane.number).len() as u32 {
        if let Some(ending) = make_call(row, plan, index, lane, steps) {
            return ending;
        }
    }
    Ending::Done
}

// Makes the calls with a count of their steps.
fn run_counted<L: Ledger>(row: &Row<Scripts>, plan: &Plan, lane: &mut TeamCaller, blank: Blank)
    requires name { blank.name ≡ L.name }
    requires parts { (blank.parts ≡ L.parts) × (blank.parts ≡ 1) }
    requires row { IsPlanRow plan.now row.now }
    requires ready { IsReady plan.now row.now lane.old }
    ensures ran { HasRun plan.now row.now lane.old lane.new }
    ensures told { KeepsLeft (left lane.old.brake) lane.new.answers.items lane.new.ending }
{
    let mut steps: Steps<L> = Steps::new(blank);
    lane.ending = make_calls(row, plan, lane, &mut steps);
}

/// Runs a caller that has made no call, to its end.
pub(crate) fn run_lane(row: &Row<Scripts>, plan: &Plan, lane: &mut TeamCaller)
    requires row { IsPlanRow plan.now row.now }
    requires ready { IsReady plan.now row.now lane.old }
    ensures ran { HasRun plan.now row.now lane.old lane.new }
    ensures told { KeepsLeft (left lane.old.brake) lane.new.answers.items lane.new.ending }
{
    run_counted::<Brand>(row, plan, lane, Blank::new(1));
}
