//! All callers of a plan at once, on one row.

ghost use Rattle.std.specs.Prelude.{◌≡◌, ◌+◌, ◌≤◌, ◌++◌, [], IfOk, map, vec_len, vec_capacity};
ghost use Rattle.std.specs.Thread.{IsSync};
ghost use Rattle.std.specs.List.{AllByRecursion as Each};
ghost use Rattle.of_row.specs.Rows.{view_of_pass, IsRowPass, IsFirstPass};
ghost use Rattle.of_row.specs.Passes.{IsFirst};
ghost use Rattle.of_caller.specs.PlanRows.{IsRowOf, HasStart};
ghost use Rattle.of_caller.specs.Stops.{KeepStops};
ghost use Rattle.of_caller.specs.Teams.{HandsBack, evictions_of};
ghost use Rattle.of_caller.specs.Trees.{AllPaired};
ghost use Rattle.of_caller.specs.Lanes.{IsPlanRow, IsReady, HasRun, KeepsLeft};
ghost use Rattle.of_caller.specs.Seating.{EvictsCells, IsAt, gathered, answers_in, endings_in};

use crate::enrolling::enrol_all;
use crate::join_tree::run_all;
use crate::laws::teams_are_lawful;
use crate::team_caller::{TeamCaller, push_within_capacity, run_lane};
use of_brake::Brake;
use of_eval::Scripts;
use of_plan::{Answer, Ended, Ending, Item, Plan};
use of_row::{Pass, Row};
use std::alloc::{AllocError, Global};
use std::thread::{Threads, join_mut};

// Makes the plan's evictions, in their order.
fn evict_all(row: &Row<Scripts>, plan: &Plan, pass: &mut Pass)
    requires row { IsPlanRow plan.now row.now }
    requires pass { IsRowPass row.now pass.old }
    requires first { IsFirstPass pass.old }
    ensures pass { IsRowPass row.now pass.new }
    ensures view { EvictsCells (evictions_of plan.now) (view_of_pass pass.old)
        (view_of_pass pass.new) }
{
    let schedule = plan.schedule();
    for i in 0..schedule.len() {
        if let Item::Evict { cell } = schedule[i] {
            row.evict(pass, cell);
        }
    }
}

// Runs every lane, all at once.
fn run_lanes<R: Threads + Sync>(rt: &R, row: &Row<Scripts>, plan: &Plan, lanes: &mut [TeamCaller])
    requires row { IsPlanRow plan.now row.now }
    requires ready { Each (IsReady plan.now row.now) lanes.old }
    ensures { AllPaired (λ a b. HasRun plan.now row.now a b
        × KeepsLeft (left a.brake) b.answers.items b.ending) lanes.old lanes.new }
{
    let task = |lane: &mut TeamCaller|
        requires { IsPlanRow plan.now row.now
            × IsReady plan.now row.now lane.now }
        ensures { HasRun plan.entry.now row.entry.now lane.entry.now lane.exit.now
            × KeepsLeft (left lane.entry.now.brake) lane.exit.now.answers.items
            lane.exit.now.ending }
    { run_lane(row, plan, lane) };
    run_all(rt, &task, lanes);
}

// Runs the lanes, and the worker that evicts beside them.
fn run_with_evictions<R: Threads + Sync>(
    rt: &R,
    row: &Row<Scripts>,
    plan: &Plan,
    pass: &mut Pass,
    lanes: &mut [TeamCaller],
)
    requires row { IsPlanRow plan.now row.now }
    requires pass { IsRowPass row.now pass.old }
    requires first { IsFirstPass pass.old }
    requires ready { Each (IsReady plan.now row.now) lanes.old }
    ensures pass { IsRowPass row.now pass.new }
    ensures view { EvictsCells (evictions_of plan.now) (view_of_pass pass.old)
        (view_of_pass pass.new) }
    ensures lanes { AllPaired (λ a b. HasRun plan.now row.now a b
        × KeepsLeft (left a.brake) b.answers.items b.ending) lanes.old lanes.new }
{
    let mut calls = ||
        requires { IsSync R.row × IsPlanRow plan.now row.now
            × Each (IsReady plan.now row.now) lanes.now }
        ensures { AllPaired (λ a b. HasRun plan.entry.now row.entry.now a b
            × KeepsLeft (left a.brake) b.answers.items b.ending) lanes.entry.now lanes.exit.now }
    { run_lanes(rt, row, plan, lanes) };
    let mut evictions = ||
        requires { IsPlanRow plan.now row.now × IsRowPass row.now pass.now
            × IsFirstPass pass.now }
        ensures { IsRowPass row.entry.now pass.exit.now
            × EvictsCells (evictions_of plan.entry.now) (view_of_pass pass.entry.now)
            (view_of_pass pass.exit.now) }
    { evict_all(row, plan, pass) };
    join_mut(rt, &mut calls, &mut evictions);
}

// Joins the members to the pass, and gathers what they leave. There is room for it.
fn gather(
    row: &Row<Scripts>,
    mut pass: Pass,
    mut lanes: Vec<TeamCaller>,
    all: &mut Vec<Vec<Answer>>,
    endings: &mut Vec<Ending>,
) -> Pass
    requires pass { IsRowPass row.now pass }
    requires lanes { Each (IsAt row.now) lanes.items }
    requires answers_room { vec_len all.old + vec_len lanes ≤ vec_capacity all.old }
    requires endings_room { vec_len endings.old + vec_len lanes ≤ vec_capacity endings.old }
    ensures pass { IsRowPass row.now result }
    ensures view { view_of_pass result ≡ gathered (view_of_pass pass) lanes.items }
    ensures answers { map (λ v. v.items) all.new.items
        ≡ map (λ v. v.items) all.old.items ++ answers_in lanes.items }
    ensures endings { endings.new.items ≡ endings.old.items ++ endings_in lanes.items }
{
    while !lanes.is_empty() {
        let TeamCaller {
            number: _,
            first: _,
            caller,
            brake: _,
            answers,
            ending,
            apart: _,
        } = lanes.remove(0);
        pass = row.join(pass, caller.leave());
        push_within_capacity(all, answers);
        push_within_capacity(endings, ending);
    }
    pass
}

/// Runs all callers of a plan at once on a row for it. Each caller runs its scripts from the first
/// that isn't done. Meanwhile a worker makes the plan's evictions in their order. Each caller has
/// the brake whose index in `brakes` is its number, armed with the caller's stop in the plan. A
/// caller ends after its last script, at its first stop, or if no sequence is left. After all have
/// ended, their members are joined to the pass, and the row is closed.
///
/// The error is that memory ran out; then no caller has made a step, since all memory is taken
/// before the first one. If no second thread can be made, one thread does all of this, part by
/// part.
pub fn team<R: Threads + Sync>(
    rt: &R,
    alloc: Global,
    row: Row<Scripts>,
    pass: Pass,
    plan: &Plan,
    brakes: Vec<Box<dyn Brake + Send>>,
) -> Result<(Ended, Pass), AllocError>
    requires row { IsRowOf plan.now row }
    requires start { HasStart plan.now row }
    requires pass { IsFirst row pass }
    requires brakes { plan.now.callers ≤ vec_len brakes }
    ensures handed { IfOk result (λ r. HandsBack plan.now row r.0 (view_of_pass r.1)) }
    ensures stops { IfOk result (λ r. KeepStops (λ b. left b) plan.now r.0 0 brakes.items) }
{
    teams_are_lawful(plan);
    let callers = plan.callers() as usize;
    let mut lanes = Vec::with_capacity(alloc, callers)?;
    let mut answers = Vec::with_capacity(alloc, callers)?;
    let mut endings = Vec::with_capacity(alloc, callers)?;
    let mut pass = enrol_all(alloc, &row, plan, pass, brakes, &mut lanes)?;
    run_with_evictions(rt, &row, plan, &mut pass, lanes.as_mut_slice());
    let pass = gather(&row, pass, lanes, &mut answers, &mut endings);
    let (words, pass) = row.close(pass);
    let ended = Ended {
        answers,
        endings,
        words,
    };
    Ok((ended, pass))
}
