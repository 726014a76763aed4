//! Claimed calls, run one after another on the store.

ghost use Rattle.std.specs.Prelude.{◌≡◌, ◌↔◌, [], IsTrue, length, IfOk, OnOk};
ghost use Rattle.of_plan.specs.Plan.{IsPlan};
ghost use Rattle.of_report.specs.Report.{report_value};
ghost use Rattle.of_check.specs.Starts.{start_of};
ghost use Rattle.of_check.specs.Replay.{MayFollowWithin, MayFollow, HasRunCall, replay_at_start, replay_value, entries_so_far, report_so_far};

use crate::claims::{CallClaim, EndClaim};
use crate::endings::lines;
use crate::start::Start;
use of_plan::Plan;
use of_report::{Entry, Report};
use of_store::Store;
use std::alloc::{AllocError, Global};

/// The entries of the calls that have run, how many calls of each caller, the claim of the last
/// call, and the store that it left.
#[derive(Drop)]
pub(crate) struct Replay {
    pub entries: Vec<Entry>,
    pub counts: Vec<u32>,
    pub last: CallClaim,
    pub store: Store,
}

// Whether a call may come after the last one.
pub(crate) fn follows(last: CallClaim, next: CallClaim) -> bool
    ensures { IsTrue result ↔ MayFollowWithin last.announced next.announced last next }
{
    let same = next.seq == last.seq;
    let one_more = u64::from(next.seq) == u64::from(last.seq) + 1;
    match (last.announced, next.announced) {
        (true, true) => one_more || (same && last.caller < next.caller),
        (true, false) => same,
        (false, true) => one_more,
        (false, false) => same && last.caller <= next.caller,
    }
}

// A plan is within its ranges.
pub(crate) fn in_range(plan: &Plan)
    ensures { IsPlan plan.now }
{
    let _ = plan.callers();
}

impl Replay {
    // No call has run since the start.
    pub(crate) fn new(alloc: Global, start: Start) -> Replay
        ensures course { replay_value result ≡ replay_at_start (start_of start) }
        ensures entries { entries_so_far result ≡ [] }
    {
        let Start {
            seq,
            finished,
            store,
        } = start;
        Replay {
            entries: Vec::new(alloc),
            counts: finished,
            last: CallClaim {
                seq,
                caller: 0,
                index: 0,
                announced: false,
            },
            store,
        }
    }

    // Runs a claimed call that may come next. An error means out of memory.
    pub(crate) fn run_call(&mut self, plan: &Plan, call: CallClaim) -> Result<(), AllocError>
        requires counts { length self.old.counts.items ≡ plan.now.callers }
        requires follows { MayFollow plan.now (replay_value self.old) call }
        ensures { OnOk result (HasRunCall plan.now self.old self.new call) }
    {
        in_range(plan);
        let scripts = plan.scripts(call.caller);
        let reply = self.store.run(&scripts[call.index as usize])?;
        self.entries.push(Entry {
            seq: call.seq,
            caller: call.caller,
            index: call.index,
            announced: call.announced,
            reply,
        })?;
        self.counts[call.caller as usize] = call.index + 1;
        self.last = call;
        Ok(())
    }

    // The report of what has run, with the lines of callers that are claimed. `done` says how many
    // scripts of each were done at the start. An error means out of memory.
    pub(crate) fn report(
        self,
        alloc: Global,
        plan: &Plan,
        done: &[u32],
        ends: &[EndClaim],
    ) -> Result<Report, AllocError>
        requires done { length done.now ≡ plan.now.callers }
        requires counts { length self.counts.items ≡ plan.now.callers }
        ensures { IfOk result (λ report.
            report_value report ≡ report_so_far plan.now done.now self ends.now) }
    {
        let callers = lines(alloc, plan, done, &self.counts, ends)?;
        Ok(Report {
            entries: self.entries,
            callers,
            seq: self.last.seq,
            store: self.store,
        })
    }
}
