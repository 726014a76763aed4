//! Judging a text: it is that of a legal report, or its first line that is wrong.

ghost use Rattle.std.specs.Prelude.{◌≡◌, ◌↔◌, ◌≤◌, IsTrue, length, IfOk, MatchOption};
ghost use Rattle.of_plan.specs.Legal.{HasOpenCall, HasEndState};
ghost use Rattle.of_report.specs.Lines.{end_state_value};
ghost use Rattle.of_check.specs.Starts.{start_of};
ghost use Rattle.of_check.specs.Replay.{MayFollow, replay_value};
ghost use Rattle.of_check.specs.Endings.{IsEnding, AreEndings, claimed_line};
ghost use Rattle.of_check.specs.Verdict.{greatest_seq};
ghost use Rattle.of_check.specs.Causes.{BreaksEntry, BreaksEnd, BreaksFirst, DifferFirst, ComesFirst, IsJudgement, IsReportJudgement, IsReplayEnd};

use crate::cause::{Cause, EndRule, EntryRule, Judgement};
use crate::claims::{CallClaim, Claims, EndClaim};
use crate::endings::{is_within, step_bound};
use crate::replay::{Replay, follows, in_range};
use crate::start::Start;
use of_plan::Plan;
use of_report::EndState;
use of_script::text::cut;
use std::alloc::{AllocError, Global};

// What comes of claimed calls that are run one after another.
#[derive(Drop)]
struct ReplayEnd {
    // What the calls that have run have left.
    replay: Replay,
    // How many calls have run.
    count: usize,
    // The rule that the next call breaks; None if all have run.
    broken: Option<EntryRule>,
}

// The rule that a claimed call breaks; None if it may come next.
fn broken_entry(plan: &Plan, replay: &Replay, call: CallClaim) -> Option<EntryRule>
    requires { length replay.now.counts.items ≡ plan.now.callers }
    ensures { MatchOption result (MayFollow plan.now (replay_value replay.now) call)
        (λ rule. BreaksEntry rule plan.now (replay_value replay.now) call) }
{
    if call.caller >= plan.callers() {
        return Some(EntryRule::NoCaller);
    }
    let index = replay.counts[call.caller as usize];
    let scripts = plan.scripts(call.caller);
    if index as usize >= scripts.len() {
        return Some(EntryRule::NoScript);
    }
    if call.index != index {
        return Some(EntryRule::Turn);
    }
    if !follows(replay.last, call) {
        return Some(EntryRule::Place);
    }
    if !call.announced && !scripts[index as usize].reads_only() {
        return Some(EntryRule::Writes);
    }
    None
}

// Runs claimed calls from a start, up to the first that may not come next.
fn replayed(
    alloc: Global,
    plan: &Plan,
    start: Start,
    calls: &[CallClaim],
) -> Result<ReplayEnd, AllocError>
    requires { length start.finished.items ≡ plan.now.callers }
    ensures { IfOk result (IsReplayEnd plan.now (start_of start) calls.now) }
{
    let mut replay = Replay::new(alloc, start);
    for count in 0..calls.len() {
        if let Some(rule) = broken_entry(plan, &replay, calls[count]) {
            return Ok(ReplayEnd {
                replay,
                count,
                broken: Some(rule),
            });
        }
        replay.run_call(plan, calls[count])?;
    }
    Ok(ReplayEnd {
        replay,
        count: calls.len(),
        broken: None,
    })
}

// Whether the caller has an entry for each answered call, and at most one more for an open call.
fn has_open_call(entries: u32, end: EndClaim) -> bool
    ensures { IsTrue result ↔ HasOpenCall (end_state_value end.state) end.answered entries }
{
    match end.state {
        EndState::Done | EndState::Spent => entries == end.answered,
        EndState::Stopped => end.answered <= entries && entries - end.answered <= 1,
    }
}

// Whether a caller with this many scripts may end so.
fn has_ended(scripts: u32, seq: u32, limit: u32, end: EndClaim) -> bool
    ensures { IsTrue result
        ↔ HasEndState (end_state_value end.state) end.answered scripts seq limit }
{
    match end.state {
        EndState::Done => end.answered == scripts,
        EndState::Stopped => end.answered < scripts,
        EndState::Spent => end.answered < scripts && seq == limit,
    }
}

// The rule that the line of a caller breaks; None if the caller may end so.
fn broken_end(plan: &Plan, scripts: u32, entries: u32, seq: u32, end: EndClaim) -> Option<EndRule>
    ensures { MatchOption result (IsEnding plan.now scripts seq (claimed_line entries end))
        (λ rule. BreaksEnd rule plan.now scripts seq (claimed_line entries end)) }
{
    if !has_open_call(entries, end) {
        return Some(EndRule::Answered);
    }
    if !has_ended(scripts, seq, plan.limit(), end) {
        return Some(EndRule::Ending);
    }
    if !is_within(step_bound(plan), end) {
        return Some(EndRule::Steps);
    }
    None
}

// The first caller that has no line, or whose line breaks a rule; None if all may end so.
fn first_end(
    plan: &Plan,
    done: &[u32],
    counts: &[u32],
    seq: u32,
    ends: &[EndClaim],
) -> Option<(u32, EndRule)>
    requires done { length done.now ≡ plan.now.callers }
    requires counts { length counts.now ≡ plan.now.callers }
    ensures { MatchOption result (AreEndings plan.now done.now seq counts.now ends.now)
        (λ x. BreaksFirst plan.now done.now seq counts.now ends.now x.0 x.1) }
{
    for caller in 0..plan.callers() {
        let at = caller as usize;
        if at >= ends.len() {
            return Some((caller, EndRule::Missing));
        }
        let entries = counts[at].saturating_sub(done[at]);
        let scripts = plan.scripts(caller).len() as u32;
        let to_do = scripts.saturating_sub(done[at]);
        if let Some(rule) = broken_end(plan, to_do, entries, seq, ends[at]) {
            return Some((caller, rule));
        }
    }
    None
}

// The first line at which two texts differ, by the number of lines above it; None if they are
// the same.
fn first_difference(one: &[u8], other: &[u8]) -> Option<u64>
    ensures { MatchOption result (one.now ≡ other.now) (DifferFirst one.now other.now) }
{
    if one == other {
        return None;
    }
    let mut left = one;
    let mut right = other;
    let mut above: u64 = 0;
    loop {
        let (first, more) = cut(left, b'\n');
        let (second, others) = cut(right, b'\n');
        if first != second {
            return Some(above);
        }
        let Some(more) = more else {
            return Some(above + 1);
        };
        let Some(others) = others else {
            return Some(above + 1);
        };
        left = more;
        right = others;
        above += 1;
    }
}

// The cause that comes first in the text: `cause`, on the line with this many lines above it, or an
// earlier line at which the text differs from that of the report that it claims.
fn first_of(text: &[u8], wanted: Vec<u8>, above: u64, cause: Cause) -> Cause
    ensures { ComesFirst text.now wanted above cause result }
{
    match first_difference(text, wanted.as_slice()) {
        Some(line) => {
            if line < above {
                return Cause::Line {
                    above: line,
                    wanted,
                };
            }
            cause
        }
        None => cause,
    }
}

// A sequence is a number of 32 bits.
fn has_32_bits(seq: u32)
    ensures { seq ≤ greatest_seq }
{}

/// Judges whether a text is the text of a report that is legal for a plan from a start. If it is,
/// the answer has this report; if it isn't, the answer names the first wrong line of the text. An
/// error means out of memory.
///
/// The entries and the lines of callers in the text claim which calls ran and how callers ended.
/// Only one report can be legal with these claims: the one that is made by running these calls. So
/// the text must be the text of this report.
pub fn judge_from(
    alloc: Global,
    plan: &Plan,
    start: Start,
    text: &[u8],
) -> Result<Judgement, AllocError>
    requires { length start.finished.items ≡ plan.now.callers }
    ensures { IfOk result (IsJudgement plan.now (start_of start) text.now) }
{
    in_range(plan);
    let done = Vec::from_slice(alloc, &start.finished)?;
    let claims = Claims::read(alloc, text)?;
    let ReplayEnd {
        replay,
        count,
        broken,
    } = replayed(alloc, plan, start, &claims.calls)?;
    let ended = first_end(plan, &done, &replay.counts, replay.last.seq, &claims.ends);
    let report = replay.report(alloc, plan, &done, &claims.ends)?;
    let wanted = report.print(alloc)?;
    let above = count as u64 + 1;
    if let Some(rule) = broken {
        let cause = Cause::Entry { index: count, rule };
        return Ok(Judgement::Illegal(first_of(text, wanted, above, cause)));
    }
    if let Some((caller, rule)) = ended {
        let cause = Cause::Caller {
            entries: count,
            caller,
            rule,
        };
        let above = above + u64::from(caller);
        return Ok(Judgement::Illegal(first_of(text, wanted, above, cause)));
    }
    has_32_bits(report.seq);
    match first_difference(text, wanted.as_slice()) {
        None => Ok(Judgement::Legal(report)),
        Some(above) => Ok(Judgement::Illegal(Cause::Line { above, wanted })),
    }
}

/// Judges whether a text is the text of a report that is legal for a plan from the empty start. If
/// it is, the answer has this report; if it isn't, the answer names the first wrong line of the
/// text. An error means out of memory.
pub fn judge(alloc: Global, plan: &Plan, text: &[u8]) -> Result<Judgement, AllocError>
    ensures { IfOk result (IsReportJudgement plan.now text.now) }
{
    let start = Start::empty(alloc, plan.callers(), plan.blocks())?;
    judge_from(alloc, plan, start, text)
}
