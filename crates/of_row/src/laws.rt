//! What follows from the rule of a row: functions that do nothing, whose contracts are theorems.

ghost use Rattle.of_row.specs.Laws.{SeesWholeHistory, SeesOwnCalls, SeesLegal, EvictionsAreRaised};
ghost use Rattle.of_row.specs.Laws.{NewMachinesRun, MachinesKeepRunning};
ghost use Rattle.of_row.specs.FreshMembers.{FreshMembersFit};
ghost use Rattle.of_core.specs.Laws.{setup_for};
ghost use Rattle.of_row.specs.Runs.{RunsAreSchedules, RunsAreLinearizable};
ghost use Rattle.of_row.specs.Moments.{StopsLoseNothing, ClosedHoldsCalls};
ghost use Rattle.of_row.specs.ShortRaises.{MomentsHaveShortRaises, RunsHaveShortRaises};
ghost use Rattle.of_row.specs.Laws.{MembersStandForFresh, IdleMembersHaveNoCall, MemberInRange};
ghost use Rattle.of_row.specs.Laws.{NewMembersHaveNoCall, BegunMembersStand};

use crate::protocol::protocol;
use of_core::laws::{every_moment, every_order, starts, step_kept};
use of_mem::Work;

/// A pass or a member that keeps a caller of every number that is taken has seen the whole history.
pub fn sees_whole<W: Work>(limit: u32, work: W)
    ensures { SeesWholeHistory (W.lawful work) (setup_for W.many W.size W.meaning limit work) }
{
    protocol(limit, work);
}

/// A pass or a member has seen, of each caller that it keeps, only calls that the caller has begun;
/// and it has seen the outcome of each ended call of the caller. This holds whatever passes and
/// members were parted, met or joined before. What the pass or the member has seen is a legal
/// history.
pub fn sees_own<W: Work>(limit: u32, work: W)
    ensures own { SeesOwnCalls (W.lawful work) (setup_for W.many W.size W.meaning limit work) }
    ensures legal { SeesLegal (W.lawful work) (setup_for W.many W.size W.meaning limit work) }
{
    protocol(limit, work);
}

/// Each eviction that a pass has made has raised the durable word of its cell, at least to the word
/// that it loaded.
pub fn evictions_are_raised<W: Work>(work: W)
    ensures { EvictionsAreRaised (W.lawful work) }
{}

/// A member that has no open call stands for a fresh machine of the member's number. A member that
/// has just enrolled has no open call. If an idle machine for which a member stands begins a call,
/// the member stands for the machine with this call too.
pub fn members<W: Work>(work: W)
    ensures fresh { MembersStandForFresh W.meaning }
    ensures range { MemberInRange work }
    ensures first { NewMembersHaveNoCall W.meaning work }
    ensures begun { BegunMembersStand W.meaning work }
{}

/// A member that stands for an idle machine has no open call, and has begun as many calls as the
/// machine.
pub fn idle_members<W: Work>()
    ensures { IdleMembersHaveNoCall W.meaning }
{}

/// A machine with the row's sizes, limit and work runs on the row; so does the machine after it has
/// begun a call.
pub fn machines<W: Work>(work: W)
    ensures first { NewMachinesRun work }
    ensures begun { MachinesKeepRunning work }
{}

/// A run of threads is a schedule. If the first pass keeps a caller of every number that is taken
/// when the row is closed, some schedule leaves the row's words, with a history and calls that
/// agree with what the pass has seen and keeps.
pub fn runs_are_schedules<W: Work>(limit: u32, work: W)
    ensures { RunsAreSchedules (W.lawful work) (setup_for W.many W.size W.meaning limit work) }
{
    protocol(limit, work);
}

/// What holds of every schedule holds of a run: the run is durably linearizable, and the moment
/// that it leaves is sound.
pub fn runs_are_linearizable<W: Work>(limit: u32, work: W)
    ensures { RunsAreLinearizable (W.lawful work)
        (setup_for W.many W.size W.meaning limit work) }
{
    every_moment(limit, work);
    every_order(limit, work);
}

/// A row that stops between any two steps loses no call that was answered. Some schedule leaves the
/// words that the row has then. One serial order of calls, by sequence, explains how all calls have
/// ended, and recovery of these words finds the state to which the order leads. The words of a
/// closed row have such an order too, with all calls that the pass keeps.
pub fn stops_lose_nothing<W: Work>(limit: u32, work: W)
    ensures stops { StopsLoseNothing (W.lawful work)
        (setup_for W.many W.size W.meaning limit work) }
    ensures closed { ClosedHoldsCalls (W.lawful work)
        (setup_for W.many W.size W.meaning limit work) }
{
    protocol(limit, work);
    every_order(limit, work);
    starts(limit, work);
}

/// The raises of a run are short. While a caller or an eviction is about to raise a durable word,
/// no event puts a lower word there. So the loop of a load and an exchange that makes the raise
/// fails at most once. This holds up to each moment between two steps on a row, with evictions as
/// they came, and for the whole run of a closed row, with each eviction made at once.
pub fn raises_are_short<W: Work>(limit: u32, work: W)
    ensures moments { MomentsHaveShortRaises (W.lawful work)
        (setup_for W.many W.size W.meaning limit work) }
    ensures runs { RunsHaveShortRaises (W.lawful work)
        (setup_for W.many W.size W.meaning limit work) }
{
    step_kept(limit, work);
    every_moment(limit, work);
    of_core::laws::raises_are_short(limit, work);
}

/// If a number is taken and its caller has done nothing, the view of a member that has seen nothing
/// since the row's start fits the rule, whatever the other callers have done. No function of a row
/// makes such a member.
pub fn fresh_members_fit<W: Work>(limit: u32, work: W)
    ensures { FreshMembersFit (W.lawful work) (setup_for W.many W.size W.meaning limit work) }
{
    protocol(limit, work);
}
