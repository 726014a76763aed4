//! The laws of all steps and all schedules: functions that do nothing, whose contracts are the
//! theorems.

ghost use Rattle.of_core.specs.Laws.{setup_for};
ghost use Rattle.of_core.specs.Laws.{StepsKeepInvariant, StepsGuarantee, OpenStepsAreSteps, StepsKeepDurables, StepBlind};
ghost use Rattle.of_core.specs.Laws.{NewCallsWereOpen, BeginsKeepInvariant, LoadsMayBeRaised, StepsKeepLoaded, RaisesKeepInvariant};
ghost use Rattle.of_core.specs.Laws.{RaisesNeverLower, WordsBehindAreFree, StartsMeetInvariant, InvariantIsSound};
ghost use Rattle.of_core.specs.Laws.{StartsHaveNoCalls, StepsEndOwnCall, BeginsAddOneCall, RaisesKeepCalls, WordsBehindKeepCalls};
ghost use Rattle.of_core.specs.Laws.{EventsKeepInvariant, SchedulesKeepInvariant, DurablesWereHeld, EveryMomentIsSound, LostCallsNeverRun};
ghost use Rattle.of_core.specs.Laws.{EveryCallStands, TurnsCountSteps, EventsLeadCalls, CallsEndInTime};
ghost use Rattle.of_core.specs.Laws.{EveryOrder, Detectable, RealTime, LateCalls, OwnTime, EveryLife};
ghost use Rattle.of_core.specs.Commits.{DoneAfterTwoCommits, GivenUp, LostToCommits, OutcomesAreNew};
ghost use Rattle.of_core.specs.Footprint.{ByFootprint};
ghost use Rattle.of_core.specs.Touched.{ByTouch, TouchedBoundOfWrites, TouchedBoundOfTransfers};
ghost use Rattle.of_core.specs.Written.{LogsAreWrites, OwnersTakePart, CellsRise};
ghost use Rattle.of_core.specs.Needed.{LoadsNeeded, CopiesOpenLogs};
ghost use Rattle.of_core.specs.SpentRound.{SpentInRounds};
ghost use Rattle.of_core.specs.Grounds.{GoodGrounds};
ghost use Rattle.of_core.specs.Revived.{RevivalsKeepCore, RevivalsKeepInvariant, OpenCallsCountReads, RevivalsCountOn, RevivalsMissNoCall, RevivedRestOnNothing, RevivalsKeepOthers, StepsLeaveRevivable, StepsKeepRequest, RaisesLeaveRevivable};
ghost use Rattle.of_core.specs.Raised.{RaisesHeld, RaisesAreShort, EvictionsAreShort, CellsLevel};
ghost use Rattle.of_core.specs.Raised.{RaisesUndisturbed, EvictionsUndisturbed, RaisesStand};
ghost use Rattle.of_core.specs.Laws.{FirstWordsHoldStart, FirstMachinesAreIdle, ZerosMayStart};
ghost use Rattle.of_core.specs.Laws.{ZeroTablesAreZeros, ZeroTablesHaveNoCalls};
ghost use Rattle.of_core.specs.Laws.{RecoveredRowsMayStart, RestartsMidway, RenumbersMidway};
ghost use Rattle.of_core.specs.Laws.{IsIdleOrOpen, IdleTestIsExact, TurnsKeepIdle, IdleRestsOnNothing, StepsFindTheirWord, TurnsAreSteps};
ghost use Rattle.of_core.specs.Laws.{FirstStateIsStart, BatchesAreNumbered, NextBatchIsNumberedNext, LongerKeepsBatches};
ghost use Rattle.of_core.specs.Laws.{LongerKeepsStates, PrefixKeepsBatches, PrefixKeepsStates, PrefixIsLegal};

use of_mem::Work;

/// A table at its start meets the invariant. Each step, each begin of a call and each eviction
/// keeps the invariant; a call may also be begun by a fresh machine in place of an idle one, if the
/// fresh machine is given the number of calls that the caller has begun. Each moment that meets the
/// invariant is sound: its history is legal, and recovery of its durable words gives the state at
/// the durable sequence. At such a moment the table has begun at a start that a table may have, and
/// all states of the history are lawful.
pub fn step_kept<W: Work>(limit: u32, work: W)
    ensures kept { StepsKeepInvariant
        (setup_for W.many W.size W.meaning limit work) (W.lawful work) }
    ensures moves { StepsGuarantee (setup_for W.many W.size W.meaning limit work) (W.lawful work) }
    ensures taken { OpenStepsAreSteps
        (setup_for W.many W.size W.meaning limit work) (W.lawful work) }
    ensures durables { StepsKeepDurables
        (setup_for W.many W.size W.meaning limit work) (W.lawful work) }
    ensures blind { StepBlind (setup_for W.many W.size W.meaning limit work) (W.lawful work) }
    ensures new_calls { NewCallsWereOpen
        (setup_for W.many W.size W.meaning limit work) (W.lawful work) }
    ensures begins { BeginsKeepInvariant
        (setup_for W.many W.size W.meaning limit work) (W.lawful work) }
    ensures loads { LoadsMayBeRaised
        (setup_for W.many W.size W.meaning limit work) (W.lawful work) }
    ensures stays { StepsKeepLoaded (setup_for W.many W.size W.meaning limit work) (W.lawful work) }
    ensures raises { RaisesKeepInvariant
        (setup_for W.many W.size W.meaning limit work) (W.lawful work) }
    ensures rises { RaisesNeverLower
        (setup_for W.many W.size W.meaning limit work) (W.lawful work) }
    ensures beside { WordsBehindAreFree
        (setup_for W.many W.size W.meaning limit work) (W.lawful work) }
    ensures start { StartsMeetInvariant
        (setup_for W.many W.size W.meaning limit work) (W.lawful work) }
    ensures sound { InvariantIsSound
        (setup_for W.many W.size W.meaning limit work) (W.lawful work) }
    ensures grounds { GoodGrounds (setup_for W.many W.size W.meaning limit work) (W.lawful work) }
{}

/// A new machine may take the place of a machine that was lost with its thread or process. The
/// table's words must show four things: the log and the request of the lost machine's caller are of
/// no transaction that isn't committed, the caller has no open transaction, and the durable word of
/// its request is the request's word. The invariant holds after this, if the new machine's number
/// of calls counts all reads that its caller was answered. Below the limit, a new machine that goes
/// on with the announced call has such a number. A new machine works at no sequence yet. No other
/// caller's calls change. Once a machine may be replaced, this stays so until its caller makes a
/// step, and no other caller changes its request.
pub fn taken_over_stands<W: Work>(limit: u32, work: W)
    ensures core { RevivalsKeepCore
        (setup_for W.many W.size W.meaning limit work) (W.lawful work) }
    ensures kept { RevivalsKeepInvariant
        (setup_for W.many W.size W.meaning limit work) (W.lawful work) }
    ensures newest { OpenCallsCountReads
        (setup_for W.many W.size W.meaning limit work) (W.lawful work) }
    ensures counted { RevivalsCountOn
        (setup_for W.many W.size W.meaning limit work) (W.lawful work) }
    ensures rests { RevivedRestOnNothing (setup_for W.many W.size W.meaning limit work) }
    ensures ran { RevivalsMissNoCall
        (setup_for W.many W.size W.meaning limit work) (W.lawful work) }
    ensures others { RevivalsKeepOthers
        (setup_for W.many W.size W.meaning limit work) (W.lawful work) }
    ensures steps { StepsLeaveRevivable
        (setup_for W.many W.size W.meaning limit work) (W.lawful work) }
    ensures request { StepsKeepRequest
        (setup_for W.many W.size W.meaning limit work) (W.lawful work) }
    ensures raises { RaisesLeaveRevivable
        (setup_for W.many W.size W.meaning limit work) (W.lawful work) }
{}

/// Which steps and events change a caller's calls. At a start there are no calls. A step may end
/// the open call of its own caller. A begin adds a call of its own caller, also if a fresh machine
/// begins the call. Nothing else changes a caller's calls.
pub fn calls_kept<W: Work>(limit: u32, work: W)
    ensures start { StartsHaveNoCalls
        (setup_for W.many W.size W.meaning limit work) (W.lawful work) }
    ensures steps { StepsEndOwnCall (setup_for W.many W.size W.meaning limit work) (W.lawful work) }
    ensures begins { BeginsAddOneCall
        (setup_for W.many W.size W.meaning limit work) (W.lawful work) }
    ensures raises { RaisesKeepCalls
        (setup_for W.many W.size W.meaning limit work) (W.lawful work) }
    ensures beside { WordsBehindKeepCalls
        (setup_for W.many W.size W.meaning limit work) (W.lawful work) }
{}

/// Each event keeps the invariant, and so does each schedule. From every start, every schedule
/// leaves a sound moment: its history is legal, and recovery of its durable words gives the state
/// at the durable sequence. Each durable word is one that its cell has held. This holds also if
/// machines are lost and replaced. When a batch is committed, each of its calls is the open call of
/// the machine that its caller has then. So a call that a lost machine had begun and not announced
/// is never run.
pub fn every_moment<W: Work>(limit: u32, work: W)
    ensures kept { EventsKeepInvariant
        (setup_for W.many W.size W.meaning limit work) (W.lawful work) }
    ensures runs { SchedulesKeepInvariant
        (setup_for W.many W.size W.meaning limit work) (W.lawful work) }
    ensures durables { DurablesWereHeld
        (setup_for W.many W.size W.meaning limit work) (W.lawful work) }
    ensures sound { EveryMomentIsSound
        (setup_for W.many W.size W.meaning limit work) (W.lawful work) }
    ensures never { LostCallsNeverRun
        (setup_for W.many W.size W.meaning limit work) (W.lawful work) }
{}

/// In every schedule, each caller has the calls that the events begin. The history has the outcome
/// of each call that has ended, and no outcome is older than the outcome of the caller's previous
/// call. Each turn of a caller that has an open call is a step of that call.
pub fn every_call<W: Work>(limit: u32, work: W)
    ensures calls { EveryCallStands (setup_for W.many W.size W.meaning limit work) (W.lawful work) }
    ensures turns { TurnsCountSteps (setup_for W.many W.size W.meaning limit work) (W.lawful work) }
    ensures kept { EventsLeadCalls (setup_for W.many W.size W.meaning limit work) (W.lawful work) }
{}

/// Every schedule is durably linearizable. One serial order has all calls that were answered, and
/// some open ones. Run in this order, the calls give the replies that they have, and each call
/// comes after all calls that had ended before it began. The order is by sequence; among calls of
/// one sequence the announced ones come first, by caller. An answered call has the sequence of its
/// answer. Recovery at any moment finds what the order leads to. It shows each caller whether its
/// last call took effect, and the call's reply. If each life starts from what recovery finds after
/// the life before, their orders make up one serial order from the first start. No outcome is older
/// than the last batch before its call began.
pub fn every_order<W: Work>(limit: u32, work: W)
    ensures order { EveryOrder (setup_for W.many W.size W.meaning limit work) (W.lawful work) }
    ensures detectable { Detectable (setup_for W.many W.size W.meaning limit work) (W.lawful work) }
    ensures real_time { RealTime (setup_for W.many W.size W.meaning limit work) (W.lawful work) }
    ensures late { LateCalls (setup_for W.many W.size W.meaning limit work) (W.lawful work) }
    ensures own_time { OwnTime (setup_for W.many W.size W.meaning limit work) (W.lawful work) }
    ensures since { OutcomesAreNew (setup_for W.many W.size W.meaning limit work) (W.lawful work) }
    ensures lives { EveryLife (setup_for W.many W.size W.meaning limit work) (W.lawful work) }
{}

/// Every call is answered or spent within the step bound of its own steps, in three rounds at most.
/// A second bound doesn't grow with the memory: it counts the longest log that the call writes,
/// copies or applies, the most cells that one of its tries or rounds loads, and the tries and
/// rounds that it has begun. A try or a round loads a cell only if a run needs it, and copies a log
/// only if its transaction is open. An announced call is in a batch after at most two commits that
/// follow its announcement. A try or a round is lost only to a commit: without one, a read ends in
/// its first try and any other call in its first round. A call is spent only in one of its rounds.
pub fn ends_in_time<W: Work>(limit: u32, work: W)
    ensures in_time { CallsEndInTime
        (setup_for W.many W.size W.meaning limit work) (W.lawful work) }
    ensures footprint { ByFootprint (setup_for W.many W.size W.meaning limit work) (W.lawful work) }
    ensures touched { ByTouch (setup_for W.many W.size W.meaning limit work) (W.lawful work) }
    ensures needed { LoadsNeeded (setup_for W.many W.size W.meaning limit work) (W.lawful work) }
    ensures helped { CopiesOpenLogs (setup_for W.many W.size W.meaning limit work) (W.lawful work) }
    ensures two_commits { DoneAfterTwoCommits
        (setup_for W.many W.size W.meaning limit work) (W.lawful work) }
    ensures given_up { GivenUp (setup_for W.many W.size W.meaning limit work) (W.lawful work) }
    ensures lost { LostToCommits (setup_for W.many W.size W.meaning limit work) (W.lawful work) }
    ensures spent { SpentInRounds (setup_for W.many W.size W.meaning limit work) (W.lawful work) }
{}

/// The step bound that depends on how many cells operations read and write, as a formula for a call
/// that may write. And a worked case of it: three callers, whose operations read and write at most
/// two cells.
pub fn touched_bounds()
    ensures writes { TouchedBoundOfWrites }
    ensures transfers { TouchedBoundOfTransfers }
{}

/// In every schedule, a batch's log has the writes of the batch's calls, run in order, and entries
/// for their callers' own cells, and nothing else. One of the calls is by the batch's owner. A step
/// leaves a data cell's word or gives the cell a word of a later transaction, so no helper writes
/// an older number.
pub fn batches<W: Work>(limit: u32, work: W)
    ensures logs { LogsAreWrites (setup_for W.many W.size W.meaning limit work) (W.lawful work) }
    ensures owners { OwnersTakePart (setup_for W.many W.size W.meaning limit work) (W.lawful work) }
    ensures rise { CellsRise (setup_for W.many W.size W.meaning limit work) (W.lawful work) }
{}

/// A raise is a loop of a load and an exchange, and the loop is short: while a caller is about to
/// raise a durable word to v, no call changes that word to another one below v. Only an eviction
/// may, at most once, with a word that it has loaded before. In schedules from a start in which no
/// machine is replaced, no eviction does so: a cell changes only if its durable word is at least
/// the word that the cell holds.
pub fn raises_are_short<W: Work>(limit: u32, work: W)
    ensures held { RaisesHeld (setup_for W.many W.size W.meaning limit work) (W.lawful work) }
    ensures calls { RaisesAreShort (setup_for W.many W.size W.meaning limit work) (W.lawful work) }
    ensures evictions { EvictionsAreShort
        (setup_for W.many W.size W.meaning limit work) (W.lawful work) }
    ensures level { CellsLevel (setup_for W.many W.size W.meaning limit work) (W.lawful work) }
    ensures undisturbed { RaisesUndisturbed
        (setup_for W.many W.size W.meaning limit work) (W.lawful work) }
    ensures stand { RaisesStand (setup_for W.many W.size W.meaning limit work) (W.lawful work) }
    ensures loads { EvictionsUndisturbed
        (setup_for W.many W.size W.meaning limit work) (W.lawful work) }
{}

/// The first words of a table hold its start, and its first machines are idle. A table may start
/// with zeros, and then no caller has made a call. A table may start from what recovery makes of
/// the durable words of any moment, also if an earlier recovery has stopped between two of its
/// writes. A renumbering that has stopped between two of its writes leaves a start with the same
/// numbers.
pub fn starts<W: Work>(limit: u32, work: W)
    ensures words { FirstWordsHoldStart (setup_for W.many W.size W.meaning limit work) }
    ensures machines { FirstMachinesAreIdle (setup_for W.many W.size W.meaning limit work) }
    ensures zeros { ZerosMayStart (setup_for W.many W.size W.meaning limit work) (W.lawful work) }
    ensures zero_words { ZeroTablesAreZeros (setup_for W.many W.size W.meaning limit work) }
    ensures zero_tickets { ZeroTablesHaveNoCalls (setup_for W.many W.size W.meaning limit work) }
    ensures restarts { RecoveredRowsMayStart
        (setup_for W.many W.size W.meaning limit work) (W.lawful work) }
    ensures midway { RestartsMidway (setup_for W.many W.size W.meaning limit work) (W.lawful work) }
    ensures renumbered { RenumbersMidway
        (setup_for W.many W.size W.meaning limit work) (W.lawful work) }
{}

/// What holds of each machine by itself, on any table: it is idle or has an open call, a turn
/// leaves an idle machine as it is, and a turn of a caller is the next step of its machine.
pub fn machines()
    ensures idle_or_open { IsIdleOrOpen }
    ensures idle_is { IdleTestIsExact }
    ensures idle_stays { TurnsKeepIdle }
    ensures idle_rests { IdleRestsOnNothing }
    ensures finds { StepsFindTheirWord }
    ensures turns { TurnsAreSteps }
{}

/// What holds of every history by itself: how its batches are numbered, that a longer history keeps
/// the batches and states of a shorter one, and that the beginning of a legal history is legal.
pub fn histories()
    ensures first { FirstStateIsStart }
    ensures numbered { BatchesAreNumbered }
    ensures next { NextBatchIsNumberedNext }
    ensures batches { LongerKeepsBatches }
    ensures states { LongerKeepsStates }
    ensures beginning_batches { PrefixKeepsBatches }
    ensures beginning_states { PrefixKeepsStates }
    ensures beginning_legal { PrefixIsLegal }
{}
