//! What memories and their histories hold: functions that do nothing, whose contracts are the
//! theorems.

ghost use Rattle.of_memory.specs.Handles.{CallsAreCounted, AreStepBounds};
ghost use Rattle.of_memory.specs.Joining.{HistoriesJoin, InvariantsHold};
ghost use Rattle.of_memory.specs.Joining.{MemoriesStay, NoneStaysOpen, LoneCallsAreSaved};
ghost use Rattle.of_memory.specs.Laws.{HoldsHistory};
ghost use Rattle.of_memory.specs.Memories.{IsMemory};
ghost use Rattle.of_memory.specs.Moments.{WordsHoldHistory, HoldsWordsAlways};
ghost use Rattle.of_memory.specs.Telling.{ToldCallsComeFirst, CallsComeInTurn};

use crate::memory::Memory;
use of_cell::laws::{largest, smallest};
use of_cells::laws as cells;
use of_eval::Scripts;

/// If callers have run only scripts on a closed row, and its pass keeps all of them, the row holds
/// one serial history of scripts on the plain store. The history has each call that was answered,
/// with its reply, and recovery finds the store at its end.
pub fn history_is_held(work: Scripts, limit: u32)
    ensures { HoldsHistory work limit }
{
    cells::rows_hold_history(work, limit);
}

/// At each moment of a row on which callers run only scripts, also between two steps on it,
/// recovery finds in the durable words what one serial history leads to. The history has each
/// answered call of the callers that a pass or a member keeps, and a table may start from what is
/// found.
pub fn words_hold_history(work: Scripts, limit: u32)
    ensures { WordsHoldHistory work limit }
{
    cells::rows_hold_history(work, limit);
}

/// At each moment of a memory's row, also between two steps on it, recovery of the durable words
/// finds the store to which one serial history leads, if a pass or a member keeps the caller of
/// each taken number. This history has each answered call of these callers. A memory may go on from
/// what recovery finds.
pub fn memory_words_hold_history(memory: &Memory)
    requires { IsMemory memory.now }
    ensures { HoldsWordsAlways memory.now }
{
    words_hold_history(memory.scripts(), memory.limit());
}

/// If a handle has no open call, its number has begun these calls and no others: those from before
/// the memory was opened, and those that have ended since.
pub fn calls_are_counted()
    ensures { CallsAreCounted }
{
    cells::calls_are_counted::<Scripts>();
}

/// The history of a memory, followed by that of the memory that goes on from what the first one has
/// left, is one serial history.
pub fn histories_join()
    ensures { HistoriesJoin }
{}

/// If every script of a kind keeps a property of the store, a history of such scripts keeps it too.
pub fn invariants_hold()
    ensures { InvariantsHold }
{}

/// While handles come and go, a memory keeps its number of callers, and the store and tickets that
/// it was opened with.
pub fn memories_stay()
    ensures { MemoriesStay }
{}

/// If no call of a memory is open, and a handle comes and leaves with none open, then no call of
/// the memory is open.
pub fn none_stays_open()
    ensures { NoneStaysOpen }
{
    cells::none_stays_open::<Scripts>();
}

/// If one caller has made all calls, and each was answered, what is saved is the store after their
/// scripts, run one after the other.
pub fn lone_calls_are_saved()
    ensures { LoneCallsAreSaved }
{}

/// If a handle tells another handle of its calls, these calls come first in the history: before
/// each call that the other handle begins after it has heard the news.
pub fn told_calls_come_first()
    ensures { ToldCallsComeFirst }
{}

/// Calls that a program makes one after the other come in this order in the history, whatever their
/// numbers: those of a handle that has left come before those of a handle that enrols later.
pub fn calls_come_in_turn()
    ensures { CallsComeInTurn }
{}

/// The step bound of a call is 6,054 in the smallest memory, which has one caller and no blocks. It
/// is 138,657 in a memory with 16 callers and 512 blocks. No call makes more steps.
pub fn step_bounds()
    ensures { AreStepBounds }
{
    smallest();
    largest();
}
