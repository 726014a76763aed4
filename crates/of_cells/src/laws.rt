//! What memories of cells and their histories hold: functions that do nothing, whose contracts are
//! the theorems.

ghost use Rattle.of_cells.specs.Handles.{CallsAreCounted};
ghost use Rattle.of_cells.specs.Joining.{HistoriesJoin, CellsStayLawful, MemoriesStay, NoneStaysOpen};
ghost use Rattle.of_cells.specs.Telling.{ToldCallsComeFirst, CallsComeInTurn};
ghost use Rattle.of_cells.specs.Memories.{IsCellMemory};
ghost use Rattle.of_cells.specs.Moments.{RowsHoldHistory};
ghost use Rattle.of_cells.specs.Words.{HoldsWordsAlways};
ghost use Rattle.of_core.specs.Laws.{setup_for};

use crate::memory::CellMemory;
use of_core::laws::{every_moment, histories, step_kept};
use of_mem::Work;
use of_row::laws::stops_lose_nothing;

/// If a handle has no open call, its number has begun these calls and no others: those from before
/// the memory was opened, and those that have ended since.
pub fn calls_are_counted<W: Work>()
    ensures { CallsAreCounted W.meaning }
{}

/// The history of a memory, followed by that of the memory that goes on from what the first one has
/// left, is one serial history.
pub fn histories_join<W: Work>(work: W)
    ensures { HistoriesJoin (W.meaning work) }
{}

/// Operations lead from lawful cells of a work to lawful cells. A memory is opened with lawful
/// cells, so the cells on which an operation was answered are lawful too (`CellHandle::run`:
/// `means`).
pub fn cells_stay_lawful<W: Work>(work: W)
    ensures { CellsStayLawful (W.meaning work) (W.lawful work) (W.size work) }
{}

/// While handles come and go, a memory keeps its work and number of callers, and the cells and
/// tickets that it was opened with.
pub fn memories_stay<W: Work>()
    ensures { MemoriesStay W.meaning }
{}

/// If no call of a memory is open, and a handle comes and leaves with none open, then no call of
/// the memory is open.
pub fn none_stays_open<W: Work>()
    ensures { NoneStaysOpen W }
{}

/// If a handle tells another handle of its calls, these calls come first in the history: before
/// each call that the other handle begins after it has heard the news.
pub fn told_calls_come_first<W: Work>()
    ensures { ToldCallsComeFirst W.meaning }
{}

/// Calls that a program makes one after the other come in this order in the history, whatever their
/// numbers: those of a handle that has left come before those of a handle that enrols later.
pub fn calls_come_in_turn<W: Work>()
    ensures { CallsComeInTurn W.meaning }
{}

/// At each moment of a row, a table may start from what recovery finds in the row's durable words.
/// One serial history leads from the row's start to what recovery finds, and it has the calls that
/// were answered.
pub fn rows_hold_history<W: Work>(work: W, limit: u32)
    ensures { RowsHoldHistory (W.lawful work) (setup_for W.many W.size W.meaning limit work) }
{
    step_kept(limit, work);
    every_moment(limit, work);
    histories();
    stops_lose_nothing(limit, work);
}

/// A process that is killed at any moment loses no call that was answered. `SavedCells::from_words`
/// takes the durable words of that moment, and one serial history leads to what it finds in them.
pub fn words_hold_history<W: Work>(memory: &CellMemory<W>)
    requires { IsCellMemory W.meaning memory.now }
    ensures { HoldsWordsAlways W.many W.size W.meaning W.lawful memory.now }
{
    let _shape = memory.shape();
    rows_hold_history(memory.work(), memory.limit());
}
