//! Facts about the numbers of cells and the places of words. The functions here do nothing: each
//! one's contract is a theorem that proofs cite.

ghost use Rattle.std.specs.Prelude.{◌≡◌, ℕ, ◌^◌, ◌<◌, ◌≤◌, ◌+◌, ◌*◌, ◌⊎◌, ◌↔◌};
ghost use Rattle.of_cell.specs.Words.{pack, seq_of, payload_of, IsEarlier};
ghost use Rattle.of_cell.specs.Cells.{log_room, durable_cells, table_words, step_bound};
ghost use Rattle.of_cell.specs.Named.{CellsDiffer, CellsBelow, WordPlacesDiffer, PlacesBelow};
ghost use Rattle.of_cell.specs.declared.shape.TheConstants.{MOST_CALLERS, MOST_DATA_CELLS, MOST_CELLS, FEW_DATA_CELLS, LOG_SHARE};

use crate::Shape;

/// A word is made of its sequence and its payload, and can be taken apart into them again. Words
/// are ordered by sequence first, and then by payload.
pub fn words_are_pairs()
    ensures parts { (s p : ℕ) → p < 2 ^ 32 → (seq_of (pack s p) ≡ s) × (payload_of (pack s p) ≡ p) }
    ensures whole { (w : ℕ) → pack (seq_of w) (payload_of w) ≡ w }
    ensures order { (v w : ℕ) → (v < w) ↔ IsEarlier v w }
{}

/// No two cells of a shape have the same number, and each number is below the number of cells.
pub fn cells_differ(shape: &Shape)
    ensures differ { CellsDiffer shape.now.callers shape.now.cells }
    ensures below { CellsBelow shape.now.callers shape.now.cells }
{}

/// No two words of a shape's table have the same place, and each place is below the number of
/// words.
pub fn places_differ(shape: &Shape)
    ensures differ { WordPlacesDiffer shape.now.callers shape.now.instrs shape.now.cells }
    ensures below { PlacesBelow shape.now.callers shape.now.instrs shape.now.cells }
{}

/// How many entries a log has room for. It is never more than the number of data cells. With at
/// most `FEW_DATA_CELLS` data cells it is one entry for each. With more it is `FEW_DATA_CELLS`, and
/// `LOG_SHARE` for each caller, or one entry for each data cell if these are fewer.
#[tactic(auto, unfolding(crate::specs::Cells::log_room))]
pub fn log_rooms()
    ensures most { (n m : ℕ) → log_room n m ≤ m }
    ensures few { (n m : ℕ) → log_room n m ≤ FEW_DATA_CELLS + n * LOG_SHARE }
    ensures whole { (n m : ℕ) → m ≤ FEW_DATA_CELLS → log_room n m ≡ m }
    ensures share { (n m : ℕ) → m ≤ log_room n m ⊎ FEW_DATA_CELLS + n * LOG_SHARE ≤ log_room n m }
{}

/// The limits as plain numbers, and the room of a log in some tables: with 4353 data cells and one
/// caller it is one entry short of all data cells.
#[tactic(auto, unfolding(crate::specs::Cells::log_room))]
pub fn limits()
    ensures data_cells { MOST_DATA_CELLS ≡ 134217728 }
    ensures callers { MOST_CALLERS ≡ 64 }
    ensures cells { MOST_CELLS ≡ 136839297 }
    ensures reached { durable_cells MOST_CALLERS MOST_DATA_CELLS ≡ MOST_CELLS }
    ensures few { FEW_DATA_CELLS ≡ 4096 }
    ensures share { LOG_SHARE ≡ 256 }
    ensures whole { log_room 16 1887 ≡ 1887 }
    ensures cut { log_room 1 4353 ≡ 4352 }
    ensures greatest { log_room MOST_CALLERS MOST_DATA_CELLS ≡ 20480 }
{}

/// How many cells, words and steps there are with sixteen callers, sixteen script words each, and
/// 1887 data cells: those of a store of 512 blocks.
#[tactic(auto, unfolding(crate::specs::Cells::log_room))]
pub fn largest()
    ensures cells { durable_cells 16 1887 ≡ 62304 }
    ensures words { table_words 16 16 1887 ≡ 124881 }
    ensures steps { step_bound 16 16 1887 ≡ 138657 }
{}

/// How many cells and steps there are with one caller, sixteen script words, and 81 data cells:
/// those of a store without blocks.
#[tactic(auto, unfolding(crate::specs::Cells::log_room))]
pub fn smallest()
    ensures cells { durable_cells 1 81 ≡ 246 }
    ensures steps { step_bound 1 16 81 ≡ 6054 }
{}
