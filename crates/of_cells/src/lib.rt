//! A memory of cells for a program's own kind of operations, a work: threads run the operations on
//! one table, and a closed memory can be opened again.
#![tactic(auto)]

mod answer;
mod at_once;
mod calling;
mod error;
mod handle;
pub mod laws;
mod limits;
mod lost;
mod memory;
mod saved;
mod seating;
mod telling;
mod words;

pub use answer::RawAnswer;
pub use at_once::CellTask;
pub use error::{EnrolError, InUse, LimitError, OpenError, RunError, WordsError};
pub use handle::CellHandle;
pub use lost::LostHandle;
pub use memory::CellMemory;
pub use of_cell::GREATEST_LIMIT;
pub use of_core::{NotYet, Outcome};
pub use of_mem::{MOST_INSTRS, RawReply, Work};
pub use of_row::{NotRevived, NotStill};
pub use saved::SavedCells;
pub use telling::CellNews;
pub use words::{TableSizes, sizes};
