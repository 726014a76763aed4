//! A memory that a program opens: threads run scripts on one store, and a closed memory can be
//! opened again. It is a memory of cells, whose operations are scripts.
#![tactic(auto)]

mod at_once;
mod error;
mod handle;
mod image;
pub mod laws;
mod looking;
mod lost;
mod memory;
mod saved;
mod words;

pub use at_once::Task;
pub use error::{ImageTextError, InUse, LimitError, OpenError, RenumberError, WordsError};
pub use handle::Handle;
pub use lost::LostHandle;
pub use memory::{Memory, Renumbered};
pub use of_cells::{
    CellNews as News, EnrolError, NotRevived, NotStill, NotYet, RawAnswer, RunError,
};
pub use of_plan::{Answer, GREATEST_LIMIT};
pub use of_script::{Abort, Cause, Instr, Reply, Script, ScriptErr, parse};
pub use of_store::Store;
pub use saved::Saved;
pub use words::{TableSizes, sizes};
