//! Partial memory, the addresses of data cells, and works, which run operations on cells.
#![tactic(auto)]

mod cells;
mod index;
pub mod laws;
mod part;
mod plot;
mod suspended_run;
mod touched_cells;
mod walk;
mod work;
mod workspace;
mod write_set;

pub use cells::Cells;
pub use part::{Need, Part};
pub use plot::{BUCKETS, MOST_BLOCKS, Plot, QUEUES, REGISTERS};
pub use suspended_run::{MaySuspend, SuspendedRun};
pub use walk::{Sought, Walk};
pub use work::{
    FEW_DATA_CELLS, LEAST_ABORT, MOST_CALLERS, MOST_DATA_CELLS, MOST_INSTRS, MOST_WRITES, RawReply,
    Work,
};
pub use workspace::Workspace;
pub use write_set::WriteSet;
