//! Scripts run on cells: the work of scripts, replies as cells hold them, and the store for which
//! cells stand.
#![tactic(auto)]

mod lawful_cells;
pub mod laws;
mod read;
mod reply;
mod scripts;
mod step;
mod table;
mod walk;
mod write;

pub use lawful_cells::{LawErr, lawful};
pub use reply::{reply_abort, reply_cells, reply_len, reply_marks, reply_of};
pub use scripts::Scripts;
pub use table::shape_of;
