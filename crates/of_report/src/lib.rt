//! Reports of runs and their texts, and images.
#![tactic(auto)]

mod data_cells;
mod image;
pub mod laws;
mod load;
mod make;
mod printing;
mod recovered_table;
mod report;
pub mod store;

pub use image::Image;
pub use printing::put_reply;
pub use report::{EndState, Entry, Line, Report};
