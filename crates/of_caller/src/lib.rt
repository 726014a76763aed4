//! Callers of a row, teams of them, and what a run of a plan leaves of its table, from any start: a
//! lawful record.
#![tactic(auto)]

mod caller;
mod enrolling;
mod join_tree;
pub mod laws;
mod rows;
mod team_caller;
mod team_run;
mod telling;

pub use caller::{CallErr, Caller};
pub use rows::zero_row_for;
pub use team_run::team;
