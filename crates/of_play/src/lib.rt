//! A plan's schedule, run step by step: the report of what the schedule leaves, and a trace with a
//! line for each event.
#![tactic(auto)]

mod commit_line;
pub mod laws;
mod names;
mod report;
mod schedule_run;
mod trace_line;
mod trace_parts;
mod trace_text;

pub use report::play_report;
pub use schedule_run::{ALL_EVENTS, commits, play, trace};
