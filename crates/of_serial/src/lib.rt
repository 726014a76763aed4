//! The serial report of a plan: its scripts one after another, over known cells.
#![tactic(auto)]

mod serial_run;

pub use serial_run::serial;
