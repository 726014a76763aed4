//! A door: one member goes from a thread to another through a slot, while other callers run.

#![tactic(auto)]

mod door;
mod rule_steps;
mod trace;

pub use door::{Door, Hand};
