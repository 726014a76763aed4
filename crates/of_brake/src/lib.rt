//! Brakes, which decide when a caller is stopped.

#![tactic(auto)]

mod boxed;
mod brake;
mod free;
mod fuel;
mod hold;
mod pattern;
mod steps;

pub use brake::Brake;
pub use free::Free;
pub use fuel::Fuel;
pub use hold::{Holder, Teller, hold_pair};
pub use pattern::Pattern;
pub use steps::Steps;
