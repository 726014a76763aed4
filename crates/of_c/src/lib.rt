//! A memory, its callers and what it leaves, for C: each call tests what it is given and answers a
//! code. The header c/include/onefile.h is the manual.
#![tactic(auto)]

mod asking;
mod callers;
mod codes;
mod held;
mod images;
mod losses;
mod memories;
mod pair;
mod raw;
mod reply;
mod slot;
mod states;
mod truth;
mod words;

pub use held::{Held, Home, Kept, Seat, Vacant};
pub use pair::Pair;
pub use raw::Raw;
pub use reply::CReply;
pub use slot::Slot;
pub use words::CSizes;
