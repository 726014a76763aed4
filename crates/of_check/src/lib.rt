//! Whether a text is that of a legal report of a plan.
#![tactic(auto)]

mod cause;
mod claims;
mod endings;
mod ends;
mod judging;
mod line_rule;
mod reason;
mod replay;
mod start;
mod verdict;

pub use cause::{Cause, EndRule, EntryRule, Judgement};
pub use ends::{LeftRule, why_left};
pub use judging::{judge, judge_from};
pub use start::{Start, tickets};
pub use verdict::{Verdict, check};
