//! The answer of a call.

ghost use Rattle.std.specs.Prelude.{◌≡◌};
ghost use Rattle.of_cells.specs.Called.{outcome_of};

use of_core::Outcome;
use of_mem::RawReply;

/// The answer of a call.
#[derive(Clone, Copy, Debug, PartialEq, Eq)]
pub struct RawAnswer {
    /// The sequence at which the call took effect.
    pub seq: u32,
    /// Whether the call was announced. A call that was not announced is a read, which a try has
    /// answered.
    pub announced: bool,
    /// The reply of the call's operation, as data cells hold it.
    pub raw: RawReply,
    /// How many atomic steps the call made.
    pub steps: u64,
}

impl RawAnswer {
    /// The answer as an `Outcome`.
    pub fn outcome(self) -> Outcome
        ensures { result ≡ outcome_of self }
    {
        Outcome::Answered {
            seq: self.seq,
            announced: self.announced,
            raw: self.raw,
            steps: self.steps,
        }
    }
}
