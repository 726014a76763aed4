//! What a call answered, and how a caller ended.

use of_script::Reply;

/// The answer of a call.
#[derive(Clone, Copy, Debug, PartialEq, Eq)]
pub struct Answer {
    /// The sequence at which the call took effect.
    pub seq: u32,
    /// Whether the call was announced. Only a call whose script writes nothing can be answered
    /// without being announced.
    pub announced: bool,
    /// What the call's script answered.
    pub reply: Reply,
    /// How many atomic steps the call made.
    pub steps: u64,
}

/// How the calls of a caller ended.
#[derive(Clone, Copy, Debug, PartialEq, Eq)]
pub enum Ending {
    /// All scripts of the caller are answered.
    Done,
    /// The caller was stopped before all its scripts were answered.
    Stopped {
        /// For how many steps the caller's open call has asked: those that it made, and the one
        /// that was denied. This is 1 if the caller has no open call.
        asked: u64,
    },
    /// No sequence was left for the caller's next call.
    Spent {
        /// The sequence that the call found.
        seq: u32,
    },
}
