//! Why a text is no legal report of a plan.

use of_report::Report;

/// Which rule an entry breaks. The entries before it break none.
#[derive(Clone, Copy, Debug, PartialEq, Eq)]
pub enum EntryRule {
    /// The plan has no caller of the entry's number.
    NoCaller,
    /// The caller has no script left for this entry.
    NoScript,
    /// The entry's index is not that of its caller's next script.
    Turn,
    /// An entry with this sequence and this caller may not come after the entry before it.
    Place,
    /// The entry is a `read`, but its script writes.
    Writes,
}

/// Which rule the line of a caller breaks. The entries, and the lines of callers before it, break
/// none.
#[derive(Clone, Copy, Debug, PartialEq, Eq)]
pub enum EndRule {
    /// The line at this place can't be read as the line of a caller.
    Missing,
    /// The number of the caller's entries isn't the number of its answered calls, and no open call
    /// explains the difference.
    Answered,
    /// The caller cannot end as its line says: as done with scripts left, as stopped or spent with
    /// none left, or as spent below the limit.
    Ending,
    /// The line names more steps for the longest call than a call can make, or it names steps
    /// although no call was answered.
    Steps,
}

/// Why a text is no legal report of a plan: its first line that is wrong.
#[derive(Debug, Drop)]
pub enum Cause {
    /// The entry with this index, from 0, breaks a rule. Its line has `index + 1` lines above it.
    Entry {
        index: usize,
        rule: EntryRule,
    },
    /// The line of this caller breaks a rule. The text has this many entries.
    Caller {
        entries: usize,
        caller: u32,
        rule: EndRule,
    },
    /// The line that has `above` lines above it differs from the line of `wanted` there. `wanted`
    /// is the text of the report that the entries and the lines of callers claim.
    Line {
        above: u64,
        wanted: Vec<u8>,
    },
}

/// The judgement on a text.
#[derive(Drop)]
pub enum Judgement {
    /// The text is that of this report, which is legal for the plan.
    Legal(Report),
    /// The text is that of no legal report, and this is why.
    Illegal(Cause),
}
