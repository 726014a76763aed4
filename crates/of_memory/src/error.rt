//! Why something can't be done.

use crate::memory::Memory;
use crate::saved::Saved;
use std::alloc::AllocError;
use std::error::Error as StdError;
use std::fmt;
use thiserror::Error;

/// Why no memory is opened.
#[derive(Debug, Drop, Error)]
pub enum OpenError {
    #[error("out of memory")]
    OutOfMemory(#[from(alloc)] AllocError),
    #[error("{callers} callers: there are 1 to 64")]
    Callers { callers: u32 },
    #[error("{blocks} blocks: there are at most 16777216")]
    Blocks { blocks: u32 },
    #[error("{limit} is no limit of sequences")]
    Limit { limit: u32 },
}

/// Why no `Saved` is read from a text.
#[derive(Clone, Copy, Debug, PartialEq, Eq, Error)]
pub enum ImageTextError {
    #[error("out of memory")]
    OutOfMemory,
    /// The text is not that of an image. This is its first line at fault, or its last line if the
    /// text only stops too early. Lines count from 1.
    #[error("bad image, line {line}")]
    Bad { line: u64 },
    /// The text is that of an image, but no memory leaves such words. This is the first cell at
    /// fault.
    #[error("unlawful image, cell {cell}")]
    Unlawful { cell: u32 },
    /// The text is that of an image, but its sequence is above the greatest limit.
    #[error("sequence {seq} is above all limits")]
    PastLimits { seq: u32 },
}

/// Why no `Saved` is found in durable words.
#[derive(Clone, Copy, Debug, PartialEq, Eq, Error)]
pub enum WordsError {
    #[error("out of memory")]
    OutOfMemory,
    #[error("{callers} callers: there are 1 to 64")]
    Callers { callers: u32 },
    #[error("{blocks} blocks: there are at most 16777216")]
    Blocks { blocks: u32 },
    #[error("{limit} is no limit of sequences")]
    Limit { limit: u32 },
    /// There are `count` words, but the table of such a memory has another number of durable words.
    #[error("{count} words are not the durable words of such a memory")]
    Count { count: usize },
    /// No table may start from what recovery finds in the words. This is the first cell at fault.
    #[error("unlawful words, cell {cell}")]
    Unlawful { cell: u32 },
    /// The last committed sequence that recovery finds in the words is `seq`, and the limit is
    /// below it.
    #[error("the limit is below sequence {seq}")]
    PastLimit { seq: u32 },
}

/// What is saved can't have this limit. The error hands back what was saved, unchanged.
#[derive(Drop)]
pub struct LimitError(pub Saved);

impl fmt::Debug for LimitError {
    fn fmt<F: fmt::Write>(&self, f: &mut fmt::Formatter<F>) -> fmt::Result {
        f.write_str("LimitError")
    }
}

impl fmt::Display for LimitError {
    fn fmt<F: fmt::Write>(&self, f: &mut fmt::Formatter<F>) -> fmt::Result {
        f.write_str("the limit is none that this can have")
    }
}

impl StdError for LimitError {}

/// The memory can't be closed, since one of its handles is out. The error hands the memory back.
#[derive(Drop)]
pub struct InUse(pub Memory);

impl fmt::Debug for InUse {
    fn fmt<F: fmt::Write>(&self, f: &mut fmt::Formatter<F>) -> fmt::Result {
        f.write_str("InUse")
    }
}

impl fmt::Display for InUse {
    fn fmt<F: fmt::Write>(&self, f: &mut fmt::Formatter<F>) -> fmt::Result {
        f.write_str("the memory is in use")
    }
}

impl StdError for InUse {}

/// Why `Memory::renumbered` gives no memory whose sequences begin anew.
#[derive(Drop)]
pub enum RenumberError {
    /// A handle of the memory is out. The memory is handed back as it was.
    InUse(Memory),
    /// Memory ran out for the new table. The old memory is closed, and this is what is saved of it,
    /// with 0 as the last committed sequence.
    OutOfMemory(Saved),
}

impl fmt::Debug for RenumberError {
    fn fmt<F: fmt::Write>(&self, f: &mut fmt::Formatter<F>) -> fmt::Result {
        f.write_str(match self {
            RenumberError::InUse(_) => "InUse",
            RenumberError::OutOfMemory(_) => "OutOfMemory",
        })
    }
}

impl fmt::Display for RenumberError {
    fn fmt<F: fmt::Write>(&self, f: &mut fmt::Formatter<F>) -> fmt::Result {
        f.write_str(match self {
            RenumberError::InUse(_) => "the memory is in use",
            RenumberError::OutOfMemory(_) => "out of memory",
        })
    }
}

impl StdError for RenumberError {}
