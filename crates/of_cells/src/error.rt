//! Why something can't be done.

use crate::memory::CellMemory;
use crate::saved::SavedCells;
use of_mem::Work;
use std::alloc::AllocError;
use std::error::Error as StdError;
use std::fmt;
use thiserror::Error;

/// Why no memory is opened.
#[derive(Debug, Drop, Error)]
pub enum OpenError {
    #[error("out of memory")]
    OutOfMemory(#[from(alloc)] AllocError),
    #[error("{limit} is no limit of sequences")]
    Limit { limit: u32 },
}

/// Why no handle is given out.
#[derive(Debug, Drop, Error)]
pub enum EnrolError {
    #[error("out of memory")]
    OutOfMemory(#[from(alloc)] AllocError),
    #[error("there is no caller {number}")]
    NoCaller { number: u32 },
    /// The number has a handle, which has not left.
    #[error("caller {number} has a handle already")]
    Enrolled { number: u32 },
}

/// Why a call has no answer.
#[derive(Clone, Copy, Debug, PartialEq, Eq, Error)]
pub enum RunError {
    /// The call has asked `asked` times for a step, and was denied the last time. The call stays
    /// open for `go_on`.
    #[error("stopped at step {asked}")]
    Stopped { asked: u64 },
    /// The sequence has come to the limit before the call took effect. The call is over.
    #[error("no sequence is left after {seq}")]
    Spent { seq: u32 },
    /// `run` was called while a call is open.
    #[error("a call is open")]
    InCall,
    /// `go_on` was called while no call is open.
    #[error("no call is open")]
    NoCall,
    /// The handle's number has made all calls that it may make.
    #[error("no ticket is left")]
    NoTicket,
}

/// Why no `SavedCells` is found in durable words.
#[derive(Clone, Copy, Debug, PartialEq, Eq, Error)]
pub enum WordsError {
    #[error("out of memory")]
    OutOfMemory,
    #[error("{limit} is no limit of sequences")]
    Limit { limit: u32 },
    /// There are `count` words, but the table of the work has another number of durable words.
    #[error("{count} words are not the durable words of such a table")]
    Count { count: usize },
    /// The last committed sequence that recovery finds in the words is `seq`, and the limit is
    /// below it.
    #[error("the limit is below sequence {seq}")]
    PastLimit { seq: u32 },
}

/// What is saved can't have this limit. The error hands back what was saved, unchanged.
#[derive(Drop)]
pub struct LimitError<W: Work>(pub SavedCells<W>);

impl<W: Work> fmt::Debug for LimitError<W> {
    fn fmt<F: fmt::Write>(&self, f: &mut fmt::Formatter<F>) -> fmt::Result {
        f.write_str("LimitError")
    }
}

impl<W: Work> fmt::Display for LimitError<W> {
    fn fmt<F: fmt::Write>(&self, f: &mut fmt::Formatter<F>) -> fmt::Result {
        f.write_str("the limit is none that this can have")
    }
}

impl<W: Work> StdError for LimitError<W> {}

/// The memory can't be closed, since one of its handles is out. The error hands the memory back.
#[derive(Drop)]
pub struct InUse<W: Work>(pub CellMemory<W>);

impl<W: Work> fmt::Debug for InUse<W> {
    fn fmt<F: fmt::Write>(&self, f: &mut fmt::Formatter<F>) -> fmt::Result {
        f.write_str("InUse")
    }
}

impl<W: Work> fmt::Display for InUse<W> {
    fn fmt<F: fmt::Write>(&self, f: &mut fmt::Formatter<F>) -> fmt::Result {
        f.write_str("the memory is in use")
    }
}

impl<W: Work> StdError for InUse<W> {}
