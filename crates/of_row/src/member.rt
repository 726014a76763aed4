//! Passes and members, with which threads step on a row, and the errors by which a row refuses
//! them.

ghost use Rattle.std.specs.Prelude.{◌≡◌, []};
ghost use Rattle.of_row.specs.Views.{IsSole};

use crate::view::View;
use atomic_table::Seat;
use of_core::NotYet;
use std::alloc::AllocError;

/// A seat on a row for a thread that makes no calls. Contracts see what the pass knows. Each
/// eviction that the pass has begun is finished.
#[derive(Drop)]
pub struct Pass {
    pub(crate) seat: Seat<(), View>,
    ghost none: { seat.me.0.loaded ≡ [] },
}

/// A seat on a row for the thread of one caller. Contracts see what the member knows, such as its
/// number, its machine and its own calls.
#[derive(Drop)]
pub struct Member {
    pub(crate) seat: Seat<(), View>,
    pub(crate) number: u32,
    pub(crate) made: u32,
    ghost keeps: { IsSole seat.me.0.kept number made },
}

impl Member {
    ghost use Rattle.of_row.specs.Rows.{number_of_member, calls_of_member};

    /// The number of the member's caller.
    pub fn number(&self) -> u32
        ensures { result ≡ number_of_member self.now }
    {
        self.number
    }

    /// How many calls of the member's caller have made a step, with those before the row's start.
    pub fn made(&self) -> u32
        ensures { result ≡ calls_of_member self.now }
    {
        self.made
    }
}

/// The error of `Row::enrol`: the number is taken. `members` is the members word that was found,
/// with the number's bit set.
#[derive(Drop)]
pub struct Taken {
    pub members: u64,
}

/// The error of `Row::step`: the brake denied the step.
#[derive(Drop)]
pub struct Stopped;

/// The error of `Row::revive`: why the member has no new machine.
#[derive(Drop)]
pub enum NotRevived {
    /// The table's words don't allow it yet. If the caller's log or request is of a transaction
    /// that isn't committed, the next commit of any caller ends this.
    NotYet(NotYet),
    /// The sequence has come to the row's limit. No call can take effect any more.
    AtLimit,
    /// There was no memory for the machine.
    OutOfMemory(AllocError),
}

/// The error of `Row::last_reply`: a transaction was open, or was committed, while the cells were
/// loaded. The next caller that begins a round closes an open transaction.
#[derive(Clone, Copy, Debug, Drop)]
pub struct NotStill;
