//! What a closed memory leaves.

use crate::error::LimitError;
use of_cells::SavedCells;
use of_eval::{LawErr, Scripts, lawful, reply_of};
use of_script::Reply;
use of_store::Store;
use std::alloc::{AllocError, Global};

/// What a closed memory leaves: its durable words, recovered.
#[derive(Drop)]
pub struct Saved {
    pub(crate) cells: SavedCells<Scripts>,
}

impl Saved {
    ghost use Rattle.std.specs.Prelude.{◌≡◌, ◌<◌, ◌↔◌, IfOk, IfErr, IfSome, IsNone, OnErr};
    ghost use Rattle.of_store.specs.Store.{Reply as ReplyValue};
    ghost use Rattle.of_store.specs.Replies.{reply_value_of};
    ghost use Rattle.of_memory.specs.Saving.{IsSaved, SavedHolds, HoldsReply, saved_callers};
    ghost use Rattle.of_memory.specs.Saving.{saved_limit, saved_seq, saved_ticket, saved_scripts};
    ghost use Rattle.of_memory.specs.Texts.{SavesSame, IsNoLimitOf};
    ghost use Rattle.of_memory.specs.Sequences.{left_of_saved};

    /// How many callers the saved memory has.
    pub fn callers(&self) -> u32
        ensures { result ≡ saved_callers self.now }
    {
        self.cells.callers()
    }

    /// The limit of a memory that goes on from what is saved: the last sequence that it may commit.
    pub fn limit(&self) -> u32
        ensures { result ≡ saved_limit self.now }
    {
        self.cells.limit()
    }

    /// The last sequence that was committed.
    pub fn seq(&self) -> u32
        requires { IsSaved self.now }
        ensures { result ≡ saved_seq self.now }
    {
        self.cells.seq()
    }

    /// How many sequences are left for a memory that goes on from what is saved.
    pub fn sequences_left(&self) -> u32
        requires { IsSaved self.now }
        ensures { result ≡ left_of_saved self.now }
    {
        self.cells.sequences_left()
    }

    // The scripts whose store it holds.
    pub(crate) fn scripts(&self) -> Scripts
        ensures { result ≡ saved_scripts self.now }
    {
        self.cells.work()
    }

    /// The store that is saved. The error is that memory ran out.
    pub fn store(&self, alloc: Global) -> Result<Store, AllocError>
        requires { IsSaved self.now }
        ensures { IfOk result (SavedHolds self.now) }
    {
        let numbers = self.cells.numbers(alloc)?;
        match lawful(alloc, &self.scripts().plot(), &numbers) {
            Ok(store) => Ok(store),
            Err(LawErr::Memory) => Err(AllocError),
            Err(LawErr::Unlawful { cell: _ }) => unreachable!(),
        }
    }

    /// How many calls of a caller are saved: the ticket of the caller's last saved call, also if
    /// another caller finished this call.
    pub fn ticket(&self, number: u32) -> u32
        requires saved { IsSaved self.now }
        requires number { number < saved_callers self.now }
        ensures { result ≡ saved_ticket self.now number }
    {
        self.cells.ticket(number)
    }

    /// The ticket of a caller's last saved call, and the call's reply. None if no call of the
    /// caller is saved. A saved call may be one whose caller was stopped before it got the reply.
    pub fn last_reply(&self, number: u32) -> Option<(u32, Reply)>
        requires saved { IsSaved self.now }
        requires number { number < saved_callers self.now }
        ensures none { IsNone result ↔ (saved_ticket self.now number ≡ 0) }
        ensures ticket { IfSome result (λ r. r.0 ≡ saved_ticket self.now number) }
        ensures reply { IfSome result (λ r. HoldsReply self.now number (reply_value_of r.1)) }
        // No other reply to that call is saved.
        ensures only { (r : ReplyValue) → HoldsReply self.now number r
            → IfSome result (λ given. reply_value_of given.1 ≡ r) }
    {
        let (ticket, raw) = self.cells.last_reply(number)?;
        let Some(reply) = reply_of(&raw) else {
            unreachable!()
        };
        Some((ticket, reply))
    }

    /// The saved memory with another limit. The limit must be 1 to `GREATEST_LIMIT`, and not below
    /// the last committed sequence. If it isn't, the error hands back the saved memory, unchanged.
    pub fn with_limit(self, limit: u32) -> Result<Saved, LimitError>
        requires { IsSaved self }
        ensures saved { IfOk result IsSaved }
        ensures same { IfOk result (SavesSame self) }
        ensures seq { IfOk result (λ d. saved_seq d ≡ saved_seq self) }
        ensures limit { IfOk result (λ d. saved_limit d ≡ limit) }
        ensures refused { IfErr result (λ e. e.0 ≡ self) }
        ensures cause { OnErr result (IsNoLimitOf self limit) }
    {
        match self.cells.with_limit(limit) {
            Ok(cells) => Ok(Saved { cells }),
            Err(again) => Err(LimitError(Saved { cells: again.0 })),
        }
    }

    /// Keeps store, tickets and replies, and sets the last committed sequence to 0. A memory that
    /// goes on from the result has all sequences up to its limit left.
    pub fn renumbered(self) -> Saved
        requires { IsSaved self }
        ensures saved { IsSaved result }
        ensures same { SavesSame self result }
        ensures seq { saved_seq result ≡ 0 }
        ensures limit { saved_limit result ≡ saved_limit self }
    {
        Saved {
            cells: self.cells.renumbered(),
        }
    }
}
