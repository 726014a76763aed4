//! What a table's words say about a caller whose machine is lost.

ghost use Rattle.std.specs.Prelude.{◌≡◌, ◌≢◌, ◌<◌, None, Some};
ghost use Rattle.of_cell.specs.Words.{seq_of};
ghost use Rattle.of_core.specs.Remains.{IsOwnOpen, MayRevive};
ghost use Rattle.of_core.specs.declared.remains.NotYet.TheVariants.{LogAhead, RequestAhead, TransactionOpen, RequestNotDurable};

use of_cell::{pack, payload_of, seq_of};
use of_mem::MOST_INSTRS;

/// The words of a table from which a new machine for one caller is made.
#[derive(Clone, Copy)]
pub struct Remains {
    /// The current-transaction word.
    pub current: u64,
    /// The caller's request.
    pub request: u64,
    /// The durable word of the caller's request.
    pub durable: u64,
    /// The first word of the caller's log, which is stored before the log's other words.
    pub log: u64,
    /// The caller's announcement.
    pub announcement: u64,
    /// The word of the caller's ticket cell.
    pub ticket: u64,
    /// The caller's script words.
    pub script: [u64; MOST_INSTRS],
}

/// Why no new machine may take a caller's place yet.
#[derive(Clone, Copy)]
pub enum NotYet {
    /// The caller's log is of a transaction that isn't committed, and may be half written. This
    /// ends with the next commit, by any caller.
    LogAhead,
    /// The caller's request is for a transaction that isn't committed. This ends with the next
    /// commit, by any caller, also if the machine that seemed lost makes it.
    RequestAhead,
    /// The caller's transaction is open. The next caller that begins a round applies and closes it.
    TransactionOpen,
    /// The durable word of the caller's request is older than the request. An eviction of the
    /// request ends this.
    RequestNotDurable,
}

impl Remains {
    /// The reason why no new machine may take the place of the caller's machine yet; None if a new
    /// machine may. Once a new machine may take the place, this stays so until the caller makes a
    /// step.
    pub fn hindrance(&self, caller: u32) -> Option<NotYet>
        ensures may { result ≡ None → MayRevive self.now caller }
        ensures must { MayRevive self.now caller → result ≡ None }
        ensures log { result ≡ Some LogAhead → seq_of self.now.current < seq_of self.now.log }
        ensures request { result ≡ Some RequestAhead
            → seq_of self.now.current < seq_of self.now.request }
        ensures transaction { result ≡ Some TransactionOpen → IsOwnOpen self.now caller }
        ensures durable { result ≡ Some RequestNotDurable → self.now.durable ≢ self.now.request }
    {
        let seq = seq_of(self.current);
        if seq < seq_of(self.log) {
            return Some(NotYet::LogAhead);
        }
        if seq < seq_of(self.request) {
            return Some(NotYet::RequestAhead);
        }
        if payload_of(self.current) == caller && seq > 0 && self.request == pack(seq, 0) {
            return Some(NotYet::TransactionOpen);
        }
        if self.durable != self.request {
            return Some(NotYet::RequestNotDurable);
        }
        None
    }
}
