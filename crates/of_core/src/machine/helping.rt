//! How a machine goes on at the steps by which it looks at another's transaction and copies its
//! log.

ghost use Rattle.std.specs.Prelude.{◌≡◌, ◌<◌, ◌≤◌, ◌+◌, ◌*◌, ◌==◌, length, true};
ghost use Rattle.std.proofs.Common.{get_or};
ghost use Rattle.of_cell.specs.Words.{pack, seq_of, payload_of};
ghost use Rattle.of_cell.specs.Cells.{log_room};
ghost use Rattle.of_core.specs.WordsMatch.{AreLogWords};
ghost use Rattle.of_core.specs.Steps.{after_load_request, with_log_word_copied, enter, resume};
ghost use Rattle.of_core.specs.MachineValue.{machine_setup, machine_after, step_from};
ghost use Rattle.of_core.specs.declared.place.Place.TheVariants.{CopyLog};

use crate::machine::Machine;
use crate::machine::logs::put_copy;
use crate::place::Place;
use of_cell::{pack, payload_of, seq_of};
use of_mem::Work;

impl<W: Work> Machine<W> {
    /// Goes on after the load of the current-transaction word, which begins a round.
    pub(super) fn after_load_current(&mut self, found: u64)
        requires owner { payload_of found < self.old.callers }
        requires upto { seq_of found ≤ self.old.limit }
        requires rounds { self.old.call.rounds ≤ 2 }
        ensures { self.new ≡ step_from W.meaning Place.LoadCurrent found self.old }
    {
        self.seq = seq_of(found);
        self.owner = payload_of(found);
        self.first = if self.rounds == 0 {
            self.seq
        } else {
            self.first
        };
        self.rounds += 1;
        self.place = Place::LoadRequest;
    }

    /// Goes on after a round's load of the request of the owner that the current-transaction word
    /// named.
    pub(super) fn after_load_request(&mut self, found: u64)
        ensures { self.new ≡ step_from W.meaning Place.LoadRequest found self.old }
    {
        if self.seq > 0 && found == pack(self.seq, 0) {
            self.help();
        } else {
            self.enter();
        }
    }

    /// Begins to copy the log of the open transaction.
    pub(super) fn help(&mut self)
        ensures { self.new ≡ machine_after W.meaning (λ S m. after_load_request S m true) self.old }
    {
        self.copy.clear();
        self.helps = true;
        self.place = Place::CopyLog(0);
    }

    /// Goes on after the load of a log word.
    pub(super) fn after_copy_log(&mut self, at: u32, found: u64)
        requires at { self.old.call.place ≡ CopyLog at }
        requires count { get_or (with_log_word_copied self.old.call found) 0 0
            ≤ log_room self.old.callers self.old.cells }
        ensures { self.new ≡ step_from W.meaning (CopyLog at) found self.old }
    {
        match self.copy.push(payload_of(found)) {
            Ok(()) => {}
            // there is room for the words of the longest log
            Err(_) => unreachable!(),
        }
        self.place = if at + 1 < 2 * self.copy[0] + 1 {
            Place::CopyLog(at + 1)
        } else {
            Place::LookAgain
        };
    }

    /// Goes on after the second load of the owner's request: if the transaction is still open, the
    /// copy is its log, which is applied.
    pub(super) fn after_look_again(&mut self, found: u64)
        requires some { 1 ≤ length self.old.call.op }
        requires copied { found ≡ pack self.old.call.seq 0
            → AreLogWords (machine_setup W.meaning self.old) self.old.call.copy }
        ensures { self.new ≡ step_from W.meaning Place.LookAgain found self.old }
    {
        if found == pack(self.seq, 0) {
            self.log.clear();
            put_copy(&mut self.log, self.copy.as_slice(), self.caller);
            self.place = Place::RaiseCurrent;
        } else {
            self.resume();
        }
    }

    /// Goes on with the try or the round in which the machine has helped.
    pub(super) fn resume(&mut self)
        requires some { 1 ≤ length self.old.call.op }
        ensures { self.new ≡ machine_after W.meaning (λ S m. resume S m (m.rounds == 0)) self.old }
    {
        if self.rounds == 0 {
            self.begin_reading();
        } else {
            self.enter();
        }
    }

    /// Begins to read the state of a round, after the load of the owner's request or after the
    /// help.
    pub(super) fn enter(&mut self)
        ensures { self.new ≡ machine_after W.meaning enter self.old }
    {
        self.part.clear();
        self.log.clear();
        self.calls.clear();
        self.helps = false;
        self.scan = 0;
        self.place = Place::LoadOwnTicket;
    }
}
