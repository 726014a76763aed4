//! How a machine goes on at the steps of its own transaction: the log, the request, and the
//! exchange that commits.

ghost use Rattle.std.specs.Prelude.{◌≡◌, ◌<◌, ◌≤◌, ◌+◌, length};
ghost use Rattle.of_cell.specs.Cells.{log_room};
ghost use Rattle.of_core.specs.MachineValue.{step_from};
ghost use Rattle.of_core.specs.declared.place.Place.TheVariants.{StoreLog, RaiseLog};

use crate::machine::Machine;
use crate::place::Place;
use of_cell::pack;
use of_mem::Work;

impl<W: Work> Machine<W> {
    /// Goes on after the raise of the durable word of the caller's request to an earlier word of
    /// it.
    pub(super) fn after_raise_old(&mut self)
        requires at { self.old.call.place ≡ Place.RaiseOld }
        requires few { length self.old.call.log ≤ log_room self.old.callers self.old.cells }
        ensures { self.new ≡ step_from W.meaning Place.RaiseOld 0 self.old }
    {
        self.place = Place::StoreLog(0);
    }

    /// Goes on after the store of a log word.
    pub(super) fn after_store_log(&mut self, at: u32)
        requires at { self.old.call.place ≡ StoreLog at }
        ensures { self.new ≡ step_from W.meaning (StoreLog at) 0 self.old }
    {
        self.place = Place::RaiseLog(at);
    }

    #[tactic(auto, using(crate::proofs::LogWords::word_laws))]
    /// Goes on after the raise of the durable word of a log word.
    pub(super) fn after_raise_log(&mut self, at: u32)
        requires at { self.old.call.place ≡ RaiseLog at }
        ensures { self.new ≡ step_from W.meaning (RaiseLog at) 0 self.old }
    {
        let words = 2 * self.log.len() + 1;
        self.place = if at + 1 < words {
            Place::StoreLog(at + 1)
        } else {
            Place::StoreRequest
        };
    }

    /// Goes on after the store of the caller's own request.
    pub(super) fn after_store_request(&mut self)
        requires at { self.old.call.place ≡ Place.StoreRequest }
        ensures { self.new ≡ step_from W.meaning Place.StoreRequest 0 self.old }
    {
        self.place = Place::RaiseRequest;
    }

    /// Goes on after the raise of the durable word of the caller's own request.
    pub(super) fn after_raise_request(&mut self)
        requires at { self.old.call.place ≡ Place.RaiseRequest }
        ensures { self.new ≡ step_from W.meaning Place.RaiseRequest 0 self.old }
    {
        self.kept = pack(self.seq + 1, 0);
        self.place = Place::ExchangeCurrent;
    }

    /// Goes on after the exchange of the current-transaction word: to the apply if the exchange has
    /// committed the batch, and otherwise to the next round.
    pub(super) fn after_exchange(&mut self, found: u64)
        requires at { self.old.call.place ≡ Place.ExchangeCurrent }
        ensures { self.new ≡ step_from W.meaning Place.ExchangeCurrent found self.old }
    {
        if found == pack(self.seq, self.owner) {
            self.helps = false;
            self.seq += 1;
            self.owner = self.caller;
            self.place = Place::RaiseCurrent;
        } else {
            self.place = Place::LoadCurrent;
        }
    }
}
