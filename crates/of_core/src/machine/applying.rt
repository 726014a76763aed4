//! How a machine goes on at the steps that apply a transaction, its own or one that it helps with.

ghost use Rattle.std.specs.Prelude.{◌≡◌, ◌≤◌, ◌<◌, ◌+◌, length, IsTrue};
ghost use Rattle.of_core.specs.MachineValue.{step_from};
ghost use Rattle.of_core.specs.declared.place.Place.TheVariants.{LoadTarget, ExchangeTarget, ReloadTarget, RaiseTarget};

use crate::machine::Machine;
use crate::place::{Outcome, Place};
use of_cell::{pack, seq_of};
use of_mem::Work;

impl<W: Work> Machine<W> {
    /// Goes on after the raise of the durable word of the current-transaction word.
    pub(super) fn after_raise_current(&mut self)
        requires at { self.old.call.place ≡ Place.RaiseCurrent }
        ensures { self.new ≡ step_from W.meaning Place.RaiseCurrent 0 self.old }
    {
        self.place = if self.log.is_empty() {
            Place::CloseRequest
        } else {
            Place::LoadTarget(0)
        };
    }

    /// Goes on after the load of an entry's cell.
    pub(super) fn after_load_target(&mut self, entry: u32, found: u64)
        requires at { self.old.call.place ≡ LoadTarget entry }
        ensures { self.new ≡ step_from W.meaning (LoadTarget entry) found self.old }
    {
        self.place = if seq_of(found) < self.seq {
            Place::ExchangeTarget(entry, found)
        } else {
            // another has brought the entry there
            Place::RaiseTarget(entry, found)
        };
    }

    /// Goes on after the exchange of an entry's cell.
    pub(super) fn after_exchange_target(&mut self, entry: u32, old: u64)
        requires at { self.old.call.place ≡ ExchangeTarget entry old }
        ensures { self.new ≡ step_from W.meaning (ExchangeTarget entry old) 0 self.old }
    {
        self.place = Place::ReloadTarget(entry);
    }

    /// Goes on after the second load of an entry's cell.
    pub(super) fn after_reload_target(&mut self, entry: u32, found: u64)
        requires at { self.old.call.place ≡ ReloadTarget entry }
        ensures { self.new ≡ step_from W.meaning (ReloadTarget entry) found self.old }
    {
        self.place = Place::RaiseTarget(entry, found);
    }

    /// Goes on after the raise of the durable word of an entry's cell.
    pub(super) fn after_raise_target(&mut self, entry: u32, raised: u64)
        requires at { self.old.call.place ≡ RaiseTarget entry raised }
        ensures { self.new ≡ step_from W.meaning (RaiseTarget entry raised) 0 self.old }
    {
        let entries = self.log.len();
        self.place = if entry + 1 < entries {
            Place::LoadTarget(entry + 1)
        } else {
            Place::CloseRequest
        };
    }

    /// Goes on after the exchange that closes the request.
    pub(super) fn after_close_request(&mut self)
        requires at { self.old.call.place ≡ Place.CloseRequest }
        ensures { self.new ≡ step_from W.meaning Place.CloseRequest 0 self.old }
    {
        self.place = Place::RaiseClosed;
    }

    /// Goes on after the raise of the durable word of the closed request: a helper goes on with its
    /// try or round, and an owner's call is answered.
    pub(super) fn after_raise_closed(&mut self)
        requires some { IsTrue self.old.call.helps → 1 ≤ length self.old.call.op }
        ensures { self.new ≡ step_from W.meaning Place.RaiseClosed 0 self.old }
    {
        if self.helps {
            self.resume();
        } else {
            self.place = Place::Idle;
            self.answer = Some(Outcome::Answered {
                seq: self.seq,
                announced: true,
                raw: self.raw,
                steps: self.steps,
            });
            self.kept = pack(self.seq, 1);
            self.steps = 0;
        }
    }
}
