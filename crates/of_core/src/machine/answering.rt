//! How a machine goes on at the steps that read its own cells: a call that is in the history is
//! answered from them.

ghost use Rattle.std.specs.Prelude.{◌≡◌, ◌<◌, ◌≤◌, ◌+◌, IfSome, Option, ℕ};
ghost use Rattle.of_mem.specs.declared.work.TheConstants.{MOST_INSTRS};
ghost use Rattle.of_core.specs.Steps.{next_reply_place};
ghost use Rattle.of_core.specs.MachineValue.{machine_setup, step_from};
ghost use Rattle.of_core.specs.declared.place.Place.TheVariants.{LoadReply};

use crate::machine::logs::first_mark;
use crate::machine::{Machine, OWN_CELLS};
use crate::place::{Outcome, Place};
use of_cell::{payload_of, seq_of};
use of_mem::{MOST_INSTRS, RawReply, Work};

impl<W: Work> Machine<W> {
    /// Goes on after the load of the caller's own ticket cell. A cell that is newer than the
    /// round's state ends the round. Otherwise the reply is loaded if the call was run; if it was
    /// not, the call is spent at the limit, and the scan begins below the limit.
    pub(super) fn after_own_ticket(&mut self, found: u64)
        requires at { self.old.call.place ≡ Place.LoadOwnTicket }
        ensures { self.new ≡ step_from W.meaning Place.LoadOwnTicket found self.old }
    {
        if self.seq < seq_of(found) {
            self.place = Place::LoadCurrent;
        } else if payload_of(found) == self.made {
            self.heard = found;
            self.place = Place::LoadShape;
        } else if self.seq == self.limit {
            self.place = Place::Idle;
            self.answer = Some(Outcome::Spent { seq: self.seq });
            self.steps = 0;
        } else {
            self.part.learn(self.caller * OWN_CELLS, payload_of(found));
            self.place = Place::LoadAnnouncement;
        }
    }

    /// Goes on after the load of the shape of the caller's own reply.
    pub(super) fn after_load_shape(&mut self, found: u64)
        requires at { self.old.call.place ≡ Place.LoadShape }
        ensures { self.new ≡ step_from W.meaning Place.LoadShape found self.old }
    {
        if self.seq < seq_of(found) {
            self.place = Place::LoadCurrent;
        } else {
            self.raw = RawReply {
                shape: payload_of(found),
                values: [0; MOST_INSTRS],
            };
            self.ask_or_tell(first_mark(self.raw.shape, 0, MOST_INSTRS as u32));
        }
    }

    /// Goes on after the load of a number of the caller's own reply.
    pub(super) fn after_load_reply(&mut self, at: u32, found: u64)
        requires at { self.old.call.place ≡ LoadReply at }
        ensures { self.new ≡ step_from W.meaning (LoadReply at) found self.old }
    {
        if self.seq < seq_of(found) {
            self.place = Place::LoadCurrent;
        } else {
            self.raw.values[at as usize] = payload_of(found);
            self.ask_or_tell(first_mark(self.raw.shape, at + 1, MOST_INSTRS as u32 - at - 1));
        }
    }

    /// Goes on to load number `next` of the reply; if it is None, the call ends with the reply as
    /// loaded.
    fn ask_or_tell(&mut self, next: Option<u32>)
        requires below { IfSome next (λ j. j < MOST_INSTRS) }
        ensures { self.new ≡ record self.old { call = next_reply_place self.old.call next } }
    {
        match next {
            Some(at) => {
                self.place = Place::LoadReply(at);
            }
            None => {
                self.place = Place::Idle;
                self.answer = Some(Outcome::Answered {
                    seq: seq_of(self.heard),
                    announced: true,
                    raw: self.raw,
                    steps: self.steps,
                });
                self.steps = 0;
            }
        }
    }
}
