//! How a machine goes on at the steps of a try: a read runs on the last committed state, and is
//! answered unannounced.

ghost use Rattle.std.specs.Prelude.{◌≡◌, ◌<◌, ◌≤◌, ◌+◌, length, true, nat_lt};
ghost use Rattle.of_cell.specs.Words.{seq_of, payload_of};
ghost use Rattle.of_core.specs.Machine.{with_cell_known};
ghost use Rattle.of_core.specs.Steps.{end_try, read_on, begin_reading};
ghost use Rattle.of_core.specs.Fit.{is_reading};
ghost use Rattle.of_core.specs.MachineValue.{machine_setup, machine_after, step_from, KnowsState};
ghost use Rattle.of_core.specs.declared.place.Place.TheVariants.{TryCell};

use crate::machine::Machine;
use crate::place::{Outcome, Place};
use of_cell::{pack, payload_of, seq_of};
use of_mem::{MOST_INSTRS, RawReply, Work};

/// How often a read is tried before it is announced.
const MOST_TRIES: u32 = 4;

impl<W: Work> Machine<W> {
    /// Goes on after the load of the current-transaction word, which begins a try.
    pub(super) fn after_try_current(&mut self, found: u64)
        requires owner { payload_of found < self.old.callers }
        requires upto { seq_of found ≤ self.old.limit }
        requires tries { self.old.call.tries < MOST_TRIES }
        ensures { self.new ≡ step_from W.meaning Place.TryCurrent found self.old }
    {
        self.seq = seq_of(found);
        self.owner = payload_of(found);
        self.tries += 1;
        self.place = Place::TryRequest;
    }

    /// Goes on after a try's load of the request of the owner that the current-transaction word
    /// named.
    pub(super) fn after_try_request(&mut self, found: u64)
        requires some { 1 ≤ length self.old.call.op }
        ensures { self.new ≡ step_from W.meaning Place.TryRequest found self.old }
    {
        if self.seq > 0 && found == pack(self.seq, 0) {
            self.help();
        } else {
            self.begin_reading();
        }
    }

    /// Goes on after the load of a data cell in a try. A cell that is newer than the try's state
    /// ends the try.
    pub(super) fn after_try_cell(&mut self, addr: u32, found: u64)
        requires at { self.old.call.place ≡ TryCell addr }
        requires some { 1 ≤ length self.old.call.op }
        requires agrees { let S = machine_setup W.meaning self.old in let m = self.old.call in
            seq_of found ≤ m.seq → KnowsState W.lawful self.old (with_cell_known S m addr found) }
        ensures { self.new ≡ step_from W.meaning (TryCell addr) found self.old }
    {
        if self.seq < seq_of(found) {
            self.end_try();
        } else {
            self.part.learn(addr, payload_of(found));
            self.read_on();
        }
    }

    /// Begins the next try, or begins to announce the call if no more tries are allowed.
    pub(super) fn end_try(&mut self)
        requires some { 1 ≤ length self.old.call.op }
        ensures { self.new ≡ machine_after W.meaning
            (λ S m. end_try m (nat_lt m.tries MOST_TRIES)) self.old }
    {
        self.place = if self.tries < MOST_TRIES {
            Place::TryCurrent
        } else {
            Place::StoreScript(0)
        };
    }

    /// Begins the run of a try, after the load of the owner's request or after the help.
    pub(super) fn begin_reading(&mut self)
        requires some { 1 ≤ length self.old.call.op }
        ensures { self.new ≡ machine_after W.meaning begin_reading self.old }
    {
        self.open_reading();
        self.read_on();
    }

    /// Runs the operation on the known cells of the state. If the run needs another cell, the
    /// machine goes on to load that cell; otherwise the call is answered.
    pub(super) fn read_on(&mut self)
        requires reading { is_reading self.old.call.place ≡ true }
        requires some { 1 ≤ length self.old.call.op }
        requires agrees { KnowsState W.lawful self.old self.old.call.known }
        ensures { self.new ≡ machine_after W.meaning read_on self.old }
    {
        let work = self.work;
        match work.run(&mut self.part, self.op.as_slice(), &mut self.spare) {
            Ok(()) => {
                self.part.undo();
                self.place = Place::Idle;
                self.answer = Some(Outcome::Answered {
                    seq: self.seq,
                    announced: false,
                    raw: self.spare,
                    steps: self.steps,
                });
                self.steps = 0;
            }
            Err(need) => {
                self.place = Place::TryCell(need.addr);
            }
        }
    }
}
