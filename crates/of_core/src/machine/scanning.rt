//! How a machine goes on at the steps of a scan: of each caller in turn the announced call is run,
//! if its ticket is new.

ghost use Rattle.std.specs.Prelude.{◌≡◌, ◌<◌, ◌≤◌, ◌+◌, ◌++◌, [], ◌∷◌, length, map, true, IsTrue};
ghost use Rattle.std.specs.Prelude.{vec_len, vec_capacity};
ghost use Rattle.of_cell.specs.Words.{seq_of, payload_of};
ghost use Rattle.of_mem.specs.declared.work.TheConstants.{MOST_INSTRS};
ghost use Rattle.of_mem.specs.Meaning.{Gives};
ghost use Rattle.of_mem.specs.Part.{overlaid};
ghost use Rattle.of_core.specs.Machine.{with_cell_known};
ghost use Rattle.of_core.specs.Inside.{call_value};
ghost use Rattle.of_core.specs.Steps.{own_reply_or, place_behind, run_script, weigh};
ghost use Rattle.of_core.specs.Fit.{IsScanning, LeavesTicket, is_scanning};
ghost use Rattle.of_core.specs.MachineValue.{machine_setup, machine_after, step_from, KnowsState};
ghost use Rattle.of_core.specs.declared.place.Place.TheVariants.{LoadScript, LoadCell};

use crate::call::Call;
use crate::machine::logs::{hand_to_log, padded_words, put_own, put_writes};
use crate::machine::{Machine, OWN_CELLS};
use crate::place::Place;
use of_cell::{payload_of, seq_of};
use of_mem::{MOST_INSTRS, RawReply, Work, WriteSet};

/// Where a scan goes on after it has passed a caller: at the next caller's announcement if there
/// are `more` callers, and otherwise at `RaiseOld`, the step before the log is stored.
fn place_behind(more: bool) -> Place
    ensures { result ≡ place_behind more }
{
    if more {
        Place::LoadAnnouncement
    } else {
        Place::RaiseOld
    }
}

/// The reply of the machine's own call: `new` if the call that was run is its own, and otherwise
/// `old`.
fn newer_raw(own: bool, new: &RawReply, old: &RawReply) -> RawReply
    ensures { result ≡ own_reply_or new.now old.now own }
{
    if own { *new } else { *old }
}

/// Adds a call that was run to the calls of the batch.
// out of line, so that a run that needs a cell doesn't clear the frame of one that ends
#[inline(never)]
fn add_call(calls: &mut Vec<Call>, caller: u32, ticket: u32, op: &[u64], raw: &RawReply)
    requires few { length op.now ≤ MOST_INSTRS }
    requires room { vec_len calls.old < vec_capacity calls.old }
    ensures calls { map call_value calls.new.items ≡ map call_value calls.old.items
        ++ record { caller = caller; ticket = ticket; op = op.now; raw = raw.now } ∷ [] }
    ensures room { vec_capacity calls.old ≤ vec_capacity calls.new }
{
    let call = Call {
        caller,
        ticket,
        words: op.len(),
        op: padded_words(op),
        raw: *raw,
    };
    match calls.push(call) {
        Ok(()) => {}
        // there is room for a call of each caller
        Err(_) => unreachable!(),
    }
}

impl<W: Work> Machine<W> {
    /// Goes on after the load of an announcement: its ticket is compared with the caller's ticket
    /// cell, which is loaded if it isn't known.
    pub(super) fn after_load_announcement(&mut self, found: u64)
        requires at { self.old.call.place ≡ Place.LoadAnnouncement }
        requires small { payload_of found ≤ MOST_INSTRS }
        requires some { 0 < seq_of found → 1 ≤ payload_of found }
        requires unnamed { LeavesTicket (machine_setup W.meaning self.old) self.old.call }
        ensures { self.new ≡ step_from W.meaning Place.LoadAnnouncement found self.old }
    {
        self.heard = found;
        match self.part.part().read(self.scan * OWN_CELLS) {
            Ok(ticket) => self.weigh(ticket < seq_of(found)),
            Err(_) => {
                self.place = Place::LoadTicket;
            }
        }
    }

    /// Goes on after the load of the ticket cell of the caller that the scan has come to.
    pub(super) fn after_load_ticket(&mut self, found: u64)
        requires at { self.old.call.place ≡ Place.LoadTicket }
        requires small { payload_of self.old.call.heard ≤ MOST_INSTRS }
        requires some { 0 < seq_of self.old.call.heard → 1 ≤ payload_of self.old.call.heard }
        ensures { self.new ≡ step_from W.meaning Place.LoadTicket found self.old }
    {
        if self.seq < seq_of(found) {
            self.place = Place::LoadCurrent;
        } else {
            self.part.learn(self.scan * OWN_CELLS, payload_of(found));
            self.weigh(payload_of(found) < seq_of(self.heard));
        }
    }

    /// Goes on to load the script of the announced call if its ticket is `new`; otherwise passes
    /// the call by, and the scan goes on with the next caller.
    fn weigh(&mut self, new: bool)
        requires scanning { is_scanning self.old.call.place ≡ true }
        requires scan { IsScanning (machine_setup W.meaning self.old) self.old.call }
        requires small { payload_of self.old.call.heard ≤ MOST_INSTRS }
        requires some { IsTrue new → 0 < payload_of self.old.call.heard }
        ensures { self.new ≡ machine_after W.meaning (λ S m. weigh S m new) self.old }
    {
        if new {
            self.script.clear();
            self.place = Place::LoadScript(0);
        } else {
            self.scan += 1;
            self.place = place_behind(self.scan < self.shape.callers);
        }
    }

    /// Goes on after the load of a script word.
    pub(super) fn after_load_script(&mut self, at: u32, found: u64)
        requires at { self.old.call.place ≡ LoadScript at }
        requires many { length self.old.call.script ≡ at }
        requires agrees { let m = self.old.call in
            KnowsState W.lawful self.old (overlaid m.known m.log) }
        ensures { self.new ≡ step_from W.meaning (LoadScript at) found self.old }
    {
        // there is room for the words of every script
        self.script.push_reserved(found);
        if at + 1 < payload_of(self.heard) {
            self.place = Place::LoadScript(at + 1);
        } else {
            self.run();
        }
    }

    /// Goes on after the load of a data cell in a scan. A cell that is newer than the round's state
    /// ends the round.
    pub(super) fn after_load_cell(&mut self, addr: u32, found: u64)
        requires at { self.old.call.place ≡ LoadCell addr }
        requires some { 1 ≤ length self.old.call.script }
        requires agrees { let S = machine_setup W.meaning self.old in let m = self.old.call in
            seq_of found ≤ m.seq
            → KnowsState W.lawful self.old (overlaid (with_cell_known S m addr found) m.log) }
        ensures { self.new ≡ step_from W.meaning (LoadCell addr) found self.old }
    {
        if self.seq < seq_of(found) {
            self.place = Place::LoadCurrent;
        } else {
            self.part.learn(addr, payload_of(found));
            self.run();
        }
    }

    /// Runs the loaded script on the known cells with the writes of the batch so far. If the run
    /// needs another cell, the machine goes on to load that cell; otherwise the call joins the
    /// batch.
    pub(super) fn run(&mut self)
        requires scanning { is_scanning self.old.call.place ≡ true }
        requires scan { IsScanning (machine_setup W.meaning self.old) self.old.call }
        requires some { 1 ≤ length self.old.call.script }
        requires agrees { let m = self.old.call in
            KnowsState W.lawful self.old (overlaid m.known m.log) }
        ensures { self.new ≡ machine_after W.meaning run_script self.old }
    {
        let work = self.work;
        match work.run(&mut self.part, self.script.as_slice(), &mut self.spare) {
            Ok(()) => {
                let ticket = seq_of(self.heard);
                let words = self.script.len();
                put_own(
                    &mut self.part,
                    self.scan * OWN_CELLS,
                    ticket,
                    words as u32,
                    &self.spare,
                );
                hand_to_log(&mut self.part, &mut self.log);
                let op = self.script.as_slice();
                add_call(&mut self.calls, self.scan, ticket, op, &self.spare);
                self.raw = newer_raw(self.scan == self.caller, &self.spare, &self.raw);
                self.scan += 1;
                self.place = place_behind(self.scan < self.shape.callers);
            }
            Err(need) => {
                self.place = Place::LoadCell(need.addr);
            }
        }
    }

    /// Adds the scanned call to the batch, with the writes and the reply of its run. The scan goes
    /// on with the next caller.
    pub(super) fn add_run(&mut self, writes: &WriteSet, raw: &RawReply)
        requires scanning { is_scanning self.old.call.place ≡ true }
        requires scan { IsScanning (machine_setup W.meaning self.old) self.old.call }
        requires some { 1 ≤ length self.old.call.script }
        requires agrees { let m = self.old.call in
            KnowsState W.lawful self.old (overlaid m.known m.log) }
        requires room { writes.now.room ≡ self.old.cells }
        requires gives { let m = self.old.call in
            (W.meaning self.old.work).walk (overlaid m.known m.log) m.script
            ≡ Gives writes.now.entries raw.now }
        ensures { self.new ≡ machine_after W.meaning run_script self.old }
    {
        put_writes(&mut self.part, writes);
        let ticket = seq_of(self.heard);
        let words = self.script.len();
        put_own(
            &mut self.part,
            self.scan * OWN_CELLS,
            ticket,
            words as u32,
            raw,
        );
        hand_to_log(&mut self.part, &mut self.log);
        let op = self.script.as_slice();
        add_call(&mut self.calls, self.scan, ticket, op, raw);
        self.raw = newer_raw(self.scan == self.caller, raw, &self.raw);
        self.scan += 1;
        self.place = place_behind(self.scan < self.shape.callers);
    }
}
