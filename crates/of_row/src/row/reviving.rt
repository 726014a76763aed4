//! A new machine for a member whose machine is lost.

ghost use Rattle.std.specs.Prelude.{◌≡◌, ◌<◌, Some, IfOk, IfErr};
ghost use Rattle.of_mem.specs.declared.work.TheConstants.{MOST_INSTRS};
ghost use Rattle.of_cell.specs.Cells.{members_place};
ghost use Rattle.of_core.specs.Remains.{remains_of, MayRevive};
ghost use Rattle.of_core.specs.Table.{script_words_of, ticket_word_at};
ghost use Rattle.of_row.specs.Views.{IsSole};

use super::{OWN_CELLS, Row};
use crate::member::{Member, NotRevived};
use crate::protocol::protocol;
use crate::rule_steps::{KeyArgs, LearnWordPlay, RevivePlay};
use crate::view::View;
use atomic_table::Seat;
use of_cell::seq_of;
use of_core::{Machine, Remains};
use of_mem::{MOST_INSTRS, Work};
use std::alloc::Global;
use std::marker::Brand;

impl<W: Work> Row<W> {
    ghost use Rattle.of_row.specs.Rows.{key_of, setup_at, row_start, IsSeatOf, IsRowMember};
    ghost use Rattle.of_row.specs.Rows.{RunsOnRow, IsMemberOf, IsKeptMachine, IsSameMember};
    ghost use Rattle.of_row.specs.Rows.{calls_of_member};
    ghost use Rattle.of_row.specs.Passes.{words_of_past};
    ghost use Rattle.of_row.specs.Replacing.{AreRemains, MayNotRevive, WasSoBetween, LearnsWordAt};
    ghost use Rattle.of_row.specs.Replacing.{TriesRevivalAt, HasLearntAt, HasOwnPastAt};
    ghost use Rattle.of_row.specs.Replacing.{RevivesMember, RefusesMember};

    /// Makes a new machine for a member whose machine is lost with its thread or process. If the
    /// call that the member's caller has announced has not run, the machine goes on with it;
    /// otherwise the machine is idle, and an open call of the lost machine is lost. A lost call is
    /// in the history if it had run, and otherwise never. `made` is how many calls of the caller
    /// have made a step: the table's words don't tell it. The member makes no step: it only loads
    /// words. Others go on meanwhile. With an error there is no machine, and the member may try
    /// again.
    pub fn revive(
        &self,
        alloc: Global,
        member: &mut Member,
        made: u32,
    ) -> Result<Machine<W>, NotRevived>
        requires row { IsRowMember self.now member.old }
        requires made { made ≡ calls_of_member member.old }
        ensures row { IsRowMember self.now member.new }
        ensures same { IsSameMember member.old member.new }
        ensures machine { IfOk result (RunsOnRow self.now) }
        ensures member { IfOk result (IsMemberOf W.meaning member.new) }
        ensures kept { IfOk result (IsKeptMachine member.new) }
        ensures revived { IfOk result (λ m.
            RevivesMember W.meaning W.lawful self.now member.old member.new) }
        ensures refused { IfErr result
            (RefusesMember W.meaning W.lawful self.now member.old member.new) }
    {
        let limit = self.limit();
        let work = self.work();
        let shape = self.shape();
        protocol(limit, work);
        let number = member.number;
        member.made = made;
        let found = self.find_remains(&mut member.seat, number, made);
        if let Some(reason) = found.hindrance(number) {
            return Err(NotRevived::NotYet(reason));
        }
        let ticket = self.replace::<Brand>(&mut member.seat, number, made);
        let current = self.look_up::<Brand>(&mut member.seat, 0);
        if seq_of(current) >= limit {
            return Err(NotRevived::AtLimit);
        }
        let remains = Remains { ticket, ..found };
        match Machine::revive(alloc, shape, limit, number, made, &remains, work) {
            Ok(machine) => Ok(machine),
            Err(error) => Err(NotRevived::OutOfMemory(error)),
        }
    }

    // Loads a word, by which the seat learns of all events.
    pub(super) fn look_up<O: KeyArgs<W>>(&self, seat: &mut Seat<(), View>, word: u32) -> u64
        requires told { O.key ≡ Some (key_of self.now) }
        requires row { IsSeatOf self.now seat.old }
        requires word { word
            < members_place (key_of self.now).callers MOST_INSTRS (key_of self.now).cells }
        ensures row { IsSeatOf self.now seat.new }
        ensures learns { LearnsWordAt W.meaning W.lawful self.now word seat.old.me.0 result
            seat.new.me.0 }
    {
        self.table
            .shared
            .load::<LearnWordPlay<W, O>>(seat, word as usize)
    }

    // Loads a caller's script words, after the seat has learnt of all events.
    fn load_script(&self, seat: &mut Seat<(), View>, number: u32, made: u32) -> [u64; MOST_INSTRS]
        requires row { IsSeatOf self.now seat.old }
        requires sole { IsSole seat.old.me.0.kept number made }
        requires known { HasOwnPastAt W.meaning W.lawful self.now seat.old.me.0 }
        ensures row { IsSeatOf self.now seat.new }
        ensures learnt { HasLearntAt W.meaning W.lawful self.now seat.old.me.0 seat.new.me.0 }
        ensures script { result ≡ script_words_of (setup_at W.meaning self.now)
            (words_of_past W.meaning self.now seat.new.me.0) number MOST_INSTRS }
    {
        let limit = self.limit();
        let work = self.work();
        protocol(limit, work);
        let shape = self.shape();
        let mut script = [0; MOST_INSTRS];
        for place in 0..MOST_INSTRS {
            let word = shape.script_word(number, place as u32);
            script[place] = self.look_up::<Brand>(seat, word);
        }
        script
    }

    // Loads all words from which a new machine is made, but for the ticket cell's. If they allow
    // it, a new machine may take the caller's place at the last of these loads. If they don't, it
    // could not at an earlier one.
    fn find_remains(&self, seat: &mut Seat<(), View>, number: u32, made: u32) -> Remains
        requires row { IsSeatOf self.now seat.old }
        requires sole { IsSole seat.old.me.0.kept number made }
        ensures row { IsSeatOf self.now seat.new }
        ensures learnt { HasLearntAt W.meaning W.lawful self.now seat.old.me.0 seat.new.me.0 }
        ensures found { AreRemains (setup_at W.meaning self.now)
            (words_of_past W.meaning self.now seat.new.me.0) number result }
        ensures hindered { (MayRevive result number → ⊥)
            → WasSoBetween (setup_at W.meaning self.now) (row_start W.meaning self.now)
            seat.old.me.0 seat.new.me.0 (MayNotRevive (setup_at W.meaning self.now) number) }
    {
        let limit = self.limit();
        let work = self.work();
        protocol(limit, work);
        let shape = self.shape();
        let announcement = self.look_up::<Brand>(seat, shape.announce_word(number));
        let script = self.load_script(seat, number, made);
        let durable = self.look_up::<Brand>(seat, shape.durable_word(shape.request(number)));
        let log = self.look_up::<Brand>(seat, shape.log_count(number));
        let current = self.look_up::<Brand>(seat, shape.cur());
        let request = self.look_up::<Brand>(seat, shape.request(number));
        Remains {
            current,
            request,
            durable,
            log,
            announcement,
            ticket: 0,
            script,
        }
    }

    // Loads a caller's ticket cell. Below the limit a new machine takes the place of the caller's
    // lost one at this load.
    fn replace<O: KeyArgs<W>>(&self, seat: &mut Seat<(), View>, number: u32, made: u32) -> u64
        requires told { O.key ≡ Some (key_of self.now) }
        requires row { IsSeatOf self.now seat.old }
        requires sole { IsSole seat.old.me.0.kept number made }
        requires known { HasOwnPastAt W.meaning W.lawful self.now seat.old.me.0 }
        requires may { MayRevive (remains_of (setup_at W.meaning self.now)
            (words_of_past W.meaning self.now seat.old.me.0) number) number }
        ensures row { IsSeatOf self.now seat.new }
        ensures tries { TriesRevivalAt W.meaning W.lawful self.now
            (ticket_word_at (setup_at W.meaning self.now) number) seat.old.me.0 result
            seat.new.me.0 }
    {
        let limit = self.limit();
        let work = self.work();
        protocol(limit, work);
        let cell = self.shape().data_cell(number * OWN_CELLS) as usize;
        self.table.shared.load::<RevivePlay<W, O>>(seat, cell)
    }
}
