//! The door: one thread leaves a member in it, and another thread takes the member out.

ghost use Rattle.std.specs.Prelude.{◌≡◌, ◌<◌, [], false, Some, IfOk, IfErr};
ghost use mathlib.Core.List.{IsPrefix};
ghost use Rattle.of_row.specs.Rows.{HasNoCall, HasOwnCalls, HasCallsOnce, HasSeenLegal};
ghost use Rattle.of_row.specs.Rows.{view_of_pass, view_of_member, IsRowPass, IsRowMember};
ghost use Rattle.of_row.specs.Rows.{number_of_member, KeepsNobody};
ghost use Rattle.of_row.specs.Turned.{view_of_nobody};
ghost use Rattle.of_door.specs.Rule.{IsMemberAtDoor, TakesSlot};

use crate::rule_steps::{AdmitArgs, DoorRule, PutPlay, SplitHand, TakePlay};
use crate::trace::{DoorKey, HandLog};
use atomic_table::{Seat, Table};
use of_mem::Work;
use of_row::{Member, Pass, Row};
use std::alloc::{AllocError, Global};
use std::marker::Brand;
use std::snapshot::Snapshot;

/// The words that a door may have: 0 if no member is in it, 1 if a member is, 2 if a hand holds the
/// slot.
const NOBODY: u64 = 0;

const MEMBER: u64 = 1;

const HELD: u64 = 2;

/// A slot in which the member of one number waits for another thread.
#[derive(Drop)]
pub struct Door<W: Work> {
    table: Table<Option<Member>, HandLog, DoorKey<W>, DoorRule<W>, Global>,
    ghost counts: { (table.shared.table_id.words ≡ 1) × (table.shared.table_id.slots ≡ 1) },
}

/// What a thread needs to leave a member in a door or to take it out. Contracts see the words that
/// the hand's exchanges found, and the words that it stored. Between calls the hand doesn't hold
/// the slot.
#[derive(Drop)]
pub struct Hand {
    seat: Seat<Option<Member>, HandLog>,
    ghost free: { (seat.me.1 ≡ []) × (seat.me.0.holds ≡ false) },
}

impl<W: Work> Door<W> {
    ghost use Rattle.of_door.specs.Doors.{row_of_door, number_of_door, IsHandOf};
    ghost use Rattle.of_door.specs.Doors.{found_by, stored_by, WentThrough, WasRefused, TicketsUpTo};

    /// An empty door of `row` for the member of this number, with the door's first hand. The error
    /// is that there is no memory.
    pub fn new(alloc: Global, row: &Row<W>, number: u32) -> Result<(Door<W>, Hand), AllocError>
        ensures row { IfOk result (λ d. row_of_door d.0 ≡ row.now) }
        ensures number { IfOk result (λ d. number_of_door d.0 ≡ number) }
        ensures hand { IfOk result (λ d. IsHandOf d.0 d.1) }
        ensures lists { IfOk result (λ d. (found_by d.1 ≡ []) × (stored_by d.1 ≡ [])) }
    {
        let key = DoorKey {
            number,
            row: Snapshot::of(row),
        };
        let (table, seat) = Table::vacant(alloc, &[NOBODY], 1, &key)?;
        Ok((Door { table }, Hand { seat }))
    }

    /// A second hand on the door, for another thread. It starts with the lists of the first hand.
    pub fn split(&self, hand: &mut Hand) -> Hand
        requires { IsHandOf self.now hand.old }
        ensures hands { IsHandOf self.now hand.new × IsHandOf self.now result }
        ensures found { (found_by hand.new ≡ found_by hand.old)
            × (found_by result ≡ found_by hand.old) }
        ensures stored { (stored_by hand.new ≡ stored_by hand.old)
            × (stored_by result ≡ stored_by hand.old) }
    {
        let seat = self.table.shared.split_seat::<SplitHand>(&mut hand.seat);
        Hand { seat }
    }

    // Exchanges the word, once, and takes the slot if it was `old`. Gives the word found.
    fn take<O: AdmitArgs<W>>(&self, seat: &mut Seat<Option<Member>, HandLog>, old: u64) -> u64
        requires row { O.at_row ≡ Some (row_of_door self.now) }
        requires number { O.number ≡ number_of_door self.now }
        requires hand { seat.old.table_id ≡ self.now.table.shared.table_id }
        requires free { seat.old.me.0.holds ≡ false }
        requires old { old < 2 }
        ensures hand { seat.new.table_id ≡ seat.old.table_id }
        ensures taken { TakesSlot (IsMemberAtDoor (row_of_door self.now) (number_of_door self.now))
            old seat.old.me result seat.new.me }
    {
        self.table
            .shared
            .compare_exchange::<TakePlay<W, O>>(seat, 0, old, HELD)
    }

    /// Leaves a member in the door, if the door is empty, and gives a pass that knows all that the
    /// member had seen. Otherwise the error hands the member back, with the door's word that was
    /// found. The exchange is tried once.
    pub fn leave(
        &self,
        row: &Row<W>,
        hand: &mut Hand,
        member: Member,
    ) -> Result<Pass, (Member, u64)>
        requires row { row_of_door self.now ≡ row.now }
        requires hand { IsHandOf self.now hand.old }
        requires member { IsRowMember row.now member }
        requires number { number_of_member member ≡ number_of_door self.now }
        requires idle { HasNoCall member }
        ensures hand { IsHandOf self.now hand.new }
        ensures pass { IfOk result (IsRowPass row.now) }
        ensures seen { IfOk result (λ p.
            view_of_pass p ≡ view_of_nobody (view_of_member member)) }
        ensures left { IfOk result (λ p. WentThrough 0 1 hand.old hand.new) }
        ensures member { IfErr result (λ e. e.0 ≡ member) }
        ensures refused { IfErr result (λ e. WasRefused 0 e.1 hand.old hand.new) }
    {
        let found = self.take::<Brand>(&mut hand.seat, NOBODY);
        if found != NOBODY {
            return Err((member, found));
        }
        let (member, pass) = row.part(member);
        let shared = &self.table.shared;
        shared.exchange(&mut hand.seat, 0, Some(member));
        shared.store::<PutPlay>(&mut hand.seat, 0, MEMBER);
        Ok(pass)
    }

    /// Takes the member out of the door, if one is in it. The member takes the pass in, so it knows
    /// all that the pass had seen, and goes on after all its own calls. Otherwise the error hands
    /// the pass back, with the door's word that was found. The exchange is tried once.
    pub fn come(&self, row: &Row<W>, hand: &mut Hand, pass: Pass) -> Result<Member, (Pass, u64)>
        requires row { row_of_door self.now ≡ row.now }
        requires hand { IsHandOf self.now hand.old }
        requires pass { IsRowPass row.now pass }
        requires nobody { KeepsNobody pass }
        ensures hand { IsHandOf self.now hand.new }
        ensures row { IfOk result (IsRowMember row.now) }
        ensures number { IfOk result (λ m. number_of_member m ≡ number_of_door self.now) }
        ensures idle { IfOk result HasNoCall }
        ensures seen { IfOk result (λ m.
            IsPrefix (view_of_pass pass).seen (view_of_member m).seen) }
        ensures past { IfOk result (λ m.
            IsPrefix (view_of_pass pass).past (view_of_member m).past) }
        ensures own { IfOk result (λ m. HasOwnCalls W.meaning row.now (view_of_member m)) }
        ensures once { IfOk result (λ m. HasCallsOnce W.meaning row.now (view_of_member m)) }
        ensures legal { IfOk result (λ m. HasSeenLegal W.meaning row.now (view_of_member m)) }
        ensures made { IfOk result (TicketsUpTo W.meaning row.now) }
        ensures came { IfOk result (λ m. WentThrough 1 0 hand.old hand.new) }
        ensures pass { IfErr result (λ e. e.0 ≡ pass) }
        ensures refused { IfErr result (λ e. WasRefused 1 e.1 hand.old hand.new) }
    {
        let found = self.take::<Brand>(&mut hand.seat, MEMBER);
        if found != MEMBER {
            return Err((pass, found));
        }
        let shared = &self.table.shared;
        let stood = shared.exchange(&mut hand.seat, 0, None);
        shared.store::<PutPlay>(&mut hand.seat, 0, NOBODY);
        match stood {
            Some(member) => Ok(row.meet(member, pass)),
            None => unreachable!(),
        }
    }
}
