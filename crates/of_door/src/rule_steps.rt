//! The rule of a door's table, and what each step on it tells.

ghost use Rattle.std.specs.Prelude.{ℕ, Option, None};
ghost use Rattle.of_row.specs.declared.row.Row.{Row as TheRow};
ghost use Rattle.of_door.specs.Hands.{no_exchange};
ghost use Rattle.of_door.specs.Rule.{DoorMeetsRule, IsMemberAtDoor, IsMemberAtToldDoor, TakesSlot};
ghost use Rattle.of_door.specs.Rule.{GivesSlotBack};

use crate::trace::{DoorKey, HandLog};
use atomic_table::{Play, Split, TableRule};
use of_mem::Work;
use of_row::Member;
use std::marker::{Brand, PhantomData};

/// The rule: what a word of the door says of its slot.
pub struct DoorRule<W> {
    work: PhantomData<W>,
}

impl<W: Work> TableRule<Option<Member>, HandLog, DoorKey<W>> for DoorRule<W> {
    ghost holds = { λ key s. DoorMeetsRule (IsMemberAtDoor key.row.value key.number) s };

    ghost first = { λ _. no_exchange };
}

/// The row and the number of the member that may be in the door; given for the proof alone.
pub trait AdmitArgs<W> {
    ghost at_row: { Option (TheRow W) };

    ghost number: { ℕ };
}

impl<W> AdmitArgs<W> for Brand {
    ghost at_row = { None };

    ghost number = { 0 };
}

/// An exchange of the door's word for 2, by which a hand takes the slot.
pub struct TakePlay<W, O> {
    admits: PhantomData<(W, O)>,
}

impl<W, O: AdmitArgs<W>> Play<Option<Member>, HandLog> for TakePlay<W, O> {
    ghost then = { λ st me found after.
        TakesSlot (IsMemberAtToldDoor O.at_row O.number) st.first me found after };
}

/// A store of 0 or 1 in the door's word, by which a hand gives the slot back.
pub struct PutPlay;

impl Play<Option<Member>, HandLog> for PutPlay {
    ghost then = { λ st me found after. GivesSlotBack st.first me after };
}

/// A second hand is made, with the lists of the first one.
pub struct SplitHand;

impl Split<HandLog> for SplitHand {
    ghost left = { λ v. v };

    ghost right = { λ v. v };
}
