//! What is fixed for a door, and what a hand on it knows.

use of_mem::Work;
use of_row::Row;
use std::marker::{Model, PhantomData};
use std::snapshot::Snapshot;

/// What is fixed for a door: the row, and the number of the member that goes through.
#[derive(Drop)]
pub struct DoorKey<W: Work> {
    pub number: u32,
    pub row: Snapshot<Row<W>>,
}

/// What a hand knows, as contracts see it. No value of this type is made.
pub struct HandLog {
    of: PhantomData<()>,
}

impl Model for HandLog {
    ghost use Rattle.of_door.specs.Hands.{HandLog, no_exchange};

    ghost Value = { HandLog };

    ghost view = { λ _. no_exchange };
}
