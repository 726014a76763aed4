//! The steps of a machine on the shared table.

ghost use Rattle.of_row.specs.OnTable.{Takes, TurnsSeat};

use crate::rule_steps::{RowRule, StepArgs, StepPlay};
use crate::view::{RowKey, View};
use atomic_table::{Seat, Shared};
use of_core::Performer;
use of_mem::Work;
use std::marker::PhantomData;

/// Makes the steps of a machine on the shared table. The type `O` names the machine, for the proof
/// alone.
#[derive(Drop)]
pub(crate) struct OnTable<'a, W: Work, O> {
    pub(crate) shared: &'a Shared<(), View, RowKey<W>, RowRule<W>>,
    pub(crate) told: PhantomData<O>,
}

impl<'a, W: Work, O: StepArgs<W>> Performer for OnTable<'a, W, O> {
    type Given = u64;

    type Hand = Seat<(), View>;

    ghost takes = { λ t seat op. Takes W.many W.size W.meaning W.lawful O.start O.machine
        t.shared.now.key t.shared.now.table_id seat op };

    ghost made = { λ t seat op found after.
        TurnsSeat W.meaning W.lawful O.start O.machine seat found after };

    #[inline(always)]
    fn load(&self, hand: &mut Seat<(), View>, word: u32) -> u64 {
        self.shared.load::<StepPlay<W, O>>(hand, word as usize)
    }

    #[inline(always)]
    fn store(&self, hand: &mut Seat<(), View>, word: u32, value: u64) -> u64 {
        self.shared
            .store::<StepPlay<W, O>>(hand, word as usize, value);
        value
    }

    #[inline(always)]
    fn exchange(&self, hand: &mut Seat<(), View>, word: u32, old: u64, new: u64) -> u64 {
        self.shared
            .compare_exchange::<StepPlay<W, O>>(hand, word as usize, old, new)
    }

    #[inline(always)]
    fn raise(&self, hand: &mut Seat<(), View>, word: u32, value: u64) -> u64 {
        self.shared
            .fetch_max::<StepPlay<W, O>>(hand, word as usize, value)
    }
}
