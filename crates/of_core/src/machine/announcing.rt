//! How a machine goes on at the steps that announce its call.

ghost use Rattle.std.specs.Prelude.{◌≡◌, ◌<◌, ◌+◌};
ghost use Rattle.of_core.specs.MachineValue.{step_from};
ghost use Rattle.of_core.specs.declared.place.Place.TheVariants.{StoreScript};

use crate::machine::Machine;
use crate::place::Place;
use of_mem::Work;

impl<W: Work> Machine<W> {
    /// Goes on after the store of a script word.
    pub(super) fn after_store_script(&mut self, at: u32)
        requires at { self.old.call.place ≡ StoreScript at }
        ensures { self.new ≡ step_from W.meaning (StoreScript at) 0 self.old }
    {
        self.place = if at as usize + 1 < self.op.len() {
            Place::StoreScript(at + 1)
        } else {
            Place::StoreAnnouncement
        };
    }

    /// Goes on after the store of the announcement.
    pub(super) fn after_store_announcement(&mut self)
        ensures { self.new ≡ step_from W.meaning Place.StoreAnnouncement 0 self.old }
    {
        self.place = Place::LoadCurrent;
    }
}
