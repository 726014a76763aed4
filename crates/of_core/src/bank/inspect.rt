//! What a bank shows: its words, the step that a caller makes next, and the batch that it would
//! commit.

ghost use Rattle.std.specs.Prelude.{◌≡◌, ◌≢◌, ◌<◌, map};
ghost use Rattle.std.proofs.Common.{get_or};
ghost use Rattle.of_core.specs.declared.place.Place.TheVariants.{Idle};
ghost use Rattle.of_core.specs.Table.{words_before_members};
ghost use Rattle.of_core.specs.MachineValue.{ended_outcome};
ghost use Rattle.of_core.specs.Helping.{helped_owner};
ghost use Rattle.of_core.specs.Inside.{call_value};
ghost use Rattle.of_core.specs.Steps.{want, word_of};
ghost use Rattle.of_core.specs.Moment.{machine_of, bank_setup, table_word_count};

use crate::bank::Bank;
use crate::call::Call;
use crate::place::{Op, Outcome, Place};
use of_mem::Work;

impl<W: Work> Bank<W> {
    /// Where a caller's call is: a place has the name of the step that comes next.
    pub fn place(&self, caller: u32) -> Place
        requires { caller < self.now.callers }
        ensures { result ≡ (machine_of self.now caller).place }
    {
        self.machines[caller as usize].place()
    }

    /// The next step of a caller's open call.
    pub fn want(&self, caller: u32) -> Op
        requires caller { caller < self.now.callers }
        requires open { (machine_of self.now caller).place ≢ Idle }
        ensures value { result ≡ want (bank_setup W.meaning self.now) (machine_of self.now caller) }
        ensures range { word_of result < words_before_members (bank_setup W.meaning self.now) }
    {
        self.machines[caller as usize].want()
    }

    /// How a caller's last call ended. None if a call is open, or if none has ended.
    pub fn answer(&self, caller: u32) -> Option<Outcome>
        requires { caller < self.now.callers }
        ensures { result ≡ ended_outcome (machine_of self.now caller) }
    {
        self.machines[caller as usize].answer()
    }

    /// The caller whose log a caller's call copies or applies as a helper. None if the call does
    /// not help.
    pub fn helped(&self, caller: u32) -> Option<u32>
        requires { caller < self.now.callers }
        ensures { result ≡ helped_owner (machine_of self.now caller) }
    {
        self.machines[caller as usize].helped()
    }

    /// The calls that a caller's scan has run so far. They are the batch, if its round commits
    /// them.
    pub fn calls(&self, caller: u32) -> &[Call]
        requires { caller < self.now.callers }
        ensures { map call_value result.now ≡ (machine_of self.now caller).calls }
    {
        self.machines[caller as usize].calls()
    }

    /// The word of the table with the index `place`.
    pub fn word(&self, place: u32) -> u64
        requires { place < table_word_count (bank_setup W.meaning self.now) }
        ensures { result ≡ get_or self.now.words place 0 }
    {
        self.words[place as usize]
    }
}
