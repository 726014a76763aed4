//! A machine that lags: in a loop whose steps change only its place and its count of steps,
//! both are written once, after the loop.

ghost use Rattle.std.specs.Prelude.{◌≡◌, ◌+◌, ◌<◌, nat_lt, length};
ghost use Rattle.of_cell.specs.Words.{seq_of};
ghost use Rattle.of_core.specs.Machine.{log_words};
ghost use Rattle.of_core.specs.Lagging.{at_place, MayMake, MayLag};
ghost use Rattle.of_core.specs.declared.place.Place.TheVariants.{StoreLog, LoadTarget};

use crate::machine::Machine;
use crate::place::Place;
use of_cell::seq_of;
use of_mem::Work;

impl<W: Work> Machine<W> {
    /// The machine may make the step of its own place.
    #[inline(always)]
    pub fn may_step(&self)
        ensures { MayMake W.meaning self.now self.now.call.place }
    {
        // a machine keeps this, whatever it holds
        let _steps = self.steps;
    }

    /// Catches up: the machine has come to this place, by this number of steps more.
    #[inline(always)]
    pub fn go_to(&mut self, place: Place, more: u64)
        requires may { MayMake W.meaning self.old place }
        requires lags { MayLag place }
        requires few { self.old.call.steps + more < 18446744073709551616 }
        ensures { self.new ≡ at_place self.old place more }
    {
        self.place = place;
        self.steps += more;
    }

    /// How many words the log has that the machine stores. The machine has come to the store of word
    /// `at`.
    #[tactic(auto, using(crate::proofs::LogWords::word_laws))]
    pub fn log_size(&self, at: u32) -> u32
        requires at { self.now.call.place ≡ StoreLog at }
        ensures is { result ≡ length (log_words self.now.call.log) }
        ensures may { MayMake W.meaning self.now (StoreLog at) }
    {
        2 * self.log.len() + 1
    }

    /// How many entries the log has that the machine applies. The machine has come to the load of the
    /// cell of entry `at`.
    pub fn log_entries(&self, at: u32) -> u32
        requires at { self.now.call.place ≡ LoadTarget at }
        ensures is { result ≡ length self.now.call.log }
        ensures may { MayMake W.meaning self.now (LoadTarget at) }
    {
        self.log.len()
    }

    /// Whether this word of a cell is older than the transaction that the machine applies.
    #[inline(always)]
    pub fn is_older(&self, found: u64) -> bool
        ensures { result ≡ nat_lt (seq_of found) self.now.call.seq }
    {
        seq_of(found) < self.seq
    }
}
