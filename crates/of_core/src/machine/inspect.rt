//! What a machine shows of the step that it makes next, and of the batch that it would commit.

ghost use Rattle.std.specs.Prelude.{◌≡◌, ◌≤◌, map, take};
ghost use Rattle.of_mem.specs.declared.work.TheConstants.{MOST_INSTRS};
ghost use Rattle.of_core.specs.Helping.{helped_owner};
ghost use Rattle.of_core.specs.OwedRun.{owed_words};
ghost use Rattle.of_core.specs.Inside.{call_value};

use crate::call::Call;
use crate::machine::Machine;
use crate::machine::logs::padded_words;
use crate::place::Place;
use of_mem::{MOST_INSTRS, Work};

impl<W: Work> Machine<W> {
    /// Where the call is: a place has the name of the step that comes next.
    #[inline(always)]
    pub fn place(&self) -> Place
        ensures { result ≡ self.now.call.place }
    {
        self.place
    }

    /// The words of the call's operation, followed by zeros, and how many they are.
    pub fn operation(&self) -> ([u64; MOST_INSTRS], usize)
        ensures words { take result.1 result.0 ≡ self.now.call.op }
        ensures few { result.1 ≤ MOST_INSTRS }
    {
        (padded_words(&self.op), self.op.len())
    }

    /// The words that a run of the scan runs, or that the run of a try runs, followed by zeros, and
    /// how many they are.
    pub fn owed_words(&self, in_scan: bool) -> ([u64; MOST_INSTRS], usize)
        ensures words { take result.1 result.0 ≡ owed_words in_scan self.now.call }
        ensures few { result.1 ≤ MOST_INSTRS }
    {
        if in_scan {
            (padded_words(&self.script), self.script.len())
        } else {
            (padded_words(&self.op), self.op.len())
        }
    }

    /// The caller whose log the call copies or applies as a helper. None if the call does not help.
    pub fn helped(&self) -> Option<u32>
        ensures { result ≡ helped_owner self.now.call }
    {
        if self.helps { Some(self.owner) } else { None }
    }

    /// The calls that the scan has run so far. They are the batch, if the round commits them.
    pub fn calls(&self) -> &[Call]
        ensures { map call_value result.now ≡ self.now.call.calls }
    {
        &self.calls
    }
}
