//! What a number's last call answered, looked up in an open memory while other calls go on.

ghost use Rattle.std.specs.Prelude.{◌≡◌, ◌<◌, IfOk, IfErr};

use super::Memory;
use of_eval::reply_of;
use of_row::NotStill;
use of_script::Reply;

impl Memory {
    ghost use Rattle.of_memory.specs.Memories.{IsMemory, IsStill, TakesNone, RemembersAll};
    ghost use Rattle.of_memory.specs.Memories.{callers_of};
    ghost use Rattle.of_memory.specs.Sequences.{seq_known_in};
    ghost use Rattle.of_memory.specs.Asking.{WasSoMeanwhile, WasBusyMeanwhile, ShowLastCall};

    /// The ticket of a number's last announced call that took effect, and the call's reply. None if
    /// there was no such call, also before the memory was opened. Any number may be asked for,
    /// whether its handle is out or not, in this process or another. This makes no step; others go
    /// on meanwhile. If one of them has a transaction open or commits one, the error says so, and
    /// the number may be asked for again.
    pub fn last_reply_of(&mut self, number: u32) -> Result<Option<(u32, Reply)>, NotStill>
        requires memory { IsMemory self.old }
        requires number { number < callers_of self.old }
        ensures memory { IsMemory self.new }
        ensures still { IsStill self.old self.new }
        ensures none { TakesNone self.old self.new }
        ensures remembers { RemembersAll self.old self.new }
        ensures seq { seq_known_in self.new ≡ seq_known_in self.old }
        ensures last { IfOk result (λ r. WasSoMeanwhile (ShowLastCall number r) self.old self.new) }
        ensures cause { IfErr result (λ _. WasBusyMeanwhile self.old self.new) }
    {
        let Some((ticket, raw)) = self.cells.last_reply_of(number)? else {
            return Ok(None);
        };
        let Some(reply) = reply_of(&raw) else {
            unreachable!()
        };
        Ok(Some((ticket, reply)))
    }
}
