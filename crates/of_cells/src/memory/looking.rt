//! What a number's last call answered, looked up in an open memory while other calls go on.

ghost use Rattle.std.specs.Prelude.{◌≡◌, ◌<◌, IfOk, IfErr};

use super::CellMemory;
use crate::laws::rows_hold_history;
use of_mem::{RawReply, Work};
use of_row::NotStill;

impl<W: Work> CellMemory<W> {
    ghost use Rattle.of_cells.specs.Memories.{IsCellMemory, IsStill, TakesNone, RemembersAll};
    ghost use Rattle.of_cells.specs.Memories.{callers_of};
    ghost use Rattle.of_cells.specs.Sequences.{seq_known_in};
    ghost use Rattle.of_cells.specs.Looking.{WasSoMeanwhile, WasBusyMeanwhile, ShowLastCall};

    /// The ticket of a number's last announced call that was run, and the call's reply as data
    /// cells hold it. None if there was no such call, also before the memory was opened. Any number
    /// may be asked for, whether its handle is out or not, in this process or another. This makes
    /// no step; others go on meanwhile. If one of them has a transaction open or commits one, the
    /// error says so, and the number may be asked for again.
    pub fn last_reply_of(&mut self, number: u32) -> Result<Option<(u32, RawReply)>, NotStill>
        requires memory { IsCellMemory W.meaning self.old }
        requires number { number < callers_of self.old }
        ensures memory { IsCellMemory W.meaning self.new }
        ensures still { IsStill self.old self.new }
        ensures none { TakesNone self.old self.new }
        ensures remembers { RemembersAll W.meaning self.old self.new }
        ensures seq { seq_known_in self.new ≡ seq_known_in self.old }
        ensures last { IfOk result (λ r.
            WasSoMeanwhile W.meaning W.lawful (ShowLastCall number r) self.old self.new) }
        ensures cause { IfErr result (λ _. WasBusyMeanwhile W.meaning self.old self.new) }
    {
        let _shape = self.shape();
        rows_hold_history(self.work(), self.limit());
        let (ticket, raw) = self.row.last_reply(&mut self.pass, number)?;
        if ticket == 0 {
            return Ok(None);
        }
        Ok(Some((ticket, raw)))
    }
}
