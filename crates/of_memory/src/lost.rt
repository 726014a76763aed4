//! A handle whose machine is lost with its thread or process, and the new machine that takes the
//! lost one's place while others go on.

ghost use Rattle.std.specs.Prelude.{◌≡◌, IfOk, IfErr};

use crate::handle::Handle;
use of_cells::{LostHandle as LostCells, NotRevived};
use of_eval::Scripts;
use std::alloc::Global;

/// One caller of a memory whose machine is lost. It makes no calls.
#[derive(Drop)]
pub struct LostHandle {
    pub(crate) cells: LostCells<Scripts>,
}

impl Handle {
    ghost use Rattle.of_memory.specs.Handles.{IsHandle, calls_begun};
    ghost use Rattle.of_memory.specs.Lost.{IsLostHandle, GivesUp};

    /// How many calls of the handle's number were begun, with those before the memory was opened.
    pub fn begun(&self) -> u32
        ensures { result ≡ calls_begun self.now }
    {
        self.cells.begun()
    }

    /// Gives the handle's machine up, as if its thread had died at this step. An open call that has
    /// made no step is forgotten; any other open call is as a dead thread leaves it.
    pub fn give_up(self) -> LostHandle
        requires { IsHandle self }
        ensures lost { IsLostHandle result }
        ensures calls { GivesUp self result }
    {
        let Handle { cells } = self;
        LostHandle {
            cells: cells.give_up(),
        }
    }
}

impl LostHandle {
    ghost use Rattle.of_memory.specs.Handles.{IsHandle};
    ghost use Rattle.of_memory.specs.Lost.{IsLostHandle, IsRevived, StaysLost, IsReviveCause};
    ghost use Rattle.of_memory.specs.Lost.{number_of_lost, calls_begun_by_lost};

    /// The handle's number.
    pub fn number(&self) -> u32
        ensures { result ≡ number_of_lost self.now }
    {
        self.cells.number()
    }

    /// How many calls of the number have made a step, with those before the memory was opened.
    pub fn made(&self) -> u32
        requires { IsLostHandle self.now }
        ensures { result ≡ calls_begun_by_lost self.now }
    {
        self.cells.made()
    }

    /// Makes a new machine from the table's words, while others go on. `made` is what `made`
    /// answers; a process that takes the place of a dead one gets it from outside. If the call that
    /// the lost machine had announced has not run, it is open: `go_on` ends it. Any other open call
    /// is lost: it is in the history if it had run, and otherwise never. With an error there is no
    /// machine; the lost handle comes back and may try again. `NotYet` ends with another handle's
    /// next commit, but for `RequestNotDurable`, which `Memory::evict_request` ends.
    pub fn revive(self, alloc: Global, made: u32) -> Result<Handle, (LostHandle, NotRevived)>
        requires lost { IsLostHandle self }
        requires made { made ≡ calls_begun_by_lost self }
        ensures handle { IfOk result IsHandle }
        ensures revived { IfOk result (IsRevived self) }
        ensures lost { IfErr result (λ e. IsLostHandle e.0) }
        ensures stays { IfErr result (λ e. StaysLost self e.0) }
        ensures cause { IfErr result (λ e. IsReviveCause self e.0 e.1) }
    {
        let LostHandle { cells } = self;
        match cells.revive(alloc, made) {
            Ok(cells) => Ok(Handle { cells }),
            Err((cells, error)) => Err((LostHandle { cells }, error)),
        }
    }
}
