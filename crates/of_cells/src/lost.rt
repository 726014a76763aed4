//! A handle whose machine is lost with its thread or process, and the new machine that takes the
//! lost one's place while others go on.

ghost use Rattle.std.specs.Prelude.{◌≡◌, IfOk, IfErr};

use crate::handle::{APART, CellHandle};
use of_caller::Caller;
use of_mem::Work;
use of_row::{Member, NotRevived, Row};
use std::alloc::Global;
use std::sync::Arc;

/// One caller of a memory of cells whose machine is lost. It makes no calls.
#[derive(Drop)]
pub struct LostHandle<W: Work> {
    pub(crate) row: Arc<Row<W>, Global>,
    pub(crate) number: u32,
    /// The last sequence that the handle knew.
    pub(crate) seq: u32,
    pub(crate) member: Member,
}

impl<W: Work> CellHandle<W> {
    ghost use Rattle.of_cells.specs.Handles.{IsCellHandle, calls_begun};
    ghost use Rattle.of_cells.specs.Lost.{IsLostHandle, GivesUp};

    /// How many calls of the handle's number were begun, with those before the memory was opened.
    pub fn begun(&self) -> u32
        ensures { result ≡ calls_begun self.now }
    {
        self.caller.made()
    }

    /// Gives the handle's machine up, as if its thread had died at this step. An open call that has
    /// made no step is forgotten; any other open call is as a dead thread leaves it.
    pub fn give_up(self) -> LostHandle<W>
        requires { IsCellHandle W.meaning self }
        ensures lost { IsLostHandle W.meaning result }
        ensures calls { GivesUp self result }
    {
        let CellHandle {
            front: _,
            row,
            number,
            seq,
            caller,
            behind: _,
        } = self;
        LostHandle {
            row,
            number,
            seq,
            member: caller.leave(),
        }
    }
}

impl<W: Work> LostHandle<W> {
    ghost use Rattle.of_cells.specs.Handles.{IsCellHandle};
    ghost use Rattle.of_cells.specs.Lost.{IsLostHandle, IsRevived, StaysLost, IsReviveCause};
    ghost use Rattle.of_cells.specs.Lost.{number_of_lost, calls_begun_by_lost};

    /// The handle's number.
    pub fn number(&self) -> u32
        ensures { result ≡ number_of_lost self.now }
    {
        self.number
    }

    /// How many calls of the number have made a step, with those before the memory was opened.
    pub fn made(&self) -> u32
        requires { IsLostHandle W.meaning self.now }
        ensures { result ≡ calls_begun_by_lost self.now }
    {
        self.member.made()
    }

    /// Makes a new machine from the table's words, while others go on. `made` is what `made`
    /// answers; a process that takes the place of a dead one gets it from outside. If the call that
    /// the lost machine had announced has not run, it is open: `go_on` ends it. Any other open call
    /// is lost: it is in the history if it had run, and otherwise never. With an error there is no
    /// machine; the lost handle comes back and may try again. `NotYet` ends with another handle's
    /// next commit, but for `RequestNotDurable`, which `CellMemory::evict_request` ends.
    pub fn revive(
        self,
        alloc: Global,
        made: u32,
    ) -> Result<CellHandle<W>, (LostHandle<W>, NotRevived)>
        requires lost { IsLostHandle W.meaning self }
        requires made { made ≡ calls_begun_by_lost self }
        ensures handle { IfOk result (IsCellHandle W.meaning) }
        ensures revived { IfOk result (IsRevived W.meaning self) }
        ensures lost { IfErr result (λ e. IsLostHandle W.meaning e.0) }
        ensures stays { IfErr result (λ e. StaysLost self e.0) }
        ensures cause { IfErr result (λ e. IsReviveCause W.meaning self e.0 e.1) }
    {
        let LostHandle {
            row,
            number,
            seq,
            member,
        } = self;
        match Caller::revive(alloc, &row, member, made) {
            Ok(caller) => Ok(CellHandle {
                front: [0; APART],
                row,
                number,
                seq,
                caller,
                behind: [0; APART],
            }),
            Err((member, error)) => Err((
                LostHandle {
                    row,
                    number,
                    seq,
                    member,
                },
                error,
            )),
        }
    }
}
