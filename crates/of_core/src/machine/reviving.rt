//! How a new machine takes the place of a lost one.

ghost use Rattle.std.specs.Prelude.{◌≡◌, ◌<◌, ◌≤◌, ◌+◌, IfOk};
ghost use Rattle.std.proofs.Common.{take};
ghost use Rattle.of_mem.specs.declared.work.TheConstants.{MOST_INSTRS};
ghost use Rattle.of_cell.specs.declared.word.TheConstants.{GREATEST_LIMIT};
ghost use Rattle.of_cell.specs.Words.{payload_of};
ghost use Rattle.of_core.specs.MachineValue.{machine_setup};
ghost use Rattle.of_core.specs.Remains.{MayRevive, revived_machine};

use crate::machine::Machine;
use crate::place::Place;
use crate::remains::Remains;
use of_cell::{GREATEST_LIMIT, Shape, payload_of, seq_of};
use of_mem::{MOST_INSTRS, Work};
use std::alloc::{AllocError, Global};

impl<W: Work> Machine<W> {
    /// A new machine for a caller whose machine is lost, made from the table's words. If the
    /// announced call is newer than the ticket cell, the machine goes on with it: it is about to
    /// begin a round, and the stores that announced the call count as its steps. Otherwise the
    /// machine is idle, and has begun `made` calls, or as many as the ticket cell says if that is
    /// more.
    pub fn revive(
        alloc: Global,
        shape: Shape,
        limit: u32,
        caller: u32,
        made: u32,
        remains: &Remains,
        work: W,
    ) -> Result<Self, AllocError>
        requires callers { shape.callers ≡ W.many work }
        requires instrs { shape.instrs ≡ MOST_INSTRS }
        requires cells { shape.cells ≡ W.size work }
        requires caller { caller < shape.callers }
        requires limit { limit ≤ GREATEST_LIMIT }
        requires may { MayRevive remains.now caller }
        ensures work { IfOk result (λ m. m.work ≡ work) }
        ensures callers { IfOk result (λ m. m.callers ≡ shape.callers) }
        ensures cells { IfOk result (λ m. m.cells ≡ shape.cells) }
        ensures limit { IfOk result (λ m. m.limit ≡ limit) }
        ensures revived { IfOk result (λ m.
            m.call ≡ revived_machine (machine_setup W.meaning m) remains.now caller made) }
    {
        let ticket = seq_of(remains.announcement);
        let last = payload_of(remains.ticket);
        if last < ticket {
            let mut machine = Machine::new(alloc, shape, limit, caller, ticket, work)?;
            machine.go_on(remains);
            return Ok(machine);
        }
        Machine::new(alloc, shape, limit, caller, made.max(last), work)
    }

    /// Goes on with the announced call, at the beginning of a round.
    fn go_on(&mut self, remains: &Remains)
        requires idle { self.old.call.place ≡ Place.Idle }
        ensures { self.new ≡ record self.old {
          call = record self.old.call {
            op = take (payload_of remains.now.announcement) remains.now.script;
            place = Place.LoadCurrent;
            steps = payload_of remains.now.announcement + 1;
          };
        } }
    {
        let words = payload_of(remains.announcement);
        let there = (words as usize).min(MOST_INSTRS);
        self.op.clear();
        match self.op.extend_from_slice(&remains.script[..there]) {
            Ok(()) => {}
            // there is room for the words of every operation
            Err(_) => unreachable!(),
        }
        self.place = Place::LoadCurrent;
        self.steps = words as u64 + 1;
    }
}
