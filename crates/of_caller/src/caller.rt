//! One caller: it makes its calls with a member of a row.

mod lagging;
mod loading;
mod pause;
mod phases;

ghost use Rattle.std.specs.Prelude.{◌≡◌, ◌+◌, ◌<◌, ◌≤◌, ◌↔◌, IfOk, IfErr, IsTrue, length};
ghost use Rattle.of_mem.specs.declared.work.TheConstants.{MOST_INSTRS};
ghost use Rattle.of_core.specs.Machine.{IsOpen};
ghost use Rattle.of_core.specs.Turn.{IsIdle};
ghost use Rattle.of_brake.specs.Stops.{HasRisen};
ghost use Rattle.of_row.specs.Rows.{calls_of_member, IsRowMember, IsSameMember, HasNoCall};
ghost use Rattle.of_row.specs.Replacing.{RevivesMember, RefusesMember};

use of_brake::{Brake, Steps};
use of_core::{Machine, Outcome};
use of_mem::{Work, WriteSet};
use of_row::laws::{idle_members, machines, members};
use of_row::{Member, NotRevived, Row};
use std::alloc::{AllocError, Global};
use std::sync::ledger::Ledger;
use thiserror::Error;

/// Why a call has no answer.
#[derive(Clone, Copy, Debug, PartialEq, Eq, Error)]
pub enum CallErr {
    /// The brake was asked `asked` times, and denied the last time. The call stays open.
    #[error("stopped at step {asked}")]
    Stopped { asked: u64 },
    /// The sequence has come to the row's limit, `seq`, before the call took effect. The call is
    /// over.
    #[error("no sequence is left after {seq}")]
    Spent { seq: u32 },
}

/// One caller of a row: a member, and the machine with which the caller makes its calls.
#[derive(Drop)]
pub struct Caller<W: Work> {
    pub(crate) member: Member,
    machine: Machine<W>,
    /// What the run on its way has written. Otherwise it is out of date.
    writes: WriteSet,
}

impl<W: Work> Caller<W> {
    ghost use Rattle.of_caller.specs.Callers.{IsCaller, LeavesIdleMember, HoldsKeptMachine, member_of};
    ghost use Rattle.of_caller.specs.Callers.{caller_call, calls_begun_by};
    ghost use Rattle.of_caller.specs.CallsTold.{TellsCallOf, call_begun_by};
    ghost use Rattle.of_caller.specs.Brakes.{IsStop, StopsAt, UsesCountedSteps, HearsAnswerOnce};
    ghost use Rattle.of_caller.specs.Brakes.{AsksOf};

    /// Makes a caller of a member that has no open call. The caller goes on with the ticket after
    /// the member's last call. If memory runs out, the error hands the member back.
    pub fn new(
        alloc: Global,
        row: &Row<W>,
        member: Member,
    ) -> Result<Caller<W>, (Member, AllocError)>
        requires row { IsRowMember row.now member }
        requires idle { HasNoCall member }
        ensures caller { IfOk result (IsCaller W.meaning row.now) }
        ensures member { IfOk result (λ c. member_of c ≡ member) }
        ensures idle { IfOk result (λ c. IsIdle (caller_call c)) }
        ensures made { IfOk result (λ c. calls_begun_by c ≡ calls_of_member member) }
        ensures memory { IfErr result (λ e. e.0 ≡ member) }
    {
        members(row.work());
        machines(row.work());
        let number = member.number();
        let made = member.made();
        let shape = row.shape();
        let writes = match WriteSet::new(alloc, shape.cells) {
            Ok(writes) => writes,
            Err(error) => return Err((member, error)),
        };
        match Machine::new(alloc, shape, row.limit(), number, made, row.work()) {
            Ok(machine) => Ok(Caller {
                member,
                machine,
                writes,
            }),
            Err(error) => Err((member, error)),
        }
    }

    /// Makes a caller of a member whose machine is lost with its thread or process. The caller goes
    /// on with the call that the member's caller had announced, if this call has not run. `made` is
    /// how many calls of the member's caller have made a step. With an error the member comes back,
    /// and may try again.
    pub fn revive(
        alloc: Global,
        row: &Row<W>,
        mut member: Member,
        made: u32,
    ) -> Result<Caller<W>, (Member, NotRevived)>
        requires row { IsRowMember row.now member }
        requires made { made ≡ calls_of_member member }
        ensures caller { IfOk result (IsCaller W.meaning row.now) }
        ensures machine { IfOk result HoldsKeptMachine }
        ensures revived { IfOk result (λ c.
            RevivesMember W.meaning W.lawful row.now member (member_of c)) }
        ensures row { IfErr result (λ e. IsRowMember row.now e.0) }
        ensures same { IfErr result (λ e. IsSameMember member e.0) }
        ensures refused { IfErr result (λ e.
            RefusesMember W.meaning W.lawful row.now member e.0 e.1) }
    {
        let machine = match row.revive(alloc, &mut member, made) {
            Ok(machine) => machine,
            Err(error) => return Err((member, error)),
        };
        match WriteSet::new(alloc, row.shape().cells) {
            Ok(writes) => Ok(Caller {
                member,
                machine,
                writes,
            }),
            // the member has got its machine, and may get another one
            Err(error) => Err((member, NotRevived::OutOfMemory(error))),
        }
    }

    /// Makes a call of an operation of 1 to `MOST_INSTRS` words. The brake is asked before each
    /// step of the call, and told if the call is answered. A stopped call stays open for `go_on`; a
    /// spent one is over.
    pub fn call<L: Ledger, B: Brake>(
        &mut self,
        row: &Row<W>,
        op: &[u64],
        brake: &mut B,
        steps: &mut Steps<L>,
    ) -> Result<Outcome, CallErr>
        requires caller { IsCaller W.meaning row.now self.old }
        requires idle { IsIdle (caller_call self.old) }
        requires some { 1 ≤ length op.now }
        requires few { length op.now ≤ MOST_INSTRS }
        requires made { calls_begun_by self.old + 1 < 4294967296 }
        ensures caller { IsCaller W.meaning row.now self.new }
        ensures told { TellsCallOf W.meaning W.lawful row.now
            (call_begun_by W.meaning row.now self.old op.now)
            self.old self.new steps.old steps.new result }
        ensures denials { B.denials brake.old ≤ B.denials brake.new }
        ensures cause { IsStop result → HasRisen (B.denials brake.old) (B.denials brake.new) }
        ensures stop { StopsAt (B.left brake.old) result }
        ensures left { UsesCountedSteps (B.left brake.old) (B.left brake.new) steps.old steps.new }
        ensures answers { HearsAnswerOnce (B.answers brake.old) (B.answers brake.new) result }
        ensures asks { AsksOf (B.asks brake.old) (B.asks brake.new) steps.old steps.new result }
    {
        members(row.work());
        machines(row.work());
        self.machine.begin(op);
        self.go_to_end(op, row, brake, steps)
    }

    /// Goes on with the open call. The brake is asked before each step from here on, and told if
    /// the call is answered. The answer counts the steps of the whole call.
    pub fn go_on<L: Ledger, B: Brake>(
        &mut self,
        row: &Row<W>,
        brake: &mut B,
        steps: &mut Steps<L>,
    ) -> Result<Outcome, CallErr>
        requires caller { IsCaller W.meaning row.now self.old }
        requires open { IsOpen (caller_call self.old).place }
        ensures caller { IsCaller W.meaning row.now self.new }
        ensures told { TellsCallOf W.meaning W.lawful row.now (caller_call self.old)
            self.old self.new steps.old steps.new result }
        ensures denials { B.denials brake.old ≤ B.denials brake.new }
        ensures cause { IsStop result → HasRisen (B.denials brake.old) (B.denials brake.new) }
        ensures stop { StopsAt (B.left brake.old) result }
        ensures left { UsesCountedSteps (B.left brake.old) (B.left brake.new) steps.old steps.new }
        ensures answers { HearsAnswerOnce (B.answers brake.old) (B.answers brake.new) result }
        ensures asks { AsksOf (B.asks brake.old) (B.asks brake.new) steps.old steps.new result }
    {
        let (words, count) = self.machine.operation();
        self.go_to_end(&words[..count], row, brake, steps)
    }

    /// Goes on with the open call, whose operation is `op`, until it is answered or stopped.
    fn go_to_end<L: Ledger, B: Brake>(
        &mut self,
        op: &[u64],
        row: &Row<W>,
        brake: &mut B,
        steps: &mut Steps<L>,
    ) -> Result<Outcome, CallErr>
        requires caller { IsCaller W.meaning row.now self.old }
        requires open { IsOpen (caller_call self.old).place }
        requires op { op.now ≡ (caller_call self.old).op }
        requires few { length op.now ≤ MOST_INSTRS }
        ensures caller { IsCaller W.meaning row.now self.new }
        ensures told { TellsCallOf W.meaning W.lawful row.now (caller_call self.old)
            self.old self.new steps.old steps.new result }
        ensures denials { B.denials brake.old ≤ B.denials brake.new }
        ensures cause { IsStop result → HasRisen (B.denials brake.old) (B.denials brake.new) }
        ensures stop { StopsAt (B.left brake.old) result }
        ensures left { UsesCountedSteps (B.left brake.old) (B.left brake.new) steps.old steps.new }
        ensures answers { HearsAnswerOnce (B.answers brake.old) (B.answers brake.new) result }
        ensures asks { AsksOf (B.asks brake.old) (B.asks brake.new) steps.old steps.new result }
    {
        of_core::laws::machines();
        let before = self.machine.steps();
        while !self.machine.is_idle() {
            let Ok(()) = self.go_far(op, row, brake, steps) else {
                let asked = self.machine.steps() - before + 1;
                return Err(CallErr::Stopped { asked });
            };
        }
        match self.machine.answer() {
            Some(Outcome::Spent { seq }) => Err(CallErr::Spent { seq }),
            // no step of a call loses the call
            Some(Outcome::Lost { .. }) => unreachable!(),
            Some(outcome) => {
                brake.answered();
                Ok(outcome)
            }
            None => unreachable!(),
        }
    }

    /// Whether no call is open.
    pub fn is_idle(&self) -> bool
        ensures { IsTrue result ↔ IsIdle (caller_call self.now) }
    {
        self.machine.is_idle()
    }

    /// How many calls of the caller's number were begun, including those before the row's start.
    pub fn made(&self) -> u32
        ensures { result ≡ calls_begun_by self.now }
    {
        self.machine.made()
    }

    /// Ends the caller and hands back its member, which knows all that the caller knew. An open
    /// call stays open in the member.
    pub fn leave(self) -> Member
        ensures is { result ≡ member_of self }
        ensures idle { LeavesIdleMember W.meaning self result }
    {
        idle_members::<W>();
        let Caller {
            member,
            machine: _,
            writes: _,
        } = self;
        member
    }
}
