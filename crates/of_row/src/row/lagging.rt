//! Steps of a machine that lags: such a step changes nothing of the machine but its place and
//! its count of steps, and neither is written yet.

ghost use Rattle.std.specs.Prelude.{◌≡◌, ◌≤◌, [], Some, IfOk, OnErr, is_ok};
ghost use Rattle.of_core.specs.Lagging.{at_place, after_lagging, MayMake, MayLag};
ghost use Rattle.of_core.specs.Machine.{IsOpen};
ghost use Rattle.of_core.specs.MachineValue.{machine_setup};
ghost use Rattle.of_brake.specs.Stops.{HasRisen, ChargesAsk, Asked};
ghost use Rattle.of_row.specs.Turned.{IsMember, MakesStep};

use super::Row;
use crate::member::{Member, Stopped};
use crate::protocol::protocol;
use crate::rule_steps::StepArgs;
use crate::steps::OnTable;
use crate::view::View;
use atomic_table::Seat;
use of_brake::Brake;
use of_core::{Machine, Place};
use of_mem::Work;
use std::marker::{Brand, PhantomData};

impl<W: Work> Row<W> {
    ghost use Rattle.of_row.specs.Rows.{row_start, IsSeatOf, RunsOnRow, IsRowMember, IsMemberOf};
    ghost use Rattle.of_row.specs.Rows.{StepsMember};

    /// Asks the brake once, and makes the step of a machine that lags if the brake allows it;
    /// the answer is the word that the step found. The call has come to `place`, by `more` steps that
    /// the machine hasn't counted. Only the member learns of the step: the machine stays as it is.
    #[inline(always)]
    pub fn step_lagging<B: Brake>(
        &self,
        place: Place,
        more: u64,
        member: &mut Member,
        machine: &Machine<W>,
        brake: &mut B,
    ) -> Result<u64, Stopped>
        requires row { IsRowMember self.now member.old }
        requires machine { RunsOnRow self.now machine.now }
        requires member { IsMemberOf W.meaning member.old (at_place machine.now place more) }
        requires may { MayMake W.meaning machine.now place }
        requires lags { MayLag place }
        ensures row { IsRowMember self.now member.new }
        ensures member { IfOk result (λ found. IsMemberOf W.meaning member.new
            (after_lagging W.meaning machine.now place more found)) }
        ensures step { IfOk result (λ found. StepsMember W.meaning W.lawful self.now
            (at_place machine.now place more) member.old
            (after_lagging W.meaning machine.now place more found) member.new) }
        ensures stopped { OnErr result (member.new ≡ member.old) }
        ensures denials { B.denials brake.old ≤ B.denials brake.new }
        ensures cause { OnErr result (HasRisen (B.denials brake.old) (B.denials brake.new)) }
        ensures left { ChargesAsk (B.left brake.old) (B.left brake.new) (is_ok result) }
        ensures answers { B.answers brake.new ≡ B.answers brake.old }
        ensures asks { Asked (B.asks brake.old) (B.asks brake.new) }
    {
        if !brake.ask() {
            return Err(Stopped);
        }
        let found = self.make_lagging::<Brand>(&mut member.seat, machine, place, more);
        Ok(found)
    }

    // Makes the step on the table.
    #[inline(always)]
    fn make_lagging<O: StepArgs<W>>(
        &self,
        seat: &mut Seat<(), View>,
        machine: &Machine<W>,
        place: Place,
        more: u64,
    ) -> u64
        requires told { O.machine ≡ Some (at_place machine.now place more) }
        requires start { O.start ≡ row_start W.meaning self.now }
        requires row { IsSeatOf self.now seat.old }
        requires machine { RunsOnRow self.now machine.now }
        requires member { IsMember (machine_setup W.meaning machine.now) seat.old.me.0
            (at_place machine.now place more).call }
        requires may { MayMake W.meaning machine.now place }
        requires open { IsOpen place }
        ensures at { (seat.new.table_id ≡ seat.old.table_id) × (seat.new.me.1 ≡ []) }
        ensures step { MakesStep (machine_setup W.meaning machine.now) (W.lawful machine.now.work)
            (row_start W.meaning self.now) (at_place machine.now place more).call
            seat.old.me.0 result seat.new.me.0 }
    {
        let limit = self.limit();
        let work = self.work();
        protocol(limit, work);
        let table: OnTable<W, O> = OnTable {
            shared: &self.table.shared,
            told: PhantomData,
        };
        machine.perform_at(place, &table, seat)
    }
}
