//! The steps of a call, phase by phase. Each phase expects the places in their usual order, so that
//! the compiler knows the place of most steps, and their code has no jump by the place. At any
//! other place the phase ends.

ghost use Rattle.std.specs.Prelude.{◌≡◌, ◌<◌, ◌≤◌, ℕ, OnOk, OnErr, Ok, Some, None, Bool, false, IsTrue, length};
ghost use Rattle.of_mem.specs.declared.work.TheConstants.{MOST_INSTRS};
ghost use Rattle.of_core.specs.Machine.{IsOpen};
ghost use Rattle.of_core.specs.declared.place.Place.TheVariants.{CopyLog};
ghost use Rattle.of_core.specs.Fit.{is_scanning};
ghost use Rattle.of_core.specs.OwedRun.{OwesRun, with_cell_loaded, load_for, run_part};

use super::Caller;
use super::loading::OfTry;
use super::pause::pause;
use of_brake::{Brake, Steps};
use of_core::Place;
use of_mem::Work;
use of_row::{Row, Stopped};
use std::sync::ledger::Ledger;

impl<W: Work> Caller<W> {
    ghost use Rattle.of_caller.specs.Callers.{IsCaller, caller_call};
    ghost use Rattle.of_caller.specs.Going.{LeadsOn, LeadsToDenial, true_caller, steps_left};
    ghost use Rattle.of_row.specs.Rows.{owes_run};

    /// Makes one step, from the machine's place, if the brake allows it.
    #[inline(always)]
    fn turn<L: Ledger, B: Brake>(
        &mut self,
        place: Place,
        row: &Row<W>,
        brake: &mut B,
        steps: &mut Steps<L>,
    ) -> Result<(), Stopped>
        requires caller { IsCaller W.meaning row.now self.old }
        requires here { place ≡ (caller_call self.old).place }
        requires open { IsOpen place }
        ensures caller { IsCaller W.meaning row.now self.new }
        ensures goes { OnOk result (LeadsOn W.meaning W.lawful B.denials B.left B.answers B.asks
            row.now self.old brake.old steps.old self.new brake.new steps.new) }
        ensures denied { OnErr result (LeadsToDenial W.meaning W.lawful B.denials B.left B.answers
            B.asks row.now self.old brake.old steps.old self.new brake.new steps.new) }
        ensures falls { OnOk result
            (steps_left W.meaning self.new < steps_left W.meaning self.old) }
    {
        match self.turn_owing(place, row, brake, steps)? {
            Some(_) => self.run_owed(row, brake, steps),
            None => Ok(()),
        }
    }

    /// Makes one step, as `turn` does, but for the run of a try or of a scanned script: if the step
    /// leads to a run, the machine owes it, and the answer is the word that the step found.
    #[inline(always)]
    pub(super) fn turn_owing<L: Ledger, B: Brake>(
        &mut self,
        place: Place,
        row: &Row<W>,
        brake: &mut B,
        steps: &mut Steps<L>,
    ) -> Result<Option<u64>, Stopped>
        requires caller { IsCaller W.meaning row.now self.old }
        requires here { place ≡ (caller_call self.old).place }
        requires open { IsOpen place }
        ensures caller { IsCaller W.meaning row.now
            (true_caller W.meaning (owes_run result) self.new) }
        ensures goes { OnOk result (LeadsOn W.meaning W.lawful B.denials B.left B.answers B.asks
            row.now self.old brake.old steps.old
            (true_caller W.meaning (owes_run result) self.new) brake.new steps.new) }
        ensures denied { OnErr result (LeadsToDenial W.meaning W.lawful B.denials B.left B.answers
            B.asks row.now self.old brake.old steps.old self.new brake.new steps.new) }
        ensures falls { OnOk result (steps_left W.meaning
            (true_caller W.meaning (owes_run result) self.new) < steps_left W.meaning self.old) }
        ensures owes { IsTrue (owes_run result) → OwesRun W.meaning W.lawful self.new.machine }
        ensures kind { IsTrue (owes_run result)
            → is_scanning (caller_call self.new).place ≡ is_scanning place }
        ensures loaded { (in_scan : Bool) (a found : ℕ) → place ≡ load_for in_scan a
            → result ≡ Ok (Some found)
            → self.new.machine ≡ with_cell_loaded W.meaning self.old.machine a found }
        ensures over { (in_scan : Bool) (a : ℕ) → place ≡ load_for in_scan a → result ≡ Ok None
            → run_part in_scan (caller_call self.new) ≡ run_part in_scan (caller_call self.old) }
        ensures writes { self.new.writes ≡ self.old.writes }
        ensures same { OnErr result (self.new ≡ self.old) }
    {
        let owed = row.step_owing(place, &mut self.member, &mut self.machine, brake)?;
        steps.tick();
        Ok(owed)
    }

    /// Makes a step of the open call, and then those after it, as far as the phases go. `op` is the
    /// call's operation, as it was given.
    #[inline(always)]
    pub(super) fn go_far<L: Ledger, B: Brake>(
        &mut self,
        op: &[u64],
        row: &Row<W>,
        brake: &mut B,
        steps: &mut Steps<L>,
    ) -> Result<(), Stopped>
        requires caller { IsCaller W.meaning row.now self.old }
        requires open { IsOpen (caller_call self.old).place }
        requires op { op.now ≡ (caller_call self.old).op }
        requires few { length op.now ≤ MOST_INSTRS }
        ensures caller { IsCaller W.meaning row.now self.new }
        ensures goes { OnOk result (LeadsOn W.meaning W.lawful B.denials B.left B.answers B.asks
            row.now self.old brake.old steps.old self.new brake.new steps.new) }
        ensures denied { OnErr result (LeadsToDenial W.meaning W.lawful B.denials B.left B.answers
            B.asks row.now self.old brake.old steps.old self.new brake.new steps.new) }
        ensures falls { OnOk result
            (steps_left W.meaning self.new < steps_left W.meaning self.old) }
    {
        if let Place::TryCurrent = self.machine.place() {
            return self.read(op, row, brake, steps);
        }
        if let Place::TryCell(addr) = self.machine.place() {
            return self.read_on(Place::TryCell(addr), op, row, brake, steps);
        }
        if let Place::CopyLog(at) = self.machine.place() {
            return self.copy(at, row, brake, steps);
        }
        if let Place::LoadShape = self.machine.place() {
            return self.load_reply(row, brake, steps);
        }
        let place = self.machine.place();
        self.turn(place, row, brake, steps)?;
        self.announce(row, brake, steps)?;
        self.enter(row, brake, steps)?;
        self.scan(row, brake, steps)?;
        self.commit(row, brake, steps)?;
        self.apply(row, brake, steps)
    }

    /// Stores script words and the announcement, and begins the first round.
    #[inline(always)]
    fn announce<L: Ledger, B: Brake>(
        &mut self,
        row: &Row<W>,
        brake: &mut B,
        steps: &mut Steps<L>,
    ) -> Result<(), Stopped>
        requires caller { IsCaller W.meaning row.now self.old }
        ensures caller { IsCaller W.meaning row.now self.new }
        ensures goes { OnOk result (LeadsOn W.meaning W.lawful B.denials B.left B.answers B.asks
            row.now self.old brake.old steps.old self.new brake.new steps.new) }
        ensures denied { OnErr result (LeadsToDenial W.meaning W.lawful B.denials B.left B.answers
            B.asks row.now self.old brake.old steps.old self.new brake.new steps.new) }
        ensures falls { OnOk result
            (steps_left W.meaning self.new ≤ steps_left W.meaning self.old) }
    {
        while let Place::StoreScript(at) = self.machine.place() {
            self.turn(Place::StoreScript(at), row, brake, steps)?;
        }
        let Place::StoreAnnouncement = self.machine.place() else {
            return Ok(());
        };
        self.turn(Place::StoreAnnouncement, row, brake, steps)?;
        let Place::LoadCurrent = self.machine.place() else {
            return Ok(());
        };
        self.turn(Place::LoadCurrent, row, brake, steps)
    }

    /// Loads what a round looks at before its scan.
    #[inline(always)]
    fn enter<L: Ledger, B: Brake>(
        &mut self,
        row: &Row<W>,
        brake: &mut B,
        steps: &mut Steps<L>,
    ) -> Result<(), Stopped>
        requires caller { IsCaller W.meaning row.now self.old }
        ensures caller { IsCaller W.meaning row.now self.new }
        ensures goes { OnOk result (LeadsOn W.meaning W.lawful B.denials B.left B.answers B.asks
            row.now self.old brake.old steps.old self.new brake.new steps.new) }
        ensures denied { OnErr result (LeadsToDenial W.meaning W.lawful B.denials B.left B.answers
            B.asks row.now self.old brake.old steps.old self.new brake.new steps.new) }
        ensures falls { OnOk result
            (steps_left W.meaning self.new ≤ steps_left W.meaning self.old) }
    {
        let Place::LoadRequest = self.machine.place() else {
            return Ok(());
        };
        self.turn(Place::LoadRequest, row, brake, steps)?;
        if let Place::CopyLog(_) = self.machine.place() {
            // the transaction's own caller ends it soon: mostly there is nothing left to help with
            pause();
        }
        let Place::LoadOwnTicket = self.machine.place() else {
            return Ok(());
        };
        self.turn(Place::LoadOwnTicket, row, brake, steps)
    }

    /// Copies the log of an open transaction, and looks whether it is still open.
    #[inline(always)]
    fn copy<L: Ledger, B: Brake>(
        &mut self,
        at: u32,
        row: &Row<W>,
        brake: &mut B,
        steps: &mut Steps<L>,
    ) -> Result<(), Stopped>
        requires caller { IsCaller W.meaning row.now self.old }
        requires here { CopyLog at ≡ (caller_call self.old).place }
        ensures caller { IsCaller W.meaning row.now self.new }
        ensures goes { OnOk result (LeadsOn W.meaning W.lawful B.denials B.left B.answers B.asks
            row.now self.old brake.old steps.old self.new brake.new steps.new) }
        ensures denied { OnErr result (LeadsToDenial W.meaning W.lawful B.denials B.left B.answers
            B.asks row.now self.old brake.old steps.old self.new brake.new steps.new) }
        ensures falls { OnOk result
            (steps_left W.meaning self.new < steps_left W.meaning self.old) }
    {
        self.turn(Place::CopyLog(at), row, brake, steps)?;
        while let Place::CopyLog(at) = self.machine.place() {
            self.turn(Place::CopyLog(at), row, brake, steps)?;
        }
        let Place::LookAgain = self.machine.place() else {
            return Ok(());
        };
        self.turn(Place::LookAgain, row, brake, steps)
    }

    /// Loads the reply of a call that was run.
    #[inline(always)]
    fn load_reply<L: Ledger, B: Brake>(
        &mut self,
        row: &Row<W>,
        brake: &mut B,
        steps: &mut Steps<L>,
    ) -> Result<(), Stopped>
        requires caller { IsCaller W.meaning row.now self.old }
        requires here { Place.LoadShape ≡ (caller_call self.old).place }
        ensures caller { IsCaller W.meaning row.now self.new }
        ensures goes { OnOk result (LeadsOn W.meaning W.lawful B.denials B.left B.answers B.asks
            row.now self.old brake.old steps.old self.new brake.new steps.new) }
        ensures denied { OnErr result (LeadsToDenial W.meaning W.lawful B.denials B.left B.answers
            B.asks row.now self.old brake.old steps.old self.new brake.new steps.new) }
        ensures falls { OnOk result
            (steps_left W.meaning self.new < steps_left W.meaning self.old) }
    {
        self.turn(Place::LoadShape, row, brake, steps)?;
        while let Place::LoadReply(at) = self.machine.place() {
            self.turn(Place::LoadReply(at), row, brake, steps)?;
        }
        Ok(())
    }

    /// Looks at announcements up to one that is new, runs its call, and looks at those after it.
    #[inline(always)]
    fn scan<L: Ledger, B: Brake>(
        &mut self,
        row: &Row<W>,
        brake: &mut B,
        steps: &mut Steps<L>,
    ) -> Result<(), Stopped>
        requires caller { IsCaller W.meaning row.now self.old }
        ensures caller { IsCaller W.meaning row.now self.new }
        ensures goes { OnOk result (LeadsOn W.meaning W.lawful B.denials B.left B.answers B.asks
            row.now self.old brake.old steps.old self.new brake.new steps.new) }
        ensures denied { OnErr result (LeadsToDenial W.meaning W.lawful B.denials B.left B.answers
            B.asks row.now self.old brake.old steps.old self.new brake.new steps.new) }
        ensures falls { OnOk result
            (steps_left W.meaning self.new ≤ steps_left W.meaning self.old) }
    {
        while let Place::LoadAnnouncement = self.machine.place() {
            self.look(row, brake, steps)?;
        }
        while let Place::LoadScript(at) = self.machine.place() {
            self.turn(Place::LoadScript(at), row, brake, steps)?;
        }
        while let Place::LoadCell(addr) = self.machine.place() {
            self.turn(Place::LoadCell(addr), row, brake, steps)?;
        }
        while let Place::LoadAnnouncement = self.machine.place() {
            self.look(row, brake, steps)?;
        }
        Ok(())
    }

    /// Looks at the announcement of one caller.
    #[inline(always)]
    fn look<L: Ledger, B: Brake>(
        &mut self,
        row: &Row<W>,
        brake: &mut B,
        steps: &mut Steps<L>,
    ) -> Result<(), Stopped>
        requires caller { IsCaller W.meaning row.now self.old }
        requires here { Place.LoadAnnouncement ≡ (caller_call self.old).place }
        ensures caller { IsCaller W.meaning row.now self.new }
        ensures goes { OnOk result (LeadsOn W.meaning W.lawful B.denials B.left B.answers B.asks
            row.now self.old brake.old steps.old self.new brake.new steps.new) }
        ensures denied { OnErr result (LeadsToDenial W.meaning W.lawful B.denials B.left B.answers
            B.asks row.now self.old brake.old steps.old self.new brake.new steps.new) }
        ensures falls { OnOk result
            (steps_left W.meaning self.new < steps_left W.meaning self.old) }
    {
        self.turn(Place::LoadAnnouncement, row, brake, steps)?;
        let Place::LoadTicket = self.machine.place() else {
            return Ok(());
        };
        self.turn(Place::LoadTicket, row, brake, steps)
    }

    /// Stores the log and the request, commits, and begins to apply.
    #[inline(always)]
    fn commit<L: Ledger, B: Brake>(
        &mut self,
        row: &Row<W>,
        brake: &mut B,
        steps: &mut Steps<L>,
    ) -> Result<(), Stopped>
        requires caller { IsCaller W.meaning row.now self.old }
        ensures caller { IsCaller W.meaning row.now self.new }
        ensures goes { OnOk result (LeadsOn W.meaning W.lawful B.denials B.left B.answers B.asks
            row.now self.old brake.old steps.old self.new brake.new steps.new) }
        ensures denied { OnErr result (LeadsToDenial W.meaning W.lawful B.denials B.left B.answers
            B.asks row.now self.old brake.old steps.old self.new brake.new steps.new) }
        ensures falls { OnOk result
            (steps_left W.meaning self.new ≤ steps_left W.meaning self.old) }
    {
        let Place::RaiseOld = self.machine.place() else {
            return Ok(());
        };
        self.turn(Place::RaiseOld, row, brake, steps)?;
        self.store_log(row, brake, steps)?;
        let Place::StoreRequest = self.machine.place() else {
            return Ok(());
        };
        self.turn(Place::StoreRequest, row, brake, steps)?;
        let Place::RaiseRequest = self.machine.place() else {
            return Ok(());
        };
        self.turn(Place::RaiseRequest, row, brake, steps)?;
        let Place::ExchangeCurrent = self.machine.place() else {
            return Ok(());
        };
        self.turn(Place::ExchangeCurrent, row, brake, steps)?;
        if let Place::LoadCurrent = self.machine.place() {
            // the exchange was lost: another caller's transaction is open now
            pause();
        }
        let Place::RaiseCurrent = self.machine.place() else {
            return Ok(());
        };
        self.turn(Place::RaiseCurrent, row, brake, steps)
    }

    /// Applies the log, and closes the request.
    #[inline(always)]
    fn apply<L: Ledger, B: Brake>(
        &mut self,
        row: &Row<W>,
        brake: &mut B,
        steps: &mut Steps<L>,
    ) -> Result<(), Stopped>
        requires caller { IsCaller W.meaning row.now self.old }
        ensures caller { IsCaller W.meaning row.now self.new }
        ensures goes { OnOk result (LeadsOn W.meaning W.lawful B.denials B.left B.answers B.asks
            row.now self.old brake.old steps.old self.new brake.new steps.new) }
        ensures denied { OnErr result (LeadsToDenial W.meaning W.lawful B.denials B.left B.answers
            B.asks row.now self.old brake.old steps.old self.new brake.new steps.new) }
        ensures falls { OnOk result
            (steps_left W.meaning self.new ≤ steps_left W.meaning self.old) }
    {
        self.apply_log(row, brake, steps)?;
        let Place::CloseRequest = self.machine.place() else {
            return Ok(());
        };
        self.turn(Place::CloseRequest, row, brake, steps)?;
        let Place::RaiseClosed = self.machine.place() else {
            return Ok(());
        };
        self.turn(Place::RaiseClosed, row, brake, steps)
    }

    /// Tries a read.
    #[inline(always)]
    fn read<L: Ledger, B: Brake>(
        &mut self,
        op: &[u64],
        row: &Row<W>,
        brake: &mut B,
        steps: &mut Steps<L>,
    ) -> Result<(), Stopped>
        requires caller { IsCaller W.meaning row.now self.old }
        requires here { Place.TryCurrent ≡ (caller_call self.old).place }
        requires op { op.now ≡ (caller_call self.old).op }
        requires few { length op.now ≤ MOST_INSTRS }
        ensures caller { IsCaller W.meaning row.now self.new }
        ensures goes { OnOk result (LeadsOn W.meaning W.lawful B.denials B.left B.answers B.asks
            row.now self.old brake.old steps.old self.new brake.new steps.new) }
        ensures denied { OnErr result (LeadsToDenial W.meaning W.lawful B.denials B.left B.answers
            B.asks row.now self.old brake.old steps.old self.new brake.new steps.new) }
        ensures falls { OnOk result
            (steps_left W.meaning self.new < steps_left W.meaning self.old) }
    {
        self.turn(Place::TryCurrent, row, brake, steps)?;
        let Place::TryRequest = self.machine.place() else {
            return Ok(());
        };
        self.read_on(Place::TryRequest, op, row, brake, steps)
    }

    /// Makes a step of a try, and the run to which it leads, of the operation as it was given.
    #[inline(always)]
    fn read_on<L: Ledger, B: Brake>(
        &mut self,
        place: Place,
        op: &[u64],
        row: &Row<W>,
        brake: &mut B,
        steps: &mut Steps<L>,
    ) -> Result<(), Stopped>
        requires caller { IsCaller W.meaning row.now self.old }
        requires here { place ≡ (caller_call self.old).place }
        requires open { IsOpen place }
        requires reads { is_scanning place ≡ false }
        requires op { op.now ≡ (caller_call self.old).op }
        requires few { length op.now ≤ MOST_INSTRS }
        ensures caller { IsCaller W.meaning row.now self.new }
        ensures goes { OnOk result (LeadsOn W.meaning W.lawful B.denials B.left B.answers B.asks
            row.now self.old brake.old steps.old self.new brake.new steps.new) }
        ensures denied { OnErr result (LeadsToDenial W.meaning W.lawful B.denials B.left B.answers
            B.asks row.now self.old brake.old steps.old self.new brake.new steps.new) }
        ensures falls { OnOk result
            (steps_left W.meaning self.new < steps_left W.meaning self.old) }
    {
        match self.turn_owing(place, row, brake, steps)? {
            Some(_) => self.run_on_cells::<L, B, OfTry>(op, row, brake, steps),
            None => Ok(()),
        }
    }
}
