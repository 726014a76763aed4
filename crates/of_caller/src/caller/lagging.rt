//! The loops in which the machine lags: a step changes nothing of it but its place and its
//! count of steps, and both are written once, when the loop ends or when the brake denies a step.

ghost use Rattle.std.specs.Prelude.{◌≡◌, ◌+◌, ◌≤◌, IfOk, OnOk, OnErr};
ghost use Rattle.of_core.specs.Lagging.{after_lagging, log_word_place, entry_place, MayMake, MayLag};
ghost use Rattle.of_core.specs.declared.place.Place.TheVariants.{StoreLog, LoadTarget, ExchangeTarget};

use super::Caller;
use of_brake::{Brake, Steps};
use of_core::Place;
use of_mem::Work;
use of_row::{Row, Stopped};
use std::sync::ledger::Ledger;

impl<W: Work> Caller<W> {
    ghost use Rattle.of_caller.specs.Callers.{IsCaller};
    ghost use Rattle.of_caller.specs.Going.{LeadsOn, LeadsToDenial, GoesTo, IsDeniedAt};
    ghost use Rattle.of_caller.specs.Going.{with_machine, lagging_caller, steps_left};

    /// Makes one step of a call whose machine lags: the call has come to `place`, after `more`
    /// steps that the machine hasn't counted. The answer is the word that the step found. If the
    /// brake denies the step, the machine catches up.
    #[inline(always)]
    pub(super) fn turn_lagging<L: Ledger, B: Brake>(
        &mut self,
        place: Place,
        more: u64,
        row: &Row<W>,
        brake: &mut B,
        steps: &mut Steps<L>,
    ) -> Result<u64, Stopped>
        requires caller { IsCaller W.meaning row.now (lagging_caller self.old place more) }
        requires may { MayMake W.meaning self.old.machine place }
        requires lags { MayLag place }
        ensures machine { OnOk result (self.new.machine ≡ self.old.machine) }
        ensures goes { IfOk result (λ found. GoesTo W.meaning W.lawful B.denials B.left B.answers
            B.asks row.now (lagging_caller self.old place more) brake.old steps.old
            (with_machine self.new (after_lagging W.meaning self.old.machine place more found))
            brake.new steps.new) }
        ensures denied { OnErr result (IsDeniedAt W.meaning W.lawful B.denials B.left B.answers
            B.asks row.now (lagging_caller self.old place more) brake.old steps.old self.new
            brake.new steps.new) }
    {
        match row.step_lagging(place, more, &mut self.member, &self.machine, brake) {
            Ok(found) => {
                steps.tick();
                Ok(found)
            }
            Err(stopped) => {
                self.machine.go_to(place, more);
                Err(stopped)
            }
        }
    }

    /// Stores word `at` of the log, and raises its durable word.
    #[inline(always)]
    fn store_word<L: Ledger, B: Brake>(
        &mut self,
        at: u32,
        more: u64,
        row: &Row<W>,
        brake: &mut B,
        steps: &mut Steps<L>,
    ) -> Result<(), Stopped>
        requires caller { IsCaller W.meaning row.now (lagging_caller self.old (StoreLog at) more) }
        requires may { MayMake W.meaning self.old.machine (StoreLog at) }
        ensures machine { OnOk result (self.new.machine ≡ self.old.machine) }
        ensures goes { OnOk result (GoesTo W.meaning W.lawful B.denials B.left B.answers B.asks
            row.now (lagging_caller self.old (StoreLog at) more) brake.old steps.old
            (lagging_caller self.new (log_word_place self.old.machine.call (at + 1)) (more + 2))
            brake.new steps.new) }
        ensures denied { OnErr result (IsDeniedAt W.meaning W.lawful B.denials B.left B.answers
            B.asks row.now (lagging_caller self.old (StoreLog at) more) brake.old steps.old self.new
            brake.new steps.new) }
    {
        self.turn_lagging(Place::StoreLog(at), more, row, brake, steps)?;
        self.turn_lagging(Place::RaiseLog(at), more + 1, row, brake, steps)?;
        Ok(())
    }

    /// Stores the words of the log from the machine's place on, if the machine stores its log.
    #[inline(always)]
    pub(super) fn store_log<L: Ledger, B: Brake>(
        &mut self,
        row: &Row<W>,
        brake: &mut B,
        steps: &mut Steps<L>,
    ) -> Result<(), Stopped>
        requires caller { IsCaller W.meaning row.now self.old }
        ensures caller { IsCaller W.meaning row.now self.new }
        ensures goes { OnOk result (LeadsOn W.meaning W.lawful B.denials B.left B.answers B.asks
            row.now self.old brake.old steps.old self.new brake.new steps.new) }
        ensures denied { OnErr result (LeadsToDenial W.meaning W.lawful B.denials B.left B.answers
            B.asks row.now self.old brake.old steps.old self.new brake.new steps.new) }
        ensures falls { OnOk result
            (steps_left W.meaning self.new ≤ steps_left W.meaning self.old) }
    {
        let Place::StoreLog(first) = self.machine.place() else {
            return Ok(());
        };
        let words = self.machine.log_size(first);
        let mut more = 0;
        for at in first..words {
            self.store_word(at, more, row, brake, steps)?;
            more += 2;
        }
        self.machine.go_to(Place::StoreRequest, more);
        Ok(())
    }

    /// Exchanges the cell of an entry of the log, in which an older word was found, loads it again,
    /// and raises its durable word.
    #[inline(always)]
    fn exchange_entry<L: Ledger, B: Brake>(
        &mut self,
        entry: u32,
        found: u64,
        more: u64,
        row: &Row<W>,
        brake: &mut B,
        steps: &mut Steps<L>,
    ) -> Result<(), Stopped>
        requires caller { IsCaller W.meaning row.now
            (lagging_caller self.old (ExchangeTarget entry found) more) }
        requires may { MayMake W.meaning self.old.machine (LoadTarget entry) }
        ensures machine { OnOk result (self.new.machine ≡ self.old.machine) }
        ensures goes { OnOk result (GoesTo W.meaning W.lawful B.denials B.left B.answers B.asks
            row.now (lagging_caller self.old (ExchangeTarget entry found) more) brake.old steps.old
            (lagging_caller self.new (entry_place self.old.machine.call (entry + 1)) (more + 3))
            brake.new steps.new) }
        ensures denied { OnErr result (IsDeniedAt W.meaning W.lawful B.denials B.left B.answers
            B.asks row.now (lagging_caller self.old (ExchangeTarget entry found) more) brake.old
            steps.old self.new brake.new steps.new) }
    {
        self.turn_lagging(Place::ExchangeTarget(entry, found), more, row, brake, steps)?;
        let held = self.turn_lagging(Place::ReloadTarget(entry), more + 1, row, brake, steps)?;
        self.turn_lagging(Place::RaiseTarget(entry, held), more + 2, row, brake, steps)?;
        Ok(())
    }

    /// Applies an entry of the log. The answer is how many steps the machine hasn't counted then.
    #[inline(always)]
    fn bring<L: Ledger, B: Brake>(
        &mut self,
        entry: u32,
        more: u64,
        row: &Row<W>,
        brake: &mut B,
        steps: &mut Steps<L>,
    ) -> Result<u64, Stopped>
        requires caller { IsCaller W.meaning row.now
            (lagging_caller self.old (LoadTarget entry) more) }
        requires may { MayMake W.meaning self.old.machine (LoadTarget entry) }
        ensures machine { OnOk result (self.new.machine ≡ self.old.machine) }
        ensures goes { IfOk result (λ now. GoesTo W.meaning W.lawful B.denials B.left B.answers
            B.asks row.now (lagging_caller self.old (LoadTarget entry) more) brake.old steps.old
            (lagging_caller self.new (entry_place self.old.machine.call (entry + 1)) now)
            brake.new steps.new) }
        ensures denied { OnErr result (IsDeniedAt W.meaning W.lawful B.denials B.left B.answers
            B.asks row.now (lagging_caller self.old (LoadTarget entry) more) brake.old steps.old
            self.new brake.new steps.new) }
    {
        let found = self.turn_lagging(Place::LoadTarget(entry), more, row, brake, steps)?;
        if self.machine.is_older(found) {
            self.exchange_entry(entry, found, more + 1, row, brake, steps)?;
            return Ok(more + 4);
        }
        // another has brought the entry there
        self.turn_lagging(
            Place::RaiseTarget(entry, found),
            more + 1,
            row,
            brake,
            steps,
        )?;
        Ok(more + 2)
    }

    /// Applies the entries of the log from the machine's place on, if the machine has come to one.
    #[inline(always)]
    pub(super) fn apply_log<L: Ledger, B: Brake>(
        &mut self,
        row: &Row<W>,
        brake: &mut B,
        steps: &mut Steps<L>,
    ) -> Result<(), Stopped>
        requires caller { IsCaller W.meaning row.now self.old }
        ensures caller { IsCaller W.meaning row.now self.new }
        ensures goes { OnOk result (LeadsOn W.meaning W.lawful B.denials B.left B.answers B.asks
            row.now self.old brake.old steps.old self.new brake.new steps.new) }
        ensures denied { OnErr result (LeadsToDenial W.meaning W.lawful B.denials B.left B.answers
            B.asks row.now self.old brake.old steps.old self.new brake.new steps.new) }
        ensures falls { OnOk result
            (steps_left W.meaning self.new ≤ steps_left W.meaning self.old) }
    {
        let Place::LoadTarget(first) = self.machine.place() else {
            return Ok(());
        };
        let entries = self.machine.log_entries(first);
        let mut more = 0;
        for entry in first..entries {
            more = self.bring(entry, more, row, brake, steps)?;
        }
        self.machine.go_to(Place::CloseRequest, more);
        Ok(())
    }
}
