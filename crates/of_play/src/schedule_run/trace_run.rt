//! What a plan's schedule does, event by event, as a text: each event, or the commits alone.

ghost use Rattle.std.specs.Prelude.{◌≡◌, ◌<◌, ◌≤◌, ◌+◌, ◌^◌, IfOk};
ghost use Rattle.of_core.specs.Steps.{word_of};
ghost use Rattle.of_play.specs.Trace.{trace_text, commits_text};

use crate::commit_line::put_commit;
use crate::schedule_run::ScheduleRun;
use crate::trace_line::{TraceStep, put_evict, put_rest, put_step};
use crate::trace_text::Change;
use of_caller::laws::{plan_keeps_laws, runs_are_lawful};
use of_core::Op;
use of_plan::{Item, Plan};
use std::alloc::{AllocError, Global};

/// An event of a schedule.
#[derive(Clone, Copy)]
enum TraceEvent {
    /// A turn of a caller.
    Turn(u32),
    /// The eviction of a cell.
    Evict(u32),
}

/// What is written of the events.
#[derive(Clone, Copy)]
enum Form {
    /// A line for each event.
    Events,
    /// A line for each commit.
    Commits,
}

/// The word that a step is on.
fn word_of(op: Op) -> u32
    ensures { result ≡ word_of op }
{
    match op {
        Op::Load { word }
        | Op::Store { word, .. }
        | Op::Exchange { word, .. }
        | Op::Raise { word, .. } => word,
    }
}

impl ScheduleRun {
    ghost use Rattle.std.specs.Prelude.{◌≡◌, ◌<◌, ◌++◌, [], ◌∷◌, OnOk};
    ghost use Rattle.of_core.specs.Events.{Turns, Raises};
    ghost use Rattle.of_core.specs.Table.{cell_count};
    ghost use Rattle.of_caller.specs.Tables.{plan_setup};
    ghost use Rattle.of_caller.specs.Left.{moment_after};
    ghost use Rattle.of_play.specs.ScheduleRun.{StandsAfter, IsPlaying, MakesMoves};
    ghost use Rattle.of_play.specs.TraceRun.{event_of, IsEvent, WritesLine};
    ghost use Rattle.of_play.specs.declared.schedule_run.trace_run.Form.TheVariants.{Events, Commits};

    /// Makes a turn of a caller, and writes its line.
    fn trace_turn(
        &mut self,
        plan: &Plan,
        caller: u32,
        number: u32,
        text: &mut String,
    ) -> Result<(), AllocError>
        requires caller { caller < plan.now.callers }
        requires playing { IsPlaying plan.now self.old }
        ensures goes { OnOk result (MakesMoves plan.now (Turns caller ∷ []) self.old self.new) }
        ensures line { OnOk result
            (WritesLine Events plan.now number (Turns caller) self.old text.old text.new) }
    {
        plan_keeps_laws(plan);
        runs_are_lawful();
        self.begin_next(plan, caller);
        if self.bank.is_idle(caller) {
            self.turn(plan, caller)?;
            return put_rest(text, number, caller);
        }
        let index = self.bank.made(caller).saturating_sub(1);
        let place = self.bank.place(caller);
        let op = self.bank.want(caller);
        let helps = self.bank.helped(caller);
        let word = word_of(op);
        let found = self.bank.word(word);
        self.turn(plan, caller)?;
        let left = self.bank.word(word);
        let step = TraceStep {
            caller,
            index,
            place,
            op,
            helps,
            change: Change { word, found, left },
            outcome: self.bank.answer(caller),
        };
        put_step(text, plan, number, &step)
    }

    /// Makes an eviction, and writes its line.
    fn trace_evict(
        &mut self,
        plan: &Plan,
        cell: u32,
        number: u32,
        text: &mut String,
    ) -> Result<(), AllocError>
        requires cell { cell < cell_count (plan_setup plan.now) }
        requires playing { IsPlaying plan.now self.old }
        ensures goes { OnOk result (MakesMoves plan.now (Raises cell ∷ []) self.old self.new) }
        ensures line { OnOk result
            (WritesLine Events plan.now number (Raises cell) self.old text.old text.new) }
    {
        plan_keeps_laws(plan);
        let word = plan.shape().durable_word(cell);
        let found = self.bank.word(word);
        self.item(plan, Item::Evict { cell })?;
        let left = self.bank.word(word);
        put_evict(text, plan, number, &Change { word, found, left })
    }

    /// Makes an event.
    fn event(&mut self, plan: &Plan, event: TraceEvent) -> Result<(), AllocError>
        requires event { IsEvent plan.now event }
        requires playing { IsPlaying plan.now self.old }
        ensures { OnOk result (MakesMoves plan.now (event_of event ∷ []) self.old self.new) }
    {
        match event {
            TraceEvent::Turn(caller) => self.turn(plan, caller),
            TraceEvent::Evict(cell) => self.item(plan, Item::Evict { cell }),
        }
    }

    /// Makes a turn of a caller, and writes the line of what it commits.
    fn commit_turn(
        &mut self,
        plan: &Plan,
        caller: u32,
        number: u32,
        text: &mut String,
    ) -> Result<(), AllocError>
        requires caller { caller < plan.now.callers }
        requires playing { IsPlaying plan.now self.old }
        ensures goes { OnOk result (MakesMoves plan.now (Turns caller ∷ []) self.old self.new) }
        ensures line { OnOk result
            (WritesLine Commits plan.now number (Turns caller) self.old text.old text.new) }
    {
        plan_keeps_laws(plan);
        self.begin_next(plan, caller);
        if self.bank.is_idle(caller) {
            return self.turn(plan, caller);
        }
        let stands = self.bank.place(caller);
        let op = self.bank.want(caller);
        let found = self.bank.word(word_of(op));
        let calls = self.bank.calls(caller);
        put_commit(text, number, caller, stands, op, found, calls)?;
        self.turn(plan, caller)
    }

    /// Makes an eviction, which commits nothing.
    fn commit_evict(
        &mut self,
        plan: &Plan,
        cell: u32,
        number: u32,
        text: &mut String,
    ) -> Result<(), AllocError>
        requires cell { cell < cell_count (plan_setup plan.now) }
        requires playing { IsPlaying plan.now self.old }
        ensures goes { OnOk result (MakesMoves plan.now (Raises cell ∷ []) self.old self.new) }
        ensures line { OnOk result
            (WritesLine Commits plan.now number (Raises cell) self.old text.old text.new) }
    {
        self.event(plan, TraceEvent::Evict(cell))
    }

    /// Makes an event, and writes its line.
    fn line_event(
        &mut self,
        plan: &Plan,
        event: TraceEvent,
        number: u32,
        text: &mut String,
    ) -> Result<(), AllocError>
        requires event { IsEvent plan.now event }
        requires playing { IsPlaying plan.now self.old }
        ensures goes { OnOk result (MakesMoves plan.now (event_of event ∷ []) self.old self.new) }
        ensures line { OnOk result
            (WritesLine Events plan.now number (event_of event) self.old text.old text.new) }
    {
        match event {
            TraceEvent::Turn(caller) => self.trace_turn(plan, caller, number, text),
            TraceEvent::Evict(cell) => self.trace_evict(plan, cell, number, text),
        }
    }

    /// Makes an event, and writes the line of what it commits.
    fn commit_event(
        &mut self,
        plan: &Plan,
        event: TraceEvent,
        number: u32,
        text: &mut String,
    ) -> Result<(), AllocError>
        requires event { IsEvent plan.now event }
        requires playing { IsPlaying plan.now self.old }
        ensures goes { OnOk result (MakesMoves plan.now (event_of event ∷ []) self.old self.new) }
        ensures line { OnOk result
            (WritesLine Commits plan.now number (event_of event) self.old text.old text.new) }
    {
        match event {
            TraceEvent::Turn(caller) => self.commit_turn(plan, caller, number, text),
            TraceEvent::Evict(cell) => self.commit_evict(plan, cell, number, text),
        }
    }

    /// Makes an event, and writes what the form has of it.
    fn trace_event(
        &mut self,
        plan: &Plan,
        form: Form,
        event: TraceEvent,
        number: u32,
        text: &mut String,
    ) -> Result<(), AllocError>
        requires event { IsEvent plan.now event }
        requires playing { IsPlaying plan.now self.old }
        ensures goes { OnOk result (MakesMoves plan.now (event_of event ∷ []) self.old self.new) }
        ensures line { OnOk result
            (WritesLine form plan.now number (event_of event) self.old text.old text.new) }
    {
        match form {
            Form::Events => self.line_event(plan, event, number, text),
            Form::Commits => self.commit_event(plan, event, number, text),
        }
    }
}

/// A trace so far: the run, and the lines that were written.
#[derive(Drop)]
struct TraceRun {
    form: Form,
    playing: ScheduleRun,
    /// The number of the next event.
    number: u32,
    /// The number of the first event that is shown, and the number after that of the last one.
    first: u32,
    end: u32,
    text: String,
}

impl TraceRun {
    ghost use Rattle.std.specs.Prelude.{◌≡◌, ◌<◌, ◌≤◌, [], ◌∷◌, IfOk, OnOk};
    ghost use Rattle.of_plan.specs.Plan.{IsScheduleItem};
    ghost use Rattle.of_core.specs.Events.{Turns};
    ghost use Rattle.of_play.specs.Play.{turns_by, item_events};
    ghost use Rattle.of_play.specs.TraceRun.{event_of, IsEvent, IsTracing, TracesOn};

    /// Makes an event that comes before the first that is shown.
    fn pass(&mut self, plan: &Plan, event: TraceEvent) -> Result<(), AllocError>
        requires event { IsEvent plan.now event }
        requires tracing { IsTracing plan.now self.old }
        requires open { self.old.number < self.old.end }
        requires early { self.old.number < self.old.first }
        ensures { OnOk result (TracesOn plan.now (event_of event ∷ []) self.old self.new) }
    {
        self.playing.event(plan, event)?;
        self.number += 1;
        Ok(())
    }

    /// Makes an event, and shows it.
    fn show(&mut self, plan: &Plan, event: TraceEvent) -> Result<(), AllocError>
        requires event { IsEvent plan.now event }
        requires tracing { IsTracing plan.now self.old }
        requires open { self.old.number < self.old.end }
        requires late { self.old.first ≤ self.old.number }
        ensures { OnOk result (TracesOn plan.now (event_of event ∷ []) self.old self.new) }
    {
        self.playing
            .trace_event(plan, self.form, event, self.number, &mut self.text)?;
        self.number += 1;
        Ok(())
    }

    /// Makes an event. It does nothing if all that are to be shown were shown.
    fn event(&mut self, plan: &Plan, event: TraceEvent) -> Result<(), AllocError>
        requires event { IsEvent plan.now event }
        requires tracing { IsTracing plan.now self.old }
        ensures { OnOk result (TracesOn plan.now (event_of event ∷ []) self.old self.new) }
    {
        if self.number >= self.end {
            Ok(())
        } else if self.number < self.first {
            self.pass(plan, event)
        } else {
            self.show(plan, event)
        }
    }

    /// Makes `count` turns of a caller.
    fn turns(&mut self, plan: &Plan, caller: u32, count: u32) -> Result<(), AllocError>
        requires caller { caller < plan.now.callers }
        requires tracing { IsTracing plan.now self.old }
        ensures { OnOk result (TracesOn plan.now (turns_by caller count) self.old self.new) }
    {
        for _ in 0..count {
            self.event(plan, TraceEvent::Turn(caller))?;
        }
        Ok(())
    }

    /// Makes the events of an item of the schedule.
    fn item(&mut self, plan: &Plan, item: Item) -> Result<(), AllocError>
        requires item { IsScheduleItem plan.now item }
        requires tracing { IsTracing plan.now self.old }
        ensures { OnOk result (TracesOn plan.now (item_events item) self.old self.new) }
    {
        match item {
            Item::Turns { caller, count } => self.turns(plan, caller, count),
            Item::Evict { cell } => self.event(plan, TraceEvent::Evict(cell)),
        }
    }
}

/// A trace of a plan's schedule: a line for each of `count` events from event `first` on. The first
/// turn or eviction of the schedule is event 0.
pub fn trace(alloc: Global, plan: &Plan, first: u32, count: u32) -> Result<Vec<u8>, AllocError>
    requires { first + count < 2 ^ 32 }
    ensures { IfOk result (λ text. text.items ≡ trace_text plan.now first count) }
{
    let mut tracing = TraceRun {
        form: Form::Events,
        playing: ScheduleRun::new(alloc, plan)?,
        number: 0,
        first,
        end: first + count,
        text: String::new(alloc),
    };
    for item in plan.schedule() {
        tracing.item(plan, *item)?;
    }
    Ok(tracing.text.into_bytes())
}

/// A number of events: more than the schedule of a plan that was read from a text can have.
pub const ALL_EVENTS: u32 = u32::MAX;

/// The commits among the first `count` events of a plan's schedule: a line for each, with the
/// event, its caller, the sequence and the calls of the batch.
pub fn commits(alloc: Global, plan: &Plan, count: u32) -> Result<Vec<u8>, AllocError>
    ensures { IfOk result (λ text. text.items ≡ commits_text plan.now count) }
{
    let mut tracing = TraceRun {
        form: Form::Commits,
        playing: ScheduleRun::new(alloc, plan)?,
        number: 0,
        first: 0,
        end: count,
        text: String::new(alloc),
    };
    for item in plan.schedule() {
        tracing.item(plan, *item)?;
    }
    Ok(tracing.text.into_bytes())
}
