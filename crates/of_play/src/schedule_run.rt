//! A plan's schedule, run step by step on a bank.

ghost use Rattle.std.specs.Prelude.{◌≡◌, IfOk};
ghost use Rattle.of_plan.specs.Plan.{IsPlan};
ghost use Rattle.of_play.specs.Play.{IsPlayed};

use of_caller::laws::{plan_keeps_laws, runs_are_lawful};
use of_core::{Bank, Outcome, Turn};
use of_eval::{Scripts, reply_of};
use of_plan::{Answer, Ended, Ending, Item, Plan};
use of_script::{MOST_INSTRS, to_words};
use std::alloc::{AllocError, Global};

mod trace_run;

pub use trace_run::{ALL_EVENTS, commits, trace};

/// The run of a plan's schedule so far.
#[derive(Drop)]
struct ScheduleRun {
    bank: Bank<Scripts>,
    answers: Vec<Vec<Answer>>,
}

impl ScheduleRun {
    ghost use Rattle.std.specs.Prelude.{◌≡◌, ◌<◌, [], ◌∷◌, length, IfOk, OnOk, IsTrue};
    ghost use Rattle.of_plan.specs.Plan.{IsPlan, IsScheduleItem, scripts_of};
    ghost use Rattle.of_core.specs.Events.{Turns};
    ghost use Rattle.of_play.specs.Play.{turns_by, item_events};
    ghost use Rattle.of_caller.specs.Ends.{is_spent};
    ghost use Rattle.of_play.specs.ScheduleRun.{StandsAfter, IsPlaying, MakesMoves, MakesTurnsInRow, BeginsNext, IsPlayedOutcome, IsReplied, NotesTurn, NotesEnd, CallerEndsAs, RunLeaves};
    ghost use Rattle.of_core.specs.Moment.{machine_of};
    ghost use Rattle.of_core.specs.MachineValue.{ended_outcome};

    /// The run before the first step.
    fn new(alloc: Global, plan: &Plan) -> Result<Self, AllocError>
        ensures plan { IsPlan plan.now }
        ensures stands { IfOk result (StandsAfter plan.now []) }
    {
        let scripts = Scripts::of_plan(plan);
        let bank = Bank::new(alloc, plan.shape(), plan.limit(), scripts)?;
        let mut answers = Vec::new(alloc);
        for caller in 0..plan.callers() {
            // room for all, so that no list is copied while it grows
            answers.push(Vec::with_capacity(alloc, plan.scripts(caller).len())?)?;
        }
        Ok(ScheduleRun { bank, answers })
    }

    /// Whether a caller's last call was spent.
    fn is_spent(&self, caller: u32) -> bool
        requires { caller < self.now.bank.callers }
        ensures { result ≡ is_spent (ended_outcome (machine_of self.now.bank caller)) }
    {
        matches!(self.bank.answer(caller), Some(Outcome::Spent { .. }))
    }

    /// Begins a caller's next call if it has none open, isn't spent and has a script left.
    #[inline(always)]
    fn begin_next(&mut self, plan: &Plan, caller: u32)
        requires caller { caller < plan.now.callers }
        requires playing { IsPlaying plan.now self.old }
        ensures { BeginsNext plan.now caller self.old self.new }
    {
        plan_keeps_laws(plan);
        if !self.bank.is_idle(caller) {
            return;
        }
        if self.is_spent(caller) {
            return;
        }
        let scripts = plan.scripts(caller);
        let made = self.bank.made(caller) as usize;
        if made >= scripts.len() {
            return;
        }
        let mut words = [0; MOST_INSTRS];
        let count = to_words(&scripts[made], &mut words);
        self.bank.begin(caller, &words[..count as usize]);
    }

    /// Notes how the call of a caller has ended. A spent call has no answer.
    // out of line, so that the turn of an open call doesn't carry the reply's frame
    #[inline(never)]
    fn note_end(&mut self, caller: u32, outcome: Outcome) -> Result<(), AllocError>
        requires answers { caller < length self.old.answers.items }
        requires reply { IsPlayedOutcome outcome }
        ensures { OnOk result (NotesEnd caller outcome self.old self.new) }
    {
        match outcome {
            Outcome::Spent { .. } => Ok(()),
            // a play replaces no machine
            Outcome::Lost { .. } => unreachable!(),
            Outcome::Answered {
                seq,
                announced,
                raw,
                steps,
            } => {
                let Some(reply) = reply_of(&raw) else {
                    unreachable!()
                };
                self.answers[caller as usize].push(Answer {
                    seq,
                    announced,
                    reply,
                    steps,
                })?;
                Ok(())
            }
        }
    }

    /// Notes the outcome of a turn, if it has ended a call.
    #[inline(always)]
    fn note(&mut self, caller: u32, turn: Turn) -> Result<(), AllocError>
        requires answers { caller < length self.old.answers.items }
        requires reply { IsReplied turn }
        ensures { OnOk result (NotesTurn caller turn self.old self.new) }
    {
        match turn {
            Turn::Idle | Turn::Open => Ok(()),
            Turn::Ended(outcome) => self.note_end(caller, outcome),
        }
    }

    /// Makes a turn of a caller: the step of its open call, or of the next one, which it begins.
    fn turn(&mut self, plan: &Plan, caller: u32) -> Result<(), AllocError>
        requires caller { caller < plan.now.callers }
        requires playing { IsPlaying plan.now self.old }
        ensures { OnOk result (MakesMoves plan.now (Turns caller ∷ []) self.old self.new) }
    {
        plan_keeps_laws(plan);
        runs_are_lawful();
        self.begin_next(plan, caller);
        let turn = self.bank.turn(caller);
        self.note(caller, turn)
    }

    /// Whether a caller has no call open and begins no other, so that its turns change nothing.
    #[inline(always)]
    fn rests(&self, plan: &Plan, caller: u32) -> bool
        requires caller { caller < plan.now.callers }
        requires playing { IsPlaying plan.now self.now }
        ensures { IsTrue result → MakesMoves plan.now (Turns caller ∷ []) self.now self.now }
    {
        plan_keeps_laws(plan);
        if !self.bank.is_idle(caller) {
            return false;
        }
        if self.is_spent(caller) {
            return true;
        }
        self.bank.made(caller) as usize >= plan.scripts(caller).len()
    }

    /// Makes turns of a caller while its call is open, at most `most`, and notes how the call has
    /// ended. The answer is how many turns were made.
    #[inline(always)]
    fn turns_while_open(&mut self, plan: &Plan, caller: u32, most: u32) -> Result<u32, AllocError>
        requires caller { caller < plan.now.callers }
        requires playing { IsPlaying plan.now self.old }
        ensures { IfOk result (λ made.
            MakesTurnsInRow plan.now caller most made self.old self.new) }
    {
        plan_keeps_laws(plan);
        runs_are_lawful();
        let made = self.bank.turns(caller, most);
        if made > 0 {
            if let Some(outcome) = self.bank.answer(caller) {
                self.note_end(caller, outcome)?;
            }
        }
        Ok(made)
    }

    /// Makes `count` turns of a caller.
    fn turns(&mut self, plan: &Plan, caller: u32, count: u32) -> Result<(), AllocError>
        requires caller { caller < plan.now.callers }
        requires playing { IsPlaying plan.now self.old }
        ensures { OnOk result (MakesMoves plan.now (turns_by caller count) self.old self.new) }
    {
        let mut left = count;
        while left > 0 {
            left -= self.turns_while_open(plan, caller, left)?;
            if left > 0 {
                if self.rests(plan, caller) {
                    return Ok(());
                }
                self.turn(plan, caller)?;
                left -= 1;
            }
        }
        Ok(())
    }

    /// Makes the turns or the eviction of an item of the schedule.
    fn item(&mut self, plan: &Plan, item: Item) -> Result<(), AllocError>
        requires item { IsScheduleItem plan.now item }
        requires playing { IsPlaying plan.now self.old }
        ensures { OnOk result (MakesMoves plan.now (item_events item) self.old self.new) }
    {
        plan_keeps_laws(plan);
        match item {
            Item::Turns { caller, count } => self.turns(plan, caller, count),
            Item::Evict { cell } => {
                self.bank.evict(cell);
                Ok(())
            }
        }
    }

    /// How a caller ends, if the run ends now.
    fn ending(&self, plan: &Plan, caller: u32) -> Ending
        requires caller { caller < plan.now.callers }
        requires playing { IsPlaying plan.now self.now }
        ensures { CallerEndsAs plan.now caller self.now result }
    {
        plan_keeps_laws(plan);
        if self.answers[caller as usize].len() == plan.scripts(caller).len() {
            return Ending::Done;
        }
        let asked = self.bank.steps(caller) + 1;
        let Some(outcome) = self.bank.answer(caller) else {
            return Ending::Stopped { asked };
        };
        match outcome {
            Outcome::Spent { seq } => Ending::Spent { seq },
            Outcome::Answered { .. } | Outcome::Lost { .. } => Ending::Stopped { asked },
        }
    }

    /// What the run leaves.
    fn end(self, alloc: Global, plan: &Plan) -> Result<Ended, AllocError>
        requires { IsPlaying plan.now self }
        ensures { IfOk result (λ ended. RunLeaves plan.now self ended) }
    {
        let mut endings = Vec::new(alloc);
        for caller in 0..plan.callers() {
            endings.push(self.ending(plan, caller))?;
        }
        Ok(Ended {
            answers: self.answers,
            endings,
            words: self.bank.words(),
        })
    }
}

/// Runs a plan's schedule step by step on a bank. At each turn of a caller its open call makes a
/// step; if none is open, the caller first begins a call of its next script. A caller that is done
/// or spent makes no step.
pub fn play(alloc: Global, plan: &Plan) -> Result<Ended, AllocError>
    ensures plan { IsPlan plan.now }
    ensures played { IfOk result (λ ended. IsPlayed plan.now ended) }
{
    let mut playing = ScheduleRun::new(alloc, plan)?;
    for item in plan.schedule() {
        playing.item(plan, *item)?;
    }
    playing.end(alloc, plan)
}
