//! What C does with a caller: calls of scripts.

ghost use Rattle.std.specs.Prelude.{◌≡◌, ◌≢◌, ◌↔◌, ◌∷◌, [], None, Some, Err};
ghost use Rattle.of_memory.specs.Called.{HasTyped, HoldsOfTyped};
ghost use Rattle.of_memory.specs.Calls.{IsScriptOperation, HoldsOfScript};
ghost use Rattle.of_script.specs.Text.{IsFault};
ghost use Rattle.of_c.specs.declared.codes.TheConstants.{CALL_OPEN, DONE, EMPTY};
ghost use Rattle.of_c.specs.declared.codes.TheConstants.{NO_CALL, NO_SCRIPT};
ghost use Rattle.of_c.specs.Calls.{step_limit, Tells, CallsScript, GoesOn, CallsHeld, CallsSlot};
ghost use Rattle.of_c.specs.Calls.{CallsWords, AreNoScript, CallsText, IsNoText};
ghost use Rattle.of_c.specs.Calls.{LeavesReply, ShowsPlaceAlone, HasSequencesLeft};
ghost use Rattle.of_c.specs.Causes.{IsOneCode, HoldsNo, IsNotCaller};

use crate::codes::{CALL_OPEN, DONE, EMPTY, NO_CALL, NO_SCRIPT, NO_TICKET, SPENT, STOPPED};
use crate::held::{Held, Seat};
use crate::reply::CReply;
use crate::slot::Slot;
use crate::truth::{OfHandle, surely};
use of_memory::{Handle, Instr, RawAnswer, RunError, Script, ScriptErr, parse};
use of_script::{MOST_INSTRS, from_words_into, to_words};
use std::alloc::Global;

// The stop that C gives as a number of steps; the greatest number means no stop.
fn limit_of(steps: u64) -> Option<u64>
    ensures { result ≡ step_limit steps }
{
    if steps == u64::MAX { None } else { Some(steps) }
}

// The code of a call that was not answered; the reply gets the rest. `open_code` is the code of a
// call that was refused because a call is open, or because none is.
#[inline(always)]
fn code_of_error(error: RunError, open_code: u32, reply: &mut CReply) -> u32
    ensures tells { Tells open_code (Err error) result reply.new }
    ensures stays { LeavesReply result reply.old reply.new }
{
    match error {
        RunError::Stopped { asked } => {
            reply.steps = asked;
            STOPPED
        }
        RunError::Spent { seq } => {
            reply.seq = seq;
            SPENT
        }
        RunError::InCall => open_code,
        RunError::NoCall => open_code,
        RunError::NoTicket => NO_TICKET,
    }
}

// The code of what a call has come to; the reply gets the rest. If this weren't inlined, the answer
// would be moved for it first.
#[inline(always)]
fn code_of_call(ended: &Result<RawAnswer, RunError>, open_code: u32, reply: &mut CReply) -> u32
    ensures tells { HoldsOfTyped ended.now (λ a. Tells open_code a result reply.new) }
    ensures stays { LeavesReply result reply.old reply.new }
{
    match ended {
        Ok(answer) => {
            reply.tell_raw(answer);
            DONE
        }
        Err(error) => code_of_error(*error, open_code, reply),
    }
}

impl Seat {
    // Runs the script that has these words, to its answer.
    fn run(&mut self, words: &[u64]) -> Result<RawAnswer, RunError>
        requires { IsScriptOperation words.now }
        ensures some { HasTyped result }
        ensures runs { HoldsOfTyped result (λ a. HoldsOfScript words.now
            (λ s. CallsScript s None self.old.handle a self.new.handle)) }
    {
        surely::<Handle, OfHandle>(&self.handle);
        self.handle.run_words(words)
    }

    // Runs the script that has these words, for at most this many steps.
    fn run_within(&mut self, words: &[u64], steps: u64) -> Result<RawAnswer, RunError>
        requires { IsScriptOperation words.now }
        ensures some { HasTyped result }
        ensures runs { HoldsOfTyped result (λ a. HoldsOfScript words.now
            (λ s. CallsScript s (Some steps) self.old.handle a self.new.handle)) }
    {
        surely::<Handle, OfHandle>(&self.handle);
        self.handle.run_words_within(words, steps)
    }

    // Goes on with the open call, for at most this many steps.
    fn go_on(&mut self, limit: Option<u64>) -> Result<RawAnswer, RunError>
        ensures some { HasTyped result }
        ensures runs { HoldsOfTyped result
            (λ a. GoesOn limit self.old.handle a self.new.handle) }
    {
        surely::<Handle, OfHandle>(&self.handle);
        match limit {
            Some(steps) => self.handle.go_on_words_within(steps),
            None => self.handle.go_on_words(),
        }
    }
}

// Runs the script that has these words, if a caller is held.
fn run_held(held: &mut Held, words: &[u64], limit: Option<u64>, reply: &mut CReply) -> u32
    requires { IsScriptOperation words.now }
    ensures runs { HoldsOfScript words.now (λ s. CallsHeld (CallsScript s limit) CALL_OPEN
        held.old held.new reply.new result) }
    ensures stays { LeavesReply result reply.old reply.new }
{
    match held {
        // Each arm hands on what its call answers, which spares moving it.
        Held::Caller(seat) => match limit {
            Some(steps) => code_of_call(&seat.run_within(words, steps), CALL_OPEN, reply),
            None => code_of_call(&seat.run(words), CALL_OPEN, reply),
        },
        _ => EMPTY,
    }
}

// Goes on with the open call, if a caller is held.
fn go_on_held(held: &mut Held, limit: Option<u64>, reply: &mut CReply) -> u32
    ensures runs { CallsHeld (GoesOn limit) NO_CALL held.old held.new reply.new result }
    ensures stays { LeavesReply result reply.old reply.new }
{
    match held {
        Held::Caller(seat) => code_of_call(&seat.go_on(limit), NO_CALL, reply),
        _ => EMPTY,
    }
}

// Runs the script that has these words, if the slot holds a caller.
fn run_in(
    alloc: Global,
    caller: &mut Slot,
    words: &[u64],
    limit: Option<u64>,
    reply: &mut CReply,
) -> u32
    requires { IsScriptOperation words.now }
    ensures runs { CallsWords words.now limit
        caller.old.raw.held caller.new.raw.held reply.new result }
    ensures stays { LeavesReply result reply.old reply.new }
{
    let Some(mut held) = caller.take(alloc) else {
        return EMPTY;
    };
    let code = run_held(&mut held, words, limit, reply);
    caller.put(held);
    code
}

/// Runs the script with these 1 to 16 words, for at most `steps` steps. If `steps` is the greatest
/// number, there is no limit.
#[unsafe(no_mangle)]
pub extern "C" fn of_c_call(
    alloc: Global,
    caller: &mut Slot,
    words: &[u64],
    steps: u64,
    reply: &mut CReply,
) -> u32
    ensures runs { CallsWords words.now (step_limit steps)
        caller.old.raw.held caller.new.raw.held reply.new result }
    ensures code { AreNoScript words.now → result ≡ NO_SCRIPT }
    ensures same { AreNoScript words.now → caller.new.raw.held ≡ caller.old.raw.held }
    ensures stays { LeavesReply result reply.old reply.new }
{
    let mut script = Script::one(Instr::Count);
    if !from_words_into(words, &mut script) {
        return NO_SCRIPT;
    }
    run_in(alloc, caller, words, limit_of(steps), reply)
}

/// Runs the script that a text spells, for at most `steps` steps. If the text spells none, the
/// reply's `place` is the number of the piece at fault.
#[unsafe(no_mangle)]
pub extern "C" fn of_c_call_text(
    alloc: Global,
    caller: &mut Slot,
    text: &[u8],
    steps: u64,
    reply: &mut CReply,
) -> u32
    ensures runs { CallsText text.now (step_limit steps)
        caller.old.raw.held caller.new.raw.held reply.new result }
    ensures code { IsNoText text.now → result ≡ NO_SCRIPT }
    ensures same { IsNoText text.now → caller.new.raw.held ≡ caller.old.raw.held }
    ensures place { IsNoText text.now → IsFault text.now reply.new.place }
    ensures stays { result ≢ NO_SCRIPT → LeavesReply result reply.old reply.new }
    ensures else_stays { IsNoText text.now → ShowsPlaceAlone reply.old reply.new }
{
    match parse(text) {
        Ok(script) => {
            let mut words = [0; MOST_INSTRS];
            let len = to_words(&script, &mut words) as usize;
            run_in(alloc, caller, &words[..len], limit_of(steps), reply)
        }
        Err(ScriptErr::Bad { at }) => {
            reply.place = at;
            NO_SCRIPT
        }
    }
}

/// Goes on with the open call, for at most `steps` steps.
#[unsafe(no_mangle)]
pub extern "C" fn of_c_go_on(
    alloc: Global,
    caller: &mut Slot,
    steps: u64,
    reply: &mut CReply,
) -> u32
    ensures runs { CallsSlot (GoesOn (step_limit steps)) NO_CALL
        caller.old.raw.held caller.new.raw.held reply.new result }
    ensures stays { LeavesReply result reply.old reply.new }
{
    let Some(mut held) = caller.take(alloc) else {
        return EMPTY;
    };
    let code = go_on_held(&mut held, limit_of(steps), reply);
    caller.put(held);
    code
}

fn left_held(held: &Held, left: &mut u32) -> u32
    ensures read { result ≡ DONE → HasSequencesLeft (Some held.now) left.new }
    ensures codes { IsOneCode (DONE ∷ EMPTY ∷ []) result }
    ensures empty { (result ≡ EMPTY) ↔ IsNotCaller held.now }
    ensures unread { result ≢ DONE → left.new ≡ left.old }
{
    match held {
        Held::Caller(seat) => {
            *left = seat.handle.sequences_left();
            DONE
        }
        _ => EMPTY,
    }
}

/// How many sequences are left at most: those after the last one that the caller knows.
#[unsafe(no_mangle)]
pub extern "C" fn of_c_sequences_left(alloc: Global, caller: &mut Slot, left: &mut u32) -> u32
    ensures read { result ≡ DONE → HasSequencesLeft caller.old.raw.held left.new }
    ensures codes { IsOneCode (DONE ∷ EMPTY ∷ []) result }
    ensures empty { (result ≡ EMPTY) ↔ HoldsNo IsNotCaller caller.old.raw.held }
    ensures same { caller.new.raw.held ≡ caller.old.raw.held }
    ensures unread { result ≢ DONE → left.new ≡ left.old }
{
    let Some(held) = caller.take(alloc) else {
        return EMPTY;
    };
    let code = left_held(&held, left);
    caller.put(held);
    code
}
