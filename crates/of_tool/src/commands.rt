//! The top call: does what the words of a command line say.

ghost use Rattle.std.specs.Prelude.{◌≡◌, ◌≤◌, ⊤, ℕ, IfOk, MatchResult, None, Some, vec_len, map};
ghost use Rattle.of_tool.specs.declared.command.Command.TheVariants.{Run, Load, Check, Continue};
ghost use Rattle.of_tool.specs.Commands.{word_bytes, IsLoad, IsInRange, IsPlain};
ghost use Rattle.of_tool.specs.Seen.{Change, bytes_change};
ghost use Rattle.of_tool.specs.Inputs.{PlanAlone, input_of, AskForInput, ReadsPlan};
ghost use Rattle.of_tool.specs.Refusals.{IsRefusedFor};
ghost use Rattle.of_tool.specs.Makes.{Makes};
ghost use Rattle.of_tool.specs.Statuses.{IsAnswer};
ghost use Rattle.of_tool.specs.Headline.{IsTopCall};
ghost use Rattle.of_tool.specs.Answer.{FailsBy, IsInputFor, MakesWith, Carries};

use crate::command::{Command, HELP, VERSION};
use crate::continue_life::continue_text;
use crate::cutting::part_text;
use crate::images::{migrated_text, play_image, recovered_text, renumbered_text};
use crate::input::{input_for, plan_in};
use crate::life_check::life_text;
use crate::refusal::{Failure, Output, Refusal};
use crate::run::run_report;
use crate::status;
use crate::usage::usage;
use of_brake::Brake;
use of_check::{Judgement, judge};
use of_io::{Sink, Source, write_all};
use of_plan::{Ended, Plan, generate, parts};
use of_play::{ALL_EVENTS, commits, play_report, trace};
use of_row::Pass;
use of_serial::serial;
use std::alloc::{AllocError, Global};
use std::thread::Threads;

/// The most bytes that a command reads if its input is only a plan.
pub const MOST_INPUT: usize = 1 << 20;

/// The most bytes that a command reads if its input has several parts: that of `check` is a plan
/// and a report, that of `continue` an image and a plan, that of `check-life` an image, a plan, a
/// report and an image, and that of `part` texts of any kind.
pub const MOST_WITH_REPORT: usize = 1 << 22;

/// The most bytes that a command reads if its input is only an image. The greatest image that
/// `image` prints has 62,304 lines of cells, of at most 33 bytes each, and 42 more bytes.
pub const MOST_IMAGE: usize = 1 << 22;

/// What callers that ran at once have left: the record of the run, and the pass that has seen it.
/// None if no callers ran at once.
pub type TeamRecord = Option<(Ended, Pass)>;

// The text that a command makes of a plan alone.
fn of_plan(alloc: Global, command: Command, plan: &Plan) -> Result<Vec<u8>, AllocError>
    requires plain { IsPlain command }
    requires range { IsInRange command }
    requires plan { input_of command ≡ Some PlanAlone }
    ensures { (source : Change) → ReadsPlan source plan.now
        → IfOk result (λ text. Makes command source text.items) }
{
    match command {
        Command::Serial => serial(alloc, plan)?.print(alloc),
        Command::Play => play_report(alloc, plan)?.print(alloc),
        Command::Trace { first, count } => trace(alloc, plan, first, count),
        Command::Commits => commits(alloc, plan, ALL_EVENTS),
        Command::Image => play_image(alloc, plan),
        _ => unreachable!(),
    }
}

// The text of a command that reads a plan alone and runs no callers at once.
fn plan_text(alloc: Global, command: Command, input: &[u8]) -> Result<Vec<u8>, Failure>
    requires plain { IsPlain command }
    requires range { IsInRange command }
    requires plan { input_of command ≡ Some PlanAlone }
    ensures { (source : Change) → IsInputFor command source input.now
        → MatchResult result (λ text. Makes command source text.items)
        (FailsBy (IsRefusedFor command source)) }
{
    let plan = plan_in(alloc, input)?;
    Ok(of_plan(alloc, command, &plan)?)
}

// The text of `check`.
fn check_text(alloc: Global, input: &[u8]) -> Result<Vec<u8>, Failure>
    ensures { (source : Change) → IsInputFor Check source input.now
        → MatchResult result (λ text. Makes Check source text.items)
        (FailsBy (IsRefusedFor Check source)) }
{
    let (first, second) = parts(input);
    let plan = plan_in(alloc, first)?;
    match judge(alloc, &plan, second)? {
        Judgement::Legal(_) => Ok(Vec::from_slice(alloc, b"legal report\n")?),
        Judgement::Illegal(cause) => Err(Failure::Refused {
            refusal: Refusal::Illegal,
            reason: cause.print(alloc, second).ok(),
        }),
    }
}

// The text of a command that runs no callers at once.
fn plain_text(alloc: Global, command: Command, input: &[u8]) -> Result<Vec<u8>, Failure>
    requires plain { IsPlain command }
    requires range { IsInRange command }
    ensures plain { IsPlain command }
    ensures made { (source : Change) → IsInputFor command source input.now
        → MatchResult result (λ text. Makes command source text.items)
        (FailsBy (IsRefusedFor command source)) }
{
    match command {
        Command::Check => check_text(alloc, input),
        Command::CheckLife => life_text(alloc, input),
        Command::Part { number } => part_text(alloc, input, number),
        Command::Recover => recovered_text(alloc, input),
        Command::Renumber => renumbered_text(alloc, input),
        Command::Migrate => migrated_text(alloc, input),
        Command::Help { .. } => Ok(Vec::from_slice(alloc, HELP.as_bytes())?),
        Command::Version => Ok(Vec::from_slice(alloc, VERSION.as_bytes())?),
        _ => plan_text(alloc, command, input),
    }
}

// The text of `run`, and what the run has left.
fn run_text<R: Threads + Sync>(
    rt: &R,
    alloc: Global,
    input: &[u8],
    brakes: Vec<Box<dyn Brake + Send>>,
) -> Result<(Vec<u8>, TeamRecord), Failure>
    requires { vec_len brakes ≡ 16 }
    ensures { (source : Change) → IsInputFor Run source input.now
        → MatchResult result
        (λ made. MakesWith (map (λ b. left b) brakes.items) Run source made.0.items made.1)
        (FailsBy (IsRefusedFor Run source)) }
{
    let plan = plan_in(alloc, input)?;
    let (report, ran) = run_report(rt, alloc, &plan, brakes)?;
    let text = report.print(alloc)?;
    Ok((text, Some(ran)))
}

// The text of `load`, and what the run has left.
fn load_text<R: Threads + Sync>(
    rt: &R,
    alloc: Global,
    callers: u32,
    scripts: u32,
    brakes: Vec<Box<dyn Brake + Send>>,
) -> Result<(Vec<u8>, TeamRecord), AllocError>
    requires load { IsLoad callers scripts }
    requires brakes { vec_len brakes ≡ 16 }
    ensures { (source : Change) → IfOk result
        (λ made. MakesWith (map (λ b. left b) brakes.items) (Load callers scripts) source
        made.0.items made.1) }
{
    let plan = generate(alloc, callers, scripts)?;
    let (report, ran) = run_report(rt, alloc, &plan, brakes)?;
    let text = report.load_print(alloc)?;
    Ok((text, Some(ran)))
}

// The text of a command, and what a run has left.
fn text_for<R: Threads + Sync>(
    rt: &R,
    alloc: Global,
    command: Command,
    input: &[u8],
    brakes: Vec<Box<dyn Brake + Send>>,
) -> Result<(Vec<u8>, TeamRecord), Failure>
    requires brakes { vec_len brakes ≡ 16 }
    requires range { IsInRange command }
    ensures { (source : Change) → IsInputFor command source input.now
        → MatchResult result
        (λ made. MakesWith (map (λ b. left b) brakes.items) command source made.0.items made.1)
        (FailsBy (IsRefusedFor command source)) }
{
    match command {
        Command::Run => run_text(rt, alloc, input, brakes),
        Command::Continue => continue_text(rt, alloc, input, brakes),
        Command::Load { callers, scripts } => {
            Ok(load_text(rt, alloc, callers, scripts, brakes)?)
        }
        _ => Ok((plain_text(alloc, command, input)?, None)),
    }
}

// What a command makes of what it reads, and what a run has left.
fn made_by<R: Threads + Sync, S: Source>(
    rt: &R,
    alloc: Global,
    command: Command,
    source: &mut S,
    brakes: Vec<Box<dyn Brake + Send>>,
) -> Result<(Vec<u8>, TeamRecord), Failure>
    requires brakes { vec_len brakes ≡ 16 }
    requires range { IsInRange command }
    ensures made { MatchResult result
        (λ made. MakesWith (map (λ b. left b) brakes.items) command
        (bytes_change S.remaining S.faults source.old source.new) made.0.items made.1)
        (FailsBy (IsRefusedFor command
        (bytes_change S.remaining S.faults source.old source.new))) }
    ensures unread { input_of command ≡ None → source.new ≡ source.old }
{
    let input = input_for(alloc, command, source)?;
    text_for(rt, alloc, command, &input, brakes)
}

// The status and the text, and what a run has left, before anything is written.
fn output_for<R: Threads + Sync, S: Source>(
    rt: &R,
    alloc: Global,
    words: &[String],
    source: &mut S,
    brakes: Vec<Box<dyn Brake + Send>>,
) -> Result<(Output, TeamRecord), AllocError>
    requires { vec_len brakes ≡ 16 }
    ensures answered { IfOk result (λ found. IsAnswer (word_bytes words.now)
        (bytes_change S.remaining S.faults source.old source.new)
        found.0.status found.0.text.items) }
    ensures carries { IfOk result (λ found. Carries (map (λ b. left b) brakes.items)
        (word_bytes words.now) (bytes_change S.remaining S.faults source.old source.new)
        found.0.status found.0.text.items found.1) }
    ensures unread { ¬ (AskForInput (word_bytes words.now)) → source.new ≡ source.old }
{
    let Some(command) = Command::from_words(words) else {
        let usage = Output {
            status: status::USAGE,
            text: Vec::from_slice(alloc, b"error: usage\n")?,
            reason: usage(alloc, words).ok(),
        };
        return Ok((usage, None));
    };
    match made_by(rt, alloc, command, source, brakes) {
        Ok((text, ran)) => {
            let done = Output {
                status: status::DONE,
                text,
                reason: None,
            };
            Ok((done, ran))
        }
        Err(failure) => Ok((failure.answer(alloc, command)?, None)),
    }
}

/// Runs the command that the words spell: reads the source, writes the text to the sink, and
/// answers the exit status. `run`, `load` and `continue` run callers at once, caller i with the
/// brake at place i, and put what the run has left into `ran`. If the words or the input are
/// refused, the reason is put into `reason`.
pub fn tool<R: Threads + Sync, S: Source, K: Sink>(
    rt: &R,
    alloc: Global,
    words: &[String],
    source: &mut S,
    sink: &mut K,
    brakes: Vec<Box<dyn Brake + Send>>,
    ran: &mut TeamRecord,
    reason: &mut Vec<u8>,
) -> u8
    requires brakes { vec_len brakes ≡ 16 }
    requires none { ran.old ≡ None }
    // THE HEADLINE, and all else that is proved of what the call was given, what it did and what it
    // answered.
    ensures answers { IsTopCall (record {
      words = word_bytes words.now;
      brakes = map (λ b. left b) brakes.items;
      source = bytes_change S.remaining S.faults source.old source.new;
      sink = bytes_change K.written K.faults sink.old sink.new;
      was_finished = K.finished sink.old;
      finished = K.finished sink.new;
      status = result;
      ran = ran.new;
    }) }
    // Only a command that reads a plan, a report or an image reads.
    ensures unread { ¬ (AskForInput (word_bytes words.now)) → source.new ≡ source.old }
{
    match output_for(rt, alloc, words, source, brakes) {
        Err(_) => status::OUT_OF_MEMORY,
        Ok((answer, found)) => match write_all(sink, &answer.text) {
            Ok(()) => {
                *ran = found;
                *reason = answer.reason.unwrap_or(Vec::new(alloc));
                answer.status
            }
            Err(_) => status::WRITE_FAULT,
        },
    }
}
