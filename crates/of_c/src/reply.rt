//! A reply as C reads it.

ghost use Rattle.std.specs.Prelude.{◌≡◌, ◌==◌, ◌%◌};
ghost use Rattle.std.specs.Bool.{then_some};
ghost use Rattle.of_eval.specs.Reading.{marked_in};
ghost use Rattle.of_c.specs.Replies.{given_flag, given_number, cause_number, ShowsEach, ShowsAbort};

use of_eval::{reply_abort, reply_len, reply_marks};
use of_memory::{Abort, Cause, RawAnswer, Reply};
use of_script::MOST_INSTRS;

/// A reply as C reads it.
#[repr(C)]
#[derive(Drop)]
pub struct CReply {
    /// The sequence at which the call took effect.
    pub seq: u32,
    /// 1 if the call was announced, 0 if it was answered as a read.
    pub announced: u32,
    /// How many instructions the script has.
    pub len: u32,
    /// The instruction that aborted, from 0, if `cause` is not 0.
    pub place: u32,
    /// Why the script aborted; 0 if it did not.
    pub cause: u32,
    /// In the reply to a caller's last saved call, the ticket of that call; in an answer, 0.
    pub ticket: u32,
    /// How many steps the call made; if it was stopped, how often it asked for a step.
    pub steps: u64,
    /// 1 at the place of each instruction that answered a number, 0 at the others.
    pub given: [u32; MOST_INSTRS],
    /// The number that each instruction answered, 0 if it answered none.
    pub values: [u32; MOST_INSTRS],
}

// 1 for a number, 0 for none.
fn flag_of(value: Option<u32>) -> u32
    ensures { result ≡ given_flag value }
{
    match value {
        Some(_) => 1,
        None => 0,
    }
}

// The number; 0 for none.
fn number_of(value: Option<u32>) -> u32
    ensures { result ≡ given_number value }
{
    match value {
        Some(number) => number,
        None => 0,
    }
}

// Writes which values are numbers, and the numbers.
#[inline(always)]
fn write_values(
    values: &[Option<u32>; MOST_INSTRS],
    given: &mut [u32; MOST_INSTRS],
    numbers: &mut [u32; MOST_INSTRS],
)
    ensures given { ShowsEach given_flag values.now given.new }
    ensures numbers { ShowsEach given_number values.now numbers.new }
{
    for place in 0..MOST_INSTRS {
        given[place] = flag_of(values[place]);
        numbers[place] = number_of(values[place]);
    }
}

// The number in a cell if the lowest bit of the marks is 1; 0 if not.
fn marked_number(marks: u32, cell: u32) -> u32
    ensures { result ≡ given_number (then_some (marks % 2 == 1) cell) }
{
    if marks % 2 == 1 { cell } else { 0 }
}

// Writes which cells are marked, and their numbers. The lowest bit is the mark of the first cell.
#[inline(always)]
fn write_marked(
    marks: u32,
    cells: &[u32; MOST_INSTRS],
    given: &mut [u32; MOST_INSTRS],
    numbers: &mut [u32; MOST_INSTRS],
)
    ensures given { ShowsEach given_flag (marked_in marks cells.now) given.new }
    ensures numbers { ShowsEach given_number (marked_in marks cells.now) numbers.new }
{
    let mut rest = marks;
    for place in 0..MOST_INSTRS {
        given[place] = rest % 2;
        numbers[place] = marked_number(rest, cells[place]);
        rest /= 2;
    }
}

// The number of a cause.
fn number_of_cause(cause: Cause) -> u32
    ensures { result ≡ cause_number cause }
{
    match cause {
        Cause::Overflow => 1,
        Cause::Short => 2,
        Cause::NoRoom => 3,
        Cause::Differs => 4,
        Cause::BadOp => 5,
    }
}

// The place and the number of the cause of an abort; 0 and 0 for none.
#[inline(always)]
fn numbers_of_abort(abort: Option<Abort>) -> (u32, u32)
    ensures { ShowsAbort abort result.0 result.1 }
{
    match abort {
        Some(Abort { place, cause }) => (u32::from(place), number_of_cause(cause)),
        None => (0, 0),
    }
}

impl CReply {
    ghost use Rattle.of_plan.specs.declared.answer.Answer.{Answer as TheAnswer};
    ghost use Rattle.of_memory.specs.Called.{TellsRaw};
    ghost use Rattle.of_c.specs.Replies.{ShowsReply, ShowsAnswer, LeavesSeqAndSteps};

    /// Writes what a script answered.
    #[inline(always)]
    pub(crate) fn show(&mut self, reply: &Reply)
        ensures shows { ShowsReply reply.now self.new }
        ensures stays { LeavesSeqAndSteps self.old self.new }
    {
        self.len = u32::from(reply.len);
        write_values(&reply.values, &mut self.given, &mut self.values);
        let (place, cause) = numbers_of_abort(reply.abort);
        self.place = place;
        self.cause = cause;
    }

    /// Writes the answer of a call, whose reply is as cells hold it: a shape, and a number for each
    /// mark.
    #[inline(always)]
    pub(crate) fn tell_raw(&mut self, answer: &RawAnswer)
        ensures { (a : TheAnswer) → TellsRaw answer.now a → ShowsAnswer a self.new }
    {
        let raw = &answer.raw;
        self.len = reply_len(raw);
        write_marked(
            reply_marks(raw),
            &raw.values,
            &mut self.given,
            &mut self.values,
        );
        let (place, cause) = numbers_of_abort(reply_abort(raw));
        self.place = place;
        self.cause = cause;
        self.seq = answer.seq;
        self.announced = u32::from(answer.announced);
        self.ticket = 0;
        self.steps = answer.steps;
    }
}
