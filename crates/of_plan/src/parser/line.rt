//! One line of a plan.

ghost use Rattle.std.specs.Prelude.{◌≡◌};
ghost use Rattle.of_plan.specs.LineReading.{line_of_scriptless};
ghost use Rattle.of_plan.specs.LineTable as table;
ghost use Rattle.of_plan.specs.Checks as checks;

use crate::plan::{LATEST_STOP, MOST_PLAN_BLOCKS, MOST_PLAN_CALLERS, MOST_TURNS};
use of_cell::GREATEST_LIMIT;
use of_script::Script;

// The greatest number of a cell that a line may name, whatever the plan.
pub(crate) const GREATEST_CELL: u32 = 4_294_967_295;

// A line between the heading and the end.
#[derive(Clone, Copy, Debug)]
pub(crate) enum BodyLine {
    Script { caller: u32, script: Script },
    Stop { caller: u32, steps: u32 },
    Turns { caller: u32, count: u32 },
    Evict { cell: u32 },
}

// What a line says.
#[derive(Clone, Copy, Debug)]
pub(crate) enum PlanLine {
    Title,
    Callers { count: u32 },
    Blocks { count: u32 },
    Limit { most: u32 },
    Body { entry: BodyLine },
    End,
}

// A line without a script, as it is read. It is small, where a line has room for a script.
#[derive(Clone, Copy, Debug)]
pub(crate) enum ScriptlessLine {
    Title,
    Callers { count: u32 },
    Blocks { count: u32 },
    Limit { most: u32 },
    Stop { caller: u32, steps: u32 },
    Turns { caller: u32, count: u32 },
    Evict { cell: u32 },
    End,
}

// What a line with numbers alone says, without its numbers.
#[derive(Clone, Copy, Debug, PartialEq, Eq)]
pub(crate) enum LineForm {
    Callers,
    Blocks,
    Limit,
    Stop,
    Turns,
    Evict,
    End,
}

// The first word of a line of this form.
fn form_name(form: LineForm) -> &'static [u8]
    ensures { result.now ≡ table.form_name form }
{
    match form {
        LineForm::Callers => b"callers",
        LineForm::Blocks => b"blocks",
        LineForm::Limit => b"limit",
        LineForm::Stop => b"stop",
        LineForm::Turns => b"turns",
        LineForm::Evict => b"evict",
        LineForm::End => b"end",
    }
}

// The form whose name begins and ends with these bytes.
#[tactic(auto, unfolding(crate::specs::LineTable::line_form_between))]
fn form_between(first: u8, last: u8) -> Option<LineForm>
    ensures { result ≡ table.line_form_between first last }
{
    match (first, last) {
        (b'c', b's') => Some(LineForm::Callers),
        (b'b', b's') => Some(LineForm::Blocks),
        (b'l', b't') => Some(LineForm::Limit),
        (b's', b'p') => Some(LineForm::Stop),
        (b't', b's') => Some(LineForm::Turns),
        (b'e', b't') => Some(LineForm::Evict),
        (b'e', b'd') => Some(LineForm::End),
        _ => None,
    }
}

// The form with that name.
pub(crate) fn form_named(name: &[u8]) -> Option<LineForm>
    ensures { result ≡ table.line_form_named name.now }
{
    if name.is_empty() {
        return None;
    }
    let form = form_between(name[0], name[name.len() - 1])?;
    if name == form_name(form) {
        return Some(form);
    }
    None
}

// The most that its first number can be, and 0 if it has none.
fn first_most(form: LineForm) -> u32
    ensures { result ≡ table.line_first_most form }
{
    match form {
        LineForm::Callers => MOST_PLAN_CALLERS,
        LineForm::Blocks => MOST_PLAN_BLOCKS,
        LineForm::Limit => GREATEST_LIMIT,
        LineForm::Stop | LineForm::Turns => MOST_PLAN_CALLERS - 1,
        LineForm::Evict => GREATEST_CELL,
        LineForm::End => 0,
    }
}

// The most up to which its first number is read. That of a caller is read whatever callers the plan
// has, so that it can be said that it has no such caller.
pub(crate) fn first_read(form: LineForm) -> u32
    ensures { result ≡ checks.first_read form }
{
    match form {
        LineForm::Stop | LineForm::Turns => GREATEST_CELL,
        _ => first_most(form),
    }
}

pub(crate) fn second_most(form: LineForm) -> u32
    ensures { result ≡ table.line_second_most form }
{
    match form {
        LineForm::Stop => LATEST_STOP,
        LineForm::Turns => MOST_TURNS,
        _ => 0,
    }
}

pub(crate) fn with_numbers(form: LineForm, first: u32, second: u32) -> ScriptlessLine
    ensures { line_of_scriptless result ≡ table.line_with_numbers form first second }
{
    match form {
        LineForm::Callers => ScriptlessLine::Callers { count: first },
        LineForm::Blocks => ScriptlessLine::Blocks { count: first },
        LineForm::Limit => ScriptlessLine::Limit { most: first },
        LineForm::Stop => ScriptlessLine::Stop {
            caller: first,
            steps: second,
        },
        LineForm::Turns => ScriptlessLine::Turns {
            caller: first,
            count: second,
        },
        LineForm::Evict => ScriptlessLine::Evict { cell: first },
        LineForm::End => ScriptlessLine::End,
    }
}
