//! The names that a trace prints, and the text of what a step has done to a word.

ghost use Rattle.std.specs.Prelude.{◌≡◌, ◌<◌, OnOk};
ghost use Rattle.of_play.specs.TraceText.{step_text, cell_use_text, cell_name_text, word_text, pair_text, word_value_text, named_change, change_text};
ghost use Rattle.of_script.specs.Appending.{AppendsText};

use crate::names::{CellUse, ShownCell, ShownWord};
use of_cell::{payload_of, seq_of};
use of_core::Place;
use of_plan::Plan;
use std::alloc::AllocError;
use std::fmt::Write;

/// What a step or an eviction has done to a word of the table.
#[derive(Clone, Copy)]
pub struct Change {
    /// The index of the word in the table.
    pub word: u32,
    /// The value that was found in the word.
    pub found: u64,
    /// The value that was left in the word.
    pub left: u64,
}

/// The plain name of the step that comes next at a place.
pub fn step_name(place: Place) -> &'static str
    ensures { result.now ≡ step_text place }
{
    match place {
        Place::Idle => "nothing",
        Place::TryCurrent => "try current",
        Place::TryRequest => "try request",
        Place::TryCell(_) => "try cell",
        Place::StoreScript(_) => "store script",
        Place::StoreAnnouncement => "store announcement",
        Place::LoadCurrent => "load current",
        Place::LoadRequest => "load request",
        Place::CopyLog(_) => "copy log",
        Place::LookAgain => "look again",
        Place::LoadOwnTicket => "load own ticket",
        Place::LoadShape => "load shape",
        Place::LoadReply(_) => "load reply",
        Place::LoadAnnouncement => "load announcement",
        Place::LoadTicket => "load ticket",
        Place::LoadScript(_) => "load script",
        Place::LoadCell(_) => "load cell",
        Place::RaiseOld => "raise old",
        Place::StoreLog(_) => "store log",
        Place::RaiseLog(_) => "raise log",
        Place::StoreRequest => "store request",
        Place::RaiseRequest => "raise request",
        Place::ExchangeCurrent => "exchange current",
        Place::RaiseCurrent => "raise current",
        Place::LoadTarget(_) => "load target",
        Place::ExchangeTarget(_, _) => "exchange target",
        Place::ReloadTarget(_) => "reload target",
        Place::RaiseTarget(_, _) => "raise target",
        Place::CloseRequest => "close request",
        Place::RaiseClosed => "raise closed",
    }
}

/// Writes the name of what a data cell holds.
pub fn put_cell_use(out: &mut String, cell_use: CellUse) -> Result<(), AllocError>
    ensures { OnOk result (AppendsText out.old out.new (cell_use_text cell_use)) }
{
    match cell_use {
        CellUse::Ticket(caller) => write!(out, "ticket of {caller}"),
        CellUse::Shape(caller) => write!(out, "shape of {caller}"),
        CellUse::Reply { caller, at } => write!(out, "reply {at} of {caller}"),
        CellUse::Register(register) => write!(out, "register {register}"),
        CellUse::Taken => out.push_str("blocks taken"),
        CellUse::Free => out.push_str("free list"),
        CellUse::Keys => out.push_str("number of keys"),
        CellUse::Bucket(bucket) => write!(out, "bucket {bucket}"),
        CellUse::Front(queue) => write!(out, "front of queue {queue}"),
        CellUse::Back(queue) => write!(out, "back of queue {queue}"),
        CellUse::Length(queue) => write!(out, "length of queue {queue}"),
        CellUse::Block { block, field } => write!(out, "field {field} of block {block}"),
    }
}

// Writes the name of a cell of a plan's table.
fn put_cell(out: &mut String, plan: &Plan, cell: ShownCell) -> Result<(), AllocError>
    ensures { OnOk result (AppendsText out.old out.new (cell_name_text plan.now.callers cell)) }
{
    match cell {
        ShownCell::Current => out.push_str("current"),
        ShownCell::Request(caller) => write!(out, "request {caller}"),
        ShownCell::Data(addr) => {
            write!(out, "cell {} (", plan.callers() as u64 + 1 + addr as u64)?;
            put_cell_use(out, CellUse::at(&plan.plot(), addr))?;
            out.push_str(")")
        }
        ShownCell::Log { caller, at } => write!(out, "log {at} of {caller}"),
    }
}

// Writes the name of a word of a plan's table.
fn put_word(out: &mut String, plan: &Plan, word: ShownWord) -> Result<(), AllocError>
    ensures { OnOk result (AppendsText out.old out.new (word_text plan.now.callers word)) }
{
    match word {
        ShownWord::Now(cell) => put_cell(out, plan, cell),
        ShownWord::Durable(cell) => {
            out.push_str("durable ")?;
            put_cell(out, plan, cell)
        }
        ShownWord::Script { caller, at } => write!(out, "script word {at} of {caller}"),
        ShownWord::Announcement(caller) => write!(out, "announcement {caller}"),
        ShownWord::Members => out.push_str("members"),
    }
}

/// Writes a word as a pair: its sequence and its payload.
pub fn put_pair(out: &mut String, value: u64) -> Result<(), AllocError>
    ensures { OnOk result (AppendsText out.old out.new (pair_text value)) }
{
    let (seq, number) = (seq_of(value), payload_of(value));
    write!(out, "({seq},{number})")
}

// Writes what stands in a word.
fn put_value(out: &mut String, word: ShownWord, value: u64) -> Result<(), AllocError>
    ensures { OnOk result (AppendsText out.old out.new (word_value_text word value)) }
{
    match word {
        ShownWord::Script { .. } | ShownWord::Members => write!(out, "{value}"),
        ShownWord::Now(_) | ShownWord::Durable(_) | ShownWord::Announcement(_) => put_pair(
            out, value,
        ),
    }
}

/// Writes a word of a plan's table by its name, with what was found and what was left in it.
pub fn put_change(out: &mut String, plan: &Plan, change: &Change) -> Result<(), AllocError>
    ensures { OnOk result (AppendsText out.old out.new (change_text plan.now change.now)) }
{
    let word = ShownWord::at(&plan.shape(), change.word);
    put_word(out, plan, word)?;
    out.push_str(": ")?;
    put_value(out, word, change.found)?;
    out.push_str(" -> ")?;
    put_value(out, word, change.left)
}
