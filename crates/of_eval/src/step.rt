//! One instruction over cells.

ghost use Rattle.std.specs.Prelude.{◌≡◌, ℕ, IfSome, nat_lt, true};
ghost use Rattle.of_mem.specs.Calls.{HasStore};
ghost use Rattle.of_mem.specs.OnDemand.{MayRun, RunsOn, HasOnlyRead};
ghost use Rattle.of_mem.specs.Programs.{Done};
ghost use Rattle.of_script.specs.Language.{IsInstrInRange, reads_only};
ghost use Rattle.of_script.specs.declared.instr.Instr.TheVariants.{Load, Store, Add, Sub, Get, Put as PutAt, Del, Need as Needs, Push, Pop, Len, Count, First, Next, DropBelow};
ghost use Rattle.of_store.specs.declared.store.TheConstants.{MOST_ORDERED_BLOCKS};
ghost use Rattle.of_eval.specs.ScriptPrograms.{need_answers};
ghost use Rattle.of_script.specs.Reading.{instr_at};
ghost use Rattle.of_eval.specs.Calls.{step, run_word};
ghost use Rattle.of_eval.specs.Scripts.{instr_reads};
ghost use Rattle.of_eval.specs.Resuming.{LooksFor};

use of_map::Put;
use of_mem::{Cells, Need, Plot};
use of_script::{Cause, GREATEST, Instr, from_word};
use of_store::MOST_ORDERED_BLOCKS;

/// The word of a `get` of key 0. Words below it stand for instructions on registers, if for any.
const FIRST_ON_KEYS: u64 = 80 << 31;

/// What an instruction answers: a number or none, or the cause for which the script aborts.
pub(crate) type InstrResult = Result<Option<u32>, Cause>;

/// Runs the instruction for which a word stands on cells that it asks for; a word that stands for
/// none aborts. An error names a cell that must be read and is not known.
pub(crate) fn run_word<C: Cells>(plot: &Plot, cells: &mut C, word: u64) -> Result<InstrResult, Need>
    requires { MayRun (run_word plot.now word) (HasStore plot.now) (C.run cells.old) }
    ensures { RunsOn (run_word plot.now word) (C.run cells.old) (C.run cells.new) result }
{
    match from_word(word) {
        None => Ok(Err(Cause::BadOp)),
        Some(instr) => step(plot, cells, instr),
    }
}

/// The same for an instruction that leaves every store as it is.
pub(crate) fn read_word<C: Cells>(
    plot: &Plot,
    cells: &mut C,
    word: u64,
) -> Result<InstrResult, Need>
    requires may { MayRun (run_word plot.now word) (HasStore plot.now) (C.run cells.old) }
    requires reads { instr_reads (instr_at word) ≡ true }
    ensures part { HasOnlyRead (C.run cells.old).part (C.run cells.new).part }
    ensures runs { RunsOn (run_word plot.now word) (C.run cells.old) (C.run cells.new) result }
{
    match from_word(word) {
        // such a word is not known to leave every store as it is
        None => unreachable!(),
        Some(instr) => read_step(plot, cells, instr),
    }
}

/// Whether a word stands for an instruction that leaves every store as it is.
pub(crate) fn word_reads(word: u64) -> bool
    ensures { result ≡ instr_reads (instr_at word) }
{
    match from_word(word) {
        None => false,
        Some(instr) => instr.reads_only(),
    }
}

/// The key for which the instruction of this word looks first, if it looks for a key first.
pub(crate) fn word_seeks(word: u64) -> Option<u32>
    ensures { IfSome result (λ key. (o blocks : ℕ) → LooksFor o blocks word key) }
{
    if word < FIRST_ON_KEYS {
        return None;
    }
    match from_word(word)? {
        Instr::Get { key } => Some(key),
        Instr::Put { key, .. } => Some(key),
        Instr::Del { key } => Some(key),
        Instr::Need { key, .. } => Some(key),
        _ => None,
    }
}

/// Runs one instruction on cells that it asks for.
fn step<C: Cells>(plot: &Plot, cells: &mut C, instr: Instr) -> Result<InstrResult, Need>
    requires may { MayRun (step plot.now instr) (HasStore plot.now) (C.run cells.old) }
    requires range { IsInstrInRange instr }
    ensures { RunsOn (step plot.now instr) (C.run cells.old) (C.run cells.new) result }
{
    match instr {
        Instr::Store { reg, value } => store(plot, cells, reg, value),
        Instr::Add { reg, value } => add(plot, cells, reg, value),
        Instr::Sub { reg, value } => sub(plot, cells, reg, value),
        Instr::Put { key, value } => put(plot, cells, key, value),
        Instr::Del { key } => del(plot, cells, key),
        Instr::Push { queue, value } => push(plot, cells, queue, value),
        Instr::Pop { queue } => pop(plot, cells, queue),
        Instr::DropBelow { key } => drop_below(plot, cells, key),
        _ => read_step(plot, cells, instr),
    }
}

/// Runs one instruction that leaves every store as it is.
fn read_step<C: Cells>(plot: &Plot, cells: &mut C, instr: Instr) -> Result<InstrResult, Need>
    requires may { MayRun (step plot.now instr) (HasStore plot.now) (C.run cells.old) }
    requires range { IsInstrInRange instr }
    requires reads { reads_only instr ≡ true }
    ensures part { HasOnlyRead (C.run cells.old).part (C.run cells.new).part }
    ensures runs { RunsOn (step plot.now instr) (C.run cells.old) (C.run cells.new) result }
{
    match instr {
        Instr::Load { reg } => load(plot, cells, reg),
        Instr::Get { key } => get(plot, cells, key),
        Instr::Need { key, value } => need(plot, cells, key, value),
        Instr::Len { queue } => len(plot, cells, queue),
        Instr::Count => count(plot, cells),
        Instr::First => first(plot, cells),
        Instr::Next { key } => next(plot, cells, key),
        // every other instruction may write
        _ => unreachable!(),
    }
}

/// Answers the number in a register.
fn load<C: Cells>(plot: &Plot, cells: &mut C, reg: u8) -> Result<InstrResult, Need>
    requires may { MayRun (step plot.now (Load reg)) (HasStore plot.now) (C.run cells.old) }
    requires range { IsInstrInRange (Load reg) }
    ensures part { HasOnlyRead (C.run cells.old).part (C.run cells.new).part }
    ensures runs { RunsOn (step plot.now (Load reg)) (C.run cells.old) (C.run cells.new) result }
{
    let value = cells.get(plot.register(u32::from(reg)))?;
    Ok(Ok(Some(value)))
}

/// Writes a register.
fn store<C: Cells>(plot: &Plot, cells: &mut C, reg: u8, value: u32) -> Result<InstrResult, Need>
    requires may { MayRun (step plot.now (Store reg value)) (HasStore plot.now) (C.run cells.old) }
    requires range { IsInstrInRange (Store reg value) }
    ensures { RunsOn (step plot.now (Store reg value)) (C.run cells.old) (C.run cells.new) result }
{
    cells.set(plot.register(u32::from(reg)), value);
    Ok(Ok(None))
}

/// Adds to a register.
fn add<C: Cells>(plot: &Plot, cells: &mut C, reg: u8, value: u32) -> Result<InstrResult, Need>
    requires may { MayRun (step plot.now (Add reg value)) (HasStore plot.now) (C.run cells.old) }
    requires range { IsInstrInRange (Add reg value) }
    ensures { RunsOn (step plot.now (Add reg value)) (C.run cells.old) (C.run cells.new) result }
{
    let cell = plot.register(u32::from(reg));
    let sum = cells.get(cell)? + value;
    if sum > GREATEST {
        return Ok(Err(Cause::Overflow));
    }
    cells.set(cell, sum);
    Ok(Ok(Some(sum)))
}

/// Takes off a register.
fn sub<C: Cells>(plot: &Plot, cells: &mut C, reg: u8, value: u32) -> Result<InstrResult, Need>
    requires may { MayRun (step plot.now (Sub reg value)) (HasStore plot.now) (C.run cells.old) }
    requires range { IsInstrInRange (Sub reg value) }
    ensures { RunsOn (step plot.now (Sub reg value)) (C.run cells.old) (C.run cells.new) result }
{
    let cell = plot.register(u32::from(reg));
    let before = cells.get(cell)?;
    if before < value {
        return Ok(Err(Cause::Short));
    }
    cells.set(cell, before - value);
    Ok(Ok(Some(before - value)))
}

/// Answers the value at a key.
fn get<C: Cells>(plot: &Plot, cells: &mut C, key: u32) -> Result<InstrResult, Need>
    requires may { MayRun (step plot.now (Get key)) (HasStore plot.now) (C.run cells.old) }
    ensures part { HasOnlyRead (C.run cells.old).part (C.run cells.new).part }
    ensures runs { RunsOn (step plot.now (Get key)) (C.run cells.old) (C.run cells.new) result }
{
    let value = of_map::get(plot, cells, key)?;
    Ok(Ok(value))
}

/// Puts a value at a key.
fn put<C: Cells>(plot: &Plot, cells: &mut C, key: u32, value: u32) -> Result<InstrResult, Need>
    requires may { MayRun (step plot.now (PutAt key value)) (HasStore plot.now) (C.run cells.old) }
    requires range { IsInstrInRange (PutAt key value) }
    ensures { RunsOn (step plot.now (PutAt key value)) (C.run cells.old) (C.run cells.new) result }
{
    match of_map::put(plot, cells, key, value)? {
        Put::Full => Ok(Err(Cause::NoRoom)),
        Put::New => Ok(Ok(None)),
        Put::Over(before) => Ok(Ok(Some(before))),
    }
}

/// Deletes a key.
fn del<C: Cells>(plot: &Plot, cells: &mut C, key: u32) -> Result<InstrResult, Need>
    requires may { MayRun (step plot.now (Del key)) (HasStore plot.now) (C.run cells.old) }
    ensures { RunsOn (step plot.now (Del key)) (C.run cells.old) (C.run cells.new) result }
{
    let value = of_map::del(plot, cells, key)?;
    Ok(Ok(value))
}

/// Aborts unless the value at a key is this one.
fn need<C: Cells>(plot: &Plot, cells: &mut C, key: u32, value: u32) -> Result<InstrResult, Need>
    requires may { MayRun (step plot.now (Needs key value)) (HasStore plot.now) (C.run cells.old) }
    ensures part { HasOnlyRead (C.run cells.old).part (C.run cells.new).part }
    ensures runs { RunsOn (step plot.now (Needs key value)) (C.run cells.old) (C.run cells.new)
        result }
{
    let found = of_map::get(plot, cells, key)?;
    Ok(compare(found, value))
}

/// Aborts unless the value that was found is this one.
fn compare(found: Option<u32>, value: u32) -> InstrResult
    ensures { need_answers value found ≡ Done result }
{
    if found == Some(value) {
        return Ok(None);
    }
    Err(Cause::Differs)
}

/// Puts an item at the end of a queue.
fn push<C: Cells>(plot: &Plot, cells: &mut C, queue: u8, value: u32) -> Result<InstrResult, Need>
    requires may { MayRun (step plot.now (Push queue value)) (HasStore plot.now) (C.run cells.old) }
    requires range { IsInstrInRange (Push queue value) }
    ensures { RunsOn (step plot.now (Push queue value)) (C.run cells.old) (C.run cells.new) result }
{
    if of_queue::push(plot, cells, u32::from(queue), value)? {
        return Ok(Ok(None));
    }
    Ok(Err(Cause::NoRoom))
}

/// Takes the front item of a queue.
fn pop<C: Cells>(plot: &Plot, cells: &mut C, queue: u8) -> Result<InstrResult, Need>
    requires may { MayRun (step plot.now (Pop queue)) (HasStore plot.now) (C.run cells.old) }
    requires range { IsInstrInRange (Pop queue) }
    ensures { RunsOn (step plot.now (Pop queue)) (C.run cells.old) (C.run cells.new) result }
{
    let item = of_queue::pop(plot, cells, u32::from(queue))?;
    Ok(Ok(item))
}

/// Answers the length of a queue.
fn len<C: Cells>(plot: &Plot, cells: &mut C, queue: u8) -> Result<InstrResult, Need>
    requires may { MayRun (step plot.now (Len queue)) (HasStore plot.now) (C.run cells.old) }
    requires range { IsInstrInRange (Len queue) }
    ensures part { HasOnlyRead (C.run cells.old).part (C.run cells.new).part }
    ensures runs { RunsOn (step plot.now (Len queue)) (C.run cells.old) (C.run cells.new) result }
{
    let items = of_queue::len(plot, cells, u32::from(queue))?;
    Ok(Ok(Some(items)))
}

/// Answers the number of keys.
fn count<C: Cells>(plot: &Plot, cells: &mut C) -> Result<InstrResult, Need>
    requires may { MayRun (step plot.now Count) (HasStore plot.now) (C.run cells.old) }
    ensures part { HasOnlyRead (C.run cells.old).part (C.run cells.new).part }
    ensures runs { RunsOn (step plot.now Count) (C.run cells.old) (C.run cells.new) result }
{
    let keys = of_map::count(plot, cells)?;
    Ok(Ok(Some(keys)))
}

// Whether there are more blocks than instructions on keys in their order run with.
fn is_large(plot: &Plot) -> bool
    ensures { result ≡ nat_lt MOST_ORDERED_BLOCKS plot.now.blocks }
{
    plot.blocks > MOST_ORDERED_BLOCKS
}

/// Answers the least key.
fn first<C: Cells>(plot: &Plot, cells: &mut C) -> Result<InstrResult, Need>
    requires may { MayRun (step plot.now First) (HasStore plot.now) (C.run cells.old) }
    ensures part { HasOnlyRead (C.run cells.old).part (C.run cells.new).part }
    ensures runs { RunsOn (step plot.now First) (C.run cells.old) (C.run cells.new) result }
{
    if is_large(plot) {
        return Ok(Err(Cause::BadOp));
    }
    let key = of_order::first(plot, cells)?;
    Ok(Ok(key))
}

/// Answers the least key above `key`.
fn next<C: Cells>(plot: &Plot, cells: &mut C, key: u32) -> Result<InstrResult, Need>
    requires may { MayRun (step plot.now (Next key)) (HasStore plot.now) (C.run cells.old) }
    ensures part { HasOnlyRead (C.run cells.old).part (C.run cells.new).part }
    ensures runs { RunsOn (step plot.now (Next key)) (C.run cells.old) (C.run cells.new) result }
{
    if is_large(plot) {
        return Ok(Err(Cause::BadOp));
    }
    let next = of_order::next(plot, cells, key)?;
    Ok(Ok(next))
}

/// Drops the keys below `key`.
fn drop_below<C: Cells>(plot: &Plot, cells: &mut C, key: u32) -> Result<InstrResult, Need>
    requires may { MayRun (step plot.now (DropBelow key)) (HasStore plot.now) (C.run cells.old) }
    ensures { RunsOn (step plot.now (DropBelow key)) (C.run cells.old) (C.run cells.new) result }
{
    if is_large(plot) {
        return Ok(Err(Cause::BadOp));
    }
    let dropped = of_order::drop_below(plot, cells, key)?;
    Ok(Ok(Some(dropped)))
}
