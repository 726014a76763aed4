//! The plain bank: the words of a table, and a machine for each caller, whose steps come one after
//! the other.

ghost use Rattle.std.specs.Prelude.{◌≡◌, ◌<◌, ◌≤◌, ◌+◌, ◌*◌, [], ◌∷◌, length, IfOk, IsTrue, ◌↔◌};
ghost use Rattle.std.proofs.Common.{get_or};
ghost use Rattle.of_mem.specs.declared.work.TheConstants.{MOST_INSTRS};
ghost use Rattle.of_cell.specs.Words.{payload_of};
ghost use Rattle.of_cell.specs.Cells.{durable_cells};
ghost use Rattle.of_cell.specs.declared.word.TheConstants.{PAYLOADS};
ghost use Rattle.of_core.specs.Table.{cell_count, setup_on};
ghost use Rattle.of_core.specs.Events.{Begins, Turns, Raises, zero_start, idle_machines, start_ticket};
ghost use Rattle.of_core.specs.WordsMatch.{MayStart};
ghost use Rattle.of_core.specs.Starts.{IsStartRow, first_words, start_on};
ghost use Rattle.of_core.specs.Moment.{IsReached, RunSameWork, bank_after, bank_opening, call_states, machine_of, bank_setup, table_word_count};
ghost use Rattle.of_core.specs.Turn.{turn_of, turn_of_outcome, IsIdle, MakesTurns};

use crate::bank::own_steps::make_steps;
use crate::machine::Machine;
use crate::opening::first_words;
use crate::performer::OnWords;
use crate::place::Outcome;
use of_cell::{GREATEST_LIMIT, Shape, payload_of};
use of_mem::{MOST_INSTRS, Work};
use std::alloc::{AllocError, Global};
use std::marker::Model;
use std::snapshot::Snapshot;

mod inspect;
mod own_steps;

/// What a turn answers about its caller's call.
#[derive(Clone, Copy)]
pub enum Turn {
    /// The caller had no open call, and nothing was done.
    Idle,
    /// The call has made a step and is still open.
    Open,
    /// The call has made its last step and ended with this outcome.
    Ended(Outcome),
}

/// The words of a table, and a machine for each caller. Both are always what some schedule leaves
/// from the table's start.
#[derive(Drop)]
pub struct Bank<W: Work> {
    work: W,
    shape: Shape,
    limit: u32,
    /// The words that the table started with.
    first: Snapshot<Vec<u64>>,
    words: Vec<u64>,
    machines: Vec<Machine<W>>,
}

impl<W: Work> Model for Bank<W> {
    ghost use Rattle.of_core.specs.Moment.{Bank};

    ghost Value = { Bank W };

    ghost use Rattle.of_core.specs.Bank.{bank_value, IsBank};

    ghost view = { bank_value };

    ghost invariant = { IsBank W.many W.size W.meaning W.lawful };
}

/// What a turn says of a call that was open before the turn: ended if there is an answer, and still
/// open otherwise.
fn turn_of_answer(answer: Option<Outcome>) -> Turn
    ensures { result ≡ turn_of_outcome answer }
{
    match answer {
        Some(outcome) => Turn::Ended(outcome),
        None => Turn::Open,
    }
}

/// How many calls a caller has made before a start with these first words: the number in the
/// caller's ticket cell.
fn start_ticket(shape: &Shape, words: &[u64], caller: u32) -> u32
    requires caller { caller < shape.now.callers }
    requires own { shape.now.callers * (MOST_INSTRS + 2) ≤ shape.now.cells }
    requires row { durable_cells shape.now.callers shape.now.cells ≤ length words.now }
    ensures { let start = start_on shape.now words.now in
        result ≡ payload_of (get_or start.cells (caller * (MOST_INSTRS + 2)) 0) }
{
    let ticket = caller * (MOST_INSTRS as u32 + 2);
    payload_of(words[shape.data_cell(ticket) as usize])
}

/// An idle machine for each caller. It counts the calls that the caller has made by the first
/// words. The error is that there is no memory.
fn idle_machines<W: Work>(
    alloc: Global,
    shape: Shape,
    limit: u32,
    work: W,
    words: &[u64],
) -> Result<Vec<Machine<W>>, AllocError>
    requires callers { shape.callers ≡ W.many work }
    requires instrs { shape.instrs ≡ MOST_INSTRS }
    requires cells { shape.cells ≡ W.size work }
    requires limit { limit ≤ GREATEST_LIMIT }
    requires row { durable_cells shape.callers shape.cells ≤ length words.now }
    ensures each { IfOk result (λ ms. length ms.items ≡ shape.callers) }
    ensures alike { IfOk result (λ ms. RunSameWork work shape.callers shape.cells limit ms.items) }
    ensures idle { let S = setup_on shape limit (W.meaning work) in
        IfOk result (λ ms. call_states ms.items
        ≡ idle_machines S (start_ticket S (start_on shape words.now)) 0 shape.callers) }
{
    let mut machines = Vec::new(alloc);
    for caller in 0..shape.callers {
        let made = start_ticket(&shape, words, caller);
        let machine = Machine::new(alloc, shape, limit, caller, made, work)?;
        machines.push(machine)?;
    }
    Ok(machines)
}

impl<W: Work> Bank<W> {
    /// A bank of zeros, with an idle machine for each caller. `limit` is the last sequence that may
    /// be committed. The error is that there is no memory.
    pub fn new(alloc: Global, shape: Shape, limit: u32, work: W) -> Result<Self, AllocError>
        requires callers { shape.callers ≡ W.many work }
        requires instrs { shape.instrs ≡ MOST_INSTRS }
        requires cells { shape.cells ≡ W.size work }
        requires limit { limit ≤ GREATEST_LIMIT }
        ensures work { IfOk result (λ b. b.work ≡ work) }
        ensures callers { IfOk result (λ b. b.callers ≡ shape.callers) }
        ensures cells { IfOk result (λ b. b.cells ≡ shape.cells) }
        ensures limit { IfOk result (λ b. b.limit ≡ limit) }
        ensures start { IfOk result (λ b. b.start ≡ zero_start (bank_setup W.meaning b)) }
        ensures words { IfOk result (λ b. b.words
            ≡ (bank_opening W.meaning (zero_start (bank_setup W.meaning b)) b).words) }
        ensures machines { IfOk result (λ b. b.machines
            ≡ (bank_opening W.meaning (zero_start (bank_setup W.meaning b)) b).machines) }
        ensures idle { IfOk result (λ b. b.machines
            ≡ idle_machines (bank_setup W.meaning b) (λ i. 0) 0 b.callers) }
    {
        let words = vec![in alloc; 0; shape.words() as usize]?;
        let bank = Bank::over(alloc, shape, limit, work, words)?;
        Ok(bank)
    }

    /// A bank that starts from a durable row that recovery would not change. Each caller's machine
    /// is idle, and has the number of calls that the caller's ticket cell has in the row. `limit`
    /// is the last sequence that may be committed. The error is that there is no memory.
    pub fn start(
        alloc: Global,
        shape: Shape,
        limit: u32,
        work: W,
        durable: &[u64],
    ) -> Result<Self, AllocError>
        requires callers { shape.callers ≡ W.many work }
        requires instrs { shape.instrs ≡ MOST_INSTRS }
        requires cells { shape.cells ≡ W.size work }
        requires limit { limit ≤ GREATEST_LIMIT }
        requires row { IsStartRow (setup_on shape limit (W.meaning work)) (W.lawful work)
            durable.now }
        ensures work { IfOk result (λ b. b.work ≡ work) }
        ensures callers { IfOk result (λ b. b.callers ≡ shape.callers) }
        ensures cells { IfOk result (λ b. b.cells ≡ shape.cells) }
        ensures limit { IfOk result (λ b. b.limit ≡ limit) }
        ensures start { IfOk result (λ b. b.start ≡ start_on shape durable.now) }
        ensures words { IfOk result (λ b. b.words
            ≡ (bank_opening W.meaning (start_on shape durable.now) b).words) }
        ensures machines { IfOk result (λ b. b.machines
            ≡ (bank_opening W.meaning (start_on shape durable.now) b).machines) }
    {
        let words = first_words(alloc, &shape, durable)?;
        let bank = Bank::over(alloc, shape, limit, work, words)?;
        Ok(bank)
    }

    /// A bank whose table has these first words, with an idle machine for each caller. The error is
    /// that there is no memory.
    fn over(
        alloc: Global,
        shape: Shape,
        limit: u32,
        work: W,
        words: Vec<u64>,
    ) -> Result<Self, AllocError>
        requires callers { shape.callers ≡ W.many work }
        requires instrs { shape.instrs ≡ MOST_INSTRS }
        requires cells { shape.cells ≡ W.size work }
        requires limit { limit ≤ GREATEST_LIMIT }
        requires start { let S = setup_on shape limit (W.meaning work) in
            MayStart S (W.lawful work) (start_on shape words.items) }
        requires words { let S = setup_on shape limit (W.meaning work) in words.items
            ≡ first_words shape.callers shape.cells (start_on shape words.items)
            (table_word_count S) }
        ensures work { IfOk result (λ b. b.work ≡ work) }
        ensures callers { IfOk result (λ b. b.callers ≡ shape.callers) }
        ensures cells { IfOk result (λ b. b.cells ≡ shape.cells) }
        ensures limit { IfOk result (λ b. b.limit ≡ limit) }
        ensures start { IfOk result (λ b. b.start ≡ start_on shape words.items) }
        ensures words { IfOk result (λ b. b.words ≡ (bank_opening W.meaning b.start b).words) }
        ensures machines { IfOk result (λ b.
            b.machines ≡ (bank_opening W.meaning b.start b).machines) }
    {
        let machines = idle_machines(alloc, shape, limit, work, &words)?;
        Ok(Bank {
            work,
            shape,
            limit,
            first: Snapshot::of(&words),
            words,
            machines,
        })
    }

    /// Whether a caller has no open call.
    #[inline(always)]
    pub fn is_idle(&self, caller: u32) -> bool
        requires { caller < self.now.callers }
        ensures { IsTrue result ↔ IsIdle (machine_of self.now caller) }
    {
        self.machines[caller as usize].is_idle()
    }

    /// How many calls a caller has begun, including those before the start.
    pub fn made(&self, caller: u32) -> u32
        requires { caller < self.now.callers }
        ensures { result ≡ (machine_of self.now caller).made }
    {
        self.machines[caller as usize].made()
    }

    /// How many steps a caller's open call has made; 0 if none is open.
    pub fn steps(&self, caller: u32) -> u64
        requires { caller < self.now.callers }
        ensures { result ≡ (machine_of self.now caller).steps }
    {
        self.machines[caller as usize].steps()
    }

    /// Opens a call of a caller: the operation `op`, which has 1 to `MOST_INSTRS` words.
    pub fn begin(&mut self, caller: u32, op: &[u64])
        requires caller { caller < self.old.callers }
        requires idle { IsIdle (machine_of self.old caller) }
        requires some { 1 ≤ length op.now }
        requires few { length op.now ≤ MOST_INSTRS }
        requires made { (machine_of self.old caller).made + 1 < PAYLOADS }
        ensures { self.new ≡ bank_after W.meaning (Begins caller op.now ∷ []) self.old }
    {
        let machine = &mut self.machines[caller as usize];
        machine.begin(op);
    }

    /// Makes the next step of a caller's open call. If the caller has no open call, nothing
    /// changes.
    #[inline(always)]
    pub fn turn(&mut self, caller: u32) -> Turn
        requires { caller < self.old.callers }
        ensures after { self.new ≡ bank_after W.meaning (Turns caller ∷ []) self.old }
        ensures turn { result ≡ turn_of (machine_of self.old caller) (machine_of self.new caller) }
    {
        if self.is_idle(caller) {
            return Turn::Idle;
        }
        let machine = &mut self.machines[caller as usize];
        let place = machine.place();
        let found = machine.perform(place, &OnWords, &mut self.words);
        machine.take_at(place, found);
        turn_of_answer(machine.answer())
    }

    /// Makes up to `most` steps of a caller's open call; fewer if the call ends before. The result
    /// is how many steps were made.
    #[inline(always)]
    pub fn turns(&mut self, caller: u32, most: u32) -> u32
        requires { caller < self.old.callers }
        ensures few { result ≤ most }
        ensures turns { MakesTurns W.meaning caller result self.old self.new }
        ensures ended { result < most → IsIdle (machine_of self.new caller) }
    {
        let machine = &mut self.machines[caller as usize];
        make_steps(machine, &mut self.words, most)
    }

    /// Raises a cell's durable word to the word that the cell holds.
    pub fn evict(&mut self, cell: u32)
        requires { cell < cell_count (bank_setup W.meaning self.old) }
        ensures { self.new ≡ bank_after W.meaning (Raises cell ∷ []) self.old }
    {
        let durable = self.shape.durable_word(cell) as usize;
        self.words[durable] = self.words[durable].max(self.words[cell as usize]);
    }

    /// Does nothing. Its contract says that the words and machines are what some schedule leaves
    /// from the table's start.
    pub fn stands(&self)
        ensures { IsReached (bank_setup W.meaning self.now) (W.lawful self.now.work)
            self.now.start self.now.words self.now.machines }
    {
        // to read a field shows what the type keeps
        let _limit = self.limit;
    }

    /// Consumes the bank, and gives the words of its table.
    pub fn words(self) -> Vec<u64>
        ensures { result.items ≡ self.words }
    {
        self.words
    }
}
