//! What a memory costs, by the number of its accounts. A memory is opened, handles come and go and
//! make transfers, and the memory is closed and opened again. After each part a line says how long
//! the part took. Then the program waits for a line of its input, so that its use of memory can be
//! looked at.

ghost use Rattle.std.specs.Prelude.{◌≡◌, ◌≤◌, IfOk};
ghost use Rattle.std.specs.List.{All};
ghost use Rattle.of_cells.specs.Handles.{IsCellHandle, home_of};
ghost use Rattle.of_cells.specs.Memories.{IsCellMemory};
ghost use Rattle.example_accounts.specs.Meaning.{accounts_meaning};
ghost use Rattle.example_accounts.specs.declared.meter.TheConstants.{AT_ONCE, MOST_ROUNDS};

use crate::accounts::{Accounts, MOST_ACCOUNTS};
use crate::transfer::Transfer;
use anyhow::{Result, ensure};
use of_cells::{CellHandle, CellMemory, GREATEST_LIMIT, RunError};
use std::alloc::Global;
use std::io;
use std::thread::{Threads, for_each_mut};
use std::time::{Clock, Duration, Instant};

/// How many callers the memory has.
const CALLERS: u32 = 16;

/// How often a handle is enrolled and leaves again.
const VISITS: u32 = 1_000;

/// How many callers make transfers at once.
const AT_ONCE: u32 = 4;

/// How many transfers a round has.
const ROUND: u32 = 4;

/// The most rounds.
const MOST_ROUNDS: u32 = 1_000_000;

// Tells how often a part was done and how long that took, and waits for a line.
fn tell<R: Print + Input>(
    rt: &R,
    alloc: Global,
    part: &str,
    count: u32,
    spent: Duration,
) -> io::Result<()> {
    println!(rt; "{part} {count} {}", spent.as_nanos())?;
    let mut line = String::new(alloc);
    rt.read_line(&mut line)?;
    Ok(())
}

// Takes a handle and lets it leave, again and again.
fn visit(rt: &impl Clock, memory: &mut CellMemory<Accounts>) -> Result<Duration>
    requires { IsCellMemory accounts_meaning memory.old }
    ensures { IsCellMemory accounts_meaning memory.new }
{
    let begun = Instant::now(rt)?;
    for _ in 0..VISITS {
        let handle = memory.enrol(0)?;
        handle.leave(memory);
    }
    Ok(begun.elapsed(rt)?)
}

// Moves 1 from an account to another.
fn pay(handle: &mut CellHandle<Accounts>, from: u32, to: u32) -> Result<(), RunError>
    requires { IsCellHandle accounts_meaning handle.old }
    ensures handle { IsCellHandle accounts_meaning handle.new }
    ensures home { home_of handle.new ≡ home_of handle.old }
{
    let amount = 1;
    let words = Transfer { from, to, amount }.words();
    handle.run(words.as_slice())?;
    Ok(())
}

// The first call of each handle but one, and how long these calls took together.
fn first_calls(rt: &impl Clock, memory: &mut CellMemory<Accounts>, last: u32) -> Result<Duration>
    requires { IsCellMemory accounts_meaning memory.old }
    ensures { IsCellMemory accounts_meaning memory.new }
{
    let mut spent = Duration::ZERO;
    for number in 1..memory.callers() {
        let mut handle = memory.enrol(number)?;
        let begun = Instant::now(rt)?;
        pay(&mut handle, 0, last)?;
        spent = spent.saturating_add(begun.elapsed(rt)?);
        handle.leave(memory);
    }
    Ok(spent)
}

// Moves 1 round the first two accounts and the last two, so many times.
fn go_round(handle: &mut CellHandle<Accounts>, last: u32, rounds: u32) -> Result<(), RunError>
    requires handle { IsCellHandle accounts_meaning handle.old }
    requires last { 1 ≤ last }
    ensures handle { IsCellHandle accounts_meaning handle.new }
    ensures home { home_of handle.new ≡ home_of handle.old }
{
    for _ in 0..rounds {
        pay(handle, 0, 1)?;
        pay(handle, 1, last - 1)?;
        pay(handle, last - 1, last)?;
        pay(handle, last, 0)?;
    }
    Ok(())
}

// Moves 1 from the first account to others that are far apart.
fn go_far(handle: &mut CellHandle<Accounts>, accounts: u32, calls: u32) -> Result<(), RunError>
    requires handle { IsCellHandle accounts_meaning handle.old }
    requires accounts { 1 ≤ accounts }
    ensures handle { IsCellHandle accounts_meaning handle.new }
    ensures home { home_of handle.new ≡ home_of handle.old }
{
    let mut number: u32 = 0;
    for _ in 0..calls {
        number = number.wrapping_mul(1_664_525).wrapping_add(1_013_904_223);
        pay(handle, 0, number % accounts)?;
    }
    Ok(())
}

// The transfers of a handle that is alone, round the same accounts and to others that are far
// apart, and how long each took. A call before them isn't timed.
fn alone(
    rt: &impl Clock,
    memory: &mut CellMemory<Accounts>,
    last: u32,
    rounds: u32,
) -> Result<(Duration, Duration)>
    requires memory { IsCellMemory accounts_meaning memory.old }
    requires last { 1 ≤ last }
    requires rounds { rounds ≤ MOST_ROUNDS }
    ensures { IsCellMemory accounts_meaning memory.new }
{
    let mut handle = memory.enrol(0)?;
    pay(&mut handle, 0, last)?;
    let begun = Instant::now(rt)?;
    go_round(&mut handle, last, rounds)?;
    let round = begun.elapsed(rt)?;
    let begun = Instant::now(rt)?;
    go_far(&mut handle, last, rounds * ROUND)?;
    let far = begun.elapsed(rt)?;
    handle.leave(memory);
    Ok((round, far))
}

// Handles that have each made a call.
fn seat(
    alloc: Global,
    memory: &mut CellMemory<Accounts>,
    last: u32,
) -> Result<Vec<CellHandle<Accounts>>>
    requires { IsCellMemory accounts_meaning memory.old }
    ensures memory { IsCellMemory accounts_meaning memory.new }
    ensures handles { IfOk result (λ hs. All (IsCellHandle accounts_meaning) hs.items) }
{
    let mut handles = Vec::new(alloc);
    for number in 0..AT_ONCE {
        let mut handle = memory.enrol(number)?;
        pay(&mut handle, 0, last)?;
        handles.push(handle)?;
    }
    Ok(handles)
}

// Handles go round the same accounts at once, each in a thread of its own if one can be made, and
// how long that took.
fn at_once<R: Threads + Clock + Sync>(
    rt: &R,
    handles: &mut [CellHandle<Accounts>],
    last: u32,
    rounds: u32,
) -> Result<Duration>
    requires handles { All (IsCellHandle accounts_meaning) handles.old }
    requires last { 1 ≤ last }
{
    let begun = Instant::now(rt)?;
    let threads = handles.len().max(1);
    for_each_mut(
        rt,
        handles,
        threads,
        &|_, handle: &mut CellHandle<Accounts>| {
            let _ = go_round(handle, last, rounds);
        },
    );
    Ok(begun.elapsed(rt)?)
}

// Goes through the parts of a memory's life, with so many rounds of transfers, and tells how long
// each took.
fn go_through<R: Threads + Clock + Print + Input + Sync>(
    rt: &R,
    alloc: Global,
    accounts: Accounts,
    rounds: u32,
) -> Result<()>
    requires accounts { 2 ≤ accounts.accounts }
    requires callers { AT_ONCE ≤ accounts.callers }
    requires rounds { rounds ≤ MOST_ROUNDS }
{
    let last = accounts.accounts - 1;
    let calls = rounds * ROUND;
    tell(rt, alloc, "words", accounts.shape().words(), Duration::ZERO)?;
    let begun = Instant::now(rt)?;
    let mut memory = CellMemory::open(alloc, accounts, GREATEST_LIMIT)?;
    tell(rt, alloc, "open", 1, begun.elapsed(rt)?)?;
    let spent = visit(rt, &mut memory)?;
    tell(rt, alloc, "visit", VISITS, spent)?;
    let spent = first_calls(rt, &mut memory, last)?;
    tell(rt, alloc, "first", accounts.callers - 1, spent)?;
    let (round, far) = alone(rt, &mut memory, last, rounds)?;
    tell(rt, alloc, "round", calls, round)?;
    tell(rt, alloc, "far", calls, far)?;
    let begun = Instant::now(rt)?;
    let saved = memory.close()?;
    tell(rt, alloc, "close", 1, begun.elapsed(rt)?)?;
    let begun = Instant::now(rt)?;
    let mut memory = CellMemory::reopen(alloc, &saved)?;
    tell(rt, alloc, "reopen", 1, begun.elapsed(rt)?)?;
    let mut handles = seat(alloc, &mut memory, last)?;
    let each = rounds / AT_ONCE + 1;
    let spent = at_once(rt, handles.as_mut_slice(), last, each)?;
    tell(rt, alloc, "at once", AT_ONCE * each * ROUND, spent)?;
    Ok(())
}

/// Opens, uses, closes and reopens a memory with this many accounts and sixteen callers, with this
/// many rounds of transfers, and prints how long each part took. An error may say that a word is no
/// number in its range.
pub fn measure<R: Threads + Clock + Print + Input + Sync>(
    rt: &R,
    alloc: Global,
    accounts: &str,
    rounds: &str,
) -> Result<()> {
    let accounts: u32 = accounts.parse()?;
    let rounds: u32 = rounds.parse()?;
    ensure!(
        (2..=MOST_ACCOUNTS).contains(&accounts),
        "2 to {MOST_ACCOUNTS} accounts"
    );
    ensure!(rounds <= MOST_ROUNDS, "at most {MOST_ROUNDS} rounds");
    let accounts = Accounts {
        callers: CALLERS,
        accounts,
        money: u32::MAX,
    };
    go_through(rt, alloc, accounts, rounds)
}
