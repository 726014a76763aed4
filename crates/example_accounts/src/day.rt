//! Days: the tellers work at once, and in the evening the memory is closed. The next day goes on
//! from there.

ghost use Rattle.std.specs.Prelude.{◌≡◌, ◌≤◌, ◌<◌, ℕ, length, map, reverse, drop, slice_index_or};
ghost use Rattle.std.specs.Prelude.{IfOk};
ghost use Rattle.std.specs.List.{All};
ghost use Rattle.of_mem.specs.declared.work.TheConstants.{MOST_CALLERS};
ghost use Rattle.of_cells.specs.Memories.{IsCellMemory, IsStill, HasMadeNothing, callers_of};
ghost use Rattle.of_cells.specs.Memories.{work_of, cells_before, tickets_before};
ghost use Rattle.of_cells.specs.Saving.{saved_callers, saved_cells, saved_ticket, saved_work};
ghost use Rattle.example_accounts.specs.declared.teller.Teller.{Teller as TheTeller};
ghost use Rattle.example_accounts.specs.Meaning.{accounts_meaning};
ghost use Rattle.example_accounts.specs.Days.{Serves, HasWorked, AreSeated, AreLogged};
ghost use Rattle.example_accounts.specs.Days.{IsEvening, IsFirstEvening, IsNextEvening, AreLeft};
ghost use Rattle.example_accounts.specs.Days.{IsSavedBank, job_of, job_of_teller};

use crate::accounts::Accounts;
use crate::teller::{Answer, Teller};
use crate::transfer::Transfer;
use anyhow::Result;
use of_cells::{CellMemory, GREATEST_LIMIT, SavedCells};
use std::alloc::{AllocError, Global};
use std::thread::{Threads, for_each_mut};

/// The transfers that a teller has made.
#[derive(Drop)]
pub struct Log {
    /// The teller's number.
    pub number: u32,
    pub job: Vec<Transfer>,
    /// The teller's answers to the first transfers of its job, in the job's order.
    pub answers: Vec<Answer>,
}

/// What a day leaves.
#[derive(Drop)]
pub struct Evening {
    pub logs: Vec<Log>,
    /// What recovery has found in the closed memory.
    pub saved: SavedCells<Accounts>,
    /// The numbers of the saved data cells.
    pub cells: Vec<u32>,
}

/// How many steps the last transfer of the first day may take.
const STOPPED_AFTER: u64 = 6;

// A teller for each job, with the number that is the job's place; the last one first. Its last
// transfer may take so many steps.
fn seat_all(
    alloc: Global,
    memory: &mut CellMemory<Accounts>,
    mut jobs: Vec<Vec<Transfer>>,
    steps: u64,
) -> Result<Vec<Teller>>
    requires memory { IsCellMemory accounts_meaning memory.old }
    requires none { HasMadeNothing memory.old }
    requires few { length jobs.items ≤ callers_of memory.old }
    requires small { length jobs.items ≤ MOST_CALLERS }
    ensures memory { IsCellMemory accounts_meaning memory.new }
    ensures still { IsStill memory.old memory.new }
    ensures tellers { IfOk result (λ ts. AreSeated memory.new (length ts.items) ts.items) }
    ensures jobs { IfOk result (λ ts. jobs.items ≡ reverse (map job_of_teller ts.items)) }
{
    let mut tellers = Vec::new(alloc);
    while let Some(job) = jobs.pop() {
        let answers = Vec::with_capacity(alloc, job.len())?;
        let handle = memory.enrol(jobs.len() as u32)?;
        let last_steps = if tellers.is_empty() { steps } else { u64::MAX };
        tellers.push(Teller {
            handle,
            job,
            last_steps,
            answers,
        })?;
    }
    Ok(tellers)
}

// Lets all tellers work at once, each in a thread of its own if one can be made.
fn work_all<R: Threads + Sync>(rt: &R, tellers: &mut [Teller])
    requires { All Serves tellers.old }
    ensures len { length tellers.new ≡ length tellers.old }
    ensures worked { (i : ℕ) (d : TheTeller) → i < length tellers.old
        → HasWorked (slice_index_or tellers.old i d) (slice_index_or tellers.new i d) }
{
    let threads = tellers.len().max(1);
    for_each_mut(
        rt,
        tellers,
        threads,
        &|_, teller: &mut Teller| { teller.work() },
    );
}

// The tellers leave: the memory keeps what they have made, and each leaves a log of it.
fn gather(
    alloc: Global,
    memory: &mut CellMemory<Accounts>,
    mut tellers: Vec<Teller>,
) -> Result<Vec<Log>>
    requires memory { IsCellMemory accounts_meaning memory.old }
    requires tellers { AreSeated memory.old (length tellers.items) tellers.items }
    ensures memory { IsCellMemory accounts_meaning memory.new }
    ensures still { IsStill memory.old memory.new }
    ensures logs { IfOk result (λ logs. AreLogged memory.new logs.items) }
    ensures jobs { IfOk result (λ logs.
        map job_of_teller tellers.items ≡ reverse (map job_of logs.items)) }
{
    let mut logs = Vec::new(alloc);
    while let Some(teller) = tellers.pop() {
        let Teller {
            handle,
            job,
            last_steps: _,
            answers,
        } = teller;
        let number = handle.number();
        handle.leave(memory);
        logs.push(Log {
            number,
            job,
            answers,
        })?;
    }
    Ok(logs)
}

// A day of tellers with these jobs. The last transfer of the last one may take so many steps.
fn day<R: Threads + Sync>(
    rt: &R,
    alloc: Global,
    mut memory: CellMemory<Accounts>,
    jobs: Vec<Vec<Transfer>>,
    steps: u64,
) -> Result<Evening>
    requires memory { IsCellMemory accounts_meaning memory }
    requires none { HasMadeNothing memory }
    requires few { length jobs.items ≤ callers_of memory }
    requires small { length jobs.items ≤ MOST_CALLERS }
    ensures { IfOk result (IsEvening (work_of memory) (cells_before accounts_meaning memory)
        (tickets_before accounts_meaning memory) jobs.items) }
{
    let mut tellers = seat_all(alloc, &mut memory, jobs, steps)?;
    work_all(rt, tellers.as_mut_slice());
    let logs = gather(alloc, &mut memory, tellers)?;
    let saved = memory.close()?;
    let cells = saved.numbers(alloc)?;
    Ok(Evening { logs, saved, cells })
}

// A day on a new memory, at the end of which the last teller is stopped in a call.
fn first_day<R: Threads + Sync>(
    rt: &R,
    alloc: Global,
    accounts: Accounts,
    jobs: Vec<Vec<Transfer>>,
) -> Result<Evening>
    requires { length jobs.items ≤ accounts.callers }
    ensures { IfOk result (IsFirstEvening accounts jobs.items) }
{
    let memory = CellMemory::open(alloc, accounts, GREATEST_LIMIT)?;
    let evening = day(rt, alloc, memory, jobs, STOPPED_AFTER)?;
    Ok(evening)
}

// The transfers of a job after the first ones.
fn rest(alloc: Global, job: &[Transfer], made: usize) -> Result<Vec<Transfer>, AllocError>
    ensures { IfOk result (λ rest. rest.items ≡ drop made job.now) }
{
    if made >= job.len() {
        return Ok(Vec::new(alloc));
    }
    Vec::from_slice(alloc, &job[made..])
}

// What is left of each job: the transfers after as many as the saved memory holds of its teller.
fn left(alloc: Global, evening: &Evening) -> Result<Vec<Vec<Transfer>>>
    requires saved { IsSavedBank evening.now.saved }
    requires few { length evening.now.logs.items ≤ saved_callers evening.now.saved }
    requires small { length evening.now.logs.items ≤ MOST_CALLERS }
    ensures { IfOk result (λ jobs. AreLeft evening.now jobs.items) }
{
    let mut jobs = Vec::new(alloc);
    for number in 0..evening.logs.len() {
        let made = evening.saved.ticket(number as u32) as usize;
        let job = rest(alloc, evening.logs[number].job.as_slice(), made)?;
        jobs.push(job)?;
    }
    Ok(jobs)
}

// A day on which the tellers make what is left of their jobs.
fn next_day<R: Threads + Sync>(rt: &R, alloc: Global, evening: &Evening) -> Result<Evening>
    requires saved { IsSavedBank evening.now.saved }
    requires cells { evening.now.cells.items ≡ saved_cells evening.now.saved }
    requires few { length evening.now.logs.items ≤ saved_callers evening.now.saved }
    requires small { length evening.now.logs.items ≤ MOST_CALLERS }
    ensures { IfOk result (IsNextEvening (saved_work evening.now.saved) evening.now) }
{
    let jobs = left(alloc, evening)?;
    let memory = CellMemory::reopen(alloc, &evening.saved)?;
    let next = day(rt, alloc, memory, jobs, u64::MAX)?;
    Ok(next)
}

/// Runs two days of tellers with these jobs. On the first day the last teller is stopped in the
/// last transfer of its job. On the second day the memory shows whether this transfer took effect.
pub fn two_days<R: Threads + Sync>(
    rt: &R,
    alloc: Global,
    accounts: Accounts,
    jobs: Vec<Vec<Transfer>>,
) -> Result<(Evening, Evening)>
    requires { length jobs.items ≤ accounts.callers }
    ensures first { IfOk result (λ r. IsFirstEvening accounts jobs.items r.0) }
    ensures second { IfOk result (λ r. IsNextEvening accounts r.0 r.1) }
{
    let first = first_day(rt, alloc, accounts, jobs)?;
    let second = next_day(rt, alloc, &first)?;
    Ok((first, second))
}
