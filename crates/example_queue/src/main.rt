//! Workers take jobs from a queue in a memory, each in a thread of its own. One is stopped in a
//! call, the memory is closed and opened again, and no job is lost or done twice.
#![tactic(auto)]

mod worker;

ghost use Rattle.std.specs.Prelude.{◌≡◌, ◌≤◌, IfOk};
ghost use Rattle.of_script.specs.declared.instr.Instr.TheVariants.{Push};
ghost use Rattle.of_memory.specs.Memories.{IsMemory};
ghost use Rattle.of_memory.specs.Saving.{IsSaved};
ghost use Rattle.example_queue.specs.Jobs.{six_jobs};
ghost use Rattle.example_queue.specs.Workers.{IsWorkedOff, IsWorkedOffLater, IsForWorkers};
ghost use Rattle.example_queue.specs.Workers.{HoldsTwelveJobs, LosesNoneOfTwelve};

use crate::worker::{Worker, team};
use anyhow::Result;
use of_memory::laws::{histories_join, lone_calls_are_saved, memories_stay, none_stays_open};
use of_memory::{GREATEST_LIMIT, Instr, Memory, Saved, Script};
use std::alloc::Global;
use std::thread::Threads;

// Six jobs for queue 0, the numbers from `first` on. Register 15 counts those that wait.
fn six_jobs(first: u32) -> Script
    requires { first ≤ 17 }
    ensures { result ≡ six_jobs first }
{
    Script::new(&[
        Instr::Add { reg: 15, value: 6 },
        push(first),
        push(first + 1),
        push(first + 2),
        push(first + 3),
        push(first + 4),
        push(first + 5),
    ])
}

// Puts a job into queue 0.
fn push(job: u32) -> Instr
    ensures { result ≡ Push 0 job }
{
    Instr::Push {
        queue: 0,
        value: job,
    }
}

/// A memory with twelve jobs in its queue, the numbers 11 to 22.
fn fill(alloc: Global) -> Result<Saved>
    ensures saved { IfOk result IsSaved }
    ensures jobs { IfOk result HoldsTwelveJobs }
{
    memories_stay();
    none_stays_open();
    lone_calls_are_saved();
    let mut memory = Memory::open(alloc, 4, 32, GREATEST_LIMIT)?;
    let mut handle = memory.enrol(0)?;
    handle.run(&six_jobs(11))?;
    handle.run(&six_jobs(17))?;
    handle.leave(&mut memory);
    Ok(memory.close()?)
}

/// The workers work at once. Then the first worker works alone, and finishes what a stopped worker
/// has begun.
fn work<R: Threads + Sync>(rt: &R, mut memory: Memory, workers: &mut Vec<Worker>) -> Result<Saved>
    requires memory { IsMemory memory }
    requires queue { IsForWorkers memory }
    ensures saved { IfOk result IsSaved }
    ensures works { IfOk result (IsWorkedOff memory) }
{
    memories_stay();
    memory.at_once(rt, workers)?;
    workers.truncate(1);
    memory.at_once(rt, workers)?;
    Ok(memory.close()?)
}

/// A day of four workers on what was saved. The calls of the third worker make at most this many
/// steps.
fn day<R: Threads + Sync>(rt: &R, alloc: Global, saved: &Saved, steps: u64) -> Result<Saved>
    requires { IsSaved saved.now }
    ensures saved { IfOk result IsSaved }
    ensures works { IfOk result (IsWorkedOffLater saved.now) }
{
    let memory = Memory::reopen(alloc, saved)?;
    work(rt, memory, &mut team(alloc, steps)?)
}

/// Two days of four workers. The third worker is stopped on the first day.
fn two_days<R: Threads + Sync>(rt: &R, alloc: Global, saved: &Saved) -> Result<(Saved, Saved)>
    requires { IsSaved saved.now }
    ensures saved { IfOk result (λ r. IsSaved r.0 × IsSaved r.1) }
    ensures noon { IfOk result (λ r. IsWorkedOffLater saved.now r.0) }
    ensures evening { IfOk result (λ r. IsWorkedOffLater r.0 r.1) }
    ensures both { IfOk result (λ r. IsWorkedOffLater saved.now r.1) }
{
    histories_join();
    let noon = day(rt, alloc, saved, 6)?;
    let evening = day(rt, alloc, &noon, u64::MAX)?;
    Ok((noon, evening))
}

/// Puts twelve jobs in a queue and lets workers take them for two days. The result is what is saved
/// before, between and after the two days.
fn twelve_jobs<R: Threads + Sync>(rt: &R, alloc: Global) -> Result<(Saved, Saved, Saved)>
    ensures saved { IfOk result (λ r. IsSaved r.0 × IsSaved r.1 × IsSaved r.2) }
    ensures first { IfOk result (λ r. HoldsTwelveJobs r.0) }
    ensures noon { IfOk result (λ r. LosesNoneOfTwelve r.1) }
    ensures evening { IfOk result (λ r. LosesNoneOfTwelve r.2) }
{
    let saved = fill(alloc)?;
    let (noon, evening) = two_days(rt, alloc, &saved)?;
    Ok((saved, noon, evening))
}

fn show(rt: &impl Print, saved: &Saved) -> Result<()>
    requires { IsSaved saved.now }
{
    let mut done = 0u64;
    for register in 0..4 {
        done = done.saturating_add(u64::from(saved.register(register)));
    }
    println!(rt; "{done} jobs are done, {} wait", saved.queue_len(0))?;
    Ok(())
}

fn main(rt: HostRuntime) -> Result<()> {
    let alloc: Global = rt.alloc();
    let (saved, noon, evening) = twelve_jobs(&rt, alloc)?;
    show(&rt, &saved)?;
    show(&rt, &noon)?;
    show(&rt, &evening)
}
