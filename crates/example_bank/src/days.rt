//! Days at the bank.

ghost use Rattle.std.specs.Prelude.{◌≡◌, ◌≤◌, IfOk, length};
ghost use Rattle.of_memory.specs.Saving.{IsSaved, saved_callers};
ghost use Rattle.example_bank.specs.Transfers.{KeepsMoney};
ghost use Rattle.example_bank.specs.Days.{CanSettle, GoOnWithJobs, HaveEnded, HaveSettled};

use crate::clerk::Clerk;
use anyhow::Result;
use of_memory::laws::{histories_join, memories_stay};
use of_memory::{Memory, Saved};
use std::alloc::Global;
use std::thread::Threads;

// Each clerk counts the transfer in which it was stopped.
fn settle_all(clerks: &mut Vec<Clerk>, before: &Saved, after: &Saved)
    requires before { IsSaved before.now }
    requires after { IsSaved after.now }
    requires few { length clerks.old.items ≤ saved_callers before.now }
    requires still { saved_callers after.now ≡ saved_callers before.now }
    requires left { CanSettle clerks.old.items }
    ensures { HaveSettled (length clerks.old.items) before.now after.now
        clerks.old.items clerks.new.items }
{
    for number in 0..clerks.len() {
        clerks[number].settle(number as u32, before, after);
    }
}

/// A day: the clerks work at once, each in a thread of its own, and then the memory is closed.
pub fn day<R: Threads + Sync>(
    rt: &R,
    alloc: Global,
    saved: &Saved,
    clerks: Vec<Clerk>,
) -> Result<(Saved, Vec<Clerk>)>
    requires saved { IsSaved saved.now }
    requires few { length clerks.items ≤ saved_callers saved.now }
    ensures saved { IfOk result (λ r. IsSaved r.0) }
    ensures callers { IfOk result (λ r. saved_callers r.0 ≡ saved_callers saved.now) }
    ensures clerks { IfOk result (λ r. length r.1.items ≡ length clerks.items) }
    ensures jobs { IfOk result (λ r. GoOnWithJobs saved.now r.0 clerks.items r.1.items) }
    ensures ended { IfOk result (λ r. HaveEnded saved.now clerks.items r.1.items) }
    ensures money { IfOk result (λ r. KeepsMoney saved.now r.0) }
{
    memories_stay();
    let mut clerks = clerks;
    let mut memory = Memory::reopen(alloc, saved)?;
    memory.at_once(rt, &mut clerks)?;
    let evening = memory.close()?;
    settle_all(&mut clerks, saved, &evening);
    Ok((evening, clerks))
}

// Tells which clerks were stopped.
fn show_stops(rt: &impl Print, clerks: &[Clerk]) -> Result<()> {
    for number in 0..clerks.len() {
        if let Some(error) = clerks[number].end {
            println!(rt; "clerk {number}: {error}")?;
        }
    }
    Ok(())
}

/// Two days at the bank; the second day goes on from what the first has saved.
pub fn two_days<R: Threads + Print + Sync>(
    rt: &R,
    alloc: Global,
    saved: &Saved,
    clerks: Vec<Clerk>,
) -> Result<(Saved, Vec<Clerk>)>
    requires saved { IsSaved saved.now }
    requires few { length clerks.items ≤ saved_callers saved.now }
    ensures saved { IfOk result (λ r. IsSaved r.0) }
    ensures jobs { IfOk result (λ r. GoOnWithJobs saved.now r.0 clerks.items r.1.items) }
    ensures money { IfOk result (λ r. KeepsMoney saved.now r.0) }
{
    histories_join();
    let (noon, clerks) = day(rt, alloc, saved, clerks)?;
    show_stops(rt, &clerks)?;
    day(rt, alloc, &noon, clerks)
}
