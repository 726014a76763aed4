//! Clerks move money between accounts, each in a thread of its own. One is stopped in a transfer on
//! the first day. On the second day it goes on, and each transfer is made once.
#![tactic(auto)]

mod clerk;
mod days;
mod transfer;

ghost use Rattle.std.specs.Prelude.{◌≡◌, ◌<◌, ◌≤◌, IfOk, length};
ghost use Rattle.of_script.specs.declared.instr.TheConstants.{REGISTERS, GREATEST};
ghost use Rattle.of_script.specs.declared.instr.Instr.TheVariants.{Store as StoreInstr};
ghost use Rattle.of_memory.specs.Saving.{IsSaved, saved_callers};
ghost use Rattle.example_bank.specs.declared.TheConstants.{CLERKS};
ghost use Rattle.example_bank.specs.Founding.{founding_script, HasMoney, IsFounded};

use crate::clerk::Clerk;
use crate::days::two_days;
use crate::transfer::Transfer;
use anyhow::Result;
use of_memory::laws::{lone_calls_are_saved, memories_stay, none_stays_open};
use of_memory::{GREATEST_LIMIT, Instr, Memory, Saved, Script};
use std::alloc::{AllocError, Global};
use std::thread::Threads;

/// How many clerks there are.
const CLERKS: u32 = 4;

// Sets an account to 100.
fn opening(account: u8) -> Instr
    requires { account < REGISTERS }
    ensures { result ≡ StoreInstr account 100 }
{
    Instr::Store {
        reg: account,
        value: 100,
    }
}

// Sets each account to 100.
fn founding() -> Script
    ensures { result ≡ founding_script }
{
    Script::new(&[
        opening(0),
        opening(1),
        opening(2),
        opening(3),
        opening(4),
        opening(5),
        opening(6),
        opening(7),
        opening(8),
        opening(9),
        opening(10),
        opening(11),
        opening(12),
        opening(13),
        opening(14),
        opening(15),
    ])
}

/// A bank whose sixteen accounts hold 100 each.
fn found(alloc: Global) -> Result<Saved>
    ensures saved { IfOk result IsSaved }
    ensures callers { IfOk result (λ d. saved_callers d ≡ CLERKS) }
    ensures money { IfOk result IsFounded }
{
    memories_stay();
    none_stays_open();
    lone_calls_are_saved();
    let mut memory = Memory::open(alloc, CLERKS, 0, GREATEST_LIMIT)?;
    let mut founder = memory.enrol(0)?;
    founder.run(&founding())?;
    founder.leave(&mut memory);
    Ok(memory.close()?)
}

fn moving(from: u8, to: u8, amount: u32) -> Transfer
    requires from { from < REGISTERS }
    requires to { to < REGISTERS }
    requires amount { amount ≤ GREATEST }
{
    Transfer { from, to, amount }
}

/// A clerk with this job, whose calls make at most this many steps.
fn hire(alloc: Global, steps: u64, job: &[Transfer]) -> Result<Clerk, AllocError> {
    Ok(Clerk {
        job: Vec::from_slice(alloc, job)?,
        steps,
        made: 0,
        aborted: 0,
        answered: 0,
        pending: false,
        end: None,
    })
}

/// Four clerks. Account 7 never holds enough for the first transfer of clerk 1, and clerk 2 is
/// stopped.
fn staff(alloc: Global) -> Result<Vec<Clerk>, AllocError>
    ensures { IfOk result (λ clerks. length clerks.items ≡ CLERKS) }
{
    let first = [moving(4, 5, 30), moving(4, 6, 20), moving(0, 1, 5)];
    let second = [moving(7, 4, 101), moving(5, 7, 10)];
    let third = [moving(8, 9, 10), moving(9, 8, 1)];
    let fourth = [moving(12, 13, 1), moving(13, 14, 2)];
    let mut clerks = Vec::new(alloc);
    clerks.push(hire(alloc, u64::MAX, &first)?)?;
    clerks.push(hire(alloc, u64::MAX, &second)?)?;
    clerks.push(hire(alloc, 3, &third)?)?;
    clerks.push(hire(alloc, u64::MAX, &fourth)?)?;
    Ok(clerks)
}

/// Prints the accounts, and what they hold together.
fn show(rt: &impl Print, alloc: Global, saved: &Saved) -> Result<()>
    requires { IsSaved saved.now }
{
    let store = saved.store(alloc)?;
    let mut together = 0u64;
    for account in 0..16 {
        let amount = store.register(account);
        print!(rt; " {amount}")?;
        together = together.saturating_add(u64::from(amount));
    }
    println!(rt; ", together {together}")?;
    Ok(())
}

/// Founds the bank, and lets its clerks work for two days.
fn work<R: Threads + Print + Sync>(rt: &R, alloc: Global) -> Result<(Saved, Vec<Clerk>)>
    ensures saved { IfOk result (λ r. IsSaved r.0) }
    ensures money { IfOk result (λ r. HasMoney 1600 r.0) }
{
    let founded = found(alloc)?;
    print!(rt; "before:")?;
    show(rt, alloc, &founded)?;
    two_days(rt, alloc, &founded, staff(alloc)?)
}

fn main(rt: HostRuntime) -> Result<()> {
    let alloc: Global = rt.alloc();
    let (evening, clerks) = work(&rt, alloc)?;
    for number in 0..clerks.len() {
        let (made, aborted) = (clerks[number].made, clerks[number].aborted);
        println!(rt; "clerk {number}: {made} made, {aborted} aborted")?;
    }
    print!(rt; "after:")?;
    show(&rt, alloc, &evening)
}
