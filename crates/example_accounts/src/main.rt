//! Tellers move money between a million accounts in one memory, each in a thread of its own, by an
//! operation that this program brings along. One is stopped in a call, the memory is closed and
//! opened again, each teller goes on after its last transfer, and in the evening all the money is
//! there.
#![tactic(auto)]

mod accounts;
mod day;
mod laws;
mod meter;
mod teller;
mod transfer;

ghost use Rattle.std.specs.Prelude.{◌≡◌, ◌≤◌, IfOk, length};
ghost use Rattle.example_accounts.specs.Accounts.{cell_count};
ghost use Rattle.example_accounts.specs.Days.{IsSavedBank};

use crate::accounts::Accounts;
use crate::day::{Evening, Log, two_days};
use crate::meter::measure;
use crate::transfer::{Reply, Transfer};
use anyhow::Result;
use std::alloc::{AllocError, Global};
use std::env;
use std::thread::Threads;

fn pay(from: u32, to: u32, amount: u32) -> Transfer {
    Transfer { from, to, amount }
}

fn list(alloc: Global, transfers: &[Transfer]) -> Result<Vec<Transfer>, AllocError> {
    Vec::from_slice(alloc, transfers)
}

/// The number of the last account.
const LAST: u32 = 999_999;

/// The jobs of three tellers. Account 1 never has 900, and the account after the last one doesn't
/// exist. The teller of the last transfer is stopped in it.
fn jobs(alloc: Global) -> Result<Vec<Vec<Transfer>>, AllocError>
    ensures { IfOk result (λ jobs. length jobs.items ≡ 3) }
{
    let mut jobs = Vec::new(alloc);
    let first = [pay(0, 1, 100), pay(1, LAST, 30), pay(1, 2, 900)];
    jobs.push(list(alloc, &first)?)?;
    let second = [pay(0, 2, 100), pay(2, 3, 20), pay(2, LAST + 1, 1)];
    jobs.push(list(alloc, &second)?)?;
    let third = [
        pay(0, 3, 100),
        pay(3, 1, 10),
        pay(3, 3, 5),
        pay(3, LAST, 40),
    ];
    jobs.push(list(alloc, &third)?)?;
    Ok(jobs)
}

// What was answered to a teller on a day.
fn show_log(rt: &impl Print, log: &Log) -> Result<()> {
    print!(rt; "teller {}:", log.number)?;
    for answer in &log.answers {
        match answer.reply() {
            Some(Reply::Done { balance: _ }) => print!(rt; " done")?,
            Some(Reply::Short { balance: _ }) => print!(rt; " not enough")?,
            Some(Reply::NoAccount) => print!(rt; " no account")?,
            None => print!(rt; " no sequence left")?,
        }
    }
    if log.answers.len() < log.job.len() {
        print!(rt; " stopped")?;
    }
    println!(rt; "")?;
    Ok(())
}

// How many transfers each caller has made in both days, and what the accounts have: the first ones
// and the last.
fn show_end(rt: &impl Print, accounts: Accounts, evening: &Evening) -> Result<()>
    requires saved { IsSavedBank evening.now.saved }
    requires cells { length evening.now.cells.items ≡ cell_count accounts }
{
    print!(rt; "transfers made:")?;
    for number in 0..evening.saved.callers() {
        print!(rt; " {}", evening.saved.ticket(number))?;
    }
    println!(rt; "")?;
    print!(rt; "balances:")?;
    for account in 0..accounts.accounts.min(4) {
        print!(rt; " {}", accounts.balance(&evening.cells, account))?;
    }
    let last = accounts.balance(&evening.cells, accounts.accounts - 1);
    println!(rt; " .. {last}, together {}", accounts.total(&evening.cells))?;
    Ok(())
}

// Two days of these jobs, and what they came to.
fn work<R: Threads + Print + Sync>(
    rt: &R,
    alloc: Global,
    accounts: Accounts,
    jobs: Vec<Vec<Transfer>>,
) -> Result<()>
    requires { length jobs.items ≤ accounts.callers }
{
    let (first, second) = two_days(rt, alloc, accounts, jobs)?;
    for log in &first.logs {
        show_log(rt, log)?;
    }
    show_end(rt, accounts, &second)
}

/// Without words the program runs the two days. With a number of accounts and a number of rounds it
/// measures a memory.
fn main(rt: HostRuntime) -> Result<()> {
    let alloc: Global = rt.alloc();
    let mut words = env::args(&rt)?.skip(1);
    if let (Some(accounts), Some(rounds)) = (words.next(), words.next()) {
        return measure(&rt, alloc, accounts.as_str(), rounds.as_str());
    }
    let accounts = Accounts {
        callers: 3,
        accounts: LAST + 1,
        money: 1_000,
    };
    work(&rt, alloc, accounts, jobs(alloc)?)
}
