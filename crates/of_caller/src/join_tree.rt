//! A tree of joins over the items of a slice.

ghost use Rattle.std.specs.Prelude.{◌<◌, length};
ghost use Rattle.std.specs.Thread.{IsSync};
ghost use denote.Param.Send.{IsSend};
ghost use Rattle.std.specs.List.{AllByRecursion as Each};
ghost use Rattle.of_caller.specs.Trees.{AllPaired, Takes, Leaves};

use std::thread::{Threads, join_mut};

fn run_few<T, F: Fn(&mut T)>(task: &F, items: &mut [T])
    requires few { length items.old < 2 }
    requires ready { Each (Takes F.Fn task.now) items.old }
    ensures { AllPaired (Leaves F.Fn task.now) items.old items.new }
{
    if !items.is_empty() {
        run_one(task, &mut items[0]);
    }
}

fn run_one<T, F: Fn(&mut T)>(task: &F, item: &mut T)
    requires { Takes F.Fn task.now item.old }
    ensures { Leaves F.Fn task.now item.old item.new }
{
    task(item);
}

/// Runs the task on each item, on all at once: each in a thread of its own if one can be made.
#[cycle(tree)]
pub(crate) fn run_all<T: Send, F: Fn(&mut T) + Sync, R: Threads + Sync>(
    rt: &R,
    task: &F,
    items: &mut [T],
)
    requires { Each (Takes F.Fn task.now) items.old }
    ensures { AllPaired (Leaves F.Fn task.now) items.old items.new }
{
    if items.len() < 2 {
        run_few(task, items);
        return;
    }
    let (front, back) = items.split_at_mut(items.len() / 2);
    run_both(rt, task, front, back);
}

// Both halves at once. What its closures require is what it is given.
#[cycle(tree)]
fn run_both<T: Send, F: Fn(&mut T) + Sync, R: Threads + Sync>(
    rt: &R,
    task: &F,
    front: &mut [T],
    back: &mut [T],
)
    requires some { (0 < length front.old) × (0 < length back.old) }
    requires front { Each (Takes F.Fn task.now) front.old }
    requires back { Each (Takes F.Fn task.now) back.old }
    ensures front { AllPaired (Leaves F.Fn task.now) front.old front.new }
    ensures back { AllPaired (Leaves F.Fn task.now) back.old back.new }
{
    let mut left = ||
        requires { IsSync R.row × IsSync F.row × IsSend T.row × (0 < length front.now)
            × Each (Takes F.Fn task.now) front.now }
        ensures { AllPaired (Leaves F.Fn task.entry.now) front.entry.now front.exit.now }
    { run_all(rt, task, front) };
    let mut right = ||
        requires { IsSync R.row × IsSync F.row × IsSend T.row × (0 < length back.now)
            × Each (Takes F.Fn task.now) back.now }
        ensures { AllPaired (Leaves F.Fn task.entry.now) back.entry.now back.exit.now }
    { run_all(rt, task, back) };
    join_mut(rt, &mut left, &mut right);
}
