//! Hands add to one sum in threads of their own; one of them is stopped in a call.
#![tactic(auto)]

ghost use Rattle.std.specs.Prelude.{IfOk};
ghost use Rattle.of_memory.specs.Memories.{IsMemory};
ghost use Rattle.of_memory.specs.Saving.{IsSaved};

use anyhow::Result;
use of_memory::{GREATEST_LIMIT, Handle, Memory, Saved, Script, Task, parse};
use std::alloc::Global;
use std::thread::Threads;

/// Adds to a register of its own and to the sum, by a call of at most `steps` steps.
#[derive(Drop)]
struct Hand {
    script: Script,
    steps: u64,
}

impl Task for Hand {
    fn work(&mut self, handle: &mut Handle) {
        let _answer = handle.run_within(&self.script, self.steps);
    }
}

fn new_hand(alloc: Global, number: u32, steps: u64) -> Result<Hand> {
    let text = format!(in alloc; "add {number} 5; add 15 5")?;
    let script = parse(text.as_bytes())?;
    Ok(Hand { script, steps })
}

fn show(rt: &impl Print, saved: &Saved) -> Result<()>
    requires { IsSaved saved.now }
{
    println!(rt; "the sum is {}", saved.register(15))?;
    for number in 0..saved.callers() {
        if let Some((ticket, reply)) = saved.last_reply(number) {
            let value = reply.values[0];
            println!(rt; "hand {number}: call {ticket} made it {value:?}")?;
        }
    }
    Ok(())
}

// Four hands, of which the third is stopped six steps into its call.
fn four_hands(alloc: Global) -> Result<Vec<Hand>> {
    let mut hands = Vec::new(alloc);
    for number in 0..4 {
        hands.push(new_hand(alloc, number, if number == 2 { 6 } else { u64::MAX })?)?;
    }
    Ok(hands)
}

// The hands work at once. Then the first one adds again, and finishes the call that was stopped.
fn first_day<R: Threads + Sync>(rt: &R, alloc: Global) -> Result<Saved>
    ensures { IfOk result IsSaved }
{
    let mut hands = four_hands(alloc)?;
    let mut memory = Memory::open(alloc, 4, 8, GREATEST_LIMIT)?;
    memory.at_once(rt, &mut hands)?;
    hands.truncate(1);
    memory.at_once(rt, &mut hands)?;
    Ok(memory.close()?)
}

// The third hand adds again.
fn add_again(alloc: Global, mut memory: Memory) -> Result<Saved>
    requires { IsMemory memory }
    ensures { IfOk result IsSaved }
{
    let mut third = memory.enrol(2)?;
    third.run(&new_hand(alloc, 2, u64::MAX)?.script)?;
    third.leave(&mut memory);
    Ok(memory.close()?)
}

// It does so in a memory that goes on from an image.
fn second_day(alloc: Global, image: &[u8]) -> Result<Saved>
    ensures { IfOk result IsSaved }
{
    let saved = Saved::from_image(alloc, image)?;
    let saved = saved.renumbered().with_limit(1_000)?;
    add_again(alloc, Memory::reopen(alloc, &saved)?)
}

fn main(rt: HostRuntime) -> Result<()> {
    let alloc: Global = rt.alloc();
    let saved = first_day(&rt, alloc)?;
    show(&rt, &saved)?;
    // A program keeps this text in a file, from which another one goes on.
    let image = saved.image_text(alloc)?;
    show(&rt, &second_day(alloc, &image)?)
}
