//! A call on a memory.
#![tactic(auto)]

use anyhow::Result;
use of_memory::{GREATEST_LIMIT, Memory, parse};
use std::alloc::Global;

fn main(rt: HostRuntime) -> Result<()> {
    let alloc: Global = rt.alloc();
    let mut memory = Memory::open(alloc, 2, 8, GREATEST_LIMIT)?;
    let mut handle = memory.enrol(0)?;
    let answer = handle.run(&parse(b"add 3 40; add 3 2")?)?;
    handle.leave(&mut memory);
    let saved = memory.close()?;
    let [first, second, ..] = answer.reply.values;
    let stored = saved.register(3);
    println!(rt; "{first:?}, {second:?}; register 3 is saved as {stored}")?;
    Ok(())
}
