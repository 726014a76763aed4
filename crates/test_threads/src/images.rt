//! A memory with more callers and blocks than a plan may have. What it saves is printed and read
//! again, and another memory goes on from it.

ghost use Rattle.std.specs.Prelude.{IfOk};
ghost use Rattle.of_memory.specs.Memories.{IsMemory};
ghost use Rattle.of_memory.specs.Saving.{IsSaved};

use of_memory::{GREATEST_LIMIT, Memory, Saved, Script, parse};
use std::test::Fail;

/// One caller more than a plan may have.
const CALLERS: u32 = 17;

/// More blocks than a plan may have.
const BLOCKS: u32 = 600;

/// What a memory saves after its last caller has made a call.
fn saved_after(mut memory: Memory, script: &Script) -> Result<Saved, Fail>
    requires { IsMemory memory }
    ensures { IfOk result IsSaved }
{
    let mut last = memory.enrol(CALLERS - 1)?;
    last.run(script)?;
    last.leave(&mut memory);
    Ok(memory.close()?)
}

#[test]
fn a_large_memory_goes_on_from_its_text(rt: HostRuntime) -> Result<(), Fail> {
    let alloc = rt.alloc();
    let memory = Memory::open(alloc, CALLERS, BLOCKS, GREATEST_LIMIT)?;
    let first = saved_after(memory, &parse(b"put 70000 5; push 1 9")?)?;
    let text = first.image_text(alloc)?;
    let read = Saved::from_image(alloc, &text)?;
    assert_eq!(rt; read.image_text(alloc)?, text);
    assert_eq!(rt; read.key(70_000), Some(5));
    assert_eq!(rt; read.item(1, 0), Some(9));
    let second = saved_after(Memory::reopen(alloc, &read)?, &parse(b"put 70001 6")?)?;
    assert_eq!(rt; second.keys(), 2);
    Ok(())
}
