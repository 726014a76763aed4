//! News between two threads that work on one memory.

ghost use Rattle.std.specs.Prelude.{◌≡◌, IfOk};
ghost use Rattle.of_memory.specs.Handles.{IsHandle, home_of};
ghost use Rattle.of_memory.specs.Memories.{IsFrom, IsMemory, IsStill};
ghost use Rattle.of_memory.specs.Telling.{IsNews};

use of_memory::{EnrolError, GREATEST_LIMIT, Handle, Memory, News, RunError, Script, parse};
use std::alloc::Global;
use std::test::Fail;
use std::thread::{Threads, join};

/// The memory, and its handle of a number. A function is proved with all clauses of all its calls
/// at hand, and a call of a memory has many; this one passes few of them on.
fn enrolled(mut memory: Memory, number: u32) -> Result<(Memory, Handle), EnrolError>
    requires { IsMemory memory }
    ensures memory { IfOk result (λ r. IsMemory r.0) }
    ensures still { IfOk result (λ r. IsStill memory r.0) }
    ensures handle { IfOk result (λ r. IsHandle r.1) }
    ensures from { IfOk result (λ r. IsFrom memory r.1) }
{
    match memory.enrol(number) {
        Ok(handle) => Ok((memory, handle)),
        Err(error) => Err(error),
    }
}

/// The two handles of a memory that is new.
fn two_handles(alloc: Global) -> Result<(Handle, Handle), Fail>
    ensures handles { IfOk result (λ r. IsHandle r.0 × IsHandle r.1) }
    ensures home { IfOk result (λ r. home_of r.1 ≡ home_of r.0) }
{
    let memory = Memory::open(alloc, 2, 0, GREATEST_LIMIT)?;
    let (memory, first) = enrolled(memory, 0)?;
    let (_memory, second) = enrolled(memory, 1)?;
    Ok((first, second))
}

/// What a script answers to its first instruction.
fn first_value(mut handle: Handle, script: &Script) -> Option<u32>
    requires { IsHandle handle }
{
    match handle.run(script) {
        Ok(answer) => answer.reply.values[0],
        Err(_) => None,
    }
}

/// A handle makes a call, and tells of it.
fn call_told(mut first: Handle, script: &Script) -> Result<(Handle, News), RunError>
    requires { IsHandle first }
    ensures handle { IfOk result (λ r. IsHandle r.0) }
    ensures news { IfOk result (λ r. IsNews (home_of first) r.1) }
{
    first.run(script)?;
    let news = first.tell();
    Ok((first, news))
}

/// Another handle hears the news, and makes a call.
fn value_after(mut handle: Handle, news: News, script: &Script) -> Option<u32>
    requires handle { IsHandle handle }
    requires news { IsNews (home_of handle) news }
{
    handle.hear(news);
    first_value(handle, script)
}

/// The first handle makes a call while the second one hears the news and makes one, each in a
/// thread: what is answered to the second.
fn value_beside<R: Threads + Sync>(
    rt: &R,
    first: Handle,
    second: (Handle, News),
    scripts: [&Script; 2],
) -> Option<u32>
    requires first { IsHandle first }
    requires second { IsHandle second.0 }
    requires news { IsNews (home_of second.0) second.1 }
{
    let (other, news) = second;
    let [own, theirs] = scripts;
    let (_, value) = join(
        rt,
        || -> Option<u32>
            requires { IsHandle first }
        { first_value(first, own) },
        || -> Option<u32>
            requires { IsHandle other × IsNews (home_of other) news }
        { value_after(other, news, theirs) },
    );
    value
}

#[test]
fn another_thread_hears_of_a_call(rt: HostRuntime) -> Result<(), Fail> {
    let (first, second) = two_handles(rt.alloc())?;
    let (first, news) = call_told(first, &parse(b"store 3 7")?)?;
    let scripts = [&parse(b"add 4 1")?, &parse(b"load 3")?];
    let value = value_beside(&rt, first, (second, news), scripts);
    assert_eq!(rt; value, Some(7));
    Ok(())
}
