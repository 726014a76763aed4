//! What a number's last call answered, looked up in an open memory: after each count of steps of a
//! call, and while another thread makes calls.

ghost use Rattle.std.specs.Prelude.{IfOk};
ghost use Rattle.of_memory.specs.Handles.{IsHandle};
ghost use Rattle.of_memory.specs.Memories.{IsMemory};

use crate::lost::{two_handles, value_of};
use of_memory::{Handle, Memory, Script, parse};
use std::test::Fail;
use std::thread::{Threads, join};

/// A call of the test has its answer after fewer steps than these.
const MOST_STEPS: u64 = 60;

/// How many calls one thread makes, and how often the other one looks.
const MANY: u32 = 200;

/// What a look at a number has found.
#[derive(Clone, Copy, PartialEq, Eq)]
enum Seen {
    Busy,
    NoCall,
    Call { ticket: u32, value: Option<u32> },
}

/// The number's last call, with what its first instruction was answered.
fn look(mut memory: Memory, number: u32) -> (Memory, Seen)
    requires { IsMemory memory }
    ensures { IsMemory result.0 }
{
    if number >= memory.callers() {
        return (memory, Seen::Busy);
    }
    match memory.last_reply_of(number) {
        Ok(Some((ticket, reply))) => {
            let value = reply.values[0];
            (memory, Seen::Call { ticket, value })
        }
        Ok(None) => (memory, Seen::NoCall),
        Err(_) => (memory, Seen::Busy),
    }
}

/// A handle makes at most so many steps of a call; whether the call was answered.
fn steps_of(mut handle: Handle, script: &Script, steps: u64) -> (Handle, bool)
    requires { IsHandle handle }
    ensures { IsHandle result.0 }
{
    let answered = handle.run_within(script, steps).is_ok();
    (handle, answered)
}

/// Looks many times at a number whose call with ticket t answers t: whether each look has found
/// such a call, and none an older one than the look before.
fn look_often(mut memory: Memory, many: u32) -> (Memory, bool)
    requires { IsMemory memory }
    ensures { IsMemory result.0 }
{
    let mut right = true;
    let mut last = 0;
    for _ in 0..many {
        let (again, found) = look(memory, 0);
        memory = again;
        if let Seen::Call { ticket, value } = found {
            right = right && ticket >= last && value == Some(ticket);
            last = ticket;
        }
    }
    (memory, right)
}

/// A handle makes many calls.
fn call_often(mut handle: Handle, script: &Script, many: u32) -> Handle
    requires { IsHandle handle }
    ensures { IsHandle result }
{
    for _ in 0..many {
        let (again, _) = value_of(handle, script);
        handle = again;
    }
    handle
}

/// One thread makes calls, and another looks at them.
fn looks_beside<R: Threads + Sync>(
    rt: &R,
    memory: Memory,
    handle: Handle,
    script: &Script,
) -> (Memory, bool)
    requires memory { IsMemory memory }
    requires handle { IsHandle handle }
    ensures { IsMemory result.0 }
{
    let (looked, _) = join(
        rt,
        || -> (Memory, bool)
            requires { IsMemory memory }
            ensures { IsMemory result.0 }
        { look_often(memory, MANY) },
        || -> Handle
            requires { IsHandle handle }
            ensures { IsHandle result }
        { call_often(handle, script, MANY) },
    );
    looked
}

#[test]
fn a_look_agrees_with_the_effect(rt: HostRuntime) -> Result<(), Fail> {
    let alloc = rt.alloc();
    let add = &parse(b"add 3 1")?;
    let read = &parse(b"load 3")?;
    let call = Seen::Call {
        ticket: 1,
        value: Some(1),
    };
    for steps in 0..MOST_STEPS {
        let (memory, first, second) = two_handles(alloc)?;
        let (_, answered) = steps_of(first, add, steps);
        let (memory, found) = look(memory, 0);
        assert!(rt; found == call || !answered);
        let (second, value) = value_of(second, read);
        let (_, _) = value_of(second, &parse(b"store 4 1")?);
        let (memory, again) = look(memory, 0);
        assert!(rt; found == Seen::Busy || found == Seen::NoCall || again == call);
        assert!(rt; again == call || value == Some(0));
        let (_, other) = look(memory, 1);
        assert!(rt; matches!(other, Seen::Call { .. }));
    }
    Ok(())
}

#[test]
fn looks_go_on_beside_calls(rt: HostRuntime) -> Result<(), Fail> {
    let alloc = rt.alloc();
    let add = &parse(b"add 3 1")?;
    let (memory, first, _) = two_handles(alloc)?;
    let (memory, right) = looks_beside(&rt, memory, first, add);
    assert!(rt; right);
    let (_, last) = look(memory, 0);
    let call = Seen::Call {
        ticket: MANY,
        value: Some(MANY),
    };
    assert!(rt; last == call);
    Ok(())
}
