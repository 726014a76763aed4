//! A call whose machine is lost after few or many steps, and the new machine that takes the lost
//! one's place. A function is proved with all clauses of all its calls at hand, so those that call
//! a memory are short and pass few clauses on.

ghost use Rattle.std.specs.Prelude.{◌<◌, IfErr, IfOk, IfSome};
ghost use Rattle.of_memory.specs.Handles.{IsHandle};
ghost use Rattle.of_memory.specs.Lost.{IsLostHandle};
ghost use Rattle.of_memory.specs.Memories.{IsMemory};

use of_memory::{
    EnrolError, GREATEST_LIMIT, Handle, LostHandle, Memory, NotRevived, Script, parse,
};
use std::alloc::{AllocError, Global};
use std::test::Fail;
use std::thread::{Threads, join};

/// A call of the test has its answer after fewer steps than these.
const MOST_STEPS: u64 = 60;

/// A lost handle, and what was known before the loss.
#[derive(Drop)]
struct Loss {
    lost: LostHandle,
    /// The call had its answer.
    answered: bool,
    /// How many calls were begun.
    begun: u32,
}

/// What the calls of two handles show after one of them had lost its machine in a call that adds 1
/// to a register.
#[derive(Clone, Copy)]
struct Course {
    /// The call had its answer before the loss.
    answered: bool,
    /// How many calls were begun, before the loss and with the new machine.
    begun: [u32; 2],
    /// The register when the new machine was there.
    at_first: Option<u32>,
    /// What the call was answered when it went on. None if it was not open.
    gone_on: Option<u32>,
    /// The register after this and after a call of the other handle.
    at_last: Option<u32>,
    /// What the next call with the new machine made of the register.
    next: Option<u32>,
}

impl Course {
    /// The call took effect once or never, and what was seen of it agrees.
    fn is_right(&self, steps: u64) -> bool {
        let ran = self.at_first == Some(1);
        let opened = self.gone_on == Some(1);
        let count = u32::from(ran || opened);
        (ran || self.at_first == Some(0))
            && (opened || self.gone_on.is_none())
            && (!self.answered || (ran && !opened))
            && self.begun == [1, u32::from(steps > 0)]
            && self.at_last == Some(count)
            && self.next == Some(count + 1)
    }

    /// Which of four ways the call has gone: it was answered, or it was open with the new machine,
    /// or it was lost after its effect, or it was lost and never took effect.
    fn way(&self) -> usize
        ensures { result < 4 }
    {
        if self.answered {
            0
        } else if self.gone_on.is_some() {
            1
        } else if self.at_first == Some(1) {
            2
        } else {
            3
        }
    }
}

/// The memory, and its handle of a number.
fn enrolled(mut memory: Memory, number: u32) -> Result<(Memory, Handle), EnrolError>
    requires { IsMemory memory }
    ensures memory { IfOk result (λ r. IsMemory r.0) }
    ensures handle { IfOk result (λ r. IsHandle r.1) }
{
    match memory.enrol(number) {
        Ok(handle) => Ok((memory, handle)),
        Err(error) => Err(error),
    }
}

/// A new memory, and its two handles.
pub(crate) fn two_handles(alloc: Global) -> Result<(Memory, Handle, Handle), Fail>
    ensures memory { IfOk result (λ r. IsMemory r.0) }
    ensures handles { IfOk result (λ r. IsHandle r.1 × IsHandle r.2) }
{
    let memory = Memory::open(alloc, 2, 0, GREATEST_LIMIT)?;
    let (memory, first) = enrolled(memory, 0)?;
    let (memory, second) = enrolled(memory, 1)?;
    Ok((memory, first, second))
}

/// A handle makes a call: what its first instruction is answered.
pub(crate) fn value_of(mut handle: Handle, script: &Script) -> (Handle, Option<u32>)
    requires { IsHandle handle }
    ensures { IsHandle result.0 }
{
    match handle.run(script) {
        Ok(answer) => (handle, answer.reply.values[0]),
        Err(_) => (handle, None),
    }
}

/// A handle goes on with its open call, if it has one: what the first instruction is answered.
fn value_at_end(mut handle: Handle) -> (Handle, Option<u32>)
    requires { IsHandle handle }
    ensures { IsHandle result.0 }
{
    match handle.go_on() {
        Ok(answer) => (handle, answer.reply.values[0]),
        Err(_) => (handle, None),
    }
}

/// A handle makes at most so many steps of a call, and loses its machine.
fn lose(mut handle: Handle, script: &Script, steps: u64) -> Loss
    requires { IsHandle handle }
    ensures { IsLostHandle result.lost }
{
    let answered = handle.run_within(script, steps).is_ok();
    let begun = handle.begun();
    Loss {
        lost: handle.give_up(),
        answered,
        begun,
    }
}

/// A handle loses its machine in a call while another one makes a call, each in a thread.
fn lose_beside<R: Threads + Sync>(
    rt: &R,
    first: Handle,
    second: Handle,
    scripts: [&Script; 2],
    steps: u64,
) -> (Loss, Handle)
    requires first { IsHandle first }
    requires second { IsHandle second }
    ensures lost { IsLostHandle result.0.lost }
    ensures second { IsHandle result.1 }
{
    let [own, others] = scripts;
    let (loss, (second, _)) = join(
        rt,
        || -> Loss
            requires { IsHandle first }
            ensures { IsLostHandle result.lost }
        { lose(first, own, steps) },
        || -> (Handle, Option<u32>)
            requires { IsHandle second }
            ensures { IsHandle result.0 }
        { value_of(second, others) },
    );
    (loss, second)
}

/// The handle with a new machine; or the lost handle, if there is none yet.
fn tried(alloc: Global, lost: LostHandle) -> Result<Result<Handle, LostHandle>, AllocError>
    requires { IsLostHandle lost }
    ensures handle { IfOk result (λ r. IfOk r IsHandle) }
    ensures lost { IfOk result (λ r. IfErr r IsLostHandle) }
{
    let made = lost.made();
    match lost.revive(alloc, made) {
        Ok(handle) => Ok(Ok(handle)),
        Err((lost, NotRevived::NotYet(_))) => Ok(Err(lost)),
        Err(_) => Err(AllocError),
    }
}

/// The handle with a new machine, and the other handle. If the first try fails, the other handle
/// makes a call and the memory evicts the request, before the second and last try.
fn revived(
    alloc: Global,
    mut memory: Memory,
    lost: LostHandle,
    other: Handle,
    script: &Script,
) -> Result<Option<(Handle, Handle)>, AllocError>
    requires memory { IsMemory memory }
    requires lost { IsLostHandle lost }
    requires other { IsHandle other }
    ensures { IfOk result (λ r. IfSome r (λ h. IsHandle h.0 × IsHandle h.1)) }
{
    let lost = match tried(alloc, lost)? {
        Ok(handle) => return Ok(Some((handle, other))),
        Err(lost) => lost,
    };
    let (other, _) = value_of(other, script);
    memory.evict_request(lost.number());
    match tried(alloc, lost)? {
        Ok(handle) => Ok(Some((handle, other))),
        Err(_) => Ok(None),
    }
}

/// What becomes of a loss. The scripts are that of the lost call, that of the other handle's calls,
/// and one that reads the register.
fn course_of(
    alloc: Global,
    memory: Memory,
    loss: Loss,
    other: Handle,
    scripts: [&Script; 3],
) -> Result<Option<Course>, AllocError>
    requires memory { IsMemory memory }
    requires lost { IsLostHandle loss.lost }
    requires other { IsHandle other }
{
    let [own, others, read] = scripts;
    let Some((handle, other)) = revived(alloc, memory, loss.lost, other, others)? else {
        return Ok(None);
    };
    let begun = [loss.begun, handle.begun()];
    let (other, at_first) = value_of(other, read);
    let (handle, gone_on) = value_at_end(handle);
    let (other, _) = value_of(other, others);
    let (_, at_last) = value_of(other, read);
    let (_, next) = value_of(handle, own);
    Ok(Some(Course {
        answered: loss.answered,
        begun,
        at_first,
        gone_on,
        at_last,
        next,
    }))
}

#[test]
fn a_lost_call_runs_once_or_never(rt: HostRuntime) -> Result<(), Fail> {
    let alloc = rt.alloc();
    let scripts = [&parse(b"add 3 1")?, &parse(b"add 5 1")?, &parse(b"load 3")?];
    let mut ways = [false; 4];
    for steps in 0..MOST_STEPS {
        let (memory, first, second) = two_handles(alloc)?;
        let loss = lose(first, scripts[0], steps);
        let course = course_of(alloc, memory, loss, second, scripts)?;
        assert!(rt; course.is_some());
        if let Some(course) = course {
            assert!(rt; course.is_right(steps));
            ways[course.way()] = true;
        }
    }
    assert_eq!(rt; ways, [true; 4]);
    Ok(())
}

#[test]
fn a_call_is_lost_beside_another(rt: HostRuntime) -> Result<(), Fail> {
    let alloc = rt.alloc();
    let scripts = [&parse(b"add 3 1")?, &parse(b"add 5 1")?, &parse(b"load 3")?];
    for steps in 0..MOST_STEPS {
        let (memory, first, second) = two_handles(alloc)?;
        let beside = [scripts[0], scripts[1]];
        let (loss, second) = lose_beside(&rt, first, second, beside, steps);
        let course = course_of(alloc, memory, loss, second, scripts)?;
        assert!(rt; course.is_some());
        if let Some(course) = course {
            assert!(rt; course.is_right(steps));
        }
    }
    Ok(())
}
