//! Tasks that work at once, each with a handle of its own, in a thread of its own.

ghost use Rattle.of_eval.specs.Scripts.{scripts_meaning};
ghost use Rattle.of_cells.specs.Tasks.{WorksOn, AllWorkOn};
ghost use Rattle.of_memory.specs.Tasks.{MayWork, MayAllWork, WorksWith};

use crate::handle::Handle;
use crate::memory::Memory;
use of_cells::{CellHandle, EnrolError};
use of_eval::Scripts;
use std::alloc::AllocError;
use std::thread::{Threads, for_each_mut};

/// A task that works with a handle, and keeps its results.
pub trait Task {
    ghost use Rattle.of_memory.specs.declared.handle.Handle.{Handle as TheHandle};
    ghost use Rattle.of_memory.specs.Handles.{IsHandle, IsSame};

    /// What the task promises of its work: a fact about the task and its handle before the work,
    /// and about both after the work.
    ghost does: { Self → TheHandle → Self → TheHandle → Type 0 } = { λ _ _ _ _. Unit {0} };

    /// Works with a handle of a memory.
    fn work(&mut self, handle: &mut Handle)
        requires { IsHandle handle.old }
        ensures handle { IsHandle handle.new }
        ensures same { IsSame handle.old handle.new }
        ensures done { does self.old handle.old self.new handle.new };
}

// One task with its handle.
fn work_with<J: Task + Drop>(slot: &mut Option<(CellHandle<Scripts>, J)>)
    requires { MayWork slot.old }
    ensures { WorksOn scripts_meaning (WorksWith J.does) slot.old slot.new }
{
    if let Some((handle, mut task)) = slot.take() {
        let mut handle = Handle { cells: handle };
        task.work(&mut handle);
        *slot = Some((handle.cells, task));
    }
}

// Each task with its handle, all at once: each in a thread of its own where one can be made.
fn work_all<J: Task + Send + Drop, R: Threads + Sync>(
    rt: &R,
    slots: &mut [Option<(CellHandle<Scripts>, J)>],
)
    requires { MayAllWork slots.old }
    ensures { AllWorkOn scripts_meaning (WorksWith J.does) slots.old slots.new }
{
    let threads = slots.len().max(1);
    for_each_mut(
        rt,
        slots,
        threads,
        &|_, slot: &mut Option<(CellHandle<Scripts>, J)>|
            requires { MayWork slot.now }
            ensures { WorksOn scripts_meaning (WorksWith J.does) slot.entry.now slot.exit.now }
        { work_with(slot) },
    );
}

impl Memory {
    ghost use Rattle.std.specs.Prelude.{◌≡◌, length, IfErr, OnOk, OnErr};
    ghost use Rattle.of_memory.specs.Memories.{IsMemory, IsStill, RemembersAll};
    ghost use Rattle.of_memory.specs.Tasks.{HaveWorked, KnowsRest, RestKnowsOrder, IsTaskCause};

    /// Works at all tasks at once. Each task has the handle whose number is the task's index in the
    /// list, and a thread of its own if one can be made. Then the handles leave. If a handle can't
    /// be enrolled, no task is begun, and no number stays taken.
    pub fn at_once<J: Task + Send + Drop, R: Threads + Sync>(
        &mut self,
        rt: &R,
        tasks: &mut Vec<J>,
    ) -> Result<(), EnrolError>
        requires { IsMemory self.old }
        ensures memory { IsMemory self.new }
        ensures still { IsStill self.old self.new }
        ensures worked { OnOk result
            (HaveWorked J.does self.old self.new tasks.old.items tasks.new.items) }
        ensures rest { KnowsRest (length tasks.old.items) self.old self.new }
        ensures rest_order { RestKnowsOrder (length tasks.old.items) self.old self.new }
        ensures unchanged { OnErr result (KnowsRest 0 self.old self.new) }
        ensures unchanged_order { OnErr result (RestKnowsOrder 0 self.old self.new) }
        ensures tasks { OnErr result (tasks.new.items ≡ tasks.old.items) }
        ensures cause { IfErr result (IsTaskCause self.old (length tasks.old.items)) }
        ensures remembers { RemembersAll self.old self.new }
    {
        let callers = self.callers();
        if tasks.len() > callers as usize {
            return Err(EnrolError::NoCaller { number: callers });
        }
        let Ok(mut slots) = Vec::with_capacity(self.alloc, tasks.len()) else {
            return Err(EnrolError::OutOfMemory(AllocError));
        };
        match self.cells.hand_out(tasks, &mut slots) {
            Ok(()) => {
                work_all(rt, slots.as_mut_slice());
                self.cells.take_back(slots, tasks);
                Ok(())
            }
            Err(error) => {
                self.cells.take_back(slots, tasks);
                Err(error)
            }
        }
    }
}
