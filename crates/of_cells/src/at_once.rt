//! Tasks that work at once, each with a handle of its own, in a thread of its own.

ghost use Rattle.std.specs.Prelude.{◌≡◌, ◌+◌, ◌<◌, ◌≤◌, ◌++◌, ◌∷◌, [], length};
ghost use Rattle.std.specs.Prelude.{vec_len, vec_capacity};
ghost use Rattle.of_cells.specs.Tasks.{MayWork, MayAllWork, WorksOn, AllWorkOn};
ghost use Rattle.of_cells.specs.Tasks.{TakesAny, GivesBack};

use crate::error::EnrolError;
use crate::handle::CellHandle;
use crate::memory::CellMemory;
use of_mem::Work;
use std::alloc::AllocError;
use std::thread::{Threads, for_each_mut};

/// A task that works with a handle of type `H`, and keeps its results.
pub trait CellTask<H> {
    /// Which handles the task can work with.
    ghost may: { H → Type 0 } = { λ _. Unit {0} };

    /// What the task promises of its work: a fact about the task and its handle before the work,
    /// and about both after the work.
    ghost does: { Self → H → Self → H → Type 0 } = { λ _ _ _ _. Unit {0} };

    /// Works with a handle, and gives back the task and the handle.
    fn work(self, handle: H) -> (Self, H)
        requires { may handle }
        ensures { does self handle result.0 result.1 };
}

// Adds an item for which there is room.
fn put<T: Drop>(to: &mut Vec<T>, item: T)
    requires { vec_len to.old < vec_capacity to.old }
    ensures items { to.new.items ≡ to.old.items ++ item ∷ [] }
    ensures len { vec_len to.new ≡ vec_len to.old + 1 }
    ensures capacity { vec_capacity to.old ≤ vec_capacity to.new }
{
    let Ok(()) = to.push(item) else {
        unreachable!()
    };
}

// One task with its handle.
fn work_with<W: Work, J: CellTask<CellHandle<W>> + Drop>(slot: &mut Option<(CellHandle<W>, J)>)
    requires may { TakesAny W.meaning J.may }
    requires gives { GivesBack W.meaning J.does }
    requires slot { MayWork W.meaning slot.old }
    ensures { WorksOn W.meaning J.does slot.old slot.new }
{
    if let Some((handle, task)) = slot.take() {
        let (task, handle) = task.work(handle);
        *slot = Some((handle, task));
    }
}

// Each task with its handle, all at once: each in a thread of its own if one can be made.
fn work_all<W: Work + Send + Sync, J: CellTask<CellHandle<W>> + Send + Drop, R: Threads + Sync>(
    rt: &R,
    slots: &mut [Option<(CellHandle<W>, J)>],
)
    requires may { TakesAny W.meaning J.may }
    requires gives { GivesBack W.meaning J.does }
    requires slots { MayAllWork W.meaning slots.old }
    ensures { AllWorkOn W.meaning J.does slots.old slots.new }
{
    let threads = slots.len().max(1);
    for_each_mut(
        rt,
        slots,
        threads,
        &|_, slot: &mut Option<(CellHandle<W>, J)>|
            requires { TakesAny W.meaning J.may × GivesBack W.meaning J.does
                × MayWork W.meaning slot.now }
            ensures { WorksOn W.meaning J.does slot.entry.now slot.exit.now }
        { work_with(slot) },
    );
}

impl<W: Work + Send + Sync> CellMemory<W> {
    ghost use Rattle.std.specs.Prelude.{IfErr, OnOk, OnErr};
    ghost use Rattle.of_cells.specs.Memories.{IsCellMemory, IsStill, RemembersAll, callers_of};
    ghost use Rattle.of_cells.specs.Tasks.{HasHandedOut, MayAllLeave, HasTakenBack};
    ghost use Rattle.of_cells.specs.Tasks.{HaveWorked, KnowsRest, RestKnowsOrder, IsTaskCause};

    /// Works at all tasks at once. Each task has the handle whose number is the task's index in the
    /// list, and a thread of its own if one can be made. Then the handles leave. If a handle can't
    /// be enrolled, no task is begun, and no number stays taken. A task must be able to work with
    /// each handle of a memory, and must give back a handle of the same memory and number.
    pub fn at_once<J: CellTask<CellHandle<W>> + Send + Drop, R: Threads + Sync>(
        &mut self,
        rt: &R,
        tasks: &mut Vec<J>,
    ) -> Result<(), EnrolError>
        requires memory { IsCellMemory W.meaning self.old }
        requires may { TakesAny W.meaning J.may }
        requires gives { GivesBack W.meaning J.does }
        ensures memory { IsCellMemory W.meaning self.new }
        ensures still { IsStill self.old self.new }
        ensures worked { OnOk result
            (HaveWorked W.meaning J.does self.old self.new tasks.old.items tasks.new.items) }
        ensures rest { KnowsRest (length tasks.old.items) self.old self.new }
        ensures rest_order { RestKnowsOrder W.meaning (length tasks.old.items) self.old self.new }
        ensures unchanged { OnErr result (KnowsRest 0 self.old self.new) }
        ensures unchanged_order { OnErr result (RestKnowsOrder W.meaning 0 self.old self.new) }
        ensures tasks { OnErr result (tasks.new.items ≡ tasks.old.items) }
        ensures cause { IfErr result (IsTaskCause self.old (length tasks.old.items)) }
        ensures remembers { RemembersAll W.meaning self.old self.new }
    {
        let callers = self.callers();
        if tasks.len() > callers as usize {
            return Err(EnrolError::NoCaller { number: callers });
        }
        let Ok(mut slots) = Vec::with_capacity(self.alloc(), tasks.len()) else {
            return Err(EnrolError::OutOfMemory(AllocError));
        };
        match self.hand_out(tasks, &mut slots) {
            Ok(()) => {
                work_all(rt, slots.as_mut_slice());
                self.take_back(slots, tasks);
                Ok(())
            }
            Err(error) => {
                self.take_back(slots, tasks);
                Err(error)
            }
        }
    }
}

impl<W: Work> CellMemory<W> {
    ghost use Rattle.std.specs.Prelude.{IfErr, OnOk, OnErr};
    ghost use Rattle.of_cells.specs.Memories.{IsCellMemory, IsStill, RemembersAll, callers_of};
    ghost use Rattle.of_cells.specs.Tasks.{HasHandedOut, MayAllLeave, HasTakenBack};
    ghost use Rattle.of_cells.specs.Tasks.{HaveWorked, KnowsRest, RestKnowsOrder, IsTaskCause};

    /// Hands out a handle for each task, from the last task to the first. After an error, the tasks
    /// that have no handle are left in the list.
    pub fn hand_out<J: Drop>(
        &mut self,
        tasks: &mut Vec<J>,
        slots: &mut Vec<Option<(CellHandle<W>, J)>>,
    ) -> Result<(), EnrolError>
        requires memory { IsCellMemory W.meaning self.old }
        requires few { length tasks.old.items ≤ callers_of self.old }
        requires small { vec_len tasks.old < 4294967296 }
        requires none { slots.old.items ≡ [] }
        requires room { vec_len tasks.old ≤ vec_capacity slots.old }
        ensures memory { IsCellMemory W.meaning self.new }
        ensures still { IsStill self.old self.new }
        ensures out { HasHandedOut W.meaning self.old self.new
            tasks.old.items tasks.new.items slots.new.items }
        ensures all { OnOk result (tasks.new.items ≡ []) }
        ensures room { vec_capacity tasks.old ≤ vec_capacity tasks.new }
        ensures cause { IfErr result (IsTaskCause self.old (length tasks.old.items)) }
    {
        while let Some(task) = tasks.pop() {
            match self.enrol(tasks.len() as u32) {
                Ok(handle) => put(slots, Some((handle, task))),
                Err(error) => {
                    put(tasks, task);
                    return Err(error);
                }
            }
        }
        Ok(())
    }

    /// Each handle in `slots` leaves, the last one first, and its task is put at the end of the
    /// list of tasks.
    pub fn take_back<J: Drop>(
        &mut self,
        mut slots: Vec<Option<(CellHandle<W>, J)>>,
        tasks: &mut Vec<J>,
    )
        requires memory { IsCellMemory W.meaning self.old }
        requires slots { MayAllLeave W.meaning self.old (length tasks.old.items) slots.items }
        requires room { vec_len tasks.old + vec_len slots ≤ vec_capacity tasks.old }
        ensures memory { IsCellMemory W.meaning self.new }
        ensures still { IsStill self.old self.new }
        ensures back { HasTakenBack W.meaning self.old self.new
            tasks.old.items tasks.new.items 0 slots.items }
    {
        while let Some(slot) = slots.pop() {
            let Some((handle, task)) = slot else {
                unreachable!()
            };
            handle.leave(self);
            put(tasks, task);
        }
    }
}
