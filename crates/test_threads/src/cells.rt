//! Two days of a memory of cells, each with a call that is stopped twice and goes on. A function is
//! proved with all clauses of all its calls at hand, so those that call a memory are short and pass
//! few clauses on.

ghost use Rattle.std.specs.Prelude.{◌≤◌, IfOk, length};
ghost use Rattle.of_script.specs.declared.instr.TheConstants.{MOST_INSTRS};
ghost use Rattle.of_eval.specs.declared.scripts.Scripts.{Scripts as TheScripts};
ghost use Rattle.of_eval.specs.Scripts.{scripts_meaning, scripts_data_cells, LawfulCells};
ghost use Rattle.of_cells.specs.Handles.{IsCellHandle, IsSame};
ghost use Rattle.of_cells.specs.Memories.{IsCellMemory, IsFrom};
ghost use Rattle.of_cells.specs.Saving.{IsSavedCells};

use of_cell::GREATEST_LIMIT;
use of_cells::{CellHandle, CellMemory, EnrolError, InUse, RunError, SavedCells};
use of_eval::Scripts;
use of_script::{MOST_INSTRS, parse, to_words};
use std::alloc::{AllocError, Global};
use std::test::Fail;

const ONE_CALLER: Scripts = Scripts {
    callers: 1,
    blocks: 0,
};

/// The cell of register 1, after the own cells of the caller.
const REGISTER_1: usize = 18 + 1;

/// The memory, and the handle of its caller.
fn enrolled(
    mut memory: CellMemory<Scripts>,
) -> Result<(CellMemory<Scripts>, CellHandle<Scripts>), EnrolError>
    requires { IsCellMemory scripts_meaning memory }
    ensures memory { IfOk result (λ r. IsCellMemory scripts_meaning r.0) }
    ensures handle { IfOk result (λ r. IsCellHandle scripts_meaning r.1) }
    ensures from { IfOk result (λ r. IsFrom r.0 r.1) }
{
    match memory.enrol(0) {
        Ok(handle) => Ok((memory, handle)),
        Err(error) => Err(error),
    }
}

/// The handle that has run an operation for at most so many steps, and why there is no answer.
fn ran_within(
    mut handle: CellHandle<Scripts>,
    op: &[u64],
    steps: u64,
) -> (CellHandle<Scripts>, Option<RunError>)
    requires handle { IsCellHandle scripts_meaning handle }
    requires some { 1 ≤ length op.now }
    requires few { length op.now ≤ MOST_INSTRS }
    ensures handle { IsCellHandle scripts_meaning result.0 }
    ensures same { IsSame handle result.0 }
{
    let came = handle.run_within(op, steps).err();
    (handle, came)
}

/// The handle that has gone on with its open call for at most so many steps, and why there is no
/// answer.
fn gone_on_within(
    mut handle: CellHandle<Scripts>,
    steps: u64,
) -> (CellHandle<Scripts>, Option<RunError>)
    requires { IsCellHandle scripts_meaning handle }
    ensures handle { IsCellHandle scripts_meaning result.0 }
    ensures same { IsSame handle result.0 }
{
    let came = handle.go_on_within(steps).err();
    (handle, came)
}

/// The handle that has gone on with its open call to the answer, and the first number of its reply.
fn gone_on(mut handle: CellHandle<Scripts>) -> Result<(CellHandle<Scripts>, u32), RunError>
    requires { IsCellHandle scripts_meaning handle }
    ensures handle { IfOk result (λ r. IsCellHandle scripts_meaning r.0) }
    ensures same { IfOk result (λ r. IsSame handle r.0) }
{
    match handle.go_on() {
        Ok(answer) => Ok((handle, answer.raw.values[0])),
        Err(error) => Err(error),
    }
}

/// What the memory leaves after its handle has left.
fn closed(
    mut memory: CellMemory<Scripts>,
    handle: CellHandle<Scripts>,
) -> Result<SavedCells<Scripts>, InUse<Scripts>>
    requires memory { IsCellMemory scripts_meaning memory }
    requires handle { IsCellHandle scripts_meaning handle }
    requires from { IsFrom memory handle }
    ensures { IfOk result (IsSavedCells
        (λ (w : TheScripts). w.callers) scripts_data_cells scripts_meaning LawfulCells) }
{
    handle.leave(&mut memory);
    memory.close()
}

/// What a call came to that may make three steps, then two more, and then as many as it needs: how
/// often it had asked when it was stopped, and the first number of its reply. And what is saved.
fn day_on(
    memory: CellMemory<Scripts>,
    op: &[u64],
) -> Result<([Option<RunError>; 2], u32, SavedCells<Scripts>), Fail>
    requires memory { IsCellMemory scripts_meaning memory }
    requires some { 1 ≤ length op.now }
    requires few { length op.now ≤ MOST_INSTRS }
    ensures { IfOk result (λ r. IsSavedCells
        (λ (w : TheScripts). w.callers) scripts_data_cells scripts_meaning LawfulCells r.2) }
{
    let (memory, handle) = enrolled(memory)?;
    let (handle, first) = ran_within(handle, op, 3);
    let (handle, second) = gone_on_within(handle, 2);
    let (handle, sum) = gone_on(handle)?;
    Ok(([first, second], sum, closed(memory, handle)?))
}

/// What register 1 holds.
fn register(alloc: Global, saved: &SavedCells<Scripts>) -> Result<Option<u32>, AllocError>
    requires { IsSavedCells
        (λ (w : TheScripts). w.callers) scripts_data_cells scripts_meaning LawfulCells saved.now }
{
    Ok(saved.numbers(alloc)?.get(REGISTER_1).copied())
}

#[test]
fn a_stopped_call_of_cells_goes_on(rt: HostRuntime) -> Result<(), Fail> {
    let alloc = rt.alloc();
    let mut words = [0; MOST_INSTRS];
    let count = to_words(&parse(b"add 1 5")?, &mut words) as usize;
    let op = &words[..count];
    let stops = [
        Some(RunError::Stopped { asked: 4 }),
        Some(RunError::Stopped { asked: 3 }),
    ];
    let (stopped, sum, noon) = day_on(CellMemory::open(alloc, ONE_CALLER, GREATEST_LIMIT)?, op)?;
    assert_eq!(rt; (stopped, sum), (stops, 5));
    let (stopped, sum, evening) = day_on(CellMemory::reopen(alloc, &noon)?, op)?;
    assert_eq!(rt; (stopped, sum), (stops, 10));
    assert_eq!(rt; register(alloc, &evening)?, Some(10));
    assert!(rt; evening.callers() == 1);
    assert_eq!(rt; evening.ticket(0), 2);
    Ok(())
}
