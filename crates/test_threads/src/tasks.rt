//! Two tasks that work on a memory of cells at once, each with a handle of its own.

ghost use Rattle.std.specs.Prelude.{◌≡◌, IfOk};
ghost use Rattle.of_eval.specs.declared.scripts.Scripts.{Scripts as TheScripts};
ghost use Rattle.of_eval.specs.Scripts.{scripts_meaning, scripts_data_cells, LawfulCells};
ghost use Rattle.of_cells.specs.Handles.{IsCellHandle, IsSame};
ghost use Rattle.of_cells.specs.Memories.{IsCellMemory};
ghost use Rattle.of_cells.specs.Saving.{IsSavedCells};

use of_cell::GREATEST_LIMIT;
use of_cells::{CellHandle, CellMemory, CellTask, EnrolError, RunError, SavedCells};
use of_eval::Scripts;
use of_script::{MOST_INSTRS, parse, to_words};
use std::alloc::{AllocError, Global};
use std::test::Fail;
use std::thread::Threads;

const TWO_CALLERS: Scripts = Scripts {
    callers: 2,
    blocks: 0,
};

/// The cell of register 1, after the own cells of the callers.
const REGISTER_1: usize = 2 * 18 + 1;

/// Runs an operation of one word, and keeps why there is no answer.
#[derive(Drop)]
struct OneWord {
    word: u64,
    came: Option<RunError>,
}

impl CellTask<CellHandle<Scripts>> for OneWord {
    ghost may = { λ h. IsCellHandle scripts_meaning h };

    ghost does = { λ t h u k. IsCellHandle scripts_meaning k × IsSame h k };

    fn work(self, mut handle: CellHandle<Scripts>) -> (Self, CellHandle<Scripts>)
        requires { IsCellHandle scripts_meaning handle }
        ensures { IsCellHandle scripts_meaning result.1 × IsSame handle result.1 }
    {
        let came = handle.run(&[self.word]).err();
        let word = self.word;
        (OneWord { word, came }, handle)
    }
}

fn work_at_once<R: Threads + Sync>(
    rt: &R,
    memory: &mut CellMemory<Scripts>,
    tasks: &mut Vec<OneWord>,
) -> Result<(), EnrolError>
    requires { IsCellMemory scripts_meaning memory.old }
    ensures { IsCellMemory scripts_meaning memory.new }
{
    memory.at_once(rt, tasks)
}

/// What register 1 holds.
fn register(alloc: Global, saved: &SavedCells<Scripts>) -> Result<Option<u32>, AllocError>
    requires { IsSavedCells
        (λ (w : TheScripts). w.callers) scripts_data_cells scripts_meaning LawfulCells saved.now }
{
    Ok(saved.numbers(alloc)?.get(REGISTER_1).copied())
}

#[test]
fn tasks_of_cells_work_at_once(rt: HostRuntime) -> Result<(), Fail> {
    let alloc = rt.alloc();
    let mut words = [0; MOST_INSTRS];
    to_words(&parse(b"add 1 5")?, &mut words);
    let mut tasks = Vec::new(alloc);
    for _ in 0..2 {
        tasks.push(OneWord {
            word: words[0],
            came: None,
        })?;
    }
    let mut memory = CellMemory::open(alloc, TWO_CALLERS, GREATEST_LIMIT)?;
    work_at_once(&rt, &mut memory, &mut tasks)?;
    assert!(rt; tasks.iter().all(|task| task.came.is_none()));
    let saved = memory.close()?;
    assert_eq!(rt; register(alloc, &saved)?, Some(10));
    Ok(())
}
