//! A worker, and how it takes a job.

ghost use Rattle.std.specs.Prelude.{◌≡◌, ◌<◌};
ghost use Rattle.of_memory.specs.Handles.{IsHandle, IsSame};
ghost use Rattle.example_queue.specs.Jobs.{TakesJob, job_script};
ghost use Rattle.example_queue.specs.Workers.{OnlyTakes};

use of_memory::{Handle, Instr, Script, Task};
use std::alloc::{AllocError, Global};

/// A worker counts its jobs in a register of its own. Each of its calls makes at most a given
/// number of steps.
#[derive(Drop)]
pub struct Worker {
    register: u8,
    steps: u64,
    ghost in_range: { register < 4 },
}

impl Task for Worker {
    ghost does = { λ _ h _ k. OnlyTakes h k };

    fn work(&mut self, handle: &mut Handle) {
        let script = script_for(self.register);
        take(handle, &script, self.steps);
        take(handle, &script, self.steps);
    }
}

// Takes the first job of queue 0 and counts it. Register 15 says how many wait: if none does, the
// script is aborted.
fn script_for(register: u8) -> Script
    requires { register < 4 }
    ensures { result ≡ job_script register }
{
    Script::new(&[
        Instr::Sub { reg: 15, value: 1 },
        Instr::Pop { queue: 0 },
        Instr::Add {
            reg: register,
            value: 1,
        },
    ])
}

// Takes a job, unless the call is stopped or none waits.
fn take(handle: &mut Handle, script: &Script, steps: u64)
    requires handle { IsHandle handle.old }
    requires script { TakesJob script.now }
    ensures handle { IsHandle handle.new }
    ensures same { IsSame handle.old handle.new }
    ensures takes { OnlyTakes handle.old handle.new }
{
    let _answer = handle.run_within(script, steps);
}

/// Four workers. The calls of the third one make at most this many steps.
pub fn team(alloc: Global, steps: u64) -> Result<Vec<Worker>, AllocError> {
    let mut workers = Vec::new(alloc);
    for register in 0..4 {
        let steps = if register == 2 { steps } else { u64::MAX };
        workers.push(Worker { register, steps })?;
    }
    Ok(workers)
}
