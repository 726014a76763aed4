//! The report of a plan whose scripts run one after another.

ghost use Rattle.std.specs.Prelude.{◌≡◌, IfOk};
ghost use Rattle.of_plan.specs.Serial.{serial_line, serial_report};
ghost use Rattle.of_report.specs.Report.{report_value, HasWholeReplies};

mod cells;

use cells::Cells;
use of_plan::Plan;
use of_report::{EndState, Entry, Line, Report};
use of_script::Script;
use std::alloc::{AllocError, Global};

// The calls that have run one after another, and what they left.
#[derive(Drop)]
struct SerialRun {
    entries: Vec<Entry>,
    seq: u32,
    cells: Cells,
}

impl SerialRun {
    ghost use Rattle.std.specs.Prelude.{◌≡◌, ◌-◌, ◌^◌, ◌<◌, ◌≤◌, length, IfOk, OnOk};
    ghost use Rattle.of_serial.specs.SerialRun.{IsOnCourse, MakesSerialCall, HasMadeCalls, calls_within, RunsCaller};

    // Runs the next script of a caller.
    fn run_call(&mut self, caller: u32, index: u32, script: &Script) -> Result<(), AllocError>
        requires room { self.old.seq < 2 ^ 32 - 1 }
        requires has { IsOnCourse self.old }
        ensures { OnOk result (MakesSerialCall (caller, index) script.now self.old self.new) }
    {
        let reply = self.cells.run(script);
        self.seq += 1;
        self.entries.push(Entry {
            seq: self.seq,
            caller,
            index,
            announced: true,
            reply,
        })?;
        Ok(())
    }

    // Runs the scripts of a caller, as many as there are sequences left, and returns how many.
    fn run_caller(&mut self, plan: &Plan, caller: u32) -> Result<u32, AllocError>
        requires caller { caller < plan.now.callers }
        requires within { self.old.seq ≤ plan.now.limit }
        requires has { HasMadeCalls plan.now self.old }
        ensures within { OnOk result (self.new.seq ≤ plan.now.limit) }
        ensures count { IfOk result
            (λ count. count ≡ length (calls_within plan.now self.old.seq caller)) }
        ensures runs { OnOk result (RunsCaller plan.now caller self.old self.new) }
    {
        let scripts = plan.scripts(caller);
        let left = (plan.limit() - self.seq) as usize;
        let count = scripts.len().min(left);
        let scripts = &scripts[..count];
        for (index, script) in scripts.iter().enumerate() {
            self.run_call(caller, index as u32, script)?;
        }
        Ok(count as u32)
    }
}

// How a caller ended: it is done if each of its scripts has run.
fn line(answered: u32, scripts: usize) -> Line
    ensures { result ≡ serial_line answered scripts }
{
    let state = if answered as usize == scripts {
        EndState::Done
    } else {
        EndState::Spent
    };
    Line {
        state,
        answered,
        entries: answered,
        longest: 0,
    }
}

/// The report of a plan whose scripts run one after another, on cells: first all scripts of caller
/// 0, then those of each next caller, until the limit is reached. An error means out of memory.
pub fn serial(alloc: Global, plan: &Plan) -> Result<Report, AllocError>
    ensures whole { IfOk result HasWholeReplies }
    ensures report { IfOk result (λ report. report_value report ≡ serial_report plan.now) }
{
    let mut run = SerialRun {
        entries: Vec::new(alloc),
        seq: 0,
        cells: Cells::new(alloc, plan.callers(), plan.blocks())?,
    };
    let mut callers = Vec::new(alloc);
    for caller in 0..plan.callers() {
        let answered = run.run_caller(plan, caller)?;
        callers.push(line(answered, plan.scripts(caller).len()))?;
    }
    let SerialRun {
        entries,
        seq,
        cells,
    } = run;
    Ok(Report {
        entries,
        callers,
        seq,
        store: cells.store(alloc)?,
    })
}
