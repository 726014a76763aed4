//! The plan of a load.

ghost use Rattle.std.specs.Prelude.{◌≡◌, ◌≤◌, ◌<◌, ◌*◌, IfOk};
ghost use Rattle.of_plan.specs.declared.plan.TheConstants.{MOST_PLAN_CALLERS, MOST_SCRIPTS};
ghost use Rattle.of_plan.specs.Generated.{load_script, load_scripts, generated_plan};

use crate::plan::{MOST_PLAN_BLOCKS, Plan};
use of_cell::GREATEST_LIMIT;
use of_script::{Instr, REGISTERS, Script};
use std::alloc::{AllocError, Global};

// How many keys a caller has for its own.
const OWN_KEYS: u32 = 31;

// A script of a caller: it adds to a register, and puts its index at a key of the caller's own.
fn load_script(caller: u32, index: u32) -> Script
    requires caller { caller < MOST_PLAN_CALLERS }
    requires index { index < MOST_SCRIPTS }
    ensures { result ≡ load_script caller index }
{
    Script::new(&[
        Instr::Add {
            reg: (index % REGISTERS as u32) as u8,
            value: 1,
        },
        Instr::Put {
            key: OWN_KEYS * caller + index % OWN_KEYS,
            value: index,
        },
    ])
}

// The scripts of a caller.
fn load_scripts(alloc: Global, caller: u32, count: u32) -> Result<Vec<Script>, AllocError>
    requires caller { caller < MOST_PLAN_CALLERS }
    requires count { count ≤ MOST_SCRIPTS }
    ensures { IfOk result (λ scripts. scripts.items ≡ load_scripts count caller) }
{
    let mut scripts = Vec::with_capacity(alloc, count as usize)?;
    for index in 0..count {
        scripts.push(load_script(caller, index))?;
    }
    Ok(scripts)
}

/// The plan of a load: 1 to `MOST_PLAN_CALLERS` callers, each with this many scripts, at most
/// `MOST_SCRIPTS` together, on `MOST_PLAN_BLOCKS` blocks, without a stop and a schedule. All
/// callers add to the same registers, and each puts at keys of its own.
pub fn generate(alloc: Global, callers: u32, scripts: u32) -> Result<Plan, AllocError>
    requires some { 1 ≤ callers }
    requires few { callers ≤ MOST_PLAN_CALLERS }
    requires scripts { callers * scripts ≤ MOST_SCRIPTS }
    ensures { IfOk result (λ plan. plan ≡ generated_plan callers scripts) }
{
    let mut all = Vec::new(alloc);
    let mut stops = Vec::new(alloc);
    for caller in 0..callers {
        all.push(load_scripts(alloc, caller, scripts)?)?;
        stops.push(None)?;
    }
    Ok(Plan {
        callers,
        blocks: MOST_PLAN_BLOCKS,
        limit: GREATEST_LIMIT,
        scripts: all,
        stops,
        schedule: Vec::new(alloc),
    })
}
