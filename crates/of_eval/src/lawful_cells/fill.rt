//! Filling a store with what the cells hold.

ghost use Rattle.std.specs.Prelude.{◌≡◌, ◌≤◌, ◌<◌, None, [], ◌∷◌, ◌++◌, length, IfOk, OnOk};
ghost use Rattle.std.specs.FinMap as fm;
ghost use Rattle.of_mem.specs.declared.plot.TheConstants.{QUEUES};
ghost use Rattle.of_mem.specs.Plots.{data_cell_count};
ghost use Rattle.of_script.specs.Language.{IsInstrInRange, greatest};
ghost use Rattle.of_store.specs.Store.{run, stored_count, queue, with_key, with_queue};
ghost use Rattle.of_eval.specs.Walking.{HasRegisters, RegistersAreNumbers};

use of_mem::Plot;
use of_script::{Instr, REGISTERS, Script};
use of_store::Store;
use std::alloc::{AllocError, Global};

/// Runs one instruction on a store.
fn apply(store: &mut Store, instr: Instr) -> Result<(), AllocError>
    requires { IsInstrInRange instr }
    ensures { OnOk result (store.new ≡ (run store.old (instr ∷ [])).0) }
{
    store.run(&Script::new(&[instr]))?;
    Ok(())
}

/// Puts a number at a key that is new; the store must have room for it.
pub(crate) fn put(store: &mut Store, key: u32, value: u32) -> Result<(), AllocError>
    requires key { key ≤ greatest }
    requires value { value ≤ greatest }
    requires new { fm.get store.old.keys key ≡ None }
    requires room { stored_count store.old < store.old.room }
    ensures { OnOk result (store.new ≡ with_key store.old key value) }
{
    apply(store, Instr::Put { key, value })
}

/// Puts an item at the end of a queue; the store must have room for it.
pub(crate) fn push(store: &mut Store, q: u32, item: u32) -> Result<(), AllocError>
    requires q { q < QUEUES }
    requires item { item ≤ greatest }
    requires room { stored_count store.old < store.old.room }
    ensures { OnOk result (store.new ≡ with_queue store.old q (queue store.old q ++ item ∷ [])) }
{
    apply(
        store,
        Instr::Push {
            queue: q as u8,
            value: item,
        },
    )
}

/// The store with the registers that the cells hold, and with no key and no item.
pub(crate) fn begun_store(alloc: Global, plot: &Plot, cells: &[u32]) -> Result<Store, AllocError>
    requires sized { length cells.now ≡ data_cell_count plot.now }
    requires numbers { RegistersAreNumbers plot.now cells.now }
    ensures { IfOk result (HasRegisters plot.now cells.now REGISTERS) }
{
    let mut store = Store::new(alloc, plot.blocks)?;
    for r in 0..REGISTERS {
        let number = cells[plot.register(r as u32) as usize];
        apply(
            &mut store,
            Instr::Store {
                reg: r as u8,
                value: number,
            },
        )?;
    }
    Ok(store)
}
