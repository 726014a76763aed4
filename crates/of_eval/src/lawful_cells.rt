//! Making the store for which data cells stand.

ghost use Rattle.std.specs.Prelude.{◌≡◌, IfOk, IfErr, MatchResult, length};
ghost use Rattle.of_mem.specs.Plots.{data_cell_count};
ghost use Rattle.of_store.specs.Store.{Store};
ghost use Rattle.of_eval.specs.Walking.{NamesFault, CellsStandFor};
ghost use Rattle.of_eval.specs.declared.lawful_cells.LawErr.TheVariants.{Memory};

mod fill;
mod own;
mod walk;

use crate::lawful_cells::fill::begun_store;
use crate::lawful_cells::own::callers;
use crate::lawful_cells::walk::{all_met, bucket, free_list, fresh, keys, queue, registers};
use of_mem::Plot;
use of_script::QUEUES;
use of_store::Store;
use std::alloc::{AllocError, Global};
use thiserror::Error;

/// Why `lawful` answers no store: there is not enough memory, or the cells stand for no store and
/// this is the first cell at fault.
#[derive(Clone, Copy, Debug, PartialEq, Eq, Error)]
pub enum LawErr {
    #[error("out of memory")]
    Memory,
    #[error("cell {cell} stands for no store")]
    Unlawful { cell: u32 },
}

impl From<AllocError> for LawErr {
    ghost use Rattle.std.specs.Prelude.{◌≡◌};
    ghost use Rattle.of_eval.specs.declared.lawful_cells.LawErr.TheVariants.{Memory};

    ghost from_gives = { λ _ e. e ≡ Memory };

    fn from(_e: AllocError) -> LawErr {
        LawErr::Memory
    }
}

/// Looks at the cells in order, and makes the store for which they stand.
fn read_store(alloc: Global, plot: &Plot, cells: &[u32]) -> Result<Store, LawErr>
    requires { length cells.now ≡ data_cell_count plot.now }
    ensures ok { IfOk result (CellsStandFor plot.now cells.now) }
    ensures unlawful { IfErr result (NamesFault plot.now cells.now) }
{
    callers(plot, cells)?;
    registers(plot, cells)?;
    let fresh = fresh(plot, cells)?;
    let mut owners = vec![in alloc; 0; fresh as usize]?;
    free_list(plot, cells, &mut owners)?;
    let mut store = begun_store(alloc, plot, cells)?;
    for b in 0..plot.buckets() {
        bucket(plot, cells, b, &mut owners, &mut store)?;
    }
    keys(plot, cells, &store)?;
    for q in 0..QUEUES {
        queue(plot, cells, q as u32, &mut owners, &mut store)?;
    }
    all_met(plot, cells, &owners)?;
    Ok(store)
}

/// The store for which the data cells stand; the callers' own cells must be sound too. An error
/// `Unlawful` says that the cells stand for no store, and names the first cell at fault. The cells
/// are looked at in this order: the callers' own cells, registers, the free list, buckets, queues.
pub fn lawful(alloc: Global, plot: &Plot, cells: &[u32]) -> Result<Store, LawErr>
    requires { length cells.now ≡ data_cell_count plot.now }
    // What is answered is what the cells stand for.
    ensures ok { IfOk result (CellsStandFor plot.now cells.now) }
    // A cell that is named is the first at fault.
    ensures unlawful { IfErr result (NamesFault plot.now cells.now) }
    // Cells that stand for a store are answered by it, unless memory runs out.
    ensures only { (s : Store) → CellsStandFor plot.now cells.now s →
        MatchResult result (λ t. t ≡ s) (λ e. e ≡ Memory) }
{
    read_store(alloc, plot, cells)
}
