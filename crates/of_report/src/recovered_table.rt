//! What recovery finds in the table that a run leaves.

ghost use Rattle.std.specs.Prelude.{◌≡◌, ◌<◌, ◌+◌, ◌*◌, ◌≤◌, ℕ, length, map, IfOk, slice_index, slice_range};
ghost use Rattle.of_cell.specs.Words.{payload_of};
ghost use Rattle.of_cell.specs.Cells.{data_cell, durable_cells, table_words};
ghost use Rattle.of_recover.specs.Row.{IsDurableRow};
ghost use Rattle.of_mem.specs.declared.work.TheConstants.{MOST_INSTRS};
ghost use Rattle.of_mem.specs.Places.{ticket_cell_at};
ghost use Rattle.of_mem.specs.Plots.{data_cell_count};
ghost use Rattle.of_store.specs.Store.{Store};
ghost use Rattle.of_eval.specs.Lawful.{reply_in};
ghost use Rattle.of_eval.specs.Record.{plan_data_cells};

use crate::data_cells;
use of_cell::{Shape, payload_of};
use of_eval::{LawErr, lawful};
use of_mem::{Plot, RawReply};
use of_plan::{Ended, Plan};
use of_recover::recover;
use of_store::Store;
use std::alloc::{AllocError, Global};

/// What recovery finds in a table.
#[derive(Drop)]
pub(crate) struct RecoveredTable {
    /// Where the data cells of the table are.
    pub plot: Plot,
    /// The sequence of the current transaction.
    pub seq: u32,
    /// The words of the data cells.
    pub words: Vec<u64>,
    ghost instrs: { plot.instrs ≡ MOST_INSTRS },
    ghost size: { length words.items ≡ data_cell_count plot },
}

/// The durable words of a table.
fn durable_words(alloc: Global, shape: &Shape, words: &[u64]) -> Result<Vec<u64>, AllocError>
    requires { length words.now ≡ table_words shape.now.callers shape.now.instrs shape.now.cells }
    ensures { let cells = durable_cells shape.now.callers shape.now.cells in
        IfOk result (λ durable. durable.items ≡ slice_range words.now cells (cells + cells)) }
{
    let cells = shape.durable_cells() as usize;
    Vec::from_slice(alloc, &words[cells..cells + cells])
}

/// The words of the data cells in a durable row.
fn data_words(alloc: Global, shape: &Shape, durable: &[u64]) -> Result<Vec<u64>, AllocError>
    requires { IsDurableRow shape.now.callers shape.now.cells durable.now }
    ensures { let first = data_cell shape.now.callers 0 in IfOk result (λ words.
        words.items ≡ slice_range durable.now first (first + shape.now.cells)) }
{
    let first = shape.data_cell(0) as usize;
    Vec::from_slice(alloc, &durable[first..first + shape.cells as usize])
}

impl RecoveredTable {
    ghost use Rattle.of_report.specs.Found.{HasFound, FoundStandsFor, found_number};

    /// What recovery finds in the table of a plan when its run has ended.
    pub fn find(alloc: Global, plan: &Plan, ended: &Ended) -> Result<RecoveredTable, AllocError>
        requires { length ended.now.words
            ≡ table_words plan.now.callers MOST_INSTRS (plan_data_cells plan.now) }
        ensures { IfOk result (HasFound plan.now ended.now) }
    {
        let plot = plan.plot();
        let shape = plan.shape();
        let mut durable = durable_words(alloc, &shape, &ended.words)?;
        let seq = recover(&shape, &mut durable).seq;
        let words = data_words(alloc, &shape, &durable)?;
        Ok(RecoveredTable { plot, seq, words })
    }

    /// The word of a caller's ticket cell.
    pub fn ticket(&self, caller: u32) -> u64
        requires { caller < self.now.plot.callers }
        ensures { result ≡ slice_index self.now.words.items (ticket_cell_at MOST_INSTRS caller) }
    {
        self.words[self.plot.ticket(caller) as usize]
    }

    /// The reply in a caller's own cells.
    pub fn reply(&self, caller: u32) -> RawReply
        requires { caller < self.now.plot.callers }
        ensures { result ≡ reply_in MOST_INSTRS (found_number self.now) caller }
    {
        data_cells::reply(&self.plot, &self.words, caller)
    }

    /// The numbers of the data cells.
    fn numbers(&self, alloc: Global) -> Result<Vec<u32>, AllocError>
        ensures { IfOk result (λ numbers. numbers.items ≡ map payload_of self.now.words.items) }
    {
        self.words
            .iter()
            .map(|word| payload_of(*word))
            .collect(alloc)
    }

    /// The store that the data cells stand for.
    pub fn store(&self, alloc: Global) -> Result<Store, AllocError>
        requires { (s : Store) × FoundStandsFor self.now s }
        ensures { IfOk result (λ store. (s : Store) → FoundStandsFor self.now s → store ≡ s) }
    {
        let numbers = self.numbers(alloc)?;
        match lawful(alloc, &self.plot, &numbers) {
            Ok(store) => Ok(store),
            Err(LawErr::Memory) => Err(AllocError),
            Err(LawErr::Unlawful { .. }) => unreachable!(),
        }
    }
}
