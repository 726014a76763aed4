//! What recovery finds in a row.

ghost use Rattle.std.specs.Prelude.{◌≡◌, ℕ, ◌≤◌, ◌<◌, ◌+◌, length, map, IfOk, IfErr, MatchOption, slice_index, slice_range};
ghost use Rattle.of_cell.specs.Words.{seq_of, payload_of};
ghost use Rattle.of_cell.specs.Cells.{data_cell};
ghost use Rattle.of_recover.specs.Row.{IsDurableRow};
ghost use Rattle.of_mem.specs.Plots.{data_cell_count};
ghost use Rattle.of_report.specs.ImageRow.{IsRow, row_in};
ghost use Rattle.of_report.specs.ImageLaw.{IsLawfulRow, NoneNewer};
ghost use Rattle.of_image.specs.declared.refusal.ImageFault.TheVariants.{Cell};
ghost use Rattle.of_image.specs.declared.refusal.Refusal.TheVariants.{Fault};
ghost use Rattle.of_image.specs.RowFault.{IsFirstNewer};
ghost use Rattle.of_image.specs.Parsed.{NamesRowFault};
ghost use Rattle.of_report.specs.Image.{IsRestored};
ghost use Rattle.of_report.specs.ImageRow.{recovered_row};

use crate::law::Law;
use crate::refusal::{ImageFault, Refusal};
use of_cell::{Shape, payload_of, seq_of};
use of_eval::{LawErr, lawful};
use of_mem::Plot;
use of_plan::table_shape;
use of_recover::recover;
use of_report::Image;
use of_store::Store;
use std::alloc::{AllocError, Global};

/// The first data cell that is newer than the current transaction, if there is one.
fn first_newer(shape: &Shape, words: &[u64]) -> Option<u32>
    requires { IsDurableRow shape.now.callers shape.now.cells words.now }
    ensures { MatchOption result
        (NoneNewer shape.now.callers words.now shape.now.cells)
        (λ a. (a < shape.now.cells) × IsFirstNewer shape.now.callers words.now a) }
{
    let seq = seq_of(words[shape.cur() as usize]);
    for a in 0..shape.cells {
        if seq < seq_of(words[shape.data_cell(a) as usize]) {
            return Some(a);
        }
    }
    None
}

/// The numbers of the data cells.
fn numbers(alloc: Global, shape: &Shape, words: &[u64]) -> Result<Vec<u32>, AllocError>
    requires { IsDurableRow shape.now.callers shape.now.cells words.now }
    ensures { let first = data_cell shape.now.callers 0 in IfOk result (λ numbers.
        numbers.items ≡ map payload_of (slice_range words.now first (first + shape.now.cells))) }
{
    let first = shape.data_cell(0) as usize;
    words[first..first + shape.cells as usize]
        .iter()
        .map(|word| payload_of(*word))
        .collect(alloc)
}

// The refusal that a cell breaks a law.
fn unlawful(cell: u32, law: Law) -> Refusal
    ensures { result ≡ Fault (Cell cell law) }
{
    let fault = ImageFault::Cell { cell, law };
    Refusal::Fault { fault }
}

/// The store for which a recovered row stands.
fn lawful_store(alloc: Global, plot: &Plot, words: &[u64]) -> Result<Store, Refusal>
    requires { IsDurableRow plot.now.callers (data_cell_count plot.now) words.now }
    ensures ok { IfOk result (IsLawfulRow plot.now.instrs (row_in plot.now words.now)) }
    ensures err { IfErr result (NamesRowFault plot.now.instrs (row_in plot.now words.now)) }
{
    let shape = table_shape(plot);
    if payload_of(words[shape.cur() as usize]) >= plot.callers {
        return Err(unlawful(shape.cur(), Law::Owner));
    }
    match first_newer(&shape, words) {
        None => {}
        Some(a) => {
            return Err(unlawful(shape.data_cell(a), Law::Newest));
        }
    }
    let numbers = numbers(alloc, &shape, words)?;
    match lawful(alloc, plot, &numbers) {
        Ok(store) => Ok(store),
        Err(LawErr::Memory) => Err(Refusal::Memory),
        Err(LawErr::Unlawful { cell }) => Err(unlawful(shape.data_cell(cell), Law::Store)),
    }
}

/// What recovery finds in a row.
pub(crate) fn restore(alloc: Global, plot: &Plot, words: Vec<u64>) -> Result<Image, Refusal>
    requires { IsDurableRow plot.now.callers (data_cell_count plot.now) words.items }
    ensures ok { IfOk result (λ image.
        IsRestored plot.now.instrs (row_in plot.now words.items) image) }
    ensures err { let found = recovered_row plot.now.instrs (row_in plot.now words.items) in
        IfErr result (NamesRowFault plot.now.instrs found) }
{
    let mut durable = words;
    let recovered = recover(&table_shape(plot), &mut durable);
    let store = lawful_store(alloc, plot, &durable)?;
    Ok(Image {
        callers: plot.callers,
        blocks: plot.blocks,
        durable,
        recovered,
        store,
    })
}
