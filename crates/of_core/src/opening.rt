//! The words of a table at its start.

ghost use Rattle.std.specs.Prelude.{◌≡◌, ◌<◌, length, IfOk};
ghost use Rattle.std.proofs.Common.{get_or};
ghost use Rattle.of_cell.specs.Words.{payload_of};
ghost use Rattle.of_cell.specs.Cells.{durable_cells, table_words as cell_words};
ghost use Rattle.of_core.specs.Starts.{closed_request, first_cells, first_words, start_on};

use of_cell::{Shape, pack, payload_of, seq_of};
use std::alloc::{AllocError, Global};

// The request of a start's owner: closed, if any transaction was committed before the start.
fn closed(seq: u32) -> u64
    ensures { result ≡ closed_request seq }
{
    if seq == 0 { 0 } else { pack(seq, 1) }
}

// The cells at the start that a durable row is, with room for the other words of the table.
fn first_cells(alloc: Global, shape: &Shape, durable: &[u64]) -> Result<Vec<u64>, AllocError>
    requires row { length durable.now ≡ durable_cells shape.now.callers shape.now.cells }
    requires owner { payload_of (get_or durable.now 0 0) < shape.now.callers }
    ensures { IfOk result (λ cells. cells.items
        ≡ first_cells shape.now.callers shape.now.cells (start_on shape.now durable.now)) }
{
    let current = durable[shape.cur() as usize];
    let first = shape.data_cell(0) as usize;
    let mut cells = vec![in alloc; 0; shape.callers as usize + 1]?;
    cells.reserve(shape.words() as usize)?;
    cells[0] = current;
    cells[shape.request(payload_of(current)) as usize] = closed(seq_of(current));
    cells.extend_from_slice(&durable[first..first + shape.cells as usize])?;
    cells.resize(shape.durable_cells() as usize, 0)?;
    Ok(cells)
}

/// The words of a table that starts from a durable row. First come the cells: the row's
/// current-transaction word and data cells, the owner's request as closed, and 0 elsewhere. Then
/// come their durable words, which are the same, and then 0. The error is that there is no memory.
pub fn first_words(alloc: Global, shape: &Shape, durable: &[u64]) -> Result<Vec<u64>, AllocError>
    requires row { length durable.now ≡ durable_cells shape.now.callers shape.now.cells }
    requires owner { payload_of (get_or durable.now 0 0) < shape.now.callers }
    ensures { IfOk result (λ words. words.items
        ≡ first_words shape.now.callers shape.now.cells (start_on shape.now durable.now)
        (cell_words shape.now.callers shape.now.instrs shape.now.cells)) }
{
    let mut words = first_cells(alloc, shape, durable)?;
    words.extend_from_within(..)?;
    words.resize(shape.words() as usize, 0)?;
    Ok(words)
}
