//! Renumbering of a recovered row in place: its data cells keep their numbers, and sequences begin
//! at 0 again.

ghost use Rattle.std.specs.Prelude.{◌≡◌};
ghost use Rattle.std.proofs.Common.{take};
ghost use Rattle.of_recover.specs.OfShape.{IsShapeRow, IsClosed, row_after_renumbering, renumbering_writes_of};
ghost use Rattle.of_recover.specs.Recovered.{is_data};
ghost use Rattle.of_recover.specs.Renumbered.{renumbered_word};
ghost use Rattle.of_recover.specs.Writes.{words_after_writes};

use of_cell::{Shape, pack, payload_of};

// Whether a cell is a data cell.
fn is_data(shape: &Shape, cell: usize) -> bool
    ensures { result ≡ is_data shape.now.callers shape.now.cells cell }
{
    let callers = shape.callers as usize;
    callers < cell && cell < callers + 1 + shape.cells as usize
}

// The word of a cell when the sequences have begun anew.
fn renumbered_word(shape: &Shape, cell: usize, word: u64) -> u64
    ensures { result ≡ renumbered_word shape.now.callers shape.now.cells (λ c. word) cell }
{
    if is_data(shape, cell) {
        pack(0, payload_of(word))
    } else {
        0
    }
}

/// Renumbers a recovered row, so that its sequences begin at 0 again. Each data cell keeps its
/// number and gets the sequence 0. All other cells become 0, as in a new table.
pub fn renumber(shape: &Shape, durable: &mut [u64])
    requires row { IsShapeRow shape.now durable.old }
    requires closed { IsClosed shape.now durable.old }
    ensures { durable.new ≡ row_after_renumbering shape.now durable.old }
{
    let cells = durable.len();
    renumber_partly(shape, durable, cells);
}

/// Makes the first `most` writes of a renumbering, in order, or all of them if there are fewer. The
/// current-transaction word is written last, since no data cell may be newer than this word. So the
/// row that is left has the same numbers and may be renumbered again (`laws::renumbered_midway`).
pub fn renumber_partly(shape: &Shape, durable: &mut [u64], most: usize)
    requires { IsShapeRow shape.now durable.old }
    ensures { let writes = renumbering_writes_of shape.now durable.old in
        durable.new ≡ words_after_writes (take most writes) durable.old }
{
    let cells = durable.len();
    for made in 0..most.min(cells) {
        let cell = cells - 1 - made;
        durable[cell] = renumbered_word(shape, cell, durable[cell]);
    }
}
