//! Theorems about what recovery and renumbering keep of a row and what they change. The functions
//! here do nothing: each one's contract is a theorem that proofs cite.

ghost use Rattle.std.specs.Prelude.{◌≡◌};
ghost use Rattle.std.proofs.Common.{take};
ghost use Rattle.of_recover.specs.OfShape.{IsShapeRow, IsClosed, row_after_recovery, recovery_writes_of, row_after_renumbering, renumbering_writes_of};
ghost use Rattle.of_recover.specs.Recovered.{RecoversData, ClosesRequest, KeepsOthers, KeepsUnnamed};
ghost use Rattle.of_recover.specs.Renumbered.{BeginsAnew, BeginsAnewPartly};
ghost use Rattle.of_recover.specs.Writes.{words_after_writes, IsUnderway};

use of_cell::Shape;

/// After a recovery the current transaction is not open, and a second recovery changes nothing.
pub fn recovered_twice(shape: &Shape, durable: &[u64])
    requires { IsShapeRow shape.now durable.now }
    ensures closed { IsClosed shape.now (row_after_recovery shape.now durable.now) }
    ensures same { let once = row_after_recovery shape.now durable.now in
        row_after_recovery shape.now once ≡ once }
{}

/// A recovery that stops between two of its writes loses nothing: after any number of its writes,
/// made in order, a second recovery leaves the same row as one that did not stop.
pub fn recovered_midway(shape: &Shape, durable: &[u64], made: usize)
    requires { IsShapeRow shape.now durable.now }
    ensures all { let writes = recovery_writes_of shape.now durable.now in
        words_after_writes writes durable.now ≡ row_after_recovery shape.now durable.now }
    ensures midway { let writes = recovery_writes_of shape.now durable.now in
        row_after_recovery shape.now (words_after_writes (take made writes) durable.now)
        ≡ row_after_recovery shape.now durable.now }
{}

/// Recovery leaves the same row if any of the data cells have their recovered words already, as
/// long as the request is not closed.
pub fn recovered_underway(shape: &Shape, durable: &[u64], later: &[u64])
    requires row { IsShapeRow shape.now durable.now }
    requires underway { IsUnderway shape.now.callers shape.now.cells durable.now later.now }
    ensures { row_after_recovery shape.now later.now ≡ row_after_recovery shape.now durable.now }
{}

/// What recovery does to each cell. The data cells get their recovered words, the request of an
/// open transaction is closed, and nothing else changes. A data cell that the log does not name
/// keeps its word.
pub fn recovered_cells(shape: &Shape, durable: &[u64])
    requires { IsShapeRow shape.now durable.now }
    ensures size { IsShapeRow shape.now (row_after_recovery shape.now durable.now) }
    ensures on_data { RecoversData shape.now.callers shape.now.cells durable.now
        (row_after_recovery shape.now durable.now) }
    ensures closed { ClosesRequest shape.now.callers durable.now
        (row_after_recovery shape.now durable.now) }
    ensures others { KeepsOthers shape.now.callers shape.now.cells durable.now
        (row_after_recovery shape.now durable.now) }
    ensures unnamed { KeepsUnnamed shape.now.callers shape.now.cells durable.now
        (row_after_recovery shape.now durable.now) }
{}

/// What renumbering does to a row: it begins anew at sequence 0, and its data cells keep their
/// numbers.
pub fn renumbered_row(shape: &Shape, durable: &[u64])
    requires { IsShapeRow shape.now durable.now }
    ensures { BeginsAnew shape.now.callers shape.now.cells durable.now
        (row_after_renumbering shape.now durable.now) }
{}

/// A renumbering that stops between two of its writes loses nothing. After any number of its
/// writes, made in order, the row has the same numbers, a table may start from it, and a second
/// renumbering leaves the same row as one that did not stop.
pub fn renumbered_midway(shape: &Shape, durable: &[u64], made: usize)
    requires row { IsShapeRow shape.now durable.now }
    requires closed { IsClosed shape.now durable.now }
    ensures all { let writes = renumbering_writes_of shape.now durable.now in
        words_after_writes writes durable.now ≡ row_after_renumbering shape.now durable.now }
    ensures midway { let writes = renumbering_writes_of shape.now durable.now in
        BeginsAnewPartly shape.now.callers shape.now.cells durable.now
        (words_after_writes (take made writes) durable.now) }
{}
