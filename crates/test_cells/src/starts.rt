//! A bank that starts from durable words: those of one caller that has left 7 in register 3.

ghost use Rattle.std.specs.Prelude.{◌≡◌, ◌≤◌};
ghost use Rattle.test_cells.specs.Starts.{alone, stored_row, MayStartFrom};

use of_cell::{Shape, pack};
use of_core::Bank;
use of_eval::Scripts;
use of_mem::MOST_INSTRS;
use std::alloc::{AllocError, Global};
use std::test::Fail;

/// The durable words, all of sequence 0.
fn stored() -> [u64; 246]
    ensures { result ≡ stored_row 0 0 }
{
    let mut row = [0; 246];
    row[0] = pack(0, 0);
    row[2] = pack(0, 1);
    row[3] = pack(0, 65_536);
    row[4] = pack(0, 0);
    row[23] = pack(0, 7);
    row
}

/// The same. A table with this limit may start from them.
fn with_a_store(limit: u32) -> [u64; 246]
    ensures { MayStartFrom alone limit result }
{
    let _ = limit;
    stored()
}

/// The words of a bank that starts from these.
fn bank_from(alloc: Global, limit: u32, durable: [u64; 246]) -> Result<Vec<u64>, AllocError>
    requires limit { limit ≤ 4294967294 }
    requires row { MayStartFrom alone limit durable }
{
    let scripts = Scripts {
        callers: 1,
        blocks: 0,
    };
    let shape = Shape {
        callers: 1,
        instrs: MOST_INSTRS as u32,
        cells: 81,
    };
    let bank = Bank::start(alloc, shape, limit, scripts, durable.as_slice())?;
    Ok(bank.words())
}

#[test]
fn a_bank_starts_from_durable_words(rt: HostRuntime) -> Result<(), Fail> {
    let words = bank_from(rt.alloc(), 5, with_a_store(5))?;
    assert_eq!(rt; words.get(2).copied(), Some(pack(0, 1)));
    assert_eq!(rt; words.get(23).copied(), Some(pack(0, 7)));
    Ok(())
}
