//! Theorems about every plot, and about works whose operations are programs: functions that do
//! nothing, whose contracts are the theorems.

ghost use Rattle.std.specs.Prelude.{◌≡◌, ◌<◌, ◌≤◌, ◌+◌, ◌-◌, ◌*◌, ◌%◌};
ghost use Rattle.of_mem.specs.declared.work.TheConstants.{MOST_INSTRS, MOST_DATA_CELLS};
ghost use Rattle.of_mem.specs.declared.plot.TheConstants.{MOST_BLOCKS};
ghost use Rattle.of_mem.specs.Places.{bucket_count};
ghost use Rattle.of_mem.specs.Plots.{CellPlacesDiffer, data_cell_count};
ghost use Rattle.of_mem.specs.ProgramTouches.{HasSmallPrograms};
ghost use Rattle.of_mem.specs.Touching.{TouchesFew};

use crate::plot::Plot;
use crate::work::Work;

/// Data cells for different uses have different addresses, all below the number of data cells.
pub fn places_differ(plot: Plot)
    ensures { CellPlacesDiffer plot }
{}

/// How many buckets a store has. With at most 512 blocks it has 32. With more it has an odd number
/// of them: at least 32, and one more for each block above 512.
#[tactic(auto, using(crate::proofs::BucketPlaces::some_buckets, crate::proofs::BucketPlaces::few_count, crate::proofs::BucketPlaces::many_count))]
pub fn buckets_follow_blocks(blocks: u32)
    ensures some { 1 ≤ bucket_count blocks }
    ensures few { blocks ≤ 512 → bucket_count blocks ≡ 32 }
    ensures many { 512 < blocks → 32 + (blocks - 512) ≤ bucket_count blocks }
    ensures odd { 512 < blocks → bucket_count blocks % 2 ≡ 1 }
{}

/// The greatest number of blocks as a plain number. And no plot has more data cells than a table
/// may have.
pub fn numbers(plot: Plot)
    ensures blocks { MOST_BLOCKS ≡ 16777216 }
    ensures cells { data_cell_count plot ≤ MOST_DATA_CELLS }
{}

/// If the programs of a work make at most `reads` reads and `writes` writes, then each operation of
/// the work reads at most `reads` cells and writes at most `writes`.
pub fn programs_touch_few<W: Work>(work: W, reads: u32, writes: u32)
    requires { HasSmallPrograms (W.meaning work) (W.lawful work)
        (W.many work * (MOST_INSTRS + 2)) (W.size work) reads writes }
    ensures { TouchesFew (W.meaning work) (W.lawful work) (W.size work) reads writes }
{}
