//! Calls on the keys of the map in their order: the least key, the next key, and dropping all keys
//! below one.
#![tactic(auto)]

ghost use Rattle.std.specs.Prelude.{◌≡◌, ◌+◌, ◌<◌, length};
ghost use Rattle.of_mem.specs.Places.{bucket_count};
ghost use Rattle.of_mem.specs.Calls.{HasStore, AnswersOfStore, ActsOnStore};
ghost use Rattle.of_mem.specs.Part.{with_known};
ghost use Rattle.of_mem.specs.OnDemand.{MayRun, RunsOn, RunGoesOn, HasOnlyRead};
ghost use Rattle.of_order.specs.OrderPrograms as program;
ghost use Rattle.of_mem.specs.Walks.{HasCome, better_of};
ghost use Rattle.of_mem.specs.declared.walk.Sought.TheVariants.{LeastFrom};
ghost use Rattle.of_order.specs.Means.{least_from, dropped_count, after_drop};
ghost use Rattle.of_order.specs.Passing.{PassesBlock, PassesBucket};
ghost use Rattle.of_order.specs.Dropping.{IsDropping, IsDropped};

use of_mem::{Cells, Need, Plot, Sought, Walk};

/// The least key of the map. None if the map has no key. An error names a cell that must be read
/// and is not known. Nothing is written.
pub fn first<C: Cells>(plot: &Plot, cells: &mut C) -> Result<Option<u32>, Need>
    requires { MayRun (program.first_program plot.now) (HasStore plot.now) (C.run cells.old) }
    ensures part { HasOnlyRead (C.run cells.old).part (C.run cells.new).part }
    ensures runs { RunsOn (program.first_program plot.now) (C.run cells.old) (C.run cells.new)
        result }
    ensures answers { AnswersOfStore plot.now (C.run cells.new).part result
        (λ s. least_from s.map 0) }
{
    least(plot, cells, 0)
}

/// The least key above `key`. None if there is none. An error names a cell that must be read and is
/// not known. Nothing is written.
pub fn next<C: Cells>(plot: &Plot, cells: &mut C, key: u32) -> Result<Option<u32>, Need>
    requires { MayRun (program.next plot.now key) (HasStore plot.now) (C.run cells.old) }
    ensures part { HasOnlyRead (C.run cells.old).part (C.run cells.new).part }
    ensures runs { RunsOn (program.next plot.now key) (C.run cells.old) (C.run cells.new) result }
    ensures answers { AnswersOfStore plot.now (C.run cells.new).part result
        (λ s. least_from s.map (key + 1)) }
{
    least(plot, cells, u64::from(key) + 1)
}

// The least key from this one on, None where there is none. It goes on where a run before lacked a
// cell.
fn least<C: Cells>(plot: &Plot, cells: &mut C, low: u64) -> Result<Option<u32>, Need>
    requires { MayRun (program.least plot.now low) (HasStore plot.now) (C.run cells.old) }
    ensures part { HasOnlyRead (C.run cells.old).part (C.run cells.new).part }
    ensures runs { RunsOn (program.least plot.now low) (C.run cells.old) (C.run cells.new) result }
{
    // a copy that no call can change: what all addresses have in common is computed once
    let near = *plot;
    let plot = &near;
    let start = cells.walk_to(plot, Sought::LeastFrom(low));
    let mut best = pass_bucket(plot, cells, low, start)?;
    for bucket in start.bucket + 1..plot.buckets() {
        best = pass_bucket(plot, cells, low, Walk::at_front(plot, bucket, best))?;
    }
    Ok(best)
}

// Walks to the end of a bucket, and answers the best key of it and of the buckets before. The walk
// to a cell that isn't known is kept.
#[inline(always)]
fn pass_bucket<C: Cells>(
    plot: &Plot,
    cells: &mut C,
    low: u64,
    start: Walk,
) -> Result<Option<u32>, Need>
    requires may { MayRun (program.least plot.now low) (HasStore plot.now) (C.run cells.old) }
    requires came { HasCome plot.now (LeastFrom low) (C.run cells.old).part start }
    ensures part { HasOnlyRead (C.run cells.old).part (C.run cells.new).part }
    ensures goes { RunGoesOn (C.run cells.old) (C.run cells.new) }
    ensures passes { PassesBucket plot.now low (C.run cells.new).part start result }
{
    let mut here = start;
    for step in start.passed..plot.blocks + 1 {
        match pass_block(plot, cells, low, here) {
            Err(need) => {
                cells.keep_walk_to(plot, Sought::LeastFrom(low), here);
                return Err(need);
            }
            Ok(None) => return Ok(here.best),
            Ok(Some(next)) => here = next,
        }
    }
    // no bucket has more blocks than there are
    unreachable!()
}

// The walk past the next block, None where the bucket ends.
#[inline(always)]
fn pass_block<C: Cells>(
    plot: &Plot,
    cells: &mut C,
    low: u64,
    here: Walk,
) -> Result<Option<Walk>, Need>
    requires may { MayRun (program.least plot.now low) (HasStore plot.now) (C.run cells.old) }
    requires came { HasCome plot.now (LeastFrom low) (C.run cells.old).part here }
    ensures part { HasOnlyRead (C.run cells.old).part (C.run cells.new).part }
    ensures goes { RunGoesOn (C.run cells.old) (C.run cells.new) }
    ensures passes { PassesBlock plot.now low (C.run cells.new).part here result }
{
    let pointer = cells.get(here.cell)?;
    if pointer == 0 || here.passed == plot.blocks {
        return Ok(None);
    }
    let block = pointer - 1;
    let key = cells.get(plot.block(block, 0))?;
    Ok(Some(Walk {
        passed: here.passed + 1,
        cell: plot.block(block, 2),
        best: better(low, key, here.best),
        ..here
    }))
}

// The less of a key and the best so far, where the key is not below the lowest that is sought.
fn better(low: u64, key: u32, best: Option<u32>) -> Option<u32>
    ensures { result ≡ better_of low key best }
{
    if u64::from(key) < low {
        return best;
    }
    match best {
        None => Some(key),
        Some(least) => Some(if least < key { least } else { key }),
    }
}

/// Drops every key below `key`, and answers how many were dropped. An error names a cell that must
/// be read and that `cells` didn't give.
pub fn drop_below<C: Cells>(plot: &Plot, cells: &mut C, key: u32) -> Result<u32, Need>
    requires { MayRun (program.drop_below plot.now key) (HasStore plot.now) (C.run cells.old) }
    ensures runs { RunsOn (program.drop_below plot.now key) (C.run cells.old) (C.run cells.new)
        result }
    ensures acts { ActsOnStore plot.now
        (with_known (C.run cells.new).part.known (C.run cells.old).part)
        (C.run cells.new).part result (dropped_count key) (after_drop key) }
{
    let mut gone = 0;
    for bucket in 0..plot.buckets() {
        gone = drop_in(plot, cells, bucket, key, gone)?;
    }
    count_down(plot, cells, gone)
}

// Drops the keys of a bucket that are below this one, and answers how many are gone then.
fn drop_in<C: Cells>(
    plot: &Plot,
    cells: &mut C,
    bucket: u32,
    key: u32,
    gone: u32,
) -> Result<u32, Need>
    requires may { MayRun (program.drop_in plot.now bucket key gone)
        (λ p. IsDropping plot.now p key bucket gone) (C.run cells.old) }
    requires bucket { bucket < bucket_count plot.now.blocks }
    ensures { RunsOn (program.drop_in plot.now bucket key gone) (C.run cells.old)
        (C.run cells.new) result }
{
    let mut gone = gone;
    let mut cell = plot.bucket(bucket);
    let mut pointer = cells.get(cell)?;
    for step in 0..plot.blocks {
        if pointer == 0 {
            return Ok(gone);
        }
        let block = pointer - 1;
        let found = cells.get(plot.block(block, 0))?;
        let link = cells.get(plot.block(block, 2))?;
        if found < key {
            cells.set(cell, link);
            of_alloc::give(plot, cells, block)?;
            gone += 1;
        } else {
            cell = plot.block(block, 2);
        }
        pointer = link;
    }
    Ok(gone)
}

// Counts so many keys less, and answers how many they are.
fn count_down<C: Cells>(plot: &Plot, cells: &mut C, gone: u32) -> Result<u32, Need>
    requires { MayRun (program.count_gone plot.now gone) (λ p. IsDropped plot.now p gone)
        (C.run cells.old) }
    ensures { RunsOn (program.count_gone plot.now gone) (C.run cells.old) (C.run cells.new)
        result }
{
    if gone != 0 {
        let keys = cells.get(plot.keys())?;
        cells.set(plot.keys(), keys - gone);
    }
    Ok(gone)
}
