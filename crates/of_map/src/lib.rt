//! The map from keys to values over cells: each bucket is a chain of blocks, and a block holds a
//! key and its value.
#![tactic(auto)]

ghost use Rattle.std.specs.Prelude.{◌≡◌, ◌≢◌, ◌<◌, length, IfOk, MatchResult};
ghost use Rattle.std.specs.FinMap as fin;
ghost use Rattle.of_mem.specs.Plots.{data_cell_count};
ghost use Rattle.of_mem.specs.Part.{with_known};
ghost use Rattle.of_mem.specs.OnDemand.{MayRun, RunsOn, RunGoesOn, HasOnlyRead};
ghost use Rattle.of_mem.specs.Calls.{HasStore, AnswersOfStore, ActsOnStore};
ghost use Rattle.of_map.specs.declared.answers.Put.TheVariants.{Full};
ghost use Rattle.of_map.specs.MapPrograms.{seek, look_from, get, read_value, put_in_map, change, insert, fill, del, unlink, give_key_back, count_key_down, count};
ghost use Rattle.of_mem.specs.Programs.{NeedsAt};
ghost use Rattle.of_map.specs.Found.{HasBucketChain, HasChainFrom, Looks, CanFill, CanCountDown, IsPositionKept, IsUnlinked};
ghost use Rattle.of_map.specs.Means.{IsPair, PutsValue, after_del};

mod answers;

use crate::answers::{Look, Position};
pub use answers::Put;
use of_mem::{Cells, Need, Part, Plot, Sought, Walk};

// Where the block of a key stands, None if the key is absent.
#[inline(always)]
fn seek<C: Cells>(plot: &Plot, cells: &mut C, key: u32) -> Result<Option<Position>, Need>
    requires { MayRun (seek plot.now key) (λ p. HasBucketChain plot.now p key) (C.run cells.old) }
    ensures part { HasOnlyRead (C.run cells.old).part (C.run cells.new).part }
    ensures runs { RunsOn (seek plot.now key) (C.run cells.old) (C.run cells.new) result }
{
    let sought = Sought::Key(key);
    let start = cells.walk_to(plot, sought);
    let mut cell = start.cell;
    for passed in start.passed..plot.blocks + 1 {
        let here = Walk {
            passed,
            cell,
            ..start
        };
        match look(plot, cells, key, cell) {
            Err(need) => {
                cells.keep_walk_to(plot, sought, here);
                return Err(need);
            }
            Ok(Look::End) => {
                cells.keep_walk_to(plot, sought, here);
                return Ok(None);
            }
            Ok(Look::Here(block)) => {
                cells.keep_walk_to(plot, sought, here);
                return Ok(Some(Position { cell, block }));
            }
            Ok(Look::Past(link)) => cell = link,
        }
    }
    Ok(None)
}

// Looks at the block to which a cell points.
#[inline(always)]
fn look<C: Cells>(plot: &Plot, cells: &mut C, key: u32, cell: u32) -> Result<Look, Need>
    requires { MayRun (look_from plot.now key cell) (λ p. HasChainFrom plot.now p cell)
        (C.run cells.old) }
    ensures part { HasOnlyRead (C.run cells.old).part (C.run cells.new).part }
    ensures goes { RunGoesOn (C.run cells.old) (C.run cells.new) }
    ensures looks { Looks plot.now (C.run cells.new).part key cell result }
{
    let pointer = cells.get(cell)?;
    if pointer == 0 {
        return Ok(Look::End);
    }
    let block = pointer - 1;
    let found = cells.get(plot.block(block, 0))?;
    if found == key {
        return Ok(Look::Here(block));
    }
    Ok(Look::Past(plot.block(block, 2)))
}

/// Walks towards a key as far as cells are known, and changes nothing that contracts see. An error
/// names a cell that must be read and is not known.
pub fn reach(plot: &Plot, part: &mut Part, key: u32) -> Result<(), Need>
    requires { HasStore plot.now part.old }
    ensures part { part.new ≡ part.old }
    ensures needs { MatchResult result (λ _. Unit {0})
        (λ need. NeedsAt (seek plot.now key) part.old need.addr) }
{
    seek(plot, part, key)?;
    Ok(())
}

/// The value at a key. None if the key is absent. An error names a cell that must be read and that
/// `cells` didn't give.
pub fn get<C: Cells>(plot: &Plot, cells: &mut C, key: u32) -> Result<Option<u32>, Need>
    requires { MayRun (get plot.now key) (HasStore plot.now) (C.run cells.old) }
    ensures part { HasOnlyRead (C.run cells.old).part (C.run cells.new).part }
    ensures runs { RunsOn (get plot.now key) (C.run cells.old) (C.run cells.new) result }
    ensures answers { AnswersOfStore plot.now (C.run cells.new).part result
        (λ s. fin.get s.map key) }
{
    match seek(plot, cells, key)? {
        None => Ok(None),
        Some(place) => read_value(plot, cells, place.block),
    }
}

// The value in a block.
#[inline(always)]
fn read_value<C: Cells>(plot: &Plot, cells: &mut C, block: u32) -> Result<Option<u32>, Need>
    requires run { MayRun (read_value plot.now block)
        (λ p. length p.known ≡ data_cell_count plot.now) (C.run cells.old) }
    requires block { block < plot.now.blocks }
    ensures part { HasOnlyRead (C.run cells.old).part (C.run cells.new).part }
    ensures runs { RunsOn (read_value plot.now block) (C.run cells.old) (C.run cells.new) result }
{
    let value = cells.get(plot.block(block, 1))?;
    Ok(Some(value))
}

/// Puts a value at a key. The answer says which value was there before, if any. It is `Full`
/// exactly if the key is absent and no block is free, and then nothing is written. An error names a
/// cell that must be read and that `cells` didn't give.
pub fn put<C: Cells>(plot: &Plot, cells: &mut C, key: u32, value: u32) -> Result<Put, Need>
    requires may { MayRun (put_in_map plot.now key value) (HasStore plot.now) (C.run cells.old) }
    requires pair { IsPair key value }
    ensures runs { RunsOn (put_in_map plot.now key value) (C.run cells.old) (C.run cells.new)
        result }
    ensures puts { PutsValue plot.now
        (with_known (C.run cells.new).part.known (C.run cells.old).part)
        (C.run cells.new).part key value result }
{
    match seek(plot, cells, key)? {
        Some(place) => change(plot, cells, place.block, value),
        None => insert(plot, cells, key, value),
    }
}

// Changes the value in a block, and answers the value before.
fn change<C: Cells>(plot: &Plot, cells: &mut C, block: u32, value: u32) -> Result<Put, Need>
    requires may { MayRun (change plot.now block value)
        (λ p. length p.known ≡ data_cell_count plot.now) (C.run cells.old) }
    requires block { block < plot.now.blocks }
    ensures runs { RunsOn (change plot.now block value) (C.run cells.old) (C.run cells.new)
        result }
    ensures over { IfOk result (λ r. r ≢ Full) }
{
    let cell = plot.block(block, 1);
    let before = cells.get(cell)?;
    cells.set(cell, value);
    Ok(Put::Over(before))
}

// Puts a value at a key that is absent, if a block is free.
fn insert<C: Cells>(plot: &Plot, cells: &mut C, key: u32, value: u32) -> Result<Put, Need>
    requires { MayRun (insert plot.now key value) (HasStore plot.now) (C.run cells.old) }
    ensures runs { RunsOn (insert plot.now key value) (C.run cells.old) (C.run cells.new) result }
    ensures full { IfOk result (λ r. r ≡ Full
        → HasOnlyRead (C.run cells.old).part (C.run cells.new).part) }
{
    match of_alloc::take(plot, cells)? {
        None => Ok(Put::Full),
        Some(block) => fill(plot, cells, key, value, block),
    }
}

// Makes a block that was taken the front of its key's bucket.
fn fill<C: Cells>(plot: &Plot, cells: &mut C, key: u32, value: u32, block: u32) -> Result<Put, Need>
    requires { MayRun (fill plot.now key value block) (λ p. CanFill plot.now p block)
        (C.run cells.old) }
    ensures runs { RunsOn (fill plot.now key value block) (C.run cells.old) (C.run cells.new)
        result }
    ensures filled { IfOk result (λ r. r ≢ Full) }
{
    cells.set(plot.block(block, 0), key);
    cells.set(plot.block(block, 1), value);
    let bucket = plot.bucket(key % plot.buckets());
    let front = cells.get(bucket)?;
    cells.set(plot.block(block, 2), front);
    cells.set(bucket, block + 1);
    let keys = cells.get(plot.keys())?;
    cells.set(plot.keys(), keys + 1);
    Ok(Put::New)
}

/// Deletes a key, and answers the value that it had. None if the key was absent. An error names a
/// cell that must be read and that `cells` didn't give.
pub fn del<C: Cells>(plot: &Plot, cells: &mut C, key: u32) -> Result<Option<u32>, Need>
    requires { MayRun (del plot.now key) (HasStore plot.now) (C.run cells.old) }
    ensures runs { RunsOn (del plot.now key) (C.run cells.old) (C.run cells.new) result }
    ensures acts { ActsOnStore plot.now
        (with_known (C.run cells.new).part.known (C.run cells.old).part)
        (C.run cells.new).part result (λ s. fin.get s.map key) (after_del key) }
{
    match seek(plot, cells, key)? {
        None => Ok(None),
        Some(place) => unlink(plot, cells, key, place),
    }
}

// Takes a key's block out of its bucket.
fn unlink<C: Cells>(
    plot: &Plot,
    cells: &mut C,
    key: u32,
    place: Position,
) -> Result<Option<u32>, Need>
    requires { MayRun (unlink plot.now place) (λ p. IsPositionKept plot.now p key place)
        (C.run cells.old) }
    ensures { RunsOn (unlink plot.now place) (C.run cells.old) (C.run cells.new) result }
{
    let value = cells.get(plot.block(place.block, 1))?;
    let link = cells.get(plot.block(place.block, 2))?;
    cells.set(place.cell, link);
    give_back(plot, cells, place.block, value)
}

// Gives back a block that is in no bucket any more, and counts one key less.
fn give_back<C: Cells>(
    plot: &Plot,
    cells: &mut C,
    block: u32,
    value: u32,
) -> Result<Option<u32>, Need>
    requires { MayRun (give_key_back plot.now block value) (λ p. IsUnlinked plot.now p block)
        (C.run cells.old) }
    ensures { RunsOn (give_key_back plot.now block value) (C.run cells.old) (C.run cells.new)
        result }
{
    of_alloc::give(plot, cells, block)?;
    count_down(plot, cells, value)
}

// Counts one key less.
fn count_down<C: Cells>(plot: &Plot, cells: &mut C, value: u32) -> Result<Option<u32>, Need>
    requires { MayRun (count_key_down plot.now value) (CanCountDown plot.now) (C.run cells.old) }
    ensures { RunsOn (count_key_down plot.now value) (C.run cells.old) (C.run cells.new) result }
{
    let keys = cells.get(plot.keys())?;
    cells.set(plot.keys(), keys - 1);
    Ok(Some(value))
}

/// The number of keys. An error names the cell that counts them, if `cells` didn't give it.
pub fn count<C: Cells>(plot: &Plot, cells: &mut C) -> Result<u32, Need>
    requires { MayRun (count plot.now) (HasStore plot.now) (C.run cells.old) }
    ensures part { HasOnlyRead (C.run cells.old).part (C.run cells.new).part }
    ensures runs { RunsOn (count plot.now) (C.run cells.old) (C.run cells.new) result }
    ensures answers { AnswersOfStore plot.now (C.run cells.new).part result (λ s. fin.len s.map) }
{
    cells.get(plot.keys())
}
