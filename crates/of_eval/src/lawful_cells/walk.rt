//! The walk through the chains of blocks.

ghost use Rattle.std.specs.Prelude.{◌≡◌, ◌≢◌, ◌<◌, ◌+◌, ◌↔◌, IsTrue, EachIndex, slice_index, ℕ, List, length, IfOk, IfErr, OnOk, All};
ghost use Rattle.of_mem.specs.declared.plot.TheConstants.{QUEUES};
ghost use Rattle.of_mem.specs.Numbers.{FitsCell};
ghost use Rattle.of_mem.specs.Plots.{base, data_cell_count};
ghost use Rattle.of_mem.specs.Places.{bucket_count, fresh_at};
ghost use Rattle.of_mem.specs.Stores.{queue_chain};
ghost use Rattle.of_mem.specs.ProgramWork.{memory_of};
ghost use Rattle.of_eval.specs.Walking.{NamesFault, CallersAreSound, RegistersAreNumbers, HasBegun, HasWalkedFreeList, IsBeforeChain, LinkLeadsOn, LinkIsAtFault, KeysAreCounted, KeysAreMiscounted, AllAreMet, SomeAreUnmet};

use crate::lawful_cells::LawErr;
use crate::lawful_cells::fill::{push, put};
use of_mem::Plot;
use of_script::{GREATEST, REGISTERS};
use of_store::Store;

// The chains in order: the free list, the buckets, the queues.
const FREE_CHAIN: u32 = 0;

const FIRST_BUCKET_CHAIN: u32 = FREE_CHAIN + 1;

// The number of a queue's chain.
fn chain_of_queue(plot: &Plot, q: u32) -> u32
    requires { q < QUEUES }
    ensures value { result ≡ queue_chain plot.now.blocks q }
    ensures small { FitsCell (result + 1) }
{
    FIRST_BUCKET_CHAIN + plot.buckets() + q
}

/// Checks that each register holds a number below 2 ^ 31.
pub(crate) fn registers(plot: &Plot, cells: &[u32]) -> Result<(), LawErr>
    requires sized { length cells.now ≡ data_cell_count plot.now }
    requires own { CallersAreSound plot.now cells.now }
    ensures ok { OnOk result (RegistersAreNumbers plot.now cells.now) }
    ensures err { IfErr result (NamesFault plot.now cells.now) }
{
    for r in 0..REGISTERS {
        let cell = plot.register(r as u32);
        if cells[cell as usize] > GREATEST {
            return Err(LawErr::Unlawful { cell });
        }
    }
    Ok(())
}

/// The count of blocks that were taken at least once, which must be at most the number of blocks.
pub(crate) fn fresh(plot: &Plot, cells: &[u32]) -> Result<u32, LawErr>
    requires sized { length cells.now ≡ data_cell_count plot.now }
    requires own { CallersAreSound plot.now cells.now }
    requires registers { RegistersAreNumbers plot.now cells.now }
    ensures begun { OnOk result (HasBegun plot.now cells.now) }
    ensures value { IfOk result (λ n. n ≡ memory_of cells.now (fresh_at (base plot.now))) }
    ensures err { IfErr result (NamesFault plot.now cells.now) }
{
    let cell = plot.fresh();
    let fresh = cells[cell as usize];
    if fresh > plot.blocks {
        return Err(LawErr::Unlawful { cell });
    }
    Ok(fresh)
}

/// The block to which a pointer cell leads, None at the end of a chain. The block's owner becomes
/// this chain. It is a fault of the pointer if the block has an owner already, or is not in the
/// owners table.
fn next(cells: &[u32], cell: u32, chain: u32, owners: &mut [u32]) -> Result<Option<u32>, LawErr>
    requires cell { cell < length cells.now }
    requires chain { FitsCell (chain + 1) }
    ensures ok { IfOk result (LinkLeadsOn cells.now cell chain owners.old owners.new) }
    ensures err { IfErr result (LinkIsAtFault cells.now cell owners.old) }
{
    let pointer = cells[cell as usize];
    if pointer == 0 {
        return Ok(None);
    }
    let block = pointer - 1;
    if block as usize >= owners.len() {
        return Err(LawErr::Unlawful { cell });
    }
    if owners[block as usize] != 0 {
        return Err(LawErr::Unlawful { cell });
    }
    owners[block as usize] = chain + 1;
    Ok(Some(block))
}

/// Walks through the free list, which is the first chain.
pub(crate) fn free_list(plot: &Plot, cells: &[u32], owners: &mut [u32]) -> Result<(), LawErr>
    requires sized { length cells.now ≡ data_cell_count plot.now }
    requires begun { HasBegun plot.now cells.now }
    requires fresh { length owners.old ≡ memory_of cells.now (fresh_at (base plot.now)) }
    requires unmet { All (λ (x : ℕ). x ≡ 0) owners.old }
    ensures ok { OnOk result (HasWalkedFreeList plot.now cells.now owners.new) }
    ensures err { IfErr result (NamesFault plot.now cells.now) }
{
    let mut cell = plot.free();
    while let Some(block) = next(cells, cell, FREE_CHAIN, owners)? {
        cell = plot.block(block, 2);
    }
    Ok(())
}

/// Walks through a bucket, and puts its keys and values into the store.
#[tactic(auto, using(of_mem::proofs::BucketPlaces::most_buckets))]
pub(crate) fn bucket(
    plot: &Plot,
    cells: &[u32],
    b: u32,
    owners: &mut [u32],
    store: &mut Store,
) -> Result<(), LawErr>
    requires sized { length cells.now ≡ data_cell_count plot.now }
    requires b { b < bucket_count plot.now.blocks }
    requires before { IsBeforeChain plot.now cells.now (1 + b) 0 owners.old store.old }
    ensures ok { OnOk result (IsBeforeChain plot.now cells.now (2 + b) 0 owners.new store.new) }
    ensures err { IfErr result (NamesFault plot.now cells.now) }
{
    let buckets = plot.buckets();
    let mut cell = plot.bucket(b);
    while let Some(block) = next(cells, cell, FIRST_BUCKET_CHAIN + b, owners)? {
        let first = plot.block(block, 0);
        let second = plot.block(block, 1);
        let key = cells[first as usize];
        let value = cells[second as usize];
        if key > GREATEST || key % buckets != b || store.key(key).is_some() {
            return Err(LawErr::Unlawful { cell: first });
        }
        if value > GREATEST {
            return Err(LawErr::Unlawful { cell: second });
        }
        put(store, key, value)?;
        cell = plot.block(block, 2);
    }
    Ok(())
}

/// Checks that the count of keys is the number of keys that were met.
pub(crate) fn keys(plot: &Plot, cells: &[u32], store: &Store) -> Result<(), LawErr>
    requires sized { length cells.now ≡ data_cell_count plot.now }
    ensures ok { OnOk result (KeysAreCounted plot.now cells.now store.now) }
    ensures err { IfErr result (KeysAreMiscounted plot.now cells.now store.now) }
{
    let cell = plot.keys();
    if cells[cell as usize] != store.keys() {
        return Err(LawErr::Unlawful { cell });
    }
    Ok(())
}

/// Walks through a queue and puts its items into the store. Then it checks the queue's tail and its
/// length.
pub(crate) fn queue(
    plot: &Plot,
    cells: &[u32],
    q: u32,
    owners: &mut [u32],
    store: &mut Store,
) -> Result<(), LawErr>
    requires sized { length cells.now ≡ data_cell_count plot.now }
    requires q { q < QUEUES }
    requires before { let n = queue_chain plot.now.blocks q in
        IsBeforeChain plot.now cells.now n n owners.old store.old }
    ensures ok { OnOk result
        (let n = queue_chain plot.now.blocks (1 + q) in
        IsBeforeChain plot.now cells.now n n owners.new store.new) }
    ensures err { IfErr result (NamesFault plot.now cells.now) }
{
    let chain = chain_of_queue(plot, q);
    let mut cell = plot.head(q);
    let mut last = 0;
    while let Some(block) = next(cells, cell, chain, owners)? {
        let first = plot.block(block, 0);
        let item = cells[first as usize];
        if item > GREATEST {
            return Err(LawErr::Unlawful { cell: first });
        }
        push(store, q, item)?;
        last = block + 1;
        cell = plot.block(block, 2);
    }
    let tail = plot.tail(q);
    if cells[tail as usize] != last {
        return Err(LawErr::Unlawful { cell: tail });
    }
    let length = plot.length(q);
    if cells[length as usize] as usize != store.queue(q).len() {
        return Err(LawErr::Unlawful { cell: length });
    }
    Ok(())
}

/// Checks that each block taken at least once is in some chain.
pub(crate) fn all_met(plot: &Plot, cells: &[u32], owners: &[u32]) -> Result<(), LawErr>
    ensures ok { OnOk result (AllAreMet plot.now cells.now owners.now) }
    ensures err { IfErr result (SomeAreUnmet plot.now cells.now owners.now) }
{
    if all_owned(owners) {
        return Ok(());
    }
    Err(LawErr::Unlawful { cell: plot.fresh() })
}

/// Whether each block of the owners table has an owner.
fn all_owned(owners: &[u32]) -> bool
    ensures { IsTrue result ↔ EachIndex owners.now (λ k. slice_index owners.now k ≢ 0) }
{
    owners.iter().all(|owner| *owner != 0)
}
