//! The queues over cells: each queue is a chain of blocks, with a head, a tail and a length, and a
//! block holds an item.
#![tactic(auto)]

ghost use Rattle.std.specs.Prelude.{◌≡◌, ◌<◌, ◌≤◌, true, length, IfOk};
ghost use Rattle.of_mem.specs.declared.plot.TheConstants.{QUEUES};
ghost use Rattle.of_mem.specs.Plots.{base, data_cell_count};
ghost use Rattle.of_mem.specs.Part.{with_known};
ghost use Rattle.of_mem.specs.OnDemand.{MayRun, RunsOn, HasOnlyRead};
ghost use Rattle.of_mem.specs.Calls.{HasStore, AnswersOfStore, ActsOnStore};
ghost use Rattle.of_queue.specs.QueuePrograms.{last_cell as last_cell_of, push, append, pop, pop_front, close, give_item_back, count_item_down, len};
ghost use Rattle.of_queue.specs.Fronts.{CanAppend, CanCount, IsFront, IsPopped};
ghost use Rattle.of_queue.specs.Means.{IsItem, PushesItem, front_item, after_pop};

use of_mem::{Cells, Need, Plot};

/// Puts an item at the end of a queue. It answers false exactly if no block is free, and then
/// writes nothing. An error names a cell that must be read and that `cells` didn't give.
pub fn push<C: Cells>(plot: &Plot, cells: &mut C, queue: u32, value: u32) -> Result<bool, Need>
    requires may { MayRun (push plot.now queue value) (HasStore plot.now) (C.run cells.old) }
    requires item { IsItem queue value }
    ensures runs { RunsOn (push plot.now queue value) (C.run cells.old) (C.run cells.new) result }
    ensures pushes { PushesItem plot.now
        (with_known (C.run cells.new).part.known (C.run cells.old).part)
        (C.run cells.new).part queue value result }
{
    match of_alloc::take(plot, cells)? {
        None => Ok(false),
        Some(block) => append(plot, cells, queue, value, block),
    }
}

// Makes a block that was taken the last of its queue.
fn append<C: Cells>(
    plot: &Plot,
    cells: &mut C,
    queue: u32,
    value: u32,
    block: u32,
) -> Result<bool, Need>
    requires { MayRun (append plot.now queue value block) (λ p. CanAppend plot.now p queue block)
        (C.run cells.old) }
    ensures runs { RunsOn (append plot.now queue value block) (C.run cells.old)
        (C.run cells.new) result }
    ensures pushed { IfOk result (λ r. r ≡ true) }
{
    cells.set(plot.block(block, 0), value);
    cells.set(plot.block(block, 2), 0);
    let tail = cells.get(plot.tail(queue))?;
    cells.set(last_cell(plot, queue, tail), block + 1);
    cells.set(plot.tail(queue), block + 1);
    let items = cells.get(plot.length(queue))?;
    cells.set(plot.length(queue), items + 1);
    Ok(true)
}

// The pointer cell after a queue's last block: its link, or the head of an empty queue.
fn last_cell(plot: &Plot, queue: u32, tail: u32) -> u32
    requires queue { queue < QUEUES }
    requires tail { tail ≤ plot.now.blocks }
    ensures value { result ≡ last_cell_of (base plot.now) queue tail }
    ensures below { result < data_cell_count plot.now }
{
    if tail == 0 {
        plot.head(queue)
    } else {
        plot.block(tail - 1, 2)
    }
}

/// Takes the first item off a queue, and answers it. None exactly if the queue is empty. An error
/// names a cell that must be read and that `cells` didn't give.
pub fn pop<C: Cells>(plot: &Plot, cells: &mut C, queue: u32) -> Result<Option<u32>, Need>
    requires may { MayRun (pop plot.now queue) (HasStore plot.now) (C.run cells.old) }
    requires queue { queue < QUEUES }
    ensures runs { RunsOn (pop plot.now queue) (C.run cells.old) (C.run cells.new) result }
    ensures acts { ActsOnStore plot.now
        (with_known (C.run cells.new).part.known (C.run cells.old).part)
        (C.run cells.new).part result (front_item queue) (after_pop queue) }
{
    let head = cells.get(plot.head(queue))?;
    if head == 0 {
        return Ok(None);
    }
    pop_front(plot, cells, queue, head - 1)
}

// Takes a queue's front block out of it.
fn pop_front<C: Cells>(
    plot: &Plot,
    cells: &mut C,
    queue: u32,
    block: u32,
) -> Result<Option<u32>, Need>
    requires { MayRun (pop_front plot.now queue block) (λ p. IsFront plot.now p queue block)
        (C.run cells.old) }
    ensures { RunsOn (pop_front plot.now queue block) (C.run cells.old) (C.run cells.new) result }
{
    let item = cells.get(plot.block(block, 0))?;
    let link = cells.get(plot.block(block, 2))?;
    cells.set(plot.head(queue), link);
    close(plot, cells, queue, block, item, link)
}

// Clears the tail if no block is left after the one that leaves, and gives the block back.
fn close<C: Cells>(
    plot: &Plot,
    cells: &mut C,
    queue: u32,
    block: u32,
    item: u32,
    link: u32,
) -> Result<Option<u32>, Need>
    requires { MayRun (close plot.now queue block item link)
        (λ p. IsPopped plot.now p queue block) (C.run cells.old) }
    ensures { RunsOn (close plot.now queue block item link) (C.run cells.old) (C.run cells.new)
        result }
{
    if link == 0 {
        cells.set(plot.tail(queue), 0);
        return give_back(plot, cells, queue, block, item);
    }
    give_back(plot, cells, queue, block, item)
}

// Gives back a block that is in no queue any more, and counts one item less.
fn give_back<C: Cells>(
    plot: &Plot,
    cells: &mut C,
    queue: u32,
    block: u32,
    item: u32,
) -> Result<Option<u32>, Need>
    requires { MayRun (give_item_back plot.now queue block item)
        (λ p. IsPopped plot.now p queue block) (C.run cells.old) }
    ensures { RunsOn (give_item_back plot.now queue block item) (C.run cells.old)
        (C.run cells.new) result }
{
    of_alloc::give(plot, cells, block)?;
    count_down(plot, cells, queue, item)
}

// Counts one item less.
fn count_down<C: Cells>(
    plot: &Plot,
    cells: &mut C,
    queue: u32,
    item: u32,
) -> Result<Option<u32>, Need>
    requires { MayRun (count_item_down plot.now queue item) (λ p. CanCount plot.now p queue)
        (C.run cells.old) }
    ensures { RunsOn (count_item_down plot.now queue item) (C.run cells.old) (C.run cells.new)
        result }
{
    let items = cells.get(plot.length(queue))?;
    cells.set(plot.length(queue), items - 1);
    Ok(Some(item))
}

/// The number of items in a queue. An error names the cell that counts them, if `cells` didn't give
/// it.
pub fn len<C: Cells>(plot: &Plot, cells: &mut C, queue: u32) -> Result<u32, Need>
    requires stands { MayRun (len plot.now queue) (HasStore plot.now) (C.run cells.old) }
    requires queue { queue < QUEUES }
    ensures part { HasOnlyRead (C.run cells.old).part (C.run cells.new).part }
    ensures runs { RunsOn (len plot.now queue) (C.run cells.old) (C.run cells.new) result }
    ensures answers { AnswersOfStore plot.now (C.run cells.new).part result
        (λ s. length (s.queues queue)) }
{
    cells.get(plot.length(queue))
}
