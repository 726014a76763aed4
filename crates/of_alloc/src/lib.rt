//! The allocator of blocks. It gives the first block of the free list, or if the list is empty, a
//! block that was never taken.
#![tactic(auto)]

ghost use Rattle.of_mem.specs.OnDemand.{MayRun, RunsOn};
ghost use Rattle.of_mem.specs.Part.{with_known};
ghost use Rattle.of_alloc.specs.Blocks.{HasFreeList, HasOut, TakesFromMemory, GivesToMemory};
ghost use Rattle.of_alloc.specs.BlockPrograms.{take, give};

use of_mem::{Cells, Need, Plot};

/// Takes a block: the first one of the free list, or if the list is empty, the next one that was
/// never taken. It answers None exactly if all blocks are out, and then writes nothing. An error
/// names a cell that must be read and that `cells` didn't give.
pub fn take<C: Cells>(plot: &Plot, cells: &mut C) -> Result<Option<u32>, Need>
    requires { MayRun (take plot.now) (HasFreeList plot.now) (C.run cells.old) }
    ensures runs { RunsOn (take plot.now) (C.run cells.old) (C.run cells.new) result }
    ensures takes { TakesFromMemory plot.now
        (with_known (C.run cells.new).part.known (C.run cells.old).part)
        (C.run cells.new).part result }
{
    let front = cells.get(plot.free())?;
    if front != 0 {
        let block = front - 1;
        let link = cells.get(plot.block(block, 2))?;
        cells.set(plot.free(), link);
        return Ok(Some(block));
    }
    let fresh = cells.get(plot.fresh())?;
    if fresh < plot.blocks {
        cells.set(plot.fresh(), fresh + 1);
        return Ok(Some(fresh));
    }
    Ok(None)
}

/// Gives back a block that is out: it becomes the first one of the free list. An error names a cell
/// that must be read and that `cells` didn't give.
pub fn give<C: Cells>(plot: &Plot, cells: &mut C, block: u32) -> Result<(), Need>
    requires { MayRun (give plot.now block) (λ p. HasOut plot.now p block) (C.run cells.old) }
    ensures runs { RunsOn (give plot.now block) (C.run cells.old) (C.run cells.new) result }
    ensures gives { GivesToMemory plot.now
        (with_known (C.run cells.new).part.known (C.run cells.old).part)
        (C.run cells.new).part block result }
{
    let front = cells.get(plot.free())?;
    cells.set(plot.block(block, 2), front);
    cells.set(plot.free(), block + 1);
    Ok(())
}
