//! Cells that a run asks for one after the other.

use crate::part::{Need, Part};
use crate::plot::Plot;
use crate::walk::{Sought, Walk};

/// What a run reads cells from and writes them to. A read may make a cell known.
pub trait Cells {
    ghost use Rattle.std.specs.Prelude.{◌≡◌, ◌<◌, length, None, Ok};
    ghost use Rattle.of_mem.specs.OnDemand.{Running, RunsOn, HasOnlyRead, read_cell, write_cell};
    ghost use Rattle.of_mem.specs.Part.{newest_at};
    ghost use Rattle.of_mem.specs.Walks.{HasCome};

    /// The run of the operation that asks.
    ghost run: { Self → Running };

    /// The newest number of a cell. A cell that is not known must be the one that the operation
    /// lacks. The error names the cell if it is still not known.
    fn get(&mut self, addr: u32) -> Result<u32, Need>
        requires below { addr < length (run self.old).part.known }
        requires knows { (run self.old).may_know (run self.old).part.known }
        requires lacks { newest_at (run self.old).part addr ≡ None
            → (run self.old).lacks (run self.old).part.known addr }
        ensures part { HasOnlyRead (run self.old).part (run self.new).part }
        ensures runs { RunsOn (read_cell addr) (run self.old) (run self.new) result };

    /// Adds a write of the script: the cell `addr` gets the number `value`.
    fn set(&mut self, addr: u32, value: u32)
        requires below { addr < length (run self.old).part.known }
        requires knows { (run self.old).may_know (run self.old).part.known }
        ensures { RunsOn (write_cell addr value) (run self.old) (run self.new) (Ok tt) };

    /// How far the walk to `sought` came, if it was kept; otherwise a walk at the front of its
    /// first bucket.
    fn walk_to(&self, plot: &Plot, sought: Sought) -> Walk
        ensures { HasCome plot.now sought (run self.now).part result };

    /// Keeps how far the walk to `sought` came, for a later run that goes on from there.
    fn keep_walk_to(&mut self, plot: &Plot, sought: Sought, walk: Walk)
        requires { HasCome plot.now sought (run self.old).part walk }
        ensures { self.new ≡ self.old };
}

impl Cells for Part {
    ghost use Rattle.of_mem.specs.OnDemand.{resting};

    ghost run = { resting };

    #[inline(always)]
    fn get(&mut self, addr: u32) -> Result<u32, Need> {
        self.read(addr)
    }

    #[inline(always)]
    fn set(&mut self, addr: u32, value: u32) {
        self.write(addr, value);
    }

    #[inline(always)]
    fn walk_to(&self, plot: &Plot, sought: Sought) -> Walk {
        self.walk(plot, sought)
    }

    #[inline(always)]
    fn keep_walk_to(&mut self, plot: &Plot, sought: Sought, walk: Walk) {
        self.keep_walk(plot, sought, walk);
    }
}
