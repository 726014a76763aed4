//! Partial memory.

ghost use Rattle.std.specs.Prelude.{◌≡◌, ◌<◌, ◌≤◌, [], length, slice_index_or, IfOk, None};
ghost use Rattle.std.proofs.Common.{get_or, is_some};
ghost use Rattle.of_mem.specs.Part.{empty_part, learn, write, keep, ReadsAt};
ghost use Rattle.of_mem.specs.Newest.{HoldsNewest};
ghost use Rattle.of_mem.specs.Walks.{HasCome};

use crate::plot::Plot;
use crate::touched_cells::TouchedCells;
use crate::walk::{KeptWalk, Sought, Walk};
use crate::write_set::WriteSet;
use std::alloc::{AllocError, Global};
use std::marker::Model;
use std::mem;

/// The error of a run: the address of a cell that the run must read and that is not known.
#[derive(Clone, Copy, Debug, PartialEq, Eq)]
pub struct Need {
    pub addr: u32,
}

/// Partial memory: the known numbers of cells, a batch's writes over them, and a script's writes
/// over both. A contract sees the known number of each cell, and the writes of batch and script,
/// each in order of first writing. Only `new` takes memory.
#[derive(Drop)]
pub struct Part {
    // What is known of each cell, and beside it what it holds under batch and script, so that a
    // read is one look-up.
    cells: TouchedCells,
    batch: WriteSet,
    script: WriteSet,
    // Whether the script's writes are undone, though they are still there: a script that goes on
    // where it stopped has written the same.
    undone: bool,
    // The last walk that was kept, so that a run that lacked a cell goes on in the middle of a
    // bucket.
    last: KeptWalk,
}

impl Model for Part {
    ghost use Rattle.of_mem.specs.Part.{Part};

    ghost Value = { Part };

    ghost use Rattle.of_mem.specs.Newest.{part_of, HoldsNewest};
    ghost use Rattle.of_mem.specs.Part.{visible};
    ghost use Rattle.of_mem.specs.Walks.{IsSoundWalk};

    ghost view = { λ p. visible p.undone (part_of p.cells p.batch p.script) };

    ghost invariant = { λ p. HoldsNewest p.cells p.batch p.script
        × IsSoundWalk p.last (part_of p.cells p.batch p.script) };
}

#[tactic(auto, unfolding(crate::specs::Part::newest_at, crate::specs::Part::write))]
impl Part {
    /// The partial memory of `cells` cells, in which none is known and nothing is written. An error
    /// means that there is not enough memory.
    pub fn new(alloc: Global, cells: u32) -> Result<Self, AllocError>
        ensures { IfOk result (λ p. p ≡ empty_part cells) }
    {
        let batch = WriteSet::new(alloc, cells)?;
        let script = WriteSet::new(alloc, cells)?;
        let cells = TouchedCells::new(alloc, cells)?;
        Ok(Part {
            cells,
            batch,
            script,
            undone: false,
            last: KeptWalk::none(),
        })
    }

    /// Makes `value` the known number of a cell.
    pub fn learn(&mut self, addr: u32, value: u32)
        requires { addr < length self.old.known }
        ensures { self.new ≡ learn self.old addr value }
    {
        self.meet(addr, value);
    }

    // The same, and says whether it was known before.
    #[inline(always)]
    pub(crate) fn meet(&mut self, addr: u32, value: u32) -> bool
        requires { addr < length self.old.known }
        ensures learnt { self.new ≡ learn self.old addr value }
        ensures before { result ≡ is_some (get_or self.old.known addr None) }
    {
        if self.cells.meet(addr, value) {
            return false;
        }
        self.learn_under(addr, value)
    }

    // The same, of a cell that may have been known or written before.
    #[cold]
    #[inline(never)]
    fn learn_under(&mut self, addr: u32, value: u32) -> bool
        requires { addr < length self.old.known }
        ensures learnt { self.new ≡ learn self.old addr value }
        ensures before { result ≡ is_some (get_or self.old.known addr None) }
    {
        let before = self.cells.known(addr).is_some();
        let over = self.script.get(addr).or(self.batch.get(addr));
        self.cells.set(addr, Some(value), over.or(Some(value)));
        if before {
            self.last.is_kept = false;
        }
        before
    }

    /// The known number of a cell, whatever was written over it. None if it is not known.
    #[inline(always)]
    pub fn known(&self, addr: u32) -> Option<u32>
        requires { addr < length self.now.known }
        ensures { result ≡ get_or self.now.known addr None }
    {
        self.cells.known(addr)
    }

    /// The newest number of a cell: the script's write, or else the batch's, or else the known
    /// number. The error names the cell if there is none of these.
    #[inline(always)]
    pub fn read(&self, addr: u32) -> Result<u32, Need>
        requires { addr < length self.now.known }
        ensures { ReadsAt self.now addr result }
    {
        if self.undone {
            return self.read_under(addr);
        }
        match self.cells.newest(addr) {
            Some(value) => Ok(value),
            None => Err(Need { addr }),
        }
    }

    // What a cell holds under what the script wrote.
    // out of line: mostly the script's writes count
    #[cold]
    #[inline(never)]
    fn read_under(&self, addr: u32) -> Result<u32, Need>
        requires { addr < length self.now.known }
        ensures { ReadsAt (record self.now { script = [] }) addr result }
    {
        match self.batch.get(addr).or(self.cells.known(addr)) {
            Some(value) => Ok(value),
            None => Err(Need { addr }),
        }
    }

    /// Adds a write of the script: the cell `addr` gets the number `value`.
    pub fn write(&mut self, addr: u32, value: u32)
        requires { addr < length self.old.known }
        ensures writes { self.new ≡ write self.old addr value }
        ensures known { self.new.known ≡ self.old.known }
        ensures batch { self.new.batch ≡ self.old.batch }
    {
        if self.undone {
            take_back(&mut self.cells, &self.batch, &mut self.script);
            self.undone = false;
        }
        self.last.is_kept = false;
        self.script.put(addr, value);
        self.cells.hold(addr, Some(value));
    }

    /// The number of cells that the script has written.
    pub fn pending_len(&self) -> u32
        ensures value { result ≡ length self.now.script }
        ensures few { length self.now.script ≤ length self.now.known }
    {
        if self.undone { 0 } else { self.script.len() }
    }

    /// The script's write `i`, from 0: the cell and its number. The writes are in order of first
    /// writing.
    pub fn pending(&self, i: u32) -> (u32, u32)
        requires { i < length self.now.script }
        ensures value { result ≡ slice_index_or self.now.script i (0, 0) }
        ensures below { result.0 < length self.now.known }
    {
        self.script.entry(i)
    }

    /// Moves the script's writes to the batch.
    pub fn keep(&mut self)
        ensures { self.new ≡ keep self.old }
    {
        if self.undone {
            return;
        }
        self.last.is_kept = false;
        let count = self.script.len();
        // over an empty batch the script's writes are the batch's
        if self.batch.is_empty() {
            mem::swap(&mut self.batch, &mut self.script);
            return;
        }
        for i in 0..count {
            let (addr, value) = self.script.entry(i);
            self.batch.put(addr, value);
        }
        self.script.clear();
    }

    /// Forgets the script's writes.
    pub fn undo(&mut self)
        ensures { self.new ≡ record self.old { script = [] } }
    {
        self.undone = true;
    }

    /// Forgets all known numbers and all writes.
    pub fn clear(&mut self)
        ensures { self.new ≡ empty_part (length self.old.known) }
    {
        self.cells.clear();
        self.batch.clear();
        self.script.clear();
        self.undone = false;
        self.last.is_kept = false;
    }

    /// How far the walk to `sought` came, if it was kept; otherwise a walk at the front of its
    /// first bucket.
    #[inline(always)]
    pub fn walk(&self, plot: &Plot, sought: Sought) -> Walk
        ensures { HasCome plot.now sought self.now result }
    {
        if !self.undone && self.last.is_of(plot, sought) {
            return self.last.walk;
        }
        Walk::front(plot, sought)
    }

    /// Keeps how far the walk to `sought` came, until the script writes or a known cell gets
    /// another number.
    #[inline(always)]
    pub fn keep_walk(&mut self, plot: &Plot, sought: Sought, walk: Walk)
        requires { HasCome plot.now sought self.old walk }
        ensures { self.new ≡ self.old }
    {
        if self.undone {
            self.last.is_kept = false;
        } else {
            self.last = KeptWalk::new(plot, sought, walk);
        }
    }

    // Copies what the script wrote.
    pub(crate) fn copy_script(&self, to: &mut WriteSet)
        requires { to.old.room ≡ length self.now.known }
        ensures entries { to.new.entries ≡ self.now.script }
        ensures room { to.new.room ≡ to.old.room }
    {
        if self.undone {
            to.clear();
        } else {
            to.copy_from(&self.script);
        }
    }

    // Lets these be what the script wrote. It takes no time where the script wrote the same before
    // it was undone, but for a look.
    pub(crate) fn set_script(&mut self, writes: &WriteSet)
        requires { writes.now.room ≡ length self.old.known }
        ensures { self.new ≡ record self.old { script = writes.now.entries } }
    {
        if self.script.has_entries_of(writes) {
            self.undone = false;
        } else {
            self.write_anew(writes);
        }
    }

    // Takes back what the script wrote, and writes these.
    // out of line: mostly the script has written them
    #[cold]
    #[inline(never)]
    fn write_anew(&mut self, writes: &WriteSet)
        requires { writes.now.room ≡ length self.old.known }
        ensures { self.new ≡ record self.old { script = writes.now.entries } }
    {
        take_back(&mut self.cells, &self.batch, &mut self.script);
        self.undone = false;
        self.last.is_kept = false;
        for i in 0..writes.len() {
            let (addr, value) = writes.entry(i);
            self.write(addr, value);
        }
    }
}

// Takes back what a script wrote: its cells hold again what they hold under it.
fn take_back(cells: &mut TouchedCells, batch: &WriteSet, script: &mut WriteSet)
    requires { HoldsNewest cells.old batch.now script.old }
    ensures newest { HoldsNewest cells.new batch.now script.new }
    ensures known { cells.new.known ≡ cells.old.known }
    ensures none { script.new ≡ record script.old { entries = [] } }
{
    for i in 0..script.len() {
        let (addr, _) = script.entry(i);
        let under = batch.get(addr).or(cells.known(addr));
        cells.hold(addr, under);
    }
    script.clear();
}
