//! The known number and the newest number of each cell, kept only for cells that were touched.

ghost use Rattle.std.specs.Prelude.{◌≡◌, ◌<◌, length, IfOk, None};
ghost use Rattle.std.proofs.Common.{get_or, set};
ghost use Rattle.of_mem.specs.TouchedCells.{Meets, no_cells};

use crate::write_set::WriteSet;
use std::alloc::{AllocError, Global};
use std::marker::Model;

/// The known number and the newest number of each cell; a cell that was not set has neither. Only
/// `new` takes memory. Each call takes the same time however many cells there are, and touches only
/// the memory of cells that were set.
#[derive(Drop)]
pub struct TouchedCells {
    /// The cells that were set, as the addresses of a write-set. The numbers in this write-set are
    /// not used.
    index: WriteSet,
    /// The known and the newest number of each cell that was set.
    held: Vec<(Option<u32>, Option<u32>)>,
}

impl Model for TouchedCells {
    ghost use Rattle.of_mem.specs.TouchedCells.{TouchedCells};

    ghost Value = { TouchedCells };

    ghost use Rattle.std.specs.Prelude.{◌≡◌, ◌≤◌, length};
    ghost use Rattle.std.specs.Vec.{vec_capacity};
    ghost use Rattle.of_mem.specs.TouchedCells.{cells_of};

    ghost view = { λ c. cells_of c.index.room c.index.entries c.held.items };

    ghost invariant = { λ c. (length c.held.items ≡ length c.index.entries)
        × (c.index.room ≤ vec_capacity c.held) };
}

impl TouchedCells {
    /// A value for `cells` cells, none of which has a number. An error means that there is not
    /// enough memory.
    pub fn new(alloc: Global, cells: u32) -> Result<Self, AllocError>
        ensures { IfOk result (λ c. c ≡ no_cells cells) }
    {
        let index = WriteSet::new(alloc, cells)?;
        let held = Vec::with_capacity(alloc, cells as usize)?;
        Ok(TouchedCells { index, held })
    }

    /// The known number of a cell, or None.
    #[inline(always)]
    pub fn known(&self, addr: u32) -> Option<u32>
        requires { addr < length self.now.known }
        ensures { result ≡ get_or self.now.known addr None }
    {
        let place = self.index.find(addr)?;
        self.held[place].0
    }

    /// The newest number of a cell, or None.
    #[inline(always)]
    pub fn newest(&self, addr: u32) -> Option<u32>
        requires { addr < length self.now.known }
        ensures { result ≡ get_or self.now.newest addr None }
    {
        let place = self.index.find(addr)?;
        self.held[place].1
    }

    /// Makes `value` the known and the newest number of a cell, if the cell was not set before.
    /// Otherwise it changes nothing and answers false.
    #[inline(always)]
    pub fn meet(&mut self, addr: u32, value: u32) -> bool
        requires { addr < length self.old.known }
        ensures { Meets self.old self.new addr value result }
    {
        match self.index.enter(addr, 0) {
            Some(_) => false,
            None => {
                // there is room for each cell
                self.held.push_reserved((Some(value), Some(value)));
                true
            }
        }
    }

    /// Sets the known and the newest number of a cell.
    pub fn set(&mut self, addr: u32, known: Option<u32>, newest: Option<u32>)
        requires { addr < length self.old.known }
        ensures { self.new ≡ record {
          known = set self.old.known addr known;
          newest = set self.old.newest addr newest;
        } }
    {
        match self.index.enter(addr, 0) {
            Some(place) => self.held[place] = (known, newest),
            None => self.held.push_reserved((known, newest)),
        }
    }

    /// Sets the newest number of a cell.
    pub fn hold(&mut self, addr: u32, newest: Option<u32>)
        requires { addr < length self.old.known }
        ensures { self.new ≡ record self.old { newest = set self.old.newest addr newest } }
    {
        match self.index.enter(addr, 0) {
            Some(place) => self.held[place].1 = newest,
            None => self.held.push_reserved((None, newest)),
        }
    }

    /// Forgets the numbers of all cells.
    pub fn clear(&mut self)
        ensures { self.new ≡ no_cells (length self.old.known) }
    {
        self.index.clear();
        self.held.clear();
    }
}
