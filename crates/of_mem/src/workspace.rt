//! Partial memory, and what a work keeps of an operation that runs on it.

ghost use Rattle.std.specs.Prelude.{◌≡◌, ◌<◌, [], length, IfOk};
ghost use Rattle.of_mem.specs.Part.{empty_part, learn, write, keep};

use crate::part::Part;
use crate::suspended_run::{MaySuspend, SuspendedRun};
use std::alloc::{AllocError, Global};
use std::marker::{Model, PhantomData};

/// Partial memory, and what a work keeps between two runs on it. A contract sees the partial memory
/// alone. `part` lends it for reading. Changes go through the calls here, which also forget what
/// was kept if it is no longer right. Only `new` takes memory.
#[derive(Drop)]
pub struct Workspace<W: MaySuspend> {
    pub(crate) part: Part,
    pub(crate) kept: SuspendedRun,
    of: PhantomData<W>,
}

impl<W: MaySuspend> Model for Workspace<W> {
    ghost use Rattle.of_mem.specs.Part.{Part};

    ghost Value = { Part };

    ghost use Rattle.std.specs.Prelude.{◌≡◌, [], length};

    ghost view = { λ s. s.part };

    ghost invariant = { λ s. W.holds s.kept (record s.part { script = [] })
        × (s.kept.room ≡ length s.part.known) };
}

impl<W: MaySuspend> Workspace<W> {
    /// The partial memory of `cells` cells, in which none is known and nothing is written. An error
    /// means that there is not enough memory.
    pub fn new(alloc: Global, cells: u32) -> Result<Self, AllocError>
        ensures { IfOk result (λ p. p ≡ empty_part cells) }
    {
        let part = Part::new(alloc, cells)?;
        let kept = SuspendedRun::new(alloc, cells)?;
        Ok(Workspace {
            part,
            kept,
            of: PhantomData,
        })
    }

    /// The partial memory, for reading.
    pub fn part(&self) -> &Part
        ensures { result.now ≡ self.now }
    {
        &self.part
    }

    /// Makes `value` the known number of a cell. If the cell was known already, what the work kept
    /// is forgotten.
    #[inline(always)]
    pub fn learn(&mut self, addr: u32, value: u32)
        requires { addr < length self.old.known }
        ensures { self.new ≡ learn self.old addr value }
    {
        if self.part.meet(addr, value) {
            self.kept.forget();
        }
    }

    /// Adds a write of the script: the cell `addr` gets the number `value`.
    pub fn write(&mut self, addr: u32, value: u32)
        requires { addr < length self.old.known }
        ensures writes { self.new ≡ write self.old addr value }
        ensures known { self.new.known ≡ self.old.known }
        ensures batch { self.new.batch ≡ self.old.batch }
    {
        self.part.write(addr, value);
    }

    /// Moves the script's writes to the batch.
    pub fn keep(&mut self)
        ensures { self.new ≡ keep self.old }
    {
        self.kept.forget();
        self.part.keep();
    }

    /// Forgets the script's writes.
    pub fn undo(&mut self)
        ensures { self.new ≡ record self.old { script = [] } }
    {
        self.part.undo();
    }

    /// Forgets all known numbers, all writes and what the work kept.
    pub fn clear(&mut self)
        ensures { self.new ≡ empty_part (length self.old.known) }
    {
        self.kept.forget();
        self.part.clear();
    }
}
