//! A store on cells that are all known.

ghost use Rattle.std.specs.Prelude.{◌≡◌, ◌≤◌, IfOk};
ghost use Rattle.of_store.specs.Store.{Store, empty_store};
ghost use Rattle.of_eval.specs.Shapes.{IsWhole};
ghost use Rattle.of_serial.specs.SerialRun.{CellsHoldStore, RunsScript};

use of_eval::{LawErr, Scripts, lawful, reply_of};
use of_mem::{RawReply, Work, Workspace};
use of_plan::{MOST_PLAN_BLOCKS, MOST_PLAN_CALLERS};
use of_script::{MOST_INSTRS, Reply, Script, to_words};
use of_store::Store;
use std::alloc::{AllocError, Global};

/// The data cells of a store. Each is known, and those of the callers are never written.
#[derive(Drop)]
pub(super) struct Cells {
    scripts: Scripts,
    part: Workspace<Scripts>,
}

impl Cells {
    /// The cells of the empty store: all are 0. An error means out of memory.
    pub(super) fn new(alloc: Global, callers: u32, blocks: u32) -> Result<Cells, AllocError>
        requires some { 1 ≤ callers }
        requires few { callers ≤ MOST_PLAN_CALLERS }
        requires blocks { blocks ≤ MOST_PLAN_BLOCKS }
        ensures { IfOk result (λ cells. CellsHoldStore cells (empty_store blocks)) }
    {
        let scripts = Scripts { callers, blocks };
        let mut part = Workspace::new(alloc, scripts.cells())?;
        for cell in 0..scripts.cells() {
            part.learn(cell, 0);
        }
        Ok(Cells { scripts, part })
    }

    /// Runs a script, keeps what it writes, and returns its reply.
    pub(super) fn run(&mut self, script: &Script) -> Reply
        requires { (s : Store) × CellsHoldStore self.old s }
        ensures whole { IsWhole result }
        ensures runs { RunsScript script.now self.old self.new result }
    {
        let mut words = [0; MOST_INSTRS];
        to_words(script, &mut words);
        let words = &words[..script.len() as usize];
        let mut raw = RawReply {
            shape: 0,
            values: [0; MOST_INSTRS],
        };
        // each cell is known, so no run names one that isn't
        self.scripts.run(&mut self.part, words, &mut raw).unwrap();
        self.part.keep();
        reply_of(&raw).unwrap()
    }

    /// The store for which the cells stand. An error means out of memory.
    pub(super) fn store(&self, alloc: Global) -> Result<Store, AllocError>
        requires { (s : Store) × CellsHoldStore self.now s }
        ensures { IfOk result (λ store. (s : Store) → CellsHoldStore self.now s → store ≡ s) }
    {
        let mut cells = Vec::new(alloc);
        for cell in 0..self.scripts.cells() {
            cells.push(self.part.part().read(cell).unwrap())?;
        }
        match lawful(alloc, &self.scripts.plot(), &cells) {
            Ok(store) => Ok(store),
            Err(LawErr::Memory) => Err(AllocError),
            // the cells stand for a store
            Err(LawErr::Unlawful { .. }) => unreachable!(),
        }
    }
}
