//! What is saved, looked up cell by cell: no list of the whole store is made, and nothing is
//! allocated.

ghost use Rattle.std.specs.Prelude.{◌≡◌, ◌<◌, length, slice_get};
ghost use Rattle.std.specs.FinMap as fm;
ghost use Rattle.of_mem.specs.declared.plot.TheConstants.{QUEUES, REGISTERS};
ghost use Rattle.of_mem.specs.Plots.{base};
ghost use Rattle.of_mem.specs.ProgramWork.{memory_of};
ghost use Rattle.of_store.specs.Store.{Store, register, queue};
ghost use Rattle.of_eval.specs.Scripts.{store_at, scripts_data_cells};
ghost use Rattle.of_memory.specs.Saving.{IsSaved, SavedHolds, saved_scripts, saved_cells};

use crate::saved::Saved;
use of_mem::Plot;

impl Saved {
    // Where the data cells stand.
    fn plot(&self) -> Plot
        ensures base { base result ≡ store_at (saved_scripts self.now) }
        ensures blocks { result.blocks ≡ (saved_scripts self.now).blocks }
    {
        self.scripts().plot()
    }

    // The number of a data cell.
    fn number(&self, cell: u32) -> u32
        requires saved { IsSaved self.now }
        requires cell { cell < scripts_data_cells (saved_scripts self.now) }
        ensures { result ≡ memory_of (saved_cells self.now) cell }
    {
        self.cells.number(cell)
    }

    /// The number in a register.
    pub fn register(&self, r: u32) -> u32
        requires saved { IsSaved self.now }
        requires register { r < REGISTERS }
        ensures { (s : Store) → SavedHolds self.now s → result ≡ register s r }
    {
        self.number(self.plot().register(r))
    }

    /// The number at a key of the map. None exactly if the key is absent.
    pub fn key(&self, key: u32) -> Option<u32>
        requires { IsSaved self.now }
        ensures { (s : Store) → SavedHolds self.now s → result ≡ fm.get s.keys key }
    {
        let plot = self.plot();
        let mut cell = plot.bucket(key % plot.buckets());
        for passed in 0..plot.blocks + 1 {
            let pointer = self.number(cell);
            if pointer == 0 {
                return None;
            }
            let block = pointer - 1;
            if self.number(plot.block(block, 0)) == key {
                return Some(self.number(plot.block(block, 1)));
            }
            cell = plot.block(block, 2);
        }
        None
    }

    /// How many keys the map has.
    pub fn keys(&self) -> u32
        requires { IsSaved self.now }
        ensures { (s : Store) → SavedHolds self.now s → result ≡ fm.len s.keys }
    {
        self.number(self.plot().keys())
    }

    /// How many items a queue has.
    pub fn queue_len(&self, q: u32) -> u32
        requires saved { IsSaved self.now }
        requires queue { q < QUEUES }
        ensures { (s : Store) → SavedHolds self.now s → result ≡ length (queue s q) }
    {
        self.number(self.plot().length(q))
    }

    /// The item of a queue with index `at`, from 0 at the front. None exactly if the queue has no
    /// such item.
    pub fn item(&self, q: u32, at: u32) -> Option<u32>
        requires saved { IsSaved self.now }
        requires queue { q < QUEUES }
        ensures { (s : Store) → SavedHolds self.now s → result ≡ slice_get (queue s q) at }
    {
        let plot = self.plot();
        let mut cell = plot.head(q);
        for passed in 0..at {
            let pointer = self.number(cell);
            if pointer == 0 {
                return None;
            }
            cell = plot.block(pointer - 1, 2);
        }
        let pointer = self.number(cell);
        if pointer == 0 {
            return None;
        }
        Some(self.number(plot.block(pointer - 1, 0)))
    }
}
