//! What a work keeps of an operation between two runs.

ghost use Rattle.std.specs.Prelude.{◌≡◌, ◌≤◌, ◌<◌, ◌+◌, ◌↔◌, IsTrue, length, IfOk, None};
ghost use Rattle.std.proofs.Common.{get_or, set};
ghost use Rattle.of_mem.specs.declared.work.TheConstants.{MOST_INSTRS};
ghost use Rattle.of_mem.specs.SuspendedRun.{nothing_suspended, begin_run, IsSuspensionOf};

use crate::part::Part;
use crate::work::MOST_INSTRS;
use crate::write_set::WriteSet;
use std::alloc::{AllocError, Global};
use std::marker::Model;

/// What a work keeps of an operation whose run stopped because a cell was not known: the work's
/// numbers of callers and blocks, the operation's words, how many of them have run, what these
/// answered and wrote, and the key for which the next word looks first. There are no words if
/// nothing is kept. Only `new` takes memory.
#[derive(Drop)]
pub struct SuspendedRun {
    callers: u32,
    blocks: u32,
    count: usize,
    words: [u64; MOST_INSTRS],
    done: u32,
    values: [Option<u32>; MOST_INSTRS],
    writes: WriteSet,
    sought: Option<u32>,
}

impl Model for SuspendedRun {
    ghost use Rattle.of_mem.specs.SuspendedRun.{SuspendedRun};

    ghost Value = { SuspendedRun };

    ghost use Rattle.std.specs.Prelude.{◌≡◌, ◌≤◌, ◌-◌, ◌++◌, length, None};
    ghost use Rattle.std.proofs.Common.{take, replicate};
    ghost use Rattle.of_mem.specs.declared.work.TheConstants.{MOST_INSTRS};

    ghost view = { λ k. record {
      callers = k.callers;
      blocks = k.blocks;
      words = take k.count k.words;
      done = k.done;
      values = take k.done k.values ++ replicate (MOST_INSTRS - k.done) None;
      writes = k.writes.entries;
      room = k.writes.room;
      sought = k.sought;
    } };

    ghost invariant = { λ k. (k.done ≤ k.count) × (k.count ≤ MOST_INSTRS)
        × (length k.words ≡ MOST_INSTRS) × (length k.values ≡ MOST_INSTRS) };
}

impl SuspendedRun {
    /// A value that keeps no operation, with room for the writes of `cells` cells. An error means
    /// that there is not enough memory.
    pub fn new(alloc: Global, cells: u32) -> Result<Self, AllocError>
        ensures { IfOk result (λ k. k ≡ nothing_suspended cells) }
    {
        let writes = WriteSet::new(alloc, cells)?;
        Ok(SuspendedRun {
            callers: 0,
            blocks: 0,
            count: 0,
            words: [0; MOST_INSTRS],
            done: 0,
            values: [None; MOST_INSTRS],
            writes,
            sought: None,
        })
    }

    /// Forgets the operation that was kept.
    pub fn forget(&mut self)
        ensures { self.new ≡ nothing_suspended self.old.room }
    {
        self.callers = 0;
        self.blocks = 0;
        self.count = 0;
        self.done = 0;
        self.writes.clear();
        self.sought = None;
    }

    /// Keeps an operation of at most `MOST_INSTRS` words, none of which has run.
    pub fn begin(&mut self, callers: u32, blocks: u32, words: &[u64])
        requires { length words.now ≤ MOST_INSTRS }
        ensures { self.new ≡ begin_run self.old.room callers blocks words.now }
    {
        self.callers = callers;
        self.blocks = blocks;
        self.count = words.len();
        self.words[..words.len()].copy_from_slice(words);
        self.done = 0;
        self.writes.clear();
        self.sought = None;
    }

    /// Whether the operation that is kept has these words, and was kept by a work with these
    /// numbers of callers and blocks.
    pub fn is_of(&self, callers: u32, blocks: u32, words: &[u64]) -> bool
        ensures { IsTrue result ↔ IsSuspensionOf self.now callers blocks words.now }
    {
        self.callers == callers
            && self.blocks == blocks
            && are_same(&self.words[..self.count], words)
    }

    /// How many words of the operation have run.
    pub fn done(&self) -> usize
        ensures value { result ≡ self.now.done }
        ensures few { self.now.done ≤ length self.now.words }
        ensures most { length self.now.words ≤ MOST_INSTRS }
    {
        self.done as usize
    }

    /// What the word with the index `place` answered. It must be one of the words that have run.
    pub fn value(&self, place: usize) -> Option<u32>
        requires ran { place < self.now.done }
        requires few { place < MOST_INSTRS }
        ensures { result ≡ get_or self.now.values place None }
    {
        self.values[place]
    }

    /// Notes that the next word has run: it answered `value`, and the script's writes are now those
    /// in `part`.
    pub fn advance(&mut self, value: Option<u32>, part: &Part)
        requires more { self.old.done < length self.old.words }
        requires room { self.old.room ≡ length part.now.known }
        ensures { self.new ≡ record self.old {
          done = self.old.done + 1;
          values = set self.old.values self.old.done value;
          writes = part.now.script;
          sought = None;
        } }
    {
        self.values[self.done as usize] = value;
        self.done += 1;
        self.sought = None;
        part.copy_script(&mut self.writes);
    }

    /// The key for which the next word looks first, if a key was kept.
    pub fn sought(&self) -> Option<u32>
        ensures { result ≡ self.now.sought }
    {
        self.sought
    }

    /// Keeps the key for which the next word looks first, or None if no key is known.
    pub fn seek(&mut self, key: Option<u32>)
        ensures { self.new ≡ record self.old { sought = key } }
    {
        self.sought = key;
    }

    /// Sets the script's writes in `part` to the writes of the words that have run.
    pub fn restore(&self, part: &mut Part)
        requires { self.now.room ≡ length part.old.known }
        ensures { part.new ≡ record part.old { script = self.now.writes } }
    {
        part.set_script(&self.writes);
    }
}

/// Whether two operations have the same words.
// four words at a time: each run that goes on compares all words first
fn are_same(words: &[u64], others: &[u64]) -> bool
    ensures { IsTrue result ↔ (words.now ≡ others.now) }
{
    if words.len() != others.len() {
        return false;
    }
    let fours = words.len() / 4;
    for i in 0..fours {
        let at = 4 * i;
        let same = words[at] == others[at]
            && words[at + 1] == others[at + 1]
            && words[at + 2] == others[at + 2]
            && words[at + 3] == others[at + 3];
        if !same {
            return false;
        }
    }
    for last in 4 * fours..words.len() {
        if words[last] != others[last] {
            return false;
        }
    }
    true
}

/// A work that may keep, between two runs, how far an operation came. The members say with which
/// partial memories what is kept agrees, so that the next run may go on from it.
pub trait MaySuspend: Copy {
    ghost use Rattle.std.specs.Prelude.{◌≡◌, ℕ, [], None};
    ghost use Rattle.std.proofs.Common.{get_or};
    ghost use Rattle.of_mem.specs.SuspendedRun.{SuspendedRun};
    ghost use Rattle.of_mem.specs.Part.{Part, learn};

    /// The fact that what is kept agrees with a partial memory in which the script has written
    /// nothing: a run may go on from what is kept.
    ghost holds: { SuspendedRun → Part → Type 0 };

    /// A value that keeps no operation agrees with every partial memory.
    ghost nothing: { (k : SuspendedRun) (p : Part) → k.words ≡ [] → holds k p };

    /// What is kept still agrees with the partial memory after a cell becomes known that was not
    /// known before.
    ghost learns: { (k : SuspendedRun) (p : Part) (a v : ℕ) → get_or p.known a None ≡ None →
        holds k p → holds k (learn p a v) };
}
