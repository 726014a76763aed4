//! Walks through the buckets.

ghost use Rattle.std.specs.Prelude.{◌≡◌, ◌<◌, IsTrue, false};
ghost use Rattle.of_mem.specs.Part.{Part};
ghost use Rattle.of_mem.specs.Places.{bucket_at, bucket_count};
ghost use Rattle.of_mem.specs.Plots.{base};
ghost use Rattle.of_mem.specs.Walks.{HasCome, IsWalkOf};

use crate::plot::Plot;

/// What a walk looks for: a key, in the key's bucket, or the least key that is not below a number,
/// in all buckets.
#[derive(Clone, Copy, Debug, PartialEq, Eq)]
pub enum Sought {
    Key(u32),
    LeastFrom(u64),
}

/// How far a walk came: its bucket, how many blocks of this bucket it passed, and the cell that
/// points to the next block. A walk to the least key has gone through all earlier buckets, and
/// keeps the best key so far.
#[derive(Clone, Copy, Debug, PartialEq, Eq)]
pub struct Walk {
    pub bucket: u32,
    pub passed: u32,
    pub cell: u32,
    pub best: Option<u32>,
}

impl Walk {
    /// A walk at the front of a bucket, with the best key of the earlier buckets.
    #[inline(always)]
    pub fn at_front(plot: &Plot, bucket: u32, best: Option<u32>) -> Walk
        requires { bucket < bucket_count plot.now.blocks }
        ensures bucket { result.bucket ≡ bucket }
        ensures passed { result.passed ≡ 0 }
        ensures cell { result.cell ≡ bucket_at (base plot.now) plot.now.blocks bucket }
        ensures best { result.best ≡ best }
    {
        Walk {
            bucket,
            passed: 0,
            cell: plot.bucket(bucket),
            best,
        }
    }

    /// The walk to `sought` that has read nothing yet.
    #[inline(always)]
    pub fn front(plot: &Plot, sought: Sought) -> Walk
        ensures { (p : Part) → HasCome plot.now sought p result }
    {
        match sought {
            Sought::Key(key) => Walk::at_front(plot, key % plot.buckets(), None),
            Sought::LeastFrom(_) => Walk::at_front(plot, 0, None),
        }
    }
}

// What was sought, over cells of a store that begin at which one, and how far the walk came, if one
// is kept.
#[derive(Clone, Copy, Debug, PartialEq, Eq)]
pub(crate) struct KeptWalk {
    pub is_kept: bool,
    pub base: u32,
    pub blocks: u32,
    pub sought: Sought,
    pub walk: Walk,
}

impl KeptWalk {
    pub fn none() -> KeptWalk
        ensures { result.is_kept ≡ false }
    {
        KeptWalk {
            is_kept: false,
            base: 0,
            blocks: 0,
            sought: Sought::Key(0),
            walk: Walk {
                bucket: 0,
                passed: 0,
                cell: 0,
                best: None,
            },
        }
    }

    // On the cells of this plot.
    #[inline(always)]
    pub fn new(plot: &Plot, sought: Sought, walk: Walk) -> KeptWalk
        ensures base { result.base ≡ base plot.now }
        ensures blocks { result.blocks ≡ plot.now.blocks }
        ensures sought { result.sought ≡ sought }
        ensures walk { result.walk ≡ walk }
    {
        KeptWalk {
            is_kept: true,
            base: plot.base(),
            blocks: plot.blocks,
            sought,
            walk,
        }
    }

    // Whether one is kept of this, on the cells of this plot.
    #[inline(always)]
    pub fn is_of(&self, plot: &Plot, sought: Sought) -> bool
        ensures { IsTrue result → IsWalkOf self.now plot.now sought }
    {
        self.is_kept
            && self.base == plot.base()
            && self.blocks == plot.blocks
            && self.sought == sought
    }
}
