//! The addresses of data cells.

ghost use Rattle.std.specs.Prelude.{◌≡◌, ◌<◌, ◌≤◌, ◌+◌, ◌*◌};
ghost use Rattle.of_mem.specs.declared.work.TheConstants.{MOST_CALLERS, MOST_INSTRS};
ghost use Rattle.of_mem.specs.declared.plot.TheConstants.{REGISTERS, BUCKETS, QUEUES, MOST_BLOCKS, FIRST_BLOCK};

/// How many registers a store has.
pub const REGISTERS: u32 = 16;

/// How many buckets the keys of a store are spread over, if the store has no more blocks than a
/// plan may have.
pub const BUCKETS: u32 = 32;

/// How many queues a store has.
pub const QUEUES: u32 = 4;

/// The most blocks that a store may have.
pub const MOST_BLOCKS: u32 = 16_777_216;

// Up to this many blocks it has `BUCKETS` buckets, in front of the queues. A store with more blocks
// has about a bucket for each, after the blocks.
const FEW_BLOCKS: u32 = 512;

// How far after the callers' cells the store's parts begin: the registers first, then the cells
// that the allocator and the map count with.
const FRESH: u32 = REGISTERS;

const FREE: u32 = FRESH + 1;

const KEYS: u32 = FREE + 1;

const FIRST_BUCKET: u32 = KEYS + 1;

const FIRST_QUEUE: u32 = FIRST_BUCKET + BUCKETS;

const FIRST_BLOCK: u32 = FIRST_QUEUE + 3 * QUEUES;

/// The addresses of data cells. First come the own cells of each caller: its ticket, the shape of
/// its reply and the numbers of its reply. Then come the cells of the store: registers, counts,
/// buckets, queues and blocks. In a store with many blocks the buckets come last.
#[derive(Clone, Copy, Debug, PartialEq, Eq)]
pub struct Plot {
    /// The number of callers, 1 to `MOST_CALLERS`.
    pub callers: u32,
    /// The most instructions of a script, 1 to `MOST_INSTRS`.
    pub instrs: u32,
    /// The number of blocks of the store, at most `MOST_BLOCKS`.
    pub blocks: u32,
    pub ghost some_callers: { 1 ≤ callers },
    pub ghost few_callers: { callers ≤ MOST_CALLERS },
    pub ghost some_instrs: { 1 ≤ instrs },
    pub ghost few_instrs: { instrs ≤ MOST_INSTRS },
    pub ghost few_blocks: { blocks ≤ MOST_BLOCKS },
}

impl Plot {
    ghost use Rattle.of_mem.specs.Plots.{base, data_cell_count};
    ghost use Rattle.of_mem.specs.Places.{ticket_cell_at, shape_at, reply_at, register_at, fresh_at, free_at, keys_at, bucket_count, first_bucket, buckets_behind, bucket_at, head_at, tail_at, length_at, block_at};

    // The first cell of a caller.
    fn row(&self, caller: u32) -> u32
        requires { caller ≤ self.now.callers }
        ensures value { result ≡ ticket_cell_at self.now.instrs caller }
        ensures small { result ≤ MOST_CALLERS * (MOST_INSTRS + 2) }
    {
        caller * (self.instrs + 2)
    }

    /// The address of the first cell after the callers' own cells.
    pub fn base(&self) -> u32
        ensures value { result ≡ base self.now }
        ensures small { result ≤ MOST_CALLERS * (MOST_INSTRS + 2) }
    {
        self.row(self.callers)
    }

    /// How many buckets the keys of the store are spread over.
    #[tactic(auto, using(crate::proofs::BucketPlaces::few_count, crate::proofs::BucketPlaces::many_count))]
    pub fn buckets(&self) -> u32
        ensures value { result ≡ bucket_count self.now.blocks }
        ensures some { 1 ≤ result }
        ensures few { result ≤ BUCKETS + self.now.blocks }
    {
        if self.blocks <= FEW_BLOCKS {
            BUCKETS
        } else {
            (BUCKETS + (self.blocks - FEW_BLOCKS)) / 2 * 2 + 1
        }
    }

    // How far from the store's first cell the buckets begin.
    #[tactic(auto, using(crate::proofs::BucketPlaces::few_first, crate::proofs::BucketPlaces::many_first))]
    fn first_bucket(&self) -> u32
        ensures value { result ≡ first_bucket self.now.blocks }
        ensures small { result ≤ FIRST_BLOCK + 3 * self.now.blocks }
    {
        if self.blocks <= FEW_BLOCKS {
            FIRST_BUCKET
        } else {
            FIRST_BLOCK + 3 * self.blocks
        }
    }

    // How many buckets come after the blocks.
    #[tactic(auto, using(crate::proofs::BucketPlaces::few_behind, crate::proofs::BucketPlaces::many_behind))]
    fn buckets_behind(&self) -> u32
        ensures value { result ≡ buckets_behind self.now.blocks }
        ensures few { result ≤ BUCKETS + self.now.blocks }
    {
        if self.blocks <= FEW_BLOCKS {
            0
        } else {
            self.buckets()
        }
    }

    /// The number of data cells: the callers' own cells and the cells of the store.
    pub fn cells(&self) -> u32
        ensures { result ≡ data_cell_count self.now }
    {
        self.base() + FIRST_BLOCK + 3 * self.blocks + self.buckets_behind()
    }

    /// The address of the cell that holds a caller's ticket.
    pub fn ticket(&self, caller: u32) -> u32
        requires { caller < self.now.callers }
        ensures { result ≡ ticket_cell_at self.now.instrs caller }
    {
        self.row(caller)
    }

    /// The address of the cell that holds the shape of a caller's reply.
    pub fn shape(&self, caller: u32) -> u32
        requires { caller < self.now.callers }
        ensures { result ≡ shape_at self.now.instrs caller }
    {
        self.row(caller) + 1
    }

    /// The address of the cell that holds number `place` of a caller's reply.
    pub fn reply(&self, caller: u32, place: u32) -> u32
        requires caller { caller < self.now.callers }
        requires place { place < self.now.instrs }
        ensures { result ≡ reply_at self.now.instrs caller place }
    {
        self.row(caller) + 2 + place
    }

    /// The address of the cell that holds a register.
    pub fn register(&self, r: u32) -> u32
        requires { r < REGISTERS }
        ensures { result ≡ register_at (base self.now) r }
    {
        self.base() + r
    }

    /// The address of the cell that counts the blocks that were taken at least once.
    pub fn fresh(&self) -> u32
        ensures { result ≡ fresh_at (base self.now) }
    {
        self.base() + FRESH
    }

    /// The address of the cell that points to the first block of the free list.
    pub fn free(&self) -> u32
        ensures { result ≡ free_at (base self.now) }
    {
        self.base() + FREE
    }

    /// The address of the cell that counts the keys of the map.
    pub fn keys(&self) -> u32
        ensures { result ≡ keys_at (base self.now) }
    {
        self.base() + KEYS
    }

    /// The address of the cell that points to the first block of a bucket.
    #[tactic(auto, using(crate::proofs::BucketPlaces::most_buckets))]
    pub fn bucket(&self, b: u32) -> u32
        requires { b < bucket_count self.now.blocks }
        ensures { result ≡ bucket_at (base self.now) self.now.blocks b }
    {
        self.base() + self.first_bucket() + b
    }

    /// The address of the cell that points to the first block of a queue.
    pub fn head(&self, q: u32) -> u32
        requires { q < QUEUES }
        ensures { result ≡ head_at (base self.now) q }
    {
        self.base() + FIRST_QUEUE + 3 * q
    }

    /// The address of the cell that points to a queue's last block.
    pub fn tail(&self, q: u32) -> u32
        requires { q < QUEUES }
        ensures { result ≡ tail_at (base self.now) q }
    {
        self.base() + FIRST_QUEUE + 3 * q + 1
    }

    /// The address of the cell that counts a queue's items.
    pub fn length(&self, q: u32) -> u32
        requires { q < QUEUES }
        ensures { result ≡ length_at (base self.now) q }
    {
        self.base() + FIRST_QUEUE + 3 * q + 2
    }

    /// The address of a cell of a block. Field 0 holds a key or an item, field 1 the value at the
    /// key, and field 2 is the link to the next block.
    pub fn block(&self, b: u32, field: u32) -> u32
        requires block { b < self.now.blocks }
        requires field { field < 3 }
        ensures { result ≡ block_at (base self.now) b field }
    {
        self.base() + FIRST_BLOCK + 3 * b + field
    }
}
