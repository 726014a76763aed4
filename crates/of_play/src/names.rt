//! The words of a plan's table by their names.

ghost use Rattle.std.specs.Prelude.{◌≡◌, ◌≤◌};
ghost use Rattle.of_mem.specs.declared.work.TheConstants.{MOST_INSTRS};
ghost use Rattle.of_play.specs.Names.{own_cell, queue_cell};

use of_cell::Shape;
use of_mem::{MOST_INSTRS, Plot, QUEUES};

/// What a data cell holds.
#[derive(Clone, Copy)]
pub enum CellUse {
    /// The ticket of the last announced call of a caller that was run.
    Ticket(u32),
    /// The shape of the reply to a caller's last announced call that was run.
    Shape(u32),
    /// Number `at` of the reply to a caller's last announced call that was run.
    Reply { caller: u32, at: u32 },
    /// A register.
    Register(u32),
    /// How many blocks of the store were taken at least once.
    Taken,
    /// The first block of the list of free blocks.
    Free,
    /// How many keys there are.
    Keys,
    /// The first block of a bucket of the map.
    Bucket(u32),
    /// The first block of a queue.
    Front(u32),
    /// The last block of a queue.
    Back(u32),
    /// How many items a queue has.
    Length(u32),
    /// A field of a block, 0 to 2.
    Block { block: u32, field: u32 },
}

/// A cell, by what it is for.
#[derive(Clone, Copy)]
pub enum ShownCell {
    /// The current-transaction word.
    Current,
    /// The request of a caller.
    Request(u32),
    /// The data cell with this address.
    Data(u32),
    /// A word of a caller's log. Word 0 is the number of entries; after it come the cell and the
    /// number of each entry.
    Log { caller: u32, at: u32 },
}

/// A word of the table, by what it is for.
#[derive(Clone, Copy)]
pub enum ShownWord {
    /// The word that a cell holds.
    Now(ShownCell),
    /// The durable word of a cell.
    Durable(ShownCell),
    /// A word of a caller's script.
    Script { caller: u32, at: u32 },
    /// The announcement of a caller.
    Announcement(u32),
    /// The word with a bit for each caller's number: whether the number is taken.
    Members,
}

/// How many data cells belong to each caller: ticket, shape and reply.
const OWN_CELLS: u32 = MOST_INSTRS as u32 + 2;

/// How many words each caller has for its script and its announcement.
const ROW_WORDS: u32 = MOST_INSTRS as u32 + 1;

/// What data cell `at` among a caller's own holds.
fn own_cell(caller: u32, at: u32) -> CellUse
    ensures { result ≡ own_cell caller at }
{
    match at {
        0 => CellUse::Ticket(caller),
        1 => CellUse::Shape(caller),
        _ => CellUse::Reply { caller, at: at - 2 },
    }
}

/// What cell `at` of a queue holds.
fn queue_cell(queue: u32, at: u32) -> CellUse
    ensures { result ≡ queue_cell queue at }
{
    match at {
        0 => CellUse::Front(queue),
        1 => CellUse::Back(queue),
        _ => CellUse::Length(queue),
    }
}

impl CellUse {
    ghost use Rattle.of_play.specs.Names.{cell_use_at, store_cell};
    ghost use Rattle.of_mem.specs.Places.{base_of};

    /// What a data cell after the callers' own cells holds. The buckets come right after the count
    /// of keys, since a plan has few blocks. With many blocks they would come after the blocks.
    fn in_store(plot: &Plot, addr: u32) -> CellUse
        requires instrs { plot.now.instrs ≡ MOST_INSTRS }
        requires behind { base_of plot.now.callers MOST_INSTRS ≤ addr }
        ensures { result ≡ store_cell (base_of plot.now.callers MOST_INSTRS) addr }
    {
        let queues = plot.head(0);
        let blocks = queues + 3 * QUEUES;
        if addr < plot.fresh() {
            CellUse::Register(addr - plot.base())
        } else if addr == plot.fresh() {
            CellUse::Taken
        } else if addr == plot.free() {
            CellUse::Free
        } else if addr == plot.keys() {
            CellUse::Keys
        } else if addr < queues {
            CellUse::Bucket(addr - plot.keys() - 1)
        } else if addr < blocks {
            queue_cell((addr - queues) / 3, (addr - queues) % 3)
        } else {
            CellUse::Block {
                block: (addr - blocks) / 3,
                field: (addr - blocks) % 3,
            }
        }
    }

    /// What the data cell with this address holds.
    pub fn at(plot: &Plot, addr: u32) -> CellUse
        requires instrs { plot.now.instrs ≡ MOST_INSTRS }
        ensures { result ≡ cell_use_at plot.now.callers addr }
    {
        if addr < plot.base() {
            own_cell(addr / OWN_CELLS, addr % OWN_CELLS)
        } else {
            CellUse::in_store(plot, addr)
        }
    }
}

impl ShownCell {
    ghost use Rattle.of_play.specs.Names.{cell_at};

    /// The cell with this number.
    pub fn at(shape: &Shape, number: u32) -> ShownCell
        ensures { result ≡ cell_at shape.now.callers shape.now.cells number }
    {
        let data = shape.callers + 1;
        let logs = data + shape.cells;
        if number == 0 {
            ShownCell::Current
        } else if number < data {
            ShownCell::Request(number - 1)
        } else if number < logs {
            ShownCell::Data(number - data)
        } else {
            let log_words = 2 * shape.log_room() + 1;
            ShownCell::Log {
                caller: (number - logs) / log_words,
                at: (number - logs) % log_words,
            }
        }
    }
}

impl ShownWord {
    ghost use Rattle.of_play.specs.Names.{row_word, word_at_place};

    /// Word `at` of a caller: the script words come first, and the announcement after them.
    fn in_row(caller: u32, at: u32) -> ShownWord
        ensures { result ≡ row_word caller at }
    {
        if at == MOST_INSTRS as u32 {
            ShownWord::Announcement(caller)
        } else {
            ShownWord::Script { caller, at }
        }
    }

    /// The word with this index in the table.
    pub fn at(shape: &Shape, place: u32) -> ShownWord
        requires { shape.now.instrs ≡ MOST_INSTRS }
        ensures { result ≡ word_at_place shape.now.callers shape.now.cells place }
    {
        let cells = shape.durable_cells();
        let rows = 2 * cells;
        if place < cells {
            ShownWord::Now(ShownCell::at(shape, place))
        } else if place < rows {
            ShownWord::Durable(ShownCell::at(shape, place - cells))
        } else if place < shape.members_word() {
            ShownWord::in_row((place - rows) / ROW_WORDS, (place - rows) % ROW_WORDS)
        } else {
            ShownWord::Members
        }
    }
}
