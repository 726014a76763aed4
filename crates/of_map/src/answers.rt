//! What the calls of the map answer.

// Where the block of a key stands.
#[derive(Clone, Copy, Debug, PartialEq, Eq)]
pub(crate) struct Position {
    /// The cell that points to the block.
    pub cell: u32,
    pub block: u32,
}

// What a walk finds at a cell that points to a block.
pub(crate) enum Look {
    // There is none.
    End,
    // The block has the key.
    Here(u32),
    // It has another one, and its link is this cell.
    Past(u32),
}

/// The answer of a put.
#[derive(Clone, Copy, Debug, PartialEq, Eq)]
pub enum Put {
    /// The key was absent and no block is free, so nothing was written.
    Full,
    /// The key was absent, and it has the new value now.
    New,
    /// The key had this value before, and it has the new value now.
    Over(u32),
}
