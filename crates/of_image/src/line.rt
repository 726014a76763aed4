//! One line of an image.

/// What a line says.
#[derive(Clone, Copy, Debug)]
pub(crate) enum ImageLine {
    Title { version: u32 },
    Callers { count: u32 },
    Blocks { count: u32 },
    Cell { cell: u32, seq: u32, payload: u32 },
    End,
}
