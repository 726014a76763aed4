//! A call that a scan has run.

use of_mem::{MOST_INSTRS, RawReply};

/// A call that was run. `ticket` is its number among the calls of its caller, its operation is the
/// first `words` words of `op`, and `raw` is its reply.
#[derive(Clone, Copy)]
pub struct Call {
    pub caller: u32,
    pub ticket: u32,
    pub words: usize,
    pub op: [u64; MOST_INSTRS],
    pub raw: RawReply,
}
