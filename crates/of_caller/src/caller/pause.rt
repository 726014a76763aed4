//! A moment that a caller leaves to another one.

use std::hint::spin_loop;

/// How often the processor pauses. On the processors that were measured this takes half a
/// microsecond to one microsecond.
const PAUSES: u32 = 96;

/// Pauses once. It reads no word of the row and waits for no other caller: it takes as long whatever
/// others do.
// not inline: a call that meets no other caller has no part of it in its way
#[cold]
#[inline(never)]
pub(super) fn pause() {
    for _ in 0..PAUSES {
        spin_loop();
    }
}
