//! The slot of a memory, and the slot of one of its callers.

ghost use Rattle.of_c.specs.Slots.{AreOfOne};

use crate::slot::Slot;

/// The slot of a memory, and the slot of one of its callers.
#[repr(C)]
pub struct Pair {
    pub(crate) memory: Slot,
    pub(crate) caller: Slot,
    ghost from: { ∥ AreOfOne memory.raw.held caller.raw.held ∥₁ },
}
