//! What a slot holds: a memory, a caller of a memory, a caller whose machine is lost, or what a
//! memory has left.

ghost use Rattle.of_memory.specs.Memories.{IsMemory};
ghost use Rattle.of_memory.specs.Handles.{IsHandle};
ghost use Rattle.of_memory.specs.Lost.{IsLostHandle};
ghost use Rattle.of_memory.specs.Saving.{IsSaved};

use of_memory::{Handle, LostHandle, Memory, Saved};

/// An open memory.
#[derive(Drop)]
pub struct Home {
    pub(crate) memory: Memory,
    ghost is: { ∥ IsMemory memory ∥₁ },
}

/// An enrolled caller.
#[derive(Drop)]
pub struct Seat {
    pub(crate) handle: Handle,
    ghost is: { ∥ IsHandle handle ∥₁ },
}

/// An enrolled caller whose machine is lost.
#[derive(Drop)]
pub struct Vacant {
    pub(crate) lost: LostHandle,
    ghost is: { ∥ IsLostHandle lost ∥₁ },
}

/// What a closed memory has left.
#[derive(Drop)]
pub struct Kept {
    pub(crate) saved: Saved,
    ghost is: { ∥ IsSaved saved ∥₁ },
}

/// What a slot holds.
#[derive(Drop)]
pub enum Held {
    /// Nothing: a place that is about to be filled.
    Nothing,
    Memory(Home),
    Caller(Seat),
    Lost(Vacant),
    Saved(Kept),
}
