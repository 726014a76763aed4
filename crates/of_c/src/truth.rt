//! Facts that a type keeps about its values.

ghost use Rattle.of_memory.specs.Memories.{IsMemory};
ghost use Rattle.of_memory.specs.Handles.{IsHandle};
ghost use Rattle.of_memory.specs.Lost.{IsLostHandle};
ghost use Rattle.of_memory.specs.Saving.{IsSaved};
ghost use Rattle.of_c.specs.Slots.{AreOfOne};

use crate::pair::Pair;
use of_memory::{Handle, LostHandle, Memory, Saved};

/// A fact about things of a type.
pub(crate) trait Claim<T> {
    ghost claim: { T → Type 0 };
}

/// The fact that a memory meets `IsMemory`.
pub(crate) struct OfMemory;

impl Claim<Memory> for OfMemory {
    ghost claim = { IsMemory };
}

/// The fact that a handle meets `IsHandle`.
pub(crate) struct OfHandle;

impl Claim<Handle> for OfHandle {
    ghost claim = { IsHandle };
}

/// The fact that a lost handle meets `IsLostHandle`.
pub(crate) struct OfLost;

impl Claim<LostHandle> for OfLost {
    ghost claim = { IsLostHandle };
}

/// The fact that what was saved meets `IsSaved`.
pub(crate) struct OfSaved;

impl Claim<Saved> for OfSaved {
    ghost claim = { IsSaved };
}

/// The fact that the caller of a pair is one of the pair's memory.
pub(crate) struct OfPair;

impl Claim<Pair> for OfPair {
    ghost claim = { λ p. AreOfOne p.memory.raw.held p.caller.raw.held };
}

/// A fact that a type keeps about a value holds of the value.
pub(crate) fn surely<T, C: Claim<T>>(_thing: &T)
    requires { ∥ C.claim _thing.now ∥₁ }
    ensures { C.claim _thing.now }
{}
