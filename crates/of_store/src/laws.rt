//! The limits of a store's room.

ghost use Rattle.std.specs.Prelude.{◌≡◌};

use crate::store::{MOST_BLOCKS, MOST_ORDERED_BLOCKS};

/// The limits of a store's room as plain numbers: the greatest room of all stores, and of those
/// that run the instructions on keys in their order.
pub fn numbers()
    ensures blocks { MOST_BLOCKS ≡ 16777216 }
    ensures ordered { MOST_ORDERED_BLOCKS ≡ 512 }
{}
