//! A slot: where C keeps a memory, a caller, or what a memory has left.

ghost use Rattle.std.specs.Prelude.{◌≡◌, ◌≢◌, ◌↔◌, IfSome, IsNone, IsSome, IsTrue, None, Some};
ghost use Rattle.std.specs.Coded.{Π_prop, Coded-set};
ghost use Rattle.of_c.specs.Holding.{code_of_held};
ghost use Rattle.of_c.specs.declared.codes.TheConstants.{DONE, NO_MEMORY};

use crate::codes::{DONE, NO_MEMORY};
use crate::held::Held;
use crate::raw::Raw;
use std::alloc::Global;
use std::mem::replace;

/// Where C keeps a memory, a caller, or what a memory has left. All zeros are an empty slot.
#[repr(C)]
pub struct Slot {
    state: u32,
    pub(crate) raw: Raw,
    ghost full: { state ≢ 0 → IsSome raw.held },
    ghost empty: { state ≡ 0 → raw.held ≡ None } by { Π_prop (λ e. Coded-set code_of_held _ _) },
}

impl Slot {
    /// Whether the slot is empty.
    pub(crate) fn is_empty(&self) -> bool
        ensures { IsTrue result ↔ (self.now.raw.held ≡ None) }
    {
        self.state == 0
    }

    /// Puts what is in the box into the slot.
    pub(crate) fn put(&mut self, held: Box<Held, Global>)
        ensures { self.new.raw.held ≡ Some held.value }
    {
        self.raw = Raw::of(held);
        self.state = 1;
    }

    /// Takes what the slot holds out of it, if it holds anything.
    pub(crate) fn take(&mut self, alloc: Global) -> Option<Box<Held, Global>>
        ensures gone { self.new.raw.held ≡ None }
        ensures some { IfSome result (λ held. self.old.raw.held ≡ Some held.value) }
        ensures none { IsNone result → self.old.raw.held ≡ None }
    {
        if self.state == 0 {
            return None;
        }
        let raw = replace(&mut self.raw, Raw::none(alloc));
        self.state = 0;
        Some(raw.into_box())
    }

    /// Puts this into the slot, or answers that memory ran out.
    pub(crate) fn keep(&mut self, alloc: Global, held: Held) -> u32
        ensures done { result ≡ DONE → self.new.raw.held ≡ Some held }
        ensures refused { result ≢ DONE → self.new.raw.held ≡ self.old.raw.held }
        ensures code { result ≢ DONE → result ≡ NO_MEMORY }
    {
        match Box::new(alloc, held) {
            Ok(held) => {
                self.put(held);
                DONE
            }
            Err(_) => NO_MEMORY,
        }
    }
}
