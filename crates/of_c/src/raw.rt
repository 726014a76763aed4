//! A box as C stores it: its pointer, or null.

ghost use Rattle.std.specs.Prelude.{◌≡◌, IsSome, Option, None, Some};
ghost use Rattle.of_c.specs.declared.held.Held.{Held};
ghost use Rattle.of_c.specs.Holding.{block_owned, code_of_held};

use crate::held::Held;
use std::alloc::Global;
use std::marker::Model;
use std::ptr::null_mut;

/// What a slot holds, in a box that is kept as a pointer; null if it holds nothing.
#[repr(C)]
#[derive(Drop)]
pub struct Raw {
    at: *mut u8,
    alloc: Global,
    pub ghost held: { Option Held } by { code_of_held },
}

impl Model for Raw {
    ghost also_owns = { λ r. block_owned r.at r.alloc r.held };
}

impl Raw {
    /// A null pointer, for a slot that holds nothing.
    pub(crate) fn none(alloc: Global) -> Raw
        ensures { result.held ≡ None }
    {
        Raw {
            at: null_mut(),
            alloc,
        }
    }

    /// The pointer of a box.
    pub(crate) fn of(held: Box<Held, Global>) -> Raw
        ensures { result.held ≡ Some held.value }
    {
        let (at, alloc) = Box::into_raw_with_allocator(held);
        Raw {
            at: at as *mut u8,
            alloc,
        }
    }

    /// The box at the pointer.
    pub(crate) fn into_box(self) -> Box<Held, Global>
        requires { IsSome self.held }
        ensures { self.held ≡ Some result.value }
    {
        let Raw { at, alloc } = self;
        unsafe { Box::from_raw(alloc, at as *mut Held) }
    }
}

unsafe impl Send for Raw {}
