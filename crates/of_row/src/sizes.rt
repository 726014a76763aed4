//! What a row is made for: its shape, its limit and its work.

ghost use Rattle.std.specs.Prelude.{◌≡◌, ◌≤◌};
ghost use Rattle.of_mem.specs.declared.work.TheConstants.{MOST_INSTRS};

use of_cell::Shape;
use of_mem::Work;
use std::marker::Model;

/// A row's shape, limit and work, whose sizes agree.
#[derive(Drop)]
pub struct Sizes<W: Work> {
    shape: Shape,
    limit: u32,
    work: W,
}

impl<W: Work> Model for Sizes<W> {
    ghost use Rattle.of_row.specs.Sizes.{Sizes};

    ghost Value = { Sizes W };

    ghost use Rattle.of_row.specs.Sizes.{sizes_value, SizesFit};

    ghost view = { sizes_value };

    ghost invariant = { λ m. SizesFit W.many W.size (sizes_value m) };
}

impl<W: Work> Sizes<W> {
    ghost use Rattle.of_row.specs.Sizes.{SizesFit};

    /// The sizes of a row with this shape and limit, and this work.
    pub(crate) fn new(shape: Shape, limit: u32, work: W) -> Self
        requires callers { shape.callers ≡ W.many work }
        requires instrs { shape.instrs ≡ MOST_INSTRS }
        requires cells { shape.cells ≡ W.size work }
        requires limit { limit ≤ 4294967294 }
        ensures shape { result.shape ≡ shape }
        ensures limit { result.limit ≡ limit }
        ensures work { result.work ≡ work }
    {
        Sizes { shape, limit, work }
    }

    /// The shape.
    pub(crate) fn shape(&self) -> Shape
        ensures is { result ≡ self.now.shape }
        ensures fit { SizesFit W.many W.size self.now }
    {
        self.shape
    }

    /// The limit.
    pub(crate) fn limit(&self) -> u32
        ensures is { result ≡ self.now.limit }
        ensures small { result ≤ 4294967294 }
    {
        self.limit
    }

    /// The work.
    pub(crate) fn work(&self) -> W
        ensures { result ≡ self.now.work }
    {
        self.work
    }
}
