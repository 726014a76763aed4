//! The lists of a new machine.

ghost use Rattle.std.specs.Prelude.{◌≡◌, ◌+◌, ◌*◌, [], IfOk};
ghost use Rattle.of_mem.specs.Part.{empty_part};
ghost use Rattle.of_mem.specs.declared.work.TheConstants.{MOST_INSTRS};
ghost use Rattle.of_cell.specs.Cells.{log_room};
ghost use Rattle.of_core.specs.Fit.{IsEmptyWithRoom};

use crate::call::Call;
use of_cell::Shape;
use of_mem::{MOST_INSTRS, Work, Workspace, WriteSet};
use std::alloc::{AllocError, Global};

/// The lists that a machine keeps. They are made first, together, and the machine is then made from
/// them.
#[derive(Drop)]
pub(super) struct Lists<W: Work> {
    pub(super) op: Vec<u64>,
    pub(super) part: Workspace<W>,
    pub(super) log: WriteSet,
    pub(super) copy: Vec<u32>,
    pub(super) script: Vec<u64>,
    pub(super) calls: Vec<Call>,
}

impl<W: Work> Lists<W> {
    /// Empty lists, with the room that a machine on a table of this shape needs. The error is that
    /// there is no memory.
    pub(super) fn new(alloc: Global, shape: Shape) -> Result<Self, AllocError>
        ensures op { IfOk result (λ l. IsEmptyWithRoom MOST_INSTRS l.op) }
        ensures part { IfOk result (λ l. l.part ≡ empty_part shape.cells) }
        ensures log { IfOk result (λ l. l.log ≡ record { room = shape.cells; entries = [] }) }
        ensures copy { IfOk result
            (λ l. IsEmptyWithRoom (2 * log_room shape.callers shape.cells + 1) l.copy) }
        ensures script { IfOk result (λ l. IsEmptyWithRoom MOST_INSTRS l.script) }
        ensures calls { IfOk result (λ l. IsEmptyWithRoom shape.callers l.calls) }
    {
        let op = Vec::with_capacity(alloc, MOST_INSTRS)?;
        let part = Workspace::new(alloc, shape.cells)?;
        let log = WriteSet::new(alloc, shape.cells)?;
        let copy = Vec::with_capacity(alloc, 2 * shape.log_room() as usize + 1)?;
        let script = Vec::with_capacity(alloc, MOST_INSTRS)?;
        let calls = Vec::with_capacity(alloc, shape.callers as usize)?;
        Ok(Lists {
            op,
            part,
            log,
            copy,
            script,
            calls,
        })
    }
}
