//! The laws of the protocol from which the laws of a row are proved.

ghost use Rattle.of_core.specs.Laws.{setup_for};
ghost use Rattle.of_row.specs.RowLaws.{RowLaws};

use of_core::laws::{
    batches, ends_in_time, every_call, every_moment, histories, machines, starts, step_kept,
    taken_over_stands,
};
use of_mem::Work;

/// The laws of the protocol, for a table with this limit and the sizes of this work.
pub(crate) fn protocol<W: Work>(limit: u32, work: W)
    ensures { RowLaws (setup_for W.many W.size W.meaning limit work) (W.lawful work) }
{
    step_kept(limit, work);
    every_moment(limit, work);
    every_call(limit, work);
    ends_in_time(limit, work);
    batches(limit, work);
    starts(limit, work);
    taken_over_stands(limit, work);
    machines();
    histories();
}
