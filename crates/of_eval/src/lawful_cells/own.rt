//! Looking at the own cells of callers.

ghost use Rattle.std.specs.Prelude.{◌≡◌, ◌≢◌, ◌<◌, length, IfErr, OnOk};
ghost use Rattle.of_mem.specs.Plots.{data_cell_count};
ghost use Rattle.of_mem.specs.Places.{ticket_cell_at, shape_at};
ghost use Rattle.of_mem.specs.ProgramWork.{memory_of};
ghost use Rattle.of_eval.specs.Faults.{IsShapeOf};
ghost use Rattle.of_eval.specs.Walking.{NamesFault, NamesOwnFault, CallerIsSound, CallersAreSound};

use crate::lawful_cells::LawErr;
use crate::reply::reply_of;
use of_mem::{Plot, RawReply};
use of_script::{GREATEST, MOST_INSTRS, Reply};

/// Checks the own cells of all callers, in order.
pub(crate) fn callers(plot: &Plot, cells: &[u32]) -> Result<(), LawErr>
    requires { length cells.now ≡ data_cell_count plot.now }
    ensures ok { OnOk result (CallersAreSound plot.now cells.now) }
    ensures err { IfErr result (NamesFault plot.now cells.now) }
{
    for caller in 0..plot.callers {
        own(plot, cells, caller)?;
    }
    Ok(())
}

/// Checks a caller's own cells: if the ticket is 0 the shape must be 0, and otherwise the cells
/// must hold a reply.
fn own(plot: &Plot, cells: &[u32], caller: u32) -> Result<(), LawErr>
    requires sized { length cells.now ≡ data_cell_count plot.now }
    requires caller { caller < plot.now.callers }
    ensures ok { OnOk result (CallerIsSound plot.now cells.now caller) }
    ensures err { IfErr result (NamesOwnFault plot.now cells.now caller) }
{
    let ticket = cells[plot.ticket(caller) as usize];
    let cell = plot.shape(caller);
    let shape = cells[cell as usize];
    if ticket == 0 {
        if shape != 0 {
            return Err(LawErr::Unlawful { cell });
        }
        return Ok(());
    }
    let bare = RawReply {
        shape,
        values: [0; MOST_INSTRS],
    };
    let Some(reply) = reply_of(&bare) else {
        return Err(LawErr::Unlawful { cell });
    };
    if u32::from(reply.len) > plot.instrs {
        return Err(LawErr::Unlawful { cell });
    }
    numbers(plot, cells, caller, &reply)
}

/// Checks the numbers of a caller's reply, in order.
fn numbers(plot: &Plot, cells: &[u32], caller: u32, reply: &Reply) -> Result<(), LawErr>
    requires sized { length cells.now ≡ data_cell_count plot.now }
    requires caller { caller < plot.now.callers }
    requires called { memory_of cells.now (ticket_cell_at plot.now.instrs caller) ≢ 0 }
    requires shape { IsShapeOf plot.now.instrs
        (memory_of cells.now (shape_at plot.now.instrs caller)) reply.now }
    ensures ok { OnOk result (CallerIsSound plot.now cells.now caller) }
    ensures err { IfErr result (NamesOwnFault plot.now cells.now caller) }
{
    for j in 0..u32::from(reply.len) {
        let cell = plot.reply(caller, j);
        if reply.values[j as usize].is_some() && cells[cell as usize] > GREATEST {
            return Err(LawErr::Unlawful { cell });
        }
    }
    Ok(())
}
