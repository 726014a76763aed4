//! Images: what recovery finds in the durable words of a table.

ghost use Rattle.std.specs.Prelude.{◌≡◌, ◌<◌, ◌+◌, IfOk, slice_range};
ghost use Rattle.of_cell.specs.Cells.{data_cell};
ghost use Rattle.of_mem.specs.declared.work.TheConstants.{MOST_INSTRS};
ghost use Rattle.of_eval.specs.Lawful.{reply_in};
ghost use Rattle.of_report.specs.ImageRow.{row_cell_count};

use crate::data_cells;
use of_cell::payload_of;
use of_mem::{MOST_INSTRS, Plot, RawReply};
use of_recover::Recovered;
use of_store::Store;
use std::alloc::{AllocError, Global};
use std::marker::Model;

/// What recovery finds in the durable words of a table. Calls that take an image require that the
/// image can be the image of a text: `IsImage MOST_INSTRS`.
#[derive(Drop)]
pub struct Image {
    /// How many callers the table has: 1 to `of_plan::MOST_PLAN_CALLERS`, if a command has read the
    /// image.
    pub callers: u32,
    /// How many blocks the table has: at most `of_plan::MOST_PLAN_BLOCKS`, if a command has read
    /// the image.
    pub blocks: u32,
    /// The durable words after recovery.
    pub durable: Vec<u64>,
    /// The sequence that recovery found, and whether it found an open transaction.
    pub recovered: Recovered,
    /// The store for which the data cells stand.
    pub store: Store,
}

impl Model for Image {
    ghost use Rattle.of_report.specs.Image.{Image, image_code};

    ghost Value = { Image };

    ghost coded = { image_code };

    ghost view = { λ i. record {
      row = record { callers = i.callers; blocks = i.blocks; words = i.durable.items };
      seq = i.recovered.seq;
      replayed = i.recovered.replayed;
      store = i.store;
    } };
}

impl Image {
    ghost use Rattle.of_report.specs.Image.{IsImage, image_number, image_ticket, start_of_image};

    /// Where the data cells of the image's table are.
    pub fn plot(&self) -> Plot
        requires { IsImage MOST_INSTRS self.now }
        ensures callers { result.callers ≡ self.now.row.callers }
        ensures instrs { result.instrs ≡ MOST_INSTRS }
        ensures blocks { result.blocks ≡ self.now.row.blocks }
    {
        Plot {
            callers: self.callers,
            instrs: MOST_INSTRS as u32,
            blocks: self.blocks,
        }
    }

    /// The words of the image's data cells.
    fn data_words(&self) -> &[u64]
        requires { IsImage MOST_INSTRS self.now }
        ensures { let first = data_cell self.now.row.callers 0 in result.now ≡ slice_range
            self.now.row.words first
            (first + row_cell_count MOST_INSTRS self.now.row) }
    {
        let first = (self.callers + 1) as usize;
        let cells = self.plot().cells() as usize;
        &self.durable[first..first + cells]
    }

    /// A caller's ticket: the number of its last announced call that was run, or 0 if there is
    /// none.
    pub fn ticket(&self, caller: u32) -> u32
        requires image { IsImage MOST_INSTRS self.now }
        requires caller { caller < self.now.row.callers }
        ensures { result ≡ image_ticket self.now caller }
    {
        let cell = self.callers + 1 + self.plot().ticket(caller);
        payload_of(self.durable[cell as usize])
    }

    /// The ticket of each caller, from caller 0 on. An error means out of memory.
    pub fn tickets(&self, alloc: Global) -> Result<Vec<u32>, AllocError>
        requires { IsImage MOST_INSTRS self.now }
        ensures { IfOk result (λ tickets.
            tickets.items ≡ (start_of_image self.now).finished) }
    {
        let mut tickets = Vec::new(alloc);
        for caller in 0..self.callers {
            tickets.push(self.ticket(caller))?;
        }
        Ok(tickets)
    }

    /// The reply that a caller's own data cells hold.
    pub fn reply(&self, caller: u32) -> RawReply
        requires image { IsImage MOST_INSTRS self.now }
        requires caller { caller < self.now.row.callers }
        ensures { result ≡ reply_in MOST_INSTRS (image_number self.now) caller }
    {
        data_cells::reply(&self.plot(), self.data_words(), caller)
    }
}
