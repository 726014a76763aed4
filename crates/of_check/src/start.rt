//! Where a report begins.

ghost use Rattle.std.specs.Prelude.{◌≡◌, ◌≤◌, IfOk, map, replicate};
ghost use Rattle.std.specs.List.{range_with_len};
ghost use Rattle.of_script.specs.declared.instr.TheConstants.{MOST_INSTRS};
ghost use Rattle.of_store.specs.declared.store.TheConstants.{MOST_BLOCKS};
ghost use Rattle.of_store.specs.Store.{empty_store};
ghost use Rattle.of_report.specs.Image.{IsImage, image_ticket, start_of_image as image_start};
ghost use Rattle.of_check.specs.Starts.{start_where_done, start_of};

use of_report::Image;
use of_store::Store;
use std::alloc::{AllocError, Global};

/// Where a report begins: what there was before its first entry.
#[derive(Drop)]
pub struct Start {
    /// The sequence before the first entry.
    pub seq: u32,
    /// How many scripts of each caller were done before.
    pub finished: Vec<u32>,
    /// The store before the first entry.
    pub store: Store,
}

/// The ticket of each caller in an image, from caller 0 on. An error means out of memory.
pub fn tickets(alloc: Global, image: &Image) -> Result<Vec<u32>, AllocError>
    requires { IsImage MOST_INSTRS image.now }
    ensures { IfOk result (λ tickets. tickets.items
        ≡ map (image_ticket image.now) (range_with_len 0 image.now.row.callers)) }
{
    image.tickets(alloc)
}

impl Start {
    /// The empty start of a plan with this many callers and blocks: the sequence is 0, nothing is
    /// stored, and no script is done. An error means out of memory.
    pub fn empty(alloc: Global, callers: u32, blocks: u32) -> Result<Start, AllocError>
        requires { blocks ≤ MOST_BLOCKS }
        ensures { IfOk result (λ start. start_of start
            ≡ start_where_done 0 (replicate callers 0) (empty_store blocks)) }
    {
        Ok(Start {
            seq: 0,
            finished: vec![in alloc; 0; callers as usize]?,
            store: Store::new(alloc, blocks)?,
        })
    }

    /// The start after an image: the image's sequence and store; a caller's ticket says how many of
    /// its scripts are done. An error means out of memory.
    pub fn behind(alloc: Global, image: Image) -> Result<Start, AllocError>
        requires { IsImage MOST_INSTRS image }
        ensures { IfOk result (λ start. start_of start ≡ image_start image) }
    {
        let finished = tickets(alloc, &image)?;
        let Image {
            recovered,
            store,
            ..
        } = image;
        Ok(Start {
            seq: recovered.seq,
            finished,
            store,
        })
    }
}
