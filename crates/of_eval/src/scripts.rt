//! Scripts as a work.

ghost use Rattle.std.specs.Prelude.{◌≡◌, ◌≤◌};
ghost use Rattle.of_mem.specs.declared.work.TheConstants.{MOST_CALLERS};
ghost use Rattle.of_mem.specs.declared.plot.TheConstants.{MOST_BLOCKS};

use crate::read::read_words;
use crate::step::word_reads;
use crate::walk::{reach, resume, run_to_reply};
use crate::write::write_words;
use of_mem::{Cells, MOST_INSTRS, MaySuspend, Need, Part, Plot, RawReply, SuspendedRun, Work};
use of_plan::Plan;

/// The work that runs scripts on cells: an operation is the words of a script. A word that is no
/// instruction aborts at its place. If there are more than `of_store::MOST_ORDERED_BLOCKS` blocks,
/// an instruction on keys in their order aborts in the same way. There are 1 to `MOST_CALLERS`
/// callers and at most `MOST_BLOCKS` blocks, one for each key and item.
#[derive(Clone, Copy, Debug, PartialEq, Eq)]
pub struct Scripts {
    pub callers: u32,
    pub blocks: u32,
    pub ghost some_callers: { 1 ≤ callers },
    pub ghost few_callers: { callers ≤ MOST_CALLERS },
    pub ghost few_blocks: { blocks ≤ MOST_BLOCKS },
}

impl Scripts {
    ghost use Rattle.of_plan.specs.Plan.{IsPlan};

    /// The work for the scripts of a plan, with the plan's callers and blocks.
    pub fn of_plan(plan: &Plan) -> Scripts
        ensures plan { IsPlan plan.now }
        ensures callers { result.callers ≡ plan.now.callers }
        ensures blocks { result.blocks ≡ plan.now.blocks }
    {
        Scripts {
            callers: plan.callers(),
            blocks: plan.blocks(),
        }
    }

    /// The addresses of the data cells.
    pub fn plot(&self) -> Plot
        ensures callers { result.callers ≡ self.now.callers }
        ensures instrs { result.instrs ≡ MOST_INSTRS }
        ensures blocks { result.blocks ≡ self.now.blocks }
    {
        Plot {
            callers: self.callers,
            instrs: MOST_INSTRS as u32,
            blocks: self.blocks,
        }
    }
}

impl MaySuspend for Scripts {
    ghost use Rattle.of_eval.specs.Resuming.{HoldsScript, holds_nothing, holds_learnt};

    ghost holds = { HoldsScript };

    ghost nothing = { holds_nothing };

    ghost learns = { holds_learnt };
}

impl Work for Scripts {
    ghost use Rattle.of_eval.specs.Scripts.{scripts_data_cells, LawfulCells, scripts_meaning};
    ghost use Rattle.of_eval.specs.SoundScripts.{scripts_fit, scripts_sound};

    ghost many = { λ w. w.callers };

    ghost size = { scripts_data_cells };

    ghost lawful = { LawfulCells };

    ghost meaning = { scripts_meaning };

    fn callers(&self) -> u32 {
        self.callers
    }

    fn cells(&self) -> u32 {
        self.plot().cells()
    }

    fn run_on(
        &self,
        part: &mut Part,
        kept: &mut SuspendedRun,
        op: &[u64],
        out: &mut RawReply,
    ) -> Result<(), Need> {
        let plot = self.plot();
        resume(&plot, part, kept, op);
        if let Err(need) = reach(&plot, part, kept) {
            part.undo();
            return Err(need);
        }
        run_to_reply(&plot, part, kept, op, out)
    }

    fn read_from<C: Cells>(
        &self,
        cells: &mut C,
        op: &[u64],
        out: &mut RawReply,
    ) -> Option<Result<(), Need>> {
        Some(read_words(&self.plot(), cells, op, out))
    }

    fn run_from<C: Cells>(
        &self,
        cells: &mut C,
        op: &[u64],
        out: &mut RawReply,
    ) -> Option<Result<bool, Need>> {
        Some(write_words(&self.plot(), cells, op, out))
    }

    fn reads_only(&self, op: &[u64]) -> bool {
        if op.is_empty() || op.len() > MOST_INSTRS {
            return false;
        }
        for i in 0..op.len() {
            if !word_reads(op[i]) {
                return false;
            }
        }
        true
    }

    ghost fits = { scripts_fit };

    ghost sound = { scripts_sound };
}
