//! Laws of plans and reports, and the numbers of plans.

ghost use Rattle.std.specs.Prelude.{◌≡◌, ◌+◌, ◌≤◌, ℕ};
ghost use Rattle.of_cell.specs.Cells.{log_room};
ghost use Rattle.of_cell.specs.declared.shape.TheConstants as cell;
ghost use Rattle.of_mem.specs.declared.work.TheConstants as work;
ghost use Rattle.of_mem.specs.declared.plot.TheConstants as plot;
ghost use Rattle.of_script.specs.declared.instr.TheConstants as script;
ghost use Rattle.of_store.specs.declared.store.TheConstants as store;
ghost use Rattle.of_plan.specs.Plan.{Plan, data_cells};
ghost use Rattle.of_plan.specs.Report.{Start, empty_start};
ghost use Rattle.of_plan.specs.Legal.{IsLegal};
ghost use Rattle.of_plan.specs.Histories.{HistoriesAreLegal};
ghost use Rattle.of_plan.specs.Serial.{serial_report};
ghost use Rattle.of_plan.specs.Worked.{two_callers, legal_report, script_twice, entry_too_many, sequence_left_out, stale_read, writes_lost, stopped_at_the_end, step_too_many};

use crate::plan::{LATEST_STOP, MOST_PLAN_BLOCKS, MOST_PLAN_CALLERS, MOST_SCRIPTS, MOST_TURNS};
use of_cell::GREATEST_LIMIT;

/// The report of a plan whose scripts run one after the other is legal from the empty start.
pub fn serial_is_legal()
    ensures { (p : Plan) → IsLegal p (empty_start p) (serial_report p) }
{}

/// A report that is put together of a history, sequence by sequence, is legal, and has the
/// history's entries of each caller in the same order.
pub fn histories_are_legal()
    ensures { (p : Plan) (s : Start) → HistoriesAreLegal p s }
{}

/// A worked report is legal, and for each clause of legality a report that differs from it in one
/// field is refused.
pub fn worked_reports()
    ensures legal { IsLegal two_callers (empty_start two_callers) legal_report }
    ensures in_order { IsLegal two_callers (empty_start two_callers) script_twice → ⊥ }
    ensures open_calls { IsLegal two_callers (empty_start two_callers) entry_too_many → ⊥ }
    ensures by_sequence { IsLegal two_callers (empty_start two_callers) sequence_left_out → ⊥ }
    ensures replies { IsLegal two_callers (empty_start two_callers) stale_read → ⊥ }
    ensures final_store { IsLegal two_callers (empty_start two_callers) writes_lost → ⊥ }
    ensures endings { IsLegal two_callers (empty_start two_callers) stopped_at_the_end → ⊥ }
    ensures within_bound { IsLegal two_callers (empty_start two_callers) step_too_many → ⊥ }
{}

/// The limits of plans as plain numbers: the greatest limit and stop, and the most callers, blocks,
/// scripts and turns that a plan has.
pub fn numbers()
    ensures callers { MOST_PLAN_CALLERS ≡ 16 }
    ensures blocks { MOST_PLAN_BLOCKS ≡ 512 }
    ensures limit { GREATEST_LIMIT ≡ 4294967294 }
    ensures stop { LATEST_STOP ≡ 4294967295 }
    ensures scripts { MOST_SCRIPTS ≡ 20000 }
    ensures turns { MOST_TURNS ≡ 10000000 }
{}

/// A log of a plan's table has room for each data cell.
#[tactic(auto, using(of_cell::proofs::Rooms::room_whole, of_mem::proofs::BucketPlaces::few_behind))]
pub fn logs_are_whole()
    ensures { (n b : ℕ) → n ≤ MOST_PLAN_CALLERS → b ≤ MOST_PLAN_BLOCKS
        → log_room n (data_cells n b) ≡ data_cells n b }
{}

/// A plan has no more callers and blocks than the tables and stores that it runs on may have.
pub fn plans_fit()
    ensures callers { MOST_PLAN_CALLERS ≤ cell.MOST_CALLERS }
    ensures cells { MOST_PLAN_BLOCKS ≤ plot.MOST_BLOCKS }
    ensures stores { MOST_PLAN_BLOCKS ≤ store.MOST_BLOCKS }
{}

/// Two crates, neither of which uses the other, state the same limits with equal numbers.
pub fn limits_agree()
    ensures callers { work.MOST_CALLERS ≡ cell.MOST_CALLERS }
    ensures data_cells { work.MOST_DATA_CELLS ≡ cell.MOST_DATA_CELLS }
    ensures few_data_cells { work.FEW_DATA_CELLS ≡ cell.FEW_DATA_CELLS }
    // the cells that an operation writes over many data cells, and its caller's own cells, are the
    // caller's share of a log
    ensures log_share { work.MOST_WRITES + (work.MOST_INSTRS + 2) ≡ cell.LOG_SHARE }
    ensures script_words { cell.MOST_SCRIPT_WORDS ≡ script.MOST_INSTRS }
    ensures instrs { work.MOST_INSTRS ≡ script.MOST_INSTRS }
    ensures registers { plot.REGISTERS ≡ script.REGISTERS }
    ensures queues { plot.QUEUES ≡ script.QUEUES }
    ensures blocks { plot.MOST_BLOCKS ≡ store.MOST_BLOCKS }
{}
