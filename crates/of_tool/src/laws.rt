//! The numbers and fixed texts of the commands, that a call has one status, and the laws of
//! schedules and traces.

ghost use Rattle.std.specs.Prelude.{◌≡◌, codes};
ghost use Rattle.of_mem.specs.declared.work.TheConstants.{FEW_DATA_CELLS, MOST_DATA_CELLS, MOST_INSTRS};
ghost use Rattle.of_mem.specs.declared.plot.TheConstants.{BUCKETS, QUEUES, REGISTERS};
ghost use Rattle.of_plan.specs.declared.plan.TheConstants.{MOST_PLAN_BLOCKS, MOST_PLAN_CALLERS};
ghost use Rattle.of_plan.specs.Plan.{data_cells};
ghost use Rattle.of_tool.specs.HelpText.{help_text};
ghost use Rattle.of_tool.specs.declared.command.TheConstants.{MOST_EVENTS, MOST_FIRST};
ghost use Rattle.of_tool.specs.PlayedImage.{ShowsEachPlay};
ghost use Rattle.of_tool.specs.Ran.{RunsArePlayed};
ghost use Rattle.of_tool.specs.Statuses.{DoneIsMade, FoundIsWrong, OneError, OneStatus, ValidIsDone};

use crate::command::{HELP, VERSION};
use crate::commands::{MOST_IMAGE, MOST_INPUT, MOST_WITH_REPORT};
use crate::status::{
    BAD_IMAGE, BAD_PLAN, DOES_NOT_FIT, DONE, ILLEGAL, OUT_OF_MEMORY, READ_FAULT, TOO_LONG, USAGE,
    WRITE_FAULT,
};
use of_caller::laws::{plan_keeps_laws, reports_respect_time, runs_are_lawful};
use of_core::laws::starts;
use of_eval::Scripts;
use of_image::laws::{one_image, records_have_images, unlawful_have_none};
use of_lives::laws::lives_restart;
use of_plan::Plan;
use of_plan::texts::{one_cut, one_plan};
pub use of_play::laws::{plans_have_schedules, words_are_named};

/// The exit statuses, and how many bytes a command reads at most.
pub fn numbers()
    ensures done { DONE ≡ 0 }
    ensures out_of_memory { OUT_OF_MEMORY ≡ 1 }
    ensures usage { USAGE ≡ 2 }
    ensures read_fault { READ_FAULT ≡ 3 }
    ensures write_fault { WRITE_FAULT ≡ 4 }
    ensures bad_plan { BAD_PLAN ≡ 5 }
    ensures too_long { TOO_LONG ≡ 6 }
    ensures bad_image { BAD_IMAGE ≡ 7 }
    ensures illegal { ILLEGAL ≡ 8 }
    ensures does_not_fit { DOES_NOT_FIT ≡ 9 }
    ensures input { MOST_INPUT ≡ 1048576 }
    ensures with_report { MOST_WITH_REPORT ≡ 4194304 }
    ensures image { MOST_IMAGE ≡ 4194304 }
{}

/// How much fits into a plan's memory, and how far a trace reaches: the most callers, words of a
/// script, registers, buckets and queues, the most keys and items together, the data cells of the
/// greatest store, and the events. A table of a program's own work may have more data cells.
pub fn limits()
    ensures callers { MOST_PLAN_CALLERS ≡ 16 }
    ensures instrs { MOST_INSTRS ≡ 16 }
    ensures registers { REGISTERS ≡ 16 }
    ensures buckets { BUCKETS ≡ 32 }
    ensures queues { QUEUES ≡ 4 }
    ensures blocks { MOST_PLAN_BLOCKS ≡ 512 }
    ensures cells { data_cells MOST_PLAN_CALLERS MOST_PLAN_BLOCKS ≡ 1887 }
    ensures few_data_cells { FEW_DATA_CELLS ≡ 4096 }
    ensures data_cells { MOST_DATA_CELLS ≡ 134217728 }
    ensures first { MOST_FIRST ≡ 10000000 }
    ensures events { MOST_EVENTS ≡ 10000 }
{}

/// The texts of `--help` and `--version`. The texts of errors are defined in `specs/Refusals.antt`.
pub fn help_and_version()
    ensures version { VERSION.now ≡ codes "onefile 0.1.0\n" }
    ensures help { HELP.now ≡ help_text }
{}

/// What a call was given and did is the cause of one status only, and an error has one text, with
/// one line or cell. So what `tool` answers (`answered`) is exact both ways: a status is answered
/// only for its cause, and if the cause of a status is there, that status is answered. This holds
/// if the source shows its bytes, the counts of faults can still rise, and the sink was not
/// finished before the call.
pub fn one_status()
    ensures status { OneStatus }
    ensures text { OneError }
{
    one_cut();
    one_plan();
    one_image();
    unlawful_have_none();
}

/// What the status of a command says: with 0 it has written what it makes of its whole input, with 8
/// or 9 its input is wrong. If the input is valid and no read or write fails, the command is done,
/// or memory runs out, or what `check`, `continue` and `check-life` judge is found wrong.
pub fn answers_are_true()
    ensures done { DoneIsMade }
    ensures judged { FoundIsWrong }
    ensures complete { ValidIsDone }
{
    one_cut();
    unlawful_have_none();
}

/// The report of a real run of a plan's callers is one that `play` makes of the same plan, if the
/// plan's schedule is the turns and evictions of this run.
pub fn runs_are_played(plan: &Plan)
    ensures { RunsArePlayed plan.now }
{
    plan_keeps_laws(plan);
    runs_are_lawful();
    reports_respect_time(plan);
}

/// The text that `image` prints of a plan is the image of the durable words that the run leaves
/// whose report `play` prints. The image has the report's sequence and store, and each caller's
/// ticket in it is that of the caller's last announced entry.
pub fn images_show_plays(plan: &Plan)
    ensures { ShowsEachPlay plan.now }
{
    let scripts = Scripts::of_plan(plan);
    plan_keeps_laws(plan);
    starts(plan.limit(), scripts);
    records_have_images();
    lives_restart();
    one_image();
}
