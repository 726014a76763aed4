//! Laws of a plan's schedule, and of the names that a trace prints.

ghost use Rattle.of_core.specs.Events.{IsSchedule};
ghost use Rattle.of_caller.specs.Tables.{plan_setup, opening_for};
ghost use Rattle.of_play.specs.Play.{play_events};
ghost use Rattle.of_play.specs.Names.{CellUsesAreNamed, CellsAreNamed, WordsAreNamed};
ghost use Rattle.of_play.specs.TraceLaws.{AllAreShown, LinesAreOfMoves, TracesEndAsPlays, RepliesAreRead};

use of_caller::laws::plan_keeps_laws;
use of_plan::Plan;

/// Each event of a plan's schedule may happen when its turn comes. So the schedule leaves a moment,
/// and all that is proved of every moment holds of this moment.
pub fn plans_have_schedules(plan: &Plan)
    ensures { IsSchedule (plan_setup plan.now) (opening_for plan.now) (play_events plan.now) }
{
    plan_keeps_laws(plan);
}

/// A trace finds a name for the address of each data cell, for the number of each cell, and for the
/// index of each word of a table. The name is of just this address, number or index. So no two data
/// cells, no two cells and no two words have the same name.
pub fn words_are_named()
    ensures uses { CellUsesAreNamed }
    ensures cells { CellsAreNamed }
    ensures words { WordsAreNamed }
{}

/// A trace has a line for each turn and each eviction of a plan's schedule. The line shows this
/// turn or eviction at the moment that those before it leave. A plan's schedule has nothing else.
/// The moment after the last line is the one in which `play` ends.
pub fn traces_are_of_plays()
    ensures shown { AllAreShown }
    ensures lines { LinesAreOfMoves }
    ensures end { TracesEndAsPlays }
{}

/// The reply that a trace prints is the one that the call's cells hold.
pub fn replies_are_read()
    ensures { RepliesAreRead }
{}
