//! How a handle tells another handle what it knows, while both stay; and how a caller and its
//! memory tell each other what they know, when the caller comes or leaves.

ghost use Rattle.std.specs.Prelude.{◌≡◌, ◌+◌};
ghost use mathlib.Core.List.{IsPrefix};
ghost use Rattle.of_caller.specs.Callers.{IsCaller};
ghost use Rattle.of_cells.specs.Serving.{IsKnowledge, KnowsMore, events_in, events_known_to};

use crate::handle::CellHandle;
use of_caller::Caller;
use of_mem::Work;
use of_row::{Pass, Row};

/// What a handle knew when it made the news by `tell`: which calls of its memory had ended. The
/// news can be moved to another thread.
#[derive(Drop)]
pub struct CellNews {
    pub(crate) pass: Pass,
}

/// A caller and its memory tell each other what they know of the calls that have ended. After this,
/// both know all that one of them knew. This allocates nothing and waits for nothing.
pub(crate) fn exchange<W: Work>(row: &Row<W>, caller: &mut Caller<W>, known: &mut Option<Pass>)
    requires caller { IsCaller W.meaning row.now caller.old }
    requires known { IsKnowledge row.now known.old }
    ensures caller { IsCaller W.meaning row.now caller.new }
    ensures known { IsKnowledge row.now known.new }
    ensures same { KnowsMore caller.old caller.new }
    ensures heard { IsPrefix (events_in known.old) (events_known_to caller.new) }
    ensures told { events_in known.new ≡ events_known_to caller.new }
{
    if let Some(pass) = known.take() {
        caller.hear(row, pass);
    }
    *known = Some(caller.tell(row));
}

impl<W: Work> CellHandle<W> {
    ghost use Rattle.of_cells.specs.Handles.{IsCellHandle, IsSame, home_of, looks_of};
    ghost use Rattle.of_cells.specs.Telling.{KeepsKnown, CallsStay, IsNews, TellsOwn, TellsHeard};
    ghost use Rattle.of_cells.specs.Telling.{HearsAll};
    ghost use Rattle.of_cells.specs.Sequences.{KnowsSameSeq};

    /// What the handle knows, for another handle of its memory to hear: which of its own calls have
    /// ended, and all that it has heard of others. To tell allocates nothing and waits for nothing.
    /// The handle's calls stay as they are.
    pub fn tell(&mut self) -> CellNews
        requires { IsCellHandle W.meaning self.old }
        ensures handle { IsCellHandle W.meaning self.new }
        ensures same { IsSame self.old self.new }
        ensures calls { CallsStay self.old self.new }
        ensures knows { KeepsKnown W.meaning self.old self.new }
        ensures looks { looks_of self.new ≡ looks_of self.old + 2 }
        ensures seq { KnowsSameSeq self.old self.new }
        ensures news { IsNews (home_of self.old) result }
        ensures own { TellsOwn W.meaning self.old result }
        ensures heard { TellsHeard W.meaning self.old result }
    {
        CellNews {
            pass: self.caller.tell(&self.row),
        }
    }

    /// Takes in what another handle of the memory knew when its `tell` was called. In the memory's
    /// history, each call that this handle begins from now on comes after all calls that the news
    /// tells of.
    pub fn hear(&mut self, news: CellNews)
        requires handle { IsCellHandle W.meaning self.old }
        requires news { IsNews (home_of self.old) news }
        ensures handle { IsCellHandle W.meaning self.new }
        ensures same { IsSame self.old self.new }
        ensures calls { CallsStay self.old self.new }
        ensures knows { KeepsKnown W.meaning self.old self.new }
        ensures looks { looks_of self.new ≡ looks_of self.old + 2 }
        ensures seq { KnowsSameSeq self.old self.new }
        ensures heard { HearsAll W.meaning news self.new }
    {
        let CellNews { pass } = news;
        self.caller.hear(&self.row, pass);
    }
}
