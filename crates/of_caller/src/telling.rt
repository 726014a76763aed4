//! How one caller tells another what it knows, by a pass, while both go on with their calls.

ghost use Rattle.std.specs.Prelude.{◌≡◌, ◌+◌};
ghost use Rattle.of_row.specs.Rows.{view_of_pass, IsRowPass, KeepsNobody, KnowsBoth};
ghost use Rattle.of_row.specs.Turned.{after_tell, view_of_nobody};

use crate::caller::Caller;
use of_mem::Work;
use of_row::{Pass, Row};

impl<W: Work> Caller<W> {
    ghost use Rattle.of_caller.specs.Callers.{IsCaller, caller_call, sight_of, looks_made_by};

    /// Makes a pass that knows all that the caller has seen, for another caller to hear. `tell`
    /// makes two loads, and the caller's calls stay as they are.
    pub fn tell(&mut self, row: &Row<W>) -> Pass
        requires { IsCaller W.meaning row.now self.old }
        ensures caller { IsCaller W.meaning row.now self.new }
        ensures call { caller_call self.new ≡ caller_call self.old }
        ensures sight { sight_of self.new ≡ after_tell (sight_of self.old) }
        ensures looks { looks_made_by self.new ≡ looks_made_by self.old + 2 }
        ensures pass { IsRowPass row.now result }
        ensures tells { view_of_pass result ≡ view_of_nobody (sight_of self.old) }
    {
        row.tell(&mut self.member)
    }

    /// Takes in a pass that keeps no caller: the caller then knows all that the caller and the pass
    /// had seen. The caller's calls stay as they are, the open one too.
    pub fn hear(&mut self, row: &Row<W>, pass: Pass)
        requires caller { IsCaller W.meaning row.now self.old }
        requires pass { IsRowPass row.now pass }
        requires nobody { KeepsNobody pass }
        ensures caller { IsCaller W.meaning row.now self.new }
        ensures call { caller_call self.new ≡ caller_call self.old }
        ensures kept { (sight_of self.new).kept ≡ (sight_of self.old).kept }
        ensures heard { KnowsBoth (sight_of self.old) (view_of_pass pass) (sight_of self.new) }
        ensures looks { looks_made_by self.new ≡ looks_made_by self.old + 2 }
    {
        row.hear(&mut self.member, pass);
    }
}
