//! A handle: one caller of a memory, for one thread at a time.

ghost use Rattle.of_memory.specs.Called.{HasTyped, IsTyped};

use crate::memory::Memory;
use of_cells::{CellHandle, CellNews, RawAnswer, RunError};
use of_eval::{Scripts, reply_of};
use of_plan::Answer;
use of_script::{MOST_INSTRS, Script, to_words};

// The result of a script's call, which says the same as the raw one.
fn typed(raw: Result<RawAnswer, RunError>) -> Result<Answer, RunError>
    requires { HasTyped raw }
    ensures { IsTyped raw result }
{
    let answer = raw?;
    let Some(reply) = reply_of(&answer.raw) else {
        unreachable!()
    };
    Ok(Answer {
        seq: answer.seq,
        announced: answer.announced,
        reply,
        steps: answer.steps,
    })
}

/// One caller of a memory, for one thread at a time.
#[derive(Drop)]
pub struct Handle {
    pub(crate) cells: CellHandle<Scripts>,
}

impl Handle {
    ghost use Rattle.std.specs.Prelude.{◌≡◌, ◌+◌, List, ℕ};
    ghost use Rattle.of_script.specs.declared.instr.Instr.{Instr as TheInstr};
    ghost use Rattle.of_memory.specs.Calls.{IsScriptOperation, HoldsOfScript};
    ghost use Rattle.of_memory.specs.History.{Made};
    ghost use Rattle.of_memory.specs.Called.{LeavesAsItWas, HasTyped, HoldsOfTyped};
    ghost use Rattle.of_memory.specs.Within.{EndsWithin, IsNeverStopped, KeepsWithin};
    ghost use Rattle.of_memory.specs.Handles.{IsHandle, HasMade, HasOpen, IsSame, home_of};
    ghost use Rattle.of_memory.specs.Handles.{MakesCall, ResumesCall, StaysOpenOnlyIfStopped};
    ghost use Rattle.of_memory.specs.Handles.{OpenCallStays, OpensOnly, OpensNone};
    ghost use Rattle.of_memory.specs.Handles.{RefusesCall, RefusesToGoOn, number_of_handle};
    ghost use Rattle.of_memory.specs.Handles.{steps_so_far, step_bound_of};
    ghost use Rattle.of_memory.specs.Handles.{MakesAtMost, GoesOnWithin};
    ghost use Rattle.of_memory.specs.Handles.{MakesStepsAlone, looks_of};
    ghost use Rattle.of_memory.specs.Memories.{IsMemory, IsFrom, IsStill, HasMadeOf, HasOpenOf};
    ghost use Rattle.of_memory.specs.Memories.{KnowsOthers, OthersStayOpen, OthersKnowOrder};
    ghost use Rattle.of_memory.specs.Memories.{PutsBack, RemembersAll};
    ghost use Rattle.of_memory.specs.Telling.{BeginsAfterHeard, ResumesAfterHeard, KeepsKnown};
    ghost use Rattle.of_memory.specs.Telling.{LeavesOrder, TellsMemory, CallsStay, IsNews};
    ghost use Rattle.of_memory.specs.Telling.{TellsOwn, TellsHeard, HearsAll};
    ghost use Rattle.of_memory.specs.Sequences.{KnowsSeqOf, KnowsSameSeq, left_of_handle};
    ghost use Rattle.of_memory.specs.Sequences.{seq_known_to, seq_known_in};
    ghost use Rattle.std.specs.Prelude.{max};

    /// The handle's number.
    pub fn number(&self) -> u32
        ensures { result ≡ number_of_handle self.now }
    {
        self.cells.number()
    }

    /// The most sequences that may be left: all sequences after the last one that the handle knows.
    /// This is the sequence of the handle's last ended call; before the first such call, it is the
    /// one that the memory knew when the handle was enrolled. Other handles may have taken
    /// sequences since. The call makes no step on the table.
    pub fn sequences_left(&self) -> u32
        ensures { result ≡ left_of_handle self.now }
    {
        self.cells.sequences_left()
    }

    /// Runs a script, all of it or nothing, and answers with its reply.
    pub fn run(&mut self, script: &Script) -> Result<Answer, RunError>
        requires { IsHandle self.old }
        ensures handle { IsHandle self.new }
        ensures same { IsSame self.old self.new }
        ensures made { MakesCall script.now result self.old self.new }
        ensures open_call { StaysOpenOnlyIfStopped script.now result self.new }
        ensures cause { RefusesCall self.old result }
        ensures unmade { LeavesAsItWas result self.old self.new }
        ensures bound { EndsWithin (step_bound_of self.old) result }
        ensures rise { MakesAtMost (step_bound_of self.old) self.old self.new }
        ensures stopped { IsNeverStopped result }
        ensures only { OpensOnly script.now self.old self.new }
        ensures behind { BeginsAfterHeard result self.old self.new }
        ensures knows { KeepsKnown self.old self.new }
        ensures alone { MakesStepsAlone self.old self.new }
        ensures seq { KnowsSeqOf result self.old self.new }
    {
        let len = script.len() as usize;
        let mut words = [0; MOST_INSTRS];
        to_words(script, &mut words);
        typed(self.run_words(&words[..len]))
    }

    /// Runs the script that has these words, one word for each instruction, as `run` does. The
    /// answer's reply is as cells hold it: a shape, and a number for each mark.
    pub fn run_words(&mut self, words: &[u64]) -> Result<RawAnswer, RunError>
        requires handle { IsHandle self.old }
        requires words { IsScriptOperation words.now }
        ensures handle { IsHandle self.new }
        ensures same { IsSame self.old self.new }
        ensures some { HasTyped result }
        ensures made { HoldsOfTyped result (λ a. HoldsOfScript words.now
            (λ s. MakesCall s a self.old self.new)) }
        ensures open_call { HoldsOfTyped result (λ a. HoldsOfScript words.now
            (λ s. StaysOpenOnlyIfStopped s a self.new)) }
        ensures cause { HoldsOfTyped result (RefusesCall self.old) }
        ensures unmade { HoldsOfTyped result (λ a. LeavesAsItWas a self.old self.new) }
        ensures bound { HoldsOfTyped result (EndsWithin (step_bound_of self.old)) }
        ensures rise { MakesAtMost (step_bound_of self.old) self.old self.new }
        ensures stopped { HoldsOfTyped result IsNeverStopped }
        ensures only { HoldsOfScript words.now (λ s. OpensOnly s self.old self.new) }
        ensures behind { HoldsOfTyped result (λ a. BeginsAfterHeard a self.old self.new) }
        ensures knows { KeepsKnown self.old self.new }
        ensures alone { MakesStepsAlone self.old self.new }
        ensures seq { HoldsOfTyped result (λ a. KnowsSeqOf a self.old self.new) }
    {
        self.cells.run(words)
    }

    /// Runs a script for at most this many steps. If they are too few, the call stays open.
    pub fn run_within(&mut self, script: &Script, steps: u64) -> Result<Answer, RunError>
        requires { IsHandle self.old }
        ensures handle { IsHandle self.new }
        ensures same { IsSame self.old self.new }
        ensures made { MakesCall script.now result self.old self.new }
        ensures open_call { StaysOpenOnlyIfStopped script.now result self.new }
        ensures cause { RefusesCall self.old result }
        ensures unmade { LeavesAsItWas result self.old self.new }
        ensures bound { EndsWithin (step_bound_of self.old) result }
        ensures rise { MakesAtMost (step_bound_of self.old) self.old self.new }
        ensures within { KeepsWithin 0 steps (steps_so_far self.new) result }
        ensures given { MakesAtMost steps self.old self.new }
        ensures only { OpensOnly script.now self.old self.new }
        ensures behind { BeginsAfterHeard result self.old self.new }
        ensures knows { KeepsKnown self.old self.new }
        ensures alone { MakesStepsAlone self.old self.new }
        ensures seq { KnowsSeqOf result self.old self.new }
    {
        let len = script.len() as usize;
        let mut words = [0; MOST_INSTRS];
        to_words(script, &mut words);
        typed(self.run_words_within(&words[..len], steps))
    }

    /// Runs the script that has these words, as `run_within` does. The answer's reply is as cells
    /// hold it.
    pub fn run_words_within(&mut self, words: &[u64], steps: u64) -> Result<RawAnswer, RunError>
        requires handle { IsHandle self.old }
        requires words { IsScriptOperation words.now }
        ensures handle { IsHandle self.new }
        ensures same { IsSame self.old self.new }
        ensures some { HasTyped result }
        ensures made { HoldsOfTyped result (λ a. HoldsOfScript words.now
            (λ s. MakesCall s a self.old self.new)) }
        ensures open_call { HoldsOfTyped result (λ a. HoldsOfScript words.now
            (λ s. StaysOpenOnlyIfStopped s a self.new)) }
        ensures cause { HoldsOfTyped result (RefusesCall self.old) }
        ensures unmade { HoldsOfTyped result (λ a. LeavesAsItWas a self.old self.new) }
        ensures bound { HoldsOfTyped result (EndsWithin (step_bound_of self.old)) }
        ensures rise { MakesAtMost (step_bound_of self.old) self.old self.new }
        ensures within { HoldsOfTyped result
            (KeepsWithin 0 steps (steps_so_far self.new)) }
        ensures given { MakesAtMost steps self.old self.new }
        ensures only { HoldsOfScript words.now (λ s. OpensOnly s self.old self.new) }
        ensures behind { HoldsOfTyped result (λ a. BeginsAfterHeard a self.old self.new) }
        ensures knows { KeepsKnown self.old self.new }
        ensures alone { MakesStepsAlone self.old self.new }
        ensures seq { HoldsOfTyped result (λ a. KnowsSeqOf a self.old self.new) }
    {
        self.cells.run_within(words, steps)
    }

    /// Goes on with the open call, to its answer.
    pub fn go_on(&mut self) -> Result<Answer, RunError>
        requires { IsHandle self.old }
        ensures handle { IsHandle self.new }
        ensures same { IsSame self.old self.new }
        ensures made { ResumesCall result self.old self.new }
        ensures open_call { OpenCallStays result self.old self.new }
        ensures cause { RefusesToGoOn self.old result }
        ensures unmade { LeavesAsItWas result self.old self.new }
        ensures bound { EndsWithin (step_bound_of self.old) result }
        ensures rise { GoesOnWithin (step_bound_of self.old) self.old self.new }
        ensures stopped { IsNeverStopped result }
        ensures only { OpensNone self.old self.new }
        ensures behind { ResumesAfterHeard result self.old self.new }
        ensures knows { KeepsKnown self.old self.new }
        ensures alone { MakesStepsAlone self.old self.new }
        ensures seq { KnowsSeqOf result self.old self.new }
    {
        typed(self.go_on_words())
    }

    /// Goes on with the open call, as `go_on` does. The answer's reply is as cells hold it.
    pub fn go_on_words(&mut self) -> Result<RawAnswer, RunError>
        requires { IsHandle self.old }
        ensures handle { IsHandle self.new }
        ensures same { IsSame self.old self.new }
        ensures some { HasTyped result }
        ensures made { HoldsOfTyped result (λ a. ResumesCall a self.old self.new) }
        ensures open_call { HoldsOfTyped result (λ a. OpenCallStays a self.old self.new) }
        ensures cause { HoldsOfTyped result (RefusesToGoOn self.old) }
        ensures unmade { HoldsOfTyped result (λ a. LeavesAsItWas a self.old self.new) }
        ensures bound { HoldsOfTyped result (EndsWithin (step_bound_of self.old)) }
        ensures rise { GoesOnWithin (step_bound_of self.old) self.old self.new }
        ensures stopped { HoldsOfTyped result IsNeverStopped }
        ensures only { OpensNone self.old self.new }
        ensures behind { HoldsOfTyped result (λ a. ResumesAfterHeard a self.old self.new) }
        ensures knows { KeepsKnown self.old self.new }
        ensures alone { MakesStepsAlone self.old self.new }
        ensures seq { HoldsOfTyped result (λ a. KnowsSeqOf a self.old self.new) }
    {
        self.cells.go_on()
    }

    /// Goes on with the open call for at most this many steps. If they are too few, it stays open.
    pub fn go_on_within(&mut self, steps: u64) -> Result<Answer, RunError>
        requires { IsHandle self.old }
        ensures handle { IsHandle self.new }
        ensures same { IsSame self.old self.new }
        ensures made { ResumesCall result self.old self.new }
        ensures open_call { OpenCallStays result self.old self.new }
        ensures cause { RefusesToGoOn self.old result }
        ensures unmade { LeavesAsItWas result self.old self.new }
        ensures bound { EndsWithin (step_bound_of self.old) result }
        ensures rise { GoesOnWithin (step_bound_of self.old) self.old self.new }
        ensures within { KeepsWithin (steps_so_far self.old) steps
            (steps_so_far self.new) result }
        ensures given { MakesAtMost steps self.old self.new }
        ensures only { OpensNone self.old self.new }
        ensures behind { ResumesAfterHeard result self.old self.new }
        ensures knows { KeepsKnown self.old self.new }
        ensures alone { MakesStepsAlone self.old self.new }
        ensures seq { KnowsSeqOf result self.old self.new }
    {
        typed(self.go_on_words_within(steps))
    }

    /// Goes on with the open call, as `go_on_within` does. The answer's reply is as cells hold it.
    pub fn go_on_words_within(&mut self, steps: u64) -> Result<RawAnswer, RunError>
        requires { IsHandle self.old }
        ensures handle { IsHandle self.new }
        ensures same { IsSame self.old self.new }
        ensures some { HasTyped result }
        ensures made { HoldsOfTyped result (λ a. ResumesCall a self.old self.new) }
        ensures open_call { HoldsOfTyped result (λ a. OpenCallStays a self.old self.new) }
        ensures cause { HoldsOfTyped result (RefusesToGoOn self.old) }
        ensures unmade { HoldsOfTyped result (λ a. LeavesAsItWas a self.old self.new) }
        ensures bound { HoldsOfTyped result (EndsWithin (step_bound_of self.old)) }
        ensures rise { GoesOnWithin (step_bound_of self.old) self.old self.new }
        ensures within { HoldsOfTyped result
            (KeepsWithin (steps_so_far self.old) steps (steps_so_far self.new)) }
        ensures given { MakesAtMost steps self.old self.new }
        ensures only { OpensNone self.old self.new }
        ensures behind { HoldsOfTyped result (λ a. ResumesAfterHeard a self.old self.new) }
        ensures knows { KeepsKnown self.old self.new }
        ensures alone { MakesStepsAlone self.old self.new }
        ensures seq { HoldsOfTyped result (λ a. KnowsSeqOf a self.old self.new) }
    {
        self.cells.go_on_within(steps)
    }

    /// What the handle knows, for another handle of its memory to hear: which of its own calls have
    /// ended, and all that it has heard of others. To tell allocates nothing and waits for nothing.
    /// The handle's calls stay as they are.
    pub fn tell(&mut self) -> CellNews
        requires { IsHandle self.old }
        ensures handle { IsHandle self.new }
        ensures same { IsSame self.old self.new }
        ensures calls { CallsStay self.old self.new }
        ensures knows { KeepsKnown self.old self.new }
        ensures looks { looks_of self.new ≡ looks_of self.old + 2 }
        ensures news { IsNews (home_of self.old) result }
        ensures seq { KnowsSameSeq self.old self.new }
        ensures own { TellsOwn self.old result }
        ensures heard { TellsHeard self.old result }
    {
        self.cells.tell()
    }

    /// Takes in what another handle of the memory knew when its `tell` was called. In the memory's
    /// history, each call that this handle begins from now on comes after all calls that the news
    /// tells of.
    pub fn hear(&mut self, news: CellNews)
        requires handle { IsHandle self.old }
        requires news { IsNews (home_of self.old) news }
        ensures handle { IsHandle self.new }
        ensures same { IsSame self.old self.new }
        ensures calls { CallsStay self.old self.new }
        ensures knows { KeepsKnown self.old self.new }
        ensures looks { looks_of self.new ≡ looks_of self.old + 2 }
        ensures seq { KnowsSameSeq self.old self.new }
        ensures heard { HearsAll news self.new }
    {
        self.cells.hear(news);
    }

    /// Leaves the memory, which keeps the handle's calls. An open call stays open, and the number
    /// is free again. A call of a handle that enrols later comes, in the memory's history, after
    /// all ended calls of this handle, whatever the numbers of the two are.
    pub fn leave(self, memory: &mut Memory)
        requires handle { IsHandle self }
        requires memory { IsMemory memory.old }
        requires from { IsFrom memory.old self }
        ensures memory { IsMemory memory.new }
        ensures still { IsStill memory.old memory.new }
        ensures made { (ms : List Made) → HasMade self ms
            → HasMadeOf memory.new (number_of_handle self) ms }
        ensures open_call { (script : List TheInstr) → HasOpen self script
            → HasOpenOf memory.new (number_of_handle self) script }
        ensures others { KnowsOthers (number_of_handle self) memory.old memory.new }
        ensures others_open { OthersStayOpen (number_of_handle self) memory.old memory.new }
        ensures back { PutsBack memory.old memory.new self }
        ensures order { LeavesOrder self memory.new }
        ensures others_order { OthersKnowOrder (number_of_handle self) memory.old memory.new }
        ensures heard { TellsMemory self memory.new }
        ensures remembers { RemembersAll memory.old memory.new }
        ensures seq { seq_known_in memory.new ≡ max (seq_known_in memory.old) (seq_known_to self) }
    {
        let Handle { cells } = self;
        cells.leave(&mut memory.cells);
    }
}
