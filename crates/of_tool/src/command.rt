//! The commands and their words.

ghost use Rattle.std.specs.Prelude.{◌≡◌, ◌↔◌, ◌∷◌, [], ℕ, None, IsTrue, MatchOption, codes, string_bytes};
ghost use Rattle.of_tool.specs.Commands.{word_bytes, AreWordsOf, IsNoCommand, SpellsUpTo};
ghost use Rattle.of_tool.specs.Inputs.{input_of, AskForInput};
ghost use Rattle.of_tool.specs.Answer.{IsMostOf};

use crate::commands::{MOST_IMAGE, MOST_INPUT, MOST_WITH_REPORT};
use of_plan::{MOST_PLAN_CALLERS, MOST_SCRIPTS};

/// What `--help` prints.
pub const HELP: &str = "usage: onefile COMMAND

Runs scripts of transactions on a store of registers, keys and queues.

serial      reads a plan, runs its scripts one after another, prints the report
play        reads a plan, runs its schedule step by step, prints the report
trace F C   reads a plan, prints what C events of its schedule do, from event F
commits     reads a plan, prints at which events its schedule commits, and which calls
run         reads a plan, runs its callers at once, prints the report
load N S    reads nothing, runs N callers with S scripts each, prints a summary
check       reads a plan and a report, says whether the report is a legal one
check-life  reads an image, a plan and what `continue` printed, says whether it is a legal life
part N      reads texts one after another, prints the one with number N, from 1
image       reads a plan, runs its schedule step by step, prints the image of what it leaves
recover     reads an image, prints what recovery finds in it
renumber    reads an image, prints it recovered and with its sequences begun anew
migrate     reads an image of version 1, prints it recovered and in version 2
continue    reads an image and a plan, goes on from the image, prints a report and an image
--help      reads nothing, prints this text; -h and help are the same
--version   reads nothing, prints the name and the version

Input is read from standard input. A plan of one caller, and how it is run:
    onefile plan 1
    callers 1
    blocks 4
    script 0 put 1 5; get 1
    end
    onefile run < my.plan

Exit status:
    0  the work is done; the report or the life is legal
    1  memory ran out
    2  the words are no command
    3  a read failed
    4  a write failed
    5  the input is no plan
    6  the input is too long
    7  the input is no image, or an unlawful one
    8  the report is not a legal one of its plan, or the life not one from its image
    9  the plan does not fit the image, or the input has no part N
Errors have a fixed text on standard output, and their reason on standard error.

Read on: onefile(1), docs/LANGUAGE.md, docs/TEXTS.md, docs/PROTOCOL.md.
";

/// What `--version` prints.
pub const VERSION: &str = "onefile 0.1.0\n";

/// The greatest number of an event that a trace can begin with.
pub const MOST_FIRST: u32 = 10_000_000;

/// The most events of a trace.
pub const MOST_EVENTS: u32 = 10_000;

/// The greatest number that `part` takes.
pub const MOST_PART: u32 = 1_000_000;

/// A word that asks for help.
#[derive(Clone, Copy, Debug, PartialEq, Eq)]
pub enum HelpWord {
    /// `--help`
    Long,
    /// `-h`
    Short,
    /// `help`
    Bare,
}

/// What the program can be told to do.
#[derive(Clone, Copy, Debug, PartialEq, Eq)]
pub enum Command {
    /// Reads a plan, runs its scripts one after another, and prints the report.
    Serial,
    /// Reads a plan, runs its schedule step by step, and prints the report of what the schedule
    /// leaves.
    Play,
    /// Reads a plan, and prints what `count` events of its schedule do, from event `first` on.
    Trace { first: u32, count: u32 },
    /// Reads a plan, and prints the commits of its schedule.
    Commits,
    /// Reads a plan, runs its callers at once, and prints the report of what they leave.
    Run,
    /// Reads nothing, runs this many callers with this many scripts each, and prints a summary of
    /// the report.
    Load { callers: u32, scripts: u32 },
    /// Reads a plan and a report, and prints whether the report is a legal one of the plan.
    Check,
    /// Reads an image, a plan, a report and a second image, and prints whether the report and the
    /// second image are those of a life that goes on from the first image by the plan.
    CheckLife,
    /// Reads texts one after another, each up to its first line `end`, and prints the one with this
    /// number, counted from 1.
    Part { number: u32 },
    /// Reads a plan, runs its schedule step by step, and prints the image of what the schedule
    /// leaves.
    Image,
    /// Reads an image, recovers it, and prints what recovery finds.
    Recover,
    /// Reads an image, recovers it, and prints it with sequences that begin at 0 again.
    Renumber,
    /// Reads an image of version 1, recovers it, and prints it in version 2.
    Migrate,
    /// Reads an image and a plan, runs the plan's callers at once from what recovery finds in the
    /// image, and prints the report and the image of what they leave.
    Continue,
    /// Prints how the program is used; `word` is the word that asked for it.
    Help { word: HelpWord },
    /// Prints the name and the version.
    Version,
}

// The number that a word spells, where it is at most that.
fn number(word: &str, most: u32) -> Option<u32>
    ensures { MatchOption result ((n : ℕ) → SpellsUpTo most word.now n → ⊥)
        (SpellsUpTo most word.now) }
{
    of_script::text::number(word.as_bytes(), most)
}

impl Command {
    // The command of one word.
    fn plain(word: &str) -> Option<Command>
        ensures { MatchOption result (IsNoCommand (word.now ∷ [])) (AreWordsOf (word.now ∷ [])) }
    {
        match word {
            "serial" => Some(Command::Serial),
            "play" => Some(Command::Play),
            "commits" => Some(Command::Commits),
            "run" => Some(Command::Run),
            "check" => Some(Command::Check),
            "check-life" => Some(Command::CheckLife),
            "image" => Some(Command::Image),
            "recover" => Some(Command::Recover),
            "renumber" => Some(Command::Renumber),
            "migrate" => Some(Command::Migrate),
            "continue" => Some(Command::Continue),
            "--help" => Some(Command::Help {
                word: HelpWord::Long,
            }),
            "-h" => Some(Command::Help {
                word: HelpWord::Short,
            }),
            "help" => Some(Command::Help {
                word: HelpWord::Bare,
            }),
            "--version" => Some(Command::Version),
            _ => None,
        }
    }

    // The load of these numbers, where they are in range.
    fn load(callers: &str, scripts: &str) -> Option<Command>
        ensures { MatchOption result
            (IsNoCommand (codes "load" ∷ callers.now ∷ scripts.now ∷ []))
            (AreWordsOf (codes "load" ∷ callers.now ∷ scripts.now ∷ [])) }
    {
        let callers = number(callers, MOST_PLAN_CALLERS)?;
        let scripts = number(scripts, MOST_SCRIPTS)?;
        if callers == 0 || callers * scripts > MOST_SCRIPTS {
            return None;
        }
        Some(Command::Load { callers, scripts })
    }

    // The trace of these numbers, where they are in range.
    fn trace(first: &str, count: &str) -> Option<Command>
        ensures { MatchOption result
            (IsNoCommand (codes "trace" ∷ first.now ∷ count.now ∷ []))
            (AreWordsOf (codes "trace" ∷ first.now ∷ count.now ∷ [])) }
    {
        let first = number(first, MOST_FIRST)?;
        let count = number(count, MOST_EVENTS)?;
        if count == 0 {
            return None;
        }
        Some(Command::Trace { first, count })
    }

    // The part with this number, where it is in range.
    fn part(number: &str) -> Option<Command>
        ensures { MatchOption result
            (IsNoCommand (codes "part" ∷ number.now ∷ []))
            (AreWordsOf (codes "part" ∷ number.now ∷ [])) }
    {
        let number = self::number(number, MOST_PART)?;
        if number == 0 {
            return None;
        }
        Some(Command::Part { number })
    }

    // How many bytes the command reads at most, if it reads its input.
    pub(crate) fn most(self) -> Option<usize>
        ensures { MatchOption result (input_of self ≡ None) (IsMostOf self) }
    {
        match self {
            Command::Load { .. } => None,
            Command::Help { .. } => None,
            Command::Version => None,
            Command::Recover => Some(MOST_IMAGE),
            Command::Renumber => Some(MOST_IMAGE),
            Command::Migrate => Some(MOST_IMAGE),
            Command::Check => Some(MOST_WITH_REPORT),
            Command::CheckLife => Some(MOST_WITH_REPORT),
            Command::Part { .. } => Some(MOST_WITH_REPORT),
            Command::Continue => Some(MOST_WITH_REPORT),
            _ => Some(MOST_INPUT),
        }
    }

    /// Whether the command reads its input.
    pub fn reads(&self) -> bool
        ensures { MatchOption (input_of self.now) (¬ (IsTrue result)) (λ input. IsTrue result) }
    {
        match self {
            Command::Load { .. } | Command::Help { .. } | Command::Version => false,
            _ => true,
        }
    }

    /// The command that the words spell; None if they spell none. Numbers are spelled in digits
    /// alone, without a leading 0.
    pub fn from_words(words: &[String]) -> Option<Command>
        ensures { MatchOption result
            (IsNoCommand (word_bytes words.now))
            (AreWordsOf (word_bytes words.now)) }
    {
        match words {
            [word] => Command::plain(word.as_str()),
            [word, first] => match word.as_str() {
                "part" => Command::part(first.as_str()),
                _ => None,
            },
            [word, first, second] => match word.as_str() {
                "load" => Command::load(first.as_str(), second.as_str()),
                "trace" => Command::trace(first.as_str(), second.as_str()),
                _ => None,
            },
            _ => None,
        }
    }
}

/// Whether the words are a command that reads its input.
pub fn reads_input(words: &[String]) -> bool
    ensures { IsTrue result ↔ AskForInput (word_bytes words.now) }
{
    match Command::from_words(words) {
        Some(command) => command.reads(),
        None => false,
    }
}
