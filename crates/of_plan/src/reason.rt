//! Why a line is the bad line of a text, in words.

use crate::flaw::Flaw;
use std::fmt;

/// Why a line is the bad line of a text. `specs/Reasons.antt` defines what each reason says of it.
#[derive(Clone, Copy, Debug, PartialEq, Eq)]
pub enum Reason {
    /// A piece of the line is wrong by itself.
    Flawed { flaw: Flaw },
    /// The title should come here.
    TitleExpected,
    /// The number of callers should come here.
    CallersExpected,
    /// The number of blocks should come here.
    BlocksExpected,
    /// This line comes after the end of the plan.
    AfterEnd,
    /// No line of a plan begins with this word.
    UnknownLine,
    /// No instruction begins with this word.
    UnknownInstruction,
    /// The plan has no caller of this number.
    NoCaller { caller: u32, callers: u32 },
    /// The plan has no cell of this number.
    NoCell { cell: u32, cells: u32 },
    /// An instruction should come here.
    InstructionMissing,
    /// The script has more instructions than a script may have.
    TooManyInstructions,
    /// The plan already has as many scripts as a plan may have.
    TooManyScripts,
    /// With the turns of this line the plan has more than a plan may have.
    TooManyTurns,
    /// The caller has a stop already.
    StopTwice { caller: u32 },
    /// The caller has a stop already, in line `line`.
    SecondStop { line: u64 },
    /// A line of the heading comes after the heading.
    HeadingOver,
    /// The text is over, and no line of it is `end`.
    EndMissing,
}

impl fmt::Display for Reason {
    ghost use Rattle.std.specs.Prelude.{Some};
    ghost use Rattle.of_plan.specs.ReasonText.{reason_text};

    ghost output = { λ r. Some (reason_text r) };

    fn fmt<W: fmt::Write>(&self, f: &mut fmt::Formatter<W>) -> fmt::Result {
        match self {
            Reason::Flawed { flaw } => write!(f, "{flaw}"),
            Reason::TitleExpected => f.write_str("the first line of a plan is `onefile plan 1`"),
            Reason::CallersExpected => {
                f.write_str("the second line of a plan is `callers N`, N from 1 to 16")
            }
            Reason::BlocksExpected => {
                f.write_str("the third line of a plan is `blocks B`, B from 0 to 512")
            }
            Reason::AfterEnd => f.write_str("a line after `end`"),
            Reason::UnknownLine => f.write_str("no line of a plan begins with this word"),
            Reason::UnknownInstruction => f.write_str("no instruction has this name"),
            Reason::NoCaller { caller, callers } => {
                write!(
                    f,
                    "caller {caller} of a plan with {callers}; the first is 0"
                )
            }
            Reason::NoCell { cell, cells } => {
                write!(f, "cell {cell} of a plan with {cells}; the first is 0")
            }
            Reason::InstructionMissing => f.write_str("an instruction is missing here"),
            Reason::TooManyInstructions => f.write_str("a script has at most 16 instructions"),
            Reason::TooManyScripts => f.write_str("a plan has at most 20000 scripts"),
            Reason::TooManyTurns => f.write_str("a plan has at most 10000000 turns in all"),
            Reason::StopTwice { .. } => f.write_str("this caller has a stop already"),
            Reason::SecondStop { line } => {
                write!(f, "this caller has a stop already, in line {line}")
            }
            Reason::HeadingOver => f.write_str("this line comes once, in the heading of a plan"),
            Reason::EndMissing => f.write_str("the text ends before `end`"),
        }
    }
}
