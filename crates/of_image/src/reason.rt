//! Why a line is the bad line of an image's text, in words.

use of_plan::Flaw;
use std::fmt;

/// Why a line is the bad line of an image's text. `specs/Reasons.antt` defines what each reason
/// says of it.
#[derive(Clone, Copy, Debug, PartialEq, Eq)]
pub enum Reason {
    /// A piece of the line is wrong by itself.
    Flawed { flaw: Flaw },
    /// The title of this version should come here.
    TitleExpected { version: u32 },
    /// The title is that of version `found`, but version `read` is read.
    OtherVersion { found: u32, read: u32 },
    /// The number of callers, at most `most`, should come here.
    CallersExpected { most: u32 },
    /// The number of blocks, at most `most`, should come here.
    BlocksExpected { most: u32 },
    /// This line comes after the end of the image.
    AfterEnd,
    /// No line of an image begins with this word.
    UnknownLine,
    /// The image has no cell of this number.
    NoCell { cell: u32, cells: u32 },
    /// A line above has this cell or a later one.
    CellPassed { cell: u32 },
    /// Line `line`, which is above this one, has this cell or a later one.
    OutOfOrder { line: u64 },
    /// The cell's sequence and payload are both 0.
    EmptyCell,
    /// A line of the heading comes after the heading.
    HeadingOver,
    /// The text is over, and no line of it is `end`.
    EndMissing,
}

impl fmt::Display for Reason {
    ghost use Rattle.std.specs.Prelude.{Some};
    ghost use Rattle.of_image.specs.ReasonText.{image_reason_text};

    ghost output = { λ r. Some (image_reason_text r) };

    fn fmt<W: fmt::Write>(&self, f: &mut fmt::Formatter<W>) -> fmt::Result {
        match self {
            Reason::Flawed { flaw } => write!(f, "{flaw}"),
            Reason::TitleExpected { version } => {
                write!(f, "the first line of an image is `onefile image {version}`")
            }
            Reason::OtherVersion { found, read } => {
                write!(f, "an image of version {found}; version {read} is read")
            }
            Reason::CallersExpected { most } => {
                write!(
                    f,
                    "the second line of an image is `callers N`, N from 1 to {most}"
                )
            }
            Reason::BlocksExpected { most } => {
                write!(
                    f,
                    "the third line of an image is `blocks B`, B from 0 to {most}"
                )
            }
            Reason::AfterEnd => f.write_str("a line after `end`"),
            Reason::UnknownLine => f.write_str("no line of an image begins with this word"),
            Reason::NoCell { cells, .. } => {
                write!(f, "this image has {cells} cells, from cell 0 on")
            }
            Reason::CellPassed { .. } => {
                f.write_str("cells ascend, and a line above has this one or a later one")
            }
            Reason::OutOfOrder { line } => {
                write!(
                    f,
                    "cells ascend, and line {line} has this one or a later one"
                )
            }
            Reason::EmptyCell => f.write_str("a cell of sequence 0 and payload 0 has no line"),
            Reason::HeadingOver => f.write_str("this line comes once, in the heading of an image"),
            Reason::EndMissing => f.write_str("the text ends before `end`"),
        }
    }
}
