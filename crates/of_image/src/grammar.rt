//! Grammars of images: a version of the text, and how large the memory of an image may be.

use crate::version::Version;
use of_mem::{MOST_BLOCKS, MOST_CALLERS};
use of_plan::{MOST_PLAN_BLOCKS, MOST_PLAN_CALLERS};

/// How many callers and blocks an image may have.
#[derive(Clone, Copy, Debug, PartialEq, Eq)]
pub enum Limits {
    /// As many as a plan. The commands of the program `onefile` take such images.
    Plan,
    /// As many as a table, and so as any memory.
    Table,
}

impl Limits {
    ghost use Rattle.std.specs.Prelude.{◌≡◌, ◌≤◌};
    ghost use Rattle.of_mem.specs.declared.plot.TheConstants.{MOST_BLOCKS};
    ghost use Rattle.of_mem.specs.declared.work.TheConstants.{MOST_CALLERS};
    ghost use Rattle.of_image.specs.Grammar.{most_callers, most_blocks};

    /// The most callers of an image.
    pub fn callers(self) -> u32
        ensures value { result ≡ most_callers self }
        ensures some { 1 ≤ result }
        ensures few { result ≤ MOST_CALLERS }
    {
        match self {
            Limits::Plan => MOST_PLAN_CALLERS,
            Limits::Table => MOST_CALLERS,
        }
    }

    /// The most blocks of an image.
    pub fn blocks(self) -> u32
        ensures value { result ≡ most_blocks self }
        ensures some { 1 ≤ result }
        ensures few { result ≤ MOST_BLOCKS }
    {
        match self {
            Limits::Plan => MOST_PLAN_BLOCKS,
            Limits::Table => MOST_BLOCKS,
        }
    }
}

/// A grammar of images: a version of the text, and how large the memory of an image may be.
#[derive(Clone, Copy, Debug, PartialEq, Eq)]
pub(crate) struct Grammar {
    pub(crate) version: Version,
    pub(crate) limits: Limits,
}
