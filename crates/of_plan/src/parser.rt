//! Plans from their texts.

ghost use Rattle.std.specs.Prelude.{◌≡◌, IfOk, IfErr, MatchResult};
ghost use Rattle.of_plan.specs.Grammar.{SpellsPlan};
ghost use Rattle.of_plan.specs.Parsed.{PlanIsRefused, HasFault};
ghost use Rattle.of_plan.specs.Plan.{Plan};
ghost use Rattle.of_plan.specs.declared.parser.PlanErr.TheVariants.{Memory};
ghost use Rattle.of_plan.specs.declared.parser.Refusal.TheVariants.{Memory as Unread};

use crate::plan::Plan;
use crate::refusal::{BadPiece, at_end, in_text};
use of_cell::GREATEST_LIMIT;
use of_script::text::cut;
use state::{Reading, Stage};
use std::alloc::{AllocError, Global};
use std::error::Error;
use std::fmt;

pub(crate) mod check;
pub(crate) mod feed;
pub(crate) mod line;
pub(crate) mod state;
pub(crate) mod step;

/// Why a text is no plan.
#[derive(Clone, Copy, Debug, PartialEq, Eq)]
pub enum PlanErr {
    /// Memory ran out.
    Memory,
    /// The text isn't in the grammar, and this is its first line with which no plan's text begins.
    Bad { line: u64 },
}

impl fmt::Display for PlanErr {
    ghost use Rattle.std.specs.Prelude.{Some};
    ghost use Rattle.of_plan.specs.Parsed.{plan_err_text};

    ghost output = { λ e. Some (plan_err_text e) };

    fn fmt<W: fmt::Write>(&self, f: &mut fmt::Formatter<W>) -> fmt::Result {
        match self {
            PlanErr::Memory => f.write_str("out of memory"),
            PlanErr::Bad { line } => write!(f, "no plan: line {line}"),
        }
    }
}

impl Error for PlanErr {}

impl From<AllocError> for PlanErr {
    ghost use Rattle.std.specs.Prelude.{◌≡◌};
    ghost use Rattle.of_plan.specs.declared.parser.PlanErr.TheVariants.{Memory};

    ghost from_gives = { λ _ e. e ≡ Memory };

    fn from(_e: AllocError) -> PlanErr {
        PlanErr::Memory
    }
}

/// Why a text is answered with no plan.
#[derive(Clone, Copy, Debug, PartialEq, Eq)]
pub enum Refusal {
    /// Memory ran out.
    Memory,
    /// The text isn't in the grammar, and this piece of it is at fault.
    Bad { piece: BadPiece },
}

impl From<AllocError> for Refusal {
    ghost use Rattle.std.specs.Prelude.{◌≡◌};
    ghost use Rattle.of_plan.specs.declared.parser.Refusal.TheVariants.{Memory as NoMemory};

    ghost from_gives = { λ _ e. e ≡ NoMemory };

    fn from(_e: AllocError) -> Refusal {
        Refusal::Memory
    }
}

/// The plan that a text spells, or the piece of it at fault.
pub fn read(alloc: Global, text: &[u8]) -> Result<Plan, Refusal>
    // The text spells the plan that is read.
    ensures ok { IfOk result (SpellsPlan text.now) }
    // The piece is in the bad line, the reason is true of it, and the text spells no plan.
    ensures bad { IfErr result (HasFault text.now) }
    // A text of the grammar is answered by its plan, unless memory runs out.
    ensures only { (plan : Plan) → SpellsPlan text.now plan
        → MatchResult result (λ p. p ≡ plan) (λ e. e ≡ Unread) }
{
    let mut reading = Reading::new(alloc, text.len());
    let mut number: u64 = 0;
    let mut rest = text;
    loop {
        let (line, after) = cut(rest, b'\n');
        number += 1;
        if let Some(bad) = reading.feed(alloc, line)? {
            let piece = in_text(text, number, line, bad);
            return Err(Refusal::Bad { piece });
        }
        match after {
            Some(more) => rest = more,
            None => {
                return match reading.stage {
                    Stage::Ended => Ok(Plan::from_reading(reading)),
                    _ => Err(Refusal::Bad {
                        piece: at_end(text, number, line),
                    }),
                };
            }
        }
    }
}

/// The plan that a text spells.
pub fn parse(alloc: Global, text: &[u8]) -> Result<Plan, PlanErr>
    // The text spells the plan that is read.
    ensures ok { IfOk result (SpellsPlan text.now) }
    // If the error names a line, it is the bad one, and the text spells no plan.
    ensures bad { IfErr result (PlanIsRefused text.now) }
    // A text of the grammar is answered by its plan, unless memory runs out.
    ensures only { (plan : Plan) → SpellsPlan text.now plan
        → MatchResult result (λ p. p ≡ plan) (λ e. e ≡ Memory) }
{
    match read(alloc, text) {
        Ok(plan) => Ok(plan),
        Err(Refusal::Memory) => Err(PlanErr::Memory),
        Err(Refusal::Bad { piece }) => Err(PlanErr::Bad { line: piece.line }),
    }
}
