//! What `check-life` prints.

ghost use Rattle.std.specs.Prelude.{MatchResult};
ghost use Rattle.of_tool.specs.declared.command.Command.TheVariants.{CheckLife};
ghost use Rattle.of_tool.specs.Seen.{Change};
ghost use Rattle.of_tool.specs.Refusals.{IsRefusedFor};
ghost use Rattle.of_tool.specs.Makes.{Makes};
ghost use Rattle.of_tool.specs.Answer.{FailsBy, IsInputFor};

use crate::input::life_in;
use crate::legal_life::why_life;
use crate::reasons::life_reason;
use crate::refusal::{Failure, Refusal};
use of_plan::parts;
use std::alloc::Global;

/// The text that `check-life` prints.
pub(crate) fn life_text(alloc: Global, input: &[u8]) -> Result<Vec<u8>, Failure>
    ensures { (source : Change) → IsInputFor CheckLife source input.now
        → MatchResult result (λ text. Makes CheckLife source text.items)
        (FailsBy (IsRefusedFor CheckLife source)) }
{
    let (first, behind) = parts(input);
    let (second, others) = parts(behind);
    let (told, left) = parts(others);
    let (image, plan) = life_in(alloc, first, second)?;
    match why_life(alloc, image, &plan, told, left)? {
        None => Ok(Vec::from_slice(alloc, b"legal life\n")?),
        Some(cause) => Err(Failure::Refused {
            refusal: Refusal::Illegal,
            reason: life_reason(alloc, told, &cause).ok(),
        }),
    }
}
