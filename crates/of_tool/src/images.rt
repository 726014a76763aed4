//! What the commands on images print.

ghost use Rattle.std.specs.Prelude.{IfOk, MatchResult};
ghost use Rattle.of_tool.specs.declared.command.Command.TheVariants.{Recover, Renumber, Migrate};
ghost use Rattle.of_tool.specs.PlayedImage.{IsPlayedImage};
ghost use Rattle.of_tool.specs.Seen.{Change};
ghost use Rattle.of_tool.specs.Refusals.{IsRefusedFor};
ghost use Rattle.of_tool.specs.Makes.{Makes};
ghost use Rattle.of_tool.specs.Answer.{FailsBy, IsInputFor};

use crate::input::{image_failure, image_in};
use crate::refusal::Failure;
use of_caller::laws::{plan_keeps_laws, reports_respect_time, runs_are_lawful};
use of_core::laws::starts;
use of_eval::Scripts;
use of_image::laws::{one_image, records_have_images};
use of_image::{Version, image_print, migrate, recovered_print, renumbered_print};
use of_lives::laws::lives_restart;
use of_plan::Plan;
use of_play::play;
use std::alloc::{AllocError, Global};

/// The text of the image of what a plan's schedule leaves: of the durable words after the last
/// step.
pub(crate) fn play_image(alloc: Global, plan: &Plan) -> Result<Vec<u8>, AllocError>
    ensures { IfOk result (λ text. IsPlayedImage plan.now text.items) }
{
    let scripts = Scripts::of_plan(plan);
    plan_keeps_laws(plan);
    runs_are_lawful();
    reports_respect_time(plan);
    starts(plan.limit(), scripts);
    records_have_images();
    lives_restart();
    one_image();
    let ended = play(alloc, plan)?;
    image_print(alloc, &plan.plot(), &ended.words)
}

/// The text that `recover` prints.
pub(crate) fn recovered_text(alloc: Global, input: &[u8]) -> Result<Vec<u8>, Failure>
    ensures { (source : Change) → IsInputFor Recover source input.now
        → MatchResult result (λ text. Makes Recover source text.items)
        (FailsBy (IsRefusedFor Recover source)) }
{
    Ok(recovered_print(alloc, &image_in(alloc, input)?)?)
}

/// The text that `renumber` prints.
pub(crate) fn renumbered_text(alloc: Global, input: &[u8]) -> Result<Vec<u8>, Failure>
    ensures { (source : Change) → IsInputFor Renumber source input.now
        → MatchResult result (λ text. Makes Renumber source text.items)
        (FailsBy (IsRefusedFor Renumber source)) }
{
    Ok(renumbered_print(alloc, &image_in(alloc, input)?)?)
}

/// The text that `migrate` prints.
pub(crate) fn migrated_text(alloc: Global, input: &[u8]) -> Result<Vec<u8>, Failure>
    ensures { (source : Change) → IsInputFor Migrate source input.now
        → MatchResult result (λ text. Makes Migrate source text.items)
        (FailsBy (IsRefusedFor Migrate source)) }
{
    match migrate(alloc, input) {
        Ok(text) => Ok(text),
        Err(err) => Err(image_failure(alloc, err, Version::One, input)),
    }
}
