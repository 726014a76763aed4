//! What commands read: the whole input, and the plans and images in it.

ghost use Rattle.std.specs.Prelude.{◌≡◌, ◌≤◌, None, IfOk, MatchResult};
ghost use Rattle.of_mem.specs.declared.work.TheConstants.{MOST_INSTRS};
ghost use Rattle.of_plan.specs.Grammar.{SpellsPlan};
ghost use Rattle.of_report.specs.Image.{IsImage};
ghost use Rattle.of_image.specs.declared.version.Version.TheVariants.{Two};
ghost use Rattle.of_image.specs.Parsed.{ReadsImage, ImageIsRefused};
ghost use Rattle.of_tool.specs.Seen.{bytes_change, ReadsAll};
ghost use Rattle.of_tool.specs.Inputs.{input_of, most_of};
ghost use Rattle.of_tool.specs.Refusals.{IsRefusedFor};
ghost use Rattle.of_tool.specs.Answer.{FailsBy, IsInputFor, RefusesUpTo, HasNoPlan, HasNoImage, IsLife, HaveNoLife};

use crate::command::Command;
use crate::commands::MOST_WITH_REPORT;
use crate::reasons::{image_reason, misfit_reason, plan_reason};
use crate::refusal::{Failure, Refusal};
use of_image::{ImageErr, Version, image_parse};
use of_io::{ReadErr, Source, read_all};
use of_lives::fits;
use of_plan::{Plan, PlanErr, parse};
use of_report::Image;
use std::alloc::Global;

// The whole input of at most this many bytes.
fn read_input<S: Source>(alloc: Global, source: &mut S, most: usize) -> Result<Vec<u8>, Failure>
    requires { most ≤ MOST_WITH_REPORT }
    ensures { MatchResult result
        (λ bytes. ReadsAll most (bytes_change S.remaining S.faults source.old source.new)
        bytes.items)
        (FailsBy (RefusesUpTo most (bytes_change S.remaining S.faults source.old source.new))) }
{
    match read_all(alloc, source, most) {
        Ok(bytes) => Ok(bytes),
        Err(ReadErr::Memory) => Err(Failure::Memory),
        Err(ReadErr::Fault) => Err(Failure::Refused {
            refusal: Refusal::ReadFault,
            reason: None,
        }),
        Err(ReadErr::TooLong) => Err(Failure::Refused {
            refusal: Refusal::TooLong,
            reason: None,
        }),
    }
}

/// The whole input of a command; nothing, if it reads none.
pub(crate) fn input_for<S: Source>(
    alloc: Global,
    command: Command,
    source: &mut S,
) -> Result<Vec<u8>, Failure>
    ensures input { MatchResult result
        (λ bytes. IsInputFor command (bytes_change S.remaining S.faults source.old source.new)
        bytes.items)
        (FailsBy (IsRefusedFor command
        (bytes_change S.remaining S.faults source.old source.new))) }
    ensures unread { input_of command ≡ None → source.new ≡ source.old }
{
    match command.most() {
        Some(most) => read_input(alloc, source, most),
        None => Ok(Vec::new(alloc)),
    }
}

/// The plan that a text spells.
pub(crate) fn plan_in(alloc: Global, text: &[u8]) -> Result<Plan, Failure>
    ensures { MatchResult result (SpellsPlan text.now) (FailsBy (HasNoPlan text.now)) }
{
    match parse(alloc, text) {
        Ok(plan) => Ok(plan),
        Err(PlanErr::Memory) => Err(Failure::Memory),
        Err(PlanErr::Bad { line }) => Err(Failure::Refused {
            refusal: Refusal::BadPlan { line },
            reason: plan_reason(alloc, text).ok(),
        }),
    }
}

/// Why no image of a version is read from a text.
pub(crate) fn image_failure(alloc: Global, err: ImageErr, version: Version, text: &[u8]) -> Failure
    requires { ImageIsRefused version text.now err }
    ensures { FailsBy (HasNoImage version text.now) result }
{
    let reason = image_reason(alloc, version, text).ok();
    match err {
        ImageErr::Memory => Failure::Memory,
        ImageErr::Bad { line } => Failure::Refused {
            refusal: Refusal::BadImage { line },
            reason,
        },
        ImageErr::Unlawful { cell } => Failure::Refused {
            refusal: Refusal::UnlawfulImage { cell },
            reason,
        },
    }
}

/// The image that is read from a text.
pub(crate) fn image_in(alloc: Global, text: &[u8]) -> Result<Image, Failure>
    ensures read { MatchResult result (λ image. ReadsImage Two text.now image)
        (FailsBy (HasNoImage Two text.now)) }
    ensures image { IfOk result (λ image. IsImage MOST_INSTRS image) }
{
    match image_parse(alloc, text) {
        Ok(image) => Ok(image),
        Err(err) => Err(image_failure(alloc, err, Version::Two, text)),
    }
}

/// The image of the first text and the plan of the second, if the plan fits the image.
pub(crate) fn life_in(alloc: Global, first: &[u8], second: &[u8]) -> Result<(Image, Plan), Failure>
    ensures read { MatchResult result (λ life. IsLife first.now second.now life.0 life.1)
        (FailsBy (HaveNoLife first.now second.now)) }
    ensures image { IfOk result (λ life. IsImage MOST_INSTRS life.0) }
{
    let plan = plan_in(alloc, second)?;
    let image = image_in(alloc, first)?;
    if !fits(&image, &plan) {
        return Err(Failure::Refused {
            refusal: Refusal::DoesNotFit,
            reason: misfit_reason(alloc, &image, &plan).ok(),
        });
    }
    Ok((image, plan))
}
