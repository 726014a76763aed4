//! Whether a report and an image are those of a life that goes on from another image.

ghost use Rattle.std.specs.Prelude.{IfOk};
ghost use Rattle.of_mem.specs.declared.work.TheConstants.{MOST_INSTRS};
ghost use Rattle.of_plan.specs.Plan.{IsPlan};
ghost use Rattle.of_report.specs.Image.{IsImage};
ghost use Rattle.of_lives.specs.Images.{PlanFitsImage};
ghost use Rattle.of_tool.specs.Lives.{IsReadLeft, HasLeftImage, IsLegalLife, IsLifeVerdict, IsLifeJudgement};

use of_check::{Cause, Judgement, LeftRule, Start, Verdict, judge_from, tickets, why_left};
use of_image::laws::unlawful_have_none;
use of_image::{ImageErr, image_again, image_parse};
use of_plan::Plan;
use of_report::laws::one_report;
use of_report::{Image, Report};
use std::alloc::{AllocError, Global};

/// Why the text after a report is not one that is printed of an image.
#[derive(Clone, Copy, Debug, PartialEq, Eq)]
pub enum LeftFault {
    /// The text is not in the grammar of images, and this is its bad line.
    Bad { line: u64 },
    /// The text is that of an unlawful image, and this is the first cell at fault.
    Unlawful { cell: u32 },
    /// The text is read as an image, but `image` would print this image otherwise.
    NotPrinted,
}

/// Why a report and an image are not those of a life: the first thing that is wrong.
#[derive(Debug, Drop)]
pub enum LifeCause {
    /// The report is not legal from the start that the first image has.
    Told(Cause),
    /// The text after the report is not one that is printed of an image.
    Left(LeftFault),
    /// The report does not end at the image that comes after it.
    Ends(LeftRule),
}

// What is read of the text after a report.
#[derive(Drop)]
enum ReadLeft {
    // The text is the one that is printed of this image.
    Image(Image),
    // The text is printed of no image, and this is why.
    Fault(LeftFault),
}

// The image of a printed text, or why it has none.
fn read_left(alloc: Global, text: &[u8]) -> Result<ReadLeft, AllocError>
    ensures read { IfOk result (IsReadLeft text.now) }
    ensures image { IfOk result HasLeftImage }
{
    let image = match image_parse(alloc, text) {
        Ok(image) => image,
        Err(ImageErr::Memory) => return Err(AllocError),
        Err(ImageErr::Bad { line }) => return Ok(ReadLeft::Fault(LeftFault::Bad { line })),
        Err(ImageErr::Unlawful { cell }) => {
            return Ok(ReadLeft::Fault(LeftFault::Unlawful { cell }));
        }
    };
    let again = match image_again(alloc, text) {
        Ok(again) => again,
        Err(_) => return Err(AllocError),
    };
    if again.as_slice() != text {
        return Ok(ReadLeft::Fault(LeftFault::NotPrinted));
    }
    Ok(ReadLeft::Image(image))
}

// A plan is within its ranges.
fn in_range(plan: &Plan)
    ensures { IsPlan plan.now }
{
    let _ = plan.callers();
}

/// Why a report and an image are not those of a life that goes on from the first image by a plan.
/// None means that they are. An error means out of memory.
pub fn why_life(
    alloc: Global,
    image: Image,
    plan: &Plan,
    told: &[u8],
    left: &[u8],
) -> Result<Option<LifeCause>, AllocError>
    requires image { IsImage MOST_INSTRS image }
    requires fits { PlanFitsImage image plan.now }
    ensures { IfOk result (IsLifeJudgement image plan.now told.now left.now) }
{
    in_range(plan);
    one_report();
    unlawful_have_none();
    let done = tickets(alloc, &image)?;
    let start = Start::behind(alloc, image)?;
    let report = match judge_from(alloc, plan, start, told)? {
        Judgement::Legal(report) => report,
        Judgement::Illegal(cause) => return Ok(Some(LifeCause::Told(cause))),
    };
    let next = match read_left(alloc, left)? {
        ReadLeft::Image(next) => next,
        ReadLeft::Fault(fault) => return Ok(Some(LifeCause::Left(fault))),
    };
    match why_left(plan, &done, &report, &next) {
        None => Ok(None),
        Some(rule) => Ok(Some(LifeCause::Ends(rule))),
    }
}

/// Whether a report and an image are those of a life that goes on from the first image by a plan.
/// An error means out of memory.
pub fn check_life(
    alloc: Global,
    image: Image,
    plan: &Plan,
    told: &[u8],
    left: &[u8],
) -> Result<Verdict, AllocError>
    requires image { IsImage MOST_INSTRS image }
    requires fits { PlanFitsImage image plan.now }
    ensures { IfOk result (IsLifeVerdict image plan.now told.now left.now) }
{
    match why_life(alloc, image, plan, told, left)? {
        None => Ok(Verdict::Legal),
        Some(_) => Ok(Verdict::Illegal),
    }
}
