//! Why an input is refused, for standard error.

ghost use Rattle.std.specs.Prelude.{◌≡◌};
ghost use Rattle.of_mem.specs.declared.work.TheConstants.{MOST_INSTRS};
ghost use Rattle.of_report.specs.Image.{IsImage};

use crate::legal_life::{LeftFault, LifeCause};
use of_check::LeftRule;
use of_image::Version;
use of_plan::{Plan, fault, parts};
use of_report::Image;
use std::alloc::{AllocError, Global};

/// Why a text is no plan.
pub(crate) fn plan_reason(alloc: Global, text: &[u8]) -> Result<Vec<u8>, AllocError> {
    match fault(alloc, text)? {
        Some(found) => found.print(alloc, text),
        None => Ok(Vec::new(alloc)),
    }
}

/// Why no image of a version is read from a text.
pub(crate) fn image_reason(
    alloc: Global,
    version: Version,
    text: &[u8],
) -> Result<Vec<u8>, AllocError> {
    match of_image::fault(alloc, version, text)? {
        Some(found) => found.print(alloc, text),
        None => Ok(Vec::new(alloc)),
    }
}

// The first caller of which the image has more calls than the plan has scripts: the caller, its
// ticket and its scripts.
fn unfit_caller(image: &Image, plan: &Plan) -> Option<(u32, u32, usize)>
    requires image { IsImage MOST_INSTRS image.now }
    requires callers { image.now.row.callers ≡ plan.now.callers }
{
    for caller in 0..plan.callers() {
        let ticket = image.ticket(caller);
        let scripts = plan.scripts(caller).len();
        if ticket as usize > scripts {
            return Some((caller, ticket, scripts));
        }
    }
    None
}

/// Why a plan does not fit an image.
pub(crate) fn misfit_reason(
    alloc: Global,
    image: &Image,
    plan: &Plan,
) -> Result<Vec<u8>, AllocError>
    requires { IsImage MOST_INSTRS image.now }
{
    let (there, here) = (image.callers, plan.callers());
    if there != here {
        let text = format!(in alloc; "callers: {there} in the image, and {here} in the plan\n")?;
        return Ok(text.into_bytes());
    }
    let (blocks, room) = (image.blocks, plan.blocks());
    if blocks != room {
        let text = format!(in alloc; "blocks: {blocks} in the image, and {room} in the plan\n")?;
        return Ok(text.into_bytes());
    }
    let (seq, limit) = (image.recovered.seq, plan.limit());
    if seq > limit {
        let text = format!(in alloc;
            "the image's sequence is {seq}, above the plan's limit {limit}\n"
        )?;
        return Ok(text.into_bytes());
    }
    let Some((caller, ticket, scripts)) = unfit_caller(image, plan) else {
        return Ok(Vec::new(alloc));
    };
    let text = format!(in alloc;
        "caller {caller}: {ticket} calls made in the image, and {scripts} scripts in the plan\n"
    )?;
    Ok(text.into_bytes())
}

// How many texts there are one after another, counted up to this number.
fn texts(input: &[u8], most: u32) -> u32 {
    let mut rest = input;
    for count in 0..most {
        if rest.is_empty() {
            return count;
        }
        rest = parts(rest).1;
    }
    most
}

/// Why an input has no part with this number.
pub(crate) fn part_reason(alloc: Global, input: &[u8], number: u32) -> Result<Vec<u8>, AllocError> {
    let count = texts(input, number);
    let text = format!(in alloc; "the input has no part {number}: it has {count}\n")?;
    Ok(text.into_bytes())
}

// Why the text after the report of a life is none of an image.
fn left_reason(alloc: Global, fault: LeftFault) -> Result<Vec<u8>, AllocError> {
    let text = match fault {
        LeftFault::Bad { line } => {
            format!(in alloc; "after the report: bad image, line {line}\n")?
        }
        LeftFault::Unlawful { cell } => {
            format!(in alloc; "after the report: unlawful image, cell {cell}\n")?
        }
        LeftFault::NotPrinted => {
            format!(in alloc; "after the report: an image, not as a command prints it\n")?
        }
    };
    Ok(text.into_bytes())
}

// What is wrong with an image that is not where the report ends.
fn rule_reason(alloc: Global, rule: LeftRule) -> Result<Vec<u8>, AllocError> {
    let what = match rule {
        LeftRule::Callers => format!(in alloc; "not the plan's callers")?,
        LeftRule::Blocks => format!(in alloc; "not the plan's blocks")?,
        LeftRule::Sequence => format!(in alloc; "not the report's sequence")?,
        LeftRule::Ticket { caller } => {
            format!(in alloc; "the ticket of caller {caller} is another")?
        }
        LeftRule::Reply { caller } => {
            format!(in alloc; "the last reply of caller {caller} is another")?
        }
        LeftRule::Store => format!(in alloc; "not the report's store")?,
    };
    let text = format!(in alloc; "the image after the report: {what}\n")?;
    Ok(text.into_bytes())
}

/// Why a life is not legal; `told` is the text of its report.
pub(crate) fn life_reason(
    alloc: Global,
    told: &[u8],
    cause: &LifeCause,
) -> Result<Vec<u8>, AllocError> {
    match cause {
        LifeCause::Told(cause) => cause.print(alloc, told),
        LifeCause::Left(fault) => left_reason(alloc, *fault),
        LifeCause::Ends(rule) => rule_reason(alloc, *rule),
    }
}
