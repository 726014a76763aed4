//! The lines of callers, from what they claim and from how many calls have run since the start.

ghost use Rattle.std.specs.Prelude.{◌≡◌, ◌↔◌, ◌≤◌, IsTrue, length, IfOk};
ghost use Rattle.of_plan.specs.Plan.{bound_of};
ghost use Rattle.of_check.specs.Endings.{claimed_lines, end_at as the_end_at};

use crate::claims::EndClaim;
use of_plan::Plan;
use of_report::{EndState, Line};
use std::alloc::{AllocError, Global};

// The steps that a call of a plan takes at most.
#[tactic(auto, using(of_mem::proofs::BucketPlaces::few_behind))]
pub(crate) fn step_bound(plan: &Plan) -> u32
    ensures { result ≡ bound_of plan.now }
{
    let plot = plan.plot();
    let cells = plot.cells();
    let announcing = plot.instrs + 1;
    let round = 15 * cells + (plot.instrs + 1) * plot.callers + 15;
    let attempt = 7 * cells + 7;
    announcing + 3 * round + 4 * attempt
}

// Whether the longest call is within the bound.
pub(crate) fn is_within(bound: u32, end: EndClaim) -> bool
    ensures { IsTrue result ↔ ((end.longest ≤ bound) × (end.answered ≡ 0 → end.longest ≡ 0)) }
{
    end.longest <= bound && (end.answered != 0 || end.longest == 0)
}

// What a caller claims to have ended with; nothing answered, if there is no claim.
fn end_at(ends: &[EndClaim], caller: u32) -> EndClaim
    ensures { result ≡ the_end_at ends.now caller }
{
    match ends.get(caller as usize) {
        Some(end) => *end,
        None => EndClaim {
            state: EndState::Done,
            answered: 0,
            longest: 0,
        },
    }
}

// The lines of callers as they are claimed, from what each caller had done at the start and has
// done now. An error means out of memory.
pub(crate) fn lines(
    alloc: Global,
    plan: &Plan,
    done: &[u32],
    counts: &[u32],
    ends: &[EndClaim],
) -> Result<Vec<Line>, AllocError>
    requires done { length done.now ≡ plan.now.callers }
    requires counts { length counts.now ≡ plan.now.callers }
    ensures { IfOk result (λ lines.
        lines.items ≡ claimed_lines plan.now done.now counts.now ends.now) }
{
    let mut lines = Vec::new(alloc);
    for caller in 0..plan.callers() {
        let end = end_at(ends, caller);
        let entries = counts[caller as usize].saturating_sub(done[caller as usize]);
        lines.push(Line {
            state: end.state,
            answered: end.answered,
            entries,
            longest: u64::from(end.longest),
        })?;
    }
    Ok(lines)
}
