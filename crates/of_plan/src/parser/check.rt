//! Whether a line may come next, and if not, why not.

ghost use Rattle.std.specs.Prelude.{◌≡◌, ◌≤◌};
ghost use Rattle.of_plan.specs.Reading.{reading_value};
ghost use Rattle.of_plan.specs.Checks as checks;

use crate::flaw::Flaw;
use crate::parser::line::LineForm;
use crate::parser::state::{Reading, Stage};
use crate::parser::step::cells;
use crate::plan::{MOST_SCRIPTS, MOST_TURNS};
use crate::reason::Reason;

// Whether the heading is over and the end has not come.
pub(crate) fn is_below_heading(stage: Stage) -> bool
    ensures { result ≡ checks.is_below_heading stage }
{
    stage == Stage::Sized || stage == Stage::Body
}

// Whether a line of this form may come next.
pub(crate) fn may_come(stage: Stage, form: LineForm) -> bool
    ensures { result ≡ checks.may_come stage form }
{
    match form {
        LineForm::Callers => stage == Stage::Named,
        LineForm::Blocks => stage == Stage::Counted,
        LineForm::Limit => stage == Stage::Sized,
        LineForm::Stop | LineForm::Turns | LineForm::Evict | LineForm::End => {
            is_below_heading(stage)
        }
    }
}

// Why a line may not come next; below the heading for that reason.
pub(crate) fn place_reason(stage: Stage, below: Reason) -> Reason
    ensures { result ≡ checks.place_reason stage below }
{
    match stage {
        Stage::Start => Reason::TitleExpected,
        Stage::Named => Reason::CallersExpected,
        Stage::Counted => Reason::BlocksExpected,
        Stage::Sized | Stage::Body => below,
        Stage::Ended => Reason::AfterEnd,
    }
}

impl Reading {
    // Why this may not be a line's first number.
    pub(crate) fn first_fault(&self, form: LineForm, first: u32) -> Option<Reason>
        ensures { result ≡ checks.first_fault (reading_value self.now) form first }
    {
        match form {
            LineForm::Callers | LineForm::Limit if first == 0 => {
                Some(Reason::Flawed { flaw: Flaw::Zero })
            }
            LineForm::Stop | LineForm::Turns if first >= self.callers => Some(Reason::NoCaller {
                caller: first,
                callers: self.callers,
            }),
            LineForm::Stop if self.stops[first as usize].is_some() => {
                Some(Reason::StopTwice { caller: first })
            }
            LineForm::Evict => {
                let cells = cells(self.callers, self.blocks);
                if first < cells {
                    return None;
                }
                Some(Reason::NoCell { cell: first, cells })
            }
            _ => None,
        }
    }

    // Why this may not be its second number.
    pub(crate) fn second_fault(&self, form: LineForm, second: u32) -> Option<Reason>
        ensures { result ≡ checks.second_fault (reading_value self.now) form second }
    {
        if form != LineForm::Turns {
            return None;
        }
        if second == 0 {
            return Some(Reason::Flawed { flaw: Flaw::Zero });
        }
        if u64::from(self.turns) + u64::from(second) > u64::from(MOST_TURNS) {
            return Some(Reason::TooManyTurns);
        }
        None
    }
}
