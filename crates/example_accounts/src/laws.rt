//! What holds of accounts as a work.

ghost use Rattle.of_mem.specs.Touching.{TouchesFew};
ghost use Rattle.example_accounts.specs.Accounts.{cell_count};
ghost use Rattle.example_accounts.specs.Meaning.{accounts_meaning, LawfulCells};

use crate::accounts::Accounts;
use of_mem::laws::programs_touch_few;

/// An operation reads at most two cells and writes at most two, however many accounts there are.
pub fn accounts_touch_few(work: Accounts)
    ensures { TouchesFew (accounts_meaning work) (LawfulCells work) (cell_count work) 2 2 }
{
    programs_touch_few(work, 2, 2);
}
