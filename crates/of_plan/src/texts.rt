//! Laws of the texts of plans.

ghost use Rattle.std.specs.Prelude.{◌≡◌, List, ℕ};
ghost use Rattle.of_plan.specs.Plan.{Plan, IsPlan};
ghost use Rattle.of_plan.specs.Grammar.{SpellsPlan};
ghost use Rattle.of_plan.specs.PlanText.{plan_text};
ghost use Rattle.of_plan.specs.Parts.{HasOneCut};

/// A plan that a text spells is in the ranges of plans.
pub fn spelled_is_plan()
    ensures { (text : List ℕ) (plan : Plan) → SpellsPlan text plan → IsPlan plan }
{}

/// A text has at most one plan.
pub fn one_plan()
    ensures { (text : List ℕ) (plan other : Plan) → SpellsPlan text plan → SpellsPlan text other
        → plan ≡ other }
{}

/// The text that is printed of a plan spells that plan.
pub fn printed_is_read()
    ensures { (plan : Plan) → IsPlan plan → SpellsPlan (plan_text plan) plan }
{}

/// An input can be cut into its two parts in only one way.
pub fn one_cut()
    ensures { HasOneCut }
{}
