//! Theorems about what operations do, and which cells stand for a store: functions that do nothing,
//! whose contracts are the theorems.

ghost use Rattle.std.specs.Prelude.{◌≡◌, ℕ};
ghost use Rattle.of_script.specs.declared.instr.Reply.{Reply};
ghost use Rattle.of_store.specs.Store.{Store};
ghost use Rattle.of_eval.specs.Faults.{FaultsExcludeStores, FirstFaultIsOne};
ghost use Rattle.of_eval.specs.Means.{MeansWords, WordsMeanScript};
ghost use Rattle.of_eval.specs.Shapes.{IsWhole, IsHeldBy, reply_cells};
ghost use Rattle.of_eval.specs.Stored.{IsStored};

use crate::scripts::Scripts;

/// An operation on cells that stand for a store does to the store what its words do, and its reply
/// is theirs. The words run in order, and a word that is no instruction aborts.
pub fn operations_mean_words(work: Scripts)
    ensures { MeansWords work }
{}

/// Running the words of a script on a store is the same as running the script.
pub fn words_mean_script()
    ensures { WordsMeanScript }
{}

/// Cells stand for at most one store.
pub fn one_store()
    ensures { (o blocks : ℕ) (m : ℕ → ℕ) (s t : Store) →
        IsStored o blocks m s → IsStored o blocks m t → s ≡ t }
{}

/// If cells have a first cell at fault, they stand for no store. So `lawful` names a cell only if
/// the cells stand for no store.
pub fn faults_exclude_stores()
    ensures { FaultsExcludeStores }
{}

/// There is at most one first cell at fault.
pub fn first_fault_is_one()
    ensures { FirstFaultIsOne }
{}

/// The cells that `reply_cells` makes of a reply hold this reply. So `reply_of` gives it back.
pub fn replies_are_held()
    ensures { (r : Reply) → IsWhole r → IsHeldBy (reply_cells r) r }
{}
