//! Laws of lives: functions that change nothing, whose contracts are the theorems.

ghost use Rattle.std.specs.Prelude.{◌≡◌, Some, None, [], ◌∷◌};
ghost use Rattle.of_lives.specs.OneHistory.{LivesAreOneHistory, SpansAreOneHistory};
ghost use Rattle.of_lives.specs.RenumberedStarts.{RenumberedImagesStart};
ghost use Rattle.of_lives.specs.Restarts.{LivesRestart};
ghost use Rattle.of_lives.specs.Worked.{FollowsFirst, FollowsRenumbered, second_life, runs_again, begins_anew, forgets_store, skips_read, asked_by, replies_to, one_number_reply, done_in_both};

use of_caller::laws::runs_restart;
use of_plan::laws::worked_reports;

/// The entries of any number of lives are one history, if each life has a report that is legal from
/// the start that the life before it has left. Serial replay of all entries gives all replies and
/// the last store. Each announced call is there once, in its caller's order. A read that was not
/// announced leaves no ticket, so a later life may make it again.
pub fn any_lives()
    ensures { LivesAreOneHistory }
{}

/// Lives are one history also if `renumber` lets sequences begin anew between them: replay gives
/// all replies and the last store, no announced call is run again, and each call that is done in
/// the end is an entry. Sequences order only the entries between two renumberings.
pub fn renumbered_lives()
    ensures { SpansAreOneHistory }
{}

/// A life from a renumbered image starts at sequence 0, with the store and the tickets of the image
/// that was renumbered.
pub fn renumbered_images_start()
    ensures { RenumberedImagesStart }
{}

/// Recovery makes a row of the durable words that a life leaves, and a table may start from this
/// row. The table starts at the life's last sequence and store, with each caller after its last
/// announced call. So the next life begins where this one ends.
pub fn lives_restart()
    ensures { LivesRestart }
{
    runs_restart();
}

/// A worked second life makes a read of the first life again, finds what was added in between, and
/// runs no announced call again. Four lives that differ from the second life in a number or an
/// entry are refused. After a renumbering, only the life that begins at sequence 0 is legal.
pub fn worked_lives()
    ensures follows { FollowsFirst second_life }
    ensures asked_again { asked_by 0 ≡ 0 ∷ 1 ∷ 1 ∷ [] }
    ensures in_its_place { replies_to 0
        ≡ one_number_reply None ∷ one_number_reply (Some 6) ∷ one_number_reply (Some 7) ∷ [] }
    ensures not_run_again { asked_by 1 ≡ 0 ∷ 1 ∷ 2 ∷ [] }
    ensures tickets { done_in_both ≡ 1 ∷ 3 ∷ [] }
    ensures call_run_again { FollowsFirst runs_again → ⊥ }
    ensures sequence_forgotten { FollowsFirst begins_anew → ⊥ }
    ensures store_forgotten { FollowsFirst forgets_store → ⊥ }
    ensures read_skipped { FollowsFirst skips_read → ⊥ }
    ensures renumbered { FollowsRenumbered begins_anew }
    ensures not_renumbered { FollowsRenumbered second_life → ⊥ }
{
    worked_reports();
}
