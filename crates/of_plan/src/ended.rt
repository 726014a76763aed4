//! What a run leaves.

use crate::answer::{Answer, Ending};
use std::marker::Model;

/// What a run of a plan leaves.
#[derive(Drop)]
pub struct Ended {
    /// For each caller the answers of its calls, in the order of its scripts.
    pub answers: Vec<Vec<Answer>>,
    /// How each caller ended.
    pub endings: Vec<Ending>,
    /// The words of the shared table when the run ended.
    pub words: Vec<u64>,
}

impl Model for Ended {
    ghost use Rattle.std.specs.Prelude.{map};
    ghost use Rattle.of_plan.specs.Ended.{Ended};

    ghost Value = { Ended };

    ghost view = { λ e. record {
      answers = map (λ v. v.items) e.answers.items;
      endings = e.endings.items;
      words = e.words.items;
    } };
}
