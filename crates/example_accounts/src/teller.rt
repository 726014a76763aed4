//! A teller: a handle with a job.

ghost use Rattle.std.specs.Prelude.{◌≡◌, ◌<◌, ◌∷◌, ◌++◌, [], length, vec_len, vec_capacity};
ghost use Rattle.example_accounts.specs.Days.{Serves, HasWorked};

use crate::accounts::Accounts;
use crate::transfer::{Reply, Transfer};
use of_cells::{CellHandle, RunError};
use of_core::Outcome;

/// A transfer with the outcome of its call.
#[derive(Clone, Copy)]
pub struct Answer {
    pub transfer: Transfer,
    pub outcome: Outcome,
}

impl Answer {
    /// The reply to the transfer. None if no sequence was left for the call, or if the call was
    /// lost.
    pub fn reply(&self) -> Option<Reply> {
        match self.outcome {
            Outcome::Answered {
                seq: _,
                announced: _,
                raw,
                steps: _,
            } => Some(Reply::from_raw(&raw)),
            Outcome::Spent { seq: _ } | Outcome::Lost { seq: _ } => None,
        }
    }
}

/// A handle with its job.
#[derive(Drop)]
pub struct Teller {
    pub handle: CellHandle<Accounts>,
    /// The teller's transfers, in the order in which it makes them.
    pub job: Vec<Transfer>,
    /// How many steps the last transfer may take. A transfer that needs more is stopped, and its
    /// call stays open.
    pub last_steps: u64,
    /// The transfers whose calls have ended, with their outcomes. The list has room for all
    /// transfers of the job.
    pub answers: Vec<Answer>,
}

// Adds an answer for which there is room.
fn put(answers: &mut Vec<Answer>, answer: Answer)
    requires { vec_len answers.old < vec_capacity answers.old }
    ensures { answers.new.items ≡ answers.old.items ++ answer ∷ [] }
{
    let Ok(()) = answers.push(answer) else {
        unreachable!()
    };
}

impl Teller {
    /// Makes the transfers that are left of the teller's job, one after the other, until the teller
    /// is stopped or has no ticket left.
    pub fn work(&mut self)
        requires { Serves self.old }
        ensures { HasWorked self.old self.new }
    {
        for _ in 0..self.job.len() {
            self.make_next();
        }
    }

    // How many steps the transfer at a place of the job may take.
    fn steps_at(&self, place: usize) -> u64
        requires { place < length self.now.job.items }
    {
        if place + 1 == self.job.len() {
            self.last_steps
        } else {
            u64::MAX
        }
    }

    // Makes the next one, if there is one.
    fn make_next(&mut self)
        requires { Serves self.old }
        ensures { HasWorked self.old self.new }
    {
        let next = self.answers.len();
        if next >= self.job.len() || next >= self.answers.capacity() {
            return;
        }
        let transfer = self.job[next];
        let words = transfer.words();
        let steps = self.steps_at(next);
        let outcome = match self.handle.run_within(words.as_slice(), steps) {
            Ok(answer) => answer.outcome(),
            Err(RunError::Spent { seq }) => Outcome::Spent { seq },
            Err(_) => return,
        };
        put(&mut self.answers, Answer { transfer, outcome });
    }
}
