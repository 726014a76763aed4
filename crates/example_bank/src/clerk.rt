//! A clerk, and how it makes the transfers of its job.

ghost use Rattle.std.specs.Prelude.{◌+◌, ◌≤◌, vec_len};

use crate::transfer::Transfer;
use of_memory::laws::calls_are_counted;
use of_memory::{Handle, Reply, RunError, Saved, Task};

/// A clerk, who goes on with a job from day to day.
#[derive(Drop)]
pub struct Clerk {
    /// The clerk's transfers, in the order in which the clerk makes them.
    pub job: Vec<Transfer>,
    /// The most steps of each of the clerk's calls.
    pub steps: u64,
    /// How many transfers have moved their amounts.
    pub made: usize,
    /// How many transfers have changed nothing, since an account had too little or too much.
    pub aborted: usize,
    /// How many calls of the clerk were answered on this day.
    pub answered: usize,
    /// Whether the clerk was stopped on this day in a transfer that took no effect.
    pub pending: bool,
    /// Why the clerk has made no more transfers on this day. None if its job is done.
    pub end: Option<RunError>,
    pub ghost few: { made + aborted ≤ vec_len job },
    pub ghost today: { answered ≤ made + aborted },
}

impl Clerk {
    ghost use Rattle.std.specs.Prelude.{◌≡◌, ◌<◌, None};
    ghost use Rattle.of_store.specs.Replies.{reply_value_of};
    ghost use Rattle.of_memory.specs.Handles.{IsHandle, IsSame};
    ghost use Rattle.of_memory.specs.Saving.{IsSaved, saved_callers};
    ghost use Rattle.example_bank.specs.Clerks.{counted, CountsReply, GoesOn, IsStopped, Settles};

    // Counts the reply to the next transfer.
    fn count(&mut self, reply: &Reply)
        requires { counted self.old < vec_len self.old.job }
        ensures job { self.new.job ≡ self.old.job }
        ensures steps { self.new.steps ≡ self.old.steps }
        ensures answered { self.new.answered ≡ self.old.answered }
        ensures pending { self.new.pending ≡ self.old.pending }
        ensures end { self.new.end ≡ self.old.end }
        ensures counts { CountsReply (reply_value_of reply.now) self.old self.new }
        ensures one { counted self.new ≡ counted self.old + 1 }
    {
        match reply.abort {
            None => self.made += 1,
            Some(_) => self.aborted += 1,
        }
    }

    // Makes the next transfer.
    fn make(&mut self, handle: &mut Handle)
        requires handle { IsHandle handle.old }
        requires next { counted self.old < vec_len self.old.job }
        requires end { self.old.end ≡ None }
        ensures handle { IsHandle handle.new }
        ensures same { IsSame handle.old handle.new }
        ensures job { self.new.job ≡ self.old.job }
        ensures goes_on { GoesOn self.old handle.old self.new handle.new }
        ensures one { self.new.end ≡ None → counted self.new ≡ counted self.old + 1 }
    {
        calls_are_counted();
        let script = self.job[self.made + self.aborted].script();
        match handle.run_within(&script, self.steps) {
            Ok(answer) => {
                self.count(&answer.reply);
                self.answered += 1;
            }
            Err(error) => self.end = Some(error),
        }
    }

    // Makes the next transfer, unless the clerk has ended early.
    fn go_on(&mut self, handle: &mut Handle)
        requires handle { IsHandle handle.old }
        requires next { self.old.end ≡ None → counted self.old < vec_len self.old.job }
        ensures handle { IsHandle handle.new }
        ensures same { IsSame handle.old handle.new }
        ensures job { self.new.job ≡ self.old.job }
        ensures goes_on { GoesOn self.old handle.old self.new handle.new }
        ensures one { self.new.end ≡ None → counted self.new ≡ counted self.old + 1 }
        ensures early { self.new.end ≡ None → self.old.end ≡ None }
    {
        if self.end.is_none() {
            self.make(handle);
        }
    }

    /// Counts the transfer in which the clerk was stopped, if other callers have finished it: then
    /// the memory that was saved last has one call of the clerk more than those that were answered.
    /// On the next day no call of the clerk is stopped.
    pub fn settle(&mut self, number: u32, before: &Saved, after: &Saved)
        requires before { IsSaved before.now }
        requires after { IsSaved after.now }
        requires number { number < saved_callers before.now }
        requires still { number < saved_callers after.now }
        requires left { IsStopped self.old.end → counted self.old < vec_len self.old.job }
        ensures { Settles number before.now after.now self.old self.new }
    {
        let Some(error) = self.end else {
            return;
        };
        let RunError::Stopped { asked: _ } = error else {
            return;
        };
        self.steps = u64::MAX;
        let calls = after.ticket(number).saturating_sub(before.ticket(number));
        if calls as usize <= self.answered {
            self.pending = true;
            return;
        }
        let Some((_, reply)) = after.last_reply(number) else {
            unreachable!()
        };
        self.count(&reply);
    }
}

impl Task for Clerk {
    ghost use Rattle.example_bank.specs.Clerks.{WorksOn};

    ghost does = { λ x h y k. WorksOn x h y k };

    fn work(&mut self, handle: &mut Handle) {
        self.answered = 0;
        self.pending = false;
        self.end = None;
        for _ in self.made + self.aborted..self.job.len() {
            self.go_on(handle);
        }
    }
}
