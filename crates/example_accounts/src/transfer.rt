//! A transfer as the words of an operation, and the reply to it.

ghost use Rattle.std.specs.Prelude.{◌≡◌, ◌∷◌, ◌-◌};
ghost use Rattle.std.proofs.Common.{replicate};
ghost use Rattle.of_mem.specs.declared.work.TheConstants.{MOST_INSTRS};
ghost use Rattle.example_accounts.specs.Accounts.{transfer_words, raw_reply};

use of_mem::{MOST_INSTRS, RawReply};

/// The shape of a reply that has two numbers.
const TWO_NUMBERS: u32 = 3;

/// An amount that goes from one account to another.
#[derive(Clone, Copy, Debug, PartialEq, Eq)]
pub struct Transfer {
    pub from: u32,
    pub to: u32,
    pub amount: u32,
}

impl Transfer {
    /// The transfer as the words of an operation.
    pub fn words(&self) -> [u64; 3]
        ensures { result ≡ transfer_words self.now }
    {
        [self.from as u64, self.to as u64, self.amount as u64]
    }
}

/// The reply to a transfer.
#[derive(Clone, Copy, Debug, PartialEq, Eq)]
pub enum Reply {
    /// The amount has moved. The account from which it was taken now has this balance.
    Done { balance: u32 },
    /// Nothing has changed: the account had only this balance.
    Short { balance: u32 },
    /// Nothing has changed: one of the two accounts does not exist.
    NoAccount,
}

fn two_numbers(balance: u32, done: u32) -> RawReply
    ensures { result ≡ record {
      shape = 3;
      values = balance ∷ done ∷ replicate (MOST_INSTRS - 2) 0;
    } }
{
    let mut values = [0; MOST_INSTRS];
    values[0] = balance;
    values[1] = done;
    RawReply {
        shape: TWO_NUMBERS,
        values,
    }
}

impl Reply {
    ghost use Rattle.example_accounts.specs.declared.transfer.Reply.{Reply as TheReply};

    /// The reply as cells hold it.
    pub fn to_raw(self) -> RawReply
        ensures { result ≡ raw_reply self }
    {
        match self {
            Reply::Done { balance } => two_numbers(balance, 1),
            Reply::Short { balance } => two_numbers(balance, 0),
            Reply::NoAccount => RawReply {
                shape: 0,
                values: [0; MOST_INSTRS],
            },
        }
    }

    /// The reply that cells hold.
    pub fn from_raw(raw: &RawReply) -> Reply
        ensures { (reply : TheReply) → raw.now ≡ raw_reply reply → result ≡ reply }
    {
        let balance = raw.values[0];
        match (raw.shape, raw.values[1]) {
            (0, _) => Reply::NoAccount,
            (_, 0) => Reply::Short { balance },
            _ => Reply::Done { balance },
        }
    }
}
