//! A transfer from one account to another.

ghost use Rattle.std.specs.Prelude.{◌<◌, ◌≤◌};
ghost use Rattle.of_script.specs.declared.instr.TheConstants.{REGISTERS, GREATEST};

use of_memory::{Instr, Script};

/// Takes an amount off an account and adds it to another. The accounts are the registers.
#[derive(Clone, Copy)]
pub struct Transfer {
    pub from: u8,
    pub to: u8,
    pub amount: u32,
    pub ghost from_is: { from < REGISTERS },
    pub ghost to_is: { to < REGISTERS },
    pub ghost amount_is: { amount ≤ GREATEST },
}

impl Transfer {
    ghost use Rattle.std.specs.Prelude.{◌≡◌};
    ghost use Rattle.example_bank.specs.Transfers.{transfer_script};

    /// The transfer as a script. It aborts, and changes nothing, if the first account has less than
    /// the amount.
    pub fn script(&self) -> Script
        ensures { result ≡ transfer_script self.now.from self.now.to self.now.amount }
    {
        Script::new(&[
            Instr::Sub {
                reg: self.from,
                value: self.amount,
            },
            Instr::Add {
                reg: self.to,
                value: self.amount,
            },
        ])
    }
}
