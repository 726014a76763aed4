//! Accounts as a work: what a transfer does to the cells of a table.

ghost use Rattle.std.specs.Prelude.{◌≡◌, ◌<◌, ◌≤◌, length};
ghost use Rattle.of_mem.specs.declared.work.TheConstants.{MOST_CALLERS, MOST_INSTRS};
ghost use Rattle.of_mem.specs.Calls.{RunsProgram};
ghost use Rattle.example_accounts.specs.declared.accounts.TheConstants.{MOST_ACCOUNTS};

use crate::transfer::Reply;
use of_cell::Shape;
use of_mem::{
    MOST_CALLERS, MOST_DATA_CELLS, MOST_INSTRS, MaySuspend, Need, Part, RawReply, SuspendedRun,
    Work,
};

/// How many cells belong to each caller.
const OWN_CELLS: u32 = MOST_INSTRS as u32 + 2;

/// The most accounts: with the own cells of all callers they fit into the largest table.
pub const MOST_ACCOUNTS: u32 = MOST_DATA_CELLS - MOST_CALLERS * OWN_CELLS;

/// Accounts, each in a cell after those of the callers. At first account 0 has all the money. A
/// table starts with zeros, so the cell of account 0 holds how much of the money it does not have.
#[derive(Clone, Copy, Debug, PartialEq, Eq)]
pub struct Accounts {
    /// How many callers there are, 1 to `MOST_CALLERS`.
    pub callers: u32,
    /// How many accounts there are, 1 to `MOST_ACCOUNTS`.
    pub accounts: u32,
    pub money: u32,
    pub ghost some_callers: { 1 ≤ callers },
    pub ghost few_callers: { callers ≤ MOST_CALLERS },
    pub ghost some_accounts: { 1 ≤ accounts },
    pub ghost few_accounts: { accounts ≤ MOST_ACCOUNTS },
    pub ghost small: { money < 4294967296 },
}

impl Accounts {
    ghost use Rattle.of_mem.specs.ProgramWork.{memory_of};
    ghost use Rattle.example_accounts.specs.Accounts.{account_cell, cell_count, flipped};
    ghost use Rattle.example_accounts.specs.Accounts.{balance_in, total_of, moving, transferring};
    ghost use Rattle.example_accounts.specs.Meaning.{IsPartOfTable};

    /// The shape of a table for these accounts.
    pub fn shape(&self) -> Shape
        ensures callers { result.callers ≡ self.now.callers }
        ensures instrs { result.instrs ≡ MOST_INSTRS }
        ensures cells { result.cells ≡ cell_count self.now }
    {
        Shape {
            callers: self.callers,
            instrs: MOST_INSTRS as u32,
            cells: self.cells(),
        }
    }

    // The cell of an account.
    fn cell(&self, account: u32) -> u32
        requires { account < self.now.accounts }
        ensures { result ≡ account_cell self.now account }
    {
        self.callers * OWN_CELLS + account
    }

    // The balance of an account whose cell holds this number, and the number in the cell of one
    // that has this balance.
    fn flip(&self, account: u32, number: u32) -> u32
        ensures { result ≡ flipped self.now.money account number }
    {
        if account == 0 {
            self.money.saturating_sub(number)
        } else {
            number
        }
    }

    /// The balance of an account in the cells of a table.
    pub fn balance(&self, cells: &[u32], account: u32) -> u32
        requires cells { length cells.now ≡ cell_count self.now }
        requires account { account < self.now.accounts }
        ensures { result ≡ balance_in self.now (memory_of cells.now) account }
    {
        self.flip(account, cells[self.cell(account) as usize])
    }

    /// What all accounts have together.
    pub fn total(&self, cells: &[u32]) -> u64
        requires { length cells.now ≡ cell_count self.now }
        ensures { result ≡ total_of self.now (memory_of cells.now) self.now.accounts }
    {
        let mut total = 0;
        for account in 0..self.accounts {
            total += self.balance(cells, account) as u64;
        }
        total
    }

    // Runs an operation on what is known.
    fn transfer(&self, part: &mut Part, op: &[u64]) -> Result<RawReply, Need>
        requires { IsPartOfTable self.now part.old }
        ensures { RunsProgram (transferring self.now op.now) part.old part.new result }
    {
        let accounts = self.accounts as u64;
        if op.len() != 3 || op[0] >= accounts || op[1] >= accounts {
            return Ok(Reply::NoAccount.to_raw());
        }
        self.move_money(part, op[0] as u32, op[1] as u32, op[2])
    }

    // Takes the amount from one account and gives it to the other.
    fn move_money(&self, part: &mut Part, from: u32, to: u32, amount: u64) -> Result<RawReply, Need>
        requires table { IsPartOfTable self.now part.old }
        requires from { from < self.now.accounts }
        requires to { to < self.now.accounts }
        ensures { RunsProgram (moving self.now from to amount) part.old part.new result }
    {
        let balance = self.flip(from, part.read(self.cell(from))?);
        if (balance as u64) < amount {
            return Ok(Reply::Short { balance }.to_raw());
        }
        let amount = amount as u32;
        let left = balance - amount;
        part.write(self.cell(from), self.flip(from, left));
        let had = self.flip(to, part.read(self.cell(to))?);
        part.write(self.cell(to), self.flip(to, had + amount));
        Ok(Reply::Done { balance: left }.to_raw())
    }
}

/// Accounts keep nothing between two runs of an operation.
impl MaySuspend for Accounts {
    ghost holds = { λ k p. Unit {0} };

    ghost nothing = { λ k p e. tt };

    ghost learns = { λ k p a v e h. tt };
}

impl Work for Accounts {
    ghost use Rattle.example_accounts.specs.Accounts.{cell_count};
    ghost use Rattle.example_accounts.specs.Meaning.{accounts_meaning, LawfulCells};
    ghost use Rattle.example_accounts.specs.Sound.{accounts_fit, accounts_sound};

    ghost many = { λ w. w.callers };

    ghost size = { cell_count };

    ghost lawful = { LawfulCells };

    ghost meaning = { accounts_meaning };

    fn callers(&self) -> u32 {
        self.callers
    }

    fn cells(&self) -> u32 {
        self.callers * OWN_CELLS + self.accounts
    }

    fn run_on(
        &self,
        part: &mut Part,
        _kept: &mut SuspendedRun,
        op: &[u64],
        out: &mut RawReply,
    ) -> Result<(), Need> {
        match self.transfer(part, op) {
            Ok(reply) => {
                *out = reply;
                Ok(())
            }
            Err(need) => {
                part.undo();
                Err(need)
            }
        }
    }

    // words that are no transfer write nothing
    fn reads_only(&self, op: &[u64]) -> bool {
        op.len() != 3
    }

    ghost fits = { accounts_fit };

    ghost sound = { accounts_sound };
}
