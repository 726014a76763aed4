//! Texts of reports of loads.

ghost use Rattle.std.specs.Prelude.{◌≡◌, IfOk, OnOk};
ghost use Rattle.std.specs.FinMap as fm;
ghost use Rattle.of_report.specs.Report.{report_value};
ghost use Rattle.of_report.specs.LoadText.{sum_of_values, sum_lines, load_text};
ghost use Rattle.of_script.specs.Appending.{AppendsText};

use crate::report::Report;
use crate::store::put_registers;
use of_store::Store;
use std::alloc::{AllocError, Global};
use std::fmt::Write;

// How many keys there are, and the sum of their numbers.
fn sums(store: &Store) -> (u32, u64)
    ensures keys { result.0 ≡ fm.len store.now.keys }
    ensures values { result.1 ≡ sum_of_values store.now }
{
    let keys = store.keys();
    let mut sum: u64 = 0;
    for (_, value) in store.map() {
        sum += u64::from(*value);
    }
    (keys, sum)
}

// Writes how many keys there are, and the sum of their numbers.
fn put_sums(out: &mut String, store: &Store) -> Result<(), AllocError>
    ensures { OnOk result (AppendsText out.old out.new (sum_lines store.now)) }
{
    let (keys, sum) = sums(store);
    writeln!(out, "keys {keys}")?;
    writeln!(out, "values {sum}")
}

impl Report {
    /// The short text of a load's report: how many callers and calls there are, the registers that
    /// are not 0, how many keys there are, and the sum of the numbers at them.
    pub fn load_print(&self, alloc: Global) -> Result<Vec<u8>, AllocError>
        ensures { IfOk result (λ text. text.items ≡ load_text (report_value self.now)) }
    {
        let callers = self.callers.len();
        let calls = self.entries.len();
        let mut out = String::from_str(alloc, "onefile load 1\n")?;
        writeln!(out, "callers {callers}")?;
        writeln!(out, "calls {calls}")?;
        put_registers(&mut out, &self.store)?;
        put_sums(&mut out, &self.store)?;
        out.push_str("end\n")?;
        Ok(out.into_bytes())
    }
}
