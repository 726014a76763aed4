//! What a caller's own cells hold, in the words of all data cells.

ghost use Rattle.std.specs.Prelude.{◌≡◌, ◌<◌, length};
ghost use Rattle.of_mem.specs.declared.work.TheConstants.{MOST_INSTRS};
ghost use Rattle.of_mem.specs.Plots.{data_cell_count};
ghost use Rattle.of_eval.specs.Lawful.{reply_in};
ghost use Rattle.of_report.specs.Found.{number_in};

use of_cell::payload_of;
use of_mem::{MOST_INSTRS, Plot, RawReply};

/// The number that a data cell holds, given the words of all data cells.
fn number(words: &[u64], cell: u32) -> u32
    requires { cell < length words.now }
    ensures { result ≡ number_in words.now cell }
{
    payload_of(words[cell as usize])
}

/// The reply that a caller's own data cells hold.
pub(crate) fn reply(plot: &Plot, words: &[u64], caller: u32) -> RawReply
    requires instrs { plot.now.instrs ≡ MOST_INSTRS }
    requires size { length words.now ≡ data_cell_count plot.now }
    requires caller { caller < plot.now.callers }
    ensures { result ≡ reply_in MOST_INSTRS (number_in words.now) caller }
{
    let mut values = [0; MOST_INSTRS];
    for place in 0..MOST_INSTRS {
        values[place] = number(words, plot.reply(caller, place as u32));
    }
    RawReply {
        shape: number(words, plot.shape(caller)),
        values,
    }
}
