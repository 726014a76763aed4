//! Operations that only read, on cells that they ask for.

ghost use Rattle.std.specs.Prelude.{◌≡◌, OnErr, true};
ghost use Rattle.of_mem.specs.Calls.{HasStore};
ghost use Rattle.of_mem.specs.OnDemand.{MayRun, RunsOn, HasOnlyRead};
ghost use Rattle.of_eval.specs.Calls.{script, in_cells};
ghost use Rattle.of_eval.specs.Scripts.{words_read};
ghost use Rattle.of_eval.specs.Words.{IsOperation};

use crate::reply::abort_in_cells;
use crate::step::read_word;
use of_mem::{Cells, MOST_INSTRS, Need, Plot, RawReply};

/// Runs words that leave every store as it is, in order, to the last one or to the first abort. Ok
/// leaves the reply in `out`. An error names a cell that must be read and is not known; then `out`
/// is as before.
pub(crate) fn read_words<C: Cells>(
    plot: &Plot,
    cells: &mut C,
    op: &[u64],
    out: &mut RawReply,
) -> Result<(), Need>
    requires may { MayRun (script plot.now op.now) (HasStore plot.now) (C.run cells.old) }
    requires words { IsOperation op.now }
    requires reads { words_read op.now ≡ true }
    ensures part { HasOnlyRead (C.run cells.old).part (C.run cells.new).part }
    ensures runs { RunsOn (script plot.now op.now) (C.run cells.old) (C.run cells.new)
        (in_cells out.new result) }
    ensures out { OnErr result (out.new ≡ out.old) }
{
    // the reply is written where it stays: a copy of what was just written would have to wait
    let before = *out;
    *out = RawReply {
        shape: op.len() as u32 * (1 << 16),
        values: [0; MOST_INSTRS],
    };
    for i in 0..op.len() {
        let answer = match read_word(plot, cells, op[i]) {
            Ok(Ok(answer)) => answer,
            Ok(Err(cause)) => {
                abort_in_cells(op.len(), i, cause, out);
                return Ok(());
            }
            Err(need) => {
                *out = before;
                return Err(need);
            }
        };
        if let Some(value) = answer {
            out.shape += 1 << i;
            out.values[i] = value;
        }
    }
    Ok(())
}
