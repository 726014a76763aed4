//! Operations that may write, on cells that they ask for.

ghost use Rattle.std.specs.Prelude.{◌≡◌, IfOk, OnErr, not};
ghost use Rattle.of_mem.specs.OnDemand.{MayRun, RunsOn};
ghost use Rattle.of_eval.specs.Calls.{script, in_cells};
ghost use Rattle.of_eval.specs.Scripts.{is_success};
ghost use Rattle.of_eval.specs.Stored.{HasState};
ghost use Rattle.of_eval.specs.Words.{IsOperation};

use crate::reply::abort_in_cells;
use crate::step::run_word;
use of_mem::{Cells, MOST_INSTRS, Need, Plot, RawReply};

/// Runs words in order, to the last one or to the first abort. Ok leaves the reply in `out`, and
/// says whether a word aborted; if one did, the script's writes are still to be undone. An error
/// names a cell that must be read and is not known; then `out` is as before.
pub(crate) fn write_words<C: Cells>(
    plot: &Plot,
    cells: &mut C,
    op: &[u64],
    out: &mut RawReply,
) -> Result<bool, Need>
    requires may { MayRun (script plot.now op.now) (HasState plot.now) (C.run cells.old) }
    requires words { IsOperation op.now }
    ensures runs { RunsOn (script plot.now op.now) (C.run cells.old) (C.run cells.new)
        (in_cells out.new result) }
    ensures aborted { IfOk result (λ aborted. is_success out.new ≡ not aborted) }
    ensures out { OnErr result (out.new ≡ out.old) }
{
    // as in `read_words`, the reply is written where it stays
    let before = *out;
    *out = RawReply {
        shape: op.len() as u32 * (1 << 16),
        values: [0; MOST_INSTRS],
    };
    for i in 0..op.len() {
        let answer = match run_word(plot, cells, op[i]) {
            Ok(Ok(answer)) => answer,
            Ok(Err(cause)) => {
                abort_in_cells(op.len(), i, cause, out);
                return Ok(true);
            }
            Err(need) => {
                *out = before;
                return Err(need);
            }
        };
        if let Some(value) = answer {
            out.shape += 1 << i;
            out.values[i] = value;
        }
    }
    Ok(false)
}
