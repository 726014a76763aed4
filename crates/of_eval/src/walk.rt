//! The words of an operation in order.

ghost use Rattle.std.specs.Prelude.{◌-◌, ◌≡◌, ◌≤◌, ◌<◌, [], length, None};
ghost use Rattle.std.specs.Prelude.{IfErr, IfOk, MatchResult, OnErr, OnOk};
ghost use Rattle.of_mem.specs.Meaning.{Gives};
ghost use Rattle.of_mem.specs.Part.{Part};
ghost use Rattle.of_mem.specs.Plots.{base};
ghost use Rattle.of_mem.specs.ProgramWork.{walk_of_run};
ghost use Rattle.of_mem.specs.Programs.{NeedsAt, run_program};
ghost use Rattle.of_mem.specs.SuspendedRun.{IsSuspensionOf};
ghost use Rattle.of_mem.specs.declared.work.TheConstants.{MOST_INSTRS};
ghost use Rattle.of_mem.specs.Calls.{RunsProgram};
ghost use Rattle.of_eval.specs.Calls.{script, in_cells};
ghost use Rattle.of_eval.specs.Resuming.{HoldsScript, MayResume};
ghost use Rattle.of_eval.specs.Scripts.{is_success};
ghost use Rattle.of_eval.specs.Stored.{HasState};
ghost use Rattle.of_eval.specs.Words.{IsOperation};

use crate::reply::{abort_in_cells, answers_in_cells};
use crate::step::{run_word, word_seeks};
use of_mem::{Need, Part, Plot, RawReply, SuspendedRun};

/// If `kept` keeps an operation with these words, goes back to where it stopped. Otherwise makes
/// `kept` begin this operation.
pub(crate) fn resume(plot: &Plot, part: &mut Part, kept: &mut SuspendedRun, op: &[u64])
    requires instrs { plot.now.instrs ≡ MOST_INSTRS }
    requires words { IsOperation op.now }
    requires holds { HoldsScript kept.old part.old }
    requires room { kept.old.room ≡ length part.old.known }
    ensures of { IsSuspensionOf kept.new plot.now.callers plot.now.blocks op.now }
    ensures goes { MayResume (base plot.now) plot.now.blocks kept.new part.old }
    ensures part { part.new ≡ record part.old { script = kept.new.writes } }
    ensures room { kept.new.room ≡ kept.old.room }
{
    if !kept.is_of(plot.callers, plot.blocks, op) {
        kept.begin(plot.callers, plot.blocks, op);
    }
    kept.restore(part);
}

/// Walks towards the key for which the next word looks first, if `kept` has one. An error names a
/// cell that must be read and is not known. So a run that stops for each cell of a bucket repeats
/// only the walk.
pub(crate) fn reach(plot: &Plot, part: &mut Part, kept: &SuspendedRun) -> Result<(), Need>
    requires stands { HasState plot.now (record part.old { script = [] }) }
    requires goes { MayResume (base plot.now) plot.now.blocks kept.now
        (record part.old { script = [] }) }
    requires written { part.old.script ≡ kept.now.writes }
    requires few { length kept.now.words ≤ MOST_INSTRS }
    ensures part { part.new ≡ part.old }
    ensures needs { MatchResult result (λ _. Unit {0})
        (λ need. NeedsAt (script plot.now kept.now.words) (record part.old { script = [] })
        need.addr) }
{
    match kept.sought() {
        None => Ok(()),
        Some(key) => of_map::reach(plot, part, key),
    }
}

/// Runs the words that have not run yet. Ok leaves their writes as the script's, none after an
/// abort, and the reply in `out`. An error names the cell that the run needs next; then the script
/// has no writes and `out` is as before.
// out of line, so that a run that lacks a cell in `reach` doesn't clear the frame of one that ends
#[inline(never)]
pub(crate) fn run_to_reply(
    plot: &Plot,
    part: &mut Part,
    kept: &mut SuspendedRun,
    op: &[u64],
    out: &mut RawReply,
) -> Result<(), Need>
    requires stands { HasState plot.now (record part.old { script = [] }) }
    requires instrs { plot.now.instrs ≡ MOST_INSTRS }
    requires words { IsOperation op.now }
    requires of { IsSuspensionOf kept.old plot.now.callers plot.now.blocks op.now }
    requires goes { MayResume (base plot.now) plot.now.blocks kept.old
        (record part.old { script = [] }) }
    requires written { part.old.script ≡ kept.old.writes }
    requires room { kept.old.room ≡ length part.old.known }
    ensures part { part.new ≡ record part.old { script = part.new.script } }
    ensures ends { OnOk result (walk_of_run is_success
        (run_program (script plot.now op.now) (record part.old { script = [] }))
        ≡ Gives part.new.script out.new) }
    ensures needs { IfErr result (λ need. NeedsAt (script plot.now op.now)
        (record part.old { script = [] }) need.addr) }
    ensures undone { OnErr result (part.new.script ≡ []) }
    ensures out { OnErr result (out.new ≡ out.old) }
    ensures holds { HoldsScript kept.new (record part.old { script = [] }) }
    ensures room { kept.new.room ≡ kept.old.room }
{
    match run_words(plot, part, kept, op, out) {
        Ok(ended) => {
            if !ended {
                part.undo();
            }
            Ok(())
        }
        Err(need) => {
            keep_sought(kept, op);
            part.undo();
            Err(need)
        }
    }
}

/// Runs the words that have not run yet, in order, to the last one or to the first abort. Ok leaves
/// the reply in `out`, and says whether no word aborted. An error names a cell that must be read
/// and is not known; then `out` is as before.
fn run_words(
    plot: &Plot,
    part: &mut Part,
    kept: &mut SuspendedRun,
    op: &[u64],
    out: &mut RawReply,
) -> Result<bool, Need>
    requires stands { HasState plot.now (record part.old { script = [] }) }
    requires instrs { plot.now.instrs ≡ MOST_INSTRS }
    requires words { IsOperation op.now }
    requires of { IsSuspensionOf kept.old plot.now.callers plot.now.blocks op.now }
    requires goes { MayResume (base plot.now) plot.now.blocks kept.old
        (record part.old { script = [] }) }
    requires written { part.old.script ≡ kept.old.writes }
    requires room { kept.old.room ≡ length part.old.known }
    ensures runs { RunsProgram (script plot.now op.now) (record part.old { script = [] }) part.new
        (in_cells out.new result) }
    ensures ended { IfOk result (λ ended. is_success out.new ≡ ended) }
    ensures out { OnErr result (out.new ≡ out.old) }
    ensures of { IsSuspensionOf kept.new plot.now.callers plot.now.blocks op.now }
    ensures holds { HoldsScript kept.new (record part.old { script = [] }) }
    ensures room { kept.new.room ≡ kept.old.room }
{
    let last = op.len() - 1;
    for i in kept.done()..op.len() {
        match run_word(plot, part, op[i])? {
            Err(cause) => {
                abort_in_cells(op.len(), i, cause, out);
                return Ok(false);
            }
            // no word comes after the last one, so what it answers and writes need not be kept
            Ok(value) if i == last => {
                answers_in_cells(kept, value, out);
                return Ok(true);
            }
            Ok(value) => kept.advance(value, part),
        }
    }
    // the last word ends the run
    unreachable!()
}

/// Keeps the key for which the next of these words looks first, if it looks for a key first.
fn keep_sought(kept: &mut SuspendedRun, op: &[u64])
    requires { kept.old.words ≡ op.now }
    ensures holds { (p : Part) → HoldsScript kept.old p → HoldsScript kept.new p }
    ensures room { kept.new.room ≡ kept.old.room }
{
    let next = kept.done();
    if next < op.len() {
        kept.seek(word_seeks(op[next]));
    }
}
