//! Filling a log and what lies over the known cells.

ghost use Rattle.std.specs.Prelude.{◌≡◌, ◌<◌, ◌≤◌, ◌+◌, ◌-◌, ◌%◌, length, ℕ, List, [], IfSome, vec_capacity};
ghost use Rattle.std.specs.List.{All};
ghost use Rattle.std.proofs.Common.{take, drop};
ghost use Rattle.of_cell.specs.declared.shape.TheConstants.{MOST_DATA_CELLS};
ghost use Rattle.of_mem.specs.declared.work.TheConstants.{MOST_INSTRS};
ghost use Rattle.of_mem.specs.CellMap.{put_all};
ghost use Rattle.of_mem.specs.Part.{keep};
ghost use Rattle.of_core.specs.Machine.{log_of, log_words, own_cells, reply_cell_pairs, entries_going_round};
ghost use Rattle.of_core.specs.Steps.{first_marked_place};

use of_mem::{LEAST_ABORT, MOST_INSTRS, MaySuspend, RawReply, Workspace, WriteSet};

/// Moves what the script wrote to the log, and to the writes of the batch over the known cells.
pub fn hand_to_log<W: MaySuspend>(part: &mut Workspace<W>, log: &mut WriteSet)
    requires { length part.old.known ≡ log.old.room }
    ensures log { log.new ≡ record log.old { entries = put_all log.old.entries part.old.script } }
    ensures part { part.new ≡ keep part.old }
{
    let written = part.part();
    for i in 0..written.pending_len() {
        let (addr, value) = written.pending(i);
        log.put(addr, value);
    }
    part.keep();
}

/// Lets a script that has written nothing write these.
pub fn put_writes<W: MaySuspend>(part: &mut Workspace<W>, writes: &WriteSet)
    requires room { writes.now.room ≡ length part.old.known }
    requires empty { part.old.script ≡ [] }
    ensures { part.new ≡ record part.old { script = writes.now.entries } }
{
    for i in 0..writes.len() {
        let (addr, value) = writes.entry(i);
        part.write(addr, value);
    }
}

/// Writes the reply cells of the caller whose ticket cell is `row`.
fn put_reply<W: MaySuspend>(part: &mut Workspace<W>, row: u32, count: u32, raw: &RawReply)
    requires room { row + 2 + MOST_INSTRS ≤ length part.old.known }
    requires small { length part.old.known ≤ MOST_DATA_CELLS }
    requires count { count ≤ MOST_INSTRS }
    ensures script { part.new.script
        ≡ put_all part.old.script (reply_cell_pairs row count raw.now) }
    ensures known { part.new.known ≡ part.old.known }
    ensures batch { part.new.batch ≡ part.old.batch }
{
    if raw.shape >= LEAST_ABORT {
        return;
    }
    for j in 0..count {
        part.write(row + 2 + j, raw.values[j as usize]);
    }
}

/// Writes the own cells of the caller whose ticket cell is `row`: the reply's numbers, its shape
/// and the ticket.
pub fn put_own<W: MaySuspend>(
    part: &mut Workspace<W>,
    row: u32,
    ticket: u32,
    count: u32,
    raw: &RawReply,
)
    requires room { row + 2 + MOST_INSTRS ≤ length part.old.known }
    requires small { length part.old.known ≤ MOST_DATA_CELLS }
    requires count { count ≤ MOST_INSTRS }
    ensures script { part.new.script
        ≡ put_all part.old.script (own_cells row ticket count raw.now) }
    ensures known { part.new.known ≡ part.old.known }
    ensures batch { part.new.batch ≡ part.old.batch }
{
    put_reply(part, row, count, raw);
    part.write(row + 1, raw.shape);
    part.write(row, ticket);
}

/// Writes to `log` the entries `from` up to `to` (without `to`) of a copy of log words.
fn put_entries(log: &mut WriteSet, copy: &[u32], from: u32, to: u32)
    requires entries { (es : List (ℕ × ℕ)) × (copy.now ≡ log_words es)
        × All (λ (e : ℕ × ℕ). e.0 < log.old.room) es × (to ≤ length es) }
    requires order { from ≤ to }
    ensures { log.new ≡ record log.old {
      entries = put_all log.old.entries (drop from (take to (log_of copy.now)));
    } }
{
    for j in from..to {
        let at = 2 * j as usize + 1;
        log.put(copy[at], copy[at + 1]);
    }
}

/// Writes all entries of a copy of log words to `log`, from an entry on that depends on the number
/// `helper`, and then from the first: different helpers begin at different entries.
pub fn put_copy(log: &mut WriteSet, copy: &[u32], helper: u32)
    requires { (es : List (ℕ × ℕ)) × (copy.now ≡ log_words es)
        × All (λ (e : ℕ × ℕ). e.0 < log.old.room) es }
    ensures { let es = log_of copy.now in log.new ≡ record log.old {
      entries = put_all log.old.entries (entries_going_round (helper % length es) es);
    } }
{
    let count = copy[0];
    if count > 0 {
        let begin = helper % count;
        put_entries(log, copy, begin, count);
        put_entries(log, copy, 0, begin);
    }
}

/// Of the `many` numbers of a reply from number `from` on, the first that the reply's shape marks;
/// None if the shape marks none of them.
#[tactic(auto, unfolding(of_mem::specs::Meaning::is_marked))]
pub fn first_mark(shape: u32, from: u32, many: u32) -> Option<u32>
    requires { from + many ≤ MOST_INSTRS }
    ensures mark { result ≡ first_marked_place shape from many }
    ensures below { IfSome result (λ j. j < MOST_INSTRS) }
{
    for j in from..from + many {
        if (shape >> j) % 2 == 1 {
            return Some(j);
        }
    }
    None
}

/// Replaces what `list` holds by these words, for which `list` has room.
pub fn set_words(list: &mut Vec<u64>, words: &[u64])
    requires { length words.now ≤ vec_capacity list.old }
    ensures words { list.new.items ≡ words.now }
    ensures room { vec_capacity list.new ≡ vec_capacity list.old }
{
    list.clear();
    for i in 0..words.len() {
        list.push_reserved(words[i]);
    }
}

/// A script's words, followed by zeros up to the most words that a script may have.
pub fn padded_words(script: &[u64]) -> [u64; MOST_INSTRS]
    requires { length script.now ≤ MOST_INSTRS }
    ensures { take (length script.now) result ≡ script.now }
{
    let mut words = [0; MOST_INSTRS];
    words[..script.len()].copy_from_slice(script);
    words
}
