//! Whether an image is where a report ends.

ghost use Rattle.std.specs.Prelude.{◌≡◌, ◌↔◌, ◌<◌, ℕ, IsTrue, length, take, filter, map, ◌==◌, IfSome, MatchOption, None};
ghost use Rattle.std.specs.BTreeMap.{IsOrdered};
ghost use Rattle.std.specs.Ordering.{nat_cmp};
ghost use Rattle.of_script.specs.declared.instr.TheConstants.{MOST_INSTRS};
ghost use Rattle.of_store.specs.Replies.{reply_value_of};
ghost use Rattle.of_plan.specs.Report.{Start as PlainStart};
ghost use Rattle.of_report.specs.Report.{entry_value, report_value};
ghost use Rattle.of_report.specs.Image.{IsImage};
ghost use Rattle.of_check.specs.Ends.{last_announced, entry_in, ticket_after, CellsHoldReply, HoldsLastCall, EndsAt, BreaksCalls, BreaksLeft};

use of_eval::reply_of;
use of_plan::Plan;
use of_report::{Entry, Image, Report};
use of_script::{QUEUES, Reply};
use of_store::Store;
use std::collections::BTreeMap;

/// The rule that an image breaks if it isn't the image at which a report ends. The rules are tried
/// in this order, and the first that the image breaks is named; tickets and replies are tried
/// caller by caller.
#[derive(Clone, Copy, Debug, PartialEq, Eq)]
pub enum LeftRule {
    /// The image has another number of callers than the plan.
    Callers,
    /// The image has another number of blocks than the plan.
    Blocks,
    /// The image's sequence is not the report's.
    Sequence,
    /// The caller has another ticket in the image than in its last announced entry. If the report
    /// has no announced entry of the caller, the image must have its ticket at the start.
    Ticket { caller: u32 },
    /// The caller's own cells in the image have another reply than the caller's last announced
    /// entry.
    Reply { caller: u32 },
    /// The image's store is not the report's.
    Store,
}

// The last announced entry of a caller.
fn last_announced(entries: &[Entry], caller: u32) -> Option<Entry>
    ensures { entry_in result ≡ last_announced None
        (filter (λ e. e.caller == caller) (map entry_value entries.now)) }
{
    let mut last = None;
    for entry in entries {
        if entry.caller == caller && entry.announced {
            last = Some(*entry);
        }
    }
    last
}

// The ticket after this last call, if `before` calls were made before.
fn ticket_after(before: u32, last: Option<Entry>) -> u64
    ensures { result ≡ ticket_after before (entry_in last) }
{
    match last {
        Some(entry) => u64::from(entry.index) + 1,
        None => u64::from(before),
    }
}

// The values of a reply that no abort has taken back.
fn values(reply: &Reply) -> &[Option<u32>]
    ensures { result.now ≡ take reply.now.len reply.now.values }
{
    let values = reply.values.as_slice();
    &values[..values.len().min(reply.len as usize)]
}

// Whether two replies say the same.
fn same_reply(one: &Reply, other: &Reply) -> bool
    ensures { IsTrue result ↔ (reply_value_of one.now ≡ reply_value_of other.now) }
{
    match (one.abort, other.abort) {
        (None, None) => values(one) == values(other),
        (Some(first), Some(second)) => first.place == second.place && first.cause == second.cause,
        _ => false,
    }
}

// Whether a caller's own cells hold a reply.
fn holds_reply(image: &Image, caller: u32, reply: &Reply) -> bool
    requires image { IsImage MOST_INSTRS image.now }
    requires caller { caller < image.now.row.callers }
    ensures { IsTrue result ↔ CellsHoldReply image.now caller (reply_value_of reply.now) }
{
    match reply_of(&image.reply(caller)) {
        Some(held) => same_reply(&held, reply),
        None => false,
    }
}

// Whether a caller's own cells hold the reply of its last announced entry, if it has one.
fn holds_last(image: &Image, caller: u32, last: Option<Entry>) -> bool
    requires image { IsImage MOST_INSTRS image.now }
    requires caller { caller < image.now.row.callers }
    ensures { IsTrue result
        ↔ IfSome (entry_in last) (λ e. CellsHoldReply image.now caller e.reply) }
{
    match last {
        Some(entry) => holds_reply(image, caller, &entry.reply),
        None => true,
    }
}

// The keys of a map stand in their order.
fn in_order(map: &BTreeMap<u32, u32>)
    ensures { IsOrdered nat_cmp map.now }
{
    let _ = map.iter();
}

// Whether two stores are the same.
fn same_store(one: &Store, other: &Store) -> bool
    ensures { IsTrue result ↔ (one.now ≡ other.now) }
{
    if one.room() != other.room() {
        return false;
    }
    if one.registers() != other.registers() {
        return false;
    }
    let (keys, others) = (one.map(), other.map());
    in_order(keys);
    in_order(others);
    if keys != others {
        return false;
    }
    for queue in 0..QUEUES as u32 {
        if one.queue(queue) != other.queue(queue) {
            return false;
        }
    }
    true
}

// The first caller whose own cells don't hold the ticket and the reply of its last announced entry,
// and which of the two is wrong; None if there is no such caller.
fn wrong_call(plan: &Plan, done: &[u32], report: &Report, image: &Image) -> Option<LeftRule>
    requires done { length done.now ≡ plan.now.callers }
    requires image { IsImage MOST_INSTRS image.now }
    requires callers { image.now.row.callers ≡ plan.now.callers }
    ensures { (s : PlainStart) → s.finished ≡ done.now → MatchOption result
        ((c : ℕ) → c < plan.now.callers
        → HoldsLastCall s (report_value report.now) image.now c)
        (BreaksCalls plan.now s (report_value report.now) image.now) }
{
    for caller in 0..plan.callers() {
        let last = last_announced(&report.entries, caller);
        if u64::from(image.ticket(caller)) != ticket_after(done[caller as usize], last) {
            return Some(LeftRule::Ticket { caller });
        }
        if !holds_last(image, caller, last) {
            return Some(LeftRule::Reply { caller });
        }
    }
    None
}

/// Why a report doesn't end at an image: the first rule that the image breaks. None means that the
/// report ends at this image. `done` says how many scripts of each caller were done at the report's
/// start.
pub fn why_left(plan: &Plan, done: &[u32], report: &Report, image: &Image) -> Option<LeftRule>
    requires done { length done.now ≡ plan.now.callers }
    requires image { IsImage MOST_INSTRS image.now }
    ensures { (s : PlainStart) → s.finished ≡ done.now → MatchOption result
        (EndsAt plan.now s (report_value report.now) image.now)
        (BreaksLeft plan.now s (report_value report.now) image.now) }
{
    if image.callers != plan.callers() {
        return Some(LeftRule::Callers);
    }
    if image.blocks != plan.blocks() {
        return Some(LeftRule::Blocks);
    }
    if image.recovered.seq != report.seq {
        return Some(LeftRule::Sequence);
    }
    match wrong_call(plan, done, report, image) {
        Some(rule) => Some(rule),
        None => {
            if same_store(&image.store, &report.store) {
                return None;
            }
            Some(LeftRule::Store)
        }
    }
}
