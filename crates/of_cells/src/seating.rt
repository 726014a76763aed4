//! The callers of a memory: seated when it is opened, and gathered when it is closed.

ghost use Rattle.std.specs.Prelude.{◌≡◌, ◌+◌, ◌<◌, ◌↔◌, ℕ, IfOk, IsTrue, Some, None, length};
ghost use Rattle.std.specs.Prelude.{slice_index_or, slice_set};
ghost use Rattle.of_row.specs.Rows.{key_of, view_of_pass, IsRowPass, IsFirstPass};
ghost use Rattle.of_row.specs.Passes.{IsFirst};
ghost use Rattle.of_caller.specs.declared.caller.Caller.{Caller as TheCaller};
ghost use Rattle.of_cells.specs.Serving.{KeepsSo, IsNew, Serves, ServeAll, Enrols, AllStand};
ghost use Rattle.of_cells.specs.Serving.{AllHere, IsKeptOf, KeepsThose, KnowsPasts};
ghost use Rattle.of_cells.specs.Serving.{events_known_to};
ghost use mathlib.Core.List.{IsPrefix};

use of_caller::Caller;
use of_mem::Work;
use of_row::laws::members;
use of_row::{Pass, Row};
use std::alloc::{AllocError, Global};

// Gives a number to a new caller, none below which was asked for.
fn seat_one<W: Work>(
    alloc: Global,
    row: &Row<W>,
    pass: Pass,
    number: u32,
) -> Result<(Caller<W>, Pass), AllocError>
    requires pass { Enrols row.now number pass }
    requires number { number < (key_of row.now).callers }
    ensures caller { IfOk result (λ r. IsNew W.meaning row.now number r.0) }
    ensures pass { IfOk result (λ r. Enrols row.now (number + 1) r.1) }
{
    members(row.work());
    let Ok((member, pass)) = row.enrol(pass, number) else {
        unreachable!()
    };
    match Caller::new(alloc, row, member) {
        Ok(caller) => Ok((caller, pass)),
        Err((_member, error)) => Err(error),
    }
}

/// Seats a caller of each number. The error is that memory ran out.
pub(crate) fn seat_all<W: Work>(
    alloc: Global,
    row: &Row<W>,
    mut pass: Pass,
) -> Result<(Vec<Option<Caller<W>>>, Pass), AllocError>
    requires { IsFirst row.now pass }
    ensures pass { IfOk result (λ r. IsRowPass row.now r.1) }
    ensures first { IfOk result (λ r. IsFirstPass r.1) }
    ensures each { IfOk result (λ r. length r.0.items ≡ (key_of row.now).callers) }
    ensures new { IfOk result (λ r.
        AllStand (IsNew W.meaning row.now) (key_of row.now).callers r.0.items) }
{
    let count = row.shape().callers;
    let mut callers = Vec::new(alloc);
    for number in 0..count {
        let (caller, next) = seat_one(alloc, row, pass, number)?;
        callers.push(Some(caller))?;
        pass = next;
    }
    Ok((callers, pass))
}

/// Takes the caller with this index out of the list.
pub(crate) fn take_at<W: Work>(callers: &mut Vec<Option<Caller<W>>>, at: usize) -> Option<Caller<W>>
    requires { at < length callers.old.items }
    ensures caller { result ≡ slice_index_or callers.old.items at None }
    ensures items { callers.new.items ≡ slice_set callers.old.items at None }
{
    callers[at].take()
}

/// Puts a caller into the list at this index.
pub(crate) fn put_at<W: Work>(callers: &mut Vec<Option<Caller<W>>>, at: usize, caller: Caller<W>)
    requires { at < length callers.old.items }
    ensures { callers.new.items ≡ slice_set callers.old.items at (Some caller) }
{
    callers[at] = Some(caller);
}

/// Whether each caller is in the list, and no handle is out.
pub(crate) fn all_here<W: Work>(callers: &[Option<Caller<W>>]) -> bool
    ensures { IsTrue result ↔ AllHere callers.now (length callers.now) }
{
    for i in 0..callers.len() {
        if callers[i].is_none() {
            return false;
        }
    }
    true
}

// Hands all that a caller has made to the pass, which keeps it.
fn gather_one<W: Work>(row: &Row<W>, pass: Pass, number: usize, caller: Caller<W>) -> Pass
    requires pass { IsRowPass row.now pass }
    requires first { IsFirstPass pass }
    requires serves { Serves W.meaning row.now number caller }
    ensures pass { IsRowPass row.now result }
    ensures first { IsFirstPass result }
    ensures own { KeepsSo number (IsKeptOf caller) (view_of_pass result).kept }
    ensures others { (n : ℕ) (c : TheCaller W)
        → KeepsSo n (IsKeptOf c) (view_of_pass pass).kept
        → KeepsSo n (IsKeptOf c) (view_of_pass result).kept }
    ensures past { IsPrefix (events_known_to caller) (view_of_pass result).past }
    ensures more { IsPrefix (view_of_pass pass).past (view_of_pass result).past }
{
    row.join(pass, caller.leave())
}

/// Hands the callers with their calls to the pass, which keeps them.
pub(crate) fn gather<W: Work>(
    row: &Row<W>,
    mut pass: Pass,
    callers: &mut Vec<Option<Caller<W>>>,
) -> Pass
    requires pass { IsRowPass row.now pass }
    requires first { IsFirstPass pass }
    requires serve { ServeAll W.meaning row.now callers.old.items }
    ensures pass { IsRowPass row.now result }
    ensures first { IsFirstPass result }
    ensures keeps { KeepsThose callers.old.items (length callers.old.items)
        (view_of_pass result).kept }
    ensures pasts { KnowsPasts callers.old.items (length callers.old.items)
        (view_of_pass result).past }
{
    for number in 0..callers.len() {
        if let Some(caller) = take_at(callers, number) {
            pass = gather_one(row, pass, number, caller);
        }
    }
    pass
}
