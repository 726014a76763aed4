//! A member that leaves through a door, and comes in again in another thread.

ghost use Rattle.std.specs.Prelude.{◌≡◌, IfOk, IfSome};
ghost use Rattle.of_row.specs.Rows.{HasNoCall, IsRowMember, IsRowPass, KeepsNobody};
ghost use Rattle.of_row.specs.Rows.{number_of_member};
ghost use Rattle.of_door.specs.Doors.{row_of_door, number_of_door, IsHandOf};

use of_caller::Caller;
use of_door::{Door, Hand};
use of_eval::{Scripts, shape_of};
use of_row::laws::members;
use of_row::{Member, Pass, Row};
use std::alloc::{AllocError, Global};
use std::thread::{Threads, join};

const ONE_CALLER: Scripts = Scripts {
    callers: 1,
    blocks: 0,
};

/// The last sequence that may be committed.
const LIMIT: u32 = 10;

/// A row of zeros with its one member.
fn enrolled(alloc: Global) -> Result<(Row<Scripts>, Member), AllocError>
    ensures member { IfOk result (λ r. IsRowMember r.0 r.1) }
    ensures number { IfOk result (λ r. number_of_member r.1 ≡ 0) }
    ensures idle { IfOk result (λ r. HasNoCall r.1) }
{
    members(ONE_CALLER);
    let (row, pass) = Row::new(alloc, shape_of(ONE_CALLER), LIMIT, ONE_CALLER)?;
    match row.enrol(pass, 0) {
        Ok((member, _)) => Ok((row, member)),
        Err(_) => Err(AllocError),
    }
}

/// The member leaves: the pass that knows what it had seen, unless somebody stands in the door.
fn leave(row: &Row<Scripts>, door: &Door<Scripts>, hand: &mut Hand, member: Member) -> Option<Pass>
    requires row { row_of_door door.now ≡ row.now }
    requires hand { IsHandOf door.now hand.old }
    requires member { IsRowMember row.now member }
    requires number { number_of_member member ≡ number_of_door door.now }
    requires idle { HasNoCall member }
    ensures pass { IfSome result (IsRowPass row.now) }
    ensures nobody { IfSome result KeepsNobody }
{
    match door.leave(row, hand, member) {
        Ok(pass) => Some(pass),
        Err(_) => None,
    }
}

/// Somebody comes with a pass: the newcomer's caller, and how many calls it had begun.
fn come(
    alloc: Global,
    row: &Row<Scripts>,
    door: &Door<Scripts>,
    hand: &mut Hand,
    pass: Pass,
) -> Option<(Caller<Scripts>, u32)>
    requires row { row_of_door door.now ≡ row.now }
    requires hand { IsHandOf door.now hand.old }
    requires pass { IsRowPass row.now pass }
    requires nobody { KeepsNobody pass }
{
    let Ok(member) = door.come(row, hand, pass) else {
        return None;
    };
    let made = member.made();
    match Caller::new(alloc, row, member) {
        Ok(caller) => Some((caller, made)),
        Err(_) => None,
    }
}

/// How many calls a newcomer's caller had begun.
fn newcomer(
    alloc: Global,
    row: &Row<Scripts>,
    door: &Door<Scripts>,
    mut hand: Hand,
    pass: Pass,
) -> Option<u32>
    requires row { row_of_door door.now ≡ row.now }
    requires hand { IsHandOf door.now hand }
    requires pass { IsRowPass row.now pass }
    requires nobody { KeepsNobody pass }
{
    match come(alloc, row, door, &mut hand, pass) {
        Some((_caller, made)) => Some(made),
        None => None,
    }
}

/// The member leaves, and comes in again in another thread: how many calls it had begun.
fn go_through<R: Threads + Sync>(
    rt: &R,
    alloc: Global,
    row: &Row<Scripts>,
    door: &Door<Scripts>,
    mut hand: Hand,
    member: Member,
) -> Option<u32>
    requires row { row_of_door door.now ≡ row.now }
    requires hand { IsHandOf door.now hand }
    requires member { IsRowMember row.now member }
    requires number { number_of_member member ≡ number_of_door door.now }
    requires idle { HasNoCall member }
{
    let theirs = door.split(&mut hand);
    let pass = leave(row, door, &mut hand, member)?;
    let (_, made) = join(
        rt,
        || -> u32 { row.limit() },
        || -> Option<u32>
            requires row { row_of_door door.now ≡ row.now }
            requires hand { IsHandOf door.now theirs }
            requires pass { IsRowPass row.now pass }
            requires nobody { KeepsNobody pass }
        { newcomer(alloc, row, door, theirs, pass) },
    );
    made
}

#[test]
fn a_member_goes_through_a_door(rt: HostRuntime) -> Result<(), AllocError> {
    let alloc = rt.alloc();
    let (row, member) = enrolled(alloc)?;
    let (door, hand) = Door::new(alloc, &row, 0)?;
    assert_eq!(rt; go_through(&rt, alloc, &row, &door, hand, member), Some(0));
    Ok(())
}
