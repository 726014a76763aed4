//! `run` under brakes of every kind: pairs of which one waits for the other, and brakes that deny
//! an ask by its number.

ghost use Rattle.std.specs.Prelude.{◌≤◌};

use crate::top::{answer, fill};
use of_brake::{Brake, Pattern, hold_pair};
use of_io::{MemSink, MemSource};
use of_plan::Ending;
use of_tool::status;
use std::alloc::{AllocError, Global};
use std::process::Abort;
use std::test::Fail;
use std::thread::Threads;

/// How often a holder looks for its teller's flag at most.
const TURNS: u64 = 1_000_000_000;

/// Two callers of which one stores and the other adds.
const TWO: &str =
    "onefile plan 1\ncallers 2\nblocks 0\nscript 0 store 3 7\nscript 1 add 3 1\nend\n";

/// Sixteen callers that add 1 to register 0, and two evictions.
const WIDE: &str = "onefile plan 1
callers 16
blocks 0
script 0 add 0 1
script 1 add 0 1
script 2 add 0 1
script 3 add 0 1
script 4 add 0 1
script 5 add 0 1
script 6 add 0 1
script 7 add 0 1
script 8 add 0 1
script 9 add 0 1
script 10 add 0 1
script 11 add 0 1
script 12 add 0 1
script 13 add 0 1
script 14 add 0 1
script 15 add 0 1
evict 0
evict 17
end
";

/// Which asks are denied to callers 0 and 1, counted from 0, and how the two then end.
const DENIED: [(&str, [&[u64]; 2], [Ending; 2]); 5] = [
    ("none", [&[], &[]], [Ending::Done, Ending::Done]),
    (
        "the third ask of caller 0",
        [&[2], &[]],
        [Ending::Stopped { asked: 3 }, Ending::Done],
    ),
    (
        "the third ask of caller 1",
        [&[], &[2]],
        [Ending::Done, Ending::Stopped { asked: 3 }],
    ),
    (
        "the first ask of both",
        [&[0], &[0]],
        [Ending::Stopped { asked: 1 }, Ending::Stopped { asked: 1 }],
    ),
    (
        "several asks of caller 0",
        [&[7, 4, 9], &[]],
        [Ending::Stopped { asked: 5 }, Ending::Done],
    ),
];

/// The most that is written.
const ROOM: usize = 100_000;

/// How the callers of a plan end that `run` runs under these brakes.
fn endings<R: Abort + Threads + Sync + AllocGlobal>(
    rt: &R,
    plan: &str,
    brakes: Vec<Box<dyn Brake + Send>>,
) -> Result<Vec<Ending>, Fail> {
    let alloc = rt.alloc();
    let input = Vec::from_slice(alloc, plan.as_bytes())?;
    let mut source = MemSource::new(input, usize::MAX, Vec::new(alloc));
    let mut sink = MemSink::new(alloc, ROOM, usize::MAX, Vec::new(alloc))?;
    let (status, ran) = answer(rt, &["run"], &mut source, &mut sink, brakes)?;
    assert_eq!(rt; status, status::DONE);
    match ran {
        Some((ended, _pass)) => Ok(ended.endings),
        None => panic!(rt; "the plan was not run"),
    }
}

/// The brakes of so many pairs of callers, the first with the last, and so on inwards: of each pair
/// one is held at its ask `at` until the other's call is answered, the first one, or the second
/// if they are exchanged.
fn pairs(
    alloc: Global,
    pairs: u32,
    at: u64,
    exchanged: bool,
) -> Result<Vec<Box<dyn Brake + Send>>, AllocError>
    requires at { 1 ≤ at }
{
    let mut brakes: Vec<Box<dyn Brake + Send>> = Vec::new(alloc);
    let mut partners: Vec<Box<dyn Brake + Send>> = Vec::new(alloc);
    for _ in 0..pairs {
        let (holder, teller) = hold_pair(alloc, at, TURNS)?;
        let holder: Box<dyn Brake + Send> = Box::new(alloc, holder)?;
        let teller: Box<dyn Brake + Send> = Box::new(alloc, teller)?;
        if exchanged {
            brakes.push(teller)?;
            partners.push(holder)?;
        } else {
            brakes.push(holder)?;
            partners.push(teller)?;
        }
    }
    for _ in 0..pairs {
        if let Some(partner) = partners.pop() {
            brakes.push(partner)?;
        }
    }
    fill(alloc, &mut brakes)?;
    Ok(brakes)
}

/// The brakes of two callers, of which each denies the asks of its list.
fn patterns(alloc: Global, denied: [&[u64]; 2]) -> Result<Vec<Box<dyn Brake + Send>>, AllocError> {
    let mut brakes: Vec<Box<dyn Brake + Send>> = Vec::new(alloc);
    for asks in denied {
        let pattern = Pattern::new(Vec::from_slice(alloc, asks)?);
        let brake: Box<dyn Brake + Send> = Box::new(alloc, pattern)?;
        brakes.push(brake)?;
    }
    fill(alloc, &mut brakes)?;
    Ok(brakes)
}

// In the first row the ask is that after the exchange of the current-transaction word.
#[test]
fn one_of_each_pair_waits_for_the_other(rt: HostRuntime) -> Result<(), Fail> {
    for (plan, count, at) in [(TWO, 1, 32), (WIDE, 8, 1)] {
        for exchanged in [false, true] {
            assert!(rt; at >= 1);
            let brakes = pairs(rt.alloc(), count, at, exchanged)?;
            let endings = endings(&rt, plan, brakes)?;
            assert!(rt;
                endings.iter().all(|ending| *ending == Ending::Done),
                "{count} pairs, {exchanged}"
            );
        }
    }
    Ok(())
}

// So a caller whose partner isn't answered meanwhile would be stopped in the test above.
#[test]
fn a_holder_that_is_not_told_denies_its_ask(rt: HostRuntime) -> Result<(), AllocError> {
    let (mut holder, _teller) = hold_pair(rt.alloc(), 2, 10)?;
    assert!(rt; holder.ask() && !holder.ask() && holder.ask());
    let (mut holder, mut teller) = hold_pair(rt.alloc(), 1, 10)?;
    teller.answered();
    assert!(rt; holder.ask());
    Ok(())
}

// Such a brake tells no steps left: no clause says that it is asked, nor whose brake it is.
#[test]
fn asks_are_denied_by_number(rt: HostRuntime) -> Result<(), Fail> {
    for (case, denied, wanted) in DENIED {
        let brakes = patterns(rt.alloc(), denied)?;
        let endings = endings(&rt, TWO, brakes)?;
        assert_eq!(rt; endings.as_slice(), wanted.as_slice(), "{case}");
    }
    Ok(())
}
