//! What C does with a caller whose machine is lost with its process.

ghost use Rattle.std.specs.Prelude.{◌≡◌, ◌≢◌, ◌↔◌, ◌∷◌, [], Some};
ghost use Rattle.of_c.specs.declared.codes.TheConstants.{DONE, EMPTY, NO_MEMORY, NOT_YET, SPENT};
ghost use Rattle.of_c.specs.declared.held.Held.TheVariants.{Lost as HeldLost};
ghost use Rattle.of_c.specs.Causes.{IsOneCode, HoldsNo, IsNotCaller, IsNotEnrolled, IsNotMemory};
ghost use Rattle.of_c.specs.Causes.{KeepsHeld, KeepsSlot};
ghost use Rattle.of_c.specs.Losses.{TellsBegun, HasSteppedBy, HoldsSteppedBy};
ghost use Rattle.of_c.specs.Losses.{IsHeldEvicted, IsHeldRevived, IsHeldLost};

use crate::codes::{DONE, EMPTY, NO_MEMORY, NOT_YET, SPENT};
use crate::held::{Held, Seat, Vacant};
use crate::slot::Slot;
use crate::truth::{OfHandle, OfLost, OfMemory, surely};
use of_memory::{Handle, LostHandle, Memory, NotRevived};
use std::alloc::Global;
use std::mem::replace;

fn begun_held(held: &Held, begun: &mut u32) -> u32
    ensures read { result ≡ DONE → TellsBegun (Some held.now) begun.new }
    ensures codes { IsOneCode (DONE ∷ EMPTY ∷ []) result }
    ensures empty { (result ≡ EMPTY) ↔ IsNotCaller held.now }
    ensures unread { result ≢ DONE → begun.new ≡ begun.old }
{
    match held {
        Held::Caller(seat) => {
            *begun = seat.handle.begun();
            DONE
        }
        _ => EMPTY,
    }
}

/// How many calls of the caller's number were begun, with those before its memory was opened.
#[unsafe(no_mangle)]
pub extern "C" fn of_c_begun(alloc: Global, caller: &mut Slot, begun: &mut u32) -> u32
    ensures read { result ≡ DONE → TellsBegun caller.old.raw.held begun.new }
    ensures codes { IsOneCode (DONE ∷ EMPTY ∷ []) result }
    ensures empty { (result ≡ EMPTY) ↔ HoldsNo IsNotCaller caller.old.raw.held }
    ensures same { caller.new.raw.held ≡ caller.old.raw.held }
    ensures unread { result ≢ DONE → begun.new ≡ begun.old }
{
    let Some(held) = caller.take(alloc) else {
        return EMPTY;
    };
    let code = begun_held(&held, begun);
    caller.put(held);
    code
}

fn evict_held(held: &mut Held, number: u32) -> u32
    ensures codes { IsOneCode (DONE ∷ EMPTY ∷ []) result }
    ensures empty { (result ≡ EMPTY) ↔ IsNotMemory held.old }
    ensures kept { KeepsHeld held.old held.new }
    ensures evicted { result ≡ DONE → IsHeldEvicted number (Some held.old) (Some held.new) }
{
    match held {
        Held::Memory(home) => {
            surely::<Memory, OfMemory>(&home.memory);
            home.memory.evict_request(number);
            DONE
        }
        _ => EMPTY,
    }
}

/// Makes the request of this number durable, so that a lost caller of the number no longer lacks a
/// new machine because it isn't. If the memory has no such number, nothing is done.
#[unsafe(no_mangle)]
pub extern "C" fn of_c_evict_request(alloc: Global, memory: &mut Slot, number: u32) -> u32
    ensures codes { IsOneCode (DONE ∷ EMPTY ∷ []) result }
    ensures empty { (result ≡ EMPTY) ↔ HoldsNo IsNotMemory memory.old.raw.held }
    ensures kept { KeepsSlot memory.old.raw.held memory.new.raw.held }
    ensures evicted { result ≡ DONE
        → IsHeldEvicted number memory.old.raw.held memory.new.raw.held }
{
    let Some(mut held) = memory.take(alloc) else {
        return EMPTY;
    };
    let code = evict_held(&mut held, number);
    memory.put(held);
    code
}

// A new machine in place of the one that was lost.
fn revive_lost(alloc: Global, vacant: Vacant, made: u32, held: &mut Held) -> u32
    requires { HasSteppedBy (HeldLost vacant) made }
    ensures revived { result ≡ DONE → IsHeldRevived (Some (HeldLost vacant)) (Some held.new) }
    ensures codes { IsOneCode (DONE ∷ NOT_YET ∷ SPENT ∷ NO_MEMORY ∷ []) result }
    ensures lost { result ≢ DONE → IsHeldLost (Some (HeldLost vacant)) (Some held.new) result }
{
    surely::<LostHandle, OfLost>(&vacant.lost);
    match vacant.lost.revive(alloc, made) {
        Ok(handle) => {
            *held = Held::Caller(Seat { handle });
            DONE
        }
        Err((lost, reason)) => {
            *held = Held::Lost(Vacant { lost });
            match reason {
                NotRevived::NotYet(_) => NOT_YET,
                NotRevived::AtLimit => SPENT,
                NotRevived::OutOfMemory(_) => NO_MEMORY,
            }
        }
    }
}

fn revive_held(alloc: Global, held: &mut Held, made: u32) -> u32
    requires { HasSteppedBy held.old made }
    ensures revived { result ≡ DONE → IsHeldRevived (Some held.old) (Some held.new) }
    ensures codes { IsOneCode (DONE ∷ EMPTY ∷ NOT_YET ∷ SPENT ∷ NO_MEMORY ∷ []) result }
    ensures empty { (result ≡ EMPTY) ↔ IsNotEnrolled held.old }
    ensures same { result ≡ EMPTY → held.new ≡ held.old }
    ensures lost { result ≢ DONE → result ≢ EMPTY
        → IsHeldLost (Some held.old) (Some held.new) result }
{
    match replace(held, Held::Nothing) {
        Held::Caller(seat) => {
            surely::<Handle, OfHandle>(&seat.handle);
            let lost = seat.handle.give_up();
            revive_lost(alloc, Vacant { lost }, made, held)
        }
        Held::Lost(vacant) => revive_lost(alloc, vacant, made, held),
        other => {
            *held = other;
            EMPTY
        }
    }
}

/// Gives up the caller's machine, which is lost with its process, and makes a new one from the
/// table's words while others go on. `made` is how many calls of the number have made a step. If
/// there is no new machine yet, the slot holds a caller without one: this call alone takes it.
#[unsafe(no_mangle)]
pub extern "C" fn of_c_revive(alloc: Global, caller: &mut Slot, made: u32) -> u32
    requires { HoldsSteppedBy caller.old.raw.held made }
    ensures revived { result ≡ DONE → IsHeldRevived caller.old.raw.held caller.new.raw.held }
    ensures codes { IsOneCode (DONE ∷ EMPTY ∷ NOT_YET ∷ SPENT ∷ NO_MEMORY ∷ []) result }
    ensures empty { (result ≡ EMPTY) ↔ HoldsNo IsNotEnrolled caller.old.raw.held }
    ensures same { result ≡ EMPTY → caller.new.raw.held ≡ caller.old.raw.held }
    ensures lost { result ≢ DONE → result ≢ EMPTY
        → IsHeldLost caller.old.raw.held caller.new.raw.held result }
{
    let Some(mut held) = caller.take(alloc) else {
        return EMPTY;
    };
    let code = revive_held(alloc, &mut held, made);
    caller.put(held);
    code
}
