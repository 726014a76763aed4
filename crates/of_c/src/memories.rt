//! What C does with a memory: opens it, enrols callers, and closes it.

ghost use Rattle.std.specs.Prelude.{◌≡◌, ◌≢◌, ◌↔◌, ◌⊎◌, ◌∷◌, [], IsSome, None, Some};
ghost use Rattle.of_c.specs.declared.codes.TheConstants.{DONE, EMPTY, FULL, IN_USE, NO_MEMORY};
ghost use Rattle.of_c.specs.declared.codes.TheConstants.{RANGE, TAKEN};
ghost use Rattle.of_c.specs.declared.held.Held.TheVariants.{Memory as HeldMemory};
ghost use Rattle.of_memory.specs.Memories.{HasHandleOut};
ghost use Rattle.of_c.specs.Slots.{AreOfOne};
ghost use Rattle.of_c.specs.Lives.{HoldsEmpty, HoldsNext, HoldsEnrolled, HoldsLeft, HoldsClosed};
ghost use Rattle.of_c.specs.Causes.{IsOneCode, HoldsNo, IsNotMemory, IsNotCaller, IsNotSaved};
ghost use Rattle.of_c.specs.Causes.{AreOutOfRange, HoldsMemoryWith, HasNoNumber, IsEnrolled};
ghost use Rattle.of_c.specs.Causes.{KeepsHeld, KeepsSlot};

use crate::codes::{DONE, EMPTY, FULL, IN_USE, NO_MEMORY, RANGE, TAKEN};
use crate::held::{Held, Home, Kept, Seat};
use crate::pair::Pair;
use crate::slot::Slot;
use crate::truth::{OfHandle, OfMemory, OfPair, OfSaved, surely};
use of_memory::{EnrolError, Handle, InUse, Memory, OpenError, Saved};
use std::alloc::Global;

/// Opens an empty memory: 1 to 64 callers, at most 16,777,216 blocks, sequences up to `limit`.
#[unsafe(no_mangle)]
pub extern "C" fn of_c_open(
    alloc: Global,
    callers: u32,
    blocks: u32,
    limit: u32,
    memory: &mut Slot,
) -> u32
    ensures opened { result ≡ DONE → HoldsEmpty callers blocks limit memory.new.raw.held }
    ensures codes { IsOneCode (DONE ∷ FULL ∷ RANGE ∷ NO_MEMORY ∷ []) result }
    ensures full { (result ≡ FULL) ↔ IsSome memory.old.raw.held }
    ensures range { result ≡ RANGE → AreOutOfRange callers blocks limit }
    ensures refused { result ≢ DONE → memory.new.raw.held ≡ memory.old.raw.held }
{
    if !memory.is_empty() {
        return FULL;
    }
    match Memory::open(alloc, callers, blocks, limit) {
        Ok(opened) => memory.keep(alloc, Held::Memory(Home { memory: opened })),
        Err(OpenError::OutOfMemory(_)) => NO_MEMORY,
        Err(_) => RANGE,
    }
}

// A memory that goes on from what is held, if a memory has left it.
fn reopen_held(alloc: Global, held: &Held, memory: &mut Slot) -> u32
    ensures reopened { result ≡ DONE → HoldsNext (Some held.now) memory.new.raw.held }
    ensures codes { IsOneCode (DONE ∷ EMPTY ∷ NO_MEMORY ∷ []) result }
    ensures empty { (result ≡ EMPTY) ↔ IsNotSaved held.now }
    ensures refused { result ≢ DONE → memory.new.raw.held ≡ memory.old.raw.held }
{
    match held {
        Held::Saved(kept) => {
            surely::<Saved, OfSaved>(&kept.saved);
            match Memory::reopen(alloc, &kept.saved) {
                Ok(opened) => memory.keep(alloc, Held::Memory(Home { memory: opened })),
                Err(_) => NO_MEMORY,
            }
        }
        _ => EMPTY,
    }
}

/// Opens a memory that goes on from what another memory has left.
#[unsafe(no_mangle)]
pub extern "C" fn of_c_reopen(alloc: Global, saved: &mut Slot, memory: &mut Slot) -> u32
    ensures reopened { result ≡ DONE → HoldsNext saved.old.raw.held memory.new.raw.held }
    ensures codes { IsOneCode (DONE ∷ FULL ∷ EMPTY ∷ NO_MEMORY ∷ []) result }
    ensures full { (result ≡ FULL) ↔ IsSome memory.old.raw.held }
    ensures empty { result ≡ EMPTY → HoldsNo IsNotSaved saved.old.raw.held }
    ensures refused { result ≢ DONE → memory.new.raw.held ≡ memory.old.raw.held }
    ensures same { saved.new.raw.held ≡ saved.old.raw.held }
{
    if !memory.is_empty() {
        return FULL;
    }
    let Some(held) = saved.take(alloc) else {
        return EMPTY;
    };
    let code = reopen_held(alloc, &held, memory);
    saved.put(held);
    code
}

// Enrols a caller into a place, if a memory is held. The place is dropped if that fails.
fn enrol_held(held: &mut Held, number: u32, mut place: Box<Held, Global>, caller: &mut Slot) -> u32
    requires { caller.old.raw.held ≡ None }
    ensures of_one { AreOfOne (Some held.new) caller.new.raw.held }
    ensures enrolled { result ≡ DONE
        → HoldsEnrolled number (Some held.old) (Some held.new) caller.new.raw.held }
    ensures codes { IsOneCode (DONE ∷ EMPTY ∷ RANGE ∷ TAKEN ∷ NO_MEMORY ∷ []) result }
    ensures empty { (result ≡ EMPTY) ↔ IsNotMemory held.old }
    ensures range { result ≡ RANGE → HoldsMemoryWith (HasNoNumber number) (Some held.old) }
    ensures taken { result ≡ TAKEN → HoldsMemoryWith (IsEnrolled number) (Some held.old) }
    ensures kept { result ≢ DONE → KeepsHeld held.old held.new }
    ensures refused { result ≢ DONE → caller.new.raw.held ≡ None }
{
    match held {
        Held::Memory(home) => {
            surely::<Memory, OfMemory>(&home.memory);
            match home.memory.enrol(number) {
                Ok(handle) => {
                    *place = Held::Caller(Seat { handle });
                    caller.put(place);
                    DONE
                }
                Err(EnrolError::OutOfMemory(_)) => NO_MEMORY,
                Err(EnrolError::NoCaller { number: _ }) => RANGE,
                Err(EnrolError::Enrolled { number: _ }) => TAKEN,
            }
        }
        _ => EMPTY,
    }
}

/// Enrols the caller with this number. In the memory's history, each call that this caller begins
/// comes after all ended calls of callers that left before.
#[unsafe(no_mangle)]
pub extern "C" fn of_c_enrol(alloc: Global, pair: &mut Pair, number: u32) -> u32
    ensures enrolled { result ≡ DONE → HoldsEnrolled number
        pair.old.memory.raw.held pair.new.memory.raw.held pair.new.caller.raw.held }
    ensures codes { IsOneCode (DONE ∷ EMPTY ∷ RANGE ∷ TAKEN ∷ NO_MEMORY ∷ []) result }
    ensures empty { result ≡ EMPTY → HoldsNo IsNotMemory pair.old.memory.raw.held }
    ensures range { result ≡ RANGE
        → HoldsMemoryWith (HasNoNumber number) pair.old.memory.raw.held }
    ensures taken { result ≡ TAKEN → IsSome pair.old.caller.raw.held
        ⊎ HoldsMemoryWith (IsEnrolled number) pair.old.memory.raw.held }
    ensures full { IsSome pair.old.caller.raw.held → result ≡ TAKEN }
    ensures kept { result ≢ DONE
        → KeepsSlot pair.old.memory.raw.held pair.new.memory.raw.held }
    ensures refused { result ≢ DONE → pair.new.caller.raw.held ≡ pair.old.caller.raw.held }
{
    if !pair.caller.is_empty() {
        return TAKEN;
    }
    let Ok(place) = Box::new(alloc, Held::Nothing) else {
        return NO_MEMORY;
    };
    let Some(mut held) = pair.memory.take(alloc) else {
        return EMPTY;
    };
    let code = enrol_held(&mut held, number, place, &mut pair.caller);
    pair.memory.put(held);
    code
}

// The caller leaves the memory, if both are held. Otherwise it is held again.
fn leave_held(held: &mut Held, seat: Box<Held, Global>, caller: &mut Slot) -> u32
    requires empty { caller.old.raw.held ≡ None }
    requires of_one { AreOfOne (Some held.old) (Some seat.value) }
    ensures of_one { AreOfOne (Some held.new) caller.new.raw.held }
    ensures left { result ≡ DONE → HoldsLeft (Some held.old) (Some seat.value) (Some held.new) }
    ensures codes { IsOneCode (DONE ∷ EMPTY ∷ []) result }
    ensures empty { (result ≡ EMPTY) ↔ (IsNotMemory held.old ⊎ IsNotCaller seat.value) }
    ensures gone { result ≡ DONE → caller.new.raw.held ≡ None }
    ensures refused { result ≢ DONE → caller.new.raw.held ≡ Some seat.value }
    ensures same { result ≢ DONE → held.new ≡ held.old }
{
    let Held::Memory(home) = held else {
        caller.put(seat);
        return EMPTY;
    };
    if !matches!(&*seat, Held::Caller(_)) {
        caller.put(seat);
        return EMPTY;
    }
    match Box::into_inner(seat) {
        Held::Caller(seat) => {
            surely::<Memory, OfMemory>(&home.memory);
            surely::<Handle, OfHandle>(&seat.handle);
            seat.handle.leave(&mut home.memory);
            DONE
        }
        _ => unreachable!(),
    }
}

/// The caller leaves its memory. If it has an open call, this stays open. Its number is free again.
#[unsafe(no_mangle)]
pub extern "C" fn of_c_leave(alloc: Global, pair: &mut Pair) -> u32
    ensures left { result ≡ DONE → HoldsLeft
        pair.old.memory.raw.held pair.old.caller.raw.held pair.new.memory.raw.held }
    ensures codes { IsOneCode (DONE ∷ EMPTY ∷ []) result }
    ensures empty { (result ≡ EMPTY) ↔ (HoldsNo IsNotMemory pair.old.memory.raw.held
        ⊎ HoldsNo IsNotCaller pair.old.caller.raw.held) }
    ensures gone { result ≡ DONE → pair.new.caller.raw.held ≡ None }
    ensures refused { result ≢ DONE → pair.new.caller.raw.held ≡ pair.old.caller.raw.held }
    ensures same { result ≢ DONE → pair.new.memory.raw.held ≡ pair.old.memory.raw.held }
{
    surely::<Pair, OfPair>(pair);
    let Some(mut held) = pair.memory.take(alloc) else {
        return EMPTY;
    };
    let Some(seat) = pair.caller.take(alloc) else {
        pair.memory.put(held);
        return EMPTY;
    };
    let code = leave_held(&mut held, seat, &mut pair.caller);
    pair.memory.put(held);
    code
}

// Closes a memory. Either what it has left is held, or the memory again.
fn close_home(home: Home, mut place: Box<Held, Global>, memory: &mut Slot, saved: &mut Slot) -> u32
    requires { memory.old.raw.held ≡ None }
    ensures closed { result ≡ DONE
        → HoldsClosed (Some (HeldMemory home)) saved.new.raw.held }
    ensures codes { IsOneCode (DONE ∷ IN_USE ∷ []) result }
    ensures gone { result ≡ DONE → memory.new.raw.held ≡ None }
    ensures refused { result ≢ DONE → saved.new.raw.held ≡ saved.old.raw.held }
    ensures in_use { result ≡ IN_USE → HasHandleOut home.memory }
    ensures back { result ≢ DONE → memory.new.raw.held ≡ Some (HeldMemory home) }
{
    surely::<Memory, OfMemory>(&home.memory);
    match home.memory.close() {
        Ok(left) => {
            *place = Held::Saved(Kept { saved: left });
            saved.put(place);
            DONE
        }
        Err(InUse(again)) => {
            *place = Held::Memory(Home { memory: again });
            memory.put(place);
            IN_USE
        }
    }
}

/// Closes a memory: its durable words are recovered, and the slot `saved` holds them.
#[unsafe(no_mangle)]
pub extern "C" fn of_c_close(alloc: Global, memory: &mut Slot, saved: &mut Slot) -> u32
    ensures closed { result ≡ DONE → HoldsClosed memory.old.raw.held saved.new.raw.held }
    ensures codes { IsOneCode (DONE ∷ FULL ∷ EMPTY ∷ IN_USE ∷ NO_MEMORY ∷ []) result }
    ensures full { (result ≡ FULL) ↔ IsSome saved.old.raw.held }
    ensures empty { result ≡ EMPTY → HoldsNo IsNotMemory memory.old.raw.held }
    // Only if a caller has not left.
    ensures in_use { result ≡ IN_USE → HoldsMemoryWith HasHandleOut memory.old.raw.held }
    ensures gone { result ≡ DONE → memory.new.raw.held ≡ None }
    ensures refused { result ≢ DONE → saved.new.raw.held ≡ saved.old.raw.held }
    ensures back { result ≢ DONE → memory.new.raw.held ≡ memory.old.raw.held }
{
    if !saved.is_empty() {
        return FULL;
    }
    let Ok(place) = Box::new(alloc, Held::Nothing) else {
        return NO_MEMORY;
    };
    let Some(held) = memory.take(alloc) else {
        return EMPTY;
    };
    if !matches!(&*held, Held::Memory(_)) {
        memory.put(held);
        return EMPTY;
    }
    match Box::into_inner(held) {
        Held::Memory(home) => close_home(home, place, memory, saved),
        _ => unreachable!(),
    }
}

/// Frees what a slot holds, and leaves the slot empty.
#[unsafe(no_mangle)]
pub extern "C" fn of_c_free(alloc: Global, slot: &mut Slot) -> u32
    ensures gone { slot.new.raw.held ≡ None }
    ensures codes { IsOneCode (DONE ∷ EMPTY ∷ []) result }
    ensures done { (result ≡ DONE) ↔ IsSome slot.old.raw.held }
{
    match slot.take(alloc) {
        Some(held) => {
            drop(held);
            DONE
        }
        None => EMPTY,
    }
}
