//! What C reads of what a memory has left.

ghost use Rattle.std.specs.Prelude.{◌≡◌, ◌≢◌, ◌↔◌, ◌<◌, ◌≤◌, ◌∷◌, [], None, Some};
ghost use Rattle.std.specs.Prelude.{slice_get};
ghost use Rattle.std.specs.FinMap as fm;
ghost use Rattle.of_store.specs.Store.{register as register_of, queue as queue_of};
ghost use Rattle.of_script.specs.declared.instr.TheConstants.{GREATEST, QUEUES, REGISTERS};
ghost use Rattle.of_memory.specs.Saving.{saved_ticket};
ghost use Rattle.of_c.specs.declared.codes.TheConstants.{ABSENT, DONE, EMPTY, RANGE};
ghost use Rattle.of_c.specs.Replies.{LeavesSeqAndSteps};
ghost use Rattle.of_c.specs.States.{HoldsStore, HasCallerWith, ShowsLast};
ghost use Rattle.of_c.specs.Causes.{IsOneCode, HoldsNo, IsNotSaved};
ghost use Rattle.of_c.specs.Causes.{HoldsSavedWith, HasNoTicketOf};

use crate::codes::{ABSENT, DONE, EMPTY, RANGE};
use crate::held::Held;
use crate::reply::CReply;
use crate::slot::Slot;
use crate::truth::{OfSaved, surely};
use of_memory::Saved;
use of_script::{GREATEST, QUEUES, REGISTERS};
use std::alloc::Global;

// Tells a number, if there is one.
fn tell(number: Option<u32>, value: &mut u32) -> u32
    ensures some { result ≡ DONE → number ≡ Some value.new }
    ensures none { result ≡ ABSENT → number ≡ None }
    ensures codes { IsOneCode (DONE ∷ ABSENT ∷ []) result }
    ensures unread { result ≢ DONE → value.new ≡ value.old }
{
    match number {
        Some(number) => {
            *value = number;
            DONE
        }
        None => ABSENT,
    }
}

// Reads a register, if what is held is what a memory has left.
fn register_held(held: &Held, register: u32, value: &mut u32) -> u32
    requires { register < REGISTERS }
    ensures read { result ≡ DONE → HoldsStore (Some held.now)
        (λ s. value.new ≡ register_of s register) }
    ensures codes { IsOneCode (DONE ∷ EMPTY ∷ []) result }
    ensures empty { (result ≡ EMPTY) ↔ IsNotSaved held.now }
    ensures unread { result ≢ DONE → value.new ≡ value.old }
{
    match held {
        Held::Saved(kept) => {
            surely::<Saved, OfSaved>(&kept.saved);
            *value = kept.saved.register(register);
            DONE
        }
        _ => EMPTY,
    }
}

/// Reads the number in a register of the saved store.
#[unsafe(no_mangle)]
pub extern "C" fn of_c_register(
    alloc: Global,
    saved: &mut Slot,
    register: u32,
    value: &mut u32,
) -> u32
    ensures read { result ≡ DONE → HoldsStore saved.old.raw.held
        (λ s. value.new ≡ register_of s register) }
    ensures codes { IsOneCode (DONE ∷ RANGE ∷ EMPTY ∷ []) result }
    ensures range { (result ≡ RANGE) ↔ (REGISTERS ≤ register) }
    ensures empty { result ≡ EMPTY → HoldsNo IsNotSaved saved.old.raw.held }
    ensures same { saved.new.raw.held ≡ saved.old.raw.held }
    ensures unread { result ≢ DONE → value.new ≡ value.old }
{
    if register as usize >= REGISTERS {
        return RANGE;
    }
    let Some(held) = saved.take(alloc) else {
        return EMPTY;
    };
    let code = register_held(&held, register, value);
    saved.put(held);
    code
}

// Reads the number at a key, if what is held is what a memory has left.
fn key_held(held: &Held, key: u32, value: &mut u32) -> u32
    ensures read { result ≡ DONE → HoldsStore (Some held.now)
        (λ s. fm.get s.keys key ≡ Some value.new) }
    ensures absent { result ≡ ABSENT → HoldsStore (Some held.now)
        (λ s. fm.get s.keys key ≡ None) }
    ensures codes { IsOneCode (DONE ∷ ABSENT ∷ EMPTY ∷ []) result }
    ensures empty { (result ≡ EMPTY) ↔ IsNotSaved held.now }
    ensures unread { result ≢ DONE → value.new ≡ value.old }
{
    match held {
        Held::Saved(kept) => {
            surely::<Saved, OfSaved>(&kept.saved);
            tell(kept.saved.key(key), value)
        }
        _ => EMPTY,
    }
}

/// Reads the number at a key of the saved store.
#[unsafe(no_mangle)]
pub extern "C" fn of_c_key(alloc: Global, saved: &mut Slot, key: u32, value: &mut u32) -> u32
    ensures read { result ≡ DONE → HoldsStore saved.old.raw.held
        (λ s. fm.get s.keys key ≡ Some value.new) }
    ensures absent { result ≡ ABSENT → HoldsStore saved.old.raw.held
        (λ s. fm.get s.keys key ≡ None) }
    ensures codes { IsOneCode (DONE ∷ ABSENT ∷ RANGE ∷ EMPTY ∷ []) result }
    ensures range { (result ≡ RANGE) ↔ (GREATEST < key) }
    ensures empty { result ≡ EMPTY → HoldsNo IsNotSaved saved.old.raw.held }
    ensures same { saved.new.raw.held ≡ saved.old.raw.held }
    ensures unread { result ≢ DONE → value.new ≡ value.old }
{
    if key > GREATEST {
        return RANGE;
    }
    let Some(held) = saved.take(alloc) else {
        return EMPTY;
    };
    let code = key_held(&held, key, value);
    saved.put(held);
    code
}

// Reads an item of a queue, if what is held is what a memory has left.
fn item_held(held: &Held, queue: u32, at: u32, value: &mut u32) -> u32
    requires { queue < QUEUES }
    ensures read { result ≡ DONE → HoldsStore (Some held.now)
        (λ s. slice_get (queue_of s queue) at ≡ Some value.new) }
    ensures absent { result ≡ ABSENT → HoldsStore (Some held.now)
        (λ s. slice_get (queue_of s queue) at ≡ None) }
    ensures codes { IsOneCode (DONE ∷ ABSENT ∷ EMPTY ∷ []) result }
    ensures empty { (result ≡ EMPTY) ↔ IsNotSaved held.now }
    ensures unread { result ≢ DONE → value.new ≡ value.old }
{
    match held {
        Held::Saved(kept) => {
            surely::<Saved, OfSaved>(&kept.saved);
            tell(kept.saved.item(queue, at), value)
        }
        _ => EMPTY,
    }
}

/// Reads an item of a queue of the saved store; `at` counts from the front.
#[unsafe(no_mangle)]
pub extern "C" fn of_c_item(
    alloc: Global,
    saved: &mut Slot,
    queue: u32,
    at: u32,
    value: &mut u32,
) -> u32
    ensures read { result ≡ DONE → HoldsStore saved.old.raw.held
        (λ s. slice_get (queue_of s queue) at ≡ Some value.new) }
    ensures absent { result ≡ ABSENT → HoldsStore saved.old.raw.held
        (λ s. slice_get (queue_of s queue) at ≡ None) }
    ensures codes { IsOneCode (DONE ∷ ABSENT ∷ RANGE ∷ EMPTY ∷ []) result }
    ensures range { (result ≡ RANGE) ↔ (QUEUES ≤ queue) }
    ensures empty { result ≡ EMPTY → HoldsNo IsNotSaved saved.old.raw.held }
    ensures same { saved.new.raw.held ≡ saved.old.raw.held }
    ensures unread { result ≢ DONE → value.new ≡ value.old }
{
    if queue as usize >= QUEUES {
        return RANGE;
    }
    let Some(held) = saved.take(alloc) else {
        return EMPTY;
    };
    let code = item_held(&held, queue, at, value);
    saved.put(held);
    code
}

fn ticket_held(held: &Held, number: u32, ticket: &mut u32) -> u32
    ensures read { result ≡ DONE → HasCallerWith (Some held.now) number
        (λ d. ticket.new ≡ saved_ticket d number) }
    ensures codes { IsOneCode (DONE ∷ RANGE ∷ EMPTY ∷ []) result }
    ensures range { result ≡ RANGE → HoldsSavedWith (HasNoTicketOf number) (Some held.now) }
    ensures empty { (result ≡ EMPTY) ↔ IsNotSaved held.now }
    ensures unread { result ≢ DONE → ticket.new ≡ ticket.old }
{
    match held {
        Held::Saved(kept) => {
            if number >= kept.saved.callers() {
                return RANGE;
            }
            surely::<Saved, OfSaved>(&kept.saved);
            *ticket = kept.saved.ticket(number);
            DONE
        }
        _ => EMPTY,
    }
}

/// Reads the ticket of a caller's last saved call; 0 if no call of the caller is saved.
#[unsafe(no_mangle)]
pub extern "C" fn of_c_ticket(alloc: Global, saved: &mut Slot, number: u32, ticket: &mut u32) -> u32
    ensures read { result ≡ DONE → HasCallerWith saved.old.raw.held number
        (λ d. ticket.new ≡ saved_ticket d number) }
    ensures codes { IsOneCode (DONE ∷ RANGE ∷ EMPTY ∷ []) result }
    ensures range { result ≡ RANGE → HoldsSavedWith (HasNoTicketOf number) saved.old.raw.held }
    ensures empty { (result ≡ EMPTY) ↔ HoldsNo IsNotSaved saved.old.raw.held }
    ensures same { saved.new.raw.held ≡ saved.old.raw.held }
    ensures unread { result ≢ DONE → ticket.new ≡ ticket.old }
{
    let Some(held) = saved.take(alloc) else {
        return EMPTY;
    };
    let code = ticket_held(&held, number, ticket);
    saved.put(held);
    code
}

fn last_reply_held(held: &Held, number: u32, reply: &mut CReply) -> u32
    ensures read { result ≡ DONE
        → HasCallerWith (Some held.now) number (ShowsLast number reply.new) }
    ensures absent { result ≡ ABSENT
        → HasCallerWith (Some held.now) number (λ d. saved_ticket d number ≡ 0) }
    ensures codes { IsOneCode (DONE ∷ ABSENT ∷ RANGE ∷ EMPTY ∷ []) result }
    ensures range { result ≡ RANGE → HoldsSavedWith (HasNoTicketOf number) (Some held.now) }
    ensures empty { (result ≡ EMPTY) ↔ IsNotSaved held.now }
    ensures unread { result ≢ DONE → reply.new ≡ reply.old }
    ensures stays { LeavesSeqAndSteps reply.old reply.new }
{
    match held {
        Held::Saved(kept) => {
            if number >= kept.saved.callers() {
                return RANGE;
            }
            surely::<Saved, OfSaved>(&kept.saved);
            match kept.saved.last_reply(number) {
                Some((ticket, last)) => {
                    reply.show(&last);
                    reply.ticket = ticket;
                    DONE
                }
                None => ABSENT,
            }
        }
        _ => EMPTY,
    }
}

/// Reads the reply to a caller's last saved call, and that call's ticket.
#[unsafe(no_mangle)]
pub extern "C" fn of_c_last_reply(
    alloc: Global,
    saved: &mut Slot,
    number: u32,
    reply: &mut CReply,
) -> u32
    ensures read { result ≡ DONE
        → HasCallerWith saved.old.raw.held number (ShowsLast number reply.new) }
    ensures absent { result ≡ ABSENT
        → HasCallerWith saved.old.raw.held number (λ d. saved_ticket d number ≡ 0) }
    ensures codes { IsOneCode (DONE ∷ ABSENT ∷ RANGE ∷ EMPTY ∷ []) result }
    ensures range { result ≡ RANGE → HoldsSavedWith (HasNoTicketOf number) saved.old.raw.held }
    ensures empty { (result ≡ EMPTY) ↔ HoldsNo IsNotSaved saved.old.raw.held }
    ensures unread { result ≢ DONE → reply.new ≡ reply.old }
    ensures stays { LeavesSeqAndSteps reply.old reply.new }
    ensures same { saved.new.raw.held ≡ saved.old.raw.held }
{
    let Some(held) = saved.take(alloc) else {
        return EMPTY;
    };
    let code = last_reply_held(&held, number, reply);
    saved.put(held);
    code
}
