//! What C reads of a number's last call, in an open memory while other calls go on.

ghost use Rattle.std.specs.Prelude.{◌≡◌, ◌≢◌, ◌↔◌, ◌∷◌, [], Some};
ghost use Rattle.of_c.specs.declared.codes.TheConstants.{ABSENT, DONE, EMPTY, NOT_YET, RANGE};
ghost use Rattle.of_c.specs.Replies.{LeavesSeqAndSteps};
ghost use Rattle.of_c.specs.Causes.{IsOneCode, HoldsNo, IsNotMemory, KeepsHeld, KeepsSlot};
ghost use Rattle.of_c.specs.Causes.{HoldsMemoryWith, HasNoNumber};
ghost use Rattle.of_c.specs.Asking.{WasHeldSo, WasHeldBusy, ShowsLastCall, ShowsNoCall};

use crate::codes::{ABSENT, DONE, EMPTY, NOT_YET, RANGE};
use crate::held::Held;
use crate::reply::CReply;
use crate::slot::Slot;
use crate::truth::{OfMemory, surely};
use of_memory::Memory;
use std::alloc::Global;

fn last_reply_of_held(held: &mut Held, number: u32, reply: &mut CReply) -> u32
    ensures read { result ≡ DONE
        → WasHeldSo (ShowsLastCall number reply.new) (Some held.old) (Some held.new) }
    ensures absent { result ≡ ABSENT
        → WasHeldSo (ShowsNoCall number) (Some held.old) (Some held.new) }
    ensures busy { result ≡ NOT_YET → WasHeldBusy (Some held.old) (Some held.new) }
    ensures codes { IsOneCode (DONE ∷ ABSENT ∷ RANGE ∷ EMPTY ∷ NOT_YET ∷ []) result }
    ensures range { (result ≡ RANGE) ↔ HoldsMemoryWith (HasNoNumber number) (Some held.old) }
    ensures empty { (result ≡ EMPTY) ↔ IsNotMemory held.old }
    ensures kept { KeepsHeld held.old held.new }
    ensures unread { result ≢ DONE → reply.new ≡ reply.old }
    ensures stays { LeavesSeqAndSteps reply.old reply.new }
{
    match held {
        Held::Memory(home) => {
            if number >= home.memory.callers() {
                return RANGE;
            }
            surely::<Memory, OfMemory>(&home.memory);
            match home.memory.last_reply_of(number) {
                Ok(Some((ticket, last))) => {
                    reply.show(&last);
                    reply.ticket = ticket;
                    DONE
                }
                Ok(None) => ABSENT,
                Err(_) => NOT_YET,
            }
        }
        _ => EMPTY,
    }
}

/// Reads what this number's last announced call that took effect answered, and the call's ticket,
/// in an open memory while other calls go on. The reply's sequence, steps and flag `announced` are
/// left as they were. `NOT_YET` says that another call had a transaction open or committed one
/// meanwhile.
#[unsafe(no_mangle)]
pub extern "C" fn of_c_last_reply_of(
    alloc: Global,
    memory: &mut Slot,
    number: u32,
    reply: &mut CReply,
) -> u32
    ensures read { result ≡ DONE → WasHeldSo (ShowsLastCall number reply.new)
        memory.old.raw.held memory.new.raw.held }
    ensures absent { result ≡ ABSENT → WasHeldSo (ShowsNoCall number)
        memory.old.raw.held memory.new.raw.held }
    ensures busy { result ≡ NOT_YET → WasHeldBusy memory.old.raw.held memory.new.raw.held }
    ensures codes { IsOneCode (DONE ∷ ABSENT ∷ RANGE ∷ EMPTY ∷ NOT_YET ∷ []) result }
    ensures range { (result ≡ RANGE) ↔ HoldsMemoryWith (HasNoNumber number) memory.old.raw.held }
    ensures empty { (result ≡ EMPTY) ↔ HoldsNo IsNotMemory memory.old.raw.held }
    ensures kept { KeepsSlot memory.old.raw.held memory.new.raw.held }
    ensures unread { result ≢ DONE → reply.new ≡ reply.old }
    ensures stays { LeavesSeqAndSteps reply.old reply.new }
{
    let Some(mut held) = memory.take(alloc) else {
        return EMPTY;
    };
    let code = last_reply_of_held(&mut held, number, reply);
    memory.put(held);
    code
}
