//! Running scripts on a store.

ghost use Rattle.std.specs.Prelude.{◌≡◌, ◌≤◌, IfOk, OnOk, OnErr, IsTrue, IsFalse, IsNone, true, length};
ghost use Rattle.of_script.specs.declared.instr.TheConstants.{MOST_INSTRS};
ghost use Rattle.of_script.specs.Language.{IsInstrInRange};
ghost use Rattle.of_store.specs.Store.{run, instr_effect, IsEffect};
ghost use Rattle.of_store.specs.Replies.{reply_value_of, IsReplyOfScript};
ghost use Rattle.of_store.specs.Changes.{takes_out, may_fail, FailsFirst, HasFailed, HasRunToEnd, ChangesLead};

use crate::change::{Changes, change_after};
use crate::store::{Answer, Store};
use of_script::{Abort, Cause, GREATEST, Instr, MOST_INSTRS, Reply, Script};
use std::alloc::AllocError;

// Whether no instruction of a script can fail after one that takes something out: then what was
// written can be taken back without memory.
fn fails_first(script: &Script) -> bool
    ensures { IsTrue result → FailsFirst script.now }
{
    let mut has_taken = false;
    for i in 0..script.len() {
        let instr = script.at(i);
        if has_taken && may_fail(instr) {
            return false;
        }
        has_taken = has_taken || takes_out(instr);
    }
    true
}

fn takes_out(instr: Instr) -> bool
    ensures { result ≡ takes_out instr }
{
    matches!(
        instr,
        Instr::Del { key: _ } | Instr::Pop { queue: _ } | Instr::DropBelow { key: _ }
    )
}

fn may_fail(instr: Instr) -> bool
    ensures { result ≡ may_fail instr }
{
    matches!(
        instr,
        Instr::Add { reg: _, value: _ }
            | Instr::Sub { reg: _, value: _ }
            | Instr::Put { key: _, value: _ }
            | Instr::Need { key: _, value: _ }
            | Instr::Push { queue: _, value: _ }
            | Instr::First
            | Instr::Next { key: _ }
            | Instr::DropBelow { key: _ }
    )
}

// Whether a script has aborted, or memory was wanting.
fn has_failed(ran: &Result<Reply, AllocError>) -> bool
    ensures yes { IsTrue result → HasFailed ran.now }
    ensures no { IsFalse result → HasRunToEnd ran.now }
{
    match ran {
        Ok(reply) => reply.abort.is_some(),
        Err(_) => true,
    }
}

impl Store {
    // One instruction. Where it aborts, or memory is wanting, the store is what it was.
    fn step(&mut self, instr: Instr) -> Result<Answer, AllocError>
        requires { IsInstrInRange instr }
        ensures effect { IfOk result (IsEffect (instr_effect self.old instr) self.new) }
        ensures aborted { IfOk result (λ a. OnErr a (self.new ≡ self.old)) }
        ensures err { OnErr result ((self.new ≡ self.old) × (may_fail instr ≡ true)) }
    {
        match instr {
            Instr::Load { reg } => Ok(Ok(Some(self.register(u32::from(reg))))),
            Instr::Store { reg, value } => {
                self.set_register(reg, value);
                Ok(Ok(None))
            }
            Instr::Add { reg, value } => {
                let sum = self.register(u32::from(reg)) + value;
                if sum > GREATEST {
                    return Ok(Err(Cause::Overflow));
                }
                self.set_register(reg, sum);
                Ok(Ok(Some(sum)))
            }
            Instr::Sub { reg, value } => {
                let before = self.register(u32::from(reg));
                if before < value {
                    return Ok(Err(Cause::Short));
                }
                self.set_register(reg, before - value);
                Ok(Ok(Some(before - value)))
            }
            Instr::Get { key } => Ok(Ok(self.key(key))),
            Instr::Put { key, value } => self.put(key, value),
            Instr::Del { key } => Ok(Ok(self.del(key))),
            Instr::Need { key, value } => {
                if self.key(key) == Some(value) {
                    return Ok(Ok(None));
                }
                Ok(Err(Cause::Differs))
            }
            Instr::Push { queue, value } => self.push(queue, value),
            Instr::Pop { queue } => Ok(Ok(self.pop(queue))),
            Instr::Len { queue } => Ok(Ok(Some(self.queue_len(queue)))),
            Instr::Count => Ok(Ok(Some(self.keys()))),
            Instr::First => Ok(self.least(0)),
            Instr::Next { key } => Ok(self.least(key + 1)),
            Instr::DropBelow { key } => self.drop_below(key),
        }
    }

    // Runs a script until it ends or fails, and notes its changes. Where it fails and nothing was
    // taken out, they lead from the store as it was to what is there now.
    fn forward(&mut self, script: &Script, changes: &mut Changes) -> Result<Reply, AllocError>
        requires none { changes.old.count ≡ 0 }
        requires room { length changes.old.list ≡ MOST_INSTRS }
        ensures store { IfOk result (λ r. IsNone r.abort → self.new ≡ (run self.old script.now).0) }
        ensures reply { IfOk result (λ r. reply_value_of r ≡ (run self.old script.now).1) }
        ensures shape { IfOk result (IsReplyOfScript (length script.now)) }
        ensures few { changes.new.count ≤ MOST_INSTRS }
        ensures back { FailsFirst script.now → HasFailed result
            → ChangesLead changes.new.list changes.new.count self.old self.new }
    {
        // what holds of every store
        let _ = self.room();
        let mut values = [None; MOST_INSTRS];
        let len = script.len();
        for i in 0..len {
            let instr = script.at(i);
            let before = self.written_register(instr);
            match self.step(instr)? {
                Ok(value) => {
                    values[i as usize] = value;
                    changes.list[i as usize] = change_after(instr, before, value);
                }
                Err(cause) => {
                    return Ok(Reply {
                        len: len as u8,
                        values: [None; MOST_INSTRS],
                        abort: Some(Abort {
                            place: i as u8,
                            cause,
                        }),
                    });
                }
            }
            changes.count = i + 1;
        }
        Ok(Reply {
            len: len as u8,
            values,
            abort: None,
        })
    }

    /// Runs a script on the store, and answers the script's reply. If the script aborts, the store
    /// is as before the script. An error means that there is not enough memory; then too the store
    /// is as before.
    pub fn run(&mut self, script: &Script) -> Result<Reply, AllocError>
        ensures store { OnOk result (self.new ≡ (run self.old script.now).0) }
        ensures reply { IfOk result (λ r. reply_value_of r ≡ (run self.old script.now).1) }
        ensures shape { IfOk result (IsReplyOfScript (length script.now)) }
        ensures err { OnErr result (self.new ≡ self.old) }
    {
        let mut changes = Changes::new();
        if !fails_first(script) {
            let mut work = self.copy()?;
            let reply = work.forward(script, &mut changes)?;
            if reply.abort.is_none() {
                *self = work;
            }
            return Ok(reply);
        }
        let ran = self.forward(script, &mut changes);
        if has_failed(&ran) {
            self.take_back(&changes);
        }
        ran
    }
}
