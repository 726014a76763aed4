//! The changes that instructions made in a store, kept so that they can be taken back without
//! memory.

ghost use Rattle.std.specs.Prelude.{◌≡◌, ◌≤◌, length};
ghost use Rattle.of_script.specs.Language.{IsInstrInRange};
ghost use Rattle.of_script.specs.declared.instr.TheConstants.{MOST_INSTRS};
ghost use Rattle.of_store.specs.Changes.{change_after, written_register, without, undone, IsChange, AreThere};

use crate::store::Store;
use of_script::{Instr, MOST_INSTRS};

// What takes an instruction back.
#[derive(Clone, Copy)]
pub(crate) enum Change {
    // Nothing has to be taken back, or it is never asked for.
    Nothing,
    // A register had this number.
    Register { reg: u8, before: u32 },
    // A key had this number, or was absent.
    Key { key: u32, before: Option<u32> },
    // A queue has one item more at its back.
    Pushed { queue: u8 },
}

// The changes of a script so far, in order: the first `count` of the list.
#[derive(Drop)]
pub(crate) struct Changes {
    pub(crate) list: [Change; MOST_INSTRS],
    pub(crate) count: u32,
}

impl Changes {
    // No change.
    pub(crate) fn new() -> Changes
        ensures count { result.count ≡ 0 }
        ensures room { length result.list ≡ MOST_INSTRS }
    {
        Changes {
            list: [Change::Nothing; MOST_INSTRS],
            count: 0,
        }
    }
}

// What takes an instruction back that has run, by the number that its register had and by what it
// answered.
pub(crate) fn change_after(instr: Instr, before: u32, answer: Option<u32>) -> Change
    ensures { result ≡ change_after instr before answer }
{
    match instr {
        Instr::Store { reg, value: _ }
        | Instr::Add { reg, value: _ }
        | Instr::Sub { reg, value: _ } => Change::Register { reg, before },
        Instr::Put { key, value: _ } => Change::Key {
            key,
            before: answer,
        },
        Instr::Push { queue, value: _ } => Change::Pushed { queue },
        _ => Change::Nothing,
    }
}

impl Store {
    // The number of the register that an instruction writes; 0 if it writes none.
    pub(crate) fn written_register(&self, instr: Instr) -> u32
        requires { IsInstrInRange instr }
        ensures { result ≡ written_register self.now instr }
    {
        match instr {
            Instr::Store { reg, value: _ }
            | Instr::Add { reg, value: _ }
            | Instr::Sub { reg, value: _ } => self.register(u32::from(reg)),
            _ => 0,
        }
    }

    // Takes a change back.
    fn undo(&mut self, change: Change)
        requires { IsChange change self.old }
        ensures { self.new ≡ without change self.old }
    {
        match change {
            Change::Nothing => {}
            Change::Register { reg, before } => self.set_register(reg, before),
            Change::Key { key, before: None } => {
                let _ = self.del(key);
            }
            Change::Key {
                key,
                before: Some(value),
            } => self.set_key(key, value),
            Change::Pushed { queue } => self.unpush(queue),
        }
    }

    // Takes all changes back, the last one first.
    pub(crate) fn take_back(&mut self, changes: &Changes)
        requires few { changes.now.count ≤ MOST_INSTRS }
        requires there { AreThere changes.now.list changes.now.count self.old }
        ensures { self.new ≡ undone changes.now.list changes.now.count self.old }
    {
        let mut left = changes.count;
        while left > 0 {
            left -= 1;
            self.undo(changes.list[left as usize]);
        }
    }
}
