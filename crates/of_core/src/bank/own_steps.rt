//! Steps of one machine, one after the other, on words that are its own for that while.

ghost use Rattle.std.specs.Prelude.{◌≡◌, ◌<◌, ◌≤◌, length};
ghost use Rattle.of_core.specs.Table.{words_before_members};
ghost use Rattle.of_core.specs.MachineValue.{machine_setup};
ghost use Rattle.of_core.specs.Turn.{IsIdle};
ghost use Rattle.of_core.specs.OwnSteps.{MayGoOn, IsOpenBefore, after_own_steps, call_on};

use crate::machine::Machine;
use crate::performer::OnWords;
use of_mem::Work;

/// Makes up to `most` steps of a machine's open call on the words of its table; fewer if the call
/// ends before. The result is how many steps were made.
// The machine is borrowed once for all of them, so that no step looks it up.
#[inline(always)]
pub fn make_steps<W: Work>(machine: &mut Machine<W>, words: &mut Vec<u64>, most: u32) -> u32
    requires room { words_before_members (machine_setup W.meaning machine.old)
        ≤ length words.old.items }
    requires good { MayGoOn (machine_setup W.meaning machine.old) (W.lawful machine.old.work)
        (call_on machine.old words.old.items) }
    ensures few { result ≤ most }
    ensures machine { let S = machine_setup W.meaning machine.old in
        machine.new ≡ record machine.old {
          call = (after_own_steps S result (call_on machine.old words.old.items)).call;
        } }
    ensures words { let S = machine_setup W.meaning machine.old in
        words.new.items ≡ (after_own_steps S result (call_on machine.old words.old.items)).words }
    ensures stays_open { IsOpenBefore (machine_setup W.meaning machine.old) result
        (call_on machine.old words.old.items) }
    ensures ended { result < most → IsIdle machine.new.call }
{
    for made in 0..most {
        if machine.is_idle() {
            return made;
        }
        let place = machine.place();
        let found = machine.perform(place, &OnWords, words);
        machine.take_at(place, found);
    }
    most
}
