//! The last reply of a number, looked up while others make steps.

ghost use Rattle.std.specs.Prelude.{◌≡◌, ◌<◌, IfOk, IfErr, true, false, length};
ghost use Rattle.of_mem.specs.declared.work.TheConstants.{MOST_INSTRS};
ghost use Rattle.of_core.specs.Table.{current_word};

use super::{OWN_CELLS, Row};
use crate::member::{NotStill, Pass};
use crate::protocol::protocol;
use crate::view::View;
use atomic_table::Seat;
use of_cell::{pack, payload_of, seq_of};
use of_mem::{MOST_INSTRS, RawReply, Work};
use std::marker::Brand;

impl<W: Work> Row<W> {
    ghost use Rattle.of_row.specs.Rows.{key_of, setup_at, row_start, IsSeatOf, IsRowPass};
    ghost use Rattle.of_row.specs.Rows.{view_of_pass};
    ghost use Rattle.of_row.specs.Passes.{words_of_past};
    ghost use Rattle.of_row.specs.Replacing.{HasLearntAt, HasOwnPastAt};
    ghost use Rattle.of_row.specs.Looking.{StaysAtRest, WasNotStill, AreOwnCells, FindsLastAt};
    ghost use Rattle.of_row.specs.Looking.{IsShownAtRest, AreFirstNumbers};

    /// The ticket in a number's own cells, and the reply in them, as data cells hold it: that of
    /// the number's last announced call that was run, or what the cells had at the row's start. The
    /// ticket is 0 if there was no such call ever. The pass makes no step: it loads the number's
    /// own cells, and the words before and after that show that no transaction is open meanwhile.
    /// So all cells are those of one moment. Others go on meanwhile; if one of them has a
    /// transaction open or commits one, the error says so, and the pass may try again.
    pub fn last_reply(&self, pass: &mut Pass, number: u32) -> Result<(u32, RawReply), NotStill>
        requires row { IsRowPass self.now pass.old }
        requires number { number < (key_of self.now).callers }
        ensures row { IsRowPass self.now pass.new }
        ensures learnt { HasLearntAt W.meaning W.lawful self.now (view_of_pass pass.old)
            (view_of_pass pass.new) }
        ensures found { IfOk result (λ r. FindsLastAt W.meaning W.lawful self.now
            (view_of_pass pass.new) number r.0 r.1) }
        ensures cause { IfErr result (λ _. WasNotStill (setup_at W.meaning self.now)
            (row_start W.meaning self.now) (view_of_pass pass.old) (view_of_pass pass.new)) }
    {
        let limit = self.limit();
        let work = self.work();
        protocol(limit, work);
        let current = self.shape().cur();
        let before = self.look_up::<Brand>(&mut pass.seat, current);
        if !self.is_at_rest(&mut pass.seat, before) {
            return Err(NotStill);
        }
        let (ticket, raw) = self.load_own(&mut pass.seat, number);
        let after = self.look_up::<Brand>(&mut pass.seat, current);
        if after != before {
            return Err(NotStill);
        }
        Ok((ticket, raw))
    }

    // Whether the transaction of a current-transaction word that was just loaded is closed, and its
    // sequence durable.
    fn is_at_rest(&self, seat: &mut Seat<(), View>, current: u64) -> bool
        requires row { IsSeatOf self.now seat.old }
        requires known { HasOwnPastAt W.meaning W.lawful self.now seat.old.me.0 }
        requires current { current ≡ current_word (words_of_past W.meaning self.now seat.old.me.0) }
        ensures row { IsSeatOf self.now seat.new }
        ensures learnt { HasLearntAt W.meaning W.lawful self.now seat.old.me.0 seat.new.me.0 }
        ensures closed { result ≡ true → IsShownAtRest (setup_at W.meaning self.now)
            (row_start W.meaning self.now) seat.old.me.0 seat.new.me.0 }
        ensures busy { result ≡ false → WasNotStill (setup_at W.meaning self.now)
            (row_start W.meaning self.now) seat.old.me.0 seat.new.me.0 }
    {
        let limit = self.limit();
        let work = self.work();
        protocol(limit, work);
        let shape = self.shape();
        let durable = self.look_up::<Brand>(seat, shape.durable_word(0));
        if durable != current {
            return false;
        }
        let request = self.look_up::<Brand>(seat, shape.request(payload_of(current)));
        seq_of(current) == 0 || request > pack(seq_of(current), 0)
    }

    // Loads a caller's own cells, one after the other: its ticket and its reply.
    fn load_own(&self, seat: &mut Seat<(), View>, number: u32) -> (u32, RawReply)
        requires row { IsSeatOf self.now seat.old }
        requires number { number < (key_of self.now).callers }
        requires known { HasOwnPastAt W.meaning W.lawful self.now seat.old.me.0 }
        ensures row { IsSeatOf self.now seat.new }
        ensures learnt { HasLearntAt W.meaning W.lawful self.now seat.old.me.0 seat.new.me.0 }
        ensures found { StaysAtRest W.meaning self.now seat.old.me.0 seat.new.me.0
            → AreOwnCells (setup_at W.meaning self.now)
            (words_of_past W.meaning self.now seat.new.me.0) number result.0 result.1 }
    {
        let limit = self.limit();
        let work = self.work();
        protocol(limit, work);
        let shape = self.shape();
        let own = number * OWN_CELLS;
        let ticket = self.look_up::<Brand>(seat, shape.data_cell(own));
        let kind = self.look_up::<Brand>(seat, shape.data_cell(own + 1));
        let values = self.load_values(seat, number);
        (
            payload_of(ticket),
            RawReply {
                shape: payload_of(kind),
                values,
            },
        )
    }

    // Loads the numbers of a caller's reply.
    fn load_values(&self, seat: &mut Seat<(), View>, number: u32) -> [u32; MOST_INSTRS]
        requires row { IsSeatOf self.now seat.old }
        requires number { number < (key_of self.now).callers }
        requires known { HasOwnPastAt W.meaning W.lawful self.now seat.old.me.0 }
        ensures row { IsSeatOf self.now seat.new }
        ensures learnt { HasLearntAt W.meaning W.lawful self.now seat.old.me.0 seat.new.me.0 }
        ensures long { length result ≡ MOST_INSTRS }
        ensures found { StaysAtRest W.meaning self.now seat.old.me.0 seat.new.me.0
            → AreFirstNumbers (setup_at W.meaning self.now)
            (words_of_past W.meaning self.now seat.new.me.0) number MOST_INSTRS result }
    {
        let limit = self.limit();
        let work = self.work();
        protocol(limit, work);
        let shape = self.shape();
        let first = number * OWN_CELLS + 2;
        let mut values = [0; MOST_INSTRS];
        for place in 0..MOST_INSTRS {
            let word = self.look_up::<Brand>(seat, shape.data_cell(first + place as u32));
            values[place] = payload_of(word);
        }
        values
    }
}
