//! One call as a machine of atomic steps.

ghost use Rattle.std.specs.Prelude.{◌≡◌, ◌≢◌, ◌<◌, ◌≤◌, ◌+◌, ◌*◌, IfOk, IsTrue, ◌↔◌, length};
ghost use Rattle.std.proofs.Common.{get_or};
ghost use Rattle.of_mem.specs.declared.work.TheConstants.{MOST_INSTRS};
ghost use Rattle.of_cell.specs.declared.word.TheConstants.{PAYLOADS};
ghost use Rattle.of_cell.specs.Cells.{log_room};
ghost use Rattle.of_core.specs.Table.{cell_count, words_before_members, log_at, durable_at, ticket_word_at, shape_word_at, reply_word_at};
ghost use Rattle.of_core.specs.MachineValue.{machine_setup, machine_after, op_at, ended_outcome};
ghost use Rattle.of_core.specs.Machine.{idle_machine, fresh_call, begin_call, log_words};
ghost use Rattle.of_core.specs.Steps.{want, take_word, take_word_at, with_step_counted, IsOnTable};
ghost use Rattle.of_core.specs.declared.place.Op.{Op};
ghost use Rattle.of_core.specs.Meets.{MayTake};
ghost use Rattle.of_core.specs.Lagging.{MayMake};

mod announcing;
mod answering;
mod applying;
mod committing;
mod helping;
mod inspect;
mod lagging;
mod lists;
mod logs;
mod owing;
mod reviving;
mod scanning;
mod trying;

use crate::call::Call;
use crate::machine::lists::Lists;
use crate::machine::logs::set_words;
use crate::performer::{NameStep, Performer};
use crate::place::{Op, Outcome, Place};
use of_cell::{GREATEST_LIMIT, Shape, pack};
use of_mem::{MOST_INSTRS, RawReply, Work, Workspace, WriteSet};
use std::alloc::{AllocError, Global};
use std::marker::Model;

/// How many data cells belong to each caller: its ticket, the shape of its reply, and the reply's
/// numbers.
const OWN_CELLS: u32 = MOST_INSTRS as u32 + 2;

/// One call as a machine of atomic steps on the words of a shared table. The machine makes no step
/// itself: it names its next step, and goes on when it is given the word that the step found.
#[derive(Drop)]
pub struct Machine<W: Work> {
    work: W,
    shape: Shape,
    /// How many cells there are; a cell's durable word comes this many words after the cell.
    durable: u32,
    /// The first word of the caller's own log.
    own_log: u32,
    limit: u32,
    caller: u32,
    made: u32,
    op: Vec<u64>,
    place: Place,
    seq: u32,
    owner: u32,
    /// The data cells that were loaded; in a scan also the writes of the log over them.
    part: Workspace<W>,
    log: WriteSet,
    /// The log words that a helper has loaded.
    copy: Vec<u32>,
    helps: bool,
    raw: RawReply,
    /// The reply into which a run writes, kept so that no run has to make an empty one.
    spare: RawReply,
    answer: Option<Outcome>,
    /// The word to which this call last raised the durable word of its caller's request; 0 if this
    /// call has not raised it yet.
    kept: u64,
    steps: u64,
    rounds: u32,
    first: u32,
    tries: u32,
    scan: u32,
    heard: u64,
    script: Vec<u64>,
    calls: Vec<Call>,
}

impl<W: Work> Model for Machine<W> {
    ghost use Rattle.of_core.specs.MachineValue.{Machine};

    ghost Value = { Machine W };

    ghost use Rattle.of_core.specs.Inside.{machine_value, IsFit};

    ghost view = { machine_value };

    ghost invariant = { IsFit W.many W.size W.meaning };
}

impl<W: Work> Machine<W> {
    /// An idle machine of a caller that has begun `made` calls before. `limit` is the last sequence
    /// that may be committed. The error is that there is no memory.
    pub fn new(
        alloc: Global,
        shape: Shape,
        limit: u32,
        caller: u32,
        made: u32,
        work: W,
    ) -> Result<Self, AllocError>
        requires callers { shape.callers ≡ W.many work }
        requires instrs { shape.instrs ≡ MOST_INSTRS }
        requires cells { shape.cells ≡ W.size work }
        requires caller { caller < shape.callers }
        requires limit { limit ≤ GREATEST_LIMIT }
        ensures work { IfOk result (λ m. m.work ≡ work) }
        ensures callers { IfOk result (λ m. m.callers ≡ shape.callers) }
        ensures cells { IfOk result (λ m. m.cells ≡ shape.cells) }
        ensures limit { IfOk result (λ m. m.limit ≡ limit) }
        ensures idle { IfOk result (λ m.
            m.call ≡ idle_machine (machine_setup W.meaning m) caller made) }
    {
        let Lists {
            op,
            part,
            log,
            copy,
            script,
            calls,
        } = Lists::new(alloc, shape)?;
        Ok(Machine {
            work,
            shape,
            durable: shape.durable_cells(),
            own_log: shape.log_word(caller, 0),
            limit,
            caller,
            made,
            op,
            place: Place::Idle,
            seq: 0,
            owner: 0,
            part,
            log,
            copy,
            helps: false,
            raw: RawReply {
                shape: 0,
                values: [0; MOST_INSTRS],
            },
            spare: RawReply {
                shape: 0,
                values: [0; MOST_INSTRS],
            },
            answer: None,
            kept: 0,
            steps: 0,
            rounds: 0,
            first: 0,
            tries: 0,
            scan: 0,
            heard: 0,
            script,
            calls,
        })
    }

    /// Opens a call of the operation `op`, which has 1 to `MOST_INSTRS` words. If the operation
    /// only reads, the call begins with a try; otherwise it is announced at once.
    pub fn begin(&mut self, op: &[u64])
        requires idle { self.old.call.place ≡ Place.Idle }
        requires some { 1 ≤ length op.now }
        requires few { length op.now ≤ MOST_INSTRS }
        requires made { self.old.call.made + 1 < PAYLOADS }
        ensures { self.new ≡ machine_after W.meaning (λ S m. begin_call S m op.now) self.old }
    {
        // there is room for the words of every operation
        set_words(&mut self.op, op);
        self.made += 1;
        self.forget();
        self.place = if self.work.reads_only(op) {
            Place::TryCurrent
        } else {
            Place::StoreScript(0)
        };
    }

    /// Forgets the earlier calls, and keeps only their number, so that the next call begins as on a
    /// fresh machine.
    fn forget(&mut self)
        ensures { self.new ≡ machine_after W.meaning fresh_call self.old }
    {
        self.place = Place::Idle;
        self.seq = 0;
        self.owner = 0;
        self.part.clear();
        self.log.clear();
        self.copy.clear();
        self.helps = false;
        self.raw = RawReply {
            shape: 0,
            values: [0; MOST_INSTRS],
        };
        self.answer = None;
        self.kept = 0;
        self.steps = 0;
        self.rounds = 0;
        self.first = 0;
        self.tries = 0;
        self.scan = 0;
        self.heard = 0;
        self.script.clear();
        self.calls.clear();
    }

    /// How many calls the caller has begun, including those from before this machine was made.
    pub fn made(&self) -> u32
        ensures { result ≡ self.now.call.made }
    {
        self.made
    }

    /// How many steps the open call has made; 0 if none is open.
    pub fn steps(&self) -> u64
        ensures { result ≡ self.now.call.steps }
    {
        self.steps
    }

    /// How the last call ended. None if a call is open, or if none has ended.
    pub fn answer(&self) -> Option<Outcome>
        ensures { result ≡ ended_outcome self.now.call }
    {
        match self.place {
            Place::Idle => self.answer,
            _ => None,
        }
    }

    /// Whether no call is open.
    pub fn is_idle(&self) -> bool
        ensures { IsTrue result ↔ (self.now.call.place ≡ Place.Idle) }
    {
        matches!(self.place, Place::Idle)
    }

    #[tactic(auto, using(crate::proofs::LogWords::word_laws))]
    /// Word `at` of the machine's log. Word 0 is the number of entries; then come the cell and the
    /// number of each entry.
    fn log_word(&self, at: u32) -> u32
        requires { at < length (log_words self.now.call.log) }
        ensures { result ≡ get_or (log_words self.now.call.log) at 0 }
    {
        if at == 0 {
            return self.log.len();
        }
        let (addr, value) = self.log.entry((at - 1) / 2);
        if at % 2 == 1 { addr } else { value }
    }

    /// The index in the table of a cell's durable word.
    #[tactic(auto, using(of_cell::proofs::Rooms::cells_small))]
    fn durable_word(&self, cell: u32) -> u32
        requires { cell < cell_count (machine_setup W.meaning self.now) }
        ensures value { result ≡ durable_at (machine_setup W.meaning self.now) cell }
        ensures below { result < words_before_members (machine_setup W.meaning self.now) }
    {
        self.durable + cell
    }

    #[tactic(auto, using(crate::proofs::Stability::log_in, of_cell::proofs::Rooms::cells_small))]
    /// The cell in which word `at` of the caller's own log is stored.
    fn own_log_cell(&self, at: u32) -> u32
        requires { at < 2 * log_room self.now.callers self.now.cells + 1 }
        ensures value { result ≡ log_at (machine_setup W.meaning self.now) self.now.call.caller at }
        ensures below { result < cell_count (machine_setup W.meaning self.now) }
    {
        self.own_log + at
    }

    /// The index in the table of a caller's ticket cell.
    fn ticket_word(&self, caller: u32) -> u32
        requires { caller < self.now.callers }
        ensures value { result ≡ ticket_word_at (machine_setup W.meaning self.now) caller }
        ensures below { result < cell_count (machine_setup W.meaning self.now) }
    {
        self.shape.data_cell(caller * OWN_CELLS)
    }

    /// The index in the table of the cell with the shape of the caller's own reply.
    fn shape_word(&self) -> u32
        ensures value { result
            ≡ shape_word_at (machine_setup W.meaning self.now) self.now.call.caller }
        ensures below { result < cell_count (machine_setup W.meaning self.now) }
    {
        self.shape.data_cell(self.caller * OWN_CELLS + 1)
    }

    /// The index in the table of the cell with number `at` of the caller's own reply.
    fn reply_word(&self, at: u32) -> u32
        requires { at < MOST_INSTRS }
        ensures value { result
            ≡ reply_word_at (machine_setup W.meaning self.now) self.now.call.caller at }
        ensures below { result < cell_count (machine_setup W.meaning self.now) }
    {
        self.shape.data_cell(self.caller * OWN_CELLS + 2 + at)
    }

    /// The next atomic step of the open call.
    #[inline(always)]
    #[tactic(auto, unfolding(crate::specs::Steps::want))]
    pub fn want(&self) -> Op
        requires { self.now.call.place ≢ Place.Idle }
        ensures value { result ≡ want (machine_setup W.meaning self.now) self.now.call }
        ensures range { IsOnTable (machine_setup W.meaning self.now) result }
    {
        self.perform(self.place, &NameStep, &mut ())
    }

    /// Performs the machine's next atomic step by the performer `by`, with `hand`. `place` is the
    /// place of the machine.
    #[inline(always)]
    pub fn perform<P: Performer>(&self, place: Place, by: &P, hand: &mut P::Hand) -> P::Given
        requires here { place ≡ self.now.call.place }
        requires takes { (op : Op) → op ≡ op_at W.meaning place self.now
            → IsOnTable (machine_setup W.meaning self.now) op → P.takes by.now hand.old op }
        ensures made { P.made by.now hand.old (op_at W.meaning place self.now) result hand.new }
        ensures range { IsOnTable (machine_setup W.meaning self.now)
            (op_at W.meaning place self.now) }
    {
        self.may_step();
        self.perform_at(place, by, hand)
    }

    /// Performs the atomic step that `place` names, as `perform` does. A machine that lags has
    /// another place.
    // in line, and with an arm for each place: it performs its own form of step and goes straight
    // on from there, with one jump by the place
    #[inline(always)]
    #[tactic(auto, using(crate::proofs::LogWords::word_laws))]
    pub fn perform_at<P: Performer>(&self, place: Place, by: &P, hand: &mut P::Hand) -> P::Given
        requires may { MayMake W.meaning self.now place }
        requires takes { (op : Op) → op ≡ op_at W.meaning place self.now
            → IsOnTable (machine_setup W.meaning self.now) op → P.takes by.now hand.old op }
        ensures made { P.made by.now hand.old (op_at W.meaning place self.now) result hand.new }
        ensures range { IsOnTable (machine_setup W.meaning self.now)
            (op_at W.meaning place self.now) }
    {
        match place {
            Place::Idle => by.load(hand, 0),
            Place::TryCurrent => by.load(hand, 0),
            Place::LoadCurrent => by.load(hand, 0),
            Place::TryRequest => by.load(hand, self.shape.request(self.owner)),
            Place::LoadRequest => by.load(hand, self.shape.request(self.owner)),
            Place::LookAgain => by.load(hand, self.shape.request(self.owner)),
            Place::TryCell(addr) => by.load(hand, self.shape.data_cell(addr)),
            Place::LoadCell(addr) => by.load(hand, self.shape.data_cell(addr)),
            Place::StoreScript(at) => by.store(
                hand,
                self.shape.script_word(self.caller, at),
                self.op[at as usize],
            ),
            Place::StoreAnnouncement => by.store(
                hand,
                self.shape.announce_word(self.caller),
                pack(self.made, self.op.len() as u32),
            ),
            Place::CopyLog(at) => by.load(hand, self.shape.log_word(self.owner, at)),
            Place::LoadOwnTicket => by.load(hand, self.ticket_word(self.caller)),
            Place::LoadShape => by.load(hand, self.shape_word()),
            Place::LoadReply(at) => by.load(hand, self.reply_word(at)),
            Place::LoadAnnouncement => by.load(hand, self.shape.announce_word(self.scan)),
            Place::LoadTicket => by.load(hand, self.ticket_word(self.scan)),
            Place::LoadScript(at) => by.load(hand, self.shape.script_word(self.scan, at)),
            Place::RaiseOld => by.raise(
                hand,
                self.durable_word(self.shape.request(self.caller)),
                self.kept,
            ),
            Place::StoreLog(at) => by.store(
                hand,
                self.own_log_cell(at),
                pack(self.seq + 1, self.log_word(at)),
            ),
            Place::RaiseLog(at) => by.raise(
                hand,
                self.durable_word(self.own_log_cell(at)),
                pack(self.seq + 1, self.log_word(at)),
            ),
            Place::StoreRequest => by.store(
                hand,
                self.shape.request(self.caller),
                pack(self.seq + 1, 0),
            ),
            Place::RaiseRequest => by.raise(
                hand,
                self.durable_word(self.shape.request(self.caller)),
                pack(self.seq + 1, 0),
            ),
            Place::ExchangeCurrent => by.exchange(
                hand,
                0,
                pack(self.seq, self.owner),
                pack(self.seq + 1, self.caller),
            ),
            Place::RaiseCurrent => by.raise(hand, self.durable_word(0), pack(self.seq, self.owner)),
            Place::LoadTarget(entry) => by.load(
                hand,
                self.shape.data_cell(self.log.entry(entry).0),
            ),
            Place::ReloadTarget(entry) => by.load(
                hand,
                self.shape.data_cell(self.log.entry(entry).0),
            ),
            Place::ExchangeTarget(entry, found) => {
                let (addr, value) = self.log.entry(entry);
                by.exchange(
                    hand,
                    self.shape.data_cell(addr),
                    found,
                    pack(self.seq, value),
                )
            }
            Place::RaiseTarget(entry, found) => by.raise(
                hand,
                self.durable_word(self.shape.data_cell(self.log.entry(entry).0)),
                found,
            ),
            Place::CloseRequest => by.exchange(
                hand,
                self.shape.request(self.owner),
                pack(self.seq, 0),
                pack(self.seq, 1),
            ),
            Place::RaiseClosed => by.raise(
                hand,
                self.durable_word(self.shape.request(self.owner)),
                pack(self.seq, 1),
            ),
        }
    }

    /// Goes on after the step that `want` named, which found the word `found`. If the step is a
    /// store, `found` may be any number.
    #[inline(always)]
    #[tactic(auto, unfolding(crate::specs::Steps::take_word))]
    pub fn take(&mut self, found: u64)
        requires open { self.old.call.place ≢ Place.Idle }
        requires good { MayTake (machine_setup W.meaning self.old) (W.lawful self.old.work)
            self.old.call found }
        ensures { self.new ≡ machine_after W.meaning (λ S m. take_word S m found) self.old }
    {
        self.take_at(self.place, found)
    }

    /// Goes on after the step that `place`, the machine's place, names, and which found the word
    /// `found`. If the step is a store, `found` may be any number.
    #[inline(always)]
    pub fn take_at(&mut self, place: Place, found: u64)
        requires here { place ≡ self.old.call.place }
        requires open { place ≢ Place.Idle }
        requires good { MayTake (machine_setup W.meaning self.old) (W.lawful self.old.work)
            self.old.call found }
        ensures { self.new ≡ machine_after W.meaning
            (λ S m. take_word_at S (with_step_counted place m) found place) self.old }
    {
        // the step bound keeps the count within its type
        self.steps += 1;
        match place {
            Place::Idle => unreachable!(),
            Place::TryCurrent => self.after_try_current(found),
            Place::TryRequest => self.after_try_request(found),
            Place::TryCell(addr) => self.after_try_cell(addr, found),
            Place::StoreScript(at) => self.after_store_script(at),
            Place::StoreAnnouncement => self.after_store_announcement(),
            Place::LoadCurrent => self.after_load_current(found),
            Place::LoadRequest => self.after_load_request(found),
            Place::CopyLog(at) => self.after_copy_log(at, found),
            Place::LookAgain => self.after_look_again(found),
            Place::LoadOwnTicket => self.after_own_ticket(found),
            Place::LoadShape => self.after_load_shape(found),
            Place::LoadReply(at) => self.after_load_reply(at, found),
            Place::LoadAnnouncement => self.after_load_announcement(found),
            Place::LoadTicket => self.after_load_ticket(found),
            Place::LoadScript(at) => self.after_load_script(at, found),
            Place::LoadCell(addr) => self.after_load_cell(addr, found),
            Place::RaiseOld => self.after_raise_old(),
            Place::StoreLog(at) => self.after_store_log(at),
            Place::RaiseLog(at) => self.after_raise_log(at),
            Place::StoreRequest => self.after_store_request(),
            Place::RaiseRequest => self.after_raise_request(),
            Place::ExchangeCurrent => self.after_exchange(found),
            Place::RaiseCurrent => self.after_raise_current(),
            Place::LoadTarget(entry) => self.after_load_target(entry, found),
            Place::ExchangeTarget(entry, old) => self.after_exchange_target(entry, old),
            Place::ReloadTarget(entry) => self.after_reload_target(entry, found),
            Place::RaiseTarget(entry, raised) => self.after_raise_target(entry, raised),
            Place::CloseRequest => self.after_close_request(),
            Place::RaiseClosed => self.after_raise_closed(),
        }
    }
}
