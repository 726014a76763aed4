//! Runs on cells that a call loads. An operation runs once, and each cell that the run asks for and
//! that is not known yet is loaded by a step of the call.

ghost use Rattle.std.specs.Prelude.{◌≡◌, ◌≤◌, [], Option, Some, None, Bool, true, false, length};
ghost use Rattle.std.specs.Prelude.{OnOk, OnErr, IfSome};
ghost use Rattle.of_mem.specs.declared.work.TheConstants.{MOST_INSTRS};
ghost use Rattle.of_mem.specs.Meaning.{Gives};
ghost use Rattle.of_core.specs.Fit.{is_scanning};
ghost use Rattle.of_core.specs.OwedRun.{OwesRun, after_run, run_end, owed_words};

use super::Caller;
use of_brake::{Brake, Steps};
use of_cell::payload_of;
use of_mem::{Cells, MOST_INSTRS, Need, Plot, RawReply, Sought, Walk, Work};
use of_row::{Row, Stopped};
use std::marker::{Brand, PhantomData};
use std::sync::ledger::Ledger;

/// How the steps of a run have gone so far.
#[derive(Clone, Copy)]
pub(crate) enum Course {
    /// The machine owes the run.
    GoesOn,
    /// A cell was newer than the state on which the operation runs. This has ended the try or the
    /// round.
    HasEnded,
    /// The brake has denied a step.
    WasDenied,
}

/// Which run a machine owes. It is a type, so that the compiler knows the place of each load.
pub(crate) trait RunKind {
    /// Whether the run is that of a scanned script, or else of a try.
    ghost scans: { Bool };

    /// Tells `scans`.
    fn in_scan() -> bool
        ensures { result ≡ scans };
}

/// The run of a scanned script.
pub(crate) struct OfScan;

/// The run of a try.
pub(crate) struct OfTry;

impl RunKind for OfScan {
    ghost scans = { true };

    #[inline(always)]
    fn in_scan() -> bool {
        true
    }
}

impl RunKind for OfTry {
    ghost scans = { false };

    #[inline(always)]
    fn in_scan() -> bool {
        false
    }
}

/// The front of a run; given for the proof alone.
pub(crate) trait LoadArgs<W, B> {
    ghost use Rattle.of_caller.specs.Fronts.{Front};

    ghost front: { Option (Front W B) };
}

impl<W, B> LoadArgs<W, B> for Brand {
    ghost front = { None };
}

/// The cells of a run: a cell that is not known yet is loaded by a step of the call. What the run
/// writes lies in the caller's write-set until the run has ended.
pub(crate) struct Loading<'c, 'r, 'b, 's, W: Work, L: Ledger, B: Brake, K, O> {
    caller: &'c mut Caller<W>,
    row: &'r Row<W>,
    brake: &'b mut B,
    steps: &'s mut Steps<L>,
    course: Course,
    kind: PhantomData<K>,
    told: PhantomData<O>,
}

impl<'c, 'r, 'b, 's, W: Work, L: Ledger, B: Brake, K: RunKind, O: LoadArgs<W, B>> Cells
    for Loading<'c, 'r, 'b, 's, W, L, B, K, O> {
    ghost use Rattle.of_caller.specs.Loading.{told};

    ghost run = { λ l. told W.meaning W.lawful B.denials B.left B.answers B.asks l.row.now O.front
        K.scans l.caller.ghost_name l.brake.ghost_name l.steps.ghost_name l.course
        l.caller.now l.brake.now l.steps.now };

    #[inline(always)]
    fn get(&mut self, addr: u32) -> Result<u32, Need> {
        let in_scan = K::in_scan();
        if let Some(value) = self.caller.written(addr) {
            return Ok(value);
        }
        let Course::GoesOn = self.course else {
            return self.caller.machine.newest_for(in_scan, addr);
        };
        match self.caller.machine.newest(in_scan, addr) {
            Ok(value) => return Ok(value),
            Err(_) => {}
        }
        let place = self.caller.machine.lack(in_scan, addr);
        match self
            .caller
            .turn_owing(place, self.row, self.brake, self.steps)
        {
            Ok(Some(found)) => Ok(payload_of(found)),
            Ok(None) => {
                self.course = Course::HasEnded;
                Err(Need { addr })
            }
            Err(_) => {
                self.course = Course::WasDenied;
                Err(Need { addr })
            }
        }
    }

    #[inline(always)]
    fn set(&mut self, addr: u32, value: u32) {
        self.caller.writes.put(addr, value);
    }

    #[inline(always)]
    fn walk_to(&self, plot: &Plot, sought: Sought) -> Walk {
        Walk::front(plot, sought)
    }

    #[inline(always)]
    fn keep_walk_to(&mut self, _plot: &Plot, _sought: Sought, _walk: Walk) {}
}

impl<W: Work> Caller<W> {
    ghost use Rattle.of_mem.specs.CellMap.{value_for};
    ghost use Rattle.of_caller.specs.Callers.{IsCaller, caller_call};
    ghost use Rattle.of_caller.specs.Going.{LeadsOn, LeadsToDenial, true_caller, steps_left};
    ghost use Rattle.of_caller.specs.Fronts.{front_now};
    ghost use Rattle.of_caller.specs.Loading.{Stands, RunEndsAs};
    ghost use Rattle.of_caller.specs.declared.caller.loading.Course.TheVariants.{GoesOn};

    /// What the run on its way has written at an address. None if it has written nothing there.
    // most runs read before they write, and many write nothing
    #[inline(always)]
    fn written(&self, addr: u32) -> Option<u32>
        ensures { result ≡ value_for self.now.writes.entries addr }
    {
        if self.writes.is_empty() {
            return None;
        }
        self.writes.get(addr)
    }

    /// Makes the run that the machine owes.
    // out of line: a run of a try whose operation is at hand has its own code
    #[inline(never)]
    pub(super) fn run_owed<L: Ledger, B: Brake>(
        &mut self,
        row: &Row<W>,
        brake: &mut B,
        steps: &mut Steps<L>,
    ) -> Result<(), Stopped>
        requires caller { IsCaller W.meaning row.now (true_caller W.meaning true self.old) }
        requires owes { OwesRun W.meaning W.lawful self.old.machine }
        ensures caller { IsCaller W.meaning row.now self.new }
        ensures goes { OnOk result (LeadsOn W.meaning W.lawful B.denials B.left B.answers B.asks
            row.now (true_caller W.meaning true self.old) brake.old steps.old self.new brake.new
            steps.new) }
        ensures denied { OnErr result (LeadsToDenial W.meaning W.lawful B.denials B.left B.answers
            B.asks row.now (true_caller W.meaning true self.old) brake.old steps.old self.new
            brake.new steps.new) }
        ensures falls { OnOk result (steps_left W.meaning self.new
            ≤ steps_left W.meaning (true_caller W.meaning true self.old)) }
    {
        let in_scan = self.machine.owes_script();
        let (words, count) = self.machine.owed_words(in_scan);
        let words = &words[..count];
        if in_scan {
            self.run_on_cells::<L, B, OfScan>(words, row, brake, steps)
        } else {
            self.run_on_cells::<L, B, OfTry>(words, row, brake, steps)
        }
    }

    /// Makes the run that the machine owes, of these words. The words are not the machine's own, which are out of reach while the
    /// cells hold the caller.
    #[inline(always)]
    pub(super) fn run_on_cells<L: Ledger, B: Brake, K: RunKind>(
        &mut self,
        words: &[u64],
        row: &Row<W>,
        brake: &mut B,
        steps: &mut Steps<L>,
    ) -> Result<(), Stopped>
        requires caller { IsCaller W.meaning row.now (true_caller W.meaning true self.old) }
        requires owes { OwesRun W.meaning W.lawful self.old.machine }
        requires kind { is_scanning (caller_call self.old).place ≡ K.scans }
        requires words { words.now ≡ owed_words K.scans (caller_call self.old) }
        requires few { length words.now ≤ MOST_INSTRS }
        ensures caller { IsCaller W.meaning row.now self.new }
        ensures goes { OnOk result (LeadsOn W.meaning W.lawful B.denials B.left B.answers B.asks
            row.now (true_caller W.meaning true self.old) brake.old steps.old self.new brake.new
            steps.new) }
        ensures denied { OnErr result (LeadsToDenial W.meaning W.lawful B.denials B.left B.answers
            B.asks row.now (true_caller W.meaning true self.old) brake.old steps.old self.new
            brake.new steps.new) }
        ensures falls { OnOk result (steps_left W.meaning self.new
            ≤ steps_left W.meaning (true_caller W.meaning true self.old)) }
    {
        self.writes.clear();
        self.run_afresh::<L, B, K>(words, row, brake, steps)
    }

    /// Does what `run_on_cells` does, with nothing written yet.
    #[inline(always)]
    fn run_afresh<L: Ledger, B: Brake, K: RunKind>(
        &mut self,
        words: &[u64],
        row: &Row<W>,
        brake: &mut B,
        steps: &mut Steps<L>,
    ) -> Result<(), Stopped>
        requires caller { IsCaller W.meaning row.now (true_caller W.meaning true self.old) }
        requires owes { OwesRun W.meaning W.lawful self.old.machine }
        requires kind { is_scanning (caller_call self.old).place ≡ K.scans }
        requires words { words.now ≡ owed_words K.scans (caller_call self.old) }
        requires few { length words.now ≤ MOST_INSTRS }
        requires fresh { self.old.writes.entries ≡ [] }
        ensures caller { IsCaller W.meaning row.now self.new }
        ensures goes { OnOk result (LeadsOn W.meaning W.lawful B.denials B.left B.answers B.asks
            row.now (true_caller W.meaning true self.old) brake.old steps.old self.new brake.new
            steps.new) }
        ensures denied { OnErr result (LeadsToDenial W.meaning W.lawful B.denials B.left B.answers
            B.asks row.now (true_caller W.meaning true self.old) brake.old steps.old self.new
            brake.new steps.new) }
        ensures falls { OnOk result (steps_left W.meaning self.new
            ≤ steps_left W.meaning (true_caller W.meaning true self.old)) }
    {
        let mut reply = RawReply {
            shape: 0,
            values: [0; MOST_INSTRS],
        };
        let mut cells: Loading<W, L, B, K, Brand> = Loading {
            caller: self,
            row,
            brake,
            steps,
            course: Course::GoesOn,
            kind: PhantomData,
            told: PhantomData,
        };
        let ran = Self::run::<L, B, K, Brand>(&mut cells, words, &mut reply);
        let Loading {
            caller: _,
            row: _,
            brake: _,
            steps: _,
            course,
            kind: _,
            told: _,
        } = cells;
        match course {
            Course::GoesOn => {}
            Course::HasEnded => return Ok(()),
            Course::WasDenied => return Err(Stopped),
        }
        self.end_run(K::in_scan(), ran, &reply);
        Ok(())
    }

    /// Runs the words on cells that the call loads. They hold the same caller, brake and count of
    /// steps afterwards. Ok says whether the writes are to be undone.
    #[inline(always)]
    fn run<L: Ledger, B: Brake, K: RunKind, O: LoadArgs<W, B>>(
        cells: &mut Loading<W, L, B, K, O>,
        words: &[u64],
        reply: &mut RawReply,
    ) -> Option<Result<bool, Need>>
        requires told { O.front ≡ Some (front_now W.meaning cells.old.row.now K.scans
            cells.old.caller cells.old.brake cells.old.steps) }
        requires goes_on { cells.old.course ≡ GoesOn }
        requires caller { IsCaller W.meaning cells.old.row.now
            (true_caller W.meaning true cells.old.caller.now) }
        requires owes { OwesRun W.meaning W.lawful cells.old.caller.now.machine }
        requires kind { is_scanning (caller_call cells.old.caller.now).place ≡ K.scans }
        requires words { words.now ≡ owed_words K.scans
            (caller_call cells.old.caller.now) }
        requires few { length words.now ≤ MOST_INSTRS }
        requires fresh { cells.old.caller.now.writes.entries ≡ [] }
        ensures same_caller { cells.new.caller.ghost_name ≡ cells.old.caller.ghost_name }
        ensures same_brake { cells.new.brake.ghost_name ≡ cells.old.brake.ghost_name }
        ensures same_steps { cells.new.steps.ghost_name ≡ cells.old.steps.ghost_name }
        ensures stands { Stands W.meaning W.lawful B.denials B.left B.answers B.asks
            cells.old.row.now (front_now W.meaning cells.old.row.now K.scans
            cells.old.caller cells.old.brake cells.old.steps) cells.new.course
            cells.new.caller.now cells.new.brake.now cells.new.steps.now }
        ensures ran { cells.new.course ≡ GoesOn → IfSome result (λ r. RunEndsAs W.meaning
            cells.new.caller.now r reply.new) }
    {
        // the row has as many cells as its work
        let _ = cells.row.shape();
        let work = cells.row.work();
        let in_scan = K::in_scan();
        if in_scan {
            return work.run_from(cells, words, reply);
        }
        match work.read_from(cells, words, reply) {
            // a read leaves no writes
            Some(Ok(())) => Some(Ok(true)),
            Some(Err(need)) => Some(Err(need)),
            None => None,
        }
    }

    /// Ends the run that the machine owes, as `ran` says that it ended. If no run was made on cells,
    /// the machine makes it.
    #[inline(always)]
    fn end_run(&mut self, in_scan: bool, ran: Option<Result<bool, Need>>, reply: &RawReply)
        requires owes { OwesRun W.meaning W.lawful self.old.machine }
        requires kind { is_scanning (caller_call self.old).place ≡ in_scan }
        requires room { self.old.writes.room ≡ self.old.machine.cells }
        requires ran { IfSome ran (λ r. RunEndsAs W.meaning self.old r reply.now) }
        ensures machine { self.new.machine ≡ after_run W.meaning self.old.machine }
        ensures member { self.new.member ≡ self.old.member }
        ensures room { self.new.writes.room ≡ self.old.writes.room }
    {
        match ran {
            // the work runs no operation in this way
            None => self.machine.make_run(),
            Some(Err(need)) => {
                self.machine.lack(in_scan, need.addr);
            }
            Some(Ok(undone)) => {
                if undone {
                    self.writes.clear();
                    return self.finish_run(in_scan, reply);
                }
                self.finish_run(in_scan, reply)
            }
        }
    }

    /// Ends the run that the machine owes, which gave this reply and the writes of the write-set.
    #[inline(always)]
    fn finish_run(&mut self, in_scan: bool, reply: &RawReply)
        requires owes { OwesRun W.meaning W.lawful self.old.machine }
        requires kind { is_scanning (caller_call self.old).place ≡ in_scan }
        requires room { self.old.writes.room ≡ self.old.machine.cells }
        requires gives { run_end W.meaning self.old.machine
            ≡ Gives self.old.writes.entries reply.now }
        ensures machine { self.new.machine ≡ after_run W.meaning self.old.machine }
        ensures member { self.new.member ≡ self.old.member }
        ensures writes { self.new.writes ≡ self.old.writes }
    {
        if in_scan {
            self.machine.join_batch(&self.writes, reply);
        } else {
            self.machine.answer_read(reply);
        }
    }
}
