//! A run that is made outside of the machine: that of a try, or of a script of the scan. The machine
//! owes the run, and loads the cells for which the run asks.

ghost use Rattle.std.specs.Prelude.{◌≡◌, ◌≢◌, ◌<◌, ◌≤◌, ℕ, length, Bool, IsTrue, true, false};
ghost use Rattle.of_mem.specs.Meaning.{Gives};
ghost use Rattle.of_mem.specs.CellMap.{value_for};
ghost use Rattle.of_mem.specs.Part.{ReadsAt};
ghost use Rattle.of_core.specs.Fit.{is_scanning};
ghost use Rattle.of_core.specs.MachineValue.{machine_setup, machine_after, KnowsState};
ghost use Rattle.of_core.specs.Meets.{MayTake};
ghost use Rattle.of_core.specs.OwedRun.{after_run, after_run_if, after_step_at, OwesRun};
ghost use Rattle.of_core.specs.OwedRun.{open_reading, LacksCell, RunGives, at_load, load_for};
ghost use Rattle.of_core.specs.OwedRun.{with_cell_loaded, run_end, run_part, run_batch};
ghost use Rattle.of_core.specs.declared.place.Place.TheVariants.{Idle, TryRequest, TryCell};
ghost use Rattle.of_core.specs.declared.place.Place.TheVariants.{LoadScript, LoadCell};

use crate::machine::Machine;
use crate::place::{Outcome, Place};
use of_cell::{pack, payload_of, seq_of};
use of_mem::{Need, RawReply, Work, WriteSet};

/// The load of a cell for a run of the scan, or for the run of a try.
#[inline(always)]
fn load_place(in_scan: bool, addr: u32) -> Place
    ensures { result ≡ load_for in_scan addr }
{
    if in_scan {
        Place::LoadCell(addr)
    } else {
        Place::TryCell(addr)
    }
}

impl<W: Work> Machine<W> {
    /// Goes on after the step that `place`, the machine's place, names, and which found the word
    /// `found`, as `take_at` does. But if the step leads to a run, the answer is true and the machine
    /// owes this run: what it has come to is the machine after the run.
    #[inline(always)]
    pub fn take_owing(&mut self, place: Place, found: u64) -> bool
        requires here { place ≡ self.old.call.place }
        requires open { place ≢ Idle }
        requires good { MayTake (machine_setup W.meaning self.old) (W.lawful self.old.work)
            self.old.call found }
        ensures after { after_run_if W.meaning result self.new
            ≡ after_step_at W.meaning place found self.old }
        ensures owes { IsTrue result → OwesRun W.meaning W.lawful self.new }
        ensures kind { IsTrue result
            → is_scanning self.new.call.place ≡ is_scanning place }
        ensures loaded { IsTrue result → (in_scan : Bool) (a : ℕ) → place ≡ load_for in_scan a
            → self.new ≡ with_cell_loaded W.meaning self.old a found }
        ensures over { result ≡ false → (in_scan : Bool) (a : ℕ) → place ≡ load_for in_scan a
            → run_part in_scan self.new.call ≡ run_part in_scan self.old.call }
    {
        match place {
            Place::TryRequest => self.take_request(found),
            Place::TryCell(addr) => self.take_cell(addr, found),
            Place::LoadScript(at) => self.take_script_word(at, found),
            Place::LoadCell(addr) => self.take_scanned_cell(addr, found),
            _ => {
                self.take_at(place, found);
                false
            }
        }
    }

    /// Goes on after a try's load of the owner's request.
    #[inline(always)]
    fn take_request(&mut self, found: u64) -> bool
        requires here { self.old.call.place ≡ TryRequest }
        requires good { MayTake (machine_setup W.meaning self.old) (W.lawful self.old.work)
            self.old.call found }
        ensures after { after_run_if W.meaning result self.new
            ≡ after_step_at W.meaning TryRequest found self.old }
        ensures owes { IsTrue result → OwesRun W.meaning W.lawful self.new }
        ensures kind { IsTrue result → is_scanning self.new.call.place ≡ false }
    {
        self.steps += 1;
        if self.seq > 0 && found == pack(self.seq, 0) {
            self.help();
            return false;
        }
        self.open_reading();
        true
    }

    /// Comes to the run of a try, and owes it if the operation only reads. No cell is known yet.
    pub(super) fn open_reading(&mut self)
        requires some { 1 ≤ length self.old.call.op }
        ensures comes { self.new ≡ machine_after W.meaning open_reading self.old }
        ensures knows { KnowsState W.lawful self.new self.new.call.known }
        ensures owes { (W.meaning self.old.work).reads_only self.old.call.op ≡ true
            → OwesRun W.meaning W.lawful self.new }
    {
        self.part.clear();
        self.helps = false;
        // cells are asked for from here on
        self.place = Place::TryCell(0);
    }

    /// Goes on after a try's load of a cell. A cell that is newer than the try's state ends the try.
    #[inline(always)]
    fn take_cell(&mut self, addr: u32, found: u64) -> bool
        requires here { self.old.call.place ≡ TryCell addr }
        requires good { MayTake (machine_setup W.meaning self.old) (W.lawful self.old.work)
            self.old.call found }
        ensures after { after_run_if W.meaning result self.new
            ≡ after_step_at W.meaning (TryCell addr) found self.old }
        ensures owes { IsTrue result → OwesRun W.meaning W.lawful self.new }
        ensures kind { IsTrue result → is_scanning self.new.call.place ≡ false }
        ensures loaded { IsTrue result → self.new
            ≡ with_cell_loaded W.meaning self.old addr found }
        ensures over { result ≡ false → self.new.call.known ≡ self.old.call.known }
    {
        self.steps += 1;
        if self.seq < seq_of(found) {
            self.end_try();
            return false;
        }
        self.part.learn(addr, payload_of(found));
        true
    }

    /// Goes on after the load of a script word. After the last one comes the run of the script.
    #[inline(always)]
    fn take_script_word(&mut self, at: u32, found: u64) -> bool
        requires here { self.old.call.place ≡ LoadScript at }
        requires good { MayTake (machine_setup W.meaning self.old) (W.lawful self.old.work)
            self.old.call found }
        ensures after { after_run_if W.meaning result self.new
            ≡ after_step_at W.meaning (LoadScript at) found self.old }
        ensures owes { IsTrue result → OwesRun W.meaning W.lawful self.new }
        ensures kind { IsTrue result → is_scanning self.new.call.place ≡ true }
    {
        self.steps += 1;
        // there is room for the words of every script
        self.script.push_reserved(found);
        if at + 1 < payload_of(self.heard) {
            self.place = Place::LoadScript(at + 1);
            return false;
        }
        // cells are asked for from here on
        self.place = Place::LoadCell(0);
        true
    }

    /// Goes on after the load of a cell for a run of the scan. A cell that is newer than the round's
    /// state ends the round.
    #[inline(always)]
    fn take_scanned_cell(&mut self, addr: u32, found: u64) -> bool
        requires here { self.old.call.place ≡ LoadCell addr }
        requires good { MayTake (machine_setup W.meaning self.old) (W.lawful self.old.work)
            self.old.call found }
        ensures after { after_run_if W.meaning result self.new
            ≡ after_step_at W.meaning (LoadCell addr) found self.old }
        ensures owes { IsTrue result → OwesRun W.meaning W.lawful self.new }
        ensures kind { IsTrue result → is_scanning self.new.call.place ≡ true }
        ensures loaded { IsTrue result → self.new
            ≡ with_cell_loaded W.meaning self.old addr found }
        ensures over { result ≡ false
            → run_part true self.new.call ≡ run_part true self.old.call }
    {
        self.steps += 1;
        if seq_of(found) > self.seq {
            self.place = Place::LoadCurrent;
            return false;
        }
        self.part.learn(addr, payload_of(found));
        true
    }

    /// The newest number of a cell, as the owed run sees it before it writes. `in_scan` says whether
    /// the run is one of the scan. The error names the cell if it is not known.
    #[inline(always)]
    #[tactic(auto, unfolding(of_mem::specs::Part::newest_at))]
    pub fn newest(&self, in_scan: bool, addr: u32) -> Result<u32, Need>
        requires owes { OwesRun W.meaning W.lawful self.now }
        requires kind { is_scanning self.now.call.place ≡ in_scan }
        requires below { addr < length self.now.call.known }
        ensures { ReadsAt (run_part in_scan self.now.call) addr result }
    {
        if in_scan {
            return self.part.part().read(addr);
        }
        // a try has no batch, so what is known is the newest
        match self.part.part().known(addr) {
            Some(value) => Ok(value),
            None => Err(Need { addr }),
        }
    }

    /// What `newest` says, for a run that the machine may owe no more.
    // out of line: a run asks for nothing more after its steps have ended
    #[cold]
    #[inline(never)]
    #[tactic(auto, unfolding(of_mem::specs::Part::newest_at))]
    pub fn newest_for(&self, in_scan: bool, addr: u32) -> Result<u32, Need>
        requires below { addr < length self.now.call.known }
        ensures { ReadsAt (run_part in_scan self.now.call) addr result }
    {
        match self
            .batch_write(in_scan, addr)
            .or(self.part.part().known(addr))
        {
            Some(value) => Ok(value),
            None => Err(Need { addr }),
        }
    }

    /// The write of the batch to a cell, as a run sees it. A try sees none.
    fn batch_write(&self, in_scan: bool, addr: u32) -> Option<u32>
        ensures { result ≡ value_for (run_batch in_scan self.now.call) addr }
    {
        if in_scan { self.log.get(addr) } else { None }
    }

    /// Whether the run that is owed is one of the scan.
    #[inline(always)]
    pub fn owes_script(&self) -> bool
        requires { OwesRun W.meaning W.lawful self.now }
        ensures { result ≡ is_scanning self.now.call.place }
    {
        matches!(self.place, Place::LoadCell(_))
    }

    /// Comes to the load of the cell that the owed run needs, and tells this place. `in_scan` says
    /// whether the run is one of the scan.
    #[inline(always)]
    pub fn lack(&mut self, in_scan: bool, addr: u32) -> Place
        requires owes { OwesRun W.meaning W.lawful self.old }
        requires kind { is_scanning self.old.call.place ≡ in_scan }
        requires lacks { LacksCell W.meaning self.old addr }
        ensures place { result ≡ load_for in_scan addr }
        ensures after { self.new ≡ after_run W.meaning self.old }
        ensures load { self.new ≡ at_load self.old addr }
    {
        let place = load_place(in_scan, addr);
        self.place = place;
        place
    }

    /// Ends the call with the reply of the run of a try that was owed.
    #[inline(always)]
    pub fn answer_read(&mut self, raw: &RawReply)
        requires owes { OwesRun W.meaning W.lawful self.old }
        requires reads { is_scanning self.old.call.place ≡ false }
        requires gives { RunGives W.meaning self.old raw.now }
        ensures { self.new ≡ after_run W.meaning self.old }
    {
        self.place = Place::Idle;
        self.answer = Some(Outcome::Answered {
            seq: self.seq,
            announced: false,
            raw: *raw,
            steps: self.steps,
        });
        self.steps = 0;
    }

    /// Adds the scanned call to the batch, with the writes and the reply of the run that was owed.
    pub fn join_batch(&mut self, writes: &WriteSet, raw: &RawReply)
        requires owes { OwesRun W.meaning W.lawful self.old }
        requires scanning { is_scanning self.old.call.place ≡ true }
        requires room { writes.now.room ≡ self.old.cells }
        requires gives { run_end W.meaning self.old ≡ Gives writes.now.entries raw.now }
        ensures { self.new ≡ after_run W.meaning self.old }
    {
        self.may_step();
        self.add_run(writes, raw);
    }

    /// Makes the run that is owed.
    pub fn make_run(&mut self)
        requires { OwesRun W.meaning W.lawful self.old }
        ensures { self.new ≡ after_run W.meaning self.old }
    {
        self.may_step();
        if self.owes_script() {
            self.run();
        } else {
            self.read_on();
        }
    }
}
