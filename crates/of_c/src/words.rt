//! The durable words of a memory, and what is saved with other sequences.

ghost use Rattle.std.specs.Prelude.{◌≡◌, ◌≢◌, ◌↔◌, ◌∷◌, [], IfErr, IsSome, Some};
ghost use Rattle.of_memory.specs.Saving.{saved_seq};
ghost use Rattle.of_memory.specs.Words.{AreCounts, AreStartWords, AreCountsOf};
ghost use Rattle.of_eval.specs.declared.scripts.Scripts.{Scripts as TheScripts};
ghost use Rattle.of_c.specs.declared.codes.TheConstants.{DONE, EMPTY, FULL, NO_MEMORY};
ghost use Rattle.of_c.specs.declared.codes.TheConstants.{NO_START, RANGE};
ghost use Rattle.of_c.specs.Words.{ShowsSizes, HoldsWords, HoldsRenumbered, HoldsLimited};
ghost use Rattle.of_c.specs.Causes.{IsOneCode, HoldsNo, IsNotSaved, HoldsSavedWith};
ghost use Rattle.of_c.specs.Causes.{AreOutOfWords, HasCellAtFault, RefusesLimit, words_code};

use crate::codes::{DONE, EMPTY, FULL, NO_MEMORY, NO_START, RANGE};
use crate::held::{Held, Kept};
use crate::slot::Slot;
use crate::truth::{OfSaved, surely};
use of_memory::{LimitError, Saved, WordsError, sizes};
use std::alloc::Global;
use std::mem::replace;

/// How many words the table of a memory has, and where its durable words are among them: one after
/// the other, from the place `first` on.
#[repr(C)]
#[derive(Drop)]
pub struct CSizes {
    pub words: u64,
    pub first: u64,
    pub durable: u64,
}

/// The sizes of the table of a memory with these callers and blocks.
#[unsafe(no_mangle)]
pub extern "C" fn of_c_sizes(callers: u32, blocks: u32, shown: &mut CSizes) -> u32
    ensures told { result ≡ DONE → ShowsSizes callers blocks shown.new }
    ensures codes { IsOneCode (DONE ∷ RANGE ∷ []) result }
    ensures done { (result ≡ DONE) ↔ AreCounts callers blocks }
    ensures unread { result ≢ DONE → shown.new ≡ shown.old }
{
    match sizes(callers, blocks) {
        Some(sizes) => {
            shown.words = u64::from(sizes.words);
            shown.first = u64::from(sizes.first);
            shown.durable = u64::from(sizes.durable);
            DONE
        }
        None => RANGE,
    }
}

// The code of why nothing is found in words.
fn code_of_words(cause: WordsError) -> u32
    ensures { result ≡ words_code cause }
{
    match cause {
        WordsError::OutOfMemory => NO_MEMORY,
        WordsError::Callers { callers: _ } => RANGE,
        WordsError::Blocks { blocks: _ } => RANGE,
        WordsError::Limit { limit: _ } => RANGE,
        WordsError::Count { count: _ } => RANGE,
        WordsError::Unlawful { cell: _ } => NO_START,
        WordsError::PastLimit { seq: _ } => RANGE,
    }
}

/// Fills the slot with what recovery finds in the durable words of a memory's table, which were
/// copied out of the table at any moment.
#[unsafe(no_mangle)]
pub extern "C" fn of_c_from_words(
    alloc: Global,
    callers: u32,
    blocks: u32,
    limit: u32,
    words: &[u64],
    saved: &mut Slot,
) -> u32
    ensures read { result ≡ DONE
        → HoldsWords callers blocks limit words.now saved.new.raw.held }
    ensures codes { IsOneCode (DONE ∷ FULL ∷ NO_MEMORY ∷ RANGE ∷ NO_START ∷ []) result }
    ensures full { (result ≡ FULL) ↔ IsSome saved.old.raw.held }
    ensures range { result ≡ RANGE → AreOutOfWords callers blocks limit words.now }
    ensures fault { result ≡ NO_START → HasCellAtFault callers blocks words.now }
    // Words from which a table may start are taken, unless memory runs out.
    ensures back { (w : TheScripts) → AreCountsOf w callers blocks
        → AreStartWords w limit words.now
        → IsOneCode (DONE ∷ FULL ∷ NO_MEMORY ∷ []) result }
    ensures refused { result ≢ DONE → saved.new.raw.held ≡ saved.old.raw.held }
{
    if !saved.is_empty() {
        return FULL;
    }
    match Saved::from_words(alloc, callers, blocks, limit, words) {
        Ok(left) => saved.keep(alloc, Held::Saved(Kept { saved: left })),
        Err(cause) => code_of_words(cause),
    }
}

// Begins the sequences of what is held anew, if a memory has left it.
fn renumber_held(held: &mut Held) -> u32
    ensures renumbered { result ≡ DONE → HoldsRenumbered (Some held.old) (Some held.new) }
    ensures codes { IsOneCode (DONE ∷ EMPTY ∷ []) result }
    ensures empty { (result ≡ EMPTY) ↔ IsNotSaved held.old }
    ensures refused { result ≢ DONE → held.new ≡ held.old }
{
    match replace(held, Held::Nothing) {
        Held::Saved(kept) => {
            surely::<Saved, OfSaved>(&kept.saved);
            let saved = kept.saved.renumbered();
            *held = Held::Saved(Kept { saved });
            DONE
        }
        other => {
            *held = other;
            EMPTY
        }
    }
}

/// Sets the last committed sequence to 0 in what a memory has left. Store, tickets and replies
/// stay.
#[unsafe(no_mangle)]
pub extern "C" fn of_c_renumber(alloc: Global, saved: &mut Slot) -> u32
    ensures renumbered { result ≡ DONE
        → HoldsRenumbered saved.old.raw.held saved.new.raw.held }
    ensures codes { IsOneCode (DONE ∷ EMPTY ∷ []) result }
    ensures empty { (result ≡ EMPTY) ↔ HoldsNo IsNotSaved saved.old.raw.held }
    ensures refused { result ≢ DONE → saved.new.raw.held ≡ saved.old.raw.held }
{
    let Some(mut held) = saved.take(alloc) else {
        return EMPTY;
    };
    let code = renumber_held(&mut held);
    saved.put(held);
    code
}

// Gives another limit to what is held, if a memory has left it.
fn limit_held(held: &mut Held, limit: u32) -> u32
    ensures limited { result ≡ DONE → HoldsLimited limit (Some held.old) (Some held.new) }
    ensures codes { IsOneCode (DONE ∷ EMPTY ∷ RANGE ∷ []) result }
    ensures empty { (result ≡ EMPTY) ↔ IsNotSaved held.old }
    ensures range { result ≡ RANGE → HoldsSavedWith (RefusesLimit limit) (Some held.old) }
    ensures same { result ≢ DONE → held.new ≡ held.old }
{
    match replace(held, Held::Nothing) {
        Held::Saved(kept) => {
            surely::<Saved, OfSaved>(&kept.saved);
            match kept.saved.with_limit(limit) {
                Ok(saved) => {
                    *held = Held::Saved(Kept { saved });
                    DONE
                }
                Err(LimitError(saved)) => {
                    *held = Held::Saved(Kept { saved });
                    RANGE
                }
            }
        }
        other => {
            *held = other;
            EMPTY
        }
    }
}

/// Gives another limit to what a memory has left.
#[unsafe(no_mangle)]
pub extern "C" fn of_c_set_limit(alloc: Global, saved: &mut Slot, limit: u32) -> u32
    ensures limited { result ≡ DONE
        → HoldsLimited limit saved.old.raw.held saved.new.raw.held }
    ensures codes { IsOneCode (DONE ∷ EMPTY ∷ RANGE ∷ []) result }
    ensures empty { (result ≡ EMPTY) ↔ HoldsNo IsNotSaved saved.old.raw.held }
    ensures range { result ≡ RANGE → HoldsSavedWith (RefusesLimit limit) saved.old.raw.held }
    ensures same { result ≢ DONE → saved.new.raw.held ≡ saved.old.raw.held }
{
    let Some(mut held) = saved.take(alloc) else {
        return EMPTY;
    };
    let code = limit_held(&mut held, limit);
    saved.put(held);
    code
}

fn seq_held(held: &Held, seq: &mut u32) -> u32
    ensures read { result ≡ DONE
        → HoldsSavedWith (λ d. seq.new ≡ saved_seq d) (Some held.now) }
    ensures codes { IsOneCode (DONE ∷ EMPTY ∷ []) result }
    ensures empty { (result ≡ EMPTY) ↔ IsNotSaved held.now }
    ensures unread { result ≢ DONE → seq.new ≡ seq.old }
{
    match held {
        Held::Saved(kept) => {
            surely::<Saved, OfSaved>(&kept.saved);
            *seq = kept.saved.seq();
            DONE
        }
        _ => EMPTY,
    }
}

/// Reads the last sequence that was committed in what a memory has left.
#[unsafe(no_mangle)]
pub extern "C" fn of_c_seq(alloc: Global, saved: &mut Slot, seq: &mut u32) -> u32
    ensures read { result ≡ DONE
        → HoldsSavedWith (λ d. seq.new ≡ saved_seq d) saved.old.raw.held }
    ensures codes { IsOneCode (DONE ∷ EMPTY ∷ []) result }
    ensures empty { (result ≡ EMPTY) ↔ HoldsNo IsNotSaved saved.old.raw.held }
    ensures same { saved.new.raw.held ≡ saved.old.raw.held }
    ensures unread { result ≢ DONE → seq.new ≡ seq.old }
{
    let Some(held) = saved.take(alloc) else {
        return EMPTY;
    };
    let code = seq_held(&held, seq);
    saved.put(held);
    code
}
