//! How an address is found among entries: by the chain of the entries with the same home.

ghost use Rattle.std.specs.Prelude.{◌≡◌, ◌<◌, ◌%◌, length, MatchOption};
ghost use Rattle.of_mem.specs.declared.index.TheConstants.{HOMES};
ghost use Rattle.of_mem.specs.CellMap.{IsAbsent, IsEntryFor};
ghost use Rattle.of_mem.specs.Chains.{pairs_of, olders_of, latest, HasFronts, HasChains};

/// How many homes there are. The home of an address is its remainder by this number. The number is
/// a power of two, so the remainder is a mask.
pub const HOMES: u32 = 1024;

/// An entry of a write-set. Its fields are kept together, so that reading an entry touches one
/// place in memory.
#[derive(Clone, Copy, Drop)]
pub struct Entry {
    /// The address, and the number written there.
    pub pair: (u32, u32),
    /// The number of the last earlier entry with the same home, 0 if there is none. An entry's
    /// number is its index plus 1.
    pub older: u32,
}

/// The number of the last entry with this home, 0 if there is none. An entry's number is its index
/// plus 1. A note that names no entry, or an entry with another home, is out of date and counts as
/// 0.
pub fn front(fronts: &[u32], entries: &[Entry], home: u32) -> u32
    requires home { home < HOMES }
    requires all { length fronts.now ≡ HOMES }
    requires fronts { HasFronts HOMES (pairs_of entries.now) fronts.now }
    ensures { result
        ≡ latest HOMES (pairs_of entries.now) home (length (pairs_of entries.now)) }
{
    let number = fronts[home as usize];
    if number == 0 || number as usize > entries.len() {
        return 0;
    }
    if entries[number as usize - 1].pair.0 % HOMES == home {
        number
    } else {
        0
    }
}

/// The index of the entry with this address, if there is one. Mostly it is the last entry of its
/// home, and no chain is followed.
#[inline(always)]
pub fn find(fronts: &[u32], entries: &[Entry], addr: u32) -> Option<usize>
    requires all { length fronts.now ≡ HOMES }
    requires fronts { HasFronts HOMES (pairs_of entries.now) fronts.now }
    requires chains { HasChains HOMES (pairs_of entries.now) (olders_of entries.now) }
    ensures { MatchOption result (IsAbsent (pairs_of entries.now) addr)
        (IsEntryFor (pairs_of entries.now) addr) }
{
    let number = fronts[(addr % HOMES) as usize] as usize;
    if number == 0 || number > entries.len() {
        return None;
    }
    if entries[number - 1].pair.0 == addr {
        Some(number - 1)
    } else {
        find_elsewhere(fronts, entries, addr)
    }
}

// out of line, so that what is called often is small
#[cold]
#[inline(never)]
fn find_elsewhere(fronts: &[u32], entries: &[Entry], addr: u32) -> Option<usize>
    requires all { length fronts.now ≡ HOMES }
    requires fronts { HasFronts HOMES (pairs_of entries.now) fronts.now }
    requires chains { HasChains HOMES (pairs_of entries.now) (olders_of entries.now) }
    ensures { MatchOption result (IsAbsent (pairs_of entries.now) addr)
        (IsEntryFor (pairs_of entries.now) addr) }
{
    let last = front(fronts, entries, addr % HOMES);
    search(entries, last, addr)
}

/// The index of the entry with this address, if there is one, from the number of the last entry of
/// its home.
pub fn search(entries: &[Entry], last: u32, addr: u32) -> Option<usize>
    requires last { last
        ≡ latest HOMES (pairs_of entries.now) (addr % HOMES) (length (pairs_of entries.now)) }
    requires chains { HasChains HOMES (pairs_of entries.now) (olders_of entries.now) }
    ensures { MatchOption result (IsAbsent (pairs_of entries.now) addr)
        (IsEntryFor (pairs_of entries.now) addr) }
{
    if last == 0 {
        return None;
    }
    let place = last as usize - 1;
    if entries[place].pair.0 == addr {
        Some(place)
    } else {
        follow(entries, last, addr)
    }
}

/// The index of the entry with this address, if there is one, found by following the whole chain.
// out of line, so that what is called often is small
#[cold]
#[inline(never)]
fn follow(entries: &[Entry], last: u32, addr: u32) -> Option<usize>
    requires last { last
        ≡ latest HOMES (pairs_of entries.now) (addr % HOMES) (length (pairs_of entries.now)) }
    requires chains { HasChains HOMES (pairs_of entries.now) (olders_of entries.now) }
    ensures { MatchOption result (IsAbsent (pairs_of entries.now) addr)
        (IsEntryFor (pairs_of entries.now) addr) }
{
    let mut at = last;
    while at != 0 {
        let place = at as usize - 1;
        if entries[place].pair.0 == addr {
            return Some(place);
        }
        at = entries[place].older;
    }
    None
}
