//! A map from cells to numbers, in order of first writing.

ghost use Rattle.std.specs.Prelude.{◌↔◌, IsTrue, ◌≡◌, ◌<◌, ◌==◌, [], length, IfOk, MatchOption, slice_index_or};
ghost use Rattle.of_mem.specs.CellMap.{value_for, put_pair, with_last_pair, IsAbsent, IsEntryFor};
ghost use Rattle.of_mem.specs.WriteSet.{IsWriteSet};

use crate::index::{Entry, HOMES, find, front, search};
use std::alloc::{AllocError, Global};
use std::marker::Model;

/// A write-set: a map from cells to numbers, in order of first writing. Only `new` takes memory.
/// `has_entries_of` and `copy_from` go through all entries. Any other call takes the same time for
/// any number of cells, and for any number of entries up to some thousands.
#[derive(Drop)]
pub struct WriteSet {
    room: u32,
    entries: Vec<Entry>,
    /// For each home that an entry has, the number of the last entry there. For any other home this
    /// is 0, or out of date since a `clear`.
    fronts: Vec<u32>,
}

impl Model for WriteSet {
    ghost use Rattle.of_mem.specs.WriteSet.{WriteSet};

    ghost Value = { WriteSet };

    ghost use Rattle.std.specs.Vec.{vec_capacity};
    ghost use Rattle.of_mem.specs.declared.index.TheConstants.{HOMES};
    ghost use Rattle.of_mem.specs.Chains.{IsChained, pairs_of, olders_of};

    ghost view = { λ w. record { room = w.room; entries = pairs_of w.entries.items } };

    ghost invariant = { λ w. IsChained HOMES w.room (pairs_of w.entries.items)
        (olders_of w.entries.items) w.fronts.items (vec_capacity w.entries) };
}

impl WriteSet {
    /// An empty write-set for the addresses below `room`. An error means that there is not enough
    /// memory.
    pub fn new(alloc: Global, room: u32) -> Result<Self, AllocError>
        ensures { IfOk result (λ w. w ≡ record { room = room; entries = [] }) }
    {
        let entries = Vec::with_capacity(alloc, room as usize)?;
        let mut fronts = Vec::with_capacity(alloc, HOMES as usize)?;
        fronts.resize(HOMES as usize, 0)?;
        Ok(WriteSet {
            room,
            entries,
            fronts,
        })
    }

    /// The number of entries, which is the number of addresses that were written.
    pub fn len(&self) -> u32
        ensures value { result ≡ length self.now.entries }
        ensures map { IsWriteSet self.now }
    {
        self.entries.len() as u32
    }

    /// Whether nothing was written.
    pub fn is_empty(&self) -> bool
        ensures { result ≡ (length self.now.entries == 0) }
    {
        self.entries.is_empty()
    }

    /// The index of the entry with this address, if there is one.
    #[inline(always)]
    pub(crate) fn find(&self, addr: u32) -> Option<usize>
        ensures map { IsWriteSet self.now }
        ensures place { MatchOption result (IsAbsent self.now.entries addr)
            (IsEntryFor self.now.entries addr) }
    {
        find(&self.fronts, &self.entries, addr)
    }

    /// The number written at an address. None if nothing was written there.
    pub fn get(&self, addr: u32) -> Option<u32>
        ensures { result ≡ value_for self.now.entries addr }
    {
        let place = self.find(addr)?;
        Some(self.entries[place].pair.1)
    }

    /// The index of the entry with this address, if there is one. Otherwise an entry with this
    /// number is added at the end.
    #[inline(always)]
    pub(crate) fn enter(&mut self, addr: u32, value: u32) -> Option<usize>
        requires { addr < self.old.room }
        ensures map { IsWriteSet self.old }
        ensures place { MatchOption result (IsAbsent self.old.entries addr)
            (IsEntryFor self.old.entries addr) }
        ensures entries { self.new ≡ record self.old {
          entries = with_last_pair self.old.entries addr value result;
        } }
    {
        let home = addr % HOMES;
        let last = front(&self.fronts, &self.entries, home);
        match search(&self.entries, last, addr) {
            Some(place) => Some(place),
            None => {
                // there is room for each address below `room`
                self.entries.push_reserved(Entry {
                    pair: (addr, value),
                    older: last,
                });
                self.fronts[home as usize] = self.entries.len() as u32;
                None
            }
        }
    }

    /// Writes a number at an address. If the address was written before, its entry gets the number;
    /// otherwise a new entry comes last.
    pub fn put(&mut self, addr: u32, value: u32)
        requires { addr < self.old.room }
        ensures { self.new ≡ record self.old { entries = put_pair self.old.entries addr value } }
    {
        if let Some(place) = self.enter(addr, value) {
            self.entries[place].pair.1 = value;
        }
    }

    /// Entry `i`, from 0, in order of first writing: an address and the number written there.
    pub fn entry(&self, i: u32) -> (u32, u32)
        requires { i < length self.now.entries }
        ensures value { result ≡ slice_index_or self.now.entries i (0, 0) }
        ensures below { result.0 < self.now.room }
    {
        self.entries[i as usize].pair
    }

    /// Removes all entries.
    pub fn clear(&mut self)
        ensures { self.new ≡ record self.old { entries = [] } }
    {
        if !self.entries.is_empty() {
            self.entries.clear();
        }
    }

    /// Whether two write-sets have the same entries in the same order.
    pub fn has_entries_of(&self, other: &WriteSet) -> bool
        ensures { IsTrue result ↔ (self.now.entries ≡ other.now.entries) }
    {
        if self.len() != other.len() {
            return false;
        }
        for place in 0..self.len() {
            let (addr, value) = self.entry(place);
            let (other_addr, other_value) = other.entry(place);
            if addr != other_addr || value != other_value {
                return false;
            }
        }
        true
    }

    /// Replaces the entries by those of another write-set.
    pub fn copy_from(&mut self, other: &WriteSet)
        requires { self.old.room ≡ other.now.room }
        ensures { self.new ≡ record self.old { entries = other.now.entries } }
    {
        self.clear();
        for i in 0..other.len() {
            let (addr, value) = other.entry(i);
            self.put(addr, value);
        }
    }
}
