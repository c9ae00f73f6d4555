//! How many entries the records of a store have: one number for every 64 records, by which `finding` finds the
//! record of an entry. `folding` keeps it up to date.
ghost use Rattle.std.specs.Prelude.{◌≡◌, ◌+◌, ◌<◌, ◌≤◌, ℕ, OnOk, Some, length, slice_get, vec_len, vec_capacity};
ghost use Rattle.fix_store.specs.Counts.{counted_in, none_counted, counted_with, with_mark, HasRoomToCount, IsMark};

use fix_disk::put;
use std::alloc::{AllocError, Global};

/// A number is kept of each record whose index this divides.
const STRIDE: u64 = 64;

#[derive(Drop)]
pub(crate) struct Counts {
    // How many entries stand before the records 0, 64, 128 and so on, from the file's start on.
    pub(crate) before: Vec<u64>,
    // How many entries the file has.
    pub(crate) total: u64,
    // How many of them stand after the last reset.
    pub(crate) last: u32,
}

impl Counts {
    // Of no records.
    pub(crate) fn new(alloc: Global) -> Counts
        ensures { counted_in result ≡ none_counted }
    {
        Counts {
            before: Vec::new(alloc),
            total: 0,
            last: 0,
        }
    }

    // Makes room for a record of so many entries. There is none where they can't be counted.
    pub(crate) fn reserve(&mut self, count: u32) -> Result<(), AllocError>
        ensures same { counted_in self.new ≡ counted_in self.old }
        ensures room { OnOk result (HasRoomToCount self.new count) }
    {
        if self.total > u64::MAX - count as u64 {
            return Err(AllocError);
        }
        self.before.reserve(1)
    }

    // Takes in the record of this index, which has so many entries.
    pub(crate) fn take(&mut self, index: u64, count: u32)
        requires room { HasRoomToCount self.old count }
        requires few { self.old.last + count ≤ 999999999 }
        ensures { counted_in self.new ≡ counted_with index (counted_in self.old) (self.old.total + count) (self.old.last + count) }
    {
        mark(&mut self.before, index, self.total);
        self.total += count as u64;
        self.last += count;
    }

    // Takes in the record of this index, which has none.
    pub(crate) fn pass(&mut self, index: u64)
        requires { HasRoomToCount self.old 0 }
        ensures { counted_in self.new ≡ counted_with index (counted_in self.old) self.old.total self.old.last }
    {
        mark(&mut self.before, index, self.total);
    }

    // Takes in the record of this index, which is a reset.
    pub(crate) fn reset(&mut self, index: u64)
        requires { HasRoomToCount self.old 0 }
        ensures { counted_in self.new ≡ counted_with index (counted_in self.old) self.old.total 0 }
    {
        mark(&mut self.before, index, self.total);
        self.last = 0;
    }
}

// Notes how many entries stand before the record of this index, where 64 divides it.
fn mark(before: &mut Vec<u64>, index: u64, total: u64)
    requires { vec_len before.old + 1 ≤ vec_capacity before.old }
    ensures { before.new.items ≡ with_mark index total before.old.items }
{
    if index % STRIDE == 0 {
        put(before, total);
    }
}

// The last of these numbers that are at most the target, between two places.
pub(crate) fn mark_between(before: &[u64], low: usize, high: usize, target: u64) -> usize
    requires low { (at : ℕ) × (slice_get before.now low ≡ Some at) × (at ≤ target) }
    requires high { (next : ℕ) → slice_get before.now high ≡ Some next → target < next }
    requires order { low < high }
    requires inside { high ≤ length before.now }
    ensures { IsMark before.now target result }
{
    let middle = low + (high - low) / 2;
    if middle == low {
        return low;
    }
    if before[middle] <= target {
        return mark_between(before, middle, high, target);
    }
    mark_between(before, low, middle, target)
}
