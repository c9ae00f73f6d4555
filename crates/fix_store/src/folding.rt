//! What the records of a store come to, each in turn. `walking` takes them in when the store is opened, and
//! `store` brings it up to date after each append.
ghost use Rattle.std.specs.Prelude.{◌≡◌, ◌↔◌, ◌≤◌, IsTrue, OnOk};
ghost use Rattle.fix_store.specs.Counts.{HasRoomToCount};
ghost use Rattle.fix_store.specs.Folding.{MayTake, HasRoomFor, fold_of, new_fold, fold_with, stored_in, expected_then};
ghost use Rattle.fix_store.specs.declared.changing.Change.TheVariants.{Reset as TheReset};

use crate::changing::Change;
use crate::counts::Counts;
use crate::withheld::Withheld;
use fix_base::Stored;
use std::alloc::{AllocError, Global};

/// The greatest MsgSeqNum (34).
const LAST_NUMBER: u32 = 999_999_999;

// What a store keeps of its records in memory.
#[derive(Drop)]
pub(crate) struct Folded {
    pub(crate) counts: Counts,
    pub(crate) expected: u32,
    pub(crate) since: Option<u64>,
    pub(crate) asked: bool,
    pub(crate) withheld: Withheld,
    pub(crate) marked: bool,
}

impl Folded {
    // Of no records.
    pub(crate) fn new(alloc: Global) -> Folded
        ensures { fold_of result ≡ new_fold }
    {
        Folded {
            counts: Counts::new(alloc),
            expected: 1,
            since: None,
            asked: false,
            withheld: Withheld::new(alloc),
            marked: false,
        }
    }

    // Whether this may come next: each entry has a number left, and a mark isn't there twice.
    pub(crate) fn may_take(&self, change: Change) -> bool
        requires { self.now.counts.last ≤ 999999999 }
        ensures { IsTrue result ↔ MayTake (fold_of self.now) change }
    {
        match change {
            Change::Entries(count, _) => count <= LAST_NUMBER - self.counts.last,
            Change::Withhold(number) => number <= self.counts.last,
            Change::Expect(_) | Change::Reset(_) => true,
            Change::ResetAsk(_) | Change::Confirm => self.marked,
            Change::Mark => !self.marked,
        }
    }

    // Makes room for it.
    pub(crate) fn reserve(&mut self, change: Change) -> Result<(), AllocError>
        ensures same { fold_of self.new ≡ fold_of self.old }
        ensures room { OnOk result (HasRoomFor self.new change) }
    {
        match change {
            Change::Entries(count, _) => self.counts.reserve(count),
            Change::Withhold(_) => {
                self.withheld.reserve()?;
                self.counts.reserve(0)
            }
            Change::Expect(_) | Change::Reset(_) | Change::ResetAsk(_) => self.counts.reserve(0),
            Change::Confirm | Change::Mark => self.counts.reserve(0),
        }
    }

    // Takes in the record of this index, for which there is room.
    pub(crate) fn take(&mut self, index: u64, change: Change)
        requires room { HasRoomFor self.old change }
        requires may { MayTake (fold_of self.old) change }
        ensures { fold_of self.new ≡ fold_with index (fold_of self.old) change }
    {
        match change {
            Change::Entries(count, expect) => {
                self.counts.take(index, count);
                self.expected = expected_after(self.expected, expect);
            }
            Change::Expect(number) => {
                self.counts.pass(index);
                self.expected = number;
            }
            Change::Withhold(number) => {
                self.counts.pass(index);
                self.withheld.put(number);
            }
            Change::Reset(time) => self.reset(index, time),
            Change::ResetAsk(time) => {
                self.reset(index, time);
                self.asked = true;
            }
            Change::Confirm => {
                self.counts.pass(index);
                self.asked = false;
            }
            Change::Mark => {
                self.counts.pass(index);
                self.marked = true;
            }
        }
    }

    // Forgets the entries, and which are withheld.
    fn reset(&mut self, index: u64, time: u64)
        requires { HasRoomToCount self.old.counts 0 }
        ensures { fold_of self.new ≡ fold_with index (fold_of self.old) (TheReset time) }
    {
        self.counts.reset(index);
        self.withheld.clear();
        self.expected = 1;
        self.since = Some(time);
    }

    // What it tells.
    pub(crate) fn stored(&self) -> Stored
        ensures { result ≡ stored_in (fold_of self.now) }
    {
        Stored {
            last: self.counts.last,
            expected: self.expected,
            since: self.since,
            asked: self.asked,
        }
    }
}

// The expected number after a record that says nothing of it by 0.
fn expected_after(old: u32, expect: u32) -> u32
    ensures { result ≡ expected_then old expect }
{
    if expect == 0 { old } else { expect }
}
