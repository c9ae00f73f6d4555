//! The places that a journal keeps: those of the gates of every 64th record, and that of the closed gate.
//! `scanning` finds them, `journal` goes on with them.
ghost use Rattle.std.specs.Prelude.{◌≡◌, ◌+◌, ◌*◌, ◌/◌, ◌<◌, ◌≤◌, ◌^◌, ◌∷◌, [], List, ℕ, take, length, vec_len};
ghost use Rattle.std.specs.Prelude.{vec_capacity, slice_index, IfOk};
ghost use Rattle.fix_journal.specs.Format.{front};
ghost use Rattle.fix_journal.specs.Index.{IsShaped, IsIndexOf, IsSameIndex, Adds, IsLimit};

use fix_disk::put;
use std::alloc::{AllocError, Global};

// How many records have one mark.
const STRIDE: u64 = 64;

// Where the records of a file are. Its memory grows by eight bytes every 64 records.
#[derive(Drop)]
pub(crate) struct Index {
    // the places of the gates 0, 64, 128 .., up to the count
    marks: Vec<u64>,
    pub(crate) closed: u64,
    pub(crate) count: u64,
}

impl Index {
    // Of a file without records.
    pub(crate) fn of_none(alloc: Global) -> Result<Index, AllocError>
        ensures shaped { IfOk result IsShaped }
        ensures is { IfOk result (λ i. IsIndexOf i []) }
    {
        let mut marks = Vec::new(alloc);
        marks.push(9)?;
        Ok(Index {
            marks,
            closed: 9,
            count: 0,
        })
    }

    // Takes room for one mark more.
    pub(crate) fn reserve(&mut self) -> Result<(), AllocError>
        ensures same { IsSameIndex self.old self.new }
        ensures room { IfOk result (λ _. vec_len self.new.marks < vec_capacity self.new.marks) }
    {
        self.marks.reserve(1)
    }

    // Goes on past a record, after which the next gate is at a place.
    pub(crate) fn add(&mut self, next: u64)
        requires room { vec_len self.old.marks < vec_capacity self.old.marks }
        requires few { self.old.count + 1 < 2 ^ 64 }
        ensures { Adds next self.old self.new }
    {
        self.closed = next;
        self.count += 1;
        if self.count % STRIDE == 0 {
            put(&mut self.marks, next);
        }
    }

    // The place of the gate of the record whose index is 64 times k.
    pub(crate) fn mark(&self, k: u64) -> u64
        requires shaped { IsShaped self.now }
        requires within { 64 * k ≤ self.now.count }
        ensures { result ≡ slice_index self.now.marks.items k }
    {
        self.marks[k as usize]
    }

    // The place of a gate after the record with this index: the next that has a mark, or the closed one.
    pub(crate) fn limit(&self, index: u64) -> u64
        requires shaped { IsShaped self.now }
        requires within { index < self.now.count }
        ensures few { index + 1 < 2 ^ 64 }
        ensures is { (payloads : List (List ℕ)) → IsIndexOf self.now payloads → IsLimit payloads index result }
    {
        let next = (index / STRIDE + 1) as usize;
        if next < self.marks.len() {
            self.marks[next]
        } else {
            self.closed
        }
    }
}
