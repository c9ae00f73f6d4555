//! Carries out writes and syncs on the bytes of a disk in memory. `memory_disk` calls this for each write that
//! has room, and for each sync that doesn't fail.
ghost use Rattle.std.specs.Prelude.{◌≡◌, ◌<◌, ◌≤◌, ◌+◌, Bool, true, false, List, length, take, replicate};
ghost use Rattle.std.specs.Prelude.{slice_index, slice_index_or, vec_len, vec_capacity};

use crate::room::{clear_from, mark_over, put_from, put_over};
use fix_base::OutOfMemory;
use std::alloc::Global;

/// What a disk in memory holds: its bytes, those of its last sync, and a mark for each byte that
/// was written since.
#[derive(Debug, Drop)]
pub(crate) struct Contents {
    bytes: Vec<u8>,
    synced: Vec<u8>,
    changed: Vec<bool>,
    // Nothing before this place was written since the last sync.
    low: usize,
    capacity: usize,
    ghost fits: { vec_len bytes ≤ capacity },
    ghost room: { capacity ≤ vec_capacity bytes },
    ghost synced_room: { capacity ≤ vec_capacity synced },
    ghost changed_room: { capacity ≤ vec_capacity changed },
    ghost marks: { length changed.items ≡ length bytes.items },
    ghost grows: { length synced.items ≤ length bytes.items },
    ghost low_within: { low ≤ length synced.items },
    ghost low_same: { take low synced.items ≡ take low bytes.items },
    ghost low_unmarked: { take low changed.items ≡ replicate low false },
    ghost same: { (i : _) → i < length synced.items → slice_index_or changed.items i true ≡ false
        → slice_index bytes.items i ≡ slice_index synced.items i },
}

impl Contents {
    ghost use Rattle.std.specs.Prelude.{◌↔◌, IsTrue, IfOk};
    ghost use Rattle.fix_disk.specs.State.{State, blank, after_write, after_sync};
    ghost use Rattle.fix_disk.specs.Contents.{state_of};

    // An empty disk with room for so many bytes.
    pub(crate) fn new(alloc: Global, capacity: usize) -> Result<Contents, OutOfMemory>
        ensures blank { IfOk result (λ made. state_of made ≡ blank) }
        ensures capacity { IfOk result (λ made. made.capacity ≡ capacity) }
    {
        Ok(Contents {
            bytes: Vec::with_capacity(alloc, capacity)?,
            synced: Vec::with_capacity(alloc, capacity)?,
            changed: Vec::with_capacity(alloc, capacity)?,
            low: 0,
            capacity,
        })
    }

    pub(crate) fn bytes(&self) -> &[u8]
        ensures { result.now ≡ (state_of self.now).bytes }
    {
        self.bytes.as_slice()
    }

    // Whether a write would fit.
    pub(crate) fn fits(&self, at: usize, count: usize) -> bool
        requires { at ≤ length (state_of self.now).bytes }
        ensures { IsTrue result ↔ (at + count ≤ self.now.capacity) }
    {
        count <= self.capacity - at
    }

    pub(crate) fn write(&mut self, at: usize, bytes: &[u8])
        requires within { at ≤ length (state_of self.old).bytes }
        requires fits { at + length bytes.now ≤ self.old.capacity }
        ensures state { state_of self.new ≡ after_write at bytes.now (state_of self.old) }
        ensures capacity { self.new.capacity ≡ self.old.capacity }
    {
        put_over(&mut self.bytes, at, bytes);
        mark_over(&mut self.changed, at, bytes.len());
        self.low = self.low.min(at);
    }

    pub(crate) fn sync(&mut self)
        ensures state { state_of self.new ≡ after_sync (state_of self.old) }
        ensures capacity { self.new.capacity ≡ self.old.capacity }
    {
        put_from(&mut self.synced, self.low, &self.bytes);
        clear_from(&mut self.changed, self.low);
        self.low = self.bytes.len();
    }
}
