//! The history of a disk in memory. `memory_disk` notes its writes and syncs here, and contracts tell by them
//! what a crash might have left.
ghost use Rattle.std.specs.Prelude.{◌≡◌, ◌<◌, ◌≤◌, ◌+◌, List, length, vec_len, vec_capacity};
ghost use Rattle.fix_disk.specs.Log.{counted};

use crate::room::{put, put_bytes};
use fix_base::OutOfMemory;
use std::alloc::Global;

/// What a call did to a disk. The bytes of a write stand in the log's `written`.
#[derive(Clone, Copy, Debug)]
pub(crate) enum Change {
    Write { at: usize, count: usize },
    Sync,
}

#[derive(Clone, Copy, Debug, Drop)]
pub(crate) struct Step {
    moment: u64,
    change: Change,
}

/// The writes and syncs of a disk, up to so many with so many written bytes. Where `most` is 0 it
/// keeps none.
#[derive(Debug, Drop)]
pub(crate) struct Log {
    steps: Vec<Step>,
    written: Vec<u8>,
    most: usize,
    capacity: usize,
    ghost fits: { vec_len steps ≤ most },
    ghost room: { most ≤ vec_capacity steps },
    ghost bytes_fit: { vec_len written ≤ capacity },
    ghost bytes_room: { 0 < most → capacity ≤ vec_capacity written },
    ghost counts: { counted steps.items ≡ length written.items },
}

impl Log {
    ghost use Rattle.std.specs.Prelude.{◌↔◌, [], ◌∷◌, ◌++◌, IsTrue, IfOk};
    ghost use Rattle.fix_disk.specs.Past.{Wrote, Synced};
    ghost use Rattle.fix_disk.specs.Kept.{log_steps, LogTakes, LogGrows};

    pub(crate) fn new(alloc: Global, most: usize, capacity: usize) -> Result<Log, OutOfMemory>
        ensures empty { IfOk result (λ made. log_steps made ≡ []) }
        ensures none { IfOk result (λ made. (vec_len made.steps ≡ 0) × (vec_len made.written ≡ 0)) }
        ensures most { IfOk result (λ made. made.most ≡ most) }
        ensures capacity { IfOk result (λ made. made.capacity ≡ capacity) }
    {
        Ok(Log {
            steps: Vec::with_capacity(alloc, most)?,
            written: Vec::with_capacity(alloc, if most == 0 { 0 } else { capacity })?,
            most,
            capacity,
        })
    }

    // Whether one step more, with so many bytes, may be noted.
    pub(crate) fn takes(&self, count: usize) -> bool
        ensures { IsTrue result ↔ LogTakes self.now count }
    {
        self.most == 0
            || self.steps.len() < self.most && count <= self.capacity - self.written.len()
    }

    pub(crate) fn note_write(&mut self, moment: u64, at: usize, bytes: &[u8])
        requires { LogTakes self.old (length bytes.now) }
        ensures steps { 0 < self.old.most → log_steps self.new ≡ log_steps self.old
            ++ record { moment = moment; change = Wrote at bytes.now } ∷ [] }
        ensures most { self.new.most ≡ self.old.most }
        ensures capacity { self.new.capacity ≡ self.old.capacity }
        ensures grows { LogGrows self.old (length bytes.now) self.new }
    {
        if self.most == 0 {
            return;
        }
        let count = bytes.len();
        put_bytes(&mut self.written, bytes);
        put(
            &mut self.steps,
            Step {
                moment,
                change: Change::Write { at, count },
            },
        );
    }

    pub(crate) fn note_sync(&mut self, moment: u64)
        requires { LogTakes self.old 0 }
        ensures steps { 0 < self.old.most → log_steps self.new ≡ log_steps self.old
            ++ record { moment = moment; change = Synced } ∷ [] }
        ensures most { self.new.most ≡ self.old.most }
        ensures capacity { self.new.capacity ≡ self.old.capacity }
        ensures grows { LogGrows self.old 0 self.new }
    {
        if self.most == 0 {
            return;
        }
        put(
            &mut self.steps,
            Step {
                moment,
                change: Change::Sync,
            },
        );
    }
}
