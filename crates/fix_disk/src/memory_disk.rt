//! `Disk` in memory. In a call `failing` says whether it fails, `contents` reads or changes the bytes, and
//! `log` notes a write or a sync.
ghost use Rattle.std.specs.Prelude.{◌≡◌, ◌<◌, ◌≤◌, ◌+◌, ◌↔◌, length, IsErr, IsTrue};
ghost use Rattle.fix_disk.specs.State.{blank};
ghost use Rattle.fix_disk.specs.Contents.{state_of};
ghost use Rattle.fix_disk.specs.Past.{replayed, latest};
ghost use Rattle.fix_disk.specs.Kept.{log_steps, LogTakes};

use crate::contents::Contents;
use crate::failing::Failing;
use crate::log::Log;
use crate::{Disk, DiskFailed};
use fix_base::OutOfMemory;
use std::alloc::Global;

/// A disk in memory, whose images are all that the crash model allows.
#[derive(Debug, Drop)]
pub struct MemoryDisk {
    contents: Contents,
    log: Log,
    failing: Failing,
    // From this call on all fail.
    fuse: Option<u64>,
    ghost same_room: { log.capacity ≡ contents.capacity },
    ghost in_time: { 0 < log.most → latest (log_steps log) ≤ failing.calls },
    ghost replays: { 0 < log.most → replayed (log_steps log) blank ≡ state_of contents },
}

impl MemoryDisk {
    ghost use Rattle.std.specs.Prelude.{IfOk};
    ghost use Rattle.fix_disk.specs.State.{blank};
    ghost use Rattle.fix_disk.specs.MemoryDisk.{disk_of, disk_state, disk_script, script_of};

    /// An empty disk for up to `capacity` bytes. Where `past` is above 0 it keeps its writes and
    /// syncs, up to `past` of them with `capacity` written bytes, and tells by them what a crash
    /// since a moment might have left. The calls whose numbers are in `fail`, from 1 on, fail, and
    /// so does each call from `fuse` on. A write past the capacity fails, as does a write or sync
    /// for which the list has no room, and both change nothing. A write that fails for another
    /// reason has changed its range.
    pub fn new(
        alloc: Global,
        capacity: usize,
        past: usize,
        fail: Vec<u64>,
        fuse: Option<u64>,
    ) -> Result<MemoryDisk, OutOfMemory>
        ensures blank { IfOk result (λ made. disk_state made ≡ blank) }
        ensures script { IfOk result (λ made. disk_script made ≡ script_of fail.items fuse capacity past) }
        ensures faults { IfOk result (λ made. (disk_of made).faults ≡ 0) }
    {
        Ok(MemoryDisk {
            contents: Contents::new(alloc, capacity)?,
            log: Log::new(alloc, past, capacity)?,
            failing: Failing::new(fail),
            fuse,
        })
    }

    /// The bytes as they are read.
    pub fn bytes(&self) -> &[u8]
        ensures { result.now ≡ (disk_state self.now).bytes }
    {
        self.contents.bytes()
    }

    /// How often it failed.
    pub fn faults(&self) -> u64
        ensures { result ≡ (disk_of self.now).faults }
    {
        self.failing.faults
    }
}

impl Disk for MemoryDisk {
    ghost use Rattle.std.specs.Prelude.{◌⊎◌, OnOk, OnErr};
    ghost use Rattle.fix_disk.specs.Disk.{DiskMeasures, DiskReads, DiskWrites, DiskSyncs, HasRange, Torn};
    ghost use Rattle.fix_disk.specs.State.{Leaves, after_write, after_sync};
    ghost use Rattle.fix_disk.specs.MemoryDisk.{disk_of, disk_state, disk_script, Strikes, HasPlace, KeepsOneMore};
    ghost use Rattle.fix_disk.specs.MemoryDisk.{after_call, after_step, lawful};

    ghost disk = { disk_of };

    ghost lawful = { lawful };

    fn len(&mut self) -> Result<u64, DiskFailed>
        ensures moves { DiskMeasures result (disk_of self.old) (disk_of self.new) }
        ensures fails { IsErr result ↔ Strikes (disk_script self.old) }
        ensures state { disk_state self.new ≡ disk_state self.old }
        ensures script { disk_script self.new ≡ after_call (disk_script self.old) }
    {
        if self.failing.fails(self.fuse, true) {
            return Err(DiskFailed);
        }
        Ok(self.contents.bytes().len() as u64)
    }

    fn read_at(&mut self, at: u64, room: &mut [u8]) -> Result<(), DiskFailed>
        requires { HasRange (disk_of self.old).bytes at (length room.old) }
        ensures moves { DiskReads result at room.new (disk_of self.old) (disk_of self.new) }
        ensures fails { IsErr result ↔ Strikes (disk_script self.old) }
        ensures state { disk_state self.new ≡ disk_state self.old }
        ensures script { disk_script self.new ≡ after_call (disk_script self.old) }
    {
        if self.failing.fails(self.fuse, true) {
            return Err(DiskFailed);
        }
        let at = at as usize;
        room.copy_from_slice(&self.contents.bytes()[at..at + room.len()]);
        Ok(())
    }

    fn write_at(&mut self, at: u64, bytes: &[u8]) -> Result<(), DiskFailed>
        requires { HasRange (disk_of self.old).bytes at 0 }
        ensures moves { DiskWrites result at bytes.now (disk_of self.old) (disk_of self.new) }
        ensures fails { IsErr result
            ↔ (Strikes (disk_script self.old) ⊎ (HasPlace (disk_script self.old) at (length bytes.now) → ⊥)) }
        // A write that is struck has changed its range all the same.
        ensures written { HasPlace (disk_script self.old) at (length bytes.now) → disk_state self.new
            ≡ after_write at bytes.now (disk_state self.old) }
        ensures script { HasPlace (disk_script self.old) at (length bytes.now) → disk_script self.new
            ≡ after_step (disk_script self.old) (length bytes.now) }
        ensures refused { (HasPlace (disk_script self.old) at (length bytes.now) → ⊥)
            → (disk_state self.new ≡ disk_state self.old) × (disk_script self.new ≡ after_call (disk_script self.old)) }
        // A crash leaves every torn form of what it might have left before, and nothing else.
        ensures torn { HasPlace (disk_script self.old) at (length bytes.now)
            → (c : _) → Leaves (disk_state self.new) c ↔ ((d : _) × Leaves (disk_state self.old) d × Torn at (length bytes.now) d c) }
    {
        let at = at as usize;
        let has_place = has_place(&self.contents, &self.log, at, bytes.len());
        let fails = self.failing.fails(self.fuse, has_place);
        if !has_place {
            return Err(DiskFailed);
        }
        self.log.note_write(self.failing.calls(), at, bytes);
        self.contents.write(at, bytes);
        answer(fails)
    }

    fn sync(&mut self) -> Result<(), DiskFailed>
        ensures moves { DiskSyncs result (disk_of self.old) (disk_of self.new) }
        ensures fails { IsErr result ↔ (Strikes (disk_script self.old) ⊎ (KeepsOneMore (disk_script self.old) 0 → ⊥)) }
        ensures synced { OnOk result (disk_state self.new ≡ after_sync (disk_state self.old)) }
        ensures script { OnOk result (disk_script self.new ≡ after_step (disk_script self.old) 0) }
        ensures refused { OnErr result ((disk_state self.new ≡ disk_state self.old)
            × (disk_script self.new ≡ after_call (disk_script self.old))) }
    {
        let has_room = self.log.takes(0);
        if self.failing.fails(self.fuse, has_room) {
            return Err(DiskFailed);
        }
        self.log.note_sync(self.failing.calls());
        self.contents.sync();
        Ok(())
    }
}

fn answer(fails: bool) -> Result<(), DiskFailed>
    ensures { IsErr result ↔ IsTrue fails }
{
    if fails { Err(DiskFailed) } else { Ok(()) }
}

// Whether a write has room, on the disk and in the list.
fn has_place(contents: &Contents, log: &Log, at: usize, count: usize) -> bool
    requires { at ≤ length (state_of contents.now).bytes }
    ensures { IsTrue result ↔ ((at + count ≤ contents.now.capacity) × LogTakes log.now count) }
{
    contents.fits(at, count) && log.takes(count)
}
