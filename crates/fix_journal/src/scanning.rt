//! Goes through a made file from gate to gate, and gives the places that are kept, or where the file is damaged.
//! `opening` calls this.
ghost use Rattle.std.specs.Prelude.{◌≡◌, ◌+◌, ◌<◌, ◌≤◌, ◌-◌, ◌*◌, ◌/◌, drop, length, IfOk, IfSome, IsSome};
ghost use Rattle.fix_base.specs.Trace.{Rises};
ghost use Rattle.fix_disk.specs.Disk.{failures};
ghost use Rattle.fix_disk.specs.Moments.{NeedsRoom};
ghost use Rattle.fix_journal.specs.Opening.{Judges, IsWithin, IsUntouched, Scans, open_failures, fault_of};
ghost use Rattle.fix_journal.specs.Opening.{HasLength, IsNamed};
ghost use Rattle.fix_journal.specs.Index.{IsShaped};
ghost use Rattle.fix_journal.specs.Window.{IsWindow, GoesOn, CallsAtMost};

use crate::OpenFault;
use crate::heads::{Head, judge};
use crate::index::Index;
use crate::window::{Window, blank_window, reach, read_from, shown};
use fix_disk::{Disk, DiskFailed};
use std::alloc::Global;

// Finds the records of a made file of `end` bytes with the name in it. Its room is taken before the
// first read, and does not grow with the file.
pub(crate) fn scan<D: Disk>(alloc: Global, disk: &mut D, end: u64) -> Result<Index, OpenFault>
    requires long { 10 ≤ end }
    requires told { HasLength (D.disk disk.old).bytes end }
    requires named { IfSome (D.disk disk.old).bytes IsNamed }
    ensures shaped { IfOk result IsShaped }
    ensures found { IfSome (D.disk disk.old).bytes (Scans result) }
    ensures untouched { IsUntouched (D.disk disk.old) (D.disk disk.new) }
    ensures cause { Rises (open_failures (fault_of result)) (D.disk disk.old).faults (D.disk disk.new).faults }
    ensures room { NeedsRoom (open_failures (fault_of result)) 0 (D.disk disk.old) (D.disk disk.new) }
    ensures calls { CallsAtMost (1 + end / 65532) (D.disk disk.old) (D.disk disk.new) }
{
    let Ok(mut window) = blank_window(alloc) else {
        return Err(OpenFault::OutOfMemory);
    };
    match read_from(disk, &mut window, 9, end) {
        Ok(()) => walk(alloc, disk, &mut window, end),
        Err(DiskFailed) => Err(OpenFault::DiskFault),
    }
}

// Looks at a gate of a file of `end` bytes.
fn look_at<D: Disk>(
    disk: &mut D,
    window: &mut Window,
    gate: u64,
    end: u64,
) -> Result<Head, DiskFailed>
    requires within { gate < end }
    requires told { HasLength (D.disk disk.old).bytes end }
    requires shows { IsWindow (D.disk disk.old).bytes end window.old }
    requires from { window.old.from ≤ gate }
    ensures judges { IfOk result (λ head. IfSome (D.disk disk.old).bytes (λ file. Judges head (drop gate file))) }
    ensures within { IfOk result (λ head. IsWithin head (end - gate)) }
    ensures untouched { IsUntouched (D.disk disk.old) (D.disk disk.new) }
    ensures cause { Rises (failures result) (D.disk disk.old).faults (D.disk disk.new).faults }
    ensures room { NeedsRoom (failures result) 0 (D.disk disk.old) (D.disk disk.new) }
    ensures shows { IfOk result (λ _. IsWindow (D.disk disk.new).bytes end window.new) }
    ensures from { window.new.from ≤ gate }
    ensures calls { GoesOn window.old.from window.new.from (D.disk disk.old) (D.disk disk.new) }
{
    let left = end - gate;
    let count = left.min(5);
    match reach(disk, window, gate, count, end) {
        Ok(()) => Ok(judge(shown(window, gate, count), left)),
        Err(DiskFailed) => Err(DiskFailed),
    }
}

// Finds the records of a made file of `end` bytes with the name in it, of which the window shows the
// first.
fn walk<D: Disk>(
    alloc: Global,
    disk: &mut D,
    window: &mut Window,
    end: u64,
) -> Result<Index, OpenFault>
    requires long { 10 ≤ end }
    requires told { HasLength (D.disk disk.old).bytes end }
    requires named { IfSome (D.disk disk.old).bytes IsNamed }
    requires shows { IsWindow (D.disk disk.old).bytes end window.old }
    requires from { window.old.from ≡ 9 }
    ensures shaped { IfOk result IsShaped }
    ensures found { IfSome (D.disk disk.old).bytes (Scans result) }
    ensures untouched { IsUntouched (D.disk disk.old) (D.disk disk.new) }
    ensures cause { Rises (open_failures (fault_of result)) (D.disk disk.old).faults (D.disk disk.new).faults }
    ensures room { NeedsRoom (open_failures (fault_of result)) 0 (D.disk disk.old) (D.disk disk.new) }
    ensures calls { GoesOn 9 end (D.disk disk.old) (D.disk disk.new) }
{
    let Ok(mut index) = Index::of_none(alloc) else {
        return Err(OpenFault::OutOfMemory);
    };
    loop {
        match look_at(disk, window, index.closed, end) {
            Ok(Head::Closed) => return Ok(index),
            Ok(Head::Record(size)) => {
                let next = index.closed + (5 + size);
                if index.reserve().is_err() {
                    return Err(OpenFault::OutOfMemory);
                }
                index.add(next);
            }
            Ok(Head::Broken) => return Err(OpenFault::Damaged(index.closed)),
            Err(DiskFailed) => return Err(OpenFault::DiskFault),
        }
    }
}
