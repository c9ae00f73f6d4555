//! Reads a file piece by piece into room that is taken once. `scanning` reads the gates by this.
ghost use Rattle.std.specs.Prelude.{◌≡◌, ◌+◌, ◌-◌, ◌<◌, ◌≤◌, min, length, take, drop, vec_capacity, IfOk, IfSome, OnOk};
ghost use Rattle.fix_base.specs.Trace.{Rises};
ghost use Rattle.fix_disk.specs.Disk.{failures};
ghost use Rattle.fix_disk.specs.Moments.{NeedsRoom};
ghost use Rattle.fix_journal.specs.Opening.{IsUntouched, HasLength};
ghost use Rattle.fix_journal.specs.Window.{MOST_HELD, IsWindow, GoesOn, CallsAtMost};

use fix_disk::{Disk, DiskFailed};
use std::alloc::{AllocError, Global};

// How many bytes are read at once.
const MOST_HELD: u64 = 65_536;

// The bytes of a file from a place on.
#[derive(Drop)]
pub(crate) struct Window {
    held: Vec<u8>,
    from: u64,
}

// A window that has read nothing, with all the room that it takes.
pub(crate) fn blank_window(alloc: Global) -> Result<Window, AllocError>
    ensures { IfOk result (λ w. MOST_HELD ≤ vec_capacity w.held) }
{
    Ok(Window {
        held: Vec::with_capacity(alloc, MOST_HELD as usize)?,
        from: 0,
    })
}

// Reads a file of `end` bytes from a place on.
pub(crate) fn read_from<D: Disk>(
    disk: &mut D,
    window: &mut Window,
    at: u64,
    end: u64,
) -> Result<(), DiskFailed>
    requires room { MOST_HELD ≤ vec_capacity window.old.held }
    requires within { at < end }
    requires told { HasLength (D.disk disk.old).bytes end }
    ensures shows { OnOk result (IsWindow (D.disk disk.new).bytes end window.new) }
    ensures from { window.new.from ≡ at }
    ensures untouched { IsUntouched (D.disk disk.old) (D.disk disk.new) }
    ensures cause { Rises (failures result) (D.disk disk.old).faults (D.disk disk.new).faults }
    ensures room { NeedsRoom (failures result) 0 (D.disk disk.old) (D.disk disk.new) }
    ensures calls { CallsAtMost 1 (D.disk disk.old) (D.disk disk.new) }
{
    window.from = at;
    fill_up(&mut window.held, (end - at).min(MOST_HELD) as usize);
    disk.read_at(at, &mut window.held)
}

// Has a window show so many bytes from a place on.
pub(crate) fn reach<D: Disk>(
    disk: &mut D,
    window: &mut Window,
    at: u64,
    count: u64,
    end: u64,
) -> Result<(), DiskFailed>
    requires few { count ≤ 5 }
    requires some { 1 ≤ count }
    requires within { at + count ≤ end }
    requires told { HasLength (D.disk disk.old).bytes end }
    requires shows { IsWindow (D.disk disk.old).bytes end window.old }
    requires from { window.old.from ≤ at }
    ensures shows { OnOk result (IsWindow (D.disk disk.new).bytes end window.new) }
    ensures reaches { OnOk result (at + count ≤ window.new.from + length window.new.held.items) }
    ensures from { window.new.from ≤ at }
    ensures untouched { IsUntouched (D.disk disk.old) (D.disk disk.new) }
    ensures cause { Rises (failures result) (D.disk disk.old).faults (D.disk disk.new).faults }
    ensures room { NeedsRoom (failures result) 0 (D.disk disk.old) (D.disk disk.new) }
    ensures calls { GoesOn window.old.from window.new.from (D.disk disk.old) (D.disk disk.new) }
{
    if at - window.from + count <= window.held.len() as u64 {
        return Ok(());
    }
    read_from(disk, window, at, end)
}

// So many bytes of a file from a place on.
pub(crate) fn shown(window: &Window, at: u64, count: u64) -> &[u8]
    requires from { window.now.from ≤ at }
    requires reaches { at + count ≤ window.now.from + length window.now.held.items }
    ensures { result.now ≡ take count (drop (at - window.now.from) window.now.held.items) }
{
    let start = (at - window.from) as usize;
    &window.held[start..start + count as usize]
}

// So many bytes, in room that is there.
fn fill_up(held: &mut Vec<u8>, count: usize)
    requires { count ≤ vec_capacity held.old }
    ensures length { length held.new.items ≡ count }
    ensures capacity { vec_capacity held.old ≤ vec_capacity held.new }
{
    match held.resize(count, 0) {
        Ok(()) => {}
        Err(_) => unreachable!(),
    }
}
