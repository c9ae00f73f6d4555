//! Makes an unmade file a journal by synced writes. A crash on the way leaves it unmade or without records.
//! `opening` calls this.
ghost use Rattle.fix_disk.specs.Disk.{failures};
ghost use Rattle.fix_disk.specs.Moments.{NeedsRoom};
ghost use Rattle.fix_journal.specs.Opening.{Rests, IsClosed, IsShort, IsUnmadeBy, Makes};
ghost use Rattle.fix_journal.specs.Window.{CallsAtMost};

use crate::synced::write_synced;
use fix_disk::{Disk, DiskFailed};

// Makes the journal in an unmade file.
pub(crate) fn make<D: Disk>(disk: &mut D, is_short: bool) -> Result<(), DiskFailed>
    requires { Rests (D.disk disk.old) (IsUnmadeBy is_short) }
    ensures makes { Makes result (D.disk disk.old) (D.disk disk.new) }
    ensures calls { CallsAtMost 6 (D.disk disk.old) (D.disk disk.new) }
    ensures room { NeedsRoom (failures result) 10 (D.disk disk.old) (D.disk disk.new) }
{
    if is_short {
        make_short(disk)
    } else {
        make_closed(disk)
    }
}

// Makes the journal in a file whose gate is closed. The name and the closed gate after it are on
// the disk before the file's gate is opened.
fn make_closed<D: Disk>(disk: &mut D) -> Result<(), DiskFailed>
    requires { Rests (D.disk disk.old) IsClosed }
    ensures makes { Makes result (D.disk disk.old) (D.disk disk.new) }
    ensures calls { CallsAtMost 4 (D.disk disk.old) (D.disk disk.new) }
    ensures room { NeedsRoom (failures result) 10 (D.disk disk.old) (D.disk disk.new) }
{
    match write_synced(disk, 1, b"FIXJRNL1\0") {
        Ok(()) => write_synced(disk, 0, &[1]),
        Err(DiskFailed) => Err(DiskFailed),
    }
}

// Makes the journal in a file of less than ten bytes. Its gate is closed on the disk before the
// file grows to ten.
fn make_short<D: Disk>(disk: &mut D) -> Result<(), DiskFailed>
    requires { Rests (D.disk disk.old) IsShort }
    ensures makes { Makes result (D.disk disk.old) (D.disk disk.new) }
    ensures calls { CallsAtMost 6 (D.disk disk.old) (D.disk disk.new) }
    ensures room { NeedsRoom (failures result) 10 (D.disk disk.old) (D.disk disk.new) }
{
    match write_synced(disk, 0, &[0]) {
        Ok(()) => make_closed(disk),
        Err(DiskFailed) => Err(DiskFailed),
    }
}
