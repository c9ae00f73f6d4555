//! Appends a record by two synced writes, of which the second opens its gate. `Journal::append` calls this with
//! the bytes that it staged.
ghost use Rattle.std.specs.Prelude.{◌<◌, ◌+◌, ◌^◌, length};
ghost use Rattle.fix_disk.specs.Disk.{HasRange, failures};
ghost use Rattle.fix_disk.specs.Moments.{NeedsRoom};
ghost use Rattle.fix_journal.specs.AtRest.{Appends};

use crate::synced::write_synced;
use fix_disk::{Disk, DiskFailed};

// Puts a record at the closed gate: its length, its bytes and a closed gate are staged. They are on
// the disk before the record's gate is opened.
pub(crate) fn append_at<D: Disk>(disk: &mut D, gate: u64, staged: &[u8]) -> Result<(), DiskFailed>
    requires place { HasRange (D.disk disk.old).bytes gate 1 }
    requires small { gate + 1 < 2 ^ 64 }
    ensures appends { Appends result gate staged.now (D.disk disk.old) (D.disk disk.new) }
    ensures room { NeedsRoom (failures result) (gate + 1 + length staged.now) (D.disk disk.old) (D.disk disk.new) }
{
    match write_synced(disk, gate + 1, staged) {
        Ok(()) => write_synced(disk, gate, &[1]),
        Err(DiskFailed) => Err(DiskFailed),
    }
}
