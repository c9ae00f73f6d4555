//! A write with its sync. `appending` and `making` call this for each of their writes.
ghost use Rattle.std.specs.Prelude.{◌+◌, length};
ghost use Rattle.fix_disk.specs.Disk.{HasRange, failures};
ghost use Rattle.fix_disk.specs.Moments.{NeedsRoom};
ghost use Rattle.fix_journal.specs.Synced.{WritesSynced};

use fix_disk::{Disk, DiskFailed};

// Writes, and has the disk keep it.
pub(crate) fn write_synced<D: Disk>(disk: &mut D, at: u64, bytes: &[u8]) -> Result<(), DiskFailed>
    requires { HasRange (D.disk disk.old).bytes at 0 }
    ensures writes { WritesSynced result at bytes.now (D.disk disk.old) (D.disk disk.new) }
    ensures room { NeedsRoom (failures result) (at + length bytes.now) (D.disk disk.old) (D.disk disk.new) }
{
    match disk.write_at(at, bytes) {
        Ok(()) => disk.sync(),
        Err(DiskFailed) => Err(DiskFailed),
    }
}
