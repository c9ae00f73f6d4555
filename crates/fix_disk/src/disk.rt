//! What a disk is to whoever keeps a file on it: four calls, each of which may fail. `fix_journal` makes these
//! calls, and `file_disk` and `memory_disk` carry them out.
ghost use Rattle.std.specs.Prelude.{length};
ghost use Rattle.fix_disk.specs.Disk.{DiskSeen, IsLawfulDisk, DiskMeasures, DiskReads, DiskWrites, DiskSyncs, HasRange};

/// A disk failed. A write may have changed its range.
#[derive(Clone, Copy, Debug, PartialEq, Eq)]
pub struct DiskFailed;

/// One file on a disk. Each call is one moment.
///
/// Between two syncs each range that was written, and whatever lies past the old end, may hold any
/// bytes after a crash, and the file's length lies between the least and the greatest since the
/// last sync. What was not written stays.
pub trait Disk {
    /// The bytes as they are read, what a crash may leave, the moment, and how often the disk failed.
    ghost disk: { Self → DiskSeen };

    /// How many bytes there are.
    fn len(&mut self) -> Result<u64, DiskFailed>
        ensures moves { DiskMeasures result (disk self.old) (disk self.new) };

    /// Fills the room with the bytes from `at` on.
    fn read_at(&mut self, at: u64, room: &mut [u8]) -> Result<(), DiskFailed>
        requires { HasRange (disk self.old).bytes at (length room.old) }
        ensures moves { DiskReads result at room.new (disk self.old) (disk self.new) };

    /// Writes over what is there, and past the end.
    fn write_at(&mut self, at: u64, bytes: &[u8]) -> Result<(), DiskFailed>
        requires { HasRange (disk self.old).bytes at 0 }
        ensures moves { DiskWrites result at bytes.now (disk self.old) (disk self.new) };

    /// After it a crash leaves what a read gives.
    fn sync(&mut self) -> Result<(), DiskFailed>
        ensures moves { DiskSyncs result (disk self.old) (disk self.new) };

    ghost lawful: { (d : Self) → IsLawfulDisk (disk d) };
}
