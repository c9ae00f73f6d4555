//! `Disk` over a real file: opens and locks it, and has the system carry out each call. A store can be opened
//! on it.
ghost use Rattle.std.specs.Prelude.{◌≡◌, length, IsErr, OnErr};
ghost use Rattle.fix_base.specs.Trace.{Rises};
ghost use Rattle.fix_disk.specs.Disk.{failures};

use crate::{Disk, DiskFailed};
use std::fs::{self, File, OpenOptions, TryLockError};
use std::io::{self, ErrorKind, Seek, SeekFrom};
use std::os::unix::fs::FileExt;

/// Why a file isn't, or is no longer, a disk.
#[derive(Clone, Copy, Debug, PartialEq, Eq)]
pub enum FileRefusal {
    /// It couldn't be opened, or is a folder or the like.
    NotOpened,
    /// It is marked as one that is only read.
    ReadOnly,
    /// Another process, or another disk of this one, has it.
    InUse,
    /// A sync failed. What was written may be lost without a further error.
    SyncFailed,
}

/// A disk on a real file, which no other has meanwhile. It tells no content.
///
/// A file that couldn't be opened is a disk all the same: each of its calls fails. Nothing more is
/// asked of a file after a sync that failed.
#[derive(Drop)]
pub struct FileDisk {
    file: Result<File, FileRefusal>,
    faults: u64,
}

impl FileDisk {
    ghost use Rattle.fix_disk.specs.FileDisk.{file_disk_of, refusal_of};

    /// Opens the file at the path, for reading and writing, and makes it where it is missing.
    pub fn open(rt: &HostRuntime, path: &str) -> FileDisk
        ensures { (file_disk_of result).faults ≡ 0 }
    {
        FileDisk {
            file: open_alone(rt, path),
            faults: 0,
        }
    }

    /// Why the file can't be used, if it can't.
    pub fn refusal(&self) -> Option<FileRefusal>
        ensures { result ≡ refusal_of self.now }
    {
        match &self.file {
            Ok(_) => None,
            Err(refusal) => Some(*refusal),
        }
    }

    /// How often it failed.
    pub fn faults(&self) -> u64
        ensures { result ≡ (file_disk_of self.now).faults }
    {
        self.faults
    }
}

// Opens the file, or makes it, and holds it alone.
fn open_alone(rt: &HostRuntime, path: &str) -> Result<File, FileRefusal> {
    let file = OpenOptions::new()
        .read(true)
        .write(true)
        .create(true)
        .open(rt, path)
        .map_err(|_| FileRefusal::NotOpened)?;
    match file.try_lock() {
        Ok(()) => {}
        Err(TryLockError::WouldBlock) => return Err(FileRefusal::InUse),
        Err(TryLockError::Error(_)) => return Err(FileRefusal::NotOpened),
    }
    let found = file.metadata().map_err(|_| FileRefusal::NotOpened)?;
    if !found.is_file() {
        return Err(FileRefusal::NotOpened);
    }
    if found.permissions().readonly() {
        return Err(FileRefusal::ReadOnly);
    }
    settle(rt, path, &file).map_err(|_| FileRefusal::SyncFailed)?;
    Ok(file)
}

// Syncs the file, and the folder in which it stands, so that it is there after a power cut.
fn settle(rt: &HostRuntime, path: &str, file: &File) -> io::Result<()> {
    file.sync_all()?;
    let mut folder = fs::canonicalize(rt, path)?;
    folder.pop();
    File::open(rt, folder.as_str())?.sync_all()
}

const LAST_PLACE: u64 = (1 << 63) - 1;

// How many bytes a file has. Its end is sought and its times are not asked for: since Linux 6.13 a
// file whose times were asked for gets new ones at its next write, which makes the sync dearer.
fn length(file: &Result<File, FileRefusal>) -> Result<u64, DiskFailed>
    ensures { IsErr file.now → IsErr result }
{
    let Ok(open) = file else {
        return Err(DiskFailed);
    };
    let mut open = open;
    open.seek(SeekFrom::End(0)).map_err(|_| DiskFailed)
}

fn read_from(file: &Result<File, FileRefusal>, at: u64, room: &mut [u8]) -> Result<(), DiskFailed>
    ensures { IsErr file.now → IsErr result }
{
    let Ok(open) = file else {
        return Err(DiskFailed);
    };
    if at > LAST_PLACE - room.len() as u64 || at + room.len() as u64 > length(file)? {
        return Err(DiskFailed);
    }
    open.read_exact_at(room, at).map_err(|_| DiskFailed)
}

fn write_to(file: &Result<File, FileRefusal>, at: u64, bytes: &[u8]) -> Result<(), DiskFailed>
    ensures { IsErr file.now → IsErr result }
{
    let Ok(open) = file else {
        return Err(DiskFailed);
    };
    if at > LAST_PLACE - bytes.len() as u64 || at > length(file)? {
        return Err(DiskFailed);
    }
    open.write_all_at(bytes, at).map_err(|_| DiskFailed)
}

// A sync that fails ends the file's use.
fn sync_file(file: &mut Result<File, FileRefusal>) -> Result<(), DiskFailed>
    ensures refused { IsErr file.old → IsErr result }
    ensures same { IsErr file.old → file.new ≡ file.old }
    ensures ends { OnErr result (IsErr file.new) }
{
    let synced = match file {
        Ok(file) => file.sync_data().is_ok(),
        Err(_) => return Err(DiskFailed),
    };
    if synced {
        return Ok(());
    }
    *file = Err(FileRefusal::SyncFailed);
    Err(DiskFailed)
}

// Counts an answer that is a fault.
fn counted<T: Drop>(answer: Result<T, DiskFailed>, faults: &mut u64) -> Result<T, DiskFailed>
    ensures same { result ≡ answer }
    ensures faults { Rises (failures result) faults.old faults.new }
{
    if answer.is_err() {
        *faults = faults.saturating_add(1);
    }
    answer
}

impl Disk for FileDisk {
    ghost use Rattle.std.specs.Prelude.{IsSome};
    ghost use Rattle.fix_disk.specs.Disk.{DiskMeasures, DiskReads, DiskWrites, DiskSyncs, HasRange};
    ghost use Rattle.fix_disk.specs.FileDisk.{file_disk_of, refusal_of, lawful};

    ghost disk = { file_disk_of };

    ghost lawful = { lawful };

    fn len(&mut self) -> Result<u64, DiskFailed>
        ensures moves { DiskMeasures result (file_disk_of self.old) (file_disk_of self.new) }
        ensures refused { IsSome (refusal_of self.old) → IsErr result }
        ensures same { refusal_of self.new ≡ refusal_of self.old }
    {
        counted(length(&self.file), &mut self.faults)
    }

    fn read_at(&mut self, at: u64, room: &mut [u8]) -> Result<(), DiskFailed>
        requires { HasRange (file_disk_of self.old).bytes at (length room.old) }
        ensures moves { DiskReads result at room.new (file_disk_of self.old) (file_disk_of self.new) }
        ensures refused { IsSome (refusal_of self.old) → IsErr result }
        ensures same { refusal_of self.new ≡ refusal_of self.old }
    {
        counted(read_from(&self.file, at, room), &mut self.faults)
    }

    fn write_at(&mut self, at: u64, bytes: &[u8]) -> Result<(), DiskFailed>
        requires { HasRange (file_disk_of self.old).bytes at 0 }
        ensures moves { DiskWrites result at bytes.now (file_disk_of self.old) (file_disk_of self.new) }
        ensures refused { IsSome (refusal_of self.old) → IsErr result }
        ensures same { refusal_of self.new ≡ refusal_of self.old }
    {
        counted(write_to(&self.file, at, bytes), &mut self.faults)
    }

    // A sync that fails ends the file's use.
    fn sync(&mut self) -> Result<(), DiskFailed>
        ensures moves { DiskSyncs result (file_disk_of self.old) (file_disk_of self.new) }
        ensures refused { IsSome (refusal_of self.old) → IsErr result }
        ensures same { IsSome (refusal_of self.old) → refusal_of self.new ≡ refusal_of self.old }
        ensures ends { OnErr result (IsSome (refusal_of self.new)) }
    {
        counted(sync_file(&mut self.file), &mut self.faults)
    }
}
