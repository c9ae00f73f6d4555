//! `Source` over the real files of the system. It reads a file as a whole, up to a limit of bytes.
ghost use Rattle.std.specs.Prelude.{◌≡◌, ◌≤◌, length, IfOk};

use crate::{Source, SourceFault};
use fix_base::Bytes;
use std::alloc::Global;
use std::fs;
use std::io::{ErrorKind, Read};
use std::rt::Files;

/// The files of the system, each by its path. It tells no content.
#[derive(Drop)]
pub struct FileSource<R> {
    rt: R,
    faults: u64,
}

impl<R: Files> FileSource<R> {
    ghost use Rattle.fix_disk.specs.FileSource.{file_source_of};

    /// The files of the runtime.
    pub fn new(rt: R) -> FileSource<R>
        ensures { (file_source_of result).faults ≡ 0 }
    {
        FileSource { rt, faults: 0 }
    }

    /// How often a read failed.
    pub fn faults(&self) -> u64
        ensures { result ≡ (file_source_of self.now).faults }
    {
        self.faults
    }
}

impl<R: Files> Source for FileSource<R> {
    ghost use Rattle.fix_disk.specs.Source.{SourceReads};
    ghost use Rattle.fix_disk.specs.FileSource.{file_source_of};

    ghost source = { file_source_of };

    fn read(&mut self, alloc: Global, name: &str, limit: u64) -> Result<Bytes, SourceFault> {
        let answer = read_file(&self.rt, alloc, name, limit);
        if let Err(SourceFault::Failed) = answer {
            self.faults = self.faults.saturating_add(1);
        }
        answer
    }
}

// Reads one byte more than the limit at most.
fn read_file<R: Files>(rt: &R, alloc: Global, name: &str, limit: u64) -> Result<Bytes, SourceFault>
    ensures { IfOk result (λ bytes. length bytes ≤ limit) }
{
    let Ok(file) = fs::File::open(rt, name) else {
        return Err(SourceFault::Failed);
    };
    let mut bytes = Vec::new(alloc);
    match file.take(limit.saturating_add(1)).read_to_end(&mut bytes) {
        Ok(_) => {}
        Err(e) if e.kind() == ErrorKind::OutOfMemory => return Err(SourceFault::OutOfMemory),
        Err(_) => return Err(SourceFault::Failed),
    }
    if bytes.len() as u64 > limit {
        return Err(SourceFault::TooLong);
    }
    Ok(Bytes::from_vec(bytes))
}
