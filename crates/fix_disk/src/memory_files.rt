//! `Source` in memory: looks up a file by its name, and copies its bytes. `failing` can make a read fail.
ghost use Rattle.std.specs.Prelude.{◌≡◌, ◌↔◌, IsTrue, MatchOption};
ghost use Rattle.fix_disk.specs.Source.{IsFile};

use crate::failing::Failing;
use crate::{Source, SourceFault};
use fix_base::Bytes;
use std::alloc::Global;

/// A source in memory.
#[derive(Debug, Drop)]
pub struct MemoryFiles {
    files: Vec<(Bytes, Bytes)>,
    failing: Failing,
}

impl MemoryFiles {
    ghost use Rattle.std.specs.Prelude.{Some};
    ghost use Rattle.fix_disk.specs.Script.{script_from};
    ghost use Rattle.fix_disk.specs.MemoryFiles.{files_of, files_script};

    /// A source of these files, each a name and its bytes; the first pair of a name counts. The
    /// reads whose numbers are in `fail`, from 1 on, fail, as does a read of a name that isn't here.
    pub fn new(files: Vec<(Bytes, Bytes)>, fail: Vec<u64>) -> MemoryFiles
        ensures seen { files_of result ≡ record { files = Some files.items; faults = 0 } }
        ensures script { files_script result ≡ script_from fail.items 0 }
    {
        MemoryFiles {
            files,
            failing: Failing::new(fail),
        }
    }

    /// How often a read failed.
    pub fn faults(&self) -> u64
        ensures { result ≡ (files_of self.now).faults }
    {
        self.failing.faults
    }
}

impl Source for MemoryFiles {
    ghost use Rattle.std.specs.Prelude.{◌⊎◌, IsErrOf};
    ghost use Rattle.fix_disk.specs.Script.{FailsNext, next_call};
    ghost use Rattle.fix_disk.specs.Source.{SourceReads};
    ghost use Rattle.fix_disk.specs.MemoryFiles.{files_of, files_script, files_in};

    ghost source = { files_of };

    fn read(&mut self, alloc: Global, name: &str, limit: u64) -> Result<Bytes, SourceFault>
        ensures moves { SourceReads result name.now limit (files_of self.old) (files_of self.new) }
        ensures listed { FailsNext (files_script self.old) → IsErrOf result SourceFault.Failed }
        ensures missing { ((bytes : _) → IsFile name.now bytes (files_in self.old) → ⊥)
            → IsErrOf result SourceFault.Failed }
        ensures failed { IsErrOf result SourceFault.Failed → FailsNext (files_script self.old)
            ⊎ ((bytes : _) → IsFile name.now bytes (files_in self.old) → ⊥) }
        ensures script { files_script self.new
            ≡ record (files_script self.old) { calls = next_call (files_script self.old) } }
    {
        if self.failing.strikes() {
            return Err(SourceFault::Failed);
        }
        let Some(found) = find(&self.files, name.as_bytes()) else {
            self.failing.fail();
            return Err(SourceFault::Failed);
        };
        if found.len() as u64 > limit {
            return Err(SourceFault::TooLong);
        }
        Ok(Bytes::from_vec(Vec::from_slice(alloc, found)?))
    }
}

// The bytes of the first file of this name.
fn find<'a>(files: &'a [(Bytes, Bytes)], name: &[u8]) -> Option<&'a [u8]>
    ensures { MatchOption result ((bytes : _) → IsFile name.now bytes files.now → ⊥)
        (λ found. IsFile name.now found.now files.now) }
{
    let mut rest = files;
    while let [first, later @ ..] = rest {
        if is_same(first.0.as_slice(), name) {
            return Some(first.1.as_slice());
        }
        rest = later;
    }
    None
}

fn is_same(a: &[u8], b: &[u8]) -> bool
    ensures { IsTrue result ↔ (a.now ≡ b.now) }
{
    a == b
}
