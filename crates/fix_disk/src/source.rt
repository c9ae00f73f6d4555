//! What a place of files is to whoever reads them: one call, which may fail. `file_source` and `memory_files`
//! carry it out.
ghost use Rattle.fix_disk.specs.Source.{SourceSeen, SourceReads};

use fix_base::Bytes;
use std::alloc::{AllocError, Global};

/// Why a source gave no file.
#[derive(Clone, Copy, Debug, PartialEq, Eq)]
pub enum SourceFault {
    /// The file isn't there, or the source failed.
    Failed,
    /// It has more bytes than were asked for.
    TooLong,
    OutOfMemory,
}

impl From<AllocError> for SourceFault {
    ghost use Rattle.std.specs.Prelude.{◌≡◌};
    ghost use Rattle.fix_disk.specs.declared.source.SourceFault.TheVariants.{OutOfMemory};

    ghost from_gives = { λ _ e. e ≡ OutOfMemory };

    fn from(_: AllocError) -> SourceFault {
        SourceFault::OutOfMemory
    }
}

/// A place that files come from.
pub trait Source {
    /// The files, pairs of a name and its bytes, where they are told, and how often a read failed.
    ghost source: { Self → SourceSeen };

    /// The bytes of the file of this name, if there are at most `limit`.
    fn read(&mut self, alloc: Global, name: &str, limit: u64) -> Result<Bytes, SourceFault>
        ensures moves { SourceReads result name.now limit (source self.old) (source self.new) };
}
