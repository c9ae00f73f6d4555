//! What `Dictionary::read` answers where it fails, and how a failed allocation becomes that.
use fix_base::{Bytes, OutOfMemory, Tag};
use std::alloc::{AllocError, AllocFailed};

/// Why a file is no dictionary: the first wrong place of it.
#[derive(Debug, PartialEq, Eq, Drop)]
pub enum DictFault {
    /// The bytes are no JSON.
    NotJson,
    /// A member is missing or isn't of its form. The path is the names of the members joined by
    /// points, each item's index in brackets after its array, as in `messages[0].members[2].tag`.
    BadShape(Bytes),
    /// Two fields have the tag; or it stands twice among the members of one message, groups
    /// included, or twice in header and trailer together.
    DuplicateTag(Tag),
    /// A member's tag is none of the fields'.
    UnknownTag(Tag),
    /// Two messages have the MsgType (35).
    DuplicateType(Bytes),
    /// A group stands inside eight others.
    DepthPassed,
    /// Out of memory.
    OutOfMemory,
}

impl From<AllocError> for DictFault {
    ghost use Rattle.std.specs.Prelude.{◌≡◌};
    ghost use Rattle.fix_dict.specs.declared.fault.DictFault.TheVariants.{OutOfMemory};

    ghost from_gives = { λ _ e. e ≡ OutOfMemory };

    fn from(_: AllocError) -> Self {
        DictFault::OutOfMemory
    }
}

impl<T> From<AllocFailed<T>> for DictFault
where
    T: Drop,
{
    ghost use Rattle.std.specs.Prelude.{◌≡◌};
    ghost use Rattle.fix_dict.specs.declared.fault.DictFault.TheVariants.{OutOfMemory};

    ghost from_gives = { λ _ e. e ≡ OutOfMemory };

    fn from(_: AllocFailed<T>) -> Self {
        DictFault::OutOfMemory
    }
}

impl From<OutOfMemory> for DictFault {
    ghost use Rattle.std.specs.Prelude.{◌≡◌};
    ghost use Rattle.fix_dict.specs.declared.fault.DictFault.TheVariants.{OutOfMemory};

    ghost from_gives = { λ _ e. e ≡ OutOfMemory };

    fn from(_: OutOfMemory) -> Self {
        DictFault::OutOfMemory
    }
}
