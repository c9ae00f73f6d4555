//! The faults of a journal's calls: one type each for `open`, `append` and `read`. `opening`, `scanning` and
//! `journal` answer with them.

/// Why a journal wasn't opened.
#[derive(Clone, Copy, Debug, PartialEq, Eq)]
pub enum OpenFault {
    /// The disk failed.
    DiskFault,
    /// The file is made, and this is the first place at which it breaks the format.
    Damaged(u64),
    OutOfMemory,
}

/// Why a record wasn't appended.
#[derive(Clone, Copy, Debug, PartialEq, Eq)]
pub enum AppendFault {
    /// The disk failed at an earlier call.
    Stopped,
    /// The payload has more than 1,114,112 bytes.
    TooLong,
    OutOfMemory,
    /// The disk failed. The record may be in the file or not.
    DiskFault,
}

/// Why a record wasn't read.
#[derive(Clone, Copy, Debug, PartialEq, Eq)]
pub enum ReadFault {
    /// The disk failed at an earlier call.
    Stopped,
    OutOfMemory,
    /// The disk failed.
    DiskFault,
}
