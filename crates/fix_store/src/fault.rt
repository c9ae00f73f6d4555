//! The faults of the calls on an open store. `keeping` and `store` answer with them.

/// Why a call of a store wasn't done. They are tried in this order.
#[derive(Clone, Copy, Debug, PartialEq, Eq)]
pub enum StoreFault {
    /// The disk failed at an earlier call.
    Stopped,
    /// Every MsgSeqNum (34) is used: there are 999,999,999 entries.
    NumbersSpent,
    /// Out of memory, and nothing was done.
    OutOfMemory,
    /// The disk failed. What was to be kept may be kept or not.
    DiskFault,
}
