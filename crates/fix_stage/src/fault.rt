//! Why a message was not sent, for all that a session sends.

/// Why a message was not staged, or what is staged was not kept and written.
#[derive(Clone, Copy, Debug, PartialEq, Eq)]
pub enum StageFault {
    /// Every outbound MsgSeqNum is used.
    NumbersSpent,
    /// Out of memory.
    OutOfMemory,
    /// The message store failed: the record is kept or not.
    StoreFault,
    /// The connection failed after the record was kept.
    LinkFault,
}
