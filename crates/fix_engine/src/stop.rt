//! What the calls of a session answer.
use crate::Why;
use fix_base::SeqNum;

/// Why a session does nothing any more.
#[derive(Clone, Copy, Debug, PartialEq, Eq)]
pub enum StopCause {
    StoreFault,
    AppFault,
    OutOfMemory,
}

/// How a call of `run_turns` ended.
#[derive(Clone, Copy, Debug, PartialEq, Eq)]
pub enum RunEnd {
    /// All turns were made, and the connection goes on.
    TurnsSpent,
    /// The connection was closed.
    Closed(Why),
    /// The message store failed. The session is stopped.
    StoreFault,
    /// The connection failed.
    LinkFault,
    /// The application failed. The session is stopped.
    AppFault,
    /// A message must be sent, and every outbound MsgSeqNum is used.
    NumbersSpent,
    /// The session was stopped before.
    Stopped(StopCause),
    /// Out of memory. The session is stopped.
    OutOfMemory,
    /// A message came that the engine doesn't answer yet. The number is 0 where none was readable.
    NotBuilt { number: u32 },
}

/// Why no connection was begun.
#[derive(Clone, Copy, Debug, PartialEq, Eq)]
pub enum BeginFault {
    /// The session was stopped before.
    Stopped(StopCause),
    /// Out of memory. The session is stopped.
    OutOfMemory,
}

/// Why a draft was not sent.
#[derive(Clone, Copy, Debug, PartialEq, Eq)]
pub enum SendFault {
    /// The session was stopped before.
    Stopped(StopCause),
    /// Every outbound MsgSeqNum is used. Nothing was kept.
    NumbersSpent,
    /// Out of memory. The session is stopped.
    OutOfMemory,
    /// The message store failed. The session is stopped.
    StoreFault,
    /// The connection failed: the draft is kept under this number, and goes out as a repeat.
    LinkFault { number: SeqNum },
}
