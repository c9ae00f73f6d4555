//! What an end of a session does to what is outside it.
use crate::{Bytes, Record};

/// What an end of a session does to what is outside it, in the order in which it is done. A list
/// of acts is a tape.
#[derive(Debug, PartialEq, Eq, Drop)]
pub enum Act {
    /// A connection was opened.
    Opened,
    /// The clock gave this reading, in microseconds since 1970.
    Now(u64),
    /// These bytes came over the connection.
    Read(Bytes),
    /// Nothing came over the connection yet.
    Idle,
    /// The counterparty ended the connection.
    Ended,
    /// These bytes went out: all of a write, or what went out before it failed.
    Wrote(Bytes),
    /// The record is kept.
    Kept(Record),
    /// Keeping the record failed: it may be kept or not.
    KeepLost(Record),
    /// The application took the message of this MsgSeqNum (34). `marked` is PossDupFlag (43) = Y.
    Handed {
        number: u32,
        marked: bool,
        body: Bytes,
    },
    /// The application failed at the message: it may have it or not.
    HandLost {
        number: u32,
        marked: bool,
        body: Bytes,
    },
    /// The application doesn't want the message of this MsgSeqNum (34) sent again.
    Withheld(u32),
    /// The application lets the message of this MsgSeqNum (34) be sent again.
    Allowed(u32),
    /// The connection was given up.
    Cut,
    /// The process starts again from what is stored.
    Stop,
}
