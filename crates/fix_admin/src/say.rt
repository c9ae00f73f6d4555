//! The session messages that a session sends, as values. `fix_machine` chooses one, and `building` writes its
//! fields.
use fix_base::Fault;

/// A session message that a session sends. What is lent is lent from the message that it answers.
#[derive(Clone, Copy, Debug, PartialEq, Eq)]
pub enum Say<'a> {
    /// Heartbeat (0), with the TestReqID (112) of the TestRequest that it answers.
    Heartbeat {
        id: Option<&'a [u8]>,
    },
    /// TestRequest (1) with TestReqID (112) `TEST`.
    TestRequest,
    /// ResendRequest (2) from BeginSeqNo (7) to EndSeqNo (16), which is 0 for all that follow.
    ResendRequest {
        from: u32,
        to: u32,
    },
    /// Reject (3) of the message with this number and this MsgType (35).
    Reject {
        about: u32,
        kind: &'a [u8],
        fault: Fault,
    },
    /// SequenceReset (4) with GapFillFlag (123), to NewSeqNo (36). Its header has PossDupFlag (43).
    GapFill {
        next: u32,
    },
    /// Logout (5).
    Logout {
        text: LogoutText,
    },
    /// Logon (A) with HeartBtInt (108) in seconds, with ResetSeqNumFlag (141) where it asks for a
    /// reset or answers that, and with DefaultApplVerID (1137) in a session of FIXT.1.1.
    Logon {
        heart: u32,
        reset: bool,
        version: Option<u8>,
    },
}

/// The Text (58) of a Logout.
#[derive(Clone, Copy, Debug, PartialEq, Eq)]
pub enum LogoutText {
    /// None.
    Empty,
    /// MsgSeqNum (34) is below the expected one, and the message is no repeat.
    TooLow { expected: u32, received: u32 },
    /// BeginString (8) isn't the session's.
    BeginString,
    /// MsgSeqNum (34) isn't readable.
    NoNumber,
    /// SenderCompID (49) or TargetCompID (56) is wrong.
    CompId,
    /// SendingTime (52) or OrigSendingTime (122) is wrong.
    SendingTime,
    /// The session's time is over.
    OutOfWindow,
    /// A Logon with ResetSeqNumFlag (141) came in the middle of a connection.
    ResetFlag,
}
