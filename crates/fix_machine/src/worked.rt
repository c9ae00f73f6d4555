//! The words of worked rows: the state that a row begins in, its event, and as text what `decide` comes to. The
//! session is FIX.4.2, SELL to BUY, with HeartBtInt (108) 30, LogonTimeout 10, LogoutTimeout 2 and MaxLatency
//! 120, and its clock stands at 2024-01-02 10:00:00.
use crate::Role;

/// 2024-01-02 10:00:00. The times of a row are seconds since then.
pub const T: u64 = 1_704_189_600_000_000;

/// A row: where it begins, its event, the steps, and the state after them.
pub type Row = (Start, What, &'static str, &'static str);

/// A part of a longer session, which begins where the one before it ended, and the seconds to the next deadline
/// since `T`, or 0 for none.
pub type Part = (What, &'static str, &'static str, u32);

/// The setting that differs.
#[derive(Clone, Copy)]
pub enum With {
    Nothing,
    /// ResendRequestChunkSize 2.
    Chunks,
    /// CheckLatency N.
    AnyTime,
    /// ResetOnLogon Y.
    Resets,
    /// DefaultApplVerID 9.
    Version,
    /// LogoutTimeout a day.
    Patience,
}

/// The state before the numbers are set.
#[derive(Clone, Copy)]
pub enum Way {
    Down,
    /// AwaitLogon, as acceptor.
    Accepts,
    /// AwaitLogon, as initiator.
    Opens,
    Up,
    /// Up, with HeartBtInt (108) 0.
    Quiet,
    LogoutSent,
    /// Up, and the gap that this number showed was asked for.
    Gap(u32),
}

#[derive(Clone, Copy)]
pub struct Start {
    pub with: With,
    pub way: Way,
    pub expected: u32,
    pub last: u32,
    /// Whether a reset by Logon was asked for.
    pub asks: bool,
}

/// What a message says. The number in `App` and `Bad` is the byte of MsgType (35), 0 for none.
#[derive(Clone, Copy)]
pub enum Says {
    App(u8),
    Heartbeat,
    /// With TestReqID (112) PING.
    TestRequest,
    /// From 1.
    ResendRequest,
    Reject,
    /// A SequenceReset (4) without GapFillFlag (123), and one with it.
    Reset(u32),
    Fill(u32),
    Logout,
    /// With this HeartBtInt (108).
    Logon(u32),
    /// With this HeartBtInt (108), and ResetSeqNumFlag (141) Y.
    ResetLogon(u32),
    /// With HeartBtInt (108) 30, and this DefaultApplVerID (1137).
    VersionLogon(u8),
    /// A fault: SessionRejectReason (373) and RefTagID (371).
    Bad(u8, u16, u32),
}

/// What is odd about a message's header, or its arrival.
#[derive(Clone, Copy, PartialEq, Eq)]
pub enum Odd {
    Nothing,
    /// BeginString (8) is FIX.4.4.
    Version,
    NoSender,
    NoTarget,
    /// SenderCompID (49), TargetCompID (56) is OTHER.
    OtherSender,
    OtherTarget,
    OtherSenderNoTarget,
    /// SendingTime (52) is absent, or no UTCTimestamp.
    NoTime,
    BadTime,
    /// SendingTime (52) is so many seconds early or late.
    Early120,
    Early121,
    Late120,
    Late121,
    /// PossDupFlag (43) is X, or N.
    FlagX,
    FlagN,
    /// PossDupFlag (43) is Y, and OrigSendingTime (122) absent.
    Marked,
    /// The same with the OrigSendingTime (122) that SendingTime (52) is, one that is later, and none.
    Again,
    AgainLater,
    AgainBad,
    /// No message more can wait.
    Full,
}

/// What happens. A message is told by its number, 0 where none is readable.
#[derive(Clone, Copy)]
pub enum What {
    Begin(Role, u64),
    First,
    In(u32, Says),
    InOdd(u32, Odd, Says),
    Moved(bool),
    Clock(u64, bool),
    Leave(u64),
    Ended,
    Wrote(u64),
}

/// A session with no further setting, and these numbers: the expected one and the last.
pub fn at(way: Way, expected: u32, last: u32) -> Start {
    under(With::Nothing, way, expected, last)
}

/// The same with a setting.
pub fn under(with: With, way: Way, expected: u32, last: u32) -> Start {
    Start {
        with,
        way,
        expected,
        last,
        asks: false,
    }
}

/// The same where a reset by Logon was asked for.
pub fn asking(way: Way, expected: u32, last: u32) -> Start {
    Start {
        asks: true,
        ..at(way, expected, last)
    }
}
