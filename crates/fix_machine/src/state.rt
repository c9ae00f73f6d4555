//! The settings that a session decides by, and its state. `machine` keeps both, and the stages read them.
use fix_base::Identity;

/// The phase of a session.
#[derive(Clone, Copy, Debug, PartialEq, Eq)]
pub enum Phase {
    /// There is no connection.
    Down,
    /// A connection is open, and its first message must be a Logon (A).
    AwaitLogon,
    /// The Logon was answered.
    Up,
    /// The session sent a Logout (5) to leave, and waits for that of the counterparty.
    LogoutSent,
}

/// Who opened the connection.
#[derive(Clone, Copy, Debug, PartialEq, Eq)]
pub enum Role {
    /// The counterparty, which sends its Logon (A) first.
    Acceptor,
    /// This session, which sends its Logon (A) first.
    Initiator,
}

/// What a session's settings say to its decisions.
#[derive(Debug, PartialEq, Eq, Drop)]
pub struct Options {
    pub identity: Identity,
    /// HeartBtInt (108) that an initiator asks for, in seconds; 0 for none.
    pub heart: u32,
    /// The most messages that one ResendRequest (2) asks for; 0 for all of a gap.
    pub chunk: u32,
    /// How far SendingTime (52) may be from the clock, in seconds, where it is looked at.
    pub latency: Option<u32>,
    /// How long the first Logon (A) is waited for, in seconds.
    pub logon_timeout: u32,
    /// How long the answer to a Logout (5) is waited for, in seconds.
    pub logout_timeout: u32,
    /// Whether application messages are kept so that they can be sent again.
    pub persist: bool,
    /// Whether an acceptor resets at each Logon (A), and an initiator asks for that with its own.
    pub reset_on_logon: bool,
    /// DefaultApplVerID (1137) of a session of FIXT.1.1.
    pub version: Option<u8>,
}

/// A gap that was asked for by a ResendRequest (2).
#[derive(Clone, Copy, Debug, PartialEq, Eq)]
pub struct Requested {
    /// The MsgSeqNum (34) that showed the gap.
    pub above: u32,
    /// EndSeqNo (16) that was asked for; 0 for all that follow.
    pub end: u32,
}

/// What a session knows of itself. Times are microseconds since 1970, at most the end of 2099.
#[derive(Clone, Copy, Debug, PartialEq, Eq)]
pub struct MachineState {
    pub phase: Phase,
    pub role: Role,
    /// The inbound MsgSeqNum (34) that is expected next, 1 to 1,000,000,000.
    pub expected: u32,
    /// The last outbound MsgSeqNum (34), 0 to 999,999,999.
    pub last: u32,
    /// HeartBtInt (108) in force, in seconds; 0 for none.
    pub heart: u32,
    /// The gap that was asked for and isn't filled yet.
    pub resend_requested: Option<Requested>,
    /// Whether a reset by Logon was asked for and isn't answered yet.
    pub reset_asked: bool,
    /// The last reading of the clock.
    pub reading: u64,
    /// When the connection was begun.
    pub begun: u64,
    /// When the last message was sent on it, resends aside.
    pub sent_at: u64,
    /// When the last message was read.
    pub read_at: u64,
    /// When the session left.
    pub left_at: u64,
    /// When a TestRequest (1) was sent that no message followed yet.
    pub test_request_sent_at: Option<u64>,
}
