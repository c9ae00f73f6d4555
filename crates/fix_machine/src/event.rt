//! What a decision is about, and what it comes to: events, steps, and why a connection is closed. `machine`
//! takes an event and gives the steps.
use crate::Role;
use fix_admin::{Admin, Say};
use fix_base::Fault;
use fix_fields::Envelope;

/// What a message is after its header.
#[derive(Clone, Copy, Debug)]
pub enum Verdict<'a> {
    /// An application message in which no fault was found.
    App,
    /// A session message in which no fault was found.
    Admin(Admin<'a>),
    /// A message with a fault, which is the first.
    Bad(Fault),
}

/// What happens to a session.
#[derive(Clone, Copy, Debug)]
pub enum Event<'a> {
    /// A connection begins, at this reading of the clock.
    Begin {
        role: Role,
        now: u64,
    },
    /// The first turn of a connection that this session opened.
    First,
    /// A message was read, or one that waited has the expected number now.
    Frame {
        head: &'a Envelope<'a>,
        verdict: Verdict<'a>,
        /// Whether there is no room for this message among those that wait.
        full: bool,
        /// Whether the first GapFillFlag (123) is Y.
        gap: bool,
        /// Whether the first ResetSeqNumFlag (141) is Y.
        reset: bool,
    },
    /// The expected number changed, and the connection goes on.
    Moved {
        /// Whether a message waits at the new one.
        waiting: bool,
    },
    /// The clock was read.
    Clock {
        now: u64,
        /// Whether the reading lies in the time of the session that the connection began in.
        inside: bool,
    },
    /// The session is to leave, at this reading.
    Leave {
        now: u64,
    },
    /// The connection ended by the other side, or by a fault.
    Ended,
    /// A draft or a BusinessMessageReject (j) was sent, at this reading.
    Wrote {
        now: u64,
    },
}

/// Why a message is refused and the connection closed.
#[derive(Clone, Copy, Debug, PartialEq, Eq)]
pub enum Refusal {
    /// The first message on a connection is no Logon (A).
    NotLogon,
    /// BeginString (8) isn't the session's.
    BeginString,
    /// MsgSeqNum (34) isn't readable.
    NoNumber,
    /// MsgSeqNum (34) is below the expected one, and the message is no repeat.
    TooLow,
    /// SenderCompID (49) or TargetCompID (56) is wrong.
    CompId,
    /// SendingTime (52) or OrigSendingTime (122) is wrong.
    SendingTime,
    /// The Logon has a fault.
    BadLogon,
    /// ResetSeqNumFlag (141) is Y where no reset may be.
    ResetAsked,
    /// The Logon doesn't answer the reset that was asked for.
    ResetUnanswered,
}

/// Why a connection is closed. Times are readings of the clock in microseconds since 1970.
#[derive(Clone, Copy, Debug, PartialEq, Eq)]
pub enum Why {
    /// The other side ended it.
    PeerEnd,
    /// The Logout (5) of this number was answered, or answered that of this session.
    LoggedOut { number: u32 },
    /// The message of this number was refused; 0 where none was readable.
    Refused { number: u32, cause: Refusal },
    /// No message came since a TestRequest (1), which was sent at `since`.
    Silent { since: u64, now: u64 },
    /// No Logon (A) came since the connection began.
    LogonLate { since: u64, now: u64 },
    /// No answer came since the session sent its Logout (5).
    LogoutLate { since: u64, now: u64 },
    /// The session's time is over.
    OutOfWindow { now: u64 },
}

/// One thing to do.
#[derive(Clone, Copy, Debug, PartialEq, Eq)]
pub enum Step<'a> {
    /// Send this, under the next outbound number.
    Send(Say<'a>),
    /// Send the messages from `from` to `to` again; 0 for all that follow.
    Serve { from: u32, to: u32 },
    /// Hand the message over to the application.
    Hand,
    /// Let the message wait until its number is expected, unless one of its number waits.
    Stash,
    /// Expect this inbound number next.
    Expect(u32),
    /// Reset the store.
    Reset,
    /// Keep that the counterparty answered the reset that was asked for.
    Confirm,
    /// Close the connection.
    Close(Why),
    Nothing,
}

/// The answer to an event: its steps, in order. Those that are not used are `Nothing`, and stand
/// last.
#[derive(Clone, Copy, Debug, PartialEq, Eq)]
pub struct Decision<'a> {
    pub first: Step<'a>,
    pub second: Step<'a>,
    pub third: Step<'a>,
    pub fourth: Step<'a>,
}
