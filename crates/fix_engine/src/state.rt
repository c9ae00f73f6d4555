//! The state of a session, the steps that change it, and the bounds of its numbers. Each stage takes these.
ghost use Rattle.std.specs.Prelude.{◌≡◌};
ghost use Rattle.fix_engine.specs.State.{IsInRange, with_reading};

use fix_base::{LAST_TIME, SeqNum};

/// The phase of a session.
///
/// ```text
/// Down ──begin──> AwaitLogon ──Logon──> Up
///   ^                 │                 │
///   └──── close, fault, numbers spent ──┘
/// ```
#[derive(Clone, Copy, Debug, PartialEq, Eq)]
pub enum Phase {
    /// There is no connection.
    Down,
    /// A connection is open, and its first message must be a Logon (A).
    AwaitLogon,
    /// The Logon was answered.
    Up,
}

/// What a session knows of itself.
#[derive(Clone, Copy, Debug, PartialEq, Eq)]
pub struct State {
    pub phase: Phase,
    /// The inbound MsgSeqNum (34) that is expected next, 1 to 1,000,000,000.
    pub expected: u32,
    /// The expected number as it was kept last.
    pub stored_expected: u32,
    /// The last outbound MsgSeqNum, 0 to 999,999,999.
    pub last: u32,
    /// The last reading of the clock, in microseconds since 1970, at most the end of 2099.
    pub reading: u64,
}

/// Why a message is refused and the connection closed.
#[derive(Clone, Copy, Debug, PartialEq, Eq)]
pub enum Refusal {
    /// The first message on a connection is no Logon (A).
    NotLogon,
}

/// Why a connection was closed.
#[derive(Clone, Copy, Debug, PartialEq, Eq)]
pub enum Why {
    /// The other side ended it.
    PeerEnd,
    /// The Logout (5) of this number was answered.
    LoggedOut { number: u32 },
    /// The message of this number was refused. The number is 0 where none was readable.
    Refused { number: u32, cause: Refusal },
}

/// How a run ends before its turns are spent.
#[derive(Clone, Copy, Debug, PartialEq, Eq)]
pub enum Ending {
    Closed(Why),
    /// A message came that the engine doesn't answer yet. The number is 0 where none was readable.
    NotBuilt { number: u32 },
    StoreFault,
    LinkFault,
    AppFault,
    /// Every outbound MsgSeqNum is used.
    NumbersSpent,
    OutOfMemory,
}

/// An administrative message that the session sends.
#[derive(Clone, Copy, Debug, PartialEq, Eq)]
pub enum Say {
    /// The answer to a Logon, with its HeartBtInt (108) in seconds, at most 86,400.
    Logon { heart: u32 },
    /// Logout (5) without a text.
    Logout,
}

/// One thing to do.
#[derive(Clone, Copy, Debug, PartialEq, Eq)]
pub enum Step {
    /// Takes the next outbound number, keeps the entry, and then writes the frame. Where the write
    /// fails, the inbound message `counts` is counted all the same: its answer is kept, and goes
    /// out again as a repeat.
    Send { say: Say, counts: Option<SeqNum> },
    /// Hands the message over.
    Hand { number: SeqNum, marked: bool },
    /// Expects the number after this one.
    Count(SeqNum),
    GoUp,
    Close(Why),
    /// Ends the run at a message that isn't answered yet.
    GiveUp { number: u32 },
    Nothing,
}

/// The answer to one message: its steps, in order.
#[derive(Clone, Copy)]
pub struct Decision {
    pub steps: [Step; 4],
}

/// Takes a reading of the clock, in microseconds since 1970. One after the end of 2099 counts as that.
pub fn take_reading(state: &mut State, reading: u64)
    requires range { IsInRange state.old }
    ensures range { IsInRange state.new }
    ensures taken { state.new ≡ with_reading state.old reading }
{
    state.reading = reading.min(LAST_TIME);
}
