//! What the calls of a session answer, and why it is stopped then. `session` asks these tables.
ghost use Rattle.std.specs.Prelude.{◌≡◌, Some};
ghost use Rattle.fix_session.specs.Stops as stops;

use fix_base::SeqNum;
use fix_machine::Why;
use fix_outside::LoadFault;
use fix_stage::StageFault;
use fix_steps::Ending;

/// Why a session does nothing any more, until it is reopened.
#[derive(Clone, Copy, Debug, PartialEq, Eq)]
pub enum StopCause {
    StoreFault,
    AppFault,
    OutOfMemory,
}

/// How a call of `run_turns` ended.
#[derive(Clone, Copy, Debug, PartialEq, Eq)]
pub enum RunEnd {
    /// All turns were made, and the connection goes on.
    TurnsSpent,
    /// The connection was closed.
    Closed(Why),
    /// The message store failed. The session is stopped.
    StoreFault,
    /// The connection failed.
    LinkFault,
    /// The application failed. The session is stopped.
    AppFault,
    /// A message must be sent, and every outbound MsgSeqNum is used.
    NumbersSpent,
    /// The session was stopped before.
    Stopped(StopCause),
    /// Out of memory. The session is stopped.
    OutOfMemory,
}

/// Why no connection was begun.
#[derive(Clone, Copy, Debug, PartialEq, Eq)]
pub enum BeginFault {
    /// The session was stopped before.
    Stopped(StopCause),
    /// Out of memory. The session is stopped.
    OutOfMemory,
    /// The message store failed where a reset was to be asked for. The session is stopped.
    StoreFault,
}

/// Why a message was not sent.
#[derive(Clone, Copy, Debug, PartialEq, Eq)]
pub enum SendFault {
    /// The session was stopped before.
    Stopped(StopCause),
    /// Every outbound MsgSeqNum is used. Nothing was kept.
    NumbersSpent,
    /// Out of memory. The session is stopped.
    OutOfMemory,
    /// The message store failed. The session is stopped.
    StoreFault,
    /// The connection failed: the message is kept under this number, and goes out as a repeat.
    LinkFault { number: SeqNum },
}

/// What `run_turns` answers after a run that came out so.
pub fn run_end(ran: Result<(), Ending>) -> RunEnd
    ensures { result ≡ stops.run_end ran }
{
    match ran {
        Ok(()) => RunEnd::TurnsSpent,
        Err(Ending::Closed(why)) => RunEnd::Closed(why),
        Err(Ending::StoreFault) => RunEnd::StoreFault,
        Err(Ending::LinkFault) => RunEnd::LinkFault,
        Err(Ending::AppFault) => RunEnd::AppFault,
        Err(Ending::NumbersSpent) => RunEnd::NumbersSpent,
        Err(Ending::OutOfMemory) => RunEnd::OutOfMemory,
    }
}

/// Why the session is stopped after this answer of `run_turns`.
pub fn run_stop(answer: RunEnd) -> Option<StopCause>
    ensures { result ≡ stops.run_stop answer }
{
    match answer {
        RunEnd::TurnsSpent => None,
        RunEnd::Closed(_) => None,
        RunEnd::LinkFault => None,
        RunEnd::NumbersSpent => None,
        RunEnd::StoreFault => Some(StopCause::StoreFault),
        RunEnd::AppFault => Some(StopCause::AppFault),
        RunEnd::OutOfMemory => Some(StopCause::OutOfMemory),
        RunEnd::Stopped(cause) => Some(cause),
    }
}

/// Why the session is stopped where no connection was begun.
pub fn begin_stop(fault: BeginFault) -> StopCause
    ensures { result ≡ stops.begin_stop fault }
{
    match fault {
        BeginFault::Stopped(cause) => cause,
        BeginFault::OutOfMemory => StopCause::OutOfMemory,
        BeginFault::StoreFault => StopCause::StoreFault,
    }
}

/// What `send` and `leave` answer where the message of this number came out so.
pub fn send_end(number: SeqNum, posted: Result<(), StageFault>) -> Result<SeqNum, SendFault>
    ensures { result ≡ stops.send_end number posted }
{
    match posted {
        Ok(()) => Ok(number),
        Err(StageFault::NumbersSpent) => Err(SendFault::NumbersSpent),
        Err(StageFault::OutOfMemory) => Err(SendFault::OutOfMemory),
        Err(StageFault::StoreFault) => Err(SendFault::StoreFault),
        Err(StageFault::LinkFault) => Err(SendFault::LinkFault { number }),
    }
}

/// Why the session is stopped after this answer of `send` or `leave`.
pub fn send_stop(sent: &Result<SeqNum, SendFault>) -> Option<StopCause>
    ensures { result ≡ stops.send_stop sent.now }
{
    match sent {
        Ok(_) => None,
        Err(SendFault::NumbersSpent) => None,
        Err(SendFault::LinkFault { .. }) => None,
        Err(SendFault::Stopped(cause)) => Some(*cause),
        Err(SendFault::OutOfMemory) => Some(StopCause::OutOfMemory),
        Err(SendFault::StoreFault) => Some(StopCause::StoreFault),
    }
}

/// Why the session is stopped where its store was not opened: one that was stopped stays so.
pub fn load_stop(stopped: Option<StopCause>, fault: LoadFault) -> StopCause
    ensures { Some result ≡ stops.load_stop stopped fault }
{
    if let Some(cause) = stopped {
        return cause;
    }
    match fault {
        LoadFault::Failed => StopCause::StoreFault,
        LoadFault::Damaged(_) => StopCause::StoreFault,
        LoadFault::OutOfMemory => StopCause::OutOfMemory,
    }
}
