//! What a fault or an answer does, each as one table: whether the expected number is kept then, whether Cut
//! is noted, what the call answers, and why the session is stopped. The table of all of them stands in
//! specs/Faults.antt. `turn`,
//! `hand`, `drafting` and `session` call these, and they call nothing.
ghost use Rattle.std.specs.Prelude.{◌≡◌, Some};
ghost use Rattle.fix_engine.specs.Faults.{settles_of, is_cut_of, run_end, stop_cause, is_store_fault, sent_ending};
ghost use Rattle.fix_engine.specs.Faults.{is_link_fault, send_stop, stays_stopped};

use crate::{Ending, LoadFault, RunEnd, SendFault, StopCause};
use fix_base::SeqNum;

/// Whether the expected number is kept after a turn that came out so.
pub fn settles(met: &Result<(), Ending>) -> bool
    ensures { result ≡ settles_of met.now }
{
    match met {
        Ok(()) => true,
        Err(Ending::Closed(_)) => true,
        Err(Ending::NotBuilt { .. }) => true,
        Err(Ending::LinkFault) => true,
        Err(Ending::AppFault) => true,
        Err(Ending::StoreFault) => false,
        Err(Ending::NumbersSpent) => false,
        Err(Ending::OutOfMemory) => false,
    }
}

/// Whether Cut is noted after a run that ended so.
pub fn is_cut(ending: &Ending) -> bool
    ensures { result ≡ is_cut_of ending.now }
{
    match ending {
        Ending::Closed(_) => true,
        Ending::NotBuilt { .. } => true,
        Ending::LinkFault => true,
        Ending::AppFault => true,
        Ending::NumbersSpent => true,
        Ending::StoreFault => false,
        Ending::OutOfMemory => false,
    }
}

/// What `run_turns` answers after a run that came out so.
pub fn answer_of(ran: &Result<(), Ending>) -> RunEnd
    ensures { result ≡ run_end ran.now }
{
    match ran {
        Ok(()) => RunEnd::TurnsSpent,
        Err(Ending::Closed(why)) => RunEnd::Closed(*why),
        Err(Ending::NotBuilt { number }) => RunEnd::NotBuilt { number: *number },
        Err(Ending::StoreFault) => RunEnd::StoreFault,
        Err(Ending::LinkFault) => RunEnd::LinkFault,
        Err(Ending::AppFault) => RunEnd::AppFault,
        Err(Ending::NumbersSpent) => RunEnd::NumbersSpent,
        Err(Ending::OutOfMemory) => RunEnd::OutOfMemory,
    }
}

/// Why the session is stopped after this answer of `run_turns`.
pub fn stop_of(answer: RunEnd) -> Option<StopCause>
    ensures { result ≡ stop_cause answer }
{
    match answer {
        RunEnd::TurnsSpent => None,
        RunEnd::Closed(_) => None,
        RunEnd::NotBuilt { .. } => None,
        RunEnd::LinkFault => None,
        RunEnd::NumbersSpent => None,
        RunEnd::StoreFault => Some(StopCause::StoreFault),
        RunEnd::AppFault => Some(StopCause::AppFault),
        RunEnd::OutOfMemory => Some(StopCause::OutOfMemory),
        RunEnd::Stopped(cause) => Some(cause),
    }
}

/// Whether the store failed, so that the entry of the draft is stored or not.
pub fn is_lost(sent: &Result<SeqNum, SendFault>) -> bool
    ensures { result ≡ is_store_fault sent.now }
{
    match sent {
        Ok(_) => false,
        Err(SendFault::Stopped(_)) => false,
        Err(SendFault::NumbersSpent) => false,
        Err(SendFault::OutOfMemory) => false,
        Err(SendFault::StoreFault) => true,
        Err(SendFault::LinkFault { .. }) => false,
    }
}

/// How a turn goes on after its draft was sent so.
pub fn ending_of(sent: &Result<SeqNum, SendFault>) -> Result<(), Ending>
    ensures { result ≡ sent_ending sent.now }
{
    match sent {
        Ok(_) => Ok(()),
        Err(SendFault::Stopped(StopCause::StoreFault)) => Err(Ending::StoreFault),
        Err(SendFault::Stopped(StopCause::AppFault)) => Err(Ending::AppFault),
        Err(SendFault::Stopped(StopCause::OutOfMemory)) => Err(Ending::OutOfMemory),
        Err(SendFault::NumbersSpent) => Err(Ending::NumbersSpent),
        Err(SendFault::OutOfMemory) => Err(Ending::OutOfMemory),
        Err(SendFault::StoreFault) => Err(Ending::StoreFault),
        Err(SendFault::LinkFault { .. }) => Err(Ending::LinkFault),
    }
}

/// Whether Cut is noted after a `send` with this fault.
pub fn is_cut_sent(fault: &SendFault) -> bool
    ensures { result ≡ is_link_fault fault.now }
{
    match fault {
        SendFault::LinkFault { .. } => true,
        SendFault::Stopped(_) => false,
        SendFault::NumbersSpent => false,
        SendFault::OutOfMemory => false,
        SendFault::StoreFault => false,
    }
}

/// Why the session is stopped after this answer of `send`.
pub fn stop_of_sent(sent: &Result<SeqNum, SendFault>) -> Option<StopCause>
    ensures { result ≡ send_stop sent.now }
{
    match sent {
        Ok(_) => None,
        Err(SendFault::NumbersSpent) => None,
        Err(SendFault::LinkFault { .. }) => None,
        Err(SendFault::Stopped(cause)) => Some(*cause),
        Err(SendFault::OutOfMemory) => Some(StopCause::OutOfMemory),
        Err(SendFault::StoreFault) => Some(StopCause::StoreFault),
    }
}

/// Why the session is stopped where its store was not opened.
pub fn stop_by(stopped: Option<StopCause>, fault: LoadFault) -> StopCause
    ensures { Some result ≡ stays_stopped stopped fault }
{
    if let Some(cause) = stopped {
        return cause;
    }
    match fault {
        LoadFault::Failed => StopCause::StoreFault,
        LoadFault::Damaged(_) => StopCause::StoreFault,
        LoadFault::OutOfMemory => StopCause::OutOfMemory,
    }
}
