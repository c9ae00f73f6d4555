//! How an answer ends before its last step.
ghost use Rattle.std.specs.Prelude.{◌≡◌};
ghost use Rattle.fix_steps.specs.Ending as endings;

use fix_machine::Why;
use fix_stage::StageFault;

/// How an answer ends before its last step. The steps before that stand, and no later one is done.
#[derive(Clone, Copy, Debug, PartialEq, Eq)]
pub enum Ending {
    /// The answer closes the connection.
    Closed(Why),
    /// Every outbound MsgSeqNum is used.
    NumbersSpent,
    /// Out of memory.
    OutOfMemory,
    /// The message store failed. A record that was to be kept is kept or not; at a fetch there was none.
    StoreFault,
    /// The connection failed. What was staged is kept by then.
    LinkFault,
    /// The application failed: it has the message or not.
    AppFault,
}

/// A fault of sending, as an answer ends by it.
pub fn ending_of(fault: StageFault) -> Ending
    ensures { result ≡ endings.ending_of fault }
{
    match fault {
        StageFault::NumbersSpent => Ending::NumbersSpent,
        StageFault::OutOfMemory => Ending::OutOfMemory,
        StageFault::StoreFault => Ending::StoreFault,
        StageFault::LinkFault => Ending::LinkFault,
    }
}
