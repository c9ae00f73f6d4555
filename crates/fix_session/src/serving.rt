//! Serves one connection with a session, whatever a stop left of it. A host's threads call this.
ghost use Rattle.std.specs.Prelude.{◌≡◌, None, IfNone};
ghost use Rattle.fix_outside.specs.Calls.{HasCalls};
ghost use Rattle.fix_machine.specs.declared.state.Phase.TheVariants.{Down};
ghost use Rattle.fix_session.specs.Session.{IsOpen};
ghost use Rattle.fix_session.specs.Serve.{Readies, BeginsAndRuns, ServesTo, ServedHasCause, IsServedDown, IsAnew};

use crate::{BeginFault, RunEnd, Session};
use fix_outside::{LoadFault, Outside};

/// How one connection was served.
#[derive(Clone, Copy, Debug, PartialEq, Eq)]
pub enum Served {
    /// The connection was begun, and its turns ended so.
    Ran(RunEnd),
    /// The session was stopped, and its message store was not opened again.
    ReopenFault(LoadFault),
    /// No connection was begun.
    BeginFault(BeginFault),
}

/// Opens a stopped session again, begins a connection, and makes at most `turns` turns on it: what it answers is the
/// first refusal, or how the turns ended. The session must be Down, and the store open at its last number where it isn't
/// stopped. It is Down after it, unless all turns were made.
pub fn session_thread<O: Outside>(session: &mut Session, o: &mut O, turns: u64) -> Served
    requires phase { session.old.work.state.machine.state.phase ≡ Down }
    requires opens { IfNone session.old.stopped (IsOpen (O.seen o.old) session.old) }
    ensures calls { HasCalls (O.seen o.old) (O.seen o.new)
        (λ calls. ServesTo turns session.old calls result session.new) }
    ensures cause { ServedHasCause result (O.seen o.old).faults (O.seen o.new).faults }
    ensures opens { IfNone session.new.stopped (IsOpen (O.seen o.new) session.new) }
    ensures down { IsServedDown result session.new.work.state.machine.state.phase }
    ensures anew { IsAnew result }
{
    match ready(session, o) {
        Ok(()) => begin_and_run(session, o, turns),
        Err(fault) => Served::ReopenFault(fault),
    }
}

// Opens a stopped session again.
fn ready<O: Outside>(session: &mut Session, o: &mut O) -> Result<(), LoadFault>
    requires phase { session.old.work.state.machine.state.phase ≡ Down }
    requires opens { IfNone session.old.stopped (IsOpen (O.seen o.old) session.old) }
    ensures calls { HasCalls (O.seen o.old) (O.seen o.new) (λ calls. Readies session.old calls result session.new) }
    ensures opens { IfNone session.new.stopped (IsOpen (O.seen o.new) session.new) }
{
    match session.stopped() {
        None => Ok(()),
        Some(_) => session.reopen(o),
    }
}

// Begins a connection, and makes the turns.
fn begin_and_run<O: Outside>(session: &mut Session, o: &mut O, turns: u64) -> Served
    requires goes_on { session.old.stopped ≡ None }
    requires phase { session.old.work.state.machine.state.phase ≡ Down }
    requires opens { IsOpen (O.seen o.old) session.old }
    ensures calls { HasCalls (O.seen o.old) (O.seen o.new)
        (λ calls. BeginsAndRuns turns session.old calls result session.new) }
    ensures opens { IfNone session.new.stopped (IsOpen (O.seen o.new) session.new) }
{
    match session.begin(o) {
        Ok(()) => Served::Ran(session.run_turns(o, turns)),
        Err(fault) => Served::BeginFault(fault),
    }
}
