//! What holds of a session whatever it is called with, each law on a function that does nothing.
ghost use Rattle.std.specs.Prelude.{◌≡◌, ◌+◌, ◌++◌, ℕ, List, [], Some, None};
ghost use Rattle.fix_base.specs.Lists.{IsPrefixOf};
ghost use Rattle.fix_base.specs.Session.{mirrored};
ghost use Rattle.fix_base.specs.Payload.{IsPersistent};
ghost use Rattle.fix_base.specs.declared.entry.Stored.{Stored};
ghost use Rattle.fix_base.specs.End.{End, new_end};
ghost use Rattle.fix_outside.specs.Outside.{IsStoredOf};
ghost use Rattle.fix_engine.specs.Lawful.{IsStoredOrInDoubt};
ghost use Rattle.fix_engine.specs.Restart.{StartsAt, Restarts, RestartsAt};
ghost use Rattle.fix_base.specs.EndStep.{Acceptor, EndState, new_state};
ghost use Rattle.fix_base.specs.Agrees.{Agrees};
ghost use Rattle.fix_base.specs.Reader.{bytes_read, ReaderKeepsUp};
ghost use Rattle.fix_engine.specs.State.{first_state};
ghost use Rattle.fix_engine.specs.Reading.{ConnectionSeen, connection_seen};
ghost use Rattle.fix_engine.specs.Run.{no_bytes, RunsTo};
ghost use Rattle.fix_base.specs.Trace.{Note};
ghost use Rattle.fix_engine.specs.Turn.{TurnSeen, no_draft};
ghost use Rattle.fix_engine.specs.InStep.{IsTape, IsStored, IsInStep, HasServed, bytes_written};

use crate::{Outside, RunEnd};
use fix_base::{Act, Identity};

/// A session that was just opened is in step with an open outside that stores nothing, whatever acts
/// its tape has already.
pub fn a_new_session_is_in_step<O: Outside>(o: &O)
    ensures { (id : Identity) (before : List Act) → IsTape (O.seen o.now) before → IsStored (O.seen o.now) new_end
        → (O.seen o.now).open_at ≡ Some 0
        → IsInStep (new_state Acceptor) before (O.seen o.now)
        (record {
          identity = id;
          connection = connection_seen first_state no_bytes;
          pending = no_draft;
          stopped = None;
        }) }
{}

/// Where both ends of a connection are sessions of this engine, and what the one read is a front of
/// what the other wrote, the one keeps up with the other: what it handed over, each MsgSeqNum (34)
/// once, are the first messages that the other stored. This is said of ends that agreed at the
/// opening of the connection, of which the other keeps its messages to be sent again; each way.
pub fn two_sessions_agree()
    ensures one { (id : Identity) (first second : RunEnd) (a b : ConnectionSeen)
        (mine theirs opened facing : EndState) (acts others : List Act) →
        (x : HasServed id first a mine opened acts) (y : HasServed (mirrored id) second b theirs facing others) →
        IsPersistent theirs.end → IsPrefixOf (bytes_read acts) (bytes_written others) →
        Agrees mine.end.stored mine.handled theirs.end → Agrees mine.expected mine.handled theirs.end → ReaderKeepsUp theirs.end y.to.end acts x.to }
    ensures other { (id : Identity) (first second : RunEnd) (a b : ConnectionSeen) (mine theirs opened facing : EndState)
        (acts others : List Act) →
        (x : HasServed id first a mine opened acts) (y : HasServed (mirrored id) second b theirs facing others) →
        IsPersistent mine.end → IsPrefixOf (bytes_read others) (bytes_written acts) →
        Agrees theirs.end.stored theirs.handled mine.end → Agrees theirs.expected theirs.handled mine.end → ReaderKeepsUp mine.end x.to.end others y.to }
{}

/// Runs of `run_turns` one after another are one run: what holds of a run holds of several calls, where each
/// but the last made all its turns.
pub fn runs_are_one_run()
    ensures of_two { (id : Identity) (m n : ℕ) (from mid to : TurnSeen) (answer : RunEnd) (first more : List Note) →
        RunsTo id m from RunEnd.TurnsSpent mid first → RunsTo id n mid answer to more
        → RunsTo id (m + n) from answer to (first ++ more) }
    ensures of_none { (id : Identity) (from : TurnSeen) → RunsTo id 0 from RunEnd.TurnsSpent from [] }
{}

/// A process that stopped, at whatever moment, and starts again with the numbers that its store
/// has, goes on as a lawful end. The record that was in doubt, if any, is settled by the store.
pub fn a_stop_is_lawful()
    ensures lawful { (id : Identity) (stored : Stored) (start : EndState) → StartsAt stored start
        → Restarts id stored start }
    ensures held_again { (id : Identity) (stored : Stored) (start : EndState) (e : End) → start.role ≡ Acceptor
        → IsStoredOrInDoubt start.doubt start.end (Some e) → IsStoredOf stored e → RestartsAt id stored e start }
    ensures held { (stored : Stored) (start : EndState) (e : End) → start.role ≡ Acceptor
        → IsStoredOrInDoubt start.doubt start.end (Some e) → IsStoredOf stored e → StartsAt stored start }
{}
