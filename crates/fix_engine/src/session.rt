//! The calls of a session, for who opens and runs it. Each runs a stage (`turn` or `drafting`), and then
//! notes why the session is stopped, if it is.
ghost use Rattle.std.specs.Prelude.{◌≡◌, ◌≢◌, ◌⊎◌, ◌≤◌, ◌∷◌, ◌++◌, ℕ, List, [], IfSome, IfNone, is_some, Result, IfOk};
ghost use Rattle.std.specs.Prelude.{OnOk, OnErr, Some, None, Err};
ghost use Rattle.fix_base.specs.declared.entry.Stored.{Stored};
ghost use Rattle.fix_base.specs.End.{End};
ghost use Rattle.fix_base.specs.Session.{IsValidIdentity};
ghost use Rattle.fix_base.specs.EndStep.{EndState};
ghost use Rattle.fix_base.specs.Trace.{acts_of, NoneRose, HasTrace};
ghost use Rattle.fix_engine.specs.declared.state.State.{State};
ghost use Rattle.fix_outside.specs.declared.outside.LoadFault.{LoadFault};
ghost use Rattle.fix_engine.specs.State.{IsInRange};
ghost use Rattle.fix_outside.specs.Outside.{LoadAnswers};
ghost use Rattle.fix_engine.specs.Lawful.{IsLawfulRun, IsLawfulBegin};
ghost use Rattle.fix_engine.specs.InStep.{IsInStep, IsInStepSinceSome, CanRestart, IsConnected, HasServed};
ghost use Rattle.fix_engine.specs.Run.{turn_of, state_of, LoadHasCause, OpensTo, ReopensTo, RunsTo, RunHasCause};
ghost use Rattle.fix_engine.specs.Run.{IsDownUnlessSpent, Opens, BeginsTo};
ghost use Rattle.fix_engine.specs.Drafted.{SendsTo, SendHasCause};
ghost use Rattle.fix_engine.specs.Faults.{stop_cause, send_stop};
ghost use Rattle.fix_engine.specs.LawfulSend.{IsLawfulSend};
ghost use Rattle.fix_engine.specs.Counts.{HasTurns, IsSettled, ShowsPeerEnd};
ghost use Rattle.fix_engine.specs.Stated.{IsAsStated};
ghost use Rattle.fix_engine.specs.LookBack.{StandsAt, LooksBack};

use crate::context::Context;
use crate::drafting::send_and_cut;
use crate::faults::{answer_of, stop_by, stop_of, stop_of_sent};
use crate::pending::{PendingDraft, pending_is_draft, settle_pending};
use crate::state::take_reading;
use crate::turn::{ROOM, run_and_cut};
use crate::work::Work;
use crate::{BeginFault, LoadFault, Outside, Phase, RunEnd, SendFault, State, StopCause};
use fix_base::{Act, Identity, LAST_SEQ_NUM, SeqNum, Stored};
use fix_fields::Draft;
use fix_frame::Reader;
use std::alloc::Global;
use std::marker::Model;

/// One session: it outlives its connections. Contracts see its identity, its state with the bytes
/// that no frame was taken from yet, the draft that it has in hand, and why it is stopped, if it
/// is.
#[derive(Drop)]
pub struct Session {
    context: Context,
    work: Work,
    stopped: Option<StopCause>,
}

impl Model for Session {
    ghost use Rattle.std.specs.Prelude.{◌≡◌, length, false, None, IfSome};
    ghost use Rattle.fix_base.specs.Session.{IsValidIdentity};
    ghost use Rattle.fix_engine.specs.State.{IsInRange, Down};
    ghost use Rattle.fix_engine.specs.Reading.{connection_seen};
    ghost use Rattle.fix_engine.specs.Run.{SessionSeen};

    ghost Value = { SessionSeen };

    ghost view = { λ s. record {
      identity = s.context.identity;
      connection = connection_seen s.work.state s.work.reader.unread;
      pending = s.work.pending;
      stopped =
          s.stopped;
    } };

    ghost invariant = { λ s. IsValidIdentity s.context.identity × IsInRange s.work.state ×
        (length s.work.room.items ≡ 65536) × (s.stopped ≡ None → s.work.pending.store_failed ≡ false) ×
        IfSome s.stopped (λ cause. s.work.state.phase ≡ Down) };
}

impl Session {
    /// A session as acceptor, over what the message store has: it opens the store, and goes on with
    /// its numbers. Both CompIDs must be ones: 1 to 64 bytes from 0x20 to 0x7E. Memory is taken
    /// first: where it is refused, the store isn't asked.
    pub fn open<O: Outside>(
        alloc: Global,
        o: &mut O,
        identity: Identity,
    ) -> Result<Session, LoadFault>
        requires { IsValidIdentity identity }
        ensures opens { (loaded : Result Stored LoadFault) × LoadAnswers loaded (O.seen o.old) ×
            HasTrace (O.seen o.old) (O.seen o.new) (OpensTo identity result loaded) }
        ensures cause { LoadHasCause result (O.seen o.old).faults (O.seen o.new).faults }
        ensures in_step { IfOk result (IsInStepSinceSome (O.seen o.new)) }
        // The store isn't open then, unless it wasn't asked.
        ensures shut { OnErr result ((o.new ≡ o.old) ⊎ ((O.seen o.new).open_at ≡ None)) }
    {
        let Ok(reader) = Reader::new(alloc) else {
            return Err(LoadFault::OutOfMemory);
        };
        let Ok(room) = vec![in alloc; 0u8; ROOM] else {
            return Err(LoadFault::OutOfMemory);
        };
        match o.load() {
            Ok(stored) => Ok(Session {
                context: Context { alloc, identity },
                work: Work {
                    state: state_from(stored),
                    reader,
                    room,
                    pending: PendingDraft {
                        draft: None,
                        store_failed: false,
                    },
                },
                stopped: None,
            }),
            Err(fault) => Err(fault),
        }
    }

    /// Opens the message store again: the session goes on from what is stored, whatever a stop left
    /// of it. A session that isn't stopped must be Down, and is stopped where this is refused; one
    /// that is stopped stays so then. On Ok it isn't stopped, and in step with the outside.
    ///
    /// A draft in hand whose entry was lost is dropped where the store has it, which shows by the
    /// last number. Else it is still in hand, and sent first in the next turn in phase Up.
    pub fn reopen<O: Outside>(&mut self, o: &mut O) -> Result<(), LoadFault>
        requires { IfNone self.old.stopped (self.old.connection.state.phase ≡ Phase.Down) }
        ensures loads { (loaded : Result Stored LoadFault) × LoadAnswers loaded (O.seen o.old) ×
            HasTrace (O.seen o.old) (O.seen o.new) (ReopensTo self.old result loaded self.new) }
        ensures cause { LoadHasCause result (O.seen o.old).faults (O.seen o.new).faults }
        ensures stands { OnOk result (IsInStepSinceSome (O.seen o.new) self.new) }
        // Where the store tells what it holds: the acts since some start are a run of a lawful end
        // still, and what was in doubt is settled.
        ensures in_step { OnOk result ((start : EndState) (before : List Act) (e : End) → (O.seen o.old).Holds e →
            CanRestart start before (O.seen o.old) self.old → IsInStep start before (O.seen o.new) self.new) }
        ensures trails { OnErr result ((start : EndState) (before : List Act) →
            CanRestart start before (O.seen o.old) self.old → CanRestart start before (O.seen o.new) self.new) }
        ensures shut { OnErr result ((O.seen o.new).open_at ≡ None) }
    {
        match o.load() {
            Ok(stored) => {
                settle_pending(&mut self.work.pending, self.work.state.last, stored.last);
                self.work.state = state_from(stored);
                self.stopped = None;
                Ok(())
            }
            Err(fault) => {
                self.stopped = Some(stop_by(self.stopped, fault));
                Err(fault)
            }
        }
    }

    /// Begins a connection: reads the clock once, and waits for the counterparty's Logon. The
    /// phase must be Down, and the outside in step with the session: what it tells of its tape and
    /// of its store is what the session's calls did. A stopped session answers `Stopped` and calls
    /// nothing.
    pub fn begin<O: Outside>(&mut self, o: &mut O) -> Result<(), BeginFault>
        requires phase { IfNone self.old.stopped (self.old.connection.state.phase ≡ Phase.Down) }
        requires in_step { IfNone self.old.stopped (IsInStepSinceSome (O.seen o.old) self.old) }
        // On a stopped session.
        ensures stopped { IfSome self.old.stopped (λ cause. result ≡ Err (BeginFault.Stopped cause)) }
        ensures calls_none { IfSome self.old.stopped (λ cause. o.new ≡ o.old) }
        ensures stays { IfSome self.old.stopped (λ cause. self.new ≡ self.old) }

        // On a session that goes on.
        ensures begins { IfNone self.old.stopped
            (HasTrace (O.seen o.old) (O.seen o.new) (BeginsTo self.old result self.new)) }
        ensures from_here { IfNone self.old.stopped (OnOk result (StandsAt self.new.connection.state [] [] self.new.connection)) }

        // It is a run of a lawful end, and where the session isn't stopped it is in step with what is
        // outside of it, and connected.
        ensures lawful { IfNone self.old.stopped
            (HasTrace (O.seen o.old) (O.seen o.new) (IsLawfulBegin self.old result self.new)) }
        ensures in_step { IfNone self.new.stopped
            ((start : EndState) (before : List Act) → IsInStep start before (O.seen o.old) self.old →
            IsInStep start before (O.seen o.new) self.new) }
        ensures trails { IfNone self.old.stopped
            ((start : EndState) (before : List Act) → IsInStep start before (O.seen o.old) self.old →
            CanRestart start before (O.seen o.new) self.new) }
        ensures stands { IfNone self.new.stopped (IsInStepSinceSome (O.seen o.new) self.new) }
        ensures connected { IfNone self.new.stopped
            ((start : EndState) (before : List Act) (h : IsInStep start before (O.seen o.old) self.old) → (time : ℕ) ×
            IsConnected h.to (before ++ h.acts ++ Act.Now time ∷ []) (O.seen o.new) self.new) }
    {
        if let Some(cause) = self.stopped {
            return Err(BeginFault::Stopped(cause));
        }
        let reader = match Reader::new(self.context.alloc) {
            Ok(reader) => reader,
            Err(_) => {
                self.stopped = Some(StopCause::OutOfMemory);
                return Err(BeginFault::OutOfMemory);
            }
        };
        match open_connection(o) {
            Ok(reading) => {
                take_reading(&mut self.work.state, reading);
                self.work.state.phase = Phase::AwaitLogon;
                self.work.reader = reader;
                Ok(())
            }
            Err(fault) => {
                self.stopped = Some(StopCause::OutOfMemory);
                Err(fault)
            }
        }
    }

    /// Makes at most `turns` turns. In each of them it asks the application once for a draft, where
    /// it is Up and has none in hand, and sends what it has in hand. Then it reads once, answers
    /// the messages that this completes, reads the clock once, and keeps the expected number.
    ///
    /// A draft stays in hand until its entry is kept: where it is out of memory before that, where
    /// the store failed, and where every number is used.
    ///
    /// The phase must not be Down, and the outside in step with the session. A stopped session
    /// answers `Stopped` and calls nothing.
    pub fn run_turns<O: Outside>(&mut self, o: &mut O, turns: u64) -> RunEnd
        requires phase { IfNone self.old.stopped (self.old.connection.state.phase ≢ Phase.Down) }
        requires in_step { IfNone self.old.stopped (IsInStepSinceSome (O.seen o.old) self.old) }
        // On a stopped session.
        ensures stopped { IfSome self.old.stopped (λ cause. result ≡ RunEnd.Stopped cause) }
        ensures calls_none { IfSome self.old.stopped (λ cause. o.new ≡ o.old) }
        ensures stays { IfSome self.old.stopped (λ cause. self.new ≡ self.old) }

        // On a session that goes on: what it did, what it answers, and what it is then.
        ensures runs { IfNone self.old.stopped (HasTrace (O.seen o.old) (O.seen o.new)
            (RunsTo self.old.identity turns (turn_of self.old) result (turn_of self.new))) }
        ensures identity { self.new.identity ≡ self.old.identity }
        ensures stops { IfNone self.old.stopped (self.new.stopped ≡ stop_cause result) }
        ensures cause { IfNone self.old.stopped (RunHasCause result (O.seen o.old).faults (O.seen o.new).faults) }
        ensures phase { IfNone self.old.stopped (IsDownUnlessSpent result self.old.connection.state.phase
            self.new.connection.state.phase) }

        // Where no part failed: all of it, or a front of it where it is out of memory.
        ensures as_stated { NoneRose (O.seen o.old).faults (O.seen o.new).faults →
            IfNone self.old.stopped (HasTrace (O.seen o.old) (O.seen o.new)
            (IsAsStated self.old.identity turns (turn_of self.old) result (turn_of self.new))) }

        // By looking back over the frames that were answered on the connection, and over its acts.
        ensures looks_back { IfNone self.old.stopped
            ((start : State) (answered : List (List ℕ)) (acts : List Act) →
            StandsAt start answered acts self.old.connection →
            HasTrace (O.seen o.old) (O.seen o.new) (LooksBack self.old.identity start answered acts result self.new.connection)) }

        // How many turns it made, with how many calls, what is kept after them, and that it answers the
        // other side's end of the connection just where it read so.
        ensures turns { IfNone self.old.stopped (HasTrace (O.seen o.old) (O.seen o.new) (HasTurns turns result)) }
        ensures settled { IfNone self.old.stopped
            ((turns ≡ 0 → self.old.connection.state.stored_expected ≡ self.old.connection.state.expected) →
            IsSettled result self.new.connection.state) }
        ensures peer_end { IfNone self.old.stopped
            (HasTrace (O.seen o.old) (O.seen o.new) (λ notes. ShowsPeerEnd result (acts_of notes))) }

        // It is a run of a lawful end, and a session that isn't stopped stays in step with what is outside
        // of it, and connected where all turns were made.
        ensures lawful { IfNone self.old.stopped
            (HasTrace (O.seen o.old) (O.seen o.new) (IsLawfulRun self.old.identity self.old.connection result self.new.connection)) }
        ensures in_step { IfNone self.new.stopped
            ((start : EndState) (before : List Act) → IsInStep start before (O.seen o.old) self.old →
            IsInStep start before (O.seen o.new) self.new) }
        ensures trails { IfNone self.old.stopped
            ((start : EndState) (before : List Act) → IsInStep start before (O.seen o.old) self.old →
            CanRestart start before (O.seen o.new) self.new) }
        ensures stands { IfNone self.new.stopped (IsInStepSinceSome (O.seen o.new) self.new) }
        ensures connected { result ≡ RunEnd.TurnsSpent → (start : EndState) (before : List Act) →
            IsConnected start before (O.seen o.old) self.old → IsConnected start before (O.seen o.new) self.new }

        // What it wrote on the connection may be written, and what it keeps may be sent again. Over what
        // a counterparty wrote that keeps its messages the session keeps up with it, whatever this answers:
        // what it handed over, each number once, are the first messages that the counterparty stored, none
        // is left out, and each that the counterparty stored before the connection comes marked.
        ensures headline { IfNone self.old.stopped
            ((start : EndState) (before : List Act) (h : IsConnected start before (O.seen o.old) self.old) →
            HasTrace (O.seen o.old) (O.seen o.new) (λ notes. HasServed self.old.identity result self.new.connection start
            h.opened (h.acts ++ acts_of notes))) }
    {
        if let Some(cause) = self.stopped {
            return RunEnd::Stopped(cause);
        }
        pending_is_draft(&self.work.pending);
        let ran = run_and_cut(o, &self.context, &mut self.work, turns);
        let answer = answer_of(&ran);
        self.stopped = stop_of(answer);
        answer
    }

    /// Sends a draft of the application under the next MsgSeqNum (34), which it answers. It reads the
    /// clock once, and keeps the message in the message store; in phase Up it then writes it. In
    /// another phase nothing is written.
    ///
    /// Where every number is used, `NumbersSpent`, nothing is called and all stays. `LinkFault` is
    /// answered where the message is kept and the connection failed: the session is Down then, and
    /// not stopped. It is stopped where the store failed, and where it is out of memory. A stopped
    /// session answers `Stopped` and calls nothing. The outside must be in step with the session.
    pub fn send<O: Outside>(&mut self, o: &mut O, draft: &Draft) -> Result<SeqNum, SendFault>
        requires in_step { IfNone self.old.stopped (IsInStepSinceSome (O.seen o.old) self.old) }
        // On a stopped session.
        ensures stopped { IfSome self.old.stopped (λ cause. result ≡ Err (SendFault.Stopped cause)) }
        ensures calls_none { IfSome self.old.stopped (λ cause. o.new ≡ o.old) }
        ensures stays { IfSome self.old.stopped (λ cause. self.new ≡ self.old) }

        // On a session that goes on: what it did, what it answers, and what it is then.
        ensures sends { IfNone self.old.stopped (HasTrace (O.seen o.old) (O.seen o.new)
            (SendsTo self.old.identity draft.now self.old.connection result self.new.connection)) }
        ensures identity { self.new.identity ≡ self.old.identity }
        ensures pending { self.new.pending ≡ self.old.pending }
        ensures stops { IfNone self.old.stopped (self.new.stopped ≡ send_stop result) }
        ensures cause { IfNone self.old.stopped (SendHasCause result (O.seen o.old).faults (O.seen o.new).faults) }
        ensures spent { IfNone self.old.stopped (999999999 ≤ self.old.connection.state.last → o.new ≡ o.old) }
        ensures from_here { IfNone self.old.stopped
            (OnOk result ((start : State) (answered : List (List ℕ)) (acts : List Act) →
            StandsAt start answered acts self.old.connection →
            HasTrace (O.seen o.old) (O.seen o.new) (λ notes. StandsAt start answered (acts ++ acts_of notes)
            self.new.connection))) }

        // It is a run of a lawful end, and a session that isn't stopped stays in step with what is outside
        // of it, and connected where it answers a number.
        ensures lawful { IfNone self.old.stopped
            (HasTrace (O.seen o.old) (O.seen o.new) (IsLawfulSend self.old.identity self.old.connection result self.new.connection)) }
        ensures in_step { IfNone self.new.stopped
            ((start : EndState) (before : List Act) → IsInStep start before (O.seen o.old) self.old →
            IsInStep start before (O.seen o.new) self.new) }
        ensures trails { IfNone self.old.stopped
            ((start : EndState) (before : List Act) → IsInStep start before (O.seen o.old) self.old →
            CanRestart start before (O.seen o.new) self.new) }
        ensures stands { IfNone self.new.stopped (IsInStepSinceSome (O.seen o.new) self.new) }
        ensures connected { OnOk result ((start : EndState) (before : List Act) →
            IsConnected start before (O.seen o.old) self.old → IsConnected start before (O.seen o.new) self.new) }
    {
        if let Some(cause) = self.stopped {
            return Err(SendFault::Stopped(cause));
        }
        if self.work.state.last >= LAST_SEQ_NUM {
            return Err(SendFault::NumbersSpent);
        }
        let sent = send_and_cut(o, &self.context, &mut self.work.state, draft);
        self.stopped = stop_of_sent(&sent);
        sent
    }

    pub fn phase(&self) -> Phase
        ensures { result ≡ self.now.connection.state.phase }
    {
        self.work.state.phase
    }

    /// Whether a draft is in hand.
    pub fn pending_draft(&self) -> bool
        ensures { result ≡ is_some self.now.pending.draft }
    {
        self.work.pending.draft.is_some()
    }

    /// The inbound MsgSeqNum (34) that is expected next, 1 to 1,000,000,000.
    pub fn expected(&self) -> u32
        ensures { result ≡ self.now.connection.state.expected }
    {
        self.work.state.expected
    }

    /// The last outbound MsgSeqNum (34), 0 where nothing was sent.
    pub fn last(&self) -> u32
        ensures { result ≡ self.now.connection.state.last }
    {
        self.work.state.last
    }

    /// Why the session is stopped, if it is. A session that is stopped is Down.
    pub fn stopped(&self) -> Option<StopCause>
        ensures is { result ≡ self.now.stopped }
        ensures down { IfSome self.now.stopped (λ cause. self.now.connection.state.phase ≡ Phase.Down) }
    {
        self.stopped
    }
}

// Reads the clock, and notes that a connection is opened.
fn open_connection<O: Outside>(o: &mut O) -> Result<u64, BeginFault>
    ensures opens { (O.seen o.new).open_at ≡ (O.seen o.old).open_at }
    ensures notes { HasTrace (O.seen o.old) (O.seen o.new) (Opens result) }
{
    match o.now() {
        Ok(reading) => match o.mark(false) {
            Ok(()) => Ok(reading),
            Err(_) => Err(BeginFault::OutOfMemory),
        },
        Err(_) => Err(BeginFault::OutOfMemory),
    }
}

// A session that starts from these numbers.
fn state_from(stored: Stored) -> State
    requires last { stored.last ≤ 999999999 }
    requires first { 1 ≤ stored.expected }
    requires bound { stored.expected ≤ 1000000000 }
    ensures range { IsInRange result }
    ensures numbers { result ≡ state_of stored }
{
    State {
        phase: Phase::Down,
        expected: stored.expected,
        stored_expected: stored.expected,
        last: stored.last,
        reading: 0,
    }
}
