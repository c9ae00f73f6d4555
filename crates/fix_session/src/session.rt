//! The calls of a session, for who opens and runs it. Each runs a stage (`beginning`, `turn` or `sending`), and then
//! notes why the session is stopped, if it is.
ghost use Rattle.std.specs.Prelude.{◌≡◌, ◌≢◌, ◌⊎◌, ◌<◌, IfSome, IfNone, IfOk, OnOk, OnErr, is_some, None, Result, Err};
ghost use Rattle.fix_base.specs.declared.entry.Stored.{Stored};
ghost use Rattle.fix_outside.specs.declared.outside.LoadFault.{LoadFault};
ghost use Rattle.fix_base.specs.Session.{IsValidIdentity};
ghost use Rattle.fix_outside.specs.Outside.{LoadAnswers};
ghost use Rattle.fix_outside.specs.Calls.{HasCalls};
ghost use Rattle.fix_machine.specs.declared.state.Phase.TheVariants.{Up, Down};
ghost use Rattle.fix_session.specs.Stops.{RunHasCause, BeginHasCause, SendHasCause, LoadHasCause, IsDownAfter};
ghost use Rattle.fix_session.specs.Send.{is_up, draft_posting, logout_posting};
ghost use Rattle.fix_session.specs.InSync.{IsAtRest};
ghost use Rattle.fix_session.specs.Session as session;
ghost use Rattle.fix_session.specs.Session.{Opens, Reopens, BeginsTo, RunsTo, SendsTo, IsKeptAfter, IsOpen, OpenHasCause};
ghost use Rattle.fix_session.specs.Session.{AsksNothing, IsMade, AreNumbers};

use crate::beginning::begin;
use crate::plan::{options_from, rules_from};
use crate::sending::{send_draft, send_logout};
use crate::stop::{begin_stop, load_stop, run_end, run_stop, send_end, send_stop};
use crate::turn::{ROOM, run};
use crate::work::Work;
use crate::{BeginFault, RunEnd, SendFault, SessionPlan, SessionRefused, State, StopCause};
use fix_base::{OutOfMemory, SeqNum, Stored};
use fix_dict::Dictionary;
use fix_fields::Draft;
use fix_frame::Reader;
use fix_machine::{Machine, Options, Phase, Role};
use fix_outside::{LoadFault, Outside};
use fix_resend::Stash;
use fix_schedule::Schedule;
use fix_settings::SessionSettings;
use fix_stage::{Context, Numbers, PendingDraft, Sender, Stage, settle_pending};
use std::alloc::Global;
use std::marker::Model;

/// One session: it outlives its connections. Contracts see its plan, its state with the bytes that no frame was taken
/// from yet, and why it is stopped, if it is.
#[derive(Drop)]
pub struct Session {
    context: Context,
    role: Role,
    settings: SessionSettings,
    schedule: Schedule,
    dict: Option<Dictionary>,
    work: Work,
    stopped: Option<StopCause>,
}

impl Model for Session {
    ghost use Rattle.std.specs.Prelude.{◌≡◌, length, IfSome};
    ghost use Rattle.std.specs.Coded.{codes};
    ghost use Rattle.fix_base.specs.Session.{IsValidIdentity};
    ghost use Rattle.fix_dict.specs.Dictionary.{dictionary_code};
    ghost use Rattle.fix_resend.specs.contracts.stash.Stash as stash_type;
    ghost use Rattle.fix_machine.specs.declared.state.Phase.TheVariants.{Down};
    ghost use Rattle.fix_session.specs.InSync.{IsAtRest};
    ghost use Rattle.fix_session.specs.Work.{work_seen};
    ghost use Rattle.fix_session.specs.Session.{SessionSeen};

    ghost Value = { SessionSeen };

    ghost coded = { Prim.hlevel (codes, dictionary_code, stash_type.the_row.coded) };

    ghost view = { λ s. record {
      identity = s.context.identity;
      role = s.role;
      settings = s.settings;
      schedule = s.schedule;
      dict = s.dict;
      work = work_seen s.work;
      stopped = s.stopped;
    } };

    ghost invariant = { λ s. IsValidIdentity s.context.identity × IsAtRest s.work.state ×
        (length s.work.room.items ≡ 65536) × IfSome s.stopped (λ cause. s.work.state.machine.state.phase ≡ Down) };
}

impl Session {
    /// A session over what the message store has: it opens the store, and goes on with its numbers. Both CompIDs of
    /// the plan must be ones. Where it is refused the plan comes back. Memory is taken first: where there is none, the
    /// store isn't asked.
    pub fn open<O: Outside>(
        alloc: Global,
        o: &mut O,
        plan: SessionPlan,
    ) -> Result<Session, SessionRefused>
        requires { IsValidIdentity plan.identity }
        ensures calls { (loaded : Result Stored LoadFault) × LoadAnswers loaded (O.seen o.old)
            × HasCalls (O.seen o.old) (O.seen o.new) (λ calls. Opens plan loaded calls result) }
        ensures cause { OpenHasCause result (O.seen o.old).faults (O.seen o.new).faults }
        ensures opens { IfOk result (IsOpen (O.seen o.new)) }
        // The store isn't open then, unless it wasn't asked.
        ensures shut { OnErr result ((o.new ≡ o.old) ⊎ ((O.seen o.new).open_at ≡ None)) }
    {
        let Ok(made) = make(alloc, &plan) else {
            return Err(SessionRefused {
                plan,
                fault: LoadFault::OutOfMemory,
            });
        };
        match o.load() {
            Ok(stored) => Ok(opened(alloc, plan, made, stored)),
            Err(fault) => Err(SessionRefused { plan, fault }),
        }
    }

    /// Opens the message store again: the session goes on from what is stored, whatever a stop left of it. A session
    /// that isn't stopped must be Down, and is stopped where this is refused; one that is stopped stays so then.
    ///
    /// A draft in hand whose record was lost is dropped where the store has it, which shows by the last number. Else it
    /// is still in hand, and sent first in the next turn in phase Up.
    pub fn reopen<O: Outside>(&mut self, o: &mut O) -> Result<(), LoadFault>
        requires { IfNone self.old.stopped (self.old.work.state.machine.state.phase ≡ Down) }
        ensures calls { (loaded : Result Stored LoadFault) × LoadAnswers loaded (O.seen o.old)
            × HasCalls (O.seen o.old) (O.seen o.new) (λ calls. Reopens self.old loaded calls result self.new) }
        ensures cause { LoadHasCause result (O.seen o.old).faults (O.seen o.new).faults }
        ensures opens { OnOk result (IsOpen (O.seen o.new) self.new) }
        ensures shut { OnErr result ((O.seen o.new).open_at ≡ None) }
    {
        match o.load() {
            Ok(stored) => {
                resume(&mut self.work.state, stored);
                self.stopped = None;
                Ok(())
            }
            Err(fault) => {
                self.stopped = Some(load_stop(self.stopped, fault));
                Err(fault)
            }
        }
    }

    /// Begins a connection: reads the clock once, and waits for the counterparty's Logon (A), or sends the session's own
    /// in the next turn. An initiator with ResetOnLogon, or whose last reset wasn't answered, keeps first that it asks
    /// for a reset with its Logon: both lists of numbers begin anew.
    ///
    /// The phase must be Down, and the store open at the session's last number. A stopped session answers `Stopped` and
    /// calls nothing.
    pub fn begin<O: Outside>(&mut self, o: &mut O) -> Result<(), BeginFault>
        requires phase { IfNone self.old.stopped (self.old.work.state.machine.state.phase ≡ Down) }
        requires opens { IfNone self.old.stopped (IsOpen (O.seen o.old) self.old) }
        // On a stopped session.
        ensures stopped { IfSome self.old.stopped (λ cause. result ≡ Err (BeginFault.Stopped cause)) }
        ensures calls_none { IfSome self.old.stopped (λ cause. o.new ≡ o.old) }
        ensures stays { IfSome self.old.stopped (λ cause. self.new ≡ self.old) }

        // On a session that goes on.
        ensures calls { IfNone self.old.stopped (HasCalls (O.seen o.old) (O.seen o.new)
            (λ calls. BeginsTo self.old calls result self.new)) }
        ensures cause { IfNone self.old.stopped (BeginHasCause result (O.seen o.old).faults (O.seen o.new).faults) }
        ensures opens { IfNone self.new.stopped (IsOpen (O.seen o.new) self.new) }
    {
        if let Some(cause) = self.stopped {
            return Err(BeginFault::Stopped(cause));
        }
        let alloc = self.context.alloc;
        let Ok(reader) = Reader::new(alloc) else {
            self.stopped = Some(StopCause::OutOfMemory);
            return Err(BeginFault::OutOfMemory);
        };
        let resets = self.settings.reset_on_logon;
        match begin(o, alloc, self.role, resets, &mut self.work.state) {
            Ok(()) => {
                self.work.reader = reader;
                Ok(())
            }
            Err(fault) => {
                self.stopped = Some(begin_stop(fault));
                Err(fault)
            }
        }
    }

    /// Makes at most `turns` turns. In each of them an initiator that hasn't logged on yet sends its Logon (A); in phase
    /// Up the application is asked once for a draft, unless one is in hand, and what is in hand is sent. Then it reads
    /// once, answers the messages that this completes and those that waited for them, looks at the clock, keeps what is
    /// staged with the expected number as one record, and writes it.
    ///
    /// A draft stays in hand until its entry is kept: where it is out of memory before that, where the store failed,
    /// and where every number is used.
    ///
    /// The phase must not be Down, and the store open at the session's last number. A stopped session answers `Stopped`
    /// and calls nothing.
    pub fn run_turns<O: Outside>(&mut self, o: &mut O, turns: u64) -> RunEnd
        requires phase { IfNone self.old.stopped (self.old.work.state.machine.state.phase ≢ Down) }
        requires opens { IfNone self.old.stopped (IsOpen (O.seen o.old) self.old) }
        // On a stopped session.
        ensures stopped { IfSome self.old.stopped (λ cause. result ≡ RunEnd.Stopped cause) }
        ensures calls_none { IfSome self.old.stopped (λ cause. o.new ≡ o.old) }
        ensures stays { IfSome self.old.stopped (λ cause. self.new ≡ self.old) }

        // On a session that goes on.
        ensures calls { IfNone self.old.stopped (HasCalls (O.seen o.old) (O.seen o.new)
            (λ calls. RunsTo turns self.old calls result self.new)) }
        ensures cause { IfNone self.old.stopped (RunHasCause result (O.seen o.old).faults (O.seen o.new).faults) }
        ensures opens { IfNone self.new.stopped (IsOpen (O.seen o.new) self.new) }
        ensures down { IsDownAfter result self.old.work.state.machine.state.phase self.new.work.state.machine.state.phase }
        ensures kept { IfNone self.old.stopped (0 < turns → IsKeptAfter result self.new.work.state) }
    {
        if let Some(cause) = self.stopped {
            return RunEnd::Stopped(cause);
        }
        let rules = rules_from(&self.settings, &self.dict);
        let answer = run_end(run(o, &self.context, &rules, &mut self.work, turns));
        self.stopped = run_stop(answer);
        answer
    }

    /// Sends a draft of the application under the next MsgSeqNum (34), which it answers. It looks at the clock once, and
    /// keeps the message in the message store; in phase Up it then writes it. In another phase nothing is written.
    ///
    /// Where every number is used, `NumbersSpent`, nothing is called and all stays. `LinkFault` is answered where the
    /// message is kept and the connection failed: the session is Down then, and not stopped. It is stopped where the
    /// store failed, and where it is out of memory. A stopped session answers `Stopped` and calls nothing.
    ///
    /// The store must be open at the session's last number. Where a Logon (A) that asks for a reset is still to go out
    /// nothing may go before it.
    pub fn send<O: Outside>(&mut self, o: &mut O, draft: &Draft) -> Result<SeqNum, SendFault>
        requires opens { IfNone self.old.stopped (IsOpen (O.seen o.old) self.old) }
        requires after_logon { IfNone self.old.stopped (AsksNothing self.old.work.state) }
        // On a stopped session.
        ensures stopped { IfSome self.old.stopped (λ cause. result ≡ Err (SendFault.Stopped cause)) }
        ensures calls_none { IfSome self.old.stopped (λ cause. o.new ≡ o.old) }
        ensures stays { IfSome self.old.stopped (λ cause. self.new ≡ self.old) }

        // On a session that goes on.
        ensures calls { IfNone self.old.stopped (HasCalls (O.seen o.old) (O.seen o.new) (λ calls. SendsTo
            (draft_posting (is_up self.old.work.state.machine.state.phase) draft.now) self.old calls result self.new)) }
        ensures cause { IfNone self.old.stopped (SendHasCause result (O.seen o.old).faults (O.seen o.new).faults) }
        ensures opens { IfNone self.new.stopped (IsOpen (O.seen o.new) self.new) }
    {
        if let Some(cause) = self.stopped {
            return Err(SendFault::Stopped(cause));
        }
        let Some(number) = SeqNum::new(self.work.state.sender.numbers.last + 1) else {
            return Err(SendFault::NumbersSpent);
        };
        let posted = send_draft(o, &self.context, &mut self.work.state, draft);
        let sent = send_end(number, posted);
        self.stopped = send_stop(&sent);
        sent
    }

    /// Leaves by a Logout (5) under the next MsgSeqNum (34), which it answers. The phase must be Up, and is LogoutSent
    /// then: the connection ends with the counterparty's Logout, or after LogoutTimeout. For the rest it is as `send`.
    pub fn leave<O: Outside>(&mut self, o: &mut O) -> Result<SeqNum, SendFault>
        requires phase { IfNone self.old.stopped (self.old.work.state.machine.state.phase ≡ Up) }
        requires opens { IfNone self.old.stopped (IsOpen (O.seen o.old) self.old) }
        // On a stopped session.
        ensures stopped { IfSome self.old.stopped (λ cause. result ≡ Err (SendFault.Stopped cause)) }
        ensures calls_none { IfSome self.old.stopped (λ cause. o.new ≡ o.old) }
        ensures stays { IfSome self.old.stopped (λ cause. self.new ≡ self.old) }

        // On a session that goes on.
        ensures calls { IfNone self.old.stopped (HasCalls (O.seen o.old) (O.seen o.new)
            (λ calls. SendsTo (logout_posting self.old.identity) self.old calls result self.new)) }
        ensures cause { IfNone self.old.stopped (SendHasCause result (O.seen o.old).faults (O.seen o.new).faults) }
        ensures opens { IfNone self.new.stopped (IsOpen (O.seen o.new) self.new) }
    {
        if let Some(cause) = self.stopped {
            return Err(SendFault::Stopped(cause));
        }
        let Some(number) = SeqNum::new(self.work.state.sender.numbers.last + 1) else {
            return Err(SendFault::NumbersSpent);
        };
        let posted = send_logout(o, &self.context, &mut self.work.state);
        let sent = send_end(number, posted);
        self.stopped = send_stop(&sent);
        sent
    }

    pub fn phase(&self) -> Phase
        ensures { result ≡ self.now.work.state.machine.state.phase }
    {
        self.work.state.machine.state().phase
    }

    /// Whether a draft of the application is in hand.
    pub fn pending_draft(&self) -> bool
        ensures { result ≡ is_some self.now.work.state.sender.pending.draft }
    {
        self.work.state.sender.pending.draft.is_some()
    }

    /// The inbound MsgSeqNum (34) that is expected next, 1 to 1,000,000,000.
    pub fn expected(&self) -> u32
        ensures { result ≡ self.now.work.state.sender.numbers.expected }
    {
        self.work.state.sender.numbers.expected
    }

    /// The last outbound MsgSeqNum (34), 0 where nothing was sent.
    pub fn last(&self) -> u32
        ensures { result ≡ self.now.work.state.sender.numbers.last }
    {
        self.work.state.sender.numbers.last
    }

    /// Whether a reset by Logon (A) was asked for and isn't answered yet.
    pub fn asked(&self) -> bool
        ensures { result ≡ self.now.work.state.asked }
    {
        self.work.state.asked
    }

    /// Why the session is stopped, if it is. A session that is stopped is Down.
    pub fn stopped(&self) -> Option<StopCause>
        ensures is { result ≡ self.now.stopped }
        ensures down { IfSome self.now.stopped (λ cause. self.now.work.state.machine.state.phase ≡ Down) }
    {
        self.stopped
    }
}

// What a session needs memory for.
#[derive(Drop)]
struct Made {
    options: Options,
    waiting: Stash,
    reader: Reader,
    room: Vec<u8>,
}

// Takes the memory of a session.
fn make(alloc: Global, plan: &SessionPlan) -> Result<Made, OutOfMemory>
    ensures { IfOk result (IsMade plan.now.identity plan.now.settings) }
{
    Ok(Made {
        options: options_from(alloc, &plan.identity, &plan.settings)?,
        waiting: Stash::new(alloc)?,
        reader: Reader::new(alloc)?,
        room: vec![in alloc; 0u8; ROOM]?,
    })
}

// A session with these numbers.
fn opened(alloc: Global, plan: SessionPlan, made: Made, stored: Stored) -> Session
    requires valid { IsValidIdentity plan.identity }
    requires made { IsMade plan.identity plan.settings made }
    requires numbers { AreNumbers stored }
    ensures { result ≡ session.opened plan stored }
{
    Session {
        work: Work {
            state: State {
                machine: Machine::new(made.options, stored),
                sender: Sender {
                    numbers: numbers_from(stored, 0),
                    stage: Stage::new(alloc),
                    pending: PendingDraft {
                        draft: None,
                        staged: false,
                        store_failed: false,
                    },
                },
                waiting: made.waiting,
                asked: stored.asked,
                logon_due: false,
            },
            reader: made.reader,
            room: made.room,
        },
        context: Context {
            alloc,
            identity: plan.identity,
        },
        role: plan.role,
        settings: plan.settings,
        schedule: plan.schedule,
        dict: plan.dict,
        stopped: None,
    }
}

// A session goes on with these numbers.
fn resume(state: &mut State, stored: Stored)
    requires rest { IsAtRest state.old }
    requires numbers { AreNumbers stored }
    ensures is { state.new ≡ session.resumed state.old stored }
    ensures rest { IsAtRest state.new }
{
    let last = state.sender.numbers.last;
    settle_pending(&mut state.sender.pending, last, stored.last);
    state.sender.numbers = numbers_from(stored, state.sender.numbers.reading);
    state.machine.resume(stored);
    state.asked = stored.asked;
}

// The numbers of what is stored.
fn numbers_from(stored: Stored, reading: u64) -> Numbers
    ensures { result ≡ session.first_numbers stored reading }
{
    Numbers {
        expected: stored.expected,
        stored_expected: stored.expected,
        last: stored.last,
        reading,
    }
}
