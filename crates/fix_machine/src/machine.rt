//! Decides the answer to each event, and keeps the state after it. This is the stage that is called from
//! outside the crate: it calls `await_logon` or `logged_on` for a message, and `clock` for a reading.
ghost use Rattle.std.specs.Prelude.{◌≡◌, ◌≤◌, Some, option_map};
ghost use Rattle.fix_base.specs.Payload.{LAST_TIME};
ghost use Rattle.fix_machine.specs.Event.{EventSeen, Frame, IsEvent, IsFrameEvent, IsSaid};
ghost use Rattle.fix_machine.specs.Event.{Inbound as InboundSeen};
ghost use Rattle.fix_machine.specs.Read.{inbound_seen};
ghost use Rattle.fix_machine.specs.State.{MachineSeen, IsTimed, stopped_at, resumed_at};
ghost use Rattle.fix_machine.specs.State as states;
ghost use Rattle.fix_machine.specs.Answer.{Texts, answered_by, texts_of, task_seen, padded, steps_of, in_range};
ghost use Rattle.fix_machine.specs.Event.{step_seen};
ghost use Rattle.fix_machine.specs.Decide as table;
ghost use Rattle.fix_machine.specs.Decide.{texts_in};
ghost use Rattle.fix_machine.specs.Deadline.{IsDeadline};

use crate::answer::{Answer, Task, ask_step, asked, closed, one, read_clock, sent, silent};
use crate::await_logon::await_logon;
use crate::clock::clock;
use crate::deadline::deadline;
use crate::inbound::Inbound;
use crate::logged_on::logged_on;
use crate::{Decision, Event, MachineState, Options, Phase, Requested, Role, Step, Verdict};
use fix_admin::{Admin, LogoutText, Say};
use fix_base::{Fault, Stored, Tag};
use fix_fields::utc_time;
use std::marker::Model;

/// The rules of one session. Contracts see it as its options and its state.
#[derive(Debug, Drop)]
pub struct Machine {
    options: Options,
    state: MachineState,
}

impl Model for Machine {
    ghost use Rattle.fix_machine.specs.State.{MachineSeen, IsTimed};

    ghost Value = { MachineSeen };

    ghost view = { λ m. record { options = m.options; state = m.state } };

    ghost invariant = { λ m. IsTimed m.state };
}

impl Machine {
    /// A session with no connection, over what is stored: `last` is at most 999,999,999, and
    /// `expected` is from 1 to 1,000,000,000.
    pub fn new(options: Options, stored: Stored) -> Machine
        requires last { stored.last ≤ 999999999 }
        requires first { 1 ≤ stored.expected }
        requires bound { stored.expected ≤ 1000000000 }
        ensures { result ≡ record { options = options; state = stopped_at options stored } }
    {
        let heart = options.heart;
        Machine {
            options,
            state: MachineState {
                phase: Phase::Down,
                role: Role::Acceptor,
                expected: stored.expected,
                last: stored.last,
                heart,
                resend_requested: None,
                reset_asked: stored.asked,
                reading: 0,
                begun: 0,
                sent_at: 0,
                read_at: 0,
                left_at: 0,
                test_request_sent_at: None,
            },
        }
    }

    /// Takes the numbers of what is stored, as after a reset that was kept before a connection or
    /// after an answer that ended before its last step.
    pub fn resume(&mut self, stored: Stored)
        requires last { stored.last ≤ 999999999 }
        requires first { 1 ≤ stored.expected }
        requires bound { stored.expected ≤ 1000000000 }
        ensures { self.new ≡ record { options = self.old.options; state = resumed_at stored self.old.state } }
    {
        self.state = MachineState {
            expected: stored.expected,
            last: stored.last,
            reset_asked: stored.asked,
            ..self.state
        };
    }

    /// The answer to an event: the steps to do in order, of which those that are `Nothing` stand
    /// last. The state is then as if all of them were done.
    pub fn decide<'a>(&mut self, event: &Event<'a>) -> Decision<'a>
        ensures steps { (e : EventSeen) → IsEvent event.now e → steps_of result
            ≡ (table.answer_to self.old.options self.old.state e).steps }
        ensures next { (e : EventSeen) → IsEvent event.now e → self.new
            ≡ record { options = self.old.options; state = (table.answer_to self.old.options self.old.state e).next } }
        // Each event is one of these.
        ensures is { (e : EventSeen) × IsEvent event.now e }
    {
        let answer = answer_to(&self.options, self.state, event);
        self.state = answer.next;
        let (kind, id) = (kind_in(event), id_in(event));
        Decision {
            first: step(answer.first, kind, id),
            second: step(answer.second, kind, id),
            third: step(answer.third, kind, id),
            fourth: step(answer.fourth, kind, id),
        }
    }

    /// When the session has next to look at the clock: the least reading after the last one, up to
    /// the end of 2099, that brings an answer in the session's time. None where there is none.
    pub fn deadline(&self) -> Option<u64>
        ensures { IsDeadline self.now.options self.now.state result }
    {
        deadline(&self.options, &self.state)
    }

    /// What the session knows of itself.
    pub fn state(&self) -> MachineState
        ensures { result ≡ self.now.state }
    {
        self.state
    }
}

// The answer to an event.
fn answer_to(options: &Options, state: MachineState, event: &Event<'_>) -> Answer
    requires { IsTimed state }
    ensures answers { (e : EventSeen) → IsEvent event.now e → answered_by (texts_in e) result
        ≡ table.answer_to options.now state e }
    ensures timed { IsTimed result.next }
    ensures is { (e : EventSeen) × IsEvent event.now e }
{
    match *event {
        Event::Begin { role, now } => silent(begun_as(options, role, read_clock(now, state))),
        Event::First => first_logon(options, state),
        Event::Frame { .. } => framed(options, heard(state), event),
        Event::Moved { .. } => moved(options, state),
        Event::Clock { now, inside } => clock(options, read_clock(now, state), inside),
        Event::Leave { now } => left(read_clock(now, state)),
        Event::Ended => silent(closed(state)),
        Event::Wrote { now } => silent(sent(read_clock(now, state))),
    }
}

// A message was read.
fn framed<'a>(options: &Options, state: MachineState, event: &'a Event<'a>) -> Answer
    requires { IsTimed state }
    ensures answers { (i : InboundSeen) → IsEvent event.now (Frame i) → answered_by (texts_of i) result
        ≡ table.message state.phase options.now state i }
    ensures timed { IsTimed result.next }
    ensures is { IsFrameEvent event.now → (e : EventSeen) × IsEvent event.now e }
{
    let Event::Frame {
        head,
        verdict,
        full,
        gap,
        reset,
    } = event
    else {
        return silent(state);
    };
    let inbound = Inbound {
        head: *head,
        sent: time_of(head.sent),
        first_sent: time_of(head.first_sent),
        verdict,
        full: *full,
        gap: *gap,
        reset: *reset,
    };
    message(options, state, &inbound)
}

// The time that a value says, where it says one.
fn time_of(value: Option<&[u8]>) -> Option<i64>
    ensures { IsSaid (option_map (λ v. v.now) value.entry) result }
{
    match value {
        None => None,
        Some(value) => utc_time(value),
    }
}

// A connection begins at the last reading.
fn begun_as(options: &Options, role: Role, state: MachineState) -> MachineState
    ensures { result ≡ states.begun_as options.now role state }
{
    MachineState {
        phase: Phase::AwaitLogon,
        role,
        heart: options.heart,
        resend_requested: None,
        begun: state.reading,
        sent_at: state.reading,
        read_at: state.reading,
        left_at: state.reading,
        test_request_sent_at: None,
        ..state
    }
}

// A message was read.
fn heard(state: MachineState) -> MachineState
    ensures { result ≡ states.heard state }
{
    MachineState {
        read_at: state.reading,
        test_request_sent_at: None,
        ..state
    }
}

// The first message of an initiator.
fn first_logon(options: &Options, state: MachineState) -> Answer
    ensures { (t : Texts) → answered_by t result ≡ table.first_logon options.now state }
{
    let logon = Task::Logon {
        heart: state.heart,
        reset: state.reset_asked,
        version: options.version,
    };
    one(logon, sent(state))
}

// A message by the phase.
fn message(options: &Options, state: MachineState, inbound: &Inbound<'_>) -> Answer
    requires { state.reading ≤ LAST_TIME }
    ensures { answered_by (texts_of (inbound_seen inbound.now)) result
        ≡ table.message state.phase options.now state (inbound_seen inbound.now) }
{
    match state.phase {
        Phase::Down => silent(state),
        Phase::AwaitLogon => await_logon(options, state, inbound),
        Phase::Up => logged_on(options, state, inbound),
        Phase::LogoutSent => logged_on(options, state, inbound),
    }
}

// The expected number changed.
fn moved(options: &Options, state: MachineState) -> Answer
    ensures { (t : Texts) → answered_by t result ≡ table.moved_in state.resend_requested options.now state }
{
    match state.resend_requested {
        None => silent(state),
        Some(gap) => moved_in(gap, options, state),
    }
}

// The same where a gap was asked for.
fn moved_in(gap: Requested, options: &Options, state: MachineState) -> Answer
    ensures { (t : Texts) → answered_by t result ≡ table.moved_in (Some gap) options.now state }
{
    if gap.above < state.expected {
        return silent(MachineState {
            resend_requested: None,
            ..state
        });
    }
    if options.chunk == 0 {
        return silent(state);
    }
    if gap.end >= state.expected {
        return silent(state);
    }
    one(
        ask_step(options, gap.above, &state),
        asked(options, gap.above, state),
    )
}

// The session leaves.
fn left(state: MachineState) -> Answer
    ensures { (t : Texts) → answered_by t result ≡ table.leave state.phase state }
{
    match state.phase {
        Phase::Down => silent(state),
        Phase::AwaitLogon => silent(state),
        Phase::Up => one(
            Task::Logout {
                text: LogoutText::Empty,
            },
            MachineState {
                phase: Phase::LogoutSent,
                left_at: state.reading,
                ..sent(state)
            },
        ),
        Phase::LogoutSent => silent(state),
    }
}

// ---- steps

// MsgType (35) of the message, where the event is one.
fn kind_in<'a>(event: &Event<'a>) -> &'a [u8]
    ensures { (e : EventSeen) → IsEvent event.now e → result.now ≡ (texts_in e).type }
{
    match *event {
        Event::Frame { head, .. } => head.kind,
        _ => b"",
    }
}

// TestReqID (112) of the message, where the event is a TestRequest (1).
fn id_in<'a>(event: &Event<'a>) -> &'a [u8]
    ensures { (e : EventSeen) → IsEvent event.now e → result.now ≡ (texts_in e).id }
{
    match *event {
        Event::Frame {
            verdict: Verdict::Admin(Admin::TestRequest { id }),
            ..
        } => id,
        _ => b"",
    }
}

// A step, with the texts that it gives back.
fn step<'a>(task: Task, kind: &'a [u8], id: &'a [u8]) -> Step<'a>
    ensures { step_seen result ≡ task_seen (record { type = kind.now; id = id.now }) task }
{
    match task {
        Task::Heartbeat => Step::Send(Say::Heartbeat { id: None }),
        Task::HeartbeatBack => Step::Send(Say::Heartbeat { id: Some(id) }),
        Task::TestRequest => Step::Send(Say::TestRequest),
        Task::ResendRequest { from, to } => Step::Send(Say::ResendRequest { from, to }),
        Task::Reject { about, reason, tag } => Step::Send(Say::Reject {
            about,
            kind,
            fault: Fault {
                reason,
                tag: tag_of(tag),
            },
        }),
        Task::Logout { text } => Step::Send(Say::Logout { text }),
        Task::Logon {
            heart,
            reset,
            version,
        } => Step::Send(Say::Logon {
            heart,
            reset,
            version,
        }),
        Task::Serve { from, to } => Step::Serve { from, to },
        Task::Hand => Step::Hand,
        Task::Stash => Step::Stash,
        Task::Expect(number) => Step::Expect(number),
        Task::Reset => Step::Reset,
        Task::Confirm => Step::Confirm,
        Task::Close(why) => Step::Close(why),
        Task::Nothing => Step::Nothing,
    }
}

fn tag_of(tag: Option<u32>) -> Option<Tag>
    ensures { result ≡ in_range tag }
{
    match tag {
        None => None,
        Some(tag) => Tag::new(tag),
    }
}
