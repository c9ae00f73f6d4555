//! Answers the first message on a connection, which must be a Logon. `machine` calls this in the phase
//! AwaitLogon.
ghost use Rattle.std.specs.Prelude.{◌≡◌, ◌≤◌, ◌<◌, ◌∷◌, [], map, option_map};
ghost use Rattle.fix_base.specs.Payload.{LAST_TIME};
ghost use Rattle.fix_fields.specs.Header.{header_of};
ghost use Rattle.fix_admin.specs.Admin.{admin_seen};
ghost use Rattle.fix_machine.specs.Event.{verdict_seen};
ghost use Rattle.fix_machine.specs.Read.{inbound_seen};
ghost use Rattle.fix_machine.specs.Answer.{Texts, answered_by, texts_of, task_seen, padded};
ghost use Rattle.fix_machine.specs.State as states;
ghost use Rattle.fix_machine.specs.AwaitLogon as table;

use crate::answer::{
    Answer, Task, ask_step, asked, counted, is_named, is_of_session, one, readable, refused,
    refused_with, sent, three, two,
};
use crate::checks::is_timely;
use crate::inbound::Inbound;
use crate::{MachineState, Options, Phase, Refusal, Role, Verdict};
use fix_admin::{Admin, LogoutText};
use fix_base::{Identity, SeqNum};
use fix_fields::Envelope;

// The first message on a connection.
pub fn await_logon(options: &Options, state: MachineState, inbound: &Inbound<'_>) -> Answer
    requires reading { state.reading ≤ LAST_TIME }
    ensures { answered_by (texts_of (inbound_seen inbound.now)) result
        ≡ table.await_logon options.now state (inbound_seen inbound.now) }
{
    let number = readable(inbound.head.number);
    if inbound.head.kind != b"A".as_slice() {
        return refused(number, Refusal::NotLogon, state);
    }
    if !is_of_session(&options.identity, inbound.head) {
        return refused(number, Refusal::BeginString, state);
    }
    match inbound.head.number {
        None => refused(0, Refusal::NoNumber, state),
        Some(number) => numbered_answer(options, number, state, inbound),
    }
}

// With a readable MsgSeqNum (34).
fn numbered_answer(
    options: &Options,
    number: SeqNum,
    state: MachineState,
    inbound: &Inbound<'_>,
) -> Answer
    requires reading { state.reading ≤ LAST_TIME }
    ensures { answered_by (texts_of (inbound_seen inbound.now)) result
        ≡ table.numbered_answer options.now number state (inbound_seen inbound.now) }
{
    let n = number.get();
    if is_too_low(options, n, &state, inbound.reset) {
        let text = LogoutText::TooLow {
            expected: state.expected,
            received: n,
        };
        return refused_with(text, n, Refusal::TooLow, state);
    }
    if !is_addressed(&options.identity, inbound.head) {
        return refused(n, Refusal::CompId, state);
    }
    if !is_near(options.latency, state.reading, inbound.sent) {
        return refused(n, Refusal::SendingTime, state);
    }
    let heart = heart_in(options, inbound.verdict);
    logon_answer(heart, options, inbound.reset, number, state)
}

// Whether the number is below the expected one, and nothing is reset.
fn is_too_low(options: &Options, number: u32, state: &MachineState, reset: bool) -> bool
    ensures { result ≡ table.is_too_low options.now number state.now reset }
{
    number < state.expected && !reset && !resets_each(options, state)
}

// Whether this is an acceptor that resets at each Logon.
fn resets_each(options: &Options, state: &MachineState) -> bool
    ensures { result ≡ table.resets_each options.now state.now }
{
    options.reset_on_logon && is_acceptor(state.role)
}

fn is_acceptor(role: Role) -> bool
    ensures { result ≡ table.is_acceptor role }
{
    match role {
        Role::Acceptor => true,
        Role::Initiator => false,
    }
}

// Whether the CompIDs are those of a message from the counterparty to this end.
fn is_addressed(identity: &Identity, head: &Envelope<'_>) -> bool
    ensures { result ≡ table.is_addressed identity.now (header_of head.now) }
{
    is_named(head.sender, identity.target.as_slice())
        && is_named(head.target, identity.sender.as_slice())
}

// Whether SendingTime (52) is there, and near enough.
fn is_near(latency: Option<u32>, reading: u64, time: Option<i64>) -> bool
    requires { reading ≤ LAST_TIME }
    ensures { result ≡ table.is_near latency reading time }
{
    match time {
        None => false,
        Some(time) => is_timely(latency, reading, time),
    }
}

// HeartBtInt (108) of a Logon with no fault.
fn heart_in(options: &Options, verdict: &Verdict<'_>) -> Option<u32>
    ensures { result ≡ table.heart_in options.now (verdict_seen verdict.now) }
{
    match verdict {
        Verdict::App => None,
        Verdict::Admin(admin) => heart_of(options, admin),
        Verdict::Bad(_) => None,
    }
}

fn heart_of(options: &Options, admin: &Admin<'_>) -> Option<u32>
    ensures { result ≡ table.heart_of options.now (admin_seen admin.now) }
{
    match *admin {
        Admin::Heartbeat { .. } => None,
        Admin::TestRequest { .. } => None,
        Admin::ResendRequest { .. } => None,
        Admin::Reject { .. } => None,
        Admin::SequenceReset { .. } => None,
        Admin::Logout => None,
        Admin::Logon { heart, version, .. } => {
            if has_version(options.version, version) {
                Some(heart)
            } else {
                None
            }
        }
    }
}

// Whether DefaultApplVerID (1137) is that of the session, where it has one.
fn has_version(own: Option<u8>, read: Option<u8>) -> bool
    ensures { result ≡ table.has_version own read }
{
    match (own, read) {
        (None, _) => true,
        (Some(_), None) => false,
        (Some(own), Some(read)) => read == own,
    }
}

// ResetSeqNumFlag (141) stands in a Logon of number 1 alone.
fn logon_answer(
    heart: Option<u32>,
    options: &Options,
    reset: bool,
    number: SeqNum,
    state: MachineState,
) -> Answer
    ensures { (t : Texts) → answered_by t result ≡ table.logon_answer heart options.now reset number state }
{
    let n = number.get();
    let Some(heart) = heart else {
        return refused(n, Refusal::BadLogon, state);
    };
    if reset && n != 1 {
        return refused(n, Refusal::BadLogon, state);
    }
    match state.role {
        Role::Acceptor => acceptor_answer(options, reset, number, heart, state),
        Role::Initiator => initiator_answer(options, reset, number, state),
    }
}

// The answer of an acceptor.
fn acceptor_answer(
    options: &Options,
    reset: bool,
    number: SeqNum,
    heart: u32,
    state: MachineState,
) -> Answer
    ensures { (t : Texts) → answered_by t result ≡ table.acceptor_answer options.now reset number heart state }
{
    let n = number.get();
    if reset {
        let next = counted(n, answered(heart, emptied(state)));
        return three(
            Task::Reset,
            logon(options, heart, true),
            Task::Expect(n + 1),
            next,
        );
    }
    if options.reset_on_logon {
        let up = answered(heart, emptied(state));
        return three(
            Task::Reset,
            logon(options, heart, false),
            count_or_ask(options, number, &up),
            counted_or_asked(options, number, up),
        );
    }
    let up = answered(heart, state);
    two(
        logon(options, heart, false),
        count_or_ask(options, number, &up),
        counted_or_asked(options, number, up),
    )
}

// The answer of an initiator.
fn initiator_answer(options: &Options, reset: bool, number: SeqNum, state: MachineState) -> Answer
    ensures { (t : Texts) → answered_by t result ≡ table.initiator_answer options.now reset number state }
{
    let n = number.get();
    if state.reset_asked {
        if !reset {
            return refused(n, Refusal::ResetUnanswered, state);
        }
        return two(
            Task::Confirm,
            Task::Expect(n + 1),
            counted(n, confirmed(state)),
        );
    }
    if reset {
        return refused(n, Refusal::ResetAsked, state);
    }
    let up = logged_on(state);
    one(
        count_or_ask(options, number, &up),
        counted_or_asked(options, number, up),
    )
}

// The Logon is counted, or the messages before it are asked for.
fn count_or_ask(options: &Options, number: SeqNum, state: &MachineState) -> Task
    ensures { (t : Texts) → task_seen t result ≡ table.count_or_ask options.now number state.now }
{
    let n = number.get();
    if state.expected < n {
        ask_step(options, n, state)
    } else {
        Task::Expect(n + 1)
    }
}

fn counted_or_asked(options: &Options, number: SeqNum, state: MachineState) -> MachineState
    ensures { result ≡ table.counted_or_asked options.now number state }
{
    let n = number.get();
    if state.expected < n {
        asked(options, n, state)
    } else {
        counted(n, state)
    }
}

// The Logon that answers one.
fn logon(options: &Options, heart: u32, reset: bool) -> Task
    ensures { (t : Texts) → task_seen t result ≡ table.logon options.now heart reset }
{
    Task::Logon {
        heart,
        reset,
        version: options.version,
    }
}

// ---- how the state changes

// HeartBtInt (108) is in force, and the Logon is answered.
fn answered(heart: u32, state: MachineState) -> MachineState
    ensures { result ≡ table.answered heart state }
{
    logged_on(sent(MachineState { heart, ..state }))
}

// The store is reset.
fn emptied(state: MachineState) -> MachineState
    ensures { result ≡ states.emptied state }
{
    MachineState {
        expected: 1,
        last: 0,
        ..state
    }
}

// The reset that was asked for is answered.
fn confirmed(state: MachineState) -> MachineState
    ensures { result ≡ table.confirmed state }
{
    logged_on(MachineState {
        reset_asked: false,
        ..state
    })
}

fn logged_on(state: MachineState) -> MachineState
    ensures { result ≡ states.up state }
{
    MachineState {
        phase: Phase::Up,
        ..state
    }
}
