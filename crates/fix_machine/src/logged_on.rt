//! Answers a message after the Logon, by its number, its first fault and its type. `machine` calls this in the
//! phases Up and LogoutSent.
ghost use Rattle.std.specs.Prelude.{◌≡◌, ◌≤◌, ◌∷◌, []};
ghost use Rattle.fix_base.specs.Payload.{LAST_TIME};
ghost use Rattle.fix_fields.specs.Header.{header_of};
ghost use Rattle.fix_admin.specs.Admin.{admin_seen};
ghost use Rattle.fix_machine.specs.Event.{verdict_seen};
ghost use Rattle.fix_machine.specs.Event as seen;
ghost use Rattle.fix_machine.specs.Read.{inbound_seen};
ghost use Rattle.fix_machine.specs.Answer.{Texts, answered_by, texts_of, task_seen, wrong_seen};
ghost use Rattle.fix_machine.specs.Checks.{finding_seen};
ghost use Rattle.fix_machine.specs.LoggedOn as table;

use crate::answer::{
    Answer, Task, Wrong, ask_step, asked, closed, counted, expecting, four, is_named,
    is_of_session, one, readable, refused_with, reject, sent, silent, three, two, wrong_at,
};
use crate::checks::{Finding, checked, wrong_of};
use crate::inbound::Inbound;
use crate::{MachineState, Options, Phase, Refusal, Verdict, Why};
use fix_admin::{Admin, LogoutText};
use fix_base::SeqNum;

// A message after the Logon.
pub fn logged_on(options: &Options, state: MachineState, inbound: &Inbound<'_>) -> Answer
    requires reading { state.reading ≤ LAST_TIME }
    ensures { answered_by (texts_of (inbound_seen inbound.now)) result
        ≡ table.logged_on options.now state (inbound_seen inbound.now) }
{
    if !is_of_session(&options.identity, inbound.head) {
        let number = readable(inbound.head.number);
        return refused_with(LogoutText::BeginString, number, Refusal::BeginString, state);
    }
    match inbound.head.number {
        None => refused_with(LogoutText::NoNumber, 0, Refusal::NoNumber, state),
        Some(number) => numbered(options, number, inbound, state),
    }
}

// With a readable MsgSeqNum (34).
fn numbered(options: &Options, number: SeqNum, inbound: &Inbound<'_>, state: MachineState) -> Answer
    requires reading { state.reading ≤ LAST_TIME }
    ensures { answered_by (texts_of (inbound_seen inbound.now)) result
        ≡ table.numbered options.now number (inbound_seen inbound.now) state }
{
    let n = number.get();
    if is_reset(inbound) {
        let found = checked(options, &state, inbound);
        return reset_by(found, n, inbound, state);
    }
    if state.expected < n {
        return too_high(options, n, inbound, state);
    }
    if n < state.expected {
        return too_low(n, inbound, state);
    }
    let found = checked(options, &state, inbound);
    in_order_by(found, number, inbound, state)
}

// ---- a SequenceReset (4) without GapFillFlag (123)

fn is_reset(inbound: &Inbound<'_>) -> bool
    ensures { result ≡ table.is_reset (inbound_seen inbound.now) }
{
    inbound.head.kind == b"4".as_slice() && !inbound.gap
}

fn reset_by(found: Finding, number: u32, inbound: &Inbound<'_>, state: MachineState) -> Answer
    ensures { answered_by (texts_of (inbound_seen inbound.now)) result
        ≡ table.reset_by (finding_seen found) number (inbound_seen inbound.now) state }
{
    match found {
        Finding::Fine => reset_to(new_seq_no_in(inbound.verdict), number, inbound, state),
        Finding::Reject(fault) => one(reject(number, fault), sent(state)),
        Finding::RejectAndClose { fault, text, cause } => three(
            reject(number, fault),
            Task::Logout { text },
            Task::Close(Why::Refused { number, cause }),
            closed(sent(sent(state))),
        ),
    }
}

// It may not go back.
fn reset_to(next: u32, number: u32, inbound: &Inbound<'_>, state: MachineState) -> Answer
    ensures { answered_by (texts_of (inbound_seen inbound.now)) result
        ≡ table.reset_to next number (inbound_seen inbound.now) state }
{
    if state.expected <= next {
        return one(Task::Expect(next), expecting(next, state));
    }
    one(reject(number, wrong_at(5, 36)), sent(state))
}

// NewSeqNo (36).
fn new_seq_no_in(verdict: &Verdict<'_>) -> u32
    ensures { result ≡ table.new_seq_no_in (verdict_seen verdict.now) }
{
    match verdict {
        Verdict::App => 0,
        Verdict::Admin(admin) => new_seq_no_of(admin),
        Verdict::Bad(_) => 0,
    }
}

fn new_seq_no_of(admin: &Admin<'_>) -> u32
    ensures { result ≡ table.new_seq_no_of (admin_seen admin.now) }
{
    match *admin {
        Admin::Heartbeat { .. } => 0,
        Admin::TestRequest { .. } => 0,
        Admin::ResendRequest { .. } => 0,
        Admin::Reject { .. } => 0,
        Admin::SequenceReset { next, .. } => next,
        Admin::Logout => 0,
        Admin::Logon { .. } => 0,
    }
}

// ---- MsgSeqNum (34) above the expected one

fn too_high(options: &Options, number: u32, inbound: &Inbound<'_>, state: MachineState) -> Answer
    requires reading { state.reading ≤ LAST_TIME }
    ensures { answered_by (texts_of (inbound_seen inbound.now)) result
        ≡ table.too_high options.now number (inbound_seen inbound.now) state }
{
    if is_early(inbound) {
        let found = checked(options, &state, inbound);
        return early_by(found, options, number, inbound, state);
    }
    if inbound.full {
        return asked_alone(options, number, state);
    }
    asked_after(Task::Stash, options, number, state)
}

// Whether it is a ResendRequest (2) or a Logout (5), which are served at once.
fn is_early(inbound: &Inbound<'_>) -> bool
    ensures { result ≡ table.is_early (inbound_seen inbound.now) }
{
    inbound.head.kind == b"2".as_slice() || inbound.head.kind == b"5".as_slice()
}

fn early_by(
    found: Finding,
    options: &Options,
    number: u32,
    inbound: &Inbound<'_>,
    state: MachineState,
) -> Answer
    ensures { answered_by (texts_of (inbound_seen inbound.now)) result
        ≡ table.early_by (finding_seen found) options.now number (inbound_seen inbound.now) state }
{
    match found {
        Finding::Fine => early_of(inbound.verdict, options, number, state),
        Finding::Reject(_) => asked_alone(options, number, state),
        Finding::RejectAndClose { .. } => asked_alone(options, number, state),
    }
}

fn early_of(verdict: &Verdict<'_>, options: &Options, number: u32, state: MachineState) -> Answer
    ensures { (t : Texts) → answered_by t result ≡ table.early_of (verdict_seen verdict.now) options.now number state }
{
    match verdict {
        Verdict::App => asked_alone(options, number, state),
        Verdict::Admin(admin) => served_early(admin, options, number, state),
        Verdict::Bad(_) => asked_alone(options, number, state),
    }
}

fn served_early(admin: &Admin<'_>, options: &Options, number: u32, state: MachineState) -> Answer
    ensures { (t : Texts) → answered_by t result ≡ table.served_early (admin_seen admin.now) options.now number state }
{
    match *admin {
        Admin::ResendRequest { from, to } => asked_after(serve(from, to), options, number, state),
        Admin::Logout => logged_out(number, state),
        Admin::Heartbeat { .. } => asked_alone(options, number, state),
        Admin::TestRequest { .. } => asked_alone(options, number, state),
        Admin::Reject { .. } => asked_alone(options, number, state),
        Admin::SequenceReset { .. } => asked_alone(options, number, state),
        Admin::Logon { .. } => asked_alone(options, number, state),
    }
}

fn serve(from: SeqNum, to: u32) -> Task
    ensures { (t : Texts) → task_seen t result ≡ seen.Serve from to }
{
    Task::Serve {
        from: from.get(),
        to,
    }
}

// The gap is asked for, where none is yet.
fn asked_alone(options: &Options, number: u32, state: MachineState) -> Answer
    ensures { (t : Texts) → answered_by t result ≡ table.then_ask options.now number [] state }
{
    if state.resend_requested.is_some() {
        return silent(state);
    }
    one(
        ask_step(options, number, &state),
        asked(options, number, state),
    )
}

// The same after a step.
fn asked_after(step: Task, options: &Options, number: u32, state: MachineState) -> Answer
    ensures { (t : Texts) → answered_by t result ≡ table.then_ask options.now number (task_seen t step ∷ []) state }
{
    if state.resend_requested.is_some() {
        return one(step, state);
    }
    two(
        step,
        ask_step(options, number, &state),
        asked(options, number, state),
    )
}

// The Logout (5) is answered, where it isn't itself the answer.
fn logged_out(number: u32, state: MachineState) -> Answer
    ensures { (t : Texts) → answered_by t result ≡ table.logged_out_answer number state }
{
    let why = Why::LoggedOut { number };
    match state.phase {
        Phase::Up => two(
            Task::Logout {
                text: LogoutText::Empty,
            },
            Task::Close(why),
            closed(sent(state)),
        ),
        Phase::Down | Phase::AwaitLogon | Phase::LogoutSent => one(Task::Close(why), closed(state)),
    }
}

// ---- MsgSeqNum (34) below the expected one

fn too_low(number: u32, inbound: &Inbound<'_>, state: MachineState) -> Answer
    ensures { answered_by (texts_of (inbound_seen inbound.now)) result
        ≡ table.too_low number (inbound_seen inbound.now) state }
{
    if is_named(inbound.head.dup, b"Y") {
        return silent(state);
    }
    let text = LogoutText::TooLow {
        expected: state.expected,
        received: number,
    };
    refused_with(text, number, Refusal::TooLow, state)
}

// ---- the expected number

fn in_order_by(found: Finding, number: SeqNum, inbound: &Inbound<'_>, state: MachineState) -> Answer
    ensures { answered_by (texts_of (inbound_seen inbound.now)) result
        ≡ table.in_order_by (finding_seen found) number (inbound_seen inbound.now) state }
{
    match found {
        Finding::Fine => by_type(number, inbound, state),
        Finding::Reject(fault) => rejected(fault, number, inbound, state),
        Finding::RejectAndClose { fault, text, cause } => {
            rejected_and_closed(fault, text, cause, number, inbound, state)
        }
    }
}

// A Reject (3), a count, and the end of the connection.
fn rejected_and_closed(
    fault: Wrong,
    text: LogoutText,
    cause: Refusal,
    number: SeqNum,
    inbound: &Inbound<'_>,
    state: MachineState,
) -> Answer
    ensures { answered_by (texts_of (inbound_seen inbound.now)) result
        ≡ table.rejected_and_closed (wrong_seen fault) text cause number (inbound_seen inbound.now) state }
{
    let number = number.get();
    four(
        reject(number, fault),
        Task::Expect(number + 1),
        Task::Logout { text },
        Task::Close(Why::Refused { number, cause }),
        closed(sent(counted(number, sent(state)))),
    )
}

// A Reject (3), and a count.
fn rejected(fault: Wrong, number: SeqNum, inbound: &Inbound<'_>, state: MachineState) -> Answer
    ensures { answered_by (texts_of (inbound_seen inbound.now)) result
        ≡ table.rejected (wrong_seen fault) number (inbound_seen inbound.now) state }
{
    let number = number.get();
    two(
        reject(number, fault),
        Task::Expect(number + 1),
        counted(number, sent(state)),
    )
}

// A count alone.
fn count(number: SeqNum, state: MachineState) -> Answer
    ensures { (t : Texts) → answered_by t result ≡ table.count number state }
{
    let number = number.get();
    one(Task::Expect(number + 1), counted(number, state))
}

fn by_type(number: SeqNum, inbound: &Inbound<'_>, state: MachineState) -> Answer
    ensures { answered_by (texts_of (inbound_seen inbound.now)) result
        ≡ table.by_type (inbound_seen inbound.now).verdict number (inbound_seen inbound.now) state }
{
    match inbound.verdict {
        Verdict::App => handed(number, state),
        Verdict::Admin(admin) => session_message(admin, number, inbound, state),
        Verdict::Bad(fault) => rejected(wrong_of(fault), number, inbound, state),
    }
}

fn session_message(
    admin: &Admin<'_>,
    number: SeqNum,
    inbound: &Inbound<'_>,
    state: MachineState,
) -> Answer
    requires { (inbound_seen inbound.now).verdict ≡ seen.Admin (admin_seen admin.now) }
    ensures { answered_by (texts_of (inbound_seen inbound.now)) result
        ≡ table.session_message (admin_seen admin.now) number (inbound_seen inbound.now) state }
{
    match *admin {
        Admin::Heartbeat { .. } => count(number, state),
        Admin::TestRequest { .. } => test_request(number, state),
        Admin::ResendRequest { from, to } => resend_request(from, to, number, state),
        Admin::Reject { .. } => count(number, state),
        Admin::SequenceReset { next, .. } => filled(next, number, inbound, state),
        Admin::Logout => logout(number, state),
        Admin::Logon { .. } => logged_on_again(inbound.reset, number, state),
    }
}

// A message of the application is handed over, and counted.
fn handed(number: SeqNum, state: MachineState) -> Answer
    ensures { (t : Texts) → answered_by t result ≡ table.handed number state }
{
    let number = number.get();
    two(Task::Hand, Task::Expect(number + 1), counted(number, state))
}

// A ResendRequest (2) is counted, and served.
fn resend_request(from: SeqNum, to: u32, number: SeqNum, state: MachineState) -> Answer
    ensures { (t : Texts) → answered_by t result ≡ table.resend_request from to number state }
{
    let number = number.get();
    two(
        Task::Expect(number + 1),
        serve(from, to),
        counted(number, state),
    )
}

// A TestRequest (1) is answered by a Heartbeat (0) with its TestReqID (112).
fn test_request(number: SeqNum, state: MachineState) -> Answer
    ensures { (t : Texts) → answered_by t result ≡ table.test_request t.id number state }
{
    let number = number.get();
    two(
        Task::HeartbeatBack,
        Task::Expect(number + 1),
        counted(number, sent(state)),
    )
}

// A SequenceReset (4) with GapFillFlag (123) may not go back.
fn filled(next: u32, number: SeqNum, inbound: &Inbound<'_>, state: MachineState) -> Answer
    ensures { answered_by (texts_of (inbound_seen inbound.now)) result
        ≡ table.filled next number (inbound_seen inbound.now) state }
{
    if number.get() < next {
        return one(Task::Expect(next), expecting(next, state));
    }
    rejected(wrong_at(5, 36), number, inbound, state)
}

// A Logout (5) is counted before it is answered.
fn logout(number: SeqNum, state: MachineState) -> Answer
    ensures { (t : Texts) → answered_by t result ≡ table.logout number state }
{
    let number = number.get();
    let why = Why::LoggedOut { number };
    let state = counted(number, state);
    match state.phase {
        Phase::Up => three(
            Task::Expect(number + 1),
            Task::Logout {
                text: LogoutText::Empty,
            },
            Task::Close(why),
            closed(sent(state)),
        ),
        Phase::Down | Phase::AwaitLogon | Phase::LogoutSent => two(
            Task::Expect(number + 1),
            Task::Close(why),
            closed(state),
        ),
    }
}

// A Logon (A) in the middle of a connection may not reset.
fn logged_on_again(reset: bool, number: SeqNum, state: MachineState) -> Answer
    ensures { (t : Texts) → answered_by t result ≡ table.logged_on_again reset number state }
{
    if reset {
        return refused_with(
            LogoutText::ResetFlag,
            number.get(),
            Refusal::ResetAsked,
            state,
        );
    }
    count(number, state)
}
