//! The answer of a stage, as tasks and the state after them, and the parts that an answer is built from.
//! `await_logon`, `logged_on`, `clock` and `machine` call these.
ghost use Rattle.std.specs.Prelude.{◌≡◌, ◌≤◌, ◌∷◌, [], option_map};
ghost use Rattle.fix_admin.specs.Values.{fault_of};
ghost use Rattle.fix_fields.specs.Header.{header_of};
ghost use Rattle.fix_machine.specs.declared.answer.Task.TheVariants.{Nothing};
ghost use Rattle.fix_machine.specs.Answer.{Texts, answered_by, task_seen, wrong_seen, planned, refuse, refuse_with};
ghost use Rattle.fix_machine.specs.Answer as answers;
ghost use Rattle.fix_machine.specs.State as states;
ghost use Rattle.fix_machine.specs.State.{number_after};

use crate::{MachineState, Options, Phase, Refusal, Requested, Why};
use fix_admin::LogoutText;
use fix_base::{Identity, LAST_SEQ_NUM, LAST_TIME, SeqNum};
use fix_fields::Envelope;

/// One thing to do, as a step without the texts that it gives back: the MsgType (35) and the
/// TestReqID (112) of the message that it answers.
#[derive(Clone, Copy, Debug, PartialEq, Eq)]
pub enum Task {
    /// Heartbeat (0) without TestReqID (112).
    Heartbeat,
    /// Heartbeat (0) with the TestReqID (112) of the message.
    HeartbeatBack,
    TestRequest,
    ResendRequest {
        from: u32,
        to: u32,
    },
    Reject {
        about: u32,
        reason: u16,
        tag: Option<u32>,
    },
    Logout {
        text: LogoutText,
    },
    Logon {
        heart: u32,
        reset: bool,
        version: Option<u8>,
    },
    Serve {
        from: u32,
        to: u32,
    },
    Hand,
    Stash,
    Expect(u32),
    Reset,
    Confirm,
    Close(Why),
    Nothing,
}

/// The steps of an answer in order, and the state after it.
#[derive(Clone, Copy)]
pub struct Answer {
    pub first: Task,
    pub second: Task,
    pub third: Task,
    pub fourth: Task,
    pub next: MachineState,
}

/// SessionRejectReason (373) and RefTagID (371), as numbers.
#[derive(Clone, Copy, Debug, PartialEq, Eq)]
pub struct Wrong {
    pub reason: u16,
    pub tag: Option<u32>,
}

// Nothing is done.
pub fn silent(next: MachineState) -> Answer
    ensures { (t : Texts) → answered_by t result ≡ answers.silent next }
{
    four(
        Task::Nothing,
        Task::Nothing,
        Task::Nothing,
        Task::Nothing,
        next,
    )
}

// One step.
pub fn one(first: Task, next: MachineState) -> Answer
    ensures { result ≡ planned first Nothing Nothing Nothing next }
{
    four(first, Task::Nothing, Task::Nothing, Task::Nothing, next)
}

pub fn two(first: Task, second: Task, next: MachineState) -> Answer
    ensures { result ≡ planned first second Nothing Nothing next }
{
    four(first, second, Task::Nothing, Task::Nothing, next)
}

pub fn three(first: Task, second: Task, third: Task, next: MachineState) -> Answer
    ensures { result ≡ planned first second third Nothing next }
{
    four(first, second, third, Task::Nothing, next)
}

pub fn four(first: Task, second: Task, third: Task, fourth: Task, next: MachineState) -> Answer
    ensures { result ≡ planned first second third fourth next }
{
    Answer {
        first,
        second,
        third,
        fourth,
        next,
    }
}

// The message is refused, and the connection closed.
pub fn refused(number: u32, cause: Refusal, state: MachineState) -> Answer
    ensures { (t : Texts) → answered_by t result ≡ refuse number cause state }
{
    let why = Why::Refused { number, cause };
    one(Task::Close(why), closed(state))
}

// The same after a Logout (5) with a text.
pub fn refused_with(text: LogoutText, number: u32, cause: Refusal, state: MachineState) -> Answer
    ensures { (t : Texts) → answered_by t result ≡ refuse_with text number cause state }
{
    let why = Why::Refused { number, cause };
    two(Task::Logout { text }, Task::Close(why), closed(sent(state)))
}

// A Reject (3) of the message with this number.
pub fn reject(number: u32, fault: Wrong) -> Task
    ensures { (t : Texts) → task_seen t result ≡ answers.reject number t.type (wrong_seen fault) }
{
    Task::Reject {
        about: number,
        reason: fault.reason,
        tag: fault.tag,
    }
}

// EndSeqNo (16) of a ResendRequest (2) for the gap that the number shows.
pub fn end_of(chunk: u32, expected: u32, number: u32) -> u32
    ensures { result ≡ answers.end_of chunk expected number }
{
    if chunk == 0 {
        return 0;
    }
    let end = u64::from(expected) + u64::from(chunk) - 1;
    end.min(u64::from(number)) as u32
}

// A ResendRequest (2) for the gap that the number shows.
pub fn ask_step(options: &Options, number: u32, state: &MachineState) -> Task
    ensures { (t : Texts) → task_seen t result ≡ answers.ask_step options.now number state.now }
{
    Task::ResendRequest {
        from: state.expected,
        to: end_of(options.chunk, state.expected, number),
    }
}

// The gap is asked for.
pub fn asked(options: &Options, number: u32, state: MachineState) -> MachineState
    ensures { result ≡ answers.asked options.now number state }
{
    let end = end_of(options.chunk, state.expected, number);
    sent(MachineState {
        resend_requested: Some(Requested { above: number, end }),
        ..state
    })
}

// ---- what a header says

// Whether the value is there, and is this text.
pub fn is_named(value: Option<&[u8]>, text: &[u8]) -> bool
    ensures { result ≡ answers.names (option_map (λ v. v.now) value.entry) text.now }
{
    match value {
        None => false,
        Some(value) => value == text,
    }
}

// Whether BeginString (8) is the session's.
pub fn is_of_session(identity: &Identity, head: &Envelope<'_>) -> bool
    ensures { result ≡ answers.is_of_session identity.now (header_of head.now) }
{
    head.begin == identity.begin.text()
}

// The number, or 0 where none is readable.
pub fn readable(number: Option<SeqNum>) -> u32
    ensures { result ≡ answers.number_or_0 number }
{
    match number {
        None => 0,
        Some(number) => number.get(),
    }
}

// A fault at a tag.
pub fn wrong_at(reason: u16, tag: u32) -> Wrong
    requires first { 1 ≤ tag }
    requires last { tag ≤ 999999999 }
    ensures { wrong_seen result ≡ fault_of reason tag }
{
    Wrong {
        reason,
        tag: Some(tag),
    }
}

// ---- how the state changes

// A message was sent.
pub fn sent(state: MachineState) -> MachineState
    ensures { result ≡ states.sent state }
{
    MachineState {
        last: after(state.last),
        sent_at: state.reading,
        ..state
    }
}

// This number is expected next.
pub fn expecting(number: u32, state: MachineState) -> MachineState
    ensures { result ≡ states.expecting number state }
{
    MachineState {
        expected: number,
        ..state
    }
}

// The message with this number is counted.
pub fn counted(number: u32, state: MachineState) -> MachineState
    requires { number ≤ 999999999 }
    ensures { result ≡ states.counted number state }
{
    expecting(number + 1, state)
}

// The connection is closed.
pub fn closed(state: MachineState) -> MachineState
    ensures { result ≡ states.closed state }
{
    MachineState {
        phase: Phase::Down,
        ..state
    }
}

// The clock was read. A reading past the end of 2099 counts as that.
pub fn read_clock(now: u64, state: MachineState) -> MachineState
    ensures { result ≡ states.read_clock now state }
{
    MachineState {
        reading: now.min(LAST_TIME),
        ..state
    }
}

// The number after the last; at 999,999,999 there is none.
fn after(last: u32) -> u32
    ensures { result ≡ number_after last }
{
    if last < LAST_SEQ_NUM { last + 1 } else { last }
}
