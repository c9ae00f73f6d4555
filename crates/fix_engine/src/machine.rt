//! Decides the answer to an inbound message, as a list of steps, and calls nothing outside. `handling` calls
//! this for each frame.
ghost use Rattle.std.specs.Prelude.{◌≡◌, ◌≤◌, IsTrue, Some, option_map};
ghost use Rattle.std.specs.Option.{SomeIff};
ghost use Rattle.fix_base.specs.Payload.{LAST_TIME};
ghost use Rattle.fix_engine.specs.Answer.{names, is_numbered, is_near, is_addressed, is_in_order, is_app_type};
ghost use Rattle.fix_engine.specs.Answer.{number_or_0, not_built, refused, logon_steps, logout_answer, app_answer};
ghost use Rattle.fix_engine.specs.Answer.{first_answer, up_answer, answer_to};
ghost use Rattle.fix_fields.specs.Header.{header_of};
ghost use Rattle.fix_engine.specs.ReadInbound.{inbound_of};

use crate::inbound::Inbound;
use crate::{Decision, Phase, Refusal, Say, State, Step, Why};
use fix_base::{Identity, SeqNum, is_admin_type};
use fix_fields::Envelope;

/// How far SendingTime (52) may be from the clock, in microseconds: 120 seconds.
const LATENCY: i64 = 120_000_000;

/// The answer of a session in this state to an inbound message.
pub fn decide(identity: &Identity, state: &State, inbound: &Inbound<'_>) -> Decision
    requires { state.now.reading ≤ LAST_TIME }
    ensures { result.steps ≡ answer_to identity.now state.now (inbound_of inbound.entry.now) }
{
    match state.phase {
        Phase::AwaitLogon => first(identity, state, inbound),
        Phase::Up => later(identity, state, inbound),
        Phase::Down => Decision {
            steps: [Step::Nothing, Step::Nothing, Step::Nothing, Step::Nothing],
        },
    }
}

// The answer to the first message on a connection.
fn first(identity: &Identity, state: &State, inbound: &Inbound<'_>) -> Decision
    requires { state.now.reading ≤ LAST_TIME }
    ensures { result.steps ≡ first_answer identity.now state.now (inbound_of inbound.entry.now) }
{
    if inbound.head.kind != b"A".as_slice() {
        return refusal(inbound);
    }
    match (in_order(identity, state, inbound), inbound.heart) {
        (Some(number), Some(heart)) => logon(number, heart),
        _ => given_up(inbound),
    }
}

// The answer to a message once the Logon was answered.
fn later(identity: &Identity, state: &State, inbound: &Inbound<'_>) -> Decision
    requires { state.now.reading ≤ LAST_TIME }
    ensures { result.steps ≡ up_answer identity.now state.now (inbound_of inbound.entry.now) }
{
    if inbound.head.dup.is_some() {
        return given_up(inbound);
    }
    match in_order(identity, state, inbound) {
        None => given_up(inbound),
        Some(number) => {
            if inbound.head.kind == b"5".as_slice() {
                logout(number)
            } else if is_app(inbound.head.kind) {
                application(number)
            } else {
                given_up(inbound)
            }
        }
    }
}

// The answer to a first message that is no Logon.
fn refusal(inbound: &Inbound<'_>) -> Decision
    ensures { result.steps ≡ refused (inbound_of inbound.entry.now) }
{
    let number = readable(inbound.head.number);
    let why = Why::Refused {
        number,
        cause: Refusal::NotLogon,
    };
    Decision {
        steps: [
            Step::Close(why),
            Step::Nothing,
            Step::Nothing,
            Step::Nothing,
        ],
    }
}

fn logon(number: SeqNum, heart: u32) -> Decision
    ensures { result.steps ≡ logon_steps number heart }
{
    Decision {
        steps: [
            Step::Send {
                say: Say::Logon { heart },
                counts: Some(number),
            },
            Step::GoUp,
            Step::Count(number),
            Step::Nothing,
        ],
    }
}

fn logout(number: SeqNum) -> Decision
    ensures { result.steps ≡ logout_answer number }
{
    let why = Why::LoggedOut {
        number: number.get(),
    };
    Decision {
        steps: [
            Step::Count(number),
            Step::Send {
                say: Say::Logout,
                counts: None,
            },
            Step::Close(why),
            Step::Nothing,
        ],
    }
}

fn application(number: SeqNum) -> Decision
    ensures { result.steps ≡ app_answer number }
{
    Decision {
        steps: [
            Step::Hand {
                number,
                marked: false,
            },
            Step::Count(number),
            Step::Nothing,
            Step::Nothing,
        ],
    }
}

// The answer to a message that isn't answered yet.
fn given_up(inbound: &Inbound<'_>) -> Decision
    ensures { result.steps ≡ not_built (inbound_of inbound.entry.now) }
{
    let number = readable(inbound.head.number);
    Decision {
        steps: [
            Step::GiveUp { number },
            Step::Nothing,
            Step::Nothing,
            Step::Nothing,
        ],
    }
}

// The number, or 0 where none is readable.
fn readable(number: Option<SeqNum>) -> u32
    ensures { result ≡ number_or_0 number }
{
    match number {
        None => 0,
        Some(number) => number.get(),
    }
}

// The number of the message, where it is in order.
fn in_order(identity: &Identity, state: &State, inbound: &Inbound<'_>) -> Option<SeqNum>
    requires { state.now.reading ≤ LAST_TIME }
    ensures { SomeIff result (IsTrue (is_in_order identity.now state.now (inbound_of inbound.entry.now)))
        state.now.expected }
{
    let number = inbound.head.number?;
    if fits(identity, state, inbound) {
        Some(number)
    } else {
        None
    }
}

// Whether this is the message of the expected number, from the counterparty, at about the time that it says.
fn fits(identity: &Identity, state: &State, inbound: &Inbound<'_>) -> bool
    requires { state.now.reading ≤ LAST_TIME }
    ensures { result ≡ is_in_order identity.now state.now (inbound_of inbound.entry.now) }
{
    inbound.head.begin == identity.begin.text()
        && has_number(inbound.head.number, state.expected)
        && is_for(identity, &inbound.head)
        && is_timely(inbound.sent, state.reading)
}

// Whether the number is readable, and is this one.
fn has_number(number: Option<SeqNum>, expected: u32) -> bool
    ensures { result ≡ is_numbered number expected }
{
    match number {
        None => false,
        Some(number) => number.get() == expected,
    }
}

// Whether the CompIDs are those of a message from the counterparty to this end.
fn is_for(identity: &Identity, head: &Envelope<'_>) -> bool
    ensures { result ≡ is_addressed identity.now (header_of head.now) }
{
    is_named(head.sender, identity.target.as_slice())
        && is_named(head.target, identity.sender.as_slice())
}

// Whether the value is there, and is this text.
fn is_named(value: Option<&[u8]>, text: &[u8]) -> bool
    ensures { result ≡ names (option_map (λ v. v.now) value.entry) text.now }
{
    match value {
        None => false,
        Some(value) => value == text,
    }
}

// Whether the time is there, and at most 120 seconds before or after the reading.
fn is_timely(sent: Option<i64>, now: u64) -> bool
    requires { now ≤ LAST_TIME }
    ensures { result ≡ is_near sent now }
{
    match sent {
        None => false,
        Some(sent) => {
            let now = now as i64;
            sent <= now + LATENCY && now <= sent.saturating_add(LATENCY)
        }
    }
}

// Whether the MsgType (35) is that of an application message.
fn is_app(kind: &[u8]) -> bool
    ensures { result ≡ is_app_type (Some kind.now) }
{
    !is_admin_type(kind)
}
