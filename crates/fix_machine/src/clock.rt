//! Answers a reading of the clock: what is due then, or the end of the session's time. `machine` calls this
//! for the event `Clock`.
ghost use Rattle.std.specs.Prelude.{◌≡◌, ◌≤◌};
ghost use Rattle.fix_machine.specs.State.{IsTimed};
ghost use Rattle.fix_base.specs.Payload.{LAST_TIME};
ghost use Rattle.fix_machine.specs.Answer.{Texts, answered_by, texts_of, task_seen};
ghost use Rattle.fix_machine.specs.Clock as table;

use crate::answer::{Answer, Task, closed, one, sent, silent, two};
use crate::{MachineState, Options, Phase, Why};
use fix_admin::LogoutText;

/// What a reading of the clock brings.
#[derive(Clone, Copy, Debug, PartialEq, Eq)]
pub enum Due {
    /// No Logon (A) came in time.
    LogonLate,
    /// No answer to the Logout (5) came in time.
    LogoutLate,
    /// No message came since the TestRequest (1) of this time.
    Silent(u64),
    /// A TestRequest (1) is to be sent.
    TestRequest,
    /// A Heartbeat (0) is to be sent.
    Heartbeat,
}

// A reading of the clock, which is the last one by now.
pub fn clock(options: &Options, state: MachineState, inside: bool) -> Answer
    requires { IsTimed state }
    ensures { (t : Texts) → answered_by t result ≡ table.clock options.now state inside }
{
    if inside {
        due_answer(due_at(options, &state, state.reading), state)
    } else {
        out_of_window(state)
    }
}

// The session's time is over.
fn out_of_window(state: MachineState) -> Answer
    ensures { (t : Texts) → answered_by t result ≡ table.out_of_window state.phase state.reading state }
{
    let why = Why::OutOfWindow { now: state.reading };
    match state.phase {
        Phase::Down => silent(state),
        Phase::AwaitLogon => closed_by(why, state),
        Phase::Up => two(
            Task::Logout {
                text: LogoutText::OutOfWindow,
            },
            Task::Close(why),
            closed(sent(state)),
        ),
        Phase::LogoutSent => closed_by(why, state),
    }
}

// The connection is closed.
fn closed_by(why: Why, state: MachineState) -> Answer
    ensures { (t : Texts) → answered_by t result ≡ table.closed_by why state }
{
    one(Task::Close(why), closed(state))
}

// What is due at the reading.
fn due_at(options: &Options, state: &MachineState, now: u64) -> Option<Due>
    requires state { IsTimed state.now }
    requires now { now ≤ LAST_TIME }
    ensures { result ≡ table.due_at options.now state.now now }
{
    match state.phase {
        Phase::Down => None,
        Phase::AwaitLogon => due_if(
            has_gone(options.logon_timeout, state.begun, now),
            Due::LogonLate,
        ),
        Phase::Up => due_up(state, now),
        Phase::LogoutSent => due_if(
            has_gone(options.logout_timeout, state.left_at, now),
            Due::LogoutLate,
        ),
    }
}

fn due_if(is: bool, due: Due) -> Option<Due>
    ensures { result ≡ table.due_if is due }
{
    if is { Some(due) } else { None }
}

// After the Logon, where HeartBtInt (108) is above 0.
fn due_up(state: &MachineState, now: u64) -> Option<Due>
    requires state { IsTimed state.now }
    requires now { now ≤ LAST_TIME }
    ensures { result ≡ table.due_up state.now now }
{
    if state.heart == 0 {
        return None;
    }
    match state.test_request_sent_at {
        Some(since) => {
            if is_silent(state.heart, since, now) {
                return Some(Due::Silent(since));
            }
        }
        None => {
            if is_silent(state.heart, state.read_at, now) {
                return Some(Due::TestRequest);
            }
        }
    }
    due_if(has_gone(state.heart, state.sent_at, now), Due::Heartbeat)
}

// Whether so many seconds have gone since.
fn has_gone(seconds: u32, since: u64, now: u64) -> bool
    ensures { result ≡ table.has_gone seconds since now }
{
    now.saturating_sub(since) >= u64::from(seconds) * 1_000_000
}

// Whether HeartBtInt (108) and a fifth of it have gone since.
fn is_silent(heart: u32, since: u64, now: u64) -> bool
    requires { now ≤ LAST_TIME }
    ensures { result ≡ table.is_silent heart since now }
{
    5 * now.saturating_sub(since) >= u64::from(heart) * 6_000_000
}

// The answer to what is due.
fn due_answer(due: Option<Due>, state: MachineState) -> Answer
    ensures { (t : Texts) → answered_by t result ≡ table.due_answer due state }
{
    let now = state.reading;
    match due {
        None => silent(state),
        Some(Due::LogonLate) => closed_by(
            Why::LogonLate {
                since: state.begun,
                now,
            },
            state,
        ),
        Some(Due::LogoutLate) => closed_by(
            Why::LogoutLate {
                since: state.left_at,
                now,
            },
            state,
        ),
        Some(Due::Silent(since)) => closed_by(Why::Silent { since, now }, state),
        Some(Due::TestRequest) => one(
            Task::TestRequest,
            MachineState {
                test_request_sent_at: Some(now),
                ..sent(state)
            },
        ),
        Some(Due::Heartbeat) => one(Task::Heartbeat, sent(state)),
    }
}
