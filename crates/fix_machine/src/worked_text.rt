//! The texts of worked rows: the steps of a decision, and the state after it.
use crate::worked::T;
use crate::{Decision, MachineState, Role, Step, Why};
use fix_admin::{LogoutText, Say};
use std::alloc::Global;
use std::test::Fail;

/// The steps, with ", " between.
pub fn steps_text(alloc: Global, decision: &Decision<'_>) -> Result<String, Fail> {
    let mut out = String::new(alloc);
    put_step(alloc, &mut out, &decision.first)?;
    put_step(alloc, &mut out, &decision.second)?;
    put_step(alloc, &mut out, &decision.third)?;
    put_step(alloc, &mut out, &decision.fourth)?;
    Ok(out)
}

fn put_step(alloc: Global, out: &mut String, step: &Step<'_>) -> Result<(), Fail> {
    if *step == Step::Nothing {
        return Ok(());
    }
    if !out.is_empty() {
        out.push_str(", ")?;
    }
    out.push_str(&step_text(alloc, step)?)?;
    Ok(())
}

fn step_text(alloc: Global, step: &Step<'_>) -> Result<String, Fail> {
    let text = match step {
        Step::Send(say) => say_text(alloc, say)?,
        Step::Serve { from, to } => format!(in alloc; "Serve {from} {to}")?,
        Step::Hand => format!(in alloc; "Hand")?,
        Step::Stash => format!(in alloc; "Stash")?,
        Step::Expect(number) => format!(in alloc; "Expect {number}")?,
        Step::Reset => format!(in alloc; "Reset")?,
        Step::Confirm => format!(in alloc; "Confirm")?,
        Step::Close(why) => why_text(alloc, *why)?,
        Step::Nothing => format!(in alloc; "")?,
    };
    Ok(text)
}

fn say_text(alloc: Global, say: &Say<'_>) -> Result<String, Fail> {
    let text = match say {
        Say::Heartbeat { id: None } => format!(in alloc; "Heartbeat")?,
        Say::Heartbeat { id: Some(id) } => format!(in alloc; "Heartbeat {}", text_of(id))?,
        Say::TestRequest => format!(in alloc; "TestRequest")?,
        Say::ResendRequest { from, to } => format!(in alloc; "ResendRequest {from} {to}")?,
        Say::Reject { about, kind, fault } => {
            let tag = match fault.tag {
                None => 0,
                Some(tag) => tag.get(),
            };
            format!(in alloc;
                "Reject {about} 35={} {} {tag}",
                text_of(kind),
                fault.reason
            )?
        }
        Say::GapFill { next } => format!(in alloc; "GapFill {next}")?,
        Say::Logout {
            text: LogoutText::TooLow { expected, received },
        } => format!(in alloc; "Logout TooLow {expected} {received}")?,
        Say::Logout { text } => format!(in alloc; "Logout {text:?}")?,
        Say::Logon {
            heart,
            reset,
            version,
        } => {
            let flag = if *reset { " Y" } else { "" };
            match version {
                None => format!(in alloc; "Logon {heart}{flag}")?,
                Some(version) => format!(in alloc; "Logon {heart}{flag} 1137={version}")?,
            }
        }
    };
    Ok(text)
}

fn why_text(alloc: Global, why: Why) -> Result<String, Fail> {
    let text = match why {
        Why::PeerEnd => format!(in alloc; "Close PeerEnd")?,
        Why::LoggedOut { number } => format!(in alloc; "Close LoggedOut {number}")?,
        Why::Refused { number, cause } => format!(in alloc; "Close Refused {number} {cause:?}")?,
        Why::Silent { since, now } => since_text(alloc, "Silent", since, now)?,
        Why::LogonLate { since, now } => since_text(alloc, "LogonLate", since, now)?,
        Why::LogoutLate { since, now } => since_text(alloc, "LogoutLate", since, now)?,
        Why::OutOfWindow { now } => {
            let now = time_text(alloc, now)?;
            format!(in alloc; "Close OutOfWindow {now}")?
        }
    };
    Ok(text)
}

fn since_text(alloc: Global, name: &str, since: u64, now: u64) -> Result<String, Fail> {
    let since = time_text(alloc, since)?;
    let now = time_text(alloc, now)?;
    Ok(format!(in alloc; "Close {name} {since} {now}")?)
}

fn text_of(bytes: &[u8]) -> &str {
    str::from_utf8(bytes).ok().unwrap_or("")
}

/// The phase, the numbers, and what isn't as a connection of an acceptor begins at `T`.
pub fn state_text(alloc: Global, state: &MachineState) -> Result<String, Fail> {
    let phase = state.phase;
    let expected = state.expected;
    let last = state.last;
    let mut out = format!(in alloc; "{phase:?} {expected} {last}")?;
    if state.role == Role::Initiator {
        out.push_str(" initiator")?;
    }
    if state.heart != 30 {
        let heart = state.heart;
        out.push_str(&format!(in alloc; " heart {heart}")?)?;
    }
    if let Some(gap) = state.resend_requested {
        let above = gap.above;
        let end = gap.end;
        out.push_str(&format!(in alloc; " gap {above} {end}")?)?;
    }
    if state.reset_asked {
        out.push_str(" asks")?;
    }
    put_time(alloc, &mut out, "at", state.reading)?;
    put_time(alloc, &mut out, "begun", state.begun)?;
    put_time(alloc, &mut out, "sent", state.sent_at)?;
    put_time(alloc, &mut out, "read", state.read_at)?;
    put_time(alloc, &mut out, "left", state.left_at)?;
    if let Some(at) = state.test_request_sent_at {
        let at = time_text(alloc, at)?;
        out.push_str(&format!(in alloc; " test {at}")?)?;
    }
    Ok(out)
}

fn put_time(alloc: Global, out: &mut String, name: &str, time: u64) -> Result<(), Fail> {
    if time == T {
        return Ok(());
    }
    let time = time_text(alloc, time)?;
    out.push_str(&format!(in alloc; " {name} {time}")?)?;
    Ok(())
}

// The seconds since `T`, or before it with a minus.
fn time_text(alloc: Global, time: u64) -> Result<String, Fail> {
    let sign = if time < T { "-" } else { "" };
    let gone = time.abs_diff(T);
    let seconds = gone / 1_000_000;
    let rest = gone % 1_000_000;
    if rest == 0 {
        return Ok(format!(in alloc; "{sign}{seconds}")?);
    }
    Ok(format!(in alloc; "{sign}{seconds}.{rest:06}")?)
}
