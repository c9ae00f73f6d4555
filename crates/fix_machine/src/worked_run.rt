//! Runs worked rows: brings a session to where a row begins, gives it the row's event, and compares.
ghost use Rattle.std.specs.Prelude.{◌≤◌};

use crate::worked::{Odd, Part, Row, Says, Start, T, Way, What, With};
use crate::worked_text::{state_text, steps_text};
use crate::{Event, Machine, Options, Role, Step, Verdict};
use fix_admin::{Admin, Say};
use fix_base::{Begin, Bytes, Fault, Identity, OutOfMemory, SeqNum, Stored, Tag};
use fix_fields::Envelope;
use std::alloc::Global;
use std::process::Abort;
use std::test::Fail;

/// Each row holds.
pub fn hold(rt: &impl Abort, alloc: Global, rows: &[Row]) -> Result<(), Fail> {
    for (start, what, steps, state) in rows {
        let mut machine = begin(alloc, start)?;
        let done = answer(alloc, &mut machine, *what)?;
        let next = state_text(alloc, &machine.state())?;
        assert_eq!(rt; done.as_str(), *steps, "and then {next}");
        assert_eq!(rt; next.as_str(), *state, "after {done}");
    }
    Ok(())
}

/// The parts hold, one after another.
pub fn follow(rt: &impl Abort, alloc: Global, start: Start, parts: &[Part]) -> Result<(), Fail> {
    let mut machine = begin(alloc, &start)?;
    for (what, steps, state, due) in parts {
        let done = answer(alloc, &mut machine, *what)?;
        let next = state_text(alloc, &machine.state())?;
        assert_eq!(rt; done.as_str(), *steps, "and then {next}");
        assert_eq!(rt; next.as_str(), *state, "after {done}");
        assert_eq!(rt; machine.deadline(), due_at(*due), "in {next}");
    }
    Ok(())
}

// So many seconds after `T`, or none.
fn due_at(seconds: u32) -> Option<u64> {
    if seconds == 0 {
        return None;
    }
    Some(T + u64::from(seconds) * 1_000_000)
}

// ---- the state before

// A session where the row begins.
fn begin(alloc: Global, start: &Start) -> Result<Machine, Fail> {
    let mut machine = Machine::new(options(alloc, start.with)?, numbers(1, 0, false));
    let role = match start.way {
        Way::Opens => Role::Initiator,
        _ => Role::Acceptor,
    };
    answer(alloc, &mut machine, What::Begin(role, T))?;
    arrive(alloc, &mut machine, start.way)?;
    machine.resume(numbers(start.expected, start.last, start.asks));
    Ok(machine)
}

// From the beginning of a connection on.
fn arrive(alloc: Global, machine: &mut Machine, way: Way) -> Result<(), Fail> {
    match way {
        Way::Down => {
            answer(alloc, machine, What::Ended)?;
        }
        Way::Accepts => {}
        Way::Opens => {}
        Way::Up => {
            answer(alloc, machine, What::In(1, Says::Logon(30)))?;
        }
        Way::Quiet => {
            answer(alloc, machine, What::In(1, Says::Logon(0)))?;
        }
        Way::LogoutSent => {
            answer(alloc, machine, What::In(1, Says::Logon(30)))?;
            answer(alloc, machine, What::Leave(T))?;
        }
        Way::Gap(number) => {
            answer(alloc, machine, What::In(1, Says::Logon(30)))?;
            answer(alloc, machine, What::In(number, Says::App(b'D')))?;
        }
    }
    Ok(())
}

// What is stored, with the numbers in their ranges.
fn numbers(expected: u32, last: u32, asked: bool) -> Stored
    ensures last { result.last ≤ 999999999 }
    ensures first { 1 ≤ result.expected }
    ensures bound { result.expected ≤ 1000000000 }
{
    Stored {
        last: last.min(999_999_999),
        expected: expected.max(1).min(1_000_000_000),
        since: None,
        asked,
    }
}

// The settings.
fn options(alloc: Global, with: With) -> Result<Options, OutOfMemory> {
    let identity = Identity {
        begin: Begin::Fix42,
        sender: Bytes::copy(alloc, b"SELL")?,
        target: Bytes::copy(alloc, b"BUY")?,
    };
    Ok(Options {
        identity,
        heart: 30,
        chunk: match with {
            With::Chunks => 2,
            _ => 0,
        },
        latency: match with {
            With::AnyTime => None,
            _ => Some(120),
        },
        logon_timeout: 10,
        logout_timeout: match with {
            With::Patience => 86_400,
            _ => 2,
        },
        persist: true,
        reset_on_logon: match with {
            With::Resets => true,
            _ => false,
        },
        version: match with {
            With::Version => Some(9),
            _ => None,
        },
    })
}

// ---- the event

// What `decide` does at this. Each type that an event and a decision hold is named here, as the proof of the
// borrows wants it, so no other function of the tests calls `decide`.
fn answer(alloc: Global, machine: &mut Machine, what: What) -> Result<String, Fail> {
    let (number, odd, says) = message_in(what);
    let head = header(number, odd, says);
    let from = SeqNum::new(1).ok_or("no number")?;
    let verdict = match says {
        Says::App(_) => Verdict::App,
        Says::Heartbeat => Verdict::Admin(Admin::Heartbeat { id: None }),
        Says::TestRequest => Verdict::Admin(Admin::TestRequest { id: test_req_id() }),
        Says::ResendRequest => Verdict::Admin(Admin::ResendRequest { from, to: 0 }),
        Says::Reject => Verdict::Admin(Admin::Reject { about: 1 }),
        Says::Reset(next) => Verdict::Admin(Admin::SequenceReset { next, gap: false }),
        Says::Fill(next) => Verdict::Admin(Admin::SequenceReset { next, gap: true }),
        Says::Logout => Verdict::Admin(Admin::Logout),
        Says::Logon(heart) => Verdict::Admin(Admin::Logon {
            heart,
            reset: false,
            version: None,
        }),
        Says::ResetLogon(heart) => Verdict::Admin(Admin::Logon {
            heart,
            reset: true,
            version: None,
        }),
        Says::VersionLogon(version) => Verdict::Admin(Admin::Logon {
            heart: 30,
            reset: false,
            version: Some(version),
        }),
        Says::Bad(_, reason, tag) => Verdict::Bad(Fault {
            reason,
            tag: Tag::new(tag),
        }),
    };
    let event = match what {
        What::Begin(role, now) => Event::Begin { role, now },
        What::First => Event::First,
        What::In(_, _) | What::InOdd(_, _, _) => Event::Frame {
            head: &head,
            verdict,
            full: odd == Odd::Full,
            gap: is_fill(says),
            reset: is_reset_logon(says),
        },
        What::Moved(waiting) => Event::Moved { waiting },
        What::Clock(now, inside) => Event::Clock { now, inside },
        What::Leave(now) => Event::Leave { now },
        What::Ended => Event::Ended,
        What::Wrote(now) => Event::Wrote { now },
    };
    let decision = machine.decide(&event);
    if decision.first == Step::Send(Say::GapFill { next: 0 }) {
        return Err(Fail::from("a gap fill is no answer"));
    }
    steps_text(alloc, &decision)
}

// The number of the message, what is odd about it, and what it says.
fn message_in(what: What) -> (u32, Odd, Says) {
    match what {
        What::In(number, says) => (number, Odd::Nothing, says),
        What::InOdd(number, odd, says) => (number, odd, says),
        _ => (0, Odd::Nothing, Says::App(b'D')),
    }
}

fn header<'a>(number: u32, odd: Odd, says: Says) -> Envelope<'a> {
    Envelope {
        begin: begin_of(odd),
        kind: kind_text(kind_of(says)),
        number: SeqNum::new(number),
        dup: dup_of(odd),
        sender: sender_of(odd),
        target: target_of(odd),
        sent: sent_of(odd),
        first_sent: first_sent_of(odd),
    }
}

fn test_req_id<'a>() -> &'a [u8] {
    b"PING"
}

fn is_fill(says: Says) -> bool {
    match says {
        Says::Fill(_) => true,
        _ => false,
    }
}

fn is_reset_logon(says: Says) -> bool {
    match says {
        Says::ResetLogon(_) => true,
        _ => false,
    }
}

// MsgType (35), 0 where it is empty.
fn kind_of(says: Says) -> u8 {
    match says {
        Says::App(kind) => kind,
        Says::Heartbeat => b'0',
        Says::TestRequest => b'1',
        Says::ResendRequest => b'2',
        Says::Reject => b'3',
        Says::Reset(_) | Says::Fill(_) => b'4',
        Says::Logout => b'5',
        Says::Logon(_) | Says::ResetLogon(_) | Says::VersionLogon(_) => b'A',
        Says::Bad(kind, _, _) => kind,
    }
}

fn kind_text<'a>(kind: u8) -> &'a [u8] {
    match kind {
        b'0' => b"0",
        b'1' => b"1",
        b'2' => b"2",
        b'3' => b"3",
        b'4' => b"4",
        b'5' => b"5",
        b'A' => b"A",
        b'D' => b"D",
        b'j' => b"j",
        _ => b"",
    }
}

fn begin_of<'a>(odd: Odd) -> &'a [u8] {
    match odd {
        Odd::Version => b"FIX.4.4",
        _ => b"FIX.4.2",
    }
}

fn dup_of<'a>(odd: Odd) -> Option<&'a [u8]> {
    match odd {
        Odd::FlagX => Some(b"X"),
        Odd::FlagN => Some(b"N"),
        Odd::Marked | Odd::Again | Odd::AgainLater | Odd::AgainBad => Some(b"Y"),
        _ => None,
    }
}

fn sender_of<'a>(odd: Odd) -> Option<&'a [u8]> {
    match odd {
        Odd::NoSender => None,
        Odd::OtherSender | Odd::OtherSenderNoTarget => Some(b"OTHER"),
        _ => Some(b"BUY"),
    }
}

fn target_of<'a>(odd: Odd) -> Option<&'a [u8]> {
    match odd {
        Odd::NoTarget | Odd::OtherSenderNoTarget => None,
        Odd::OtherTarget => Some(b"OTHER"),
        _ => Some(b"SELL"),
    }
}

fn sent_of<'a>(odd: Odd) -> Option<&'a [u8]> {
    match odd {
        Odd::NoTime => None,
        Odd::BadTime => Some(b"20240102 10:00:00"),
        Odd::Early120 => Some(b"20240102-09:58:00"),
        Odd::Early121 => Some(b"20240102-09:57:59"),
        Odd::Late120 => Some(b"20240102-10:02:00"),
        Odd::Late121 => Some(b"20240102-10:02:01"),
        _ => Some(b"20240102-10:00:00"),
    }
}

fn first_sent_of<'a>(odd: Odd) -> Option<&'a [u8]> {
    match odd {
        Odd::Again => Some(b"20240102-10:00:00"),
        Odd::AgainLater => Some(b"20240102-10:00:01"),
        Odd::AgainBad => Some(b"yesterday"),
        _ => None,
    }
}
