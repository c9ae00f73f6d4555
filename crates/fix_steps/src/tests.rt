//! That with memory and no fault an answer is carried out: the texts are those that FIX asks for, made by hand.
ghost use Rattle.std.specs.Prelude.{◌≡◌, IfOk, Some, None, [], false};
ghost use Rattle.fix_base.specs.Session.{IsValidIdentity};
ghost use Rattle.fix_outside.specs.Outside.{HasPlace, last_behind};
ghost use Rattle.fix_stage.specs.Sender.{IsReady};
ghost use Rattle.fix_steps.specs.Ending.{open_after};

use crate::{Ending, Source, carry_out};
use fix_admin::{LogoutText, Say};
use fix_base::{Begin, Bytes, Fault, Identity, OutOfMemory, Record, SeqNum, Stored, is_comp_id};
use fix_fields::{Draft, envelope};
use fix_frame::{Framed, frame_at};
use fix_machine::{Decision, Refusal, Step, Why};
use fix_outside::{
    Again, FetchFault, Handed, KeepFault, Kind, LoadFault, Outside, ReadTurn, Said, WriteTurn,
};
use fix_stage::{Context, Numbers, PendingDraft, Sender, Stage, settle};
use std::alloc::Global;
use std::test::Fail;

// An order of the counterparty whose ClOrdID (11) is A1, number 3, sent again.
const ORDER: &[u8] = b"8=FIX.4.2\x019=61\x0135=D\x0134=3\x0143=Y\x0149=BUY\
        \x0152=20240102-10:00:00.000\x0156=SELL\x0111=A1\x0110=243\x01";

// The Reject of number 3, for reason 9, under number 2; and a Logout under number 3.
const REJECT: &[u8] = b"8=FIX.4.2\x019=85\x0135=3\x0134=2\x0149=SELL\
        \x0152=20240102-10:00:00.000\x0156=BUY\x0145=3\x01372=D\x01373=9\x0158=CompID problem\x0110=187\x01";

const LOGOUT: &[u8] = b"8=FIX.4.2\x019=68\x0135=5\x0134=3\x0149=SELL\
        \x0152=20240102-10:00:00.000\x0156=BUY\x0158=CompID problem\x0110=179\x01";

// A gap fill over number 1.
const GAP_FILL: &[u8] = b"8=FIX.4.2\x019=92\x0135=4\x0134=1\x0143=Y\x0149=SELL\x01\
        52=20240102-10:00:00.000\x0156=BUY\x01\
        122=20240102-10:00:00.000\x0136=2\x01123=Y\x0110=183\x01";

// 2024-01-02 10:00:00, in microseconds since 1970.
const TIME: u64 = 1_704_189_600_000_000;

// An outside that tells nothing but how many entries its store has. It counts what it keeps and writes, has the bytes
// that were written, and the message that was handed over with the counts before that.
#[derive(Drop)]
struct Quiet {
    last: u32,
    keeps: u64,
    expect: u32,
    writes: u64,
    written: Vec<u8>,
    handed: u32,
    marked: bool,
    keeps_before: u64,
    writes_before: u64,
}

// How many entries a store has after this record, of which it had so many before.
fn entries_after(kept: &Record, last: u32) -> u32
    requires { HasPlace kept.now (Some last) }
    ensures { result ≡ last_behind kept.now last }
{
    match kept {
        Record::Push(_) => last + 1,
        Record::Expect(_) => last,
        Record::Many { pushes, .. } => last + pushes.as_slice().len() as u32,
        Record::Withhold(_) => last,
        Record::Reset(_) => 0,
        Record::ResetAsk(_) => 0,
        Record::Confirm => last,
    }
}

// The number that a record of several expects, or 0.
fn expects(kept: &Record) -> u32 {
    match kept {
        Record::Push(_) => 0,
        Record::Expect(number) => *number,
        Record::Many { expect, .. } => *expect,
        Record::Withhold(_) => 0,
        Record::Reset(_) => 0,
        Record::ResetAsk(_) => 0,
        Record::Confirm => 0,
    }
}

impl Outside for Quiet {
    ghost seen = { λ s.
        record {
          tape = None;
          Holds = λ e. ⊥;
          open_at = Some s.last;
          Tells = ⊥;
          Breaks = λ place. ⊥;
          faults = record { store = 0; link = 0; app = 0 };
          parts = record {
            to_come = None;
            readings = None;
            written = None;
            link_room = None;
            lines = None;
            line_room = None;
            asked = None;
            to_ask = None;
            store_room = None;
          };
        } };

    fn now(&mut self) -> Result<u64, OutOfMemory> {
        Ok(TIME)
    }

    fn load(&mut self) -> Result<Stored, LoadFault> {
        self.last = 0;
        Ok(Stored {
            last: 0,
            expected: 1,
            since: None,
            asked: false,
        })
    }

    fn mark(&mut self, _cut: bool) -> Result<(), OutOfMemory> {
        Ok(())
    }

    fn read(&mut self, _room: &mut [u8]) -> ReadTurn {
        ReadTurn::Idle
    }

    fn write(&mut self, bytes: &[u8]) -> WriteTurn {
        match self.written.extend_from_slice(bytes) {
            Ok(()) => {
                self.writes = self.writes.saturating_add(1);
                WriteTurn::Done
            }
            Err(_) => WriteTurn::OutOfMemory,
        }
    }

    fn keep(&mut self, kept: &Record) -> Result<(), KeepFault> {
        self.last = entries_after(kept, self.last);
        self.keeps = self.keeps.saturating_add(1);
        self.expect = expects(kept);
        Ok(())
    }

    // Each entry is one of the session layer.
    fn fetch(&mut self, _n: SeqNum, into: &mut Vec<u8>) -> Result<Kind, FetchFault> {
        into.clear();
        Ok(Kind::Admin)
    }

    fn hand(&mut self, h: &Handed<'_>) -> Said {
        self.handed = h.number;
        self.marked = h.marked;
        self.keeps_before = self.keeps;
        self.writes_before = self.writes;
        Said::Taken
    }

    fn again(&mut self, _n: SeqNum, _kind: &[u8], _body: &[u8]) -> Again {
        Again::OutOfMemory
    }

    fn ask(&mut self) -> Option<Draft> {
        None
    }
}

fn quiet_outside(alloc: Global) -> Quiet
    ensures { result.last ≡ 1 }
{
    Quiet {
        last: 1,
        keeps: 0,
        expect: 0,
        writes: 0,
        written: Vec::new(alloc),
        handed: 0,
        marked: false,
        keeps_before: 0,
        writes_before: 0,
    }
}

fn sample_context(alloc: Global) -> Result<Context, Fail>
    ensures { IfOk result (λ context. IsValidIdentity context.identity) }
{
    let sender = Bytes::copy(alloc, b"SELL")?;
    let target = Bytes::copy(alloc, b"BUY")?;
    if !is_comp_id(sender.as_slice()) {
        return Err(OutOfMemory.into());
    }
    if !is_comp_id(target.as_slice()) {
        return Err(OutOfMemory.into());
    }
    Ok(Context {
        alloc,
        identity: Identity {
            begin: Begin::Fix42,
            sender,
            target,
        },
    })
}

// A session that has kept one entry and expects number 3.
fn sample_sender(alloc: Global) -> Sender
    ensures { result ≡ record {
      numbers = record { expected = 3; stored_expected = 1; last = 1; reading = 1704189600000000 };
      stage = record { entries = []; frames = [] };
      pending = record { draft = None; staged = false; store_failed = false };
    } }
{
    Sender {
        numbers: Numbers {
            expected: 3,
            stored_expected: 1,
            last: 1,
            reading: TIME,
        },
        stage: Stage::new(alloc),
        pending: PendingDraft {
            draft: None,
            staged: false,
            store_failed: false,
        },
    }
}

// A Heartbeat is staged, and then the order of number 3 is handed over and counted.
fn heartbeat_and_order<O: Outside>(
    alloc: Global,
    o: &mut O,
    context: &Context,
) -> Result<Sender, Fail>
    requires valid { IsValidIdentity context.now.identity }
    requires opens { (O.seen o.old).open_at ≡ Some 1 }
{
    let mut sender = sample_sender(alloc);
    let beat = Decision {
        first: Step::Send(Say::Heartbeat { id: None }),
        second: Step::Nothing,
        third: Step::Nothing,
        fourth: Step::Nothing,
    };
    match carry_out(o, context, &mut sender, &Source::Other, &beat) {
        Ok(()) => {}
        Err(_) => return Err(OutOfMemory.into()),
    }
    let Framed::Frame(frame) = frame_at(ORDER, 0) else {
        return Err(OutOfMemory.into());
    };
    let head = envelope(frame);
    let order = Decision {
        first: Step::Hand,
        second: Step::Expect(4),
        third: Step::Nothing,
        fourth: Step::Nothing,
    };
    let source = Source::Message { frame, head: &head };
    match carry_out(o, context, &mut sender, &source, &order) {
        Ok(()) => Ok(sender),
        Err(_) => Err(OutOfMemory.into()),
    }
}

#[test]
fn an_order_is_handed_over_after_what_is_staged_went_out(rt: HostRuntime) -> Result<(), Fail> {
    let alloc = rt.alloc();
    let context = sample_context(alloc)?;
    let mut o = quiet_outside(alloc);
    let sender = heartbeat_and_order(alloc, &mut o, &context)?;
    assert_eq!(rt; (o.last, o.keeps, o.writes), (2, 1, 1));
    assert_eq!(rt; (o.handed, o.marked), (3, true));
    assert_eq!(rt; (o.keeps_before, o.writes_before), (1, 1));
    assert_eq!(rt;
        (sender.numbers.expected, sender.numbers.stored_expected),
        (4, 1)
    );
    Ok(())
}

// The message of number 3 is rejected and counted; a Logout follows, and the connection is closed.
fn reject_and_close<O: Outside>(
    alloc: Global,
    o: &mut O,
    context: &Context,
) -> Result<(Sender, Result<(), Ending>), Fail>
    requires valid { IsValidIdentity context.now.identity }
    requires opens { (O.seen o.old).open_at ≡ Some 1 }
    ensures ready { IfOk result (λ p. IsReady context.now.identity (O.seen o.new) (open_after p.1 p.0) p.0) }
{
    let mut sender = sample_sender(alloc);
    let fault = Fault {
        reason: 9,
        tag: None,
    };
    let decision = Decision {
        first: Step::Send(Say::Reject {
            about: 3,
            kind: b"D",
            fault,
        }),
        second: Step::Expect(4),
        third: Step::Send(Say::Logout {
            text: LogoutText::CompId,
        }),
        fourth: Step::Close(Why::Refused {
            number: 3,
            cause: Refusal::CompId,
        }),
    };
    let end = carry_out(o, context, &mut sender, &Source::Other, &decision);
    Ok((sender, end))
}

#[test]
fn a_reject_is_counted_before_the_logout(rt: HostRuntime) -> Result<(), Fail> {
    let alloc = rt.alloc();
    let context = sample_context(alloc)?;
    let mut o = quiet_outside(alloc);
    let (sender, end) = reject_and_close(alloc, &mut o, &context)?;
    let why = Why::Refused {
        number: 3,
        cause: Refusal::CompId,
    };
    assert!(rt; end == Err(Ending::Closed(why)));
    assert_eq!(rt; (o.keeps, o.writes), (0, 0));
    assert_eq!(rt; (sender.numbers.expected, sender.stage.len()), (4, 2));
    Ok(())
}

// The same, and the turn is settled.
fn reject_and_settle<O: Outside>(
    alloc: Global,
    o: &mut O,
    context: &Context,
) -> Result<Sender, Fail>
    requires valid { IsValidIdentity context.now.identity }
    requires opens { (O.seen o.old).open_at ≡ Some 1 }
{
    let (mut sender, end) = reject_and_close(alloc, o, context)?;
    match end {
        Ok(()) => return Err(OutOfMemory.into()),
        Err(Ending::Closed(_)) => {}
        Err(_) => return Err(OutOfMemory.into()),
    }
    match settle(o, context, &mut sender) {
        Ok(()) => Ok(sender),
        Err(_) => Err(OutOfMemory.into()),
    }
}

#[test]
fn a_reject_and_a_logout_are_one_record_and_two_writes(rt: HostRuntime) -> Result<(), Fail> {
    let alloc = rt.alloc();
    let context = sample_context(alloc)?;
    let mut o = quiet_outside(alloc);
    let _sender = reject_and_settle(alloc, &mut o, &context)?;
    assert_eq!(rt; (o.last, o.keeps, o.expect, o.writes), (3, 1, 4, 2));
    assert!(rt; o.written.as_slice().starts_with(REJECT));
    assert!(rt; o.written.as_slice().ends_with(LOGOUT));
    assert_eq!(rt; o.written.len(), REJECT.len() + LOGOUT.len());
    Ok(())
}

// A Logon with ResetSeqNumFlag (141) = Y is answered: the numbers begin anew, and the Logon that answers takes number 1.
fn reset_and_logon<O: Outside>(alloc: Global, o: &mut O, context: &Context) -> Result<Sender, Fail>
    requires valid { IsValidIdentity context.now.identity }
    requires opens { (O.seen o.old).open_at ≡ Some 1 }
{
    let mut sender = sample_sender(alloc);
    let decision = Decision {
        first: Step::Reset,
        second: Step::Send(Say::Logon {
            heart: 30,
            reset: true,
            version: None,
        }),
        third: Step::Expect(2),
        fourth: Step::Nothing,
    };
    match carry_out(o, context, &mut sender, &Source::Other, &decision) {
        Ok(()) => Ok(sender),
        Err(_) => Err(OutOfMemory.into()),
    }
}

#[test]
fn after_a_reset_the_first_number_is_taken(rt: HostRuntime) -> Result<(), Fail> {
    let alloc = rt.alloc();
    let context = sample_context(alloc)?;
    let mut o = quiet_outside(alloc);
    let sender = reset_and_logon(alloc, &mut o, &context)?;
    assert_eq!(rt; (o.last, o.keeps, o.writes), (0, 1, 0));
    assert_eq!(rt;
        (
            sender.numbers.expected,
            sender.numbers.stored_expected,
            sender.numbers.last,
            sender.stage.len()
        ),
        (2, 1, 0, 1)
    );
    Ok(())
}

// The Logon that answers a reset which was asked for is counted; a message that came too early waits.
fn confirm_and_wait<O: Outside>(alloc: Global, o: &mut O, context: &Context) -> Result<Sender, Fail>
    requires valid { IsValidIdentity context.now.identity }
    requires opens { (O.seen o.old).open_at ≡ Some 1 }
{
    let mut sender = sample_sender(alloc);
    let decision = Decision {
        first: Step::Confirm,
        second: Step::Expect(4),
        third: Step::Stash,
        fourth: Step::Nothing,
    };
    match carry_out(o, context, &mut sender, &Source::Other, &decision) {
        Ok(()) => Ok(sender),
        Err(_) => Err(OutOfMemory.into()),
    }
}

#[test]
fn a_reset_that_was_answered_is_kept(rt: HostRuntime) -> Result<(), Fail> {
    let alloc = rt.alloc();
    let context = sample_context(alloc)?;
    let mut o = quiet_outside(alloc);
    let sender = confirm_and_wait(alloc, &mut o, &context)?;
    assert_eq!(rt; (o.last, o.keeps, o.writes), (1, 1, 0));
    assert_eq!(rt;
        (sender.numbers.expected, sender.numbers.stored_expected),
        (4, 1)
    );
    Ok(())
}

// A ResendRequest for all messages: it is counted, and then served.
fn count_and_serve<O: Outside>(alloc: Global, o: &mut O, context: &Context) -> Result<Sender, Fail>
    requires valid { IsValidIdentity context.now.identity }
    requires opens { (O.seen o.old).open_at ≡ Some 1 }
{
    let mut sender = sample_sender(alloc);
    let decision = Decision {
        first: Step::Expect(4),
        second: Step::Serve { from: 1, to: 0 },
        third: Step::Nothing,
        fourth: Step::Nothing,
    };
    match carry_out(o, context, &mut sender, &Source::Other, &decision) {
        Ok(()) => Ok(sender),
        Err(_) => Err(OutOfMemory.into()),
    }
}

#[test]
fn a_request_is_counted_and_served(rt: HostRuntime) -> Result<(), Fail> {
    let alloc = rt.alloc();
    let context = sample_context(alloc)?;
    let mut o = quiet_outside(alloc);
    let sender = count_and_serve(alloc, &mut o, &context)?;
    assert_eq!(rt; (o.last, o.keeps, o.writes), (1, 0, 1));
    assert!(rt; o.written.as_slice() == GAP_FILL);
    assert_eq!(rt; (sender.numbers.expected, sender.numbers.last), (4, 1));
    Ok(())
}
