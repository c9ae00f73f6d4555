//! That with memory and no fault a ResendRequest is served: the texts are those that FIX asks for, made by hand.
ghost use Rattle.std.specs.Prelude.{◌≡◌, ◌≤◌, Some, None, [], false, IsTrue, IfOk, OnOk};
ghost use Rattle.fix_base.specs.Session.{IsValidIdentity};
ghost use Rattle.fix_base.specs.Payload.{IsAppPayload};
ghost use Rattle.fix_stage.specs.Sender.{IsInRange};

use crate::tests::{entries_after, sample_context, sample_sender};
use crate::{Context, Sender, serve};
use fix_base::{OutOfMemory, Record, SeqNum, Stored};
use fix_fields::{Draft, is_entry_body};
use fix_outside::{
    Again, FetchFault, Handed, KeepFault, Kind, LoadFault, Outside, ReadTurn, Said, WriteTurn,
};
use std::alloc::Global;
use std::test::Fail;

// A gap fill over number 1.
const GAP_1_TO_2: &[u8] =
    b"8=FIX.4.2\x019=92\x0135=4\x0134=1\x0143=Y\x0149=SELL\x0152=20240102-10:00:00.000\x0156=BUY\x01122=20240102-10:00:00.000\x0136=2\x01123=Y\x0110=183\x01";

// Order A1 again, under its number 2.
const ORDER_AGAIN: &[u8] =
    b"8=FIX.4.2\x019=87\x0135=D\x0134=2\x0143=Y\x0149=SELL\x0152=20240102-10:00:00.000\x0156=BUY\x01122=20240102-09:59:00.000\x0111=A1\x0110=238\x01";

const GAP_3_TO_5: &[u8] =
    b"8=FIX.4.2\x019=92\x0135=4\x0134=3\x0143=Y\x0149=SELL\x0152=20240102-10:00:00.000\x0156=BUY\x01122=20240102-10:00:00.000\x0136=5\x01123=Y\x0110=188\x01";

const GAP_1_TO_3: &[u8] =
    b"8=FIX.4.2\x019=92\x0135=4\x0134=1\x0143=Y\x0149=SELL\x0152=20240102-10:00:00.000\x0156=BUY\x01122=20240102-10:00:00.000\x0136=3\x01123=Y\x0110=184\x01";

// Report X1 again, under its number 3.
const REPORT_AGAIN: &[u8] =
    b"8=FIX.4.2\x019=87\x0135=8\x0134=3\x0143=Y\x0149=SELL\x0152=20240102-10:00:00.000\x0156=BUY\x01122=20240102-09:59:00.000\x0137=X1\x0110=002\x01";

const GAP_4_TO_5: &[u8] =
    b"8=FIX.4.2\x019=92\x0135=4\x0134=4\x0143=Y\x0149=SELL\x0152=20240102-10:00:00.000\x0156=BUY\x01122=20240102-10:00:00.000\x0136=5\x01123=Y\x0110=189\x01";

// 2024-01-02 09:59:00, in microseconds since 1970: when each message was sent first.
const FIRST_TIME: u64 = 1_704_189_540_000_000;

const ORDER: &[u8] = b"35=D\x0111=A1\x01";

const REPORT: &[u8] = b"35=8\x0137=X1\x01";

// What an entry of the store is.
#[derive(Clone, Copy, Debug, PartialEq, Eq)]
enum Held {
    Admin,
    Order,
    Report,
    Withheld,
}

// An outside that tells nothing but how many entries its store has. Its application withholds what `withholds` says.
#[derive(Drop)]
struct Shelf {
    last: u32,
    entries: Vec<Held>,
    withholds: bool,
    asked: u64,
    keeps: u64,
    writes: u64,
    written: Vec<u8>,
}

// The body that an entry has, if it has one.
fn body_of(held: Held) -> &'static [u8] {
    match held {
        Held::Admin => b"",
        Held::Order => ORDER,
        Held::Report => REPORT,
        Held::Withheld => b"",
    }
}

// The body is that of a message that may be kept.
fn is_sent_body(body: &[u8]) -> bool
    ensures { IsTrue result → IsAppPayload 1704189540000000 body.now }
{
    if body.len() > 100 {
        return false;
    }
    is_entry_body(body)
}

// Puts the body of a message that may be kept into the place of what was there.
fn put_body(body: &[u8], into: &mut Vec<u8>) -> Result<(), OutOfMemory>
    ensures { OnOk result (IsAppPayload 1704189540000000 into.new.items) }
{
    if !is_sent_body(body) {
        return Err(OutOfMemory);
    }
    into.clear();
    into.extend_from_slice(body)?;
    Ok(())
}

// The number is withheld.
fn mark_withheld(entries: &mut Vec<Held>, number: u32) {
    let place = number as usize;
    if place >= 1 && place <= entries.len() {
        entries[place - 1] = Held::Withheld;
    }
}

impl Outside for Shelf {
    ghost seen = { λ s.
        record {
          tape = None;
          Holds = λ e. ⊥;
          open_at = Some s.last;
          Tells = ⊥;
          Breaks = λ place. ⊥;
          faults = record { store = 0; link = 0; app = 0 };
          parts = record {
            to_come = None;
            readings = None;
            written = None;
            link_room = None;
            lines = None;
            line_room = None;
            asked = None;
            to_ask = None;
            store_room = None;
          };
        } };

    fn now(&mut self) -> Result<u64, OutOfMemory> {
        Ok(FIRST_TIME)
    }

    fn load(&mut self) -> Result<Stored, LoadFault> {
        self.last = 0;
        Ok(Stored {
            last: 0,
            expected: 1,
            since: None,
            asked: false,
        })
    }

    fn mark(&mut self, _cut: bool) -> Result<(), OutOfMemory> {
        Ok(())
    }

    fn read(&mut self, _room: &mut [u8]) -> ReadTurn {
        ReadTurn::Idle
    }

    fn write(&mut self, bytes: &[u8]) -> WriteTurn {
        match self.written.extend_from_slice(bytes) {
            Ok(()) => {
                self.writes = self.writes.saturating_add(1);
                WriteTurn::Done
            }
            Err(_) => WriteTurn::OutOfMemory,
        }
    }

    fn keep(&mut self, kept: &Record) -> Result<(), KeepFault> {
        self.last = entries_after(kept, self.last);
        self.keeps = self.keeps.saturating_add(1);
        if let Record::Withhold(number) = kept {
            mark_withheld(&mut self.entries, *number);
        }
        Ok(())
    }

    fn fetch(&mut self, n: SeqNum, into: &mut Vec<u8>) -> Result<Kind, FetchFault> {
        let Some(held) = self.entries.get(n.get() as usize - 1) else {
            return Err(FetchFault::OutOfMemory);
        };
        if *held == Held::Admin {
            into.clear();
            return Ok(Kind::Admin);
        }
        if *held == Held::Withheld {
            into.clear();
            return Ok(Kind::Withheld);
        }
        match put_body(body_of(*held), into) {
            Ok(()) => Ok(Kind::App { time: FIRST_TIME }),
            Err(_) => Err(FetchFault::OutOfMemory),
        }
    }

    fn hand(&mut self, _h: &Handed<'_>) -> Said {
        Said::OutOfMemory
    }

    fn again(&mut self, _n: SeqNum, kind: &[u8], _body: &[u8]) -> Again {
        self.asked = self.asked.saturating_add(1);
        if self.withholds && kind == b"D".as_slice() {
            return Again::Withhold;
        }
        Again::Send
    }

    fn ask(&mut self) -> Option<Draft> {
        None
    }
}

fn new_shelf(alloc: Global, entries: &[Held], withholds: bool) -> Result<Shelf, Fail>
    ensures { IfOk result (λ shelf. shelf.last ≡ 4) }
{
    Ok(Shelf {
        last: 4,
        entries: Vec::from_slice(alloc, entries)?,
        withholds,
        asked: 0,
        keeps: 0,
        writes: 0,
        written: Vec::new(alloc),
    })
}

// A session that has kept four entries, and its last reading is a minute after they were sent.
fn session_of_four(alloc: Global) -> Sender
    ensures { result ≡ record {
      numbers = record { expected = 3; stored_expected = 3; last = 4; reading = 1704189600000000 };
      stage = record { entries = []; frames = [] };
      pending = record { draft = None; staged = false; store_failed = false };
    } }
{
    let mut sender = sample_sender(alloc, None);
    sender.numbers.last = 4;
    sender.numbers.stored_expected = 3;
    sender
}

// Serves a request.
fn request<O: Outside>(
    o: &mut O,
    context: &Context,
    sender: &Sender,
    from: u32,
    to: u32,
) -> Result<(), Fail>
    requires valid { IsValidIdentity context.now.identity }
    requires opens { (O.seen o.old).open_at ≡ Some 4 }
    requires last { sender.now.numbers.last ≡ 4 }
    requires range { IsInRange sender.now }
    requires first { 1 ≤ from }
    ensures { IfOk result (λ x. (O.seen o.new).open_at ≡ Some 4) }
{
    match serve(o, context, sender, from, to) {
        Ok(()) => Ok(()),
        Err(_) => Err(OutOfMemory.into()),
    }
}

#[test]
fn each_message_goes_again_and_runs_of_others_are_passed_over(rt: HostRuntime) -> Result<(), Fail> {
    let alloc = rt.alloc();
    let context = sample_context(alloc)?;
    let sender = session_of_four(alloc);
    let entries = [Held::Admin, Held::Order, Held::Admin, Held::Admin];
    let mut o = new_shelf(alloc, &entries, false)?;
    request(&mut o, &context, &sender, 1, 0)?;
    assert_eq!(rt; (o.asked, o.keeps, o.writes), (1, 0, 3));
    assert!(rt; o.written.as_slice().starts_with(GAP_1_TO_2));
    assert!(rt; o.written[GAP_1_TO_2.len()..].starts_with(ORDER_AGAIN));
    assert!(rt; o.written.as_slice().ends_with(GAP_3_TO_5));
    assert_eq!(rt;
        o.written.len(),
        GAP_1_TO_2.len() + ORDER_AGAIN.len() + GAP_3_TO_5.len()
    );
    Ok(())
}

#[test]
fn above_the_last_number_nothing_is_written(rt: HostRuntime) -> Result<(), Fail> {
    let alloc = rt.alloc();
    let context = sample_context(alloc)?;
    let sender = session_of_four(alloc);
    let entries = [Held::Admin, Held::Order, Held::Admin, Held::Admin];
    let mut o = new_shelf(alloc, &entries, false)?;
    request(&mut o, &context, &sender, 9, 0)?;
    assert_eq!(rt; (o.asked, o.keeps, o.writes), (0, 0, 0));
    Ok(())
}

// Orders are withheld: a gap fill passes over each once that is kept, and they aren't asked for again.
#[test]
fn withheld_orders_are_passed_over_now_and_later(rt: HostRuntime) -> Result<(), Fail> {
    let alloc = rt.alloc();
    let context = sample_context(alloc)?;
    let sender = session_of_four(alloc);
    let entries = [Held::Admin, Held::Order, Held::Report, Held::Order];
    let mut o = new_shelf(alloc, &entries, true)?;
    request(&mut o, &context, &sender, 1, 0)?;
    assert_eq!(rt; (o.asked, o.keeps, o.writes), (3, 2, 3));
    assert!(rt; o.written.as_slice().starts_with(GAP_1_TO_3));
    assert!(rt; o.written[GAP_1_TO_3.len()..].starts_with(REPORT_AGAIN));
    assert!(rt; o.written.as_slice().ends_with(GAP_4_TO_5));
    let once = o.written.len();
    assert_eq!(rt;
        once,
        GAP_1_TO_3.len() + REPORT_AGAIN.len() + GAP_4_TO_5.len()
    );
    request(&mut o, &context, &sender, 1, 0)?;
    assert_eq!(rt; (o.asked, o.keeps, o.writes), (4, 2, 6));
    assert_eq!(rt; o.written.len(), once + once);
    assert!(rt; o.written.as_slice().ends_with(GAP_4_TO_5));
    Ok(())
}
