//! That with memory and no fault messages go out: the texts are those that FIX asks for, made by hand.
ghost use Rattle.std.specs.Prelude.{◌≡◌, IfOk, Some, None, [], false};
ghost use Rattle.fix_base.specs.Session.{IsValidIdentity};
ghost use Rattle.fix_outside.specs.Outside.{HasPlace, last_behind};

use crate::{
    Context, Numbers, PendingDraft, Sender, Stage, flush, settle, stage_draft, stage_pending,
};
use fix_base::{Begin, Bytes, Identity, OutOfMemory, Record, SeqNum, Stored, Tag, is_comp_id};
use fix_fields::{Draft, DraftFields};
use fix_outside::{
    Again, FetchFault, Handed, KeepFault, Kind, LoadFault, Outside, ReadTurn, Said, WriteTurn,
};
use std::alloc::Global;
use std::test::Fail;

// An order whose ClOrdID (11) is A1, under numbers 2 and 3.
const SECOND_OUT: &[u8] =
    b"8=FIX.4.2\x019=56\x0135=D\x0134=2\x0149=SELL\x0152=20240102-10:00:00.000\x0156=BUY\x0111=A1\x0110=248\x01";

const THIRD_OUT: &[u8] =
    b"8=FIX.4.2\x019=56\x0135=D\x0134=3\x0149=SELL\x0152=20240102-10:00:00.000\x0156=BUY\x0111=A1\x0110=249\x01";

// 2024-01-02 10:00:00, in microseconds since 1970.
const TIME: u64 = 1_704_189_600_000_000;

// An outside that tells nothing but how many entries its store has. It counts what it keeps and writes, and
// has the bytes that were written.
#[derive(Drop)]
struct Quiet {
    last: u32,
    keeps: u64,
    expect: u32,
    writes: u64,
    written: Vec<u8>,
}

// How many entries a store has after this record, of which it had so many before.
pub fn entries_after(kept: &Record, last: u32) -> u32
    requires { HasPlace kept.now (Some last) }
    ensures { result ≡ last_behind kept.now last }
{
    match kept {
        Record::Push(_) => last + 1,
        Record::Expect(_) => last,
        Record::Many { pushes, .. } => last + pushes.as_slice().len() as u32,
        Record::Withhold(_) => last,
        Record::Reset(_) => 0,
        Record::ResetAsk(_) => 0,
        Record::Confirm => last,
    }
}

// The number that a record of several expects, or 0.
fn expects(kept: &Record) -> u32 {
    match kept {
        Record::Push(_) => 0,
        Record::Expect(number) => *number,
        Record::Many { expect, .. } => *expect,
        Record::Withhold(_) => 0,
        Record::Reset(_) => 0,
        Record::ResetAsk(_) => 0,
        Record::Confirm => 0,
    }
}

impl Outside for Quiet {
    ghost seen = { λ s.
        record {
          tape = None;
          Holds = λ e. ⊥;
          open_at = Some s.last;
          Tells = ⊥;
          Breaks = λ place. ⊥;
          faults = record { store = 0; link = 0; app = 0 };
          parts = record {
            to_come = None;
            readings = None;
            written = None;
            link_room = None;
            lines = None;
            line_room = None;
            asked = None;
            to_ask = None;
            store_room = None;
          };
        } };

    fn now(&mut self) -> Result<u64, OutOfMemory> {
        Ok(TIME)
    }

    fn load(&mut self) -> Result<Stored, LoadFault> {
        self.last = 0;
        Ok(Stored {
            last: 0,
            expected: 1,
            since: None,
            asked: false,
        })
    }

    fn mark(&mut self, _cut: bool) -> Result<(), OutOfMemory> {
        Ok(())
    }

    fn read(&mut self, _room: &mut [u8]) -> ReadTurn {
        ReadTurn::Idle
    }

    fn write(&mut self, bytes: &[u8]) -> WriteTurn {
        match self.written.extend_from_slice(bytes) {
            Ok(()) => {
                self.writes = self.writes.saturating_add(1);
                WriteTurn::Done
            }
            Err(_) => WriteTurn::OutOfMemory,
        }
    }

    fn keep(&mut self, kept: &Record) -> Result<(), KeepFault> {
        self.last = entries_after(kept, self.last);
        self.keeps = self.keeps.saturating_add(1);
        self.expect = expects(kept);
        Ok(())
    }

    fn fetch(&mut self, _n: SeqNum, _into: &mut Vec<u8>) -> Result<Kind, FetchFault> {
        Err(FetchFault::OutOfMemory)
    }

    fn hand(&mut self, _h: &Handed<'_>) -> Said {
        Said::OutOfMemory
    }

    fn again(&mut self, _n: SeqNum, _kind: &[u8], _body: &[u8]) -> Again {
        Again::OutOfMemory
    }

    fn ask(&mut self) -> Option<Draft> {
        None
    }
}

fn quiet_outside(alloc: Global) -> Quiet
    ensures { result.last ≡ 1 }
{
    Quiet {
        last: 1,
        keeps: 0,
        expect: 0,
        writes: 0,
        written: Vec::new(alloc),
    }
}

fn order(alloc: Global) -> Result<Draft, Fail> {
    let Some(cl_ord_id) = Tag::new(11) else {
        return Err(OutOfMemory.into());
    };
    let mut fields = DraftFields::new(alloc);
    match fields.push(cl_ord_id, b"A1") {
        Ok(()) => {}
        Err(_) => return Err(OutOfMemory.into()),
    }
    match Draft::new(alloc, b"D", &fields) {
        Ok(draft) => Ok(draft),
        Err(_) => Err(OutOfMemory.into()),
    }
}

pub fn sample_context(alloc: Global) -> Result<Context, Fail>
    ensures { IfOk result (λ context. IsValidIdentity context.identity) }
{
    let sender = Bytes::copy(alloc, b"SELL")?;
    let target = Bytes::copy(alloc, b"BUY")?;
    if !is_comp_id(sender.as_slice()) {
        return Err(OutOfMemory.into());
    }
    if !is_comp_id(target.as_slice()) {
        return Err(OutOfMemory.into());
    }
    Ok(Context {
        alloc,
        identity: Identity {
            begin: Begin::Fix42,
            sender,
            target,
        },
    })
}

// A session that has kept one entry and expects number 3, and has this draft in hand.
pub fn sample_sender(alloc: Global, draft: Option<Draft>) -> Sender
    ensures { result ≡ record {
      numbers = record { expected = 3; stored_expected = 1; last = 1; reading = 1704189600000000 };
      stage = record { entries = []; frames = [] };
      pending = record { draft = draft; staged = false; store_failed = false };
    } }
{
    Sender {
        numbers: Numbers {
            expected: 3,
            stored_expected: 1,
            last: 1,
            reading: TIME,
        },
        stage: Stage::new(alloc),
        pending: PendingDraft {
            draft,
            staged: false,
            store_failed: false,
        },
    }
}

// The draft in hand and one that the application posts go out, and the expected number is kept with them.
fn two_orders<O: Outside>(alloc: Global, o: &mut O, context: &Context) -> Result<Sender, Fail>
    requires valid { IsValidIdentity context.now.identity }
    requires opens { (O.seen o.old).open_at ≡ Some 1 }
{
    let mut sender = sample_sender(alloc, Some(order(alloc)?));
    let second = order(alloc)?;
    match stage_pending(o, context, &mut sender) {
        Ok(()) => {}
        Err(_) => return Err(OutOfMemory.into()),
    }
    match stage_draft(o, context, &mut sender, &second, true) {
        Ok(()) => {}
        Err(_) => return Err(OutOfMemory.into()),
    }
    match settle(o, context, &mut sender) {
        Ok(()) => Ok(sender),
        Err(_) => Err(OutOfMemory.into()),
    }
}

#[test]
fn two_orders_are_one_record_and_two_writes(rt: HostRuntime) -> Result<(), Fail> {
    let alloc = rt.alloc();
    let context = sample_context(alloc)?;
    let mut o = quiet_outside(alloc);
    let sender = two_orders(alloc, &mut o, &context)?;
    assert_eq!(rt; (o.last, o.keeps, o.expect, o.writes), (3, 1, 3, 2));
    assert!(rt; o.written.as_slice().starts_with(SECOND_OUT));
    assert!(rt; o.written.as_slice().ends_with(THIRD_OUT));
    assert_eq!(rt; o.written.len(), SECOND_OUT.len() + THIRD_OUT.len());
    assert_eq!(rt;
        (sender.numbers.last, sender.numbers.stored_expected),
        (3, 3)
    );
    assert!(rt; sender.pending.draft.is_none());
    Ok(())
}

// A message of a session that isn't up is kept, and not written.
fn one_unwritten<O: Outside>(alloc: Global, o: &mut O, context: &Context) -> Result<Sender, Fail>
    requires valid { IsValidIdentity context.now.identity }
    requires opens { (O.seen o.old).open_at ≡ Some 1 }
{
    let mut sender = sample_sender(alloc, None);
    let draft = order(alloc)?;
    match stage_draft(o, context, &mut sender, &draft, false) {
        Ok(()) => {}
        Err(_) => return Err(OutOfMemory.into()),
    }
    match flush(o, context, &mut sender, 0) {
        Ok(()) => Ok(sender),
        Err(_) => Err(OutOfMemory.into()),
    }
}

#[test]
fn an_unwritten_order_is_one_record_and_no_write(rt: HostRuntime) -> Result<(), Fail> {
    let alloc = rt.alloc();
    let context = sample_context(alloc)?;
    let mut o = quiet_outside(alloc);
    let sender = one_unwritten(alloc, &mut o, &context)?;
    assert_eq!(rt; (o.last, o.keeps, o.expect, o.writes), (2, 1, 0, 0));
    assert_eq!(rt;
        (sender.numbers.last, sender.numbers.stored_expected),
        (2, 1)
    );
    Ok(())
}
