//! What becomes of a draft over several turns, also where the store or the connection fails in between. Also
//! that a Logon isn't answered where every number is used.
ghost use Rattle.std.specs.Prelude.{◌≡◌, ◌≢◌, IfNone, IfOk, OnOk, if◌then◌else◌, Some, None};
ghost use Rattle.fix_engine.specs.Run.{IsDownUnlessSpent};
ghost use Rattle.fix_engine.specs.Faults.{stop_cause, send_stop};
ghost use Rattle.fix_engine.specs.InStep.{IsInStepSinceSome};

use super::*;
use crate::words::{identity_from, read_words};
use fix_base::{Act, By, Bytes, Entry, OutOfMemory, Record, SeqNum, Status, Stored, Tag};
use fix_disk::MemoryDisk;
use fix_engine::{
    FetchFault, KeepFault, Kind, LoadFault, Outside, Phase, RunEnd, SendFault, Session, StopCause,
};
use fix_fields::{Draft, DraftFields};
use fix_outside::Again;
use fix_parts::{Handed, KeptTape, MemoryApp, MemoryClock, MemoryLink, ReadTurn, Said, WriteTurn};
use fix_rim::Rim;
use std::alloc::Global;
use std::test::Fail;

const LOGON: &[u8] =
    b"8=FIX.4.2\x019=58\x0135=A\x0134=1\x0149=BUY\x0152=20240102-10:00:00\x0156=SELL\x0198=0\x01108=30\x0110=063\x01";

// The Logon of a second connection.
const SECOND_LOGON: &[u8] =
    b"8=FIX.4.2\x019=58\x0135=A\x0134=2\x0149=BUY\x0152=20240102-10:00:00\x0156=SELL\x0198=0\x01108=30\x0110=064\x01";

const LOGON_ANSWER: &[u8] =
    b"8=FIX.4.2\x019=62\x0135=A\x0134=1\x0149=SELL\x0152=20240102-10:00:00.000\x0156=BUY\x0198=0\x01108=30\x0110=248\x01";

// The order of the application, as it goes out under number 2.
const ORDER_OUT: &[u8] =
    b"8=FIX.4.2\x019=56\x0135=D\x0134=2\x0149=SELL\x0152=20240102-10:00:00.000\x0156=BUY\x0111=A1\x0110=248\x01";

// And under number 3.
const THIRD_OUT: &[u8] =
    b"8=FIX.4.2\x019=56\x0135=D\x0134=3\x0149=SELL\x0152=20240102-10:00:00.000\x0156=BUY\x0111=A1\x0110=249\x01";

const BODY: &[u8] = b"35=D\x0111=A1\x01";

// 2024-01-02 10:00:00, in microseconds since 1970.
const TIME: u64 = 1_704_189_600_000_000;

type Asked = Rim<MemoryDisk, MemoryLink, MemoryApp, MemoryClock, KeptTape>;

// An order whose ClOrdID (11) is A1.
fn order(alloc: Global) -> Result<Draft, Fail> {
    let Some(cl_ord_id) = Tag::new(11) else {
        return Err(OutOfMemory.into());
    };
    let mut fields = DraftFields::new(alloc);
    match fields.push(cl_ord_id, b"A1") {
        Ok(()) => {}
        Err(_) => return Err(OutOfMemory.into()),
    }
    match Draft::new(alloc, b"D", &fields) {
        Ok(draft) => Ok(draft),
        Err(_) => Err(OutOfMemory.into()),
    }
}

// An outside whose connection gives these pieces, and whose application gives one order where it is
// asked first. These calls of the disk and of the connection fail; 0 is none.
fn outside(alloc: Global, texts: &[&[u8]], disk: u64, link: u64) -> Result<Asked, Fail> {
    let mut pieces = Vec::new(alloc);
    for text in texts {
        pieces.push(Bytes::copy(alloc, text)?)?;
    }
    let mut drafts = Vec::new(alloc);
    drafts.push(Some(order(alloc)?))?;
    let mut readings = Vec::new(alloc);
    readings.push(TIME)?;
    Ok(Rim::new(
        alloc,
        MemoryDisk::new(alloc, 1000, 0, vec![in alloc; disk]?, None)?,
        Some(MemoryLink::new(alloc, pieces, 1000, vec![in alloc; link]?)?),
        MemoryApp::new(alloc, drafts, 10, Vec::new(alloc))?,
        MemoryClock::new(readings),
        KeptTape::new(alloc),
    ))
}

// The calls of a session, with what these tests need to know of them.

// A session that was opened, on a connection.
fn connected<O: Outside>(alloc: Global, o: &mut O) -> Result<Session, Fail>
    ensures goes { IfOk result (λ session. session.stopped ≡ None) }
    ensures up { IfOk result (λ session. session.connection.state.phase ≢ Phase.Down) }
    ensures stands { IfOk result (IsInStepSinceSome (O.seen o.new)) }
{
    let Some(named) = read_words(&["--stdio", "FIX.4.2", "SELL", "BUY"]) else {
        return Err(OutOfMemory.into());
    };
    let identity = identity_from(alloc, &named)?;
    let mut session = match Session::open(alloc, o, identity) {
        Ok(session) => session,
        Err(_) => return Err(OutOfMemory.into()),
    };
    match session.begin(o) {
        Ok(()) => Ok(session),
        Err(_) => Err(OutOfMemory.into()),
    }
}

fn begin<O: Outside>(session: &mut Session, o: &mut O) -> Result<(), Fail>
    requires goes { session.old.stopped ≡ None }
    requires down { session.old.connection.state.phase ≡ Phase.Down }
    requires stands { IsInStepSinceSome (O.seen o.old) session.old }
    ensures goes { OnOk result (session.new.stopped ≡ None) }
    ensures up { OnOk result (session.new.connection.state.phase ≢ Phase.Down) }
    ensures stands { OnOk result (IsInStepSinceSome (O.seen o.new) session.new) }
{
    match session.begin(o) {
        Ok(()) => Ok(()),
        Err(_) => Err(OutOfMemory.into()),
    }
}

fn run<O: Outside>(session: &mut Session, o: &mut O, turns: u64) -> RunEnd
    requires goes { session.old.stopped ≡ None }
    requires up { session.old.connection.state.phase ≢ Phase.Down }
    requires stands { IsInStepSinceSome (O.seen o.old) session.old }
    ensures stops { session.new.stopped ≡ stop_cause result }
    ensures phase { IsDownUnlessSpent result session.old.connection.state.phase session.new.connection.state.phase }
    ensures stands { IfNone session.new.stopped (IsInStepSinceSome (O.seen o.new) session.new) }
{
    session.run_turns(o, turns)
}

fn run_stopped<O: Outside>(session: &mut Session, o: &mut O) -> RunEnd
    requires stopped { session.old.stopped ≡ Some StopCause.StoreFault }
    ensures stopped { session.new.stopped ≡ Some StopCause.StoreFault }
{
    session.run_turns(o, 1)
}

fn send<O: Outside>(session: &mut Session, o: &mut O, draft: &Draft) -> Result<SeqNum, SendFault>
    requires goes { session.old.stopped ≡ None }
    requires stands { IsInStepSinceSome (O.seen o.old) session.old }
    ensures stops { session.new.stopped ≡ send_stop result }
{
    session.send(o, draft)
}

fn reopen<O: Outside>(session: &mut Session, o: &mut O) -> Result<(), Fail>
    requires stopped { session.old.stopped ≡ Some StopCause.StoreFault }
    ensures goes { OnOk result (session.new.stopped ≡ None) }
    ensures down { OnOk result (session.new.connection.state.phase ≡ Phase.Down) }
    ensures stands { OnOk result (IsInStepSinceSome (O.seen o.new) session.new) }
{
    match session.reopen(o) {
        Ok(()) => Ok(()),
        Err(_) => Err(OutOfMemory.into()),
    }
}

// A session whose first turn answered the Logon of its connection.
fn begun<O: Outside>(alloc: Global, o: &mut O) -> Result<Session, Fail>
    ensures goes { IfOk result (λ session. session.stopped ≡ None) }
    ensures up { IfOk result (λ session. session.connection.state.phase ≢ Phase.Down) }
    ensures stands { IfOk result (IsInStepSinceSome (O.seen o.new)) }
{
    let mut session = connected(alloc, o)?;
    match run(&mut session, o, 1) {
        RunEnd::TurnsSpent => Ok(session),
        _ => Err(OutOfMemory.into()),
    }
}

// Whether the act keeps the order, as the application gave it at 2024-01-02 10:00:00.
fn keeps_order(alloc: Global, act: &Act) -> Result<bool, Fail> {
    let kept = Act::Kept(Record::Push(Entry::App {
        time: TIME,
        by: By::Caller,
        body: Bytes::copy(alloc, BODY)?,
    }));
    Ok(*act == kept)
}

// How often the order was kept.
fn times_kept(alloc: Global, o: &Asked) -> Result<u64, Fail> {
    let mut times: u64 = 0;
    for act in o.tape().acts() {
        if keeps_order(alloc, act)? {
            times = times.saturating_add(1);
        }
    }
    Ok(times)
}

fn written(o: &Asked) -> &[u8] {
    match o.link() {
        Some(link) => link.written(),
        None => b"",
    }
}

// Two turns after the Logon.
fn two_turns<O: Outside>(alloc: Global, o: &mut O) -> Result<Session, Fail> {
    let mut session = begun(alloc, o)?;
    match run(&mut session, o, 2) {
        RunEnd::TurnsSpent => Ok(session),
        _ => Err(OutOfMemory.into()),
    }
}

#[test]
fn a_draft_goes_out_in_the_next_turn(rt: HostRuntime) -> Result<(), Fail> {
    let alloc = rt.alloc();
    let mut o = outside(alloc, &[LOGON, b"", b""], 0, 0)?;
    let session = two_turns(alloc, &mut o)?;
    let mut expected = Bytes::copy(alloc, LOGON_ANSWER)?.into_vec();
    expected.extend_from_slice(ORDER_OUT)?;
    assert!(rt; written(&o) == expected.as_slice());
    assert_eq!(rt; o.app().asked().len(), 1);
    assert!(rt; !session.pending_draft());
    assert_eq!(rt; session.last(), 2);
    // The order is kept and written, and then the link is read.
    match o.tape().acts() {
        [
            ..,
            kept,
            Act::Wrote(_),
            Act::Idle,
            Act::Now(_),
            Act::Idle,
            Act::Now(_),
        ] => { assert!(rt; keeps_order(alloc, kept)?) }
        _ => assert!(rt; false),
    }
    Ok(())
}

// The store fails in the turn after the Logon. It is opened again, and a second connection served:
// whether the order was stored before that, and the session then.
fn stored_again<O: Outside>(alloc: Global, o: &mut O) -> Result<(bool, Session), Fail> {
    let mut session = begun(alloc, o)?;
    match run(&mut session, o, 1) {
        RunEnd::StoreFault => {}
        _ => return Err(OutOfMemory.into()),
    }
    match run_stopped(&mut session, o) {
        RunEnd::Stopped(StopCause::StoreFault) => {}
        _ => return Err(OutOfMemory.into()),
    }
    reopen(&mut session, o)?;
    let stored = session.last() == 2;
    if session.pending_draft() == stored {
        return Err(OutOfMemory.into());
    }
    begin(&mut session, o)?;
    match run(&mut session, o, 3) {
        RunEnd::TurnsSpent => Ok((stored, session)),
        _ => Err(OutOfMemory.into()),
    }
}

#[test]
fn a_draft_that_the_store_failed_at_is_stored_once(rt: HostRuntime) -> Result<(), Fail> {
    let alloc = rt.alloc();
    let mut found: u64 = 0;
    // The opening makes twelve calls of the disk; the answer to the Logon, the expected number and
    // the order four each.
    for disk in 21..=24 {
        let mut o = outside(alloc, &[LOGON, SECOND_LOGON, b"", b""], disk, 0)?;
        let (stored, session) = stored_again(alloc, &mut o)?;
        assert!(rt; !session.pending_draft());
        assert_eq!(rt; session.last(), 3);
        assert_eq!(rt; times_kept(alloc, &o)?, if stored { 0 } else { 1 });
        assert_eq!(rt; written(&o).ends_with(THIRD_OUT), !stored);
        assert_eq!(rt; o.app().asked().len(), 1);
        found = found.saturating_add(u64::from(stored));
    }
    // Both come.
    assert!(rt; 0 < found && found < 4);
    Ok(())
}

// The connection fails in the turn after the Logon, and a second one is served.
fn connected_again<O: Outside>(alloc: Global, o: &mut O) -> Result<Session, Fail> {
    let mut session = begun(alloc, o)?;
    match run(&mut session, o, 1) {
        RunEnd::LinkFault => {}
        _ => return Err(OutOfMemory.into()),
    }
    if session.pending_draft() || session.last() != 2 {
        return Err(OutOfMemory.into());
    }
    begin(&mut session, o)?;
    match run(&mut session, o, 2) {
        RunEnd::TurnsSpent => Ok(session),
        _ => Err(OutOfMemory.into()),
    }
}

#[test]
fn a_draft_that_the_connection_lost_is_not_sent_again(rt: HostRuntime) -> Result<(), Fail> {
    let alloc = rt.alloc();
    // The third call of the connection writes the order.
    let mut o = outside(alloc, &[LOGON, SECOND_LOGON, b""], 0, 3)?;
    let session = connected_again(alloc, &mut o)?;
    assert_eq!(rt; session.last(), 3);
    assert_eq!(rt; times_kept(alloc, &o)?, 1);
    assert_eq!(rt; o.app().asked().len(), 1);
    Ok(())
}

// The store fails at the sending of a draft, and is opened again: its last number then.
fn sent_again<O: Outside>(alloc: Global, o: &mut O) -> Result<u32, Fail> {
    let draft = order(alloc)?;
    let mut session = begun(alloc, o)?;
    match send(&mut session, o, &draft) {
        Err(SendFault::StoreFault) => {}
        _ => return Err(OutOfMemory.into()),
    }
    match run_stopped(&mut session, o) {
        RunEnd::Stopped(StopCause::StoreFault) => {}
        _ => return Err(OutOfMemory.into()),
    }
    reopen(&mut session, o)?;
    Ok(session.last())
}

#[test]
fn a_send_that_the_store_failed_at_is_stored_or_not(rt: HostRuntime) -> Result<(), Fail> {
    let alloc = rt.alloc();
    let mut found: u64 = 0;
    for disk in 21..=24 {
        let mut o = outside(alloc, &[LOGON], disk, 0)?;
        let last = sent_again(alloc, &mut o)?;
        assert!(rt; last == 1 || last == 2);
        assert!(rt; written(&o) == LOGON_ANSWER);
        found = found.saturating_add(u64::from(last == 2));
    }
    assert!(rt; 0 < found && found < 4);
    Ok(())
}

// An outside whose store has used every number, and tells no end. Its connection gives a Logon, and
// it counts the bytes that it is given to write, and what it is given to keep.
#[derive(Drop)]
struct Full {
    loaded: bool,
    at: usize,
    kept: u64,
}

impl Outside for Full {
    ghost seen = { λ s.
        record {
          tape = None;
          Holds = λ e. ⊥;
          open_at = if s.loaded then Some 999999999 else None;
          Tells = ⊥;
          Breaks = λ place. ⊥;
          faults = record { store = 0; link = 0; app = 0 };
          parts = record {
            to_come = None;
            readings = None;
            written = None;
            link_room = None;
            lines = None;
            line_room = None;
            asked = None;
            to_ask = None;
            store_room = None;
          };
        } };

    fn now(&mut self) -> Result<u64, OutOfMemory> {
        Ok(TIME)
    }

    fn load(&mut self) -> Result<Stored, LoadFault> {
        self.loaded = true;
        Ok(Stored {
            last: 999_999_999,
            expected: 1,
            since: None,
            asked: false,
        })
    }

    fn mark(&mut self, _cut: bool) -> Result<(), OutOfMemory> {
        Ok(())
    }

    fn read(&mut self, room: &mut [u8]) -> ReadTurn {
        match LOGON.get(self.at) {
            Some(byte) => {
                room[0] = *byte;
                self.at += 1;
                ReadTurn::Bytes(1)
            }
            None => ReadTurn::Idle,
        }
    }

    fn write(&mut self, bytes: &[u8]) -> WriteTurn {
        self.kept = self.kept.saturating_add(1);
        WriteTurn::OutOfMemory
    }

    fn keep(&mut self, _kept: &Record) -> Result<(), KeepFault> {
        self.kept = self.kept.saturating_add(1);
        Err(KeepFault::OutOfMemory)
    }

    fn fetch(&mut self, _n: SeqNum, _into: &mut Vec<u8>) -> Result<Kind, FetchFault> {
        Err(FetchFault::OutOfMemory)
    }

    fn hand(&mut self, _h: &Handed<'_>) -> Said {
        Said::OutOfMemory
    }

    fn again(&mut self, _n: SeqNum, _kind: &[u8], _body: &[u8]) -> Again {
        Again::OutOfMemory
    }

    fn ask(&mut self) -> Option<Draft> {
        None
    }
}

#[test]
fn a_logon_is_not_answered_without_a_number(rt: HostRuntime) -> Result<(), Fail> {
    let mut o = Full {
        loaded: false,
        at: 0,
        kept: 0,
    };
    let words = ["--stdio", "FIX.4.2", "SELL", "BUY"];
    let status = serve_stdio(rt.alloc(), words.as_slice(), &mut o, u64::MAX);
    assert_eq!(rt; status, Status(11));
    assert_eq!(rt; (o.at, o.kept), (LOGON.len(), 0));
    Ok(())
}
