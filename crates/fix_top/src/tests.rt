//! Whole connections over parts in memory: what goes out, what is stored, and with which status they end. Also
//! which arguments are refused, and what is kept of an order that is sent.
ghost use Rattle.std.specs.Prelude.{◌≡◌, IfOk, if◌then◌else◌, Some, None, false};
ghost use Rattle.fix_base.specs.Says.{joined};
ghost use Rattle.fix_top.specs.Sample.{SAMPLE};

use super::*;
use crate::words::{identity_from, read_words};
use fix_base::{Act, By, Bytes, Entry, OutOfMemory, Record, SeqNum, Status, Stored, Tag};
use fix_disk::{Disk, MemoryDisk, MemorySink};
use fix_engine::{FetchFault, KeepFault, Kind, LoadFault, Outside, SendFault, Session};
use fix_fields::{Draft, DraftFields};
use fix_outside::Again;
use fix_parts::{Handed, KeptTape, LineApp, MemoryClock, MemoryLink, ReadTurn, Said, WriteTurn};
use fix_rim::Rim;
use std::alloc::Global;
use std::process::Abort;
use std::test::Fail;

// In these texts `|` stands for SOH.
const LOGON: &[u8] =
    b"8=FIX.4.2|9=58|35=A|34=1|49=BUY|52=20240102-10:00:00|56=SELL|98=0|108=30|10=063|";

const ORDER: &[u8] =
    b"8=FIX.4.2|9=95|35=D|34=2|49=BUY|52=20240102-10:00:00|56=SELL|11=A1|21=1|55=XYZ|54=1|60=20240102-10:00:00|40=1|10=094|";

const LOGOUT: &[u8] = b"8=FIX.4.2|9=46|35=5|34=3|49=BUY|52=20240102-10:00:00|56=SELL|10=025|";

const HEARTBEAT: &[u8] = b"8=FIX.4.2|9=46|35=0|34=1|49=BUY|52=20240102-10:00:00|56=SELL|10=018|";

const TEST_REQUEST: &[u8] =
    b"8=FIX.4.2|9=55|35=1|34=2|49=BUY|52=20240102-10:00:00|56=SELL|112=PING|10=020|";

const LOGON_ANSWER: &[u8] =
    b"8=FIX.4.2|9=62|35=A|34=1|49=SELL|52=20240102-10:00:00.000|56=BUY|98=0|108=30|10=248|";

const LOGOUT_ANSWER: &[u8] =
    b"8=FIX.4.2|9=50|35=5|34=2|49=SELL|52=20240102-10:00:00.000|56=BUY|10=209|";

const LINE: &[u8] = b"2 N 35=D|11=A1|21=1|55=XYZ|54=1|60=20240102-10:00:00|40=1|\n";

const WORDS: [&str; 4] = ["--stdio", "FIX.4.2", "SELL", "BUY"];

type Tested = Rim<MemoryDisk, MemoryLink, LineApp<MemorySink>, MemoryClock, KeptTape>;

// The texts as bytes, one after the other.
fn bytes_of(alloc: Global, texts: &[&[u8]]) -> Result<Vec<u8>, Fail> {
    let mut bytes = Vec::new(alloc);
    for text in texts {
        for byte in *text {
            bytes.push(if *byte == b'|' { 1 } else { *byte })?;
        }
    }
    Ok(bytes)
}

// The calls that fail: of the disk, of the connection, and of the sink; 0 for none.
#[derive(Clone, Copy)]
struct Fails {
    disk: u64,
    link: u64,
    sink: u64,
}

const NONE: Fails = Fails {
    disk: 0,
    link: 0,
    sink: 0,
};

// Serves a connection that gives these pieces at 2024-01-02 10:00:00.
fn served(
    alloc: Global,
    words: &[&str],
    pieces: Vec<Bytes>,
    fails: Fails,
    turns: u64,
) -> Result<(Status, Tested), Fail> {
    let disk = MemoryDisk::new(alloc, 1000, 0, vec![in alloc; fails.disk]?, None)?;
    served_on(alloc, disk, words, pieces, fails, turns)
}

// The same over this disk.
fn served_on(
    alloc: Global,
    disk: MemoryDisk,
    words: &[&str],
    pieces: Vec<Bytes>,
    fails: Fails,
    turns: u64,
) -> Result<(Status, Tested), Fail> {
    let mut readings = Vec::new(alloc);
    readings.push(1_704_189_600_000_000)?;
    let sink = MemorySink::new(alloc, 1000, vec![in alloc; fails.sink]?)?;
    let link = MemoryLink::new(alloc, pieces, 1000, vec![in alloc; fails.link]?)?;
    let mut o = Rim::new(
        alloc,
        disk,
        Some(link),
        LineApp::new(alloc, sink),
        MemoryClock::new(readings),
        KeptTape::new(alloc),
    );
    let status = serve_stdio(alloc, words, &mut o, turns);
    Ok((status, o))
}

// What is stored, as a process that starts finds it.
fn stored(o: &mut Tested) -> Result<Stored, Fail> {
    match o.load() {
        Ok(stored) => Ok(stored),
        Err(_) => Err(OutOfMemory.into()),
    }
}

// The bytes that went out.
fn written(o: &Tested) -> &[u8] {
    match o.link() {
        Some(link) => link.written(),
        None => b"",
    }
}

// The texts in one piece.
fn at_once(alloc: Global, texts: &[&[u8]]) -> Result<Vec<Bytes>, Fail> {
    let mut pieces = Vec::new(alloc);
    pieces.push(Bytes::from_vec(bytes_of(alloc, texts)?))?;
    Ok(pieces)
}

// What must come of a connection.
#[derive(Clone, Copy)]
struct Want<'a> {
    status: u8,
    written: &'a [&'a [u8]],
    lines: &'a [u8],
}

const WHOLE: Want<'static> = Want {
    status: 0,
    written: &[LOGON_ANSWER, LOGOUT_ANSWER],
    lines: LINE,
};

// Serves the pieces, and asserts what comes out.
fn assert_serves(
    rt: &impl Abort,
    alloc: Global,
    pieces: Vec<Bytes>,
    want: &Want<'_>,
) -> Result<Stored, Fail> {
    let (status, mut o) = served(alloc, WORDS.as_slice(), pieces, NONE, u64::MAX)?;
    assert_eq!(rt; status, Status(want.status));
    let expected = bytes_of(alloc, want.written)?;
    assert!(rt; written(&o) == expected.as_slice());
    assert!(rt; o.app().sink().written() == want.lines);
    stored(&mut o)
}

#[test]
fn an_order_is_handed_over(rt: HostRuntime) -> Result<(), Fail> {
    let alloc = rt.alloc();
    let stored = assert_serves(&rt, alloc, at_once(alloc, &[LOGON, ORDER, LOGOUT])?, &WHOLE)?;
    let want = Stored {
        last: 2,
        expected: 4,
        since: None,
        asked: false,
    };
    assert_eq!(rt; stored, want);
    Ok(())
}

#[test]
fn a_cut_anywhere_changes_nothing(rt: HostRuntime) -> Result<(), Fail> {
    let alloc = rt.alloc();
    let input = bytes_of(alloc, &[LOGON, ORDER, LOGOUT])?;
    for at in 0..input.len() {
        let mut pieces = Vec::new(alloc);
        pieces.push(Bytes::copy(alloc, &input[..at])?)?;
        pieces.push(Bytes::copy(alloc, &input[at..])?)?;
        assert_serves(&rt, alloc, pieces, &WHOLE)?;
    }
    Ok(())
}

#[test]
fn byte_by_byte_comes_to_the_same(rt: HostRuntime) -> Result<(), Fail> {
    let alloc = rt.alloc();
    let mut pieces = Vec::new(alloc);
    for byte in &bytes_of(alloc, &[LOGON, ORDER, LOGOUT])? {
        pieces.push(Bytes::copy(alloc, &[*byte])?)?;
        pieces.push(Bytes::copy(alloc, b"")?)?;
    }
    assert_serves(&rt, alloc, pieces, &WHOLE)?;
    Ok(())
}

#[test]
fn what_is_no_message_is_skipped(rt: HostRuntime) -> Result<(), Fail> {
    let alloc = rt.alloc();
    let texts = [b"8=FIX.4.2|9=x|abc|".as_slice(), LOGON, ORDER, LOGOUT];
    assert_serves(&rt, alloc, at_once(alloc, &texts)?, &WHOLE)?;
    Ok(())
}

#[test]
fn nothing_is_answered_before_a_logon(rt: HostRuntime) -> Result<(), Fail> {
    let alloc = rt.alloc();
    let want = Want {
        status: 1,
        written: &[],
        lines: b"",
    };
    assert_serves(&rt, alloc, at_once(alloc, &[])?, &want)?;
    assert_serves(&rt, alloc, at_once(alloc, &[HEARTBEAT])?, &want)?;
    Ok(())
}

#[test]
fn a_session_may_end_without_a_logout(rt: HostRuntime) -> Result<(), Fail> {
    let alloc = rt.alloc();
    let lost = Want {
        status: 1,
        written: &[LOGON_ANSWER],
        lines: LINE,
    };
    assert_serves(&rt, alloc, at_once(alloc, &[LOGON, ORDER])?, &lost)?;
    // A message comes that isn't answered yet.
    let given_up = Want {
        status: 10,
        written: &[LOGON_ANSWER],
        lines: b"",
    };
    assert_serves(
        &rt,
        alloc,
        at_once(alloc, &[LOGON, TEST_REQUEST])?,
        &given_up,
    )?;
    Ok(())
}

// Serves an empty input for these arguments, and gives the status and how many acts were noted.
fn status_for(alloc: Global, words: &[&str]) -> Result<(u8, usize), Fail> {
    let (status, o) = served(alloc, words, Vec::new(alloc), NONE, 9)?;
    Ok((status.0, o.tape().acts().len()))
}

#[test]
fn other_words_are_refused(rt: HostRuntime) -> Result<(), Fail> {
    let alloc = rt.alloc();
    let long = "SSSSSSSSSSSSSSSSSSSSSSSSSSSSSSSSSSSSSSSSSSSSSSSSSSSSSSSSSSSSSSSSS";
    for words in [
        ["--stdio", "FIX.4.3", "SELL", "BUY"],
        ["--help", "FIX.4.2", "SELL", "BUY"],
        ["--stdio", "FIX.4.2", "", "BUY"],
        ["--stdio", "FIX.4.2", "SELL", "B\u{1}Y"],
        ["--stdio", "FIX.4.4", long, "BUY"],
    ] {
        assert_eq!(rt; status_for(alloc, words.as_slice())?, (2, 0));
    }
    assert_eq!(rt; status_for(alloc, &["--stdio", "FIX.4.2", "SELL"])?, (2, 0));
    assert_eq!(rt; status_for(alloc, &["--stdio", "FIX.4.4", "S", "B"])?.0, 1);
    Ok(())
}

#[test]
fn each_fault_has_its_status(rt: HostRuntime) -> Result<(), Fail> {
    let alloc = rt.alloc();
    // The opening makes twelve calls of the disk, and each of three records four.
    for disk in 1..=24 {
        let fails = Fails { disk, ..NONE };
        let pieces = at_once(alloc, &[LOGON, ORDER, LOGOUT])?;
        let (status, _) = served(alloc, WORDS.as_slice(), pieces, fails, u64::MAX)?;
        assert_eq!(rt; status, Status(5));
    }
    for (link, sink, want) in [(1, 0, 6), (2, 0, 6), (3, 0, 6), (0, 1, 7)] {
        let fails = Fails {
            disk: 25,
            link,
            sink,
        };
        let pieces = at_once(alloc, &[LOGON, ORDER, LOGOUT])?;
        let (status, _) = served(alloc, WORDS.as_slice(), pieces, fails, u64::MAX)?;
        assert_eq!(rt; status, Status(want));
    }
    Ok(())
}

#[test]
fn a_damaged_file_is_refused(rt: HostRuntime) -> Result<(), Fail> {
    let alloc = rt.alloc();
    let mut disk = MemoryDisk::new(alloc, 1000, 0, Vec::new(alloc), None)?;
    assert!(rt; disk.write_at(0, b"\x01\0\0\0\0\0\0\0\0\0").is_ok());
    let pieces = at_once(alloc, &[LOGON, ORDER, LOGOUT])?;
    let (status, o) = served_on(alloc, disk, WORDS.as_slice(), pieces, NONE, u64::MAX)?;
    assert_eq!(rt; status, Status(5));
    assert!(rt; o.tape().acts().is_empty());
    Ok(())
}

#[test]
fn a_stop_before_the_number_is_kept_leaves_the_old_one(rt: HostRuntime) -> Result<(), Fail> {
    let alloc = rt.alloc();
    // The order is handed over, and the first disk call of the record after it fails.
    let fails = Fails { disk: 17, ..NONE };
    let pieces = at_once(alloc, &[LOGON, ORDER])?;
    let (status, o) = served(alloc, WORDS.as_slice(), pieces, fails, u64::MAX)?;
    assert_eq!(rt; status, Status(5));
    assert!(rt; o.app().sink().written() == LINE);
    let (disk, ..) = o.into_parts();
    let pieces = at_once(alloc, &[])?;
    let (status, mut o) = served_on(alloc, disk, WORDS.as_slice(), pieces, NONE, u64::MAX)?;
    assert_eq!(rt; status, Status(1));
    let want = Stored {
        last: 1,
        expected: 1,
        since: None,
        asked: false,
    };
    assert_eq!(rt; stored(&mut o)?, want);
    Ok(())
}

#[test]
fn turns_are_spent(rt: HostRuntime) -> Result<(), Fail> {
    let alloc = rt.alloc();
    let pieces = at_once(alloc, &[])?;
    let (status, _) = served(alloc, WORDS.as_slice(), pieces, NONE, 1)?;
    assert_eq!(rt; status_name(status), "Turns");
    assert_eq!(rt; status, Status(8));
    Ok(())
}

// The sample in one piece.
fn sample_at_once(alloc: Global) -> Result<Vec<Bytes>, Fail>
    ensures { IfOk result (λ pieces. joined pieces.items ≡ SAMPLE) }
{
    let bytes =
        b"8=FIX.4.2\x019=58\x0135=A\x0134=1\x0149=BUY\x0152=20240102-10:00:00\x0156=SELL\x0198=0\x01108=30\x0110=063\x018=FIX.4.2\x019=95\x0135=D\x0134=2\x0149=BUY\x0152=20240102-10:00:00\x0156=SELL\x0111=A1\x0121=1\x0155=XYZ\x0154=1\x0160=20240102-10:00:00\x0140=1\x0110=094\x018=FIX.4.2\x019=46\x0135=5\x0134=3\x0149=BUY\x0152=20240102-10:00:00\x0156=SELL\x0110=025\x01";
    let mut pieces = Vec::new(alloc);
    pieces.push(Bytes::copy(alloc, bytes)?)?;
    Ok(pieces)
}

#[test]
fn memory_suffices_for_the_sample(rt: HostRuntime) -> Result<(), Fail> {
    let alloc = rt.alloc();
    let served = serve_sample(alloc, sample_at_once(alloc)?)?;
    assert_eq!(rt; served.status, Status(0));
    Ok(())
}

// The sample, a message in each piece.
fn one_by_one(alloc: Global) -> Result<Vec<Bytes>, Fail> {
    let mut pieces = Vec::new(alloc);
    for text in [LOGON, ORDER, LOGOUT] {
        pieces.push(Bytes::from_vec(bytes_of(alloc, &[text])?))?;
    }
    Ok(pieces)
}

#[test]
fn a_disk_of_88_bytes_is_enough_for_the_sample(rt: HostRuntime) -> Result<(), Fail> {
    let alloc = rt.alloc();
    // An empty store takes 20 bytes, each of two entries 19, and each of three expected numbers 10.
    for (capacity, want) in [(88, 0), (87, 5), (39, 5), (19, 5)] {
        let disk = MemoryDisk::new(alloc, capacity, 0, Vec::new(alloc), None)?;
        let pieces = one_by_one(alloc)?;
        let (status, _) = served_on(alloc, disk, WORDS.as_slice(), pieces, NONE, u64::MAX)?;
        assert_eq!(rt; status, Status(want));
    }
    Ok(())
}

#[test]
fn a_process_starts_again_behind_a_store_fault(rt: HostRuntime) -> Result<(), Fail> {
    let alloc = rt.alloc();
    // The first disk call of the record of the Logon's answer fails.
    let fails = Fails { disk: 14, ..NONE };
    let pieces = at_once(alloc, &[LOGON])?;
    let (status, o) = served(alloc, WORDS.as_slice(), pieces, fails, u64::MAX)?;
    assert_eq!(rt; status, Status(5));
    assert!(rt; written(&o).is_empty());
    let (disk, ..) = o.into_parts();
    let pieces = at_once(alloc, &[LOGON, ORDER, LOGOUT])?;
    let (status, o) = served_on(alloc, disk, WORDS.as_slice(), pieces, NONE, u64::MAX)?;
    assert_eq!(rt; status, Status(0));
    let expected = bytes_of(alloc, &[LOGON_ANSWER, LOGOUT_ANSWER])?;
    assert!(rt; written(&o) == expected.as_slice());
    assert!(rt; o.app().sink().written() == LINE);
    Ok(())
}

// An order of the application, as it goes out under number 2.
const ORDER_OUT: &[u8] =
    b"8=FIX.4.2|9=56|35=D|34=2|49=SELL|52=20240102-10:00:00.000|56=BUY|11=A1|10=248|";

// The order, whose ClOrdID (11) is A1.
fn order(alloc: Global) -> Option<Draft> {
    let mut fields = DraftFields::new(alloc);
    fields.push(Tag::new(11)?, b"A1").ok()?;
    Draft::new(alloc, b"D", &fields).ok()
}

// An outside whose connection gives these pieces.
fn outside(alloc: Global, pieces: Vec<Bytes>, fails: Fails) -> Result<Tested, Fail> {
    let mut readings = Vec::new(alloc);
    readings.push(1_704_189_600_000_000)?;
    let disk = MemoryDisk::new(alloc, 1000, 0, vec![in alloc; fails.disk]?, None)?;
    let link = MemoryLink::new(alloc, pieces, 1000, vec![in alloc; fails.link]?)?;
    let sink = MemorySink::new(alloc, 1000, Vec::new(alloc))?;
    Ok(Rim::new(
        alloc,
        disk,
        Some(link),
        LineApp::new(alloc, sink),
        MemoryClock::new(readings),
        KeptTape::new(alloc),
    ))
}

// Opens a session, and sends the order: on a connection after a turn, or on none.
fn send_on<O: Outside>(alloc: Global, o: &mut O) -> Result<Result<SeqNum, SendFault>, Fail> {
    let Some(named) = read_words(WORDS.as_slice()) else {
        return Err(OutOfMemory.into());
    };
    let identity = identity_from(alloc, &named)?;
    let Some(draft) = order(alloc) else {
        return Err(OutOfMemory.into());
    };
    let mut session = match Session::open(alloc, o, identity) {
        Ok(session) => session,
        Err(_) => return Err(OutOfMemory.into()),
    };
    match session.begin(o) {
        Ok(()) => {}
        Err(_) => return Err(OutOfMemory.into()),
    }
    let _turns = session.run_turns(o, 1);
    Ok(session.send(o, &draft))
}

fn send_down<O: Outside>(alloc: Global, o: &mut O) -> Result<Result<SeqNum, SendFault>, Fail> {
    let Some(named) = read_words(WORDS.as_slice()) else {
        return Err(OutOfMemory.into());
    };
    let identity = identity_from(alloc, &named)?;
    let Some(draft) = order(alloc) else {
        return Err(OutOfMemory.into());
    };
    let mut session = match Session::open(alloc, o, identity) {
        Ok(session) => session,
        Err(_) => return Err(OutOfMemory.into()),
    };
    Ok(session.send(o, &draft))
}

// Whether the act keeps the order, as sent first at 2024-01-02 10:00:00.
fn keeps_order(alloc: Global, act: &Act) -> Result<bool, Fail> {
    let kept = Act::Kept(Record::Push(Entry::App {
        time: 1_704_189_600_000_000,
        by: By::Caller,
        body: Bytes::from_vec(bytes_of(alloc, &[b"35=D|11=A1|"])?),
    }));
    Ok(*act == kept)
}

#[test]
fn an_order_is_sent_on_the_connection(rt: HostRuntime) -> Result<(), Fail> {
    let alloc = rt.alloc();
    let mut o = outside(alloc, at_once(alloc, &[LOGON])?, NONE)?;
    let sent = send_on(alloc, &mut o)?;
    assert_eq!(rt; sent.map(|number| number.get()), Ok(2));
    let expected = bytes_of(alloc, &[LOGON_ANSWER, ORDER_OUT])?;
    assert!(rt; written(&o) == expected.as_slice());
    match o.tape().acts() {
        [.., kept, _] => assert!(rt; keeps_order(alloc, kept)?),
        _ => assert!(rt; false),
    }
    assert_eq!(rt; stored(&mut o)?.last, 2);
    Ok(())
}

#[test]
fn an_order_is_kept_without_a_connection(rt: HostRuntime) -> Result<(), Fail> {
    let alloc = rt.alloc();
    let mut o = outside(alloc, at_once(alloc, &[])?, NONE)?;
    let sent = send_down(alloc, &mut o)?;
    assert_eq!(rt; sent.map(|number| number.get()), Ok(1));
    assert!(rt; written(&o).is_empty());
    match o.tape().acts() {
        [.., kept] => assert!(rt; keeps_order(alloc, kept)?),
        _ => assert!(rt; false),
    }
    assert_eq!(rt; stored(&mut o)?.last, 1);
    Ok(())
}

#[test]
fn an_order_that_the_connection_loses_is_kept(rt: HostRuntime) -> Result<(), Fail> {
    let alloc = rt.alloc();
    // The first write is the answer to the Logon.
    let fails = Fails { link: 3, ..NONE };
    let mut o = outside(alloc, at_once(alloc, &[LOGON])?, fails)?;
    let sent = send_on(alloc, &mut o)?;
    let Some(number) = SeqNum::new(2) else {
        return Err(OutOfMemory.into());
    };
    let want = Err(SendFault::LinkFault { number });
    assert_eq!(rt; sent.map(|number| number.get()), want);
    assert!(rt; matches!(o.tape().acts().last(), Some(Act::Cut)));
    assert_eq!(rt; stored(&mut o)?.last, 2);
    Ok(())
}

// An outside whose store has used every number, and tells no end. It counts its calls; all calls but
// the opening are out of memory.
#[derive(Drop)]
struct Spent {
    loaded: bool,
    calls: u64,
}

impl Spent {
    fn count(&mut self)
        ensures { self.new.loaded ≡ self.old.loaded }
    {
        self.calls = self.calls.saturating_add(1);
    }
}

impl Outside for Spent {
    ghost seen = { λ s.
        record {
          tape = None;
          Holds = λ e. ⊥;
          open_at = if s.loaded then Some 999999999 else None;
          Tells = ⊥;
          Breaks = λ place. ⊥;
          faults = record { store = 0; link = 0; app = 0 };
          parts = record {
            to_come = None;
            readings = None;
            written = None;
            link_room = None;
            lines = None;
            line_room = None;
            asked = None;
            to_ask = None;
            store_room = None;
          };
        } };

    fn now(&mut self) -> Result<u64, OutOfMemory> {
        self.count();
        Err(OutOfMemory)
    }

    fn load(&mut self) -> Result<Stored, LoadFault> {
        self.count();
        self.loaded = true;
        Ok(Stored {
            last: 999_999_999,
            expected: 1,
            since: None,
            asked: false,
        })
    }

    fn mark(&mut self, _cut: bool) -> Result<(), OutOfMemory> {
        self.count();
        Err(OutOfMemory)
    }

    fn read(&mut self, _room: &mut [u8]) -> ReadTurn {
        self.count();
        ReadTurn::OutOfMemory
    }

    fn write(&mut self, _bytes: &[u8]) -> WriteTurn {
        self.count();
        WriteTurn::OutOfMemory
    }

    fn keep(&mut self, _kept: &Record) -> Result<(), KeepFault> {
        self.count();
        Err(KeepFault::OutOfMemory)
    }

    fn fetch(&mut self, _n: SeqNum, _into: &mut Vec<u8>) -> Result<Kind, FetchFault> {
        self.count();
        Err(FetchFault::OutOfMemory)
    }

    fn hand(&mut self, _h: &Handed<'_>) -> Said {
        self.count();
        Said::OutOfMemory
    }

    fn again(&mut self, _n: SeqNum, _kind: &[u8], _body: &[u8]) -> Again {
        Again::OutOfMemory
    }

    fn ask(&mut self) -> Option<Draft> {
        self.count();
        None
    }
}

#[test]
fn spent_numbers_call_nothing(rt: HostRuntime) -> Result<(), Fail> {
    let alloc = rt.alloc();
    let mut o = Spent {
        loaded: false,
        calls: 0,
    };
    let sent = send_down(alloc, &mut o)?;
    assert!(rt; matches!(sent, Err(SendFault::NumbersSpent)));
    assert_eq!(rt; o.calls, 1);
    Ok(())
}
