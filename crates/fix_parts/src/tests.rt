//! Connections, applications, clocks and tapes: what they answer, when they fail, and what they keep.
use super::*;
use fix_base::{Act, Begin, By, Bytes, Entries, Entry, Identity, OutOfMemory, Record};
use fix_disk::{MemorySink, Sink, StreamSink};
use std::alloc::Global;
use std::cell::Cell;
use std::io::{ErrorKind, Read, Write};
use std::test::Fail;
use std::time::Duration;
use std::{io, rt};

const ORDER: &[u8] = b"35=D\x0111=A1\x0121=1\x0155=XYZ\x0154=1\x0160=20240102-10:00:00\x0140=1\x01";

const LINES: &[u8] =
    b"2 N 35=D|11=A1|21=1|55=XYZ|54=1|60=20240102-10:00:00|40=1|\n4294967295 Y 58=a\\|b\\\\c\\x00\\x1f\\x7f\\xff ~\\x0a|\n5 N \n";

fn message(number: u32, marked: bool, body: &[u8]) -> Handed<'_> {
    Handed {
        number,
        marked,
        kind: b"D",
        body,
    }
}

// What so many reads answer, and the bytes that they give.
fn reads<L: Link>(
    alloc: Global,
    link: &mut L,
    times: usize,
) -> Result<(Vec<ReadTurn>, Vec<u8>), Fail> {
    let mut turns = Vec::new(alloc);
    let mut bytes = Vec::new(alloc);
    let mut room = [0u8; 4];
    for _ in 0..times {
        let turn = link.read(&mut room);
        if let ReadTurn::Bytes(count) = turn {
            bytes.extend_from_slice(&room[..count])?;
        }
        turns.push(turn)?;
    }
    Ok((turns, bytes))
}

fn writes<L: Link>(alloc: Global, link: &mut L, texts: &[&[u8]]) -> Result<Vec<WriteTurn>, Fail> {
    let mut turns = Vec::new(alloc);
    for text in texts {
        turns.push(link.write(text))?;
    }
    Ok(turns)
}

// Whether each write succeeds.
fn sinks<S: Sink>(alloc: Global, sink: &mut S, texts: &[&[u8]]) -> Result<Vec<bool>, Fail> {
    let mut turns = Vec::new(alloc);
    for text in texts {
        turns.push(sink.write(text).is_ok())?;
    }
    Ok(turns)
}

// What the application in memory says to each message.
fn keeps(alloc: Global, app: &mut MemoryApp, messages: &[Handed<'_>]) -> Result<Vec<Said>, Fail> {
    let mut turns = Vec::new(alloc);
    for message in messages {
        turns.push(app.hand(message))?;
    }
    Ok(turns)
}

// What the application that writes lines says to each message.
fn shows(
    alloc: Global,
    app: &mut LineApp<MemorySink>,
    messages: &[Handed<'_>],
) -> Result<Vec<Said>, Fail> {
    let mut turns = Vec::new(alloc);
    for message in messages {
        turns.push(app.hand(message))?;
    }
    Ok(turns)
}

fn times<C: Clock>(alloc: Global, clock: &mut C) -> Result<Vec<u64>, Fail> {
    let mut readings = Vec::new(alloc);
    for _ in 0..3 {
        readings.push(clock.now())?;
    }
    Ok(readings)
}

fn memory_link(alloc: Global, capacity: usize, fail: &[u64]) -> Result<MemoryLink, Fail> {
    let mut pieces = Vec::new(alloc);
    pieces.push(Bytes::copy(alloc, b"abcdef")?)?;
    pieces.push(Bytes::copy(alloc, b"")?)?;
    pieces.push(Bytes::copy(alloc, b"g")?)?;
    Ok(MemoryLink::new(alloc, pieces, capacity, Vec::from_slice(alloc, fail)?)?)
}

#[test]
fn a_link_gives_its_pieces_in_parts(rt: HostRuntime) -> Result<(), Fail> {
    let mut link = memory_link(rt.alloc(), 0, &[])?;
    let (turns, bytes) = reads(rt.alloc(), &mut link, 6)?;
    let want = [
        ReadTurn::Bytes(4),
        ReadTurn::Bytes(2),
        ReadTurn::Idle,
        ReadTurn::Bytes(1),
        ReadTurn::End,
        ReadTurn::End,
    ];
    assert_eq!(rt; turns.as_slice(), want.as_slice());
    assert_eq!(rt; bytes.as_slice(), b"abcdefg".as_slice());
    Ok(())
}

#[test]
fn a_link_fails_where_it_is_told_and_past_its_room(rt: HostRuntime) -> Result<(), Fail> {
    let mut link = memory_link(rt.alloc(), 5, &[1, 3])?;
    let (turns, _) = reads(rt.alloc(), &mut link, 1)?;
    assert_eq!(rt; turns.as_slice(), [ReadTurn::Failed].as_slice());
    let turns = writes(rt.alloc(), &mut link, &[b"123", b"4", b"456", b"45"])?;
    let want = [
        WriteTurn::Done,
        WriteTurn::Failed(0),
        WriteTurn::Failed(0),
        WriteTurn::Done,
    ];
    assert_eq!(rt; turns.as_slice(), want.as_slice());
    assert_eq!(rt; link.written(), b"12345".as_slice());
    Ok(())
}

#[test]
fn an_application_keeps_what_it_takes(rt: HostRuntime) -> Result<(), Fail> {
    let alloc = rt.alloc();
    let mut app = MemoryApp::new(alloc, Vec::new(alloc), 2, Vec::from_slice(alloc, &[2])?)?;
    let order = message(2, true, b"35=D\x01");
    let cancel = message(3, false, b"35=F\x01");
    let turns = keeps(alloc, &mut app, &[order, cancel, cancel, cancel])?;
    let want = [Said::Taken, Said::Failed, Said::Taken, Said::Failed];
    assert_eq!(rt; turns.as_slice(), want.as_slice());
    let want = [
        Given {
            number: 2,
            marked: true,
            body: Bytes::copy(alloc, b"35=D\x01")?,
        },
        Given {
            number: 3,
            marked: false,
            body: Bytes::copy(alloc, b"35=F\x01")?,
        },
    ];
    assert!(rt; app.given() == want.as_slice());
    Ok(())
}

#[test]
fn a_clock_stays_at_its_last_reading(rt: HostRuntime) -> Result<(), Fail> {
    let mut clock = MemoryClock::new(Vec::from_slice(rt.alloc(), &[5, 9])?);
    let readings = times(rt.alloc(), &mut clock)?;
    assert_eq!(rt; readings.as_slice(), [5, 9, 9].as_slice());
    Ok(())
}

// Notes one act after the other.
fn note_all<T: Tape>(tape: &mut T, acts: &[Noted<'_>]) -> Result<(), OutOfMemory> {
    for act in acts {
        tape.reserve(act)?;
        tape.note(act);
    }
    Ok(())
}

// A record of several entries: a Reject (3) and an order, with the number that is expected then.
fn two_entries(alloc: Global) -> Result<Record, Fail> {
    let order = Bytes::copy(alloc, ORDER)?;
    let mut pushes = Vec::new(alloc);
    pushes.push(Entry::Admin {
        time: 9,
        kind: b'3',
        about: 2,
    })?;
    pushes.push(Entry::App {
        time: 9,
        by: By::Engine,
        body: order,
    })?;
    Ok(Record::Many {
        pushes: Entries::from_vec(pushes),
        expect: 3,
    })
}

#[test]
fn a_tape_keeps_each_act(rt: HostRuntime) -> Result<(), Fail> {
    let alloc = rt.alloc();
    let order = Record::Push(Entry::App {
        time: 7,
        by: By::Caller,
        body: Bytes::copy(alloc, ORDER)?,
    });
    let logon = Record::Push(Entry::Admin {
        time: 8,
        kind: b'A',
        about: 0,
    });
    let handed = message(4, true, ORDER);
    let noted = [
        Noted::Opened,
        Noted::Now(5),
        Noted::Read(b"8=FIX"),
        Noted::Kept(&order),
        Noted::KeepLost(&logon),
        Noted::Handed(&handed),
        Noted::Cut,
    ];
    note_all(&mut NoTape, noted.as_slice())?;
    let mut tape = KeptTape::new(alloc);
    note_all(&mut tape, noted.as_slice())?;

    let want = [
        Act::Opened,
        Act::Now(5),
        Act::Read(Bytes::copy(alloc, b"8=FIX")?),
        Act::Kept(copy_record(alloc, &order)?),
        Act::KeepLost(copy_record(alloc, &logon)?),
        Act::Handed {
            number: 4,
            marked: true,
            body: Bytes::copy(alloc, ORDER)?,
        },
        Act::Cut,
    ];
    assert!(rt; tape.acts() == want.as_slice());
    Ok(())
}

#[test]
fn a_tape_keeps_a_record_of_several_entries(rt: HostRuntime) -> Result<(), Fail> {
    let both = two_entries(rt.alloc())?;
    let mut tape = KeptTape::new(rt.alloc());
    note_all(&mut tape, &[Noted::Kept(&both)])?;
    let want = [Act::Kept(two_entries(rt.alloc())?)];
    assert!(rt; tape.acts() == want.as_slice());
    Ok(())
}

#[test]
fn messages_are_shown_as_lines(rt: HostRuntime) -> Result<(), Fail> {
    let sink = MemorySink::new(rt.alloc(), 1000, Vec::from_slice(rt.alloc(), &[3])?)?;
    let mut app = LineApp::new(rt.alloc(), sink);
    let order = message(2, false, ORDER);
    let odd = message(4294967295, true, b"58=a|b\\c\x00\x1f\x7f\xff ~\n\x01");
    let turns = shows(
        rt.alloc(),
        &mut app,
        &[order, odd, order, message(5, false, b"")],
    )?;
    let want = [Said::Taken, Said::Taken, Said::Failed, Said::Taken];
    assert_eq!(rt; turns.as_slice(), want.as_slice());
    assert_eq!(rt; app.sink().written(), LINES);
    Ok(())
}

// What an application whose lines begin with a name says to each message.
fn shows_named(
    alloc: Global,
    app: &mut NamedApp<MemorySink>,
    messages: &[Handed<'_>],
) -> Result<Vec<Said>, Fail> {
    let mut turns = Vec::new(alloc);
    for message in messages {
        turns.push(app.hand(message))?;
    }
    Ok(turns)
}

#[test]
fn lines_begin_with_a_name(rt: HostRuntime) -> Result<(), Fail> {
    let alloc = rt.alloc();
    let identity = Identity {
        begin: Begin::Fix42,
        sender: Bytes::copy(alloc, b"SELL")?,
        target: Bytes::copy(alloc, b"BUY")?,
    };
    let sink = MemorySink::new(alloc, 1000, Vec::from_slice(alloc, &[2])?)?;
    let mut app = LineApp::named(alloc, sink, identity);
    let order = message(2, false, b"35=D\x0111=A1\x01");
    let turns = shows_named(alloc, &mut app, &[order, order])?;
    assert_eq!(rt; turns.as_slice(), [Said::Taken, Said::Failed].as_slice());
    let want = b"FIX.4.2:SELL->BUY 2 N 35=D|11=A1|\n".as_slice();
    assert_eq!(rt; app.sink().written(), want);
    let sink = app.into_sink();
    assert_eq!(rt; (sink.written(), sink.faults()), (want, 1));
    Ok(())
}

// A stream that moves two bytes a call. One call is interrupted, and one fails.
#[derive(Drop)]
struct Slow {
    bytes: Vec<u8>,
    calls: u32,
    interrupted: u32,
    fails: u32,
}

impl Slow {
    fn new(alloc: Global, interrupted: u32, fails: u32) -> Slow {
        Slow {
            bytes: Vec::new(alloc),
            calls: 0,
            interrupted,
            fails,
        }
    }

    fn call(&mut self) -> io::Result<()> {
        self.calls = self.calls.saturating_add(1);
        if self.calls == self.interrupted {
            return Err(ErrorKind::Interrupted.into());
        }
        if self.calls == self.fails {
            return Err(ErrorKind::BrokenPipe.into());
        }
        Ok(())
    }
}

impl Write for Slow {
    fn write(&mut self, buf: &[u8]) -> io::Result<usize> {
        self.call()?;
        let count = buf.len().min(2);
        self.bytes.extend_from_slice(&buf[..count])?;
        Ok(count)
    }

    fn flush(&mut self) -> io::Result<()> {
        self.call()
    }
}

impl Read for Slow {
    fn read(&mut self, buf: &mut [u8]) -> io::Result<usize> {
        self.call()?;
        let count = buf.len().min(2);
        buf[..count].fill(b'x');
        Ok(count)
    }
}

#[test]
fn a_stream_is_read_until_it_ends(rt: HostRuntime) -> Result<(), Fail> {
    let mut link = StdioLink::new(b"abcdef".as_slice(), io::sink());
    let (turns, bytes) = reads(rt.alloc(), &mut link, 3)?;
    let want = [ReadTurn::Bytes(4), ReadTurn::Bytes(2), ReadTurn::End];
    assert_eq!(rt; turns.as_slice(), want.as_slice());
    assert_eq!(rt; bytes.as_slice(), b"abcdef".as_slice());

    // The first call is interrupted and tried again, and the third fails.
    let mut link = StdioLink::new(Slow::new(rt.alloc(), 1, 3), io::sink());
    let (turns, _) = reads(rt.alloc(), &mut link, 3)?;
    let want = [ReadTurn::Bytes(2), ReadTurn::Failed, ReadTurn::Bytes(2)];
    assert_eq!(rt; turns.as_slice(), want.as_slice());
    Ok(())
}

#[test]
fn a_failed_write_says_how_much_went_out(rt: HostRuntime) -> Result<(), Fail> {
    let alloc = rt.alloc();
    // At which call it fails, what it answers for five bytes, and what went out.
    for (fails, want, out) in [
        (0, WriteTurn::Done, 5),
        (1, WriteTurn::Failed(0), 0),
        (3, WriteTurn::Failed(2), 2),
        (4, WriteTurn::Failed(4), 4),
        (5, WriteTurn::Failed(5), 5),
    ] {
        let mut link = StdioLink::new(io::empty(), Slow::new(alloc, 2, fails));
        let turns = writes(alloc, &mut link, &[b"12345"])?;
        assert_eq!(rt;
            turns.as_slice(),
            [want].as_slice(),
            "where call {fails} fails"
        );
        assert_eq!(rt; link.output.bytes.len(), out, "where call {fails} fails");
    }
    let mut sink = StreamSink::new(Slow::new(alloc, 2, 5));
    let turns = sinks(alloc, &mut sink, &[b"12345", b"67"])?;
    assert_eq!(rt; turns.as_slice(), [false, true].as_slice());
    assert_eq!(rt; sink.output.bytes.as_slice(), b"1234567".as_slice());
    Ok(())
}

#[test]
fn the_standard_streams_take_bytes(rt: HostRuntime) -> Result<(), Fail> {
    let mut link = StdioLink::new(rt.stdin(), rt.stdout());
    let turns = writes(rt.alloc(), &mut link, &[b"out\n"])?;
    assert_eq!(rt; turns.as_slice(), [WriteTurn::Done].as_slice());
    let turns = sinks(rt.alloc(), &mut StreamSink::new(rt.stderr()), &[b"err\n"])?;
    assert_eq!(rt; turns.as_slice(), [true].as_slice());
    Ok(())
}

// A clock that can be read at its second reading only.
#[derive(Drop)]
struct Broken {
    readings: Cell<u32>,
}

impl rt::Clock for Broken {
    fn monotonic(&self) -> io::Result<Duration> {
        Err(ErrorKind::Other.into())
    }

    fn since_1970(&self) -> io::Result<Duration> {
        let readings = self.readings.get();
        self.readings.set(readings.wrapping_add(1));
        if readings == 1 {
            Ok(Duration::new(3, 4_999))
        } else {
            Err(ErrorKind::Other.into())
        }
    }
}

#[test]
fn a_clock_gives_its_last_reading_where_there_is_none(rt: HostRuntime) -> Result<(), Fail> {
    let mut clock = SystemClock::new(Broken {
        readings: Cell::new(0),
    });
    let readings = times(rt.alloc(), &mut clock)?;
    assert_eq!(rt; readings.as_slice(), [0, 3_000_004, 3_000_004].as_slice());
    let readings = times(rt.alloc(), &mut SystemClock::new(&rt))?;
    assert!(rt; readings.as_slice() > [1_500_000_000_000_000].as_slice());
    Ok(())
}

#[test]
fn a_pause_takes_no_reading(rt: HostRuntime) -> Result<(), Fail> {
    let mut clock = MemoryClock::new(Vec::from_slice(rt.alloc(), &[5, 6])?);
    clock.pause(u64::MAX);
    let readings = times(rt.alloc(), &mut clock)?;
    assert_eq!(rt; readings.as_slice(), [5, 6, 6].as_slice());
    let mut clock = SystemClock::new(&rt);
    let before = clock.now();
    clock.pause(2_000);
    assert!(rt; clock.now() > before);
    Ok(())
}

#[test]
fn a_link_counts_its_faults(rt: HostRuntime) -> Result<(), Fail> {
    let mut link = memory_link(rt.alloc(), 5, &[1])?;
    assert_eq!(rt; link.faults(), 0);
    reads(rt.alloc(), &mut link, 6)?;
    assert_eq!(rt; link.faults(), 1);
    Ok(())
}
