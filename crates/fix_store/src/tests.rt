//! Which payloads are records, what a store's file has byte for byte, and what a stop at a call of the disk
//! leaves.
use super::*;
use crate::fetching::entry_at;
use fix_base::{By, Bytes, Entry, OutOfMemory, SeqNum, Stored};
use fix_disk::{Disk, MemoryDisk};
use fix_journal::{Journal, OpenFault};
use std::alloc::Global;
use std::test::Fail;

const CAPACITY: usize = 4_000_000;

/// The last microsecond of 2099, in eight bytes.
const LAST: [u8; 8] = [0, 14, 147, 38, 221, 3, 191, 255];

fn blank(alloc: Global, fail: &[u64], fuse: Option<u64>) -> Result<MemoryDisk, OutOfMemory> {
    MemoryDisk::new(alloc, CAPACITY, 0, Vec::from_slice(alloc, fail)?, fuse)
}

fn holding(alloc: Global, bytes: &[u8]) -> Result<MemoryDisk, OutOfMemory> {
    let mut disk = blank(alloc, &[], None)?;
    match disk.write_at(0, bytes) {
        Ok(()) => Ok(disk),
        Err(_) => Err(OutOfMemory),
    }
}

fn opened(alloc: Global, disk: MemoryDisk) -> Result<Store<MemoryDisk>, OutOfMemory> {
    match Store::open(alloc, disk) {
        Ok(store) => Ok(store),
        Err(_) => Err(OutOfMemory),
    }
}

// What a file tells, or why it isn't opened.
fn meaning(alloc: Global, bytes: &[u8]) -> Result<Result<Stored, OpenFault>, OutOfMemory> {
    match Store::open(alloc, holding(alloc, bytes)?) {
        Ok(store) => Ok(Ok(store.stored())),
        Err(refused) => Ok(Err(refused.fault)),
    }
}

// A journal with this payload alone.
fn with_payload(alloc: Global, payload: &[u8]) -> Result<MemoryDisk, OutOfMemory> {
    let Ok(mut journal) = Journal::open(alloc, blank(alloc, &[], None)?) else {
        return Err(OutOfMemory);
    };
    if payload.is_empty() {
        return Err(OutOfMemory);
    }
    match journal.append(payload) {
        Ok(_) => Ok(journal.into_disk()),
        Err(_) => Err(OutOfMemory),
    }
}

// A journal with the mark of version 2 and this payload.
fn marked_with(alloc: Global, payload: &[u8]) -> Result<MemoryDisk, OutOfMemory> {
    let Ok(mut journal) = Journal::open(alloc, blank(alloc, &[], None)?) else {
        return Err(OutOfMemory);
    };
    if payload.is_empty() {
        return Err(OutOfMemory);
    }
    if journal.append(b"\x0a\0\0\0\x02").is_err() {
        return Err(OutOfMemory);
    }
    match journal.append(payload) {
        Ok(_) => Ok(journal.into_disk()),
        Err(_) => Err(OutOfMemory),
    }
}

// What a payload comes to, as the first record of a file.
fn reading(alloc: Global, payload: &[u8]) -> Result<Result<Stored, OpenFault>, OutOfMemory> {
    meaning(alloc, with_payload(alloc, payload)?.bytes())
}

const NEW: Stored = Stored {
    last: 0,
    expected: 1,
    since: None,
    asked: false,
};

#[test]
fn damaged_files(rt: HostRuntime) -> Result<(), Fail> {
    let rows: [(&[u8], Result<Stored, OpenFault>); 9] = [
        (b"\x01FIXJRNL1\x01\0\0\0\0", Err(OpenFault::Damaged(9))),
        (
            b"\x01FIXJRNL1\x01\0\0\0\x05\x04\0\0\0\x02",
            Err(OpenFault::Damaged(9)),
        ),
        (b"\x01FIXJRNL1\x02", Ok(NEW)),
        (b"\x01", Ok(NEW)),
        (b"", Ok(NEW)),
        (
            b"\x01FIXJRNL1\x01\0\0\0\x01\x07\0",
            Err(OpenFault::Damaged(9)),
        ),
        (
            b"\x01FIXJRNL1\x01\0\0\0\x05\x04\0\0\0\0\0",
            Err(OpenFault::Damaged(9)),
        ),
        // A place that the journal names comes first.
        (
            b"\x01FIXJRNL1\x01\0\0\0\x01\x07\x01\0\0\0\0",
            Err(OpenFault::Damaged(15)),
        ),
        // A record, and a payload after it that is none.
        (
            b"\x01FIXJRNL1\x01\0\0\0\x05\x04\0\0\0\x02\x01\0\0\0\x01\x07\0",
            Err(OpenFault::Damaged(19)),
        ),
    ];
    for (file, wanted) in rows {
        assert_eq!(rt; meaning(rt.alloc(), file)?, wanted);
    }
    Ok(())
}

#[test]
fn a_damaged_store_leaves_the_journal_whole(rt: HostRuntime) -> Result<(), Fail> {
    let file = b"\x01FIXJRNL1\x01\0\0\0\x01\x07\0".as_slice();
    let Err(refused) = Store::open(rt.alloc(), holding(rt.alloc(), file)?) else {
        return Err(Fail::from(OutOfMemory));
    };
    assert_eq!(rt; refused.disk.bytes(), file);
    Ok(())
}

// A payload of a mark, a time and what stands after it.
fn payload_of(alloc: Global, mark: u8, time: &[u8], rest: &[u8]) -> Result<Vec<u8>, OutOfMemory> {
    let mut payload = Vec::new(alloc);
    payload.extend_from_slice(&[mark])?;
    payload.extend_from_slice(time)?;
    payload.extend_from_slice(rest)?;
    Ok(payload)
}

const ONE_ENTRY: Stored = Stored {
    last: 1,
    expected: 1,
    since: None,
    asked: false,
};

#[test]
fn which_payloads_are_records(rt: HostRuntime) -> Result<(), Fail> {
    let alloc = rt.alloc();
    let bad = Err(OpenFault::Damaged(9));
    let past = [0, 14, 147, 38, 221, 3, 192, 0];
    let rows: [(u8, &[u8], &[u8], Result<Stored, OpenFault>); 26] = [
        (1, &LAST, b"35=D\x01", Ok(ONE_ENTRY)),
        (2, &[0; 8], b"35=j\x0145=2\x01", Ok(ONE_ENTRY)),
        // An entry of the engine may have any type of an application message, also a long one.
        (2, &[0; 8], b"35=LONGERTHANEIGHT\x01", Ok(ONE_ENTRY)),
        (1, &past, b"35=D\x01", bad),
        (1, &[0; 7], b"", bad),
        (1, &[0; 8], b"", bad),
        (1, &[0; 8], b"35=\x01", bad),
        (1, &[0; 8], b"35=A\x01", bad),
        (1, &[0; 8], b"35=4\x01", bad),
        (1, &[0; 8], b"11=A\x0135=D\x01", bad),
        (1, &[0; 8], b"35=D\x0135=D\x01", bad),
        (1, &[0; 8], b"35=D\x0134=2\x01", bad),
        (1, &[0; 8], b"35=D\x0110=000\x01", bad),
        (1, &[0; 8], b"35=D\x0111=A", bad),
        (1, &[0; 8], b"35=D\x0195=3\x0196=a\x01b\x01", Ok(ONE_ENTRY)),
        (3, &LAST, b"3\xff\xff\xff\xff", Ok(ONE_ENTRY)),
        (3, &[0; 8], b"N\0\0\0\0", Ok(ONE_ENTRY)),
        (3, &[0; 8], b"0\0\0\0\x01", Ok(ONE_ENTRY)),
        (3, &[0; 8], b"4\0\0\0\0", bad),
        (3, &[0; 8], b"0\0\0\0", bad),
        (3, &[0; 8], b"0\0\0\0\0\0", bad),
        (3, &past, b"0\0\0\0\0", bad),
        (
            5,
            &[0, 0, 0, 0, 0, 0, 0, 0],
            b"",
            Ok(Stored {
                last: 0,
                expected: 1,
                since: Some(0),
                asked: false,
            }),
        ),
        (
            5,
            &LAST,
            b"",
            Ok(Stored {
                last: 0,
                expected: 1,
                since: Some(4_102_444_799_999_999),
                asked: false,
            }),
        ),
        (5, &past, b"", bad),
        (5, &LAST, b"\0", bad),
    ];
    for (mark, time, rest, wanted) in rows {
        assert_eq!(rt;
            reading(alloc, &payload_of(alloc, mark, time, rest)?)?,
            wanted
        );
    }
    Ok(())
}

#[test]
fn which_expected_numbers_are_records(rt: HostRuntime) -> Result<(), Fail> {
    let alloc = rt.alloc();
    for (number, fits) in [
        (0, false),
        (1, true),
        (1_000_000_000, true),
        (1_000_000_001, false),
        (u32::MAX, false),
    ] {
        let payload = payload_of(alloc, 4, &u32::to_be_bytes(number), b"")?;
        let wanted = if fits {
            Ok(Stored {
                last: 0,
                expected: number,
                since: None,
                asked: false,
            })
        } else {
            Err(OpenFault::Damaged(9))
        };
        assert_eq!(rt; reading(alloc, &payload)?, wanted);
    }
    assert_eq!(rt;
        reading(alloc, b"\x04\0\0\0\x01\0")?,
        Err(OpenFault::Damaged(9))
    );
    assert_eq!(rt; reading(alloc, b"\0")?, Err(OpenFault::Damaged(9)));
    Ok(())
}

// A body of so many bytes.
fn body_of(alloc: Global, size: usize) -> Result<Vec<u8>, OutOfMemory> {
    let mut body = Vec::from_slice(alloc, b"35=D\x0158=")?;
    body.resize(size.saturating_sub(1), b'x')?;
    body.resize(size, 1)?;
    Ok(body)
}

#[test]
fn the_longest_body_is_a_record_and_a_longer_one_is_not(rt: HostRuntime) -> Result<(), Fail> {
    let alloc = rt.alloc();
    let longest = payload_of(alloc, 1, &LAST, &body_of(alloc, 1_048_064)?)?;
    assert_eq!(rt; longest.len(), 1_048_073);
    assert_eq!(rt; reading(alloc, &longest)?, Ok(ONE_ENTRY));
    let longer = payload_of(alloc, 1, &LAST, &body_of(alloc, 1_048_065)?)?;
    assert_eq!(rt; reading(alloc, &longer)?, Err(OpenFault::Damaged(9)));
    Ok(())
}

// What a row's payload is the record of. A body is the payload's rest.
#[derive(Clone, Copy)]
enum Kept {
    App(u64, By),
    Admin(u64, u8, u32),
    Expect(u32),
    Reset(u64),
}

// The entry that the record is of, if it is of one.
fn entry_in(alloc: Global, record: Kept, body: &[u8]) -> Result<Option<Entry>, OutOfMemory> {
    match record {
        Kept::App(time, by) => {
            let body = Bytes::copy(alloc, body)?;
            Ok(Some(Entry::App { time, by, body }))
        }
        Kept::Admin(time, kind, about) => Ok(Some(Entry::Admin { time, kind, about })),
        Kept::Expect(_) => Ok(None),
        Kept::Reset(_) => Ok(None),
    }
}

// What a store tells in which the record alone is kept.
fn stored_with(record: Kept) -> Stored {
    match record {
        Kept::App(_, _) => ONE_ENTRY,
        Kept::Admin(_, _, _) => ONE_ENTRY,
        Kept::Expect(expected) => Stored {
            last: 0,
            expected,
            since: None,
            asked: false,
        },
        Kept::Reset(time) => Stored {
            last: 0,
            expected: 1,
            since: Some(time),
            asked: false,
        },
    }
}

// Pushes the entry that the payload spells. Whether it is this one, and could be pushed.
fn push_alike(store: &mut Store<MemoryDisk>, payload: Vec<u8>, wanted: Option<Entry>) -> bool {
    let entry = entry_at(payload, 0);
    let pushed = store.push(&entry);
    Some(entry) == wanted && pushed.is_ok()
}

fn expect_within(store: &mut Store<MemoryDisk>, next: u32) -> bool {
    if next < 1 {
        return false;
    }
    if next > 1_000_000_000 {
        return false;
    }
    store.expect(next).is_ok()
}

fn reset_within(store: &mut Store<MemoryDisk>, time: u64) -> bool {
    if time > 4_102_444_799_999_999 {
        return false;
    }
    store.reset(time).is_ok()
}

// A disk with a store in which the record alone is kept. The payload serves to make an entry.
fn store_of(
    alloc: Global,
    record: Kept,
    body: &[u8],
    payload: Vec<u8>,
) -> Result<MemoryDisk, OutOfMemory> {
    let wanted = entry_in(alloc, record, body)?;
    let mut store = opened(alloc, blank(alloc, &[], None)?)?;
    let done = match record {
        Kept::App(_, _) => push_alike(&mut store, payload, wanted),
        Kept::Admin(_, _, _) => push_alike(&mut store, payload, wanted),
        Kept::Expect(next) => expect_within(&mut store, next),
        Kept::Reset(time) => reset_within(&mut store, time),
    };
    if done {
        Ok(store.into_disk())
    } else {
        Err(OutOfMemory)
    }
}

// The first entry, if there is one.
fn first_entry(store: &mut Store<MemoryDisk>) -> Result<Option<Entry>, OutOfMemory> {
    let Some(first) = SeqNum::new(1) else {
        return Err(OutOfMemory);
    };
    if store.stored().last < 1 {
        return Ok(None);
    }
    match store.entry(first) {
        Ok(entry) => Ok(Some(entry)),
        Err(_) => Err(OutOfMemory),
    }
}

const FIRST: [u8; 8] = [0; 8];

const END: u64 = 4_102_444_799_999_999;

const MAX: u32 = u32::MAX;

#[test]
fn each_record_at_its_limits_is_kept_and_read_back(rt: HostRuntime) -> Result<(), Fail> {
    let alloc = rt.alloc();
    let short = b"35=D\x01".as_slice();
    let long = body_of(alloc, 1_048_064)?;
    let rows: [(u8, &[u8], &[u8], Kept); 26] = [
        (1, &FIRST, short, Kept::App(0, By::Caller)),
        (1, &LAST, short, Kept::App(END, By::Caller)),
        (1, &FIRST, &long, Kept::App(0, By::Caller)),
        (1, &LAST, &long, Kept::App(END, By::Caller)),
        (2, &FIRST, short, Kept::App(0, By::Engine)),
        (2, &LAST, short, Kept::App(END, By::Engine)),
        (2, &FIRST, &long, Kept::App(0, By::Engine)),
        (2, &LAST, &long, Kept::App(END, By::Engine)),
        (3, &FIRST, b"0\0\0\0\0", Kept::Admin(0, b'0', 0)),
        (3, &LAST, b"0\xff\xff\xff\xff", Kept::Admin(END, b'0', MAX)),
        (3, &FIRST, b"1\0\0\0\0", Kept::Admin(0, b'1', 0)),
        (3, &LAST, b"1\xff\xff\xff\xff", Kept::Admin(END, b'1', MAX)),
        (3, &FIRST, b"2\0\0\0\0", Kept::Admin(0, b'2', 0)),
        (3, &LAST, b"2\xff\xff\xff\xff", Kept::Admin(END, b'2', MAX)),
        (3, &FIRST, b"3\0\0\0\0", Kept::Admin(0, b'3', 0)),
        (3, &LAST, b"3\xff\xff\xff\xff", Kept::Admin(END, b'3', MAX)),
        (3, &FIRST, b"5\0\0\0\0", Kept::Admin(0, b'5', 0)),
        (3, &LAST, b"5\xff\xff\xff\xff", Kept::Admin(END, b'5', MAX)),
        (3, &FIRST, b"A\0\0\0\0", Kept::Admin(0, b'A', 0)),
        (3, &LAST, b"A\xff\xff\xff\xff", Kept::Admin(END, b'A', MAX)),
        (3, &FIRST, b"N\0\0\0\0", Kept::Admin(0, b'N', 0)),
        (3, &LAST, b"N\xff\xff\xff\xff", Kept::Admin(END, b'N', MAX)),
        (4, b"\0\0\0\x01", b"", Kept::Expect(1)),
        (4, b"\x3b\x9a\xca\0", b"", Kept::Expect(1_000_000_000)),
        (5, &FIRST, b"", Kept::Reset(0)),
        (5, &LAST, b"", Kept::Reset(END)),
    ];
    for (mark, first, rest, record) in rows {
        let payload = payload_of(alloc, mark, first, rest)?;
        let wanted = marked_with(alloc, &payload)?;
        let disk = store_of(alloc, record, rest, payload)?;
        assert_eq!(rt; disk.bytes(), wanted.bytes());
        let mut again = opened(alloc, disk)?;
        assert_eq!(rt; again.stored(), stored_with(record));
        assert_eq!(rt; first_entry(&mut again)?, entry_in(alloc, record, rest)?);
    }
    Ok(())
}

#[test]
fn numbers_and_resets_are_kept(rt: HostRuntime) -> Result<(), Fail> {
    let mut store = opened(rt.alloc(), blank(rt.alloc(), &[], None)?)?;
    assert_eq!(rt; store.expect(2), Ok(()));
    assert_eq!(rt; store.reset(7), Ok(()));
    assert_eq!(rt; store.expect(1_000_000_000), Ok(()));
    assert_eq!(rt;
        store.into_disk().bytes(),
        b"\x01FIXJRNL1\x01\0\0\0\x05\x0a\0\0\0\x02\x01\0\0\0\x05\x04\0\0\0\x02\x01\0\0\0\x09\x05\0\0\0\0\0\0\0\x07\x01\0\0\0\x05\x04\x3b\x9a\xca\0\0".as_slice()
    );
    Ok(())
}

// Keeps a Heartbeat, and gives its number, or 0.
fn push_beat(store: &mut Store<MemoryDisk>) -> u32 {
    let beat = Entry::Admin {
        time: 5,
        kind: b'0',
        about: 0,
    };
    match store.push(&beat) {
        Ok(number) => number.get(),
        Err(_) => 0,
    }
}

#[test]
fn entries_are_numbered_from_1_again_behind_a_reset(rt: HostRuntime) -> Result<(), Fail> {
    let mut store = opened(rt.alloc(), blank(rt.alloc(), &[], None)?)?;
    assert_eq!(rt; push_beat(&mut store), 1);
    assert_eq!(rt; push_beat(&mut store), 2);
    assert_eq!(rt; store.reset(7), Ok(()));
    assert_eq!(rt; push_beat(&mut store), 1);
    let again = opened(rt.alloc(), store.into_disk())?;
    assert_eq!(rt;
        again.stored(),
        Stored {
            last: 1,
            expected: 1,
            since: Some(7),
            asked: false
        }
    );
    Ok(())
}

// What is there after a stop at this call of the disk, counted from the first of an opening.
fn stopped_at(alloc: Global, call: u64) -> Result<Stored, OutOfMemory> {
    let mut store = opened(alloc, blank(alloc, &[], Some(call))?)?;
    match store.expect(2) {
        Err(StoreFault::DiskFault) => {}
        _ => return Err(OutOfMemory),
    }
    match store.expect(3) {
        Err(StoreFault::Stopped) => {}
        _ => return Err(OutOfMemory),
    }
    let bytes = store.into_disk();
    Ok(opened(alloc, holding(alloc, bytes.bytes())?)?.stored())
}

#[test]
fn a_stop_leaves_the_end_from_before_or_with_the_record(rt: HostRuntime) -> Result<(), Fail> {
    for (call, expected) in [(13, 1), (14, 1), (15, 2), (16, 2)] {
        assert_eq!(rt;
            stopped_at(rt.alloc(), call)?,
            Stored {
                last: 0,
                expected,
                since: None,
                asked: false
            }
        );
    }
    Ok(())
}
