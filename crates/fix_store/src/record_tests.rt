//! Records of several entries, withheld messages, resets that the counterparty is asked for, and the mark: their
//! bytes, where a file with one is damaged, and what a stop leaves.
use super::*;
use fix_base::{OutOfMemory, Stored};
use fix_disk::{Disk, MemoryDisk};
use fix_journal::{Journal, OpenFault};
use std::alloc::Global;
use std::test::Fail;

const CAPACITY: usize = 4_000_000;

/// The payload of a Heartbeat that was sent at 5.
const BEAT: [u8; 14] = [3, 0, 0, 0, 0, 0, 0, 0, 5, b'0', 0, 0, 0, 0];

/// The payload of an order that was sent at 6.
const ORDER: [u8; 14] = [1, 0, 0, 0, 0, 0, 0, 0, 6, b'3', b'5', b'=', b'D', 1];

/// The mark of version 2.
const MARK: [u8; 5] = [10, 0, 0, 0, 2];

fn blank(alloc: Global, fuse: Option<u64>) -> Result<MemoryDisk, OutOfMemory> {
    MemoryDisk::new(alloc, CAPACITY, 0, Vec::new(alloc), fuse)
}

fn holding(alloc: Global, bytes: &[u8]) -> Result<MemoryDisk, OutOfMemory> {
    let mut disk = blank(alloc, None)?;
    match disk.write_at(0, bytes) {
        Ok(()) => Ok(disk),
        Err(_) => Err(OutOfMemory),
    }
}

fn opened(alloc: Global, disk: MemoryDisk) -> Result<Store<MemoryDisk>, OutOfMemory> {
    match Store::open(alloc, disk) {
        Ok(store) => Ok(store),
        Err(_) => Err(OutOfMemory),
    }
}

// A journal with these payloads.
fn with_payloads(alloc: Global, payloads: &[&[u8]]) -> Result<MemoryDisk, OutOfMemory> {
    let Ok(mut journal) = Journal::open(alloc, blank(alloc, None)?) else {
        return Err(OutOfMemory);
    };
    for payload in payloads {
        if payload.is_empty() {
            return Err(OutOfMemory);
        }
        if journal.append(payload).is_err() {
            return Err(OutOfMemory);
        }
    }
    Ok(journal.into_disk())
}

// What a file with these payloads tells, or why it isn't opened.
fn reading(alloc: Global, payloads: &[&[u8]]) -> Result<Result<Stored, OpenFault>, OutOfMemory> {
    let disk = with_payloads(alloc, payloads)?;
    match Store::open(alloc, holding(alloc, disk.bytes())?) {
        Ok(store) => Ok(Ok(store.stored())),
        Err(refused) => Ok(Err(refused.fault)),
    }
}

// The payload of so many entries that are alike, and an expected number.
fn many(
    alloc: Global,
    count: u32,
    expect: u32,
    entry: &[u8],
    times: u32,
) -> Result<Vec<u8>, OutOfMemory> {
    let mut payload = Vec::new(alloc);
    payload.extend_from_slice(&[6])?;
    payload.extend_from_slice(&count.to_be_bytes())?;
    payload.extend_from_slice(&expect.to_be_bytes())?;
    let Ok(size) = u32::try_from(entry.len()) else {
        return Err(OutOfMemory);
    };
    for _ in 0..times {
        payload.extend_from_slice(&size.to_be_bytes())?;
        payload.extend_from_slice(entry)?;
    }
    Ok(payload)
}

fn told(last: u32, expected: u32) -> Result<Stored, OpenFault> {
    Ok(Stored {
        last,
        expected,
        since: None,
        asked: false,
    })
}

#[test]
fn which_records_of_several_entries_there_are(rt: HostRuntime) -> Result<(), Fail> {
    let alloc = rt.alloc();
    let bad = Err(OpenFault::Damaged(9));
    let rows = [
        (0, 0, 0, bad),
        (1, 0, 1, bad),
        (1, 1, 1, told(1, 1)),
        (2, 0, 2, told(2, 1)),
        (64, 0, 64, told(64, 1)),
        (65, 0, 65, bad),
        (64, 1_000_000_000, 64, told(64, 1_000_000_000)),
        (64, 1_000_000_001, 64, bad),
        (2, 3, 1, bad),
        (2, 3, 3, bad),
    ];
    for (count, expect, times, wanted) in rows {
        let payload = many(alloc, count, expect, &BEAT, times)?;
        assert_eq!(rt; reading(alloc, &[&payload])?, wanted);
    }
    // A length that isn't the entry's, and an entry that is none.
    let mut long = many(alloc, 2, 0, &BEAT, 2)?;
    long.extend_from_slice(&[0])?;
    assert_eq!(rt; reading(alloc, &[&long])?, bad);
    let none = many(alloc, 2, 0, &[3; 14], 2)?;
    assert_eq!(rt; reading(alloc, &[&none])?, bad);
    let nested = many(alloc, 2, 0, &MARK, 2)?;
    assert_eq!(rt; reading(alloc, &[&nested])?, bad);
    Ok(())
}

#[test]
fn which_messages_may_be_withheld(rt: HostRuntime) -> Result<(), Fail> {
    let alloc = rt.alloc();
    let two = many(alloc, 2, 0, &ORDER, 2)?;
    // Entry 1 is a Heartbeat, and 2 and 3 are orders in one record.
    let place = 9 + 5 + BEAT.len() as u64 + 5 + two.len() as u64;
    for (number, fits) in [(0, false), (1, false), (2, true), (3, true), (4, false)] {
        let mut payload = Vec::new(alloc);
        payload.extend_from_slice(&[7])?;
        payload.extend_from_slice(&u32::to_be_bytes(number))?;
        let wanted = if fits {
            told(3, 1)
        } else {
            Err(OpenFault::Damaged(place))
        };
        assert_eq!(rt; reading(alloc, &[&BEAT, &two, &payload])?, wanted);
    }
    assert_eq!(rt;
        reading(alloc, &[&[7, 0, 0, 0]])?,
        Err(OpenFault::Damaged(9))
    );
    Ok(())
}

#[test]
fn what_stands_before_and_after_the_mark(rt: HostRuntime) -> Result<(), Fail> {
    let alloc = rt.alloc();
    let ask = [8, 0, 0, 0, 0, 0, 0, 0, 7].as_slice();
    let confirm = [9, 0, 0, 0, 0].as_slice();
    let mark = MARK.as_slice();
    let asked = Ok(Stored {
        last: 0,
        expected: 1,
        since: Some(7),
        asked: true,
    });
    let confirmed = Ok(Stored {
        last: 0,
        expected: 1,
        since: Some(7),
        asked: false,
    });
    assert_eq!(rt; reading(alloc, &[ask])?, Err(OpenFault::Damaged(9)));
    assert_eq!(rt; reading(alloc, &[confirm])?, Err(OpenFault::Damaged(9)));
    assert_eq!(rt; reading(alloc, &[mark])?, told(0, 1));
    assert_eq!(rt; reading(alloc, &[mark, mark])?, Err(OpenFault::Damaged(19)));
    assert_eq!(rt; reading(alloc, &[mark, ask])?, asked);
    assert_eq!(rt; reading(alloc, &[mark, ask, confirm])?, confirmed);
    assert_eq!(rt;
        reading(alloc, &[&[10, 0, 0, 0, 1]])?,
        Err(OpenFault::Damaged(9))
    );
    assert_eq!(rt;
        reading(alloc, &[mark, &[9, 0, 0, 0, 1]])?,
        Err(OpenFault::Damaged(19))
    );
    Ok(())
}

#[test]
fn an_opening_adds_the_mark(rt: HostRuntime) -> Result<(), Fail> {
    let alloc = rt.alloc();
    let new = opened(alloc, blank(alloc, None)?)?.into_disk();
    assert_eq!(rt;
        new.bytes(),
        b"\x01FIXJRNL1\x01\0\0\0\x05\x0a\0\0\0\x02\0".as_slice()
    );
    let again = opened(alloc, holding(alloc, new.bytes())?)?.into_disk();
    assert_eq!(rt; again.bytes(), new.bytes());
    let old = with_payloads(alloc, &[&[4, 0, 0, 0, 2]])?;
    let marked = opened(alloc, holding(alloc, old.bytes())?)?.into_disk();
    assert_eq!(rt;
        marked.bytes(),
        b"\x01FIXJRNL1\x01\0\0\0\x05\x04\0\0\0\x02\x01\0\0\0\x05\x0a\0\0\0\x02\0".as_slice()
    );
    Ok(())
}

#[test]
fn a_stop_while_the_mark_is_added_leaves_the_end(rt: HostRuntime) -> Result<(), Fail> {
    let alloc = rt.alloc();
    let old = with_payloads(alloc, &[&BEAT, &[4, 0, 0, 0, 2]])?;
    let mut stopped: u32 = 0;
    for call in 1..=20 {
        let mut disk = blank(alloc, Some(call + 1))?;
        if disk.write_at(0, old.bytes()).is_err() {
            return Err(Fail::from(OutOfMemory));
        }
        match Store::open(alloc, disk) {
            Ok(_) => {}
            Err(refused) => {
                stopped = stopped.saturating_add(1);
                assert_eq!(rt; refused.fault, OpenFault::DiskFault);
                let left = holding(alloc, refused.disk.bytes())?;
                assert_eq!(rt; opened(alloc, left)?.stored(), told(1, 2).unwrap_or(OTHER));
            }
        }
    }
    assert!(rt; stopped >= 4);
    Ok(())
}

const OTHER: Stored = Stored {
    last: 0,
    expected: 0,
    since: None,
    asked: false,
};
