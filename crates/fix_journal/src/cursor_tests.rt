//! A walk with a cursor: what is seen of a record, and its payload, short or long.
use super::*;
use fix_base::OutOfMemory;
use fix_disk::{Disk, MemoryDisk};
use std::alloc::Global;
use std::test::Fail;

fn holding(alloc: Global, bytes: &[u8]) -> Result<Journal<MemoryDisk>, OutOfMemory> {
    let mut disk = MemoryDisk::new(alloc, 10_000, 0, Vec::new(alloc), None)?;
    if disk.write_at(0, bytes).is_err() {
        return Err(OutOfMemory);
    }
    match Journal::open(alloc, disk) {
        Ok(journal) => Ok(journal),
        Err(_) => Err(OutOfMemory),
    }
}

#[test]
fn a_cursor_looks_skips_and_takes(rt: HostRuntime) -> Result<(), Fail> {
    let alloc = rt.alloc();
    let file = b"\x01FIXJRNL1\x01\0\0\0\x06abcdef\x01\0\0\0\x03xyz\0";
    let mut journal = holding(alloc, file)?;
    let mut into = Vec::new(alloc);
    assert!(rt; journal.count() > 1);
    let mut c = journal.at_mark(0);
    let Ok(first) = journal.peek(&c) else {
        return Err(OutOfMemory.into());
    };
    assert_eq!(rt; (first.length, first.head), (6, *b"abcde"));
    journal.skip(&mut c, &first);
    assert_eq!(rt; (c.index(), c.place()), (1, 20));
    let Ok(second) = journal.peek(&c) else {
        return Err(OutOfMemory.into());
    };
    assert_eq!(rt; (second.length, second.head), (3, *b"xyz\0\0"));
    assert!(rt; journal.take(&c, &second, &mut into).is_ok());
    assert_eq!(rt; into.as_slice(), b"xyz".as_slice());
    Ok(())
}

#[test]
fn a_walk_gives_short_and_long_payloads(rt: HostRuntime) -> Result<(), Fail> {
    let alloc = rt.alloc();
    let mut file = Vec::from_slice(alloc, b"\x01FIXJRNL1\x01\0\0\0\x01a\x01\0\0\x13\x88")?;
    file.resize(5020, 7)?;
    file.extend_from_slice(b"\x01\0\0\0\x02bc\0")?;
    let mut journal = holding(alloc, &file)?;
    let mut into = Vec::new(alloc);
    assert!(rt; journal.count() > 2);
    let mut c = journal.at_mark(0);
    assert!(rt; journal.next(&mut c, &mut into).is_ok());
    assert_eq!(rt; into.as_slice(), b"a".as_slice());
    assert!(rt; c.index() < journal.count());
    assert!(rt; journal.next(&mut c, &mut into).is_ok());
    assert_eq!(rt; into.len(), 5000);
    assert!(rt; c.index() < journal.count());
    assert!(rt; journal.next(&mut c, &mut into).is_ok());
    assert_eq!(rt; into.as_slice(), b"bc".as_slice());
    assert_eq!(rt; (c.index(), c.place()), (3, 5027));
    Ok(())
}

// Records of one byte, six bytes each.
fn ones(alloc: Global, count: usize) -> Result<Vec<u8>, OutOfMemory> {
    let mut file = Vec::from_slice(alloc, b"\x01FIXJRNL1")?;
    for _ in 0..count {
        file.extend_from_slice(b"\x01\0\0\0\x01x")?;
    }
    file.extend_from_slice(&[0])?;
    Ok(file)
}

#[test]
fn every_64th_record_has_a_mark(rt: HostRuntime) -> Result<(), Fail> {
    let alloc = rt.alloc();
    let mut journal = holding(alloc, &ones(alloc, 127)?)?;
    let mut into = Vec::new(alloc);
    assert_eq!(rt; journal.append(b"y"), Ok(127));
    assert!(rt; journal.count() >= 128);
    assert_eq!(rt; journal.at_mark(1).place(), 393);
    assert_eq!(rt; journal.at_mark(2).place(), 777);
    assert!(rt; journal.read(127, &mut into).is_ok());
    assert_eq!(rt; into.as_slice(), b"y".as_slice());
    assert!(rt; journal.count() >= 128);
    assert!(rt; journal.read(64, &mut into).is_ok());
    assert_eq!(rt; into.as_slice(), b"x".as_slice());
    Ok(())
}
