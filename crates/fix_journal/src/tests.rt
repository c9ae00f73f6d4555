//! The bytes of a journal's file, which files are damaged, and what a stop at a call of the disk leaves.
use super::*;
use fix_base::OutOfMemory;
use fix_disk::{Disk, MemoryDisk};
use std::alloc::Global;
use std::test::Fail;

const EMPTY: [u8; 10] = *b"\x01FIXJRNL1\x00";

const EXPECT_2: [u8; 5] = [4, 0, 0, 0, 2];

const WITH_EXPECT_2: [u8; 20] = *b"\x01FIXJRNL1\x01\x00\x00\x00\x05\x04\x00\x00\x00\x02\x00";

fn blank(alloc: Global, fail: &[u64], fuse: Option<u64>) -> Result<MemoryDisk, OutOfMemory> {
    MemoryDisk::new(alloc, 64, 0, Vec::from_slice(alloc, fail)?, fuse)
}

fn holding(alloc: Global, bytes: &[u8]) -> Result<MemoryDisk, OutOfMemory> {
    let mut disk = blank(alloc, &[], None)?;
    match disk.write_at(0, bytes) {
        Ok(()) => Ok(disk),
        Err(_) => Err(OutOfMemory),
    }
}

fn opened(alloc: Global, disk: MemoryDisk) -> Result<Journal<MemoryDisk>, OutOfMemory> {
    match Journal::open(alloc, disk) {
        Ok(journal) => Ok(journal),
        Err(_) => Err(OutOfMemory),
    }
}

fn found(alloc: Global, disk: MemoryDisk) -> Result<u64, OpenFault> {
    match Journal::open(alloc, disk) {
        Ok(journal) => Ok(journal.count()),
        Err(refused) => Err(refused.fault),
    }
}

// How many records a file has, or why it isn't opened.
fn meaning(alloc: Global, bytes: &[u8]) -> Result<Result<u64, OpenFault>, OutOfMemory> {
    Ok(found(alloc, holding(alloc, bytes)?))
}

#[test]
fn a_new_journal_is_its_name_and_a_closed_gate(rt: HostRuntime) -> Result<(), Fail> {
    let journal = opened(rt.alloc(), blank(rt.alloc(), &[], None)?)?;
    assert_eq!(rt; journal.count(), 0);
    assert_eq!(rt; journal.into_disk().bytes(), EMPTY.as_slice());
    Ok(())
}

#[test]
fn a_record_is_its_gate_length_and_payload(rt: HostRuntime) -> Result<(), Fail> {
    let mut journal = opened(rt.alloc(), blank(rt.alloc(), &[], None)?)?;
    assert_eq!(rt; journal.append(&EXPECT_2), Ok(0));
    assert_eq!(rt; journal.into_disk().bytes(), WITH_EXPECT_2.as_slice());
    Ok(())
}

// The making of a blank file takes eight calls, so an append's are the ninth to the twelfth.
fn stopped_at(alloc: Global, call: u64) -> Result<Result<u64, OpenFault>, OutOfMemory> {
    let mut journal = opened(alloc, blank(alloc, &[], Some(call))?)?;
    match journal.append(&EXPECT_2) {
        Err(AppendFault::DiskFault) => meaning(alloc, journal.into_disk().bytes()),
        _ => Err(OutOfMemory),
    }
}

#[test]
fn a_stop_before_the_gate_is_opened_leaves_no_record(rt: HostRuntime) -> Result<(), Fail> {
    assert_eq!(rt; stopped_at(rt.alloc(), 9)?, Ok(0));
    assert_eq!(rt; stopped_at(rt.alloc(), 10)?, Ok(0));
    Ok(())
}

#[test]
fn a_stop_at_the_gate_shows_the_record_where_its_write_got_through(
    rt: HostRuntime,
) -> Result<(), Fail> {
    assert_eq!(rt; stopped_at(rt.alloc(), 11)?, Ok(1));
    assert_eq!(rt; stopped_at(rt.alloc(), 12)?, Ok(1));
    Ok(())
}

#[test]
fn a_record_is_read_back(rt: HostRuntime) -> Result<(), Fail> {
    let mut journal = opened(rt.alloc(), holding(rt.alloc(), &WITH_EXPECT_2)?)?;
    let mut into = Vec::new(rt.alloc());
    assert_eq!(rt; journal.append(b"xyz"), Ok(1));
    assert!(rt; journal.count() > 1);
    assert!(rt; journal.read(1, &mut into).is_ok());
    assert_eq!(rt; into.as_slice(), b"xyz".as_slice());
    assert!(rt; journal.count() > 0);
    assert!(rt; journal.read(0, &mut into).is_ok());
    assert_eq!(rt; into.as_slice(), EXPECT_2.as_slice());
    Ok(())
}

#[test]
fn behind_a_fault_everything_is_stopped(rt: HostRuntime) -> Result<(), Fail> {
    let mut journal = opened(rt.alloc(), blank(rt.alloc(), &[14], None)?)?;
    let mut into = Vec::new(rt.alloc());
    assert_eq!(rt; journal.append(&EXPECT_2), Ok(0));
    assert_eq!(rt; journal.append(b"xyz"), Err(AppendFault::DiskFault));
    assert_eq!(rt; journal.append(b"xyz"), Err(AppendFault::Stopped));
    assert!(rt; journal.count() > 0);
    assert_eq!(rt; journal.read(0, &mut into), Err(ReadFault::Stopped));
    let again = opened(rt.alloc(), journal.into_disk())?;
    assert_eq!(rt; again.count(), 1);
    Ok(())
}

#[test]
fn the_longest_payload_is_kept_and_a_longer_one_is_not(rt: HostRuntime) -> Result<(), Fail> {
    let alloc = rt.alloc();
    let disk = MemoryDisk::new(alloc, 2_000_000, 0, Vec::new(alloc), None)?;
    let mut journal = opened(alloc, disk)?;
    let mut payload = Vec::new(alloc);
    payload.resize(1_114_113, 7)?;
    assert_eq!(rt; journal.append(&payload), Err(AppendFault::TooLong));
    assert_eq!(rt; journal.append(&payload[1..]), Ok(0));
    assert_eq!(rt; journal.append(&payload), Err(AppendFault::TooLong));
    assert_eq!(rt; journal.into_disk().len(), Ok(1_114_127));
    Ok(())
}

#[test]
fn a_file_without_its_name_is_damaged_at_1(rt: HostRuntime) -> Result<(), Fail> {
    assert_eq!(rt;
        meaning(rt.alloc(), b"\x01\0\0\0\0\0\0\0\0\0")?,
        Err(OpenFault::Damaged(1))
    );
    Ok(())
}

#[test]
fn an_open_gate_without_a_record_is_damage(rt: HostRuntime) -> Result<(), Fail> {
    assert_eq!(rt;
        meaning(rt.alloc(), b"\x01FIXJRNL1\x01\0\0\0\0")?,
        Err(OpenFault::Damaged(9))
    );
    assert_eq!(rt;
        meaning(rt.alloc(), &WITH_EXPECT_2[..19])?,
        Err(OpenFault::Damaged(9))
    );
    Ok(())
}

#[test]
fn any_other_gate_is_closed(rt: HostRuntime) -> Result<(), Fail> {
    assert_eq!(rt; meaning(rt.alloc(), b"\x01FIXJRNL1\x02")?, Ok(0));
    assert_eq!(rt; meaning(rt.alloc(), b"\x01")?, Ok(0));
    Ok(())
}

#[test]
fn a_payload_has_no_meaning_here(rt: HostRuntime) -> Result<(), Fail> {
    assert_eq!(rt;
        meaning(rt.alloc(), b"\x01FIXJRNL1\x01\0\0\0\x01\x07\0")?,
        Ok(1)
    );
    Ok(())
}

#[test]
fn an_unmade_file_keeps_what_stands_behind_its_gate(rt: HostRuntime) -> Result<(), Fail> {
    let journal = opened(rt.alloc(), holding(rt.alloc(), b"\0unmade...xyz")?)?;
    assert_eq!(rt;
        journal.into_disk().bytes(),
        b"\x01FIXJRNL1\0xyz".as_slice()
    );
    Ok(())
}

// What a stop at this call of the making of a file leaves.
fn making_stopped_at(alloc: Global, call: u64) -> Result<Result<u64, OpenFault>, OutOfMemory> {
    match Journal::open(alloc, blank(alloc, &[], Some(call))?) {
        Ok(_) => Err(OutOfMemory),
        Err(refused) => match refused.fault {
            OpenFault::DiskFault => meaning(alloc, refused.disk.bytes()),
            _ => Err(OutOfMemory),
        },
    }
}

#[test]
fn a_stop_in_the_making_leaves_no_record(rt: HostRuntime) -> Result<(), Fail> {
    assert_eq!(rt; making_stopped_at(rt.alloc(), 1)?, Ok(0));
    assert_eq!(rt; making_stopped_at(rt.alloc(), 3)?, Ok(0));
    assert_eq!(rt; making_stopped_at(rt.alloc(), 5)?, Ok(0));
    assert_eq!(rt; making_stopped_at(rt.alloc(), 7)?, Ok(0));
    assert_eq!(rt; making_stopped_at(rt.alloc(), 8)?, Ok(0));
    Ok(())
}

// Records of one byte, more than one read holds, and one that is longer than a read after them.
fn many(alloc: Global, count: usize) -> Result<Vec<u8>, OutOfMemory> {
    let mut file = Vec::from_slice(alloc, b"\x01FIXJRNL1")?;
    for _ in 0..count {
        file.extend_from_slice(b"\x01\0\0\0\x01x")?;
    }
    file.extend_from_slice(b"\x01\0\x01\x86\xa0")?;
    file.resize(file.len().saturating_add(100_000), 1)?;
    file.extend_from_slice(&[0])?;
    Ok(file)
}

fn large(alloc: Global, bytes: &[u8]) -> Result<MemoryDisk, OutOfMemory> {
    let mut disk = MemoryDisk::new(alloc, 300_000, 0, Vec::new(alloc), None)?;
    match disk.write_at(0, bytes) {
        Ok(()) => Ok(disk),
        Err(_) => Err(OutOfMemory),
    }
}

#[test]
fn records_are_found_behind_what_one_read_gives(rt: HostRuntime) -> Result<(), Fail> {
    let alloc = rt.alloc();
    let mut file = many(alloc, 20_000)?;
    let mut journal = opened(alloc, large(alloc, &file)?)?;
    let mut into = Vec::new(alloc);
    assert_eq!(rt; journal.count(), 20_001);
    assert!(rt; journal.count() > 19_999);
    assert!(rt; journal.read(19_999, &mut into).is_ok());
    assert_eq!(rt; into.as_slice(), b"x".as_slice());
    assert!(rt; journal.count() > 20_000);
    assert!(rt; journal.read(20_000, &mut into).is_ok());
    assert_eq!(rt; into.len(), 100_000);
    // Without the gate after it the last record is none.
    file.truncate(file.len().saturating_sub(1));
    assert_eq!(rt;
        found(alloc, large(alloc, &file)?),
        Err(OpenFault::Damaged(120_009))
    );
    Ok(())
}
