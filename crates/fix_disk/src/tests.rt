//! Disks, sources and sinks, in memory and over real files: what they give back, and when they fail.
use super::*;
use fix_base::{Bytes, OutOfMemory};
use std::alloc::Global;
use std::fs;
use std::test::Fail;

fn memory_disk(alloc: Global, past: usize, fail: &[u64]) -> Result<MemoryDisk, OutOfMemory> {
    MemoryDisk::new(alloc, 8, past, Vec::from_slice(alloc, fail)?, None)
}

fn whole<D: Disk>(alloc: Global, disk: &mut D) -> Result<Vec<u8>, Fail> {
    let length = disk.len().map_err(|_| OutOfMemory)?;
    let mut bytes = Vec::new(alloc);
    bytes.resize(length as usize, 0)?;
    disk.read_at(0, &mut bytes).map_err(|_| OutOfMemory)?;
    Ok(bytes)
}

#[test]
fn a_disk_in_memory_reads_what_was_written(rt: HostRuntime) -> Result<(), Fail> {
    let mut disk = memory_disk(rt.alloc(), 0, &[])?;
    assert!(rt; disk.write_at(0, b"abcd").is_ok());
    assert!(rt; disk.write_at(3, b"xyz").is_ok());
    assert!(rt; disk.sync().is_ok());
    assert_eq!(rt; disk.bytes(), b"abcxyz".as_slice());
    Ok(())
}

#[test]
fn a_list_of_two_steps_takes_two(rt: HostRuntime) -> Result<(), Fail> {
    let mut disk = memory_disk(rt.alloc(), 2, &[])?;
    assert!(rt; disk.write_at(0, b"abcd").is_ok());
    assert!(rt; disk.sync().is_ok());
    assert_eq!(rt; disk.sync(), Err(DiskFailed));
    assert_eq!(rt; disk.len(), Ok(4));
    Ok(())
}

#[test]
fn a_struck_write_shows_whole(rt: HostRuntime) -> Result<(), Fail> {
    let mut disk = memory_disk(rt.alloc(), 0, &[1])?;
    assert_eq!(rt; disk.write_at(0, b"abcd"), Err(DiskFailed));
    assert_eq!(rt; disk.bytes(), b"abcd".as_slice());
    assert_eq!(rt; disk.write_at(4, b"efghi"), Err(DiskFailed));
    assert_eq!(rt; disk.len(), Ok(4));
    Ok(())
}

fn five_bytes(alloc: Global, fail: &[u64]) -> Result<MemoryFiles, Fail> {
    let mut files = Vec::new(alloc);
    files.push((Bytes::copy(alloc, b"a")?, Bytes::copy(alloc, b"12345")?))?;
    files.push((Bytes::copy(alloc, b"a")?, Bytes::copy(alloc, b"6")?))?;
    Ok(MemoryFiles::new(files, Vec::from_slice(alloc, fail)?))
}

#[test]
fn a_file_of_five_bytes_is_too_long_for_four(rt: HostRuntime) -> Result<(), Fail> {
    let mut files = five_bytes(rt.alloc(), &[2])?;
    assert_eq!(rt; files.read(rt.alloc(), "a", 4), Err(SourceFault::TooLong));
    assert_eq!(rt; files.read(rt.alloc(), "a", 5), Err(SourceFault::Failed));
    assert_eq!(rt; files.read(rt.alloc(), "b", 5), Err(SourceFault::Failed));
    assert_eq!(rt;
        files.read(rt.alloc(), "a", 5),
        Ok(Bytes::copy(rt.alloc(), b"12345")?)
    );
    Ok(())
}

#[test]
fn a_sink_in_memory_keeps_up_to_its_capacity(rt: HostRuntime) -> Result<(), Fail> {
    let mut sink = MemorySink::new(rt.alloc(), 4, Vec::from_slice(rt.alloc(), &[2])?)?;
    assert!(rt; sink.write(b"abc").is_ok());
    assert_eq!(rt; sink.write(b"d"), Err(SinkFailed));
    assert_eq!(rt; sink.write(b"de"), Err(SinkFailed));
    assert!(rt; sink.write(b"d").is_ok());
    assert_eq!(rt; sink.written(), b"abcd".as_slice());
    Ok(())
}

fn new_folder(rt: &HostRuntime, name: &str) -> Result<(), Fail> {
    let _ = fs::remove_dir_all(rt, name);
    fs::create_dir(rt, name)?;
    Ok(())
}

#[test]
fn a_file_is_a_disk(rt: HostRuntime) -> Result<(), Fail> {
    new_folder(&rt, "fix_disk_is_a_disk")?;
    let mut disk = FileDisk::open(&rt, "fix_disk_is_a_disk/a");
    assert_eq!(rt; disk.refusal(), None);
    assert_eq!(rt; disk.write_at(0, b"abcd"), Ok(()));
    assert_eq!(rt; disk.write_at(3, b"xyz"), Ok(()));
    assert_eq!(rt; disk.sync(), Ok(()));
    let mut room = [0; 4];
    assert_eq!(rt; disk.read_at(2, &mut room), Ok(()));
    assert_eq!(rt; room, *b"cxyz");
    assert_eq!(rt; disk.read_at(3, &mut room), Err(DiskFailed));
    assert_eq!(rt; disk.write_at(7, b"!"), Err(DiskFailed));
    assert_eq!(rt; disk.len(), Ok(6));
    fs::remove_dir_all(&rt, "fix_disk_is_a_disk")?;
    Ok(())
}

#[test]
fn a_file_is_one_disk_at_a_time(rt: HostRuntime) -> Result<(), Fail> {
    new_folder(&rt, "fix_disk_one_at_a_time")?;
    let mut disk = FileDisk::open(&rt, "fix_disk_one_at_a_time/a");
    assert_eq!(rt; disk.write_at(0, b"abc"), Ok(()));
    let mut second = FileDisk::open(&rt, "fix_disk_one_at_a_time/a");
    assert_eq!(rt; second.refusal(), Some(FileRefusal::InUse));
    assert_eq!(rt; second.write_at(0, b"x"), Err(DiskFailed));
    drop(disk);
    let mut third = FileDisk::open(&rt, "fix_disk_one_at_a_time/a");
    assert_eq!(rt;
        whole(rt.alloc(), &mut third)?.as_slice(),
        b"abc".as_slice()
    );
    fs::remove_dir_all(&rt, "fix_disk_one_at_a_time")?;
    Ok(())
}

#[test]
fn a_folder_and_a_read_only_file_are_no_disks(rt: HostRuntime) -> Result<(), Fail> {
    new_folder(&rt, "fix_disk_no_disks")?;
    let mut folder = FileDisk::open(&rt, "fix_disk_no_disks");
    assert_eq!(rt; folder.refusal(), Some(FileRefusal::NotOpened));
    assert_eq!(rt; folder.len(), Err(DiskFailed));
    assert_eq!(rt; folder.sync(), Err(DiskFailed));
    fs::write(&rt, "fix_disk_no_disks/a", b"abc".as_slice())?;
    let mut only_read = fs::metadata(&rt, "fix_disk_no_disks/a")?.permissions();
    only_read.set_readonly(true);
    fs::set_permissions(&rt, "fix_disk_no_disks/a", only_read)?;
    let mut disk = FileDisk::open(&rt, "fix_disk_no_disks/a");
    assert!(rt; disk.refusal().is_some());
    assert_eq!(rt; disk.read_at(0, &mut [0]), Err(DiskFailed));
    fs::remove_dir_all(&rt, "fix_disk_no_disks")?;
    Ok(())
}

#[test]
fn a_file_is_read_up_to_a_limit(rt: HostRuntime) -> Result<(), Fail> {
    new_folder(&rt, "fix_disk_limit")?;
    fs::write(&rt, "fix_disk_limit/a", b"12345".as_slice())?;
    let mut source = FileSource::new(rt);
    assert_eq!(rt;
        source.read(rt.alloc(), "fix_disk_limit/a", 5),
        Ok(Bytes::copy(rt.alloc(), b"12345")?)
    );
    assert_eq!(rt;
        source.read(rt.alloc(), "fix_disk_limit/a", 4),
        Err(SourceFault::TooLong)
    );
    assert_eq!(rt;
        source.read(rt.alloc(), "fix_disk_limit/b", 4),
        Err(SourceFault::Failed)
    );
    assert_eq!(rt;
        source.read(rt.alloc(), "fix_disk_limit", 4),
        Err(SourceFault::Failed)
    );
    fs::remove_dir_all(&rt, "fix_disk_limit")?;
    Ok(())
}

#[test]
fn a_stream_takes_what_is_written(rt: HostRuntime) -> Result<(), Fail> {
    new_folder(&rt, "fix_disk_stream")?;
    let mut sink = StreamSink::new(fs::File::create(&rt, "fix_disk_stream/a")?);
    assert_eq!(rt; sink.write(b"abc"), Ok(()));
    assert_eq!(rt;
        fs::read(&rt, "fix_disk_stream/a")?.as_slice(),
        b"abc".as_slice()
    );
    let mut closed = StreamSink::new(fs::File::open(&rt, "fix_disk_stream/a")?);
    assert_eq!(rt; closed.write(b"x"), Err(SinkFailed));
    fs::remove_dir_all(&rt, "fix_disk_stream")?;
    Ok(())
}
