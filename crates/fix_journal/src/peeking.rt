//! Reads records whose places are known, none past a place where there is a byte. Lengths are read from the file:
//! one that no record has, as a disk may give that doesn't tell its bytes, is cut down. `journal` calls this.
ghost use Rattle.std.specs.Prelude.{◌≡◌, ◌+◌, ◌-◌, ◌≤◌, min, List, ℕ, take, drop, length, vec_capacity, Some, IfOk};
ghost use Rattle.std.specs.Prelude.{OnOk, slice_index, IsSome};
ghost use Rattle.fix_disk.specs.Disk.{HasRange, failures};
ghost use Rattle.fix_disk.specs.Moments.{NeedsRoom};
ghost use Rattle.fix_journal.specs.Format.{MOST_PAYLOAD};
ghost use Rattle.fix_journal.specs.Journal.{Holds};
ghost use Rattle.fix_journal.specs.Index.{IsUnderMark};
ghost use Rattle.fix_journal.specs.Cursors.{Shows, Gives, ReadsFile, MOST_AT_ONCE, Lies, Begins};
ghost use Rattle.fix_journal.specs.Window.{CallsAtMost};

use crate::Peek;
use crate::heads::MOST_PAYLOAD;
use fix_disk::{Disk, DiskFailed};
use std::alloc::AllocError;

// How many bytes of a record are read at first: its gate, its length, and a short payload.
const FIRST_READ: u64 = 4096;

// Looks at the record whose gate is at a place.
pub(crate) fn look<D: Disk>(disk: &mut D, place: u64, limit: u64) -> Result<Peek, DiskFailed>
    requires { HasRange (D.disk disk.old).bytes place (limit - place) }
    ensures shows { (file payload : List ℕ) → (D.disk disk.old).bytes ≡ Some file → Lies file place limit payload
        → IfOk result (λ p. Shows p payload) }
    ensures few { IfOk result (λ p. p.length ≤ MOST_PAYLOAD) }
    ensures moves { ReadsFile (failures result) 1 (D.disk disk.old) (D.disk disk.new) }
    ensures room { NeedsRoom (failures result) 0 (D.disk disk.old) (D.disk disk.new) }
{
    let mut room = [0; 10];
    let left = limit.saturating_sub(place);
    let count = left.min(10) as usize;
    match disk.read_at(place, &mut room[..count]) {
        Ok(()) => Ok(peek_in(&room[..count], left.saturating_sub(5))),
        Err(DiskFailed) => Err(DiskFailed),
    }
}

// Reads the payload of a record whose gate is at a place, into room that is taken.
pub(crate) fn read_record<D: Disk>(
    disk: &mut D,
    place: u64,
    limit: u64,
    into: &mut Vec<u8>,
) -> Result<(), DiskFailed>
    requires within { HasRange (D.disk disk.old).bytes place (limit - place) }
    requires room { min (limit - place) 1114117 ≤ vec_capacity into.old }
    ensures read { (file payload : List ℕ) → (D.disk disk.old).bytes ≡ Some file → Lies file place limit payload
        → OnOk result (into.new.items ≡ payload) }
    ensures moves { ReadsFile (failures result) 2 (D.disk disk.old) (D.disk disk.new) }
    ensures short { (file payload : List ℕ) → (D.disk disk.old).bytes ≡ Some file → Lies file place limit payload
        → length payload ≤ MOST_AT_ONCE → CallsAtMost 1 (D.disk disk.old) (D.disk disk.new) }
    ensures room { NeedsRoom (failures result) 0 (D.disk disk.old) (D.disk disk.new) }
{
    let left = limit.saturating_sub(place);
    fill_up(into, left.min(FIRST_READ) as usize);
    match disk.read_at(place, into) {
        Ok(()) => {}
        Err(DiskFailed) => return Err(DiskFailed),
    }
    let size = size_in(into, left.saturating_sub(5));
    if 5 + size <= into.len() as u64 {
        keep_payload(into, size as usize);
        return Ok(());
    }
    fill_up(into, size as usize);
    disk.read_at(past(place, 5, limit), into)
}

// Reads the payload of the record with this index. Its mark's gate is at a place.
pub(crate) fn read_after<D: Disk>(
    disk: &mut D,
    mark: u64,
    limit: u64,
    index: u64,
    into: &mut Vec<u8>,
) -> Result<(), DiskFailed>
    requires told { IsSome (D.disk disk.old).bytes → (payloads : List (List ℕ)) × Holds (D.disk disk.old) payloads }
    requires there { (payloads : List (List ℕ)) → Holds (D.disk disk.old) payloads
        → IsUnderMark payloads mark limit index }
    requires room { min (limit - mark) 1114117 ≤ vec_capacity into.old }
    ensures read { OnOk result (Gives (D.disk disk.old) index into.new.items) }
    ensures moves { ReadsFile (failures result) 65 (D.disk disk.old) (D.disk disk.new) }
    ensures room { NeedsRoom (failures result) 0 (D.disk disk.old) (D.disk disk.new) }
{
    let mut place = mark;
    for done in 0..index % 64 {
        match look(disk, place, limit) {
            Ok(p) => place = past(place, 5 + p.length as u64, limit),
            Err(DiskFailed) => return Err(DiskFailed),
        }
    }
    read_record(disk, place, limit, into)
}

// The place so many bytes after another, and no further than a limit.
pub(crate) fn past(place: u64, count: u64, limit: u64) -> u64
    ensures is { place + count ≤ limit → result ≡ place + count }
    ensures within { result ≤ limit }
    ensures from { min place limit ≤ result }
{
    place.saturating_add(count).min(limit)
}

// Takes the room for any payload of a record between two places.
pub(crate) fn take_room(into: &mut Vec<u8>, place: u64, limit: u64) -> Result<(), AllocError>
    ensures { IfOk result (λ _. min (limit - place) 1114117 ≤ vec_capacity into.new) }
{
    into.clear();
    into.reserve(limit.saturating_sub(place).min(5 + MOST_PAYLOAD) as usize)
}

// What the first bytes from a gate on show.
fn peek_in(head: &[u8], most: u64) -> Peek
    ensures few { result.length ≤ MOST_PAYLOAD }
    ensures shows { (payload : List ℕ) → Begins head.now payload → length payload ≤ 1114112 → length payload ≤ most
        → Shows result payload }
{
    let size = size_in(head, most);
    Peek {
        length: size as u32,
        head: [
            byte_at(head, 0, size),
            byte_at(head, 1, size),
            byte_at(head, 2, size),
            byte_at(head, 3, size),
            byte_at(head, 4, size),
        ],
    }
}

// A payload's byte, or 0 after its end.
fn byte_at(head: &[u8], index: u64, size: u64) -> u8
    requires { index ≤ 4 }
    ensures { (payload : List ℕ) → Begins head.now payload → length payload ≡ size
        → result ≡ slice_index payload index }
{
    let at = 5 + index as usize;
    if index < size && at < head.len() {
        head[at]
    } else {
        0
    }
}

// The length of a payload, by the first bytes from a gate on.
fn size_in(head: &[u8], most: u64) -> u64
    ensures few { result ≤ 1114112 }
    ensures most { result ≤ most }
    ensures is { (payload : List ℕ) → Begins head.now payload → length payload ≤ 1114112 → length payload ≤ most
        → result ≡ length payload }
{
    if head.len() < 5 {
        return 0;
    }
    let size = u32::from_be_bytes([head[1], head[2], head[3], head[4]]) as u64;
    size.min(MOST_PAYLOAD).min(most)
}

// Takes a payload's gate and length away, and what stands after it.
fn keep_payload(into: &mut Vec<u8>, size: usize)
    requires { 5 + size ≤ length into.old.items }
    ensures { into.new.items ≡ take size (drop 5 into.old.items) }
{
    into.copy_within(5..5 + size, 0);
    into.truncate(size);
}

// So many bytes, in room that is there.
fn fill_up(into: &mut Vec<u8>, count: usize)
    requires { count ≤ vec_capacity into.old }
    ensures length { length into.new.items ≡ count }
    ensures capacity { vec_capacity into.old ≤ vec_capacity into.new }
{
    match into.resize(count, 0) {
        Ok(()) => {}
        Err(_) => unreachable!(),
    }
}
