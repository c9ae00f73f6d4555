//! Finds the record of an entry: by `counts` the last 64th record that doesn't stand after it, and from there on
//! record by record. `store` reads an entry by it, and `walking` one that is withheld.
ghost use Rattle.std.specs.Prelude.{◌≡◌, ◌+◌, ◌-◌, ◌≤◌, ◌<◌, ◌^◌, min, ℕ, List, Some, IsSome, IfSome};
ghost use Rattle.std.specs.Prelude.{IfOk, OnOk, false, length};
ghost use Rattle.fix_base.specs.declared.entry.Entry.{Entry as TheEntry};
ghost use Rattle.fix_journal.specs.Journal.{Holds, read_failures};
ghost use Rattle.fix_journal.specs.Cursors.{Stands, IsPeek, Gives, head_of};
ghost use Rattle.fix_store.specs.Spelling.{Item, spelled_item};
ghost use Rattle.fix_store.specs.Counts.{counted_in, IsSearchable};
ghost use Rattle.fix_store.specs.Folding.{IsFit, Reads, pushes_of, pushed, entries_before, IsCountOf};
ghost use Rattle.fix_store.specs.Finding.{StandFirst, Sought, IsAt, IsFoundAt, IsSpotOn, IsSpotOf, AreSpotsOn, AreSpotsOf};
ghost use Rattle.fix_store.specs.Finding.{IsLater, IsNearest, StandsIn};
ghost use Rattle.fix_store.specs.declared.finding.Found.{Found as TheFound};

use crate::counts::{Counts, mark_between};
use fix_disk::Disk;
use fix_journal::{Cursor, Journal, Peek, ReadFault};

/// How many records there are from one that is counted to the next.
const STRIDE: u64 = 64;

/// The first byte of a record of several entries.
const MANY: u8 = 6;

/// The greatest first byte of a record of one entry.
const LAST_ENTRY: u8 = 3;

// A record, and how many entries stand before it.
#[derive(Clone, Copy)]
pub(crate) struct Spot {
    pub(crate) cursor: Cursor,
    pub(crate) before: u64,
}

// Where an entry was found.
#[derive(Clone, Copy)]
pub(crate) struct Found {
    // How many entries stand before it in its record.
    pub(crate) nth: u32,
    // Its record.
    pub(crate) at: Spot,
    // The next record.
    pub(crate) after: Spot,
}

// Reads the record of the entry of this number, beginning where one was found before if that is nearer. Only a
// disk that doesn't tell its bytes has it nowhere.
pub(crate) fn find<D: Disk>(
    journal: &mut Journal<D>,
    counts: &Counts,
    near: Option<Found>,
    number: u32,
    payload: &mut Vec<u8>,
) -> Result<Found, ReadFault>
    requires goes_on { journal.old.stopped ≡ false }
    requires searchable { IsSearchable (counted_in counts.now) journal.old.count }
    requires first { 1 ≤ number }
    requires last { number ≤ counts.now.last }
    requires near { IfSome near (AreSpotsOn D.disk journal.old) }
    ensures found { (payloads : List (List ℕ)) (items : List Item) (out : List TheEntry)
        → Holds (D.disk journal.old.disk) payloads → StandFirst journal.old.count payloads items
        → IsCountOf items (counted_in counts.now) out → IfSome near (AreSpotsOf items)
        → IfOk result (λ f. IsFoundAt items out number payload.new.items f × AreSpotsOf items f) }
    ensures spots { IfOk result (AreSpotsOn D.disk journal.new) }
    ensures journal { Sought result journal.old journal.new }
    ensures reads { Reads (read_failures result) (D.disk journal.old.disk) (D.disk journal.new.disk) }
    ensures calls { IsSome (D.disk journal.old.disk).bytes
        → (D.disk journal.new.disk).clock ≤ (D.disk journal.old.disk).clock + 65 }
    ensures soon { (payloads : List (List ℕ)) (items : List Item) (out : List TheEntry) (f : TheFound) (k : ℕ)
        → Holds (D.disk journal.old.disk) payloads → StandFirst journal.old.count payloads items
        → IsCountOf items (counted_in counts.now) out → near ≡ Some f → AreSpotsOf items f → StandsIn items out number k
        → f.at.cursor.index ≤ k → k ≤ f.at.cursor.index + 1
        → (D.disk journal.new.disk).clock ≤ (D.disk journal.old.disk).clock + 2 }
{
    let target = counts.total - (counts.last - number) as u64 - 1;
    let mark = mark_between(&counts.before, 0, counts.before.len(), target);
    let marked = Spot {
        cursor: journal.at_mark(mark as u64),
        before: counts.before[mark],
    };
    let end = end_of(marked.cursor.index(), journal.count());
    let spot = nearest(marked, near, target);
    seek(journal, spot, end, target, payload)
}

// The index of the record after so many from this one on, or after the last.
fn end_of(index: u64, count: u64) -> u64
    requires { index < count }
    ensures { result ≡ min (index + 64) count }
{
    if count - index <= STRIDE {
        return count;
    }
    index + STRIDE
}

// The last of these records that doesn't stand after the target.
fn nearest(marked: Spot, near: Option<Found>, target: u64) -> Spot
    requires { marked.before ≤ target }
    ensures { IsNearest marked near target result }
{
    let Some(found) = near else {
        return marked;
    };
    if found.after.before <= target {
        return later(marked, found.after);
    }
    if found.at.before <= target {
        return later(marked, found.at);
    }
    marked
}

// The one that stands after the other.
fn later(one: Spot, other: Spot) -> Spot
    ensures { IsLater one other result }
{
    if other.cursor.index() < one.cursor.index() {
        return one;
    }
    other
}

// Looks at records from this one on, and reads that of the entry with so many before it.
fn seek<D: Disk>(
    journal: &mut Journal<D>,
    spot: Spot,
    end: u64,
    target: u64,
    payload: &mut Vec<u8>,
) -> Result<Found, ReadFault>
    requires goes_on { journal.old.stopped ≡ false }
    requires spot { IsSpotOn D.disk journal.old spot }
    requires order { spot.before ≤ target }
    requires end { end ≤ journal.old.count }
    ensures found { (payloads : List (List ℕ)) (items : List Item) → Holds (D.disk journal.old.disk) payloads
        → StandFirst journal.old.count payloads items → IsSpotOf items spot → length (pushed items) < 2 ^ 64
        → target < entries_before items end
        → IfOk result (λ f. IsAt items target payload.new.items f × AreSpotsOf items f) }
    ensures spots { IfOk result (AreSpotsOn D.disk journal.new) }
    ensures journal { Sought result journal.old journal.new }
    ensures reads { Reads (read_failures result) (D.disk journal.old.disk) (D.disk journal.new.disk) }
    ensures calls { IsSome (D.disk journal.old.disk).bytes
        → (D.disk journal.new.disk).clock ≤ (D.disk journal.old.disk).clock + 1 + (end - spot.cursor.index) }
    ensures soon { (payloads : List (List ℕ)) (items : List Item) → Holds (D.disk journal.old.disk) payloads
        → StandFirst journal.old.count payloads items → IsSpotOf items spot
        → target < entries_before items (spot.cursor.index + 1) → spot.cursor.index < length items
        → (D.disk journal.new.disk).clock ≤ (D.disk journal.old.disk).clock + 2 }
{
    if spot.cursor.index() >= end {
        return Ok(Found {
            nth: 0,
            at: spot,
            after: spot,
        });
    }
    let peek = match look(journal, &spot.cursor) {
        Ok(peek) => peek,
        Err(fault) => return Err(fault),
    };
    let count = pushes_in(&peek.head) as u64;
    let after = next_spot(journal, spot, &peek, count);
    if target - spot.before < count {
        return match fetch(journal, &spot.cursor, &peek, payload) {
            Ok(()) => Ok(Found {
                nth: (target - spot.before) as u32,
                at: spot,
                after,
            }),
            Err(fault) => Err(fault),
        };
    }
    seek(journal, after, end, target, payload)
}

// The record after this one, which has so many entries.
fn next_spot<D: Disk>(journal: &Journal<D>, spot: Spot, peek: &Peek, count: u64) -> Spot
    requires within { spot.cursor.index < journal.now.count }
    requires stands { Stands D.disk journal.now spot.cursor }
    requires peek { IsPeek D.disk journal.now spot.cursor peek.now }
    ensures index { result.cursor.index ≡ spot.cursor.index + 1 }
    ensures stands { Stands D.disk journal.now result.cursor }
    ensures before { spot.before + count < 2 ^ 64 → result.before ≡ spot.before + count }
{
    let mut cursor = spot.cursor;
    journal.skip(&mut cursor, peek);
    Spot {
        cursor,
        before: spot.before.saturating_add(count),
    }
}

// Looks at the record at a cursor.
fn look<D: Disk>(journal: &mut Journal<D>, cursor: &Cursor) -> Result<Peek, ReadFault>
    requires goes_on { journal.old.stopped ≡ false }
    requires within { cursor.now.index < journal.old.count }
    requires stands { Stands D.disk journal.old cursor.now }
    ensures shows { IfOk result (λ p. IsPeek D.disk journal.new cursor.now p) }
    ensures stands { Stands D.disk journal.new cursor.now }
    ensures journal { Sought result journal.old journal.new }
    ensures reads { Reads (read_failures result) (D.disk journal.old.disk) (D.disk journal.new.disk) }
    ensures calls { IsSome (D.disk journal.old.disk).bytes
        → (D.disk journal.new.disk).clock ≤ (D.disk journal.old.disk).clock + 1 }
{
    match journal.peek(cursor) {
        Ok(peek) => Ok(peek),
        Err(ReadFault::Stopped) => unreachable!(),
        Err(ReadFault::OutOfMemory) => Err(ReadFault::OutOfMemory),
        Err(ReadFault::DiskFault) => Err(ReadFault::DiskFault),
    }
}

// Reads the record at a cursor.
fn fetch<D: Disk>(
    journal: &mut Journal<D>,
    cursor: &Cursor,
    peek: &Peek,
    payload: &mut Vec<u8>,
) -> Result<(), ReadFault>
    requires goes_on { journal.old.stopped ≡ false }
    requires within { cursor.now.index < journal.old.count }
    requires stands { Stands D.disk journal.old cursor.now }
    requires peek { IsPeek D.disk journal.old cursor.now peek.now }
    ensures read { OnOk result (Gives (D.disk journal.old.disk) cursor.now.index payload.new.items) }
    ensures journal { Sought result journal.old journal.new }
    ensures reads { Reads (read_failures result) (D.disk journal.old.disk) (D.disk journal.new.disk) }
    ensures calls { IsSome (D.disk journal.old.disk).bytes
        → (D.disk journal.new.disk).clock ≤ (D.disk journal.old.disk).clock + 1 }
{
    match journal.take(cursor, peek, payload) {
        Ok(()) => Ok(()),
        Err(ReadFault::Stopped) => unreachable!(),
        Err(ReadFault::OutOfMemory) => Err(ReadFault::OutOfMemory),
        Err(ReadFault::DiskFault) => Err(ReadFault::DiskFault),
    }
}

// How many entries a record has, by its first five bytes.
fn pushes_in(head: &[u8; 5]) -> u32
    ensures { (i : Item) → IsFit i → head.now ≡ head_of (spelled_item i) → result ≡ length (pushes_of i) }
{
    if head[0] == MANY {
        return u32::from_be_bytes([head[1], head[2], head[3], head[4]]);
    }
    if head[0] > LAST_ENTRY {
        return 0;
    }
    1
}
