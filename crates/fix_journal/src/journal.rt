//! The calls of a journal, for `fix_store`. `open` runs the stage `opening`, `append` runs `appending`, and
//! what reads runs `peeking`.
ghost use Rattle.std.specs.Prelude.{◌≡◌, ◌+◌, ◌*◌, ◌^◌, ◌<◌, ◌≤◌, ◌++◌, ◌∷◌, [], false, List, ℕ, take, length, vec_len};
ghost use Rattle.std.specs.Prelude.{vec_capacity, IfOk, IfErr, IfSome, OnOk, OnErr, Some, None};
ghost use Rattle.fix_disk.specs.Moments.{NeedsRoom};
ghost use Rattle.fix_journal.specs.Format.{MOST_PAYLOAD, body_of, file_size};
ghost use Rattle.fix_journal.specs.Journal.{Holds, AppendAnswers, JournalAppends, append_failures, ReadAnswers};
ghost use Rattle.fix_journal.specs.Journal.{JournalReads, read_failures};
ghost use Rattle.fix_journal.specs.Cursors.{CursorSeen, Stands, IsPeek, Gives, ReadsFile, IsShortRead, TakesNoMemory};
ghost use Rattle.fix_journal.specs.Index.{IsSameIndex};
ghost use Rattle.fix_journal.specs.Opening.{IsOpened, IsCause, Opens, OpenRoom};
ghost use Rattle.fix_journal.specs.Window.{OpenCalls};

use crate::appending::append_at;
use crate::heads::MOST_PAYLOAD;
use crate::index::Index;
use crate::opening::find;
use crate::peeking::{look, past, read_after, read_record, take_room};
use crate::{AppendFault, Cursor, OpenFault, Peek, ReadFault};
use fix_disk::{Disk, DiskFailed};
use std::alloc::{AllocError, Global};
use std::marker::Model;

/// Records on a disk. Contracts see the disk, how many records there are, and whether the disk failed.
#[derive(Drop)]
pub struct Journal<D: Disk> {
    disk: D,
    index: Index,
    // The bytes of an append. They are kept to be used again.
    staged: Vec<u8>,
    stopped: bool,
}

impl<D: Disk> Model for Journal<D> {
    ghost use Rattle.fix_journal.specs.Journal.{JournalSeen, IsSound};

    ghost Value = { JournalSeen D };

    ghost view = { λ j. record { disk = j.disk; count = j.index.count; stopped = j.stopped } };

    ghost invariant = { λ j. IsSound (D.disk j.disk) j.index j.stopped };
}

/// A journal that wasn't opened: its disk, and why.
#[derive(Drop)]
pub struct OpenRefused<D: Disk> {
    pub disk: D,
    pub fault: OpenFault,
}

impl<D: Disk> Journal<D> {
    /// Opens the journal on a disk, which syncs first. An unmade file becomes a journal without
    /// records.
    pub fn open(alloc: Global, disk: D) -> Result<Journal<D>, OpenRefused<D>>
        ensures opened { IfOk result (IsOpened D.disk (D.disk disk)) }
        ensures refused { IfErr result (λ r. IfSome (D.disk disk).bytes (IsCause r.fault)) }
        ensures moves { IfOk result (λ j. Opens None (D.disk disk) (D.disk j.disk)) }
        ensures moves_refused { IfErr result (λ r. Opens (Some r.fault) (D.disk disk) (D.disk r.disk)) }
        ensures calls { IfOk result (λ j. OpenCalls (D.disk disk) (D.disk j.disk)) }
        ensures calls_refused { IfErr result (λ r. OpenCalls (D.disk disk) (D.disk r.disk)) }
        ensures room { IfOk result (λ j. OpenRoom None (D.disk disk) (D.disk j.disk)) }
        ensures room_refused { IfErr result (λ r. OpenRoom (Some r.fault) (D.disk disk) (D.disk r.disk)) }
    {
        let mut disk = disk;
        match find(alloc, &mut disk) {
            Ok(index) => Ok(Journal {
                disk,
                index,
                staged: Vec::new(alloc),
                stopped: false,
            }),
            Err(fault) => Err(OpenRefused { disk, fault }),
        }
    }

    /// Appends a record of at least one byte, and answers its index. At Ok it is on the disk. A cursor stays where it
    /// stands.
    pub fn append(&mut self, payload: &[u8]) -> Result<u64, AppendFault>
        requires { 1 ≤ length payload.now }
        ensures answers { AppendAnswers result (length payload.now) self.old self.new }
        ensures moves { self.old.stopped ≡ false
            → JournalAppends result payload.now (D.disk self.old.disk) (D.disk self.new.disk) }
        ensures room { (D.disk self.new.disk).room ≡ (D.disk self.old.disk).room }
        ensures need { (payloads : List (List ℕ)) → Holds (D.disk self.old.disk) payloads
            → NeedsRoom (append_failures result) (file_size (payloads ++ payload.now ∷ [])) (D.disk self.old.disk)
            (D.disk self.new.disk) }
        ensures cursors { (c : CursorSeen) → c.index ≤ self.old.count → Stands D.disk self.old c
            → Stands D.disk self.new c }
    {
        if self.stopped {
            return Err(AppendFault::Stopped);
        }
        if payload.len() as u64 > MOST_PAYLOAD {
            return Err(AppendFault::TooLong);
        }
        let number = self.index.count;
        let gate = self.index.closed;
        if stage(&mut self.index, &mut self.staged, payload).is_err() {
            return Err(AppendFault::OutOfMemory);
        }
        match append_at(&mut self.disk, gate, &self.staged) {
            Ok(()) => {
                self.index.add(gate + self.staged.len() as u64);
                Ok(number)
            }
            Err(DiskFailed) => {
                self.stopped = true;
                Err(AppendFault::DiskFault)
            }
        }
    }

    /// Gives the payload of the record with this index. It goes there from the mark before it.
    pub fn read(&mut self, index: u64, into: &mut Vec<u8>) -> Result<(), ReadFault>
        requires { index < self.old.count }
        ensures answers { ReadAnswers result self.old self.new }
        ensures moves { JournalReads result index into.new.items (D.disk self.old.disk) (D.disk self.new.disk) }
        ensures room { NeedsRoom (read_failures result) 0 (D.disk self.old.disk) (D.disk self.new.disk) }
    {
        if self.stopped {
            return Err(ReadFault::Stopped);
        }
        let mark = self.index.mark(index / 64);
        let limit = self.index.limit(index);
        if take_room(into, mark, limit).is_err() {
            return Err(ReadFault::OutOfMemory);
        }
        match read_after(&mut self.disk, mark, limit, index, into) {
            Ok(()) => Ok(()),
            Err(DiskFailed) => {
                self.stopped = true;
                Err(ReadFault::DiskFault)
            }
        }
    }

    /// A cursor at the record with the index 64 times k, or after the last one, where there are as many.
    pub fn at_mark(&self, k: u64) -> Cursor
        requires { 64 * k ≤ self.now.count }
        ensures index { result.index ≡ 64 * k }
        ensures stands { Stands D.disk self.now result }
    {
        let index = self.count().min(64 * k);
        Cursor {
            index,
            place: self.index.mark(k),
        }
    }

    /// Looks at the record at a cursor.
    pub fn peek(&mut self, c: &Cursor) -> Result<Peek, ReadFault>
        requires record { c.now.index < self.old.count }
        requires stands { Stands D.disk self.old c.now }
        ensures answers { ReadAnswers result self.old self.new }
        ensures shows { IfOk result (λ p. IsPeek D.disk self.new c.now p) }
        ensures few { IfOk result (λ p. p.length ≤ MOST_PAYLOAD) }
        ensures stands { Stands D.disk self.new c.now }
        ensures moves { ReadsFile (read_failures result) 1 (D.disk self.old.disk) (D.disk self.new.disk) }
        ensures memory { TakesNoMemory result }
        ensures room { NeedsRoom (read_failures result) 0 (D.disk self.old.disk) (D.disk self.new.disk) }
    {
        if self.stopped {
            return Err(ReadFault::Stopped);
        }
        let limit = self.index.limit(c.index());
        match look(&mut self.disk, c.place(), limit) {
            Ok(peek) => Ok(peek),
            Err(DiskFailed) => {
                self.stopped = true;
                Err(ReadFault::DiskFault)
            }
        }
    }

    /// Moves a cursor past its record, by what was seen of that one.
    pub fn skip(&self, c: &mut Cursor, p: &Peek)
        requires record { c.old.index < self.now.count }
        requires stands { Stands D.disk self.now c.old }
        requires peek { IsPeek D.disk self.now c.old p.now }
        ensures index { c.new.index ≡ c.old.index + 1 }
        ensures stands { Stands D.disk self.now c.new }
    {
        let limit = self.index.limit(c.index());
        *c = Cursor {
            index: c.index() + 1,
            place: past(c.place(), 5 + p.length as u64, limit),
        };
    }

    /// Gives the payload of the record at a cursor, by what was seen of it.
    pub fn take(&mut self, c: &Cursor, p: &Peek, into: &mut Vec<u8>) -> Result<(), ReadFault>
        requires record { c.now.index < self.old.count }
        requires stands { Stands D.disk self.old c.now }
        requires peek { IsPeek D.disk self.old c.now p.now }
        ensures answers { ReadAnswers result self.old self.new }
        ensures read { OnOk result (Gives (D.disk self.old.disk) c.now.index into.new.items) }
        ensures stands { Stands D.disk self.new c.now }
        ensures moves { ReadsFile (read_failures result) 1 (D.disk self.old.disk) (D.disk self.new.disk) }
        ensures room { NeedsRoom (read_failures result) 0 (D.disk self.old.disk) (D.disk self.new.disk) }
    {
        if self.stopped {
            return Err(ReadFault::Stopped);
        }
        let limit = self.index.limit(c.index());
        let start = past(c.place(), 5, limit);
        if fill_up(into, (p.length as u64).min(limit - start)).is_err() {
            return Err(ReadFault::OutOfMemory);
        }
        match self.disk.read_at(start, into) {
            Ok(()) => Ok(()),
            Err(DiskFailed) => {
                self.stopped = true;
                Err(ReadFault::DiskFault)
            }
        }
    }

    /// Gives the payload of the record at a cursor, and moves the cursor past it. It is for a walk over all records:
    /// a short payload takes one call of the disk.
    pub fn next(&mut self, c: &mut Cursor, into: &mut Vec<u8>) -> Result<(), ReadFault>
        requires record { c.old.index < self.old.count }
        requires stands { Stands D.disk self.old c.old }
        ensures answers { ReadAnswers result self.old self.new }
        ensures read { OnOk result (Gives (D.disk self.old.disk) c.old.index into.new.items) }
        ensures index { OnOk result (c.new.index ≡ c.old.index + 1) }
        ensures same { OnErr result (c.new ≡ c.old) }
        ensures stands { Stands D.disk self.new c.new }
        ensures moves { ReadsFile (read_failures result) 2 (D.disk self.old.disk) (D.disk self.new.disk) }
        ensures short { IsShortRead c.old.index (D.disk self.old.disk) (D.disk self.new.disk) }
        ensures room { NeedsRoom (read_failures result) 0 (D.disk self.old.disk) (D.disk self.new.disk) }
    {
        if self.stopped {
            return Err(ReadFault::Stopped);
        }
        let limit = self.index.limit(c.index());
        if take_room(into, c.place(), limit).is_err() {
            return Err(ReadFault::OutOfMemory);
        }
        match read_record(&mut self.disk, c.place(), limit, into) {
            Ok(()) => {
                *c = Cursor {
                    index: c.index() + 1,
                    place: past(c.place(), 5 + into.len() as u64, limit),
                };
                Ok(())
            }
            Err(DiskFailed) => {
                self.stopped = true;
                Err(ReadFault::DiskFault)
            }
        }
    }

    /// How many records there are.
    pub fn count(&self) -> u64
        ensures { result ≡ self.now.count }
    {
        self.index.count
    }

    /// The disk.
    pub fn into_disk(self) -> D
        ensures { result ≡ self.disk }
    {
        self.disk
    }
}

// Puts the bytes of an append together, and takes room for a mark. A file that would pass the
// greatest length has no room.
fn stage(index: &mut Index, staged: &mut Vec<u8>, payload: &[u8]) -> Result<(), AllocError>
    requires { length payload.now ≤ 1114112 }
    ensures same { IsSameIndex index.old index.new }
    ensures staged { IfOk result (λ _. staged.new.items ≡ body_of payload.now ++ 0 ∷ []) }
    ensures room { IfOk result (λ _. vec_len index.new.marks < vec_capacity index.new.marks) }
    ensures small { IfOk result (λ _. index.old.closed + length payload.now + 5 < 2 ^ 64) }
{
    if index.closed > u64::MAX - 2_000_000 {
        return Err(AllocError);
    }
    index.reserve()?;
    staged.clear();
    staged.extend_from_slice(&(payload.len() as u32).to_be_bytes())?;
    staged.extend_from_slice(payload)?;
    staged.push(0)?;
    Ok(())
}

// Room for so many bytes.
fn fill_up(room: &mut Vec<u8>, size: u64) -> Result<(), AllocError>
    ensures { IfOk result (λ _. length room.new.items ≡ size) }
{
    room.clear();
    room.resize(size as usize, 0)?;
    Ok(())
}
