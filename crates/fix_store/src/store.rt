//! The calls of a store, which `fix_rim` makes for a session. A call that keeps something appends its record by
//! `keeping`, and only then changes what `folding` has in memory.
ghost use Rattle.std.specs.Prelude.{◌≡◌, ◌↔◌, ◌+◌, ◌-◌, ◌<◌, ◌≤◌, ℕ, List, false, length, IfOk, IfErr, IsTrue};
ghost use Rattle.std.specs.Prelude.{IfSome, IsSome, None, Some, OnOk};
ghost use Rattle.std.specs.FinSet as set;
ghost use Rattle.fix_base.specs.declared.entry.Record.TheVariants.{Push, Expect, Many};
ghost use Rattle.fix_base.specs.declared.entry.Record.TheVariants.{Withhold, Reset, ResetAsk, Confirm};
ghost use Rattle.fix_base.specs.End.{End, IsAppAt};
ghost use Rattle.fix_base.specs.Payload.{HasPayload, IsManyPayload, IsKeepable, LAST_TIME};
ghost use Rattle.fix_store.specs.Store.{IsTold, IsInRange, MayKeep, HoldsEnd, KeepAnswers, StoreKeeps, ReadAnswers};
ghost use Rattle.fix_store.specs.Store.{StoreReads, fault_of};
ghost use Rattle.fix_store.specs.Rooms.{OpenRoom, KeepRoom, ReadRoom};
ghost use Rattle.fix_store.specs.Opening.{IsOpened, IsCause, StoreOpens, StandsAt};
ghost use Rattle.fix_store.specs.Spelling.{spelled};
ghost use Rattle.fix_store.specs.Folding.{fold_of, record_of, HasRoomFor, HasPlaceIn};

use crate::StoreFault;
use crate::changing::{Change, change_kept};
use crate::fetching::entry_at;
use crate::finding::{Found, find};
use crate::folding::Folded;
use crate::keeping::append;
use crate::marking::add_mark;
use crate::spelling::{Kept, spell};
use crate::walking::fold;
use fix_base::{Entries, Entry, SeqNum, Stored};
use fix_disk::Disk;
use fix_journal::{Journal, OpenRefused, ReadFault};
use std::alloc::{AllocError, Global};
use std::marker::Model;

/// What one side of a session keeps, on a disk. Contracts see the disk, what the store tells of its
/// end, and whether the disk failed.
#[derive(Drop)]
pub struct Store<D: Disk> {
    alloc: Global,
    journal: Journal<D>,
    folded: Folded,
    // Where the entry was found that was read last.
    near: Option<Found>,
    // The bytes of a record. They are kept to be used again.
    payload: Vec<u8>,
    stopped: bool,
}

impl<D: Disk> Model for Store<D> {
    ghost use Rattle.fix_store.specs.Store.{StoreSeen, store_code};
    ghost use Rattle.fix_store.specs.Folding.{fold_of, stored_in, withheld_in};
    ghost use Rattle.fix_store.specs.Finding.{index_in};
    ghost use Rattle.fix_store.specs.Sound.{IsSound};

    ghost Value = { StoreSeen D };

    ghost coded = { store_code D.code };

    ghost view = { λ s. record {
      disk = s.journal.disk;
      stored = stored_in (fold_of s.folded);
      withheld = withheld_in s.folded.withheld;
      near = index_in s.near;
      stopped = s.stopped;
    } };

    ghost invariant = { λ s. IsSound D.disk s.journal (fold_of s.folded) s.near s.stopped };
}

impl<D: Disk> Store<D> {
    /// Opens the store on a disk. An unmade file becomes a store of which nothing is kept. A file of
    /// version 1 gets the mark of version 2. A file is damaged where it breaks the journal's format, and
    /// otherwise where a payload is no record, at the place of its gate.
    pub fn open(alloc: Global, disk: D) -> Result<Store<D>, OpenRefused<D>>
        ensures opened { IfOk result (IsOpened D.disk (D.disk disk)) }
        ensures refused { IfErr result (λ r. IfSome (D.disk disk).bytes (IsCause r.fault)) }
        ensures moves { IfOk result (λ s. StoreOpens None (D.disk disk) (D.disk s.disk)) }
        ensures moves_refused { IfErr result (λ r. StoreOpens (Some r.fault) (D.disk disk) (D.disk r.disk)) }
        ensures room { IfOk result (λ s. OpenRoom None (D.disk disk) (D.disk s.disk)) }
        ensures room_refused { IfErr result (λ r. OpenRoom (Some r.fault) (D.disk disk) (D.disk r.disk)) }
    {
        let mut journal = match Journal::open(alloc, disk) {
            Ok(journal) => journal,
            Err(refused) => return Err(refused),
        };
        let mut folded = match fold(alloc, &mut journal) {
            Ok(folded) => folded,
            Err(fault) => {
                return Err(OpenRefused {
                    disk: journal.into_disk(),
                    fault,
                });
            }
        };
        match add_mark(&mut journal, &mut folded) {
            Ok(()) => Ok(Store {
                alloc,
                journal,
                folded,
                near: None,
                payload: Vec::new(alloc),
                stopped: false,
            }),
            Err(fault) => Err(OpenRefused {
                disk: journal.into_disk(),
                fault,
            }),
        }
    }

    /// Keeps one more entry, and answers its MsgSeqNum (34).
    pub fn push(&mut self, entry: &Entry) -> Result<SeqNum, StoreFault>
        requires { HasPayload entry.now }
        ensures answers { KeepAnswers (fault_of result) (Push entry.now) self.old self.new }
        ensures number { IfOk result (λ n. n ≡ self.old.stored.last + 1) }
        ensures moves { self.old.stopped ≡ false
            → StoreKeeps (fault_of result) (Push entry.now) (D.disk self.old.disk) (D.disk self.new.disk) }
        ensures room { KeepRoom (fault_of result) (Push entry.now) (D.disk self.old.disk) (D.disk self.new.disk) }
        ensures told { IsTold D.disk self.old }
    {
        match self.keep(&Kept::Push(entry)) {
            Ok(()) => Ok(number_of(self.folded.stored().last)),
            Err(fault) => Err(fault),
        }
    }

    /// Keeps these entries, and the inbound MsgSeqNum (34) that is expected then; 0 says nothing of it.
    /// It is one record: a stop keeps all of it, or nothing.
    pub fn push_all(&mut self, pushes: &Entries, expect: u32) -> Result<(), StoreFault>
        requires { IsManyPayload pushes.now expect }
        ensures answers { KeepAnswers (fault_of result) (Many pushes.now expect) self.old self.new }
        ensures moves { self.old.stopped ≡ false
            → StoreKeeps (fault_of result) (Many pushes.now expect) (D.disk self.old.disk) (D.disk self.new.disk) }
        ensures room { KeepRoom (fault_of result) (Many pushes.now expect) (D.disk self.old.disk) (D.disk self.new.disk) }
        ensures told { IsTold D.disk self.old }
    {
        self.keep(&Kept::Many(pushes.as_slice(), expect))
    }

    /// Keeps the inbound MsgSeqNum (34) that is expected next.
    pub fn expect(&mut self, next: u32) -> Result<(), StoreFault>
        requires first { 1 ≤ next }
        requires last { next ≤ 1000000000 }
        ensures answers { KeepAnswers (fault_of result) (Expect next) self.old self.new }
        ensures moves { self.old.stopped ≡ false
            → StoreKeeps (fault_of result) (Expect next) (D.disk self.old.disk) (D.disk self.new.disk) }
        ensures room { KeepRoom (fault_of result) (Expect next) (D.disk self.old.disk) (D.disk self.new.disk) }
        ensures told { IsTold D.disk self.old }
    {
        self.keep(&Kept::Expect(next))
    }

    /// Keeps that the application message of this number isn't to be sent again, for good.
    pub fn withhold(&mut self, n: SeqNum) -> Result<(), StoreFault>
        requires there { n ≤ self.old.stored.last }
        requires app { (e : End) → HoldsEnd (D.disk self.old.disk) e → (body : List ℕ) × IsAppAt e.out n body }
        ensures answers { KeepAnswers (fault_of result) (Withhold n) self.old self.new }
        ensures moves { self.old.stopped ≡ false
            → StoreKeeps (fault_of result) (Withhold n) (D.disk self.old.disk) (D.disk self.new.disk) }
        ensures room { KeepRoom (fault_of result) (Withhold n) (D.disk self.old.disk) (D.disk self.new.disk) }
        ensures told { IsTold D.disk self.old }
    {
        self.keep(&Kept::Withhold(n.get()))
    }

    /// Keeps a store reset at this time, in microseconds since 1970: no entries, and 1 is expected.
    pub fn reset(&mut self, time: u64) -> Result<(), StoreFault>
        requires { time ≤ LAST_TIME }
        ensures answers { KeepAnswers (fault_of result) (Reset time) self.old self.new }
        ensures moves { self.old.stopped ≡ false
            → StoreKeeps (fault_of result) (Reset time) (D.disk self.old.disk) (D.disk self.new.disk) }
        ensures room { KeepRoom (fault_of result) (Reset time) (D.disk self.old.disk) (D.disk self.new.disk) }
        ensures told { IsTold D.disk self.old }
    {
        self.keep(&Kept::Reset(time))
    }

    /// Keeps the same, and that the counterparty is to be asked to reset too (ResetSeqNumFlag 141 = Y).
    pub fn ask_reset(&mut self, time: u64) -> Result<(), StoreFault>
        requires { time ≤ LAST_TIME }
        ensures answers { KeepAnswers (fault_of result) (ResetAsk time) self.old self.new }
        ensures moves { self.old.stopped ≡ false
            → StoreKeeps (fault_of result) (ResetAsk time) (D.disk self.old.disk) (D.disk self.new.disk) }
        ensures room { KeepRoom (fault_of result) (ResetAsk time) (D.disk self.old.disk) (D.disk self.new.disk) }
        ensures told { IsTold D.disk self.old }
    {
        self.keep(&Kept::ResetAsk(time))
    }

    /// Keeps that the counterparty has answered that it reset.
    pub fn confirm(&mut self) -> Result<(), StoreFault>
        ensures answers { KeepAnswers (fault_of result) Confirm self.old self.new }
        ensures moves { self.old.stopped ≡ false
            → StoreKeeps (fault_of result) Confirm (D.disk self.old.disk) (D.disk self.new.disk) }
        ensures room { KeepRoom (fault_of result) Confirm (D.disk self.old.disk) (D.disk self.new.disk) }
        ensures told { IsTold D.disk self.old }
    {
        self.keep(&Kept::Confirm)
    }

    /// Reads the entry of this number, by at most 65 calls of the disk; by two where it stands in the record of
    /// the entry that was read last, or in the next one.
    pub fn entry(&mut self, n: SeqNum) -> Result<Entry, StoreFault>
        requires { n ≤ self.old.stored.last }
        ensures answers { ReadAnswers (fault_of result) self.old self.new }
        ensures moves { self.old.stopped ≡ false → StoreReads result n (D.disk self.old.disk) (D.disk self.new.disk) }
        ensures room { ReadRoom (fault_of result) (D.disk self.old.disk) (D.disk self.new.disk) }
        ensures near { self.old.stopped ≡ false
            → IfOk result (λ _. (k : ℕ) × (self.new.near ≡ Some k) × StandsAt (D.disk self.old.disk) n k) }
        ensures next { (j k : ℕ) → self.old.stopped ≡ false → IsSome (D.disk self.old.disk).bytes → self.old.near ≡ Some j
            → StandsAt (D.disk self.old.disk) n k → j ≤ k → k ≤ j + 1
            → (D.disk self.new.disk).clock ≤ (D.disk self.old.disk).clock + 2 }
    {
        if self.stopped {
            return Err(StoreFault::Stopped);
        }
        let near = self.near.take();
        let mut payload = Vec::new(self.alloc);
        match find(
            &mut self.journal,
            &self.folded.counts,
            near,
            n.get(),
            &mut payload,
        ) {
            Ok(found) => {
                let nth = found.nth;
                self.near = Some(found);
                Ok(entry_at(payload, nth))
            }
            Err(ReadFault::Stopped) => unreachable!(),
            Err(ReadFault::OutOfMemory) => Err(StoreFault::OutOfMemory),
            Err(ReadFault::DiskFault) => {
                self.stopped = true;
                Err(StoreFault::DiskFault)
            }
        }
    }

    /// What it tells of its end.
    pub fn stored(&self) -> Stored
        ensures is { result ≡ self.now.stored }
        ensures range { IsInRange self.now.stored }
        ensures told { IsTold D.disk self.now }
    {
        self.folded.stored()
    }

    /// Whether the message of this number isn't to be sent again. It costs the logarithm of how many aren't.
    pub fn withheld(&self, n: SeqNum) -> bool
        ensures is { result ≡ set.contains self.now.withheld n }
        ensures told { IsTold D.disk self.now }
    {
        self.folded.withheld.has(n.get())
    }

    /// The disk.
    pub fn into_disk(self) -> D
        ensures { result ≡ self.disk }
    {
        self.journal.into_disk()
    }

    // Keeps a record.
    fn keep(&mut self, kept: &Kept<'_>) -> Result<(), StoreFault>
        requires fits { IsKeepable (record_of kept.now) }
        requires place { HasPlaceIn self.old.stored (record_of kept.now) }
        requires may { MayKeep (D.disk self.old.disk) (record_of kept.now) }
        ensures answers { KeepAnswers (fault_of result) (record_of kept.now) self.old self.new }
        ensures moves { self.old.stopped ≡ false
            → StoreKeeps (fault_of result) (record_of kept.now) (D.disk self.old.disk) (D.disk self.new.disk) }
        ensures room { KeepRoom (fault_of result) (record_of kept.now) (D.disk self.old.disk) (D.disk self.new.disk) }
        ensures told { IsTold D.disk self.old }
    {
        if self.stopped {
            return Err(StoreFault::Stopped);
        }
        let change = change_kept(kept);
        if !self.folded.may_take(change) {
            return Err(StoreFault::NumbersSpent);
        }
        if stage(&mut self.folded, &mut self.payload, kept, change).is_err() {
            return Err(StoreFault::OutOfMemory);
        }
        match append(&mut self.journal, &mut self.stopped, &self.payload) {
            Ok(index) => {
                self.folded.take(index, change);
                Ok(())
            }
            Err(fault) => Err(fault),
        }
    }
}

// Spells a record, and makes room for what it changes.
fn stage(
    folded: &mut Folded,
    payload: &mut Vec<u8>,
    kept: &Kept<'_>,
    change: Change,
) -> Result<(), AllocError>
    requires { IsKeepable (record_of kept.now) }
    ensures same { fold_of folded.new ≡ fold_of folded.old }
    ensures payload { OnOk result (payload.new.items ≡ spelled (record_of kept.now)) }
    ensures room { OnOk result (HasRoomFor folded.new change) }
{
    folded.reserve(change)?;
    spell(payload, kept)
}

// The MsgSeqNum (34) of the last of so many entries.
fn number_of(last: u32) -> SeqNum
    requires first { 1 ≤ last }
    requires last { last ≤ 999999999 }
    ensures { result ≡ last }
{
    match SeqNum::new(last) {
        Some(number) => number,
        None => unreachable!(),
    }
}
