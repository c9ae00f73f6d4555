//! A message store that is open or shut: opens and shuts it, and keeps and fetches in it. `store_slot` calls
//! these.
ghost use Rattle.std.specs.Prelude.{◌≡◌, false, None, Err, IfOk};
ghost use Rattle.fix_base.specs.declared.entry.Entry.{Entry as TheEntry};
ghost use Rattle.fix_base.specs.End.{End, IsEntry};
ghost use Rattle.fix_base.specs.Payload.{IsKeepable, HasPayload};
ghost use Rattle.fix_base.specs.Trace.{acts_of, store_failures};
ghost use Rattle.fix_store.specs.Store.{IsTold, KeepAnswers, StoreKeeps, HoldsEnd, fault_of};
ghost use Rattle.fix_store.specs.Rooms.{KeepRoom, room_left};
ghost use Rattle.fix_outside.specs.declared.outside.KeepFault.TheVariants.{OutOfMemory};
ghost use Rattle.fix_outside.specs.Outside.{keeps, loads, fetches, HasPlace, HasEntry, open_kept, open_loaded};
ghost use Rattle.fix_outside.specs.Outside.{open_fetched};
ghost use Rattle.fix_rim.specs.StoreSlot.{IsTaken, IsHeld, device_in, disk_in, open_in, DiskMoves, KeepLeft};
ghost use Rattle.fix_rim.specs.StoreSlot.{LoadGives, LoadRoom, LoadLeaves, LoadLasts, KeptRoom, FetchRoom};
ghost use Rattle.fix_rim.specs.StoreSlot.{IsKindOf, IsHeldAs, NamesAppOn, IsNumbered, IsToldHeld};
ghost use Rattle.fix_rim.specs.StoreSlot.{load_fault_of};

use crate::{FetchFault, KeepFault, Kind, LoadFault};
use fix_base::{Entry, Record, SeqNum, Stored};
use fix_disk::Disk;
use fix_journal::OpenFault;
use fix_store::{Store, StoreFault};
use std::alloc::Global;
use std::mem;

/// The disk of a message store, or the store that was opened on it. It is taken only while it is
/// being opened.
#[derive(Drop)]
pub(crate) enum SlotContents<D: Disk> {
    Taken,
    Shut(D),
    Open(Store<D>),
}

// Puts a disk where none is.
pub(crate) fn put_back<D: Disk>(contents: &mut SlotContents<D>, new: SlotContents<D>)
    requires { IsTaken contents.old }
    ensures { contents.new ≡ new }
{
    let old = mem::replace(contents, new);
    let SlotContents::Taken = old else {
        unreachable!();
    };
}

// Opens the store anew.
pub(crate) fn opened<D: Disk>(
    alloc: Global,
    contents: SlotContents<D>,
) -> (SlotContents<D>, Result<Stored, LoadFault>)
    requires { IsHeld contents }
    ensures there { IsHeld result.0 }
    ensures opens { open_in result.0 ≡ open_loaded result.1 }
    ensures gives { LoadGives result.1 (disk_in D.disk contents) }
    ensures moves { DiskMoves (acts_of (loads result.1)) (store_failures (loads result.1)) (disk_in D.disk contents)
        (disk_in D.disk result.0) }
    ensures room { LoadRoom result.1 (disk_in D.disk contents) (disk_in D.disk result.0) }
    ensures leaves { LoadLeaves (disk_in D.disk contents) (disk_in D.disk result.0) }
    ensures lasts { LoadLasts result.1 (disk_in D.disk result.0) }
{
    match contents {
        SlotContents::Shut(disk) => open_on(alloc, disk),
        SlotContents::Open(store) => open_on(alloc, store.into_disk()),
        SlotContents::Taken => unreachable!(),
    }
}

// The disk, of which no store is open.
pub(crate) fn shut<D: Disk>(contents: SlotContents<D>) -> SlotContents<D>
    requires { IsHeld contents }
    ensures there { IsHeld result }
    ensures opens { open_in result ≡ None }
    ensures disk { device_in result ≡ device_in contents }
{
    match contents {
        SlotContents::Shut(disk) => SlotContents::Shut(disk),
        SlotContents::Open(store) => SlotContents::Shut(store.into_disk()),
        SlotContents::Taken => unreachable!(),
    }
}

// Keeps the record in the store that is open.
pub(crate) fn keep_in<D: Disk>(
    contents: &mut SlotContents<D>,
    kept: &Record,
) -> Result<(), KeepFault>
    requires payload { IsKeepable kept.now }
    requires place { HasPlace kept.now (open_in contents.old) }
    requires named { NamesAppOn kept.now (disk_in D.disk contents.old) }
    ensures there { IsHeld contents.new }
    ensures opens { open_in contents.new ≡ open_kept result kept.now (open_in contents.old) }
    ensures moves { DiskMoves (acts_of (keeps result kept.now)) (store_failures (keeps result kept.now))
        (disk_in D.disk contents.old) (disk_in D.disk contents.new) }
    ensures room { KeptRoom result kept.now (disk_in D.disk contents.old) (disk_in D.disk contents.new) }
    ensures leaves { KeepLeft result kept.now (disk_in D.disk contents.old) (disk_in D.disk contents.new) }
    ensures none { result ≡ Err OutOfMemory → contents.new ≡ contents.old }
{
    let SlotContents::Open(store) = contents else {
        unreachable!();
    };
    match keep_on(store, kept) {
        Ok(()) => Ok(()),
        Err(StoreFault::DiskFault) => Err(KeepFault::Failed),
        Err(StoreFault::OutOfMemory) => Err(KeepFault::OutOfMemory),
        Err(StoreFault::Stopped) => unreachable!(),
        Err(StoreFault::NumbersSpent) => unreachable!(),
    }
}

// Fetches the entry of this number from the store that is open.
pub(crate) fn fetch_from<D: Disk>(
    contents: &mut SlotContents<D>,
    n: SeqNum,
    into: &mut Vec<u8>,
) -> Result<Kind, FetchFault>
    requires { HasEntry n (open_in contents.old) }
    ensures there { IsHeld contents.new }
    ensures opens { open_in contents.new ≡ open_fetched result (open_in contents.old) }
    ensures gives { IfOk result
        (λ kind. (entry : TheEntry) × IsKindOf kind entry into.new.items × HasPayload entry
        × ((e : End) → HoldsEnd (disk_in D.disk contents.old) e → IsEntry e.out n entry)) }
    ensures held { IfOk result (λ kind. (e : End) → HoldsEnd (disk_in D.disk contents.old) e → IsHeldAs kind n e) }
    ensures moves { DiskMoves (acts_of (fetches result)) (store_failures (fetches result)) (disk_in D.disk contents.old)
        (disk_in D.disk contents.new) }
    ensures room { FetchRoom result (disk_in D.disk contents.old) (disk_in D.disk contents.new) }
{
    let SlotContents::Open(store) = contents else {
        unreachable!();
    };
    let withheld = store.withheld(n);
    match store.entry(n) {
        Ok(entry) => Ok(give(entry, withheld, into)),
        Err(StoreFault::DiskFault) => Err(FetchFault::Failed),
        Err(StoreFault::OutOfMemory) => Err(FetchFault::OutOfMemory),
        Err(StoreFault::Stopped) => unreachable!(),
        Err(StoreFault::NumbersSpent) => unreachable!(),
    }
}

// Opens the store on a disk, and tells its numbers.
fn open_on<D: Disk>(alloc: Global, disk: D) -> (SlotContents<D>, Result<Stored, LoadFault>)
    ensures there { IsHeld result.0 }
    ensures opens { open_in result.0 ≡ open_loaded result.1 }
    ensures gives { LoadGives result.1 (D.disk disk) }
    ensures moves { DiskMoves (acts_of (loads result.1)) (store_failures (loads result.1)) (D.disk disk)
        (disk_in D.disk result.0) }
    ensures room { LoadRoom result.1 (D.disk disk) (disk_in D.disk result.0) }
    ensures leaves { LoadLeaves (D.disk disk) (disk_in D.disk result.0) }
    ensures lasts { LoadLasts result.1 (disk_in D.disk result.0) }
{
    match Store::open(alloc, disk) {
        Ok(store) => {
            let stored = store.stored();
            (SlotContents::Open(store), Ok(stored))
        }
        Err(refused) => (
            SlotContents::Shut(refused.disk),
            Err(load_fault(refused.fault)),
        ),
    }
}

fn load_fault(fault: OpenFault) -> LoadFault
    ensures { result ≡ load_fault_of fault }
{
    match fault {
        OpenFault::DiskFault => LoadFault::Failed,
        OpenFault::Damaged(place) => LoadFault::Damaged(place),
        OpenFault::OutOfMemory => LoadFault::OutOfMemory,
    }
}

// Keeps the record in a store.
fn keep_on<D: Disk>(store: &mut Store<D>, kept: &Record) -> Result<(), StoreFault>
    requires payload { IsKeepable kept.now }
    requires numbered { IsNumbered kept.now store.old.stored }
    requires named { NamesAppOn kept.now (D.disk store.old.disk) }
    ensures answers { KeepAnswers (fault_of result) kept.now store.old store.new }
    ensures moves { store.old.stopped ≡ false
        → StoreKeeps (fault_of result) kept.now (D.disk store.old.disk) (D.disk store.new.disk) }
    ensures room { KeepRoom (fault_of result) kept.now (D.disk store.old.disk) (D.disk store.new.disk) }
    ensures told { IsTold D.disk store.old }
{
    match kept {
        Record::Push(entry) => match store.push(entry) {
            Ok(_) => Ok(()),
            Err(fault) => Err(fault),
        },
        Record::Expect(number) => store.expect(*number),
        Record::Many { pushes, expect } => store.push_all(pushes, *expect),
        Record::Withhold(number) => match SeqNum::new(*number) {
            Some(n) => store.withhold(n),
            None => unreachable!(),
        },
        Record::Reset(time) => store.reset(*time),
        Record::ResetAsk(time) => store.ask_reset(*time),
        Record::Confirm => store.confirm(),
    }
}

// What the entry is, and its body.
fn give(entry: Entry, withheld: bool, into: &mut Vec<u8>) -> Kind
    ensures kind { IsKindOf result entry into.new.items }
    ensures held { IsToldHeld result withheld }
{
    match entry {
        Entry::App { time, body, .. } => {
            if withheld {
                into.clear();
                return Kind::Withheld;
            }
            *into = body.into_vec();
            Kind::App { time }
        }
        Entry::Admin { .. } => {
            into.clear();
            Kind::Admin
        }
    }
}
