//! Reads the records of an opened journal one after another, and has `folding` take them in. `Store::open`
//! calls this.
ghost use Rattle.std.specs.Prelude.{◌≡◌, ◌↔◌, ◌+◌, ◌<◌, ◌≤◌, ℕ, List, false, length, IfOk, OnOk};
ghost use Rattle.std.specs.Prelude.{IfErr, IsTrue};
ghost use Rattle.fix_base.specs.declared.entry.Entry.{Entry as TheEntry};
ghost use Rattle.fix_base.specs.End.{IsAppAt};
ghost use Rattle.fix_journal.specs.Journal.{Holds};
ghost use Rattle.fix_journal.specs.Cursors.{Stands, Gives};
ghost use Rattle.fix_journal.specs.declared.fault.OpenFault.TheVariants.{OutOfMemory};
ghost use Rattle.fix_journal.specs.Opening.{open_failures, fault_of};
ghost use Rattle.fix_store.specs.Spelling.{Item, spelled_item};
ghost use Rattle.fix_store.specs.Reading.{new_content, taken_all};
ghost use Rattle.fix_store.specs.Folding.{fold_of, Folds, Reads, IsWithin, GoesOn, Steps, Takes, IsUpTo, MayTake};
ghost use Rattle.fix_store.specs.Folding.{IsFitChange, IsReadFault, NamesApp, HasRoomFor, IsCountOf, IsApp};
ghost use Rattle.fix_store.specs.Finding.{StandFirst, IsPart};
ghost use Rattle.fix_store.specs.Counts.{counted_in, IsSearchable};
ghost use Rattle.fix_store.specs.declared.changing.Change.TheVariants.{Mark};

use crate::changing::{Change, change_read};
use crate::counts::Counts;
use crate::entries::{LentEntry, entry_in};
use crate::fetching::part_of;
use crate::finding::find;
use crate::folding::Folded;
use crate::reading::item_in;
use fix_disk::Disk;
use fix_journal::{Cursor, Journal, OpenFault, ReadFault};
use std::alloc::Global;

// Takes in all records of a journal that was opened, in their order, and makes room for the mark.
pub(crate) fn fold<D: Disk>(alloc: Global, journal: &mut Journal<D>) -> Result<Folded, OpenFault>
    requires { journal.old.stopped ≡ false }
    ensures folds { (payloads : List (List ℕ)) → Holds (D.disk journal.old.disk) payloads → journal.old.count
        ≡ length payloads → Folds result payloads }
    ensures within { IfOk result (λ f. IsWithin (fold_of f) journal.old.count) }
    ensures room { IfOk result (λ f. HasRoomFor f Mark) }
    ensures journal { OnOk result (GoesOn journal.old journal.new) }
    ensures reads { Reads (open_failures (fault_of result)) (D.disk journal.old.disk) (D.disk journal.new.disk) }
{
    match walk(alloc, journal) {
        Ok(folded) => with_room(folded),
        Err(fault) => Err(fault),
    }
}

// With room for the mark.
fn with_room(folded: Folded) -> Result<Folded, OpenFault>
    ensures same { IfOk result (λ f. fold_of f ≡ fold_of folded) }
    ensures room { IfOk result (λ f. HasRoomFor f Mark) }
    ensures memory { IfErr result (λ fault. fault ≡ OutOfMemory) }
{
    let mut folded = folded;
    match folded.reserve(Change::Mark) {
        Ok(()) => Ok(folded),
        Err(_) => Err(OpenFault::OutOfMemory),
    }
}

// Takes in all records of a journal that was opened, in their order.
fn walk<D: Disk>(alloc: Global, journal: &mut Journal<D>) -> Result<Folded, OpenFault>
    requires { journal.old.stopped ≡ false }
    ensures folds { (payloads : List (List ℕ)) → Holds (D.disk journal.old.disk) payloads → journal.old.count
        ≡ length payloads → Folds result payloads }
    ensures within { IfOk result (λ f. IsWithin (fold_of f) journal.old.count) }
    ensures journal { OnOk result (GoesOn journal.old journal.new) }
    ensures reads { Reads (open_failures (fault_of result)) (D.disk journal.old.disk) (D.disk journal.new.disk) }
{
    let mut folded = Folded::new(alloc);
    if journal.count() == 0 {
        return Ok(folded);
    }
    let mut cursor = journal.at_mark(0);
    let mut payload = Vec::new(alloc);
    let mut other = Vec::new(alloc);
    for index in 0..journal.count() {
        match take_next(journal, &mut cursor, &mut payload, &mut other, &mut folded) {
            Ok(()) => {}
            Err(fault) => return Err(fault),
        }
    }
    Ok(folded)
}

// Takes in the record at a cursor, and moves the cursor past it.
fn take_next<D: Disk>(
    journal: &mut Journal<D>,
    cursor: &mut Cursor,
    payload: &mut Vec<u8>,
    other: &mut Vec<u8>,
    folded: &mut Folded,
) -> Result<(), OpenFault>
    requires goes_on { journal.old.stopped ≡ false }
    requires index { cursor.old.index < journal.old.count }
    requires stands { Stands D.disk journal.old cursor.old }
    requires within { IsWithin (fold_of folded.old) cursor.old.index }
    ensures steps { OnOk result (Steps cursor.old.index (fold_of folded.old) (fold_of folded.new)) }
    ensures takes { (payloads : List (List ℕ)) (items : List Item) → Holds (D.disk journal.old.disk) payloads
        → IsUpTo payloads cursor.old.index items (fold_of folded.old)
        → Takes (fault_of result) cursor.old.index payloads items (fold_of folded.old) (fold_of folded.new) }
    ensures moved { OnOk result (cursor.new.index ≡ cursor.old.index + 1) }
    ensures stands { OnOk result (Stands D.disk journal.new cursor.new) }
    ensures journal { OnOk result (GoesOn journal.old journal.new) }
    ensures reads { Reads (open_failures (fault_of result)) (D.disk journal.old.disk) (D.disk journal.new.disk) }
{
    let index = cursor.index();
    let place = cursor.place();
    match read(journal, cursor, payload) {
        Ok(()) => {}
        Err(fault) => return Err(fault),
    }
    let Some(spelt) = item_in(payload) else {
        return Err(OpenFault::Damaged(place));
    };
    let change = change_read(&spelt);
    if !folded.may_take(change) {
        return Err(OpenFault::Damaged(place));
    }
    let named = match names_app(journal, folded, change, other) {
        Ok(named) => named,
        Err(fault) => return Err(fault),
    };
    if !named {
        return Err(OpenFault::Damaged(place));
    }
    if folded.reserve(change).is_err() {
        return Err(OpenFault::OutOfMemory);
    }
    folded.take(index, change);
    Ok(())
}

// Whether a number that is withheld is one of an application message.
fn names_app<D: Disk>(
    journal: &mut Journal<D>,
    folded: &Folded,
    change: Change,
    other: &mut Vec<u8>,
) -> Result<bool, OpenFault>
    requires goes_on { journal.old.stopped ≡ false }
    requires searchable { IsSearchable (counted_in folded.now.counts) journal.old.count }
    requires may { MayTake (fold_of folded.now) change }
    requires fits { IsFitChange change }
    ensures names { (payloads : List (List ℕ)) (index : ℕ) (items : List Item) → Holds (D.disk journal.old.disk) payloads
        → IsUpTo payloads index items (fold_of folded.now) → length items ≤ journal.old.count
        → IfOk result (λ named. IsTrue named ↔ NamesApp change (taken_all new_content items).end) }
    ensures whole { IfErr result IsReadFault }
    ensures journal { OnOk result (GoesOn journal.old journal.new) }
    ensures reads { Reads (open_failures (fault_of result)) (D.disk journal.old.disk) (D.disk journal.new.disk) }
{
    match change {
        Change::Withhold(number) => is_app(journal, &folded.counts, number, other),
        Change::Entries(_, _) | Change::Expect(_) | Change::Reset(_) => Ok(true),
        Change::ResetAsk(_) | Change::Confirm | Change::Mark => Ok(true),
    }
}

// Whether the entry of this number is an application message.
fn is_app<D: Disk>(
    journal: &mut Journal<D>,
    counts: &Counts,
    number: u32,
    other: &mut Vec<u8>,
) -> Result<bool, OpenFault>
    requires goes_on { journal.old.stopped ≡ false }
    requires searchable { IsSearchable (counted_in counts.now) journal.old.count }
    requires first { 1 ≤ number }
    requires last { number ≤ counts.now.last }
    ensures is { (payloads : List (List ℕ)) (items : List Item) (out : List TheEntry)
        → Holds (D.disk journal.old.disk) payloads → StandFirst journal.old.count payloads items
        → IsCountOf items (counted_in counts.now) out
        → IfOk result (λ found. IsTrue found ↔ ((body : List ℕ) × IsAppAt out number body)) }
    ensures whole { IfErr result IsReadFault }
    ensures journal { OnOk result (GoesOn journal.old journal.new) }
    ensures reads { Reads (open_failures (fault_of result)) (D.disk journal.old.disk) (D.disk journal.new.disk) }
{
    match find(journal, counts, None, number, other) {
        Ok(found) => Ok(has_app(other, found.nth)),
        Err(ReadFault::Stopped) => unreachable!(),
        Err(ReadFault::OutOfMemory) => Err(OpenFault::OutOfMemory),
        Err(ReadFault::DiskFault) => Err(OpenFault::DiskFault),
    }
}

// Whether the entry of a record that has so many before it is an application message.
fn has_app(payload: &[u8], nth: u32) -> bool
    ensures { (entry : TheEntry) → IsPart payload.now nth entry → IsTrue result ↔ IsApp entry }
{
    match entry_in(part_of(payload, nth).0) {
        Some(LentEntry::App { .. }) => true,
        Some(LentEntry::Admin { .. }) => false,
        None => false,
    }
}

// Reads the record at a cursor, and moves the cursor past it.
fn read<D: Disk>(
    journal: &mut Journal<D>,
    cursor: &mut Cursor,
    payload: &mut Vec<u8>,
) -> Result<(), OpenFault>
    requires goes_on { journal.old.stopped ≡ false }
    requires within { cursor.old.index < journal.old.count }
    requires stands { Stands D.disk journal.old cursor.old }
    ensures read { OnOk result (Gives (D.disk journal.old.disk) cursor.old.index payload.new.items) }
    ensures moved { OnOk result (cursor.new.index ≡ cursor.old.index + 1) }
    ensures stands { Stands D.disk journal.new cursor.new }
    ensures whole { IfErr result IsReadFault }
    ensures journal { OnOk result (GoesOn journal.old journal.new) }
    ensures reads { Reads (open_failures (fault_of result)) (D.disk journal.old.disk) (D.disk journal.new.disk) }
{
    match journal.next(cursor, payload) {
        Ok(()) => Ok(()),
        Err(ReadFault::Stopped) => unreachable!(),
        Err(ReadFault::OutOfMemory) => Err(OpenFault::OutOfMemory),
        Err(ReadFault::DiskFault) => Err(OpenFault::DiskFault),
    }
}
