//! Writes a record as a payload of the journal, which `reading` reads back. `store` calls this before each
//! append.
ghost use Rattle.std.specs.Prelude.{◌≡◌, ◌++◌, ◌∷◌, ◌<◌, OnOk, Some, length, slice_get};
ghost use Rattle.std.specs.Int.{w32, w64, to_be_bytes};
ghost use Rattle.std.specs.List.{AllByRecursion};
ghost use Rattle.fix_base.specs.Payload.{HasPayload, IsKeepable};
ghost use Rattle.fix_store.specs.Spelling.{spelled, spelled_entry, spelled_entries, mark_of};
ghost use Rattle.fix_store.specs.Folding.{record_of};

use fix_base::{By, Entry};
use std::alloc::AllocError;

// A record that is lent.
#[derive(Clone, Copy)]
pub(crate) enum Kept<'a> {
    Push(&'a Entry),
    // The entries, and the number that is expected then, or 0.
    Many(&'a [Entry], u32),
    Expect(u32),
    Withhold(u32),
    Reset(u64),
    ResetAsk(u64),
    Confirm,
}

// Spells a record.
pub(crate) fn spell(into: &mut Vec<u8>, kept: &Kept<'_>) -> Result<(), AllocError>
    requires { IsKeepable (record_of kept.now) }
    ensures { OnOk result (into.new.items ≡ spelled (record_of kept.now)) }
{
    into.clear();
    match *kept {
        Kept::Push(entry) => add_entry(into, entry),
        Kept::Many(pushes, expect) => {
            into.push(6)?;
            into.extend_from_slice(&(pushes.len() as u32).to_be_bytes())?;
            into.extend_from_slice(&expect.to_be_bytes())?;
            add_entries(into, pushes)
        }
        Kept::Expect(number) => add_number(into, 4, number),
        Kept::Withhold(number) => add_number(into, 7, number),
        Kept::Reset(time) => add_time(into, 5, time),
        Kept::ResetAsk(time) => add_time(into, 8, time),
        Kept::Confirm => add_number(into, 9, 0),
    }
}

fn add_number(into: &mut Vec<u8>, mark: u8, number: u32) -> Result<(), AllocError>
    ensures { OnOk result (into.new.items ≡ into.old.items ++ mark ∷ to_be_bytes w32 number) }
{
    into.push(mark)?;
    into.extend_from_slice(&number.to_be_bytes())
}

fn add_time(into: &mut Vec<u8>, mark: u8, time: u64) -> Result<(), AllocError>
    ensures { OnOk result (into.new.items ≡ into.old.items ++ mark ∷ to_be_bytes w64 time) }
{
    into.push(mark)?;
    into.extend_from_slice(&time.to_be_bytes())
}

// The payloads of entries, each after its length.
fn add_entries(into: &mut Vec<u8>, entries: &[Entry]) -> Result<(), AllocError>
    requires { AllByRecursion HasPayload entries.now }
    ensures { OnOk result (into.new.items ≡ into.old.items ++ spelled_entries entries.now) }
{
    let count = entries.len();
    for nth in 0..count {
        let entry = nth_of(entries, nth);
        into.extend_from_slice(&size(entry).to_be_bytes())?;
        add_entry(into, entry)?;
    }
    Ok(())
}

// The entry that has so many before it.
fn nth_of(entries: &[Entry], nth: usize) -> &Entry
    requires { nth < length entries.now }
    ensures { slice_get entries.now nth ≡ Some result.now }
{
    &entries[nth]
}

// How long the payload of an entry is.
fn size(entry: &Entry) -> u32
    requires { HasPayload entry.now }
    ensures { result ≡ length (spelled_entry entry.now) }
{
    match entry {
        Entry::App { body, .. } => body.as_slice().len() as u32 + 9,
        Entry::Admin { .. } => 14,
    }
}

// The payload of an entry.
fn add_entry(into: &mut Vec<u8>, entry: &Entry) -> Result<(), AllocError>
    requires { HasPayload entry.now }
    ensures { OnOk result (into.new.items ≡ into.old.items ++ spelled_entry entry.now) }
{
    match entry {
        Entry::App { time, by, body } => {
            into.push(mark(*by))?;
            into.extend_from_slice(&time.to_be_bytes())?;
            into.extend_from_slice(body.as_slice())
        }
        Entry::Admin { time, kind, about } => {
            into.push(3)?;
            into.extend_from_slice(&time.to_be_bytes())?;
            into.push(*kind)?;
            into.extend_from_slice(&about.to_be_bytes())
        }
    }
}

// Who made an application message.
fn mark(by: By) -> u8
    ensures { result ≡ mark_of by }
{
    match by {
        By::Caller => 1,
        By::Engine => 2,
    }
}
