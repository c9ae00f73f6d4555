//! Copies entries and records. `tape` calls this for the entries of one record.
ghost use Rattle.std.specs.Prelude.{◌≡◌, ◌++◌, ◌∷◌, [], IfOk, OnOk};

use fix_base::{Bytes, Entries, Entry, OutOfMemory, Record};
use std::alloc::Global;

/// The same entry.
pub fn copy_entry(alloc: Global, entry: &Entry) -> Result<Entry, OutOfMemory>
    ensures { IfOk result (λ made. made ≡ entry.now) }
{
    match entry {
        Entry::App { time, by, body } => Ok(Entry::App {
            time: *time,
            by: *by,
            body: Bytes::copy(alloc, body.as_slice())?,
        }),
        Entry::Admin { time, kind, about } => Ok(Entry::Admin {
            time: *time,
            kind: *kind,
            about: *about,
        }),
    }
}

/// The same record.
pub fn copy_record(alloc: Global, kept: &Record) -> Result<Record, OutOfMemory>
    ensures { IfOk result (λ made. made ≡ kept.now) }
{
    match kept {
        Record::Push(entry) => Ok(Record::Push(copy_entry(alloc, entry)?)),
        Record::Expect(number) => Ok(Record::Expect(*number)),
        Record::Many { pushes, expect } => Ok(Record::Many {
            pushes: Entries::from_vec(copy_entries(alloc, pushes.as_slice())?),
            expect: *expect,
        }),
        Record::Withhold(number) => Ok(Record::Withhold(*number)),
        Record::Reset(time) => Ok(Record::Reset(*time)),
        Record::ResetAsk(time) => Ok(Record::ResetAsk(*time)),
        Record::Confirm => Ok(Record::Confirm),
    }
}

/// The same entries.
pub fn copy_entries(alloc: Global, entries: &[Entry]) -> Result<Vec<Entry>, OutOfMemory>
    ensures { IfOk result (λ made. made.items ≡ entries.now) }
{
    let mut made = Vec::new(alloc);
    for entry in entries {
        push(&mut made, copy_entry(alloc, entry)?)?;
    }
    Ok(made)
}

// One more entry.
fn push(made: &mut Vec<Entry>, entry: Entry) -> Result<(), OutOfMemory>
    ensures { OnOk result (made.new.items ≡ made.old.items ++ entry ∷ []) }
{
    match made.push(entry) {
        Ok(()) => Ok(()),
        Err(_) => Err(OutOfMemory),
    }
}
