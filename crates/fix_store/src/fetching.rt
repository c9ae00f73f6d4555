//! Makes an entry of a record that was read from the journal. `Store::entry` calls this.
ghost use Rattle.std.specs.Prelude.{◌≡◌, ◌≤◌, ◌+◌, ◌++◌, ℕ, List, Some, drop, length, slice_get};
ghost use Rattle.fix_base.specs.declared.entry.Entry.{Entry as TheEntry};
ghost use Rattle.fix_base.specs.Payload.{HasPayload};
ghost use Rattle.fix_store.specs.Spelling.{Item, spelled_item, spelled_entry};
ghost use Rattle.fix_store.specs.Store.{NO_ENTRY, ReadsAs};
ghost use Rattle.fix_store.specs.Folding.{IsFit, pushes_of};

use crate::entries::{LentEntry, entry_in, nth_part};
use fix_base::{Bytes, Entry};

/// The bytes of a payload before the body.
const HEAD_BYTES: usize = 9;

/// The bytes of a record of several entries before the first one's length.
const MANY_HEAD_BYTES: usize = 9;

/// The first byte of a record of several entries.
const MANY: u8 = 6;

// The payload of an entry of a record, which has so many entries before it.
pub(crate) fn part_of(payload: &[u8], nth: u32) -> (&[u8], &[u8])
    ensures within { (front : List ℕ) × (payload.now ≡ front ++ (result.0.now ++ result.1.now)) }
    ensures is { (i : Item) (entry : TheEntry) → IsFit i → payload.now ≡ spelled_item i
        → slice_get (pushes_of i) nth ≡ Some entry → result.0.now ≡ spelled_entry entry }
{
    if payload.len() < MANY_HEAD_BYTES {
        return (payload, &[]);
    }
    if payload[0] != MANY {
        return (payload, &[]);
    }
    nth_part(&payload[MANY_HEAD_BYTES..], nth)
}

// The entry of a record that has so many entries before it. Only a disk that doesn't tell its bytes gives back
// another record.
pub(crate) fn entry_at(payload: Vec<u8>, nth: u32) -> Entry
    ensures reads { (part : List ℕ) × ReadsAs part result
        × ((i : Item) (entry : TheEntry) → IsFit i → payload.items ≡ spelled_item i
        → slice_get (pushes_of i) nth ≡ Some entry → part ≡ spelled_entry entry) }
    ensures keepable { HasPayload result }
{
    let parts = part_of(&payload, nth);
    let size = parts.0.len();
    let left = parts.1.len();
    entry_of(cut(payload, size, left))
}

// The bytes of this length that have so many after them, without a copy.
fn cut(payload: Vec<u8>, size: usize, left: usize) -> Vec<u8>
    requires { size + left ≤ length payload.items }
    ensures { (front part later : List ℕ) → payload.items ≡ front ++ (part ++ later) → length part ≡ size
        → length later ≡ left → result.items ≡ part }
{
    let mut part = payload;
    let end = part.len() - left;
    part.truncate(end);
    part.drain(..end - size);
    part
}

// The entry whose payload this is.
fn entry_of(payload: Vec<u8>) -> Entry
    ensures reads { ReadsAs payload.items result }
    ensures keepable { HasPayload result }
{
    match entry_in(&payload) {
        Some(LentEntry::App { time, by, .. }) => Entry::App {
            time,
            by,
            body: body_of(payload),
        },
        Some(LentEntry::Admin { time, kind, about }) => Entry::Admin { time, kind, about },
        None => Entry::Admin {
            time: 0,
            kind: b'N',
            about: 0,
        },
    }
}

// The body of an App entry's payload, without a copy.
fn body_of(payload: Vec<u8>) -> Bytes
    requires { 9 ≤ length payload.items }
    ensures { result ≡ drop 9 payload.items }
{
    let mut body = payload;
    body.drain(..HEAD_BYTES);
    Bytes::from_vec(body)
}
