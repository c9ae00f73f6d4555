//! Reads the payload of one entry, or of several one after another. `reading` calls this for a record, and
//! `fetching` for an entry.
ghost use Rattle.std.specs.Prelude.{◌≡◌, ◌↔◌, ◌++◌, ◌∷◌, [], ◌<◌, ◌^◌, ℕ, List, length, slice_get, Some, IsTrue};
ghost use Rattle.std.specs.Prelude.{MatchOption};
ghost use Rattle.std.specs.List.{AllByRecursion};
ghost use Rattle.std.specs.Int.{w32, w64, to_be_bytes};
ghost use Rattle.fix_base.specs.declared.entry.Entry.{Entry as TheEntry};
ghost use Rattle.fix_base.specs.Payload.{HasPayload, IsAppPayload, IsAdminPayload};
ghost use Rattle.fix_base.specs.Payload as payload;
ghost use Rattle.fix_store.specs.Spelling.{spelled_entry, spelled_entries, mark_of};
ghost use Rattle.fix_store.specs.Folding.{lent_entry, AreEntries};

use crate::numbers::{number_at, number_in, time_at};
use fix_base::By;
use fix_fields::is_entry_body;

/// The most bytes of a body.
const MOST_BODY_BYTES: usize = 1_048_064;

// An entry whose body is lent.
#[derive(Clone, Copy)]
pub(crate) enum LentEntry<'a> {
    App { time: u64, by: By, body: &'a [u8] },
    Admin { time: u64, kind: u8, about: u32 },
}

// The entry whose payload this is, where it may be kept.
pub(crate) fn entry_in(payload: &[u8]) -> Option<LentEntry<'_>>
    ensures { MatchOption result
        ((entry : TheEntry) → HasPayload entry → payload.now ≡ spelled_entry entry → ⊥)
        (λ e. HasPayload (lent_entry e) × (payload.now ≡ spelled_entry (lent_entry e))) }
{
    let (mark, rest) = payload.split_first()?;
    match *mark {
        1 => app_in(rest, By::Caller),
        2 => app_in(rest, By::Engine),
        3 => admin_in(rest),
        _ => None,
    }
}

// Whether these are the payloads of so many entries, each after its length.
pub(crate) fn are_entries(count: u32, bytes: &[u8]) -> bool
    ensures { IsTrue result ↔ AreEntries count bytes.now }
{
    if count == 0 {
        return bytes.is_empty();
    }
    let Some((first, later)) = part_at(bytes) else {
        return false;
    };
    match entry_in(first) {
        Some(_) => are_entries(count - 1, later),
        None => false,
    }
}

// The payload of an entry that has so many before it, and the bytes after it.
pub(crate) fn nth_part(bytes: &[u8], nth: u32) -> (&[u8], &[u8])
    ensures within { (front : List ℕ) × (bytes.now ≡ front ++ (result.0.now ++ result.1.now)) }
    ensures is { (entries : List TheEntry) (entry : TheEntry) → AllByRecursion HasPayload entries
        → bytes.now ≡ spelled_entries entries → slice_get entries nth ≡ Some entry
        → result.0.now ≡ spelled_entry entry }
{
    let Some((first, later)) = part_at(bytes) else {
        return (bytes, &[]);
    };
    if nth == 0 {
        return (first, later);
    }
    nth_part(later, nth - 1)
}

// The bytes whose length stands at the front, and those after them.
fn part_at(bytes: &[u8]) -> Option<(&[u8], &[u8])>
    ensures { MatchOption result
        ((part later : List ℕ) → length part < 2 ^ 32
        → bytes.now ≡ to_be_bytes w32 (length part) ++ (part ++ later) → ⊥)
        (λ x. (length x.0.now < 2 ^ 32)
        × (bytes.now ≡ to_be_bytes w32 (length x.0.now) ++ (x.0.now ++ x.1.now))) }
{
    let (size, rest) = number_at(bytes)?;
    if size as usize > rest.len() {
        return None;
    }
    Some((&rest[..size as usize], &rest[size as usize..]))
}

fn app_in(rest: &[u8], by: By) -> Option<LentEntry<'_>>
    ensures { MatchOption result
        ((time : ℕ) (body : List ℕ) → IsAppPayload time body → rest.now ≡ to_be_bytes w64 time ++ body → ⊥)
        (λ e. HasPayload (lent_entry e) × (mark_of by ∷ rest.now ≡ spelled_entry (lent_entry e))) }
{
    let (time, body) = time_at(rest)?;
    if body.len() > MOST_BODY_BYTES {
        return None;
    }
    if !is_entry_body(body) {
        return None;
    }
    Some(LentEntry::App { time, by, body })
}

fn admin_in(rest: &[u8]) -> Option<LentEntry<'_>>
    ensures { MatchOption result
        ((time kind about : ℕ) → IsAdminPayload time kind about → rest.now ≡ to_be_bytes w64 time ++ kind ∷ to_be_bytes w32 about → ⊥)
        (λ e. HasPayload (lent_entry e) × (3 ∷ rest.now ≡ spelled_entry (lent_entry e))) }
{
    let (time, later) = time_at(rest)?;
    let (kind, later) = later.split_first()?;
    if !is_admin_kind(*kind) {
        return None;
    }
    let about = number_in(later)?;
    Some(LentEntry::Admin {
        time,
        kind: *kind,
        about,
    })
}

// Heartbeat, TestRequest, ResendRequest, Reject, Logout, Logon, and a message that is sent once.
fn is_admin_kind(kind: u8) -> bool
    ensures { result ≡ payload.is_admin_kind kind }
{
    b"01235AN".iter().any(|k| *k == kind)
}
