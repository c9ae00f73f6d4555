//! Reads a payload as a record or the mark, or finds that it is none. `walking` calls this when a store is opened.
ghost use Rattle.std.specs.Prelude.{◌≡◌, ◌↔◌, ◌++◌, ◌∷◌, [], ◌≤◌, ℕ, List, IsTrue, MatchOption};
ghost use Rattle.std.specs.Int.{w32, w64, to_be_bytes};
ghost use Rattle.fix_base.specs.declared.entry.Entry.{Entry as TheEntry};
ghost use Rattle.fix_base.specs.Payload.{HasPayload, IsManyPayload, LAST_TIME};
ghost use Rattle.fix_store.specs.Spelling.{Item, spelled_item, spelled_entry, spelled_many};
ghost use Rattle.fix_store.specs.Folding.{item_of, IsFit, HasManyCounts};

use crate::entries::{LentEntry, are_entries, entry_in};
use crate::numbers::{number_at, number_in, time_at};
use fix_base::By;

/// The most bytes of a record after the first one.
const MOST_REST: usize = 1_114_111;

/// The most entries of one record.
const MOST_ENTRIES: u32 = 64;

/// The greatest expected number: after it no MsgSeqNum (34) comes.
const LAST_EXPECTED: u32 = 1_000_000_000;

/// The greatest MsgSeqNum (34).
const LAST_NUMBER: u32 = 999_999_999;

// A record whose bytes are lent, or the mark.
#[derive(Clone, Copy)]
pub(crate) enum Spelt<'a> {
    App {
        time: u64,
        by: By,
        body: &'a [u8],
    },
    Admin {
        time: u64,
        kind: u8,
        about: u32,
    },
    Many {
        count: u32,
        expect: u32,
        entries: &'a [u8],
    },
    Expect(u32),
    Withhold(u32),
    Reset(u64),
    ResetAsk(u64),
    Confirm,
    Mark,
}

// What the payload is, where it may stand in a file.
pub(crate) fn item_in(payload: &[u8]) -> Option<Spelt<'_>>
    ensures { MatchOption result
        ((i : Item) → IsFit i → payload.now ≡ spelled_item i → ⊥)
        (λ s. IsFit (item_of s) × (payload.now ≡ spelled_item (item_of s))) }
{
    let (mark, rest) = payload.split_first()?;
    match *mark {
        4 => expect_in(rest),
        5 => reset_in(rest),
        6 => many_in(rest),
        7 => withhold_in(rest),
        8 => ask_in(rest),
        9 => confirm_in(rest),
        10 => mark_in(rest),
        _ => push_in(payload),
    }
}

fn push_in(payload: &[u8]) -> Option<Spelt<'_>>
    ensures { MatchOption result
        ((entry : TheEntry) → HasPayload entry → payload.now ≡ spelled_entry entry → ⊥)
        (λ s. IsFit (item_of s) × (payload.now ≡ spelled_item (item_of s))) }
{
    match entry_in(payload)? {
        LentEntry::App { time, by, body } => Some(Spelt::App { time, by, body }),
        LentEntry::Admin { time, kind, about } => Some(Spelt::Admin { time, kind, about }),
    }
}

fn expect_in(rest: &[u8]) -> Option<Spelt<'_>>
    ensures { MatchOption result
        ((number : ℕ) → 1 ≤ number → number ≤ 1000000000 → rest.now ≡ to_be_bytes w32 number → ⊥)
        (λ s. IsFit (item_of s) × (4 ∷ rest.now ≡ spelled_item (item_of s))) }
{
    let number = number_in(rest)?;
    if number < 1 {
        return None;
    }
    if number > LAST_EXPECTED {
        return None;
    }
    Some(Spelt::Expect(number))
}

fn withhold_in(rest: &[u8]) -> Option<Spelt<'_>>
    ensures { MatchOption result
        ((number : ℕ) → 1 ≤ number → number ≤ 999999999 → rest.now ≡ to_be_bytes w32 number → ⊥)
        (λ s. IsFit (item_of s) × (7 ∷ rest.now ≡ spelled_item (item_of s))) }
{
    let number = number_in(rest)?;
    if number < 1 {
        return None;
    }
    if number > LAST_NUMBER {
        return None;
    }
    Some(Spelt::Withhold(number))
}

fn reset_in(rest: &[u8]) -> Option<Spelt<'_>>
    ensures { MatchOption result
        ((time : ℕ) → time ≤ LAST_TIME → rest.now ≡ to_be_bytes w64 time → ⊥)
        (λ s. IsFit (item_of s) × (5 ∷ rest.now ≡ spelled_item (item_of s))) }
{
    let (time, later) = time_at(rest)?;
    if !later.is_empty() {
        return None;
    }
    Some(Spelt::Reset(time))
}

fn ask_in(rest: &[u8]) -> Option<Spelt<'_>>
    ensures { MatchOption result
        ((time : ℕ) → time ≤ LAST_TIME → rest.now ≡ to_be_bytes w64 time → ⊥)
        (λ s. IsFit (item_of s) × (8 ∷ rest.now ≡ spelled_item (item_of s))) }
{
    let (time, later) = time_at(rest)?;
    if !later.is_empty() {
        return None;
    }
    Some(Spelt::ResetAsk(time))
}

fn confirm_in(rest: &[u8]) -> Option<Spelt<'_>>
    ensures { MatchOption result
        (rest.now ≡ 0 ∷ 0 ∷ 0 ∷ 0 ∷ [] → ⊥)
        (λ s. IsFit (item_of s) × (9 ∷ rest.now ≡ spelled_item (item_of s))) }
{
    match rest {
        [0, 0, 0, 0] => Some(Spelt::Confirm),
        _ => None,
    }
}

fn mark_in(rest: &[u8]) -> Option<Spelt<'_>>
    ensures { MatchOption result
        (rest.now ≡ 0 ∷ 0 ∷ 0 ∷ 2 ∷ [] → ⊥)
        (λ s. IsFit (item_of s) × (10 ∷ rest.now ≡ spelled_item (item_of s))) }
{
    match rest {
        [0, 0, 0, 2] => Some(Spelt::Mark),
        _ => None,
    }
}

fn many_in(rest: &[u8]) -> Option<Spelt<'_>>
    ensures { MatchOption result
        ((pushes : List TheEntry) (number : ℕ) → IsManyPayload pushes number → rest.now ≡ spelled_many pushes number → ⊥)
        (λ s. IsFit (item_of s) × (6 ∷ rest.now ≡ spelled_item (item_of s))) }
{
    if rest.len() > MOST_REST {
        return None;
    }
    let (count, later) = number_at(rest)?;
    let (expect, entries) = number_at(later)?;
    if !has_many_counts(count, expect) {
        return None;
    }
    if !are_entries(count, entries) {
        return None;
    }
    Some(Spelt::Many {
        count,
        expect,
        entries,
    })
}

// Whether a record of so many entries and this expected number is one: one entry alone with nothing to expect
// is not.
fn has_many_counts(count: u32, expect: u32) -> bool
    ensures { IsTrue result ↔ HasManyCounts count expect }
{
    if count < 1 {
        return false;
    }
    if count > MOST_ENTRIES {
        return false;
    }
    if expect > LAST_EXPECTED {
        return false;
    }
    if expect > 0 {
        return true;
    }
    count >= 2
}
