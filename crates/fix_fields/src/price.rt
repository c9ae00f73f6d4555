//! Whether a value is a decimal number. `kind` calls this for prices, quantities and the like.
ghost use Rattle.std.specs.Prelude.{◌≡◌, ◌↔◌, ◌<◌, ◌∷◌, ◌++◌, length, take, slice_index, IsTrue, MatchOption};
ghost use Rattle.fix_fields.specs.Value.{IsAmount, IsPrice};
ghost use Rattle.fix_fields.specs.Parts.{AreDigits, HasNoPoint};

use crate::number::{digits_after, sign_at};

/// Whether the value is one of a `Price`, `Qty`, `Amt`, `PriceOffset`, `Percentage` or `float` (FIX,
/// "Data Types"): digits, among which one point may stand and before which a minus may, at most 15
/// after leading zeros. A price stays text: it is neither rounded nor written anew.
pub fn price_text(value: &[u8]) -> bool
    ensures { IsTrue result ↔ IsPrice value.now }
{
    match sign_at(value, b'-') {
        Some(amount) => is_amount(amount),
        None => is_amount(value),
    }
}

// Digits, among which one point may stand.
fn is_amount(value: &[u8]) -> bool
    ensures { IsTrue result ↔ IsAmount value.now }
{
    match parts_of(value) {
        Some((whole, fraction)) => are_digits(whole, fraction),
        None => are_digits(value, &[]),
    }
}

// What stands before the first point, and after it.
fn parts_of(value: &[u8]) -> Option<(&[u8], &[u8])>
    ensures { MatchOption result
        (HasNoPoint value.now)
        (λ x. HasNoPoint x.0.now × (value.now ≡ x.0.now ++ 46 ∷ x.1.now)) }
{
    let place = point_at(value)?;
    Some((&value[..place], &value[place + 1..]))
}

// Where the first point stands.
fn point_at(value: &[u8]) -> Option<usize>
    ensures { MatchOption result (HasNoPoint value.now)
        (λ i. (i < length value.now) × HasNoPoint (take i value.now) × (slice_index value.now i ≡ 46)) }
{
    value.iter().position(|b| *b == b'.')
}

// Whether both together are digits of a number that may be read.
fn are_digits(whole: &[u8], fraction: &[u8]) -> bool
    ensures { IsTrue result ↔ AreDigits (whole.now ++ fraction.now) }
{
    if whole.len() + fraction.len() == 0 {
        return false;
    }
    match digits_after(0, whole) {
        Some(number) => digits_after(number, fraction).is_some(),
        None => false,
    }
}
