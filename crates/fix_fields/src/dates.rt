//! The values that are dates, months, days of a month and times of day. `kind` calls this for each of
//! these data types.
ghost use Rattle.std.specs.Prelude.{◌≡◌, ◌↔◌, ℕ, ◌+◌, ◌≤◌, List, [], ◌∷◌, IsTrue, MatchOption};
ghost use Rattle.fix_fields.specs.Value.{IsDate, HasMonth, IsMonthYear, IsTimeOfDay, IsDayOfMonth};
ghost use Rattle.fix_fields.specs.Parts.{IsNoDay, IsWeek};

use crate::number::{digits_of, sign_at};
use crate::times::{clock_at, day_at, fraction_of, two_at};

/// Whether the value is a `month-year` (FIX, "Data Types"): `YYYYMM`, `YYYYMMDD` of a day that
/// exists, or `YYYYMM` and one of `w1` to `w5`.
pub fn month_year(value: &[u8]) -> bool
    ensures { IsTrue result ↔ IsMonthYear value.now }
{
    if is_date(value) {
        return true;
    }
    match behind_month(value) {
        Some(rest) => is_no_day(rest),
        None => false,
    }
}

// A day that exists, as `YYYYMMDD`.
pub fn is_date(value: &[u8]) -> bool
    ensures { IsTrue result ↔ IsDate value.now }
{
    match day_at(value) {
        Some((_, rest)) => rest.is_empty(),
        None => false,
    }
}

// `HH:MM:SS`, and a fraction.
pub fn is_time_of_day(value: &[u8]) -> bool
    ensures { IsTrue result ↔ IsTimeOfDay value.now }
{
    match clock_at(value) {
        Some((_, rest)) => fraction_of(rest).is_some(),
        None => false,
    }
}

// 1 to 31 in one or two digits.
pub fn is_day_of_month(value: &[u8]) -> bool
    ensures { IsTrue result ↔ IsDayOfMonth value.now }
{
    if value.len() > 2 {
        return false;
    }
    match digits_of(value) {
        Some(number) => 1 <= number && number <= 31,
        None => false,
    }
}

// Nothing, or a week of the month.
fn is_no_day(rest: &[u8]) -> bool
    ensures { IsTrue result ↔ IsNoDay rest.now }
{
    if rest.is_empty() {
        return true;
    }
    match sign_at(rest, b'w') {
        Some(week) => is_week(week),
        None => false,
    }
}

// A week of a month: 1 to 5.
fn is_week(week: &[u8]) -> bool
    ensures { IsTrue result ↔ IsWeek week.now }
{
    match week {
        [digit] => *digit >= b'1' && *digit <= b'5',
        _ => false,
    }
}

// What stands after a month that exists.
fn behind_month(bytes: &[u8]) -> Option<&[u8]>
    ensures { MatchOption result
        ((rest : List ℕ) → HasMonth bytes.now rest → ⊥)
        (λ rest. HasMonth bytes.now rest.now) }
{
    let (_century, rest) = two_at(bytes)?;
    let (_of_century, rest) = two_at(rest)?;
    let (month, rest) = two_at(rest)?;
    if month < 1 || month > 12 {
        return None;
    }
    Some(rest)
}
