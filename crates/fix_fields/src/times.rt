//! Reads a UTCTimestamp as a time, and writes a time as one. `kind`, `fix_engine` and `fix_machine` call
//! this, and `dates` calls its parts.
ghost use Rattle.std.specs.Prelude.{◌≡◌, ℕ, ◌+◌, ◌/◌, ◌%◌, ◌<◌, ◌≤◌, List, [], ◌∷◌, ◌++◌, MatchOption, IfSome, Some, ℤ};
ghost use Rattle.jiff_core.specs.Calendar.{IsEpochDay};
ghost use Rattle.fix_base.specs.Payload.{LAST_TIME};
ghost use Rattle.fix_base.specs.Times.{two_digits, four_digits, digits_of_precision, IsTimeTextOf, IsUtcTimestamp};
ghost use Rattle.fix_fields.specs.Timed.{HasTwo, HasDay, HasClock, HasFraction};

use crate::number::{digits_of, sign_at};
use fix_base::Precision;
use jiff_core::civil::Date;
use std::marker::Model;

/// A time as text. Contracts see it as its bytes.
#[derive(Debug, Drop)]
pub struct TimeText {
    bytes: [u8; 24],
    length: usize,
}

impl Model for TimeText {
    ghost use Rattle.std.specs.Prelude.{ℕ, ◌≤◌, List, take};

    ghost Value = { List ℕ };

    ghost view = { λ t. take t.length t.bytes };

    ghost invariant = { λ t. t.length ≤ 24 };
}

impl TimeText {
    pub fn as_slice(&self) -> &[u8]
        ensures { result.now ≡ self.now }
    {
        &self.bytes[..self.length]
    }
}

/// The time that a UTCTimestamp says, in microseconds since 1970-01-01 00:00:00 UTC, or None where
/// the value is none (FIX, "Data Types", `UTCTimestamp`). It is `YYYYMMDD-HH:MM:SS`, or that with a
/// point and three, six or nine digits, of which those after the sixth are cut off. The day
/// exists; second 60, which any minute may have, is the second that follows second 59.
pub fn utc_time(value: &[u8]) -> Option<i64>
    ensures known { IfSome result (λ time. IsUtcTimestamp value.now time) }
    ensures each { (time : ℤ) → IsUtcTimestamp value.now time → result ≡ Some time }
{
    let (day, rest) = day_at(value)?;
    let rest = sign_at(rest, b'-')?;
    let (second, rest) = clock_at(rest)?;
    let micros = fraction_of(rest)?;
    // the day's number and the second of the day, so that second 60 of the last day works too
    Some((i64::from(day) * 86_400 + i64::from(second)) * 1_000_000 + micros as i64)
}

/// The text of a time (microseconds since 1970, up to the end of 2099) as a UTCTimestamp of this
/// precision; the digits beyond it are cut off.
pub fn time_text(time: u64, precision: Precision) -> TimeText
    requires { time ≤ LAST_TIME }
    ensures { IsTimeTextOf (digits_of_precision precision) time result }
{
    let day = time / 86_400_000_000;
    let of_day = time % 86_400_000_000;
    let date = Date::from_unix_epoch_day(day as i64).unwrap();
    let second = (of_day / 1_000_000) as u32;
    let micros = (of_day % 1_000_000) as u32;
    let bytes = spelled(
        date.year as u32,
        u32::from(date.month),
        u32::from(date.day),
        second,
        micros,
    );
    match precision {
        Precision::Seconds => TimeText { bytes, length: 17 },
        Precision::Millis => TimeText { bytes, length: 21 },
        Precision::Micros => TimeText { bytes, length: 24 },
    }
}

pub fn two_at(bytes: &[u8]) -> Option<(u8, &[u8])>
    ensures { MatchOption result
        ((number : ℕ) (rest : List ℕ) → HasTwo number bytes.now rest → ⊥)
        (λ x. HasTwo x.0 bytes.now x.1.now) }
{
    let [tens, ones, rest @ ..] = bytes else {
        return None;
    };
    if !tens.is_ascii_digit() || !ones.is_ascii_digit() {
        return None;
    }
    Some(((*tens - b'0') * 10 + (*ones - b'0'), rest))
}

// The number of a day that exists, from 1970-01-01.
pub fn day_at(bytes: &[u8]) -> Option<(i32, &[u8])>
    ensures bound { IfSome result (λ x. IsEpochDay x.0) }
    ensures value { MatchOption result
        ((number : ℤ) (rest : List ℕ) → HasDay number bytes.now rest → ⊥)
        (λ x. HasDay x.0 bytes.now x.1.now) }
{
    let (century, rest) = two_at(bytes)?;
    let (of_century, rest) = two_at(rest)?;
    let (month, rest) = two_at(rest)?;
    let (day, rest) = two_at(rest)?;
    let year = u16::from(century) * 100 + u16::from(of_century);
    match Date::new(year as i16, month as i8, day as i8) {
        Ok(date) => Some((date.to_unix_epoch_day(), rest)),
        Err(_) => None,
    }
}

// The second of the day.
pub fn clock_at(bytes: &[u8]) -> Option<(u32, &[u8])>
    ensures bound { IfSome result (λ x. x.0 ≤ 86400) }
    ensures value { MatchOption result
        ((number : ℕ) (rest : List ℕ) → HasClock number bytes.now rest → ⊥)
        (λ x. HasClock x.0 bytes.now x.1.now) }
{
    let (hour, rest) = two_at(bytes)?;
    let rest = sign_at(rest, b':')?;
    let (minute, rest) = two_at(rest)?;
    let rest = sign_at(rest, b':')?;
    let (second, rest) = two_at(rest)?;
    if hour > 23 || minute > 59 || second > 60 {
        return None;
    }
    let number = u32::from(hour) * 3600 + u32::from(minute) * 60 + u32::from(second);
    Some((number, rest))
}

// The microseconds that the point and its digits say.
pub fn fraction_of(bytes: &[u8]) -> Option<u64>
    ensures bound { IfSome result (λ number. number < 1000000) }
    ensures value { MatchOption result
        ((number : ℕ) → HasFraction number bytes.now → ⊥)
        (λ number. HasFraction number bytes.now) }
{
    if bytes.is_empty() {
        return Some(0);
    }
    let digits = sign_at(bytes, b'.')?;
    let number = digits_of(digits)?;
    match digits.len() {
        3 => Some(number * 1000),
        6 => Some(number),
        9 => Some(number / 1000),
        _ => None,
    }
}

// The text in full: the day, the second of the day, and the microseconds of the second.
fn spelled(year: u32, month: u32, day: u32, second: u32, micros: u32) -> [u8; 24]
    requires year_in { year < 10000 }
    requires month_in { month < 100 }
    requires day_in { day < 100 }
    requires second_in { second < 86400 }
    requires micros_in { micros < 1000000 }
    ensures { result ≡ four_digits year ++ two_digits month ++ two_digits day ++ 45 ∷ []
        ++ two_digits (second / 3600) ++ 58 ∷ [] ++ two_digits (second / 60 % 60) ++ 58 ∷ []
        ++ two_digits (second % 60) ++ 46 ∷ [] ++ two_digits (micros / 10000) ++ four_digits (micros % 10000) }
{
    let (hour, minute, second) = (second / 3600, second / 60 % 60, second % 60);
    let (high, low) = (micros / 10000, micros % 10000);
    [
        tens(year / 100),
        ones(year / 100),
        tens(year % 100),
        ones(year % 100),
        tens(month),
        ones(month),
        tens(day),
        ones(day),
        b'-',
        tens(hour),
        ones(hour),
        b':',
        tens(minute),
        ones(minute),
        b':',
        tens(second),
        ones(second),
        b'.',
        tens(high),
        ones(high),
        tens(low / 100),
        ones(low / 100),
        tens(low % 100),
        ones(low % 100),
    ]
}

// The first digit of two.
fn tens(number: u32) -> u8
    requires { number < 100 }
    ensures { result ≡ 48 + number / 10 }
{
    b'0' + (number / 10) as u8
}

// The second digit of two.
fn ones(number: u32) -> u8
    requires { number < 100 }
    ensures { result ≡ 48 + number % 10 }
{
    b'0' + (number % 10) as u8
}
