//! Reads the value of one tag, or finds its fault. `admin` calls these for the tags of each message type.
ghost use Rattle.std.specs.Prelude.{◌≡◌, ◌≤◌, List, Some, IfOk, IsTrue, option_map};
ghost use Rattle.fix_base.specs.Fields.{Field};
ghost use Rattle.fix_base.specs.Shape.{IsFrame};
ghost use Rattle.fix_base.specs.Says.{HasFields};
ghost use Rattle.fix_admin.specs.Values as values;
ghost use Rattle.fix_admin.specs.Values.{fault_of, within};
ghost use Rattle.fix_admin.specs.Lent.{text_seen, option_seen};

use crate::tags::{NO_VALUE, OUT_OF_RANGE, REQUIRED_TAG_MISSING, WRONG_FORMAT};
use fix_base::{Fault, Tag};
use fix_fields::{first_value, int};

// SessionRejectReason (373) and RefTagID (371).
pub fn fault(reason: u16, tag: u32) -> Fault
    requires first { 1 ≤ tag }
    requires last { tag ≤ 999999999 }
    ensures { result ≡ fault_of reason tag }
{
    Fault {
        reason,
        tag: Tag::new(tag),
    }
}

// A value that has to be there.
pub fn need(tag: u32, value: Option<&[u8]>) -> Result<&[u8], Fault>
    requires first { 1 ≤ tag }
    requires last { tag ≤ 999999999 }
    ensures { text_seen result ≡ values.need tag (option_map (λ v. v.now) value.entry) }
{
    let Some(value) = value else {
        return Err(fault(REQUIRED_TAG_MISSING, tag));
    };
    if value.is_empty() {
        return Err(fault(NO_VALUE, tag));
    }
    Ok(value)
}

// A value that may be absent.
pub fn allow(tag: u32, value: Option<&[u8]>) -> Result<Option<&[u8]>, Fault>
    requires first { 1 ≤ tag }
    requires last { tag ≤ 999999999 }
    ensures { option_seen result ≡ values.allow tag (option_map (λ v. v.now) value.entry) }
{
    let Some(value) = value else {
        return Ok(None);
    };
    if value.is_empty() {
        return Err(fault(NO_VALUE, tag));
    }
    Ok(Some(value))
}

// A number that has to be there, from `low` to `high`.
pub fn number_at(frame: &[u8], tag: u32, low: u32, high: u32) -> Result<u32, Fault>
    requires frame { IsFrame frame.now }
    requires first { 1 ≤ tag }
    requires last { tag ≤ 999999999 }
    ensures is { (fs : List Field) → HasFields frame.now fs → result ≡ values.number_at tag low high fs }
    ensures low { IfOk result (λ n. low ≤ n) }
{
    let value = need(tag, first_value(frame, tag))?;
    bounded(tag, low, high, int(value))
}

// A flag that may be absent.
pub fn flag_at(frame: &[u8], tag: u32) -> Result<bool, Fault>
    requires frame { IsFrame frame.now }
    requires first { 1 ≤ tag }
    requires last { tag ≤ 999999999 }
    ensures { (fs : List Field) → HasFields frame.now fs → result ≡ values.flag_at tag fs }
{
    match allow(tag, first_value(frame, tag))? {
        None => Ok(false),
        Some(value) => yes_or_no(tag, value),
    }
}

// DefaultApplVerID (1137) of a version that is known: 4 and 6 to 9.
pub fn version_in(value: Option<&[u8]>) -> Option<u8>
    ensures { result ≡ values.version_in (option_map (λ v. v.now) value.entry) }
{
    match value {
        None => None,
        Some(value) => version_of(value),
    }
}

// The number, where it lies from `low` to `high`.
fn bounded(tag: u32, low: u32, high: u32, number: Option<i64>) -> Result<u32, Fault>
    requires first { 1 ≤ tag }
    requires last { tag ≤ 999999999 }
    ensures is { result ≡ within tag low high number }
    ensures low { IfOk result (λ n. low ≤ n) }
{
    let Some(number) = number else {
        return Err(fault(WRONG_FORMAT, tag));
    };
    if number < i64::from(low) {
        return Err(fault(OUT_OF_RANGE, tag));
    }
    if number > i64::from(high) {
        return Err(fault(OUT_OF_RANGE, tag));
    }
    Ok(number as u32)
}

// A `Boolean`.
fn yes_or_no(tag: u32, value: &[u8]) -> Result<bool, Fault>
    requires first { 1 ≤ tag }
    requires last { tag ≤ 999999999 }
    ensures { result ≡ values.yes_or_no tag value.now }
{
    if value == b"Y".as_slice() {
        return Ok(true);
    }
    if value == b"N".as_slice() {
        return Ok(false);
    }
    Err(fault(WRONG_FORMAT, tag))
}

// One of the known digits, alone.
fn version_of(value: &[u8]) -> Option<u8>
    ensures { result ≡ values.version_in (Some value.now) }
{
    let [digit] = value else {
        return None;
    };
    if is_known(*digit) {
        Some(*digit - b'0')
    } else {
        None
    }
}

fn is_known(digit: u8) -> bool
    ensures version { result ≡ values.is_known digit }
    ensures digit { IsTrue result → 48 ≤ digit }
{
    match digit {
        b'4' => true,
        b'6' => true,
        b'7' => true,
        b'8' => true,
        b'9' => true,
        _ => false,
    }
}
