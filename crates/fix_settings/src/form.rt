//! The forms of values, and what a text of each says.
ghost use Rattle.std.specs.Prelude.{◌≡◌, ◌+◌, ◌≤◌, ◌<◌, ◌==◌, ◌&&◌, not, nat_le, length, option_map, if◌then◌else◌};
ghost use Rattle.std.specs.Prelude.{Some, None};
ghost use Rattle.std.specs.List.{list_all, slice_split};
ghost use Rattle.fix_base.specs.Says.{number_in as the_number};
ghost use Rattle.fix_settings.specs.Forms.{version_in as the_version, is_two_at, two_at as the_two};
ghost use Rattle.fix_settings.specs.Forms.{clock_in as the_clock, day_name as the_day_name, is_day as the_is_day};
ghost use Rattle.fix_settings.specs.Forms.{day_in as the_day, flag_in as the_flag, precision_in as the_precision};
ghost use Rattle.fix_settings.specs.Forms.{is_type as the_is_type, text_if as the_text_if, value_in as the_value};
ghost use Rattle.fix_settings.specs.Lines.{is_blank as the_blank};
ghost use Rattle.fix_settings.specs.Lent.{value_read};

use crate::line::{cut_at, is_blank};
use fix_base::{Begin, Precision, is_comp_id};

/// A form of values.
#[derive(Clone, Copy, Debug, PartialEq, Eq)]
pub enum Form {
    /// BeginString (8).
    Version,
    /// A CompID.
    CompId,
    /// Digits, of a number between two bounds.
    Number { low: u32, high: u32 },
    /// Digits, of a port.
    Port,
    /// HH:MM:SS.
    Clock,
    /// A day of the week.
    Day,
    /// `UTC`.
    Utc,
    /// Any text, also an empty one.
    Rule,
    /// `Y` or `N`.
    Flag,
    /// `N`.
    OnlyN,
    /// Any text but an empty one.
    Text,
    /// `SECONDS`, `MILLIS` or `MICROS`.
    Precision,
    /// Types joined by commas.
    Types,
}

/// A value without a copy, with its types held as `L`.
#[derive(Clone, Copy)]
pub enum Setting<'a, L> {
    Version(Begin),
    Number(u32),
    Port(u16),
    Clock(u32),
    Day(u8),
    Flag(bool),
    Precision(Precision),
    Text(&'a [u8]),
    Types(L),
}

/// What a text says; its types are joined by commas.
pub type Value<'a> = Setting<'a, &'a [u8]>;

const WEEK: [u8; 7] = [1, 2, 3, 4, 5, 6, 7];

/// The name of a day of the week, from 1 for Monday to 7 for Sunday.
pub fn day_name(day: u8) -> &'static [u8]
    ensures name { result.now ≡ the_day_name day }
    ensures long { 3 ≤ length result.now }
{
    match day {
        1 => b"Monday",
        2 => b"Tuesday",
        3 => b"Wednesday",
        4 => b"Thursday",
        5 => b"Friday",
        6 => b"Saturday",
        _ => b"Sunday",
    }
}

/// What a text of this form says, or None where it is none.
pub fn value_in(form: Form, text: &[u8]) -> Option<Value<'_>>
    ensures { option_map value_read result ≡ the_value form text.now }
{
    match form {
        Form::Version => Some(Value::Version(version_in(text)?)),
        Form::CompId => text_if(is_comp_id(text), text),
        Form::Number { low, high } => Some(Value::Number(number_in(text, low, high)?)),
        Form::Port => Some(Value::Port(port_in(text)?)),
        Form::Clock => Some(Value::Clock(clock_in(text)?)),
        Form::Day => Some(Value::Day(day_in(text)?)),
        Form::Utc => text_if(text == b"UTC".as_slice(), text),
        Form::Rule => Some(Value::Text(text)),
        Form::Flag => Some(Value::Flag(flag_in(text)?)),
        Form::OnlyN => {
            if text == b"N".as_slice() {
                Some(Value::Flag(false))
            } else {
                None
            }
        }
        Form::Text => text_if(!text.is_empty(), text),
        Form::Precision => Some(Value::Precision(precision_in(text)?)),
        Form::Types => {
            if are_types(text) {
                Some(Value::Types(text))
            } else {
                None
            }
        }
    }
}

// BeginString (8).
fn version_in(text: &[u8]) -> Option<Begin>
    ensures { result ≡ the_version text.now }
{
    if text == b"FIX.4.2".as_slice() {
        return Some(Begin::Fix42);
    }
    if text == b"FIX.4.4".as_slice() {
        return Some(Begin::Fix44);
    }
    None
}

// The number of digits, where it lies from `low` to `high`.
fn number_in(text: &[u8], low: u32, high: u32) -> Option<u32>
    ensures { result ≡ the_number low high text.now }
{
    if text.is_empty() {
        return None;
    }
    let mut number: u64 = 0;
    for digit in text {
        if !digit.is_ascii_digit() {
            return None;
        }
        number = number * 10 + u64::from(*digit - b'0');
        if number > u64::from(high) {
            return None;
        }
    }
    if number < u64::from(low) {
        return None;
    }
    Some(number as u32)
}

fn port_in(text: &[u8]) -> Option<u16>
    ensures { result ≡ the_number 1 65535 text.now }
{
    let port = number_in(text, 1, 65535)?;
    Some(port as u16)
}

// The number of two digits at a place, up to a greatest one.
fn two_at(text: &[u8], at: usize, last: u32) -> Option<u32>
    requires { at + 1 < length text.now }
    ensures { result ≡ (if is_two_at last at text.now then Some (the_two at text.now) else None) }
{
    let tens = text[at];
    let ones = text[at + 1];
    if !tens.is_ascii_digit() || !ones.is_ascii_digit() {
        return None;
    }
    let number = u32::from(tens - b'0') * 10 + u32::from(ones - b'0');
    if number > last {
        return None;
    }
    Some(number)
}

// HH:MM:SS, as the seconds after midnight.
fn clock_in(text: &[u8]) -> Option<u32>
    ensures { result ≡ the_clock text.now }
{
    if text.len() != 8 || (text[2] != b':' || text[5] != b':') {
        return None;
    }
    let hours = two_at(text, 0, 23)?;
    let minutes = two_at(text, 3, 59)?;
    let seconds = two_at(text, 6, 59)?;
    Some(hours * 3600 + minutes * 60 + seconds)
}

// Whether the text is the day's name, whole or its first three letters, in any case.
fn is_day(text: &[u8], day: u8) -> bool
    ensures { result ≡ the_is_day text.now day }
{
    let name = day_name(day);
    text.eq_ignore_ascii_case(name) || text.eq_ignore_ascii_case(&name[..3])
}

fn day_in(text: &[u8]) -> Option<u8>
    ensures { result ≡ the_day text.now }
{
    WEEK.iter().copied().find(|day| is_day(text, *day))
}

fn flag_in(text: &[u8]) -> Option<bool>
    ensures { result ≡ the_flag text.now }
{
    if text == b"Y".as_slice() {
        return Some(true);
    }
    if text == b"N".as_slice() {
        return Some(false);
    }
    None
}

fn precision_in(text: &[u8]) -> Option<Precision>
    ensures { result ≡ the_precision text.now }
{
    if text == b"SECONDS".as_slice() {
        return Some(Precision::Seconds);
    }
    if text == b"MILLIS".as_slice() {
        return Some(Precision::Millis);
    }
    if text == b"MICROS".as_slice() {
        return Some(Precision::Micros);
    }
    None
}

fn has_no_blank(text: &[u8]) -> bool
    ensures { result ≡ list_all (λ b. not (the_blank b)) text.now }
{
    for b in text {
        if is_blank(*b) {
            return false;
        }
    }
    true
}

// A type in a list of types: 1 to 8 bytes, none of them a blank.
fn is_type(text: &[u8]) -> bool
    ensures { result ≡ the_is_type text.now }
{
    !text.is_empty() && (text.len() <= 8 && has_no_blank(text))
}

// Whether each text between commas is a type.
fn are_types(text: &[u8]) -> bool
    ensures { result ≡ list_all the_is_type (slice_split (λ b. b == 44) text.now) }
{
    let mut rest = text;
    while let Some((piece, behind)) = cut_at(rest, b',') {
        if !is_type(piece) {
            return false;
        }
        rest = behind;
    }
    is_type(rest)
}

// The text, where it passes.
fn text_if<'a>(passes: bool, text: &'a [u8]) -> Option<Value<'a>>
    ensures { option_map value_read result ≡ the_text_if passes text.now }
{
    if passes {
        Some(Value::Text(text))
    } else {
        None
    }
}
