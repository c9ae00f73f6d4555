//! Prints sessions as a settings text.
ghost use Rattle.std.specs.Prelude.{◌≡◌, ◌++◌, ◌<◌, ◌∷◌, [], codes, decimal, flat_map, OnOk, Some, option_map};
ghost use Rattle.std.specs.List.{join_by};
ghost use Rattle.fix_settings.specs.Forms.{two_text, clock_text, flag_text, precision_text, value_text};
ghost use Rattle.fix_settings.specs.Lent.{shown_read};
ghost use Rattle.fix_settings.specs.Table.{setting_of};
ghost use Rattle.fix_settings.specs.Printing.{setting_line, ignored_line, session_text, settings_text};

use crate::SessionSettings;
use crate::form::day_name;
use crate::key::{KEYS, Key};
use crate::table::{SettingRef, row_of, setting};
use fix_base::{Bytes, Precision};
use itoa::Buffer;
use std::alloc::AllocError;

/// A line for a key that has a value.
pub fn put_setting(
    out: &mut Vec<u8>,
    settings: &SessionSettings,
    key: Key,
) -> Result<(), AllocError>
    ensures { OnOk result (out.new.items ≡ out.old.items ++ setting_line key (setting_of settings.now key)) }
{
    let Some(value) = setting(settings, key) else {
        return Ok(());
    };
    out.extend_from_slice(row_of(key).name)?;
    out.push(b'=')?;
    put_value(out, value)?;
    out.push(b'\n')?;
    Ok(())
}

/// Adds the text of the sessions.
pub fn put_sessions(out: &mut Vec<u8>, sessions: &[SessionSettings]) -> Result<(), AllocError>
    ensures { OnOk result (out.new.items ≡ out.old.items ++ settings_text sessions.now) }
{
    for settings in sessions {
        put_session(out, settings)?;
    }
    Ok(())
}

fn put_number(out: &mut Vec<u8>, number: u32) -> Result<(), AllocError>
    ensures { OnOk result (out.new.items ≡ out.old.items ++ decimal number) }
{
    let mut buffer = Buffer::new();
    out.extend_from_slice(buffer.format(number).as_bytes())?;
    Ok(())
}

// The last two digits of a number.
fn put_two(out: &mut Vec<u8>, number: u32) -> Result<(), AllocError>
    ensures { OnOk result (out.new.items ≡ out.old.items ++ two_text number) }
{
    out.push(b'0' + (number / 10 % 10) as u8)?;
    out.push(b'0' + (number % 10) as u8)?;
    Ok(())
}

// Seconds after midnight as HH:MM:SS.
fn put_clock(out: &mut Vec<u8>, seconds: u32) -> Result<(), AllocError>
    ensures { OnOk result (out.new.items ≡ out.old.items ++ clock_text seconds) }
{
    put_two(out, seconds / 3600)?;
    out.push(b':')?;
    put_two(out, seconds / 60 % 60)?;
    out.push(b':')?;
    put_two(out, seconds % 60)?;
    Ok(())
}

fn flag_of(on: bool) -> &'static [u8]
    ensures { result.now ≡ flag_text on }
{
    if on { b"Y" } else { b"N" }
}

fn precision_of(precision: Precision) -> &'static [u8]
    ensures { result.now ≡ precision_text precision }
{
    match precision {
        Precision::Seconds => b"SECONDS",
        Precision::Millis => b"MILLIS",
        Precision::Micros => b"MICROS",
    }
}

// Types, joined by commas.
fn put_types(out: &mut Vec<u8>, types: &[Bytes]) -> Result<(), AllocError>
    ensures { OnOk result (out.new.items ≡ out.old.items ++ join_by (λ t. t) (44 ∷ []) types.now) }
{
    let [first, rest @ ..] = types else {
        return Ok(());
    };
    out.extend_from_slice(first.as_slice())?;
    put_more_types(out, rest)
}

// Each after a comma.
fn put_more_types(out: &mut Vec<u8>, types: &[Bytes]) -> Result<(), AllocError>
    ensures { OnOk result (out.new.items ≡ out.old.items ++ flat_map (λ t. 44 ∷ [] ++ t) types.now) }
{
    for kind in types {
        out.push(b',')?;
        out.extend_from_slice(kind.as_slice())?;
    }
    Ok(())
}

fn put_value(out: &mut Vec<u8>, value: SettingRef<'_>) -> Result<(), AllocError>
    ensures { OnOk result (out.new.items ≡ out.old.items ++ value_text (shown_read value.entry)) }
{
    match value {
        SettingRef::Version(begin) => out.extend_from_slice(begin.text()),
        SettingRef::Number(number) => put_number(out, number),
        SettingRef::Port(port) => put_number(out, u32::from(port)),
        SettingRef::Clock(seconds) => put_clock(out, seconds),
        SettingRef::Day(day) => out.extend_from_slice(day_name(day)),
        SettingRef::Flag(on) => out.extend_from_slice(flag_of(on)),
        SettingRef::Precision(precision) => out.extend_from_slice(precision_of(precision)),
        SettingRef::Text(text) => out.extend_from_slice(text),
        SettingRef::Types(types) => put_types(out, types),
    }
}

fn put_settings(
    out: &mut Vec<u8>,
    settings: &SessionSettings,
    keys: &[Key],
) -> Result<(), AllocError>
    ensures { OnOk result (out.new.items ≡ out.old.items
        ++ flat_map (λ k. setting_line k (setting_of settings.now k)) keys.now) }
{
    for key in keys {
        put_setting(out, settings, *key)?;
    }
    Ok(())
}

// A line for each ignored key.
fn put_ignored(out: &mut Vec<u8>, names: &[Bytes]) -> Result<(), AllocError>
    ensures { OnOk result (out.new.items ≡ out.old.items ++ flat_map ignored_line names.now) }
{
    for name in names {
        out.extend_from_slice(b"# ignored ")?;
        out.extend_from_slice(name.as_slice())?;
        out.push(b'\n')?;
    }
    Ok(())
}

fn put_session(out: &mut Vec<u8>, settings: &SessionSettings) -> Result<(), AllocError>
    ensures { OnOk result (out.new.items ≡ out.old.items ++ session_text settings.now) }
{
    out.extend_from_slice(b"[SESSION]\n")?;
    put_settings(out, settings, &KEYS)?;
    put_ignored(out, &settings.ignored)
}
