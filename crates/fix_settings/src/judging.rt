//! The first reason to refuse a text: line by line, then session by session and key by key.
ghost use Rattle.std.specs.Prelude.{◌≡◌, ◌==◌, ◌≤◌, [], is_some, false, length, option_map, map, bytes_eq};
ghost use Rattle.std.specs.List.{list_all, list_any};
ghost use Rattle.fix_settings.specs.Lines.{Line};
ghost use Rattle.fix_settings.specs.Lent.{line_read, pair_read, pairs_read, lines_read, rule_read, party_read};
ghost use Rattle.fix_settings.specs.Lent.{pair_at as the_pair_at};
ghost use Rattle.fix_settings.specs.Reading.{tls_keys, refused as the_refused, one_line_refusal};
ghost use Rattle.fix_settings.specs.Reading.{asks_tls as the_asks_tls, pair_refusal, line_refusal};
ghost use Rattle.fix_settings.specs.Reading.{is_right as the_is_right, first_some, key_refusal, keys_refusal};
ghost use Rattle.fix_settings.specs.Reading.{text_for as the_text_for, endpoints_from, is_same as the_is_same};
ghost use Rattle.fix_settings.specs.Reading.{same_refusal};

use crate::fault::{SettingsCause, SettingsFault};
use crate::form::value_in;
use crate::key::{KEYS, Key};
use crate::line::{LineRef, PairRef};
use crate::making::pair_at;
use crate::section::is_heading;
use crate::table::{Row, row_of};

/// Who a session is between, as it is written, and the line of its heading.
#[derive(Clone, Copy)]
pub struct EndpointsRef<'a> {
    pub line: u32,
    pub begin: &'a [u8],
    pub sender: &'a [u8],
    pub target: &'a [u8],
}

/// The first line at fault.
pub fn line_fault(lines: &[LineRef<'_>]) -> Option<SettingsFault>
    ensures { result ≡ line_refusal false (lines_read lines.now) }
{
    let mut in_section = false;
    for line in lines {
        if let Some(fault) = one_line_fault(in_section, line) {
            return Some(fault);
        }
        in_section = in_section || is_heading(line);
    }
    None
}

/// The first key at fault of a session whose heading stands in this line.
pub fn keys_fault(line: u32, pairs: &[Option<PairRef<'_>>]) -> Option<SettingsFault>
    requires { length pairs.now ≡ 30 }
    ensures { result ≡ keys_refusal line (the_pair_at (pairs_read pairs.now)) }
{
    first_fault(line, pairs, &KEYS)
}

/// Who the session of these pairs is between.
pub fn endpoints_of<'a>(line: u32, pairs: &[Option<PairRef<'a>>]) -> EndpointsRef<'a>
    requires { length pairs.now ≡ 30 }
    ensures { party_read result ≡ endpoints_from line (the_pair_at (pairs_read pairs.now)) }
{
    EndpointsRef {
        line,
        begin: text_for(pair_at(pairs, Key::BeginString)),
        sender: text_for(pair_at(pairs, Key::SenderCompID)),
        target: text_for(pair_at(pairs, Key::TargetCompID)),
    }
}

/// The first session that is between the same as one before it.
pub fn same_fault(endpoint_list: &[EndpointsRef<'_>]) -> Option<SettingsFault>
    ensures { result ≡ same_refusal [] (map party_read endpoint_list.now) }
{
    for (i, endpoints) in endpoint_list.iter().enumerate() {
        if stands_before(endpoints, &endpoint_list[..i]) {
            return refused(endpoints.line, SettingsCause::SameIdentity);
        }
    }
    None
}

fn refused(line: u32, cause: SettingsCause) -> Option<SettingsFault>
    ensures { result ≡ the_refused line cause }
{
    Some(SettingsFault { line, cause })
}

// A key that is for TLS alone.
fn is_of_tls(key: &[u8]) -> bool
    ensures { result ≡ list_any (bytes_eq key.now) tls_keys }
{
    key == b"SocketPrivateKeyFile".as_slice()
        || (key == b"SocketCertificateFile".as_slice() || key == b"SocketCAFile".as_slice())
}

fn asks_tls(pair: &PairRef<'_>) -> bool
    ensures { result ≡ the_asks_tls (pair_read pair.now) }
{
    is_of_tls(pair.key) || (pair.key == b"SocketUseSSL".as_slice() && pair.value == b"Y".as_slice())
}

fn pair_fault(in_section: bool, pair: &PairRef<'_>) -> Option<SettingsFault>
    ensures { result ≡ pair_refusal in_section (pair_read pair.now) }
{
    if !in_section {
        return refused(pair.line, SettingsCause::NoSection);
    }
    if asks_tls(pair) {
        return refused(pair.line, SettingsCause::TlsAsked);
    }
    None
}

// What is wrong with a line.
fn one_line_fault(in_section: bool, line: &LineRef<'_>) -> Option<SettingsFault>
    ensures { result ≡ one_line_refusal in_section (line_read line.now) }
{
    match line {
        LineRef::Given(pair) => pair_fault(in_section, pair),
        LineRef::Wrong(line) => refused(*line, SettingsCause::NotKeyValue),
        _ => None,
    }
}

// Whether each of the keys has a value.
fn have_values(pairs: &[Option<PairRef<'_>>], keys: &[Key]) -> bool
    requires { length pairs.now ≡ 30 }
    ensures { result ≡ list_all (λ k. is_some (the_pair_at (pairs_read pairs.now) k)) keys.now }
{
    for key in keys {
        if pair_at(pairs, *key).is_none() {
            return false;
        }
    }
    true
}

fn is_right(pairs: &[Option<PairRef<'_>>], row: &Row, pair: &PairRef<'_>) -> bool
    requires { length pairs.now ≡ 30 }
    ensures { result ≡ the_is_right (the_pair_at (pairs_read pairs.now)) (rule_read row.now) (pair_read pair.now) }
{
    value_in(row.form, pair.value).is_some() && have_values(pairs, row.needs_keys)
}

fn key_fault(line: u32, pairs: &[Option<PairRef<'_>>], key: Key) -> Option<SettingsFault>
    requires { length pairs.now ≡ 30 }
    ensures { result
        ≡ key_refusal line (the_pair_at (pairs_read pairs.now)) key (the_pair_at (pairs_read pairs.now) key) }
{
    let row = row_of(key);
    match pair_at(pairs, key) {
        None => {
            if row.required {
                refused(line, SettingsCause::Missing(key))
            } else {
                None
            }
        }
        Some(pair) => {
            if is_right(pairs, &row, &pair) {
                None
            } else {
                refused(pair.line, SettingsCause::BadValue(key))
            }
        }
    }
}

// The first of these keys at fault.
fn first_fault(line: u32, pairs: &[Option<PairRef<'_>>], keys: &[Key]) -> Option<SettingsFault>
    requires { length pairs.now ≡ 30 }
    ensures { result
        ≡ first_some (λ k. key_refusal line (the_pair_at (pairs_read pairs.now)) k
        (the_pair_at (pairs_read pairs.now) k)) keys.now }
{
    for key in keys {
        if let Some(fault) = key_fault(line, pairs, *key) {
            return Some(fault);
        }
    }
    None
}

fn text_for<'a>(pair: Option<PairRef<'a>>) -> &'a [u8]
    ensures { result.now ≡ the_text_for (option_map pair_read pair.entry) }
{
    match pair {
        None => &[],
        Some(pair) => pair.value,
    }
}

fn is_same(endpoints: &EndpointsRef<'_>, other: &EndpointsRef<'_>) -> bool
    ensures { result ≡ the_is_same (party_read endpoints.now) (party_read other.now) }
{
    endpoints.begin == other.begin
        && (endpoints.sender == other.sender && endpoints.target == other.target)
}

fn stands_before(endpoints: &EndpointsRef<'_>, before: &[EndpointsRef<'_>]) -> bool
    ensures { result ≡ list_any (the_is_same (party_read endpoints.now)) (map party_read before.now) }
{
    for other in before {
        if is_same(endpoints, other) {
            return true;
        }
    }
    false
}
