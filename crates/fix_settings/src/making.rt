//! A session's settings from the pairs of its section, in the table's order.
ghost use Rattle.std.specs.Prelude.{◌≡◌, ◌==◌, IfOk, option_map, length, map};
ghost use Rattle.fix_settings.specs.declared.key.Key.{Key as TheKey};
ghost use Rattle.std.specs.List.{slice_split};
ghost use Rattle.fix_settings.specs.Lent.{value_read, pair_read, pairs_read};
ghost use Rattle.fix_settings.specs.Table.{rule_of, setting_of};
ghost use Rattle.fix_settings.specs.Reading.{value_from};
ghost use Rattle.fix_settings.specs.Lent.{pair_at as the_pair_at};
ghost use Rattle.fix_settings.specs.Typed.{version_of, number_of, flag_of, precision_of, text_of, port_if};
ghost use Rattle.fix_settings.specs.Typed.{clock_if, day_if, text_if, types_if, shaped};

use crate::SessionSettings;
use crate::form::{Value, value_in};
use crate::key::Key;
use crate::line::{PairRef, cut_at};
use crate::table::row_of;
use fix_base::{Begin, Bytes, Precision};
use std::alloc::{AllocError, Global};

/// The pair for a key, among those for all keys in the table's order.
pub fn pair_at<'a>(pairs: &[Option<PairRef<'a>>], key: Key) -> Option<PairRef<'a>>
    requires { length pairs.now ≡ 30 }
    ensures { option_map pair_read result ≡ the_pair_at (pairs_read pairs.now) key }
{
    pairs[key.index()]
}

/// The settings that these pairs make, one for each key in the table's order.
pub fn settings_from(
    alloc: Global,
    pairs: &[Option<PairRef<'_>>],
    ignored: Vec<Bytes>,
) -> Result<SessionSettings, AllocError>
    requires { length pairs.now ≡ 30 }
    ensures each { IfOk result
        (λ made. (k : TheKey) → setting_of made k
        ≡ shaped k (value_from (rule_of k) (the_pair_at (pairs_read pairs.now) k))) }
    ensures ignored { IfOk result (λ made. made.ignored.items ≡ ignored.items) }
{
    Ok(SessionSettings {
        begin_string: version(value_of(pairs, Key::BeginString)),
        sender_comp_id: text(alloc, value_of(pairs, Key::SenderCompID))?,
        target_comp_id: text(alloc, value_of(pairs, Key::TargetCompID))?,
        heart_bt_int: number(value_of(pairs, Key::HeartBtInt)),
        start_time: clock(value_of(pairs, Key::StartTime)),
        end_time: clock(value_of(pairs, Key::EndTime)),
        start_day: day(value_of(pairs, Key::StartDay)),
        end_day: day(value_of(pairs, Key::EndDay)),
        time_zone: text(alloc, value_of(pairs, Key::TimeZone))?,
        zone_rule: text_option(alloc, value_of(pairs, Key::ZoneRule))?,
        reconnect_interval: number(value_of(pairs, Key::ReconnectInterval)),
        logon_timeout: number(value_of(pairs, Key::LogonTimeout)),
        logout_timeout: number(value_of(pairs, Key::LogoutTimeout)),
        reset_on_logon: flag(value_of(pairs, Key::ResetOnLogon)),
        reset_on_logout: flag(value_of(pairs, Key::ResetOnLogout)),
        reset_on_disconnect: flag(value_of(pairs, Key::ResetOnDisconnect)),
        resend_request_chunk_size: number(value_of(pairs, Key::ResendRequestChunkSize)),
        check_latency: flag(value_of(pairs, Key::CheckLatency)),
        max_latency: number(value_of(pairs, Key::MaxLatency)),
        data_dictionary: text_option(alloc, value_of(pairs, Key::DataDictionary))?,
        validate_fields_out_of_order: flag(value_of(pairs, Key::ValidateFieldsOutOfOrder)),
        reject_invalid_message: flag(value_of(pairs, Key::RejectInvalidMessage)),
        persist_messages: flag(value_of(pairs, Key::PersistMessages)),
        socket_connect_host: text_option(alloc, value_of(pairs, Key::SocketConnectHost))?,
        socket_connect_port: port(value_of(pairs, Key::SocketConnectPort)),
        socket_accept_host: text(alloc, value_of(pairs, Key::SocketAcceptHost))?,
        socket_accept_port: port(value_of(pairs, Key::SocketAcceptPort)),
        file_store_path: text_option(alloc, value_of(pairs, Key::FileStorePath))?,
        time_stamp_precision: precision(value_of(pairs, Key::TimeStampPrecision)),
        app_types: types_option(alloc, value_of(pairs, Key::AppTypes))?,
        ignored,
    })
}

// What the pair for a key says, else what the table has for a session without one.
fn value_of<'a>(pairs: &[Option<PairRef<'a>>], key: Key) -> Option<Value<'a>>
    requires { length pairs.now ≡ 30 }
    ensures { option_map value_read result ≡ value_from (rule_of key) (the_pair_at (pairs_read pairs.now) key) }
{
    let row = row_of(key);
    match pair_at(pairs, key) {
        None => row.default,
        Some(pair) => value_in(row.form, pair.value),
    }
}

fn version(value: Option<Value<'_>>) -> Begin
    ensures { result ≡ version_of (option_map value_read value.entry) }
{
    match value {
        Some(Value::Version(x)) => x,
        _ => Begin::Fix42,
    }
}

fn number(value: Option<Value<'_>>) -> u32
    ensures { result ≡ number_of (option_map value_read value.entry) }
{
    match value {
        Some(Value::Number(x)) => x,
        _ => 0,
    }
}

fn flag(value: Option<Value<'_>>) -> bool
    ensures { result ≡ flag_of (option_map value_read value.entry) }
{
    match value {
        Some(Value::Flag(x)) => x,
        _ => false,
    }
}

fn precision(value: Option<Value<'_>>) -> Precision
    ensures { result ≡ precision_of (option_map value_read value.entry) }
{
    match value {
        Some(Value::Precision(x)) => x,
        _ => Precision::Millis,
    }
}

fn port(value: Option<Value<'_>>) -> Option<u16>
    ensures { result ≡ port_if (option_map value_read value.entry) }
{
    match value {
        Some(Value::Port(x)) => Some(x),
        _ => None,
    }
}

fn clock(value: Option<Value<'_>>) -> Option<u32>
    ensures { result ≡ clock_if (option_map value_read value.entry) }
{
    match value {
        Some(Value::Clock(x)) => Some(x),
        _ => None,
    }
}

fn day(value: Option<Value<'_>>) -> Option<u8>
    ensures { result ≡ day_if (option_map value_read value.entry) }
{
    match value {
        Some(Value::Day(x)) => Some(x),
        _ => None,
    }
}

fn bytes(alloc: Global, text: &[u8]) -> Result<Bytes, AllocError>
    ensures { IfOk result (λ made. made ≡ text.now) }
{
    Ok(Bytes::from_vec(Vec::from_slice(alloc, text)?))
}

fn text(alloc: Global, value: Option<Value<'_>>) -> Result<Bytes, AllocError>
    ensures { IfOk result (λ made. made ≡ text_of (option_map value_read value.entry)) }
{
    match value {
        Some(Value::Text(x)) => bytes(alloc, x),
        _ => bytes(alloc, &[]),
    }
}

fn text_option(alloc: Global, value: Option<Value<'_>>) -> Result<Option<Bytes>, AllocError>
    ensures { IfOk result (λ made. made ≡ text_if (option_map value_read value.entry)) }
{
    match value {
        Some(Value::Text(x)) => {
            let made = bytes(alloc, x)?;
            Ok(Some(made))
        }
        _ => Ok(None),
    }
}

// The texts between commas.
fn pieces(alloc: Global, text: &[u8]) -> Result<Vec<Bytes>, AllocError>
    ensures { IfOk result (λ made. made.items ≡ slice_split (λ b. b == 44) text.now) }
{
    let mut made = Vec::new(alloc);
    let mut rest = text;
    while let Some((piece, behind)) = cut_at(rest, b',') {
        made.push(bytes(alloc, piece)?)?;
        rest = behind;
    }
    made.push(bytes(alloc, rest)?)?;
    Ok(made)
}

fn types_option(alloc: Global, value: Option<Value<'_>>) -> Result<Option<Vec<Bytes>>, AllocError>
    ensures { IfOk result
        (λ made. option_map (λ types. types.items) made ≡ types_if (option_map value_read value.entry)) }
{
    match value {
        Some(Value::Types(text)) => {
            let made = pieces(alloc, text)?;
            Ok(Some(made))
        }
        _ => Ok(None),
    }
}
