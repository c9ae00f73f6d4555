//! The table of keys: the one place that knows what a key means. A new key is a row here, a field
//! of `SessionSettings` with its line in `setting` and in `settings_from`, and a row of
//! `specs/Table.antt`.
ghost use Rattle.std.specs.Prelude.{◌≡◌, true, false, Some, None, option_map};
ghost use Rattle.fix_settings.specs.Table.{setting_of, required_key as the_needed, optional_key as the_unset};
ghost use Rattle.fix_settings.specs.Table.{key_with_default as the_standing, rule_of};
ghost use Rattle.fix_settings.specs.Forms.{Port, Clock, Day, Text, Types};
ghost use Rattle.fix_settings.specs.Lent.{rule_read, value_read, shown_read};

use crate::SessionSettings;
use crate::form::{Form, Setting, Value};
use crate::key::Key;
use fix_base::{Begin, Bytes, Precision};

/// What the table says of a key.
#[derive(Clone, Copy)]
pub struct Row {
    /// The key as it is written.
    pub name: &'static [u8],
    /// The form of its values.
    pub form: Form,
    /// Whether a session must have a value for it.
    pub required: bool,
    /// The value of a session that has none for it.
    pub default: Option<Value<'static>>,
    /// The keys that must have a value where it has one.
    pub needs_keys: &'static [Key],
}

/// What a session has for a key.
pub type SettingRef<'a> = Setting<'a, &'a [Bytes]>;

/// The row of a key.
pub fn row_of(key: Key) -> Row
    ensures { rule_read result ≡ rule_of key }
{
    match key {
        Key::BeginString => required_key(b"BeginString", Form::Version),
        Key::SenderCompID => required_key(b"SenderCompID", Form::CompId),
        Key::TargetCompID => required_key(b"TargetCompID", Form::CompId),
        Key::HeartBtInt => key_with_default(
            b"HeartBtInt",
            Form::Number {
                low: 0,
                high: 86400,
            },
            Value::Number(30),
        ),
        Key::StartTime => optional_key(b"StartTime", Form::Clock, &[Key::EndTime]),
        Key::EndTime => optional_key(b"EndTime", Form::Clock, &[Key::StartTime]),
        Key::StartDay => optional_key(b"StartDay", Form::Day, &[Key::EndDay, Key::StartTime]),
        Key::EndDay => optional_key(b"EndDay", Form::Day, &[Key::StartDay, Key::StartTime]),
        Key::TimeZone => key_with_default(b"TimeZone", Form::Utc, Value::Text(b"UTC")),
        Key::ZoneRule => optional_key(b"ZoneRule", Form::Rule, &[]),
        Key::ReconnectInterval => key_with_default(
            b"ReconnectInterval",
            Form::Number {
                low: 1,
                high: 86400,
            },
            Value::Number(30),
        ),
        Key::LogonTimeout => key_with_default(
            b"LogonTimeout",
            Form::Number {
                low: 1,
                high: 86400,
            },
            Value::Number(10),
        ),
        Key::LogoutTimeout => key_with_default(
            b"LogoutTimeout",
            Form::Number {
                low: 1,
                high: 86400,
            },
            Value::Number(2),
        ),
        Key::ResetOnLogon => key_with_default(b"ResetOnLogon", Form::OnlyN, Value::Flag(false)),
        Key::ResetOnLogout => key_with_default(b"ResetOnLogout", Form::Flag, Value::Flag(false)),
        Key::ResetOnDisconnect => key_with_default(
            b"ResetOnDisconnect",
            Form::Flag,
            Value::Flag(false),
        ),
        Key::ResendRequestChunkSize => key_with_default(
            b"ResendRequestChunkSize",
            Form::Number {
                low: 0,
                high: 999999999,
            },
            Value::Number(0),
        ),
        Key::CheckLatency => key_with_default(b"CheckLatency", Form::Flag, Value::Flag(true)),
        Key::MaxLatency => key_with_default(
            b"MaxLatency",
            Form::Number {
                low: 1,
                high: 86400,
            },
            Value::Number(120),
        ),
        Key::DataDictionary => optional_key(b"DataDictionary", Form::Text, &[]),
        Key::ValidateFieldsOutOfOrder => key_with_default(
            b"ValidateFieldsOutOfOrder",
            Form::Flag,
            Value::Flag(true),
        ),
        Key::RejectInvalidMessage => key_with_default(
            b"RejectInvalidMessage",
            Form::Flag,
            Value::Flag(true),
        ),
        Key::PersistMessages => key_with_default(b"PersistMessages", Form::Flag, Value::Flag(true)),
        Key::SocketConnectHost => optional_key(b"SocketConnectHost", Form::Text, &[]),
        Key::SocketConnectPort => optional_key(b"SocketConnectPort", Form::Port, &[]),
        Key::SocketAcceptHost => key_with_default(
            b"SocketAcceptHost",
            Form::Text,
            Value::Text(b"127.0.0.1"),
        ),
        Key::SocketAcceptPort => optional_key(b"SocketAcceptPort", Form::Port, &[]),
        Key::FileStorePath => optional_key(b"FileStorePath", Form::Text, &[]),
        Key::TimeStampPrecision => key_with_default(
            b"TimeStampPrecision",
            Form::Precision,
            Value::Precision(Precision::Millis),
        ),
        Key::AppTypes => optional_key(b"AppTypes", Form::Types, &[]),
    }
}

/// What a session has for a key, or None.
pub fn setting(settings: &SessionSettings, key: Key) -> Option<SettingRef<'_>>
    ensures { option_map shown_read result ≡ setting_of settings.now key }
{
    match key {
        Key::BeginString => Some(SettingRef::Version(settings.begin_string)),
        Key::SenderCompID => text(&settings.sender_comp_id),
        Key::TargetCompID => text(&settings.target_comp_id),
        Key::HeartBtInt => Some(SettingRef::Number(settings.heart_bt_int)),
        Key::StartTime => clock(settings.start_time),
        Key::EndTime => clock(settings.end_time),
        Key::StartDay => day(settings.start_day),
        Key::EndDay => day(settings.end_day),
        Key::TimeZone => text(&settings.time_zone),
        Key::ZoneRule => text_option(&settings.zone_rule),
        Key::ReconnectInterval => Some(SettingRef::Number(settings.reconnect_interval)),
        Key::LogonTimeout => Some(SettingRef::Number(settings.logon_timeout)),
        Key::LogoutTimeout => Some(SettingRef::Number(settings.logout_timeout)),
        Key::ResetOnLogon => Some(SettingRef::Flag(settings.reset_on_logon)),
        Key::ResetOnLogout => Some(SettingRef::Flag(settings.reset_on_logout)),
        Key::ResetOnDisconnect => Some(SettingRef::Flag(settings.reset_on_disconnect)),
        Key::ResendRequestChunkSize => Some(SettingRef::Number(settings.resend_request_chunk_size)),
        Key::CheckLatency => Some(SettingRef::Flag(settings.check_latency)),
        Key::MaxLatency => Some(SettingRef::Number(settings.max_latency)),
        Key::DataDictionary => text_option(&settings.data_dictionary),
        Key::ValidateFieldsOutOfOrder => Some(SettingRef::Flag(
            settings.validate_fields_out_of_order,
        )),
        Key::RejectInvalidMessage => Some(SettingRef::Flag(settings.reject_invalid_message)),
        Key::PersistMessages => Some(SettingRef::Flag(settings.persist_messages)),
        Key::SocketConnectHost => text_option(&settings.socket_connect_host),
        Key::SocketConnectPort => port(settings.socket_connect_port),
        Key::SocketAcceptHost => text(&settings.socket_accept_host),
        Key::SocketAcceptPort => port(settings.socket_accept_port),
        Key::FileStorePath => text_option(&settings.file_store_path),
        Key::TimeStampPrecision => Some(SettingRef::Precision(settings.time_stamp_precision)),
        Key::AppTypes => types_option(&settings.app_types),
    }
}

// A key that must have a value.
fn required_key(name: &'static [u8], form: Form) -> Row
    ensures { rule_read result ≡ the_needed name.now form }
{
    Row {
        name,
        form,
        required: true,
        default: None,
        needs_keys: &[],
    }
}

// A key that may have no value, and one only where these have one.
fn optional_key(name: &'static [u8], form: Form, needs_keys: &'static [Key]) -> Row
    ensures { rule_read result ≡ the_unset name.now form needs_keys.now }
{
    Row {
        name,
        form,
        required: false,
        default: None,
        needs_keys,
    }
}

// A key that always has a value.
fn key_with_default(name: &'static [u8], form: Form, value: Value<'static>) -> Row
    ensures { rule_read result ≡ the_standing name.now form (value_read value.entry) }
{
    Row {
        name,
        form,
        required: false,
        default: Some(value),
        needs_keys: &[],
    }
}

fn port(value: Option<u16>) -> Option<SettingRef<'static>>
    ensures { option_map shown_read result ≡ option_map Port value }
{
    match value {
        None => None,
        Some(port) => Some(SettingRef::Port(port)),
    }
}

fn clock(value: Option<u32>) -> Option<SettingRef<'static>>
    ensures { option_map shown_read result ≡ option_map Clock value }
{
    match value {
        None => None,
        Some(seconds) => Some(SettingRef::Clock(seconds)),
    }
}

fn day(value: Option<u8>) -> Option<SettingRef<'static>>
    ensures { option_map shown_read result ≡ option_map Day value }
{
    match value {
        None => None,
        Some(day) => Some(SettingRef::Day(day)),
    }
}

fn text(value: &Bytes) -> Option<SettingRef<'_>>
    ensures { option_map shown_read result ≡ Some (Text value.now) }
{
    Some(SettingRef::Text(value.as_slice()))
}

fn text_option(value: &Option<Bytes>) -> Option<SettingRef<'_>>
    ensures { option_map shown_read result ≡ option_map Text value.now }
{
    match value {
        None => None,
        Some(text) => Some(SettingRef::Text(text.as_slice())),
    }
}

fn types_option(value: &Option<Vec<Bytes>>) -> Option<SettingRef<'_>>
    ensures { option_map shown_read result ≡ option_map (λ types. Types types.items) value.now }
{
    match value {
        None => None,
        Some(types) => Some(SettingRef::Types(types.as_slice())),
    }
}
