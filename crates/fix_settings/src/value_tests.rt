//! The first and the last value that each key takes, and the first that it doesn't.
use super::*;
use crate::printing::put_setting;
use crate::table::row_of;
use crate::tests::refused;
use std::alloc::Global;
use std::process::Abort;
use std::test::Fail;

// The lines that belong beside one for this key.
fn needs_keys(key: Key) -> &'static str {
    match key {
        Key::StartTime => "EndTime=00:00:00\n",
        Key::EndTime => "StartTime=00:00:00\n",
        Key::StartDay => "EndDay=Sunday\nStartTime=00:00:00\nEndTime=00:00:00\n",
        Key::EndDay => "StartDay=Monday\nStartTime=00:00:00\nEndTime=00:00:00\n",
        _ => "",
    }
}

// A session with the keys that it must have, and with this value in line 5.
fn session_with(alloc: Global, key: Key, value: &str) -> Result<String, Fail> {
    let mut text = String::from_str(
        alloc,
        "[SESSION]\nBeginString=FIX.4.2\nSenderCompID=SELL\nTargetCompID=BUY\n",
    )?;
    let name = str::from_utf8(row_of(key).name).ok().ok_or("name")?;
    text.push_str(name)?;
    text.push_str("=")?;
    text.push_str(value)?;
    text.push_str("\n")?;
    text.push_str(needs_keys(key))?;
    Ok(text)
}

// The value is taken, and printed so.
fn shows(rt: &impl Abort, alloc: Global, key: Key, value: &str, printed: &str) -> Result<(), Fail> {
    let text = session_with(alloc, key, value)?;
    let text = text.as_str();
    assert!(rt; text.len() < 10_000);
    let settings = Settings::read(alloc, text).ok().ok_or("refused")?;
    let sessions = settings.sessions();
    assert!(rt; sessions.len() == 1);
    let mut out = Vec::new(alloc);
    put_setting(&mut out, &sessions[0], key)?;
    let mut line = Vec::from_slice(alloc, row_of(key).name)?;
    line.push(b'=')?;
    line.extend_from_slice(printed.as_bytes())?;
    line.push(b'\n')?;
    assert_eq!(rt; out.as_slice(), line.as_slice());
    Ok(())
}

// Each value is taken, and printed as it is written.
fn takes(rt: &impl Abort, alloc: Global, key: Key, values: &[&str]) -> Result<(), Fail> {
    for value in values {
        shows(rt, alloc, key, value, value)?;
    }
    Ok(())
}

// Each value is refused, at its line.
fn refuses(rt: &impl Abort, alloc: Global, key: Key, values: &[&str]) -> Result<(), Fail> {
    for value in values {
        let text = session_with(alloc, key, value)?;
        refused(rt, alloc, text.as_str(), 5, SettingsCause::BadValue(key));
    }
    Ok(())
}

#[test]
fn begin_string(rt: HostRuntime) -> Result<(), Fail> {
    takes(&rt, rt.alloc(), Key::BeginString, &["FIX.4.2", "FIX.4.4"])?;
    refuses(
        &rt,
        rt.alloc(),
        Key::BeginString,
        &["FIX.4.3", "fix.4.2", "FIX.4.20", ""],
    )?;
    Ok(())
}

#[test]
fn sender_comp_id(rt: HostRuntime) -> Result<(), Fail> {
    takes(
        &rt,
        rt.alloc(),
        Key::SenderCompID,
        &[
            "A",
            "A ~",
            "ABCDEFGHIJKLMNOPQRSTUVWXYZABCDEFGHIJKLMNOPQRSTUVWXYZABCDEFGHIJKL",
        ],
    )?;
    refuses(
        &rt,
        rt.alloc(),
        Key::SenderCompID,
        &[
            "",
            "ABCDEFGHIJKLMNOPQRSTUVWXYZABCDEFGHIJKLMNOPQRSTUVWXYZABCDEFGHIJKLM",
            "A\x1fB",
            "A\x7f",
        ],
    )?;
    Ok(())
}

#[test]
fn target_comp_id(rt: HostRuntime) -> Result<(), Fail> {
    takes(
        &rt,
        rt.alloc(),
        Key::TargetCompID,
        &[
            "B",
            "B ~",
            "ABCDEFGHIJKLMNOPQRSTUVWXYZABCDEFGHIJKLMNOPQRSTUVWXYZABCDEFGHIJKL",
        ],
    )?;
    refuses(
        &rt,
        rt.alloc(),
        Key::TargetCompID,
        &[
            "",
            "ABCDEFGHIJKLMNOPQRSTUVWXYZABCDEFGHIJKLMNOPQRSTUVWXYZABCDEFGHIJKLM",
            "A\x1fB",
            "A\x7f",
        ],
    )?;
    Ok(())
}

#[test]
fn heart_bt_int(rt: HostRuntime) -> Result<(), Fail> {
    takes(&rt, rt.alloc(), Key::HeartBtInt, &["0", "86400"])?;
    shows(&rt, rt.alloc(), Key::HeartBtInt, "0086400", "86400")?;
    refuses(
        &rt,
        rt.alloc(),
        Key::HeartBtInt,
        &["86401", "-1", "+1", "1s", ""],
    )?;
    Ok(())
}

#[test]
fn start_time(rt: HostRuntime) -> Result<(), Fail> {
    takes(&rt, rt.alloc(), Key::StartTime, &["00:00:00", "23:59:59"])?;
    refuses(
        &rt,
        rt.alloc(),
        Key::StartTime,
        &[
            "24:00:00", "23:60:00", "23:59:60", "8:00:00", "08-00:00", "08:00:0x", "",
        ],
    )?;
    Ok(())
}

#[test]
fn end_time(rt: HostRuntime) -> Result<(), Fail> {
    takes(&rt, rt.alloc(), Key::EndTime, &["00:00:00", "23:59:59"])?;
    refuses(
        &rt,
        rt.alloc(),
        Key::EndTime,
        &["24:00:00", "23:60:00", "23:59:60", ""],
    )?;
    Ok(())
}

#[test]
fn start_day(rt: HostRuntime) -> Result<(), Fail> {
    takes(&rt, rt.alloc(), Key::StartDay, &["Monday", "Sunday"])?;
    shows(&rt, rt.alloc(), Key::StartDay, "TUESDAY", "Tuesday")?;
    shows(&rt, rt.alloc(), Key::StartDay, "wed", "Wednesday")?;
    shows(&rt, rt.alloc(), Key::StartDay, "Thu", "Thursday")?;
    refuses(
        &rt,
        rt.alloc(),
        Key::StartDay,
        &["Mo", "Mond", "Monday.", "1", ""],
    )?;
    Ok(())
}

#[test]
fn end_day(rt: HostRuntime) -> Result<(), Fail> {
    takes(&rt, rt.alloc(), Key::EndDay, &["Monday", "Sunday"])?;
    shows(&rt, rt.alloc(), Key::EndDay, "fri", "Friday")?;
    shows(&rt, rt.alloc(), Key::EndDay, "sAt", "Saturday")?;
    refuses(&rt, rt.alloc(), Key::EndDay, &["Su", "8", ""])?;
    Ok(())
}

#[test]
fn time_zone(rt: HostRuntime) -> Result<(), Fail> {
    takes(&rt, rt.alloc(), Key::TimeZone, &["UTC"])?;
    refuses(&rt, rt.alloc(), Key::TimeZone, &["utc", "EST", "UTC0", ""])?;
    Ok(())
}

// A rule is not judged here.
#[test]
fn zone_rule(rt: HostRuntime) -> Result<(), Fail> {
    takes(
        &rt,
        rt.alloc(),
        Key::ZoneRule,
        &["", "EST5EDT,M3.2.0,M11.1.0", "="],
    )?;
    Ok(())
}

#[test]
fn reconnect_interval(rt: HostRuntime) -> Result<(), Fail> {
    takes(&rt, rt.alloc(), Key::ReconnectInterval, &["1", "86400"])?;
    refuses(&rt, rt.alloc(), Key::ReconnectInterval, &["0", "86401", ""])?;
    Ok(())
}

#[test]
fn logon_timeout(rt: HostRuntime) -> Result<(), Fail> {
    takes(&rt, rt.alloc(), Key::LogonTimeout, &["1", "86400"])?;
    refuses(&rt, rt.alloc(), Key::LogonTimeout, &["0", "86401", ""])?;
    Ok(())
}

#[test]
fn logout_timeout(rt: HostRuntime) -> Result<(), Fail> {
    takes(&rt, rt.alloc(), Key::LogoutTimeout, &["1", "86400"])?;
    refuses(&rt, rt.alloc(), Key::LogoutTimeout, &["0", "86401", ""])?;
    Ok(())
}

#[test]
fn reset_on_logon(rt: HostRuntime) -> Result<(), Fail> {
    takes(&rt, rt.alloc(), Key::ResetOnLogon, &["N"])?;
    refuses(&rt, rt.alloc(), Key::ResetOnLogon, &["Y", "n", ""])?;
    Ok(())
}

#[test]
fn reset_on_logout(rt: HostRuntime) -> Result<(), Fail> {
    takes(&rt, rt.alloc(), Key::ResetOnLogout, &["Y", "N"])?;
    refuses(&rt, rt.alloc(), Key::ResetOnLogout, &["y", "YN", ""])?;
    Ok(())
}

#[test]
fn reset_on_disconnect(rt: HostRuntime) -> Result<(), Fail> {
    takes(&rt, rt.alloc(), Key::ResetOnDisconnect, &["Y", "N"])?;
    refuses(&rt, rt.alloc(), Key::ResetOnDisconnect, &["y", "YN", ""])?;
    Ok(())
}

#[test]
fn check_latency(rt: HostRuntime) -> Result<(), Fail> {
    takes(&rt, rt.alloc(), Key::CheckLatency, &["Y", "N"])?;
    refuses(&rt, rt.alloc(), Key::CheckLatency, &["y", "YN", ""])?;
    Ok(())
}

#[test]
fn validate_fields_out_of_order(rt: HostRuntime) -> Result<(), Fail> {
    takes(&rt, rt.alloc(), Key::ValidateFieldsOutOfOrder, &["Y", "N"])?;
    refuses(
        &rt,
        rt.alloc(),
        Key::ValidateFieldsOutOfOrder,
        &["y", "YN", ""],
    )?;
    Ok(())
}

#[test]
fn reject_invalid_message(rt: HostRuntime) -> Result<(), Fail> {
    takes(&rt, rt.alloc(), Key::RejectInvalidMessage, &["Y", "N"])?;
    refuses(&rt, rt.alloc(), Key::RejectInvalidMessage, &["y", "YN", ""])?;
    Ok(())
}

#[test]
fn persist_messages(rt: HostRuntime) -> Result<(), Fail> {
    takes(&rt, rt.alloc(), Key::PersistMessages, &["Y", "N"])?;
    refuses(&rt, rt.alloc(), Key::PersistMessages, &["y", "YN", ""])?;
    Ok(())
}

#[test]
fn resend_request_chunk_size(rt: HostRuntime) -> Result<(), Fail> {
    takes(
        &rt,
        rt.alloc(),
        Key::ResendRequestChunkSize,
        &["0", "999999999"],
    )?;
    refuses(
        &rt,
        rt.alloc(),
        Key::ResendRequestChunkSize,
        &["1000000000", ""],
    )?;
    Ok(())
}

#[test]
fn max_latency(rt: HostRuntime) -> Result<(), Fail> {
    takes(&rt, rt.alloc(), Key::MaxLatency, &["1", "86400"])?;
    refuses(&rt, rt.alloc(), Key::MaxLatency, &["0", "86401", ""])?;
    Ok(())
}

#[test]
fn data_dictionary(rt: HostRuntime) -> Result<(), Fail> {
    takes(&rt, rt.alloc(), Key::DataDictionary, &["a", "a b = c"])?;
    refuses(&rt, rt.alloc(), Key::DataDictionary, &[""])?;
    Ok(())
}

#[test]
fn socket_connect_host(rt: HostRuntime) -> Result<(), Fail> {
    takes(&rt, rt.alloc(), Key::SocketConnectHost, &["a", "a b = c"])?;
    refuses(&rt, rt.alloc(), Key::SocketConnectHost, &[""])?;
    Ok(())
}

#[test]
fn socket_accept_host(rt: HostRuntime) -> Result<(), Fail> {
    takes(&rt, rt.alloc(), Key::SocketAcceptHost, &["a", "a b = c"])?;
    refuses(&rt, rt.alloc(), Key::SocketAcceptHost, &[""])?;
    Ok(())
}

#[test]
fn file_store_path(rt: HostRuntime) -> Result<(), Fail> {
    takes(&rt, rt.alloc(), Key::FileStorePath, &["a", "a b = c"])?;
    refuses(&rt, rt.alloc(), Key::FileStorePath, &[""])?;
    Ok(())
}

#[test]
fn socket_connect_port(rt: HostRuntime) -> Result<(), Fail> {
    takes(&rt, rt.alloc(), Key::SocketConnectPort, &["1", "65535"])?;
    refuses(&rt, rt.alloc(), Key::SocketConnectPort, &["0", "65536", ""])?;
    Ok(())
}

#[test]
fn socket_accept_port(rt: HostRuntime) -> Result<(), Fail> {
    takes(&rt, rt.alloc(), Key::SocketAcceptPort, &["1", "65535"])?;
    refuses(&rt, rt.alloc(), Key::SocketAcceptPort, &["0", "65536", ""])?;
    Ok(())
}

#[test]
fn time_stamp_precision(rt: HostRuntime) -> Result<(), Fail> {
    takes(
        &rt,
        rt.alloc(),
        Key::TimeStampPrecision,
        &["SECONDS", "MILLIS", "MICROS"],
    )?;
    refuses(
        &rt,
        rt.alloc(),
        Key::TimeStampPrecision,
        &["millis", "NANOS", ""],
    )?;
    Ok(())
}

#[test]
fn app_types(rt: HostRuntime) -> Result<(), Fail> {
    takes(
        &rt,
        rt.alloc(),
        Key::AppTypes,
        &["D", "12345678", "D,8,D", "A,5"],
    )?;
    refuses(
        &rt,
        rt.alloc(),
        Key::AppTypes,
        &["", "123456789", "D,", "D,,8", "D, 8", "D,123456789"],
    )?;
    Ok(())
}
