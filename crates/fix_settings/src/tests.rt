//! That texts are read and printed, or refused with their line and key.
use super::*;
use fix_base::{Begin, Precision};
use std::alloc::Global;
use std::process::Abort;
use std::test::Fail;

// The example of the handbook: defaults, and two sessions.
const EXAMPLE: &str =
    "[DEFAULT]\nSocketAcceptPort=5001\nFileLogPath=log\nReconnectInterval=60\nSenderCompID=SELL\nStartTime=00:00:00\nEndTime=00:00:00\n\n[SESSION]\nBeginString=FIX.4.2\nTargetCompID=BUY\n\n[SESSION]\nBeginString=FIX.4.4\nTargetCompID=FUND\nHeartBtInt=20\n";

const PRINTED: &str =
    "[SESSION]\nBeginString=FIX.4.2\nSenderCompID=SELL\nTargetCompID=BUY\nHeartBtInt=30\nStartTime=00:00:00\nEndTime=00:00:00\nTimeZone=UTC\nReconnectInterval=60\nLogonTimeout=10\nLogoutTimeout=2\nResetOnLogon=N\nResetOnLogout=N\nResetOnDisconnect=N\nResendRequestChunkSize=0\nCheckLatency=Y\nMaxLatency=120\nValidateFieldsOutOfOrder=Y\nRejectInvalidMessage=Y\nPersistMessages=Y\nSocketAcceptHost=127.0.0.1\nSocketAcceptPort=5001\nTimeStampPrecision=MILLIS\n# ignored FileLogPath\n[SESSION]\nBeginString=FIX.4.4\nSenderCompID=SELL\nTargetCompID=FUND\nHeartBtInt=20\nStartTime=00:00:00\nEndTime=00:00:00\nTimeZone=UTC\nReconnectInterval=60\nLogonTimeout=10\nLogoutTimeout=2\nResetOnLogon=N\nResetOnLogout=N\nResetOnDisconnect=N\nResendRequestChunkSize=0\nCheckLatency=Y\nMaxLatency=120\nValidateFieldsOutOfOrder=Y\nRejectInvalidMessage=Y\nPersistMessages=Y\nSocketAcceptHost=127.0.0.1\nSocketAcceptPort=5001\nTimeStampPrecision=MILLIS\n# ignored FileLogPath\n";

// A session with the keys that it must have, and these lines.
fn with_lines(alloc: Global, lines: &str) -> Result<String, Fail> {
    let mut text = String::from_str(
        alloc,
        "[SESSION]\nBeginString=FIX.4.2\nSenderCompID=SELL\nTargetCompID=BUY\n",
    )?;
    text.push_str(lines)?;
    Ok(text)
}

#[test]
fn the_example_prints_as_shown(rt: HostRuntime) -> Result<(), Fail> {
    assert!(rt; EXAMPLE.len() < 10_000);
    let settings = Settings::read(rt.alloc(), EXAMPLE).ok().ok_or("refused")?;
    let printed = settings.print(rt.alloc()).ok().ok_or("memory")?;
    assert_eq!(rt; printed.as_slice(), PRINTED.as_bytes());
    Ok(())
}

#[test]
fn what_is_printed_reads_the_same(rt: HostRuntime) -> Result<(), Fail> {
    assert!(rt; PRINTED.len() < 10_000);
    let settings = Settings::read(rt.alloc(), PRINTED).ok().ok_or("refused")?;
    let sessions = settings.sessions();
    assert!(rt; sessions.len() == 2);
    assert_eq!(rt; sessions[0].ignored.len(), 0);
    Ok(())
}

// A text, and the line and the cause of its refusal.
pub fn refused(rt: &impl Abort, alloc: Global, text: &str, line: u32, cause: SettingsCause) {
    assert!(rt; text.len() < 10_000);
    match Settings::read(alloc, text) {
        Ok(_) => assert!(rt; false),
        Err(fault) => {
            assert_eq!(rt; fault.line, line);
            assert!(rt; fault.cause == cause);
        }
    }
}

#[test]
fn texts_are_refused_at_their_line(rt: HostRuntime) {
    refused(&rt, rt.alloc(), "", 0, SettingsCause::NoSection);
    refused(
        &rt,
        rt.alloc(),
        "[DEFAULT]\nHeartBtInt=30\n",
        0,
        SettingsCause::NoSection,
    );
    refused(
        &rt,
        rt.alloc(),
        "\nA=1\n[SESSION]\n",
        2,
        SettingsCause::NoSection,
    );
    refused(
        &rt,
        rt.alloc(),
        "[SESSION]\nno value\n",
        2,
        SettingsCause::NotKeyValue,
    );
    refused(&rt, rt.alloc(), "[FOO]\n", 1, SettingsCause::NotKeyValue);
    refused(
        &rt,
        rt.alloc(),
        "[SESSION]\n = x\n",
        2,
        SettingsCause::NotKeyValue,
    );
    refused(
        &rt,
        rt.alloc(),
        "[DEFAULT]\nSocketUseSSL=Y\n",
        2,
        SettingsCause::TlsAsked,
    );
    refused(
        &rt,
        rt.alloc(),
        "[DEFAULT]\nSocketCAFile=\n",
        2,
        SettingsCause::TlsAsked,
    );
}

#[test]
fn sessions_are_refused_at_their_key(rt: HostRuntime) {
    refused(
        &rt,
        rt.alloc(),
        "[SESSION]\nSenderCompID=A\nTargetCompID=B\n",
        1,
        SettingsCause::Missing(Key::BeginString),
    );
    refused(
        &rt,
        rt.alloc(),
        "[SESSION]\nBeginString=FIX.4.3\nSenderCompID=A\nTargetCompID=B\n",
        2,
        SettingsCause::BadValue(Key::BeginString),
    );
    refused(
        &rt,
        rt.alloc(),
        "[SESSION]\nBeginString=FIX.4.2\nSenderCompID=A\nTargetCompID=B\n[SESSION]\nBeginString=FIX.4.2\nSenderCompID=A\nTargetCompID=B\n",
        5,
        SettingsCause::SameIdentity,
    );
}

// These lines in a session are refused for this key, at line 5.
fn refuses(rt: &impl Abort, alloc: Global, lines: &str, key: Key) -> Result<(), Fail> {
    let text = with_lines(alloc, lines)?;
    refused(rt, alloc, text.as_str(), 5, SettingsCause::BadValue(key));
    Ok(())
}

#[test]
fn a_window_needs_both_ends(rt: HostRuntime) -> Result<(), Fail> {
    refuses(&rt, rt.alloc(), "StartTime=08:00:00\n", Key::StartTime)?;
    refuses(&rt, rt.alloc(), "EndTime=08:00:00\n", Key::EndTime)?;
    refuses(
        &rt,
        rt.alloc(),
        "StartDay=Monday\nEndDay=Friday\n",
        Key::StartDay,
    )?;
    refuses(
        &rt,
        rt.alloc(),
        "StartDay=Monday\nStartTime=08:00:00\nEndTime=09:00:00\n",
        Key::StartDay,
    )?;
    refuses(
        &rt,
        rt.alloc(),
        "EndDay=Monday\nStartTime=08:00:00\nEndTime=09:00:00\n",
        Key::EndDay,
    )?;
    Ok(())
}

#[test]
fn blanks_and_case_are_as_written(rt: HostRuntime) -> Result<(), Fail> {
    let text =
        "# a comment\r\n [default] \r\nHeartBtInt = 0030\t\r\n[Session]\r\n\tBeginString=FIX.4.4\r\nSenderCompID=A=B\nTargetCompID=C\nStartTime=00:00:00\nEndTime=23:59:59\nStartDay=mon\nEndDay=SUNDAY\nAppTypes=D,8,D\nTimeStampPrecision=MICROS\nZoneRule=\nHeartBtInt=1\nHeartBtInt=2";
    assert!(rt; text.len() < 10_000);
    let settings = Settings::read(rt.alloc(), text).ok().ok_or("refused")?;
    let sessions = settings.sessions();
    assert!(rt; sessions.len() == 1);
    let session = &sessions[0];
    assert!(rt; session.begin_string == Begin::Fix44);
    assert_eq!(rt; session.sender_comp_id.as_slice(), b"A=B".as_slice());
    assert_eq!(rt; session.heart_bt_int, 2);
    assert_eq!(rt; session.end_time, Some(86399));
    assert_eq!(rt; session.start_day, Some(1));
    assert_eq!(rt; session.end_day, Some(7));
    assert!(rt; session.time_stamp_precision == Precision::Micros);
    assert!(rt; session.zone_rule.is_some());
    Ok(())
}

// Within a line: its form, then the section, then TLS.
#[test]
fn lines_are_judged_in_order(rt: HostRuntime) {
    refused(&rt, rt.alloc(), "no value\n", 1, SettingsCause::NotKeyValue);
    refused(
        &rt,
        rt.alloc(),
        "SocketUseSSL=Y\n",
        1,
        SettingsCause::NoSection,
    );
    refused(
        &rt,
        rt.alloc(),
        "[SESSION]\nSocketCertificateFile=a\n",
        2,
        SettingsCause::TlsAsked,
    );
    refused(
        &rt,
        rt.alloc(),
        "[SESSION]\nSocketPrivateKeyFile=a\n[FOO]\n",
        2,
        SettingsCause::TlsAsked,
    );
    refused(
        &rt,
        rt.alloc(),
        "[SESSION]\n[SESSION]\n",
        1,
        SettingsCause::Missing(Key::BeginString),
    );
}

// A text of so many empty sessions.
fn sessions_of(alloc: Global, count: usize) -> Result<String, Fail> {
    let mut text = String::new(alloc);
    for _ in 0..count {
        text.push_str("[SESSION]\n")?;
    }
    Ok(text)
}

#[test]
fn at_most_256_sessions_are_read(rt: HostRuntime) -> Result<(), Fail> {
    let most = sessions_of(rt.alloc(), 256)?;
    refused(
        &rt,
        rt.alloc(),
        most.as_str(),
        1,
        SettingsCause::Missing(Key::BeginString),
    );
    let more = sessions_of(rt.alloc(), 257)?;
    refused(&rt, rt.alloc(), more.as_str(), 0, SettingsCause::NoSection);
    Ok(())
}

#[test]
fn a_key_that_is_needed_is_missing(rt: HostRuntime) {
    refused(
        &rt,
        rt.alloc(),
        "[SESSION]\nBeginString=FIX.4.2\nTargetCompID=B\n",
        1,
        SettingsCause::Missing(Key::SenderCompID),
    );
    refused(
        &rt,
        rt.alloc(),
        "\n[SESSION]\nBeginString=FIX.4.2\nSenderCompID=A\n",
        2,
        SettingsCause::Missing(Key::TargetCompID),
    );
}

// Session by session and key by key; a value of a default section is at fault in its own line; two
// sessions between the same come last.
#[test]
fn sessions_are_judged_in_order(rt: HostRuntime) {
    refused(
        &rt,
        rt.alloc(),
        "[SESSION]\nSenderCompID=\n",
        1,
        SettingsCause::Missing(Key::BeginString),
    );
    refused(
        &rt,
        rt.alloc(),
        "[SESSION]\nBeginString=FIX.4.4\nTargetCompID=B\nSenderCompID=A\n[DEFAULT]\nMaxLatency=0\nHeartBtInt=x\n",
        7,
        SettingsCause::BadValue(Key::HeartBtInt),
    );
    refused(
        &rt,
        rt.alloc(),
        "[DEFAULT]\nBeginString=FIX.4.2\nSenderCompID=A\nTargetCompID=B\n[SESSION]\n[SESSION]\n[SESSION]\nTimeZone=\n",
        8,
        SettingsCause::BadValue(Key::TimeZone),
    );
}

const LETTERS: [&str; 16] = [
    "A", "B", "C", "D", "E", "F", "G", "H", "I", "J", "K", "L", "M", "N", "O", "P",
];

// 65117 default lines with the same ignored key, and 256 sessions.
fn large_text(alloc: Global) -> Result<String, Fail> {
    let mut text = String::from_str(alloc, "[DEFAULT]\nBeginString=FIX.4.2\nSenderCompID=SELL\n")?;
    for _ in 0..65_117 {
        text.push_str("x=234567890ABCD\n")?;
    }
    for first in LETTERS {
        for second in LETTERS {
            text.push_str("[SESSION]\nTargetCompID=")?;
            text.push_str(first)?;
            text.push_str(second)?;
            text.push_str("\n")?;
        }
    }
    Ok(text)
}

#[test]
fn a_large_text_is_read(rt: HostRuntime) -> Result<(), Fail> {
    let text = large_text(rt.alloc())?;
    assert!(rt; text.len() == 1_048_576);
    let settings = Settings::read(rt.alloc(), text.as_str())
        .ok()
        .ok_or("refused")?;
    let sessions = settings.sessions();
    assert!(rt; sessions.len() == 256);
    assert_eq!(rt; sessions[255].target_comp_id.as_slice(), b"PP".as_slice());
    assert_eq!(rt; sessions[255].ignored.len(), 1);
    Ok(())
}
