//! Worked rows: the first message on a connection, and the first that an initiator sends.
use crate::worked::What::{First, In, InOdd};
use crate::worked::{Odd, Row, Says, Way, With, asking, at, under};
use crate::worked_run::hold;
use std::test::Fail;

#[test]
fn a_first_message_that_is_no_logon_of_the_session_is_refused(rt: HostRuntime) -> Result<(), Fail> {
    let acceptor = at(Way::Accepts, 1, 0);
    let rows: [Row; 11] = [
        (
            acceptor,
            In(1, Says::Heartbeat),
            "Close Refused 1 NotLogon",
            "Down 1 0",
        ),
        (
            acceptor,
            In(0, Says::App(b'D')),
            "Close Refused 0 NotLogon",
            "Down 1 0",
        ),
        (
            acceptor,
            InOdd(1, Odd::Version, Says::Logon(30)),
            "Close Refused 1 BeginString",
            "Down 1 0",
        ),
        (
            acceptor,
            InOdd(0, Odd::Version, Says::Logon(30)),
            "Close Refused 0 BeginString",
            "Down 1 0",
        ),
        (
            acceptor,
            In(0, Says::Logon(30)),
            "Close Refused 0 NoNumber",
            "Down 1 0",
        ),
        (
            acceptor,
            InOdd(1, Odd::NoSender, Says::Logon(30)),
            "Close Refused 1 CompId",
            "Down 1 0",
        ),
        (
            acceptor,
            InOdd(1, Odd::NoTarget, Says::Logon(30)),
            "Close Refused 1 CompId",
            "Down 1 0",
        ),
        (
            acceptor,
            InOdd(1, Odd::OtherSender, Says::Logon(30)),
            "Close Refused 1 CompId",
            "Down 1 0",
        ),
        (
            acceptor,
            InOdd(1, Odd::OtherTarget, Says::Logon(30)),
            "Close Refused 1 CompId",
            "Down 1 0",
        ),
        // EncryptMethod (98) is 1.
        (
            acceptor,
            In(1, Says::Bad(b'A', 5, 98)),
            "Close Refused 1 BadLogon",
            "Down 1 0",
        ),
        (
            at(Way::Opens, 1, 1),
            In(1, Says::Logout),
            "Close Refused 1 NotLogon",
            "Down 1 1 initiator",
        ),
    ];
    hold(&rt, rt.alloc(), &rows)
}

#[test]
fn a_logon_too_low_is_answered_by_a_logout(rt: HostRuntime) -> Result<(), Fail> {
    let rows: [Row; 6] = [
        (
            at(Way::Accepts, 5, 3),
            In(1, Says::Logon(30)),
            "Logout TooLow 5 1, Close Refused 1 TooLow",
            "Down 5 4",
        ),
        (
            at(Way::Opens, 5, 3),
            In(1, Says::Logon(30)),
            "Logout TooLow 5 1, Close Refused 1 TooLow",
            "Down 5 4 initiator",
        ),
        // PossDupFlag (43) doesn't help.
        (
            at(Way::Accepts, 5, 3),
            InOdd(1, Odd::Again, Says::Logon(30)),
            "Logout TooLow 5 1, Close Refused 1 TooLow",
            "Down 5 4",
        ),
        // ResetOnLogon is no help to an initiator.
        (
            under(With::Resets, Way::Opens, 5, 3),
            In(1, Says::Logon(30)),
            "Logout TooLow 5 1, Close Refused 1 TooLow",
            "Down 5 4 initiator",
        ),
        // ResetSeqNumFlag (141) passes this line.
        (
            at(Way::Opens, 5, 3),
            In(1, Says::ResetLogon(30)),
            "Close Refused 1 ResetAsked",
            "Down 5 3 initiator",
        ),
        (
            at(Way::Opens, 5, 3),
            In(2, Says::ResetLogon(30)),
            "Close Refused 2 BadLogon",
            "Down 5 3 initiator",
        ),
    ];
    hold(&rt, rt.alloc(), &rows)
}

#[test]
fn a_logon_is_taken_within_max_latency(rt: HostRuntime) -> Result<(), Fail> {
    let acceptor = at(Way::Accepts, 1, 0);
    let any = under(With::AnyTime, Way::Accepts, 1, 0);
    let rows: [Row; 8] = [
        (
            acceptor,
            InOdd(1, Odd::NoTime, Says::Logon(30)),
            "Close Refused 1 SendingTime",
            "Down 1 0",
        ),
        (
            acceptor,
            InOdd(1, Odd::BadTime, Says::Logon(30)),
            "Close Refused 1 SendingTime",
            "Down 1 0",
        ),
        (
            acceptor,
            InOdd(1, Odd::Early121, Says::Logon(30)),
            "Close Refused 1 SendingTime",
            "Down 1 0",
        ),
        (
            acceptor,
            InOdd(1, Odd::Early120, Says::Logon(30)),
            "Logon 30, Expect 2",
            "Up 2 1",
        ),
        (
            acceptor,
            InOdd(1, Odd::Late120, Says::Logon(30)),
            "Logon 30, Expect 2",
            "Up 2 1",
        ),
        (
            acceptor,
            InOdd(1, Odd::Late121, Says::Logon(30)),
            "Close Refused 1 SendingTime",
            "Down 1 0",
        ),
        (
            any,
            InOdd(1, Odd::Late121, Says::Logon(30)),
            "Logon 30, Expect 2",
            "Up 2 1",
        ),
        (
            any,
            InOdd(1, Odd::NoTime, Says::Logon(30)),
            "Close Refused 1 SendingTime",
            "Down 1 0",
        ),
    ];
    hold(&rt, rt.alloc(), &rows)
}

#[test]
fn an_acceptor_answers_a_logon(rt: HostRuntime) -> Result<(), Fail> {
    let acceptor = at(Way::Accepts, 1, 0);
    let chunks = under(With::Chunks, Way::Accepts, 1, 0);
    let version = under(With::Version, Way::Accepts, 1, 0);
    let rows: [Row; 9] = [
        (
            acceptor,
            In(1, Says::Logon(30)),
            "Logon 30, Expect 2",
            "Up 2 1",
        ),
        (
            acceptor,
            In(1, Says::Logon(20)),
            "Logon 20, Expect 2",
            "Up 2 1 heart 20",
        ),
        (
            acceptor,
            In(1, Says::Logon(0)),
            "Logon 0, Expect 2",
            "Up 2 1 heart 0",
        ),
        (
            acceptor,
            In(4, Says::Logon(30)),
            "Logon 30, ResendRequest 1 0",
            "Up 1 2 gap 4 0",
        ),
        (
            chunks,
            In(4, Says::Logon(30)),
            "Logon 30, ResendRequest 1 2",
            "Up 1 2 gap 4 2",
        ),
        (
            chunks,
            In(2, Says::Logon(30)),
            "Logon 30, ResendRequest 1 2",
            "Up 1 2 gap 2 2",
        ),
        (
            version,
            In(1, Says::VersionLogon(9)),
            "Logon 30 1137=9, Expect 2",
            "Up 2 1",
        ),
        (
            version,
            In(1, Says::Logon(30)),
            "Close Refused 1 BadLogon",
            "Down 1 0",
        ),
        (
            version,
            In(1, Says::VersionLogon(7)),
            "Close Refused 1 BadLogon",
            "Down 1 0",
        ),
    ];
    hold(&rt, rt.alloc(), &rows)
}

#[test]
fn an_acceptor_resets_at_a_logon_of_number_1(rt: HostRuntime) -> Result<(), Fail> {
    let acceptor = at(Way::Accepts, 9, 3);
    let resets = under(With::Resets, Way::Accepts, 9, 3);
    let rows: [Row; 5] = [
        (
            acceptor,
            In(1, Says::ResetLogon(30)),
            "Reset, Logon 30 Y, Expect 2",
            "Up 2 1",
        ),
        (
            acceptor,
            In(2, Says::ResetLogon(30)),
            "Close Refused 2 BadLogon",
            "Down 9 3",
        ),
        (
            resets,
            In(1, Says::Logon(30)),
            "Reset, Logon 30, Expect 2",
            "Up 2 1",
        ),
        (
            resets,
            In(3, Says::Logon(30)),
            "Reset, Logon 30, ResendRequest 1 0",
            "Up 1 2 gap 3 0",
        ),
        (
            resets,
            In(1, Says::ResetLogon(30)),
            "Reset, Logon 30 Y, Expect 2",
            "Up 2 1",
        ),
    ];
    hold(&rt, rt.alloc(), &rows)
}

#[test]
fn an_initiator_is_answered(rt: HostRuntime) -> Result<(), Fail> {
    let initiator = at(Way::Opens, 1, 1);
    let asks = asking(Way::Opens, 1, 1);
    let rows: [Row; 10] = [
        (
            initiator,
            In(1, Says::Logon(30)),
            "Expect 2",
            "Up 2 1 initiator",
        ),
        // Its own HeartBtInt (108) is in force.
        (
            initiator,
            In(1, Says::Logon(20)),
            "Expect 2",
            "Up 2 1 initiator",
        ),
        (
            initiator,
            In(7, Says::Logon(30)),
            "ResendRequest 1 0",
            "Up 1 2 initiator gap 7 0",
        ),
        (
            initiator,
            In(1, Says::ResetLogon(30)),
            "Close Refused 1 ResetAsked",
            "Down 1 1 initiator",
        ),
        (
            asks,
            In(1, Says::ResetLogon(30)),
            "Confirm, Expect 2",
            "Up 2 1 initiator",
        ),
        (
            asks,
            In(1, Says::Logon(30)),
            "Close Refused 1 ResetUnanswered",
            "Down 1 1 initiator asks",
        ),
        (
            asks,
            In(3, Says::Logon(30)),
            "Close Refused 3 ResetUnanswered",
            "Down 1 1 initiator asks",
        ),
        (
            asks,
            In(2, Says::ResetLogon(30)),
            "Close Refused 2 BadLogon",
            "Down 1 1 initiator asks",
        ),
        (
            at(Way::Opens, 1, 0),
            First,
            "Logon 30",
            "AwaitLogon 1 1 initiator",
        ),
        (
            asking(Way::Opens, 1, 0),
            First,
            "Logon 30 Y",
            "AwaitLogon 1 1 initiator asks",
        ),
    ];
    hold(&rt, rt.alloc(), &rows)
}
