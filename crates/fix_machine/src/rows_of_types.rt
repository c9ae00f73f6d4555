//! Worked rows: a message with the expected number, by its first fault and by its MsgType (35).
use crate::worked::What::{In, InOdd};
use crate::worked::{Odd, Row, Says, Way, With, at, under};
use crate::worked_run::hold;
use std::test::Fail;

#[test]
fn a_comp_id_that_is_wrong_ends_the_session(rt: HostRuntime) -> Result<(), Fail> {
    let up = at(Way::Up, 2, 1);
    let order = Says::App(b'D');
    let rows: [Row; 7] = [
        (
            up,
            InOdd(2, Odd::NoSender, order),
            "Reject 2 35=D 1 49, Expect 3",
            "Up 3 2",
        ),
        (
            up,
            InOdd(2, Odd::NoTarget, order),
            "Reject 2 35=D 1 56, Expect 3",
            "Up 3 2",
        ),
        (
            up,
            InOdd(2, Odd::OtherSenderNoTarget, order),
            "Reject 2 35=D 1 56, Expect 3",
            "Up 3 2",
        ),
        (
            up,
            InOdd(2, Odd::OtherSender, order),
            "Reject 2 35=D 9 49, Expect 3, Logout CompId, Close Refused 2 CompId",
            "Down 3 3",
        ),
        (
            up,
            InOdd(2, Odd::OtherTarget, order),
            "Reject 2 35=D 9 56, Expect 3, Logout CompId, Close Refused 2 CompId",
            "Down 3 3",
        ),
        (
            up,
            InOdd(2, Odd::OtherSender, Says::Heartbeat),
            "Reject 2 35=0 9 49, Expect 3, Logout CompId, Close Refused 2 CompId",
            "Down 3 3",
        ),
        // The CompIDs are looked at before the content.
        (
            up,
            InOdd(2, Odd::OtherSender, Says::Bad(b'D', 1, 54)),
            "Reject 2 35=D 9 49, Expect 3, Logout CompId, Close Refused 2 CompId",
            "Down 3 3",
        ),
    ];
    hold(&rt, rt.alloc(), &rows)
}

#[test]
fn a_sending_time_too_far_off_ends_the_session(rt: HostRuntime) -> Result<(), Fail> {
    let up = at(Way::Up, 2, 1);
    let order = Says::App(b'D');
    let off = "Reject 2 35=D 10 52, Expect 3, Logout SendingTime, Close Refused 2 SendingTime";
    let rows: [Row; 8] = [
        (
            up,
            InOdd(2, Odd::NoTime, order),
            "Reject 2 35=D 1 52, Expect 3",
            "Up 3 2",
        ),
        (
            up,
            InOdd(2, Odd::BadTime, order),
            "Reject 2 35=D 6 52, Expect 3",
            "Up 3 2",
        ),
        (up, InOdd(2, Odd::Early121, order), off, "Down 3 3"),
        (
            up,
            InOdd(2, Odd::Early120, order),
            "Hand, Expect 3",
            "Up 3 1",
        ),
        (
            up,
            InOdd(2, Odd::Late120, order),
            "Hand, Expect 3",
            "Up 3 1",
        ),
        (up, InOdd(2, Odd::Late121, order), off, "Down 3 3"),
        (
            under(With::AnyTime, Way::Up, 2, 1),
            InOdd(2, Odd::Late121, order),
            "Hand, Expect 3",
            "Up 3 1",
        ),
        (
            up,
            InOdd(2, Odd::BadTime, Says::Bad(b'D', 1, 54)),
            "Reject 2 35=D 6 52, Expect 3",
            "Up 3 2",
        ),
    ];
    hold(&rt, rt.alloc(), &rows)
}

#[test]
fn a_repeat_says_when_it_was_sent_first(rt: HostRuntime) -> Result<(), Fail> {
    let up = at(Way::Up, 2, 1);
    let order = Says::App(b'D');
    let rows: [Row; 8] = [
        (
            up,
            InOdd(2, Odd::FlagX, order),
            "Reject 2 35=D 6 43, Expect 3",
            "Up 3 2",
        ),
        (up, InOdd(2, Odd::FlagN, order), "Hand, Expect 3", "Up 3 1"),
        (
            up,
            InOdd(2, Odd::Marked, order),
            "Reject 2 35=D 1 122, Expect 3",
            "Up 3 2",
        ),
        (
            up,
            InOdd(2, Odd::AgainBad, order),
            "Reject 2 35=D 6 122, Expect 3",
            "Up 3 2",
        ),
        (
            up,
            InOdd(2, Odd::AgainLater, order),
            "Reject 2 35=D 10 122, Expect 3, Logout SendingTime, Close Refused 2 SendingTime",
            "Down 3 3",
        ),
        (up, InOdd(2, Odd::Again, order), "Hand, Expect 3", "Up 3 1"),
        (
            up,
            In(2, Says::Bad(b'D', 1, 54)),
            "Reject 2 35=D 1 54, Expect 3",
            "Up 3 2",
        ),
        // A message of the empty type.
        (
            up,
            In(2, Says::Bad(0, 4, 35)),
            "Reject 2 35= 4 35, Expect 3",
            "Up 3 2",
        ),
    ];
    hold(&rt, rt.alloc(), &rows)
}

#[test]
fn each_message_in_order_has_its_answer(rt: HostRuntime) -> Result<(), Fail> {
    let up = at(Way::Up, 2, 1);
    let rows: [Row; 14] = [
        (up, In(2, Says::Heartbeat), "Expect 3", "Up 3 1"),
        (
            up,
            In(2, Says::TestRequest),
            "Heartbeat PING, Expect 3",
            "Up 3 2",
        ),
        (
            up,
            In(2, Says::ResendRequest),
            "Expect 3, Serve 1 0",
            "Up 3 1",
        ),
        // BeginSeqNo (7) 3 and EndSeqNo (16) 2.
        (
            up,
            In(2, Says::Bad(b'2', 5, 16)),
            "Reject 2 35=2 5 16, Expect 3",
            "Up 3 2",
        ),
        (up, In(2, Says::Reject), "Expect 3", "Up 3 1"),
        (up, In(2, Says::Fill(6)), "Expect 6", "Up 6 1"),
        (up, In(2, Says::Fill(3)), "Expect 3", "Up 3 1"),
        (
            up,
            In(2, Says::Fill(2)),
            "Reject 2 35=4 5 36, Expect 3",
            "Up 3 2",
        ),
        (
            up,
            In(2, Says::Fill(1)),
            "Reject 2 35=4 5 36, Expect 3",
            "Up 3 2",
        ),
        (
            up,
            In(2, Says::Logout),
            "Expect 3, Logout Empty, Close LoggedOut 2",
            "Down 3 2",
        ),
        (up, In(2, Says::Logon(30)), "Expect 3", "Up 3 1"),
        (
            up,
            In(2, Says::ResetLogon(30)),
            "Logout ResetFlag, Close Refused 2 ResetAsked",
            "Down 2 2",
        ),
        (up, In(2, Says::App(b'D')), "Hand, Expect 3", "Up 3 1"),
        (up, In(2, Says::App(b'j')), "Hand, Expect 3", "Up 3 1"),
    ];
    hold(&rt, rt.alloc(), &rows)
}

#[test]
fn messages_are_answered_after_the_own_logout_and_at_the_last_number(
    rt: HostRuntime,
) -> Result<(), Fail> {
    let left = at(Way::LogoutSent, 2, 2);
    let rows: [Row; 6] = [
        (
            left,
            In(2, Says::Logout),
            "Expect 3, Close LoggedOut 2",
            "Down 3 2",
        ),
        (
            left,
            In(2, Says::App(b'D')),
            "Hand, Expect 3",
            "LogoutSent 3 2",
        ),
        (
            left,
            In(2, Says::TestRequest),
            "Heartbeat PING, Expect 3",
            "LogoutSent 3 3",
        ),
        (
            at(Way::Up, 999_999_999, 1),
            In(999_999_999, Says::App(b'D')),
            "Hand, Expect 1000000000",
            "Up 1000000000 1",
        ),
        // No number is left to send with; the one before the last is.
        (
            at(Way::Up, 2, 999_999_999),
            In(2, Says::TestRequest),
            "Heartbeat PING, Expect 3",
            "Up 3 999999999",
        ),
        (
            at(Way::Up, 2, 999_999_998),
            In(2, Says::TestRequest),
            "Heartbeat PING, Expect 3",
            "Up 3 999999999",
        ),
    ];
    hold(&rt, rt.alloc(), &rows)
}
