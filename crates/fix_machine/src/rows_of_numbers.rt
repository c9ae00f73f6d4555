//! Worked rows: a message after the Logon, by its BeginString (8) and its number, and a gap
//! as it is filled.
use crate::worked::What::{In, InOdd, Moved};
use crate::worked::{Odd, Row, Says, Way, With, at, under};
use crate::worked_run::hold;
use std::test::Fail;

#[test]
fn a_message_too_low_is_answered_by_a_logout(rt: HostRuntime) -> Result<(), Fail> {
    let up = at(Way::Up, 5, 1);
    let low = "Logout TooLow 5 1, Close Refused 1 TooLow";
    let rows: [Row; 9] = [
        (up, In(1, Says::Heartbeat), low, "Down 5 2"),
        (up, In(1, Says::App(b'D')), low, "Down 5 2"),
        (up, InOdd(1, Odd::FlagN, Says::App(b'D')), low, "Down 5 2"),
        (up, InOdd(1, Odd::FlagX, Says::App(b'D')), low, "Down 5 2"),
        (up, InOdd(1, Odd::Again, Says::App(b'D')), "", "Up 5 1"),
        (up, InOdd(1, Odd::Marked, Says::App(b'D')), "", "Up 5 1"),
        (up, InOdd(1, Odd::Marked, Says::Fill(9)), "", "Up 5 1"),
        (
            at(Way::Up, 2, 1),
            InOdd(2, Odd::Version, Says::Heartbeat),
            "Logout BeginString, Close Refused 2 BeginString",
            "Down 2 2",
        ),
        (
            at(Way::Up, 2, 1),
            In(0, Says::App(b'D')),
            "Logout NoNumber, Close Refused 0 NoNumber",
            "Down 2 2",
        ),
    ];
    hold(&rt, rt.alloc(), &rows)
}

#[test]
fn a_sequence_reset_without_gap_fill_is_not_counted(rt: HostRuntime) -> Result<(), Fail> {
    let up = at(Way::Up, 6, 1);
    let rows: [Row; 10] = [
        (up, In(1, Says::Reset(3)), "Reject 1 35=4 5 36", "Up 6 2"),
        (up, In(1, Says::Reset(9)), "Expect 9", "Up 9 1"),
        (up, In(1, Says::Reset(6)), "Expect 6", "Up 6 1"),
        (up, In(6, Says::Reset(3)), "Reject 6 35=4 5 36", "Up 6 2"),
        (up, In(8, Says::Reset(9)), "Expect 9", "Up 9 1"),
        (
            up,
            InOdd(1, Odd::Again, Says::Reset(9)),
            "Expect 9",
            "Up 9 1",
        ),
        (
            up,
            In(6, Says::Bad(b'4', 6, 36)),
            "Reject 6 35=4 6 36",
            "Up 6 2",
        ),
        (
            up,
            In(8, Says::Bad(b'4', 6, 36)),
            "Reject 8 35=4 6 36",
            "Up 6 2",
        ),
        (
            up,
            InOdd(6, Odd::Marked, Says::Reset(9)),
            "Reject 6 35=4 1 122",
            "Up 6 2",
        ),
        (
            up,
            InOdd(6, Odd::OtherSender, Says::Reset(9)),
            "Reject 6 35=4 9 49, Logout CompId, Close Refused 6 CompId",
            "Down 6 3",
        ),
    ];
    hold(&rt, rt.alloc(), &rows)
}

#[test]
fn a_message_too_high_waits_and_the_gap_is_asked_for(rt: HostRuntime) -> Result<(), Fail> {
    let up = at(Way::Up, 2, 1);
    let gap = at(Way::Gap(4), 2, 1);
    let chunks = under(With::Chunks, Way::Up, 2, 1);
    let waits = "Stash, ResendRequest 2 0";
    let rows: [Row; 14] = [
        (up, In(4, Says::App(b'D')), waits, "Up 2 2 gap 4 0"),
        (up, In(4, Says::Heartbeat), waits, "Up 2 2 gap 4 0"),
        (up, In(4, Says::TestRequest), waits, "Up 2 2 gap 4 0"),
        (up, In(4, Says::Fill(9)), waits, "Up 2 2 gap 4 0"),
        (up, In(4, Says::ResetLogon(30)), waits, "Up 2 2 gap 4 0"),
        (up, In(4, Says::Bad(b'D', 1, 54)), waits, "Up 2 2 gap 4 0"),
        (
            up,
            InOdd(4, Odd::OtherSender, Says::App(b'D')),
            waits,
            "Up 2 2 gap 4 0",
        ),
        (
            up,
            InOdd(4, Odd::Full, Says::App(b'D')),
            "ResendRequest 2 0",
            "Up 2 2 gap 4 0",
        ),
        (gap, In(4, Says::App(b'D')), "Stash", "Up 2 1 gap 4 0"),
        (gap, In(5, Says::App(b'D')), "Stash", "Up 2 1 gap 4 0"),
        (
            gap,
            InOdd(5, Odd::Full, Says::App(b'D')),
            "",
            "Up 2 1 gap 4 0",
        ),
        (
            chunks,
            In(7, Says::App(b'D')),
            "Stash, ResendRequest 2 3",
            "Up 2 2 gap 7 3",
        ),
        (
            chunks,
            In(3, Says::App(b'D')),
            "Stash, ResendRequest 2 3",
            "Up 2 2 gap 3 3",
        ),
        (
            at(Way::LogoutSent, 2, 2),
            In(4, Says::App(b'D')),
            waits,
            "LogoutSent 2 3 gap 4 0",
        ),
    ];
    hold(&rt, rt.alloc(), &rows)
}

#[test]
fn a_resend_request_or_logout_too_high_is_served_at_once(rt: HostRuntime) -> Result<(), Fail> {
    let up = at(Way::Up, 2, 1);
    let rows: [Row; 7] = [
        (
            up,
            In(4, Says::ResendRequest),
            "Serve 1 0, ResendRequest 2 0",
            "Up 2 2 gap 4 0",
        ),
        (
            at(Way::Gap(4), 2, 1),
            In(5, Says::ResendRequest),
            "Serve 1 0",
            "Up 2 1 gap 4 0",
        ),
        (
            up,
            In(4, Says::Bad(b'2', 5, 16)),
            "ResendRequest 2 0",
            "Up 2 2 gap 4 0",
        ),
        (
            up,
            In(9, Says::Logout),
            "Logout Empty, Close LoggedOut 9",
            "Down 2 2",
        ),
        (
            at(Way::LogoutSent, 2, 2),
            In(9, Says::Logout),
            "Close LoggedOut 9",
            "Down 2 2",
        ),
        (
            up,
            InOdd(9, Odd::OtherSender, Says::Logout),
            "ResendRequest 2 0",
            "Up 2 2 gap 9 0",
        ),
        (
            at(Way::Gap(4), 2, 1),
            InOdd(9, Odd::NoTime, Says::Logout),
            "",
            "Up 2 1 gap 4 0",
        ),
    ];
    hold(&rt, rt.alloc(), &rows)
}

#[test]
fn the_next_part_of_a_gap_is_asked_for(rt: HostRuntime) -> Result<(), Fail> {
    let rows: [Row; 8] = [
        (at(Way::Up, 2, 1), Moved(false), "", "Up 2 1"),
        (at(Way::Gap(4), 5, 2), Moved(false), "", "Up 5 2"),
        (at(Way::Gap(7), 5, 2), Moved(false), "", "Up 5 2 gap 7 0"),
        (
            under(With::Chunks, Way::Gap(7), 3, 2),
            Moved(false),
            "",
            "Up 3 2 gap 7 3",
        ),
        (
            under(With::Chunks, Way::Gap(7), 4, 2),
            Moved(false),
            "ResendRequest 4 5",
            "Up 4 3 gap 7 5",
        ),
        // It ends at the message that showed the gap.
        (
            under(With::Chunks, Way::Gap(6), 6, 4),
            Moved(true),
            "ResendRequest 6 6",
            "Up 6 5 gap 6 6",
        ),
        (
            under(With::Chunks, Way::Gap(7), 7, 4),
            Moved(true),
            "ResendRequest 7 7",
            "Up 7 5 gap 7 7",
        ),
        (
            under(With::Chunks, Way::Gap(7), 8, 4),
            Moved(false),
            "",
            "Up 8 4",
        ),
    ];
    hold(&rt, rt.alloc(), &rows)
}
