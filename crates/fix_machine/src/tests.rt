//! Worked sessions: several events one after another, with the steps, the state and the deadline after each.
use crate::Role;
use crate::worked::What::{Begin, Clock, Ended, First, In, InOdd, Leave, Moved, Wrote};
use crate::worked::{Odd, Part, Says, T, Way, With, asking, at, under};
use crate::worked_run::follow;
use std::test::Fail;

const SECOND: u64 = 1_000_000;

#[test]
fn a_silent_counterparty_is_asked_and_left(rt: HostRuntime) -> Result<(), Fail> {
    let parts: [Part; 7] = [
        (Begin(Role::Acceptor, T), "", "AwaitLogon 1 0", 10),
        (In(1, Says::Logon(30)), "Logon 30, Expect 2", "Up 2 1", 30),
        (
            Clock(T + 30 * SECOND, true),
            "Heartbeat",
            "Up 2 2 at 30 sent 30",
            36,
        ),
        (
            Clock(T + 36 * SECOND, true),
            "TestRequest",
            "Up 2 3 at 36 sent 36 test 36",
            66,
        ),
        (
            Clock(T - SECOND, true),
            "",
            "Up 2 3 at -1 sent 36 test 36",
            66,
        ),
        (
            Clock(T + 66 * SECOND, true),
            "Heartbeat",
            "Up 2 4 at 66 sent 66 test 36",
            72,
        ),
        (
            Clock(T + 72 * SECOND, true),
            "Close Silent 36 72",
            "Down 2 4 at 72 sent 66 test 36",
            0,
        ),
    ];
    follow(&rt, rt.alloc(), at(Way::Down, 1, 0), &parts)
}

#[test]
fn a_message_ends_the_silence(rt: HostRuntime) -> Result<(), Fail> {
    let parts: [Part; 4] = [
        (
            Clock(T + 36 * SECOND, true),
            "TestRequest",
            "Up 2 2 at 36 sent 36 test 36",
            66,
        ),
        (
            In(2, Says::Heartbeat),
            "Expect 3",
            "Up 3 2 at 36 sent 36 read 36",
            66,
        ),
        (
            Wrote(T + 60 * SECOND),
            "",
            "Up 3 3 at 60 sent 60 read 36",
            72,
        ),
        // A message that is dropped ends it too.
        (
            InOdd(1, Odd::Marked, Says::Reject),
            "",
            "Up 3 3 at 60 sent 60 read 60",
            90,
        ),
    ];
    follow(&rt, rt.alloc(), at(Way::Up, 2, 1), &parts)
}

#[test]
fn a_resend_does_not_put_the_heartbeat_off(rt: HostRuntime) -> Result<(), Fail> {
    let parts: [Part; 4] = [
        (Clock(T + 20 * SECOND, true), "", "Up 2 1 gap 4 0 at 20", 30),
        (
            In(5, Says::ResendRequest),
            "Serve 1 0",
            "Up 2 1 gap 4 0 at 20 read 20",
            30,
        ),
        (
            In(2, Says::ResendRequest),
            "Expect 3, Serve 1 0",
            "Up 3 1 gap 4 0 at 20 read 20",
            30,
        ),
        (
            Clock(T + 30 * SECOND, true),
            "Heartbeat",
            "Up 3 2 gap 4 0 at 30 sent 30 read 20",
            56,
        ),
    ];
    follow(&rt, rt.alloc(), at(Way::Gap(4), 2, 1), &parts)
}

#[test]
fn a_session_leaves_and_is_not_answered(rt: HostRuntime) -> Result<(), Fail> {
    let parts: [Part; 4] = [
        (
            Leave(T + SECOND),
            "Logout Empty",
            "LogoutSent 2 2 at 1 sent 1 left 1",
            3,
        ),
        (
            Leave(T + 2 * SECOND),
            "",
            "LogoutSent 2 2 at 2 sent 1 left 1",
            3,
        ),
        (
            Clock(T + 3 * SECOND, true),
            "Close LogoutLate 1 3",
            "Down 2 2 at 3 sent 1 left 1",
            0,
        ),
        (Leave(T + 4 * SECOND), "", "Down 2 2 at 4 sent 1 left 1", 0),
    ];
    follow(&rt, rt.alloc(), at(Way::Up, 2, 1), &parts)
}

#[test]
fn an_initiator_logs_on(rt: HostRuntime) -> Result<(), Fail> {
    let parts: [Part; 4] = [
        (
            Begin(Role::Initiator, T),
            "",
            "AwaitLogon 1 0 initiator",
            10,
        ),
        (First, "Logon 30", "AwaitLogon 1 1 initiator", 10),
        (Leave(T), "", "AwaitLogon 1 1 initiator", 10),
        (In(1, Says::Logon(30)), "Expect 2", "Up 2 1 initiator", 30),
    ];
    follow(&rt, rt.alloc(), at(Way::Down, 1, 0), &parts)
}

#[test]
fn a_reset_is_asked_for_and_answered(rt: HostRuntime) -> Result<(), Fail> {
    let parts: [Part; 2] = [
        (First, "Logon 30 Y", "AwaitLogon 1 1 initiator asks", 10),
        (
            In(1, Says::ResetLogon(30)),
            "Confirm, Expect 2",
            "Up 2 1 initiator",
            30,
        ),
    ];
    follow(&rt, rt.alloc(), asking(Way::Opens, 1, 0), &parts)
}

#[test]
fn a_gap_is_filled_and_a_reset_may_not_go_back(rt: HostRuntime) -> Result<(), Fail> {
    let parts: [Part; 3] = [
        (In(2, Says::Fill(6)), "Expect 6", "Up 6 1", 30),
        (In(1, Says::Reset(3)), "Reject 1 35=4 5 36", "Up 6 2", 30),
        (In(1, Says::Reset(9)), "Expect 9", "Up 9 2", 30),
    ];
    follow(&rt, rt.alloc(), at(Way::Up, 2, 1), &parts)
}

#[test]
fn a_gap_is_asked_for_two_at_a_time(rt: HostRuntime) -> Result<(), Fail> {
    let parts: [Part; 12] = [
        (
            In(7, Says::App(b'D')),
            "Stash, ResendRequest 2 3",
            "Up 2 2 gap 7 3",
            30,
        ),
        (
            InOdd(2, Odd::Again, Says::App(b'D')),
            "Hand, Expect 3",
            "Up 3 2 gap 7 3",
            30,
        ),
        (Moved(false), "", "Up 3 2 gap 7 3", 30),
        (
            InOdd(3, Odd::Again, Says::App(b'D')),
            "Hand, Expect 4",
            "Up 4 2 gap 7 3",
            30,
        ),
        (Moved(false), "ResendRequest 4 5", "Up 4 3 gap 7 5", 30),
        (
            InOdd(4, Odd::Again, Says::Fill(6)),
            "Expect 6",
            "Up 6 3 gap 7 5",
            30,
        ),
        (Moved(false), "ResendRequest 6 7", "Up 6 4 gap 7 7", 30),
        (
            InOdd(6, Odd::Again, Says::App(b'D')),
            "Hand, Expect 7",
            "Up 7 4 gap 7 7",
            30,
        ),
        // The message that waited is handled.
        (Moved(true), "", "Up 7 4 gap 7 7", 30),
        (
            In(7, Says::App(b'D')),
            "Hand, Expect 8",
            "Up 8 4 gap 7 7",
            30,
        ),
        (Moved(false), "", "Up 8 4", 30),
        (Moved(false), "", "Up 8 4", 30),
    ];
    follow(&rt, rt.alloc(), under(With::Chunks, Way::Up, 2, 1), &parts)
}

#[test]
fn a_gap_is_asked_for_once(rt: HostRuntime) -> Result<(), Fail> {
    let parts: [Part; 10] = [
        (
            In(4, Says::App(b'D')),
            "Stash, ResendRequest 2 0",
            "Up 2 2 gap 4 0",
            30,
        ),
        (In(4, Says::App(b'D')), "Stash", "Up 2 2 gap 4 0", 30),
        (In(5, Says::App(b'D')), "Stash", "Up 2 2 gap 4 0", 30),
        (
            InOdd(2, Odd::Again, Says::App(b'D')),
            "Hand, Expect 3",
            "Up 3 2 gap 4 0",
            30,
        ),
        (Moved(false), "", "Up 3 2 gap 4 0", 30),
        (
            InOdd(3, Odd::Again, Says::App(b'D')),
            "Hand, Expect 4",
            "Up 4 2 gap 4 0",
            30,
        ),
        (Moved(true), "", "Up 4 2 gap 4 0", 30),
        (
            In(4, Says::App(b'D')),
            "Hand, Expect 5",
            "Up 5 2 gap 4 0",
            30,
        ),
        (Moved(true), "", "Up 5 2", 30),
        (In(5, Says::App(b'D')), "Hand, Expect 6", "Up 6 2", 30),
    ];
    follow(&rt, rt.alloc(), at(Way::Up, 2, 1), &parts)
}

#[test]
fn a_new_connection_begins_anew(rt: HostRuntime) -> Result<(), Fail> {
    let parts: [Part; 4] = [
        (
            In(4, Says::App(b'D')),
            "Stash, ResendRequest 2 0",
            "Up 2 2 heart 0 gap 4 0",
            0,
        ),
        (Ended, "", "Down 2 2 heart 0 gap 4 0", 0),
        (
            Begin(Role::Initiator, T + 5 * SECOND),
            "",
            "AwaitLogon 2 2 initiator at 5 begun 5 sent 5 read 5 left 5",
            15,
        ),
        (
            Clock(T + 15 * SECOND, true),
            "Close LogonLate 5 15",
            "Down 2 2 initiator at 15 begun 5 sent 5 read 5 left 5",
            0,
        ),
    ];
    follow(&rt, rt.alloc(), at(Way::Quiet, 2, 1), &parts)
}
