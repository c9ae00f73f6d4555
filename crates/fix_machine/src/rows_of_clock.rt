//! Worked rows: readings of the clock.
use crate::worked::What::Clock;
use crate::worked::{Row, T, Way, With, at, under};
use crate::worked_run::hold;
use std::test::Fail;

const SECOND: u64 = 1_000_000;

#[test]
fn a_time_is_up_at_its_last_microsecond(rt: HostRuntime) -> Result<(), Fail> {
    let up = at(Way::Up, 2, 1);
    let left = at(Way::LogoutSent, 2, 2);
    let acceptor = at(Way::Accepts, 1, 0);
    let rows: [Row; 10] = [
        (up, Clock(T - 5, true), "", "Up 2 1 at -0.000005"),
        (
            acceptor,
            Clock(T + 9_999_999, true),
            "",
            "AwaitLogon 1 0 at 9.999999",
        ),
        (
            acceptor,
            Clock(T + 10 * SECOND, true),
            "Close LogonLate 0 10",
            "Down 1 0 at 10",
        ),
        (
            left,
            Clock(T + 1_999_999, true),
            "",
            "LogoutSent 2 2 at 1.999999",
        ),
        (
            left,
            Clock(T + 2 * SECOND, true),
            "Close LogoutLate 0 2",
            "Down 2 2 at 2",
        ),
        // No Heartbeat (0) goes out after the own Logout.
        (
            under(With::Patience, Way::LogoutSent, 2, 2),
            Clock(T + 3600 * SECOND, true),
            "",
            "LogoutSent 2 2 at 3600",
        ),
        (up, Clock(T + 29_999_999, true), "", "Up 2 1 at 29.999999"),
        (
            up,
            Clock(T + 30 * SECOND, true),
            "Heartbeat",
            "Up 2 2 at 30 sent 30",
        ),
        // The TestRequest (1) goes first where both are due.
        (
            up,
            Clock(T + 36 * SECOND, true),
            "TestRequest",
            "Up 2 2 at 36 sent 36 test 36",
        ),
        (
            at(Way::Quiet, 2, 1),
            Clock(T + 3600 * SECOND, true),
            "",
            "Up 2 1 heart 0 at 3600",
        ),
    ];
    hold(&rt, rt.alloc(), &rows)
}

#[test]
fn the_session_s_time_is_over(rt: HostRuntime) -> Result<(), Fail> {
    let rows: [Row; 4] = [
        (
            at(Way::Accepts, 1, 0),
            Clock(T + SECOND, false),
            "Close OutOfWindow 1",
            "Down 1 0 at 1",
        ),
        (
            at(Way::Up, 2, 1),
            Clock(T + SECOND, false),
            "Logout OutOfWindow, Close OutOfWindow 1",
            "Down 2 2 at 1 sent 1",
        ),
        (
            at(Way::LogoutSent, 2, 2),
            Clock(T + SECOND, false),
            "Close OutOfWindow 1",
            "Down 2 2 at 1",
        ),
        (
            at(Way::Down, 2, 1),
            Clock(T + SECOND, false),
            "",
            "Down 2 1 at 1",
        ),
    ];
    hold(&rt, rt.alloc(), &rows)
}
