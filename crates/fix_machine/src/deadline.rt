//! Tells when `clock` next has something to do. `Machine::deadline` calls this.
ghost use Rattle.std.specs.Prelude.{◌≡◌, ◌≤◌};
ghost use Rattle.fix_base.specs.Payload.{LAST_TIME as LAST};
ghost use Rattle.fix_machine.specs.State.{IsTimed};
ghost use Rattle.fix_machine.specs.Deadline as deadlines;
ghost use Rattle.fix_machine.specs.Deadline.{IsFirst, IsDeadline, has_passed, earlier};

use crate::{MachineState, Options, Phase};
use fix_base::LAST_TIME;

/// The least reading after the last one, up to the end of 2099, that brings something.
pub fn deadline(options: &Options, state: &MachineState) -> Option<u64>
    requires { IsTimed state.now }
    ensures { IsDeadline options.now state.now result }
{
    match state.phase {
        Phase::Down => None,
        Phase::AwaitLogon => {
            first_from(
                state,
                state.begun,
                1_000_000 * u64::from(options.logon_timeout),
            )
        }
        Phase::LogoutSent => first_from(
            state,
            state.left_at,
            1_000_000 * u64::from(options.logout_timeout),
        ),
        Phase::Up => {
            if state.heart == 0 {
                return None;
            }
            let heart = u64::from(state.heart);
            let since = state.test_request_sent_at.unwrap_or(state.read_at);
            let silent = first_from(state, since, 1_200_000 * heart);
            earlier_of(silent, first_from(state, state.sent_at, 1_000_000 * heart))
        }
    }
}

// The first reading ahead at which so many microseconds have gone since.
fn first_from(state: &MachineState, since: u64, after: u64) -> Option<u64>
    requires reading { state.now.reading ≤ LAST }
    requires since { since ≤ LAST }
    requires bound { after ≤ 10000000000000000 }
    ensures { IsFirst state.now (λ t. has_passed after since t) result }
{
    let next = state.reading + 1;
    if after == 0 {
        return capped(next);
    }
    capped(next.max(since + after))
}

// The time, where it lies before the end of 2099.
fn capped(at: u64) -> Option<u64>
    ensures { result ≡ deadlines.capped at }
{
    if at <= LAST_TIME { Some(at) } else { None }
}

// The earlier of two.
fn earlier_of(a: Option<u64>, b: Option<u64>) -> Option<u64>
    ensures { result ≡ earlier a b }
{
    match (a, b) {
        (None, b) => b,
        (Some(a), None) => Some(a),
        (Some(a), Some(b)) => Some(a.min(b)),
    }
}
