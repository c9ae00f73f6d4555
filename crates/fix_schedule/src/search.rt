//! The search for the window of a time: a few days near it are enough.
ghost use Rattle.std.specs.Prelude.{◌≡◌, ℕ, ℤ, pos, neg_ℤ, ◌<◌, ◌≤◌, ◌↔◌, IsTrue, IsNone, IfSome, MatchOption};
ghost use Rattle.jiff_core.specs.Calendar.{IsBetween};
ghost use Rattle.fix_base.specs.Payload.{LAST_TIME};
ghost use Rattle.fix_schedule.specs.Days.{Counts, EndsAfter};
ghost use Rattle.fix_schedule.specs.Window.{given, IsWindowOn, IsLatestWindow};

use crate::hours::Hours;
use crate::instant::instant_of;
use jiff_core::civil::Date;

const MICROS_OF_DAY: u64 = 86_400_000_000;

/// The window of a time: that of the latest civil day that has one in which the time lies. A zone's
/// clock is less than 26 hours from UTC, so such a day is at most two after the time's day in
/// UTC, and the window's last day at most two before it.
pub fn window_of(hours: &Hours, time: u64) -> Option<(u64, u64)>
    requires { time ≤ LAST_TIME }
    ensures known { IfSome result (λ window. IsLatestWindow hours.now time window) }
    ensures none { IsNone result → (day : ℤ) (window : ℕ × ℕ) → IsWindowOn hours.now time day window → ⊥ }
{
    let last = (time / MICROS_OF_DAY) as i64 + 2;
    let days = days_behind(hours);
    for back in 0..5 + days {
        let window = window_on(hours, last - i64::from(back), time);
        if window.is_some() {
            return window;
        }
    }
    None
}

// The window that starts on this day, where the time lies in it.
fn window_on(hours: &Hours, day: i64, time: u64) -> Option<(u64, u64)>
    requires day_in { IsBetween (neg_ℤ (pos 50)) (pos 49000) day }
    requires time_in { time ≤ LAST_TIME }
    ensures { MatchOption result
        ((window : ℕ × ℕ) → IsWindowOn hours.now time day window → ⊥)
        (λ window. IsWindowOn hours.now time day window) }
{
    if !counts(hours, day) {
        return None;
    }
    let start = instant_of(&hours.rule, day, hours.start_time);
    if start > time as i64 {
        return None;
    }
    let last = day + i64::from(days_behind(hours));
    let end = instant_of(&hours.rule, last, hours.end_time);
    if end < time as i64 {
        return None;
    }
    Some((since_1970(start), since_1970(end)))
}

// A time before 1970 is given as 0.
fn since_1970(micros: i64) -> u64
    ensures { result ≡ given micros }
{
    if micros < 0 { 0 } else { micros as u64 }
}

// Whether a window may start on the day.
fn counts(hours: &Hours, day: i64) -> bool
    requires { IsBetween (neg_ℤ (pos 50)) (pos 49000) day }
    ensures { IsTrue result ↔ Counts hours.now day }
{
    match hours.week {
        Some(week) => Date::from_unix_epoch_day(day).unwrap().weekday().index() + 1
            == week.start_day,
        None => true,
    }
}

// How many days after the day on which it starts a window ends.
fn days_behind(hours: &Hours) -> u32
    ensures ends { EndsAfter hours.now result }
    ensures bound { result ≤ 7 }
{
    match hours.week {
        Some(week) if week.start_day != week.end_day => {
            u32::from((week.end_day + 7 - week.start_day) % 7)
        }
        Some(_) => days_round(hours, 7),
        None => days_round(hours, 1),
    }
}

// None where EndTime is after StartTime, else this many days.
fn days_round(hours: &Hours, days: u32) -> u32
    ensures none { hours.now.start_time < hours.now.end_time → result ≡ 0 }
    ensures all { hours.now.end_time ≤ hours.now.start_time → result ≡ days }
{
    if hours.start_time < hours.end_time {
        0
    } else {
        days
    }
}
