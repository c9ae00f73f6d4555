//! The hours of a session that has a StartTime.
ghost use Rattle.std.specs.Prelude.{◌<◌, ◌≤◌};

use jiff_tz::posix;

/// The days of a week on which windows start and end, from 1 for Monday to 7 for Sunday.
#[derive(Clone, Copy, Debug)]
pub struct Week {
    /// StartDay.
    pub start_day: u8,
    /// EndDay.
    pub end_day: u8,
    pub ghost start_from: { 1 ≤ start_day },
    pub ghost start_to: { start_day ≤ 7 },
    pub ghost end_from: { 1 ≤ end_day },
    pub ghost end_to: { end_day ≤ 7 },
}

/// When windows open and close.
#[derive(Clone, Copy, Debug)]
pub struct Hours {
    /// ZoneRule, by whose clock the times are meant; None for UTC.
    pub rule: Option<posix::TimeZone>,
    /// StartTime, in seconds after midnight.
    pub start_time: u32,
    /// EndTime, in seconds after midnight.
    pub end_time: u32,
    /// StartDay and EndDay; None where a window starts on each day.
    pub week: Option<Week>,
    pub ghost start_in: { start_time < 86400 },
    pub ghost end_in: { end_time < 86400 },
}
