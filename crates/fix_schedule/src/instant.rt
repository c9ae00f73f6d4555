//! The instant at which a civil time counts.
ghost use Rattle.std.specs.Prelude.{◌≡◌, ◌<◌, pos, neg_ℤ};
ghost use Rattle.jiff_core.specs.Calendar.{IsBetween};
ghost use Rattle.fix_schedule.specs.Zone.{offsets_in, IsInstant};

use jiff_core::Offset;
use jiff_core::civil::{Date, DateTime, Time};
use jiff_tz::{AmbiguousOffset, AmbiguousTimestamp, Disambiguation, posix};

/// The instant, in microseconds since 1970-01-01 00:00:00 UTC, at which a zone's clock shows this
/// many seconds after the midnight that begins a civil day. A time that the clock jumps over is
/// moved forward by the jump's length; of two instants the earlier counts.
pub fn instant_of(rule: &Option<posix::TimeZone>, day: i64, second: u32) -> i64
    requires day_in { IsBetween (neg_ℤ (pos 100)) (pos 50000) day }
    requires second_in { second < 86400 }
    ensures { IsInstant rule.now day second result }
{
    let date = Date::from_unix_epoch_day(day).unwrap();
    let dt = DateTime {
        date,
        time: Time::from_second(second, 0),
    };
    let offset = offsets_of(rule, dt);
    let choice = AmbiguousTimestamp { dt, offset };
    // the offset before a change: it moves a skipped time forward, and is the earlier of two instants
    let instant = choice.disambiguate(Disambiguation::Compatible).unwrap();
    instant.floor_second() * 1_000_000
}

// The offsets of a civil time by the rule, or that of UTC.
fn offsets_of(rule: &Option<posix::TimeZone>, dt: DateTime) -> AmbiguousOffset
    ensures { result ≡ offsets_in rule.now dt }
{
    match rule {
        Some(rule) => rule.to_ambiguous_offset(dt),
        None => AmbiguousOffset::Unambiguous {
            offset: Offset::UTC,
        },
    }
}
