//! The calls of this crate, for who asks whether a session may be connected. `Schedule::window` runs the stage
//! `search`.
ghost use Rattle.std.specs.Prelude.{◌≡◌, ℕ, ◌≤◌, ◌↔◌, IsTrue, IsOk, IfOk, IfErr, IfSome, IsNone, Some, option_map};
ghost use Rattle.fix_base.specs.Payload.{LAST_TIME};
ghost use Rattle.fix_settings.specs.Lawful.{AreValid};
ghost use Rattle.fix_schedule.specs.Read.{IsScheduleOf, IsNoRule, IsRuleOf};
ghost use Rattle.fix_schedule.specs.Window.{IsWindow, HasNoWindow, AreInOne};

use crate::fault::ScheduleFault;
use crate::hours::{Hours, Week};
use crate::search::window_of;
use fix_base::Bytes;
use fix_settings::SessionSettings;
use jiff_tz::posix;
use std::marker::Model;

/// When a session may be connected. Contracts see it as its hours, or None where the settings have no
/// StartTime and any time will do.
#[derive(Debug, Drop)]
pub struct Schedule {
    hours: Option<Hours>,
}

impl Model for Schedule {
    ghost use Rattle.std.specs.Prelude.{Option};
    ghost use Rattle.fix_schedule.specs.declared.hours.Hours.{Hours as TheHours};

    ghost Value = { Option TheHours };

    ghost view = { λ s. s.hours };
}

impl Schedule {
    /// The schedule of lawful settings: StartTime, EndTime, StartDay, EndDay and ZoneRule. BadRule
    /// comes just where ZoneRule is no rule as POSIX writes it, also where there is no StartTime.
    /// It takes no memory, so OutOfMemory doesn't come.
    pub fn read(settings: &SessionSettings) -> Result<Schedule, ScheduleFault>
        requires { AreValid settings.now }
        ensures succeeds { IsOk result ↔ (IsNoRule settings.now.zone_rule → ⊥) }
        ensures ok { IfOk result (λ schedule. IsScheduleOf settings.now schedule) }
        ensures err { IfErr result (λ fault. fault ≡ ScheduleFault.BadRule) }
    {
        let rule = rule_in(&settings.zone_rule)?;
        let (Some(start_time), Some(end_time)) = (settings.start_time, settings.end_time) else {
            return Ok(Schedule { hours: None });
        };
        let week = week_in(settings);
        Ok(Schedule {
            hours: Some(Hours {
                rule,
                start_time,
                end_time,
                week,
            }),
        })
    }

    /// The window of a time, in microseconds since 1970-01-01 00:00:00 UTC: when it starts and when it
    /// ends, both times in it; None where the time lies in no window. It is that of the latest civil
    /// day whose start isn't after the time and whose end isn't before it. A start before 1970
    /// is given as 0. Without StartTime it is (0, `u64::MAX`). A reading above the last time is the
    /// caller's to cap. It takes no memory.
    pub fn window(&self, micros: u64) -> Option<(u64, u64)>
        requires { micros ≤ LAST_TIME }
        ensures known { IfSome result (λ window. IsWindow self.now micros window) }
        ensures each { (window : ℕ × ℕ) → IsWindow self.now micros window → result ≡ Some window }
        ensures none { IsNone result → HasNoWindow self.now micros }
    {
        match &self.hours {
            Some(hours) => window_of(hours, micros),
            None => Some((0, u64::MAX)),
        }
    }

    /// Whether both times have a window, and these start at the same time.
    pub fn same(&self, a: u64, b: u64) -> bool
        requires a_in { a ≤ LAST_TIME }
        requires b_in { b ≤ LAST_TIME }
        ensures { IsTrue result ↔ AreInOne self.now a b }
    {
        match (self.window(a), self.window(b)) {
            (Some(first), Some(second)) => first.0 == second.0,
            _ => false,
        }
    }
}

// The rule that the text says.
fn rule_in(text: &Option<Bytes>) -> Result<Option<posix::TimeZone>, ScheduleFault>
    ensures succeeds { IsOk result ↔ (IsNoRule text.now → ⊥) }
    ensures ok { IfOk result (λ rule. IsRuleOf text.now rule) }
    ensures err { IfErr result (λ fault. fault ≡ ScheduleFault.BadRule) }
{
    let Some(text) = text else {
        return Ok(None);
    };
    match posix::TimeZone::parse(text.as_slice()) {
        Ok(rule) => Ok(Some(rule)),
        Err(_) => Err(ScheduleFault::BadRule),
    }
}

// StartDay and EndDay, which stand beside each other.
fn week_in(settings: &SessionSettings) -> Option<Week>
    requires { AreValid settings.now }
    ensures start { settings.now.start_day ≡ option_map (λ week. week.start_day) result }
    ensures end { settings.now.end_day ≡ option_map (λ week. week.end_day) result }
{
    let (Some(start_day), Some(end_day)) = (settings.start_day, settings.end_day) else {
        return None;
    };
    Some(Week { start_day, end_day })
}
