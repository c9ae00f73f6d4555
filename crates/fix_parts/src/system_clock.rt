//! A clock that asks the runtime for the time. `fixacceptor` runs with it.
ghost use Rattle.std.specs.Prelude.{◌≡◌, ◌<◌, ◌^◌, ◌/◌, ◌≤◌, IfOk, OnErr};
ghost use Rattle.std.specs.Duration.{as_nanos};

use crate::Clock;
use std::time::Duration;
use std::{io, rt, thread};

/// The system's clock: microseconds since 1970-01-01 00:00:00 UTC. Where it can't be read or
/// stands before 1970, the last reading is given again, at first 0.
#[derive(Drop)]
pub struct SystemClock<R> {
    rt: R,
    last: u64,
}

impl<R: rt::Clock> SystemClock<R> {
    ghost use Rattle.fix_parts.specs.Adapters.{last_reading};

    /// The clock of the runtime.
    pub fn new(rt: R) -> SystemClock<R>
        ensures { last_reading result ≡ 0 }
    {
        SystemClock { rt, last: 0 }
    }
}

impl<R: rt::Clock> Clock for SystemClock<R> {
    ghost use Rattle.std.specs.Prelude.{◌≡◌, ℕ, List, Option, None};
    ghost use Rattle.fix_parts.specs.Adapters.{last_reading};
    ghost use Rattle.fix_base.specs.Parts.{ClockReads};

    ghost readings = { λ c. None };

    fn now(&mut self) -> u64
        ensures moves { ClockReads result None None }
        ensures last { last_reading self.new ≡ result }
    {
        self.last = micros_or(self.rt.since_1970(), self.last);
        self.last
    }

    // The thread sleeps.
    fn pause(&mut self, micros: u64)
        ensures pauses { ◌≡◌ {A = Option (List ℕ)} None None }
        ensures last { last_reading self.new ≡ last_reading self.old }
    {
        thread::sleep(&self.rt, Duration::from_micros(micros));
    }
}

// The microseconds of the duration, or else the last reading.
fn micros_or(read: io::Result<Duration>, last: u64) -> u64
    ensures ok { IfOk read (λ time. as_nanos time / 1000 < 2 ^ 64 → result ≡ as_nanos time / 1000) }
    ensures late { IfOk read (λ time. 2 ^ 64 ≤ as_nanos time / 1000 → result ≡ last) }
    ensures err { OnErr read (result ≡ last) }
{
    match read {
        Ok(time) => u64::try_from(time.as_micros()).unwrap_or(last),
        Err(_) => last,
    }
}
