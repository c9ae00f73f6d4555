//! Where a session gets the time from, and how a thread waits. `fix_rim` reads it.
ghost use Rattle.std.specs.Prelude.{◌≡◌, ℕ, List, Option};
ghost use Rattle.fix_base.specs.Parts.{ClockReads};

/// A clock.
pub trait Clock {
    /// The readings yet to come, where they are told.
    ghost readings: { Self → Option (List ℕ) };

    /// The time, in microseconds since 1970-01-01 00:00:00 UTC.
    fn now(&mut self) -> u64
        ensures moves { ClockReads result (readings self.old) (readings self.new) };

    /// Waits for about so many microseconds. How long that takes isn't claimed, and it takes no reading.
    fn pause(&mut self, micros: u64)
        ensures pauses { readings self.new ≡ readings self.old };
}
