//! A clock for tests and samples. Its readings are told to it beforehand.
ghost use Rattle.std.specs.Prelude.{◌≡◌, ◌<◌, vec_len};

use crate::Clock;

/// A clock in memory, which gives the readings that it was made with and stays at the last.
#[derive(Debug, Drop)]
pub struct MemoryClock {
    readings: Vec<u64>,
    at: usize,
    ghost some: { at < vec_len readings },
}

impl MemoryClock {
    ghost use Rattle.fix_parts.specs.Memory.{readings_of};

    /// A clock with these readings, of which there is at least one.
    pub fn new(readings: Vec<u64>) -> MemoryClock
        requires { 0 < vec_len readings }
        ensures { readings_of result ≡ readings.items }
    {
        MemoryClock { readings, at: 0 }
    }
}

impl Clock for MemoryClock {
    ghost use Rattle.std.specs.Prelude.{◌≡◌, Some};
    ghost use Rattle.fix_parts.specs.Memory.{readings_of};

    ghost readings = { λ c. Some (readings_of c) };

    fn now(&mut self) -> u64 {
        let time = self.readings[self.at];
        if self.readings.len() - self.at > 1 {
            self.at += 1;
        }
        time
    }

    // At once.
    fn pause(&mut self, _micros: u64)
        ensures pauses { Some (readings_of self.new) ≡ Some (readings_of self.old) }
        ensures stays { self.new ≡ self.old }
    {}
}
