//! Counts calls, and says of each whether it fails. The disk, the files and the sink in memory ask it in each
//! call. The application and the connection in memory of `fix_parts` use it too.
ghost use Rattle.std.specs.Prelude.{◌≡◌, ◌↔◌, ◌⊎◌, ◌+◌, ◌≤◌, false, min, [], Contains, IsTrue, MatchBool};
ghost use Rattle.fix_base.specs.Trace.{LAST_COUNT};
ghost use Rattle.fix_disk.specs.Fuse.{IsBlown, IsStruck};

/// Which calls of a thing in memory fail, and how many did. The versions in memory of disks, sinks
/// and of the parts of an engine are made with one.
#[derive(Debug, Drop)]
pub struct Failing {
    /// The numbers of the calls that fail, from 1 on.
    pub numbers: Vec<u64>,
    /// How many calls there were.
    pub calls: u64,
    /// How many of them failed.
    pub faults: u64,
}

impl Failing {
    /// No call was made yet.
    pub fn new(numbers: Vec<u64>) -> Failing
        ensures { result ≡ record { numbers = numbers; calls = 0; faults = 0 } }
    {
        Failing {
            numbers,
            calls: 0,
            faults: 0,
        }
    }

    pub(crate) fn calls(&self) -> u64
        ensures { result ≡ self.now.calls }
    {
        self.calls
    }

    /// Counts a call, and says whether it fails, which raises the count of faults.
    pub fn strikes(&mut self) -> bool
        ensures numbers { self.new.numbers ≡ self.old.numbers }
        ensures calls { self.new.calls ≡ min (self.old.calls + 1) LAST_COUNT }
        ensures no_fewer { self.old.calls ≤ self.new.calls }
        ensures fails { IsTrue result ↔ Contains self.old.numbers.items (min (self.old.calls + 1) LAST_COUNT) }
        ensures faults { MatchBool result (self.new.faults ≡ min (self.old.faults + 1) LAST_COUNT) (self.new.faults
            ≡ self.old.faults) }
    {
        self.calls = self.calls.saturating_add(1);
        let fails = self.numbers.contains(&self.calls);
        if fails {
            self.fail();
        }
        fails
    }

    // The same, where each call from the number `fuse` on fails too, and one that can't be done.
    pub(crate) fn fails(&mut self, fuse: Option<u64>, can: bool) -> bool
        ensures numbers { self.new.numbers ≡ self.old.numbers }
        ensures calls { self.new.calls ≡ min (self.old.calls + 1) LAST_COUNT }
        ensures no_fewer { self.old.calls ≤ self.new.calls }
        ensures fails { IsTrue result
            ↔ (IsStruck self.old.numbers.items fuse (min (self.old.calls + 1) LAST_COUNT) ⊎ (can ≡ false)) }
        ensures faults { MatchBool result (self.new.faults ≡ min (self.old.faults + 1) LAST_COUNT) (self.new.faults
            ≡ self.old.faults) }
    {
        if self.strikes() {
            return true;
        }
        if is_blown(fuse, self.calls) {
            self.fail();
            return true;
        }
        if !can {
            self.fail();
        }
        !can
    }

    /// Raises the count of faults, which stays at its last value.
    pub fn fail(&mut self)
        ensures { self.new ≡ record self.old { faults = min (self.old.faults + 1) LAST_COUNT } }
    {
        self.faults = self.faults.saturating_add(1);
    }
}

// Whether a call is the one from which on all fail, or a later one.
fn is_blown(fuse: Option<u64>, call: u64) -> bool
    ensures { IsTrue result ↔ IsBlown fuse call }
{
    match fuse {
        Some(first) => first <= call,
        None => false,
    }
}
