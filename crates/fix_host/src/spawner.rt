//! Starts threads, and counts those that couldn't be started. A host has its spawner from its `World`.
ghost use Rattle.std.specs.Prelude.{◌≡◌, ℕ, MatchBool, MatchResult};
ghost use Rattle.fix_base.specs.Trace.{Rises};
ghost use Rattle.fix_host.specs.Starts.{thread_faults, failing_faults};

use std::thread;
use std::thread::{Promise, PromisedHandle, Threads};

/// What starts threads, and counts the starts that failed. An implementor says only whether a thread may be
/// started;
/// `start` is the same for all.
pub trait Spawner {
    /// How often a thread couldn't be started.
    ghost faults: { Self → ℕ };

    /// Whether a thread may be started now. False counts as a fault.
    fn admits(&mut self) -> bool
        ensures { MatchBool result (Rises 0 (faults self.old) (faults self.new))
            (Rises 1 (faults self.old) (faults self.new)) };

    /// Counts a thread that the system didn't have.
    fn refused(&mut self)
        ensures { Rises 1 (faults self.old) (faults self.new) };

    /// Starts the job in a thread, or gives it back. What the job answers keeps the promise, and the join of the
    /// handle hands it on.
    final fn start<
        R: Threads,
        T: Send + Drop + 'static,
        P: Promise<T> + Drop,
        J: FnOnce() -> T + Send + 'static,
    >(&mut self, rt: &R, promise: P, job: J) -> Result<PromisedHandle<T, P>, J>
    where
        Self: Sized,
        requires runs { J.pre job }
        requires keeps { (r : T) → J.post job r → P.kept_by promise r }
        ensures started { MatchResult result
            (λ h. (h.promise ≡ promise) × Rises 0 (faults self.old) (faults self.new))
            (λ j. (j ≡ job) × Rises 1 (faults self.old) (faults self.new)) }
    {
        if !self.admits() {
            return Err(job);
        }
        match thread::spawn_with(rt, promise, job) {
            Ok(handle) => Ok(handle),
            Err(refused) => {
                self.refused();
                Err(refused.value)
            }
        }
    }
}

/// Threads of the system.
#[derive(Drop)]
pub struct ThreadSpawner {
    faults: u64,
}

impl ThreadSpawner {
    /// One that started none yet.
    pub fn new() -> ThreadSpawner
        ensures { thread_faults result ≡ 0 }
    {
        ThreadSpawner { faults: 0 }
    }
}

impl Spawner for ThreadSpawner {
    ghost use Rattle.fix_host.specs.Starts.{thread_faults};

    ghost faults = { thread_faults };

    fn admits(&mut self) -> bool {
        true
    }

    fn refused(&mut self) {
        self.faults = self.faults.saturating_add(1);
    }
}

/// Threads of the system, for tests: the starts whose numbers are listed, from 1, fail.
#[derive(Drop)]
pub struct FailingSpawner {
    fail: Vec<u64>,
    starts: u64,
    faults: u64,
}

impl FailingSpawner {
    /// The starts with these numbers fail.
    pub fn new(fail: Vec<u64>) -> FailingSpawner
        ensures { failing_faults result ≡ 0 }
    {
        FailingSpawner {
            fail,
            starts: 0,
            faults: 0,
        }
    }

    /// How often a thread couldn't be started.
    pub fn faults(&self) -> u64
        ensures { result ≡ failing_faults self.now }
    {
        self.faults
    }
}

impl Spawner for FailingSpawner {
    ghost use Rattle.fix_host.specs.Starts.{failing_faults};

    ghost faults = { failing_faults };

    fn admits(&mut self) -> bool {
        self.starts = self.starts.saturating_add(1);
        if self.fail.contains(&self.starts) {
            self.faults = self.faults.saturating_add(1);
            return false;
        }
        true
    }

    fn refused(&mut self) {
        self.faults = self.faults.saturating_add(1);
    }
}

/// Nothing is promised of what a job answers.
#[derive(Clone, Copy, Debug)]
pub struct Anything;

impl<T> Promise<T> for Anything {
    ghost use Rattle.std.specs.Prelude.{⊤};

    ghost kept_by = { λ _ _. ⊤ };
}
