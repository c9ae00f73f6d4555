//! Goes over the numbers of a ResendRequest in order, and says at each what goes out. `list` calls this.
ghost use Rattle.std.specs.Prelude.{◌≡◌, ◌≤◌};
ghost use Rattle.std.specs.Option.{SomeIff};
ghost use Rattle.fix_resend.specs.Walks.{begun, Steps, gap_of};

use crate::Out;
use std::marker::Model;

/// A walk over the numbers of a ResendRequest (35=2), which takes no memory. It's given for each number whether its
/// message comes again, and gives what goes out. Contracts see it as `WalkSeen`.
#[derive(Clone, Copy, Debug, PartialEq, Eq)]
pub struct Walk {
    // the numbers from here on, up to `at`, are still to be passed over
    open_from: u32,
    at: u32,
    to: u32,
}

impl Model for Walk {
    ghost use Rattle.std.specs.Prelude.{◌≤◌, suc};
    ghost use Rattle.fix_resend.specs.Walks.{WalkSeen};

    ghost Value = { WalkSeen };

    ghost view = { λ w. record { open_from = w.open_from; at = w.at; to = w.to } };

    ghost invariant = { λ w. (1 ≤ w.open_from) × (w.open_from ≤ w.at) × (w.at ≤ suc w.to) × (w.to ≤ 999999999) };

    ghost inverse = { λ w. record { open_from = w.open_from; at = w.at; to = w.to } };
}

impl Walk {
    /// A walk over the numbers from BeginSeqNo (7) to EndSeqNo (16), both included. They're from 1 to 999,999,999.
    pub fn new(from: u32, to: u32) -> Walk
        requires first { 1 ≤ from }
        requires some { from ≤ to }
        requires last { to ≤ 999999999 }
        ensures { result ≡ begun from to }
    {
        Walk {
            open_from: from,
            at: from,
            to,
        }
    }

    /// The number that the next step is about, or None where there is no further one.
    pub fn at(&self) -> Option<u32>
        ensures { SomeIff result (self.now.at ≤ self.now.to) self.now.at }
    {
        if self.at <= self.to {
            Some(self.at)
        } else {
            None
        }
    }

    /// Goes on by one number. `app` says whether its message comes again. What goes out now: a gap fill, and after
    /// it the repeat of this number.
    pub fn step(&mut self, app: bool) -> (Option<Out>, Option<Out>)
        requires { self.old.at ≤ self.old.to }
        ensures { Steps self.old app result self.new }
    {
        let number = self.at;
        let from = self.open_from;
        self.at = number + 1;
        if app {
            self.open_from = number + 1;
            return (gap_fill(from, number), Some(Out::Repeat(number)));
        }
        if number < self.to {
            return (None, None);
        }
        self.open_from = number + 1;
        (gap_fill(from, number + 1), None)
    }
}

// The gap fill over the numbers from one up to another, if there are any.
fn gap_fill(from: u32, next: u32) -> Option<Out>
    requires { from ≤ next }
    ensures { result ≡ gap_of from next }
{
    if from < next {
        Some(Out::Gap { from, next })
    } else {
        None
    }
}
