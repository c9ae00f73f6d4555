//! The place for one session's connection, for one thread and for several. Who accepts a connection offers it
//! here, and the thread of the session takes it.
ghost use Rattle.std.specs.Prelude.{◌≡◌, IfErr};
ghost use Rattle.fix_host.specs.Slot.{Offers, Takes, freed};

use std::mem;
use std::sync::{Mutex, Wait};

/// Where a connection waits for the thread of its session.
#[derive(Drop)]
pub enum SlotState<L> {
    /// No connection is here, and none is served.
    Free,
    /// This one waits.
    Offered(L),
    /// One is served.
    Busy,
}

impl<L: Drop> SlotState<L> {
    /// Leaves a connection where the slot is free. Else the slot stays as it is, and the connection comes back.
    pub fn offer(&mut self, link: L) -> Result<(), L>
        ensures { Offers link result self.old self.new }
    {
        match self {
            SlotState::Free => {
                *self = SlotState::Offered(link);
                Ok(())
            }
            SlotState::Offered(_) | SlotState::Busy => Err(link),
        }
    }

    /// The connection that waits. The slot is busy from then on, until `free`.
    pub fn take(&mut self) -> Option<L>
        ensures { Takes result self.old self.new }
    {
        match mem::replace(self, SlotState::Busy) {
            SlotState::Offered(link) => Some(link),
            SlotState::Free => {
                *self = SlotState::Free;
                None
            }
            SlotState::Busy => None,
        }
    }

    /// The connection that was served is gone. A connection that waits stays.
    pub fn free(&mut self)
        ensures { self.new ≡ freed self.old }
    {
        if let SlotState::Busy = self {
            *self = SlotState::Free;
        }
    }
}

/// A slot that threads share. Each call is the one of `SlotState` of its name, under the lock.
#[derive(Drop)]
pub struct LinkSlot<L> {
    state: Mutex<SlotState<L>>,
}

impl<L: Drop> LinkSlot<L> {
    /// A free slot.
    pub fn new() -> LinkSlot<L> {
        LinkSlot {
            state: Mutex::new(SlotState::Free),
        }
    }

    /// Leaves a connection where the slot is free, or gives it back.
    pub fn offer<R: Wait>(&self, rt: &R, link: L) -> Result<(), L>
        ensures back { IfErr result (λ refused. refused ≡ link) }
    {
        self.state.lock(rt).offer(link)
    }

    /// The connection that waits.
    pub fn take<R: Wait>(&self, rt: &R) -> Option<L> {
        self.state.lock(rt).take()
    }

    /// The connection that was served is gone.
    pub fn free<R: Wait>(&self, rt: &R) {
        self.state.lock(rt).free();
    }
}
