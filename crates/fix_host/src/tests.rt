//! That a slot has one connection at a time, and that a thread answers or couldn't be started.
ghost use Rattle.std.specs.Prelude.{◌≡◌, ◌+◌, MatchOption};
ghost use Rattle.fix_base.specs.Trace.{Rises};

use crate::{FailingSpawner, LinkSlot, SlotState, Spawner, ThreadSpawner};
use std::thread::{Promise, Threads};

#[test]
fn a_state_holds_one(rt: HostRuntime) {
    let mut slot = SlotState::Free;
    assert_eq!(rt; slot.take(), None);
    assert_eq!(rt; slot.offer(7u32), Ok(()));
    assert_eq!(rt; slot.offer(8), Err(8));
    assert_eq!(rt; slot.take(), Some(7));
    assert_eq!(rt; slot.take(), None);
    assert_eq!(rt; slot.offer(8), Err(8));
    slot.free();
    assert_eq!(rt; slot.offer(8), Ok(()));
    slot.free();
    assert_eq!(rt; slot.take(), Some(8));
}

#[test]
fn a_slot_holds_one(rt: HostRuntime) {
    let slot = LinkSlot::new();
    assert_eq!(rt; slot.take(&rt), None);
    assert_eq!(rt; slot.offer(&rt, 7u32), Ok(()));
    assert_eq!(rt; slot.offer(&rt, 8), Err(8));
    assert_eq!(rt; slot.take(&rt), Some(7));
    assert_eq!(rt; slot.take(&rt), None);
    assert_eq!(rt; slot.offer(&rt, 8), Err(8));
    slot.free(&rt);
    assert_eq!(rt; slot.offer(&rt, 8), Ok(()));
    slot.free(&rt);
    assert_eq!(rt; slot.take(&rt), Some(8));
}

// The double of a number is promised.
#[derive(Clone, Copy, Debug)]
struct TwiceOf(u32);

impl Promise<u64> for TwiceOf {
    ghost use Rattle.std.specs.Prelude.{◌≡◌, ◌+◌};

    ghost kept_by = { λ p r. r ≡ p.0 + p.0 };
}

// What a thread answers. None is that it couldn't be started.
fn twice_there<S: Spawner, R: Threads>(rt: &R, spawner: &mut S, x: u32) -> Option<u64>
    ensures { MatchOption result (Rises 1 (S.faults spawner.old) (S.faults spawner.new)) (λ n. n ≡ x + x) }
{
    let child = spawner
        .start(rt, TwiceOf(x), move || u64::from(x) + u64::from(x))
        .ok()?;
    Some(child.join(rt))
}

#[test]
fn a_thread_answers(rt: HostRuntime) {
    let mut spawner = ThreadSpawner::new();
    assert_eq!(rt; twice_there(&rt, &mut spawner, 21), Some(42));
}

#[test]
fn a_listed_start_fails(rt: HostRuntime) {
    let Ok(list) = Vec::from_array(rt.alloc(), [2u64]) else {
        panic!(rt; "ample memory");
    };
    let mut spawner = FailingSpawner::new(list);
    let first = twice_there(&rt, &mut spawner, 1);
    let second = twice_there(&rt, &mut spawner, 2);
    let third = twice_there(&rt, &mut spawner, 3);
    assert_eq!(rt; (first, second, third), (Some(2), None, Some(6)));
    assert_eq!(rt; spawner.faults(), 1);
}
