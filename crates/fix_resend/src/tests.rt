//! What answers a ResendRequest, as a table, and a walk over the greatest number. Also when a stash is full, by
//! frames and by bytes.
use crate::{Out, Stash, StashFault, Walk, plan};
use fix_base::SeqNum;
use std::alloc::Global;

// For each message whether it comes again, BeginSeqNo (7), EndSeqNo (16), and what goes out.
static LISTS: [(&[bool], u32, u32, &[Out]); 7] = [
    (
        &[false, true, false, false],
        1,
        4,
        &[
            Out::Gap { from: 1, next: 2 },
            Out::Repeat(2),
            Out::Gap { from: 3, next: 5 },
        ],
    ),
    (&[false], 1, 1, &[Out::Gap { from: 1, next: 2 }]),
    (&[true], 1, 1, &[Out::Repeat(1)]),
    (
        &[true, true, true],
        1,
        3,
        &[Out::Repeat(1), Out::Repeat(2), Out::Repeat(3)],
    ),
    (
        &[false, false, false],
        1,
        3,
        &[Out::Gap { from: 1, next: 4 }],
    ),
    (
        &[false, true, false, false, true],
        3,
        4,
        &[Out::Gap { from: 3, next: 5 }],
    ),
    (
        &[true, false, false],
        1,
        3,
        &[Out::Repeat(1), Out::Gap { from: 2, next: 4 }],
    ),
];

// Whether this is what the request brings.
fn brings(alloc: Global, apps: &[bool], from: u32, to: u32, wanted: &[Out]) -> bool {
    if from < 1 || to < from || to > 999_999_999 || to as usize > apps.len() {
        return false;
    }
    match plan(alloc, apps, from, to) {
        Ok(outs) => outs.as_slice() == wanted,
        Err(_) => false,
    }
}

#[test]
fn requests_are_answered(rt: HostRuntime) {
    for (apps, from, to, wanted) in &LISTS {
        assert!(rt; brings(rt.alloc(), apps, *from, *to, wanted));
    }
}

#[test]
fn a_walk_over_the_greatest_number(rt: HostRuntime) {
    let mut walk = Walk::new(999_999_999, 999_999_999);
    assert!(rt; walk.at() == Some(999_999_999));
    let (gap, repeat) = walk.step(false);
    let wanted = Out::Gap {
        from: 999_999_999,
        next: 1_000_000_000,
    };
    assert!(rt; gap == Some(wanted) && repeat == None && walk.at() == None);
}

// Keeps a frame of one byte, its number's lowest.
fn keep(alloc: Global, stash: &mut Stash, n: u32) -> Option<Result<bool, StashFault>> {
    let number = SeqNum::new(n)?;
    Some(stash.keep(alloc, number, &[(n % 256) as u8]))
}

// Whether the frame with this number waited, and was its own.
fn takes(stash: &mut Stash, n: u32) -> bool {
    let Some(number) = SeqNum::new(n) else {
        return false;
    };
    let Some(frame) = stash.take(number) else {
        return false;
    };
    frame.as_slice() == [(n % 256) as u8].as_slice()
}

// A stash in which the frames 2 to 1,025 wait.
fn filled(alloc: Global) -> Option<Stash> {
    let mut stash = Stash::new(alloc).ok()?;
    for n in 2..1026 {
        if keep(alloc, &mut stash, n)? != Ok(true) {
            return None;
        }
    }
    Some(stash)
}

#[test]
fn a_full_stash(rt: HostRuntime) {
    let Some(mut stash) = filled(rt.alloc()) else {
        panic!(rt; "1,024 frames");
    };
    assert!(rt; keep(rt.alloc(), &mut stash, 1026) == Some(Err(StashFault::Full)));
    assert!(rt; keep(rt.alloc(), &mut stash, 1025) == Some(Ok(false)));
    assert!(rt; stash.full(0));
    assert!(rt; takes(&mut stash, 700) && !takes(&mut stash, 700));
    assert!(rt; keep(rt.alloc(), &mut stash, 1026) == Some(Ok(true)));
    stash.drop_below(1025);
    assert!(rt; !takes(&mut stash, 1024) && takes(&mut stash, 1025) && takes(&mut stash, 1026));
}

// What becomes of a second frame, where one of 16,777,215 bytes waits.
fn second(alloc: Global, length: usize) -> Option<Result<bool, StashFault>> {
    let mut stash = Stash::new(alloc).ok()?;
    let frame = vec![in alloc; 0u8; 16_777_215].ok()?;
    if stash.keep(alloc, SeqNum::new(3)?, &frame) != Ok(true) {
        return None;
    }
    let more: &[u8] = &[0, 0];
    if length > more.len() {
        return None;
    }
    Some(stash.keep(alloc, SeqNum::new(2)?, &more[..length]))
}

#[test]
fn the_most_bytes(rt: HostRuntime) {
    assert!(rt; second(rt.alloc(), 1) == Some(Ok(true)));
    assert!(rt; second(rt.alloc(), 2) == Some(Err(StashFault::Full)));
}
