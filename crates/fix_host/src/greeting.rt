//! Greets a connection: reads it up to its first frame, within so many bytes, turns and seconds, and says for which
//! session that frame is. `accept` hands the connection to that session, which reads these bytes again.
ghost use Rattle.std.specs.Prelude.{◌≡◌, ◌<◌, ◌≤◌, ◌-◌, ◌*◌, List, ℕ, MatchBool, IfOk, vec_len, length, min};
ghost use Rattle.fix_outside.specs.declared.connection.ReadTurn.{ReadTurn};
ghost use Rattle.fix_host.specs.Held.{ahead_of, inner_of};
ghost use Rattle.fix_host.specs.Looking.{IsLookedTo};
ghost use Rattle.fix_host.specs.Greet.{Greets, IsUndecided, IsOpen, IsEarly};
ghost use Rattle.fix_host.specs.Steps.{Judges, ComesTo, turn_of, TakesStep};

use crate::Held;
use crate::known::{Greeted, recognise};
use crate::looking::{Looked, look};
use fix_base::{Identity, OutOfMemory};
use fix_parts::{Clock, Link, ReadTurn};
use std::alloc::Global;

/// The longest frame: a BodyLength of 1,048,576 and its head and trailer.
const MOST_BYTES: usize = 1_048_612;

/// A read takes at most so many bytes.
const MOST_AT_ONCE: usize = 65_536;

/// What a step of a greeting came to.
#[derive(Clone, Copy)]
pub(crate) enum Step {
    /// It is over.
    Ends(Greeted),
    /// It goes on. No frame stands before this place of the bytes ahead.
    GoesOn(usize),
}

/// Reads the connection until its first frame, and says for which of the sessions it is. It reads the clock, and again
/// after each read. All bytes that were read stay ahead: what reads the connection next has them first. Bytes that
/// were ahead before the call are the first of the connection's bytes, and take no turn.
pub fn greet<L: Link, C: Clock>(
    alloc: Global,
    link: &mut Held<L>,
    clock: &mut C,
    known: &[Identity],
    seconds: u64,
    turns: u64,
) -> Greeted
    ensures { Greets known.now seconds turns result (ahead_of link.old) (ahead_of link.new) (L.link (inner_of link.old))
        (L.link (inner_of link.new)) (C.readings clock.old) (C.readings clock.new) }
{
    let since = clock.now();
    let mut from = match judge(link.ahead(), 0, known) {
        Step::Ends(answer) => return answer,
        Step::GoesOn(place) => place,
    };
    let Ok(mut room) = room_of(alloc, MOST_AT_ONCE) else {
        return Greeted::OutOfMemory;
    };
    for taken in 0..turns {
        match take_step(link, clock, &mut room, from, known, seconds, since) {
            Step::Ends(answer) => return answer,
            Step::GoesOn(place) => from = place,
        }
    }
    Greeted::TurnsSpent
}

// Room for so many bytes.
fn room_of(alloc: Global, count: usize) -> Result<Vec<u8>, OutOfMemory>
    ensures { IfOk result (λ room. vec_len room ≡ count) }
{
    Ok(Vec::from_elem(alloc, 0u8, count)?)
}

// One read and one reading of the clock, and what they come to.
fn take_step<L: Link, C: Clock>(
    link: &mut Held<L>,
    clock: &mut C,
    room: &mut [u8],
    from: usize,
    known: &[Identity],
    seconds: u64,
    since: u64,
) -> Step
    requires undecided { IsUndecided (ahead_of link.old) }
    requires looked { IsLookedTo (ahead_of link.old) from }
    requires room { length room.old ≡ 65536 }
    ensures step { TakesStep known.now seconds since (ahead_of link.old) (ahead_of link.new) (L.link (inner_of link.old))
        (L.link (inner_of link.new)) (C.readings clock.old) (C.readings clock.new) result }
    ensures same_room { length room.new ≡ 65536 }
{
    let most = room_for(link.ahead().len());
    if link.reserve(most).is_err() {
        return Step::Ends(Greeted::OutOfMemory);
    }
    let turn = link.read_ahead(&mut room[..most]);
    let now = clock.now();
    outcome(turn, now, link.ahead(), from, known, seconds, since)
}

// How many bytes a read may give after so many.
fn room_for(held: usize) -> usize
    requires { held < 1048612 }
    ensures some { 0 < result }
    ensures most { result ≤ min 65536 (1048612 - held) }
{
    (MOST_BYTES - held).min(MOST_AT_ONCE)
}

// What a turn comes to, by its read, the clock after it, and the bytes up to its end.
fn outcome(
    turn: ReadTurn,
    now: u64,
    bytes: &[u8],
    from: usize,
    known: &[Identity],
    seconds: u64,
    since: u64,
) -> Step
    requires { IsLookedTo bytes.now from }
    ensures { (given : List ℕ) → ComesTo known.now seconds since bytes.now (turn_of turn given now) result }
{
    match turn {
        ReadTurn::Bytes(_) => judge_in_time(bytes, from, known, seconds, since, now),
        ReadTurn::Idle => judge_in_time(bytes, from, known, seconds, since, now),
        ReadTurn::End => Step::Ends(Greeted::Ended),
        ReadTurn::Failed => Step::Ends(Greeted::LinkFault),
        ReadTurn::OutOfMemory => Step::Ends(Greeted::OutOfMemory),
    }
}

// What the bytes decide. Where they decide nothing it is late once so many seconds have gone.
fn judge_in_time(
    bytes: &[u8],
    from: usize,
    known: &[Identity],
    seconds: u64,
    since: u64,
    now: u64,
) -> Step
    requires { IsLookedTo bytes.now from }
    ensures { (read : ReadTurn) (given : List ℕ) → IsOpen read
        → ComesTo known.now seconds since bytes.now (turn_of read given now) result }
{
    match judge(bytes, from, known) {
        Step::Ends(answer) => Step::Ends(answer),
        Step::GoesOn(place) => {
            if is_late(seconds, since, now) {
                Step::Ends(Greeted::Late { since, now })
            } else {
                Step::GoesOn(place)
            }
        }
    }
}

// Whether so many seconds have gone.
fn is_late(seconds: u64, since: u64, now: u64) -> bool
    ensures { MatchBool result (seconds * 1000000 ≤ now - since) (IsEarly seconds since now) }
{
    now.saturating_sub(since) / 1_000_000 >= seconds
}

// What the bytes decide.
fn judge(bytes: &[u8], from: usize, known: &[Identity]) -> Step
    requires { IsLookedTo bytes.now from }
    ensures { Judges known.now bytes.now result }
{
    match look(bytes, from) {
        Looked::Frame(start, end) => Step::Ends(recognise(&bytes[start..end], known)),
        Looked::Nothing(place) => {
            if bytes.len() < MOST_BYTES {
                Step::GoesOn(place)
            } else {
                Step::Ends(Greeted::NotFrame)
            }
        }
    }
}
