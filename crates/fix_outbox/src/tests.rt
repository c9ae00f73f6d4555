//! Two senders and one taker at once, and posts into an outbox that is full and then closed.
ghost use Rattle.std.specs.Prelude.{◌≡◌, ◌+◌, ◌<◌, All, length, vec_capacity};
ghost use Rattle.fix_outbox.specs.Passes.{IsSenderOf, IsTakerOf, count_of};

use crate::{Outbox, PostFault, SenderPass, TakerPass, settle};
use fix_base::Tag;
use fix_fields::{Draft, DraftFields};
use std::alloc::Global;
use std::sync::Wait;
use std::thread;
use std::thread::Threads;

const CAPACITY: usize = 16;

const EACH: u32 = 1000;

// An order whose ClOrdID (11) is this number, of four digits.
fn order(alloc: Global, number: u32) -> Option<Draft> {
    let digit = |place: u32| b'0' + (number / place % 10) as u8;
    let id = [digit(1000), digit(100), digit(10), digit(1)];
    let mut fields = DraftFields::new(alloc);
    fields.push(Tag::new(11)?, &id).ok()?;
    Draft::new(alloc, b"D", &fields).ok()
}

// The number of an order that `order` made.
fn number_of(draft: &Draft) -> Option<u32> {
    match draft.rest() {
        [b'1', b'1', b'=', a, b, c, d, 1] => {
            let digit = |byte: &u8| u32::from(byte.wrapping_sub(b'0'));
            Some(digit(a) * 1000 + digit(b) * 100 + digit(c) * 10 + digit(d))
        }
        _ => None,
    }
}

// Posts a draft, again after each `Full`, and says whether it went.
fn post_one<R: Wait>(rt: &R, outbox: &Outbox, pass: &mut SenderPass, draft: Draft) -> bool
    requires { IsSenderOf outbox.now pass.old }
    ensures { IsSenderOf outbox.now pass.new }
{
    let mut next = draft;
    for _ in rt.forever() {
        match outbox.post(rt, pass, next) {
            Ok(()) => return true,
            Err(PostFault::Closed(_back)) => return false,
            Err(PostFault::Full(back)) => {
                next = back;
                thread::yield_now();
            }
        }
    }
    unreachable!()
}

// Posts a thousand orders, from this number on.
fn send<R: Wait>(
    rt: &R,
    alloc: Global,
    outbox: &Outbox,
    mut pass: SenderPass,
    first: u32,
) -> SenderPass
    requires { IsSenderOf outbox.now pass }
    ensures { IsSenderOf outbox.now result }
{
    for n in 0..EACH {
        let Some(draft) = order(alloc, first.wrapping_add(n)) else {
            return pass;
        };
        if !post_one(rt, outbox, &mut pass, draft) {
            return pass;
        }
    }
    pass
}

// How many came, and whether each sender's came in its order and each once.
fn receive<R: Wait>(rt: &R, outbox: &Outbox, mut pass: TakerPass) -> (TakerPass, u32, bool)
    requires { IsTakerOf outbox.now pass }
    ensures { IsTakerOf outbox.now result.0 × (count_of result.0 ≡ count_of pass) }
{
    let mut next = [0u32, EACH];
    let mut count = 0u32;
    let mut good = true;
    for _ in rt.forever() {
        if count >= 2 * EACH {
            break;
        }
        match outbox.take(rt, &mut pass) {
            Some(draft) => {
                let number = number_of(&draft).unwrap_or(u32::MAX);
                let who = if number < EACH { 0 } else { 1 };
                good = good && number == next[who];
                next[who] = next[who].wrapping_add(1);
                count += 1;
            }
            None => thread::yield_now(),
        }
    }
    (pass, count, good)
}

// The passes with one more.
fn with(outbox: &Outbox, passes: Vec<SenderPass>, pass: SenderPass) -> Vec<SenderPass>
    requires passes { All (λ p. IsSenderOf outbox.now p) passes.items × IsSenderOf outbox.now pass }
    requires room { length passes.items < vec_capacity passes }
    ensures passes { All (λ p. IsSenderOf outbox.now p) result.items × (length result.items ≡ length passes.items + 1) }
    ensures room { vec_capacity result ≡ vec_capacity passes }
{
    let mut passes = passes;
    passes.push_reserved(pass);
    passes
}

// Both senders at once.
fn both<R: Threads + Wait + Sync>(
    rt: &R,
    alloc: Global,
    o: &Outbox,
    first: SenderPass,
    second: SenderPass,
) -> (SenderPass, SenderPass)
    requires { IsSenderOf o.now first × IsSenderOf o.now second }
    ensures { IsSenderOf o.now result.0 × IsSenderOf o.now result.1 }
{
    thread::join(
        rt,
        move || -> SenderPass
            requires { IsSenderOf o.now first }
            ensures { IsSenderOf o.entry.now result }
        { send(rt, alloc, o, first, 0) },
        move || -> SenderPass
            requires { IsSenderOf o.now second }
            ensures { IsSenderOf o.entry.now result }
        { send(rt, alloc, o, second, EACH) },
    )
}

// How many came, whether each sender's came in its order, and how many were left.
fn two<R: Threads + Wait + Sync>(rt: &R, alloc: Global) -> Option<(u32, bool, usize)> {
    let Ok((outbox, taker, mut senders)) = Outbox::new(alloc, CAPACITY, 2) else {
        return None;
    };
    let o = &outbox;
    let second = senders.pop();
    let first = senders.pop();
    let (Some(first), Some(second)) = (first, second) else {
        return None;
    };
    let ((first, second), (taker, count, good)) = thread::join(
        rt,
        move || -> (SenderPass, SenderPass)
            requires { IsSenderOf o.now first × IsSenderOf o.now second }
            ensures { IsSenderOf o.entry.now result.0 × IsSenderOf o.entry.now result.1 }
        { both(rt, alloc, o, first, second) },
        move || -> (TakerPass, u32, bool)
            requires { IsTakerOf o.now taker × (count_of taker ≡ 2) }
            ensures { IsTakerOf o.entry.now result.0 × (count_of result.0 ≡ 2) }
        { receive(rt, o, taker) },
    );
    let passes = with(o, Vec::with_capacity(alloc, 2).ok()?, first);
    let settled = settle(rt, o, taker, with(o, passes, second));
    Some((count, good, settled.left.len()))
}

#[test]
fn each_sender_s_drafts_come_in_order_and_once(rt: HostRuntime) {
    assert_eq!(rt; two(&rt, rt.alloc()), Some((2 * EACH, true, 0)));
}

// Posts the orders 0 to 15 into an outbox of 16, and says whether each went.
fn fill<R: Wait>(rt: &R, alloc: Global, outbox: &Outbox, pass: &mut SenderPass) -> bool
    requires { IsSenderOf outbox.now pass.old }
    ensures { IsSenderOf outbox.now pass.new }
{
    for number in 0..16 {
        let Some(draft) = order(alloc, number) else {
            return false;
        };
        if outbox.post(rt, pass, draft).is_err() {
            return false;
        }
    }
    true
}

// What a post of this order comes to: 0 for Ok, 1 for Full, 2 for Closed; with the number of the order that
// came back.
fn post_of<R: Wait>(
    rt: &R,
    outbox: &Outbox,
    pass: &mut SenderPass,
    draft: Draft,
) -> (u8, Option<u32>)
    requires { IsSenderOf outbox.now pass.old }
    ensures { IsSenderOf outbox.now pass.new }
{
    match outbox.post(rt, pass, draft) {
        Ok(()) => (0, None),
        Err(PostFault::Full(back)) => (1, number_of(&back)),
        Err(PostFault::Closed(back)) => (2, number_of(&back)),
    }
}

// What two more posts into a full outbox come to, the second one after `close`; and the numbers left.
fn one_full<R: Wait>(rt: &R, alloc: Global) -> Option<([(u8, Option<u32>); 2], usize, bool)> {
    let (outbox, mut taker, mut senders) = Outbox::new(alloc, CAPACITY, 1).ok()?;
    let mut pass = senders.pop()?;
    if !fill(rt, alloc, &outbox, &mut pass) {
        return None;
    }
    let full = post_of(rt, &outbox, &mut pass, order(alloc, 16)?);
    outbox.close(rt, &mut taker);
    let closed = post_of(rt, &outbox, &mut pass, order(alloc, 17)?);
    let passes = with(&outbox, Vec::with_capacity(alloc, 1).ok()?, pass);
    let left = settle(rt, &outbox, taker, passes).left;
    let in_order = (0u32..)
        .zip(&left)
        .all(|(n, draft)| number_of(draft) == Some(n));
    Some(([full, closed], left.len(), in_order))
}

#[test]
fn the_seventeenth_is_full_and_closed_behind_close(rt: HostRuntime) {
    let seen = one_full(&rt, rt.alloc());
    assert_eq!(rt; seen, Some(([(1, Some(16)), (2, Some(17))], 16, true)));
}
