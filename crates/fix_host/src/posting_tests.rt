//! Drafts are posted in order and each once: where there is room, where there is room for one alone, and where
//! the outbox is closed.
ghost use Rattle.fix_outbox.specs.Passes.{IsSenderOf, IsTakerOf};

use crate::{Gate, OpenGate, post_all, send_file};
use fix_base::{Bytes, Tag};
use fix_fields::{Draft, DraftFields};
use fix_outbox::{Outbox, SenderPass, TakerPass};
use std::alloc::Global;
use std::cell::Cell;
use std::sync::Wait;
use std::thread;
use std::thread::Threads;

// Notes who was asked for, a digit for the sender and one for its draft.
#[derive(Drop)]
struct Noting {
    seen: Cell<u32>,
}

impl Gate for Noting {
    fn wait(&self, sender: u32, line: u32) {
        let both = sender.wrapping_mul(10).wrapping_add(line);
        self.seen
            .set(self.seen.get().wrapping_mul(100).wrapping_add(both));
    }
}

// An order whose ClOrdID (11) is this digit.
fn order(alloc: Global, id: u8) -> Option<Draft> {
    let mut fields = DraftFields::new(alloc);
    fields.push(Tag::new(11)?, &[id]).ok()?;
    Draft::new(alloc, b"D", &fields).ok()
}

// The digit of an order that `order` made.
fn id_of(draft: &Draft) -> u8 {
    match draft.rest() {
        [b'1', b'1', b'=', id, 1] => *id,
        _ => b'?',
    }
}

// What is taken next.
fn next<R: Wait>(rt: &R, outbox: &Outbox, pass: &mut TakerPass) -> Option<u8>
    requires { IsTakerOf outbox.now pass.old }
    ensures { IsTakerOf outbox.now pass.new }
{
    let draft = outbox.take(rt, pass)?;
    Some(id_of(&draft))
}

// How many of two drafts were posted, whom the gate was asked for, and whether each draft is still there.
fn two<R: Wait>(
    rt: &R,
    alloc: Global,
    outbox: &Outbox,
    pass: &mut SenderPass,
) -> Option<(u32, u32, [bool; 2])>
    requires { IsSenderOf outbox.now pass.old }
    ensures { IsSenderOf outbox.now pass.new }
{
    let gate = Noting { seen: Cell::new(0) };
    let mut drafts = [Some(order(alloc, b'a')?), Some(order(alloc, b'b')?)];
    let count = post_all(rt, outbox, pass, &mut drafts, &gate);
    let stay = [drafts[0].is_some(), drafts[1].is_some()];
    Some((count, gate.seen.get(), stay))
}

#[test]
fn two_drafts_are_posted_in_order(rt: HostRuntime) {
    let made = Outbox::new(rt.alloc(), 16, 1);
    let Ok((outbox, mut taker, mut senders)) = made else {
        panic!(rt; "ample memory");
    };
    let Some(mut pass) = senders.pop() else {
        panic!(rt; "one sender");
    };
    let seen = two(&rt, rt.alloc(), &outbox, &mut pass);
    assert_eq!(rt; seen, Some((2, 1112, [false, false])));
    assert_eq!(rt; next(&rt, &outbox, &mut taker), Some(b'a'));
    assert_eq!(rt; next(&rt, &outbox, &mut taker), Some(b'b'));
    assert_eq!(rt; next(&rt, &outbox, &mut taker), None);
    outbox.close(&rt, &mut taker);
    let seen = two(&rt, rt.alloc(), &outbox, &mut pass);
    assert_eq!(rt; seen, Some((0, 11, [true, true])));
    assert_eq!(rt; next(&rt, &outbox, &mut taker), None);
}

// Posts three drafts, and says how many went.
fn post_three<R: Wait>(rt: &R, alloc: Global, outbox: &Outbox, pass: SenderPass) -> Option<u32>
    requires { IsSenderOf outbox.now pass }
{
    let mut pass = pass;
    let mut drafts = [
        Some(order(alloc, b'a')?),
        Some(order(alloc, b'b')?),
        Some(order(alloc, b'c')?),
    ];
    Some(post_all(rt, outbox, &mut pass, &mut drafts, &OpenGate))
}

// Takes three drafts, and says which.
fn take_three<R: Wait>(rt: &R, outbox: &Outbox, pass: TakerPass) -> [u8; 3]
    requires { IsTakerOf outbox.now pass }
{
    let mut pass = pass;
    let mut seen = [0u8; 3];
    let mut count = 0;
    for _ in rt.forever() {
        if count >= 3 {
            return seen;
        }
        match next(rt, outbox, &mut pass) {
            Some(id) => {
                seen[count] = id;
                count += 1;
            }
            None => thread::yield_now(),
        }
    }
    unreachable!()
}

// What came of three drafts through an outbox that has room for one.
fn through_one<R: Threads + Wait + Sync>(rt: &R, alloc: Global) -> Option<(Option<u32>, [u8; 3])> {
    let (outbox, taker, mut senders) = Outbox::new(alloc, 1, 1).ok()?;
    let o = &outbox;
    let pass = senders.pop()?;
    Some(thread::join(
        rt,
        move || -> Option<u32>
            requires { IsSenderOf o.now pass }
        { post_three(rt, alloc, o, pass) },
        move || -> [u8; 3]
            requires { IsTakerOf o.now taker }
        { take_three(rt, o, taker) },
    ))
}

#[test]
fn a_full_outbox_loses_no_draft(rt: HostRuntime) {
    let seen = through_one(&rt, rt.alloc());
    assert_eq!(rt; seen, Some((Some(3), *b"abc")));
}

// What is known of a sender whose file has an empty line alone.
fn of_no_drafts<R: Wait>(rt: &R, alloc: Global) -> Option<(u32, u32)> {
    let (outbox, _taker, mut senders) = Outbox::new(alloc, 1, 1).ok()?;
    let pass = senders.pop()?;
    let file = Bytes::copy(alloc, b"\n").ok()?;
    let end = send_file(rt, &outbox, pass, file, Vec::new(alloc), &OpenGate);
    Some((end.drafts, end.posted))
}

#[test]
fn a_file_with_no_drafts_is_sent(rt: HostRuntime) {
    assert_eq!(rt; of_no_drafts(&rt, rt.alloc()), Some((0, 0)));
}
