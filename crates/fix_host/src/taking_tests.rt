//! Drafts come from the outbox to who asks, and messages go to the application behind it.
ghost use Rattle.fix_outbox.specs.Passes.{IsSenderOf, IsTakerOf, IsNewSender};

use crate::TakeApp;
use fix_base::Tag;
use fix_fields::{Draft, DraftFields};
use fix_outbox::{Outbox, SenderPass};
use fix_parts::{App, Handed, MemoryApp, Said};
use std::alloc::Global;
use std::sync::{Arc, Wait};

// An order whose ClOrdID (11) is this digit.
fn order(alloc: Global, id: u8) -> Option<Draft> {
    let mut fields = DraftFields::new(alloc);
    fields.push(Tag::new(11)?, &[id]).ok()?;
    Draft::new(alloc, b"D", &fields).ok()
}

// The digit of an order that `order` made.
fn id_of(draft: &Draft) -> u8 {
    match draft.rest() {
        [b'1', b'1', b'=', id, 1] => *id,
        _ => b'?',
    }
}

// Posts an order, and says whether it went.
fn posts<R: Wait>(rt: &R, alloc: Global, outbox: &Outbox, pass: &mut SenderPass, id: u8) -> bool
    requires { IsSenderOf outbox.now pass.old }
    ensures { IsSenderOf outbox.now pass.new }
{
    match order(alloc, id) {
        Some(draft) => outbox.post(rt, pass, draft).is_ok(),
        None => false,
    }
}

// The digit of the draft that it is asked for.
fn asked<A: App>(app: &mut A) -> Option<u8> {
    let draft = app.ask()?;
    Some(id_of(&draft))
}

// What an application over an outbox with two orders answers: a message is handed over, and it is asked three times.
fn over_two_orders<R: Wait + Copy + Drop>(
    rt: R,
    alloc: Global,
) -> Option<(Said, [Option<u8>; 3], u64, usize)> {
    let (outbox, taker, mut senders) = Outbox::new(alloc, 16, 1).ok()?;
    let mut pass = senders.pop()?;
    if !posts(&rt, alloc, &outbox, &mut pass, b'a') {
        return None;
    }
    if !posts(&rt, alloc, &outbox, &mut pass, b'b') {
        return None;
    }
    let inner = MemoryApp::new(alloc, Vec::new(alloc), 1, Vec::new(alloc)).ok()?;
    let mut app = TakeApp::new(rt, inner, Arc::new(alloc, outbox).ok()?, taker);
    let message = Handed {
        number: 2,
        marked: false,
        kind: b"D",
        body: b"35=D\x0155=XYZ\x01",
    };
    let said = app.hand(&message);
    let answers = [asked(&mut app), asked(&mut app), asked(&mut app)];
    let empty = app.empty();
    let (inner, _taker) = app.into_parts();
    Some((said, answers, empty, inner.given().len()))
}

#[test]
fn drafts_come_from_the_outbox(rt: HostRuntime) {
    let seen = over_two_orders(rt, rt.alloc());
    let answers = [Some(b'a'), Some(b'b'), None];
    assert_eq!(rt; seen, Some((Said::Taken, answers, 1, 1)));
}
