//! What was taken comes back as a draft, once and as it was.
ghost use Rattle.fix_outbox.specs.Passes.{IsSenderOf, IsTakerOf, IsNewSender};

use crate::EchoApp;
use fix_outbox::{Outbox, SenderPass, TakerPass};
use fix_parts::{App, Handed, MemoryApp, Said};
use std::alloc::Global;
use std::sync::{Arc, Wait};

// Whether the application is asked for a draft with this MsgType (35) and these fields.
fn gives<A: App>(app: &mut A, kind: &[u8], rest: &[u8]) -> bool {
    match app.ask() {
        Some(draft) => draft.kind() == kind && draft.rest() == rest,
        None => false,
    }
}

// An application over these that fails to take the fifth message.
fn echoing<R: Wait + Copy + Drop>(
    rt: R,
    alloc: Global,
    outbox: Outbox,
    taker: TakerPass,
    sender: SenderPass,
) -> Option<EchoApp<R, MemoryApp>>
    requires { IsTakerOf outbox taker × IsSenderOf outbox sender }
{
    let mut fail = Vec::new(alloc);
    fail.push(5).ok()?;
    let inner = MemoryApp::new(alloc, Vec::new(alloc), 9, fail).ok()?;
    let outbox = Arc::new(alloc, outbox).ok()?;
    Some(EchoApp::new(alloc, rt, inner, outbox, taker, sender))
}

// What an application over an outbox for two drafts answers to an order, to a message that may not be sent, to two
// orders more, of which the second finds the outbox full, and to one that it fails to take; and which drafts it gives.
fn of_five<R: Wait + Copy + Drop>(rt: R, alloc: Global) -> Option<([Said; 5], [bool; 3])> {
    let (outbox, taker, mut senders) = Outbox::new(alloc, 2, 1).ok()?;
    let sender = senders.pop()?;
    let mut app = echoing(rt, alloc, outbox, taker, sender)?;
    let order = Handed {
        number: 2,
        marked: false,
        kind: b"D",
        body: b"35=D\x0155=XYZ\x0195=3\x0196=a\x01b\x01",
    };
    let twice = Handed {
        number: 3,
        marked: false,
        kind: b"D",
        body: b"35=D\x0155=\x01",
    };
    let said = [
        app.hand(&order),
        app.hand(&twice),
        app.hand(&order),
        app.hand(&order),
        app.hand(&order),
    ];
    let rest = b"55=XYZ\x0195=3\x0196=a\x01b\x01";
    let given = [
        gives(&mut app, b"D", rest),
        gives(&mut app, b"D", rest),
        gives(&mut app, b"D", rest),
    ];
    Some((said, given))
}

#[test]
fn what_was_taken_is_echoed(rt: HostRuntime) {
    let said = [
        Said::Taken,
        Said::Taken,
        Said::Taken,
        Said::Taken,
        Said::Failed,
    ];
    let seen = of_five(rt, rt.alloc());
    assert_eq!(rt; seen, Some((said, [true, true, false])));
}
