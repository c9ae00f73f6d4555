//! An application that sends back what it takes, by an outbox that it takes its drafts from. An acceptor runs with it
//! where it is asked to echo.
ghost use Rattle.std.specs.Prelude.{◌≡◌, option_map};
ghost use Rattle.fix_fields.specs.Drafted.{draft_body};
ghost use Rattle.fix_outbox.specs.Passes.{IsSenderOf, capacity_of};
ghost use Rattle.fix_parts.specs.App.{AppTakes, AppAsks};
ghost use Rattle.fix_host.specs.Taking.{outbox_of};

use crate::TakeApp;
use crate::drafting::draft_with;
use fix_base::SeqNum;
use fix_fields::Draft;
use fix_outbox::{Outbox, SenderPass, TakerPass};
use fix_outside::Again;
use fix_parts::{App, Handed, Said};
use std::alloc::Global;
use std::sync::{Arc, Wait};

/// An application that hands each message over to another one, and posts what that took as a draft with the same body.
/// It takes its drafts from the same outbox, and never closes it.
#[derive(Drop)]
pub struct EchoApp<R, A> {
    alloc: Global,
    take: TakeApp<R, A>,
    sender: SenderPass,
    ghost of: { IsSenderOf (outbox_of take) sender },
}

impl<R: Wait + Drop, A> EchoApp<R, A> {
    ghost use Rattle.std.specs.Arc.{arc_value};
    ghost use Rattle.fix_outbox.specs.Passes.{IsSenderOf, IsTakerOf};
    ghost use Rattle.fix_host.specs.Taking.{handed_to, outbox_of, taker_of};
    ghost use Rattle.fix_host.specs.Echoing.{takes_by, sender_of};

    /// Messages go to `inner` and then into the outbox by the sender's pass, and drafts come from it by the taker's.
    pub fn new(
        alloc: Global,
        rt: R,
        inner: A,
        outbox: Arc<Outbox, Global>,
        taker: TakerPass,
        sender: SenderPass,
    ) -> EchoApp<R, A>
        requires taker { IsTakerOf (arc_value outbox) taker }
        requires sender { IsSenderOf (arc_value outbox) sender }
        ensures inner { handed_to (takes_by result) ≡ inner }
        ensures outbox { outbox_of (takes_by result) ≡ arc_value outbox }
        ensures taker { taker_of (takes_by result) ≡ taker }
        ensures sender { sender_of result ≡ sender }
    {
        EchoApp {
            alloc,
            take: TakeApp::new(rt, inner, outbox, taker),
            sender,
        }
    }

    /// The application that messages were handed to, and the passes, so that the outbox can be settled.
    pub fn into_parts(self) -> (A, TakerPass, SenderPass)
        ensures inner { result.0 ≡ handed_to (takes_by self) }
        ensures taker { result.1 ≡ taker_of (takes_by self) }
        ensures sender { result.2 ≡ sender_of self }
        ensures of { IsTakerOf (outbox_of (takes_by self)) result.1 × IsSenderOf (outbox_of (takes_by self)) result.2 }
    {
        let EchoApp { take, sender, .. } = self;
        let (inner, taker) = take.into_parts();
        (inner, taker, sender)
    }
}

impl<R: Wait + Drop, A: App> App for EchoApp<R, A> {
    ghost use Rattle.fix_outside.specs.Handing.{HasKind, IsKindOf};
    ghost use Rattle.fix_host.specs.Taking.{handed_to, outbox_of, taker_of, empty_of, take_seen, TakesNext};
    ghost use Rattle.fix_host.specs.Echoing.{takes_by, sender_of, Echoes};

    ghost app = { λ e. take_seen (taker_of (takes_by e)) (A.app (handed_to (takes_by e))) };

    // The draft is made before the hand-over, so that a message which was taken is posted even where memory ran out.
    fn hand(&mut self, h: &Handed<'_>) -> Said
        requires { HasKind h.now }
        ensures moves { AppTakes result h.now
            (take_seen (taker_of (takes_by self.old)) (A.app (handed_to (takes_by self.old))))
            (take_seen (taker_of (takes_by self.new)) (A.app (handed_to (takes_by self.new)))) }
        ensures inner { AppTakes result h.now (A.app (handed_to (takes_by self.old)))
            (A.app (handed_to (takes_by self.new))) }
        ensures echoes { Echoes (capacity_of (outbox_of (takes_by self.old))) h.now.body.now result
            (sender_of self.old) (sender_of self.new) }
        ensures taker { taker_of (takes_by self.new) ≡ taker_of (takes_by self.old) }
        ensures outbox { outbox_of (takes_by self.new) ≡ outbox_of (takes_by self.old) }
    {
        let Ok(draft) = draft_with(self.alloc, h.body) else {
            return Said::OutOfMemory;
        };
        let said = self.take.hand(h);
        if let (Said::Taken, Some(draft)) = (said, draft) {
            self.take.post(&mut self.sender, draft);
        }
        said
    }

    fn again(&mut self, n: SeqNum, kind: &[u8], body: &[u8]) -> Again
        requires { IsKindOf kind.now body.now }
        ensures stays { take_seen (taker_of (takes_by self.new)) (A.app (handed_to (takes_by self.new)))
            ≡ take_seen (taker_of (takes_by self.old)) (A.app (handed_to (takes_by self.old))) }
        ensures taker { taker_of (takes_by self.new) ≡ taker_of (takes_by self.old) }
        ensures sender { sender_of self.new ≡ sender_of self.old }
        ensures outbox { outbox_of (takes_by self.new) ≡ outbox_of (takes_by self.old) }
    {
        self.take.again(n, kind, body)
    }

    fn ask(&mut self) -> Option<Draft>
        ensures asks { AppAsks (option_map draft_body result)
            (take_seen (taker_of (takes_by self.old)) (A.app (handed_to (takes_by self.old))))
            (take_seen (taker_of (takes_by self.new)) (A.app (handed_to (takes_by self.new)))) }
        ensures takes { TakesNext result (taker_of (takes_by self.old)) (taker_of (takes_by self.new)) }
        ensures inner { handed_to (takes_by self.new) ≡ handed_to (takes_by self.old) }
        ensures sender { sender_of self.new ≡ sender_of self.old }
        ensures outbox { outbox_of (takes_by self.new) ≡ outbox_of (takes_by self.old) }
    {
        self.take.ask()
    }
}
