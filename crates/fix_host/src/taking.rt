//! An application whose drafts are those that other threads post into an outbox. The programs of several sessions run
//! with it, so that a sender in a thread of its own can send by a session.
ghost use Rattle.std.specs.Prelude.{◌≡◌, option_map};
ghost use Rattle.std.specs.Arc.{arc_value};
ghost use Rattle.fix_fields.specs.Drafted.{draft_body};
ghost use Rattle.fix_outbox.specs.Passes.{IsTakerOf};
ghost use Rattle.fix_parts.specs.App.{AppTakes, AppAsks};

use fix_base::SeqNum;
use fix_fields::Draft;
use fix_outbox::{Outbox, SenderPass, TakerPass};
use fix_outside::Again;
use fix_parts::{App, Handed, Said};
use std::alloc::Global;
use std::sync::{Arc, Wait};

/// An application that hands each message over to another one, and takes its drafts from an outbox: the other one is
/// asked for none.
#[derive(Drop)]
pub struct TakeApp<R, A> {
    rt: R,
    inner: A,
    outbox: Arc<Outbox, Global>,
    taker: TakerPass,
    // How often it was asked and had none.
    empty: u64,
    ghost of: { IsTakerOf (arc_value outbox) taker },
}

impl<R: Drop, A> TakeApp<R, A> {
    ghost use Rattle.std.specs.Arc.{arc_value};
    ghost use Rattle.fix_outbox.specs.Passes.{IsTakerOf};
    ghost use Rattle.fix_host.specs.Taking.{handed_to, outbox_of, taker_of, empty_of};

    /// Messages go to `inner`, and drafts come from the outbox by its taker's pass.
    pub fn new(rt: R, inner: A, outbox: Arc<Outbox, Global>, taker: TakerPass) -> TakeApp<R, A>
        requires { IsTakerOf (arc_value outbox) taker }
        ensures inner { handed_to result ≡ inner }
        ensures outbox { outbox_of result ≡ arc_value outbox }
        ensures taker { taker_of result ≡ taker }
        ensures empty { empty_of result ≡ 0 }
    {
        TakeApp {
            rt,
            inner,
            outbox,
            taker,
            empty: 0,
        }
    }

    /// How often it was asked for a draft and had none, up to 2^64 - 1.
    pub fn empty(&self) -> u64
        ensures { result ≡ empty_of self.now }
    {
        self.empty
    }

    /// The application that messages were handed to, and the pass, so that the outbox can be settled.
    pub fn into_parts(self) -> (A, TakerPass)
        ensures inner { result.0 ≡ handed_to self }
        ensures taker { result.1 ≡ taker_of self }
        ensures of { IsTakerOf (outbox_of self) result.1 }
    {
        (self.inner, self.taker)
    }
}

impl<R: Wait + Drop, A> TakeApp<R, A> {
    ghost use Rattle.fix_outbox.specs.Passes.{IsSenderOf, capacity_of};
    ghost use Rattle.fix_host.specs.Taking.{outbox_of};
    ghost use Rattle.fix_host.specs.Posts.{Posts};

    // Posts a draft by another pass of the same outbox. One that is refused is let go.
    pub(crate) fn post(&self, sender: &mut SenderPass, draft: Draft)
        requires { IsSenderOf (outbox_of self.now) sender.old }
        ensures of { IsSenderOf (outbox_of self.now) sender.new }
        ensures posts { Posts (capacity_of (outbox_of self.now)) draft sender.old sender.new }
    {
        let _posted = self.outbox.post(&self.rt, sender, draft);
    }
}

impl<R: Wait, A: App> App for TakeApp<R, A> {
    ghost use Rattle.fix_outside.specs.Handing.{HasKind, IsKindOf};
    ghost use Rattle.fix_host.specs.Taking.{handed_to, outbox_of, taker_of, empty_of, take_seen, TakesNext, empty_after};

    ghost app = { λ t. take_seen (taker_of t) (A.app (handed_to t)) };

    fn hand(&mut self, h: &Handed<'_>) -> Said
        requires { HasKind h.now }
        ensures moves { AppTakes result h.now (take_seen (taker_of self.old) (A.app (handed_to self.old)))
            (take_seen (taker_of self.new) (A.app (handed_to self.new))) }
        ensures inner { AppTakes result h.now (A.app (handed_to self.old)) (A.app (handed_to self.new)) }
        ensures taker { taker_of self.new ≡ taker_of self.old }
        ensures outbox { outbox_of self.new ≡ outbox_of self.old }
        ensures empty { empty_of self.new ≡ empty_of self.old }
    {
        self.inner.hand(h)
    }

    fn again(&mut self, n: SeqNum, kind: &[u8], body: &[u8]) -> Again
        requires { IsKindOf kind.now body.now }
        ensures stays { take_seen (taker_of self.new) (A.app (handed_to self.new))
            ≡ take_seen (taker_of self.old) (A.app (handed_to self.old)) }
        ensures taker { taker_of self.new ≡ taker_of self.old }
        ensures outbox { outbox_of self.new ≡ outbox_of self.old }
        ensures empty { empty_of self.new ≡ empty_of self.old }
    {
        self.inner.again(n, kind, body)
    }

    fn ask(&mut self) -> Option<Draft>
        ensures asks { AppAsks (option_map draft_body result)
            (take_seen (taker_of self.old) (A.app (handed_to self.old)))
            (take_seen (taker_of self.new) (A.app (handed_to self.new))) }
        ensures takes { TakesNext result (taker_of self.old) (taker_of self.new) }
        ensures empty { empty_of self.new ≡ empty_after result (empty_of self.old) }
        ensures inner { handed_to self.new ≡ handed_to self.old }
        ensures outbox { outbox_of self.new ≡ outbox_of self.old }
    {
        let draft = self.outbox.take(&self.rt, &mut self.taker);
        if draft.is_none() {
            self.empty = self.empty.saturating_add(1);
        }
        draft
    }
}
