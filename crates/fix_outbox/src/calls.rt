//! Posting, taking and closing, which many threads do at once.
ghost use Rattle.std.specs.Prelude.{◌≡◌, ℕ, true, [], ◌∷◌, ◌++◌, MatchResult, MatchOption};
ghost use Rattle.crossbeam_queue.specs.Passes.{view};
ghost use Rattle.crossbeam_queue.specs.Fifo.{Held};
ghost use Rattle.fix_outbox.specs.Queue.{CanContain};
ghost use Rattle.fix_outbox.specs.Passes.{capacity_of, IsSenderOf, IsTakerOf, count_of, number_of, posted, found};
ghost use Rattle.fix_outbox.specs.Passes.{taken, closed, item, back_of, HasCause};

use crate::closing::{ClosesWord, LoadsWord};
use crate::pass::{Outbox, PostFault, SenderPass, TakerPass};
use crate::queue::{Appends, Item, Takes};
use fix_fields::Draft;
use std::sync::Wait;

impl SenderPass {
    /// The number under which this pass posts, from 1.
    pub fn number(&self) -> u32
        ensures { result ≡ number_of self.now }
    {
        self.number
    }
}

impl Outbox {
    /// Posts a draft, or gives it back. The closing word is loaded first.
    pub fn post<R: Wait>(
        &self,
        rt: &R,
        pass: &mut SenderPass,
        draft: Draft,
    ) -> Result<(), PostFault>
        requires { IsSenderOf self.now pass.old }
        ensures pass { IsSenderOf self.now pass.new × (number_of pass.new ≡ number_of pass.old) }
        ensures posted { MatchResult result
            (λ _. posted pass.new ≡ posted pass.old ++ item (number_of pass.old) draft ∷ [])
            (λ e. (back_of e ≡ draft) × (posted pass.new ≡ posted pass.old)) }
        ensures cause { (n : ℕ) × (found pass.new ≡ found pass.old ++ n ∷ [])
            × HasCause n (capacity_of self.now) (view pass.old.place) result }
    {
        if self.gate.shared.load::<LoadsWord>(&mut pass.watch, 0) == 1 {
            return Err(PostFault::Closed(draft));
        }
        let item = Item {
            sender: pass.number,
            draft,
        };
        match self.queue.push_as::<Appends, R>(rt, &mut pass.place, item) {
            Ok(()) => Ok(()),
            Err(item) => Err(PostFault::Full(item.draft)),
        }
    }

    /// Takes the oldest draft. None means that the outbox was empty at a moment of this call.
    #[tactic(auto, using(crate::proofs::OrderLemmas::takes, crate::proofs::OrderLemmas::learns))]
    pub fn take<R: Wait>(&self, rt: &R, pass: &mut TakerPass) -> Option<Draft>
        requires { IsTakerOf self.now pass.old }
        ensures pass { IsTakerOf self.now pass.new × (closed pass.new ≡ closed pass.old)
            × (count_of pass.new ≡ count_of pass.old) }
        ensures taken { MatchOption result ((taken pass.new ≡ taken pass.old)
            × Held 0 (CanContain (view pass.old.place)))
            (λ d. (i : ℕ) × (taken pass.new ≡ taken pass.old ++ item i d ∷ [])) }
    {
        match self.queue.pop_as::<Takes, R>(rt, &mut pass.place) {
            Some(item) => Some(item.draft),
            None => None,
        }
    }

    /// Closes the outbox: each post that loads the closing word from now on is refused. Drafts that
    /// are in it can still be taken.
    pub fn close<R: Wait>(&self, _rt: &R, pass: &mut TakerPass)
        requires { IsTakerOf self.now pass.old }
        ensures pass { IsTakerOf self.now pass.new × (taken pass.new ≡ taken pass.old)
            × (count_of pass.new ≡ count_of pass.old) }
        ensures closed { closed pass.new ≡ true }
    {
        self.gate.shared.store::<ClosesWord>(&mut pass.watch, 0, 1);
    }
}
