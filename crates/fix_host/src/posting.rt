//! Posting the drafts of a source into an outbox, one after another.
ghost use Rattle.std.specs.Prelude.{◌≡◌, ◌<◌, ◌^◌, ◌++◌, ◌∷◌, [], All, MatchResult, MatchBool, length, drop, take};
ghost use Rattle.std.specs.Prelude.{IsSome, None};
ghost use Rattle.fix_outbox.specs.Passes.{IsSenderOf, number_of, posted, found, item};
ghost use Rattle.fix_host.specs.Posting.{items_of, left_of, Loads, LoadsClosed, PostsEnd};

use crate::Gate;
use fix_fields::Draft;
use fix_outbox::{Outbox, PostFault, SenderPass};
use std::sync::Wait;
use std::thread;

/// Posts the drafts in order, each once, and says how many were posted: these are then None, and the others stay.
/// The gate is asked before each, with the sender's number and the draft's. A draft for which the outbox was full
/// is posted again. It ends early only where a post was told that the outbox is closed.
pub fn post_all<R: Wait, G: Gate>(
    rt: &R,
    outbox: &Outbox,
    pass: &mut SenderPass,
    drafts: &mut [Option<Draft>],
    gate: &G,
) -> u32
    requires pass { IsSenderOf outbox.now pass.old }
    requires some { All (λ d. IsSome d) drafts.old }
    requires few { length drafts.old < 2 ^ 32 }
    ensures pass { IsSenderOf outbox.now pass.new × (number_of pass.new ≡ number_of pass.old) }
    ensures posted { posted pass.new ≡ posted pass.old ++ items_of (number_of pass.old) (take result drafts.old) }
    ensures left { drafts.new ≡ left_of result drafts.old }
    ensures end { PostsEnd result (length drafts.old) (found pass.old) (found pass.new) }
{
    let mut count = 0u32;
    for k in 0..drafts.len() {
        gate.wait(pass.number(), count + 1);
        if !post_at(rt, outbox, pass, &mut drafts[k]) {
            return count;
        }
        count += 1;
    }
    count
}

// Posts one of the drafts. False is that the outbox is closed.
fn post_at<R: Wait>(
    rt: &R,
    outbox: &Outbox,
    pass: &mut SenderPass,
    draft: &mut Option<Draft>,
) -> bool
    requires pass { IsSenderOf outbox.now pass.old }
    requires some { IsSome draft.old }
    ensures pass { IsSenderOf outbox.now pass.new × (number_of pass.new ≡ number_of pass.old) }
    ensures posted { MatchBool result
        (posted pass.new ≡ posted pass.old ++ items_of (number_of pass.old) (draft.old ∷ []))
        (posted pass.new ≡ posted pass.old) }
    ensures draft { MatchBool result (draft.new ≡ None) (draft.new ≡ draft.old) }
    ensures found { MatchBool result
        (Loads (found pass.old) (found pass.new))
        (LoadsClosed (found pass.old) (found pass.new)) }
{
    match draft.take() {
        Some(one) => match post_or_closed(rt, outbox, pass, one) {
            Ok(()) => true,
            Err(back) => {
                *draft = Some(back);
                false
            }
        },
        None => unreachable!(),
    }
}

// Posts a draft, again after each `Full`, or gives it back where the outbox is closed.
fn post_or_closed<R: Wait>(
    rt: &R,
    outbox: &Outbox,
    pass: &mut SenderPass,
    draft: Draft,
) -> Result<(), Draft>
    requires { IsSenderOf outbox.now pass.old }
    ensures pass { IsSenderOf outbox.now pass.new × (number_of pass.new ≡ number_of pass.old) }
    ensures posted { MatchResult result
        (λ _. posted pass.new ≡ posted pass.old ++ item (number_of pass.old) draft ∷ [])
        (λ back. (back ≡ draft) × (posted pass.new ≡ posted pass.old)) }
    ensures found { MatchResult result
        (λ _. Loads (found pass.old) (found pass.new))
        (λ _. LoadsClosed (found pass.old) (found pass.new)) }
{
    let mut next = draft;
    for _ in rt.forever() {
        match outbox.post(rt, pass, next) {
            Ok(()) => return Ok(()),
            Err(PostFault::Closed(back)) => return Err(back),
            Err(PostFault::Full(back)) => {
                next = back;
                thread::yield_now();
            }
        }
    }
    unreachable!()
}
