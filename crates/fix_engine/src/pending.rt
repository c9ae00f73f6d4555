//! The draft that a session has in hand. `turn` calls `offer_draft` first in each turn: it asks the
//! application for a draft, and sends it. `session` calls `settle_pending` where the message store was opened
//! again.
ghost use Rattle.std.specs.Prelude.{◌≡◌, ◌==◌, ◌∷◌, [], if◌then◌else◌, Some, None, IfSome, option_map};
ghost use Rattle.fix_base.specs.Trace.{HasTrace, Trace, Asked};
ghost use Rattle.fix_fields.specs.Drafted.{draft_body, IsDraft};
ghost use Rattle.fix_engine.specs.Faults.{open_behind};
ghost use Rattle.fix_engine.specs.Turn.{work_seen, IsReadyToTurn, no_draft, pending_reopened, SendPending, OfferDraft};

use crate::context::Context;
use crate::drafting::send_draft;
use crate::faults::{ending_of, is_lost};
use crate::work::Work;
use crate::{Ending, Outside, Phase};
use fix_base::LAST_SEQ_NUM;
use fix_fields::Draft;

/// The draft that a session has in hand: the application gave it, and its entry isn't kept yet.
#[derive(Drop)]
pub struct PendingDraft {
    pub draft: Option<Draft>,
    /// Its entry was lost: the message store has it or not.
    pub store_failed: bool,
}

/// In phase Up, asks the application for a draft, unless one is in hand, and sends what is in hand
/// then.
pub fn offer_draft<O: Outside>(o: &mut O, context: &Context, work: &mut Work) -> Result<(), Ending>
    requires ready { IsReadyToTurn context.now.identity (O.seen o.old) (Some work.old.state.last) work.old }
    ensures ready { IsReadyToTurn context.now.identity (O.seen o.new) (open_behind result work.new.state) work.new }
    ensures notes { HasTrace (O.seen o.old) (O.seen o.new)
        (λ notes. OfferDraft context.now.identity (work_seen work.old) notes result (work_seen work.new)) }
{
    match work.state.phase {
        Phase::Up => {
            if work.pending.draft.is_some() {
                return send_pending(o, context, work);
            }
            ask_for(o, &mut work.pending);
            send_pending(o, context, work)
        }
        Phase::AwaitLogon => Ok(()),
        Phase::Down => Ok(()),
    }
}

/// The message store was opened again, and tells its last number: drops the draft in hand where its
/// entry was lost and is stored.
pub fn settle_pending(pending: &mut PendingDraft, before: u32, last: u32)
    ensures { pending.new ≡ pending_reopened pending.old before last }
{
    if pending.store_failed && before < last {
        pending.draft = None;
    }
    pending.store_failed = false;
}

/// Says that the draft in hand, if there is one, may be sent. The call of `draft.kind()` is there for this
/// fact alone, which each method of a draft states; what it gives isn't used.
pub fn pending_is_draft(pending: &PendingDraft)
    ensures { IfSome pending.now.draft IsDraft }
{
    if let Some(draft) = &pending.draft {
        let _kind = draft.kind();
    }
}

// Sends the draft in hand, if there is one, under the next number. It stays in hand until its entry
// is kept.
fn send_pending<O: Outside>(o: &mut O, context: &Context, work: &mut Work) -> Result<(), Ending>
    requires ready { IsReadyToTurn context.now.identity (O.seen o.old) (Some work.old.state.last) work.old }
    ensures ready { IsReadyToTurn context.now.identity (O.seen o.new) (open_behind result work.new.state) work.new }
    ensures notes { HasTrace (O.seen o.old) (O.seen o.new)
        (λ notes. SendPending context.now.identity (work_seen work.old) notes result (work_seen work.new)) }
{
    pending_is_draft(&work.pending);
    let Some(draft) = &work.pending.draft else {
        return Ok(());
    };
    if work.state.last >= LAST_SEQ_NUM {
        work.pending.store_failed = false;
        return Err(Ending::NumbersSpent);
    }
    let before = work.state.last;
    let sent = send_draft(o, context, &mut work.state, draft);
    keep_pending(&mut work.pending, before, work.state.last, is_lost(&sent));
    ending_of(&sent)
}

// Asks the application for a draft.
fn ask_for<O: Outside>(o: &mut O, pending: &mut PendingDraft)
    requires none { pending.old.draft ≡ None }
    ensures opens { (O.seen o.new).open_at ≡ (O.seen o.old).open_at }
    ensures noted { Trace (O.seen o.old) (O.seen o.new) (Asked (option_map draft_body pending.new.draft) ∷ []) }
    ensures store_failed { pending.new.store_failed ≡ pending.old.store_failed }
{
    pending.draft = o.ask();
}

// After a sending the draft stays in hand where it took no number.
fn keep_pending(pending: &mut PendingDraft, before: u32, last: u32, lost: bool)
    ensures { pending.new
        ≡ (if last == before then record { draft = pending.old.draft; store_failed = lost } else no_draft) }
{
    if last == before {
        pending.store_failed = lost;
        return;
    }
    pending.store_failed = false;
    pending.draft = None;
}
