//! The draft that a session has in hand. `flushing` lets go of it where the record that has its entry is kept.
ghost use Rattle.std.specs.Prelude.{◌≡◌, IfSome};
ghost use Rattle.fix_fields.specs.Drafted.{IsDraft};
ghost use Rattle.fix_stage.specs.Sender.{kept_draft, lost_draft, unstaged_draft, reopened_draft};

use fix_fields::Draft;

/// The draft that a session has in hand: the application gave it, and its entry isn't kept yet.
#[derive(Drop)]
pub struct PendingDraft {
    pub draft: Option<Draft>,
    /// Its entry is staged.
    pub staged: bool,
    /// The record that has its entry was lost: the message store has it or not.
    pub store_failed: bool,
}

/// The message store was opened again, and tells its last number: drops the draft in hand where the record
/// that has its entry was lost and is stored.
pub fn settle_pending(pending: &mut PendingDraft, before: u32, last: u32)
    ensures { pending.new ≡ reopened_draft pending.old before last }
{
    if pending.store_failed && before < last {
        pending.draft = None;
    }
    pending.staged = false;
    pending.store_failed = false;
}

/// Says that the draft in hand, if there is one, may be sent. The call of `draft.kind()` is there for this
/// fact alone, which each method of a draft states; what it gives isn't used.
pub fn pending_is_draft(pending: &PendingDraft)
    ensures { IfSome pending.now.draft IsDraft }
{
    if let Some(draft) = &pending.draft {
        let _kind = draft.kind();
    }
}

/// The record that has the entry of the draft in hand is kept.
pub fn let_go(pending: &mut PendingDraft)
    ensures { pending.new ≡ kept_draft pending.old }
{
    if pending.staged {
        pending.draft = None;
        pending.staged = false;
        pending.store_failed = false;
    }
}

/// That record was lost.
pub fn note_lost(pending: &mut PendingDraft)
    ensures { pending.new ≡ lost_draft pending.old }
{
    pending.store_failed = pending.staged;
    pending.staged = false;
}

/// That record was not kept.
pub fn unstage(pending: &mut PendingDraft)
    ensures { pending.new ≡ unstaged_draft pending.old }
{
    pending.staged = false;
}
