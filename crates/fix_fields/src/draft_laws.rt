//! What holds of drafts, on a function that does nothing.
ghost use Rattle.std.specs.Prelude.{ℕ, ◌≤◌};
ghost use Rattle.fix_base.specs.Payload.{IsAppPayload, LAST_TIME};
ghost use Rattle.fix_fields.specs.Drafts.{body_with};
ghost use Rattle.fix_fields.specs.Drafted.{DraftText, IsDraft};

/// A draft is a message that may be kept and sent: its body is a list of fields after MsgType (35),
/// none of them the engine's, and it fits.
pub fn a_draft_may_be_kept()
    ensures { (draft : DraftText) (time : ℕ) → IsDraft draft → time ≤ LAST_TIME
        → IsAppPayload time (body_with draft.kind draft.rest) }
{}
