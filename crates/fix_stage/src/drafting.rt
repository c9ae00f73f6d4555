//! Stages drafts of the application: one that it posts, and the one that a session has in hand.
ghost use Rattle.std.specs.Prelude.{◌≡◌, IfOk, Some};
ghost use Rattle.fix_base.specs.declared.entry.Entry.TheVariants.{App};
ghost use Rattle.fix_base.specs.declared.entry.By.TheVariants.{Caller};
ghost use Rattle.fix_outside.specs.Calls.{HasCalls};
ghost use Rattle.fix_fields.specs.Drafted.{draft_body};
ghost use Rattle.fix_stage.specs.Sender.{IsReady, open_after};
ghost use Rattle.fix_stage.specs.Causes.{HasCause};
ghost use Rattle.fix_stage.specs.Staging.{MakesAndStages, StagesPending};
ghost use Rattle.fix_stage.specs.Outgoing.{draft_outgoing};

use crate::staging::stage;
use crate::{Context, Sender, StageFault};
use fix_base::{By, Bytes, Entry, OutOfMemory};
use fix_fields::Draft;
use fix_outside::Outside;
use std::alloc::Global;

/// Stages a draft under the next number, at the time of the last reading. Its frame goes out when it is kept only
/// where it is to be written, as in a session that is up.
pub fn stage_draft<O: Outside>(
    o: &mut O,
    context: &Context,
    sender: &mut Sender,
    draft: &Draft,
    written: bool,
) -> Result<(), StageFault>
    requires ready { IsReady context.now.identity (O.seen o.old) (Some sender.old.numbers.last) sender.old }
    ensures ready { IsReady context.now.identity (O.seen o.new) (open_after result sender.new) sender.new }
    ensures calls { HasCalls (O.seen o.old) (O.seen o.new) (λ calls. MakesAndStages context.now.identity
        (draft_outgoing sender.old.numbers.reading draft.now written) sender.old calls result sender.new) }
    ensures cause { HasCause result (O.seen o.old).faults (O.seen o.new).faults }
{
    let Ok(entry) = entry_of(context.alloc, sender.numbers.reading, draft) else {
        return Err(StageFault::OutOfMemory);
    };
    stage(
        o,
        context,
        sender,
        entry,
        draft.kind(),
        draft.rest(),
        written,
    )
}

/// Stages the draft in hand, if there is one. It stays in hand until the record that has its entry is kept.
pub fn stage_pending<O: Outside>(
    o: &mut O,
    context: &Context,
    sender: &mut Sender,
) -> Result<(), StageFault>
    requires ready { IsReady context.now.identity (O.seen o.old) (Some sender.old.numbers.last) sender.old }
    ensures ready { IsReady context.now.identity (O.seen o.new) (open_after result sender.new) sender.new }
    ensures calls { HasCalls (O.seen o.old) (O.seen o.new)
        (λ calls. StagesPending context.now.identity sender.old calls result sender.new) }
    ensures cause { HasCause result (O.seen o.old).faults (O.seen o.new).faults }
{
    let Some(draft) = &sender.pending.draft else {
        return Ok(());
    };
    let Ok(copy) = draft.copy(context.alloc) else {
        return Err(StageFault::OutOfMemory);
    };
    stage_draft(o, context, sender, &copy, true)?;
    sender.pending.staged = true;
    Ok(())
}

// The entry that is kept of a draft.
fn entry_of(alloc: Global, time: u64, draft: &Draft) -> Result<Entry, OutOfMemory>
    ensures { IfOk result (λ entry. entry ≡ App time Caller (draft_body draft.now)) }
{
    let mut body = Vec::from_slice(alloc, b"35=")?;
    body.extend_from_slice(draft.kind())?;
    body.extend_from_slice(b"\x01")?;
    body.extend_from_slice(draft.rest())?;
    Ok(Entry::App {
        time,
        by: By::Caller,
        body: Bytes::from_vec(body),
    })
}
