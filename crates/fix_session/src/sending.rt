//! Sends a message outside of a turn: a draft of the application, or the Logout (5) of a session that leaves. `session`
//! calls this.
ghost use Rattle.std.specs.Prelude.{◌≡◌, Some};
ghost use Rattle.fix_outside.specs.Calls.{HasCalls};
ghost use Rattle.fix_machine.specs.Event.{Wrote, Leave};
ghost use Rattle.fix_stage.specs.Combine.{AndThen};
ghost use Rattle.fix_stage.specs.Flush.{Flushed};
ghost use Rattle.fix_stage.specs.Sender.{open_after};
ghost use Rattle.fix_session.specs.State.{IsSound};
ghost use Rattle.fix_session.specs.Send as sends;
ghost use Rattle.fix_session.specs.Send.{draft_posting, logout_posting, BySender, StagesIt, Tells, Posts, EndsSo};
ghost use Rattle.fix_session.specs.Send.{PostsOrLeaves};

use crate::State;
use crate::beginning::take_time;
use crate::turn::{is_cut, leave};
use fix_admin::{LogoutText, Say};
use fix_fields::Draft;
use fix_machine::{Event, Phase};
use fix_outside::Outside;
use fix_stage::{Context, StageFault, flush, stage_draft};
use fix_steps::{ending_of, stage_said};
use std::alloc::Global;

/// Sends a draft. It is written in a session that is up, and else kept alone.
pub fn send_draft<O: Outside>(
    o: &mut O,
    context: &Context,
    state: &mut State,
    draft: &Draft,
) -> Result<(), StageFault>
    requires sound { IsSound context.now.identity (O.seen o.old) (Some state.old.sender.numbers.last) state.old }
    ensures sound { IsSound context.now.identity (O.seen o.new) (open_after result state.new.sender) state.new }
    ensures calls { HasCalls (O.seen o.old) (O.seen o.new) (λ calls. PostsOrLeaves context.now.identity
        (draft_posting (sends.is_up state.old.machine.state.phase) draft.now) state.old calls result state.new) }
{
    let posted = post_draft(o, context, state, draft);
    end(o, context, state, posted)
}

/// Sends the Logout (5) of a session that leaves.
pub fn send_logout<O: Outside>(
    o: &mut O,
    context: &Context,
    state: &mut State,
) -> Result<(), StageFault>
    requires sound { IsSound context.now.identity (O.seen o.old) (Some state.old.sender.numbers.last) state.old }
    ensures sound { IsSound context.now.identity (O.seen o.new) (open_after result state.new.sender) state.new }
    ensures calls { HasCalls (O.seen o.old) (O.seen o.new) (λ calls. PostsOrLeaves context.now.identity
        (logout_posting context.now.identity) state.old calls result state.new) }
{
    let posted = post_logout(o, context, state);
    end(o, context, state, posted)
}

// Looks at the clock, and sends the draft then.
fn post_draft<O: Outside>(
    o: &mut O,
    context: &Context,
    state: &mut State,
    draft: &Draft,
) -> Result<(), StageFault>
    requires sound { IsSound context.now.identity (O.seen o.old) (Some state.old.sender.numbers.last) state.old }
    ensures sound { IsSound context.now.identity (O.seen o.new) (open_after result state.new.sender) state.new }
    ensures calls { HasCalls (O.seen o.old) (O.seen o.new) (λ calls. Posts context.now.identity
        (draft_posting (sends.is_up state.old.machine.state.phase) draft.now) state.old calls result state.new) }
{
    match take_time(o, state) {
        Ok(()) => put_draft(o, context, state, draft),
        Err(_) => Err(StageFault::OutOfMemory),
    }
}

// Stages the draft, and keeps and writes it.
fn put_draft<O: Outside>(
    o: &mut O,
    context: &Context,
    state: &mut State,
    draft: &Draft,
) -> Result<(), StageFault>
    requires sound { IsSound context.now.identity (O.seen o.old) (Some state.old.sender.numbers.last) state.old }
    ensures sound { IsSound context.now.identity (O.seen o.new) (open_after result state.new.sender) state.new }
    ensures calls { HasCalls (O.seen o.old) (O.seen o.new) (λ calls. AndThen (StagesIt context.now.identity
        (draft_posting (sends.is_up state.old.machine.state.phase) draft.now))
        (AndThen (Tells Wrote) (BySender (Flushed 0))) state.old calls result state.new) }
{
    let written = is_up(state.machine.state().phase);
    stage_draft(o, context, &mut state.sender, draft, written)?;
    let now = state.sender.numbers.reading;
    state.machine.decide(&Event::Wrote { now });
    flush(o, context, &mut state.sender, 0)
}

fn is_up(phase: Phase) -> bool
    ensures { result ≡ sends.is_up phase }
{
    match phase {
        Phase::Up => true,
        Phase::Down => false,
        Phase::AwaitLogon => false,
        Phase::LogoutSent => false,
    }
}

// Looks at the clock, and sends the Logout then.
fn post_logout<O: Outside>(
    o: &mut O,
    context: &Context,
    state: &mut State,
) -> Result<(), StageFault>
    requires sound { IsSound context.now.identity (O.seen o.old) (Some state.old.sender.numbers.last) state.old }
    ensures sound { IsSound context.now.identity (O.seen o.new) (open_after result state.new.sender) state.new }
    ensures calls { HasCalls (O.seen o.old) (O.seen o.new) (λ calls. Posts context.now.identity
        (logout_posting context.now.identity) state.old calls result state.new) }
{
    match take_time(o, state) {
        Ok(()) => put_logout(o, context, state),
        Err(_) => Err(StageFault::OutOfMemory),
    }
}

// Stages the Logout, and keeps and writes it.
fn put_logout<O: Outside>(o: &mut O, context: &Context, state: &mut State) -> Result<(), StageFault>
    requires sound { IsSound context.now.identity (O.seen o.old) (Some state.old.sender.numbers.last) state.old }
    ensures sound { IsSound context.now.identity (O.seen o.new) (open_after result state.new.sender) state.new }
    ensures calls { HasCalls (O.seen o.old) (O.seen o.new) (λ calls. AndThen (StagesIt context.now.identity
        (logout_posting context.now.identity))
        (AndThen (Tells Leave) (BySender (Flushed 0))) state.old calls result state.new) }
{
    let logout = Say::Logout {
        text: LogoutText::Empty,
    };
    stage_said(o, context, &mut state.sender, &logout)?;
    let now = state.sender.numbers.reading;
    state.machine.decide(&Event::Leave { now });
    flush(o, context, &mut state.sender, 0)
}

// After a fault the session leaves its connection.
fn end<O: Outside>(
    o: &mut O,
    context: &Context,
    state: &mut State,
    posted: Result<(), StageFault>,
) -> Result<(), StageFault>
    requires sound { IsSound context.now.identity (O.seen o.old) (open_after posted state.old.sender) state.old }
    ensures sound { IsSound context.now.identity (O.seen o.new) (open_after result state.new.sender) state.new }
    ensures calls { HasCalls (O.seen o.old) (O.seen o.new) (λ calls. EndsSo state.old posted calls result state.new) }
{
    let Err(fault) = posted else {
        return Ok(());
    };
    match leave(o, context.alloc, state, is_cut(ending_of(fault))) {
        Ok(()) => Err(fault),
        Err(_) => Err(StageFault::OutOfMemory),
    }
}
