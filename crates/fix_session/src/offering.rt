//! What a session sends of its own in a turn: its Logon, or a draft of the application. `turn` calls this first.
ghost use Rattle.std.specs.Prelude.{◌≡◌, Some};
ghost use Rattle.fix_outside.specs.Calls.{HasCalls};
ghost use Rattle.fix_steps.specs.Ending.{open_after};
ghost use Rattle.fix_session.specs.State.{IsSound};
ghost use Rattle.fix_session.specs.Turn.{Sending, StagesDraft, OffersDraft, Offers};
ghost use Rattle.fix_stage.specs.Staging.{StagesPending};

use crate::State;
use crate::answering::answer;
use fix_machine::{Event, Phase};
use fix_outside::Outside;
use fix_stage::{Context, stage_pending};
use fix_steps::{Ending, ending_of};

/// An initiator begins with its Logon. In phase Up the application is asked for a draft once, unless one is in hand.
pub fn offer<O: Outside>(o: &mut O, context: &Context, state: &mut State) -> Result<(), Ending>
    requires sound { IsSound context.now.identity (O.seen o.old) (Some state.old.sender.numbers.last) state.old }
    ensures sound { IsSound context.now.identity (O.seen o.new) (open_after result state.new.sender) state.new }
    ensures calls { HasCalls (O.seen o.old) (O.seen o.new)
        (λ calls. Offers context.now.identity state.old calls result state.new) }
{
    if state.logon_due {
        state.logon_due = false;
        return answer(o, context, state, &Event::First);
    }
    match state.machine.state().phase {
        Phase::Up => offer_draft(o, context, state),
        Phase::Down => Ok(()),
        Phase::AwaitLogon => Ok(()),
        Phase::LogoutSent => Ok(()),
    }
}

// Asks the application for a draft, unless one is in hand, and stages what is in hand then.
fn offer_draft<O: Outside>(o: &mut O, context: &Context, state: &mut State) -> Result<(), Ending>
    requires sound { IsSound context.now.identity (O.seen o.old) (Some state.old.sender.numbers.last) state.old }
    ensures sound { IsSound context.now.identity (O.seen o.new) (open_after result state.new.sender) state.new }
    ensures calls { HasCalls (O.seen o.old) (O.seen o.new)
        (λ calls. OffersDraft context.now.identity state.old calls result state.new) }
{
    if state.sender.pending.draft.is_some() {
        return stage_draft_in_hand(o, context, state);
    }
    state.sender.pending.draft = o.ask();
    stage_draft_in_hand(o, context, state)
}

// Stages the draft in hand, if there is one.
fn stage_draft_in_hand<O: Outside>(
    o: &mut O,
    context: &Context,
    state: &mut State,
) -> Result<(), Ending>
    requires sound { IsSound context.now.identity (O.seen o.old) (Some state.old.sender.numbers.last) state.old }
    ensures sound { IsSound context.now.identity (O.seen o.new) (open_after result state.new.sender) state.new }
    ensures calls { HasCalls (O.seen o.old) (O.seen o.new)
        (λ calls. StagesDraft context.now.identity state.old calls result state.new) }
{
    if !state.sender.pending.draft.is_some() {
        return Ok(());
    }
    send_pending(o, context, state)?;
    let reading = state.sender.numbers.reading;
    answer(o, context, state, &Event::Wrote { now: reading })
}

// Stages the draft in hand.
fn send_pending<O: Outside>(o: &mut O, context: &Context, state: &mut State) -> Result<(), Ending>
    requires sound { IsSound context.now.identity (O.seen o.old) (Some state.old.sender.numbers.last) state.old }
    ensures sound { IsSound context.now.identity (O.seen o.new) (open_after result state.new.sender) state.new }
    ensures calls { HasCalls (O.seen o.old) (O.seen o.new)
        (λ calls. Sending (StagesPending context.now.identity) state.old calls result state.new) }
{
    match stage_pending(o, context, &mut state.sender) {
        Ok(()) => Ok(()),
        Err(fault) => Err(ending_of(fault)),
    }
}
