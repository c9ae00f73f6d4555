//! Answers what happens to a session: its machine decides, and the steps are carried out in order. A turn calls
//! `receive` for each frame that it reads, and `answer` for anything else.
ghost use Rattle.std.specs.Prelude.{◌≡◌, Some};
ghost use Rattle.fix_base.specs.Shape.{IsFrame};
ghost use Rattle.fix_outside.specs.Calls.{HasCalls};
ghost use Rattle.fix_machine.specs.Event.{EventSeen, IsEvent};
ghost use Rattle.fix_machine.specs.Answer.{steps_of};
ghost use Rattle.fix_machine.specs.Numbers.{IsNoMessage};
ghost use Rattle.std.specs.List.{AllByRecursion};
ghost use Rattle.fix_steps.specs.Ending.{open_after};
ghost use Rattle.fix_steps.specs.Steps.{IsSource, frame_in, IsCarried};
ghost use Rattle.fix_session.specs.Judged.{rules_seen};
ghost use Rattle.fix_session.specs.State.{IsSound, expected_of};
ghost use Rattle.fix_session.specs.Answering.{Standing, Answers, AnswersFrame, Moves, Round};
ghost use Rattle.fix_session.specs.Answering.{CatchesUp, Receives};

use crate::waiting::{is_due, take_due, wait};
use crate::{Rules, State, asks_for_a_reset, is_gap_fill, judge};
use fix_fields::envelope;
use fix_machine::{Decision, Event};
use fix_outside::Outside;
use fix_stage::Context;
use fix_steps::{Ending, Source, carry_out};

/// Answers a frame that was read, and then the frames that waited for it.
pub fn receive<O: Outside>(
    o: &mut O,
    context: &Context,
    rules: &Rules<'_>,
    state: &mut State,
    frame: &[u8],
) -> Result<(), Ending>
    requires sound { IsSound context.now.identity (O.seen o.old) (Some state.old.sender.numbers.last) state.old }
    requires frame { IsFrame frame.now }
    ensures sound { IsSound context.now.identity (O.seen o.new) (open_after result state.new.sender) state.new }
    ensures calls { HasCalls (O.seen o.old) (O.seen o.new)
        (λ calls. Receives context.now.identity (rules_seen rules.now) frame.now state.old calls result state.new) }
{
    round(o, context, rules, state, frame, true)?;
    catch_up(o, context, rules, state)
}

// Answers the frames that wait, each when its number is expected.
fn catch_up<O: Outside>(
    o: &mut O,
    context: &Context,
    rules: &Rules<'_>,
    state: &mut State,
) -> Result<(), Ending>
    requires sound { IsSound context.now.identity (O.seen o.old) (Some state.old.sender.numbers.last) state.old }
    ensures sound { IsSound context.now.identity (O.seen o.new) (open_after result state.new.sender) state.new }
    ensures calls { HasCalls (O.seen o.old) (O.seen o.new)
        (λ calls. CatchesUp context.now.identity (rules_seen rules.now) state.old calls result state.new) }
{
    while let Some(frame) = take_due(state) {
        round(o, context, rules, state, frame.as_slice(), false)?;
    }
    Ok(())
}

// Answers a frame, which was read now or waited, and asks for the next messages of a gap where that is due.
fn round<O: Outside>(
    o: &mut O,
    context: &Context,
    rules: &Rules<'_>,
    state: &mut State,
    frame: &[u8],
    new: bool,
) -> Result<(), Ending>
    requires sound { IsSound context.now.identity (O.seen o.old) (Some state.old.sender.numbers.last) state.old }
    requires frame { IsFrame frame.now }
    ensures sound { IsSound context.now.identity (O.seen o.new) (open_after result state.new.sender) state.new }
    ensures calls { HasCalls (O.seen o.old) (O.seen o.new)
        (λ calls. Round context.now.identity (rules_seen rules.now) new frame.now state.old calls result state.new) }
{
    let before = state.machine.state().expected;
    answer_frame(o, context, rules, state, frame, new)?;
    go_on(o, context, state, before)
}

// Answers a frame.
fn answer_frame<O: Outside>(
    o: &mut O,
    context: &Context,
    rules: &Rules<'_>,
    state: &mut State,
    frame: &[u8],
    new: bool,
) -> Result<(), Ending>
    requires sound { IsSound context.now.identity (O.seen o.old) (Some state.old.sender.numbers.last) state.old }
    requires frame { IsFrame frame.now }
    ensures sound { IsSound context.now.identity (O.seen o.new) (open_after result state.new.sender) state.new }
    ensures calls { HasCalls (O.seen o.old) (O.seen o.new)
        (λ calls. AnswersFrame context.now.identity (rules_seen rules.now) new frame.now state.old calls result state.new) }
{
    let head = envelope(frame);
    let Ok(verdict) = judge(context.alloc, rules, frame, head.kind) else {
        return Err(Ending::OutOfMemory);
    };
    let decision = state.machine.decide(&Event::Frame {
        head: &head,
        verdict,
        full: state.waiting.full(frame.len()),
        gap: is_gap_fill(frame),
        reset: asks_for_a_reset(frame),
    });
    wait(context.alloc, new, state, head.number, frame, &decision)?;
    stand(
        o,
        context,
        state,
        &Source::Message { frame, head: &head },
        &decision,
    )
}

// Where the expected number changed, the next messages of a gap may be asked for.
fn go_on<O: Outside>(
    o: &mut O,
    context: &Context,
    state: &mut State,
    before: u32,
) -> Result<(), Ending>
    requires sound { IsSound context.now.identity (O.seen o.old) (Some state.old.sender.numbers.last) state.old }
    ensures sound { IsSound context.now.identity (O.seen o.new) (open_after result state.new.sender) state.new }
    ensures calls { HasCalls (O.seen o.old) (O.seen o.new)
        (λ calls. Moves context.now.identity before state.old calls result state.new) }
{
    if state.machine.state().expected == before {
        return Ok(());
    }
    let event = Event::Moved {
        waiting: is_due(state),
    };
    answer(o, context, state, &event)
}

/// Answers another event than a message.
pub fn answer<O: Outside>(
    o: &mut O,
    context: &Context,
    state: &mut State,
    event: &Event<'_>,
) -> Result<(), Ending>
    requires sound { IsSound context.now.identity (O.seen o.old) (Some state.old.sender.numbers.last) state.old }
    requires other { (e : EventSeen) → IsEvent event.now e → IsNoMessage e }
    ensures sound { IsSound context.now.identity (O.seen o.new) (open_after result state.new.sender) state.new }
    ensures calls { HasCalls (O.seen o.old) (O.seen o.new) (λ calls. (e : EventSeen) → IsEvent event.now e
        → Answers context.now.identity e state.old calls result state.new) }
{
    let decision = state.machine.decide(event);
    stand(o, context, state, &Source::Other, &decision)
}

// Carries out a decision.
fn stand<O: Outside>(
    o: &mut O,
    context: &Context,
    state: &mut State,
    source: &Source<'_>,
    decision: &Decision<'_>,
) -> Result<(), Ending>
    requires sound { IsSound context.now.identity (O.seen o.old) (Some state.old.sender.numbers.last) state.old }
    requires source { IsSource source.now }
    requires carried { AllByRecursion (IsCarried (frame_in source.now)) (steps_of decision.now) }
    ensures sound { IsSound context.now.identity (O.seen o.new) (open_after result state.new.sender) state.new }
    ensures calls { HasCalls (O.seen o.old) (O.seen o.new)
        (λ calls. Standing context.now.identity (frame_in source.now) (steps_of decision.now) state.old calls result
        state.new) }
{
    carry_out(o, context, &mut state.sender, source, decision)?;
    state.asked = state.machine.state().reset_asked;
    Ok(())
}
