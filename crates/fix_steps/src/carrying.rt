//! Does the steps of a decision in order. A session calls this with what `fix_machine` decided.
ghost use Rattle.std.specs.Prelude.{◌≡◌, ◌≢◌, Some, Err};
ghost use Rattle.std.specs.List.{AllByRecursion};
ghost use Rattle.fix_outside.specs.Calls.{HasCalls};
ghost use Rattle.fix_machine.specs.Event.{step_seen};
ghost use Rattle.fix_machine.specs.Answer.{steps_of};
ghost use Rattle.fix_machine.specs.Numbers as numbers;
ghost use Rattle.fix_stage.specs.Sender.{IsReady};
ghost use Rattle.fix_steps.specs.Ending.{open_after};
ghost use Rattle.fix_steps.specs.Steps.{IsSource, frame_in, IsThere, IsCarried};
ghost use Rattle.fix_steps.specs.Steps.{Handing, Performed, Begins, Done, Carried};
ghost use Rattle.fix_steps.specs.Causes.{HasCause};

use crate::ending::ending_of;
use crate::handing::hand;
use crate::resetting::{confirm, reset};
use crate::saying::say;
use crate::serving::serve_range;
use crate::{Ending, Source};
use fix_machine::{Decision, Step};
use fix_outside::Outside;
use fix_stage::{Context, Sender, flush};

/// Carries out a decision. What is staged goes out first where a message is handed over, a ResendRequest is served or
/// a reset is kept; then its steps are done in order, until one ends the answer.
pub fn carry_out<O: Outside>(
    o: &mut O,
    context: &Context,
    sender: &mut Sender,
    source: &Source<'_>,
    decision: &Decision<'_>,
) -> Result<(), Ending>
    requires ready { IsReady context.now.identity (O.seen o.old) (Some sender.old.numbers.last) sender.old }
    requires source { IsSource source.now }
    requires carried { AllByRecursion (IsCarried (frame_in source.now)) (steps_of decision.now) }
    ensures ready { IsReady context.now.identity (O.seen o.new) (open_after result sender.new) sender.new }
    ensures calls { HasCalls (O.seen o.old) (O.seen o.new)
        (λ calls. Carried context.now.identity (frame_in source.entry.now) (steps_of decision.entry.now)
        sender.old calls result sender.new) }
    ensures cause { HasCause result (O.seen o.old).faults (O.seen o.new).faults }
{
    begin(o, context, sender, decision)?;
    do_all(o, context, sender, source, decision)
}

// Keeps and writes what is staged, where a step asks for that.
fn begin<O: Outside>(
    o: &mut O,
    context: &Context,
    sender: &mut Sender,
    decision: &Decision<'_>,
) -> Result<(), Ending>
    requires ready { IsReady context.now.identity (O.seen o.old) (Some sender.old.numbers.last) sender.old }
    ensures ready { IsReady context.now.identity (O.seen o.new) (open_after result sender.new) sender.new }
    ensures calls { HasCalls (O.seen o.old) (O.seen o.new)
        (λ calls. Begins (steps_of decision.now) sender.old calls result sender.new) }
{
    if !begins_with_a_flush(decision) {
        return Ok(());
    }
    match flush(o, context, sender, 0) {
        Ok(()) => Ok(()),
        Err(fault) => Err(ending_of(fault)),
    }
}

// Whether a step asks that what is staged is kept and written before the answer.
fn begins_with_a_flush(decision: &Decision<'_>) -> bool
    ensures { result ≡ numbers.begins_with_a_flush (steps_of decision.now) }
{
    is_after_a_flush(&decision.first)
        || is_after_a_flush(&decision.second)
        || is_after_a_flush(&decision.third)
        || is_after_a_flush(&decision.fourth)
}

fn is_after_a_flush(step: &Step<'_>) -> bool
    ensures { result ≡ numbers.is_after_a_flush (step_seen step.now) }
{
    match step {
        Step::Send(_) => false,
        Step::Serve { .. } => true,
        Step::Hand => true,
        Step::Stash => false,
        Step::Expect(_) => false,
        Step::Reset => true,
        Step::Confirm => true,
        Step::Close(_) => false,
        Step::Nothing => false,
    }
}

// Does the four steps.
fn do_all<O: Outside>(
    o: &mut O,
    context: &Context,
    sender: &mut Sender,
    source: &Source<'_>,
    decision: &Decision<'_>,
) -> Result<(), Ending>
    requires ready { IsReady context.now.identity (O.seen o.old) (Some sender.old.numbers.last) sender.old }
    requires source { IsSource source.now }
    requires carried { AllByRecursion (IsCarried (frame_in source.now)) (steps_of decision.now) }
    ensures ready { IsReady context.now.identity (O.seen o.new) (open_after result sender.new) sender.new }
    ensures calls { HasCalls (O.seen o.old) (O.seen o.new)
        (λ calls. Done context.now.identity (frame_in source.entry.now) (steps_of decision.entry.now) sender.old calls
        result sender.new) }
{
    perform(o, context, sender, source, &decision.first)?;
    perform(o, context, sender, source, &decision.second)?;
    perform(o, context, sender, source, &decision.third)?;
    perform(o, context, sender, source, &decision.fourth)
}

// Does one step.
fn perform<O: Outside>(
    o: &mut O,
    context: &Context,
    sender: &mut Sender,
    source: &Source<'_>,
    step: &Step<'_>,
) -> Result<(), Ending>
    requires ready { IsReady context.now.identity (O.seen o.old) (Some sender.old.numbers.last) sender.old }
    requires source { IsSource source.now }
    requires carried { IsCarried (frame_in source.now) (step_seen step.now) }
    ensures ready { IsReady context.now.identity (O.seen o.new) (open_after result sender.new) sender.new }
    ensures calls { HasCalls (O.seen o.old) (O.seen o.new)
        (λ calls. Performed context.now.identity (frame_in source.entry.now) sender.old (step_seen step.entry.now) calls
        result sender.new) }
{
    match step {
        Step::Send(said) => say(o, context, sender, said),
        Step::Serve { from, to } => serve_range(o, context, sender, *from, *to),
        Step::Hand => hand_over(o, context, sender, source),
        Step::Expect(number) => {
            sender.numbers.expected = *number;
            Ok(())
        }
        Step::Close(why) => Err(Ending::Closed(*why)),
        Step::Reset => reset(o, sender),
        Step::Confirm => confirm(o, sender),
        // Who asked for the answer keeps a message that waits.
        Step::Stash => Ok(()),
        Step::Nothing => Ok(()),
    }
}

// Hands the message over that is answered.
fn hand_over<O: Outside>(
    o: &mut O,
    context: &Context,
    sender: &Sender,
    source: &Source<'_>,
) -> Result<(), Ending>
    requires source { IsSource source.now }
    requires there { IsThere (frame_in source.now) }
    ensures opens { (O.seen o.new).open_at ≡ (O.seen o.old).open_at }
    ensures open { result ≢ Err Ending.StoreFault }
    ensures calls { HasCalls (O.seen o.old) (O.seen o.new)
        (λ calls. Handing (frame_in source.entry.now) sender.now calls result sender.now) }
{
    match source {
        Source::Message { frame, head } => hand(o, context, sender, frame, head),
        Source::Other => unreachable!(),
    }
}
