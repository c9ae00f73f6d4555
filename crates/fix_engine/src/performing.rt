//! Does the steps of an answer in order. `handling` calls this with what `machine` decided.
ghost use Rattle.std.specs.Prelude.{◌≡◌, ◌≢◌, Some, Err};
ghost use Rattle.fix_base.specs.Shape.{IsFrame};
ghost use Rattle.fix_base.specs.Trace.{HasTrace};
ghost use Rattle.fix_engine.specs.Ready.{IsReady};
ghost use Rattle.fix_engine.specs.Faults.{open_behind};
ghost use Rattle.fix_engine.specs.Inbound.{IsInbound};
ghost use Rattle.fix_engine.specs.ReadInbound.{inbound_of};
ghost use Rattle.fix_engine.specs.Answer.{Performed, Carried};
ghost use Rattle.fix_engine.specs.declared.state.Step.TheVariants as step;

use crate::context::Context;
use crate::inbound::Inbound;
use crate::outbound::send;
use crate::{Ending, Outside, Phase, State, Step};
use fix_base::SeqNum;
use fix_fields::body_of;
use fix_outside::{Handed, Said};

/// Does the steps of an answer in order, until one ends the run.
pub fn carry_out<O: Outside>(
    o: &mut O,
    context: &Context,
    inbound: &Inbound<'_>,
    state: &mut State,
    steps: &[Step],
) -> Result<(), Ending>
    requires ready { IsReady context.now.identity (O.seen o.old) (Some state.old.last) state.old }
    requires frame { IsFrame inbound.now.frame.now }
    requires presents { IsInbound inbound.now.frame.now (inbound_of inbound.now) }
    ensures ready { IsReady context.now.identity (O.seen o.new) (open_behind result state.new) state.new }
    ensures notes { HasTrace (O.seen o.old) (O.seen o.new)
        (λ notes. Carried context.now.identity inbound.entry.now.frame.now state.old steps.now notes result state.new) }
{
    for step in steps {
        perform(o, context, inbound, state, *step)?;
    }
    Ok(())
}

#[tactic(auto, using(crate::proofs::Carrying::steps))]
fn perform<O: Outside>(
    o: &mut O,
    context: &Context,
    inbound: &Inbound<'_>,
    state: &mut State,
    step: Step,
) -> Result<(), Ending>
    requires ready { IsReady context.now.identity (O.seen o.old) (Some state.old.last) state.old }
    requires frame { IsFrame inbound.now.frame.now }
    requires presents { IsInbound inbound.now.frame.now (inbound_of inbound.now) }
    ensures ready { IsReady context.now.identity (O.seen o.new) (open_behind result state.new) state.new }
    ensures notes { HasTrace (O.seen o.old) (O.seen o.new)
        (λ notes. Performed context.now.identity inbound.entry.now.frame.now state.old step notes result state.new) }
{
    match step {
        Step::Nothing => Ok(()),
        Step::Count(number) => {
            state.expected = number.get() + 1;
            Ok(())
        }
        Step::GoUp => {
            state.phase = Phase::Up;
            Ok(())
        }
        Step::Close(why) => {
            state.phase = Phase::Down;
            Err(Ending::Closed(why))
        }
        Step::GiveUp { number } => {
            state.phase = Phase::Down;
            Err(Ending::NotBuilt { number })
        }
        Step::Hand { number, marked } => hand(o, context, inbound, state, number, marked),
        Step::Send { say, counts } => send(o, context, state, say, counts),
    }
}

fn hand<O: Outside>(
    o: &mut O,
    context: &Context,
    inbound: &Inbound<'_>,
    state: &State,
    number: SeqNum,
    marked: bool,
) -> Result<(), Ending>
    requires frame { IsFrame inbound.now.frame.now }
    requires presents { IsInbound inbound.now.frame.now (inbound_of inbound.now) }
    ensures opens { (O.seen o.new).open_at ≡ (O.seen o.old).open_at }
    ensures fault { result ≢ Err Ending.StoreFault }
    ensures notes { HasTrace (O.seen o.old) (O.seen o.new)
        (λ notes. Performed context.now.identity inbound.entry.now.frame.now state.now (step.Hand number marked) notes
        result state.now) }
{
    let body = match body_of(context.alloc, inbound.frame) {
        Ok(body) => body,
        Err(_) => return Err(Ending::OutOfMemory),
    };
    let handed = Handed {
        number: number.get(),
        marked,
        kind: inbound.head.kind,
        body: body.as_slice(),
    };
    match o.hand(&handed) {
        Said::Taken => Ok(()),
        Said::Failed => Err(Ending::AppFault),
        Said::OutOfMemory => Err(Ending::OutOfMemory),
    }
}
