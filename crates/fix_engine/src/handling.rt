//! Takes the frames out of what was read, in order, and answers each. `turn` calls this after a read.
ghost use Rattle.std.specs.Prelude.{Some};
ghost use Rattle.fix_base.specs.Shape.{IsFrame};
ghost use Rattle.fix_base.specs.Trace.{HasTrace};
ghost use Rattle.fix_engine.specs.Ready.{IsReady};
ghost use Rattle.fix_engine.specs.Faults.{open_behind};
ghost use Rattle.fix_engine.specs.Answer.{AnswerFrame};
ghost use Rattle.fix_engine.specs.Reading.{connection_seen, AnswerFrames};

use crate::context::Context;
use crate::inbound::read_inbound;
use crate::machine::decide;
use crate::performing::carry_out;
use crate::{Ending, Outside, State};
use fix_frame::Reader;

/// Answers the frames that stand whole in what was read, in order, until one ends the run.
pub fn answer_frames<O: Outside>(
    o: &mut O,
    context: &Context,
    state: &mut State,
    reader: &mut Reader,
) -> Result<(), Ending>
    requires ready { IsReady context.now.identity (O.seen o.old) (Some state.old.last) state.old }
    ensures ready { IsReady context.now.identity (O.seen o.new) (open_behind result state.new) state.new }
    ensures notes { HasTrace (O.seen o.old) (O.seen o.new)
        (λ notes. AnswerFrames context.now.identity (connection_seen state.old reader.old.unread) notes result
        (connection_seen state.new reader.new.unread)) }
{
    while let Some(frame) = reader.next() {
        answer_frame(o, context, state, frame)?;
    }
    Ok(())
}

fn answer_frame<O: Outside>(
    o: &mut O,
    context: &Context,
    state: &mut State,
    frame: &[u8],
) -> Result<(), Ending>
    requires ready { IsReady context.now.identity (O.seen o.old) (Some state.old.last) state.old }
    requires frame { IsFrame frame.now }
    ensures ready { IsReady context.now.identity (O.seen o.new) (open_behind result state.new) state.new }
    ensures notes { HasTrace (O.seen o.old) (O.seen o.new)
        (λ notes. AnswerFrame context.now.identity state.old frame.now notes result state.new) }
{
    let inbound = read_inbound(frame);
    let decision = decide(&context.identity, state, &inbound);
    carry_out(o, context, &inbound, state, &decision.steps)
}
