//! Serves a ResendRequest. `carrying` calls this.
ghost use Rattle.std.specs.Prelude.{Some};
ghost use Rattle.fix_base.specs.Wrote.{IsRequestRange};
ghost use Rattle.fix_outside.specs.Calls.{HasCalls};
ghost use Rattle.fix_stage.specs.Sender.{IsReady};
ghost use Rattle.fix_stage.specs.Serving.{Served};
ghost use Rattle.fix_steps.specs.Ending.{open_after};
ghost use Rattle.fix_steps.specs.Steps.{InAnswer};

use crate::Ending;
use crate::ending::ending_of;
use fix_outside::Outside;
use fix_stage::{Context, Sender, serve};

/// Serves the numbers from BeginSeqNo (7) to EndSeqNo (16). Nothing is staged then.
pub fn serve_range<O: Outside>(
    o: &mut O,
    context: &Context,
    sender: &Sender,
    from: u32,
    to: u32,
) -> Result<(), Ending>
    requires ready { IsReady context.now.identity (O.seen o.old) (Some sender.now.numbers.last) sender.now }
    requires range { IsRequestRange from to }
    ensures ready { IsReady context.now.identity (O.seen o.new) (open_after result sender.now) sender.now }
    ensures calls { HasCalls (O.seen o.old) (O.seen o.new)
        (λ calls. InAnswer (Served context.now.identity from to) sender.now calls result sender.now) }
{
    match serve(o, context, sender, from, to) {
        Ok(()) => Ok(()),
        Err(fault) => Err(ending_of(fault)),
    }
}
