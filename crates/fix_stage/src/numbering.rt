//! A number for one message more, and room for its entry. `staging` calls these first.
ghost use Rattle.std.specs.Prelude.{◌≡◌, ◌≤◌, IsTrue, OnOk, Some};
ghost use Rattle.fix_outside.specs.Calls.{HasCalls};
ghost use Rattle.fix_stage.specs.Stage.{has_room};
ghost use Rattle.fix_stage.specs.Sender.{IsReady, open_after, next_number};
ghost use Rattle.fix_stage.specs.Staging.{Numbered, Roomy};

use crate::flushing::flush;
use crate::{Context, Sender, StageFault};
use fix_base::LAST_SEQ_NUM;
use fix_outside::Outside;

/// A message takes the next number, where there is one. Where there is none, what is staged goes out before
/// that is answered.
#[tactic(auto, using(crate::proofs::Carrying::stagings))]
pub fn number<O: Outside>(
    o: &mut O,
    context: &Context,
    sender: &mut Sender,
) -> Result<(), StageFault>
    requires ready { IsReady context.now.identity (O.seen o.old) (Some sender.old.numbers.last) sender.old }
    ensures ready { IsReady context.now.identity (O.seen o.new) (open_after result sender.new) sender.new }
    ensures free { OnOk result (next_number sender.new ≤ 999999999) }
    ensures calls { HasCalls (O.seen o.old) (O.seen o.new) (λ calls. Numbered sender.old calls result sender.new) }
{
    if sender.numbers.last + sender.stage.len() < LAST_SEQ_NUM {
        return Ok(());
    }
    flush(o, context, sender, 0)?;
    Err(StageFault::NumbersSpent)
}

/// Makes room for an entry of this size.
#[tactic(auto, using(crate::proofs::Carrying::stagings))]
pub fn make_room<O: Outside>(
    o: &mut O,
    context: &Context,
    sender: &mut Sender,
    size: usize,
) -> Result<(), StageFault>
    requires ready { IsReady context.now.identity (O.seen o.old) (Some sender.old.numbers.last) sender.old }
    requires free { next_number sender.old ≤ 999999999 }
    requires small { size ≤ 1114103 }
    ensures ready { IsReady context.now.identity (O.seen o.new) (open_after result sender.new) sender.new }
    ensures free { OnOk result (next_number sender.new ≤ 999999999) }
    ensures room { OnOk result (IsTrue (has_room sender.new.stage size)) }
    ensures calls { HasCalls (O.seen o.old) (O.seen o.new) (λ calls. Roomy size sender.old calls result sender.new) }
{
    if sender.stage.has_room(size) {
        return Ok(());
    }
    flush(o, context, sender, 0)
}
