//! Hands the message that is answered over to the application. `carrying` calls this.
ghost use Rattle.std.specs.Prelude.{◌≡◌, ◌≢◌, Some, Err, option_map};
ghost use Rattle.fix_base.specs.Says.{is_yes};
ghost use Rattle.fix_outside.specs.Calls.{HasCalls};
ghost use Rattle.fix_machine.specs.Answer as answers;
ghost use Rattle.fix_steps.specs.Steps.{IsMessage, Handing};

use crate::Ending;
use fix_base::SeqNum;
use fix_fields::{Envelope, body_of};
use fix_outside::{Handed, Outside, Said};
use fix_stage::{Context, Sender};

/// Hands the message over, with its number, its mark and its body. Nothing is staged then.
pub fn hand<O: Outside>(
    o: &mut O,
    context: &Context,
    sender: &Sender,
    frame: &[u8],
    head: &Envelope<'_>,
) -> Result<(), Ending>
    requires is { IsMessage frame.now head.now }
    ensures opens { (O.seen o.new).open_at ≡ (O.seen o.old).open_at }
    ensures open { result ≢ Err Ending.StoreFault }
    ensures calls { HasCalls (O.seen o.old) (O.seen o.new)
        (λ calls. Handing (Some frame.now) sender.now calls result sender.now) }
{
    let Ok(body) = body_of(context.alloc, frame) else {
        return Err(Ending::OutOfMemory);
    };
    let handed = Handed {
        number: number_of(head.number),
        marked: is_marked(head.dup),
        kind: head.kind,
        body: body.as_slice(),
    };
    match o.hand(&handed) {
        Said::Taken => Ok(()),
        Said::Failed => Err(Ending::AppFault),
        Said::OutOfMemory => Err(Ending::OutOfMemory),
    }
}

// The number, or 0 where none was readable.
fn number_of(number: Option<SeqNum>) -> u32
    ensures { result ≡ answers.number_or_0 number }
{
    match number {
        None => 0,
        Some(number) => number.get(),
    }
}

// PossDupFlag (43) is Y.
fn is_marked(flag: Option<&[u8]>) -> bool
    ensures { result ≡ is_yes (option_map (λ v. v.now) flag.entry) }
{
    match flag {
        None => false,
        Some(value) => value == b"Y".as_slice(),
    }
}
