//! Stages the session messages that an answer sends. `carrying` calls this.
ghost use Rattle.std.specs.Prelude.{◌≡◌, ◌<◌, Some, ◌∷◌, []};
ghost use Rattle.fix_outside.specs.Calls.{HasCalls};
ghost use Rattle.fix_admin.specs.Say.{say_seen};
ghost use Rattle.fix_admin.specs.Say as says;
ghost use Rattle.fix_stage.specs.Sender.{IsReady};
ghost use Rattle.fix_stage.specs.Sender as senders;
ghost use Rattle.fix_stage.specs.Staging.{MakesAndStages};
ghost use Rattle.fix_steps.specs.Said.{said_outgoing, IsSayable};
ghost use Rattle.fix_steps.specs.Said as sayings;
ghost use Rattle.fix_steps.specs.Ending.{open_after};
ghost use Rattle.fix_steps.specs.Steps.{Saying};

use crate::Ending;
use crate::ending::ending_of;
use fix_admin::{Say, build};
use fix_base::Entry;
use fix_outside::Outside;
use fix_stage::{Context, Sender, StageFault, stage};

/// Says a message under the next number, at the time of the last reading.
pub fn say<O: Outside>(
    o: &mut O,
    context: &Context,
    sender: &mut Sender,
    said: &Say<'_>,
) -> Result<(), Ending>
    requires ready { IsReady context.now.identity (O.seen o.old) (Some sender.old.numbers.last) sender.old }
    requires sayable { IsSayable (say_seen said.now) }
    ensures ready { IsReady context.now.identity (O.seen o.new) (open_after result sender.new) sender.new }
    ensures calls { HasCalls (O.seen o.old) (O.seen o.new)
        (λ calls. Saying context.now.identity (say_seen said.entry.now) sender.old calls result sender.new) }
{
    match stage_said(o, context, sender, said) {
        Ok(()) => Ok(()),
        Err(fault) => Err(ending_of(fault)),
    }
}

/// Stages a session message under the next number, at the time of the last reading. Its fields are made first.
pub fn stage_said<O: Outside>(
    o: &mut O,
    context: &Context,
    sender: &mut Sender,
    said: &Say<'_>,
) -> Result<(), StageFault>
    requires ready { IsReady context.now.identity (O.seen o.old) (Some sender.old.numbers.last) sender.old }
    requires sayable { IsSayable (say_seen said.now) }
    ensures ready { IsReady context.now.identity (O.seen o.new) (senders.open_after result sender.new) sender.new }
    ensures calls { HasCalls (O.seen o.old) (O.seen o.new) (λ calls. MakesAndStages context.now.identity
        (said_outgoing context.now.identity.begin sender.old.numbers.reading (say_seen said.entry.now)) sender.old calls
        result sender.new) }
{
    let kind = type_of(said);
    let entry = Entry::Admin {
        time: sender.numbers.reading,
        kind,
        about: about_of(said),
    };
    let Ok(rest) = build(context.alloc, context.identity.begin, said) else {
        return Err(StageFault::OutOfMemory);
    };
    stage(o, context, sender, entry, &[kind], rest.as_slice(), true)
}

// MsgType (35).
fn type_of(said: &Say<'_>) -> u8
    ensures { result ≡ says.type_of (say_seen said.now) }
{
    match said {
        Say::Heartbeat { .. } => b'0',
        Say::TestRequest => b'1',
        Say::ResendRequest { .. } => b'2',
        Say::Reject { .. } => b'3',
        Say::GapFill { .. } => b'4',
        Say::Logout { .. } => b'5',
        Say::Logon { .. } => b'A',
    }
}

// The MsgSeqNum (34) of the message that a Reject rejects, else 0.
fn about_of(said: &Say<'_>) -> u32
    ensures { result ≡ sayings.about_of (say_seen said.now) }
{
    match said {
        Say::Reject { about, .. } => *about,
        Say::Heartbeat { .. } => 0,
        Say::TestRequest => 0,
        Say::ResendRequest { .. } => 0,
        Say::GapFill { .. } => 0,
        Say::Logout { .. } => 0,
        Say::Logon { .. } => 0,
    }
}
