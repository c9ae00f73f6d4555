//! Stages one message more: it takes the next number, and its entry is staged with its frame.
ghost use Rattle.std.specs.Prelude.{◌≡◌, ◌≤◌, IsTrue, Some, IfOk};
ghost use Rattle.fix_base.specs.Session.{IsValidIdentity};
ghost use Rattle.fix_outside.specs.Calls.{HasCalls};
ghost use Rattle.fix_stage.specs.Combine.{AndThen};
ghost use Rattle.fix_stage.specs.Stage.{size_in_stage, has_room};
ghost use Rattle.fix_stage.specs.Sender.{IsReady, open_after, next_number};
ghost use Rattle.fix_stage.specs.Outgoing.{outgoing, IsOutgoing, IsStagedFrame};
ghost use Rattle.fix_stage.specs.Causes.{HasCause};
ghost use Rattle.fix_stage.specs.Staging.{Roomy, Put, Staging};

use crate::framing::frame_of;
use crate::numbering::{make_room, number};
use crate::staged::size_of;
use crate::{Context, Sender, StageFault};
use fix_base::{Bytes, Entry, OutOfMemory};
use fix_outside::Outside;

/// Stages a message under the next number: its entry, and its frame where it is to be written when the entry is
/// kept. `kind` is its MsgType (35), and `rest` the fields after its header.
pub fn stage<O: Outside>(
    o: &mut O,
    context: &Context,
    sender: &mut Sender,
    entry: Entry,
    kind: &[u8],
    rest: &[u8],
    written: bool,
) -> Result<(), StageFault>
    requires ready { IsReady context.now.identity (O.seen o.old) (Some sender.old.numbers.last) sender.old }
    requires outgoing { IsOutgoing (outgoing entry kind.now rest.now written) }
    ensures ready { IsReady context.now.identity (O.seen o.new) (open_after result sender.new) sender.new }
    ensures calls { HasCalls (O.seen o.old) (O.seen o.new) (λ calls. Staging context.now.identity
        (outgoing entry kind.now rest.now written) sender.old calls result sender.new) }
    ensures cause { HasCause result (O.seen o.old).faults (O.seen o.new).faults }
{
    number(o, context, sender)?;
    make_room_and_put(o, context, sender, entry, kind, rest, written)
}

// Makes room for the entry, and stages it.
fn make_room_and_put<O: Outside>(
    o: &mut O,
    context: &Context,
    sender: &mut Sender,
    entry: Entry,
    kind: &[u8],
    rest: &[u8],
    written: bool,
) -> Result<(), StageFault>
    requires ready { IsReady context.now.identity (O.seen o.old) (Some sender.old.numbers.last) sender.old }
    requires outgoing { IsOutgoing (outgoing entry kind.now rest.now written) }
    requires free { next_number sender.old ≤ 999999999 }
    ensures ready { IsReady context.now.identity (O.seen o.new) (open_after result sender.new) sender.new }
    ensures calls { HasCalls (O.seen o.old) (O.seen o.new)
        (λ calls. AndThen (Roomy (size_in_stage entry)) (Put context.now.identity
        (outgoing entry kind.now rest.now written)) sender.old calls result sender.new) }
{
    make_room(o, context, sender, size_of(&entry))?;
    put(o, context, sender, entry, kind, rest, written)
}

// Stages the entry, with its frame where it is to be written.
fn put<O: Outside>(
    o: &mut O,
    context: &Context,
    sender: &mut Sender,
    entry: Entry,
    kind: &[u8],
    rest: &[u8],
    written: bool,
) -> Result<(), StageFault>
    requires ready { IsReady context.now.identity (O.seen o.old) (Some sender.old.numbers.last) sender.old }
    requires outgoing { IsOutgoing (outgoing entry kind.now rest.now written) }
    requires free { next_number sender.old ≤ 999999999 }
    requires room { IsTrue (has_room sender.old.stage (size_in_stage entry)) }
    ensures ready { IsReady context.now.identity (O.seen o.new) (open_after result sender.new) sender.new }
    ensures calls { HasCalls (O.seen o.old) (O.seen o.new) (λ calls. Put context.now.identity
        (outgoing entry kind.now rest.now written) sender.old calls result sender.new) }
{
    let number = sender.numbers.last + sender.stage.len() + 1;
    // Memory is taken first: where there is none nothing is staged.
    let Ok(frame) = staged_frame(context, number, &entry, kind, rest, written) else {
        return Err(StageFault::OutOfMemory);
    };
    match sender.stage.push(entry, frame) {
        Ok(()) => Ok(()),
        Err(_) => Err(StageFault::OutOfMemory),
    }
}

// The frame that is staged with an entry.
fn staged_frame(
    context: &Context,
    number: u32,
    entry: &Entry,
    kind: &[u8],
    rest: &[u8],
    written: bool,
) -> Result<Option<Bytes>, OutOfMemory>
    requires valid { IsValidIdentity context.now.identity }
    requires last { number ≤ 999999999 }
    requires outgoing { IsOutgoing (outgoing entry.now kind.now rest.now written) }
    ensures { IfOk result (λ frame. IsStagedFrame context.now.identity number
        (outgoing entry.now kind.now rest.now written) frame) }
{
    if !written {
        return Ok(None);
    }
    let frame = frame_of(context, number, entry, kind, rest)?;
    Ok(Some(frame))
}
