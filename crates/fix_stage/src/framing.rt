//! The frame of a message under its number: its header is the same for all that a session sends.
ghost use Rattle.std.specs.Prelude.{◌≡◌, ◌≤◌, ◌++◌, true, IfOk, OnOk};
ghost use Rattle.std.specs.Fmt.{decimal};
ghost use Rattle.fix_base.specs.Session.{IsValidIdentity};
ghost use Rattle.fix_base.specs.Payload.{field, LAST_TIME};
ghost use Rattle.fix_base.specs.Says.{field_text};
ghost use Rattle.fix_base.specs.Wrote.{time_of_entry};
ghost use Rattle.fix_stage.specs.Outgoing.{outgoing, IsOutgoing, IsHeaderText, IsFrameOf};

use crate::Context;
use fix_base::{Bytes, Entry, Identity, OutOfMemory, Precision};
use fix_fields::{push_field, time_text};
use fix_frame::{SealFault, seal};
use itoa::Buffer;
use std::alloc::{AllocError, Global};

/// Room for the fields of a header: 34, 49, 52 and 56.
const HEADER_ROOM: usize = 192;

/// The frame of a message with this MsgType (35) and these fields after its header, under this number. Its
/// SendingTime (52) is the entry's time.
pub fn frame_of(
    context: &Context,
    number: u32,
    entry: &Entry,
    kind: &[u8],
    rest: &[u8],
) -> Result<Bytes, OutOfMemory>
    requires valid { IsValidIdentity context.now.identity }
    requires last { number ≤ 999999999 }
    requires outgoing { IsOutgoing (outgoing entry.now kind.now rest.now true) }
    ensures { IfOk result (λ text. IsFrameOf context.now.identity number
        (outgoing entry.now kind.now rest.now true) text) }
{
    let header = header(context.alloc, &context.identity, number, time_of(entry))?;
    match seal(context.alloc, context.identity.begin, kind, &header, rest) {
        Ok(frame) => Ok(frame),
        Err(SealFault::OutOfMemory) => Err(OutOfMemory),
        // What is sent leaves room for a header below the greatest BodyLength.
        Err(SealFault::TooLarge { .. }) => unreachable!(),
    }
}

// The time of an entry.
fn time_of(entry: &Entry) -> u64
    ensures { result ≡ time_of_entry entry.now }
{
    match entry {
        Entry::App { time, .. } => *time,
        Entry::Admin { time, .. } => *time,
    }
}

// The fields of an original's header after MsgType (35): MsgSeqNum (34), SenderCompID (49), SendingTime (52)
// in milliseconds, TargetCompID (56).
fn header(
    alloc: Global,
    identity: &Identity,
    number: u32,
    time: u64,
) -> Result<Vec<u8>, OutOfMemory>
    requires { time ≤ LAST_TIME }
    ensures { IfOk result (λ text. IsHeaderText identity.now number time text.items) }
{
    let mut out = Vec::with_capacity(alloc, HEADER_ROOM)?;
    let at = time_text(time, Precision::Millis);
    push_number(&mut out, 34, number)?;
    push_field(&mut out, 49, identity.sender.as_slice())?;
    push_field(&mut out, 52, at.as_slice())?;
    push_field(&mut out, 56, identity.target.as_slice())?;
    Ok(out)
}

/// Appends a field of a number.
pub fn push_number(out: &mut Vec<u8>, tag: u32, number: u32) -> Result<(), AllocError>
    ensures { OnOk result (out.new.items ≡ out.old.items ++ field_text (field tag (decimal number))) }
{
    let mut digits = Buffer::new();
    push_field(out, tag, digits.format(number).as_bytes())
}
