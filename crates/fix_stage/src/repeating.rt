//! The frames that answer a ResendRequest (2): a message that is sent again, and a gap fill. `serving` writes them.
ghost use Rattle.std.specs.Prelude.{◌≡◌, ◌≤◌, IfOk, length};
ghost use Rattle.fix_base.specs.Session.{IsValidIdentity};
ghost use Rattle.fix_base.specs.Payload.{IsAppPayload, LAST_TIME};
ghost use Rattle.fix_base.specs.Says.{fields_text};
ghost use Rattle.fix_base.specs.Sealed.{sealed};
ghost use Rattle.fix_frame.specs.Sealable.{message_text, IsSealable};
ghost use Rattle.fix_stage.specs.Repeating.{marked_fields, gap_rest_fields, IsSplit, MaySplit, IsRepeatFrame, IsGapFrame};

use crate::Context;
use crate::framing::push_number;
use fix_base::{Begin, Bytes, Identity, OutOfMemory, Precision};
use fix_fields::{field_at, push_field, time_text};
use fix_frame::{SealFault, seal};
use std::alloc::Global;

/// Room for the fields of a header: 34, 43, 49, 52, 56 and 122.
const HEADER_ROOM: usize = 224;

/// The frame of the application message of this number that is sent again at `now`. `time` is when it was sent
/// first: OrigSendingTime (122). Both are in microseconds since 1970, and are written in milliseconds.
pub fn repeat_of(
    context: &Context,
    number: u32,
    time: u64,
    body: &[u8],
    now: u64,
) -> Result<Bytes, OutOfMemory>
    requires valid { IsValidIdentity context.now.identity }
    requires last { number ≤ 999999999 }
    requires payload { IsAppPayload time body.now }
    requires reading { now ≤ LAST_TIME }
    ensures { IfOk result (λ text. IsRepeatFrame context.now.identity number time body.now now text) }
{
    let (kind, rest) = kind_and_rest(body);
    let at = time_text(now, Precision::Millis);
    let was = time_text(time, Precision::Millis);
    let header = marked_header(
        context.alloc,
        &context.identity,
        number,
        at.as_slice(),
        was.as_slice(),
    )?;
    seal_short(context.alloc, context.identity.begin, kind, &header, rest)
}

/// The SequenceReset-GapFill from this number up to `next`, `next` left out, sent at `now`: NewSeqNo (36),
/// GapFillFlag (123) = Y.
pub fn gap_fill_of(
    context: &Context,
    number: u32,
    next: u32,
    now: u64,
) -> Result<Bytes, OutOfMemory>
    requires valid { IsValidIdentity context.now.identity }
    requires last { number ≤ 999999999 }
    requires next { next ≤ 1000000000 }
    requires reading { now ≤ LAST_TIME }
    ensures { IfOk result (λ text. IsGapFrame context.now.identity number next now text) }
{
    let at = time_text(now, Precision::Millis);
    let header = marked_header(
        context.alloc,
        &context.identity,
        number,
        at.as_slice(),
        at.as_slice(),
    )?;
    let rest = gap_rest(context.alloc, next)?;
    seal_short(context.alloc, context.identity.begin, b"4", &header, &rest)
}

/// The MsgType (35) of a body, and its other fields as they are written.
pub fn kind_and_rest(body: &[u8]) -> (&[u8], &[u8])
    requires { MaySplit body.now }
    ensures { IsSplit body.now result.0.now result.1.now }
{
    match field_at(body, None) {
        Some((first, rest)) => (first.value, rest),
        // A body that may be kept begins with its MsgType.
        None => unreachable!(),
    }
}

// The fields of a header after MsgType (35), of a message that is sent again: MsgSeqNum (34), PossDupFlag (43) = Y,
// SenderCompID (49), SendingTime (52), TargetCompID (56), OrigSendingTime (122).
fn marked_header(
    alloc: Global,
    identity: &Identity,
    number: u32,
    at: &[u8],
    was: &[u8],
) -> Result<Vec<u8>, OutOfMemory>
    ensures { IfOk result (λ text. text.items ≡ fields_text (marked_fields identity.now number at.now was.now)) }
{
    let mut out = Vec::with_capacity(alloc, HEADER_ROOM)?;
    push_number(&mut out, 34, number)?;
    push_field(&mut out, 43, b"Y")?;
    push_field(&mut out, 49, identity.sender.as_slice())?;
    push_field(&mut out, 52, at)?;
    push_field(&mut out, 56, identity.target.as_slice())?;
    push_field(&mut out, 122, was)?;
    Ok(out)
}

// The fields of a gap fill after its header: NewSeqNo (36), GapFillFlag (123) = Y.
fn gap_rest(alloc: Global, next: u32) -> Result<Vec<u8>, OutOfMemory>
    ensures { IfOk result (λ text. text.items ≡ fields_text (gap_rest_fields next)) }
{
    let mut out = Vec::new(alloc);
    push_number(&mut out, 36, next)?;
    push_field(&mut out, 123, b"Y")?;
    Ok(out)
}

// The frame of a message whose BodyLength (9) is none too great.
fn seal_short(
    alloc: Global,
    begin: Begin,
    kind: &[u8],
    header: &[u8],
    rest: &[u8],
) -> Result<Bytes, OutOfMemory>
    requires sealable { IsSealable kind.now header.now rest.now }
    requires short { length (message_text kind.now header.now rest.now) ≤ 1048576 }
    ensures { IfOk result (λ text. text ≡ sealed begin (message_text kind.now header.now rest.now)) }
{
    match seal(alloc, begin, kind, header, rest) {
        Ok(frame) => Ok(frame),
        Err(SealFault::OutOfMemory) => Err(OutOfMemory),
        Err(SealFault::TooLarge { .. }) => unreachable!(),
    }
}
