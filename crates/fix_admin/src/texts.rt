//! The texts of a Reject (3) and of a Logout (5). `building` writes them as Text (58).
ghost use Rattle.std.specs.Prelude.{◌≡◌, IfOk};
ghost use Rattle.fix_admin.specs.declared.say.LogoutText.TheVariants.{TooLow};
ghost use Rattle.fix_admin.specs.Say as say;

use crate::LogoutText;
use fix_base::OutOfMemory;
use itoa::Buffer;
use std::alloc::Global;

// The text of a SessionRejectReason (373).
pub fn reason_text(reason: u16) -> &'static [u8]
    ensures { result.now ≡ say.reason_text reason }
{
    match reason {
        0 => b"Invalid tag number",
        1 => b"Required tag missing",
        2 => b"Tag not defined for this message type",
        4 => b"Tag specified without a value",
        5 => b"Value is incorrect (out of range) for this tag",
        6 => b"Incorrect data format for value",
        9 => b"CompID problem",
        10 => b"SendingTime accuracy problem",
        11 => b"Invalid MsgType",
        13 => b"Tag appears more than once",
        14 => b"Tag specified out of required order",
        15 => b"Repeating group fields out of order",
        16 => b"Incorrect NumInGroup count",
        _ => b"",
    }
}

// The text of a Logout.
pub fn logout_text(alloc: Global, text: LogoutText) -> Result<Vec<u8>, OutOfMemory>
    ensures { IfOk result (λ out. out.items ≡ say.logout_text text) }
{
    match text {
        LogoutText::Empty => Ok(Vec::new(alloc)),
        LogoutText::TooLow { expected, received } => too_low_text(alloc, expected, received),
        LogoutText::BeginString => copied(alloc, b"Incorrect BeginString"),
        LogoutText::NoNumber => copied(alloc, b"MsgSeqNum missing"),
        LogoutText::CompId => copied(alloc, b"CompID problem"),
        LogoutText::SendingTime => copied(alloc, b"SendingTime accuracy problem"),
        LogoutText::OutOfWindow => copied(alloc, b"Session time is over"),
        LogoutText::ResetFlag => copied(alloc, b"ResetSeqNumFlag not supported"),
    }
}

fn copied(alloc: Global, text: &[u8]) -> Result<Vec<u8>, OutOfMemory>
    ensures { IfOk result (λ out. out.items ≡ text.now) }
{
    Ok(Vec::from_slice(alloc, text)?)
}

// A MsgSeqNum (34) below the expected one.
fn too_low_text(alloc: Global, expected: u32, received: u32) -> Result<Vec<u8>, OutOfMemory>
    ensures { IfOk result (λ out. out.items ≡ say.logout_text (TooLow expected received)) }
{
    let mut out = Vec::new(alloc);
    let mut number = Buffer::new();
    out.extend_from_slice(b"MsgSeqNum too low, expecting ")?;
    out.extend_from_slice(number.format(expected).as_bytes())?;
    out.extend_from_slice(b" but received ")?;
    out.extend_from_slice(number.format(received).as_bytes())?;
    Ok(out)
}
