//! The text of a message that a session writes: its header, and its own fields. `outbound` and `drafting`
//! call this.
ghost use Rattle.std.specs.Prelude.{◌≡◌, ◌≤◌, ◌++◌, IfOk, OnOk};
ghost use Rattle.std.specs.Fmt.{decimal};
ghost use Rattle.fix_base.specs.Payload.{field, LAST_TIME};
ghost use Rattle.fix_base.specs.Says.{field_text, fields_text};
ghost use Rattle.fix_engine.specs.Answer.{fields_of, IsSayable};
ghost use Rattle.fix_engine.specs.Written.{IsHeaderText};

use crate::Say;
use fix_base::{Identity, OutOfMemory, Precision};
use fix_fields::{push_field, time_text};
use itoa::Buffer;
use std::alloc::{AllocError, Global};

/// Room for the fields of a header: 34, 49, 52 and 56.
const HEADER_ROOM: usize = 192;

/// The fields of an original's header after MsgType (35): MsgSeqNum (34), SenderCompID (49),
/// SendingTime (52) in milliseconds, TargetCompID (56).
pub fn header(
    alloc: Global,
    identity: &Identity,
    number: u32,
    time: u64,
) -> Result<Vec<u8>, OutOfMemory>
    requires { time ≤ LAST_TIME }
    ensures { IfOk result (λ text. IsHeaderText identity.now number time text.items) }
{
    let mut out = Vec::with_capacity(alloc, HEADER_ROOM)?;
    let at = time_text(time, Precision::Millis);
    push_number(&mut out, 34, number)?;
    push_field(&mut out, 49, identity.sender.as_slice())?;
    push_field(&mut out, 52, at.as_slice())?;
    push_field(&mut out, 56, identity.target.as_slice())?;
    Ok(out)
}

/// The fields after the header of what is said.
pub fn rest(alloc: Global, say: Say) -> Result<Vec<u8>, OutOfMemory>
    ensures text { IfOk result (λ text. text.items ≡ fields_text (fields_of say)) }
    ensures fits { IfOk result (λ text. IsSayable say) }
{
    let mut out = Vec::new(alloc);
    match say {
        Say::Logon { heart } => {
            push_field(&mut out, 98, b"0")?;
            push_number(&mut out, 108, heart)?;
        }
        Say::Logout => {}
    }
    Ok(out)
}

// Appends a field of a number.
fn push_number(out: &mut Vec<u8>, tag: u32, number: u32) -> Result<(), AllocError>
    ensures { OnOk result (out.new.items ≡ out.old.items ++ field_text (field tag (decimal number))) }
{
    let mut digits = Buffer::new();
    push_field(out, tag, digits.format(number).as_bytes())
}
