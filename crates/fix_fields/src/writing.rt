//! Writes one field. Each stage that writes a message calls this: `draft` here, and `fix_engine`,
//! `fix_admin` and `fix_groups`.
ghost use Rattle.std.specs.Prelude.{◌≡◌, ◌++◌, OnOk};
ghost use Rattle.fix_base.specs.Payload.{field};
ghost use Rattle.fix_base.specs.Says.{field_text};

use fix_base::SOH;
use itoa::Buffer;
use std::alloc::AllocError;

/// Writes a field after what is there: the tag, `=`, the value and SOH. Where it is out of memory, a
/// front of it may stand there.
pub fn push_field(out: &mut Vec<u8>, tag: u32, value: &[u8]) -> Result<(), AllocError>
    ensures { OnOk result (out.new.items ≡ out.old.items ++ field_text (field tag value.now)) }
{
    let mut digits = Buffer::new();
    out.extend_from_slice(digits.format(tag).as_bytes())?;
    out.push(b'=')?;
    out.extend_from_slice(value)?;
    out.push(SOH)?;
    Ok(())
}
