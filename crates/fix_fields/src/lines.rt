//! Takes a frame apart into its BeginString (8) and the bytes of its fields. `reading` calls this.
ghost use Rattle.std.specs.Prelude.{◌≡◌};
ghost use Rattle.fix_base.specs.Shape.{Parts, HasShape, IsFrame};
ghost use Rattle.fix_fields.specs.Lined.{HasLine, IsLineOf};
ghost use Rattle.fix_fields.specs.Header.{HasBegin};

use crate::soh_at;

// The length of `10=` with its three digits and its SOH.
const TRAILER: usize = 7;

/// The bytes of a frame's fields: those after the SOH of BodyLength (9) and before CheckSum (10).
pub fn body_fields(frame: &[u8]) -> &[u8]
    requires { IsFrame frame.now }
    ensures { (parts : Parts) → HasShape parts frame.now → result.now ≡ parts.body }
{
    let (_, body) = parts_of(frame);
    body
}

// BeginString (8), and the bytes of the fields.
pub fn parts_of(frame: &[u8]) -> (&[u8], &[u8])
    requires { IsFrame frame.now }
    ensures begin { HasBegin frame.now result.0.now }
    ensures body { (parts : Parts) → HasShape parts frame.now → result.1.now ≡ parts.body }
{
    let (first, behind) = line_of(frame);
    let (_, rest) = line_of(behind);
    (&first[2..], &rest[..rest.len() - TRAILER])
}

// What stands before the first SOH, and after it.
fn line_of(bytes: &[u8]) -> (&[u8], &[u8])
    requires { HasLine bytes.now }
    ensures { IsLineOf bytes.now result.0.now result.1.now }
{
    let end = soh_at(bytes).unwrap();
    (&bytes[..end], &bytes[end + 1..])
}
