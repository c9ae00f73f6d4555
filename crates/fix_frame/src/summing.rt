//! The CheckSum (10), and the last checks of a frame. `item` calls `is_right` once the shape is there, and
//! `sealing` calls `checksum`.
ghost use Rattle.std.specs.Prelude.{◌≡◌, ◌%◌, ◌↔◌, IsTrue, sum};
ghost use Rattle.fix_base.specs.Shape.{IsRight};
ghost use Rattle.fix_frame.specs.Span.{parts_of};

use crate::shape::Span;
use fix_fields::is_body;

/// The sum of all bytes modulo 256: CheckSum (10) of what stands before it.
pub fn checksum(bytes: &[u8]) -> u8
    ensures { result ≡ sum bytes.now % 256 }
{
    let mut sum: u8 = 0;
    for b in bytes {
        sum = sum.wrapping_add(*b);
    }
    sum
}

/// Whether the checksum is right and the body is a list of fields.
pub fn is_right(span: Span<'_>) -> bool
    ensures { IsTrue result ↔ IsRight (parts_of span.entry) }
{
    span.sum == u32::from(checksum(span.before_sum)) && is_body(span.body)
}
