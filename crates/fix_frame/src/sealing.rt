//! Writes the frame of a message. `fix_engine` calls this before it writes to the connection.
ghost use Rattle.std.specs.Prelude.{◌≡◌, ◌<◌, ◌≤◌, ◌++◌, ℕ, List, length, IfOk, Err};
ghost use Rattle.fix_base.specs.Shape.{IsFrame};
ghost use Rattle.fix_base.specs.Stream.{Frame, ahead_of};
ghost use Rattle.fix_base.specs.Sealed.{sealed, three_digits_of};
ghost use Rattle.fix_frame.specs.Answer.{Stands};
ghost use Rattle.fix_frame.specs.Sealable.{IsSealable, message_text, TooLarge};

use crate::places::GREATEST_LENGTH;
use crate::summing::checksum;
use fix_base::{Begin, Bytes, SOH};
use std::alloc::{AllocError, Global};

/// Why there is no frame.
#[derive(Clone, Copy, Debug, PartialEq, Eq)]
pub enum SealFault {
    /// The BodyLength (9) would be `length`, and the greatest is 1,048,576.
    TooLarge { length: u64 },
    /// Out of memory.
    OutOfMemory,
}

/// The frame of a message: BeginString (8), BodyLength (9), MsgType (35) = `kind`, the fields of
/// `header` and `rest`, and CheckSum (10).
pub fn seal(
    alloc: Global,
    begin: Begin,
    kind: &[u8],
    header: &[u8],
    rest: &[u8],
) -> Result<Bytes, SealFault>
    requires { IsSealable kind.now header.now rest.now }
    // The bytes: they are a frame, and whoever reads them at the front of a stream finds it.
    ensures text { IfOk result (λ out. out ≡ sealed begin (message_text kind.now header.now rest.now)) }
    ensures frame { IfOk result (λ out. IsFrame out) }
    ensures again { IfOk result (λ out. (more : List ℕ) → Stands (ahead_of (out ++ more) 0) (Frame out)) }
    // The fault comes exactly for a BodyLength past the greatest.
    ensures fits { IfOk result (λ out. length (message_text kind.now header.now rest.now) ≤ 1048576) }
    ensures large { (n : ℕ) → result ≡ Err (TooLarge n) → (n ≡ length (message_text kind.now header.now rest.now))
        × (1048576 < n) }
{
    let Ok(body) = body_of(alloc, kind, header, rest) else {
        return Err(SealFault::OutOfMemory);
    };
    if body.len() > GREATEST_LENGTH {
        return Err(SealFault::TooLarge {
            length: body.len() as u64,
        });
    }
    let Ok(out) = spelling(alloc, begin, &body) else {
        return Err(SealFault::OutOfMemory);
    };
    Ok(Bytes::from_vec(out))
}

/// A number below 256 in three digits.
fn three_digits(number: u8) -> [u8; 3]
    ensures { result ≡ three_digits_of number }
{
    [
        b'0' + number / 100,
        b'0' + number / 10 % 10,
        b'0' + number % 10,
    ]
}

/// The bytes that the BodyLength (9) counts.
fn body_of(alloc: Global, kind: &[u8], header: &[u8], rest: &[u8]) -> Result<Vec<u8>, AllocError>
    ensures { IfOk result (λ body. body.items ≡ message_text kind.now header.now rest.now) }
{
    let mut body = Vec::new(alloc);
    body.extend_from_slice(b"35=")?;
    body.extend_from_slice(kind)?;
    body.push(SOH)?;
    body.extend_from_slice(header)?;
    body.extend_from_slice(rest)?;
    Ok(body)
}

/// The bytes of a body with its head and its trailer.
fn spelling(alloc: Global, begin: Begin, body: &[u8]) -> Result<Vec<u8>, AllocError>
    ensures { IfOk result (λ out. out.items ≡ sealed begin body.now) }
{
    let digits = body.len().to_string(alloc)?;
    let mut out = Vec::new(alloc);
    out.extend_from_slice(b"8=")?;
    out.extend_from_slice(begin.text())?;
    out.extend_from_slice(b"\x019=")?;
    out.extend_from_slice(digits.as_bytes())?;
    out.push(SOH)?;
    out.extend_from_slice(body)?;
    let sum = checksum(&out);
    out.extend_from_slice(b"10=")?;
    out.extend_from_slice(&three_digits(sum))?;
    out.push(SOH)?;
    Ok(out)
}
