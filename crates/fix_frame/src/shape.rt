//! Takes the front of a stream apart into a head, a body and a trailer. `item` calls this, and `reader`
//! asks how many bytes it has to wait for.
ghost use Rattle.std.specs.Prelude.{◌≡◌, ◌≤◌, ◌<◌, ◌+◌, ◌-◌, ◌++◌, ℕ, List, length, codes};
ghost use Rattle.fix_base.specs.Front.{Begins, Scans, ScansOf, IsPartOf};
ghost use Rattle.fix_base.specs.Frame.{IsBody, IsHead, IsText, IsTrailer};
ghost use Rattle.fix_base.specs.Shape.{HasShape, IsShape};
ghost use Rattle.fix_frame.specs.Span.{parts_of};

use crate::places::{after_any, after_length, after_sum, after_version};
use fix_base::{NoMatch, SOH};
use fix_fields::after_text;

/// Bytes at whose front all fixed places of a frame are right.
#[derive(Clone, Copy)]
pub struct Span<'a> {
    /// What the CheckSum (10) sums up.
    pub before_sum: &'a [u8],
    /// The bytes that the BodyLength (9) counts.
    pub body: &'a [u8],
    /// The number of the CheckSum (10).
    pub sum: u32,
    /// What is after the trailer.
    pub rest: &'a [u8],
}

/// The head, the body and the trailer at the front.
pub fn span_of(bytes: &[u8]) -> Result<Span<'_>, NoMatch>
    ensures { ScansOf parts_of (λ x. x.rest.now) HasShape bytes.now result }
{
    let (length, behind_head) = after_head(bytes)?;
    let behind_body = after_body(behind_head, length)?;
    let (sum, rest) = after_trailer(behind_body)?;
    Ok(Span {
        before_sum: &bytes[..bytes.len() - behind_body.len()],
        body: &behind_head[..behind_head.len() - behind_body.len()],
        sum,
        rest,
    })
}

/// How many bytes there have to be before they can be more than the front of a shape: those before
/// the SOH of its body. 0 where the head does not tell it yet.
pub fn least_of(bytes: &[u8]) -> usize
    ensures waits { (more : List ℕ) → length (bytes.now ++ more) < result → IsPartOf IsShape (bytes.now ++ more) }
    ensures told { (n : ℕ) (behind rest : List ℕ) → Begins (IsHead n) bytes.now behind
        → Begins (IsText (codes "35=")) behind rest → result ≡ length bytes.now - length rest + (n - 4) }
{
    let Ok((length, behind)) = after_head(bytes) else {
        return 0;
    };
    let Ok(rest) = after_text(behind, b"35=") else {
        return 0;
    };
    bytes.len() - rest.len() + (length - 4)
}

/// The number of the BodyLength (9), and the bytes after the head.
fn after_head(bytes: &[u8]) -> Result<(usize, &[u8]), NoMatch>
    ensures { ScansOf (λ x. x.0) (λ x. x.1.now) IsHead bytes.now result }
{
    let rest = after_text(bytes, b"8=FIX")?;
    let rest = after_version(rest)?;
    let rest = after_text(rest, b"9=")?;
    after_length(rest)
}

/// The bytes after a body of this length. Only its fixed places are looked at.
fn after_body(bytes: &[u8], length: usize) -> Result<&[u8], NoMatch>
    requires { 5 ≤ length }
    ensures { Scans (λ rest. rest.now) (IsBody length) bytes.now result }
{
    let rest = after_text(bytes, b"35=")?;
    let rest = after_any(rest, length - 4)?;
    after_text(rest, &[SOH])
}

/// The number of the CheckSum (10), and the bytes after the trailer.
fn after_trailer(bytes: &[u8]) -> Result<(u32, &[u8]), NoMatch>
    ensures { ScansOf (λ x. x.0) (λ x. x.1.now) IsTrailer bytes.now result }
{
    let rest = after_text(bytes, b"10=")?;
    after_sum(rest)
}
