//! Decides what comes next in a stream: a frame, garbled bytes to skip, or a wait for more bytes.
//! `seeking` calls this for one item after the other.
ghost use Rattle.std.specs.Prelude.{◌≡◌, ◌≤◌, ◌-◌, ◌==◌, ◌||◌, length, slice_index};
ghost use Rattle.fix_base.specs.Stream.{ahead_of};
ghost use Rattle.fix_frame.specs.Answer.{Answers};

use crate::shape::span_of;
use crate::summing::is_right;
use fix_base::{NoMatch, SOH};

/// What stands at a place of a stream.
#[derive(Clone, Copy, Debug, PartialEq, Eq)]
pub enum Framed<'a> {
    /// A frame.
    Frame(&'a [u8]),
    /// So many bytes are garbled and skipped.
    Skip(usize),
    /// The bytes that are known do not decide it.
    More,
}

/// What stands at the front of the bytes, where a mark (`8=FIX`) may stand or not. The fixed
/// places come before the sum, and the sum before the fields, so that waiting costs nothing.
pub fn item_ahead(bytes: &[u8], may_mark: bool) -> Framed<'_>
    ensures { Answers (record { may_mark = may_mark; bytes = bytes.now }) result }
{
    if bytes.is_empty() {
        return Framed::More;
    }
    if !may_mark {
        return Framed::Skip(1);
    }
    match span_of(bytes) {
        Ok(span) => {
            let length = bytes.len() - span.rest.len();
            if is_right(span) {
                Framed::Frame(&bytes[..length])
            } else {
                Framed::Skip(length)
            }
        }
        Err(NoMatch::Never) => Framed::Skip(1),
        Err(NoMatch::NotYet) => Framed::More,
    }
}

/// The item at the place `at` of a stream of which `bytes` are known. `More` says that they do not
/// decide it, and that fewer than 1,048,612 bytes are from the place on.
pub fn frame_at<'a>(bytes: &'a [u8], at: usize) -> Framed<'a>
    requires { at ≤ length bytes.now }
    ensures { Answers (ahead_of bytes.now at) result }
{
    let may_mark = may_mark_at(bytes, at);
    item_ahead(&bytes[at..], may_mark)
}

/// Whether a mark may stand at the place: the first one, or one after an SOH.
fn may_mark_at(bytes: &[u8], at: usize) -> bool
    requires { at ≤ length bytes.now }
    ensures { result ≡ (at == 0 || slice_index bytes.now (at - 1) == 1) }
{
    at == 0 || bytes[at - 1] == SOH
}
