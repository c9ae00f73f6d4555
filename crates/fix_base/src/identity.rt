//! Who a session is between.
ghost use Rattle.std.specs.Prelude.{◌≡◌, ◌&&◌, nat_le, IfSome, Some, codes};
ghost use Rattle.std.specs.List.{list_all};
ghost use Rattle.fix_base.specs.Session.{begin_string_of};
ghost use Rattle.fix_base.specs.Session;

use crate::Bytes;

/// The version of a session: BeginString (8).
#[derive(Clone, Copy, Debug, PartialEq, Eq)]
pub enum Begin {
    Fix42,
    Fix44,
}

impl Begin {
    /// BeginString (8) as it is written.
    pub fn text(self) -> &'static [u8]
        ensures { result.now ≡ begin_string_of self }
    {
        match self {
            Begin::Fix42 => b"FIX.4.2",
            Begin::Fix44 => b"FIX.4.4",
        }
    }

    /// The version of this BeginString (8), if it is one of the two.
    pub fn of(text: &[u8]) -> Option<Begin>
        ensures known { IfSome result (λ begin. text.now ≡ begin_string_of begin) }
        ensures each { (begin : Begin) → text.now ≡ begin_string_of begin → result ≡ Some begin }
    {
        if text == b"FIX.4.2".as_slice() {
            Some(Begin::Fix42)
        } else if text == b"FIX.4.4".as_slice() {
            Some(Begin::Fix44)
        } else {
            None
        }
    }
}

/// Who a session is between: its version, and the CompIDs of this end and of the counterparty, as
/// this end writes them in SenderCompID (49) and TargetCompID (56).
#[derive(Debug, PartialEq, Eq, Drop)]
pub struct Identity {
    pub begin: Begin,
    pub sender: Bytes,
    pub target: Bytes,
}

/// The longest CompID, in bytes.
const LONGEST_COMP_ID: usize = 64;

/// Whether the bytes are a CompID, as in SenderCompID (49): 1 to 64 bytes from 0x20 to 0x7E.
pub fn is_comp_id(text: &[u8]) -> bool
    ensures { result ≡ Session.is_comp_id text.now }
{
    !text.is_empty() && text.len() <= LONGEST_COMP_ID && is_printable(text)
}

/// Whether each byte is from 0x20 to 0x7E.
fn is_printable(text: &[u8]) -> bool
    ensures { result ≡ list_all (λ b. nat_le 32 b && nat_le b 126) text.now }
{
    text.iter().all(|byte| 32 <= *byte && *byte <= 126)
}
