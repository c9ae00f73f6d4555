//! Who opened a connection: the session whose names the first frame has.
ghost use Rattle.std.specs.Prelude.{◌≡◌, option_map, length};
ghost use Rattle.std.specs.List.{IsFirstMatchOrLen};
ghost use Rattle.fix_base.specs.Shape.{IsFrame};
ghost use Rattle.fix_fields.specs.Header.{header_of};
ghost use Rattle.fix_host.specs.Known.{is_value, is_for, Names};

use fix_base::Identity;
use fix_fields::{Envelope, envelope};

/// What a greeting came to.
#[derive(Clone, Copy, Debug, PartialEq, Eq)]
pub enum Greeted {
    /// The first frame is from the counterparty of the session with this index, and of none before it.
    Known { index: usize },
    /// The first frame is from no session's counterparty.
    Unknown,
    /// There is no frame among the first 1,048,612 bytes.
    NotFrame,
    /// The other side ended the connection before its first frame.
    Ended,
    /// No first frame came in time: the first reading of the clock and the last.
    Late { since: u64, now: u64 },
    /// No first frame came in so many turns.
    TurnsSpent,
    /// The connection failed.
    LinkFault,
    OutOfMemory,
}

/// Which of the sessions a frame is for.
pub(crate) fn recognise(frame: &[u8], known: &[Identity]) -> Greeted
    requires { IsFrame frame.now }
    ensures { Names known.now frame.now result }
{
    let header = envelope(frame);
    let index = place_of(&header, known);
    if index < known.len() {
        Greeted::Known { index }
    } else {
        Greeted::Unknown
    }
}

// The index of the first session that the header is for, or how many there are.
fn place_of(header: &Envelope<'_>, known: &[Identity]) -> usize
    ensures { IsFirstMatchOrLen (is_for (header_of header.now)) known.now result }
{
    for index in 0..known.len() {
        if is_header_for(header, &known[index]) {
            return index;
        }
    }
    known.len()
}

// Whether the header is that of a message from the session's counterparty to its own end.
fn is_header_for(header: &Envelope<'_>, identity: &Identity) -> bool
    ensures { result ≡ is_for (header_of header.now) identity.now }
{
    header.begin == identity.begin.text()
        && has_value(header.sender, identity.target.as_slice())
        && has_value(header.target, identity.sender.as_slice())
}

// Whether the value is there, and is this text.
fn has_value(value: Option<&[u8]>, text: &[u8]) -> bool
    ensures { result ≡ is_value (option_map (λ v. v.now) value.entry) text.now }
{
    match value {
        None => false,
        Some(value) => value == text,
    }
}
