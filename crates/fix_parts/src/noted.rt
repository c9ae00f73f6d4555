//! What a tape is asked to note. `fix_rim` makes one of these for each act, and a `KeptTape` copies it.
use crate::Handed;
use fix_base::Record;

/// An act, as it is noted on a tape: its parts are borrowed. The acts are those of
/// [`fix_base::Act`].
#[derive(Clone, Copy, Debug)]
pub enum Noted<'a> {
    Opened,
    Now(u64),
    Read(&'a [u8]),
    Idle,
    Ended,
    Wrote(&'a [u8]),
    Kept(&'a Record),
    KeepLost(&'a Record),
    Handed(&'a Handed<'a>),
    HandLost(&'a Handed<'a>),
    Withheld(u32),
    Allowed(u32),
    Cut,
    Stop,
}
