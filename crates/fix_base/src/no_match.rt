//! The answer of a reader of text that stands at the front of a stream.

/// Why no text of a kind stands at the front of bytes of which more may come.
#[derive(Clone, Copy, Debug, PartialEq, Eq)]
pub enum NoMatch {
    /// None does, however the bytes go on.
    Never,
    /// The bytes are the front of one.
    NotYet,
}
