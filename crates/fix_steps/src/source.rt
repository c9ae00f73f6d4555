//! What a decision answers.
use fix_fields::Envelope;

/// What a decision answers.
#[derive(Clone, Copy, Debug)]
pub enum Source<'a> {
    /// A message that was read: its frame, and the header that this says.
    Message {
        frame: &'a [u8],
        head: &'a Envelope<'a>,
    },
    /// Something else, as a reading of the clock.
    Other,
}
