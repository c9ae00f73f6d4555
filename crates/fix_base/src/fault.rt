//! What is wrong with a message.
use crate::Tag;

/// What is wrong with a message that is rejected: SessionRejectReason (373) and RefTagID (371).
#[derive(Clone, Copy, Debug, PartialEq, Eq)]
pub struct Fault {
    pub reason: u16,
    pub tag: Option<Tag>,
}
