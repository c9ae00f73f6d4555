//! What may hold a sender up before it posts a draft. A test has two senders wait for one another by it; a program
//! lets them go on.

/// Where a sender may be held up by a test before it posts a draft.
pub trait Gate {
    /// Waits until the sender may post its draft of this number. Both are numbered from 1.
    fn wait(&self, sender: u32, line: u32);
}

/// A gate that holds nobody up.
#[derive(Clone, Copy, Debug, PartialEq, Eq)]
pub struct OpenGate;

impl Gate for OpenGate {
    fn wait(&self, _sender: u32, _line: u32) {}
}
