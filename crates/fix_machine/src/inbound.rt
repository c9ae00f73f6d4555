//! The message that `machine` gives to `await_logon` and `logged_on`: what the event says, and its times read.
use crate::Verdict;
use fix_fields::Envelope;

/// A message that was read, with the times that its header says.
#[derive(Clone, Copy)]
pub struct Inbound<'a> {
    pub head: &'a Envelope<'a>,
    /// SendingTime (52) in microseconds since 1970, where it is a UTCTimestamp.
    pub sent: Option<i64>,
    /// OrigSendingTime (122), likewise.
    pub first_sent: Option<i64>,
    pub verdict: &'a Verdict<'a>,
    /// Whether there is no room for this message among those that wait.
    pub full: bool,
    /// Whether the first GapFillFlag (123) is Y.
    pub gap: bool,
    /// Whether the first ResetSeqNumFlag (141) is Y.
    pub reset: bool,
}
