//! The header of a frame, as far as a session looks at it. `reading` fills it, and `fix_engine` and
//! `fix_machine` decide on it.
use fix_base::SeqNum;

/// The header of a message: of each tag the first value.
#[derive(Clone, Copy, Debug)]
pub struct Envelope<'a> {
    /// BeginString (8).
    pub begin: &'a [u8],
    /// MsgType (35).
    pub kind: &'a [u8],
    /// MsgSeqNum (34), where the tag stands there once, with one to nine digits that aren't zero.
    pub number: Option<SeqNum>,
    /// PossDupFlag (43).
    pub dup: Option<&'a [u8]>,
    /// SenderCompID (49).
    pub sender: Option<&'a [u8]>,
    /// TargetCompID (56).
    pub target: Option<&'a [u8]>,
    /// SendingTime (52).
    pub sent: Option<&'a [u8]>,
    /// OrigSendingTime (122).
    pub first_sent: Option<&'a [u8]>,
}
