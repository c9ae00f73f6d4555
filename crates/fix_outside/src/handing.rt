//! A message that is handed over to an application, and what that comes to; and one that is to be sent again.

/// An application message that is handed over.
#[derive(Clone, Copy, Debug)]
pub struct Handed<'a> {
    /// MsgSeqNum (34).
    pub number: u32,
    /// PossDupFlag (43) is Y.
    pub marked: bool,
    /// MsgType (35).
    pub kind: &'a [u8],
    /// MsgType (35) and the fields that aren't the engine's, each with its SOH.
    pub body: &'a [u8],
}

/// What a hand-over came to.
#[derive(Clone, Copy, Debug, PartialEq, Eq)]
pub enum Said {
    /// The application has the message.
    Taken,
    /// The application failed: it may have the message or not.
    Failed,
    /// Out of memory, and the application doesn't have the message.
    OutOfMemory,
}

/// Whether a message of the application is sent again, as a counterparty asked for it by a ResendRequest (2).
#[derive(Clone, Copy, Debug, PartialEq, Eq)]
pub enum Again {
    /// It is sent again.
    Send,
    /// It is withheld, now and at each later request: a stale order, say.
    Withhold,
    /// Out of memory, and the application wasn't asked.
    OutOfMemory,
}
