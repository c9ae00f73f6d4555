//! The repeats and gap fills that answer a ResendRequest. `walk` gives them in order, and `list` collects them.

/// What goes out for a part of a ResendRequest (35=2).
#[derive(Clone, Copy, Debug, PartialEq, Eq)]
pub enum Out {
    /// The application message with this MsgSeqNum (34), marked as PossDupFlag (43) = Y.
    Repeat(u32),
    /// A SequenceReset-GapFill (35=4, 123=Y) with `from` as its MsgSeqNum (34) and `next` as its NewSeqNo (36).
    Gap { from: u32, next: u32 },
}
