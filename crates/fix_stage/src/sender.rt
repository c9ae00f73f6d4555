//! The sending half of a session: its numbers, what is staged, and the draft in hand. The functions of this crate
//! take it and change it.
ghost use Rattle.std.specs.Prelude.{◌≡◌, ◌≤◌};
ghost use Rattle.fix_stage.specs.Sender.{IsInRange, with_reading, with_numbers, sender_down};

use crate::{PendingDraft, Stage};
use fix_base::LAST_TIME;
use std::alloc::Global;

/// The numbers of a session, as they are kept and as they run.
#[derive(Clone, Copy, Debug, PartialEq, Eq)]
pub struct Numbers {
    /// The inbound MsgSeqNum (34) that is expected next, 1 to 1,000,000,000.
    pub expected: u32,
    /// The expected number as it was kept last.
    pub stored_expected: u32,
    /// The last outbound MsgSeqNum that is kept, 0 to 999,999,999.
    pub last: u32,
    /// The last reading of the clock, in microseconds since 1970, at most the end of 2099.
    pub reading: u64,
}

/// The sending half of a session.
#[derive(Drop)]
pub struct Sender {
    pub numbers: Numbers,
    pub stage: Stage,
    pub pending: PendingDraft,
}

/// Takes a reading of the clock, in microseconds since 1970. One after the end of 2099 counts as that.
pub fn take_reading(sender: &mut Sender, reading: u64)
    requires range { IsInRange sender.old }
    ensures range { IsInRange sender.new }
    ensures taken { sender.new ≡ with_numbers sender.old (with_reading sender.old.numbers reading) }
{
    sender.numbers.reading = reading.min(LAST_TIME);
}

/// The session leaves its connection: what is staged and isn't kept is given up, and the draft in hand
/// stays there.
pub fn put_down(alloc: Global, sender: &mut Sender)
    requires range { IsInRange sender.old }
    ensures range { IsInRange sender.new }
    ensures down { sender.new ≡ sender_down sender.old }
{
    let _given_up = sender.stage.take(alloc);
    sender.pending.staged = false;
}
