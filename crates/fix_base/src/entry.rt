//! What a message store keeps.
ghost use Rattle.std.specs.Prelude.{◌≡◌};

use crate::Bytes;
use std::marker::Model;

/// Who made an application message.
#[derive(Clone, Copy, Debug, PartialEq, Eq)]
pub enum By {
    /// The application posted it.
    Caller,
    /// The engine answered with it, as with a BusinessMessageReject.
    Engine,
}

/// What was sent under a MsgSeqNum (34). Times are microseconds since 1970.
#[derive(Debug, PartialEq, Eq, Drop)]
pub enum Entry {
    /// An application message, with its body: MsgType (35) and the fields that aren't the engine's.
    App { time: u64, by: By, body: Bytes },
    /// An administrative message, which a resend skips by a gap fill. `kind` is its MsgType (35),
    /// or `N` for an application message that isn't to be sent again. `about` is the MsgSeqNum
    /// that a Reject (kind `3`) names in RefSeqNum (45), else 0.
    Admin { time: u64, kind: u8, about: u32 },
}

/// A list of entries. Contracts see it as the list.
#[derive(Debug, Drop)]
pub struct Entries {
    items: Vec<Entry>,
}

impl Model for Entries {
    ghost use Rattle.std.specs.Prelude.{List};
    ghost use Rattle.fix_base.specs.declared.entry.Entry.{Entry};

    ghost Value = { List Entry };

    ghost view = { λ e. e.items.items };
}

impl Entries {
    /// The list that is in the vector, without a copy.
    pub fn from_vec(items: Vec<Entry>) -> Entries
        ensures { result ≡ items.items }
    {
        Entries { items }
    }

    /// The vector that it was made of, without a copy.
    pub fn into_vec(self) -> Vec<Entry>
        ensures { result.items ≡ self }
    {
        let Entries { items } = self;
        items
    }

    pub fn as_slice(&self) -> &[Entry]
        ensures { result.now ≡ self.now }
    {
        self.items.as_slice()
    }
}

impl PartialEq for Entries {
    ghost use Rattle.std.specs.Cmp.Lexicographic.{pointwise, lists_per};
    ghost use Rattle.fix_base.specs.contracts.entry.EntryPartialEq.TheImpl as entries;
    ghost use Rattle.fix_base.specs.contracts.entry.EntryPartialEq.TheImpl.Laws as laws;

    ghost eq = { pointwise (entries.ghosts).eq };

    ghost laws = { lists_per laws.laws-law };

    fn eq(&self, other: &Entries) -> bool {
        self.items == other.items
    }
}

impl Eq for Entries {
    ghost use Rattle.std.specs.Cmp.Lexicographic.{lists_equiv};
    ghost use Rattle.fix_base.specs.contracts.entry.EntryEq.TheImpl.Laws as laws;

    ghost laws = { lists_equiv laws.laws-law };
}

/// What a message store keeps.
#[derive(Debug, PartialEq, Eq, Drop)]
pub enum Record {
    /// One more entry, under the next number.
    Push(Entry),
    /// The inbound MsgSeqNum that is expected next, 1 to 1,000,000,000.
    Expect(u32),
    /// Several entries, under the next numbers, and the inbound MsgSeqNum that is expected then; 0
    /// says nothing of it.
    Many { pushes: Entries, expect: u32 },
    /// The application message of this number isn't to be sent again, for good.
    Withhold(u32),
    /// The store reset at this time: no entries, and 1 is expected.
    Reset(u64),
    /// The same, and the counterparty is to be asked by a Logon to reset too (ResetSeqNumFlag 141 = Y).
    ResetAsk(u64),
    /// The counterparty's Logon has answered that it reset.
    Confirm,
}

/// What a message store tells of itself.
#[derive(Clone, Copy, Debug, PartialEq, Eq)]
pub struct Stored {
    /// How many entries there are: the last outbound MsgSeqNum.
    pub last: u32,
    /// The inbound MsgSeqNum that is expected next.
    pub expected: u32,
    /// When the store was last reset, if ever.
    pub since: Option<u64>,
    /// Whether the counterparty is asked to reset, and hasn't answered.
    pub asked: bool,
}
