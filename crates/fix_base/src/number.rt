//! Numbers of messages and of fields.
ghost use Rattle.std.specs.Prelude.{◌≡◌, ◌+◌, ◌≤◌, ◌<◌};
ghost use Rattle.std.specs.Option.{SomeIff};

use crate::{LAST_SEQ_NUM, LAST_TAG};
use std::marker::Model;

/// A MsgSeqNum (34): 1 to 999,999,999. Contracts see it as the number.
#[derive(Clone, Copy, Debug, PartialEq, Eq)]
pub struct SeqNum {
    number: u32,
}

impl Model for SeqNum {
    ghost use Rattle.std.specs.Prelude.{ℕ, ◌≤◌};

    ghost Value = { ℕ };

    ghost view = { λ s. s.number };

    ghost invariant = { λ s. (1 ≤ s.number) × (s.number ≤ 999999999) };

    ghost inverse = { λ n. record { number = n } };
}

impl SeqNum {
    /// The number, or None outside 1 to 999,999,999.
    pub fn new(n: u32) -> Option<SeqNum>
        ensures { SomeIff result ((1 ≤ n) × (n ≤ 999999999)) n }
    {
        if n < 1 || n > LAST_SEQ_NUM {
            None
        } else {
            Some(SeqNum { number: n })
        }
    }

    pub fn get(self) -> u32
        ensures value { result ≡ self }
        ensures first { 1 ≤ result }
        ensures last { result ≤ 999999999 }
    {
        self.number
    }

    /// The number after it, or None at 999,999,999.
    pub fn next(self) -> Option<SeqNum>
        ensures { SomeIff result (self < 999999999) (self + 1) }
    {
        if self.number >= LAST_SEQ_NUM {
            None
        } else {
            Some(SeqNum {
                number: self.number + 1,
            })
        }
    }
}

/// The tag of a field: 1 to 999,999,999. Contracts see it as the number.
#[derive(Clone, Copy, Debug, PartialEq, Eq)]
pub struct Tag {
    number: u32,
}

impl Model for Tag {
    ghost use Rattle.std.specs.Prelude.{ℕ, ◌≤◌};

    ghost Value = { ℕ };

    ghost view = { λ t. t.number };

    ghost invariant = { λ t. (1 ≤ t.number) × (t.number ≤ 999999999) };

    ghost inverse = { λ n. record { number = n } };
}

impl Tag {
    /// The tag, or None outside 1 to 999,999,999.
    pub fn new(n: u32) -> Option<Tag>
        ensures { SomeIff result ((1 ≤ n) × (n ≤ 999999999)) n }
    {
        if n < 1 || n > LAST_TAG {
            None
        } else {
            Some(Tag { number: n })
        }
    }

    pub fn get(self) -> u32
        ensures value { result ≡ self }
        ensures first { 1 ≤ result }
        ensures last { result ≤ 999999999 }
    {
        self.number
    }
}
