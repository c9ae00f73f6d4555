//! Where a walk over the records of a journal stands, and what is seen of a record before it is read. `journal`
//! gives these.
ghost use Rattle.std.specs.Prelude.{◌≡◌};

use std::marker::Model;

/// Where a walk over the records of a journal stands: at one of them, or after the last. Contracts see the record's
/// index and the place of its gate in the file.
#[derive(Clone, Copy, Debug, PartialEq, Eq)]
pub struct Cursor {
    pub(crate) index: u64,
    pub(crate) place: u64,
}

impl Model for Cursor {
    ghost use Rattle.fix_journal.specs.Cursors.{CursorSeen};

    ghost Value = { CursorSeen };

    ghost view = { λ c. record { index = c.index; place = c.place } };

    ghost inverse = { λ c. record { index = c.index; place = c.place } };
}

impl Cursor {
    /// The index of the record.
    pub fn index(&self) -> u64
        ensures { result ≡ self.now.index }
    {
        self.index
    }

    /// The place of the record's gate in the file.
    pub fn place(&self) -> u64
        ensures { result ≡ self.now.place }
    {
        self.place
    }
}

/// What is seen of a record: its payload's length in bytes, and the first five of them, filled up with 0.
#[derive(Clone, Copy, Debug, PartialEq, Eq)]
pub struct Peek {
    pub length: u32,
    pub head: [u8; 5],
}
