//! The calls that a session makes, and their faults. `fix_engine` calls these in its stages, and `fix_rim`
//! carries them out.
ghost use Rattle.std.specs.Prelude.{◌≡◌, ◌∷◌, [], ◌<◌, length, option_map};
ghost use Rattle.fix_outside.specs.Calls.{Called, Look, Load, Mark, Read, Write, Keep, Fetch, Hand, Ask};
ghost use Rattle.fix_base.specs.Payload.{IsKeepable};
ghost use Rattle.fix_base.specs.Trace.{OutsideSeen, Trace, Asked};
ghost use Rattle.fix_fields.specs.Drafted.{draft_body};
ghost use Rattle.fix_outside.specs.Handing.{HasKind, IsKindOf};
ghost use Rattle.fix_outside.specs.Calls as calls;
ghost use Rattle.fix_outside.specs.Connection.{IsInRoom, IsInBytes};
ghost use Rattle.fix_outside.specs.Outside.{marks, tells_time, reads, writes, keeps, hands, loads, fetches, came, notes_of_again};
ghost use Rattle.fix_outside.specs.Outside.{HasPlace, NamesApp, HasEntry, open_kept, open_loaded, open_fetched, LoadAnswers};
ghost use Rattle.fix_outside.specs.Outside.{FetchAnswers};

use crate::{Again, Handed, ReadTurn, Said, WriteTurn};
use fix_base::{OutOfMemory, Record, SeqNum, Stored};
use fix_fields::Draft;

/// Why a record was not kept.
#[derive(Clone, Copy, Debug, PartialEq, Eq)]
pub enum KeepFault {
    /// The store failed: the record may be kept or not.
    Failed,
    /// Out of memory, and nothing was done.
    OutOfMemory,
}

/// Why a message store was not opened.
#[derive(Clone, Copy, Debug, PartialEq, Eq)]
pub enum LoadFault {
    /// The store failed.
    Failed,
    /// The file is no store's: it is none first at this place.
    Damaged(u64),
    /// Out of memory.
    OutOfMemory,
}

/// Why an entry was not fetched.
#[derive(Clone, Copy, Debug, PartialEq, Eq)]
pub enum FetchFault {
    /// The store failed.
    Failed,
    /// Out of memory, and nothing was done.
    OutOfMemory,
}

/// What an entry of a message store is.
#[derive(Clone, Copy, Debug, PartialEq, Eq)]
pub enum Kind {
    /// An application message, sent first at this time, in microseconds since 1970.
    App { time: u64 },
    /// A message of the session layer, which a resend skips.
    Admin,
    /// An application message that is withheld: a resend skips it too.
    Withheld,
}

/// All that a session calls: the connection, the message store, the application, the clock and the
/// tape of acts. Each call's clause says what is noted of it: the act that was done, which part
/// failed, what the application was asked. A fault is answered only where that part's count of
/// faults rose.
///
/// The message store is open or not, and always tells which: a `load` that isn't refused opens it;
/// a refused one and a `Failed` of `keep` or `fetch` leave it not open; nothing else changes this.
pub trait Outside {
    /// The tape of acts and the stored end, where they are told, whether the store is open, and the
    /// counts of faults.
    ghost seen: { Self → OutsideSeen };

    /// Reads the clock, in microseconds since 1970.
    fn now(&mut self) -> Result<u64, OutOfMemory>
        ensures noted { Trace (seen self.old) (seen self.new) (tells_time result) }
        ensures called { Called (seen self.old) (seen self.new) (Look result ∷ []) }
        ensures opens { (seen self.new).open_at ≡ (seen self.old).open_at };

    /// Opens the message store, and tells its numbers: the process starts from what is stored. A
    /// `last` is at most 999,999,999, an `expected` number 1 to 1,000,000,000.
    fn load(&mut self) -> Result<Stored, LoadFault>
        ensures noted { Trace (seen self.old) (seen self.new) (loads result) }
        ensures called { Called (seen self.old) (seen self.new) (Load result ∷ []) }
        ensures answers { LoadAnswers result (seen self.old) }
        ensures opens { (seen self.new).open_at ≡ open_loaded result };

    /// Notes that a connection was opened or, with `cut`, that it is given up.
    fn mark(&mut self, cut: bool) -> Result<(), OutOfMemory>
        ensures noted { Trace (seen self.old) (seen self.new) (marks cut result) }
        ensures called { Called (seen self.old) (seen self.new) (Mark cut result ∷ []) }
        ensures opens { (seen self.new).open_at ≡ (seen self.old).open_at };

    /// Reads what came over the connection into the front of `room`.
    fn read(&mut self, room: &mut [u8]) -> ReadTurn
        requires { 0 < length room.old }
        ensures noted { Trace (seen self.old) (seen self.new) (reads result room.new) }
        ensures called { Called (seen self.old) (seen self.new) (Read (length room.new) (came result room.new) ∷ []) }
        ensures in_room { IsInRoom result room.new }
        ensures opens { (seen self.new).open_at ≡ (seen self.old).open_at };

    /// Writes the bytes on the connection.
    fn write(&mut self, bytes: &[u8]) -> WriteTurn
        ensures noted { Trace (seen self.old) (seen self.new) (writes result bytes.now) }
        ensures called { Called (seen self.old) (seen self.new) (Write bytes.now result ∷ []) }
        ensures in_bytes { IsInBytes result bytes.now }
        ensures opens { (seen self.new).open_at ≡ (seen self.old).open_at };

    /// Keeps the record in the message store, which is open and has a number for each of its entries. A
    /// number that is withheld is one of an application message.
    fn keep(&mut self, kept: &Record) -> Result<(), KeepFault>
        requires payload { IsKeepable kept.now }
        requires place { HasPlace kept.now (seen self.old).open_at }
        requires named { NamesApp kept.now (seen self.old) }
        ensures noted { Trace (seen self.old) (seen self.new) (keeps result kept.now) }
        ensures called { Called (seen self.old) (seen self.new) (Keep kept.now result ∷ []) }
        ensures opens { (seen self.new).open_at ≡ open_kept result kept.now (seen self.old).open_at };

    /// What the entry of this number is. The body of an application message is put into `into`, in
    /// the place of what was there. The store is open, and has the entry.
    fn fetch(&mut self, n: SeqNum, into: &mut Vec<u8>) -> Result<Kind, FetchFault>
        requires { HasEntry n (seen self.old).open_at }
        ensures noted { Trace (seen self.old) (seen self.new) (fetches result) }
        ensures called { Called (seen self.old) (seen self.new) (Fetch n result into.new.items ∷ []) }
        ensures answers { FetchAnswers result n into.new.items (seen self.old) }
        ensures opens { (seen self.new).open_at ≡ open_fetched result (seen self.old).open_at };

    /// Hands a message over to the application. Its kind is the MsgType (35) that its body begins
    /// with.
    fn hand(&mut self, h: &Handed<'_>) -> Said
        requires { HasKind h.now }
        ensures noted { Trace (seen self.old) (seen self.new) (hands result h.now) }
        ensures called { Called (seen self.old) (seen self.new) (Hand h.now.number h.now.marked h.now.body.now result ∷ []) }
        ensures opens { (seen self.new).open_at ≡ (seen self.old).open_at };

    /// Asks the application whether the message of this number may be sent again. Its kind is the MsgType (35)
    /// that its body begins with.
    fn again(&mut self, n: SeqNum, kind: &[u8], body: &[u8]) -> Again
        requires { IsKindOf kind.now body.now }
        ensures noted { Trace (seen self.old) (seen self.new) (notes_of_again result n) }
        ensures called { Called (seen self.old) (seen self.new) (calls.Again n body.now result ∷ []) }
        ensures opens { (seen self.new).open_at ≡ (seen self.old).open_at };

    /// Asks the application for a message to be sent.
    fn ask(&mut self) -> Option<Draft>
        ensures noted { Trace (seen self.old) (seen self.new) (Asked (option_map draft_body result) ∷ []) }
        ensures called { Called (seen self.old) (seen self.new) (Ask (option_map draft_body result) ∷ []) }
        ensures opens { (seen self.new).open_at ≡ (seen self.old).open_at };
}
