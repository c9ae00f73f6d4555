//! How a session reads and writes. `fix_rim` calls it, and `fix_net` has one over TCP.
ghost use Rattle.std.specs.Prelude.{◌≡◌, ◌<◌, length, min};
ghost use Rattle.fix_base.specs.Trace.{LAST_COUNT};
ghost use Rattle.fix_parts.specs.Link.{LinkSeen, LinkReads, LinkWrites};

use fix_outside::{ReadTurn, WriteTurn};

/// A connection.
pub trait Link {
    /// The pieces yet to come and the bytes that went out, where they are told, and how often the
    /// connection failed.
    ghost link: { Self → LinkSeen };

    /// Reads into the front of the room, which has at least one byte.
    fn read(&mut self, room: &mut [u8]) -> ReadTurn
        requires { 0 < length room.old }
        ensures moves { LinkReads result room.new (link self.old) (link self.new) };

    /// Writes the bytes.
    fn write(&mut self, bytes: &[u8]) -> WriteTurn
        ensures moves { LinkWrites result bytes.now (link self.old) (link self.new) };

    /// How often it failed, up to 2^64 - 1.
    fn faults(&self) -> u64
        ensures { result ≡ min (link self.now).faults LAST_COUNT };
}
