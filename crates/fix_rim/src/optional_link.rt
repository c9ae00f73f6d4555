//! The connection of a session that may have none. `rim` reads and writes by this.
ghost use Rattle.std.specs.Prelude.{◌≡◌, ◌<◌, ◌+◌, length, min};
ghost use Rattle.fix_base.specs.Trace.{LAST_COUNT, Rises};
ghost use Rattle.fix_parts.specs.Link.{LinkReads, LinkWrites};
ghost use Rattle.fix_rim.specs.OptionalLink.{link_seen, plug_of};

use fix_parts::{Link, ReadTurn, WriteTurn};
use std::mem;

/// A connection, or none. Without one a read ends, and a write fails.
#[derive(Drop)]
pub(crate) struct OptionalLink<L> {
    pub(crate) link: Option<L>,
    // How many writes there were without a connection, with the faults of former connections.
    unlinked: u64,
}

impl<L: Link> OptionalLink<L> {
    pub(crate) fn new(link: Option<L>) -> OptionalLink<L>
        ensures link { result.link ≡ link }
        ensures none { result.unlinked ≡ 0 }
    {
        OptionalLink { link, unlinked: 0 }
    }

    /// Takes another connection, or none, and gives the former one, whose faults stay counted.
    pub(crate) fn relink(&mut self, link: Option<L>) -> Option<L>
        ensures former { result ≡ self.old.link }
        ensures link { self.new.link ≡ link }
        ensures counted { self.new.unlinked
            ≡ min (self.old.unlinked + min (link_seen L.link self.old.link).faults LAST_COUNT) LAST_COUNT }
        ensures faults { Rises 0 (plug_of L.link self.old).faults (plug_of L.link self.new).faults }
    {
        self.unlinked = self.unlinked.saturating_add(self.present());
        mem::replace(&mut self.link, link)
    }

    // How often the present connection failed.
    fn present(&self) -> u64
        ensures { result ≡ min (link_seen L.link self.now.link).faults LAST_COUNT }
    {
        match &self.link {
            Some(link) => link.faults(),
            None => 0,
        }
    }
}

impl<L: Link> Link for OptionalLink<L> {
    ghost link = { λ p. plug_of L.link p };

    fn read(&mut self, room: &mut [u8]) -> ReadTurn
        requires { 0 < length room.old }
        ensures moves { LinkReads result room.new (plug_of L.link self.old) (plug_of L.link self.new) }
    {
        match &mut self.link {
            Some(link) => link.read(room),
            None => ReadTurn::End,
        }
    }

    fn write(&mut self, bytes: &[u8]) -> WriteTurn
        ensures moves { LinkWrites result bytes.now (plug_of L.link self.old) (plug_of L.link self.new) }
    {
        match &mut self.link {
            Some(link) => link.write(bytes),
            None => {
                self.unlinked = self.unlinked.saturating_add(1);
                WriteTurn::Failed(0)
            }
        }
    }

    fn faults(&self) -> u64
        ensures { result ≡ min (plug_of L.link self.now).faults LAST_COUNT }
    {
        self.present().saturating_add(self.unlinked)
    }
}
