//! A link that may have unread bytes of its connection. A read takes from these first, and a write goes to the
//! connection itself.
ghost use Rattle.std.specs.Prelude.{◌≡◌, ◌≤◌, vec_len, min, length, take};

use fix_base::OutOfMemory;
use fix_disk::put_bytes;
use fix_parts::{Link, ReadTurn, WriteTurn};
use std::alloc::Global;

/// A connection of which bytes were read ahead. It gives these before the connection's own.
#[derive(Drop)]
pub struct Held<L> {
    link: L,
    unread: Vec<u8>,
    // how many of these were given
    given: usize,
    ghost within: { given ≤ vec_len unread },
}

impl<L: Link> Held<L> {
    ghost use Rattle.std.specs.Prelude.{◌≡◌, ◌<◌, ◌++◌, [], length, OnOk};
    ghost use Rattle.fix_parts.specs.Link.{LinkReads};
    ghost use Rattle.fix_host.specs.Held.{ahead_of, inner_of, HasRoomFor};
    ghost use Rattle.fix_host.specs.Greet.{bytes_of};

    /// A connection of which nothing was read yet.
    pub fn new(alloc: Global, link: L) -> Held<L>
        ensures unread { ahead_of result ≡ [] }
        ensures inner { inner_of result ≡ link }
    {
        Held {
            link,
            unread: Vec::new(alloc),
            given: 0,
        }
    }

    /// The connection itself, without the bytes that were read ahead.
    pub fn into_link(self) -> L
        ensures { result ≡ inner_of self }
    {
        let Held { link, .. } = self;
        link
    }

    /// The bytes that were read ahead.
    pub fn ahead(&self) -> &[u8]
        ensures { result.now ≡ ahead_of self.now }
    {
        &self.unread[self.given..]
    }

    // Has room for so many more bytes ahead.
    pub(crate) fn reserve(&mut self, count: usize) -> Result<(), OutOfMemory>
        ensures ahead { ahead_of self.new ≡ ahead_of self.old }
        ensures inner { inner_of self.new ≡ inner_of self.old }
        ensures room { OnOk result (HasRoomFor self.new count) }
    {
        self.unread.reserve(count)?;
        Ok(())
    }

    // Reads the connection itself, and keeps what came after the bytes ahead.
    pub(crate) fn read_ahead(&mut self, room: &mut [u8]) -> ReadTurn
        requires some { 0 < length room.old }
        requires room { HasRoomFor self.old (length room.old) }
        ensures moves { LinkReads result room.new (L.link (inner_of self.old)) (L.link (inner_of self.new)) }
        ensures ahead { ahead_of self.new ≡ ahead_of self.old ++ bytes_of result room.new }
    {
        let turn = self.link.read(room);
        if let ReadTurn::Bytes(count) = turn {
            put_bytes(&mut self.unread, &room[..count]);
        }
        turn
    }
}

impl<L: Link> Link for Held<L> {
    ghost use Rattle.std.specs.Prelude.{◌<◌, length, min};
    ghost use Rattle.fix_base.specs.Trace.{LAST_COUNT};
    ghost use Rattle.fix_parts.specs.Link.{LinkReads, LinkWrites};
    ghost use Rattle.fix_host.specs.Held.{ahead_of, inner_of, held_seen, HeldReads};

    ghost link = { λ h. held_seen (ahead_of h) (L.link (inner_of h)) };

    fn read(&mut self, room: &mut [u8]) -> ReadTurn
        requires { 0 < length room.old }
        ensures moves { LinkReads result room.new (held_seen (ahead_of self.old) (L.link (inner_of self.old)))
            (held_seen (ahead_of self.new) (L.link (inner_of self.new))) }
        ensures held { HeldReads result room.new (ahead_of self.old) (ahead_of self.new)
            (L.link (inner_of self.old)) (L.link (inner_of self.new)) }
    {
        if self.given >= self.unread.len() {
            return self.link.read(room);
        }
        let count = give(&self.unread[self.given..], room);
        self.given += count;
        ReadTurn::Bytes(count)
    }

    fn write(&mut self, bytes: &[u8]) -> WriteTurn
        ensures moves { LinkWrites result bytes.now (held_seen (ahead_of self.old) (L.link (inner_of self.old)))
            (held_seen (ahead_of self.new) (L.link (inner_of self.new))) }
        ensures unread { ahead_of self.new ≡ ahead_of self.old }
        ensures inner { LinkWrites result bytes.now (L.link (inner_of self.old)) (L.link (inner_of self.new)) }
    {
        self.link.write(bytes)
    }

    fn faults(&self) -> u64
        ensures { result ≡ min (L.link (inner_of self.now)).faults LAST_COUNT }
    {
        self.link.faults()
    }
}

// Copies as many of the bytes as there is room for, and says how many.
fn give(bytes: &[u8], room: &mut [u8]) -> usize
    ensures count { result ≡ min (length bytes.now) (length room.new) }
    ensures bytes { take result room.new ≡ take result bytes.now }
{
    let count = bytes.len().min(room.len());
    room[..count].copy_from_slice(&bytes[..count]);
    count
}
