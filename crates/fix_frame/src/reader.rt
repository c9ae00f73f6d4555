//! Keeps the bytes of a connection until a frame is whole. `fix_engine` feeds it what each read gave, and
//! takes the frames out of it.
ghost use mathlib.Core.Option.{none};
ghost use Rattle.std.specs.Borrow.{sem, follows_so};
ghost use Rattle.std.specs.Option.{option_copied};
ghost use Rattle.std.specs.Prelude.{◌≡◌, ◌<◌, ◌≤◌, ◌++◌, [], true, IfOk, OnOk, OnErr, ⊤, drop, vec_len};
ghost use Rattle.fix_frame.specs.Given.{GivesNext, KeepsFew, WaitsBelow};
ghost use Rattle.fix_frame.specs.contracts.reader.Reader.{the_row};

use crate::seeking::{Sought, seek};
use crate::shape::least_of;
use fix_base::OutOfMemory;
use std::alloc::Global;
use std::marker::Model;

/// The room that a reader has from the start.
const FIRST_ROOM: usize = 8192;

/// Bytes that were read are let go of once there are so many, or when nothing else is kept.
const MOST_READ: usize = 65_536;

/// Drops the first bytes. Most pieces need none of it, so it isn't to be a part of what they run.
#[inline(never)]
fn drop_front(bytes: &mut Vec<u8>, count: usize)
    requires { count ≤ vec_len bytes.old }
    ensures { bytes.new.items ≡ drop count bytes.old.items }
{
    let front = bytes.drain(..count);
    drop(front);
}

/// Lets go of bytes before the place where that is worth it, and gives the place among those
/// that are kept. After a None fewer than 1,048,612 bytes wait, so for each byte that goes fewer
/// than 17 are moved, however small the pieces are.
fn let_go(kept: &mut Vec<u8>, place: usize) -> usize
    requires { place ≤ vec_len kept.old }
    ensures same { drop result kept.new.items ≡ drop place kept.old.items }
    ensures inside { result ≤ vec_len kept.new }
    ensures few { result < 65536 }
    ensures shorter { vec_len kept.new ≤ vec_len kept.old }
{
    if place >= MOST_READ || place == kept.len() {
        drop_front(kept, place);
        0
    } else {
        place
    }
}

/// How many bytes there have to be before anything stands at their front; 0 where that isn't known.
fn needed(bytes: &[u8], may_mark: bool) -> usize
    ensures { WaitsBelow (record { may_mark = may_mark; bytes = bytes.now }) result }
{
    if may_mark { least_of(bytes) } else { 0 }
}

/// The frames of a stream that comes in pieces. Contracts see the bytes from the place on up to
/// which it was read, whether a mark may stand there, and how many bytes are kept in all: these,
/// and those before the place that were read and not let go of.
#[derive(Drop)]
pub struct Reader {
    kept: Vec<u8>,
    place: usize,
    may_mark: bool,
    // With fewer unread bytes than these nothing stands at the place, so they aren't looked at.
    need: usize,
}

impl Model for Reader {
    ghost use Rattle.std.specs.Prelude.{◌<◌, ◌≤◌, length, drop};
    ghost use Rattle.fix_frame.specs.Given.{ReaderSeen, WaitsBelow};

    ghost Value = { ReaderSeen };

    ghost view = { λ r.
        record {
          unread = record { may_mark = r.may_mark; bytes = drop r.place r.kept.items };
          kept = length r.kept.items;
        } };

    ghost invariant = { λ r. (r.place ≤ length r.kept.items)
        × WaitsBelow (record { may_mark = r.may_mark; bytes = drop r.place r.kept.items }) r.need
        × (0 < r.need → r.place < 65536) };
}

impl Reader {
    /// A reader of a stream of which nothing has come.
    pub fn new(alloc: Global) -> Result<Reader, OutOfMemory>
        ensures { IfOk result (λ made. made ≡ record { unread = record { may_mark = true; bytes = [] }; kept = 0 }) }
    {
        Ok(Reader {
            kept: Vec::with_capacity(alloc, FIRST_ROOM)?,
            place: 0,
            may_mark: true,
            need: 0,
        })
    }

    /// Takes the next piece of the stream. After it fewer than 65,536 bytes are kept beside the
    /// unread ones. After an `Err` the stream is as before, and no more is kept than was.
    pub fn feed(&mut self, piece: &[u8]) -> Result<(), OutOfMemory>
        ensures ok { OnOk result (self.new.unread
            ≡ record { may_mark = self.old.unread.may_mark; bytes = self.old.unread.bytes ++ piece.now }) }
        ensures few { OnOk result (KeepsFew self.new) }
        ensures err { OnErr result (self.new.unread ≡ self.old.unread) }
        ensures no_more { OnErr result (self.new.kept ≤ self.old.kept) }
    {
        self.place = let_go(&mut self.kept, self.place);
        self.kept.extend_from_slice(piece)?;
        Ok(())
    }

    /// The next frame, or None until more pieces are fed. What is garbled before it is skipped.
    /// After None fewer than 1,048,612 bytes are unread, and fewer than 65,536 are kept beside
    /// these. At a frame nothing is let go of, so no more is kept than was.
    pub fn next(&mut self) -> Option<&[u8]>
        ensures* { sem 𝓛 (follows_so the_row the_row self.entry.ghost_name none (λ _ _. ⊤)
            (λ v. GivesNext self.old v (option_copied result))) }
    {
        if self.kept.len() - self.place < self.need {
            return None;
        }
        match seek(&self.kept[self.place..], self.may_mark) {
            Sought::Here(start, end, may_mark) => {
                let from = self.place + start;
                self.place += end;
                self.may_mark = may_mark;
                self.need = 0;
                Some(&self.kept[from..self.place])
            }
            Sought::Nowhere(end, may_mark) => {
                let place = self.place + end;
                self.place = let_go(&mut self.kept, place);
                self.may_mark = may_mark;
                self.need = needed(&self.kept[self.place..], may_mark);
                None
            }
        }
    }
}

#[cfg(test)]
mod tests {
    use super::*;
    use std::test::Fail;

    /// The head of a frame of 200,000 bytes that never comes.
    const HEAD: &[u8] = b"8=FIX.4.2\x019=200000\x0135=D\x01";

    /// How much is kept is proved; that the room for it grows no further is not.
    #[test]
    fn the_room_of_a_reader_stays_small(rt: HostRuntime) -> Result<(), Fail> {
        let mut reader = Reader::new(rt.alloc())?;
        let mut most = 0;
        for _ in 0..25_000u32 {
            reader.feed(HEAD)?;
            assert!(rt; reader.next().is_none());
            most = most.max(reader.kept.len());
            assert!(rt; reader.kept.capacity() <= 524_288);
        }
        // Bytes were let go of while others waited.
        assert!(rt; most > 200_000);
        Ok(())
    }
}
