//! Reads a stream whose pieces are all there, and copies its frames. It feeds a `Reader` piece by piece.
ghost use Rattle.std.specs.Prelude.{◌≡◌, ◌++◌, [], true, List, OnOk, IfOk};
ghost use Rattle.fix_base.specs.Says.{joined};
ghost use Rattle.fix_base.specs.Stream.{UnreadBytes, AreFramesOf, Item, frames, Reads};
ghost use Rattle.fix_frame.specs.Whole.{GivesAll};

use crate::Reader;
use fix_base::{Bytes, OutOfMemory};
use std::alloc::{AllocError, Global};

/// The frames of a stream that comes in these pieces: the same however it is cut.
pub fn frames_of(alloc: Global, pieces: &[Bytes]) -> Result<Vec<Bytes>, OutOfMemory>
    ensures are { IfOk result (λ out. AreFramesOf (joined pieces.now) out.items) }
    ensures only { IfOk result (λ out. (items : List Item) (rest : UnreadBytes) →
        Reads (record { may_mark = true; bytes = joined pieces.now }) items rest → out.items ≡ frames items) }
{
    let mut reader = Reader::new(alloc)?;
    let mut out = Vec::new(alloc);
    for piece in pieces {
        reader.feed(piece.as_slice())?;
        drain(alloc, &mut reader, &mut out)?;
    }
    Ok(out)
}

/// Adds a copy of each frame that is whole now.
fn drain(alloc: Global, reader: &mut Reader, out: &mut Vec<Bytes>) -> Result<(), OutOfMemory>
    ensures { OnOk result (GivesAll reader.old.unread reader.new.unread out.old.items out.new.items) }
{
    while let Some(frame) = reader.next() {
        let copy = Bytes::copy(alloc, frame)?;
        if let Err(refused) = out.push(copy) {
            return Err(AllocError::from(refused).into());
        }
    }
    Ok(())
}
