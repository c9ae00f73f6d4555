//! Looks for the next frame, and skips what is garbled before it. `reader` calls this.
ghost use Rattle.fix_frame.specs.Seeks.{Seeks};

use crate::item::{Framed, item_ahead};
use fix_base::SOH;

/// What the search for the next frame found.
#[derive(Clone, Copy)]
pub enum Sought {
    /// Where the frame starts and ends, and whether a mark may stand after it.
    Here(usize, usize, bool),
    /// Where the skipping ends, and whether a mark may stand there.
    Nowhere(usize, bool),
}

/// The first frame among the bytes, where a mark may stand at their front or not.
pub fn seek(bytes: &[u8], may_mark: bool) -> Sought
    ensures { Seeks (record { may_mark = may_mark; bytes = bytes.now }) result }
{
    let mut at = 0;
    let mut mark = may_mark;
    'items: loop {
        match item_ahead(&bytes[at..], mark) {
            Framed::Frame(frame) => {
                let end = at + frame.len();
                return Sought::Here(at, end, bytes[end - 1] == SOH);
            }
            Framed::Skip(count) => {
                at += count;
                mark = bytes[at - 1] == SOH;
            }
            Framed::More => return Sought::Nowhere(at, mark),
        }
    }
}
