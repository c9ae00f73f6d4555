//! Looks for the first frame of a connection among the bytes that were read of it, from the place on that it had come
//! to before.
ghost use Rattle.std.specs.Prelude.{◌≡◌};
ghost use Rattle.fix_host.specs.Looking.{IsLookedTo, Looks};

use fix_frame::{Framed, frame_at};

/// What a look at the bytes of a connection came to.
#[derive(Clone, Copy)]
pub(crate) enum Looked {
    /// The first frame is from here to there.
    Frame(usize, usize),
    /// There is none. What is before this place is garbled.
    Nothing(usize),
}

/// Goes on from the place, before which there is no frame.
pub(crate) fn look(bytes: &[u8], from: usize) -> Looked
    requires { IsLookedTo bytes.now from }
    ensures { Looks bytes.now result }
{
    let mut at = from;
    'items: loop {
        match frame_at(bytes, at) {
            Framed::Frame(frame) => return Looked::Frame(at, at + frame.len()),
            Framed::Skip(count) => at += count,
            Framed::More => return Looked::Nothing(at),
        }
    }
}
