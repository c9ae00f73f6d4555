//! Reads from a stream of bytes. `stdio_link` calls this for each read.
ghost use Rattle.std.specs.Prelude.{◌<◌, length};
ghost use Rattle.fix_outside.specs.Connection.{IsInRoom};
ghost use Rattle.fix_parts.specs.Streams.{StreamGives};

use crate::ReadTurn;
use std::io::{ErrorKind, Read};

// Waits for bytes. An interrupted read is tried again.
pub(crate) fn read_some<R: Read>(input: &mut R, room: &mut [u8]) -> ReadTurn
    requires { 0 < length room.old }
    ensures in_room { IsInRoom result room.new }
    ensures bytes { StreamGives result room.new (R.remaining input.old) (R.remaining input.new) }
{
    for _ in 0..u64::MAX {
        match input.read(room) {
            Ok(0) => return ReadTurn::End,
            Ok(count) => return ReadTurn::Bytes(count),
            Err(e) => {
                if e.kind() != ErrorKind::Interrupted {
                    return ReadTurn::Failed;
                }
            }
        }
    }
    ReadTurn::Failed
}
