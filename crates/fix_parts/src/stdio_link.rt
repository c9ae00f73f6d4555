//! A connection over two streams. `fixacceptor` runs with the standard ones.
ghost use Rattle.std.specs.Prelude.{◌<◌, length};
ghost use Rattle.fix_parts.specs.Link.{LinkReads, LinkWrites};
ghost use Rattle.fix_parts.specs.Streams.{StreamGives, StreamTakes};

use crate::streams::read_some;
use crate::{Link, ReadTurn, WriteTurn};
use fix_disk::write_out;
use std::io::{Read, Write};

/// A connection over an input and an output, as the standard ones: `rt.stdin()` and
/// `rt.stdout()`. A read waits for bytes, so it is never Idle. The end of the input is End. A write
/// is passed on at once.
#[derive(Drop)]
pub struct StdioLink<I, O> {
    pub input: I,
    pub output: O,
    faults: u64,
}

impl<I: Read, O: Write> StdioLink<I, O> {
    ghost use Rattle.std.specs.Prelude.{◌≡◌};
    ghost use Rattle.fix_parts.specs.Adapters.{stdio_link_of};

    /// A connection that reads from the input and writes to the output.
    pub fn new(input: I, output: O) -> StdioLink<I, O>
        ensures input { result.input ≡ input }
        ensures output { result.output ≡ output }
        ensures faults { (stdio_link_of result).faults ≡ 0 }
    {
        StdioLink {
            input,
            output,
            faults: 0,
        }
    }
}

impl<I: Read, O: Write> Link for StdioLink<I, O> {
    ghost use Rattle.std.specs.Prelude.{◌≡◌};
    ghost use Rattle.fix_parts.specs.Adapters.{stdio_link_of};

    ghost link = { stdio_link_of };

    fn read(&mut self, room: &mut [u8]) -> ReadTurn
        requires { 0 < length room.old }
        ensures moves { LinkReads result room.new (stdio_link_of self.old) (stdio_link_of self.new) }
        ensures bytes { StreamGives result room.new (I.remaining self.old.input) (I.remaining self.new.input) }
        ensures output { self.new.output ≡ self.old.output }
    {
        let turn = read_some(&mut self.input, room);
        if matches!(turn, ReadTurn::Failed) {
            self.faults = self.faults.saturating_add(1);
        }
        turn
    }

    fn write(&mut self, bytes: &[u8]) -> WriteTurn
        ensures moves { LinkWrites result bytes.now (stdio_link_of self.old) (stdio_link_of self.new) }
        ensures bytes { StreamTakes result bytes.now (O.contents self.old.output) (O.contents self.new.output) }
        ensures input { self.new.input ≡ self.old.input }
    {
        match write_out(&mut self.output, bytes) {
            Ok(()) => WriteTurn::Done,
            Err(count) => {
                self.faults = self.faults.saturating_add(1);
                WriteTurn::Failed(count)
            }
        }
    }

    fn faults(&self) -> u64 {
        self.faults
    }
}
