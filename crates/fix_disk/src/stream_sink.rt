//! `Sink` over a stream of the system. It writes by `streams`, and counts the writes that failed.
ghost use Rattle.fix_disk.specs.Sink.{SinkWrites};

use crate::streams::write_out;
use crate::{Sink, SinkFailed};
use std::io::Write;

/// A sink over a writer, as the standard output or error: `rt.stdout()`, `rt.stderr()`. A write is
/// passed on at once.
#[derive(Drop)]
pub struct StreamSink<W> {
    pub output: W,
    faults: u64,
}

impl<W: Write> StreamSink<W> {
    ghost use Rattle.std.specs.Prelude.{◌≡◌};
    ghost use Rattle.fix_disk.specs.StreamSink.{stream_sink_of};

    /// A sink that writes to the writer.
    pub fn new(output: W) -> StreamSink<W>
        ensures output { result.output ≡ output }
        ensures faults { (stream_sink_of result).faults ≡ 0 }
    {
        StreamSink { output, faults: 0 }
    }

    /// How often a write failed.
    pub fn faults(&self) -> u64
        ensures { result ≡ (stream_sink_of self.now).faults }
    {
        self.faults
    }
}

impl<W: Write> Sink for StreamSink<W> {
    ghost use Rattle.fix_disk.specs.StreamSink.{stream_sink_of, StreamSinks};

    ghost sink = { stream_sink_of };

    fn write(&mut self, bytes: &[u8]) -> Result<(), SinkFailed>
        ensures moves { SinkWrites result bytes.now (stream_sink_of self.old) (stream_sink_of self.new) }
        ensures bytes { StreamSinks result bytes.now (W.contents self.old.output) (W.contents self.new.output) }
    {
        match write_out(&mut self.output, bytes) {
            Ok(()) => Ok(()),
            Err(_) => {
                self.faults = self.faults.saturating_add(1);
                Err(SinkFailed)
            }
        }
    }
}
