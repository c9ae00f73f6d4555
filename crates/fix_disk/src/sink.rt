//! What a place for text is to whoever writes it: one call, which may fail. `memory_sink` and `stream_sink`
//! carry it out.
ghost use Rattle.fix_disk.specs.Sink.{SinkSeen, SinkWrites};

/// A sink failed. Some of the bytes of the write may have gone out.
#[derive(Clone, Copy, Debug, PartialEq, Eq)]
pub struct SinkFailed;

/// A place for text.
pub trait Sink {
    /// The bytes that were written, where they are told, and how often the sink failed.
    ghost sink: { Self → SinkSeen };

    /// Writes the bytes after those that were written.
    fn write(&mut self, bytes: &[u8]) -> Result<(), SinkFailed>
        ensures moves { SinkWrites result bytes.now (sink self.old) (sink self.new) };
}
