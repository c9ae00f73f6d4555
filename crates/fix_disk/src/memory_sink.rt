//! `Sink` in memory: appends text in room that was taken at the start. `failing` can make a write fail.
ghost use Rattle.std.specs.Prelude.{◌≡◌, ◌≤◌, vec_len, vec_capacity};

use crate::failing::Failing;
use crate::room::put_bytes;
use crate::{Sink, SinkFailed};
use fix_base::OutOfMemory;
use std::alloc::Global;

/// A sink in memory, which keeps what is written. A write that fails keeps nothing.
#[derive(Debug, Drop)]
pub struct MemorySink {
    out: Vec<u8>,
    capacity: usize,
    failing: Failing,
    ghost held: { vec_len out ≤ capacity },
    ghost room: { capacity ≤ vec_capacity out },
}

impl MemorySink {
    ghost use Rattle.std.specs.Prelude.{[], Some, IfOk};
    ghost use Rattle.fix_disk.specs.Script.{script_from, told_room};
    ghost use Rattle.fix_disk.specs.MemorySink.{sink_of, sink_script};

    /// A sink that keeps up to `capacity` bytes. The calls of `write` whose numbers are in `fail`,
    /// from 1 on, fail.
    pub fn new(alloc: Global, capacity: usize, fail: Vec<u64>) -> Result<MemorySink, OutOfMemory>
        ensures seen { IfOk result
            (λ made. sink_of made ≡ record { written = Some []; room = told_room fail.items capacity; faults = 0 }) }
        ensures script { IfOk result (λ made. sink_script made ≡ script_from fail.items capacity) }
    {
        Ok(MemorySink {
            out: Vec::with_capacity(alloc, capacity)?,
            capacity,
            failing: Failing::new(fail),
        })
    }

    /// The bytes that were written.
    pub fn written(&self) -> &[u8]
        ensures { (sink_of self.now).written ≡ Some result.now }
    {
        self.out.as_slice()
    }

    /// How often a write failed.
    pub fn faults(&self) -> u64
        ensures { result ≡ (sink_of self.now).faults }
    {
        self.failing.faults
    }
}

impl Sink for MemorySink {
    ghost use Rattle.std.specs.Prelude.{◌↔◌, ◌⊎◌, ◌<◌, length, IsErr, OnErr};
    ghost use Rattle.fix_disk.specs.Sink.{SinkWrites};
    ghost use Rattle.fix_disk.specs.Script.{FailsNext, next_call};
    ghost use Rattle.fix_disk.specs.MemorySink.{sink_of, sink_script, sink_room};

    ghost sink = { sink_of };

    fn write(&mut self, bytes: &[u8]) -> Result<(), SinkFailed>
        ensures moves { SinkWrites result bytes.now (sink_of self.old) (sink_of self.new) }
        ensures fails { IsErr result ↔ (FailsNext (sink_script self.old) ⊎ (sink_room self.old < length bytes.now)) }
        ensures kept { OnErr result ((sink_of self.new).written ≡ (sink_of self.old).written) }
        ensures script { sink_script self.new
            ≡ record (sink_script self.old) { calls = next_call (sink_script self.old) } }
    {
        if self.failing.strikes() {
            return Err(SinkFailed);
        }
        if bytes.len() > self.capacity - self.out.len() {
            self.failing.fail();
            return Err(SinkFailed);
        }
        put_bytes(&mut self.out, bytes);
        Ok(())
    }
}
