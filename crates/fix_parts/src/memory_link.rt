//! A connection for tests and samples. What comes in and which calls fail are told to it beforehand.
ghost use Rattle.std.specs.Prelude.{◌≡◌, ◌≤◌, vec_len, vec_capacity};

use crate::{Link, ReadTurn, WriteTurn};
use fix_base::{Bytes, OutOfMemory};
use fix_disk::{Failing, put_bytes};
use std::alloc::Global;

/// A connection in memory. Its reads give the pieces that it was made with, and it keeps what is
/// written.
#[derive(Debug, Drop)]
pub struct MemoryLink {
    pieces: Vec<Bytes>,
    // The place of the first piece yet to come, and how much of that was read.
    at: usize,
    part: usize,
    out: Vec<u8>,
    capacity: usize,
    failing: Failing,
    ghost held: { vec_len out ≤ capacity },
    ghost room: { capacity ≤ vec_capacity out },
}

impl MemoryLink {
    ghost use Rattle.std.specs.Prelude.{◌<◌, ◌≢◌, [], length, Some, IfOk};
    ghost use Rattle.fix_parts.specs.Link.{TakesPieces};
    ghost use Rattle.fix_outside.specs.Connection.{IsInRoom};
    ghost use Rattle.fix_disk.specs.Script.{script_from, told_room};
    ghost use Rattle.fix_parts.specs.Memory.{pieces_of, link_of, link_script};

    /// A connection whose reads give these pieces. An empty piece is Idle, and End follows the
    /// last. It keeps up to `capacity` written bytes. The calls of `read` and `write` whose numbers
    /// are in `fail`, from 1 on, fail.
    pub fn new(
        alloc: Global,
        pieces: Vec<Bytes>,
        capacity: usize,
        fail: Vec<u64>,
    ) -> Result<MemoryLink, OutOfMemory>
        ensures seen { IfOk result
            (λ made. link_of made
            ≡ record {
              to_come = Some pieces.items;
              written = Some [];
              room = told_room fail.items capacity;
              faults = 0;
            }) }
        ensures script { IfOk result (λ made. link_script made ≡ script_from fail.items capacity) }
    {
        Ok(MemoryLink {
            pieces,
            at: 0,
            part: 0,
            out: Vec::with_capacity(alloc, capacity)?,
            capacity,
            failing: Failing::new(fail),
        })
    }

    /// The bytes that were written.
    pub fn written(&self) -> &[u8]
        ensures { (link_of self.now).written ≡ Some result.now }
    {
        self.out.as_slice()
    }

    // What a read gives that doesn't fail.
    fn take(&mut self, room: &mut [u8]) -> ReadTurn
        requires { 0 < length room.old }
        ensures answers { (result ≢ ReadTurn.Failed) × (result ≢ ReadTurn.OutOfMemory) }
        ensures in_room { IsInRoom result room.new }
        ensures pieces { TakesPieces result room.new (pieces_of self.old) (pieces_of self.new) }
        ensures written { (link_of self.new).written ≡ (link_of self.old).written }
        ensures room { (link_of self.new).room ≡ (link_of self.old).room }
        ensures faults { (link_of self.new).faults ≡ (link_of self.old).faults }
        ensures script { link_script self.new ≡ link_script self.old }
    {
        if self.at >= self.pieces.len() {
            return ReadTurn::End;
        }
        let piece = self.pieces[self.at].as_slice();
        if self.part >= piece.len() {
            self.at += 1;
            self.part = 0;
            return ReadTurn::Idle;
        }
        let left = &piece[self.part..];
        let count = left.len().min(room.len());
        room[..count].copy_from_slice(&left[..count]);
        if count == left.len() {
            self.at += 1;
            self.part = 0;
        } else {
            self.part += count;
        }
        ReadTurn::Bytes(count)
    }
}

impl Link for MemoryLink {
    ghost use Rattle.std.specs.Prelude.{◌↔◌, ◌⊎◌, ◌<◌, ◌≢◌, length};
    ghost use Rattle.fix_parts.specs.Link.{LinkReads, LinkWrites};
    ghost use Rattle.fix_disk.specs.Script.{FailsNext, next_call};
    ghost use Rattle.fix_parts.specs.Memory.{link_of, link_script, link_room};

    ghost link = { link_of };

    fn read(&mut self, room: &mut [u8]) -> ReadTurn
        requires { 0 < length room.old }
        ensures moves { LinkReads result room.new (link_of self.old) (link_of self.new) }
        ensures fails { (result ≡ ReadTurn.Failed) ↔ FailsNext (link_script self.old) }
        ensures memory { result ≢ ReadTurn.OutOfMemory }
        ensures script { link_script self.new
            ≡ record (link_script self.old) { calls = next_call (link_script self.old) } }
    {
        if self.failing.strikes() {
            return ReadTurn::Failed;
        }
        self.take(room)
    }

    fn write(&mut self, bytes: &[u8]) -> WriteTurn
        ensures moves { LinkWrites result bytes.now (link_of self.old) (link_of self.new) }
        ensures fails { (result ≡ WriteTurn.Failed 0)
            ↔ (FailsNext (link_script self.old) ⊎ (link_room self.old < length bytes.now)) }
        ensures answers { (result ≡ WriteTurn.Done) ⊎ (result ≡ WriteTurn.Failed 0) }
        ensures script { link_script self.new
            ≡ record (link_script self.old) { calls = next_call (link_script self.old) } }
    {
        if self.failing.strikes() {
            return WriteTurn::Failed(0);
        }
        if bytes.len() > self.capacity - self.out.len() {
            self.failing.fail();
            return WriteTurn::Failed(0);
        }
        put_bytes(&mut self.out, bytes);
        WriteTurn::Done
    }

    fn faults(&self) -> u64 {
        self.failing.faults
    }
}
