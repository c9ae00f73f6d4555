//! What is staged: entries that took their numbers and aren't kept yet, each with the frame that goes out when it is
//! kept.
ghost use Rattle.std.specs.Prelude.{◌≡◌, ◌≤◌, ◌+◌, IsTrue, IsFalse, OnOk, OnErr, length};
ghost use Rattle.fix_base.specs.Payload.{HasPayload};
ghost use Rattle.fix_stage.specs.Stage.{IsStaged, no_stage, is_something, size_in_stage, has_room, with_entry};

use fix_base::{Bytes, Entries, Entry, OutOfMemory};
use std::alloc::Global;
use std::marker::Model;
use std::mem;

/// How many entries one record may have.
const MOST: usize = 64;

/// The longest payload of a record.
const LIMIT: usize = 1_114_112;

/// What a record of several takes beside its entries: what it is, how many they are, and the expected number.
const HEAD: usize = 9;

/// Entries that aren't kept yet, each with the frame that goes out when it is kept, or with none. All of them
/// may be kept as one record.
#[derive(Drop)]
pub struct Stage {
    entries: Vec<Entry>,
    frames: Vec<Option<Bytes>>,
    /// The payload of a record of them.
    size: usize,
}

impl Model for Stage {
    ghost use Rattle.std.specs.Prelude.{◌≡◌};
    ghost use Rattle.fix_stage.specs.Stage.{Staged, IsStaged, staged_size};

    ghost Value = { Staged };

    ghost view = { λ s. record { entries = s.entries.items; frames = s.frames.items } };

    ghost invariant = { λ s. IsStaged (record { entries = s.entries.items; frames = s.frames.items })
        × (s.size ≡ staged_size s.entries.items) };
}

/// What was staged.
#[derive(Drop)]
pub struct Taken {
    pub entries: Entries,
    pub frames: Vec<Option<Bytes>>,
}

impl Stage {
    /// A stage with nothing on it.
    pub fn new(alloc: Global) -> Stage
        ensures { result ≡ no_stage }
    {
        Stage {
            entries: Vec::new(alloc),
            frames: Vec::new(alloc),
            size: HEAD,
        }
    }

    /// How many entries are staged.
    pub fn len(&self) -> u32
        ensures is { result ≡ length self.now.entries }
        ensures few { result ≤ 64 }
    {
        self.entries.len() as u32
    }

    /// Whether there is something to keep, with this expected number where it isn't 0.
    pub fn is_due(&self, expect: u32) -> bool
        ensures is { result ≡ is_something self.now expect }
        ensures none { IsFalse result → self.now ≡ no_stage }
    {
        if self.entries.len() == 0 {
            return expect != 0;
        }
        true
    }

    /// Whether one more entry of this size goes into the same record.
    pub fn has_room(&self, size: usize) -> bool
        ensures { result ≡ has_room self.now size }
    {
        self.entries.len() < MOST && size <= LIMIT - self.size
    }

    /// Stages an entry with its frame. Where it is out of memory nothing changes.
    pub fn push(&mut self, entry: Entry, frame: Option<Bytes>) -> Result<(), OutOfMemory>
        requires payload { HasPayload entry }
        requires room { IsTrue (has_room self.old (size_in_stage entry)) }
        ensures pushed { OnOk result (self.new ≡ with_entry self.old entry frame) }
        ensures stays { OnErr result (self.new ≡ self.old) }
    {
        let size = size_of(&entry);
        match self.frames.push(frame) {
            Ok(()) => {}
            Err(_) => return Err(OutOfMemory),
        }
        match self.entries.push(entry) {
            Ok(()) => {
                self.size += size;
                Ok(())
            }
            Err(_) => {
                self.frames.pop();
                Err(OutOfMemory)
            }
        }
    }

    /// Takes all that is staged.
    pub fn take(&mut self, alloc: Global) -> Taken
        ensures entries { result.entries ≡ self.old.entries }
        ensures frames { result.frames.items ≡ self.old.frames }
        ensures was { IsStaged self.old }
        ensures empty { self.new ≡ no_stage }
    {
        let entries = mem::replace(&mut self.entries, Vec::new(alloc));
        let frames = mem::replace(&mut self.frames, Vec::new(alloc));
        self.size = HEAD;
        Taken {
            entries: Entries::from_vec(entries),
            frames,
        }
    }
}

/// How many bytes an entry that may be kept takes in a record of several.
pub fn size_of(entry: &Entry) -> usize
    requires { HasPayload entry.now }
    ensures { result ≡ size_in_stage entry.now }
{
    match entry {
        Entry::App { body, .. } => body.as_slice().len() + 13,
        Entry::Admin { .. } => 18,
    }
}
