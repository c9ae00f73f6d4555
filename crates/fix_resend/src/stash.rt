//! The place for frames that came too early: each stays here until its number is expected. It is bounded in
//! frames and in bytes.
ghost use Rattle.std.specs.Prelude.{◌≡◌, ◌↔◌, ◌≢◌, ◌<◌, ◌≤◌, ℕ, IsTrue, IsSome, OnOk, OnErr, IfOk, IfErr, length};
ghost use Rattle.std.specs.Prelude.{true, false};
ghost use Rattle.std.specs.FinMap as map;
ghost use Rattle.fix_resend.specs.Waiting.{IsFull, IsBounded, Waiting, bytes_of, from_number, DropsBelow, StandsFrom};

use fix_base::{Bytes, OutOfMemory, SeqNum};
use std::alloc::Global;
use std::collections::BTreeMap;
use std::marker::Model;

/// The most frames that wait.
const MOST_FRAMES: usize = 1024;

/// The most bytes that the frames that wait have in all.
const MOST_BYTES: usize = 16_777_216;

/// Frames that came before the numbers that go before theirs: each waits under its MsgSeqNum (34). At most
/// 1,024 wait, of at most 16,777,216 bytes in all. Contracts see it as the map from numbers to frames.
#[derive(Drop)]
pub struct Stash {
    frames: BTreeMap<u32, Bytes>,
    bytes: usize,
}

impl Model for Stash {
    ghost use Rattle.std.specs.Prelude.{◌≡◌, ℕ, List, length};
    ghost use Rattle.std.specs.Ordering.{nat_cmp};
    ghost use Rattle.std.specs.FinMap as maps;
    ghost use Rattle.std.specs.Coded.{coded_ℕ, coded_list};
    ghost use Rattle.fix_resend.specs.Waiting.{IsHeld};

    ghost Value = { maps.FinMap nat_cmp (List ℕ) };

    ghost coded = { maps.code coded_ℕ (coded_list coded_ℕ) };

    ghost view = { λ s. maps.from_entries s.frames.entries };

    ghost invariant = { λ s. IsHeld s.frames.entries s.bytes };
}

/// Why a frame isn't kept.
#[derive(Clone, Copy, Debug, PartialEq, Eq)]
pub enum StashFault {
    /// 1,024 frames wait, or their bytes would be more than 16,777,216.
    Full,
    OutOfMemory,
}

impl Stash {
    /// One in which no frame waits.
    pub fn new(alloc: Global) -> Result<Stash, OutOfMemory>
        ensures { result ≡ Ok map.empty }
    {
        Ok(Stash {
            frames: BTreeMap::new(alloc),
            bytes: 0,
        })
    }

    /// Lets a frame wait under its number. False where one waits there already: the first one stays. It costs the
    /// logarithm of the number of frames and a copy of the frame.
    pub fn keep(&mut self, alloc: Global, n: SeqNum, frame: &[u8]) -> Result<bool, StashFault>
        ensures kept { result ≡ Ok true → self.new ≡ map.insert self.old n frame.now }
        ensures same { result ≢ Ok true → self.new ≡ self.old }
        ensures waits { (result ≡ Ok false) ↔ IsSome (map.get self.old n) }
        ensures full { (result ≡ Err StashFault.Full) ↔ (map.get self.old n ≡ None)
            × IsFull self.old (length frame.now) }
        ensures bounded { IsBounded self.new }
    {
        if self.waits(n) {
            return Ok(false);
        }
        if self.full(frame.len()) {
            return Err(StashFault::Full);
        }
        let Ok(copy) = Bytes::copy(alloc, frame) else {
            return Err(StashFault::OutOfMemory);
        };
        self.put(n, copy)
    }

    /// The frame that waits under the number, which waits no longer. It costs the logarithm of the number of
    /// frames.
    pub fn take(&mut self, n: SeqNum) -> Option<Bytes>
        ensures frame { result ≡ map.get self.old n }
        ensures rest { self.new ≡ map.remove self.old n }
        ensures bounded { IsBounded self.new }
    {
        let Some(frame) = self.frames.remove(&n.get()) else {
            return None;
        };
        self.bytes -= frame.as_slice().len();
        Some(frame)
    }

    /// Drops the frames whose numbers are below this one. It costs what it drops, and the logarithm of the
    /// number of frames for each.
    pub fn drop_below(&mut self, n: u32)
        ensures rest { self.new ≡ from_number n self.old }
        ensures fewer { map.len self.new ≤ map.len self.old }
        ensures bounded { IsBounded self.new }
    {
        while self.drop_first_below(n) {}
    }

    /// Whether there's no room for a frame of this length.
    pub fn full(&self, length: usize) -> bool
        ensures full { IsTrue result ↔ IsFull self.now length }
        ensures bounded { IsBounded self.now }
    {
        self.frames.len() >= MOST_FRAMES || length > MOST_BYTES - self.bytes
    }

    /// Whether a frame waits under the number.
    pub fn waits(&self, n: SeqNum) -> bool
        ensures waits { result ≡ map.contains_key self.now n }
        ensures bounded { IsBounded self.now }
    {
        self.frames.contains_key(&n.get())
    }

    // Lets a frame wait for which there is room, and whose number doesn't wait.
    fn put(&mut self, n: SeqNum, frame: Bytes) -> Result<bool, StashFault>
        requires apart { map.get self.old n ≡ None }
        requires room { ¬ IsFull self.old (length frame) }
        ensures ok { OnOk result (self.new ≡ map.insert self.old n frame) }
        ensures err { OnErr result (self.new ≡ self.old) }
        ensures each { IfOk result (λ kept. kept ≡ true) }
        ensures cause { IfErr result (λ e. e ≡ StashFault.OutOfMemory) }
        ensures bounded { IsBounded self.new }
    {
        let size = frame.as_slice().len();
        let Ok(_) = self.frames.insert(n.get(), frame) else {
            return Err(StashFault::OutOfMemory);
        };
        self.bytes += size;
        Ok(true)
    }

    // Drops the first frame, if its number is below this one.
    fn drop_first_below(&mut self, n: u32) -> bool
        ensures dropped { IsTrue result → DropsBelow n self.old self.new }
        ensures none { result ≡ false → StandsFrom n self.old × (self.new ≡ self.old) }
        ensures bounded { IsBounded self.new }
    {
        let Some((number, _)) = self.frames.first_key_value() else {
            return false;
        };
        if *number >= n {
            return false;
        }
        let Some((_, first)) = self.frames.pop_first() else {
            return false;
        };
        self.bytes -= first.as_slice().len();
        true
    }
}
