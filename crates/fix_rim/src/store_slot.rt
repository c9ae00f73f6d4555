//! Has the message store of a session, open or not. `rim` calls this for `load`, `keep` and `fetch`.
ghost use Rattle.std.specs.Prelude.{◌≡◌, None, Some, Err, IfOk};
ghost use Rattle.fix_base.specs.declared.entry.Entry.{Entry as TheEntry};
ghost use Rattle.fix_base.specs.End.{End, IsEntry};
ghost use Rattle.fix_base.specs.Payload.{IsKeepable, HasPayload};
ghost use Rattle.fix_base.specs.Trace.{acts_of, store_failures};
ghost use Rattle.fix_store.specs.Store.{HoldsEnd};
ghost use Rattle.fix_outside.specs.declared.outside.KeepFault.TheVariants.{OutOfMemory};
ghost use Rattle.fix_outside.specs.Outside.{keeps, loads, fetches, HasPlace, HasEntry, open_kept, open_loaded};
ghost use Rattle.fix_outside.specs.Outside.{open_fetched};
ghost use Rattle.fix_rim.specs.StoreSlot.{seen_on, DiskMoves, KeepLeft, LoadGives, LoadRoom, LoadLeaves};
ghost use Rattle.fix_rim.specs.StoreSlot.{LoadLasts, KeptRoom, FetchRoom, IsKindOf, IsHeldAs, NamesAppOn};

use crate::slot_contents::{SlotContents, fetch_from, keep_in, opened, put_back, shut};
use crate::{FetchFault, KeepFault, Kind, LoadFault};
use fix_base::{Record, SeqNum, Stored};
use fix_disk::Disk;
use std::alloc::Global;
use std::marker::Model;
use std::mem;

/// A disk, with the message store that was opened on it or none. Contracts see the disk, and how
/// many entries the store has, where it is open.
#[derive(Drop)]
pub(crate) struct StoreSlot<D: Disk> {
    alloc: Global,
    contents: SlotContents<D>,
}

impl<D: Disk> Model for StoreSlot<D> {
    ghost use Rattle.fix_rim.specs.StoreSlot.{StoreSlotSeen, device_in, open_in, is_held};
    ghost use Rattle.std.specs.Prelude.{◌≡◌, true};

    ghost Value = { StoreSlotSeen D };

    ghost view = { λ s. record { device = device_in s.contents; open_at = open_in s.contents } };

    ghost invariant = { λ s. is_held s.contents ≡ true };
}

impl<D: Disk> StoreSlot<D> {
    /// The disk, of which no store is open.
    pub(crate) fn new(alloc: Global, disk: D) -> StoreSlot<D>
        ensures { result ≡ record { device = Some disk; open_at = None } }
    {
        StoreSlot {
            alloc,
            contents: SlotContents::Shut(disk),
        }
    }

    /// Opens the store anew, and tells its numbers.
    pub(crate) fn load(&mut self) -> Result<Stored, LoadFault>
        ensures opens { self.new.open_at ≡ open_loaded result }
        ensures gives { LoadGives result (seen_on D.disk self.old.device) }
        ensures moves { DiskMoves (acts_of (loads result)) (store_failures (loads result)) (seen_on D.disk self.old.device)
            (seen_on D.disk self.new.device) }
        ensures room { LoadRoom result (seen_on D.disk self.old.device) (seen_on D.disk self.new.device) }
        ensures leaves { LoadLeaves (seen_on D.disk self.old.device) (seen_on D.disk self.new.device) }
        ensures lasts { LoadLasts result (seen_on D.disk self.new.device) }
    {
        let contents = mem::replace(&mut self.contents, SlotContents::Taken);
        let (contents, answer) = opened(self.alloc, contents);
        put_back(&mut self.contents, contents);
        answer
    }

    /// The disk.
    pub(crate) fn into_disk(self) -> D
        ensures { self.device ≡ Some result }
    {
        match self.contents {
            SlotContents::Shut(disk) => disk,
            SlotContents::Open(store) => store.into_disk(),
            SlotContents::Taken => unreachable!(),
        }
    }

    /// Closes the store.
    pub(crate) fn close(&mut self)
        ensures { self.new ≡ record { device = self.old.device; open_at = None } }
    {
        let contents = mem::replace(&mut self.contents, SlotContents::Taken);
        put_back(&mut self.contents, shut(contents));
    }

    /// Keeps the record in the store, which is open.
    pub(crate) fn keep(&mut self, kept: &Record) -> Result<(), KeepFault>
        requires payload { IsKeepable kept.now }
        requires place { HasPlace kept.now self.old.open_at }
        requires named { NamesAppOn kept.now (seen_on D.disk self.old.device) }
        ensures opens { self.new.open_at ≡ open_kept result kept.now self.old.open_at }
        ensures moves { DiskMoves (acts_of (keeps result kept.now)) (store_failures (keeps result kept.now))
            (seen_on D.disk self.old.device) (seen_on D.disk self.new.device) }
        ensures room { KeptRoom result kept.now (seen_on D.disk self.old.device) (seen_on D.disk self.new.device) }
        ensures leaves { KeepLeft result kept.now (seen_on D.disk self.old.device) (seen_on D.disk self.new.device) }
        ensures none { result ≡ Err OutOfMemory → self.new ≡ self.old }
    {
        keep_in(&mut self.contents, kept)
    }

    /// Fetches the entry of this number from the store, which is open.
    pub(crate) fn fetch(&mut self, n: SeqNum, into: &mut Vec<u8>) -> Result<Kind, FetchFault>
        requires { HasEntry n self.old.open_at }
        ensures opens { self.new.open_at ≡ open_fetched result self.old.open_at }
        ensures gives { IfOk result
            (λ kind. (entry : TheEntry) × IsKindOf kind entry into.new.items × HasPayload entry
            × ((e : End) → HoldsEnd (seen_on D.disk self.old.device) e → IsEntry e.out n entry)) }
        ensures held { IfOk result (λ kind. (e : End) → HoldsEnd (seen_on D.disk self.old.device) e → IsHeldAs kind n e) }
        ensures moves { DiskMoves (acts_of (fetches result)) (store_failures (fetches result))
            (seen_on D.disk self.old.device) (seen_on D.disk self.new.device) }
        ensures room { FetchRoom result (seen_on D.disk self.old.device) (seen_on D.disk self.new.device) }
    {
        fetch_from(&mut self.contents, n, into)
    }
}
