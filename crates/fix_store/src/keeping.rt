//! Appends a record's payload to the journal, and answers with the store's own faults. `store` calls this for
//! each record that it keeps.
ghost use Rattle.std.specs.Prelude.{◌≡◌, ◌≤◌, ◌++◌, ◌∷◌, [], List, ℕ, false, length};
ghost use Rattle.fix_disk.specs.Moments.{NeedsRoom};
ghost use Rattle.fix_journal.specs.Format.{MOST_PAYLOAD, file_size};
ghost use Rattle.fix_journal.specs.Journal.{Holds};
ghost use Rattle.fix_journal.specs.Cursors.{CursorSeen, Stands};
ghost use Rattle.fix_store.specs.Store.{fault_of, store_failures};
ghost use Rattle.fix_store.specs.Keeping.{AppendAnswers, Appends};

use crate::StoreFault;
use fix_disk::Disk;
use fix_journal::{AppendFault, Journal};

// Appends a payload that fits to a journal that isn't stopped, and notes whether it is then.
pub(crate) fn append<D: Disk>(
    journal: &mut Journal<D>,
    stopped: &mut bool,
    payload: &[u8],
) -> Result<u64, StoreFault>
    requires goes_on { journal.old.stopped ≡ false }
    requires calm { stopped.old ≡ false }
    requires some { 1 ≤ length payload.now }
    requires fits { length payload.now ≤ MOST_PAYLOAD }
    ensures answers { AppendAnswers result journal.old journal.new }
    ensures stops { stopped.new ≡ journal.new.stopped }
    ensures moves { Appends result payload.now (D.disk journal.old.disk) (D.disk journal.new.disk) }
    ensures room { (D.disk journal.new.disk).room ≡ (D.disk journal.old.disk).room }
    ensures need { (payloads : List (List ℕ)) → Holds (D.disk journal.old.disk) payloads
        → NeedsRoom (store_failures (fault_of result)) (file_size (payloads ++ payload.now ∷ []))
        (D.disk journal.old.disk) (D.disk journal.new.disk) }
    ensures cursors { (c : CursorSeen) → c.index ≤ journal.old.count → Stands D.disk journal.old c
        → Stands D.disk journal.new c }
{
    match journal.append(payload) {
        Ok(index) => Ok(index),
        Err(AppendFault::Stopped) => unreachable!(),
        Err(AppendFault::TooLong) => unreachable!(),
        Err(AppendFault::OutOfMemory) => Err(StoreFault::OutOfMemory),
        Err(AppendFault::DiskFault) => {
            *stopped = true;
            Err(StoreFault::DiskFault)
        }
    }
}
