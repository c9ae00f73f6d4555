//! Adds the mark of version 2 to a file without one. `Store::open` calls this.
ghost use Rattle.std.specs.Prelude.{◌≡◌, false};
ghost use Rattle.fix_journal.specs.Opening.{fault_of};
ghost use Rattle.fix_store.specs.declared.changing.Change.TheVariants.{Mark};
ghost use Rattle.fix_store.specs.Folding.{fold_of, HasRoomFor};
ghost use Rattle.fix_store.specs.Marking.{Marks};

use crate::StoreFault;
use crate::changing::Change;
use crate::folding::Folded;
use crate::keeping::append;
use fix_disk::Disk;
use fix_journal::{Journal, OpenFault};

/// The payload of the mark.
const MARK: [u8; 5] = [10, 0, 0, 0, 2];

// Adds the mark where none was read.
pub(crate) fn add_mark<D: Disk>(
    journal: &mut Journal<D>,
    folded: &mut Folded,
) -> Result<(), OpenFault>
    requires goes_on { journal.old.stopped ≡ false }
    requires room { HasRoomFor folded.old Mark }
    ensures { Marks D.disk (fault_of result) (fold_of folded.old) (fold_of folded.new) journal.old journal.new }
{
    if folded.marked {
        return Ok(());
    }
    let mut stopped = false;
    match append(journal, &mut stopped, &MARK) {
        Ok(index) => {
            folded.take(index, Change::Mark);
            Ok(())
        }
        Err(StoreFault::DiskFault) => Err(OpenFault::DiskFault),
        Err(StoreFault::OutOfMemory) => Err(OpenFault::OutOfMemory),
        Err(StoreFault::Stopped) => unreachable!(),
        Err(StoreFault::NumbersSpent) => unreachable!(),
    }
}
