//! Opens the file of a journal: `surveying` says what it is, and then `making` makes it or `scanning` finds its
//! records. `Journal::open` calls this.
ghost use Rattle.std.specs.Prelude.{IfOk, IfSome};
ghost use Rattle.fix_disk.specs.Moments.{NeedsRoom};
ghost use Rattle.fix_journal.specs.Opening.{Rests, IsUnmadeBy, IsNamed, HasLength, Finds, Opens, OpenRoom};
ghost use Rattle.fix_journal.specs.Opening.{open_failures, fault_of};
ghost use Rattle.fix_journal.specs.Index.{IsShaped};
ghost use Rattle.fix_journal.specs.Window.{CallsAtMost, OpenCalls};

use crate::OpenFault;
use crate::index::Index;
use crate::making::make;
use crate::scanning::scan;
use crate::surveying::{Kind, survey};
use fix_disk::{Disk, DiskFailed};
use std::alloc::Global;

// Finds the records of a journal, which it makes in an unmade file.
pub(crate) fn find<D: Disk>(alloc: Global, disk: &mut D) -> Result<Index, OpenFault>
    ensures shaped { IfOk result IsShaped }
    ensures finds { IfSome (D.disk disk.old).bytes (Finds result (D.disk disk.new)) }
    ensures opens { Opens (fault_of result) (D.disk disk.old) (D.disk disk.new) }
    ensures calls { OpenCalls (D.disk disk.old) (D.disk disk.new) }
    ensures room { OpenRoom (fault_of result) (D.disk disk.old) (D.disk disk.new) }
{
    match survey(disk) {
        Ok(Kind::Unmade(is_short)) => start(alloc, disk, is_short),
        Ok(Kind::Named(end)) => scan(alloc, disk, end),
        Ok(Kind::Misnamed) => Err(OpenFault::Damaged(1)),
        Err(DiskFailed) => Err(OpenFault::DiskFault),
    }
}

// Makes the journal in an unmade file, and gives the places that are kept of it.
fn start<D: Disk>(alloc: Global, disk: &mut D, is_short: bool) -> Result<Index, OpenFault>
    requires { Rests (D.disk disk.old) (IsUnmadeBy is_short) }
    ensures shaped { IfOk result IsShaped }
    ensures finds { IfSome (D.disk disk.old).bytes (Finds result (D.disk disk.new)) }
    ensures opens { Opens (fault_of result) (D.disk disk.old) (D.disk disk.new) }
    ensures calls { CallsAtMost 6 (D.disk disk.old) (D.disk disk.new) }
    ensures room { NeedsRoom (open_failures (fault_of result)) 10 (D.disk disk.old) (D.disk disk.new) }
{
    let Ok(index) = Index::of_none(alloc) else {
        return Err(OpenFault::OutOfMemory);
    };
    match make(disk, is_short) {
        Ok(()) => Ok(index),
        Err(DiskFailed) => Err(OpenFault::DiskFault),
    }
}
