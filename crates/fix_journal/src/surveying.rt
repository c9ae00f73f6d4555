//! The first stage of an opening: syncs the disk, asks for the length, and reads up to nine bytes. `opening`
//! calls this.
ghost use Rattle.std.specs.Prelude.{◌≡◌, ◌≤◌, min, take, List, ℕ, length, IfOk, IfSome};
ghost use Rattle.fix_base.specs.Trace.{Rises};
ghost use Rattle.fix_disk.specs.Disk.{failures};
ghost use Rattle.fix_disk.specs.Moments.{NeedsRoom};
ghost use Rattle.fix_journal.specs.Window.{CallsAtMost};
ghost use Rattle.fix_journal.specs.Opening.{IsKind, HasTen, HasLength, IsUntouched, Rests};

use fix_disk::{Disk, DiskFailed};

// What a file is: unmade, since it is too short, or else with a gate that isn't open; made with the
// name, of so many bytes; made with another name.
#[derive(Clone, Copy)]
pub(crate) enum Kind {
    Unmade(bool),
    Named(u64),
    Misnamed,
}

// Has the disk keep what is read, and says what the file is.
pub(crate) fn survey<D: Disk>(disk: &mut D) -> Result<Kind, DiskFailed>
    ensures rests { IfOk result (λ kind. Rests (D.disk disk.new) (IsKind kind)) }
    ensures ten { IfOk result HasTen }
    ensures untouched { IsUntouched (D.disk disk.old) (D.disk disk.new) }
    ensures cause { Rises (failures result) (D.disk disk.old).faults (D.disk disk.new).faults }
    ensures room { NeedsRoom (failures result) 0 (D.disk disk.old) (D.disk disk.new) }
    ensures calls { CallsAtMost 3 (D.disk disk.old) (D.disk disk.new) }
{
    match disk.sync() {
        Ok(()) => {}
        Err(DiskFailed) => return Err(DiskFailed),
    }
    match disk.len() {
        Ok(end) => kind_of(disk, end),
        Err(DiskFailed) => Err(DiskFailed),
    }
}

// What a file of `end` bytes is, by its first nine.
fn kind_by(head: &[u8], end: u64) -> Kind
    requires some { 1 ≤ end }
    requires long { length head.now ≡ min end 9 }
    ensures kind { (file : List ℕ) → length file ≡ end → head.now ≡ take 9 file → IsKind result file }
    ensures ten { HasTen result }
{
    if head[0] != 1 {
        return Kind::Unmade(false);
    }
    if end < 10 {
        return Kind::Unmade(true);
    }
    if head == b"\x01FIXJRNL1".as_slice() {
        Kind::Named(end)
    } else {
        Kind::Misnamed
    }
}

// What a file of `end` bytes is.
fn kind_of<D: Disk>(disk: &mut D, end: u64) -> Result<Kind, DiskFailed>
    requires { HasLength (D.disk disk.old).bytes end }
    ensures kind { IfOk result (λ kind. IfSome (D.disk disk.old).bytes (IsKind kind)) }
    ensures ten { IfOk result HasTen }
    ensures untouched { IsUntouched (D.disk disk.old) (D.disk disk.new) }
    ensures cause { Rises (failures result) (D.disk disk.old).faults (D.disk disk.new).faults }
    ensures room { NeedsRoom (failures result) 0 (D.disk disk.old) (D.disk disk.new) }
    ensures calls { CallsAtMost 1 (D.disk disk.old) (D.disk disk.new) }
{
    if end == 0 {
        return Ok(Kind::Unmade(true));
    }
    let mut head = [0; 9];
    let count = end.min(9) as usize;
    match disk.read_at(0, &mut head[..count]) {
        Ok(()) => Ok(kind_by(&head[..count], end)),
        Err(DiskFailed) => Err(DiskFailed),
    }
}
