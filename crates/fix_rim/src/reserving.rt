//! Asks the tape for room before a read. `rim` calls this.
ghost use Rattle.std.specs.Prelude.{◌≡◌, [], length, OnOk};

use fix_base::OutOfMemory;
use fix_parts::{Noted, Tape};

// Makes room on the tape for a read into this room.
pub(crate) fn reserve_read<T: Tape>(tape: &mut T, room: &[u8]) -> Result<(), OutOfMemory>
    ensures told { T.told tape.new ≡ T.told tape.old }
    ensures room { OnOk result (T.HasRoom tape.new (length room.now) []) }
{
    tape.reserve(&Noted::Read(room))
}
