//! The end of a session's connection, for whatever ends it. `turn` and `drafting` call this.
ghost use Rattle.std.specs.Prelude.{◌≡◌, IsTrue, OnErr};
ghost use Rattle.fix_base.specs.Trace.{HasTrace};
ghost use Rattle.fix_engine.specs.State.{IsInRange, with_phase};
ghost use Rattle.fix_engine.specs.Turn.{EndsConnection};

use crate::{Outside, Phase, State};
use fix_base::OutOfMemory;

/// The session leaves its connection: it is Down, and Cut is noted where it is to be.
pub fn end_connection<O: Outside>(
    o: &mut O,
    state: &mut State,
    cut: bool,
) -> Result<(), OutOfMemory>
    requires range { IsInRange state.old }
    ensures range { IsInRange state.new }
    ensures down { state.new ≡ with_phase state.old Phase.Down }
    ensures opens { (O.seen o.new).open_at ≡ (O.seen o.old).open_at }
    ensures only { OnErr result (IsTrue cut) }
    ensures notes { HasTrace (O.seen o.old) (O.seen o.new) (EndsConnection cut result) }
{
    state.phase = Phase::Down;
    if !cut {
        return Ok(());
    }
    match o.mark(true) {
        Ok(()) => Ok(()),
        Err(why) => Err(why),
    }
}
