//! The turns of a run, and what is noted after their end. In a turn a draft is sent, one read is answered,
//! the clock is read once, and the expected number is kept. `session` calls `run_and_cut` for
//! `Session::run_turns`.
ghost use Rattle.std.specs.Prelude.{◌≡◌, ◌≤◌, Some, length, take};
ghost use Rattle.fix_base.specs.Trace.{HasTrace, Trace};
ghost use Rattle.fix_outside.specs.Outside.{reads};
ghost use Rattle.fix_outside.specs.Connection.{IsInRoom};
ghost use Rattle.fix_engine.specs.Faults.{open_behind};
ghost use Rattle.fix_engine.specs.Fold.{AndThen};
ghost use Rattle.fix_engine.specs.Reading.{Feed, ReadFrames, ReadClock, StoreExpected};
ghost use Rattle.fix_engine.specs.Turn.{work_seen, IsReadyToTurn, Beside, SendReadClock, Turn, TakeTurns, RunAndCut};

use crate::context::Context;
use crate::faults::{is_cut, settles};
use crate::handling::answer_frames;
use crate::leaving::end_connection;
use crate::pending::offer_draft;
use crate::state::take_reading;
use crate::work::Work;
use crate::{Ending, KeepFault, Outside, Phase, Why};
use fix_base::Record;
use fix_outside::ReadTurn;

/// How many bytes one read has room for.
pub const ROOM: usize = 65_536;

/// Makes at most so many turns, and ends the connection after one that ended the run: Cut is noted, unless the store
/// failed or it was out of memory.
pub fn run_and_cut<O: Outside>(
    o: &mut O,
    context: &Context,
    work: &mut Work,
    turns: u64,
) -> Result<(), Ending>
    requires ready { IsReadyToTurn context.now.identity (O.seen o.old) (Some work.old.state.last) work.old }
    ensures ready { IsReadyToTurn context.now.identity (O.seen o.new) (open_behind result work.new.state) work.new }
    ensures notes { HasTrace (O.seen o.old) (O.seen o.new)
        (λ notes. RunAndCut context.now.identity turns (work_seen work.old) notes result (work_seen work.new)) }
{
    match take_turns(o, context, work, turns) {
        Ok(()) => Ok(()),
        Err(ending) => match end_connection(o, &mut work.state, is_cut(&ending)) {
            Ok(()) => Err(ending),
            Err(_) => Err(Ending::OutOfMemory),
        },
    }
}

// Makes at most so many turns.
fn take_turns<O: Outside>(
    o: &mut O,
    context: &Context,
    work: &mut Work,
    turns: u64,
) -> Result<(), Ending>
    requires ready { IsReadyToTurn context.now.identity (O.seen o.old) (Some work.old.state.last) work.old }
    ensures ready { IsReadyToTurn context.now.identity (O.seen o.new) (open_behind result work.new.state) work.new }
    ensures notes { HasTrace (O.seen o.old) (O.seen o.new)
        (λ notes. TakeTurns context.now.identity turns (work_seen work.old) notes result (work_seen work.new)) }
{
    for done in 0..turns {
        turn(o, context, work)?;
    }
    Ok(())
}

// Makes one turn.
fn turn<O: Outside>(o: &mut O, context: &Context, work: &mut Work) -> Result<(), Ending>
    requires ready { IsReadyToTurn context.now.identity (O.seen o.old) (Some work.old.state.last) work.old }
    ensures ready { IsReadyToTurn context.now.identity (O.seen o.new) (open_behind result work.new.state) work.new }
    ensures notes { HasTrace (O.seen o.old) (O.seen o.new)
        (λ notes. Turn context.now.identity (work_seen work.old) notes result (work_seen work.new)) }
{
    let met = send_read_clock(o, context, work);
    if settles(&met) {
        store_expected(o, context, work)?;
    }
    met
}

// Sends a draft of the application, reads, and then looks at the clock.
fn send_read_clock<O: Outside>(o: &mut O, context: &Context, work: &mut Work) -> Result<(), Ending>
    requires ready { IsReadyToTurn context.now.identity (O.seen o.old) (Some work.old.state.last) work.old }
    ensures ready { IsReadyToTurn context.now.identity (O.seen o.new) (open_behind result work.new.state) work.new }
    ensures notes { HasTrace (O.seen o.old) (O.seen o.new)
        (λ notes. SendReadClock context.now.identity (work_seen work.old) notes result (work_seen work.new)) }
{
    offer_draft(o, context, work)?;
    read_and_clock(o, context, work)
}

// Reads once, answers the frames that this completes, and then looks at the clock.
fn read_and_clock<O: Outside>(o: &mut O, context: &Context, work: &mut Work) -> Result<(), Ending>
    requires ready { IsReadyToTurn context.now.identity (O.seen o.old) (Some work.old.state.last) work.old }
    ensures ready { IsReadyToTurn context.now.identity (O.seen o.new) (open_behind result work.new.state) work.new }
    ensures notes { HasTrace (O.seen o.old) (O.seen o.new)
        (λ notes. Beside (AndThen (ReadFrames context.now.identity) ReadClock) (work_seen work.old) notes result (work_seen work.new)) }
{
    read_frames(o, context, work)?;
    read_clock(o, context, work)
}

// Reads once, and answers the frames that this completes.
#[tactic(auto, using(crate::proofs::Carrying::keepings))]
fn read_frames<O: Outside>(o: &mut O, context: &Context, work: &mut Work) -> Result<(), Ending>
    requires ready { IsReadyToTurn context.now.identity (O.seen o.old) (Some work.old.state.last) work.old }
    ensures ready { IsReadyToTurn context.now.identity (O.seen o.new) (open_behind result work.new.state) work.new }
    ensures notes { HasTrace (O.seen o.old) (O.seen o.new)
        (λ notes. Beside (ReadFrames context.now.identity) (work_seen work.old) notes result (work_seen work.new)) }
{
    match read(o, &mut work.room) {
        ReadTurn::Bytes(n) => feed(o, context, work, n),
        ReadTurn::Idle => Ok(()),
        ReadTurn::End => {
            work.state.phase = Phase::Down;
            Err(Ending::Closed(Why::PeerEnd))
        }
        ReadTurn::Failed => Err(Ending::LinkFault),
        ReadTurn::OutOfMemory => Err(Ending::OutOfMemory),
    }
}

// Reads once into the front of the room.
fn read<O: Outside>(o: &mut O, room: &mut Vec<u8>) -> ReadTurn
    requires room { length room.old.items ≡ 65536 }
    ensures room { length room.new.items ≡ 65536 }
    ensures opens { (O.seen o.new).open_at ≡ (O.seen o.old).open_at }
    ensures noted { Trace (O.seen o.old) (O.seen o.new) (reads result room.new.items) }
    ensures in_room { IsInRoom result room.new.items }
{
    o.read(room)
}

// Takes the first bytes of the room, and answers the frames that they complete.
fn feed<O: Outside>(o: &mut O, context: &Context, work: &mut Work, n: usize) -> Result<(), Ending>
    requires ready { IsReadyToTurn context.now.identity (O.seen o.old) (Some work.old.state.last) work.old }
    requires some { n ≤ 65536 }
    ensures ready { IsReadyToTurn context.now.identity (O.seen o.new) (open_behind result work.new.state) work.new }
    ensures notes { HasTrace (O.seen o.old) (O.seen o.new)
        (λ notes. Beside (Feed context.now.identity (take n work.old.room.items)) (work_seen work.old) notes result (work_seen work.new)) }
{
    match work.reader.feed(&work.room[..n]) {
        Ok(()) => answer_frames(o, context, &mut work.state, &mut work.reader),
        Err(_) => Err(Ending::OutOfMemory),
    }
}

// Looks at the clock.
#[tactic(auto, using(crate::proofs::Carrying::keepings))]
fn read_clock<O: Outside>(o: &mut O, context: &Context, work: &mut Work) -> Result<(), Ending>
    requires ready { IsReadyToTurn context.now.identity (O.seen o.old) (Some work.old.state.last) work.old }
    ensures ready { IsReadyToTurn context.now.identity (O.seen o.new) (open_behind result work.new.state) work.new }
    ensures notes { HasTrace (O.seen o.old) (O.seen o.new)
        (λ notes. Beside ReadClock (work_seen work.old) notes result (work_seen work.new)) }
{
    match o.now() {
        Ok(reading) => {
            take_reading(&mut work.state, reading);
            Ok(())
        }
        Err(_) => Err(Ending::OutOfMemory),
    }
}

// Keeps the expected number where it is another than the one that is kept.
#[tactic(auto, using(crate::proofs::Carrying::keepings))]
fn store_expected<O: Outside>(o: &mut O, context: &Context, work: &mut Work) -> Result<(), Ending>
    requires ready { IsReadyToTurn context.now.identity (O.seen o.old) (Some work.old.state.last) work.old }
    ensures ready { IsReadyToTurn context.now.identity (O.seen o.new) (open_behind result work.new.state) work.new }
    ensures notes { HasTrace (O.seen o.old) (O.seen o.new)
        (λ notes. Beside StoreExpected (work_seen work.old) notes result (work_seen work.new)) }
{
    if work.state.stored_expected == work.state.expected {
        return Ok(());
    }
    match o.keep(&Record::Expect(work.state.expected)) {
        Ok(()) => {
            work.state.stored_expected = work.state.expected;
            Ok(())
        }
        Err(KeepFault::Failed) => Err(Ending::StoreFault),
        Err(KeepFault::OutOfMemory) => Err(Ending::OutOfMemory),
    }
}
