//! The turns of a run, and the end of a connection. In a turn a draft is staged, one read is answered, the clock is
//! looked at, and what is staged is kept and written. A session calls `run`.
ghost use Rattle.std.specs.Prelude.{◌≡◌, ◌≤◌, ◌<◌, ◌∷◌, [], Some, length, take};
ghost use Rattle.fix_outside.specs.Calls.{HasCalls, Called, Read};
ghost use Rattle.fix_outside.specs.Outside.{came};
ghost use Rattle.fix_outside.specs.Connection.{IsInRoom};
ghost use Rattle.fix_stage.specs.Combine.{AndThen};
ghost use Rattle.fix_stage.specs.Flush.{Settled};
ghost use Rattle.fix_stage.specs.Sender.{IsInRange};
ghost use Rattle.fix_steps.specs.Causes.{HasCause};
ghost use Rattle.fix_steps.specs.Ending.{open_after};
ghost use Rattle.fix_session.specs.Judged.{rules_seen};
ghost use Rattle.fix_session.specs.State.{IsSound};
ghost use Rattle.fix_session.specs.Work.{IsWorkable, work_seen};
ghost use Rattle.fix_session.specs.Turn as turns;
ghost use Rattle.fix_session.specs.Turn.{Beside, Sending, Offers, ReceivesAll, Feeds, Reads, Looks, Meets, Settles, Turn};
ghost use Rattle.fix_session.specs.Turn.{IsKept, Turns, Leaves, Runs};

use crate::answering::{answer, receive};
use crate::offering::offer;
use crate::work::Work;
use crate::{Rules, State};
use fix_base::Stored;
use fix_frame::Reader;
use fix_machine::{Event, Why};
use fix_outside::{Outside, ReadTurn};
use fix_stage::{Context, put_down, settle, take_reading};
use fix_steps::{Ending, ending_of};
use std::alloc::Global;

/// How many bytes one read has room for.
pub const ROOM: usize = 65_536;

/// Makes at most so many turns, and ends the connection after one that ended the run.
pub fn run<O: Outside>(
    o: &mut O,
    context: &Context,
    rules: &Rules<'_>,
    work: &mut Work,
    turns: u64,
) -> Result<(), Ending>
    requires workable { IsWorkable context.now.identity (O.seen o.old) (Some work.old.state.sender.numbers.last) work.old }
    ensures workable { IsWorkable context.now.identity (O.seen o.new) (open_after result work.new.state.sender) work.new }
    ensures calls { HasCalls (O.seen o.old) (O.seen o.new)
        (λ calls. Runs context.now.identity (rules_seen rules.now) turns (work_seen work.old) calls result (work_seen work.new)) }
    ensures cause { HasCause result (O.seen o.old).faults (O.seen o.new).faults }
    ensures kept { 0 < turns → IsKept result work.new.state }
{
    match take_turns(o, context, rules, work, turns) {
        Ok(()) => Ok(()),
        Err(ending) => {
            leave(o, context.alloc, &mut work.state, is_cut(ending))?;
            Err(ending)
        }
    }
}

// Makes at most so many turns.
fn take_turns<O: Outside>(
    o: &mut O,
    context: &Context,
    rules: &Rules<'_>,
    work: &mut Work,
    turns: u64,
) -> Result<(), Ending>
    requires workable { IsWorkable context.now.identity (O.seen o.old) (Some work.old.state.sender.numbers.last) work.old }
    ensures workable { IsWorkable context.now.identity (O.seen o.new) (open_after result work.new.state.sender) work.new }
    ensures calls { HasCalls (O.seen o.old) (O.seen o.new)
        (λ calls. Turns context.now.identity (rules_seen rules.now) turns (work_seen work.old) calls result (work_seen work.new)) }
    ensures kept { 0 < turns → IsKept result work.new.state }
{
    for done in 0..turns {
        turn(o, context, rules, work)?;
    }
    Ok(())
}

// Makes one turn.
fn turn<O: Outside>(
    o: &mut O,
    context: &Context,
    rules: &Rules<'_>,
    work: &mut Work,
) -> Result<(), Ending>
    requires workable { IsWorkable context.now.identity (O.seen o.old) (Some work.old.state.sender.numbers.last) work.old }
    ensures workable { IsWorkable context.now.identity (O.seen o.new) (open_after result work.new.state.sender) work.new }
    ensures calls { HasCalls (O.seen o.old) (O.seen o.new)
        (λ calls. Turn context.now.identity (rules_seen rules.now) (work_seen work.old) calls result (work_seen work.new)) }
    ensures kept { IsKept result work.new.state }
{
    let met = meet(o, context, rules, work);
    if settles(&met) {
        settle_all(o, context, &mut work.state)?;
    }
    met
}

// Stages a draft, reads once, and looks at the clock.
fn meet<O: Outside>(
    o: &mut O,
    context: &Context,
    rules: &Rules<'_>,
    work: &mut Work,
) -> Result<(), Ending>
    requires workable { IsWorkable context.now.identity (O.seen o.old) (Some work.old.state.sender.numbers.last) work.old }
    ensures workable { IsWorkable context.now.identity (O.seen o.new) (open_after result work.new.state.sender) work.new }
    ensures calls { HasCalls (O.seen o.old) (O.seen o.new)
        (λ calls. Meets context.now.identity (rules_seen rules.now) (work_seen work.old) calls result (work_seen work.new)) }
{
    offer(o, context, &mut work.state)?;
    read_and_look(o, context, rules, work)
}

// Reads once, and looks at the clock.
fn read_and_look<O: Outside>(
    o: &mut O,
    context: &Context,
    rules: &Rules<'_>,
    work: &mut Work,
) -> Result<(), Ending>
    requires workable { IsWorkable context.now.identity (O.seen o.old) (Some work.old.state.sender.numbers.last) work.old }
    ensures workable { IsWorkable context.now.identity (O.seen o.new) (open_after result work.new.state.sender) work.new }
    ensures calls { HasCalls (O.seen o.old) (O.seen o.new)
        (λ calls. AndThen (Reads context.now.identity (rules_seen rules.now)) (Beside (Looks context.now.identity))
        (work_seen work.old) calls result (work_seen work.new)) }
{
    read_frames(o, context, rules, work)?;
    look(o, context, &mut work.state)
}

// Reads once, and answers the frames that this completes.
fn read_frames<O: Outside>(
    o: &mut O,
    context: &Context,
    rules: &Rules<'_>,
    work: &mut Work,
) -> Result<(), Ending>
    requires workable { IsWorkable context.now.identity (O.seen o.old) (Some work.old.state.sender.numbers.last) work.old }
    ensures workable { IsWorkable context.now.identity (O.seen o.new) (open_after result work.new.state.sender) work.new }
    ensures calls { HasCalls (O.seen o.old) (O.seen o.new)
        (λ calls. Reads context.now.identity (rules_seen rules.now) (work_seen work.old) calls result (work_seen work.new)) }
{
    match read(o, &mut work.room) {
        ReadTurn::Bytes(n) => feed(o, context, rules, work, n),
        ReadTurn::Idle => Ok(()),
        ReadTurn::End => Err(Ending::Closed(Why::PeerEnd)),
        ReadTurn::Failed => Err(Ending::LinkFault),
        ReadTurn::OutOfMemory => Err(Ending::OutOfMemory),
    }
}

// Reads once into the front of the room.
fn read<O: Outside>(o: &mut O, room: &mut Vec<u8>) -> ReadTurn
    requires room { length room.old.items ≡ 65536 }
    ensures room { length room.new.items ≡ 65536 }
    ensures opens { (O.seen o.new).open_at ≡ (O.seen o.old).open_at }
    ensures called { Called (O.seen o.old) (O.seen o.new) (Read 65536 (came result room.new.items) ∷ []) }
    ensures in_room { IsInRoom result room.new.items }
{
    o.read(room)
}

// Takes the first bytes of the room, and answers the frames that they complete.
fn feed<O: Outside>(
    o: &mut O,
    context: &Context,
    rules: &Rules<'_>,
    work: &mut Work,
    n: usize,
) -> Result<(), Ending>
    requires workable { IsWorkable context.now.identity (O.seen o.old) (Some work.old.state.sender.numbers.last) work.old }
    requires some { n ≤ 65536 }
    ensures workable { IsWorkable context.now.identity (O.seen o.new) (open_after result work.new.state.sender) work.new }
    ensures calls { HasCalls (O.seen o.old) (O.seen o.new)
        (λ calls. Feeds context.now.identity (rules_seen rules.now) (take n work.old.room.items) (work_seen work.old) calls result
        (work_seen work.new)) }
{
    match work.reader.feed(&work.room[..n]) {
        Ok(()) => receive_all(o, context, rules, &mut work.state, &mut work.reader),
        Err(_) => Err(Ending::OutOfMemory),
    }
}

// Answers the frames that stand whole in what was read, in order, until one ends the run.
fn receive_all<O: Outside>(
    o: &mut O,
    context: &Context,
    rules: &Rules<'_>,
    state: &mut State,
    reader: &mut Reader,
) -> Result<(), Ending>
    requires sound { IsSound context.now.identity (O.seen o.old) (Some state.old.sender.numbers.last) state.old }
    ensures sound { IsSound context.now.identity (O.seen o.new) (open_after result state.new.sender) state.new }
    ensures calls { HasCalls (O.seen o.old) (O.seen o.new)
        (λ calls. ReceivesAll context.now.identity (rules_seen rules.now)
        (record { state = state.old; unread = reader.old.unread }) calls result
        (record { state = state.new; unread = reader.new.unread })) }
{
    while let Some(frame) = reader.next() {
        receive(o, context, rules, state, frame)?;
    }
    Ok(())
}

// Looks at the clock, and does what is due.
fn look<O: Outside>(o: &mut O, context: &Context, state: &mut State) -> Result<(), Ending>
    requires sound { IsSound context.now.identity (O.seen o.old) (Some state.old.sender.numbers.last) state.old }
    ensures sound { IsSound context.now.identity (O.seen o.new) (open_after result state.new.sender) state.new }
    ensures calls { HasCalls (O.seen o.old) (O.seen o.new)
        (λ calls. Looks context.now.identity state.old calls result state.new) }
{
    match o.now() {
        Ok(now) => {
            take_reading(&mut state.sender, now);
            answer(o, context, state, &Event::Clock { now, inside: true })
        }
        Err(_) => Err(Ending::OutOfMemory),
    }
}

// Whether what is staged is kept and written after this.
fn settles(met: &Result<(), Ending>) -> bool
    ensures { result ≡ turns.settles_of met.now }
{
    match met {
        Ok(()) => true,
        Err(Ending::Closed(_)) => true,
        Err(Ending::LinkFault) => true,
        Err(Ending::AppFault) => true,
        Err(Ending::StoreFault) => false,
        Err(Ending::NumbersSpent) => false,
        Err(Ending::OutOfMemory) => false,
    }
}

// Keeps what is staged with the expected number, and writes it.
fn settle_all<O: Outside>(o: &mut O, context: &Context, state: &mut State) -> Result<(), Ending>
    requires sound { IsSound context.now.identity (O.seen o.old) (Some state.old.sender.numbers.last) state.old }
    ensures sound { IsSound context.now.identity (O.seen o.new) (open_after result state.new.sender) state.new }
    ensures calls { HasCalls (O.seen o.old) (O.seen o.new)
        (λ calls. Sending Settled state.old calls result state.new) }
    ensures kept { IsKept result state.new }
{
    match settle(o, context, &mut state.sender) {
        Ok(()) => Ok(()),
        Err(fault) => Err(ending_of(fault)),
    }
}

/// Whether Cut is noted after a run that ended so.
pub fn is_cut(ending: Ending) -> bool
    ensures { result ≡ turns.is_cut_of ending }
{
    match ending {
        Ending::Closed(_) => true,
        Ending::LinkFault => true,
        Ending::AppFault => true,
        Ending::NumbersSpent => true,
        Ending::StoreFault => false,
        Ending::OutOfMemory => false,
    }
}

/// The session leaves its connection, with the numbers that it has: what is staged and isn't kept is given up.
pub fn leave<O: Outside>(
    o: &mut O,
    alloc: Global,
    state: &mut State,
    cut: bool,
) -> Result<(), Ending>
    requires range { IsInRange state.old.sender }
    ensures opens { (O.seen o.new).open_at ≡ (O.seen o.old).open_at }
    ensures calls { HasCalls (O.seen o.old) (O.seen o.new) (λ calls. Leaves state.old cut calls result state.new) }
{
    let numbers = state.sender.numbers;
    put_down(alloc, &mut state.sender);
    state.machine.decide(&Event::Ended);
    state.machine.resume(Stored {
        last: numbers.last,
        expected: numbers.expected,
        since: None,
        asked: state.asked,
    });
    state.logon_due = false;
    if !cut {
        return Ok(());
    }
    match o.mark(true) {
        Ok(()) => Ok(()),
        Err(_) => Err(Ending::OutOfMemory),
    }
}
