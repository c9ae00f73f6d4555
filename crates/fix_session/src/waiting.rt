//! Lets a frame wait until the numbers before its own have come, and takes it out then. `answering` calls this.
ghost use Rattle.std.specs.Prelude.{◌≡◌, ◌≤◌, ◌<◌, List, [], Some, is_some, IsSome};
ghost use Rattle.std.specs.FinMap as map;
ghost use Rattle.std.specs.List.{list_any};
ghost use Rattle.fix_base.specs.Shape.{IsFrame};
ghost use Rattle.fix_base.specs.Fields.{Field};
ghost use Rattle.fix_base.specs.Says.{HasFields, seq_num_of};
ghost use Rattle.fix_machine.specs.Answer.{steps_of};
ghost use Rattle.fix_machine.specs.Event.{step_seen};
ghost use Rattle.fix_session.specs.State.{AreWaiting, expected_of};
ghost use Rattle.fix_session.specs.Waits as waits;
ghost use Rattle.fix_session.specs.Answering.{WaitsIfNew};
ghost use Rattle.fix_session.specs.Waits.{Waits, waits_at, due_frame, passed};

use crate::State;
use fix_base::{Bytes, SeqNum};
use fix_machine::{Decision, Step};
use fix_resend::StashFault;
use fix_steps::Ending;
use std::alloc::Global;

/// Lets a frame that was read wait under its number, where a step says so. One that waited doesn't wait again.
pub fn wait(
    alloc: Global,
    new: bool,
    state: &mut State,
    number: Option<SeqNum>,
    frame: &[u8],
    decision: &Decision<'_>,
) -> Result<(), Ending>
    requires waiting { AreWaiting state.old.waiting }
    requires frame { IsFrame frame.now }
    requires number { (fs : List Field) → HasFields frame.now fs → number ≡ seq_num_of fs }
    ensures waits { WaitsIfNew new frame.now number (steps_of decision.now) state.old [] result state.new }
    ensures waiting { AreWaiting state.new.waiting }
{
    if !new {
        return Ok(());
    }
    wait_new(alloc, state, number, frame, decision)
}

// Lets the frame wait under its number, where a step says so.
fn wait_new(
    alloc: Global,
    state: &mut State,
    number: Option<SeqNum>,
    frame: &[u8],
    decision: &Decision<'_>,
) -> Result<(), Ending>
    requires waiting { AreWaiting state.old.waiting }
    requires frame { IsFrame frame.now }
    requires number { (fs : List Field) → HasFields frame.now fs → number ≡ seq_num_of fs }
    ensures waits { Waits frame.now number (steps_of decision.now) state.old [] result state.new }
    ensures waiting { AreWaiting state.new.waiting }
{
    if !says_so(decision) {
        return Ok(());
    }
    let Some(number) = number else {
        return Ok(());
    };
    match state.waiting.keep(alloc, number, frame) {
        Ok(true) => Ok(()),
        // The first frame of a number waits; one for which there is no room doesn't.
        Ok(false) => Ok(()),
        Err(StashFault::Full) => Ok(()),
        Err(StashFault::OutOfMemory) => Err(Ending::OutOfMemory),
    }
}

// Whether a step lets the message wait.
fn says_so(decision: &Decision<'_>) -> bool
    ensures { result ≡ list_any waits.is_stash (steps_of decision.now) }
{
    is_stash(&decision.first)
        || is_stash(&decision.second)
        || is_stash(&decision.third)
        || is_stash(&decision.fourth)
}

fn is_stash(step: &Step<'_>) -> bool
    ensures { result ≡ waits.is_stash (step_seen step.now) }
{
    match step {
        Step::Send(_) => false,
        Step::Serve { .. } => false,
        Step::Hand => false,
        Step::Stash => true,
        Step::Expect(_) => false,
        Step::Reset => false,
        Step::Confirm => false,
        Step::Close(_) => false,
        Step::Nothing => false,
    }
}

/// Whether a frame waits at the expected number.
pub fn is_due(state: &State) -> bool
    requires first { 1 ≤ expected_of state.now }
    ensures { result ≡ is_some (waits_at (expected_of state.now) state.now.waiting) }
{
    match SeqNum::new(state.machine.state().expected) {
        None => false,
        Some(number) => state.waiting.waits(number),
    }
}

/// Takes out the frame that waits at the expected number, if there is one. Those below it are dropped.
pub fn take_due(state: &mut State) -> Option<Bytes>
    requires waiting { AreWaiting state.old.waiting }
    requires first { 1 ≤ expected_of state.old }
    ensures taken { result ≡ due_frame state.old }
    ensures rest { state.new ≡ passed state.old }
    ensures fewer { IsSome result → map.len state.new.waiting < map.len state.old.waiting }
    ensures waiting { AreWaiting state.new.waiting }
{
    let expected = state.machine.state().expected;
    state.waiting.drop_below(expected);
    match SeqNum::new(expected) {
        None => None,
        Some(number) => state.waiting.take(number),
    }
}
