//! Begins a connection. `session` calls this.
ghost use Rattle.std.specs.Prelude.{◌≡◌, Some};
ghost use Rattle.std.specs.FinMap as map;
ghost use Rattle.fix_outside.specs.Calls.{HasCalls};
ghost use Rattle.fix_stage.specs.Combine.{AndThen};
ghost use Rattle.fix_stage.specs.Sender.{IsInRange};
ghost use Rattle.fix_session.specs.Begin as begins;
ghost use Rattle.fix_session.specs.Begin.{TakesTime, AsksReset, Opening, Begins, open_begun};

use crate::{BeginFault, State};
use fix_base::{OutOfMemory, Record, Stored};
use fix_machine::{Event, Role};
use fix_outside::{KeepFault, Outside};
use fix_resend::Stash;
use fix_stage::take_reading;
use fix_steps::begin_anew;
use std::alloc::Global;

/// Looks at the clock, keeps that a reset is asked for where one is due, and notes that a connection is opened.
pub fn begin<O: Outside>(
    o: &mut O,
    alloc: Global,
    role: Role,
    resets: bool,
    state: &mut State,
) -> Result<(), BeginFault>
    requires range { IsInRange state.old.sender }
    requires opens { (O.seen o.old).open_at ≡ Some state.old.sender.numbers.last }
    ensures range { IsInRange state.new.sender }
    ensures opens { (O.seen o.new).open_at ≡ open_begun result state.new.sender }
    ensures calls { HasCalls (O.seen o.old) (O.seen o.new)
        (λ calls. Begins role resets state.old calls result state.new) }
{
    match take_time(o, state) {
        Ok(()) => ask_and_open(o, alloc, role, resets, state),
        Err(_) => Err(BeginFault::OutOfMemory),
    }
}

/// Looks at the clock.
pub fn take_time<O: Outside>(o: &mut O, state: &mut State) -> Result<(), OutOfMemory>
    requires range { IsInRange state.old.sender }
    ensures range { IsInRange state.new.sender }
    ensures opens { (O.seen o.new).open_at ≡ (O.seen o.old).open_at }
    ensures calls { HasCalls (O.seen o.old) (O.seen o.new) (λ calls. TakesTime state.old calls result state.new) }
{
    match o.now() {
        Ok(now) => {
            take_reading(&mut state.sender, now);
            Ok(())
        }
        Err(_) => Err(OutOfMemory),
    }
}

// Keeps that a reset is asked for where one is due, and notes that a connection is opened.
fn ask_and_open<O: Outside>(
    o: &mut O,
    alloc: Global,
    role: Role,
    resets: bool,
    state: &mut State,
) -> Result<(), BeginFault>
    requires range { IsInRange state.old.sender }
    requires opens { (O.seen o.old).open_at ≡ Some state.old.sender.numbers.last }
    ensures range { IsInRange state.new.sender }
    ensures opens { (O.seen o.new).open_at ≡ open_begun result state.new.sender }
    ensures calls { HasCalls (O.seen o.old) (O.seen o.new)
        (λ calls. AndThen (AsksReset role resets) (Opening role) state.old calls result state.new) }
{
    ask_for_reset(o, role, resets, state)?;
    open_connection(o, alloc, role, state)
}

// Keeps that a reset is asked for, where one is due: both lists of numbers begin anew.
fn ask_for_reset<O: Outside>(
    o: &mut O,
    role: Role,
    resets: bool,
    state: &mut State,
) -> Result<(), BeginFault>
    requires range { IsInRange state.old.sender }
    requires opens { (O.seen o.old).open_at ≡ Some state.old.sender.numbers.last }
    ensures range { IsInRange state.new.sender }
    ensures opens { (O.seen o.new).open_at ≡ open_begun result state.new.sender }
    ensures calls { HasCalls (O.seen o.old) (O.seen o.new)
        (λ calls. AsksReset role resets state.old calls result state.new) }
{
    if !asks(role, resets, state) {
        return Ok(());
    }
    match o.keep(&Record::ResetAsk(state.sender.numbers.reading)) {
        Ok(()) => {
            begin_with_1(state);
            Ok(())
        }
        Err(KeepFault::Failed) => Err(BeginFault::StoreFault),
        Err(KeepFault::OutOfMemory) => Err(BeginFault::OutOfMemory),
    }
}

// Whether a reset is to be asked for.
fn asks(role: Role, resets: bool, state: &State) -> bool
    ensures { result ≡ begins.asks role resets state.now }
{
    match role {
        Role::Acceptor => false,
        Role::Initiator => resets || state.asked,
    }
}

// Both lists of numbers begin anew, and the next Logon (A) asks for the same.
fn begin_with_1(state: &mut State)
    ensures { state.new ≡ begins.anew state.old }
{
    begin_anew(&mut state.sender.numbers);
    state.machine.resume(Stored {
        last: 0,
        expected: 1,
        since: None,
        asked: true,
    });
    state.asked = true;
}

// Notes that a connection is opened. Nothing waits on it.
fn open_connection<O: Outside>(
    o: &mut O,
    alloc: Global,
    role: Role,
    state: &mut State,
) -> Result<(), BeginFault>
    ensures sender { state.new.sender ≡ state.old.sender }
    ensures opens { (O.seen o.new).open_at ≡ (O.seen o.old).open_at }
    ensures never { begins.IsMemory result }
    ensures calls { HasCalls (O.seen o.old) (O.seen o.new)
        (λ calls. Opening role state.old calls result state.new) }
{
    match o.mark(false) {
        Ok(()) => {
            let now = state.sender.numbers.reading;
            state.machine.decide(&Event::Begin { role, now });
            state.waiting = none_waiting(alloc);
            state.logon_due = is_initiator(role);
            Ok(())
        }
        Err(_) => Err(BeginFault::OutOfMemory),
    }
}

fn none_waiting(alloc: Global) -> Stash
    ensures { result ≡ map.empty }
{
    match Stash::new(alloc) {
        Ok(stash) => stash,
        // It takes no memory before the first frame.
        Err(_) => unreachable!(),
    }
}

fn is_initiator(role: Role) -> bool
    ensures { result ≡ begins.is_initiator role }
{
    match role {
        Role::Acceptor => false,
        Role::Initiator => true,
    }
}
