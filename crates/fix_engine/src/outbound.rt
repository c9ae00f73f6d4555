//! Sends an administrative message: keeps its entry under the next number, and then writes its frame. `performing`
//! calls this for the step `Send`.
ghost use Rattle.std.specs.Prelude.{◌≡◌, Some, ◌≤◌, ℕ, List, IfOk};
ghost use Rattle.fix_base.specs.Session.{IsValidIdentity};
ghost use Rattle.fix_base.specs.Payload.{LAST_TIME};
ghost use Rattle.fix_base.specs.Trace.{HasTrace};
ghost use Rattle.fix_engine.specs.State.{IsInRange, counted};
ghost use Rattle.fix_engine.specs.Ready.{IsReady};
ghost use Rattle.fix_engine.specs.Faults.{open_behind};
ghost use Rattle.fix_engine.specs.Answer.{IsSaid, Performed, kind_of, entry_of};
ghost use Rattle.fix_engine.specs.declared.state.Step.TheVariants as step;

use crate::context::Context;
use crate::writing::{header, rest};
use crate::{Ending, KeepFault, Outside, Say, State};
use fix_base::{Bytes, Entry, LAST_SEQ_NUM, OutOfMemory, Record, SeqNum};
use fix_frame::{SealFault, seal};
use fix_outside::WriteTurn;

/// Takes the next outbound number, keeps the entry, and then writes the frame.
#[tactic(auto, using(crate::proofs::Carrying::sendings))]
pub fn send<O: Outside>(
    o: &mut O,
    context: &Context,
    state: &mut State,
    say: Say,
    counts: Option<SeqNum>,
) -> Result<(), Ending>
    requires ready { IsReady context.now.identity (O.seen o.old) (Some state.old.last) state.old }
    ensures ready { IsReady context.now.identity (O.seen o.new) (open_behind result state.new) state.new }
    ensures notes { (frame : List ℕ) → HasTrace (O.seen o.old) (O.seen o.new)
        (λ notes. Performed context.now.identity frame state.old (step.Send say counts) notes result state.new) }
{
    if state.last >= LAST_SEQ_NUM {
        return Err(Ending::NumbersSpent);
    }
    // Memory is taken first: where there is none nothing is kept.
    let frame = match frame_of(context, state.last + 1, state.reading, say) {
        Ok(frame) => frame,
        Err(_) => return Err(Ending::OutOfMemory),
    };
    match o.keep(&record_of(state, say)) {
        Ok(()) => {}
        Err(KeepFault::Failed) => return Err(Ending::StoreFault),
        Err(KeepFault::OutOfMemory) => return Err(Ending::OutOfMemory),
    }
    // Only what is kept goes out: else a crash could leave a number that was used and isn't known.
    state.last += 1;
    match o.write(frame.as_slice()) {
        WriteTurn::Done => Ok(()),
        WriteTurn::Failed(_) => {
            count(state, counts);
            Err(Ending::LinkFault)
        }
        WriteTurn::OutOfMemory => Err(Ending::OutOfMemory),
    }
}

fn frame_of(context: &Context, number: u32, time: u64, say: Say) -> Result<Bytes, OutOfMemory>
    requires valid { IsValidIdentity context.now.identity }
    requires last { number ≤ 999999999 }
    requires time { time ≤ LAST_TIME }
    ensures { IfOk result (λ text. IsSaid context.now.identity number time say text) }
{
    let header = header(context.alloc, &context.identity, number, time)?;
    let rest = rest(context.alloc, say)?;
    let kind = [kind(say)];
    match seal(context.alloc, context.identity.begin, &kind, &header, &rest) {
        Ok(frame) => Ok(frame),
        Err(SealFault::OutOfMemory) => Err(OutOfMemory),
        // A header and two short fields are far below the greatest BodyLength.
        Err(SealFault::TooLarge { .. }) => unreachable!(),
    }
}

fn record_of(state: &State, say: Say) -> Record
    ensures { result ≡ Record.Push (entry_of state.now say) }
{
    Record::Push(Entry::Admin {
        time: state.reading,
        kind: kind(say),
        about: 0,
    })
}

// MsgType (35), as the kind of the entry.
fn kind(say: Say) -> u8
    ensures { result ≡ kind_of say }
{
    match say {
        Say::Logon { .. } => b'A',
        Say::Logout => b'5',
    }
}

// Counts the inbound message, where there is one.
fn count(state: &mut State, counts: Option<SeqNum>)
    requires { IsInRange state.old }
    ensures range { IsInRange state.new }
    ensures counted { state.new ≡ counted state.old counts }
{
    if let Some(number) = counts {
        state.expected = number.get() + 1;
    }
}
