//! Sends a draft of the application: keeps its entry under the next number and, in phase Up, writes its
//! frame. `hand` calls this in a turn, and `session` for `Session::send`.
ghost use Rattle.std.specs.Prelude.{◌≡◌, ◌+◌, ◌<◌, ◌≤◌, IfOk, Some};
ghost use Rattle.fix_base.specs.Session.{IsValidIdentity};
ghost use Rattle.fix_base.specs.Payload.{LAST_TIME};
ghost use Rattle.fix_base.specs.Trace.{HasTrace};
ghost use Rattle.fix_fields.specs.Drafted.{draft_body, IsDraft};
ghost use Rattle.fix_engine.specs.Drafted.{IsOfDraft, KeepsDraft, Drafting, Drafted, SentTo, entry_of_draft};
ghost use Rattle.fix_engine.specs.Ready.{IsReady};
ghost use Rattle.fix_engine.specs.Faults.{open_sent};

use crate::context::Context;
use crate::faults::is_cut_sent;
use crate::leaving::end_connection;
use crate::state::take_reading;
use crate::writing::header;
use crate::{KeepFault, Outside, Phase, SendFault, State};
use fix_base::{By, Bytes, Entry, OutOfMemory, Record, SeqNum};
use fix_fields::Draft;
use fix_frame::{SealFault, seal};
use fix_outside::WriteTurn;
use std::alloc::Global;

/// Sends the draft at the time that the clock tells, and notes Cut where the connection failed.
pub fn send_and_cut<O: Outside>(
    o: &mut O,
    context: &Context,
    state: &mut State,
    draft: &Draft,
) -> Result<SeqNum, SendFault>
    requires ready { IsReady context.now.identity (O.seen o.old) (Some state.old.last) state.old }
    requires small { state.old.last < 999999999 }
    ensures ready { IsReady context.now.identity (O.seen o.new) (open_sent result state.new) state.new }
    ensures notes { HasTrace (O.seen o.old) (O.seen o.new)
        (λ notes. SentTo context.now.identity draft.now state.old notes result state.new) }
{
    match send_at_time(o, context, state, draft) {
        Ok(number) => Ok(number),
        Err(fault) => match end_connection(o, state, is_cut_sent(&fault)) {
            Ok(()) => Err(fault),
            Err(_) => Err(SendFault::OutOfMemory),
        },
    }
}

/// Keeps the draft under the next number and, in phase Up, writes its original.
pub fn send_draft<O: Outside>(
    o: &mut O,
    context: &Context,
    state: &mut State,
    draft: &Draft,
) -> Result<SeqNum, SendFault>
    requires ready { IsReady context.now.identity (O.seen o.old) (Some state.old.last) state.old }
    requires small { state.old.last < 999999999 }
    ensures ready { IsReady context.now.identity (O.seen o.new) (open_sent result state.new) state.new }
    ensures notes { HasTrace (O.seen o.old) (O.seen o.new)
        (λ notes. Drafting context.now.identity draft.now state.old notes result state.new) }
{
    match state.phase {
        Phase::Up => write_draft(o, context, state, draft),
        Phase::AwaitLogon => keep_draft(o, context, state, draft),
        Phase::Down => keep_draft(o, context, state, draft),
    }
}

fn send_at_time<O: Outside>(
    o: &mut O,
    context: &Context,
    state: &mut State,
    draft: &Draft,
) -> Result<SeqNum, SendFault>
    requires ready { IsReady context.now.identity (O.seen o.old) (Some state.old.last) state.old }
    requires small { state.old.last < 999999999 }
    ensures ready { IsReady context.now.identity (O.seen o.new) (open_sent result state.new) state.new }
    ensures notes { HasTrace (O.seen o.old) (O.seen o.new)
        (λ notes. Drafted context.now.identity draft.now state.old notes result state.new) }
{
    match o.now() {
        Ok(reading) => {
            take_reading(state, reading);
            send_draft(o, context, state, draft)
        }
        Err(_) => Err(SendFault::OutOfMemory),
    }
}

// Keeps the draft, and then writes its frame.
fn write_draft<O: Outside>(
    o: &mut O,
    context: &Context,
    state: &mut State,
    draft: &Draft,
) -> Result<SeqNum, SendFault>
    requires ready { IsReady context.now.identity (O.seen o.old) (Some state.old.last) state.old }
    requires small { state.old.last < 999999999 }
    requires up { state.old.phase ≡ Phase.Up }
    ensures ready { IsReady context.now.identity (O.seen o.new) (open_sent result state.new) state.new }
    ensures notes { HasTrace (O.seen o.old) (O.seen o.new)
        (λ notes. Drafting context.now.identity draft.now state.old notes result state.new) }
{
    // Memory is taken first: where there is none nothing is kept.
    let frame = match frame_of(context, state.last + 1, state.reading, draft) {
        Ok(frame) => frame,
        Err(_) => return Err(SendFault::OutOfMemory),
    };
    match keep_draft(o, context, state, draft) {
        Ok(number) => match o.write(frame.as_slice()) {
            WriteTurn::Done => Ok(number),
            WriteTurn::Failed(_) => Err(SendFault::LinkFault { number }),
            WriteTurn::OutOfMemory => Err(SendFault::OutOfMemory),
        },
        Err(fault) => Err(fault),
    }
}

// Keeps the entry of the draft under the next number.
fn keep_draft<O: Outside>(
    o: &mut O,
    context: &Context,
    state: &mut State,
    draft: &Draft,
) -> Result<SeqNum, SendFault>
    requires ready { IsReady context.now.identity (O.seen o.old) (Some state.old.last) state.old }
    requires small { state.old.last < 999999999 }
    ensures ready { IsReady context.now.identity (O.seen o.new) (open_sent result state.new) state.new }
    ensures notes { HasTrace (O.seen o.old) (O.seen o.new)
        (λ notes. KeepsDraft draft.now state.old notes result state.new) }
{
    let kept = match record_of(context.alloc, state, draft) {
        Ok(kept) => kept,
        Err(_) => return Err(SendFault::OutOfMemory),
    };
    let number = next_number(state);
    match o.keep(&kept) {
        Ok(()) => {
            state.last += 1;
            Ok(number)
        }
        Err(KeepFault::Failed) => Err(SendFault::StoreFault),
        Err(KeepFault::OutOfMemory) => Err(SendFault::OutOfMemory),
    }
}

fn next_number(state: &State) -> SeqNum
    requires small { state.now.last < 999999999 }
    ensures { result ≡ state.now.last + 1 }
{
    match SeqNum::new(state.last + 1) {
        Some(number) => number,
        None => unreachable!(),
    }
}

fn record_of(alloc: Global, state: &State, draft: &Draft) -> Result<Record, OutOfMemory>
    ensures made { IfOk result (λ made. made ≡ Record.Push (entry_of_draft state.now draft.now)) }
    ensures is { IfOk result (λ made. IsDraft draft.now) }
{
    let body = body_of(alloc, draft)?;
    Ok(Record::Push(Entry::App {
        time: state.reading,
        by: By::Caller,
        body: Bytes::from_vec(body),
    }))
}

// MsgType (35) and the fields after the header, as they are stored.
fn body_of(alloc: Global, draft: &Draft) -> Result<Vec<u8>, OutOfMemory>
    ensures text { IfOk result (λ body. body.items ≡ draft_body draft.now) }
    ensures is { IfOk result (λ body. IsDraft draft.now) }
{
    let mut body = Vec::from_slice(alloc, b"35=")?;
    body.extend_from_slice(draft.kind())?;
    body.extend_from_slice(b"\x01")?;
    body.extend_from_slice(draft.rest())?;
    Ok(body)
}

fn frame_of(context: &Context, number: u32, time: u64, draft: &Draft) -> Result<Bytes, OutOfMemory>
    requires valid { IsValidIdentity context.now.identity }
    requires last { number ≤ 999999999 }
    requires time { time ≤ LAST_TIME }
    ensures { IfOk result (λ text. IsOfDraft context.now.identity number time draft.now text) }
{
    let header = header(context.alloc, &context.identity, number, time)?;
    match seal(
        context.alloc,
        context.identity.begin,
        draft.kind(),
        &header,
        draft.rest(),
    ) {
        Ok(frame) => Ok(frame),
        Err(SealFault::OutOfMemory) => Err(OutOfMemory),
        // A draft leaves room for a header below the greatest BodyLength.
        Err(SealFault::TooLarge { .. }) => unreachable!(),
    }
}
