//! Serves a ResendRequest (2): each application message that was sent goes again in order, marked by PossDupFlag (43),
//! and each run of other numbers is passed over by one gap fill. A session calls this with nothing staged.
ghost use Rattle.std.specs.Prelude.{◌≡◌, ◌≤◌, ◌+◌, ◌-◌, Some};
ghost use Rattle.fix_base.specs.declared.entry.Record.TheVariants.{Withhold};
ghost use Rattle.fix_outside.specs.Outside.{IsFetchedApp, NamesApp};
ghost use Rattle.fix_outside.specs.Calls.{HasCalls};
ghost use Rattle.fix_base.specs.Payload.{IsAppPayload};
ghost use Rattle.fix_stage.specs.Combine.{Each, AndThen};
ghost use Rattle.fix_stage.specs.Sender.{IsReady, open_after};
ghost use Rattle.fix_stage.specs.Causes.{HasCause};
ghost use Rattle.fix_stage.specs.Serving.{opened, WroteGap, WroteRepeat, Withholding, AppServed, ServedOne};
ghost use Rattle.fix_stage.specs.Serving.{numbers, last_served, Served};

use crate::repeating::{gap_fill_of, kind_and_rest, repeat_of};
use crate::writing::write_one;
use crate::{Context, Sender, StageFault};
use fix_base::{Record, SeqNum};
use fix_outside::{Again, FetchFault, KeepFault, Kind, Outside};

/// Serves the numbers from `from`, BeginSeqNo (7), to `to`, EndSeqNo (16). 0, or a number above the last one that is
/// kept, asks for all that follow. The application is asked for each of its messages that isn't withheld yet, and
/// what it withholds is kept as withheld before a gap fill passes it over. SendingTime (52) is the last reading.
pub fn serve<O: Outside>(
    o: &mut O,
    context: &Context,
    sender: &Sender,
    from: u32,
    to: u32,
) -> Result<(), StageFault>
    requires ready { IsReady context.now.identity (O.seen o.old) (Some sender.now.numbers.last) sender.now }
    requires first { 1 ≤ from }
    ensures ready { IsReady context.now.identity (O.seen o.new) (open_after result sender.now) sender.now }
    ensures calls { HasCalls (O.seen o.old) (O.seen o.new)
        (λ calls. Served context.now.identity from to sender.now calls result sender.now) }
    ensures cause { HasCause result (O.seen o.old).faults (O.seen o.new).faults }
{
    let end = last_asked(sender.numbers.last, to) + 1;
    let mut body = Vec::new(context.alloc);
    let mut gap = 0;
    serve_all(o, context, sender, from, end, &mut body, &mut gap)?;
    close_gap(o, context, sender, gap, end)
}

// The last number that is asked for.
fn last_asked(last: u32, to: u32) -> u32
    ensures is { result ≡ last_served last to }
    ensures low { result ≤ last }
{
    if to == 0 || to > last { last } else { to }
}

// Serves the numbers from this one on that are below the end.
fn serve_all<O: Outside>(
    o: &mut O,
    context: &Context,
    sender: &Sender,
    from: u32,
    end: u32,
    body: &mut Vec<u8>,
    gap: &mut u32,
) -> Result<(), StageFault>
    requires ready { IsReady context.now.identity (O.seen o.old) (Some sender.now.numbers.last) sender.now }
    requires first { 1 ≤ from }
    requires end { end ≤ sender.now.numbers.last + 1 }
    requires open { gap.old ≤ sender.now.numbers.last }
    ensures ready { IsReady context.now.identity (O.seen o.new) (open_after result sender.now) sender.now }
    ensures open { gap.new ≤ sender.now.numbers.last }
    ensures calls { HasCalls (O.seen o.old) (O.seen o.new)
        (λ calls. Each (ServedOne context.now.identity sender.now.numbers.reading) gap.old (numbers from (end - from))
        calls result gap.new) }
{
    for number in from..end {
        serve_one(o, context, sender, number, body, gap)?;
    }
    Ok(())
}

// Serves one number. What it has is fetched into `body`.
fn serve_one<O: Outside>(
    o: &mut O,
    context: &Context,
    sender: &Sender,
    number: u32,
    body: &mut Vec<u8>,
    gap: &mut u32,
) -> Result<(), StageFault>
    requires ready { IsReady context.now.identity (O.seen o.old) (Some sender.now.numbers.last) sender.now }
    requires first { 1 ≤ number }
    requires last { number ≤ sender.now.numbers.last }
    requires open { gap.old ≤ sender.now.numbers.last }
    ensures ready { IsReady context.now.identity (O.seen o.new) (open_after result sender.now) sender.now }
    ensures open { gap.new ≤ sender.now.numbers.last }
    ensures calls { HasCalls (O.seen o.old) (O.seen o.new)
        (λ calls. ServedOne context.now.identity sender.now.numbers.reading gap.old number calls result gap.new) }
{
    let number = seq_num(number);
    match o.fetch(number, body) {
        Ok(Kind::App { time }) => serve_app(o, context, sender, number, time, body.as_slice(), gap),
        Ok(Kind::Admin) => {
            pass_over(gap, number.get());
            Ok(())
        }
        Ok(Kind::Withheld) => {
            pass_over(gap, number.get());
            Ok(())
        }
        Err(FetchFault::Failed) => Err(StageFault::StoreFault),
        Err(FetchFault::OutOfMemory) => Err(StageFault::OutOfMemory),
    }
}

// The number as a MsgSeqNum (34).
fn seq_num(number: u32) -> SeqNum
    requires first { 1 ≤ number }
    requires last { number ≤ 999999999 }
    ensures { result ≡ number }
{
    match SeqNum::new(number) {
        Some(number) => number,
        None => unreachable!(),
    }
}

// Serves an application message that isn't withheld yet: the application is asked first.
fn serve_app<O: Outside>(
    o: &mut O,
    context: &Context,
    sender: &Sender,
    number: SeqNum,
    time: u64,
    body: &[u8],
    gap: &mut u32,
) -> Result<(), StageFault>
    requires ready { IsReady context.now.identity (O.seen o.old) (Some sender.now.numbers.last) sender.now }
    requires last { number ≤ sender.now.numbers.last }
    requires open { gap.old ≤ sender.now.numbers.last }
    requires fetched { IsFetchedApp number time body.now (O.seen o.old) }
    ensures ready { IsReady context.now.identity (O.seen o.new) (open_after result sender.now) sender.now }
    ensures open { gap.new ≤ sender.now.numbers.last }
    ensures calls { HasCalls (O.seen o.old) (O.seen o.new)
        (λ calls. AppServed context.now.identity sender.now.numbers.reading number time body.now gap.old calls result
        gap.new) }
{
    let (kind, _) = kind_and_rest(body);
    match o.again(number, kind, body) {
        Again::Send => {
            let from = *gap;
            *gap = 0;
            close_and_repeat(o, context, sender, from, number.get(), time, body)
        }
        Again::Withhold => {
            // It is kept before a gap fill passes it over: else it could come again behind a later message.
            withhold(o, context, sender, number)?;
            pass_over(gap, number.get());
            Ok(())
        }
        Again::OutOfMemory => Err(StageFault::OutOfMemory),
    }
}

// Keeps the number as withheld.
fn withhold<O: Outside>(
    o: &mut O,
    context: &Context,
    sender: &Sender,
    number: SeqNum,
) -> Result<(), StageFault>
    requires ready { IsReady context.now.identity (O.seen o.old) (Some sender.now.numbers.last) sender.now }
    requires last { number ≤ sender.now.numbers.last }
    requires named { NamesApp (Withhold number) (O.seen o.old) }
    ensures ready { IsReady context.now.identity (O.seen o.new) (open_after result sender.now) sender.now }
    ensures calls { HasCalls (O.seen o.old) (O.seen o.new) (λ calls. Withholding number tt calls result tt) }
{
    match o.keep(&Record::Withhold(number.get())) {
        Ok(()) => Ok(()),
        Err(KeepFault::Failed) => Err(StageFault::StoreFault),
        Err(KeepFault::OutOfMemory) => Err(StageFault::OutOfMemory),
    }
}

// This number is passed over: a gap begins here, unless one is open.
fn pass_over(gap: &mut u32, number: u32)
    ensures { gap.new ≡ opened gap.old number }
{
    if *gap == 0 {
        *gap = number;
    }
}

// Writes the open gap that ends before this message, and then the message.
fn close_and_repeat<O: Outside>(
    o: &mut O,
    context: &Context,
    sender: &Sender,
    from: u32,
    number: u32,
    time: u64,
    body: &[u8],
) -> Result<(), StageFault>
    requires ready { IsReady context.now.identity (O.seen o.old) (Some sender.now.numbers.last) sender.now }
    requires last { number ≤ sender.now.numbers.last }
    requires open { from ≤ sender.now.numbers.last }
    requires payload { IsAppPayload time body.now }
    ensures ready { IsReady context.now.identity (O.seen o.new) (open_after result sender.now) sender.now }
    ensures calls { HasCalls (O.seen o.old) (O.seen o.new)
        (λ calls. AndThen (WroteGap context.now.identity sender.now.numbers.reading from number)
        (WroteRepeat context.now.identity sender.now.numbers.reading number time body.now) tt calls result tt) }
{
    close_gap(o, context, sender, from, number)?;
    repeat(o, context, sender, number, time, body)
}

// Writes the gap that is open, if there is one, up to this number.
fn close_gap<O: Outside>(
    o: &mut O,
    context: &Context,
    sender: &Sender,
    from: u32,
    next: u32,
) -> Result<(), StageFault>
    requires ready { IsReady context.now.identity (O.seen o.old) (Some sender.now.numbers.last) sender.now }
    requires open { from ≤ sender.now.numbers.last }
    requires next { next ≤ sender.now.numbers.last + 1 }
    ensures ready { IsReady context.now.identity (O.seen o.new) (open_after result sender.now) sender.now }
    ensures calls { HasCalls (O.seen o.old) (O.seen o.new)
        (λ calls. WroteGap context.now.identity sender.now.numbers.reading from next tt calls result tt) }
{
    if from == 0 {
        return Ok(());
    }
    let Ok(frame) = gap_fill_of(context, from, next, sender.numbers.reading) else {
        return Err(StageFault::OutOfMemory);
    };
    write_one(o, &Some(frame))
}

// Writes the message again.
fn repeat<O: Outside>(
    o: &mut O,
    context: &Context,
    sender: &Sender,
    number: u32,
    time: u64,
    body: &[u8],
) -> Result<(), StageFault>
    requires ready { IsReady context.now.identity (O.seen o.old) (Some sender.now.numbers.last) sender.now }
    requires last { number ≤ sender.now.numbers.last }
    requires payload { IsAppPayload time body.now }
    ensures ready { IsReady context.now.identity (O.seen o.new) (open_after result sender.now) sender.now }
    ensures calls { HasCalls (O.seen o.old) (O.seen o.new)
        (λ calls. WroteRepeat context.now.identity sender.now.numbers.reading number time body.now tt calls result
        tt) }
{
    let Ok(frame) = repeat_of(context, number, time, body, sender.numbers.reading) else {
        return Err(StageFault::OutOfMemory);
    };
    write_one(o, &Some(frame))
}
