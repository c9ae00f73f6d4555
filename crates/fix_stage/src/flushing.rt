//! Keeps what is staged as one record, and then writes its frames. `numbering` calls this where a message
//! takes no further number or has no room, and a session before a hand-over and at the end of a turn.
ghost use Rattle.std.specs.Prelude.{◌≡◌, ◌≤◌, ◌+◌, Some, length};
ghost use Rattle.fix_outside.specs.Calls.{HasCalls};
ghost use Rattle.fix_stage.specs.Stage.{no_stage};
ghost use Rattle.fix_stage.specs.Sender.{IsReady, open_after, numbers_kept, due_number};
ghost use Rattle.fix_stage.specs.Flush.{record_of, CanKeep, Keeping, Flushed, Settled, IsSettled};
ghost use Rattle.fix_stage.specs.Causes.{HasCause};

use crate::pending::{let_go, note_lost, unstage};
use crate::writing::write_all;
use crate::{Context, Numbers, Sender, StageFault, Taken};
use fix_base::{Entries, Record};
use fix_outside::{KeepFault, Outside};

/// Keeps what is staged as one record, with the expected number where it isn't 0, and then writes the
/// frames in order. Nothing is staged after it.
pub fn flush<O: Outside>(
    o: &mut O,
    context: &Context,
    sender: &mut Sender,
    expect: u32,
) -> Result<(), StageFault>
    requires ready { IsReady context.now.identity (O.seen o.old) (Some sender.old.numbers.last) sender.old }
    requires expect { expect ≤ 1000000000 }
    ensures ready { IsReady context.now.identity (O.seen o.new) (open_after result sender.new) sender.new }
    ensures calls { HasCalls (O.seen o.old) (O.seen o.new)
        (λ calls. Flushed expect sender.old calls result sender.new) }
    ensures empty { sender.new.stage ≡ no_stage }
    ensures cause { HasCause result (O.seen o.old).faults (O.seen o.new).faults }
{
    if !sender.stage.is_due(expect) {
        return Ok(());
    }
    let Taken { entries, frames } = sender.stage.take(context.alloc);
    // Only what is kept goes out: else a crash could leave numbers that were used and aren't known.
    keep_all(o, context, sender, entries, expect)?;
    write_all(o, frames.as_slice())
}

/// The same at the end of a turn: the expected number is kept with what is staged, where it changed.
pub fn settle<O: Outside>(
    o: &mut O,
    context: &Context,
    sender: &mut Sender,
) -> Result<(), StageFault>
    requires ready { IsReady context.now.identity (O.seen o.old) (Some sender.old.numbers.last) sender.old }
    ensures ready { IsReady context.now.identity (O.seen o.new) (open_after result sender.new) sender.new }
    ensures calls { HasCalls (O.seen o.old) (O.seen o.new) (λ calls. Settled sender.old calls result sender.new) }
    ensures empty { sender.new.stage ≡ no_stage }
    ensures settled { IsSettled result sender.new }
    ensures cause { HasCause result (O.seen o.old).faults (O.seen o.new).faults }
{
    let expect = due(sender.numbers);
    flush(o, context, sender, expect)
}

// The expected number that is to be kept, or 0.
fn due(numbers: Numbers) -> u32
    ensures is { result ≡ due_number numbers }
    ensures bound { numbers.expected ≤ 1000000000 → result ≤ 1000000000 }
{
    if numbers.stored_expected == numbers.expected {
        return 0;
    }
    numbers.expected
}

// Keeps the entries as one record, with the expected number where it isn't 0.
fn keep_all<O: Outside>(
    o: &mut O,
    context: &Context,
    sender: &mut Sender,
    entries: Entries,
    expect: u32,
) -> Result<(), StageFault>
    requires ready { IsReady context.now.identity (O.seen o.old) (Some sender.old.numbers.last) sender.old }
    requires empty { sender.old.stage ≡ no_stage }
    requires keepable { CanKeep entries expect }
    requires place { sender.old.numbers.last + length entries ≤ 999999999 }
    ensures ready { IsReady context.now.identity (O.seen o.new) (open_after result sender.new) sender.new }
    ensures calls { HasCalls (O.seen o.old) (O.seen o.new)
        (λ calls. Keeping entries expect sender.old calls result sender.new) }
{
    let count = entries.as_slice().len() as u32;
    match o.keep(&record_from(entries, expect)) {
        Ok(()) => {
            count_kept(&mut sender.numbers, count, expect);
            let_go(&mut sender.pending);
            Ok(())
        }
        Err(KeepFault::Failed) => {
            note_lost(&mut sender.pending);
            Err(StageFault::StoreFault)
        }
        Err(KeepFault::OutOfMemory) => {
            unstage(&mut sender.pending);
            Err(StageFault::OutOfMemory)
        }
    }
}

// What is kept of these entries, with the expected number where it isn't 0.
fn record_from(entries: Entries, expect: u32) -> Record
    ensures { result ≡ record_of entries expect }
{
    let mut pushes = entries.into_vec();
    if pushes.len() == 0 {
        return Record::Expect(expect);
    }
    if pushes.len() > 1 || expect != 0 {
        return Record::Many {
            pushes: Entries::from_vec(pushes),
            expect,
        };
    }
    match pushes.pop() {
        Some(entry) => Record::Push(entry),
        None => unreachable!(),
    }
}

// So many more entries are kept, and the expected number where it isn't 0.
fn count_kept(numbers: &mut Numbers, count: u32, expect: u32)
    requires { numbers.old.last + count ≤ 999999999 }
    ensures { numbers.new ≡ numbers_kept numbers.old count expect }
{
    numbers.last += count;
    if expect != 0 {
        numbers.stored_expected = expect;
    }
}
