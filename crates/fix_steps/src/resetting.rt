//! Keeps that the numbers begin anew, and that a reset was answered. `carrying` calls this.
ghost use Rattle.std.specs.Prelude.{◌≡◌, Some};
ghost use Rattle.fix_outside.specs.Calls.{HasCalls};
ghost use Rattle.fix_stage.specs.Sender.{IsInRange};
ghost use Rattle.fix_steps.specs.Ending.{open_after};
ghost use Rattle.fix_steps.specs.Resetting.{numbers_reset, Resetting, Confirming};

use crate::Ending;
use fix_base::Record;
use fix_outside::{KeepFault, Outside};
use fix_stage::{Numbers, Sender};

/// Keeps a reset with the time of the last reading: both lists of numbers begin anew, as a Logon (A) with
/// ResetSeqNumFlag (141) asks. Nothing is staged then.
pub fn reset<O: Outside>(o: &mut O, sender: &mut Sender) -> Result<(), Ending>
    requires range { IsInRange sender.old }
    requires opens { (O.seen o.old).open_at ≡ Some sender.old.numbers.last }
    ensures range { IsInRange sender.new }
    ensures opens { (O.seen o.new).open_at ≡ open_after result sender.new }
    ensures calls { HasCalls (O.seen o.old) (O.seen o.new) (λ calls. Resetting sender.old calls result sender.new) }
{
    match o.keep(&Record::Reset(sender.numbers.reading)) {
        Ok(()) => {
            begin_anew(&mut sender.numbers);
            Ok(())
        }
        Err(KeepFault::Failed) => Err(Ending::StoreFault),
        Err(KeepFault::OutOfMemory) => Err(Ending::OutOfMemory),
    }
}

/// Number 1 is expected, and the next message takes number 1.
pub fn begin_anew(numbers: &mut Numbers)
    ensures { numbers.new ≡ numbers_reset numbers.old }
{
    numbers.expected = 1;
    numbers.stored_expected = 1;
    numbers.last = 0;
}

/// Keeps that the counterparty answered a reset which this end asked for.
pub fn confirm<O: Outside>(o: &mut O, sender: &Sender) -> Result<(), Ending>
    requires opens { (O.seen o.old).open_at ≡ Some sender.now.numbers.last }
    ensures opens { (O.seen o.new).open_at ≡ open_after result sender.now }
    ensures calls { HasCalls (O.seen o.old) (O.seen o.new) (λ calls. Confirming sender.now calls result sender.now) }
{
    match o.keep(&Record::Confirm) {
        Ok(()) => Ok(()),
        Err(KeepFault::Failed) => Err(Ending::StoreFault),
        Err(KeepFault::OutOfMemory) => Err(Ending::OutOfMemory),
    }
}
