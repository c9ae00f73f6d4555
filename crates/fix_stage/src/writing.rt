//! Writes frames on the connection, one write each. `flushing` and `serving` call this.
ghost use Rattle.std.specs.Prelude.{◌≡◌, ◌≢◌, Err};
ghost use Rattle.fix_outside.specs.Calls.{HasCalls};
ghost use Rattle.fix_stage.specs.Combine.{Each};
ghost use Rattle.fix_stage.specs.Flush.{WroteOne};

use crate::StageFault;
use fix_base::Bytes;
use fix_outside::{Outside, WriteTurn};

/// Writes the frames in order, until one fails.
pub fn write_all<O: Outside>(o: &mut O, frames: &[Option<Bytes>]) -> Result<(), StageFault>
    ensures opens { (O.seen o.new).open_at ≡ (O.seen o.old).open_at }
    ensures open { result ≢ Err StageFault.StoreFault }
    ensures calls { HasCalls (O.seen o.old) (O.seen o.new) (λ calls. Each WroteOne tt frames.now calls result tt) }
{
    for frame in frames {
        write_one(o, frame)?;
    }
    Ok(())
}

/// Writes one frame, where there is one.
pub fn write_one<O: Outside>(o: &mut O, frame: &Option<Bytes>) -> Result<(), StageFault>
    ensures opens { (O.seen o.new).open_at ≡ (O.seen o.old).open_at }
    ensures open { result ≢ Err StageFault.StoreFault }
    ensures calls { HasCalls (O.seen o.old) (O.seen o.new) (λ calls. WroteOne tt frame.now calls result tt) }
{
    match frame {
        None => Ok(()),
        Some(text) => match o.write(text.as_slice()) {
            WriteTurn::Done => Ok(()),
            WriteTurn::Failed(_) => Err(StageFault::LinkFault),
            WriteTurn::OutOfMemory => Err(StageFault::OutOfMemory),
        },
    }
}
