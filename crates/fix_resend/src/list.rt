//! Builds the whole list that answers a ResendRequest. It takes a `Walk` from the first number to the last, and
//! keeps what each step gives.
ghost use Rattle.std.specs.Prelude.{◌≡◌, ◌-◌, ◌≤◌, ◌++◌, IfOk, length, slice_range, option_to_list};
ghost use Rattle.fix_resend.specs.Cut.{cut_from};

use crate::{Out, Walk};
use fix_base::OutOfMemory;
use std::alloc::Global;

/// What answers a ResendRequest (35=2) from BeginSeqNo (7) to EndSeqNo (16), both included. `apps[k - 1]` says
/// whether message k comes again.
pub fn plan(alloc: Global, apps: &[bool], from: u32, to: u32) -> Result<Vec<Out>, OutOfMemory>
    requires first { 1 ≤ from }
    requires some { from ≤ to }
    requires inside { to ≤ length apps.now }
    requires last { to ≤ 999999999 }
    ensures { IfOk result (λ outs. outs.items ≡ cut_from from (slice_range apps.now (from - 1) to)) }
{
    let mut outs = Vec::new(alloc);
    let mut walk = Walk::new(from, to);
    for app in &apps[from as usize - 1..to as usize] {
        let (gap, repeat) = walk.step(*app);
        push_some(&mut outs, gap)?;
        push_some(&mut outs, repeat)?;
    }
    Ok(outs)
}

// Adds what is there.
fn push_some(outs: &mut Vec<Out>, out: Option<Out>) -> Result<(), OutOfMemory>
    ensures { IfOk result (λ _. outs.new.items ≡ outs.old.items ++ option_to_list out) }
{
    if let Some(out) = out {
        if outs.push(out).is_err() {
            return Err(OutOfMemory);
        }
    }
    Ok(())
}
