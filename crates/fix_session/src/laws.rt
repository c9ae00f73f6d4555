//! What holds of each run, each law on a function that does nothing.
ghost use Rattle.std.specs.Prelude.{ℕ, List, Result, ⊤};
ghost use Rattle.fix_base.specs.declared.identity.Identity.{Identity};
ghost use Rattle.fix_outside.specs.Calls.{Call};
ghost use Rattle.fix_steps.specs.declared.ending.Ending.{Ending};
ghost use Rattle.fix_session.specs.Judged.{RulesSeen};
ghost use Rattle.fix_session.specs.InSync.{InSync, IsSettled};
ghost use Rattle.fix_session.specs.Work.{WorkSeen};
ghost use Rattle.fix_session.specs.Turn.{Runs};

/// After each run, however it ends, the machine has the numbers that the sender has: the expected one, the last one that a
/// message took, and whether a reset by Logon is asked for.
pub fn a_run_leaves_the_numbers_in_sync()
    ensures { (id : Identity) (rules : RulesSeen) (n : ℕ) (w to : WorkSeen) (calls : List Call) (r : Result ⊤ Ending)
        → IsSettled w.state → Runs id rules n w calls r to → InSync to.state }
{}
