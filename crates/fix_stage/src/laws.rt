//! What holds of all that a session sends, each law on a function that does nothing.
ghost use Rattle.std.specs.Prelude.{◌≡◌, ◌⊎◌, ℕ, List, false, Result, ⊤};
ghost use Rattle.fix_base.specs.declared.identity.Identity.{Identity};
ghost use Rattle.fix_base.specs.Session.{IsValidIdentity};
ghost use Rattle.std.specs.List.{AllByRecursion};
ghost use Rattle.fix_base.specs.Payload.{IsPersistentEntry};
ghost use Rattle.fix_base.specs.declared.act.Act.{Act};
ghost use Rattle.fix_base.specs.EndStep.{Answer, EndState, EndRun};
ghost use Rattle.fix_outside.specs.Calls.{Call};
ghost use Rattle.fix_stage.specs.Sender.{Sender, StageFault};
ghost use Rattle.fix_stage.specs.Flush.{Flushed, Settled};
ghost use Rattle.fix_stage.specs.Outgoing.{Outgoing, IsOutgoing};
ghost use Rattle.fix_stage.specs.Staging.{Staging, MakesAndStages, StagesPending};
ghost use Rattle.fix_stage.specs.Serving.{Served};
ghost use Rattle.fix_stage.specs.Sendings.{SendsOnly, IsServing};
ghost use Rattle.fix_stage.specs.Stated.{Total, Resumes, Stays, IsTimely, MayServe};
ghost use Rattle.fix_stage.specs.Lawful.{AsksNoReset, Fits, Level, MayTell, Apart, Bare, LawfulRunTo, After, AfterFault};
ghost use Rattle.fix_stage.specs.Lawful.{AfterApart, LeadsFrom};
ghost use Rattle.fix_stage.specs.LawfulServing.{MayServeAt, AfterServe};

/// A flush is a run of a lawful end: whatever end is in step with the session before it, its acts are a run of
/// that end. Where it goes well the end has passed what the session has counted.
pub fn a_flush_is_lawful()
    ensures { (id : Identity) (read : List ℕ) (resets : List Answer) (given : List ℕ) (n k : ℕ) (b : Sender) (calls : List Call) (r : Result ⊤ StageFault)
        (to : Sender) → (k ≡ 0) ⊎ (k ≡ n) → Flushed k b calls r to → (e : EndState) → Fits id read resets given n b e
        → LawfulRunTo id e calls (After (AfterFault id read resets given n) (Level id read resets given n) r to) }
{}

/// So is the flush at the end of a turn.
pub fn a_turn_settles_lawfully()
    ensures { (id : Identity) (read : List ℕ) (resets : List Answer) (given : List ℕ) (n : ℕ)
        → LeadsFrom id (AfterFault id read resets given n) (Fits id read resets given n) Settled (Level id read resets given n) }
{}

/// Staging a message that asks for no reset is a run of a lawful end, and leaves it in step.
pub fn a_message_is_staged_lawfully()
    ensures { (id : Identity) (read : List ℕ) (resets : List Answer) (given : List ℕ) (n : ℕ) (m : Outgoing) → IsValidIdentity id
        → (IsOutgoing m → AsksNoReset id m)
        → LeadsFrom id (AfterFault id read resets given n) (Fits id read resets given n) (Staging id m) (Fits id read resets given n) }
{}

/// Staging the draft in hand is one too, and leaves the end level: bytes may be read after it.
pub fn a_draft_is_staged_lawfully()
    ensures { (id : Identity) (read : List ℕ) (resets : List Answer) (given : List ℕ) (n : ℕ) → IsValidIdentity id
        → LeadsFrom id (AfterFault id read resets given n) (Level id read resets given n) (StagesPending id) (Level id read resets given n) }
{}

/// So is staging the Logon with 141=Y that answers a counterparty which asked for a reset, as the first message that is
/// written on the connection, after the reset is kept.
pub fn a_reset_is_told_lawfully()
    ensures { (id : Identity) (read : List ℕ) (resets : List Answer) (given : List ℕ) (n : ℕ) (m : Outgoing)
        → IsValidIdentity id
        → LeadsFrom id (AfterFault id read resets given n) (MayTell id read resets given n) (MakesAndStages id m)
        (Level id read resets given n) }
{}

/// An end keeps its role: whether it asks for resets as an initiator does is settled by its role and what it has kept.
pub fn an_end_keeps_its_role()
    ensures { (id : Identity) (e to : EndState) (acts : List Act) → EndRun id e acts to → to.role ≡ e.role }
{}

/// A session that writes nothing, as one with no connection, keeps its messages lawfully.
pub fn an_unwritten_message_is_kept_lawfully()
    ensures staged { (id : Identity) (m : Outgoing) → m.written ≡ false
        → LeadsFrom id AfterApart Apart (MakesAndStages id m) Apart }
    ensures kept { (id : Identity) → LeadsFrom id AfterApart Apart (Flushed 0) Bare }
    ensures settled { (id : Identity) → LeadsFrom id AfterApart Apart Settled Bare }
{}

/// What is out of memory would have gone on, and what is not has an end: no flush and no staging is left without one.
pub fn what_is_out_of_memory_would_have_gone_on()
    ensures flush { (k : ℕ) → Resumes StageFault.OutOfMemory IsTimely (Flushed k) }
    ensures flush_ends { (k : ℕ) → Total StageFault.OutOfMemory IsTimely (Flushed k) }
    ensures message { (id : Identity) (m : Outgoing) → IsOutgoing m
        → Resumes StageFault.OutOfMemory IsTimely (Staging id m) }
    ensures message_ends { (id : Identity) (m : Outgoing) → IsOutgoing m
        → Total StageFault.OutOfMemory IsTimely (Staging id m) }
    ensures draft { (id : Identity) → Resumes StageFault.OutOfMemory IsTimely (StagesPending id) }
    ensures draft_ends { (id : Identity) → Total StageFault.OutOfMemory IsTimely (StagesPending id) }
{}

/// Sending keeps records of what was staged, writes, and does nothing else. What is staged may be sent again,
/// where each message that is staged may be; so may each entry of a record that is kept or lost.
pub fn sending_keeps_and_writes()
    ensures flush { (k : ℕ) (b : Sender) (calls : List Call) (r : Result ⊤ StageFault) (to : Sender)
        → AllByRecursion IsPersistentEntry b.stage.entries → Flushed k b calls r to
        → SendsOnly IsPersistentEntry calls to }
    ensures message { (id : Identity) (m : Outgoing) → IsPersistentEntry m.entry → (b : Sender) (calls : List Call)
        (r : Result ⊤ StageFault) (to : Sender) → AllByRecursion IsPersistentEntry b.stage.entries
        → Staging id m b calls r to → SendsOnly IsPersistentEntry calls to }
    ensures draft { (id : Identity) (b : Sender) → IsTimely b → (calls : List Call) (r : Result ⊤ StageFault)
        (to : Sender)
        → AllByRecursion IsPersistentEntry b.stage.entries → StagesPending id b calls r to
        → SendsOnly IsPersistentEntry calls to }
{}

/// Serving a ResendRequest is a run of a lawful end: each repeat is of a message that may come again, and each gap fill
/// passes over others only. The end has what it had, and what was withheld.
pub fn a_served_request_is_lawful()
    ensures { (id : Identity) (read : List ℕ) (resets : List Answer) (given : List ℕ) (n from to : ℕ)
        → LeadsFrom id AfterServe (MayServeAt id read resets given n) (Served id from to) (MayServeAt id read resets given n) }
{}

/// What is served has an end, and where it was out of memory it would have gone on.
pub fn what_is_served_has_an_end()
    ensures goes_on { (id : Identity) → IsValidIdentity id → (from to : ℕ)
        → Resumes StageFault.OutOfMemory MayServe (Served id from to) }
    ensures ends { (id : Identity) → IsValidIdentity id → (from to : ℕ)
        → Total StageFault.OutOfMemory MayServe (Served id from to) }
    ensures stays { (id : Identity) (from to : ℕ) → Stays MayServe (Served id from to) }
{}

/// Serving fetches, asks the application, keeps what that withholds, and writes. It does nothing else.
pub fn serving_keeps_only_what_is_withheld()
    ensures { (id : Identity) (from to : ℕ) (b : Sender) (calls : List Call) (r : Result ⊤ StageFault) (after : Sender)
        → Served id from to b calls r after → AllByRecursion IsServing calls }
{}
