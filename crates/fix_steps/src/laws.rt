//! What holds of each answer that is carried out, each law on a function that does nothing.
ghost use Rattle.std.specs.Prelude.{◌≡◌, ◌≢◌, ℕ, List, [], ◌∷◌, Option, Some, None, Result, Ok, Err, false, ⊤};
ghost use Rattle.std.specs.List.{AllByRecursion};
ghost use Rattle.fix_base.specs.declared.identity.Identity.{Identity};
ghost use Rattle.fix_base.specs.Session.{IsValidIdentity};
ghost use Rattle.fix_base.specs.Fields.{Field};
ghost use Rattle.fix_base.specs.Message.{Message};
ghost use Rattle.fix_base.specs.Payload.{IsPersistentEntry};
ghost use Rattle.fix_base.specs.Says.{HasFields, message_of};
ghost use Rattle.fix_base.specs.EndStep.{Answer};
ghost use Rattle.fix_base.specs.Logon.{Begun};
ghost use Rattle.fix_outside.specs.Calls.{Call};
ghost use Rattle.fix_machine.specs.declared.state.MachineState.{MachineState};
ghost use Rattle.fix_machine.specs.declared.state.Options.{Options};
ghost use Rattle.fix_machine.specs.declared.state.Phase.TheVariants.{AwaitLogon};
ghost use Rattle.fix_machine.specs.declared.event.Why.{Why};
ghost use Rattle.fix_machine.specs.Event.{Inbound, StepSeen, EventSeen, Frame};
ghost use Rattle.fix_machine.specs.Decide.{answer_to};
ghost use Rattle.fix_machine.specs.Numbers.{expected_after, IsNoMessage};
ghost use Rattle.fix_stage.specs.declared.sender.Sender.{Sender};
ghost use Rattle.fix_stage.specs.Stated.{Total, Resumes, IsTimely};
ghost use Rattle.fix_stage.specs.Lawful.{LeadsFrom};
ghost use Rattle.fix_steps.specs.Steps.{IsCarried, Carried};
ghost use Rattle.fix_steps.specs.declared.ending.Ending.{Ending};
ghost use Rattle.fix_steps.specs.declared.ending.Ending.TheVariants as ending;
ghost use Rattle.fix_steps.specs.Leaves.{IsInOrder, HasNumbers};
ghost use Rattle.fix_steps.specs.Answering.{AnswersOnly};
ghost use Rattle.fix_steps.specs.Stated.{IsRead, IsSound};
ghost use Rattle.fix_steps.specs.Lawful.{Standing, MayAnswer, LetsCount, WasReadIn, IsAnswered, InStep, InBounds};
ghost use Rattle.fix_steps.specs.Lawful.{Stands, AfterEnding, MayRenew, IsHeard, IsSilent};
ghost use Rattle.fix_steps.specs.Told.{IsTold, IsOther, MayBeDone, MayBegin, IsAwaiting, HasBegun, IsBounded};
ghost use Rattle.fix_steps.specs.Told.{IsPossibleAnswer};

/// What is out of memory would have gone on, and what is not has an end: no answer is left without one.
pub fn what_is_out_of_memory_would_have_gone_on()
    ensures answer { (id : Identity) → IsValidIdentity id → (frame : Option (List ℕ)) → IsRead frame
        → (steps : List StepSeen) → AllByRecursion (IsCarried frame) steps
        → Resumes ending.OutOfMemory IsSound (Carried id frame steps) }
    ensures answer_ends { (id : Identity) → IsValidIdentity id → (frame : Option (List ℕ)) → IsRead frame
        → (steps : List StepSeen) → AllByRecursion (IsCarried frame) steps
        → Total ending.OutOfMemory IsSound (Carried id frame steps) }
{}

/// An answer is a run of a lawful end where each of its steps may be done: whatever end is in step with the session
/// before it, its acts are a run of that end, to one that is in step again. Each number that a message took is a
/// MsgSeqNum (34) before it and after it.
pub fn an_answer_is_lawful()
    ensures { (id : Identity) (read : List ℕ) (resets : List Answer) (frame : Option (List ℕ)) (x : Option Message) (n m : ℕ)
        (steps : List StepSeen) (to : Standing) → IsValidIdentity id → IsAnswered read resets frame x
        → AllByRecursion (IsCarried frame) steps → MayAnswer x n steps to m
        → LeadsFrom id (AfterEnding id read) (InBounds (InStep id read resets n)) (Carried id frame steps)
        (InBounds (Stands id read resets to m)) }
{}

/// So is an answer that begins the numbers anew, where nothing was written or given on the connection yet and its first
/// frame is a Logon: the counterparty asked for it by a Logon of number 1 with 141=Y, or it didn't. The reset is kept, and
/// what counts of the answer counts after it.
pub fn a_reset_is_answered_lawfully()
    ensures { (id : Identity) (read : List ℕ) (answer : Answer) (frame : Option (List ℕ)) (x : Option Message) (n m : ℕ)
        (steps : List StepSeen) (to : Standing) → IsValidIdentity id → IsHeard read answer
        → IsAnswered read (answer ∷ []) frame x → AllByRecursion (IsCarried frame) steps → MayRenew x answer steps to m
        → LeadsFrom id (AfterEnding id read) (InBounds (IsSilent id read n)) (Carried id frame steps)
        (InBounds (Stands id read (answer ∷ []) to m)) }
{}

/// An answer sends, serves a ResendRequest, hands the message over, keeps what is kept of resets, and does nothing else.
/// What is staged may be sent again, and so may each entry of a record that is kept or lost.
pub fn an_answer_sends_and_hands_over()
    ensures { (id : Identity) (frame : Option (List ℕ)) (steps : List StepSeen) → AllByRecursion (IsCarried frame) steps
        → (b : Sender) → IsTimely b → (calls : List Call) (r : Result ⊤ Ending) (to : Sender)
        → AllByRecursion IsPersistentEntry b.stage.entries → Carried id frame steps b calls r to
        → AnswersOnly IsPersistentEntry frame calls to }
{}

/// An answer leaves the numbers that its steps say, where it did all of them, and where a close ended it: the number that is
/// expected, and the last that a message took. However it ends, the last reading of the clock is as it was.
pub fn an_answer_leaves_the_numbers_that_its_steps_say()
    ensures done { (id : Identity) (frame : Option (List ℕ)) (steps : List StepSeen) → IsInOrder steps → (b : Sender)
        (calls : List Call) (to : Sender) → Carried id frame steps b calls (Ok tt) to → HasNumbers steps b to }
    ensures closed { (id : Identity) (frame : Option (List ℕ)) (steps : List StepSeen) → IsInOrder steps → (why : Why)
        (b : Sender) (calls : List Call) (to : Sender) → Carried id frame steps b calls (Err (ending.Closed why)) to
        → HasNumbers steps b to }
    ensures reading { (id : Identity) (frame : Option (List ℕ)) (steps : List StepSeen) (b : Sender) (calls : List Call)
        (r : Result ⊤ Ending) (to : Sender) → Carried id frame steps b calls r to
        → to.numbers.reading ≡ b.numbers.reading }
{}

/// Whatever the machine decides may be done, where it is carried out here: at a message, of which it was told what the
/// fields say, at the first message of a connection, where this end asks for no reset, and at any other event. The number
/// that its steps say is that of its state (`the_steps_say_the_numbers` of `fix_machine`).
pub fn what_is_decided_may_be_done()
    ensures message { (o : Options) (s : MachineState) (fields : List Field) (i : Inbound) (frame : Option (List ℕ))
        → IsTold fields i → s.phase ≢ AwaitLogon → AllByRecursion (IsCarried frame) (answer_to o s (Frame i)).steps
        → MayBeDone (message_of fields) s.expected (answer_to o s (Frame i)) }
    ensures first { (o : Options) (s : MachineState) (fields : List Field) (i : Inbound) (frame : Option (List ℕ))
        → IsTold fields i → s.phase ≡ AwaitLogon → s.reset_asked ≡ false
        → AllByRecursion (IsCarried frame) (answer_to o s (Frame i)).steps
        → MayBegin (message_of fields) s i (answer_to o s (Frame i)) }
    ensures other { (o : Options) (s : MachineState) (e : EventSeen) → IsOther s e → (x : Option Message)
        → MayBeDone x s.expected (answer_to o s e) }
{}

/// So what the machine decides is lawful: from an end in step with the session and the machine's expected number, the
/// answer's acts are a run of that end, to one in step with the number that its steps say. At the first message on a
/// connection a reset may be kept, where the counterparty asks for it or an acceptor resets at each Logon.
pub fn what_is_decided_is_lawful()
    ensures message { (id : Identity) (read : List ℕ) (resets : List Answer) (text : List ℕ) (fields : List Field)
        (o : Options) (s : MachineState) (i : Inbound) → IsValidIdentity id → HasFields text fields
        → LetsCount read resets → ((y : Message) → message_of fields ≡ Some y → WasReadIn read y) → IsTold fields i
        → s.phase ≢ AwaitLogon → AllByRecursion (IsCarried (Some text)) (answer_to o s (Frame i)).steps
        → LeadsFrom id (AfterEnding id read) (InBounds (InStep id read resets s.expected))
        (Carried id (Some text) (answer_to o s (Frame i)).steps)
        (InBounds (InStep id read resets (expected_after (answer_to o s (Frame i)).steps s.expected))) }
    ensures first { (id : Identity) (read text : List ℕ) (fields : List Field) (o : Options) (s : MachineState)
        (i : Inbound) → IsValidIdentity id → HasFields text fields → Begun (λ t. t ≡ text) read
        → ((y : Message) → message_of fields ≡ Some y → WasReadIn read y) → IsTold fields i
        → s.phase ≡ AwaitLogon → s.reset_asked ≡ false
        → AllByRecursion (IsCarried (Some text)) (answer_to o s (Frame i)).steps
        → LeadsFrom id (AfterEnding id read) (IsAwaiting id read s.role s.expected)
        (Carried id (Some text) (answer_to o s (Frame i)).steps)
        (HasBegun id read (answer_to o s (Frame i)).next.phase
        (expected_after (answer_to o s (Frame i)).steps s.expected)) }
    ensures other { (id : Identity) (read : List ℕ) (resets : List Answer) (o : Options) (s : MachineState)
        (e : EventSeen) → IsValidIdentity id → IsOther s e → AllByRecursion (IsCarried None) (answer_to o s e).steps
        → LeadsFrom id (AfterEnding id read) (InBounds (InStep id read resets s.expected))
        (Carried id None (answer_to o s e).steps)
        (InBounds (InStep id read resets (expected_after (answer_to o s e).steps s.expected))) }
{}

/// What the machine decides can be carried out, where it names no application version. A reset stands first and a close
/// last, and its numbers stay within their bounds.
pub fn what_is_decided_is_possible()
    ensures message { (text : List ℕ) (fields : List Field) → HasFields text fields → (i : Inbound) → IsTold fields i
        → (o : Options) (s : MachineState) → o.version ≡ None → IsBounded s
        → IsPossibleAnswer (Some text) (answer_to o s (Frame i)) }
    ensures other { (o : Options) (s : MachineState) (e : EventSeen) → IsNoMessage e → o.version ≡ None → IsBounded s
        → IsPossibleAnswer None (answer_to o s e) }
{}
