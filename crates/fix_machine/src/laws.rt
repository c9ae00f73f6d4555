//! What holds of every answer, each law on a function that does nothing.
ghost use Rattle.std.specs.Prelude.{◌≡◌, ◌<◌, ℕ, ◌+◌, ◌∷◌, [], Some, true, false};
ghost use Rattle.fix_machine.specs.State.{Options, MachineState, counted, heard};
ghost use Rattle.fix_machine.specs.Event.{Inbound, EventSeen, Frame, App, Hand, Expect};
ghost use Rattle.fix_machine.specs.Answer.{answer, is_of_session};
ghost use Rattle.fix_machine.specs.Checks.{Fine, checked};
ghost use Rattle.fix_machine.specs.LoggedOn.{is_reset};
ghost use Rattle.fix_machine.specs.Decide.{answer_to, started};
ghost use Rattle.fix_machine.specs.Numbers.{Adds, IsLoggedOn, IsPassive, IsNoMessage, Rises};
ghost use Rattle.fix_machine.specs.Causes.{IsCause, HaveCauses, MayMove};
ghost use Rattle.fix_machine.specs.Rows.{RowsHold};

/// The steps of an answer say all that it does to the numbers: who carries them out one by one has
/// after the last of them the numbers of the state. A draft that was sent has no step.
pub fn the_steps_say_the_numbers()
    ensures { (o : Options) (s : MachineState) (e : EventSeen) → Adds (started s e) (answer_to o s e) }
{}

/// An application message of the expected number that passes every check is handed over, and then
/// counted; nothing else is done.
pub fn a_message_in_order_is_handed_over()
    ensures { (o : Options) (s : MachineState) (i : Inbound) → IsLoggedOn s.phase
        → is_of_session o.identity i.header ≡ true → i.header.number
        ≡ Some s.expected
        → is_reset i ≡ false → checked o (heard s) i ≡ Fine → i.verdict ≡ App
        → answer_to o s (Frame i) ≡ answer (Hand ∷ Expect (s.expected + 1) ∷ []) (counted s.expected (heard s)) }
{}

/// A message above the expected number is never rejected and never counted, whatever is wrong with
/// it, but for a SequenceReset (4) without GapFillFlag (123), which is looked at whatever its number.
pub fn a_message_too_high_is_neither_rejected_nor_counted()
    ensures { (o : Options) (s : MachineState) (i : Inbound) (n : ℕ) → IsLoggedOn s.phase
        → is_of_session o.identity i.header ≡ true → i.header.number
        ≡ Some n
        → is_reset i ≡ false → s.expected < n → IsPassive s (answer_to o s (Frame i)) }
{}

/// After the Logon, a message of another number than the expected one doesn't move the expected
/// number, but for a SequenceReset (4) without GapFillFlag (123).
pub fn only_the_expected_number_moves_it()
    ensures { (o : Options) (s : MachineState) (i : Inbound) (n : ℕ) → IsLoggedOn s.phase
        → is_of_session o.identity i.header ≡ true → i.header.number
        ≡ Some n
        → is_reset i ≡ false → (n ≡ s.expected → ⊥) → (answer_to o s (Frame i)).next.expected ≡ s.expected }
{}

/// No event but a message moves the expected number.
pub fn only_a_message_moves_it()
    ensures { (o : Options) (s : MachineState) (e : EventSeen) → IsNoMessage e → (answer_to o s e).next.expected
        ≡ s.expected }
{}

/// The expected number never falls, but where a reset by Logon is answered: then the answer begins
/// with the reset, or with what confirms it.
pub fn the_expected_number_never_falls()
    ensures { (o : Options) (s : MachineState) (e : EventSeen) → Rises s (answer_to o s e) }
{}

/// The worked rows of `specs/Rows.antt` hold: in each state an event has the steps that a reader of
/// the FIX session layer works out by hand, and leads to the state that they say.
pub fn the_worked_rows_hold()
    ensures { RowsHold }
{}

/// Every close has one of the stated causes: at a first message, at a later one, or at a reading of
/// the clock.
pub fn every_close_has_a_stated_cause()
    ensures { (o : Options) (s : MachineState) (e : EventSeen) → HaveCauses (IsCause o s e) (answer_to o s e) }
{}

/// Whatever the event and the phase, the expected number moves only by a message of that number, by
/// a SequenceReset (4) without GapFillFlag (123), or where a reset by Logon is answered.
pub fn these_alone_move_the_expected_number()
    ensures { (o : Options) (s : MachineState) (e : EventSeen) → MayMove s (answer_to o s e) e }
{}
