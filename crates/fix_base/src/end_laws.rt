//! What holds of every end of a session, each law on a function that does nothing.
ghost use Rattle.std.specs.Prelude.{◌≡◌, ◌⊎◌, ◌<◌, ◌++◌, ◌↔◌, ℕ, List};
ghost use Rattle.fix_base.specs.Lists.{Among};
ghost use Rattle.fix_base.specs.Session.{Identity};
ghost use Rattle.fix_base.specs.End.{Record, End, folded_all, app_entries, IsAppAt};
ghost use Rattle.fix_base.specs.Act.{Act};
ghost use Rattle.fix_base.specs.EndStep.{Handling, EndState, EndRun, RunsSomewhere};
ghost use Rattle.fix_base.specs.Agrees.{Agrees, AgreesInPlainWords, IsPrefixLess, ComesInOrder, fresh};

/// What an end has done up to any moment is a lawful run too, whatever it does later.
pub fn a_front_of_a_run_is_a_run()
    ensures { (id : Identity) (s s' : EndState) (xs ys : List Act) → EndRun id s (xs ++ ys) s' → RunsSomewhere id s xs }
{}

/// A journal that is read in two parts gives the same message store as one that is read whole.
pub fn records_fold_in_order()
    ensures { (e : End) (xs ys : List Record) → folded_all e (xs ++ ys) ≡ folded_all (folded_all e xs) ys }
{}

/// Agreement of two ends, in plain words: what the one handled, each MsgSeqNum (34) once, has rising
/// numbers, and each is one of the application messages that the other stored with numbers below the
/// expected one, or up to the greatest that was handled where that is more, with its body. Each of
/// these that was not handled is withheld.
pub fn agreement_in_plain_words()
    ensures { (expected : ℕ) (handled : List Handling) (f : End) → Agrees expected handled f
        ↔ AgreesInPlainWords expected handled f }
{}

/// Where two ends agree, what was handed over or rejected, repeats removed, is a prefix of what
/// the other end stored, with equal bodies, less only messages that it withholds: nothing else was
/// lost, and nothing made up or put out of order.
pub fn what_was_handled_is_a_prefix()
    ensures { (expected : ℕ) (handled : List Handling) (f : End) → Agrees expected handled f
        → IsPrefixLess f.withheld (fresh handled) (app_entries f.out) }
{}

/// Where two ends agree, each application message that the other end stored under a number below
/// the expected one was handed over or rejected, with the body that was stored, or is withheld: none
/// was passed over.
pub fn no_message_is_passed_over()
    ensures { (expected : ℕ) (handled : List Handling) (f : End) (n : ℕ) (body : List ℕ) → Agrees expected handled f
        → IsAppAt f.out n body → n < expected → Among (record { number = n; body = body }) (fresh handled)
        ⊎ Among n f.withheld }
{}

/// Where two ends agree, a message that came for its first time came with a number above all that had
/// come before: one that was withheld never comes after a later one.
pub fn no_message_comes_late()
    ensures { (expected : ℕ) (handled : List Handling) (f : End) → Agrees expected handled f → ComesInOrder handled }
{}
