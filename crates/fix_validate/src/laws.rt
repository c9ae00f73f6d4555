//! What holds of every check, each law on a function that does nothing.
ghost use Rattle.std.specs.Prelude.{◌≡◌, ℕ, Bool, List, Option};
ghost use Rattle.fix_base.specs.Fields.{Field};
ghost use Rattle.fix_base.specs.declared.fault.Fault.{Fault};
ghost use Rattle.fix_dict.specs.Dictionary.{DictionarySeen};
ghost use Rattle.fix_validate.specs.Rows.{AreFaults, first, Finds};
ghost use Rattle.fix_validate.specs.Checks.{rows, Checks};

/// What a check tells is the first of the list of all faults: those of the rows of the table that
/// hold, in their order.
pub fn the_first_of_all_faults_is_told()
    ensures { (dictionary : DictionarySeen) (order : Bool) (fields : List Field) (faults : List Fault) (answer : Option Fault)
        → AreFaults (rows dictionary order fields) faults → Finds (rows dictionary order fields) answer → answer ≡ first faults }
{}

/// A frame is checked in one way: it has one list of fields, and one first fault.
pub fn a_check_has_one_answer()
    ensures { (dictionary : DictionarySeen) (order : Bool) (frame : List ℕ) (one other : Option Fault) → Checks dictionary order frame one
        → Checks dictionary order frame other → one ≡ other }
{}
