//! That a file's bytes decide which records it has, or where it is damaged. It is a law on a function that does
//! nothing.

// What follows from the format alone.
ghost use Rattle.std.specs.Prelude.{◌≡◌, List, ℕ};
ghost use Rattle.fix_journal.specs.Format.{HasRecords, IsDamagedAt};
ghost use Rattle.fix_journal.specs.Payloads.{payloads_in};

/// A file has one list of records, or one first place at which it breaks the format, and not both.
/// The list is a function of the file.
pub fn a_file_has_one_meaning()
    ensures records { (file : List ℕ) (ps qs : List (List ℕ)) → HasRecords file ps → HasRecords file qs → ps ≡ qs }
    ensures damage { (file : List ℕ) (ps : List (List ℕ)) (place : ℕ) → HasRecords file ps → IsDamagedAt file place
        → ⊥ }
    ensures computed { (file : List ℕ) (ps : List (List ℕ)) → HasRecords file ps → payloads_in file ≡ ps }
    ensures first { (file : List ℕ) (p q : ℕ) → IsDamagedAt file p → IsDamagedAt file q → p ≡ q }
{}
