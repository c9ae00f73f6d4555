//! What follows from the spelling of records alone.
ghost use Rattle.std.specs.Prelude.{◌≡◌, List, ℕ};
ghost use Rattle.fix_base.specs.End.{End};
ghost use Rattle.fix_store.specs.Spelling.{Item};
ghost use Rattle.fix_store.specs.Reading.{IsStoreOf, HasEnd, IsBrokenAt};
ghost use Rattle.fix_store.specs.Ends.{end_in};

/// A file has one list of records and one end, or one first place at which it breaks, and not both.
/// The end is a function of the file.
pub fn a_stored_file_has_one_end()
    ensures records { (file : List ℕ) (xs ys : List Item) → IsStoreOf file xs → IsStoreOf file ys → xs ≡ ys }
    ensures ends { (file : List ℕ) (e f : End) → HasEnd file e → HasEnd file f → e ≡ f }
    ensures damage { (file : List ℕ) (e : End) (place : ℕ) → HasEnd file e → IsBrokenAt file place → ⊥ }
    ensures first { (file : List ℕ) (p q : ℕ) → IsBrokenAt file p → IsBrokenAt file q → p ≡ q }
    ensures computed { (file : List ℕ) (e : End) → HasEnd file e → end_in file ≡ e }
{}
