//! What the definitions of this crate come to. Each function does nothing: its contract is a law.
ghost use Rattle.std.specs.Prelude.{◌≡◌, ◌≤◌, ◌-◌, ◌↔◌, ℕ, suc, List, Bool, length, slice_range};
ghost use Rattle.fix_base.specs.declared.entry.Entry.{Entry};
ghost use Rattle.fix_resend.specs.Cut.{Out, IsCut, cut_from, coming_again, resend_list};
ghost use Rattle.fix_base.specs.End.{End};
ghost use Rattle.fix_resend.specs.Allowed.{AreAllowed};
ghost use Rattle.fix_resend.specs.Walks.{WalkSeen, Walked, begun};

/// Each message that comes again has one repeat, each of the longest runs of others one gap fill, in order, and
/// nothing else goes out.
pub fn a_resend_list_in_plain_words()
    ensures { (n : ℕ) (apps : List Bool) (outs : List Out) → (outs ≡ cut_from n apps) ↔ IsCut n apps outs }
{}

/// The resend list of an end is that of the truth values of all its entries: whether each is a message of an
/// application that isn't withheld.
pub fn a_resend_list_is_of_truth_values()
    ensures { (out : List Entry) (withheld : List ℕ) (a b : ℕ) → 1 ≤ a → resend_list out withheld a b
        ≡ cut_from a (slice_range (coming_again withheld 1 out) (a - 1) b) }
{}

/// A walk from one number to another that is given each number's truth value, in order, gives the resend list.
pub fn a_walk_gives_the_resend_list()
    ensures { (from to : ℕ) (apps : List Bool) (outs : List Out) (end : WalkSeen) → from ≤ to → length apps
        ≡ suc to - from → Walked (begun from to) apps outs end → (outs ≡ cut_from from apps) × (end.at ≡ suc to) }
{}

/// What an end may send: each repeat is of a message that may come again, and each gap fill passes only over
/// entries that aren't messages of an application, or are withheld.
pub fn a_resend_list_is_lawful()
    ensures { (e : End) (a b : ℕ) → 1 ≤ a → a ≤ suc (length e.out) → AreAllowed e (resend_list e.out e.withheld a b) }
{}
