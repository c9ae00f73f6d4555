//! What holds of groups and of their split, each law on a function that does nothing.
ghost use Rattle.std.specs.Prelude.{◌≡◌, ◌↔◌, ℕ, List, None};
ghost use Rattle.fix_base.specs.Fields.{Field, FieldsAfter};
ghost use Rattle.fix_base.specs.Says.{fields_text};
ghost use Rattle.fix_fields.specs.Shapes.{Shapes};
ghost use Rattle.fix_fields.specs.NoTwice.{HasNoTwice};
ghost use Rattle.fix_groups.specs.Tagged.{Tagged};
ghost use Rattle.fix_groups.specs.Misfits.{first_misfit};
ghost use Rattle.fix_groups.specs.Instances.{IsWhole};
ghost use Rattle.fix_groups.specs.Nodes.{Nodes};
ghost use Rattle.fix_groups.specs.Flat.{flat, plainly, HasPlainCounts};
ghost use Rattle.fix_groups.specs.Fits.{IsTreeOf};

/// Nothing is wrong with the groups of fields just where each group is of its instances, by cases
/// on the fields, and no member stands outside every run of its group.
pub fn no_misfit_is_whole()
    ensures { (root : Shapes) (fs : List Tagged) → HasNoTwice root → (first_misfit root fs ≡ None) ↔ IsWhole root fs }
{}

/// What was split is given back by `flatten`: the same fields in their order, counts of groups
/// without leading zeros.
pub fn a_split_is_given_back()
    ensures { (root : Shapes) (fs : List Field) (tree : Nodes) → IsTreeOf root fs tree → fields_text (flat tree)
        ≡ fields_text (plainly root fs) }
{}

/// Bytes whose fields' counts have no leading zeros are given back as they are.
pub fn plain_counts_are_given_back()
    ensures { (root : Shapes) (bytes : List ℕ) (fs : List Field) (tree : Nodes) → FieldsAfter None bytes fs
        → IsTreeOf root fs tree → HasPlainCounts root fs → fields_text (flat tree) ≡ bytes }
{}
