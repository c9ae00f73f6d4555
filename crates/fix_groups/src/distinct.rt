//! Whether `split` may be called with a layout. Who splits asks this before.
ghost use Rattle.std.specs.Prelude.{◌≡◌, ◌↔◌, IsTrue};
ghost use Rattle.fix_fields.specs.Members.{shapes_of};
ghost use Rattle.fix_fields.specs.NoTwice.{has_tag, HasNoTwice};
ghost use Rattle.fix_groups.specs.Distinct.{shares_a_tag, begins_plain, has_distinct_tags};

use crate::look::has_tag;
use fix_base::Tag;
use fix_fields::{Layout, Member};

fn stands_in(members: &[Member], tag: Tag) -> bool
    ensures { result ≡ has_tag tag (shapes_of members.now) }
{
    for member in members {
        match member {
            Member::Plain { tag: own, .. } => {
                if tag == *own {
                    return true;
                }
            }
            Member::Group { count, inner, .. } => {
                if tag == *count || has_tag(inner, tag) {
                    return true;
                }
            }
        }
    }
    false
}

// Whether a tag of the layout stands among the members.
fn shares_a_tag(layout: &Layout, members: &[Member]) -> bool
    ensures { result ≡ shares_a_tag layout.now (shapes_of members.now) }
{
    for member in &layout.members {
        match member {
            Member::Plain { tag, .. } => {
                if stands_in(members, *tag) {
                    return true;
                }
            }
            Member::Group { count, inner, .. } => {
                if stands_in(members, *count) || shares_a_tag(inner, members) {
                    return true;
                }
            }
        }
    }
    false
}

fn begins_plain(layout: &Layout) -> bool
    ensures { result ≡ begins_plain layout.now }
{
    match layout.members.first() {
        Some(Member::Plain { .. }) => true,
        Some(Member::Group { .. }) => false,
        None => false,
    }
}

fn has_distinct_tags(layout: &Layout) -> bool
    ensures { result ≡ has_distinct_tags layout.now }
{
    let members: &[Member] = &layout.members;
    for i in 0..members.len() {
        let behind = &members[i + 1..];
        match &members[i] {
            Member::Plain { tag, .. } => {
                if stands_in(behind, *tag) {
                    return false;
                }
            }
            Member::Group { count, inner, .. } => {
                if has_tag(inner, *count) {
                    return false;
                }
                if stands_in(behind, *count) {
                    return false;
                }
                if shares_a_tag(inner, behind) {
                    return false;
                }
                if !begins_plain(inner) {
                    return false;
                }
                if !has_distinct_tags(inner) {
                    return false;
                }
            }
        }
    }
    true
}

/// Whether no tag stands twice in the layout, groups included, and each group begins with a plain
/// field: what `split` needs of it. It compares each tag with those after it.
pub fn has_no_twice(layout: &Layout) -> bool
    ensures { IsTrue result ↔ HasNoTwice layout.now }
{
    has_distinct_tags(layout)
}
