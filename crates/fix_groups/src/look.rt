//! Looks tags up in a layout and in the groups inside it. `build`, `distinct`, `runs`, `whole` and fix_validate
//! call this.
ghost use Rattle.std.specs.Prelude.{◌≡◌, ◌∷◌, [], ◌||◌, ◌==◌};
ghost use Rattle.std.specs.Option.{option_copied};
ghost use Rattle.fix_fields.specs.Members.{shapes_of};
ghost use Rattle.fix_fields.specs.NoTwice.{has_tag};
ghost use Rattle.fix_groups.specs.Runs.{lead};
ghost use Rattle.fix_groups.specs.Tagged.{all_tagged};
ghost use Rattle.fix_groups.specs.Touched.{touches, touched, has_some, has_field};
ghost use Rattle.fix_groups.specs.Looked.{group_at, at_level, owner, is_in};

use crate::lent::Lent;
use fix_base::Tag;
use fix_fields::{Layout, Member};

/// Whether the tag is a member's, or one of a group inside.
pub fn has_tag(layout: &Layout, tag: Tag) -> bool
    ensures { result ≡ has_tag tag layout.now }
{
    for member in &layout.members {
        match member {
            Member::Plain { tag: own, .. } => {
                if tag == *own {
                    return true;
                }
            }
            Member::Group { count, inner, .. } => {
                if tag == *count || has_tag(inner, tag) {
                    return true;
                }
            }
        }
    }
    false
}

/// Whether a field counts the instances of a group among the members, or has a tag of a member
/// inside one.
pub fn is_touched(layout: &Layout, fields: &[Lent<'_>]) -> bool
    ensures { result ≡ touched layout.now (all_tagged fields.now) }
{
    for member in &layout.members {
        if let Member::Group { count, inner, .. } = member {
            if touches(*count, inner, fields) {
                return true;
            }
        }
    }
    false
}

/// The same of one group.
fn touches(count: Tag, inner: &Layout, fields: &[Lent<'_>]) -> bool
    ensures { result ≡ touches count inner.now (all_tagged fields.now) }
{
    // The fields are looked at for each tag of the group, since calls nest then by groups, and not by fields.
    if has_field(fields, count) {
        return true;
    }
    has_some(inner, fields)
}

/// Whether a field has a tag of the layout.
fn has_some(layout: &Layout, fields: &[Lent<'_>]) -> bool
    ensures { result ≡ has_some layout.now (all_tagged fields.now) }
{
    for member in &layout.members {
        match member {
            Member::Plain { tag, .. } => {
                if has_field(fields, *tag) {
                    return true;
                }
            }
            Member::Group { count, inner, .. } => {
                if has_field(fields, *count) || has_some(inner, fields) {
                    return true;
                }
            }
        }
    }
    false
}

fn has_field(fields: &[Lent<'_>], tag: Tag) -> bool
    ensures { result ≡ has_field tag (all_tagged fields.now) }
{
    for field in fields {
        if field.tag() == tag {
            return true;
        }
    }
    false
}

/// The members of the group whose count has the tag, however deep it stands.
pub fn group_at(layout: &Layout, tag: Tag) -> Option<&Layout>
    ensures { option_copied result ≡ group_at tag layout.now }
{
    for member in &layout.members {
        if let Member::Group { count, inner, .. } = member {
            if tag == *count {
                return Some(inner);
            }
            if let Some(found) = group_at(inner, tag) {
                return Some(found);
            }
        }
    }
    None
}

/// The tag of a member, or of its count.
pub fn tag_of(member: &Member) -> Tag
    ensures { result ≡ lead (shapes_of (member.now ∷ [])) }
{
    match member {
        Member::Plain { tag, .. } => *tag,
        Member::Group { count, .. } => *count,
    }
}

/// Whether the tag is a member's at this level.
pub fn at_level(members: &[Member], tag: Tag) -> bool
    ensures { result ≡ at_level tag (shapes_of members.now) }
{
    for member in members {
        if tag == tag_of(member) {
            return true;
        }
    }
    false
}

/// The count of the group that has the tag as a member.
pub fn owner(layout: &Layout, tag: Tag) -> Option<Tag>
    ensures { result ≡ owner tag layout.now }
{
    for member in &layout.members {
        if let Member::Group { count, inner, .. } = member {
            if at_level(&inner.members, tag) {
                return Some(*count);
            }
            if let Some(found) = owner(inner, tag) {
                return Some(found);
            }
        }
    }
    None
}

/// Whether the tag is one of the group whose count is `count`, or of a group inside it.
pub fn is_in(layout: &Layout, count: Tag, tag: Tag) -> bool
    ensures { result ≡ is_in layout.now count tag }
{
    match group_at(layout, count) {
        Some(group) => has_tag(group, tag),
        None => false,
    }
}
