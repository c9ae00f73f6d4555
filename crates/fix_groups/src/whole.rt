//! Header, message and trailer as one layout, without a copy. `misfits` and fix_validate look tags up in it.
ghost use Rattle.std.specs.Prelude.{◌≡◌};
ghost use Rattle.std.specs.Option.{option_copied};
ghost use Rattle.fix_fields.specs.NoTwice.{has_tag};
ghost use Rattle.fix_groups.specs.Joined.{joined};
ghost use Rattle.fix_groups.specs.Looked.{group_at, owner, is_in};
ghost use Rattle.fix_groups.specs.Tagged.{all_tagged};
ghost use Rattle.fix_groups.specs.Touched.{touched};

use crate::lent::Lent;
use crate::look::{group_at, has_tag, is_touched, owner};
use fix_base::Tag;
use fix_fields::Layout;
use std::marker::Model;

/// The layout of a whole message: its header, its own members and its trailer. Contracts see it as
/// one layout, the three one after another.
#[derive(Drop)]
pub struct Whole<'a> {
    header: &'a Layout,
    message: &'a Layout,
    trailer: &'a Layout,
}

impl<'a> Model for Whole<'a> {
    ghost use Rattle.fix_fields.specs.Shapes.{Shapes, shapes_code};
    ghost use Rattle.fix_groups.specs.Joined as whole;

    ghost Value = { Shapes };

    ghost coded = { shapes_code };

    ghost view = { λ w. whole.joined w.header.now (whole.joined w.message.now w.trailer.now) };
}

impl<'a> Whole<'a> {
    pub fn new(header: &'a Layout, message: &'a Layout, trailer: &'a Layout) -> Whole<'a>
        ensures { result ≡ joined header.now (joined message.now trailer.now) }
    {
        Whole {
            header,
            message,
            trailer,
        }
    }

    /// Whether the tag is a member's, or one of a group inside.
    pub fn has_tag(&self, tag: Tag) -> bool
        ensures { result ≡ has_tag tag self.now }
    {
        if has_tag(self.header, tag) {
            return true;
        }
        if has_tag(self.message, tag) {
            return true;
        }
        has_tag(self.trailer, tag)
    }

    /// Whether a field counts the instances of a group, or has a tag of a member inside one.
    pub fn is_touched(&self, fields: &[Lent<'_>]) -> bool
        ensures { result ≡ touched self.now (all_tagged fields.now) }
    {
        if is_touched(self.header, fields) {
            return true;
        }
        if is_touched(self.message, fields) {
            return true;
        }
        is_touched(self.trailer, fields)
    }

    /// The members of the group whose count has the tag, however deep it stands.
    pub fn group_at(&self, tag: Tag) -> Option<&Layout>
        ensures { option_copied result ≡ group_at tag self.now }
    {
        if let Some(group) = group_at(self.header, tag) {
            return Some(group);
        }
        if let Some(group) = group_at(self.message, tag) {
            return Some(group);
        }
        group_at(self.trailer, tag)
    }

    /// The count of the group that has the tag as a member.
    pub fn owner(&self, tag: Tag) -> Option<Tag>
        ensures { result ≡ owner tag self.now }
    {
        if let Some(count) = owner(self.header, tag) {
            return Some(count);
        }
        if let Some(count) = owner(self.message, tag) {
            return Some(count);
        }
        owner(self.trailer, tag)
    }

    /// Whether the tag is one of the group whose count is `count`, or of a group inside it.
    pub fn is_in(&self, count: Tag, tag: Tag) -> bool
        ensures { result ≡ is_in self.now count tag }
    {
        match self.group_at(count) {
            Some(group) => has_tag(group, tag),
            None => false,
        }
    }
}
