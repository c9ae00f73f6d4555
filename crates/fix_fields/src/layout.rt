//! Which fields and repeating groups a message has. `fix_dict` builds this, and `fix_groups` and
//! `fix_validate` read messages by it.
use fix_base::Tag;
use std::marker::Model;

/// The fields of a message, of a header or of a group, in order: the form that a dictionary gives
/// it. Contracts see it as the list of its members (`Shapes`), with those of the groups inside.
#[cycle(layout)]
#[derive(Drop)]
pub struct Layout {
    pub members: Vec<Member>,
}

/// A field of a layout, or a repeating group (FIX, "Repeating Groups").
#[cycle(layout)]
#[derive(Drop)]
pub enum Member {
    /// A field with this tag.
    Plain {
        tag: Tag,
        required: bool,
    },
    /// A group: `count` is the tag of its NumInGroup field, and each of its instances is of the
    /// layout `inner`, beginning with its first member.
    Group {
        count: Tag,
        required: bool,
        inner: Layout,
    },
}

impl Model for Layout {
    ghost use Rattle.fix_fields.specs.Shapes.{Shapes, shapes_size, shapes_code};

    ghost Value = { Shapes };

    ghost coded = { shapes_code };

    ghost use Rattle.fix_fields.specs.Members.{shapes_of};

    ghost view = { λ a. shapes_of a.members.items };

    ghost size = { shapes_size };

    ghost use Rattle.fix_fields.specs.Falls.{layout_falls};

    ghost size_decreases = { λ a h. layout_falls a.members.items };
}
