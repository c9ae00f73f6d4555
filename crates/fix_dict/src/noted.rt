//! A layout with what is kept of its tags beside it, so that each is looked up in one step. `messages` and
//! `dictionary` keep these, and fix_validate asks them for each field.
ghost use Rattle.std.specs.Prelude.{◌≡◌, ◌++◌, IfOk, OnOk};
ghost use Rattle.fix_fields.specs.Members.{shapes_of};
ghost use Rattle.fix_dict.specs.Roles.{is_grouped, role_by, role_of, is_known, is_of_group, AreRoles};
ghost use Rattle.fix_dict.specs.Roles.{required_one, required_tags};

use fix_base::Tag;
use fix_fields::{Layout, Member};
use fix_groups::has_tag;
use std::alloc::{AllocError, Global};
use std::marker::Model;

/// The roles of so many tags are kept, from 1 on: of all that FIX 4.4 has.
const MOST_ROLES: u32 = 1024;

/// What a tag is in a layout.
#[derive(Clone, Copy)]
pub enum Role {
    /// It isn't there.
    Absent,
    /// A field of the layout, and of no group inside it.
    Plain,
    /// The count of a group, or a field inside one.
    Grouped,
}

impl Role {
    /// Whether the layout has the tag.
    pub fn is_known(self) -> bool
        ensures { result ≡ is_known self }
    {
        match self {
            Role::Absent => false,
            Role::Plain | Role::Grouped => true,
        }
    }

    /// Whether the tag is the count of a group, or of a field inside one.
    pub fn is_grouped(self) -> bool
        ensures { result ≡ is_of_group self }
    {
        match self {
            Role::Absent | Role::Plain => false,
            Role::Grouped => true,
        }
    }
}

/// The layout of a message, of the header or of the trailer, with the role of each tag, and the tags that
/// it requires. Contracts see it as the layout.
#[derive(Drop)]
pub struct NotedLayout {
    layout: Layout,
    roles: Vec<Role>,
    required: Vec<Tag>,
}

impl Model for NotedLayout {
    ghost use Rattle.std.specs.Prelude.{◌≡◌};
    ghost use Rattle.fix_fields.specs.Shapes.{Shapes, shapes_code};
    ghost use Rattle.fix_dict.specs.Roles.{AreRoles, required_tags};

    ghost Value = { Shapes };

    ghost coded = { shapes_code };

    ghost view = { λ n. n.layout };

    ghost invariant = { λ n. AreRoles n.layout n.roles.items × (n.required.items ≡ required_tags n.layout) };
}

impl NotedLayout {
    /// Each tag up to 1,024 is looked up among the members.
    pub fn new(alloc: Global, layout: Layout) -> Result<NotedLayout, AllocError>
        ensures { IfOk result (λ noted. noted ≡ layout) }
    {
        let roles = roles_of(alloc, &layout)?;
        let required = required_of(alloc, &layout)?;
        Ok(NotedLayout {
            layout,
            roles,
            required,
        })
    }

    /// The layout alone.
    pub fn layout(&self) -> &Layout
        ensures { result.now ≡ self.now }
    {
        &self.layout
    }

    /// What the tag is in the layout. Of tags up to 1,024 it costs one step, and else the members are gone
    /// through.
    pub fn role(&self, tag: Tag) -> Role
        ensures { result ≡ role_of self.now tag }
    {
        let place = (tag.get() - 1) as usize;
        if place < self.roles.len() {
            return self.roles[place];
        }
        role_of(&self.layout, tag)
    }

    /// The tags that the layout requires itself, counts of groups among them, in its order.
    pub fn required(&self) -> &[Tag]
        ensures { result.now ≡ required_tags self.now }
    {
        self.required.as_slice()
    }
}

// The roles of the first tags.
fn roles_of(alloc: Global, layout: &Layout) -> Result<Vec<Role>, AllocError>
    ensures { IfOk result (λ roles. AreRoles layout.now roles.items) }
{
    let mut roles = Vec::with_capacity(alloc, MOST_ROLES as usize)?;
    for i in 0..MOST_ROLES {
        let Some(tag) = Tag::new(i + 1) else {
            return Ok(roles);
        };
        roles.push(role_of(layout, tag))?;
    }
    Ok(roles)
}

fn role_of(layout: &Layout, tag: Tag) -> Role
    ensures { result ≡ role_of layout.now tag }
{
    role_by(is_grouped(layout, tag), has_tag(layout, tag))
}

fn role_by(grouped: bool, known: bool) -> Role
    ensures { result ≡ role_by grouped known }
{
    if grouped {
        return Role::Grouped;
    }
    if known {
        return Role::Plain;
    }
    Role::Absent
}

/// Whether the tag is the count of a group, or of a field inside one.
pub fn is_grouped(layout: &Layout, tag: Tag) -> bool
    ensures { result ≡ is_grouped tag layout.now }
{
    for member in &layout.members {
        if let Member::Group { count, inner, .. } = member {
            if tag == *count || has_tag(inner, tag) {
                return true;
            }
        }
    }
    false
}

// The tags that a layout requires.
fn required_of(alloc: Global, layout: &Layout) -> Result<Vec<Tag>, AllocError>
    ensures { IfOk result (λ tags. tags.items ≡ required_tags layout.now) }
{
    let mut tags = Vec::new(alloc);
    for member in &layout.members {
        match member {
            Member::Plain { tag, required } => push_required(&mut tags, *tag, *required)?,
            Member::Group {
                count,
                required,
                ..
            } => push_required(&mut tags, *count, *required)?,
        }
    }
    Ok(tags)
}

fn push_required(tags: &mut Vec<Tag>, tag: Tag, required: bool) -> Result<(), AllocError>
    ensures { OnOk result (tags.new.items ≡ tags.old.items ++ required_one tag required) }
{
    if required {
        tags.push(tag)?;
    }
    Ok(())
}
