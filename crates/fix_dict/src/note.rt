//! What is kept of each tag beside the tables, so that it is looked up in one step. `dictionary` makes it last,
//! and fix_validate asks it for each field.
ghost use Rattle.std.specs.Prelude.{◌≡◌, IfOk};
ghost use Rattle.fix_dict.specs.declared.noted.Role.TheVariants.{Absent};
ghost use Rattle.fix_dict.specs.Notes.{note_of, standing_of, is_any, is_own, is_in_group, AreNotes};

use crate::fields::Fields;
use crate::noted::{NotedLayout, Role};
use fix_base::Tag;
use fix_fields::{ValueKind, is_header_tag, is_trailer_tag};
use std::alloc::{AllocError, Global};

/// Notes of so many tags are kept, from 1 on: of all that FIX 4.4 has.
const MOST_NOTES: u32 = 1024;

/// Whether a tag is one of the header, or of the trailer.
#[derive(Clone, Copy)]
pub enum Standing {
    /// It isn't.
    Neither,
    /// By the standard alone.
    Standard,
    /// The dictionary's header, or its trailer, has it as a field of no group.
    Own,
    /// The dictionary's header, or its trailer, has it as the count of a group, or inside one.
    Grouped,
}

impl Standing {
    /// Whether the tag is one, by the standard or by the dictionary.
    pub fn is_any(self) -> bool
        ensures { result ≡ is_any self }
    {
        match self {
            Standing::Neither => false,
            Standing::Standard | Standing::Own | Standing::Grouped => true,
        }
    }

    /// Whether the dictionary has it there.
    pub fn is_own(self) -> bool
        ensures { result ≡ is_own self }
    {
        match self {
            Standing::Neither | Standing::Standard => false,
            Standing::Own | Standing::Grouped => true,
        }
    }

    /// Whether the dictionary has it there as the count of a group, or inside one.
    pub fn is_in_group(self) -> bool
        ensures { result ≡ is_in_group self }
    {
        match self {
            Standing::Neither | Standing::Standard | Standing::Own => false,
            Standing::Grouped => true,
        }
    }
}

/// What a dictionary says of a tag.
#[derive(Clone, Copy)]
pub struct TagNote {
    /// Whether it is one of the header.
    pub header: Standing,
    /// The kind of the field, where the dictionary names the tag.
    pub kind: Option<ValueKind>,
    /// Whether it is one of the trailer.
    pub trailer: Standing,
    /// The dictionary lists values for it.
    pub has_values: bool,
}

/// The notes of the first tags.
pub fn notes_of(
    alloc: Global,
    fields: &Fields,
    header: &NotedLayout,
    trailer: &NotedLayout,
) -> Result<Vec<TagNote>, AllocError>
    ensures { IfOk result (λ notes. AreNotes fields.now header.now trailer.now notes.items) }
{
    let mut notes = Vec::with_capacity(alloc, MOST_NOTES as usize)?;
    for i in 0..MOST_NOTES {
        let Some(tag) = Tag::new(i + 1) else {
            return Ok(notes);
        };
        notes.push(note_of(fields, header, trailer, tag))?;
    }
    Ok(notes)
}

/// The note of a tag, by the tables.
pub fn note_of(fields: &Fields, header: &NotedLayout, trailer: &NotedLayout, tag: Tag) -> TagNote
    ensures { result ≡ note_of fields.now header.now trailer.now tag }
{
    TagNote {
        header: standing_of(header.role(tag), is_header_tag(tag)),
        kind: fields.kind_of(tag),
        trailer: standing_of(trailer.role(tag), is_trailer_tag(tag)),
        has_values: fields.has_values(tag),
    }
}

fn standing_of(role: Role, standard: bool) -> Standing
    ensures { result ≡ standing_of role standard }
{
    match role {
        Role::Grouped => Standing::Grouped,
        Role::Plain => Standing::Own,
        Role::Absent => standing_by(standard),
    }
}

// Of a tag that the dictionary has neither in its header nor in its trailer.
fn standing_by(standard: bool) -> Standing
    ensures { result ≡ standing_of Absent standard }
{
    if standard {
        Standing::Standard
    } else {
        Standing::Neither
    }
}
