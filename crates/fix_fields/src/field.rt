//! Reads one field: `tag` reads its tag, and `value` its value. The loops over a list of fields call this,
//! here and in `fix_validate`.
ghost use Rattle.std.specs.Prelude.{◌≡◌, ◌↔◌, IsTrue, List, ℕ, MatchOption};
ghost use Rattle.fix_base.specs.Front.{Begins};
ghost use Rattle.fix_base.specs.Fields.{Field, IsField, data_after};
ghost use Rattle.fix_base.specs.Shape.{HasBodyFields, IsBodyField};
ghost use Rattle.fix_fields.specs.Lent.{field_of};

use crate::tag::{paired, tag_at};
use crate::value::{data_length, value_at};
use fix_base::Tag;

/// A field whose value is lent.
#[derive(Clone, Copy, Debug, PartialEq, Eq)]
pub struct FieldRef<'a> {
    pub tag: Tag,
    pub value: &'a [u8],
}

/// The field at the front, and the bytes after it. `due` is the tag and the length of the data
/// that the field before it speaks of.
pub fn field_at(bytes: &[u8], due: Option<(u32, usize)>) -> Option<(FieldRef<'_>, &[u8])>
    ensures { MatchOption result
        ((f : Field) (rest : List ℕ) → Begins (IsField due f) bytes.now rest → ⊥)
        (λ x. Begins (IsField due (field_of x.0)) bytes.now x.1.now) }
{
    let (number, rest) = tag_at(bytes)?;
    let (value, rest) = value_at(rest, number, due)?;
    let tag = Tag::new(number)?;
    Some((FieldRef { tag, value }, rest))
}

/// The tag and the length of the data that the field speaks of.
pub fn due_after(field: &FieldRef<'_>) -> Option<(u32, usize)>
    ensures { result ≡ data_after (field_of field.now) }
{
    let tag = paired(field.tag)?;
    let length = data_length(field.value)?;
    Some((tag, length))
}

/// Whether the tag is none of a frame's own: BeginString (8), BodyLength (9) and CheckSum (10).
pub fn is_body_field(field: &FieldRef<'_>) -> bool
    ensures { IsTrue result ↔ IsBodyField (field_of field.now) }
{
    let tag = field.tag.get();
    tag != 8 && tag != 9 && tag != 10
}

/// Whether the bytes are a list of fields with no tag of a frame's own.
pub fn is_body(body: &[u8]) -> bool
    ensures { IsTrue result ↔ HasBodyFields body.now }
{
    let mut rest = body;
    let mut due = None;
    while !rest.is_empty() {
        let Some((field, behind)) = field_at(rest, due) else {
            return false;
        };
        if !is_body_field(&field) {
            return false;
        }
        due = due_after(&field);
        rest = behind;
    }
    true
}
