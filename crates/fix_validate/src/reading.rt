//! Reads the fields of a frame into a list, and looks tags up in it. `checking` and `again` call this.
ghost use Rattle.std.specs.Prelude.{◌≡◌, None, List, IfOk, option_map};
ghost use Rattle.fix_base.specs.Fields.{Field, FieldsAfter};
ghost use Rattle.fix_base.specs.Says.{value_of};
ghost use Rattle.fix_fields.specs.Lent.{field_of};
ghost use Rattle.fix_validate.specs.Table.{has_field};

use fix_base::Tag;
use fix_fields::{FieldRef, due_after, field_at};
use fix_groups::Lent;
use std::alloc::{AllocError, Global};

/// So many bytes a field has at the least, on average: room for the fields is made for that.
const BYTES_A_FIELD: usize = 8;

/// The fields of the bytes, each read once.
pub fn collect<'a>(alloc: Global, bytes: &'a [u8]) -> Result<Vec<Lent<'a>>, AllocError>
    ensures { IfOk result (λ all. (fs : List Field) → FieldsAfter None bytes.now fs → all.items ≡ fs) }
{
    let mut all = Vec::with_capacity(alloc, bytes.len() / BYTES_A_FIELD)?;
    let mut rest = bytes;
    let mut due = None;
    while !rest.is_empty() {
        let Some((field, behind)) = field_at(rest, due) else {
            return Ok(all);
        };
        due = due_after(&field);
        rest = behind;
        all.push(lent(&field))?;
    }
    Ok(all)
}

// The field in the list's form. The value is cut anew, so that its place and its length are read apart, as they
// were written: as one they would be waited for.
fn lent<'a>(field: &FieldRef<'a>) -> Lent<'a>
    ensures { result ≡ field_of field.now }
{
    let value = field.value;
    Lent::new(FieldRef {
        tag: field.tag,
        value: &value[..value.len()],
    })
}

/// The value of the first field with the tag.
pub fn value_of<'a>(fields: &'a [Lent<'_>], tag: u32) -> Option<&'a [u8]>
    ensures { option_map (λ v. v.now) result ≡ value_of tag fields.now }
{
    for field in fields {
        if field.tag().get() == tag {
            return Some(field.value());
        }
    }
    None
}

/// Whether a field has the tag.
pub fn has_field(fields: &[Lent<'_>], tag: Tag) -> bool
    ensures { result ≡ has_field tag fields.now }
{
    for field in fields {
        if field.tag() == tag {
            return true;
        }
    }
    false
}
