//! Whether bytes may be kept as the body of an application message. `fix_store` asks this of each body
//! that it reads from a journal.
ghost use Rattle.std.specs.Prelude.{◌↔◌, None, IsTrue};
ghost use Rattle.fix_base.specs.Payload.{IsEntryField};
ghost use Rattle.fix_fields.specs.Bodies.{IsEntryBody, HasEntryFields, IsTypeField};
ghost use Rattle.fix_fields.specs.Lent.{field_of};

use crate::judging::is_app_type;
use crate::reading::is_session_field;
use crate::{FieldRef, due_after, field_at, is_body_field};
use fix_base::tags::MSG_TYPE;

/// Whether the bytes may be kept as the body of an application message: a list of fields, of which
/// the first is a MsgType (35) that is neither empty nor administrative, and none of the others has
/// its tag, one of a frame's own, or one of the header that the engine writes. It reads the bytes
/// once.
pub fn is_entry_body(body: &[u8]) -> bool
    ensures { IsTrue result ↔ IsEntryBody body.now }
{
    let Some((first, rest)) = field_at(body, None) else {
        return false;
    };
    is_type_field(&first) && are_entry_fields(rest)
}

// Whether the field is a MsgType (35) of an application message.
fn is_type_field(field: &FieldRef<'_>) -> bool
    ensures { IsTrue result ↔ IsTypeField (field_of field.now) }
{
    if field.tag.get() != MSG_TYPE {
        return false;
    }
    if field.value.is_empty() {
        return false;
    }
    is_app_type(field.value)
}

// Whether the field may stand after the MsgType (35).
fn is_entry_field(field: &FieldRef<'_>) -> bool
    ensures { IsTrue result ↔ IsEntryField (field_of field.now) }
{
    if !is_body_field(field) {
        return false;
    }
    if field.tag.get() == MSG_TYPE {
        return false;
    }
    !is_session_field(field)
}

// Whether the bytes are fields that may stand after the MsgType (35).
fn are_entry_fields(bytes: &[u8]) -> bool
    ensures { IsTrue result ↔ HasEntryFields None bytes.now }
{
    let mut rest = bytes;
    let mut due = None;
    while !rest.is_empty() {
        let Some((field, behind)) = field_at(rest, due) else {
            return false;
        };
        if !is_entry_field(&field) {
            return false;
        }
        due = due_after(&field);
        rest = behind;
    }
    true
}
