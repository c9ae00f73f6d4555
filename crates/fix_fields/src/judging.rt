//! Why a MsgType (35) or a field makes no draft. `draft` calls this before it writes the fields.
ghost use Rattle.std.specs.Prelude.{◌≡◌, ◌↔◌, [], ◌&&◌, ◌||◌, not, if◌then◌else◌, Some, None, IsTrue, map, MatchOption};
ghost use Rattle.fix_fields.specs.declared.judging.DraftFault.TheVariants.{LengthMismatch};
ghost use Rattle.fix_base.specs.Payload.{IsAppType};
ghost use Rattle.fix_base.specs.Tags as tags;
ghost use Rattle.fix_fields.specs.Lent.{field_of};
ghost use Rattle.fix_fields.specs.Drafts as drafts;
ghost use Rattle.fix_fields.specs.Drafts.{AreAccepted, IsRefused, IsDraftKind, refusal_of};
ghost use Rattle.fix_fields.specs.Drafted.{given};

use crate::draft_fields::GivenField;
use crate::scanning::soh_at;
use crate::{FieldRef, due_after, is_data_tag, is_engine_tag, is_header_tag};
use fix_base::{SOH, Tag, is_admin_type};

/// The most bytes of a MsgType (35).
const MOST_KIND_BYTES: usize = 8;

/// Why fields make no draft. The kind is looked at first, then field by field in this order, then
/// the whole.
#[derive(Clone, Copy, Debug, PartialEq, Eq)]
pub enum DraftFault {
    /// MsgType (35) is empty, longer than eight bytes, has an SOH, or is administrative.
    BadKind,
    /// Only the engine writes this tag.
    ReservedTag(Tag),
    /// A tag of the header stands after a field that isn't of the header.
    HeaderOrder(Tag),
    /// The value is empty.
    EmptyValue(Tag),
    /// The value has an SOH, and the tag is none of data.
    SohInValue(Tag),
    /// The tag is one of data, and the field right before it isn't its length tag with the number
    /// of its bytes in one to seven digits.
    LengthMismatch(Tag),
    /// The body would pass 1,048,064 bytes.
    TooLarge,
    /// Out of memory.
    OutOfMemory,
}

/// Whether a message of an application may have this MsgType (35).
pub fn is_draft_kind(kind: &[u8]) -> bool
    ensures { IsTrue result ↔ IsDraftKind kind.now }
{
    if kind.is_empty() {
        return false;
    }
    if kind.len() > MOST_KIND_BYTES {
        return false;
    }
    if soh_at(kind).is_some() {
        return false;
    }
    is_app_type(kind)
}

// Whether the MsgType (35) is none of an administrative message.
pub(crate) fn is_app_type(kind: &[u8]) -> bool
    ensures { IsTrue result ↔ IsAppType kind.now }
{
    !is_admin_type(kind)
}

/// The first field that is refused.
pub fn first_refused(fields: &[GivenField]) -> Option<DraftFault>
    ensures { MatchOption result
        (AreAccepted [] (map given fields.now))
        (λ fault. IsRefused (map given fields.now) fault) }
{
    let mut due = None;
    let mut late = false;
    for item in fields {
        let field = FieldRef {
            tag: item.tag,
            value: item.value.as_slice(),
        };
        if let Some(fault) = refused(&field, due, late) {
            return Some(fault);
        }
        due = due_after(&field);
        late = is_late(late, item.tag);
    }
    None
}

// Why the field is refused: `due` is the data that the field before it announces, and `late` says
// that a field which isn't of the header stands before it.
fn refused(field: &FieldRef<'_>, due: Option<(u32, usize)>, late: bool) -> Option<DraftFault>
    ensures { result ≡ refusal_of due late (field_of field.now) }
{
    let tag = field.tag;
    if is_engine_tag(tag) {
        return Some(DraftFault::ReservedTag(tag));
    }
    if is_misplaced(tag, late) {
        return Some(DraftFault::HeaderOrder(tag));
    }
    if field.value.is_empty() {
        return Some(DraftFault::EmptyValue(tag));
    }
    if is_data_tag(tag) {
        return mismatch(field, due);
    }
    if has_soh(field.value) {
        return Some(DraftFault::SohInValue(tag));
    }
    None
}

// Whether a tag of the header stands after a field that isn't of the header.
fn is_misplaced(tag: Tag, late: bool) -> bool
    ensures { result ≡ (tags.is_header_tag tag && late) }
{
    is_header_tag(tag) && late
}

// Whether a field which isn't of the header stands there with one more tag.
fn is_late(late: bool, tag: Tag) -> bool
    ensures { result ≡ (late || not (tags.is_header_tag tag)) }
{
    late || !is_header_tag(tag)
}

// Data that the field before it doesn't announce.
fn mismatch(field: &FieldRef<'_>, due: Option<(u32, usize)>) -> Option<DraftFault>
    ensures { result
        ≡ (if drafts.is_due due (field_of field.now) then None else Some (LengthMismatch (field_of field.now).tag)) }
{
    if is_due(field, due) {
        None
    } else {
        Some(DraftFault::LengthMismatch(field.tag))
    }
}

fn is_due(field: &FieldRef<'_>, due: Option<(u32, usize)>) -> bool
    ensures { result ≡ drafts.is_due due (field_of field.now) }
{
    match due {
        Some((tag, length)) => field.tag.get() == tag && field.value.len() == length,
        None => false,
    }
}

fn has_soh(value: &[u8]) -> bool
    ensures { result ≡ drafts.has_soh value.now }
{
    value.iter().any(|b| *b == SOH)
}
