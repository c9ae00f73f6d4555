//! Judges each field by its tag, its place and its value. `checking` calls this before the groups are judged.
ghost use Rattle.std.specs.Prelude.{◌≡◌, ◌||◌, ◌&&◌, not, [], nat_lt, ◌↔◌, IsTrue, is_some, IfOk, IfErr, Some, None};
ghost use Rattle.fix_fields.specs.NoTwice.{has_tag};
ghost use Rattle.fix_dict.specs.Dictionary.{kind_of, note_in};
ghost use Rattle.fix_dict.specs.Allowed.{allows};
ghost use Rattle.fix_validate.specs.Rows.{Finds, fault_at};
ghost use Rattle.fix_validate.specs.Table.{field_rows_by, fields_rows, IsNoValueOf};
ghost use Rattle.fix_groups.specs.Tagged.{all_tagged};
ghost use Rattle.fix_groups.specs.Touched.{touched};
ghost use Rattle.fix_dict.specs.Roles.{role_of};
ghost use Rattle.fix_validate.specs.Index.{AreSeats, IsIndexOf};
ghost use Rattle.fix_validate.specs.Table.{is_touching};
ghost use Rattle.fix_validate.specs.Checks.{whole};

use crate::again::appears_again;
use fix_base::{Fault, Tag};
use fix_dict::{Dictionary, NotedLayout, Role, TagNote};
use fix_fields::{ValueKind, is_kind};
use fix_groups::{Lent, Whole};

/// Tags from here on are agreed on between counterparties.
const FIRST_USER_TAG: u32 = 5000;

/// The first fault of a field, in the order of the fields; where no field has one, whether a field counts the
/// instances of a group, or has a tag of one inside. `root` is the message's layout with those of header and
/// trailer.
pub fn fields_fault(
    dict: &Dictionary,
    message: &NotedLayout,
    root: &Whole<'_>,
    order: bool,
    fields: &[Lent<'_>],
    seats: &[u8; 256],
    index: &[u128],
) -> Result<bool, Fault>
    requires root { root.now ≡ whole dict.now message.now }
    requires seats { AreSeats fields.now seats.now }
    requires index { IsIndexOf fields.now index.now }
    ensures none { IfOk result
        (λ _. Finds (fields_rows dict.now (whole dict.now message.now) order [] fields.now) None) }
    ensures touched { IfOk result (λ t. t ≡ touched (whole dict.now message.now) (all_tagged fields.now)) }
    ensures fault { IfErr result
        (λ f. Finds (fields_rows dict.now (whole dict.now message.now) order [] fields.now) (Some f)) }
{
    let mut left_header = false;
    let mut in_trailer = false;
    let mut touched = false;
    for i in 0..fields.len() {
        let field = &fields[i];
        let tag = field.tag();
        let note = dict.note(tag);
        let role = message.role(tag);
        let again = appears_again(root, fields, seats, index, i, tag);
        let of_header = note.header.is_any();
        let of_trailer = note.trailer.is_any();
        let misplaced = is_misplaced(of_header, of_trailer, left_header, in_trailer);
        if let Some(fault) = field_fault(dict, message, &note, role, field, again, misplaced) {
            return Err(fault);
        }
        touched = touches(touched, &note, role);
        left_header = leaves_header(order, of_header, left_header);
        in_trailer = begins_trailer(order, of_trailer, in_trailer);
    }
    Ok(touched)
}

// Whether a group has anything to do with the fields up to one with this note and this role.
fn touches(before: bool, note: &TagNote, role: Role) -> bool
    ensures { result ≡ (before || is_touching note.now role) }
{
    before || role.is_grouped() || note.header.is_in_group() || note.trailer.is_in_group()
}

// The first fault of a field, where it is known whether its tag appears again and whether it stands
// out of the order that is asked for.
fn field_fault(
    dict: &Dictionary,
    message: &NotedLayout,
    note: &TagNote,
    role: Role,
    field: &Lent<'_>,
    again: bool,
    misplaced: bool,
) -> Option<Fault>
    requires note { note.now ≡ note_in dict.now field.now.tag }
    requires role { role ≡ role_of message.now field.now.tag }
    ensures { Finds (field_rows_by dict.now (whole dict.now message.now) again misplaced field.now) result }
{
    let tag = field.tag();
    let kind = kind_by(dict, note, tag);
    if is_invalid(tag, kind) {
        return Some(fault_at(0, tag));
    }
    if field.value().is_empty() {
        return Some(fault_at(4, tag));
    }
    if is_foreign(dict, message, note, role, tag, kind) {
        return Some(fault_at(2, tag));
    }
    if again {
        return Some(fault_at(13, tag));
    }
    if misplaced {
        return Some(fault_at(14, tag));
    }
    if is_no_value(kind, field.value()) {
        return Some(fault_at(6, tag));
    }
    if !allows(dict, note, tag, field.value()) {
        return Some(fault_at(5, tag));
    }
    None
}

fn fault_at(reason: u16, tag: Tag) -> Fault
    ensures { result ≡ fault_at reason tag }
{
    Fault {
        reason,
        tag: Some(tag),
    }
}

// Whether the tag is one of the standard's, and the dictionary doesn't name it.
fn is_invalid(tag: Tag, kind: Option<ValueKind>) -> bool
    ensures { result ≡ (nat_lt tag 5000 && not (is_some kind)) }
{
    tag.get() < FIRST_USER_TAG && kind.is_none()
}

// The kind of the field. The dictionary is there for what is said of the note.
fn kind_by(dict: &Dictionary, note: &TagNote, tag: Tag) -> Option<ValueKind>
    requires { note.now ≡ note_in dict.now tag }
    ensures { result ≡ kind_of dict.now tag }
{
    note.kind
}

// Whether the dictionary names the tag, and neither the message nor its header or trailer has it.
fn is_foreign(
    dict: &Dictionary,
    message: &NotedLayout,
    note: &TagNote,
    role: Role,
    tag: Tag,
    kind: Option<ValueKind>,
) -> bool
    requires note { note.now ≡ note_in dict.now tag }
    requires role { role ≡ role_of message.now tag }
    ensures { result ≡ (is_some kind && not (has_tag tag (whole dict.now message.now))) }
{
    kind.is_some() && !is_known(dict, message, note, role, tag)
}

// Whether the message, its header or its trailer has the tag. The dictionary and the layout are there for what
// is said of note and role.
fn is_known(dict: &Dictionary, message: &NotedLayout, note: &TagNote, role: Role, tag: Tag) -> bool
    requires note { note.now ≡ note_in dict.now tag }
    requires role { role ≡ role_of message.now tag }
    ensures { result ≡ has_tag tag (whole dict.now message.now) }
{
    if note.header.is_own() {
        return true;
    }
    if note.trailer.is_own() {
        return true;
    }
    role.is_known()
}

// Whether the value is listed, where values are. Few fields have any.
fn allows(dict: &Dictionary, note: &TagNote, tag: Tag, value: &[u8]) -> bool
    requires { note.now ≡ note_in dict.now tag }
    ensures { result ≡ allows dict.now tag value.now }
{
    if !note.has_values {
        return true;
    }
    dict.allows(tag, value)
}

// Whether the value isn't one of the kind.
fn is_no_value(kind: Option<ValueKind>, value: &[u8]) -> bool
    ensures { IsTrue result ↔ IsNoValueOf kind value.now }
{
    match kind {
        Some(kind) => !is_kind(kind, value),
        None => false,
    }
}

// Whether a field of the header or not, and of the trailer or not, may not stand after these:
// `left_header` says that a field which isn't of the header stands before it, and `in_trailer` that
// one of the trailer does.
fn is_misplaced(of_header: bool, of_trailer: bool, left_header: bool, in_trailer: bool) -> bool
    ensures { result ≡ ((of_header && left_header) || (not of_trailer && in_trailer)) }
{
    (of_header && left_header) || (!of_trailer && in_trailer)
}

fn leaves_header(order: bool, of_header: bool, left_header: bool) -> bool
    ensures { result ≡ (left_header || (order && not of_header)) }
{
    left_header || (order && !of_header)
}

fn begins_trailer(order: bool, of_trailer: bool, in_trailer: bool) -> bool
    ensures { result ≡ (in_trailer || (order && of_trailer)) }
{
    in_trailer || (order && of_trailer)
}
