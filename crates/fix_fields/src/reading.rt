//! Reads the fields of a frame: its header, one value, or its body. `fix_engine` calls these for a frame
//! that came, and `fix_admin` calls `first_value`.
ghost use Rattle.std.specs.Prelude.{◌≡◌, ◌++◌, ◌==◌, List, [], Option, None, IfOk, OnOk, option_map, if◌then◌else◌};
ghost use Rattle.fix_base.specs.Fields.{Field};
ghost use Rattle.fix_base.specs.Shape.{IsFrame};
ghost use Rattle.fix_base.specs.Tags.{is_session_tag};
ghost use Rattle.fix_base.specs.Says.{value_of, seq_num_in, HasFields};
ghost use Rattle.fix_base.specs.Says as says;
ghost use Rattle.fix_fields.specs.Lent.{field_of};
ghost use Rattle.fix_fields.specs.Header.{HasBegin, header_of, header_of_fields};

use crate::header_values::HeaderValues;
use crate::lines::{body_fields, parts_of};
use crate::number::digits_of;
use crate::{Envelope, FieldRef, due_after, field_at};
use fix_base::{Bytes, OutOfMemory, SESSION_TAGS, SeqNum};
use std::alloc::{AllocError, Global};

/// What a frame's header says. It reads the fields once.
pub fn envelope<'a>(frame: &'a [u8]) -> Envelope<'a>
    requires { IsFrame frame.now }
    ensures begin { HasBegin frame.now result.begin.now }
    ensures fields { (fs : List Field) → HasFields frame.now fs → header_of result
        ≡ header_of_fields result.begin.now fs }
{
    let (begin, body) = parts_of(frame);
    let noted = HeaderValues::of(body);
    Envelope {
        begin,
        kind: noted.kind.unwrap(),
        number: seq_num(noted.number, noted.numbers),
        dup: noted.dup,
        sender: noted.sender,
        target: noted.target,
        sent: noted.sent,
        first_sent: noted.first_sent,
    }
}

/// The first value that the tag has among a frame's fields.
pub fn first_value<'a>(frame: &'a [u8], tag: u32) -> Option<&'a [u8]>
    requires { IsFrame frame.now }
    ensures { (fs : List Field) → HasFields frame.now fs → option_map (λ v. v.now) result ≡ value_of tag fs }
{
    let mut rest = body_fields(frame);
    let mut due = None;
    while !rest.is_empty() {
        let Some((field, behind)) = field_at(rest, due) else {
            return None;
        };
        if field.tag.get() == tag {
            return Some(field.value);
        }
        due = due_after(&field);
        rest = behind;
    }
    None
}

/// The body of a frame's message: its fields but for those of the header that the engine writes
/// itself.
pub fn body_of(alloc: Global, frame: &[u8]) -> Result<Bytes, OutOfMemory>
    requires { IsFrame frame.now }
    ensures { (fs : List Field) → HasFields frame.now fs → IfOk result (λ body. body ≡ says.body_of fs) }
{
    let mut rest = body_fields(frame);
    let mut due = None;
    // Room for all of it at once, so that it isn't moved as it grows.
    let mut body = Vec::with_capacity(alloc, rest.len())?;
    while !rest.is_empty() {
        let Some((field, behind)) = field_at(rest, due) else {
            return Ok(Bytes::from_vec(body));
        };
        keep(&mut body, &field, &rest[..rest.len() - behind.len()])?;
        due = due_after(&field);
        rest = behind;
    }
    Ok(Bytes::from_vec(body))
}

pub(crate) fn is_session_field(field: &FieldRef<'_>) -> bool
    ensures { result ≡ is_session_tag (field_of field.now).tag }
{
    let tag = field.tag.get();
    SESSION_TAGS.iter().any(|t| *t == tag)
}

// The text of a field after the body, unless the engine writes the field itself.
fn keep(body: &mut Vec<u8>, field: &FieldRef<'_>, text: &[u8]) -> Result<(), AllocError>
    ensures { OnOk result (body.new.items ≡ body.old.items
        ++ (if is_session_tag (field_of field.now).tag then [] else text.now)) }
{
    if !is_session_field(field) {
        body.extend_from_slice(text)?;
    }
    Ok(())
}

// The MsgSeqNum (34) of this value, which stands there so many times.
fn seq_num(value: Option<&[u8]>, times: usize) -> Option<SeqNum>
    ensures { result ≡ (if times == 1 then seq_num_in (option_map (λ v. v.now) value.entry) else None) }
{
    if times != 1 {
        return None;
    }
    let value = value?;
    if value.len() > 9 {
        return None;
    }
    let number = digits_of(value)?;
    SeqNum::new(number as u32)
}
