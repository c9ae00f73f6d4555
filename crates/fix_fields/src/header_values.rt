//! Collects the header's values in one pass over the fields. `reading` calls this for `envelope`.
ghost use Rattle.std.specs.Prelude.{◌≡◌, ◌+◌, ◌<◌, ◌^◌, ◌==◌, if◌then◌else◌, List, Option, None, option_map};
ghost use Rattle.fix_base.specs.Fields.{Field, FieldsAfter};
ghost use Rattle.fix_fields.specs.Lent.{field_of};
ghost use Rattle.fix_fields.specs.HeaderValues.{firsts_of, firsts_and, firsts_with, no_firsts, value_with};

use crate::{FieldRef, due_after, field_at};

// The first values of the header's tags, as far as the fields were read, and how often
// MsgSeqNum (34) stood there.
#[derive(Clone, Copy)]
pub struct HeaderValues<'a> {
    pub kind: Option<&'a [u8]>,
    pub number: Option<&'a [u8]>,
    pub numbers: usize,
    pub dup: Option<&'a [u8]>,
    pub sender: Option<&'a [u8]>,
    pub target: Option<&'a [u8]>,
    pub sent: Option<&'a [u8]>,
    pub first_sent: Option<&'a [u8]>,
}

impl<'a> HeaderValues<'a> {
    fn none() -> HeaderValues<'a>
        ensures { firsts_of result ≡ no_firsts }
    {
        HeaderValues {
            kind: None,
            number: None,
            numbers: 0,
            dup: None,
            sender: None,
            target: None,
            sent: None,
            first_sent: None,
        }
    }

    // With one more field.
    fn with(self, field: &FieldRef<'a>) -> HeaderValues<'a>
        requires { self.numbers + 1 < 2 ^ 64 }
        ensures { firsts_of result ≡ firsts_and (firsts_of self.entry) (field_of field.now) }
    {
        HeaderValues {
            kind: first(self.kind, 35, field),
            number: first(self.number, 34, field),
            numbers: self.numbers + times(34, field),
            dup: first(self.dup, 43, field),
            sender: first(self.sender, 49, field),
            target: first(self.target, 56, field),
            sent: first(self.sent, 52, field),
            first_sent: first(self.first_sent, 122, field),
        }
    }

    // Of all the fields, each read once.
    pub fn of(body: &'a [u8]) -> HeaderValues<'a>
        ensures { (fs : List Field) → FieldsAfter None body.now fs → firsts_of result ≡ firsts_with no_firsts fs }
    {
        let mut noted = HeaderValues::none();
        let mut rest = body;
        let mut due = None;
        while !rest.is_empty() {
            let Some((field, behind)) = field_at(rest, due) else {
                return noted;
            };
            noted = noted.with(&field);
            due = due_after(&field);
            rest = behind;
        }
        noted
    }
}

// The value that is known, or that of the field where it has the tag.
fn first<'a>(known: Option<&'a [u8]>, tag: u32, field: &FieldRef<'a>) -> Option<&'a [u8]>
    ensures { option_map (λ v. v.now) result
        ≡ value_with (option_map (λ v. v.now) known.entry) tag (field_of field.now) }
{
    match known {
        Some(value) => Some(value),
        None => {
            if field.tag.get() == tag {
                Some(field.value)
            } else {
                None
            }
        }
    }
}

fn times(tag: u32, field: &FieldRef<'_>) -> usize
    ensures { result ≡ (if (field_of field.now).tag == tag then 1 else 0) }
{
    if field.tag.get() == tag { 1 } else { 0 }
}
