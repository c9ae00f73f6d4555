//! The fields of bytes one after the other, or the place of what is no field. `fix_groups` splits such a
//! list into groups.
ghost use Rattle.std.specs.Prelude.{◌≡◌, ◌↔◌, None, IsOk, IfOk, IfErr};
ghost use Rattle.fix_fields.specs.Faulty.{IsListed, IsFaultAt};

use crate::{FieldRef, due_after, field_at};
use std::marker::Model;

/// Where bytes are no list of fields.
#[derive(Clone, Copy, Debug, PartialEq, Eq)]
pub struct FieldFault {
    /// Where the first piece begins that is no field. Data that does not fit the length before it
    /// is no field where the data field begins, not where its length field does.
    pub at: usize,
}

/// The fields of bytes from a place on; iterating gives them. Contracts see it as the bytes that
/// are not read yet, with the data that the field before them speaks of.
#[derive(Drop)]
pub struct FieldList<'a> {
    rest: &'a [u8],
    due: Option<(u32, usize)>,
}

impl<'a> Model for FieldList<'a> {
    ghost use Rattle.fix_fields.specs.Faulty.{FieldListSeen};

    ghost Value = { FieldListSeen };

    ghost view = { λ s. record { due = s.due; bytes = s.rest.now } };
}

/// The fields that the bytes are, or where they are none. It reads the bytes once, and so does
/// iterating. No memory is asked for.
pub fn fields<'a>(bytes: &'a [u8]) -> Result<FieldList<'a>, FieldFault>
    ensures ok { IfOk result (λ list. list ≡ record { due = None; bytes = bytes.now }) }
    ensures err { IfErr result (λ fault. IsFaultAt bytes.now fault.at) }
    ensures exactly { IsOk result ↔ IsListed bytes.now }
{
    let mut rest = bytes;
    let mut due = None;
    while !rest.is_empty() {
        let Some((field, behind)) = field_at(rest, due) else {
            return Err(FieldFault {
                at: bytes.len() - rest.len(),
            });
        };
        due = due_after(&field);
        rest = behind;
    }
    Ok(FieldList {
        rest: bytes,
        due: None,
    })
}

impl<'a> Iterator for FieldList<'a> {
    ghost use Rattle.std.specs.Prelude.{length};
    ghost use Rattle.std.specs.Iterator.{at_most};
    ghost use Rattle.fix_fields.specs.Faulty.{TakesField};

    type Item = FieldRef<'a>;

    ghost next_gives = { TakesField };

    ghost remaining = { λ s. at_most (length s.bytes) };

    fn next(&mut self) -> Option<FieldRef<'a>> {
        let Some((field, behind)) = field_at(self.rest, self.due) else {
            return None;
        };
        self.due = due_after(&field);
        self.rest = behind;
        Some(field)
    }
}
