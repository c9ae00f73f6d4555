//! A field without a copy of its value. `build` makes a list of them, and fix_validate makes one of its own.
ghost use Rattle.std.specs.Prelude.{◌≡◌};
ghost use Rattle.fix_fields.specs.Lent.{field_of};

use fix_base::Tag;
use fix_fields::FieldRef;
use std::marker::Model;

/// A field whose value is lent. Contracts see it as the field.
#[derive(Drop)]
pub struct Lent<'a> {
    tag: Tag,
    value: &'a [u8],
}

impl<'a> Model for Lent<'a> {
    ghost use Rattle.fix_base.specs.Fields.{Field};

    ghost Value = { Field };

    ghost view = { λ f. record { tag = f.tag; value = f.value.now } };
}

impl<'a> Lent<'a> {
    pub fn new(field: FieldRef<'a>) -> Lent<'a>
        ensures { result ≡ field_of field.entry }
    {
        Lent {
            tag: field.tag,
            value: field.value,
        }
    }

    pub fn tag(&self) -> Tag
        ensures { result ≡ self.now.tag }
    {
        self.tag
    }

    pub fn value(&self) -> &[u8]
        ensures { result.now ≡ self.now.value }
    {
        self.value
    }
}
