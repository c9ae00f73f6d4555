//! What is kept of one field of a dictionary. `field` makes it, and `dictionary` and `allowed` read it.
use fix_base::Bytes;
use fix_fields::ValueKind;
use std::marker::Model;

/// A list of texts. Contracts see it as the list.
#[derive(Drop)]
pub struct Texts {
    texts: Vec<Bytes>,
}

impl Model for Texts {
    ghost use Rattle.std.specs.Prelude.{ℕ, List};

    ghost Value = { List (List ℕ) };

    ghost view = { λ t. t.texts.items };
}

impl Texts {
    ghost use Rattle.std.specs.Prelude.{◌≡◌};

    /// The list that is in the vector, without a copy.
    pub fn from_vec(texts: Vec<Bytes>) -> Texts
        ensures { result ≡ texts.items }
    {
        Texts { texts }
    }

    pub fn as_slice(&self) -> &[Bytes]
        ensures { result.now ≡ self.now }
    {
        self.texts.as_slice()
    }
}

/// What a dictionary says of a field: the kind of its values, and those that are allowed, where it
/// lists any.
#[derive(Drop)]
pub struct FieldRule {
    pub kind: ValueKind,
    pub values: Texts,
}
