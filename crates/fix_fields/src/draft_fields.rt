//! Collects the fields of a draft one by one. An application fills this, and `draft` and `judging` read it.
ghost use Rattle.std.specs.Prelude.{◌≡◌, List, [], ◌∷◌, ◌++◌, map, OnOk, OnErr};
ghost use Rattle.fix_base.specs.Payload.{field};
ghost use Rattle.fix_fields.specs.Drafted.{given};

use fix_base::{Bytes, OutOfMemory, Tag};
use std::alloc::Global;
use std::marker::Model;

// A field that was given.
#[derive(Debug, Drop)]
pub struct GivenField {
    pub tag: Tag,
    pub value: Bytes,
}

/// The fields that an application gives for a message, in order: pairs of a tag and a value.
/// Contracts see it as the list of the fields.
#[derive(Debug, Drop)]
pub struct DraftFields {
    items: Vec<GivenField>,
}

impl Model for DraftFields {
    ghost use Rattle.std.specs.Prelude.{List, map};
    ghost use Rattle.fix_base.specs.Fields.{Field};
    ghost use Rattle.fix_fields.specs.Drafted.{given};

    ghost Value = { List Field };

    ghost view = { λ d. map given d.items.items };
}

impl DraftFields {
    /// No fields.
    pub fn new(alloc: Global) -> DraftFields
        ensures { result ≡ [] }
    {
        DraftFields {
            items: Vec::new(alloc),
        }
    }

    /// One more field after those that are there. Where it is out of memory, they stay as they are.
    pub fn push(&mut self, tag: Tag, value: &[u8]) -> Result<(), OutOfMemory>
        ensures ok { OnOk result (self.new ≡ self.old ++ field tag value.now ∷ []) }
        ensures err { OnErr result (self.new ≡ self.old) }
    {
        let value = Bytes::copy(*self.items.allocator(), value)?;
        match self.items.push(GivenField { tag, value }) {
            Ok(()) => Ok(()),
            Err(_) => Err(OutOfMemory),
        }
    }

    // The fields one by one.
    pub fn given(&self) -> &[GivenField]
        ensures { map given result.now ≡ self.now }
    {
        self.items.as_slice()
    }
}
