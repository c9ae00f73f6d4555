//! Makes a draft of a MsgType (35) and fields: `judging` looks at them first, and then they are written.
//! An application calls this, and `fix_engine` sends what it made.
ghost use Rattle.std.specs.Prelude.{◌≡◌, ◌-◌, ◌<◌, ◌≤◌, length, map, IfOk, IfErr};
ghost use Rattle.fix_base.specs.Says.{fields_text};
ghost use Rattle.fix_fields.specs.Drafts.{MayBeDraft, IsFirstFault, IsRoomFault};
ghost use Rattle.fix_fields.specs.Drafted.{AreTagged, IsDraft, given};

use crate::draft_fields::GivenField;
use crate::judging::{first_refused, is_draft_kind};
use crate::{DraftFault, DraftFields, push_field};
use fix_base::{Bytes, OutOfMemory};
use std::alloc::Global;
use std::marker::Model;

/// The most bytes of a body. A frame's body has 512 more, which is room for a header, so that the
/// message can be sealed whenever it is sent.
const MOST_BODY_BYTES: usize = 1_048_064;

/// The bytes of `35=` and an SOH.
const KIND_FIELD_BYTES: usize = 4;

/// A message that an application gives to be sent: its MsgType (35), and its other fields as they
/// are written. Contracts see it as these two texts, and know that it may be sent: its kind is one
/// of an application message, none of its fields is refused, and its body fits.
#[derive(Debug, Drop)]
pub struct Draft {
    kind: Bytes,
    rest: Bytes,
}

impl Model for Draft {
    ghost use Rattle.fix_fields.specs.Drafted.{DraftText, IsDraft};

    ghost Value = { DraftText };

    ghost view = { λ d. record { kind = d.kind; rest = d.rest } };

    ghost invariant = { λ d. IsDraft (record { kind = d.kind; rest = d.rest }) };
}

impl Draft {
    /// The draft of a MsgType (35) and the fields after it, or the first refusal: of the kind, of
    /// the fields in order, each for the first cause in the order of `DraftFault`, then of the
    /// whole. The fields stay as they are. It looks at each byte once and writes it once.
    pub fn new(alloc: Global, kind: &[u8], fields: &DraftFields) -> Result<Draft, DraftFault>
        ensures kind { IfOk result (λ draft. draft.kind ≡ kind.now) }
        ensures rest { IfOk result (λ draft. draft.rest ≡ fields_text fields.now) }
        ensures ok { IfOk result (λ draft. MayBeDraft kind.now fields.now) }
        ensures err { IfErr result (IsFirstFault kind.now fields.now) }
    {
        if !is_draft_kind(kind) {
            return Err(DraftFault::BadKind);
        }
        let given = fields.given();
        if let Some(fault) = first_refused(given) {
            return Err(fault);
        }
        let room = MOST_BODY_BYTES - KIND_FIELD_BYTES - kind.len();
        let rest = match written(alloc, room, given) {
            Ok(rest) => rest,
            Err(fault) => return Err(fault),
        };
        let Ok(kind) = Bytes::copy(alloc, kind) else {
            return Err(DraftFault::OutOfMemory);
        };
        Ok(Draft {
            kind,
            rest: Bytes::from_vec(rest),
        })
    }

    /// The same draft.
    pub fn copy(&self, alloc: Global) -> Result<Draft, OutOfMemory>
        ensures { IfOk result (λ made. made ≡ self.now) }
    {
        Ok(Draft {
            kind: Bytes::copy(alloc, self.kind.as_slice())?,
            rest: Bytes::copy(alloc, self.rest.as_slice())?,
        })
    }

    /// MsgType (35).
    pub fn kind(&self) -> &[u8]
        ensures text { result.now ≡ self.now.kind }
        ensures is { IsDraft self.now }
    {
        self.kind.as_slice()
    }

    /// The other fields, as they are written.
    pub fn rest(&self) -> &[u8]
        ensures text { result.now ≡ self.now.rest }
        ensures is { IsDraft self.now }
    {
        self.rest.as_slice()
    }
}

// The fields as they are written, where they fit into so many bytes.
fn written(alloc: Global, room: usize, fields: &[GivenField]) -> Result<Vec<u8>, DraftFault>
    ensures text { IfOk result (λ text. text.items ≡ fields_text (map given fields.now)) }
    ensures fits { IfOk result (λ text. length (fields_text (map given fields.now)) ≤ room) }
    ensures tags { IfOk result (λ text. AreTagged (map given fields.now)) }
    ensures err { IfErr result (IsRoomFault room (fields_text (map given fields.now))) }
{
    let mut text = Vec::new(alloc);
    for field in fields {
        let Ok(()) = push_field(&mut text, field.tag.get(), field.value.as_slice()) else {
            return Err(DraftFault::OutOfMemory);
        };
        if text.len() > room {
            return Err(DraftFault::TooLarge);
        }
    }
    Ok(text)
}
