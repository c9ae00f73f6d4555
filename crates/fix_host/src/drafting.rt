//! Makes a draft of the body of a message, so that the message can be sent on.
ghost use Rattle.std.specs.Prelude.{◌≡◌, List, IfOk, MatchOption};
ghost use Rattle.fix_base.specs.Fields.{Field};
ghost use Rattle.fix_fields.specs.Faulty.{AreLeft};
ghost use Rattle.fix_fields.specs.Drafted.{draft_body};
ghost use Rattle.fix_host.specs.Drafting.{HasNoDraft};

use fix_base::OutOfMemory;
use fix_base::tags::MSG_TYPE;
use fix_fields::{Draft, DraftFault, DraftFields, FieldList, fields};
use std::alloc::Global;

/// The draft with this body. None is that there is none: the bytes are no list of fields that begins with MsgType (35),
/// or these may not be sent.
pub(crate) fn draft_with(alloc: Global, body: &[u8]) -> Result<Option<Draft>, OutOfMemory>
    ensures { IfOk result (λ made. MatchOption made (HasNoDraft body.now) (λ draft. draft_body draft ≡ body.now)) }
{
    let Ok(mut list) = fields(body) else {
        return Ok(None);
    };
    let Some(first) = list.next() else {
        return Ok(None);
    };
    if first.tag.get() != MSG_TYPE {
        return Ok(None);
    }
    let behind = copied(alloc, list)?;
    match Draft::new(alloc, first.value, &behind) {
        Ok(draft) => Ok(Some(draft)),
        Err(fault) => {
            if let DraftFault::OutOfMemory = fault {
                return Err(OutOfMemory);
            }
            Ok(None)
        }
    }
}

// The fields that are left of the list.
fn copied(alloc: Global, list: FieldList<'_>) -> Result<DraftFields, OutOfMemory>
    ensures { IfOk result (λ made. (fs : List Field) → AreLeft list.entry fs → made ≡ fs) }
{
    let mut made = DraftFields::new(alloc);
    for field in list {
        made.push(field.tag, field.value)?;
    }
    Ok(made)
}
