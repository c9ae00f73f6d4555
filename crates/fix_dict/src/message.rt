//! Reads the messages of a dictionary, each into its layout. `dictionary` calls this after header and trailer
//! are judged.
ghost use Rattle.std.specs.Prelude.{◌≡◌, OnOk, IfOk, IfErr, Ok, map, codes, option_map};
ghost use Rattle.serde_json.specs.View.{view};
ghost use Rattle.fix_fields.specs.Members.{shapes_of};
ghost use Rattle.fix_fields.specs.Drafts.{has_soh};
ghost use Rattle.fix_dict.specs.Parts.{text_at};
ghost use Rattle.fix_dict.specs.Faults.{Tells};
ghost use Rattle.fix_dict.specs.Messages.{is_type, type_in, new_type, message_in, messages_in};

use crate::DictFault;
use crate::build::members_of;
use crate::fields::Fields;
use crate::members::judge_members;
use crate::messages::Messages;
use crate::noted::NotedLayout;
use crate::parts::{list_at, text_at};
use crate::paths::{bad_shape, within};
use crate::tags::Tags;
use fix_base::{Bytes, SOH};
use fix_fields::Layout;
use serde_json::Value;
use std::alloc::Global;

/// So many groups may stand one in another.
pub const MOST_GROUPS: usize = 8;

/// The most bytes of a MsgType (35).
const MOST_TYPE_BYTES: usize = 8;

/// The messages of a dictionary: their layouts come to `messages`, or the first wrong place is told.
pub fn read_messages(
    alloc: Global,
    fields: &Fields,
    messages: &mut Messages,
    items: &[Value],
) -> Result<(), DictFault>
    ensures ok { OnOk result (messages_in fields.now 0 messages.old (map view items.now) ≡ Ok messages.new) }
    ensures err { IfErr result (Tells (messages_in fields.now 0 messages.old (map view items.now))) }
{
    for i in 0..items.len() {
        if let Err(fault) = read_message(alloc, fields, messages, &items[i]) {
            return Err(within(alloc, "messages", i, fault));
        }
    }
    Ok(())
}

// Whether the text is a MsgType (35).
fn is_type(text: &[u8]) -> bool
    ensures { result ≡ is_type text.now }
{
    if text.is_empty() {
        return false;
    }
    if text.len() > MOST_TYPE_BYTES {
        return false;
    }
    !has_soh(text)
}

fn has_soh(text: &[u8]) -> bool
    ensures { result ≡ has_soh text.now }
{
    text.iter().any(|b| *b == SOH)
}

fn type_in<'a>(item: &'a Value) -> Option<&'a str>
    ensures { option_map (λ t. t.now) result ≡ type_in (text_at (codes "type") (view item.now)) }
{
    match text_at(item, "type") {
        Some(text) => {
            if is_type(text.as_bytes()) {
                Some(text)
            } else {
                None
            }
        }
        None => None,
    }
}

// The MsgType (35) of a message, which no message before has.
fn new_type(alloc: Global, before: &Messages, item: &Value) -> Result<Vec<u8>, DictFault>
    ensures ok { IfOk result
        (λ kind. new_type before.now (type_in (text_at (codes "type") (view item.now))) ≡ Ok kind.items) }
    ensures err { IfErr result (Tells (new_type before.now (type_in (text_at (codes "type") (view item.now))))) }
{
    let Some(kind) = type_in(item) else {
        return Err(bad_shape(alloc, "type"));
    };
    if before.has(kind.as_bytes()) {
        return Err(DictFault::DuplicateType(Bytes::copy(alloc, kind.as_bytes())?));
    }
    Ok(Vec::from_slice(alloc, kind.as_bytes())?)
}

fn read_message(
    alloc: Global,
    fields: &Fields,
    messages: &mut Messages,
    item: &Value,
) -> Result<(), DictFault>
    ensures ok { OnOk result (message_in fields.now messages.old (view item.now) ≡ Ok messages.new) }
    ensures err { IfErr result (Tells (message_in fields.now messages.old (view item.now))) }
{
    if !item.is_object() {
        return Err(bad_shape(alloc, ""));
    }
    let kind = new_type(alloc, messages, item)?;
    if text_at(item, "name").is_none() {
        return Err(bad_shape(alloc, "name"));
    }
    let Some(items) = list_at(item, "members") else {
        return Err(bad_shape(alloc, "members"));
    };
    let mut seen = Tags::new(alloc);
    judge_members(
        alloc,
        MOST_GROUPS,
        fields,
        "members",
        false,
        &mut seen,
        items,
    )?;
    let members = members_of(alloc, MOST_GROUPS, items)?;
    let layout = NotedLayout::new(alloc, Layout { members })?;
    messages.insert(kind, layout)?;
    Ok(())
}
