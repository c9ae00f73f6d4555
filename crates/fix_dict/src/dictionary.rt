//! The calls of this crate, for who reads a dictionary and asks it. Reading runs the stages `field`,
//! `members`, `message` and `build`.
ghost use Rattle.std.specs.Prelude.{◌≡◌, IfOk, IfErr, Ok, Err, option_and_then, option_copied, codes, true, false};
ghost use Rattle.serde_json.specs.Data.{Data};
ghost use Rattle.serde_json.specs.View.{view};
ghost use Rattle.fix_dict.specs.Parts.{text_at};
ghost use Rattle.fix_dict.specs.Faults.{Tells, IsMemory};
ghost use Rattle.fix_dict.specs.Dictionary.{dictionary_in, version, kind_of, note_in, layout_of, IsJson, Says, IsTold};
ghost use Rattle.fix_dict.specs.Allowed.{allows};
ghost use Rattle.fix_dict.specs.declared.fault.DictFault.TheVariants.{NotJson};

use crate::DictFault;
use crate::allowed::is_allowed_by;
use crate::build::members_of;
use crate::field::read_fields;
use crate::fields::Fields;
use crate::members::judge_members;
use crate::message::{MOST_GROUPS, read_messages};
use crate::messages::Messages;
use crate::note::{TagNote, note_of, notes_of};
use crate::noted::NotedLayout;
use crate::parts::{list_at, text_at};
use crate::paths::bad_shape;
use crate::tags::Tags;
use fix_base::{Begin, Tag};
use fix_fields::{Layout, ValueKind};
use serde_json::Value;
use std::alloc::Global;
use std::marker::Model;

/// What a counterparty's rules of engagement say: the kinds and allowed values of fields, and the
/// layouts of messages, of the header and of the trailer. Contracts see it as a `DictionarySeen`.
#[derive(Drop)]
pub struct Dictionary {
    begin: Begin,
    fields: Fields,
    header: NotedLayout,
    trailer: NotedLayout,
    messages: Messages,
    notes: Vec<TagNote>,
}

impl Model for Dictionary {
    ghost use Rattle.fix_dict.specs.Dictionary.{DictionarySeen, dictionary_code};
    ghost use Rattle.fix_dict.specs.Notes.{AreNotes};

    ghost Value = { DictionarySeen };

    ghost coded = { dictionary_code };

    ghost view = { λ d.
        record { begin = d.begin; fields = d.fields; header = d.header; trailer = d.trailer; messages = d.messages } };

    ghost invariant = { λ d. AreNotes d.fields d.header d.trailer d.notes.items };
}

impl Dictionary {
    /// The dictionary that a JSON file is, or the first wrong place of it: the members `begin`,
    /// `fields`, `header`, `trailer` and `messages` are looked at in this order, arrays from their
    /// first item on. NotJson comes just where the bytes are no JSON.
    pub fn read(alloc: Global, json: &[u8]) -> Result<Dictionary, DictFault>
        ensures ok { IfOk result (λ dictionary. Says json.now (Ok dictionary)) }
        ensures told { IfOk result (λ dictionary. IsTold dictionary) }
        ensures err { IfErr result (λ e. (IsMemory e → ⊥) → (e ≡ NotJson → ⊥) → Says json.now (Err e)) }
        ensures not_json { IfErr result (λ e. e ≡ NotJson → (d : Data) → IsJson json.now d → ⊥) }
    {
        read_json(alloc, json)
    }

    /// The version that the dictionary is for: BeginString (8).
    pub fn begin(&self) -> Begin
        ensures { result ≡ self.now.begin }
    {
        self.begin
    }

    /// What the values of the field with the tag are; None where the dictionary doesn't name it. It
    /// costs the logarithm of the number of fields.
    pub fn kind_of(&self, tag: Tag) -> Option<ValueKind>
        ensures { result ≡ kind_of self.now tag }
    {
        self.fields.kind_of(tag)
    }

    /// What the dictionary says of the tag alone. Of tags up to 1,024 it costs one step, and else the
    /// logarithm of the number of fields, and the members of header and trailer.
    pub fn note(&self, tag: Tag) -> TagNote
        ensures { result ≡ note_in self.now tag }
    {
        let place = (tag.get() - 1) as usize;
        if place < self.notes.len() {
            return self.notes[place];
        }
        note_of(&self.fields, &self.header, &self.trailer, tag)
    }

    /// Whether the dictionary lists no values for the tag, or this one. Of a `MultipleValueString` each
    /// part between spaces has to be listed.
    pub fn allows(&self, tag: Tag, value: &[u8]) -> bool
        ensures { result ≡ allows self.now tag value.now }
    {
        match self.fields.get(tag) {
            Some(rule) => is_allowed_by(rule, value),
            None => true,
        }
    }

    /// The members of a message of this MsgType (35). It costs the logarithm of the number of types.
    pub fn layout(&self, kind: &[u8]) -> Option<&Layout>
        ensures { option_copied result ≡ layout_of self.now kind.now }
    {
        match self.messages.get(kind) {
            Some(noted) => Some(noted.layout()),
            None => None,
        }
    }

    /// The same with what is kept of each tag.
    pub fn noted_layout(&self, kind: &[u8]) -> Option<&NotedLayout>
        ensures { option_copied result ≡ layout_of self.now kind.now }
    {
        self.messages.get(kind)
    }

    /// The members of the header of every message.
    pub fn header(&self) -> &Layout
        ensures { result.now ≡ self.now.header }
    {
        self.header.layout()
    }

    /// The same with what is kept of each tag.
    pub fn noted_header(&self) -> &NotedLayout
        ensures { result.now ≡ self.now.header }
    {
        &self.header
    }

    /// The members of the trailer of every message.
    pub fn trailer(&self) -> &Layout
        ensures { result.now ≡ self.now.trailer }
    {
        self.trailer.layout()
    }

    /// The same with what is kept of each tag.
    pub fn noted_trailer(&self) -> &NotedLayout
        ensures { result.now ≡ self.now.trailer }
    {
        &self.trailer
    }
}

fn read_json(alloc: Global, json: &[u8]) -> Result<Dictionary, DictFault>
    ensures ok { IfOk result (λ dictionary. Says json.now (Ok dictionary)) }
    ensures err { IfErr result (λ e. (IsMemory e → ⊥) → (e ≡ NotJson → ⊥) → Says json.now (Err e)) }
    ensures not_json { IfErr result (λ e. (IsMemory e → ⊥) → (d : Data) → IsJson json.now d → dictionary_in d ≡ Err e) }
{
    match Value::from_slice(alloc, json) {
        Ok(value) => dictionary_of(alloc, &value),
        Err(e) => Err(json_fault(e.is_memory())),
    }
}

fn json_fault(is_memory: bool) -> DictFault
    ensures memory { is_memory ≡ true → IsMemory result }
    ensures not_json { is_memory ≡ false → result ≡ NotJson }
{
    if is_memory {
        DictFault::OutOfMemory
    } else {
        DictFault::NotJson
    }
}

// BeginString (8).
fn version_at(value: &Value) -> Option<Begin>
    ensures { result ≡ option_and_then version (text_at (codes "begin") (view value.now)) }
{
    match text_at(value, "begin") {
        Some(text) => version(text.as_bytes()),
        None => None,
    }
}

fn version(text: &[u8]) -> Option<Begin>
    ensures { result ≡ version text.now }
{
    if text == b"FIX.4.2".as_slice() {
        return Some(Begin::Fix42);
    }
    if text == b"FIX.4.4".as_slice() {
        return Some(Begin::Fix44);
    }
    None
}

fn dictionary_of(alloc: Global, value: &Value) -> Result<Dictionary, DictFault>
    ensures ok { IfOk result (λ dictionary. dictionary_in (view value.now) ≡ Ok dictionary) }
    ensures err { IfErr result (Tells (dictionary_in (view value.now))) }
{
    if !value.is_object() {
        return Err(bad_shape(alloc, ""));
    }
    let Some(begin) = version_at(value) else {
        return Err(bad_shape(alloc, "begin"));
    };
    let Some(rules) = list_at(value, "fields") else {
        return Err(bad_shape(alloc, "fields"));
    };
    let mut fields = Fields::new(alloc);
    read_fields(alloc, &mut fields, rules)?;
    let Some(header_items) = list_at(value, "header") else {
        return Err(bad_shape(alloc, "header"));
    };
    let mut seen = Tags::new(alloc);
    judge_members(
        alloc,
        MOST_GROUPS,
        &fields,
        "header",
        false,
        &mut seen,
        header_items,
    )?;
    let Some(trailer_items) = list_at(value, "trailer") else {
        return Err(bad_shape(alloc, "trailer"));
    };
    judge_members(
        alloc,
        MOST_GROUPS,
        &fields,
        "trailer",
        false,
        &mut seen,
        trailer_items,
    )?;
    let Some(types) = list_at(value, "messages") else {
        return Err(bad_shape(alloc, "messages"));
    };
    let mut messages = Messages::new(alloc);
    read_messages(alloc, &fields, &mut messages, types)?;
    let header = Layout {
        members: members_of(alloc, MOST_GROUPS, header_items)?,
    };
    let trailer = Layout {
        members: members_of(alloc, MOST_GROUPS, trailer_items)?,
    };
    let header = NotedLayout::new(alloc, header)?;
    let trailer = NotedLayout::new(alloc, trailer)?;
    let notes = notes_of(alloc, &fields, &header, &trailer)?;
    Ok(Dictionary {
        begin,
        fields,
        header,
        trailer,
        messages,
        notes,
    })
}
