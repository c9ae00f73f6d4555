//! Reads the fields of a dictionary, each into its rule. `dictionary` calls this before any member is judged.
ghost use Rattle.std.specs.Prelude.{◌≡◌, OnOk, IfOk, IfErr, Ok, map, codes, []};
ghost use Rattle.serde_json.specs.View.{view};
ghost use Rattle.serde_json.specs.Find.{get, as_str};
ghost use Rattle.fix_dict.specs.Parts.{tag_at};
ghost use Rattle.fix_dict.specs.Fields.{field_in, fields_in, texts_in, values_in, listed_values, field_tag};
ghost use Rattle.fix_dict.specs.Fields.{some_text, kind_at};
ghost use Rattle.fix_dict.specs.Faults.{Tells};

use crate::DictFault;
use crate::fields::Fields;
use crate::kinds::kind_named;
use crate::parts::{list_in, tag_at, text_at};
use crate::paths::{bad_shape, within};
use crate::rule::{FieldRule, Texts};
use fix_base::{Bytes, Tag};
use fix_fields::ValueKind;
use serde_json::Value;
use std::alloc::Global;

/// The fields of a dictionary: their rules come to `fields`, or the first wrong place is told.
pub fn read_fields(alloc: Global, fields: &mut Fields, items: &[Value]) -> Result<(), DictFault>
    ensures ok { OnOk result (fields_in 0 fields.old (map view items.now) ≡ Ok fields.new) }
    ensures err { IfErr result (Tells (fields_in 0 fields.old (map view items.now))) }
{
    for i in 0..items.len() {
        if let Err(fault) = read_field(alloc, fields, &items[i]) {
            return Err(within(alloc, "fields", i, fault));
        }
    }
    Ok(())
}

fn kind_at(item: &Value, name: &str) -> Option<ValueKind>
    ensures { result ≡ kind_at name.now (view item.now) }
{
    match text_at(item, name) {
        Some(text) => kind_named(text.as_bytes()),
        None => None,
    }
}

fn some_text(alloc: Global, item: &Value) -> Result<Bytes, DictFault>
    ensures ok { IfOk result (λ text. some_text (as_str (view item.now)) ≡ Ok text) }
    ensures err { IfErr result (Tells (some_text (as_str (view item.now)))) }
{
    let Some(text) = item.as_str() else {
        return Err(bad_shape(alloc, ""));
    };
    if text.is_empty() {
        return Err(bad_shape(alloc, ""));
    }
    Ok(Bytes::copy(alloc, text.as_bytes())?)
}

fn listed_values(alloc: Global, items: &[Value]) -> Result<Vec<Bytes>, DictFault>
    ensures ok { IfOk result (λ texts. texts_in 0 [] (map view items.now) ≡ Ok texts.items) }
    ensures err { IfErr result (Tells (texts_in 0 [] (map view items.now))) }
{
    let mut texts = Vec::new(alloc);
    for i in 0..items.len() {
        match some_text(alloc, &items[i]) {
            Ok(text) => texts.push(text)?,
            Err(fault) => return Err(within(alloc, "values", i, fault)),
        }
    }
    Ok(texts)
}

fn values_in(alloc: Global, item: &Value) -> Result<Texts, DictFault>
    ensures ok { IfOk result (λ texts. values_in (get (codes "values") (view item.now)) ≡ Ok texts) }
    ensures err { IfErr result (Tells (values_in (get (codes "values") (view item.now)))) }
{
    let Some(value) = item.get("values") else {
        return Ok(Texts::from_vec(Vec::new(alloc)));
    };
    let Some(items) = list_in(value) else {
        return Err(bad_shape(alloc, "values"));
    };
    Ok(Texts::from_vec(listed_values(alloc, items)?))
}

// The tag of a field, which no field before has.
fn field_tag(alloc: Global, before: &Fields, item: &Value) -> Result<Tag, DictFault>
    ensures ok { IfOk result (λ tag. field_tag before.now (tag_at (codes "tag") (view item.now)) ≡ Ok tag) }
    ensures err { IfErr result (Tells (field_tag before.now (tag_at (codes "tag") (view item.now)))) }
{
    let Some(tag) = tag_at(item, "tag") else {
        return Err(bad_shape(alloc, "tag"));
    };
    if before.has(tag) {
        return Err(DictFault::DuplicateTag(tag));
    }
    Ok(tag)
}

fn read_field(alloc: Global, fields: &mut Fields, item: &Value) -> Result<(), DictFault>
    ensures ok { OnOk result (field_in fields.old (view item.now) ≡ Ok fields.new) }
    ensures err { IfErr result (Tells (field_in fields.old (view item.now))) }
{
    if !item.is_object() {
        return Err(bad_shape(alloc, ""));
    }
    let tag = field_tag(alloc, fields, item)?;
    if text_at(item, "name").is_none() {
        return Err(bad_shape(alloc, "name"));
    }
    let Some(kind) = kind_at(item, "type") else {
        return Err(bad_shape(alloc, "type"));
    };
    let values = values_in(alloc, item)?;
    fields.insert(tag, FieldRule { kind, values })?;
    Ok(())
}
