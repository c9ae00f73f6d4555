//! Takes a member of a JSON object by its name, in the form that is wanted. The stages of reading call this.
ghost use Rattle.std.specs.Prelude.{◌≡◌, map, option_map};
ghost use Rattle.serde_json.specs.View.{view};
ghost use Rattle.fix_dict.specs.Parts.{list_in, list_at, items_at, text_at, flag_at, tag_in, tag_at, has};

use fix_base::Tag;
use serde_json::Value;

pub fn list_in(value: &Value) -> Option<&[Value]>
    ensures { option_map (λ l. map view l.now) result ≡ list_in (view value.now) }
{
    match value.as_array() {
        Some(list) => Some(list.as_slice()),
        None => None,
    }
}

pub fn list_at<'a>(value: &'a Value, name: &str) -> Option<&'a [Value]>
    ensures { option_map (λ l. map view l.now) result ≡ list_at name.now (view value.now) }
{
    match value.get(name) {
        Some(found) => list_in(found),
        None => None,
    }
}

/// The items of an array that is wanted, and may not be there.
pub fn items_at<'a>(value: &'a Value, name: &str) -> &'a [Value]
    ensures { map view result.now ≡ items_at name.now (view value.now) }
{
    match list_at(value, name) {
        Some(items) => items,
        None => &[],
    }
}

pub fn text_at<'a>(value: &'a Value, name: &str) -> Option<&'a str>
    ensures { option_map (λ t. t.now) result ≡ text_at name.now (view value.now) }
{
    match value.get(name) {
        Some(found) => found.as_str(),
        None => None,
    }
}

pub fn flag_at(value: &Value, name: &str) -> Option<bool>
    ensures { result ≡ flag_at name.now (view value.now) }
{
    match value.get(name) {
        Some(found) => found.as_bool(),
        None => None,
    }
}

/// A tag is a whole number, which is written without a point or an exponent.
pub fn tag_in(value: &Value) -> Option<Tag>
    ensures { result ≡ tag_in (view value.now) }
{
    let number = value.as_u64()?;
    if number < 1 {
        return None;
    }
    if number > 999_999_999 {
        return None;
    }
    Tag::new(number as u32)
}

pub fn tag_at(value: &Value, name: &str) -> Option<Tag>
    ensures { result ≡ tag_at name.now (view value.now) }
{
    match value.get(name) {
        Some(found) => tag_in(found),
        None => None,
    }
}

pub fn has(value: &Value, name: &str) -> bool
    ensures { result ≡ has name.now (view value.now) }
{
    value.get(name).is_some()
}
