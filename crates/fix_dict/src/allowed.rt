//! Whether a value is among those that a field's rule lists. `dictionary` calls this for `Dictionary::allows`.
ghost use Rattle.std.specs.Prelude.{◌≡◌, ◌≤◌, length, take, drop};
ghost use Rattle.std.specs.List.{list_all};
ghost use Rattle.fix_dict.specs.Allowed.{is_listed, parts_of, allowed_parts, is_allowed_by};

use crate::rule::FieldRule;
use fix_base::Bytes;
use fix_fields::ValueKind;

/// Whether the rule lists no values, or this one: each part between spaces where the kind is
/// `MultipleValueString`.
pub fn is_allowed_by(rule: &FieldRule, value: &[u8]) -> bool
    ensures { result ≡ is_allowed_by rule.now.kind rule.now.values value.now }
{
    let values = rule.values.as_slice();
    if values.is_empty() {
        return true;
    }
    match rule.kind {
        ValueKind::MultipleValueString => are_listed(values, value),
        _ => is_listed(values, value),
    }
}

fn is_listed(values: &[Bytes], value: &[u8]) -> bool
    ensures { result ≡ is_listed values.now value.now }
{
    for listed in values {
        if listed.as_slice() == value {
            return true;
        }
    }
    false
}

// Whether each part between spaces is listed.
fn are_listed(values: &[Bytes], value: &[u8]) -> bool
    ensures { result ≡ list_all (is_listed values.now) (parts_of value.now) }
{
    let mut start = 0;
    for i in 0..value.len() {
        if value[i] != b' ' {
            continue;
        }
        if !is_listed(values, &value[start..i]) {
            return false;
        }
        start = i + 1;
    }
    is_listed(values, &value[start..])
}
