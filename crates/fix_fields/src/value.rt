//! Reads a value up to its SOH, and the number in a length field. `field` calls these after the tag.
ghost use Rattle.std.specs.Prelude.{◌≡◌, ℕ, List, ◌∷◌, ◌++◌, length, MatchOption, if◌then◌else◌, Some, None};
ghost use Rattle.std.specs.Str.Parse.{digits_value};
ghost use Rattle.fix_base.specs.Frame.{HasNoSoh};
ghost use Rattle.fix_base.specs.Fields.{IsValue, is_data_length};

use crate::scanning::soh_at;
use fix_base::SOH;

/// The most digits of the length of a data field.
const MOST_LENGTH_DIGITS: usize = 7;

/// The value of a tag, and the bytes after its SOH. `due` is the tag and the length of the data
/// that the field before it speaks of.
pub fn value_at(bytes: &[u8], tag: u32, due: Option<(u32, usize)>) -> Option<(&[u8], &[u8])>
    ensures { MatchOption result
        ((value rest : List ℕ) → IsValue due (record { tag = tag; value = value }) → bytes.now ≡ value ++ 1 ∷ rest → ⊥)
        (λ x. IsValue due (record { tag = tag; value = x.0.now }) × (bytes.now ≡ x.0.now ++ 1 ∷ x.1.now)) }
{
    match due {
        Some((data_tag, count)) => {
            if tag == data_tag {
                sized_value(bytes, count)
            } else {
                plain_value(bytes)
            }
        }
        None => plain_value(bytes),
    }
}

/// The length of a data field: the number of one to seven digits.
pub fn data_length(value: &[u8]) -> Option<usize>
    ensures { result ≡ (if is_data_length value.now then Some (digits_value 10 value.now) else None) }
{
    if value.is_empty() || value.len() > MOST_LENGTH_DIGITS {
        return None;
    }
    let mut length: usize = 0;
    for b in value {
        if !b.is_ascii_digit() {
            return None;
        }
        length = length * 10 + usize::from(*b - b'0');
    }
    Some(length)
}

/// The bytes before the first SOH, and those after it.
fn plain_value(bytes: &[u8]) -> Option<(&[u8], &[u8])>
    ensures { MatchOption result
        ((value rest : List ℕ) → HasNoSoh value → bytes.now ≡ value ++ 1 ∷ rest → ⊥)
        (λ x. HasNoSoh x.0.now × (bytes.now ≡ x.0.now ++ 1 ∷ x.1.now)) }
{
    let end = soh_at(bytes)?;
    Some((&bytes[..end], &bytes[end + 1..]))
}

/// So many bytes, and those after the SOH that follows them.
fn sized_value(bytes: &[u8], count: usize) -> Option<(&[u8], &[u8])>
    ensures { MatchOption result
        ((value rest : List ℕ) → length value ≡ count → bytes.now ≡ value ++ 1 ∷ rest → ⊥)
        (λ x. (length x.0.now ≡ count) × (bytes.now ≡ x.0.now ++ 1 ∷ x.1.now)) }
{
    if *bytes.get(count)? != SOH {
        return None;
    }
    Some((&bytes[..count], &bytes[count + 1..]))
}
