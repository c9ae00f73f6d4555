//! Reads digits, and the values of an `int` and of a `Boolean`. The other readers of values call this, and
//! so do `fix_engine` and `fix_admin`.
ghost use Rattle.std.specs.Prelude.{◌≡◌, ℕ, ◌^◌, ◌<◌, List, ◌∷◌, Bool, MatchOption, IfSome, Some, ℤ};
ghost use Rattle.fix_fields.specs.Value.{IsDigitsOf, IsInt, boolean_text};
ghost use Rattle.fix_fields.specs.Parts.{IsDigitsAfter};

// One more than the greatest size of an `int`: numbers of up to 15 digits are read.
const SIZES: u64 = 1_000_000_000_000_000;

/// The number of an `int` (FIX, "Data Types"), or None where the value is none: digits, before
/// which a minus may stand, at most 15 of them after leading zeros.
pub fn int(value: &[u8]) -> Option<i64>
    ensures known { IfSome result (λ number. IsInt value.now number) }
    ensures each { (number : ℤ) → IsInt value.now number → result ≡ Some number }
{
    match sign_at(value, b'-') {
        Some(digits) => {
            let size = digits_of(digits)?;
            Some(-(size as i64))
        }
        None => {
            let size = digits_of(value)?;
            Some(size as i64)
        }
    }
}

/// What a `Boolean` says: `Y` or `N`, or None where the value is neither.
pub fn boolean(value: &[u8]) -> Option<bool>
    ensures known { IfSome result (λ yes. value.now ≡ boolean_text yes) }
    ensures each { (yes : Bool) → value.now ≡ boolean_text yes → result ≡ Some yes }
{
    match value {
        b"Y" => Some(true),
        b"N" => Some(false),
        _ => None,
    }
}

// What stands after a sign.
pub fn sign_at(bytes: &[u8], sign: u8) -> Option<&[u8]>
    ensures { MatchOption result
        ((rest : List ℕ) → bytes.now ≡ sign ∷ rest → ⊥)
        (λ rest. bytes.now ≡ sign ∷ rest.now) }
{
    let [first, rest @ ..] = bytes else {
        return None;
    };
    if *first == sign { Some(rest) } else { None }
}

// The number of one or more digits, and of nothing else.
pub fn digits_of(value: &[u8]) -> Option<u64>
    ensures { MatchOption result
        ((number : ℕ) → IsDigitsOf number value.now → ⊥)
        (λ number. IsDigitsOf number value.now) }
{
    if value.is_empty() {
        return None;
    }
    digits_after(0, value)
}

// The number that the digits write when they follow those of a number.
pub fn digits_after(front: u64, value: &[u8]) -> Option<u64>
    requires { front < 10 ^ 15 }
    ensures { MatchOption result
        ((number : ℕ) → IsDigitsAfter front number value.now → ⊥)
        (λ number. IsDigitsAfter front number value.now) }
{
    let mut number = front;
    for digit in value {
        if !digit.is_ascii_digit() {
            return None;
        }
        number = number * 10 + u64::from(*digit - b'0');
        if number >= SIZES {
            return None;
        }
    }
    Some(number)
}
