//! Reads the version, the BodyLength (9) and the CheckSum (10), each up to its SOH. `shape` calls these in
//! the order of a frame.
ghost use Rattle.std.specs.Prelude.{◌≤◌, ◌↔◌, IsTrue};
ghost use Rattle.fix_base.specs.Front.{Scans, ScansOf};
ghost use Rattle.fix_base.specs.Frame.{IsLine, IsLong, IsVersion, IsLengthOf, IsSumOf};

use fix_base::{NoMatch, SOH};

/// The most bytes between `8=FIX` and its SOH.
const LONGEST_VERSION: usize = 13;

/// The most digits of a BodyLength (9).
const MOST_LENGTH_DIGITS: usize = 7;

/// The last of so many digits.
const LAST_LENGTH_DIGIT: usize = 6;

/// The least BodyLength: `35=0` and its SOH.
const LEAST_LENGTH: usize = 5;

/// The greatest BodyLength.
pub const GREATEST_LENGTH: usize = 1_048_576;

/// The bytes after the first `count`.
pub fn after_any(bytes: &[u8], count: usize) -> Result<&[u8], NoMatch>
    ensures { Scans (λ rest. rest.now) (IsLong count) bytes.now result }
{
    if bytes.len() < count {
        return Err(NoMatch::NotYet);
    }
    Ok(&bytes[count..])
}

/// The bytes after the rest of a version and its SOH.
pub fn after_version(bytes: &[u8]) -> Result<&[u8], NoMatch>
    ensures { Scans (λ rest. rest.now) (IsLine IsVersion) bytes.now result }
{
    for (i, b) in bytes.iter().enumerate() {
        if *b == SOH {
            return Ok(&bytes[i + 1..]);
        }
        if i == LONGEST_VERSION {
            return Err(NoMatch::Never);
        }
    }
    Err(NoMatch::NotYet)
}

/// The number of a BodyLength, and the bytes after its SOH. The first byte that decides is the
/// last that is looked at.
pub fn after_length(bytes: &[u8]) -> Result<(usize, &[u8]), NoMatch>
    ensures { ScansOf (λ x. x.0) (λ x. x.1.now) (λ n. IsLine (IsLengthOf n)) bytes.now result }
{
    let mut length: usize = 0;
    for (i, b) in bytes.iter().enumerate() {
        if *b == SOH {
            if !is_length(length) {
                return Err(NoMatch::Never);
            }
            return Ok((length, &bytes[i + 1..]));
        }
        if i == MOST_LENGTH_DIGITS {
            return Err(NoMatch::Never);
        }
        if !b.is_ascii_digit() {
            return Err(NoMatch::Never);
        }
        length = length * 10 + usize::from(*b - b'0');
        if i == LAST_LENGTH_DIGIT && !is_length(length) {
            return Err(NoMatch::Never);
        }
    }
    Err(NoMatch::NotYet)
}

/// The number of the three digits of a CheckSum (10), and the bytes after their SOH.
pub fn after_sum(bytes: &[u8]) -> Result<(u32, &[u8]), NoMatch>
    ensures { ScansOf (λ x. x.0) (λ x. x.1.now) (λ n. IsLine (IsSumOf n)) bytes.now result }
{
    let mut sum: u32 = 0;
    for i in 0..3usize {
        match bytes.get(i) {
            None => return Err(NoMatch::NotYet),
            Some(b) => {
                if !b.is_ascii_digit() {
                    return Err(NoMatch::Never);
                }
                sum = sum * 10 + u32::from(*b - b'0');
            }
        }
    }
    match bytes.get(3) {
        None => Err(NoMatch::NotYet),
        Some(b) => {
            if *b != SOH {
                return Err(NoMatch::Never);
            }
            Ok((sum, &bytes[4..]))
        }
    }
}

fn is_length(length: usize) -> bool
    ensures { IsTrue result ↔ ((5 ≤ length) × (length ≤ 1048576)) }
{
    length >= LEAST_LENGTH && length <= GREATEST_LENGTH
}
