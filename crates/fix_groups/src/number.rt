//! Reads the value of a count. `misfits` calls this for each group.
ghost use Rattle.std.specs.Prelude.{◌≡◌};
ghost use Rattle.fix_groups.specs.Tagged.{count_in};

/// The most digits of a count.
const MOST_COUNT_DIGITS: usize = 9;

/// The number that a NumInGroup field says: one to nine digits, or None.
pub fn count_number(value: &[u8]) -> Option<u64>
    ensures { result ≡ count_in value.now }
{
    if value.is_empty() || value.len() > MOST_COUNT_DIGITS {
        return None;
    }
    let mut number: u64 = 0;
    for b in value {
        if !b.is_ascii_digit() {
            return None;
        }
        number = number * 10 + u64::from(*b - b'0');
    }
    Some(number)
}
