//! Reads times and numbers out of a payload, for `entries` and `reading`.
ghost use Rattle.std.specs.Prelude.{◌≡◌, ◌++◌, ◌<◌, ◌≤◌, ◌^◌, ℕ, List, MatchOption};
ghost use Rattle.std.specs.Int.{w32, w64, to_be_bytes};
ghost use Rattle.fix_base.specs.Payload as payload;

/// The last microsecond of 2099.
const LAST_TIME: u64 = 4_102_444_799_999_999;

// The time at the front, and the bytes after it.
pub(crate) fn time_at(bytes: &[u8]) -> Option<(u64, &[u8])>
    ensures { MatchOption result
        ((time : ℕ) (later : List ℕ) → time ≤ payload.LAST_TIME → bytes.now ≡ to_be_bytes w64 time ++ later → ⊥)
        (λ x. (x.0 ≤ payload.LAST_TIME) × (bytes.now ≡ to_be_bytes w64 x.0 ++ x.1.now)) }
{
    let (first, later) = bytes.split_first_chunk::<8>()?;
    let time = u64::from_be_bytes(*first);
    if time > LAST_TIME {
        return None;
    }
    Some((time, later))
}

// The number at the front, and the bytes after it.
pub(crate) fn number_at(bytes: &[u8]) -> Option<(u32, &[u8])>
    ensures { MatchOption result
        ((number : ℕ) (later : List ℕ) → number < 2 ^ 32 → bytes.now ≡ to_be_bytes w32 number ++ later → ⊥)
        (λ x. (x.0 < 2 ^ 32) × (bytes.now ≡ to_be_bytes w32 x.0 ++ x.1.now)) }
{
    let (first, later) = bytes.split_first_chunk::<4>()?;
    Some((u32::from_be_bytes(*first), later))
}

// The number that the bytes are.
pub(crate) fn number_in(bytes: &[u8]) -> Option<u32>
    ensures { MatchOption result
        ((number : ℕ) → number < 2 ^ 32 → bytes.now ≡ to_be_bytes w32 number → ⊥)
        (λ number. (number < 2 ^ 32) × (bytes.now ≡ to_be_bytes w32 number)) }
{
    let (first, later) = bytes.split_first_chunk::<4>()?;
    if !later.is_empty() {
        return None;
    }
    Some(u32::from_be_bytes(*first))
}
