//! Whether a text is at the front of bytes, which `fix_frame` asks. Where the first SOH is, which `value`,
//! `lines` and `judging` ask.
ghost use Rattle.std.specs.Prelude.{◌≡◌, ◌<◌, ◌≤◌, ℕ, length, take, slice_index, MatchOption};
ghost use Rattle.fix_base.specs.Front.{Scans};
ghost use Rattle.fix_base.specs.Frame.{HasNoSoh, IsText};

use fix_base::{NoMatch, SOH};

/// The bytes after the text, or why it does not stand at the front.
pub fn after_text<'a>(bytes: &'a [u8], text: &[u8]) -> Result<&'a [u8], NoMatch>
    ensures { Scans (λ rest. rest.now) (IsText text.now) bytes.now result }
{
    for (i, wanted) in text.iter().enumerate() {
        match bytes.get(i) {
            None => return Err(NoMatch::NotYet),
            Some(found) => {
                if *found != *wanted {
                    return Err(NoMatch::Never);
                }
            }
        }
    }
    Ok(&bytes[text.len()..])
}

/// Where the first SOH stands.
pub fn soh_at(bytes: &[u8]) -> Option<usize>
    ensures { MatchOption result (HasNoSoh bytes.now)
        (λ i. (i < length bytes.now) × HasNoSoh (take i bytes.now) × (slice_index bytes.now i ≡ 1)) }
{
    bytes.iter().position(|b| *b == SOH)
}
