//! Reads a tag, and tells of which sort it is. `field` and `judging` call this, and `fix_validate` asks
//! whether a tag is one of the header or the trailer.
ghost use Rattle.std.specs.Prelude.{◌≡◌, ℕ, List, MatchOption};
ghost use Rattle.fix_base.specs.Front.{Begins};
ghost use Rattle.fix_base.specs.Fields.{IsTag};
ghost use Rattle.fix_base.specs.Tags as tags;
ghost use Rattle.fix_base.specs.Tags.{data_tag};

use fix_base::{DATA_PAIRS, ENGINE_TAGS, HEADER_TAGS, TRAILER_TAGS, Tag};

/// The most digits of a tag.
const MOST_DIGITS: usize = 9;

/// The least tag that counts the bytes of a data field.
const LEAST_LENGTH_TAG: u32 = 90;

/// The tag at the front, and the bytes after its `=`. A tag is 1 to 999,999,999 without a
/// leading zero.
pub fn tag_at(bytes: &[u8]) -> Option<(u32, &[u8])>
    ensures { MatchOption result
        ((n : ℕ) (rest : List ℕ) → Begins (IsTag n) bytes.now rest → ⊥)
        (λ x. Begins (IsTag x.0) bytes.now x.1.now) }
{
    let mut tag: u32 = 0;
    for (i, b) in bytes.iter().enumerate() {
        if *b == b'=' {
            if i == 0 {
                return None;
            }
            return Some((tag, &bytes[i + 1..]));
        }
        if i == MOST_DIGITS {
            return None;
        }
        if !b.is_ascii_digit() {
            return None;
        }
        if tag == 0 && *b == b'0' {
            return None;
        }
        tag = tag * 10 + u32::from(*b - b'0');
    }
    None
}

/// The data tag that is paired with a length tag, as RawData (96) with RawDataLength (95).
pub fn paired(tag: Tag) -> Option<u32>
    ensures { result ≡ data_tag tag }
{
    let number = tag.get();
    if number < LEAST_LENGTH_TAG {
        return None;
    }
    for pair in DATA_PAIRS.iter() {
        if pair.0 == number {
            return Some(pair.1);
        }
    }
    None
}

/// Whether the tag is one of data, which a length tag announces, as RawData (96).
pub fn is_data_tag(tag: Tag) -> bool
    ensures { result ≡ tags.is_data_tag tag }
{
    let number = tag.get();
    DATA_PAIRS.iter().any(|pair| pair.1 == number)
}

/// Whether the tag is one of the header.
pub fn is_header_tag(tag: Tag) -> bool
    ensures { result ≡ tags.is_header_tag tag }
{
    let number = tag.get();
    HEADER_TAGS.iter().any(|t| *t == number)
}

/// Whether the tag is one of the trailer.
pub fn is_trailer_tag(tag: Tag) -> bool
    ensures { result ≡ tags.is_trailer_tag tag }
{
    let number = tag.get();
    TRAILER_TAGS.iter().any(|t| *t == number)
}

/// Whether only the engine writes the tag, so that no draft may carry it.
pub fn is_engine_tag(tag: Tag) -> bool
    ensures { result ≡ tags.is_engine_tag tag }
{
    let number = tag.get();
    ENGINE_TAGS.iter().any(|t| *t == number)
}
