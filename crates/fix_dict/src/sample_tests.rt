//! That the samples are read, and have the kinds, the allowed values and the layouts that are listed here.
use crate::{Dictionary, SAMPLE_42, SAMPLE_44};
use fix_base::{Begin, Tag};
use fix_fields::{Layout, Member, ValueKind};
use std::alloc::{AllocError, Global};

// The members of each type, `!` being said of what is required.
const SHARED: [(&str, &str); 8] = [
    ("0", "112"),
    ("1", "112!"),
    ("2", "7! 16!"),
    ("3", "45! 371 372 373 58"),
    ("4", "36! 123"),
    ("5", "58"),
    ("A", "98! 108! 95 96 141"),
    ("j", "45 372! 380! 58"),
];

const HEADER: &str = "8! 9! 35! 34! 49! 52! 56! 43 50 57 97 115 116 122 128 129";

const TRAILER: &str = "93 89 10!";

const ORDER_42: &str = "11! 1 78(79! 80) 21! 55! 54! 38 60! 40! 44 58";

const REPORT_42: &str = "37! 11 17! 20! 150! 39! 55! 54! 38 44 151! 14! 6! 60 58";

const ORDER_44: &str = "11! 453(448! 447 452) 1 21 55! 54! 38 60! 40! 44 58";

const REPORT_44: &str = "37! 11 17! 150! 39! 55! 54! 38 44 151! 14! 6! 60 58";

const STRING: [u32; 21] = [
    1, 8, 10, 11, 17, 35, 37, 49, 50, 55, 56, 57, 58, 79, 112, 115, 116, 128, 129, 372, 448,
];

const SEQ_NUM: [u32; 5] = [7, 16, 34, 36, 45];

const LENGTH: [u32; 3] = [9, 93, 95];

const INT: [u32; 6] = [98, 108, 371, 373, 380, 452];

const CHAR: [u32; 7] = [20, 21, 39, 40, 54, 150, 447];

const BOOLEAN: [u32; 4] = [43, 97, 123, 141];

const QTY: [u32; 4] = [14, 38, 80, 151];

const PRICE: [u32; 2] = [6, 44];

const UTC_TIMESTAMP: [u32; 3] = [52, 60, 122];

const NUM_IN_GROUP: [u32; 2] = [78, 453];

const DATA: [u32; 2] = [89, 96];

// Values, and whether fields 21 and 54 list them. No other field lists any.
const VALUES: [(&str, bool, bool); 12] = [
    ("0", false, false),
    ("1", true, true),
    ("2", true, true),
    ("3", true, true),
    ("4", false, true),
    ("5", false, true),
    ("6", false, true),
    ("7", false, true),
    ("8", false, true),
    ("9", false, true),
    ("10", false, false),
    ("1 2", false, false),
];

fn push_members(out: &mut String, layout: &Layout) -> Result<(), AllocError> {
    for (i, member) in layout.members.iter().enumerate() {
        if i > 0 {
            out.push(' ')?;
        }
        match member {
            Member::Plain { tag, required } => push_tag(out, tag.get(), *required)?,
            Member::Group {
                count,
                required,
                inner,
            } => {
                push_tag(out, count.get(), *required)?;
                out.push('(')?;
                push_members(out, inner)?;
                out.push(')')?;
            }
        }
    }
    Ok(())
}

fn push_tag(out: &mut String, tag: u32, required: bool) -> Result<(), AllocError> {
    let mut digits = itoa::Buffer::new();
    out.push_str(digits.format(tag))?;
    if required {
        out.push('!')?;
    }
    Ok(())
}

fn is_layout(alloc: Global, layout: Option<&Layout>, wanted: &str) -> bool {
    let mut text = String::new(alloc);
    match layout {
        Some(layout) => push_members(&mut text, layout).is_ok() && text.as_str() == wanted,
        None => false,
    }
}

fn kind_at(dictionary: &Dictionary, tag: u32) -> Option<ValueKind> {
    match Tag::new(tag) {
        Some(tag) => dictionary.kind_of(tag),
        None => None,
    }
}

fn are_of(dictionary: &Dictionary, tags: &[u32], kind: ValueKind) -> bool {
    for tag in tags {
        if kind_at(dictionary, *tag) != Some(kind) {
            return false;
        }
    }
    true
}

fn allows(dictionary: &Dictionary, tag: u32, value: &[u8]) -> bool {
    match Tag::new(tag) {
        Some(tag) => dictionary.allows(tag, value),
        None => false,
    }
}

fn has_shared_layouts(alloc: Global, dictionary: &Dictionary) -> bool {
    for (kind, members) in &SHARED {
        if !is_layout(alloc, dictionary.layout(kind.as_bytes()), members) {
            return false;
        }
    }
    is_layout(alloc, Some(dictionary.header()), HEADER)
        && is_layout(alloc, Some(dictionary.trailer()), TRAILER)
}

fn has_the_kinds(dictionary: &Dictionary) -> bool {
    are_of(dictionary, &STRING, ValueKind::String)
        && are_of(dictionary, &SEQ_NUM, ValueKind::SeqNum)
        && are_of(dictionary, &LENGTH, ValueKind::Length)
        && are_of(dictionary, &INT, ValueKind::Int)
        && are_of(dictionary, &CHAR, ValueKind::Char)
        && are_of(dictionary, &BOOLEAN, ValueKind::Boolean)
        && are_of(dictionary, &QTY, ValueKind::Qty)
        && are_of(dictionary, &PRICE, ValueKind::Price)
        && are_of(dictionary, &UTC_TIMESTAMP, ValueKind::UtcTimestamp)
        && are_of(dictionary, &NUM_IN_GROUP, ValueKind::NumInGroup)
        && are_of(dictionary, &DATA, ValueKind::Data)
}

fn allow_any(dictionary: &Dictionary, tags: &[u32]) -> bool {
    for tag in tags {
        if *tag != 21 && *tag != 54 && !allows(dictionary, *tag, b"any") {
            return false;
        }
    }
    true
}

fn has_the_values(dictionary: &Dictionary) -> bool {
    for (value, in_21, in_54) in &VALUES {
        if allows(dictionary, 21, value.as_bytes()) != *in_21 {
            return false;
        }
        if allows(dictionary, 54, value.as_bytes()) != *in_54 {
            return false;
        }
    }
    allow_any(dictionary, &STRING)
        && allow_any(dictionary, &SEQ_NUM)
        && allow_any(dictionary, &LENGTH)
        && allow_any(dictionary, &INT)
        && allow_any(dictionary, &CHAR)
        && allow_any(dictionary, &BOOLEAN)
        && allow_any(dictionary, &QTY)
        && allow_any(dictionary, &PRICE)
        && allow_any(dictionary, &UTC_TIMESTAMP)
        && allow_any(dictionary, &NUM_IN_GROUP)
        && allow_any(dictionary, &DATA)
}

fn is_sample_42(alloc: Global) -> bool {
    let Ok(dictionary) = Dictionary::read(alloc, SAMPLE_42.as_bytes()) else {
        return false;
    };
    dictionary.begin() == Begin::Fix42
        && has_the_kinds(&dictionary)
        && has_the_values(&dictionary)
        && has_shared_layouts(alloc, &dictionary)
        && is_layout(alloc, dictionary.layout(b"D"), ORDER_42)
        && is_layout(alloc, dictionary.layout(b"8"), REPORT_42)
        && dictionary.layout(b"R").is_none()
        && kind_at(&dictionary, 999).is_none()
}

fn is_sample_44(alloc: Global) -> bool {
    let Ok(dictionary) = Dictionary::read(alloc, SAMPLE_44.as_bytes()) else {
        return false;
    };
    dictionary.begin() == Begin::Fix44
        && has_the_kinds(&dictionary)
        && has_the_values(&dictionary)
        && has_shared_layouts(alloc, &dictionary)
        && is_layout(alloc, dictionary.layout(b"D"), ORDER_44)
        && is_layout(alloc, dictionary.layout(b"8"), REPORT_44)
}

// Fields 21 and 54 list values, and 55 and 58 list none. No field is 999.
fn allows_what_is_listed(alloc: Global) -> bool {
    let Ok(dictionary) = Dictionary::read(alloc, SAMPLE_42.as_bytes()) else {
        return false;
    };
    allows(&dictionary, 21, b"1")
        && allows(&dictionary, 21, b"3")
        && !allows(&dictionary, 21, b"4")
        && !allows(&dictionary, 21, b"1 2")
        && allows(&dictionary, 54, b"1")
        && allows(&dictionary, 54, b"9")
        && !allows(&dictionary, 54, b"0")
        && allows(&dictionary, 55, b"any")
        && allows(&dictionary, 58, b"any")
        && allows(&dictionary, 999, b"any")
}

#[test]
fn the_sample_of_fix_4_2(rt: HostRuntime) {
    assert!(rt; is_sample_42(rt.alloc()));
}

#[test]
fn the_sample_of_fix_4_4(rt: HostRuntime) {
    assert!(rt; is_sample_44(rt.alloc()));
}

#[test]
fn listed_values_are_allowed(rt: HostRuntime) {
    assert!(rt; allows_what_is_listed(rt.alloc()));
}
