//! The lines of a text, and what each is.
ghost use Rattle.std.specs.Prelude.{◌≡◌, ◌↔◌, ◌+◌, ◌≤◌, ◌<◌, ◌^◌, ℕ, IsTrue, IfOk, List, length, map, option_map};
ghost use Rattle.fix_settings.specs.Lines.{is_blank as the_blank, trim_front, trim_back, trimmed as the_trimmed};
ghost use Rattle.fix_settings.specs.Lines.{cut_at as the_cut, pair_in as the_pair, line_of as the_line, IsCut};
ghost use Rattle.fix_settings.specs.Lines.{read_lines as the_lines};
ghost use Rattle.fix_settings.specs.Lent.{line_read, lines_read};

use std::alloc::{AllocError, Global};

const LF: u8 = 10;

/// A key and its value, and the number of their line.
#[derive(Clone, Copy)]
pub struct PairRef<'a> {
    pub line: u32,
    pub key: &'a [u8],
    pub value: &'a [u8],
}

/// What a line is.
#[derive(Clone, Copy)]
pub enum LineRef<'a> {
    /// Empty, or a comment.
    Passed,
    /// The heading of a default section.
    Default,
    /// The heading of a session's section, in this line.
    Session(u32),
    Given(PairRef<'a>),
    /// Of no form, in this line.
    Wrong(u32),
}

/// A space, a tab or a CR.
pub fn is_blank(byte: u8) -> bool
    ensures { result ≡ the_blank byte }
{
    byte == b' ' || (byte == b'\t' || byte == b'\r')
}

/// What stands before the first of these bytes, and what after it.
pub fn cut_at(bytes: &[u8], byte: u8) -> Option<(&[u8], &[u8])>
    ensures { option_map (λ parts. (parts.0.now, parts.1.now)) result ≡ the_cut byte bytes.now }
{
    for (at, b) in bytes.iter().enumerate() {
        if *b == byte {
            return Some((&bytes[..at], &bytes[at + 1..]));
        }
    }
    None
}

/// What the lines of a text are, in order.
pub fn lines_of(alloc: Global, text: &[u8]) -> Result<Vec<LineRef<'_>>, AllocError>
    requires { length text.now < 2 ^ 32 }
    ensures { IfOk result (λ lines. lines_read lines.items ≡ the_lines text.now) }
{
    let mut lines = Vec::new(alloc);
    let mut rest = text;
    let mut line: u64 = 1;
    while !rest.is_empty() {
        let (first, behind) = first_line(rest);
        lines.push(line_of(line as u32, first))?;
        rest = behind;
        line += 1;
    }
    Ok(lines)
}

fn without_front(bytes: &[u8]) -> &[u8]
    ensures { result.now ≡ trim_front bytes.now }
{
    let mut rest = bytes;
    while let [first, behind @ ..] = rest {
        if !is_blank(*first) {
            return rest;
        }
        rest = behind;
    }
    rest
}

fn without_back(bytes: &[u8]) -> &[u8]
    ensures { result.now ≡ trim_back bytes.now }
{
    let mut rest = bytes;
    while let [before @ .., last] = rest {
        if !is_blank(*last) {
            return rest;
        }
        rest = before;
    }
    rest
}

/// The bytes without the blanks at both ends.
fn trimmed(bytes: &[u8]) -> &[u8]
    ensures { result.now ≡ the_trimmed bytes.now }
{
    without_back(without_front(bytes))
}

fn pair_in(line: u32, bytes: &[u8]) -> LineRef<'_>
    ensures { line_read result ≡ the_pair line (the_cut 61 bytes.now) }
{
    let Some((key, value)) = cut_at(bytes, b'=') else {
        return LineRef::Wrong(line);
    };
    let key = trimmed(key);
    if key.is_empty() {
        return LineRef::Wrong(line);
    }
    LineRef::Given(PairRef {
        line,
        key,
        value: trimmed(value),
    })
}

fn line_of(line: u32, bytes: &[u8]) -> LineRef<'_>
    ensures { line_read result ≡ the_line line bytes.now }
{
    let bytes = trimmed(bytes);
    match bytes {
        [] => LineRef::Passed,
        [b'#', ..] => LineRef::Passed,
        _ => {
            if bytes.eq_ignore_ascii_case(b"[DEFAULT]") {
                return LineRef::Default;
            }
            if bytes.eq_ignore_ascii_case(b"[SESSION]") {
                return LineRef::Session(line);
            }
            pair_in(line, bytes)
        }
    }
}

// The first line without its LF, and the bytes after it.
fn first_line(text: &[u8]) -> (&[u8], &[u8])
    requires { 0 < length text.now }
    ensures { IsCut text.now result.0.now result.1.now }
{
    match cut_at(text, LF) {
        Some(parts) => parts,
        None => (text, &[]),
    }
}
