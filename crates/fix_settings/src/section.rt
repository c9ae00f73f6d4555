//! The sections of a text, and the last pair with a key in them.
ghost use Rattle.std.specs.Prelude.{◌≡◌, List, IfOk, option_map, map, length};
ghost use Rattle.fix_settings.specs.Lines.{Pair, sections_of as the_sections, run_of, defaults_of, last_of};
ghost use Rattle.fix_settings.specs.Lines.{is_heading as the_heading, is_default as the_default};
ghost use Rattle.fix_settings.specs.Lines.{found_after as the_found};
ghost use Rattle.fix_settings.specs.Lent.{line_read, lines_read, pair_read, pairs_read, section_read};
ghost use Rattle.fix_settings.specs.Table.{name_of};
ghost use Rattle.fix_settings.specs.Reading.{pair_for};

use crate::key::{KEYS, Key};
use crate::line::{LineRef, PairRef};
use crate::table::row_of;
use std::alloc::{AllocError, Global};

/// A session's section: the line of its heading, and the lines after it.
#[derive(Clone, Copy)]
pub struct SectionRef<'a> {
    pub line: u32,
    pub behind: &'a [LineRef<'a>],
}

/// Whether a section begins here.
pub fn is_heading(line: &LineRef<'_>) -> bool
    ensures { result ≡ the_heading (line_read line.now) }
{
    match line {
        LineRef::Passed => false,
        LineRef::Default => true,
        LineRef::Session(_) => true,
        LineRef::Given(_) => false,
        LineRef::Wrong(_) => false,
    }
}

/// Whether a default section begins here.
pub fn is_default(line: &LineRef<'_>) -> bool
    ensures { result ≡ the_default (line_read line.now) }
{
    match line {
        LineRef::Passed => false,
        LineRef::Default => true,
        LineRef::Session(_) => false,
        LineRef::Given(_) => false,
        LineRef::Wrong(_) => false,
    }
}

/// The last pair with this key up to the next heading.
pub fn last_in_run<'a>(lines: &[LineRef<'a>], key: &[u8]) -> Option<PairRef<'a>>
    ensures { option_map pair_read result ≡ last_of key.now (run_of (lines_read lines.now)) }
{
    let mut found = None;
    for line in lines {
        if is_heading(line) {
            return found;
        }
        found = found_after(line, key, found);
    }
    found
}

/// The last pair with this key in all default sections.
pub fn last_in_defaults<'a>(lines: &[LineRef<'a>], key: &[u8]) -> Option<PairRef<'a>>
    ensures { option_map pair_read result ≡ last_of key.now (defaults_of (lines_read lines.now)) }
{
    let mut found = None;
    for (i, line) in lines.iter().enumerate() {
        if is_default(line) {
            found = last_in_run(&lines[i + 1..], key).or(found);
        }
    }
    found
}

/// The sessions' sections, in order.
pub fn sections_of<'a>(
    alloc: Global,
    lines: &'a [LineRef<'a>],
) -> Result<Vec<SectionRef<'a>>, AllocError>
    ensures { IfOk result (λ sections. map section_read sections.items ≡ the_sections (lines_read lines.now)) }
{
    let mut sections = Vec::new(alloc);
    for (i, line) in lines.iter().enumerate() {
        if let LineRef::Session(line) = line {
            sections.push(SectionRef {
                line: *line,
                behind: &lines[i + 1..],
            })?;
        }
    }
    Ok(sections)
}

/// The last pair in the default sections for each key, in the table's order.
pub fn default_pairs<'a>(
    alloc: Global,
    lines: &[LineRef<'a>],
) -> Result<Vec<Option<PairRef<'a>>>, AllocError>
    ensures long { IfOk result (λ pairs. length pairs.items ≡ 30) }
    ensures pairs { IfOk result
        (λ pairs. pairs_read pairs.items ≡ map (λ k. last_of (name_of k) (defaults_of (lines_read lines.now))) KEYS) }
{
    default_pairs_of(alloc, lines, &KEYS)
}

/// The pair for each key, in the table's order: the last one in the session's section, else the
/// default one.
pub fn session_pairs<'a>(
    alloc: Global,
    behind: &[LineRef<'a>],
    defaults: &[Option<PairRef<'a>>],
) -> Result<Vec<Option<PairRef<'a>>>, AllocError>
    requires { length defaults.now ≡ 30 }
    ensures long { IfOk result (λ pairs. length pairs.items ≡ 30) }
    ensures pairs { IfOk result
        (λ pairs. (of : List Pair) → pairs_read defaults.now ≡ map (λ k. last_of (name_of k) of) KEYS
        → pairs_read pairs.items ≡ map (pair_for of (run_of (lines_read behind.now))) KEYS) }
{
    session_pairs_of(alloc, behind, defaults, &KEYS)
}

// What was found, with one more line.
fn found_after<'a>(
    line: &LineRef<'a>,
    key: &[u8],
    found: Option<PairRef<'a>>,
) -> Option<PairRef<'a>>
    ensures { option_map pair_read result ≡ the_found key.now (line_read line.now) (option_map pair_read found.entry) }
{
    match line {
        LineRef::Given(pair) => { if pair.key == key { Some(*pair) } else { found } }
        _ => found,
    }
}

// The last pair in the default sections for each of these keys.
fn default_pairs_of<'a>(
    alloc: Global,
    lines: &[LineRef<'a>],
    keys: &[Key],
) -> Result<Vec<Option<PairRef<'a>>>, AllocError>
    ensures long { IfOk result (λ pairs. length pairs.items ≡ length keys.now) }
    ensures pairs { IfOk result
        (λ pairs. pairs_read pairs.items
        ≡ map (λ k. last_of (name_of k) (defaults_of (lines_read lines.now))) keys.now) }
{
    let mut pairs = Vec::new(alloc);
    for key in keys {
        pairs.push(last_in_defaults(lines, row_of(*key).name))?;
    }
    Ok(pairs)
}

// The pair for each of these keys: the last one in the session's section, else the default one.
fn session_pairs_of<'a>(
    alloc: Global,
    behind: &[LineRef<'a>],
    defaults: &[Option<PairRef<'a>>],
    keys: &[Key],
) -> Result<Vec<Option<PairRef<'a>>>, AllocError>
    requires { length defaults.now ≡ length keys.now }
    ensures long { IfOk result (λ pairs. length pairs.items ≡ length keys.now) }
    ensures pairs { IfOk result
        (λ pairs. (of : List Pair) → pairs_read defaults.now ≡ map (λ k. last_of (name_of k) of) keys.now
        → pairs_read pairs.items ≡ map (pair_for of (run_of (lines_read behind.now))) keys.now) }
{
    let mut pairs = Vec::new(alloc);
    for (i, key) in keys.iter().enumerate() {
        pairs.push(last_in_run(behind, row_of(*key).name).or(defaults[i]))?;
    }
    Ok(pairs)
}
