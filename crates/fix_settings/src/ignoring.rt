//! Keys that mean nothing here.
ghost use Rattle.std.specs.Prelude.{◌≡◌, ◌++◌, bytes_eq, IfOk, OnOk, None, option_copied};
ghost use Rattle.std.specs.List.{list_any};
ghost use Rattle.fix_settings.specs.Lines.{run_of, defaults_of};
ghost use Rattle.fix_settings.specs.Lent.{line_read, lines_read, names_read};
ghost use Rattle.fix_settings.specs.Table.{name_of};
ghost use Rattle.fix_settings.specs.Reading.{is_known as the_is_known, unknown_in, ignored_of};
ghost use Rattle.fix_settings.specs.Reading.{is_last as the_is_last, distinct as the_distinct, AreInOrder};

use crate::key::{KEYS, Key};
use crate::line::LineRef;
use crate::section::{is_default, is_heading};
use crate::table::row_of;
use fix_base::Bytes;
use std::alloc::{AllocError, Global};

/// Adds the keys up to the next heading that mean nothing.
pub fn add_run<'a>(names: &mut Vec<&'a [u8]>, lines: &[LineRef<'a>]) -> Result<(), AllocError>
    ensures { OnOk result (names_read names.new.items ≡ names_read names.old.items
        ++ ignored_of (run_of (lines_read lines.now))) }
{
    for line in lines {
        if is_heading(line) {
            return Ok(());
        }
        add_unknown(names, line)?;
    }
    Ok(())
}

/// Adds the keys of the default sections that mean nothing.
pub fn add_defaults<'a>(names: &mut Vec<&'a [u8]>, lines: &[LineRef<'a>]) -> Result<(), AllocError>
    ensures { OnOk result (names_read names.new.items ≡ names_read names.old.items
        ++ ignored_of (defaults_of (lines_read lines.now))) }
{
    for (i, line) in lines.iter().enumerate() {
        if is_default(line) {
            add_run(names, &lines[i + 1..])?;
        }
    }
    Ok(())
}

/// The names in the order of their bytes, each once.
pub fn in_order<'a>(alloc: Global, names: Vec<&'a [u8]>) -> Result<Vec<&'a [u8]>, AllocError>
    ensures { IfOk result (λ made. AreInOrder (names_read names.entry.items) (names_read made.items)) }
{
    let mut names = names;
    names.sort()?;
    let made = distinct(alloc, &names)?;
    Ok(made)
}

/// Copies of the names.
pub fn copies(alloc: Global, names: &[&[u8]]) -> Result<Vec<Bytes>, AllocError>
    ensures { IfOk result (λ made. made.items ≡ names_read names.now) }
{
    let mut made = Vec::new(alloc);
    for name in names {
        made.push(Bytes::from_vec(Vec::from_slice(alloc, name)?))?;
    }
    Ok(made)
}

fn is_name_of(name: &[u8], keys: &[Key]) -> bool
    ensures { result ≡ list_any (λ k. bytes_eq (name_of k) name.now) keys.now }
{
    for key in keys {
        if row_of(*key).name == name {
            return true;
        }
    }
    false
}

fn is_known(name: &[u8]) -> bool
    ensures { result ≡ the_is_known name.now }
{
    is_name_of(name, &KEYS)
}

// Adds the line's key, if it has one that means nothing.
fn add_unknown<'a>(names: &mut Vec<&'a [u8]>, line: &LineRef<'a>) -> Result<(), AllocError>
    ensures { OnOk result (names_read names.new.items ≡ names_read names.old.items ++ unknown_in (line_read line.now)) }
{
    let LineRef::Given(pair) = line else {
        return Ok(());
    };
    if is_known(pair.key) {
        return Ok(());
    }
    names.push(pair.key)?;
    Ok(())
}

fn is_last(last: Option<&[u8]>, name: &[u8]) -> bool
    ensures { result ≡ the_is_last (option_copied last.entry) name.now }
{
    match last {
        None => false,
        Some(last) => last == name,
    }
}

// The names without those that are the same as the one before.
fn distinct<'a>(alloc: Global, names: &[&'a [u8]]) -> Result<Vec<&'a [u8]>, AllocError>
    ensures { IfOk result (λ made. names_read made.items ≡ the_distinct None (names_read names.now)) }
{
    let mut made = Vec::new(alloc);
    let mut last: Option<&[u8]> = None;
    for name in names {
        if !is_last(last, name) {
            made.push(*name)?;
            last = Some(*name);
        }
    }
    Ok(made)
}
