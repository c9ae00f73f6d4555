//! Whether a tag appears again (373=13). `checking` has the index of the tags made, and `fields` asks for each
//! field.
ghost use Rattle.std.specs.Prelude.{◌≡◌, ◌<◌, ◌≤◌, ℕ, ◌&&◌, not, IfOk};
ghost use Rattle.std.specs.Prelude.{length, take, slice_index_or};
ghost use Rattle.std.specs.List.Sorted.{IsNonDecreasing};
ghost use Rattle.fix_validate.specs.Table.{has_field, is_member};
ghost use Rattle.fix_validate.specs.Index.{key, keys_from, AreSeats, HasTagAt, IsIndexOf, IsLeast};

use crate::reading::has_field;
use crate::seats::{FEW, last_byte};
use fix_base::Tag;
use fix_groups::{Lent, Whole};
use std::alloc::{AllocError, Global};

/// One more than the greatest place of a field.
const PLACES: u128 = 18_446_744_073_709_551_616;

/// The tags of the fields with their places, in order; empty where the fields are few. One
/// allocation.
pub fn index_of(alloc: Global, fields: &[Lent<'_>]) -> Result<Vec<u128>, AllocError>
    ensures { IfOk result (λ index. IsIndexOf fields.now index.items) }
{
    if fields.len() <= FEW {
        return Ok(Vec::new(alloc));
    }
    let mut index = keys_of(alloc, fields)?;
    index.sort_unstable();
    Ok(index)
}

/// Whether the tag, which the field at the place has, stands before it, and no group has it as a
/// member.
pub fn appears_again(
    root: &Whole<'_>,
    fields: &[Lent<'_>],
    seats: &[u8; 256],
    index: &[u128],
    place: usize,
    tag: Tag,
) -> bool
    requires seats { AreSeats fields.now seats.now }
    requires index { IsIndexOf fields.now index.now }
    requires place { place < length fields.now }
    requires tag { HasTagAt fields.now place tag }
    ensures { result ≡ (has_field tag (take place fields.now) && not (is_member root.now tag)) }
{
    if !stands_before(fields, seats, index, place, tag) {
        return false;
    }
    root.owner(tag).is_none()
}

// The key of each field, in the order of the fields.
fn keys_of(alloc: Global, fields: &[Lent<'_>]) -> Result<Vec<u128>, AllocError>
    ensures { IfOk result (λ keys. keys.items ≡ keys_from 0 fields.now) }
{
    let mut keys = Vec::with_capacity(alloc, fields.len())?;
    for i in 0..fields.len() {
        keys.push(key(fields[i].tag(), i))?;
    }
    Ok(keys)
}

// A tag with a place. Keys are in the order of the tags, and those of one tag in that of the places.
fn key(tag: Tag, place: usize) -> u128
    ensures { result ≡ key tag place }
{
    u128::from(tag.get()) * PLACES + place as u128
}

fn stands_before(
    fields: &[Lent<'_>],
    seats: &[u8; 256],
    index: &[u128],
    place: usize,
    tag: Tag,
) -> bool
    requires seats { AreSeats fields.now seats.now }
    requires index { IsIndexOf fields.now index.now }
    requires place { place < length fields.now }
    requires tag { HasTagAt fields.now place tag }
    ensures { result ≡ has_field tag (take place fields.now) }
{
    if fields.len() <= FEW {
        return stands_among_few(fields, seats, place, tag);
    }
    // The least key with the tag is that of the first field that has it.
    let least = least_from(index, key(tag, 0));
    index[least] < key(tag, place)
}

fn stands_among_few(fields: &[Lent<'_>], seats: &[u8; 256], place: usize, tag: Tag) -> bool
    requires few { length fields.now ≤ 48 }
    requires seats { AreSeats fields.now seats.now }
    requires place { place < length fields.now }
    ensures { result ≡ has_field tag (take place fields.now) }
{
    // Mostly this field is the first whose tag ends in this byte.
    if usize::from(seats[last_byte(tag)]) == place + 1 {
        return false;
    }
    has_field(&fields[..place], tag)
}

// Where the least key stands that isn't below this one.
fn least_from(index: &[u128], wanted: u128) -> usize
    requires sorted { IsNonDecreasing index.now }
    requires some { (k : ℕ) × (k < length index.now) × (wanted ≤ slice_index_or index.now k 0) }
    ensures { IsLeast index.now wanted result }
{
    match index.binary_search(&wanted) {
        Ok(at) => at,
        Err(at) => at,
    }
}
