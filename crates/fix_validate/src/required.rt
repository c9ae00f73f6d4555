//! Asks for the tags that a layout requires (373=1). `checking` calls this last: for header, message and
//! trailer.
ghost use Rattle.std.specs.Prelude.{◌≡◌, ◌+◌, ◌<◌, ◌≤◌, ◌∷◌, not, true, ◌&&◌, length, take, drop, slice_index_or};
ghost use Rattle.fix_base.specs.Fields.{Field};
ghost use Rattle.fix_groups.specs.Tagged.{tagged, all_tagged};
ghost use Rattle.fix_groups.specs.Runs.{run_of, lead};
ghost use Rattle.fix_validate.specs.Rows.{Finds, fault_at};
ghost use Rattle.fix_validate.specs.Required.{is_there, up_to, instances_of, instances_in, rows_of_each, required_rows};
ghost use Rattle.fix_validate.specs.Required.{tag_rows};

use crate::seats::last_byte;
use fix_base::{Fault, Tag};
use fix_fields::{Layout, Member};
use fix_groups::{Lent, lead, run_length};

/// The first required tag that is missing among the fields of a message, a header, a trailer or an
/// instance of a group. The members of a group are asked for in each of its instances.
#[cycle(missing)]
pub fn missing(layout: &Layout, fields: &[Lent<'_>]) -> Option<Fault>
    ensures { Finds (required_rows layout.now (all_tagged fields.now)) result }
{
    for member in &layout.members {
        match member {
            Member::Plain { tag, required } => {
                if lacks(fields, *tag, *required) {
                    return Some(required_fault(*tag));
                }
            }
            Member::Group {
                count,
                required,
                inner,
            } => {
                if lacks(fields, *count, *required) {
                    return Some(required_fault(*count));
                }
                if let Some(fault) = missing_in_group(*count, inner, fields) {
                    return Some(fault);
                }
            }
        }
    }
    None
}

/// The first of the tags that no field has.
pub fn missing_tag(tags: &[Tag], fields: &[Lent<'_>], seats: &[u8; 256]) -> Option<Fault>
    ensures { Finds (tag_rows tags.now (all_tagged fields.now)) result }
{
    for tag in tags {
        if !is_seated(fields, seats, *tag) {
            return Some(required_fault(*tag));
        }
    }
    None
}

// Whether a field has the tag: mostly the one whose place the seats tell, and else they are looked at one by one.
fn is_seated(fields: &[Lent<'_>], seats: &[u8; 256], tag: Tag) -> bool
    ensures { result ≡ is_there tag (all_tagged fields.now) }
{
    let seat = usize::from(seats[last_byte(tag)]);
    if has_at(fields, seat, tag) {
        return true;
    }
    is_there(fields, tag)
}

// Whether the field whose place is one less than this has the tag.
fn has_at(fields: &[Lent<'_>], seat: usize, tag: Tag) -> bool
    ensures { result ≡ true → is_there tag (all_tagged fields.now) ≡ true }
{
    if seat == 0 || seat > fields.len() {
        return false;
    }
    fields[seat - 1].tag() == tag
}

// The same in each instance of a group among the fields.
#[cycle(missing)]
fn missing_in_group(count: Tag, group: &Layout, fields: &[Lent<'_>]) -> Option<Fault>
    ensures { Finds
        (rows_of_each (required_rows group.now) (instances_in count group.now (all_tagged fields.now))) result }
{
    let wanted = count.get();
    for i in 0..fields.len() {
        if fields[i].tag().get() == wanted {
            let run = run_behind(fields, i, group);
            if let Some(fault) = missing_in_run(group, run) {
                return Some(fault);
            }
        }
    }
    None
}

// The same in each instance of a run.
#[cycle(missing)]
fn missing_in_run(group: &Layout, run: &[Lent<'_>]) -> Option<Fault>
    ensures { Finds
        (rows_of_each (required_rows group.now) (instances_of (lead group.now) (all_tagged run.now))) result }
{
    let delimiter = lead(group);
    for i in 0..run.len() {
        if run[i].tag().get() == delimiter {
            let instance = instance_at(run, i, delimiter);
            if let Some(fault) = missing(group, instance) {
                return Some(fault);
            }
        }
    }
    None
}

// The run of a group whose count stands at the place.
fn run_behind<'a, 'b>(fields: &'b [Lent<'a>], place: usize, group: &Layout) -> &'b [Lent<'a>]
    requires { place < length fields.now }
    ensures { all_tagged result.now ≡ run_of group.now (all_tagged (drop (place + 1) fields.now)) }
{
    let behind = after(fields, place + 1);
    &behind[..run_length(behind, group)]
}

fn after<'a, 'b>(fields: &'b [Lent<'a>], n: usize) -> &'b [Lent<'a>]
    requires { n ≤ length fields.now }
    ensures { result.now ≡ drop n fields.now }
{
    &fields[n..]
}

// The instance whose delimiter stands at the place.
fn instance_at<'a, 'b>(run: &'b [Lent<'a>], place: usize, delimiter: u32) -> &'b [Lent<'a>]
    requires { place < length run.now }
    ensures { (d : Field) → all_tagged result.now
        ≡ tagged (slice_index_or run.now place d) ∷ up_to delimiter (all_tagged (drop (place + 1) run.now)) }
{
    let behind = after(run, place + 1);
    let end = place + 1 + length_up_to(behind, delimiter);
    &run[place..end]
}

// How many fields stand before the next delimiter.
fn length_up_to(fields: &[Lent<'_>], delimiter: u32) -> usize
    ensures up_to { all_tagged (take result fields.now) ≡ up_to delimiter (all_tagged fields.now) }
    ensures within { result ≤ length fields.now }
{
    let mut n = 0;
    while n < fields.len() && fields[n].tag().get() != delimiter {
        n += 1;
    }
    n
}

fn lacks(fields: &[Lent<'_>], tag: Tag, required: bool) -> bool
    ensures { result ≡ (required && not (is_there tag (all_tagged fields.now))) }
{
    required && !is_there(fields, tag)
}

// Whether a field has the tag.
fn is_there(fields: &[Lent<'_>], tag: Tag) -> bool
    ensures { result ≡ is_there tag (all_tagged fields.now) }
{
    let wanted = tag.get();
    for field in fields {
        if field.tag().get() == wanted {
            return true;
        }
    }
    false
}

fn required_fault(tag: Tag) -> Fault
    ensures { result ≡ fault_at 1 tag }
{
    Fault {
        reason: 1,
        tag: Some(tag),
    }
}
