//! The run of a group in a list of fields, and how its instances stand. `misfits`, `build` and fix_validate
//! call this.
ghost use Rattle.std.specs.Prelude.{◌≡◌, Some, None, ◌≤◌, MatchOption, length, take};
ghost use Rattle.fix_fields.specs.Members.{shapes_of};
ghost use Rattle.fix_groups.specs.Tagged.{all_tagged};
ghost use Rattle.fix_groups.specs.Runs.{run_of, lead, behind_lead, starts, begins_well, behind, left_after, in_order};

use crate::lent::Lent;
use crate::look::{at_level, has_tag, tag_of};
use fix_base::Tag;
use fix_fields::{Layout, Member};

/// How many fields the run at the front has: the longest of fields of the group.
pub fn run_length(fields: &[Lent<'_>], group: &Layout) -> usize
    ensures run { all_tagged (take result fields.now) ≡ run_of group.now (all_tagged fields.now) }
    ensures within { result ≤ length fields.now }
{
    let mut n = 0;
    while n < fields.len() && has_tag(group, fields[n].tag()) {
        n += 1;
    }
    n
}

/// The tag of the first member: the delimiter of the group.
pub fn lead(group: &Layout) -> u32
    ensures { result ≡ lead group.now }
{
    match group.members.first() {
        Some(member) => tag_of(member).get(),
        None => 0,
    }
}

/// How many instances begin.
pub fn starts(group: &Layout, run: &[Lent<'_>]) -> u64
    ensures { result ≡ starts group.now (all_tagged run.now) }
{
    let lead = lead(group);
    let mut n = 0;
    for field in run {
        if field.tag().get() == lead {
            n += 1;
        }
    }
    n
}

/// Whether a run that isn't empty begins with the delimiter.
pub fn begins_well(group: &Layout, run: &[Lent<'_>]) -> bool
    ensures { result ≡ begins_well group.now (all_tagged run.now) }
{
    match run.first() {
        Some(field) => field.tag().get() == lead(group),
        None => true,
    }
}

/// Whether the instances of a run have their fields in the order of the members.
pub fn in_order(group: &Layout, run: &[Lent<'_>]) -> bool
    ensures { result ≡ in_order group.now group.now (all_tagged run.now) }
{
    let mut left: &[Member] = &group.members;
    for field in run {
        match left_after(group, left, field.tag()) {
            Some(rest) => left = rest,
            None => return false,
        }
    }
    true
}

/// The members after that of the tag.
fn behind(members: &[Member], tag: Tag) -> Option<&[Member]>
    ensures { MatchOption result (behind tag (shapes_of members.now) ≡ None)
        (λ rest. behind tag (shapes_of members.now) ≡ Some (shapes_of rest.now)) }
{
    for i in 0..members.len() {
        if tag == tag_of(&members[i]) {
            return Some(&members[i + 1..]);
        }
    }
    None
}

fn behind_lead(group: &Layout) -> &[Member]
    ensures { shapes_of result.now ≡ behind_lead group.now }
{
    match group.members.first() {
        Some(_) => &group.members[1..],
        None => &group.members,
    }
}

/// The members that may still come in the instance after a field.
fn left_after<'a>(group: &'a Layout, left: &'a [Member], tag: Tag) -> Option<&'a [Member]>
    ensures { MatchOption result (left_after group.now (shapes_of left.now) tag ≡ None)
        (λ rest. left_after group.now (shapes_of left.now) tag ≡ Some (shapes_of rest.now)) }
{
    if tag.get() == lead(group) {
        return Some(behind_lead(group));
    }
    match behind(left, tag) {
        Some(rest) => Some(rest),
        None => {
            if at_level(&group.members, tag) {
                None
            } else {
                Some(left)
            }
        }
    }
}
