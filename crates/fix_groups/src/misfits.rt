//! Finds the first fault of the groups of a message. `build` calls this before it makes a tree, and
//! fix_validate after it has judged each field.
ghost use Rattle.std.specs.Prelude.{◌≡◌, [], IfOk, OnOk};
ghost use Rattle.fix_groups.specs.Tagged.{all_tagged, tagged};
ghost use Rattle.fix_groups.specs.Looked.{group_at, owner};
ghost use Rattle.fix_groups.specs.Misfits.{judged, judged_at, count_misfit, outside_group, first_misfit};
ghost use Rattle.fix_groups.specs.Open.{kept, contains, passed, left_out};

use crate::lent::Lent;
use crate::misfit::Misfit;
use crate::number::count_number;
use crate::runs::{begins_well, in_order, run_length, starts};
use crate::whole::Whole;
use fix_base::{OutOfMemory, Tag};
use fix_fields::Layout;
use std::alloc::{AllocError, Global};

/// What is wrong first with the groups of a whole message's fields, or None. Each group is judged
/// whole at its count, in the order of the counts: first the number of its instances, then their
/// order. After all of them come the members that stand outside every run of their group.
pub fn first_misfit_of(
    alloc: Global,
    fields: &[Lent<'_>],
    root: &Whole<'_>,
) -> Result<Option<Misfit>, OutOfMemory>
    ensures { IfOk result (λ fault. fault ≡ first_misfit root.now (all_tagged fields.now)) }
{
    // Most messages have no group, and then no look-up is made for each field.
    if !root.is_touched(fields) {
        return Ok(None);
    }
    if let Some(fault) = count_misfit(fields, root) {
        return Ok(Some(fault));
    }
    Ok(outside_group(alloc, fields, root)?)
}

/// The same of fields of one layout.
pub fn first_misfit(
    alloc: Global,
    fields: &[Lent<'_>],
    root: &Layout,
) -> Result<Option<Misfit>, OutOfMemory>
    ensures { IfOk result (λ fault. fault ≡ first_misfit root.now (all_tagged fields.now)) }
{
    let none = Layout {
        members: Vec::new(alloc),
    };
    let whole = Whole::new(&none, root, &none);
    first_misfit_of(alloc, fields, &whole)
}

fn judge(count: Tag, number: Option<u64>, group: &Layout, run: &[Lent<'_>]) -> Option<Misfit>
    ensures { result ≡ judged count number group.now (all_tagged run.now) }
{
    let Some(number) = number else {
        return Some(Misfit::Count(count));
    };
    if starts(group, run) != number {
        return Some(Misfit::Count(count));
    }
    if begins_well(group, run) && in_order(group, run) {
        None
    } else {
        Some(Misfit::Order(count))
    }
}

/// The fault of the group whose count the field is, with the fields after it.
fn judge_at(field: &Lent<'_>, behind: &[Lent<'_>], root: &Whole<'_>) -> Option<Misfit>
    ensures { result ≡ judged_at (tagged field.now) (all_tagged behind.now) (group_at field.now.tag root.now) }
{
    match root.group_at(field.tag()) {
        Some(group) => {
            let n = run_length(behind, group);
            judge(
                field.tag(),
                count_number(field.value()),
                group,
                &behind[..n],
            )
        }
        None => None,
    }
}

/// The first fault of a group at its count.
fn count_misfit(fields: &[Lent<'_>], root: &Whole<'_>) -> Option<Misfit>
    ensures { result ≡ count_misfit root.now (all_tagged fields.now) }
{
    for i in 0..fields.len() {
        let fault = judge_at(&fields[i], &fields[i + 1..], root);
        if fault.is_some() {
            return fault;
        }
    }
    None
}

fn contains(counts: &[Tag], count: Tag) -> bool
    ensures { result ≡ contains count counts.now }
{
    for tag in counts {
        if count == *tag {
            return true;
        }
    }
    false
}

/// Ends the runs that a field with this tag isn't of.
fn keep(counts: &mut Vec<Tag>, root: &Whole<'_>, tag: Tag)
    ensures { counts.new.items ≡ kept root.now tag counts.old.items }
{
    let mut i = 0;
    while i < counts.len() {
        if root.is_in(counts[i], tag) {
            i += 1;
        } else {
            counts.remove(i);
        }
    }
}

/// Ends and begins runs as a field with this tag does.
fn pass(counts: &mut Vec<Tag>, root: &Whole<'_>, tag: Tag) -> Result<(), AllocError>
    ensures { OnOk result (counts.new.items ≡ passed root.now tag counts.old.items) }
{
    keep(counts, root, tag);
    if root.group_at(tag).is_some() {
        counts.push(tag)?;
    }
    Ok(())
}

/// The count of the group that has the tag as a member, where no run of it goes on.
fn left_out(counts: &[Tag], root: &Whole<'_>, tag: Tag) -> Option<Tag>
    ensures { result ≡ left_out (owner tag root.now) counts.now }
{
    match root.owner(tag) {
        Some(count) => {
            if contains(counts, count) {
                None
            } else {
                Some(count)
            }
        }
        None => None,
    }
}

/// The first member that stands outside every run of its group.
fn outside_group(
    alloc: Global,
    fields: &[Lent<'_>],
    root: &Whole<'_>,
) -> Result<Option<Misfit>, AllocError>
    ensures { IfOk result (λ fault. fault ≡ outside_group root.now [] (all_tagged fields.now)) }
{
    let mut counts = Vec::new(alloc);
    for i in 0..fields.len() {
        let tag = fields[i].tag();
        if let Some(count) = left_out(&counts, root, tag) {
            return Ok(Some(Misfit::Order(count)));
        }
        pass(&mut counts, root, tag)?;
    }
    Ok(None)
}
