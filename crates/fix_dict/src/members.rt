//! Judges the members of a header, a trailer or a message, before `build` makes their layout. `dictionary`
//! and `message` call this.
ghost use Rattle.std.specs.Prelude.{◌≡◌, map, codes, Ok, Err, IfOk, IfErr, OnOk};
ghost use Rattle.serde_json.specs.View.{view};
ghost use Rattle.fix_dict.specs.Parts.{tag_at, items_at};
ghost use Rattle.fix_dict.specs.Members.{member_shape, with_members, own_tag, judged_member, judged_members};
ghost use Rattle.fix_dict.specs.Members.{inside_group, inner_members, member_in, member_tag, members_in};
ghost use Rattle.fix_dict.specs.Faults.{Tells};

use crate::DictFault;
use crate::fields::Fields;
use crate::parts::{flag_at, has, items_at, tag_at};
use crate::paths::{bad_shape, within};
use crate::tags::Tags;
use fix_base::Tag;
use serde_json::Value;
use std::alloc::Global;

// The tag of a group that has some members, or which of the two isn't of its form.
fn group_shape(item: &Value) -> Result<Tag, &'static str>
    ensures ok { IfOk result
        (λ tag. with_members (tag_at (codes "group") (view item.now)) (items_at (codes "members") (view item.now))
        ≡ Ok tag) }
    ensures err { IfErr result
        (λ path. with_members (tag_at (codes "group") (view item.now)) (items_at (codes "members") (view item.now))
        ≡ Err path.now) }
{
    let Some(tag) = tag_at(item, "group") else {
        return Err("group");
    };
    if items_at(item, "members").is_empty() {
        return Err("members");
    }
    Ok(tag)
}

// The tag of a member of its form, or where it isn't, as a path from the member on.
fn member_shape(leads: bool, item: &Value) -> Result<Tag, &'static str>
    ensures ok { IfOk result (λ tag. member_shape leads (view item.now) ≡ Ok tag) }
    ensures err { IfErr result (λ path. member_shape leads (view item.now) ≡ Err path.now) }
{
    if !item.is_object() {
        return Err("");
    }
    if flag_at(item, "required").is_none() {
        return Err("required");
    }
    if has(item, "tag") {
        if has(item, "group") {
            return Err("");
        }
        return tag_at(item, "tag").ok_or("tag");
    }
    if leads {
        return Err("tag");
    }
    if !has(item, "group") {
        return Err("tag");
    }
    group_shape(item)
}

// The member's tag, or the first thing wrong with the member itself.
fn own_tag(
    alloc: Global,
    fields: &Fields,
    seen: &Tags,
    leads: bool,
    item: &Value,
) -> Result<Tag, DictFault>
    ensures ok { IfOk result (λ tag. own_tag fields.now seen.now (member_shape leads (view item.now)) ≡ Ok tag) }
    ensures err { IfErr result (Tells (own_tag fields.now seen.now (member_shape leads (view item.now)))) }
{
    match member_shape(leads, item) {
        Err(path) => Err(bad_shape(alloc, path)),
        Ok(tag) => {
            if !fields.has(tag) {
                return Err(DictFault::UnknownTag(tag));
            }
            if seen.has(tag.get()) {
                return Err(DictFault::DuplicateTag(tag));
            }
            Ok(tag)
        }
    }
}

#[cycle(judge)]
fn judge_group(
    alloc: Global,
    depth_left: usize,
    fields: &Fields,
    seen: &mut Tags,
    items: &[Value],
) -> Result<(), DictFault>
    ensures ok { OnOk result (inside_group depth_left fields.now seen.old (map view items.now) ≡ Ok seen.new) }
    ensures err { IfErr result (Tells (inside_group depth_left fields.now seen.old (map view items.now))) }
{
    if depth_left == 0 {
        return Err(DictFault::DepthPassed);
    }
    judge_members(alloc, depth_left - 1, fields, "members", true, seen, items)
}

#[cycle(judge)]
fn judge_member(
    alloc: Global,
    depth_left: usize,
    fields: &Fields,
    leads: bool,
    seen: &mut Tags,
    item: &Value,
) -> Result<(), DictFault>
    ensures ok { OnOk result
        (judged_member (inside_group depth_left fields.now) fields.now leads seen.old (view item.now) ≡ Ok seen.new) }
    ensures err { IfErr result
        (Tells (judged_member (inside_group depth_left fields.now) fields.now leads seen.old (view item.now))) }
{
    let tag = own_tag(alloc, fields, seen, leads, item)?;
    seen.insert(tag.get())?;
    if has(item, "group") {
        judge_group(alloc, depth_left, fields, seen, items_at(item, "members"))?;
    }
    Ok(())
}

/// The members of the array with the name: the tags that they have come to `seen`, or the first
/// wrong place is told. `depth_left` groups may stand one in another, and the first of a group's members
/// `leads`.
#[cycle(judge)]
pub fn judge_members(
    alloc: Global,
    depth_left: usize,
    fields: &Fields,
    name: &str,
    leads: bool,
    seen: &mut Tags,
    items: &[Value],
) -> Result<(), DictFault>
    ensures ok { OnOk result (judged_members depth_left fields.now name.now leads seen.old (map view items.now)
        ≡ Ok seen.new) }
    ensures err { IfErr result
        (Tells (judged_members depth_left fields.now name.now leads seen.old (map view items.now))) }
{
    for i in 0..items.len() {
        if let Err(fault) = judge_member(
            alloc,
            depth_left,
            fields,
            leads && i == 0,
            seen,
            &items[i],
        ) {
            return Err(within(alloc, name, i, fault));
        }
    }
    Ok(())
}
