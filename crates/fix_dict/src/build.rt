//! Makes the members of a layout from a JSON array. `dictionary` and `message` call this after `members` has
//! judged the array.
ghost use Rattle.std.specs.Prelude.{◌≡◌, map, IfOk};
ghost use Rattle.serde_json.specs.View.{view};
ghost use Rattle.fix_dict.specs.Members.{member_tag, is_required, member_in, inner_members, members_in};

use crate::parts::{flag_at, has, items_at, tag_at};
use fix_base::Tag;
use fix_fields::{Layout, Member};
use serde_json::Value;
use std::alloc::{AllocError, Global};

fn first_tag() -> Tag
    ensures { result ≡ 1 }
{
    match Tag::new(1) {
        Some(tag) => tag,
        None => unreachable!(),
    }
}

fn member_tag(item: &Value) -> Tag
    ensures { result ≡ member_tag (view item.now) }
{
    let found = if has(item, "tag") {
        tag_at(item, "tag")
    } else {
        tag_at(item, "group")
    };
    match found {
        Some(tag) => tag,
        None => first_tag(),
    }
}

fn is_required(item: &Value) -> bool
    ensures { result ≡ is_required (view item.now) }
{
    flag_at(item, "required").unwrap_or(false)
}

#[cycle(build)]
fn inner_members(
    alloc: Global,
    depth_left: usize,
    items: &[Value],
) -> Result<Vec<Member>, AllocError>
    ensures { IfOk result (λ members. members.items ≡ inner_members depth_left (map view items.now)) }
{
    if depth_left == 0 {
        return Ok(Vec::new(alloc));
    }
    members_of(alloc, depth_left - 1, items)
}

#[cycle(build)]
fn member_of(alloc: Global, depth_left: usize, item: &Value) -> Result<Member, AllocError>
    ensures { IfOk result (λ member. member ≡ member_in (inner_members depth_left) (view item.now)) }
{
    let tag = member_tag(item);
    let required = is_required(item);
    if !has(item, "group") {
        return Ok(Member::Plain { tag, required });
    }
    let members = inner_members(alloc, depth_left, items_at(item, "members"))?;
    Ok(Member::Group {
        count: tag,
        required,
        inner: Layout { members },
    })
}

/// The members that an array says, with those of at most `depth_left` groups one in another.
#[cycle(build)]
pub fn members_of(
    alloc: Global,
    depth_left: usize,
    items: &[Value],
) -> Result<Vec<Member>, AllocError>
    ensures { IfOk result (λ members. members.items ≡ members_in depth_left (map view items.now)) }
{
    let mut members = Vec::new(alloc);
    for item in items {
        members.push(member_of(alloc, depth_left, item)?)?;
    }
    Ok(members)
}
