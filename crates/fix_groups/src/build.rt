//! Splits the fields of a message into a tree. `split` calls `misfits` first, and builds the tree only where
//! nothing is wrong.
ghost use Rattle.std.specs.Prelude.{◌≡◌, ◌<◌, ◌≤◌, ◌+◌, Some, None, true, List, IfOk, take, drop, length};
ghost use Rattle.fix_base.specs.Fields.{Field};
ghost use Rattle.fix_fields.specs.Faulty.{AreLeft};
ghost use Rattle.fix_fields.specs.NoTwice.{HasNoTwice};
ghost use Rattle.fix_groups.specs.Tagged.{all_tagged};
ghost use Rattle.fix_groups.specs.Looked.{group_at};
ghost use Rattle.fix_groups.specs.Misfits.{count_misfit};
ghost use Rattle.fix_groups.specs.Runs.{begins_well, starts};
ghost use Rattle.fix_groups.specs.Fits.{IsAllOf, IsPiece, IsTreeOf, AreItemsOf};
ghost use Rattle.fix_groups.specs.NodesOf.{items_of};
ghost use Rattle.fix_groups.specs.Split.{Answers, fault_of};

use crate::lent::Lent;
use crate::look::group_at;
use crate::misfit::{GroupFault, Misfit};
use crate::misfits::first_misfit;
use crate::runs::{lead, run_length};
use crate::tree::{Node, Tree};
use fix_base::{Bytes, Tag};
use fix_fields::{FieldList, Layout};
use std::alloc::{AllocError, Global};

fn after<'a, 'b>(fields: &'b [Lent<'a>], n: usize) -> &'b [Lent<'a>]
    requires { n ≤ length fields.now }
    ensures { result.now ≡ drop n fields.now }
{
    &fields[n..]
}

fn front<'a, 'b>(fields: &'b [Lent<'a>], n: usize) -> &'b [Lent<'a>]
    requires { n ≤ length fields.now }
    ensures { result.now ≡ take n fields.now }
{
    &fields[..n]
}

fn value_of(alloc: Global, field: &Lent<'_>) -> Result<Bytes, AllocError>
    ensures { IfOk result (λ value. value ≡ field.now.value) }
{
    Ok(Bytes::from_vec(Vec::from_slice(alloc, field.value())?))
}

/// How many fields the instance at the front has.
fn piece_length(fields: &[Lent<'_>], group: &Layout) -> usize
    requires some { 0 < length fields.now }
    requires begins { begins_well group.now (all_tagged fields.now) ≡ true }
    ensures some { 0 < result }
    ensures within { result ≤ length fields.now }
    ensures piece { IsPiece group.now (all_tagged (take result fields.now)) }
    ensures rest { begins_well group.now (all_tagged (drop result fields.now)) ≡ true }
{
    let lead = lead(group);
    let mut n = 1;
    while n < fields.len() && fields[n].tag().get() != lead {
        n += 1;
    }
    n
}

#[cycle(build)]
fn build_items(
    alloc: Global,
    run: &[Lent<'_>],
    count: Tag,
    group: &Layout,
    root: &Layout,
) -> Result<Vec<Tree>, AllocError>
    requires apart { HasNoTwice root.now }
    requires group { group_at count root.now ≡ Some group.now }
    requires all { IsAllOf group.now (all_tagged run.now) }
    requires begins { begins_well group.now (all_tagged run.now) ≡ true }
    requires right { count_misfit root.now (all_tagged run.now) ≡ None }
    ensures items { IfOk result (λ items. AreItemsOf root.now group.now run.now (items_of items.items)) }
    ensures count { IfOk result (λ items. length items.items ≡ starts group.now (all_tagged run.now)) }
{
    let mut items = Vec::new(alloc);
    let mut left = run;
    while !left.is_empty() {
        let n = piece_length(left, group);
        let piece = front(left, n);
        let tree = build(alloc, piece, root)?;
        items.push(tree)?;
        left = after(left, n);
    }
    Ok(items)
}

#[cycle(build)]
fn build(alloc: Global, fields: &[Lent<'_>], root: &Layout) -> Result<Tree, AllocError>
    requires apart { HasNoTwice root.now }
    requires right { count_misfit root.now (all_tagged fields.now) ≡ None }
    ensures { IfOk result (λ tree. IsTreeOf root.now fields.now tree) }
{
    let mut nodes = Vec::new(alloc);
    let mut left = fields;
    while !left.is_empty() {
        let field = &left[0];
        let tag = field.tag();
        let behind = after(left, 1);
        match group_at(root, tag) {
            None => {
                let value = value_of(alloc, field)?;
                nodes.push(Node::Plain { tag, value })?;
                left = behind;
            }
            Some(group) => {
                let n = run_length(behind, group);
                let run = front(behind, n);
                let items = build_items(alloc, run, tag, group, root)?;
                nodes.push(Node::Group { count: tag, items })?;
                left = after(behind, n);
            }
        }
    }
    Ok(Tree { nodes })
}

/// The fields that are left of a list.
fn collect<'a>(alloc: Global, list: FieldList<'a>) -> Result<Vec<Lent<'a>>, AllocError>
    ensures { IfOk result (λ all. (fs : List Field) → AreLeft list.entry fs → all.items ≡ fs) }
{
    let mut all = Vec::new(alloc);
    for field in list {
        all.push(Lent::new(field))?;
    }
    Ok(all)
}

fn fault_of(misfit: Misfit) -> GroupFault
    ensures { result ≡ fault_of misfit }
{
    match misfit {
        Misfit::Count(count) => GroupFault::CountWrong(count),
        Misfit::Order(count) => GroupFault::OrderWrong(count),
    }
}

/// The fields of a list as a tree of groups, or the first fault of their groups: in the order of the
/// counts, for each group first CountWrong, then OrderWrong; after all of them OrderWrong for the
/// first member that stands outside every run of its group. A count that isn't one to nine digits
/// counts no run, and is CountWrong.
///
/// The fields are read once for each of the groups that they stand in, and it goes down the groups
/// as they nest.
pub fn split(alloc: Global, list: FieldList<'_>, layout: &Layout) -> Result<Tree, GroupFault>
    requires { HasNoTwice layout.now }
    ensures { (fs : List Field) → AreLeft list.entry fs → Answers layout.now fs result }
{
    let Ok(fields) = collect(alloc, list) else {
        return Err(GroupFault::OutOfMemory);
    };
    match first_misfit(alloc, &fields, layout) {
        Ok(None) => match build(alloc, &fields, layout) {
            Ok(tree) => Ok(tree),
            Err(_) => Err(GroupFault::OutOfMemory),
        },
        Ok(Some(misfit)) => Err(fault_of(misfit)),
        Err(_) => Err(GroupFault::OutOfMemory),
    }
}
