//! The tree that a message is split into. `build` makes it, and `flatten` writes its bytes.
ghost use Rattle.std.specs.Prelude.{◌≡◌, ◌++◌, decimal, OnOk, IfOk};
ghost use Rattle.fix_base.specs.Says.{field_text, fields_text};
ghost use Rattle.fix_base.specs.Payload.{field};
ghost use Rattle.fix_groups.specs.Flat.{flat};

use fix_base::{Bytes, OutOfMemory, Tag};
use fix_fields::push_field;
use itoa::Buffer;
use std::alloc::{AllocError, Global};
use std::marker::Model;

/// The fields of a message, or of one instance of a group, with the groups that stand among them.
/// Contracts see it as `Nodes`.
#[cycle(tree)]
#[derive(Drop)]
pub struct Tree {
    pub nodes: Vec<Node>,
}

/// A field, or a repeating group with its instances.
#[cycle(tree)]
#[derive(Drop)]
pub enum Node {
    /// A field that counts no group.
    Plain { tag: Tag, value: Bytes },
    /// A group: the tag of its count, and its instances in order. The count's value is how many
    /// there are.
    Group { count: Tag, items: Vec<Tree> },
}

impl Model for Tree {
    ghost use Rattle.fix_groups.specs.Nodes.{Nodes, nodes_size, nodes_code};

    ghost Value = { Nodes };

    ghost coded = { nodes_code };

    ghost use Rattle.fix_groups.specs.NodesOf.{nodes_of};

    ghost view = { λ a. nodes_of a.nodes.items };

    ghost size = { nodes_size };

    ghost use Rattle.fix_groups.specs.TreeFalls.{tree_falls};

    ghost size_decreases = { λ a h. tree_falls a.nodes.items };
}

// Writes a group's count after what is there.
fn push_count(out: &mut Vec<u8>, tag: Tag, count: usize) -> Result<(), AllocError>
    ensures { OnOk result (out.new.items ≡ out.old.items ++ field_text (field tag (decimal count))) }
{
    let mut digits = Buffer::new();
    push_field(out, tag.get(), digits.format(count).as_bytes())
}

fn flatten_into(tree: &Tree, out: &mut Vec<u8>) -> Result<(), AllocError>
    ensures { OnOk result (out.new.items ≡ out.old.items ++ fields_text (flat tree.now)) }
{
    for node in &tree.nodes {
        match node {
            Node::Plain { tag, value } => push_field(out, tag.get(), value.as_slice())?,
            Node::Group { count, items } => {
                push_count(out, *count, items.len())?;
                for item in items {
                    flatten_into(item, out)?;
                }
            }
        }
    }
    Ok(())
}

/// The bytes of a tree's fields in order. A group's count stands before its instances, without
/// leading zeros. It goes down the groups as they nest, and writes each field once.
pub fn flatten(alloc: Global, tree: &Tree) -> Result<Bytes, OutOfMemory>
    ensures { IfOk result (λ out. out ≡ fields_text (flat tree.now)) }
{
    let mut out = Vec::new(alloc);
    flatten_into(tree, &mut out)?;
    Ok(Bytes::from_vec(out))
}
