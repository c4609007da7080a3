//! The slow and sequential build: a recursion from the top, one node at a time.
//! Each call answers the box round its range, so a node's box is the union of two that are there already.

ghost use Rattle.std.specs.Prelude.{◌≡◌, ℕ, ◌-◌, ◌<◌, ◌≤◌, ◌⊎◌, length, IfOk};
ghost use Rattle.fixed_box.specs.Boxes.{IsLeastBox};
ghost use Rattle.morton_key.specs.Keys.{tri_at, IsLawful};
ghost use Rattle.radix_tree.specs.Ranges.{IsNode};
ghost use Rattle.radix_tree.specs.Table.{IsTable};
ghost use Rattle.radix_tree.specs.Fit.{box_of_triangle, boxes_in, IsFitted, table_of};
ghost use Rattle.radix_tree.specs.Filling.{HasRow, IsBelow};

use crate::splitting::split_of;
use crate::{Node, Tree};
use fixed_box::{Box3, union};
use morton_key::Key;
use outside::Memory;
use std::alloc::{AllocError, Global};

/// The box of the triangle at a position, where `boxes[t - 1]` is the box of triangle `t`. It takes no memory.
#[inline]
pub fn box_at(keys: &[Key], boxes: &[Box3], position: usize) -> Box3
    requires lawful { IsLawful keys.now }
    requires count { length boxes.now ≡ length keys.now }
    requires within { position < length keys.now }
    ensures { result ≡ box_of_triangle boxes.now (tri_at keys.now position) }
{
    boxes[keys[position].tri as usize - 1]
}

/// Writes the nodes of the subtree over a range, whose root has that number, and answers the box round the range.
fn fill(
    keys: &[Key],
    boxes: &[Box3],
    nodes: &mut [Node],
    number: usize,
    first: usize,
    last: usize,
) -> Box3
    requires lawful { IsLawful keys.now }
    requires count { length boxes.now ≡ length keys.now }
    requires room { length nodes.old ≡ length keys.now - 1 }
    requires order { first ≤ last }
    requires within { last < length keys.now }
    requires end { (number ≡ first) ⊎ (number ≡ last) }
    requires node { first < last → IsNode keys.now number first last }
    ensures fit { IsLeastBox (boxes_in boxes.now keys.now first last) result }
    ensures kept { (k : ℕ) → HasRow keys.now boxes.now nodes.old k → HasRow keys.now boxes.now nodes.new k }
    ensures made { (k : ℕ) → IsBelow number first last k → HasRow keys.now boxes.now nodes.new k }
{
    if first == last {
        return box_at(keys, boxes, first);
    }
    let split = split_of(keys, first, last);
    let left = fill(keys, boxes, nodes, split, first, split);
    let right = fill(keys, boxes, nodes, split + 1, split + 1, last);
    let fit = union(&left, &right);
    nodes[number] = Node {
        first: first as u32,
        last: last as u32,
        split: split as u32,
        fit,
    };
    fit
}

/// The table of the keys, fitted to the boxes.
fn table(alloc: Global, keys: &[Key], boxes: &[Box3]) -> Result<Vec<Node>, AllocError>
    requires lawful { IsLawful keys.now }
    requires count { length boxes.now ≡ length keys.now }
    ensures table { IfOk result (λ nodes. IsTable (record { keys = keys.now; nodes = nodes.items })) }
    ensures fitted { IfOk result (λ nodes. IsFitted (record { keys = keys.now; nodes = nodes.items }) boxes.now) }
    ensures value { IfOk result (λ nodes. nodes.items ≡ table_of keys.now boxes.now) }
{
    if keys.len() < 2 {
        return Ok(Vec::new(alloc));
    }
    let blank = Node {
        first: 0,
        last: 0,
        split: 0,
        fit: boxes[0],
    };
    let mut nodes = vec![in alloc; blank; keys.len() - 1]?;
    let _whole = fill(keys, boxes, &mut nodes, 0, 0, keys.len() - 1);
    Ok(nodes)
}

/// The tree of the keys, fitted to the boxes: `boxes[t - 1]` is the box of triangle `t`.
///
/// It takes time in proportion to the keys and the logarithm of their count, and memory for one list of nodes; the
/// recursion is at most one call deeper than the tree is high. After `Memory` the keys are dropped.
pub fn plain(alloc: Global, keys: Vec<Key>, boxes: &[Box3]) -> Result<Tree, Memory>
    requires lawful { IsLawful keys.items }
    requires count { length boxes.now ≡ length keys.items }
    ensures keys { IfOk result (λ t. t.keys ≡ keys.items) }
    ensures table { IfOk result IsTable }
    ensures fitted { IfOk result (λ t. IsFitted t boxes.now) }
    ensures value { IfOk result (λ t. t.nodes ≡ table_of keys.items boxes.now) }
{
    let nodes = table(alloc, &keys, boxes).map_err(|_| Memory)?;
    Ok(Tree::of(keys, nodes))
}
