//! A tree made into a walk list, by one recursion over its nodes. A subtree's escape is known once it is listed, and
//! written then.

ghost use Rattle.std.specs.Prelude.{◌≡◌, ℕ, ◌+◌, ◌-◌, ◌<◌, ◌≤◌, ◌++◌, List, length, All, IfOk, OnOk};
ghost use Rattle.fixed_box.specs.World.{BoxInWorld};
ghost use Rattle.morton_key.specs.Keys.{IsLawful, tri_at, key_at};
ghost use Rattle.radix_tree.specs.Ranges.{HasRange};
ghost use Rattle.radix_tree.specs.Table.{IsTable, node_at};
ghost use Rattle.radix_tree.specs.Fit.{IsFitted};
ghost use Rattle.radix_tree.specs.Filling.{IsChild};
ghost use Rattle.walk_list.specs.Leaves.{leaf_of, leaves_of};
ghost use Rattle.walk_list.specs.Covering.{Bounds, CoversAll};
ghost use Rattle.walk_list.specs.Lists.{IsOver};
ghost use Rattle.walk_list.specs.Parts.{HoldsLeaves, IsPart};

use crate::{Leaf, RUN, Record, WalkList};
use fixed_box::Box3;
use morton_key::Key;
use outside::Memory;
use radix_tree::{Child, Tree, left, node_of, right};
use std::alloc::{AllocError, Global};
use traversal::root;

/// The leaf at a position.
fn leaf_of(keys: &[Key], boxes: &[Box3], position: usize) -> Leaf
    requires lawful { IsLawful keys.now }
    requires count { length boxes.now ≡ length keys.now }
    requires within { position < length keys.now }
    ensures { result ≡ leaf_of boxes.now (key_at keys.now position) }
{
    let number = keys[position].tri;
    Leaf {
        fit: boxes[number as usize - 1],
        number,
    }
}

/// The leaves of the keys, in their order.
fn leaves_of(alloc: Global, keys: &[Key], boxes: &[Box3]) -> Result<Vec<Leaf>, AllocError>
    requires lawful { IsLawful keys.now }
    requires count { length boxes.now ≡ length keys.now }
    ensures { IfOk result (λ leaves. leaves.items ≡ leaves_of keys.now boxes.now) }
{
    let mut leaves = Vec::with_capacity(alloc, keys.len())?;
    for position in 0..keys.len() {
        leaves.push(leaf_of(keys, boxes, position))?;
    }
    Ok(leaves)
}

/// Adds a run: the leaves from a position up to another.
fn list_run(fit: Box3, end: u32, records: &mut Vec<Record>) -> Result<(), AllocError>
    ensures { OnOk result ((leaves : List Leaf) (a : ℕ) → Bounds leaves fit a end → a < end →
        IsPart leaves a end records.old.items records.new.items) }
{
    records.push(Record {
        fit,
        escape: 1,
        end,
    })?;
    Ok(())
}

/// Adds the records of a child and of all below it.
fn list_below(
    t: &Tree,
    leaves: &[Leaf],
    child: Child,
    records: &mut Vec<Record>,
) -> Result<(), AllocError>
    requires table { IsTable t.now }
    requires holds { HoldsLeaves t.now leaves.now }
    requires child { IsChild t.now child }
    ensures { OnOk result ((a b : ℕ) → HasRange t.now.keys child a b →
        IsPart leaves.now a (b + 1) records.old.items records.new.items) }
{
    match child {
        Child::Leaf(position) => {
            list_run(leaves[position as usize].fit, position + 1, records)?;
            Ok(())
        }
        Child::Inner(number) => {
            let node = node_of(t, number);
            if node.last - node.first < RUN {
                list_run(node.fit, node.last + 1, records)?;
                return Ok(());
            }
            let own = records.len();
            records.push(Record {
                fit: node.fit,
                escape: 0,
                end: node.last + 1,
            })?;
            list_below(t, leaves, left(t, number), records)?;
            list_below(t, leaves, right(t, number), records)?;
            let escape = (records.len() - own) as u32;
            records[own] = Record {
                fit: node.fit,
                escape,
                end: node.last + 1,
            };
            Ok(())
        }
    }
}

/// The records of the tree over the leaves.
fn records_of(alloc: Global, t: &Tree, leaves: &[Leaf]) -> Result<Vec<Record>, AllocError>
    requires { HoldsLeaves t.now leaves.now }
    ensures { IfOk result (λ records. CoversAll leaves.now records.items) }
{
    let mut records = Vec::new(alloc);
    let Some(child) = root(t) else {
        return Ok(records);
    };
    list_below(t, leaves, child, &mut records)?;
    Ok(records)
}

/// The walk list of a tree: `boxes[n - 1]` is the box of triangle `n`. The tree has to be fitted to the boxes, and
/// these have to lie in the world.
///
/// It takes memory for one leaf a triangle and, where triangles lie evenly, for one record for some eight of them; the
/// recursion is at most one call deeper than the tree is high.
pub fn flatten(alloc: Global, t: &Tree, boxes: &[Box3]) -> Result<WalkList, Memory>
    requires fitted { IsFitted t.now boxes.now }
    requires world { All BoxInWorld boxes.now }
    ensures over { IfOk result (λ list. IsOver list boxes.now) }
    // the triangle at a position is that of the tree's key there
    ensures leaves { IfOk result (λ list. list.leaves ≡ leaves_of t.now.keys boxes.now) }
{
    let Ok(leaves) = leaves_of(alloc, t.keys(), boxes) else {
        return Err(Memory);
    };
    let Ok(records) = records_of(alloc, t, &leaves) else {
        return Err(Memory);
    };
    Ok(WalkList::of(records, leaves))
}
