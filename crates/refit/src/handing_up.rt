//! A refit by workers, from the live leaves up: the live nodes' boxes are handed up over shared words, and put back into
//! the tree when all are there.

ghost use Rattle.std.specs.Prelude.{◌≡◌, ℕ, ◌<◌, ◌≤◌, ◌⊎◌, All, AllPairs, length, IfOk, OnOk, OnErr};
ghost use Rattle.fixed_box.specs.Extent.{union_of};
ghost use Rattle.radix_tree.specs.Split.{split};
ghost use Rattle.radix_tree.specs.Ranges.{IsNode};
ghost use Rattle.radix_tree.specs.Table.{IsTable, put_fit};
ghost use Rattle.radix_tree.specs.Fit.{IsFitted, table_of};
ghost use Rattle.arrival_core.specs.declared.packets.TheConstants.{MOST_WORKERS};
ghost use Rattle.arrival_core.specs.Settings.{setting};
ghost use Rattle.arrival_core.specs.Tasks.{FitsButFor};
ghost use Rattle.box_handoff.specs.Counts.{IsCounted};
ghost use Rattle.refit.specs.Shapes.{KeepsShape};
ghost use Rattle.refit.specs.Counts.{IsRefitCounted};
ghost use Rattle.refit.specs.Putting.{IsNodeOf};

use box_handoff::{FittedNodes, Packet, Tally, Ways, fit_live, fit_nodes};
use fixed_box::{Box3, union};
use outside::{Gate, Memory};
use radix_tree::Tree;
use std::alloc::Global;
use std::thread::Threads;

/// The number of the node with these children, which is the first or the last position of its range. A split names one
/// node, so that of the first position tells.
fn number_of(tree: &Tree, left: &Packet, right: &Packet) -> u32
    requires node { (i : ℕ) × IsNodeOf tree.now.keys i left.now right.now }
    ensures node { IsNode tree.now.keys result left.now.first right.now.last }
    ensures table { IsTable tree.now }
{
    if tree.nodes()[left.first as usize].split == left.last {
        left.first
    } else {
        right.last
    }
}

/// Gives the node with these children the box round theirs.
fn put_node(tree: &mut Tree, left: &Packet, right: &Packet)
    requires node { (i : ℕ) × IsNodeOf tree.old.keys i left.now right.now }
    ensures keys { tree.new.keys ≡ tree.old.keys }
    ensures table { IsTable tree.new }
    ensures nodes { (i : ℕ) → IsNodeOf tree.old.keys i left.now right.now →
        tree.new.nodes ≡ put_fit tree.old.nodes i (union_of left.now.fit right.now.fit) }
{
    let number = number_of(tree, left, right);
    tree.put(number, union(&left.fit, &right.fit));
}

/// Fits all nodes of the tree to the boxes by so many workers: the nodes of a tree that is built, whose boxes are put into
/// this one. After `Memory` the tree is as before.
fn refit_whole<R: Threads + Sync, W: Ways, G: Gate>(
    rt: &R,
    alloc: Global,
    tree: &mut Tree,
    boxes: &[Box3],
    ways: &W,
    workers: u32,
    gate: &G,
) -> Result<Tally, Memory>
    requires table { IsTable tree.old }
    requires two { 1 < length tree.old.keys }
    requires boxes { length boxes.now ≡ length tree.old.keys }
    requires some { 0 < workers }
    requires few { workers ≤ MOST_WORKERS }
    requires ways { W.stands ways.now tree.old.keys }
    ensures table { IsTable tree.new }
    ensures keys { tree.new.keys ≡ tree.old.keys }
    ensures fitted { OnOk result (IsFitted tree.new boxes.now) }
    ensures counts { IfOk result (λ t. IsCounted (length tree.old.keys) workers t) }
    ensures memory { OnErr result (tree.new ≡ tree.old) }
{
    let FittedNodes { nodes, tally } = fit_nodes(
        rt,
        alloc,
        ways,
        gate,
        tree.keys(),
        boxes,
        workers,
    )?;
    for number in 0..nodes.len() {
        tree.put(number as u32, nodes[number].fit);
    }
    Ok(tally)
}

/// Fits the tree to the boxes by so many workers, each in a thread of its own where there is one: `boxes[t - 1]` is the
/// box of triangle `t`, and `live` are the positions whose boxes may have changed, rising. Keys, ranges and splits are as
/// before.
///
/// The tree is fitted to some list of boxes that gives the triangle at every other position the same box; `ways` tells
/// the way up in it, and is not asked with fewer than two keys. It fits the nodes above the live leaves alone, and takes
/// time and memory in proportion to them, but for the times of a search among them; where all leaves are live it searches
/// for none, as in a build. The tally counts what the workers
/// did: it is exact, and 0 where nothing is live or no node is there. After `Memory` the tree is as before.
pub fn refit<R: Threads + Sync, W: Ways, G: Gate>(
    rt: &R,
    alloc: Global,
    tree: &mut Tree,
    boxes: &[Box3],
    live: &[u32],
    ways: &W,
    workers: u32,
    gate: &G,
) -> Result<Tally, Memory>
    requires boxes { length boxes.now ≡ length tree.old.keys }
    requires within { All (λ p. p < length tree.old.keys) live.now }
    requires rising { AllPairs (λ p q. p < q) live.now }
    requires some { 0 < workers }
    requires few { workers ≤ MOST_WORKERS }
    requires rest { FitsButFor tree.old boxes.now live.now }
    requires ways { 1 < length tree.old.keys → W.stands ways.now tree.old.keys }
    ensures shape { KeepsShape tree.old tree.new }
    ensures fitted { OnOk result (IsFitted tree.new boxes.now) }
    ensures value { OnOk result (tree.new.nodes ≡ table_of tree.old.keys boxes.now) }
    ensures counts { IfOk result (λ t. IsRefitCounted (setting tree.old.keys boxes.now live.now workers) t) }
    ensures still { (length tree.old.keys < 2) ⊎ (length live.now ≡ 0) → tree.new ≡ tree.old }
    ensures memory { OnErr result (tree.new ≡ tree.old) }
{
    if tree.nodes().is_empty() {
        return Ok(Tally { fits: 0, steps: 0 });
    }
    if live.is_empty() {
        return Ok(Tally { fits: 0, steps: 0 });
    }
    if live.len() == tree.keys().len() {
        return refit_whole(rt, alloc, tree, boxes, ways, workers, gate);
    }
    let fitted = fit_live(rt, alloc, ways, gate, tree, boxes, live, workers)?;
    for i in 0..fitted.left.len() {
        put_node(tree, &fitted.left[i], &fitted.right[i]);
    }
    Ok(fitted.tally)
}

#[cfg(test)]
mod tests;
