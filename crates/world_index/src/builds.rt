//! The tree of the keys by the build that a plan names, and that tree fitted to boxes that moved. Either build answers
//! the same tree.

ghost use Rattle.std.specs.Prelude.{◌≡◌, ◌≤◌, ◌<◌, All, AllPairs, length, IfOk, IfSome, OnOk, OnErr};
ghost use Rattle.morton_key.specs.Keys.{IsLawful};
ghost use Rattle.radix_tree.specs.Table.{IsTable};
ghost use Rattle.radix_tree.specs.Fit.{IsFitted, table_of};
ghost use Rattle.arrival_core.specs.Tasks.{FitsButFor};
ghost use Rattle.refit.specs.Shapes.{KeepsShape};
ghost use Rattle.world_index.specs.WaysUp.{IsWayUp};

use crate::ways::BuiltWays;
use command_line::{Build, MOST_WORKERS};
use fixed_box::Box3;
use morton_key::Key;
use outside::{Gate, Memory};
use radix_tree::Tree;
use refit::refit;
use std::alloc::Global;
use std::thread::Threads;

// a build takes as many workers as the words may ask for
const _: () = prove!(command_line::MOST_WORKERS == arrival_core::MOST_WORKERS);

/// The tree of the keys, fitted to the boxes by so many workers, each of which passes the gate before each batch of
/// leaves: `boxes[t - 1]` is the box of triangle `t`. After `Memory` the keys are dropped.
pub fn tree_of<R: Threads + Sync, G: Gate>(
    rt: &R,
    alloc: Global,
    build: Build,
    keys: Vec<Key>,
    boxes: &[Box3],
    workers: u32,
    gate: &G,
) -> Result<Tree, Memory>
    requires lawful { IsLawful keys.items }
    requires count { length boxes.now ≡ length keys.items }
    requires some { 1 ≤ workers }
    requires few { workers ≤ MOST_WORKERS }
    ensures keys { IfOk result (λ t. t.keys ≡ keys.items) }
    ensures table { IfOk result IsTable }
    ensures fitted { IfOk result (λ t. IsFitted t boxes.now) }
    ensures value { IfOk result (λ t. t.nodes ≡ table_of keys.items boxes.now) }
{
    match build {
        Build::Karras => {
            let built = karras_build::build(rt, alloc, keys, boxes, workers, gate)?;
            Ok(built.tree)
        }
        Build::Apetrei => {
            let built = apetrei_build::build(rt, alloc, keys, boxes, workers, gate)?;
            Ok(built.tree)
        }
    }
}

/// Fits the tree to the boxes by so many workers, each of which passes the gate before each batch of moved leaves:
/// `boxes[t - 1]` is the box of triangle `t`, and `moved` are the positions of those that moved, rising. Only nodes above
/// them are looked at. The way up is found when it is first wanted. After `Memory` the tree is as before.
pub fn fit_tree<R: Threads + Sync, G: Gate>(
    rt: &R,
    alloc: Global,
    build: Build,
    tree: &mut Tree,
    boxes: &[Box3],
    moved: &[u32],
    ways: &mut Option<BuiltWays>,
    workers: u32,
    gate: &G,
) -> Result<(), Memory>
    requires boxes { length boxes.now ≡ length tree.old.keys }
    requires within { All (λ p. p < length tree.old.keys) moved.now }
    requires rising { AllPairs (λ p q. p < q) moved.now }
    requires rest { FitsButFor tree.old boxes.now moved.now }
    requires ways { IfSome ways.old (λ w. IsWayUp w tree.old.keys) }
    requires some { 1 ≤ workers }
    requires few { workers ≤ MOST_WORKERS }
    ensures shape { OnOk result (KeepsShape tree.old tree.new) }
    ensures fitted { OnOk result (IsFitted tree.new boxes.now) }
    ensures value { OnOk result (tree.new.nodes ≡ table_of tree.old.keys boxes.now) }
    ensures memory { OnErr result (tree.new ≡ tree.old) }
    ensures ways { IfSome ways.new (λ w. IsWayUp w tree.old.keys) }
{
    let known = match ways.take() {
        Some(known) => known,
        None => BuiltWays::of(alloc, build, tree)?,
    };
    let done = refit(rt, alloc, tree, boxes, moved, &known, workers, gate);
    *ways = Some(known);
    done?;
    Ok(())
}
