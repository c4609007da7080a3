//! The whole build after the order: the measures of the neighbours, then one pass by workers.

ghost use Rattle.std.specs.Prelude.{◌≡◌, ◌<◌, ◌≤◌, length, IfOk};
ghost use Rattle.morton_key.specs.Keys.{IsLawful};
ghost use Rattle.radix_tree.specs.Table.{IsTable};
ghost use Rattle.radix_tree.specs.Fit.{IsFitted, table_of};
ghost use Rattle.box_handoff.specs.Counts.{IsBuildCounted};

use crate::Deltas;
use arrival_core::MOST_WORKERS;
use box_handoff::{Built, FittedNodes, Tally, fit_nodes};
use fixed_box::Box3;
use morton_key::Key;
use outside::{Gate, Memory};
use radix_tree::Tree;
use std::alloc::Global;
use std::thread::Threads;

/// The tree of the keys, fitted to the boxes by so many workers, each with a seat in a thread of its own where there is
/// one: `boxes[t - 1]` is the box of triangle `t`.
///
/// It is the tree of the plain build for every count of workers, from 1 to 64. The tally is the workers' added up;
/// fewer than two keys make no node, and nobody works. After `Memory` the keys are dropped.
///
/// The parent of a range is told by its nearer neighbour (Apetrei, 2014), and who comes second at a node fits it.
pub fn build<R: Threads + Sync, G: Gate>(
    rt: &R,
    alloc: Global,
    keys: Vec<Key>,
    boxes: &[Box3],
    workers: u32,
    gate: &G,
) -> Result<Built, Memory>
    requires lawful { IsLawful keys.items }
    requires count { length boxes.now ≡ length keys.items }
    requires some { 0 < workers }
    requires few { workers ≤ MOST_WORKERS }
    ensures keys { IfOk result (λ b. b.tree.keys ≡ keys.items) }
    ensures table { IfOk result (λ b. IsTable b.tree) }
    ensures fitted { IfOk result (λ b. IsFitted b.tree boxes.now) }
    ensures value { IfOk result (λ b. b.tree.nodes ≡ table_of keys.items boxes.now) }
    ensures counts { IfOk result (λ b. IsBuildCounted (length keys.items) workers b.tally) }
{
    if keys.len() < 2 {
        return Ok(Built {
            tree: Tree::of(keys, Vec::new(alloc)),
            tally: Tally { fits: 0, steps: 0 },
        });
    }
    let ways = Deltas::new(alloc, &keys)?;
    let FittedNodes { nodes, tally } = fit_nodes(rt, alloc, &ways, gate, &keys, boxes, workers)?;
    Ok(Built {
        tree: Tree::of(keys, nodes),
        tally,
    })
}
