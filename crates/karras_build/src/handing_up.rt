//! The whole build after the order: spans, and the boxes handed up by workers over shared words.

ghost use Rattle.std.specs.Prelude.{◌≡◌, ◌<◌, ◌≤◌, length, IfOk};
ghost use Rattle.morton_key.specs.Keys.{IsLawful};
ghost use Rattle.radix_tree.specs.Table.{IsTable};
ghost use Rattle.radix_tree.specs.Fit.{IsFitted, table_of};
ghost use Rattle.box_handoff.specs.Counts.{IsBuildCounted};
ghost use Rattle.box_handoff.specs.Ends.{AreEnds};

use crate::{Links, links_of, spans};
use arrival_core::Tally;
use box_handoff::{Built, FittedNodes, fit_nodes};
use fixed_box::Box3;
use morton_key::Key;
use outside::{Gate, Memory};
use radix_tree::Tree;
use std::alloc::Global;
use std::thread::Threads;

/// The way up in the tree of the keys. The spans that it is found by are gone before anything is fitted.
fn ways_up<R: Threads + Sync>(rt: &R, alloc: Global, keys: &[Key]) -> Result<Links, Memory>
    requires lawful { IsLawful keys.now }
    requires two { 1 < length keys.now }
    ensures { IfOk result (λ l. AreEnds keys.now l.ways.first.items l.ways.last.items) }
{
    let list = spans(rt, alloc, keys)?;
    links_of(alloc, &list)
}

/// The tree of the keys, fitted to the boxes by so many workers: `boxes[t - 1]` is the box of triangle `t`.
///
/// It is the tree that `plain` answers, whatever the workers do and in whatever order. The tally counts what they did:
/// it is exact, and 0 with fewer than two keys, where no worker is started. Before each batch of leaves a worker passes
/// the gate. After `Memory` the keys are dropped.
pub fn build<R: Threads + Sync, G: Gate>(
    rt: &R,
    alloc: Global,
    keys: Vec<Key>,
    boxes: &[Box3],
    workers: u32,
    gate: &G,
) -> Result<Built, Memory>
    requires lawful { IsLawful keys.items }
    requires count { length boxes.now ≡ length keys.items }
    requires some { 0 < workers }
    requires few { workers ≤ 64 }
    ensures keys { IfOk result (λ b. b.tree.keys ≡ keys.items) }
    ensures table { IfOk result (λ b. IsTable b.tree) }
    ensures fitted { IfOk result (λ b. IsFitted b.tree boxes.now) }
    ensures value { IfOk result (λ b. b.tree.nodes ≡ table_of keys.items boxes.now) }
    ensures counts { IfOk result (λ b. IsBuildCounted (length keys.items) workers b.tally) }
{
    if keys.len() < 2 {
        return Ok(Built {
            tree: Tree::of(keys, Vec::new(alloc)),
            tally: Tally { fits: 0, steps: 0 },
        });
    }
    let ways = ways_up(rt, alloc, &keys)?;
    let FittedNodes { nodes, tally } = fit_nodes(rt, alloc, &ways, gate, &keys, boxes, workers)?;
    Ok(Built {
        tree: Tree::of(keys, nodes),
        tally,
    })
}
