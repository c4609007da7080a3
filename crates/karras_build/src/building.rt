//! The whole build after the order: spans, then fitted nodes.
//! The nodes' memory is first touched while the spans are found, which takes as long and needs none of them.

ghost use Rattle.std.specs.Prelude.{◌≡◌, ◌-◌, length, IfOk};
ghost use Rattle.morton_key.specs.Keys.{IsLawful};
ghost use Rattle.radix_tree.specs.Table.{IsTable};
ghost use Rattle.radix_tree.specs.Fit.{IsFitted, table_of};
ghost use Rattle.karras_build.specs.Spans.{AreSpans};

use crate::Span;
use crate::finding::{LEAST_LIST, spans};
use crate::fitting::{blank_nodes, fit_nodes};
use fixed_box::Box3;
use morton_key::Key;
use outside::Memory;
use radix_tree::{Node, Tree};
use std::alloc::Global;
use std::thread::{Threads, join};

/// The spans of the keys, and a node for each of them, still to be fitted.
fn prepare<R: Threads + Sync>(
    rt: &R,
    alloc: Global,
    keys: &[Key],
    boxes: &[Box3],
) -> Result<(Vec<Span>, Vec<Node>), Memory>
    requires { IsLawful keys.now }
    ensures spans { IfOk result (λ both. AreSpans keys.now both.0.items) }
    ensures room { IfOk result (λ both. length both.1.items ≡ length boxes.now - 1) }
{
    let (list, nodes) = if keys.len() < LEAST_LIST {
        (spans(rt, alloc, keys), blank_nodes(alloc, boxes))
    } else {
        let find = || -> Result<Vec<Span>, Memory>
            requires { IsLawful keys.now }
            ensures { IfOk result (λ list. AreSpans keys.entry.now list.items) }
        { spans(rt, alloc, keys) };
        join(rt, find, || blank_nodes(alloc, boxes))
    };
    Ok((list?, nodes.map_err(|_| Memory)?))
}

/// The tree of the keys, fitted to the boxes: `boxes[t - 1]` is the box of triangle `t`.
///
/// It is what `fit_joined` answers for the spans of the keys. A long list of nodes is made while its spans are found. It
/// takes memory for a list of each, and gives that of the spans back. After `Memory` the keys are dropped.
pub fn tree_by_threads<R: Threads + Sync>(
    rt: &R,
    alloc: Global,
    keys: Vec<Key>,
    boxes: &[Box3],
) -> Result<Tree, Memory>
    requires lawful { IsLawful keys.items }
    requires count { length boxes.now ≡ length keys.items }
    ensures keys { IfOk result (λ t. t.keys ≡ keys.items) }
    ensures table { IfOk result IsTable }
    ensures fitted { IfOk result (λ t. IsFitted t boxes.now) }
    ensures value { IfOk result (λ t. t.nodes ≡ table_of keys.items boxes.now) }
{
    let (spans, nodes) = prepare(rt, alloc, &keys, boxes)?;
    Ok(fit_nodes(rt, keys, &spans, boxes, nodes))
}
