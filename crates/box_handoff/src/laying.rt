//! What a table starts with that has words for the live nodes alone.
//!
//! A walk down from the root goes no farther than the live nodes and their children. It meets the nodes in the order of
//! their splits: all on the left of a node have smaller ones, and all on its right larger ones.
ghost use Rattle.std.specs.Prelude.{◌≡◌, ◌<◌, ◌≤◌, ◌+◌, ◌-◌, ◌++◌, ◌∷◌, ℕ, [], AllPairs, length, IfOk, replicate, Some};
ghost use Rattle.radix_tree.specs.Table.{node_at};
ghost use Rattle.radix_tree.specs.Ranges.{HasRange};
ghost use Rattle.radix_tree.specs.Filling.{IsChild};
ghost use Rattle.arrival_core.specs.declared.packets.TheConstants.{MOST_WORKERS};
ghost use Rattle.arrival_core.specs.Settings.{setting, live_in, batch_count};
ghost use Rattle.arrival_core.specs.Tasks.{IsTask, FitsButFor};
ghost use Rattle.box_handoff.specs.LiveNodes.{live_splits, splits_of};
ghost use Rattle.box_handoff.specs.Starting.{start_word};
ghost use Rattle.box_handoff.specs.Laying.{AreMoves, Added, over, words_of};

use crate::making::zeros;
use arrival_core::BATCH;
use fixed_box::Box3;
use outside::Memory;
use radix_tree::{Child, Node, Tree, left, node_of, right};
use std::alloc::Global;

/// A tree, the boxes of its triangles now, and the positions of those that may have changed, for so many seats.
#[derive(Clone, Copy)]
pub struct Moves<'a> {
    pub tree: &'a Tree,
    pub boxes: &'a [Box3],
    pub live: &'a [u32],
    pub seats: u32,
}

/// What is laid down: the split of each live node, and the words.
#[derive(Drop)]
pub struct Laid {
    pub spots: Vec<u32>,
    pub words: Vec<u64>,
}

/// Whether some live position lies in a range. The live ones rise, so the first that is not below the range tells.
fn is_live(live: &[u32], first: u32, last: u32) -> bool
    requires rising { AllPairs (λ p q. p < q) live.now }
    ensures { result ≡ live_in live.now first last }
{
    let at = live.partition_point(|q| *q < first);
    if at == live.len() {
        return false;
    }
    live[at] <= last
}

/// The word of a live node as it starts, by whether its children are live: one that is not is opened and has arrived.
fn word_of(left: bool, right: bool) -> u64
    ensures { result ≡ start_word left right }
{
    match (left, right) {
        (true, true) => 0b0000,
        (true, false) => 0b1010,
        (false, true) => 0b0101,
        (false, false) => 0b1111,
    }
}

/// Puts a node behind what is laid down.
fn push(laid: &mut Laid, split: u32, word: u64) -> Result<(), Memory>
    ensures spots { IfOk result (λ _. laid.new.spots.items ≡ laid.old.spots.items ++ split ∷ []) }
    ensures words { IfOk result (λ _. laid.new.words.items ≡ laid.old.words.items ++ word ∷ []) }
{
    let Ok(()) = laid.spots.push(split) else {
        return Err(Memory);
    };
    let Ok(()) = laid.words.push(word) else {
        return Err(Memory);
    };
    Ok(())
}

/// Lays the node of a number down.
fn lay_node(m: &Moves<'_>, number: u32, node: &Node, laid: &mut Laid) -> Result<(), Memory>
    requires moves { AreMoves m.now }
    requires number { number < length m.now.tree.now.nodes }
    requires node { node.now ≡ node_at m.now.tree.now.nodes number }
    ensures { IfOk result (λ _. Added (over m.now) laid.old laid.new (node.now.split ∷ [])) }
{
    let on_left = is_live(m.live, node.first, node.split);
    let on_right = is_live(m.live, node.split + 1, node.last);
    push(laid, node.split, word_of(on_left, on_right))
}

/// Lays down the live nodes of the subtree of a child, in the order of their splits.
fn lay_under(m: &Moves<'_>, child: Child, laid: &mut Laid) -> Result<(), Memory>
    requires moves { AreMoves m.now }
    requires child { IsChild m.now.tree.now child }
    ensures { (a b : ℕ) → HasRange m.now.tree.now.keys child a b →
        IfOk result (λ _. Added (over m.now) laid.old laid.new (live_splits (over m.now) a (b - a))) }
{
    let Child::Inner(number) = child else {
        return Ok(());
    };
    let node = node_of(m.tree, number);
    if !is_live(m.live, node.first, node.last) {
        return Ok(());
    }
    lay_under(m, left(m.tree, number), laid)?;
    lay_node(m, number, &node, laid)?;
    lay_under(m, right(m.tree, number), laid)
}

/// The live nodes of a tree, with their words behind those of the batches.
pub fn lay_down(alloc: Global, m: &Moves<'_>) -> Result<Laid, Memory>
    requires moves { AreMoves m.now }
    ensures spots { IfOk result (λ l. l.spots.items ≡ splits_of (over m.now)) }
    ensures words { IfOk result (λ l. l.words.items ≡
        replicate (batch_count m.now.live.now) 0 ++ words_of (over m.now) (splits_of (over m.now))) }
{
    let mut laid = Laid {
        spots: Vec::new(alloc),
        words: zeros(alloc, m.live.len().div_ceil(BATCH))?,
    };
    lay_under(m, Child::Inner(0), &mut laid)?;
    Ok(laid)
}
