//! The way down a tree: what stands below a node, and how far down it goes.
//! A child's number is read off its parent's split, so nothing is searched.

ghost use Rattle.std.specs.Prelude.{◌≡◌, ℕ, ◌+◌, ◌<◌, ◌≤◌, length, max};
ghost use Rattle.radix_tree.specs.Ranges.{HasRange};
ghost use Rattle.radix_tree.specs.Shape.{shape_in, shape_of, height_of};
ghost use Rattle.radix_tree.specs.Table.{node_at, IsTable};
ghost use Rattle.radix_tree.specs.Filling.{IsChild};

use crate::{Child, Node, Tree};
use morton_key::{POSITION_WIDTH, WIDTH};

/// The node of that number, which the table has. Its table is that of its keys.
pub fn node_of(t: &Tree, number: u32) -> Node
    requires { number < length t.now.nodes }
    ensures value { result ≡ node_at t.now.nodes number }
    ensures table { IsTable t.now }
{
    t.nodes()[number as usize]
}

/// The left child of the node of that number: the positions from its first to its split. It takes no memory.
pub fn left(t: &Tree, number: u32) -> Child
    requires { number < length t.now.nodes }
    ensures { HasRange t.now.keys result (node_at t.now.nodes number).first (node_at t.now.nodes number).split }
{
    let node = node_of(t, number);
    if node.first == node.split {
        Child::Leaf(node.split)
    } else {
        Child::Inner(node.split)
    }
}

/// The right child of the node of that number: the positions behind its split, to its last. It takes no memory.
pub fn right(t: &Tree, number: u32) -> Child
    requires { number < length t.now.nodes }
    ensures { HasRange t.now.keys result ((node_at t.now.nodes number).split + 1) (node_at t.now.nodes number).last }
{
    let node = node_of(t, number);
    if node.split + 1 == node.last {
        Child::Leaf(node.last)
    } else {
        Child::Inner(node.split + 1)
    }
}

/// The greater of `least` and the height of the tree below a child.
///
/// A subtree is at least one leaf larger than it is high, so one of few leaves is passed over.
fn height_over(t: &Tree, child: Child, least: u32) -> u32
    requires table { IsTable t.now }
    requires child { IsChild t.now child }
    requires least { least ≤ WIDTH + POSITION_WIDTH }
    ensures value { (a b : ℕ) → HasRange t.now.keys child a b → result ≡ max least (height_of (shape_in t.now.keys a b)) }
    ensures most { result ≤ WIDTH + POSITION_WIDTH }
{
    match child {
        Child::Leaf(_) => least,
        Child::Inner(number) => {
            let node = node_of(t, number);
            if node.last - node.first <= least {
                return least;
            }
            let over_left = height_over(t, left(t, number), least.saturating_sub(1));
            1 + height_over(t, right(t, number), over_left)
        }
    }
}

/// The greatest count of inner nodes on a way from the root to a leaf; 0 where there is no inner node.
///
/// It is at most `WIDTH + POSITION_WIDTH`, and so is the depth of its recursion but for one call. Subtrees of so few
/// leaves that they cannot be the highest are passed over. It takes no memory.
pub fn height(t: &Tree) -> u32
    ensures value { result ≡ height_of (shape_of t.now.keys) }
    ensures most { result ≤ WIDTH + POSITION_WIDTH }
{
    if t.nodes().is_empty() {
        0
    } else {
        height_over(t, Child::Inner(0), 0)
    }
}
