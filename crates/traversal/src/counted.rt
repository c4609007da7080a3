//! The work of a box apart from its numbers: how many boxes the walk would test, counted over the tree's nodes.

ghost use Rattle.std.specs.Prelude.{◌≡◌, ℕ, ◌+◌, ◌*◌, ◌^◌, ◌<◌};
ghost use Rattle.radix_tree.specs.Ranges.{HasRange};
ghost use Rattle.radix_tree.specs.Table.{IsTable};
ghost use Rattle.radix_tree.specs.Fit.{IsFitted};
ghost use Rattle.radix_tree.specs.Filling.{IsChild};
ghost use Rattle.traversal.specs.Overlaps.{work_of};
ghost use Rattle.traversal.specs.Walks.{met_below};

use crate::beginning::root;
use crate::overlapping::node_meets;
use fixed_box::Box3;
use radix_tree::{Child, Tree, left, right};

/// How many boxes are tested at a child and below it. A triangle's own box is one, whether it meets or not.
fn count_below(t: &Tree, boxes: &[Box3], q: &Box3, child: Child) -> u64
    requires table { IsTable t.now }
    requires fitted { IsFitted t.now boxes.now }
    requires child { IsChild t.now child }
    ensures tests { (a b : ℕ) → HasRange t.now.keys child a b → result ≡ 1 + 2 * met_below t.now.nodes q.now child a b }
    ensures few { result < 2 ^ 22 }
{
    match child {
        Child::Leaf(_) => 1,
        Child::Inner(number) => {
            if !node_meets(t, q, number) {
                return 1;
            }
            let on_left = count_below(t, boxes, q, left(t, number));
            let on_right = count_below(t, boxes, q, right(t, number));
            1 + on_left + on_right
        }
    }
}

/// The work of a box, as `overlaps` tells it, with no list of what it meets. It takes no memory, and is at most one
/// call deeper than the tree is high.
///
/// The tree has to be fitted to the boxes; no triangle's box is read.
pub fn work(t: &Tree, boxes: &[Box3], q: &Box3) -> u64
    requires { IsFitted t.now boxes.now }
    ensures { result ≡ work_of t.now.keys boxes.now q.now }
{
    match root(t) {
        Some(child) => count_below(t, boxes, q, child),
        None => 0,
    }
}
