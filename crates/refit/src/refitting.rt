//! The nodes above the leaves that moved, from these leaves up, which go down by the splits that stand in the tree.
//! Each call answers the box round its child's triangles, so a node's box is the union of two that are there already.

ghost use Rattle.std.specs.Prelude.{◌≡◌, ◌<◌, ℕ, AllPairs, length};
ghost use Rattle.std.specs.List.Sorted.{IsNonDecreasing};
ghost use Rattle.fixed_box.specs.Boxes.{IsLeastBox};
ghost use Rattle.morton_key.specs.Keys.{tri_at};
ghost use Rattle.radix_tree.specs.Ranges.{HasRange};
ghost use Rattle.radix_tree.specs.Table.{IsTable, node_at};
ghost use Rattle.radix_tree.specs.Fit.{box_of_triangle, boxes_in, IsFitted, table_of};
ghost use Rattle.radix_tree.specs.Filling.{IsChild, HasRow};
ghost use Rattle.arrival_core.specs.Tasks.{FitsButFor};
ghost use Rattle.refit.specs.Shapes.{KeepsShape};
ghost use Rattle.refit.specs.Stale.{AreFittedBut, AreParted};
ghost use Rattle.refit.specs.Subtrees.{IsUnder};

use fixed_box::{Box3, union};
use radix_tree::{Child, Tree, left, node_of, right};

/// The box of the triangle at a position.
pub(crate) fn box_at(tree: &Tree, boxes: &[Box3], position: u32) -> Box3
    requires count { length boxes.now ≡ length tree.now.keys }
    requires within { IsChild tree.now (Child.Leaf position) }
    ensures value { result ≡ box_of_triangle boxes.now (tri_at tree.now.keys position) }
    ensures least { IsLeastBox (boxes_in boxes.now tree.now.keys position position) result }
{
    radix_tree::box_at(tree.keys(), boxes, position as usize)
}

/// The positions up to one, and those behind it.
fn parted(moved: &[u32], split: u32) -> (&[u32], &[u32])
    requires { IsNonDecreasing moved.now }
    ensures { AreParted moved.now split result.0.now result.1.now }
{
    moved.split_at(moved.partition_point(|position| *position <= split))
}

/// Fits the nodes of a child's subtree that have a moved leaf below them, and answers the box round its triangles.
fn fit_under(tree: &mut Tree, boxes: &[Box3], moved: &[u32], child: Child) -> Box3
    requires table { IsTable tree.old }
    requires count { length boxes.now ≡ length tree.old.keys }
    requires child { IsChild tree.old child }
    requires rising { IsNonDecreasing moved.now }
    requires stale { AreFittedBut moved.now tree.old.keys boxes.now tree.old.nodes child }
    ensures table { IsTable tree.new }
    ensures keys { tree.new.keys ≡ tree.old.keys }
    ensures fit { (a b : ℕ) → HasRange tree.old.keys child a b →
        IsLeastBox (boxes_in boxes.now tree.old.keys a b) result }
    ensures kept { (k : ℕ) → HasRow tree.old.keys boxes.now tree.old.nodes k →
        HasRow tree.old.keys boxes.now tree.new.nodes k }
    ensures made { (k : ℕ) → IsUnder tree.old.keys child k → HasRow tree.old.keys boxes.now tree.new.nodes k }
{
    match child {
        Child::Leaf(position) => box_at(tree, boxes, position),
        Child::Inner(number) => {
            let node = node_of(tree, number);
            if moved.is_empty() {
                return node.fit;
            }
            let (near, far) = parted(moved, node.split);
            let first = left(tree, number);
            let second = right(tree, number);
            let round_first = fit_under(tree, boxes, near, first);
            let round_second = fit_under(tree, boxes, far, second);
            let fit = union(&round_first, &round_second);
            tree.put(number, fit);
            fit
        }
    }
}

/// Fits the tree to the boxes: `boxes[t - 1]` is the box of triangle `t`. Keys, ranges and splits are as before.
///
/// `moved` has the positions of the leaves whose triangles moved, rising; those of all others have the boxes that the
/// tree is fitted to. Only nodes with a moved leaf below them are fitted, each once, after all below it, so the time
/// grows with these nodes, and for each with the logarithm of the moved leaves below it. The recursion is at most one
/// call deeper than the tree is high. It takes no memory.
pub fn refit_in_turn(tree: &mut Tree, boxes: &[Box3], moved: &[u32])
    requires count { length boxes.now ≡ length tree.old.keys }
    requires rising { AllPairs (λ p q. p < q) moved.now }
    requires rest { FitsButFor tree.old boxes.now moved.now }
    ensures shape { KeepsShape tree.old tree.new }
    ensures fitted { IsFitted tree.new boxes.now }
    ensures value { tree.new.nodes ≡ table_of tree.old.keys boxes.now }
{
    if !tree.nodes().is_empty() {
        let _round_all = fit_under(tree, boxes, moved, Child::Inner(0));
    }
}
