//! A walk list: its records and its leaves, which agree as long as it stands.

ghost use Rattle.std.specs.Prelude.{◌≡◌, ◌<◌, ℕ, All, length};
ghost use Rattle.std.specs.List.Sorted.{IsNonDecreasing};
ghost use Rattle.fixed_box.specs.World.{BoxInWorld};
ghost use Rattle.walk_list.specs.Covering.{CoversAll};
ghost use Rattle.walk_list.specs.Leaves.{leaf_at};
ghost use Rattle.walk_list.specs.Lists.{IsOver};
ghost use Rattle.walk_list.specs.Moving.{AreOverBut};

use crate::mending::mend;
use crate::moving::move_leaves;
use crate::{Leaf, Record};
use fixed_box::Box3;
use std::marker::Model;

/// The records of a tree in depth-first order, and its leaves by position. Contracts see it as these two lists.
///
/// As long as it stands its records cover all its leaves: each box is in the world and contains those of all leaves
/// below it.
#[derive(Debug, Drop)]
pub struct WalkList {
    records: Vec<Record>,
    leaves: Vec<Leaf>,
}

impl Model for WalkList {
    ghost use Rattle.walk_list.specs.Lists.{Contents};
    ghost use Rattle.walk_list.specs.Covering.{CoversAll};

    ghost Value = { Contents };

    ghost view = { λ f. record { records = f.records.items; leaves = f.leaves.items } };

    ghost invariant = { λ f. CoversAll f.leaves.items f.records.items };
}

impl WalkList {
    /// These records over these leaves.
    pub(crate) fn of(records: Vec<Record>, leaves: Vec<Leaf>) -> WalkList
        requires { CoversAll leaves.items records.items }
        ensures records { result.records ≡ records.items }
        ensures leaves { result.leaves ≡ leaves.items }
    {
        WalkList { records, leaves }
    }

    /// The records, in depth-first order. It takes no memory.
    pub fn records(&self) -> &[Record]
        ensures records { result.now ≡ self.now.records }
        ensures covers { CoversAll self.now.leaves self.now.records }
    {
        self.records.as_slice()
    }

    /// The leaves, by position. It takes no memory.
    pub fn leaves(&self) -> &[Leaf]
        ensures { result.now ≡ self.now.leaves }
    {
        self.leaves.as_slice()
    }

    /// Mends the list after triangles moved, so that it is over `boxes`: `boxes[n - 1]` is the box of triangle `n`.
    ///
    /// `moved` has the positions of those that moved, rising; the leaf at any other position has its triangle's box
    /// already. Only records with a moved leaf below them are mended, from below, each with the least box round its
    /// leaves or its two parts. It takes no memory; its recursion is at most one call deeper than the tree is high.
    pub fn refit(&mut self, boxes: &[Box3], moved: &[u32])
        requires rising { IsNonDecreasing moved.now }
        requires within { All (λ p. p < length self.old.leaves) moved.now }
        requires world { All BoxInWorld boxes.now }
        requires over { AreOverBut self.old.leaves boxes.now moved.now }
        ensures over { IsOver self.new boxes.now }
        // each triangle stays at its position
        ensures numbers { (p : ℕ) → (leaf_at self.new.leaves p).number ≡ (leaf_at self.old.leaves p).number }
    {
        move_leaves(self.leaves.as_mut_slice(), boxes, moved);
        if !self.records.is_empty() {
            mend(
                self.records.as_mut_slice(),
                self.leaves.as_slice(),
                moved,
                0,
            );
        }
    }
}
