//! Records mended after their leaves moved: each with a moved leaf below it gets the least box round its leaves or its
//! two parts, from below. What lies below any other record is not looked at.

ghost use Rattle.std.specs.Prelude.{◌≡◌, ℕ, ◌<◌, ◌≤◌, false, length, All, IsTrue};
ghost use Rattle.std.specs.List.Sorted.{IsNonDecreasing};
ghost use Rattle.fixed_box.specs.World.{BoxInWorld};
ghost use Rattle.walk_list.specs.Covering.{Bounds, Covers, CoversBy};
ghost use Rattle.walk_list.specs.Leaves.{leaf_at};
ghost use Rattle.walk_list.specs.Records.{record_at};
ghost use Rattle.walk_list.specs.Stale.{IsMovedBetween, BoundsBut, AreInWorld};

use crate::{Leaf, Record};
use fixed_box::{Box3, union};

/// Whether one of the positions is from `first` up to `end`, `end` left out.
fn holds(moved: &[u32], first: usize, end: usize) -> bool
    requires { IsNonDecreasing moved.now }
    ensures { result ≡ false → IsMovedBetween moved.now first end → ⊥ }
{
    let next = moved.partition_point(|position| (*position as usize) < first);
    next < moved.len() && (moved[next] as usize) < end
}

/// The least box round those of the leaves from one position up to another.
fn around(leaves: &[Leaf], first: usize, end: usize) -> Box3
    requires order { first < end }
    requires within { end ≤ length leaves.now }
    requires world { AreInWorld leaves.now }
    ensures { Bounds leaves.now result first end }
{
    let mut fit = leaves[first].fit;
    for position in first + 1..end {
        fit = union(&fit, &leaves[position].fit);
    }
    fit
}

/// Mends the boxes of a subtree's records, the first leaf of which is at `position`, and answers its own box.
pub(crate) fn mend(records: &mut [Record], leaves: &[Leaf], moved: &[u32], position: usize) -> Box3
    requires some { 0 < length records.old }
    requires rising { IsNonDecreasing moved.now }
    requires world { AreInWorld leaves.now }
    requires within { (record_at records.old 0).end ≤ length leaves.now }
    requires stale { CoversBy (BoundsBut leaves.now moved.now) records.old position (record_at records.old 0).end }
    ensures covers { Covers leaves.now records.new position (record_at records.old 0).end }
    ensures fit { result ≡ (record_at records.new 0).fit }
{
    let own = records[0];
    let end = own.end as usize;
    if !holds(moved, position, end) {
        return own.fit;
    }
    if own.escape == 1 {
        let fit = around(leaves, position, end);
        records[0].fit = fit;
        return fit;
    }
    let left = records[1];
    let cut = 1 + left.escape as usize;
    let (front, on_right) = records.split_at_mut(cut);
    let (first, on_left) = front.split_at_mut(1);
    let near = mend(on_left, leaves, moved, position);
    let far = mend(on_right, leaves, moved, left.end as usize);
    let fit = union(&near, &far);
    first[0].fit = fit;
    fit
}
