//! Leaves whose triangles moved: their new boxes.

ghost use Rattle.std.specs.Prelude.{◌<◌, All, length};
ghost use Rattle.walk_list.specs.Stale.{HaveBoxes, Moves};

use crate::Leaf;
use fixed_box::Box3;

/// Gives each leaf at a moved position the box of its triangle.
pub(crate) fn move_leaves(leaves: &mut [Leaf], boxes: &[Box3], moved: &[u32])
    requires within { All (λ p. p < length leaves.old) moved.now }
    requires boxes { HaveBoxes leaves.old boxes.now }
    ensures { Moves boxes.now moved.now leaves.old leaves.new }
{
    for position in moved {
        let leaf = &mut leaves[*position as usize];
        leaf.fit = boxes[leaf.number as usize - 1];
    }
}
