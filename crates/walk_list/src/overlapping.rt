//! The triangles whose boxes meet a box, by a walk over a tree laid flat, with no stack.

ghost use Rattle.std.specs.Prelude.{◌≡◌, List, IfOk};
ghost use Rattle.fixed_box.specs.declared.shapes.Box3.{Box3};
ghost use Rattle.traversal.specs.Overlaps.{overlaps_of};
ghost use Rattle.walk_list.specs.Lists.{IsOver};

use crate::WalkList;
use crate::collecting::collect;
use crate::sorting::sorted;
use fixed_box::Box3;
use outside::Memory;
use std::alloc::Global;
use traversal::Numbers;

/// The triangles whose boxes meet the box, rising. Boxes are closed: one that only touches the queried box meets it.
///
/// The walk takes no memory but for the answer's list; many numbers take a bit for each from the least to the greatest,
/// and a second list, to be put in order.
pub fn overlaps(alloc: Global, f: &WalkList, q: &Box3) -> Result<Numbers, Memory>
    ensures { (boxes : List Box3) → IsOver f.now boxes →
        IfOk result (λ numbers. numbers ≡ overlaps_of boxes q.now) }
{
    let mut numbers = Vec::new(alloc);
    let Ok(_) = collect(f.records(), f.leaves(), q, &mut numbers) else {
        return Err(Memory);
    };
    let numbers = sorted(alloc, numbers);
    Ok(Numbers::new(numbers))
}
