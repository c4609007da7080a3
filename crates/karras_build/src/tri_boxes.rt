//! The boxes of triangles, over which keys are put in order and trees are made.

ghost use Rattle.std.specs.Prelude.{◌≡◌, map, length, All, IfOk};
ghost use Rattle.fixed_box.specs.Extent.{tri_box};
ghost use Rattle.fixed_box.specs.World.{BoxInWorld, TriInWorld};

use fixed_box::{Box3, Tri, box_of};
use outside::Memory;
use std::alloc::{AllocError, Global};

/// The least box of each triangle.
fn boxes_in_turn(alloc: Global, tris: &[Tri]) -> Result<Vec<Box3>, AllocError>
    ensures { IfOk result (λ boxes. boxes.items ≡ map tri_box tris.now) }
{
    tris.iter().map(|t| box_of(t)).collect(alloc)
}

/// The least box of each triangle, in their order: `boxes[t - 1]` is that of triangle `t`.
///
/// A tree that is fitted to them is one over the triangles, as `traversal::nearest` asks.
pub fn boxes_of(alloc: Global, tris: &[Tri]) -> Result<Vec<Box3>, Memory>
    ensures boxes { IfOk result (λ boxes. boxes.items ≡ map tri_box tris.now) }
    ensures count { IfOk result (λ boxes. length boxes.items ≡ length tris.now) }
    ensures world { All TriInWorld tris.now → IfOk result (λ boxes. All BoxInWorld boxes.items) }
{
    match boxes_in_turn(alloc, tris) {
        Ok(boxes) => Ok(boxes),
        Err(_) => Err(Memory),
    }
}
