//! What the tests of all queries share: boxes and triangles that jump about, their tree, and its walk list.

mod boxes;
mod moves;
mod segments;
mod sorting;

ghost use Rattle.std.specs.Prelude.{◌≡◌, map, All, IfOk, IsTrue};
ghost use Rattle.fixed_box.specs.Extent.{tri_box};
ghost use Rattle.fixed_box.specs.World.{BoxInWorld};
ghost use Rattle.radix_tree.specs.Fit.{IsFitted};
ghost use Rattle.walk_list.specs.Lists.{IsOver};

use crate::{WalkList, flatten};
use fixed_box::{Box3, Point, Tri, box_of, in_world};
use morton_key::order;
use outside::Memory;
use radix_tree::{Tree, plain};
use std::alloc::{AllocError, Global};
use std::process::Abort;

pub(crate) fn at(x: i32, y: i32, z: i32) -> Point {
    Point { x, y, z }
}

/// Whether all boxes lie in the world.
fn all_in_world(boxes: &[Box3]) -> bool
    ensures { IsTrue result → All BoxInWorld boxes.now }
{
    boxes.iter().all(|b| in_world(&b.lo) && in_world(&b.hi))
}

/// The tree of a thousand boxes or fewer, which have to lie in the world.
pub(crate) fn tree_of(rt: &impl Abort, alloc: Global, boxes: &[Box3]) -> Result<Tree, Memory>
    ensures { IfOk result (λ t. IsFitted t boxes.now) }
{
    assert!(rt; boxes.len() <= 1000);
    assert!(rt; all_in_world(boxes));
    let keys = order(alloc, boxes)?;
    plain(alloc, keys, boxes)
}

/// The walk list of the tree.
pub(crate) fn list_of(
    rt: &impl Abort,
    alloc: Global,
    t: &Tree,
    boxes: &[Box3],
) -> Result<WalkList, Memory>
    requires { IsFitted t.now boxes.now }
    ensures { IfOk result (λ list. IsOver list boxes.now) }
{
    assert!(rt; all_in_world(boxes));
    flatten(alloc, t, boxes)
}

pub(crate) fn boxes_of(alloc: Global, tris: &[Tri]) -> Result<Vec<Box3>, AllocError>
    ensures { IfOk result (λ boxes. boxes.items ≡ map tri_box tris.now) }
{
    tris.iter().map(|t| box_of(t)).collect(alloc)
}

/// The next number of a sequence that jumps about.
pub(crate) fn jump(seed: u64) -> u64 {
    seed.wrapping_mul(6364136223846793005)
        .wrapping_add(1442695040888963407)
}

/// A number from 0 to 7.
pub(crate) fn digit(seed: u64) -> i32 {
    i32::from((seed >> 61) as u8)
}

/// A lower and an upper end round one of three middles.
fn extent(seed: u64) -> (i32, i32) {
    let middle = digit(seed) % 3;
    let reach = digit(jump(seed)) % 3;
    (middle - reach, middle + reach)
}

/// Boxes of many sizes round the middles of a block of 3 by 3 by 3 steps, so that most codes stand many times.
pub(crate) fn crowd(alloc: Global, count: usize, start: u64) -> Result<Vec<Box3>, AllocError> {
    let mut boxes = Vec::new(alloc);
    let mut seed = start;
    for _ in 0..count {
        let (left, right) = extent(seed);
        let (front, back) = extent(jump(jump(seed)));
        let (bottom, top) = extent(jump(jump(jump(jump(seed)))));
        boxes.push(Box3::of_corners(at(left, front, bottom), at(right, back, top)))?;
        seed = jump(jump(jump(jump(jump(jump(seed))))));
    }
    Ok(boxes)
}
