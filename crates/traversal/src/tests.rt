//! What the tests of both queries share: points, trees of given boxes, and numbers that jump about.

mod nearest;
mod overlaps;

ghost use Rattle.std.specs.Prelude.{IfOk};
ghost use Rattle.radix_tree.specs.Fit.{IsFitted};

use fixed_box::{Box3, Point, Tri, in_world};
use morton_key::order;
use outside::Memory;
use radix_tree::{Tree, plain};
use std::alloc::Global;
use std::process::Abort;

pub(crate) fn at(x: i32, y: i32, z: i32) -> Point {
    Point { x, y, z }
}

pub(crate) fn corner(c: [i32; 3]) -> Point {
    at(c[0], c[1], c[2])
}

pub(crate) fn triangle(corners: [[i32; 3]; 3]) -> Tri {
    Tri {
        a: corner(corners[0]),
        b: corner(corners[1]),
        c: corner(corners[2]),
    }
}

/// The tree of a thousand boxes or fewer, which have to lie in the world.
pub(crate) fn tree_of(rt: &impl Abort, alloc: Global, boxes: &[Box3]) -> Result<Tree, Memory>
    ensures { IfOk result (λ t. IsFitted t boxes.now) }
{
    assert!(rt; boxes.len() <= 1000);
    assert!(rt; boxes.iter().all(|b| in_world(&b.lo) && in_world(&b.hi)));
    let keys = order(alloc, boxes)?;
    plain(alloc, keys, boxes)
}

/// A square floor of two triangles, and behind it a ramp of two.
pub(crate) const LEVEL: [[[i32; 3]; 3]; 4] = [
    [[0, 0, 0], [256, 0, 0], [256, 256, 0]],
    [[0, 0, 0], [256, 256, 0], [0, 256, 0]],
    [[256, 0, 0], [416, 0, 80], [416, 256, 80]],
    [[256, 0, 0], [416, 256, 80], [256, 256, 0]],
];

/// The next number of a sequence that jumps about.
pub(crate) fn jump(seed: u64) -> u64 {
    seed.wrapping_mul(6364136223846793005)
        .wrapping_add(1442695040888963407)
}

/// A number from 0 to 7.
pub(crate) fn digit(seed: u64) -> u8 {
    (seed >> 61) as u8
}
