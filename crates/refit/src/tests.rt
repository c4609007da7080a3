//! Trees worked by hand before and after their boxes moved, and one of many boxes against a scan.

ghost use Rattle.std.specs.Prelude.{IfOk};
ghost use Rattle.radix_tree.specs.Fit.{IsFitted};

use crate::{moved, refit_in_turn};
use fixed_box::{Box3, Point, in_world};
use morton_key::order;
use outside::Memory;
use radix_tree::{Node, Tree, plain};
use std::alloc::{AllocError, Global};
use std::process::Abort;
use std::rt::HostRuntime;
use std::test::Fail;

pub(crate) fn at(x: i32, y: i32, z: i32) -> Point {
    Point { x, y, z }
}

fn around(lo: Point, hi: Point) -> Box3 {
    Box3::of_corners(lo, hi)
}

fn node(first: u32, last: u32, split: u32, fit: Box3) -> Node {
    Node {
        first,
        last,
        split,
        fit,
    }
}

/// The tree that a build over these boxes makes.
fn built<R: Abort>(rt: &R, alloc: Global, boxes: &[Box3]) -> Result<Tree, Memory>
    ensures { IfOk result (λ tree. IsFitted tree boxes.now) }
{
    assert!(rt; boxes.len() <= 1000);
    assert!(rt; boxes.iter().all(|b| in_world(&b.lo) && in_world(&b.hi)));
    plain(alloc, order(alloc, boxes)?, boxes)
}

/// Builds a tree over some boxes, fits it to others, and answers it with the positions of those that moved.
fn refitted<R: Abort>(
    rt: &R,
    alloc: Global,
    before: &[Box3],
    boxes: &[Box3],
) -> Result<(Tree, Vec<u32>), Fail> {
    assert!(rt; boxes.len() == before.len());
    let mut tree = built(rt, alloc, before)?;
    let moved = moved(alloc, &tree, before, boxes)?;
    refit_in_turn(&mut tree, boxes, &moved);
    Ok((tree, moved))
}

#[test]
fn a_triangle_that_moved_far_keeps_its_place_in_the_tree(rt: HostRuntime) -> Result<(), Fail> {
    let first = around(at(0, 0, 0), at(4, 4, 0));
    let second = around(at(100, 0, 0), at(104, 4, 0));
    let third = around(at(200, 0, 0), at(204, 4, 0));
    let far = around(at(300, 0, 0), at(304, 4, 0));
    let still = refitted(
        &rt,
        rt.alloc(),
        &[first, second, third],
        &[first, second, third],
    )?;
    let expected = [
        node(0, 2, 1, around(at(0, 0, 0), at(204, 4, 0))),
        node(0, 1, 0, around(at(0, 0, 0), at(104, 4, 0))),
    ];
    assert_eq!(rt; still.0.nodes(), expected.as_slice());
    assert_eq!(rt; still.1.len(), 0);
    let moved = refitted(
        &rt,
        rt.alloc(),
        &[first, second, third],
        &[far, second, third],
    )?;
    let expected = [
        node(0, 2, 1, around(at(100, 0, 0), at(304, 4, 0))),
        node(0, 1, 0, around(at(100, 0, 0), at(304, 4, 0))),
    ];
    assert_eq!(rt; moved.0.nodes(), expected.as_slice());
    assert_eq!(rt; moved.1.as_slice(), [0_u32].as_slice());
    Ok(())
}

#[test]
fn no_triangle_and_one_have_nothing_to_fit(rt: HostRuntime) -> Result<(), Fail> {
    let one = around(at(1, 2, 3), at(4, 5, 6));
    let other = around(at(1, 2, 3), at(9, 5, 6));
    let none = refitted(&rt, rt.alloc(), &[], &[])?;
    assert_eq!(rt; none.0.nodes().len(), 0);
    let single = refitted(&rt, rt.alloc(), &[one], &[other])?;
    assert_eq!(rt; single.0.nodes().len(), 0);
    assert_eq!(rt; single.0.keys().len(), 1);
    assert_eq!(rt; single.1.as_slice(), [0_u32].as_slice());
    Ok(())
}

/// The next number of a sequence that jumps about.
pub(crate) fn jump(seed: u64) -> u64 {
    seed.wrapping_mul(6364136223846793005)
        .wrapping_add(1442695040888963407)
}

fn coordinate(seed: u64) -> i32 {
    (seed >> 40) as i32 % 1000 - 500
}

/// So many boxes of a sequence, scattered over a cube.
pub(crate) fn scattered(
    alloc: Global,
    count: usize,
    mut seed: u64,
) -> Result<Vec<Box3>, AllocError> {
    let mut boxes = Vec::with_capacity(alloc, count)?;
    for _ in 0..count {
        let lo = at(
            coordinate(seed),
            coordinate(jump(seed)),
            coordinate(seed >> 8),
        );
        seed = jump(jump(seed));
        let hi = at(
            coordinate(seed),
            coordinate(jump(seed)),
            coordinate(seed >> 8),
        );
        seed = jump(jump(seed));
        boxes.push(around(lo, hi))?;
    }
    Ok(boxes)
}

/// The box round those of a node's range, one coordinate at a time.
fn scanned(tree: &Tree, boxes: &[Box3], node: &Node) -> Option<(Point, Point)> {
    let keys = tree
        .keys()
        .get(node.first as usize..node.last as usize + 1)?;
    let mut lo = at(i32::MAX, i32::MAX, i32::MAX);
    let mut hi = at(i32::MIN, i32::MIN, i32::MIN);
    for key in keys {
        let around = boxes.get((key.tri as usize).checked_sub(1)?)?;
        lo = at(
            lo.x.min(around.lo.x),
            lo.y.min(around.lo.y),
            lo.z.min(around.lo.z),
        );
        hi = at(
            hi.x.max(around.hi.x),
            hi.y.max(around.hi.y),
            hi.z.max(around.hi.z),
        );
    }
    Some((lo, hi))
}

/// The boxes of before, but for each one at a multiple of `every`, which is taken from those of after.
fn some_moved(
    alloc: Global,
    before: &[Box3],
    after: &[Box3],
    every: usize,
) -> Result<Vec<Box3>, AllocError> {
    let mut boxes = Vec::with_capacity(alloc, before.len())?;
    for (i, (old, new)) in before.iter().zip(after).enumerate() {
        boxes.push(if every != 0 && i % every == 0 {
            *new
        } else {
            *old
        })?;
    }
    Ok(boxes)
}

#[test]
fn two_hundred_boxes_of_which_some_or_all_moved_are_fitted_as_a_scan_finds(
    rt: HostRuntime,
) -> Result<(), Fail> {
    let before = scattered(rt.alloc(), 200, 2026)?;
    let after = scattered(rt.alloc(), 200, 731)?;
    let fresh = built(&rt, rt.alloc(), &before)?;
    for (every, count) in [(1, 200), (2, 100), (7, 29), (150, 2), (0, 0)] {
        let boxes = some_moved(rt.alloc(), &before, &after, every)?;
        let (tree, moved) = refitted(&rt, rt.alloc(), &before, &boxes)?;
        assert_eq!(rt; moved.len(), count);
        assert!(rt; tree.keys() == fresh.keys());
        assert_eq!(rt; tree.nodes().len(), 199);
        for (node, old) in tree.nodes().iter().zip(fresh.nodes()) {
            assert_eq!(rt;
                (node.first, node.last, node.split),
                (old.first, old.last, old.split)
            );
            assert_eq!(rt;
                Some((node.fit.lo, node.fit.hi)),
                scanned(&tree, &boxes, node)
            );
        }
    }
    Ok(())
}
