//! The trees of both builds over meshes of which many triangles have one code.

use box_handoff::Built;
use fixed_box::{Box3, Point, in_world};
use morton_key::order;
use outside::{Memory, OpenGate};
use radix_tree::Node;
use std::alloc::{AllocError, Global};
use std::process::Abort;
use std::rt::HostRuntime;
use std::test::Fail;
use std::thread::Threads;

/// The next number of a sequence that jumps about.
fn jump(seed: u64) -> u64 {
    seed.wrapping_mul(6364136223846793005)
        .wrapping_add(1442695040888963407)
}

/// A place of a floor of 16 by 16 places, and one of two heights.
fn place(seed: u64) -> Point {
    let number = (seed >> 40) as i32;
    Point {
        x: number % 16,
        y: number / 16 % 16,
        z: number / 256 % 2,
    }
}

/// Boxes between such places, of which many have one middle, and so one code.
fn scattered(alloc: Global, count: usize, start: u64) -> Result<Vec<Box3>, AllocError> {
    let mut boxes = Vec::with_capacity(alloc, count)?;
    let mut seed = jump(start);
    for _ in 0..count {
        let corner = place(seed);
        seed = jump(seed);
        boxes.push(Box3::of_corners(corner, place(seed)))?;
        seed = jump(seed);
    }
    Ok(boxes)
}

/// What both builds answer by so many workers, Karras's first.
fn by_both<R: Threads + Sync + Abort>(
    rt: &R,
    alloc: Global,
    boxes: &[Box3],
    workers: u32,
) -> Result<(Built, Built), Memory> {
    assert!(rt; boxes.len() <= 200000);
    assert!(rt; 0 < workers && workers <= 64);
    assert!(rt; boxes.iter().all(|b| in_world(&b.lo) && in_world(&b.hi)));
    let keys = order(alloc, boxes)?;
    let alone = karras_build::build(rt, alloc, keys, boxes, workers, &OpenGate)?;
    let keys = order(alloc, boxes)?;
    let upward = apetrei_build::build(rt, alloc, keys, boxes, workers, &OpenGate)?;
    Ok((alone, upward))
}

#[test]
fn both_builds_make_one_tree_of_each_of_a_hundred_meshes(rt: HostRuntime) -> Result<(), Fail> {
    for mesh in 0..100 {
        let boxes = scattered(rt.alloc(), 9 * mesh, mesh as u64)?;
        for workers in [1, 3, 64] {
            let (alone, upward) = by_both(&rt, rt.alloc(), &boxes, workers)?;
            assert!(rt;
                alone.tree.keys() == upward.tree.keys(),
                "keys of mesh {mesh}"
            );
            assert!(rt;
                alone.tree.nodes() == upward.tree.nodes(),
                "nodes of mesh {mesh}"
            );
            assert_eq!(rt; alone.tally.fits, upward.tally.fits);
            assert_eq!(rt; alone.tally.steps, upward.tally.steps);
        }
    }
    Ok(())
}

// The event of each worker that looks for the one batch; two leaves that are opened and arrive; a node that is collected
// and left.
#[test]
fn two_equal_triangles_are_fitted_once_by_any_number_of_workers(
    rt: HostRuntime,
) -> Result<(), Fail> {
    let one = Box3::of_corners(Point { x: 0, y: 0, z: 0 }, Point { x: 4, y: 4, z: 0 });
    let node = Node {
        first: 0,
        last: 1,
        split: 0,
        fit: one,
    };
    for workers in [2, 4, 64] {
        let (alone, upward) = by_both(&rt, rt.alloc(), &[one, one], workers)?;
        for built in [&alone, &upward] {
            assert_eq!(rt; built.tree.nodes(), [node].as_slice());
            assert_eq!(rt; built.tally.fits, 1);
            assert_eq!(rt; built.tally.steps, u64::from(workers) + 6);
        }
    }
    Ok(())
}
