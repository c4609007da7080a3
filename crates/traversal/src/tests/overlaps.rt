//! Worked queries, and many more over triangles with few codes, each against a test of every triangle and every node.

use crate::overlaps;
use crate::tests::{LEVEL, at, digit, jump, tree_of, triangle};
use fixed_box::{Box3, box_of, meets};
use radix_tree::Tree;
use std::alloc::{AllocError, Global};
use std::rt::HostRuntime;
use std::test::Fail;

fn between(c: [i32; 6]) -> Box3 {
    Box3::of_corners(at(c[0], c[1], c[2]), at(c[3], c[4], c[5]))
}

/// The box of the triangle (0, 0, 0), (4, 0, 0), (0, 4, 0).
fn small_triangle() -> Box3 {
    box_of(&triangle([[0, 0, 0], [4, 0, 0], [0, 4, 0]]))
}

#[test]
fn boxes_that_only_touch_overlap_where_the_triangle_does_not(rt: HostRuntime) -> Result<(), Fail> {
    let boxes = [small_triangle()];
    let t = tree_of(&rt, rt.alloc(), &boxes)?;
    let touching = overlaps(rt.alloc(), &t, &boxes, &between([4, 4, 0, 9, 9, 0]))?;
    assert_eq!(rt; touching.numbers.items(), [1].as_slice());
    assert_eq!(rt; touching.work, 1);
    let apart = overlaps(rt.alloc(), &t, &boxes, &between([5, 4, 0, 9, 9, 0]))?;
    assert!(rt; apart.numbers.items().is_empty());
    assert_eq!(rt; apart.work, 1);
    Ok(())
}

#[test]
fn the_same_triangle_twice_is_found_twice(rt: HostRuntime) -> Result<(), Fail> {
    let boxes = [small_triangle(), small_triangle()];
    let t = tree_of(&rt, rt.alloc(), &boxes)?;
    let touching = overlaps(rt.alloc(), &t, &boxes, &between([4, 4, 0, 9, 9, 0]))?;
    assert_eq!(rt; touching.numbers.items(), [1, 2].as_slice());
    assert_eq!(rt; touching.work, 3);
    let apart = overlaps(rt.alloc(), &t, &boxes, &between([4, 5, 0, 9, 9, 0]))?;
    assert!(rt; apart.numbers.items().is_empty());
    assert_eq!(rt; apart.work, 1);
    Ok(())
}

#[test]
fn an_empty_tree_has_no_work(rt: HostRuntime) -> Result<(), Fail> {
    let t = tree_of(&rt, rt.alloc(), &[])?;
    let none = overlaps(rt.alloc(), &t, &[], &between([-9, -9, -9, 9, 9, 9]))?;
    assert!(rt; none.numbers.items().is_empty());
    assert_eq!(rt; none.work, 0);
    Ok(())
}

#[test]
fn a_box_over_the_floor_leaves_the_ramp_out(rt: HostRuntime) -> Result<(), Fail> {
    let mut boxes = Vec::new(rt.alloc());
    for corners in LEVEL {
        boxes.push(box_of(&triangle(corners)))?;
    }
    let t = tree_of(&rt, rt.alloc(), &boxes)?;
    let found = overlaps(
        rt.alloc(),
        &t,
        &boxes,
        &between([192, 64, -64, 224, 128, 64]),
    )?;
    assert_eq!(rt; found.numbers.items(), [1, 2].as_slice());
    assert_eq!(rt; found.work, 5);
    Ok(())
}

/// A lower and an upper end round one of three middles.
fn extent(seed: u64) -> (i32, i32) {
    let middle = i32::from(digit(seed) % 3);
    let reach = i32::from(digit(jump(seed)));
    (middle - reach, middle + reach)
}

/// Boxes of many sizes round the middles of a block of 3 by 3 by 3 steps.
fn crowd(alloc: Global, count: usize) -> Result<Vec<Box3>, AllocError> {
    let mut boxes = Vec::new(alloc);
    let mut seed = 2026;
    for _ in 0..count {
        let (left, right) = extent(seed);
        let (front, back) = extent(jump(jump(seed)));
        let (bottom, top) = extent(jump(jump(jump(jump(seed)))));
        boxes.push(between([left, front, bottom, right, back, top]))?;
        seed = jump(jump(jump(jump(jump(jump(seed))))));
    }
    Ok(boxes)
}

/// The numbers of the boxes that meet the queried one, each tested.
fn scanned(alloc: Global, boxes: &[Box3], q: &Box3) -> Result<Vec<u32>, AllocError> {
    let mut numbers = Vec::new(alloc);
    let mut number = 0u32;
    for b in boxes {
        number = number.saturating_add(1);
        if meets(b, q) {
            numbers.push(number)?;
        }
    }
    Ok(numbers)
}

/// The work by its rule, for two or more triangles: every node with all nodes above it, found by their ranges.
fn counted(t: &Tree, q: &Box3) -> u64 {
    let mut work = 1u64;
    for node in t.nodes() {
        let reached = t.nodes().iter().all(|upper| node.first < upper.first
            || upper.last < node.last
            || meets(&upper.fit, q));
        if reached {
            work = work.saturating_add(2);
        }
    }
    work
}

#[test]
fn the_walk_finds_what_a_scan_finds(rt: HostRuntime) -> Result<(), Fail> {
    let boxes = crowd(rt.alloc(), 150)?;
    let t = tree_of(&rt, rt.alloc(), &boxes)?;
    let queries = crowd(rt.alloc(), 400)?;
    let mut pruned = 0u32;
    let mut away = -9;
    for query in &queries {
        away = if away < 9 { away + 1 } else { -9 };
        let q = between([
            away,
            query.lo.y / 2,
            query.lo.z,
            away,
            query.hi.y / 2,
            query.lo.z,
        ]);
        let found = overlaps(rt.alloc(), &t, &boxes, &q)?;
        let numbers = scanned(rt.alloc(), &boxes, &q)?;
        assert_eq!(rt; found.numbers.items(), numbers.as_slice());
        assert_eq!(rt; found.work, counted(&t, &q));
        if found.work < 100 {
            pruned = pruned.saturating_add(1);
        }
    }
    assert!(rt; pruned > 50);
    Ok(())
}
