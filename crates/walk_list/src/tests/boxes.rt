//! Boxes by the list, each against the walk over the tree and against a test of every box.

use crate::tests::{at, crowd, list_of, tree_of};
use crate::{RUN, WalkList, overlaps};
use fixed_box::{Box3, Point, Tri, box_of, meets};
use std::alloc::{AllocError, Global};
use std::rt::HostRuntime;
use std::test::Fail;
use traversal::work;

/// The numbers of the boxes that meet the queried one, each tested.
fn scanned(alloc: Global, boxes: &[Box3], q: &Box3) -> Result<Vec<u32>, AllocError> {
    let mut numbers = Vec::new(alloc);
    let mut number = 0u32;
    for b in boxes {
        number = number.saturating_add(1);
        if meets(b, q) {
            numbers.push(number)?;
        }
    }
    Ok(numbers)
}

/// How many of the list's records are runs.
fn runs(list: &WalkList) -> usize {
    list.records().iter().filter(|r| r.escape == 1).count()
}

#[test]
fn the_list_finds_what_a_scan_and_the_tree_find(rt: HostRuntime) -> Result<(), Fail> {
    for count in [0usize, 1, 2, 16, 17, 150] {
        let boxes = crowd(rt.alloc(), count, 2026)?;
        let t = tree_of(&rt, rt.alloc(), &boxes)?;
        let list = list_of(&rt, rt.alloc(), &t, &boxes)?;
        assert_eq!(rt; list.leaves().len(), count);
        let queries = crowd(rt.alloc(), 100, 7)?;
        for q in &queries {
            let found = overlaps(rt.alloc(), &list, q)?;
            let numbers = scanned(rt.alloc(), &boxes, q)?;
            assert_eq!(rt; found.items(), numbers.as_slice());
            let walked = traversal::overlaps(rt.alloc(), &t, &boxes, q)?;
            assert_eq!(rt; found.items(), walked.numbers.items());
            assert_eq!(rt; work(&t, &boxes, q), walked.work);
        }
    }
    Ok(())
}

#[test]
fn sixteen_triangles_are_one_run_and_seventeen_are_not(rt: HostRuntime) -> Result<(), Fail> {
    for (count, records, run_count) in [
        (0usize, 0usize, 0usize),
        (1, 1, 1),
        (2, 1, 1),
        (16, 1, 1),
    ] {
        let boxes = crowd(rt.alloc(), count, 2026)?;
        let t = tree_of(&rt, rt.alloc(), &boxes)?;
        let list = list_of(&rt, rt.alloc(), &t, &boxes)?;
        assert_eq!(rt; list.records().len(), records);
        assert_eq!(rt; runs(&list), run_count);
    }
    let boxes = crowd(rt.alloc(), 17, 2026)?;
    let t = tree_of(&rt, rt.alloc(), &boxes)?;
    let list = list_of(&rt, rt.alloc(), &t, &boxes)?;
    assert_eq!(rt; RUN, 16);
    assert_eq!(rt; list.records().len(), 3);
    assert_eq!(rt; runs(&list), 2);
    Ok(())
}

#[test]
fn a_box_that_only_touches_is_found(rt: HostRuntime) -> Result<(), Fail> {
    let boxes = [Box3::of_corners(at(0, 0, 0), at(4, 4, 0))];
    let t = tree_of(&rt, rt.alloc(), &boxes)?;
    let list = list_of(&rt, rt.alloc(), &t, &boxes)?;
    let touching = overlaps(
        rt.alloc(),
        &list,
        &Box3::of_corners(at(4, 4, 0), at(9, 9, 0)),
    )?;
    assert_eq!(rt; touching.items(), [1].as_slice());
    let apart = overlaps(
        rt.alloc(),
        &list,
        &Box3::of_corners(at(5, 4, 0), at(9, 9, 0)),
    )?;
    assert!(rt; apart.items().is_empty());
    Ok(())
}

/// A corner of a floor of cells 64 steps wide.
fn corner(x: u8, y: u8) -> Point {
    at(
        i32::from(x) * 64,
        i32::from(y) * 64,
        i32::from((x.wrapping_mul(37) ^ y.wrapping_mul(91)) % 8),
    )
}

/// The boxes of the floor of 6 by 7 cells in the crate's README, two triangles to a cell.
fn floor(alloc: Global) -> Result<Vec<Box3>, AllocError> {
    let mut boxes = Vec::new(alloc);
    for x in 0..6u8 {
        for y in 0..7u8 {
            let a = corner(x, y);
            let c = corner(x + 1, y + 1);
            boxes.push(box_of(&Tri {
                a,
                b: corner(x + 1, y),
                c,
            }))?;
            boxes.push(box_of(&Tri {
                a,
                b: c,
                c: corner(x, y + 1),
            }))?;
        }
    }
    Ok(boxes)
}

/// The escape and the end of each record of that floor, as a script outside this repository reckoned them.
const FLOOR: [(u32, u32); 11] = [
    (11, 84),
    (7, 56),
    (3, 32),
    (1, 16),
    (1, 32),
    (3, 56),
    (1, 44),
    (1, 56),
    (3, 84),
    (1, 72),
    (1, 84),
];

#[test]
fn a_floor_of_84_triangles_has_eleven_records(rt: HostRuntime) -> Result<(), Fail> {
    let boxes = floor(rt.alloc())?;
    let t = tree_of(&rt, rt.alloc(), &boxes)?;
    let list = list_of(&rt, rt.alloc(), &t, &boxes)?;
    assert_eq!(rt; list.records().len(), FLOOR.len());
    for (r, (escape, end)) in list.records().iter().zip(FLOOR.iter()) {
        assert_eq!(rt; (r.escape, r.end), (*escape, *end));
    }
    let q = Box3::of_corners(at(300, 300, -100), at(330, 330, 100));
    let found = overlaps(rt.alloc(), &list, &q)?;
    assert_eq!(rt; found.items(), [65, 66, 67, 68, 79, 80, 81, 82].as_slice());
    Ok(())
}
