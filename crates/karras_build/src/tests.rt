//! Spans worked by hand, and orders and fitted trees beside those of the plain build.

ghost use Rattle.std.specs.Prelude.{◌<◌, length};
ghost use Rattle.morton_key.specs.Keys.{IsLawful};
ghost use Rattle.box_handoff.specs.Ends.{AreEnds};
ghost use Rattle.karras_build.specs.Spans.{AreSpans};

use crate::{
    Links, Span, boxes_of, build, find, fit_joined, links_of, order_by_threads, spans,
    tree_by_threads,
};
use arrival_core::{Side, Up};
use box_handoff::Ways;
use fixed_box::{Box3, Point, Tri, in_world};
use morton_key::{Key, order};
use outside::{Memory, OpenGate};
use radix_tree::{Node, Tree, plain};
use std::alloc::{AllocError, Global};
use std::process::Abort;
use std::rt::HostRuntime;
use std::test::Fail;
use std::thread::Threads;

fn eight_keys() -> [Key; 8]
    ensures { IsLawful result }
{
    [
        Key { code: 1, tri: 1 },
        Key { code: 2, tri: 2 },
        Key { code: 4, tri: 3 },
        Key { code: 5, tri: 4 },
        Key { code: 19, tri: 5 },
        Key { code: 24, tri: 6 },
        Key { code: 25, tri: 7 },
        Key { code: 30, tri: 8 },
    ]
}

fn span(first: u32, last: u32, split: u32) -> Span {
    Span { first, last, split }
}

#[test]
fn eight_keys_have_seven_spans(rt: HostRuntime) -> Result<(), Fail> {
    let keys = eight_keys();
    let list = spans(&rt, rt.alloc(), &keys)?;
    let expected = [
        span(0, 7, 3),
        span(0, 1, 0),
        span(2, 3, 2),
        span(0, 3, 1),
        span(4, 7, 4),
        span(5, 7, 6),
        span(5, 6, 5),
    ];
    assert_eq!(rt; list.as_slice(), expected.as_slice());
    assert_eq!(rt; find(&keys, 5), span(5, 7, 6));
    Ok(())
}

/// What stands above the node of a number.
fn above(links: &Links, keys: &[Key], list: &[Span], number: usize) -> Option<Up>
    requires lawful { IsLawful keys.now }
    requires spans { AreSpans keys.now list.now }
    requires ends { AreEnds keys.now links.now.ways.first.items links.now.ways.last.items }
    requires within { number < length list.now }
{
    let span = list[number];
    links.parent(span.first, span.last)
}

/// What stands above the right child of the node of a number.
fn above_right(links: &Links, keys: &[Key], list: &[Span], number: usize) -> Option<Up>
    requires lawful { IsLawful keys.now }
    requires spans { AreSpans keys.now list.now }
    requires ends { AreEnds keys.now links.now.ways.first.items links.now.ways.last.items }
    requires within { number < length list.now }
{
    let span = list[number];
    links.parent(span.split + 1, span.last)
}

#[test]
fn eight_keys_have_these_parents(rt: HostRuntime) -> Result<(), Fail> {
    let keys = eight_keys();
    let list = spans(&rt, rt.alloc(), &keys)?;
    let links = links_of(rt.alloc(), &list)?;
    let of_right = Up {
        split: 1,
        side: Side::Right,
    };
    let of_left = Up {
        split: 3,
        side: Side::Left,
    };
    let of_leaf = Up {
        split: 6,
        side: Side::Right,
    };
    assert_eq!(rt; above(&links, &keys, &list, 2), Some(of_right));
    assert_eq!(rt; above(&links, &keys, &list, 3), Some(of_left));
    assert_eq!(rt; above_right(&links, &keys, &list, 5), Some(of_leaf));
    assert_eq!(rt; above(&links, &keys, &list, 0), None);
    Ok(())
}

/// The trees of boxes in the world by fork and join, which answer one tree, and by `plain`.
fn both_trees<R: Threads + Sync + Abort>(
    rt: &R,
    alloc: Global,
    boxes: &[Box3],
) -> Result<(Tree, Tree), Memory> {
    assert!(rt; boxes.len() <= 100000);
    assert!(rt; boxes.iter().all(|b| in_world(&b.lo) && in_world(&b.hi)));
    let slow = plain(alloc, order(alloc, boxes)?, boxes)?;
    let keys = order(alloc, boxes)?;
    let list = spans(rt, alloc, &keys)?;
    let fitted = fit_joined(rt, alloc, keys, &list, boxes)?;
    let keys = order_by_threads(rt, alloc, boxes)?;
    assert!(rt; keys.as_slice() == slow.keys());
    let fast = tree_by_threads(rt, alloc, keys, boxes)?;
    assert!(rt; fast.nodes() == fitted.nodes());
    Ok((fast, slow))
}

/// The tree of boxes in the world, fitted by three workers.
fn handed_up<R: Threads + Sync + Abort>(
    rt: &R,
    alloc: Global,
    boxes: &[Box3],
) -> Result<Tree, Memory> {
    assert!(rt; boxes.len() <= 100000);
    assert!(rt; boxes.iter().all(|b| in_world(&b.lo) && in_world(&b.hi)));
    let keys = order(alloc, boxes)?;
    Ok(build(rt, alloc, keys, boxes, 3, &OpenGate)?.tree)
}

/// The same trees, where the workers answer it too.
fn all_trees<R: Threads + Sync + Abort>(
    rt: &R,
    alloc: Global,
    boxes: &[Box3],
) -> Result<(Tree, Tree), Memory> {
    let (fast, slow) = both_trees(rt, alloc, boxes)?;
    let handed = handed_up(rt, alloc, boxes)?;
    assert!(rt; handed.nodes() == fast.nodes());
    Ok((fast, slow))
}

fn at(x: i32, y: i32, z: i32) -> Point {
    Point { x, y, z }
}

fn node(first: u32, last: u32, split: u32, lo: Point, hi: Point) -> Node {
    Node {
        first,
        last,
        split,
        fit: Box3::of_corners(lo, hi),
    }
}

#[test]
fn a_floor_and_a_ramp_have_the_tree_of_the_plain_build(rt: HostRuntime) -> Result<(), Fail> {
    let (a, b, c, d) = (at(0, 0, 0), at(256, 0, 0), at(256, 256, 0), at(0, 256, 0));
    let (e, f) = (at(416, 0, 80), at(416, 256, 80));
    let tris = [
        Tri { a, b, c },
        Tri { a, b: c, c: d },
        Tri { a: b, b: e, c: f },
        Tri { a: b, b: f, c },
    ];
    let boxes = boxes_of(rt.alloc(), &tris)?;
    assert_eq!(rt; boxes.get(2), Some(&Box3::of_corners(b, f)));
    let (fast, slow) = all_trees(&rt, rt.alloc(), &boxes)?;
    let expected = [
        node(0, 3, 1, a, f),
        node(0, 1, 0, a, c),
        node(2, 3, 2, b, f),
    ];
    assert_eq!(rt; fast.nodes(), expected.as_slice());
    assert_eq!(rt; slow.nodes(), expected.as_slice());
    Ok(())
}

#[test]
fn two_keys_have_one_node_and_fewer_have_none(rt: HostRuntime) -> Result<(), Fail> {
    let boxes = [box_of_point(at(7, 0, 0)), box_of_point(at(3, 5, 0))];
    let (two, _) = all_trees(&rt, rt.alloc(), &boxes)?;
    let expected = [node(0, 1, 0, at(3, 0, 0), at(7, 5, 0))];
    assert_eq!(rt; two.nodes(), expected.as_slice());
    let (one, _) = all_trees(&rt, rt.alloc(), &boxes[..1])?;
    assert_eq!(rt; one.keys().len(), 1);
    assert_eq!(rt; one.nodes().len(), 0);
    let (none, _) = all_trees(&rt, rt.alloc(), &[])?;
    assert_eq!(rt; none.keys().len(), 0);
    Ok(())
}

fn box_of_point(p: Point) -> Box3 {
    Box3::of_corners(p, p)
}

/// The boxes of points that jump about on a floor of 32 by 32 places, so that many have one code.
fn scattered(alloc: Global, count: usize) -> Result<Vec<Box3>, AllocError> {
    let mut boxes = Vec::with_capacity(alloc, count)?;
    let mut seed = 2026u64;
    for _ in 0..count {
        seed = seed
            .wrapping_mul(6364136223846793005)
            .wrapping_add(1442695040888963407);
        let place = (seed >> 40) as i32;
        boxes.push(box_of_point(at(place % 32, place / 32 % 32, 0)))?;
    }
    Ok(boxes)
}

#[test]
fn many_equal_codes_have_the_tree_of_the_plain_build(rt: HostRuntime) -> Result<(), Fail> {
    // in place, and by threads
    for count in [200, 100000] {
        let boxes = scattered(rt.alloc(), count)?;
        let (fast, slow) = all_trees(&rt, rt.alloc(), &boxes)?;
        assert_eq!(rt; fast.nodes().len(), count - 1);
        assert!(rt; fast.nodes() == slow.nodes());
        assert!(rt; fast.keys() == slow.keys());
    }
    Ok(())
}
