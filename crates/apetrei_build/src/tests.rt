//! Measures and parents worked by hand, and built trees beside those of the plain build.

ghost use Rattle.std.specs.Prelude.{◌≡◌, ◌≤◌, length};
ghost use Rattle.morton_key.specs.Keys.{IsLawful};
ghost use Rattle.apetrei_build.specs.Measures.{AreMeasures};

use crate::{Built, Deltas, build};
use box_handoff::{Side, Up, Ways};
use fixed_box::{Box3, Point, Tri, box_of, in_world};
use morton_key::{Key, order};
use outside::{Gate, Memory, OpenGate};
use radix_tree::{Tree, plain};
use std::alloc::{AllocError, Global};
use std::process::Abort;
use std::rt::HostRuntime;
use std::test::Fail;
use std::thread::Threads;

fn eight_keys() -> [Key; 8]
    ensures { IsLawful result }
{
    [
        Key { code: 1, tri: 1 },
        Key { code: 2, tri: 2 },
        Key { code: 4, tri: 3 },
        Key { code: 5, tri: 4 },
        Key { code: 19, tri: 5 },
        Key { code: 24, tri: 6 },
        Key { code: 25, tri: 7 },
        Key { code: 30, tri: 8 },
    ]
}

fn at(x: i32, y: i32, z: i32) -> Point {
    Point { x, y, z }
}

fn box_of_point(p: Point) -> Box3 {
    Box3::of_corners(p, p)
}

/// What stands above each inner node, by number.
fn above_nodes(alloc: Global, ways: &Deltas, tree: &Tree) -> Result<Vec<Option<Up>>, AllocError>
    requires { AreMeasures tree.now.keys ways.now.measures.items }
{
    let nodes = tree.nodes();
    let mut list = Vec::new(alloc);
    for i in 0..nodes.len() {
        let node = nodes[i];
        list.push(ways.parent(node.first, node.last))?;
    }
    Ok(list)
}

/// What stands above each leaf, by position.
fn above_leaves(alloc: Global, ways: &Deltas, keys: &[Key]) -> Result<Vec<Option<Up>>, AllocError>
    requires { AreMeasures keys.now ways.now.measures.items }
{
    let mut list = Vec::new(alloc);
    for position in 0..keys.len() {
        list.push(ways.parent(position as u32, position as u32))?;
    }
    Ok(list)
}

fn left(split: u32) -> Option<Up> {
    Some(Up {
        split,
        side: Side::Left,
    })
}

fn right(split: u32) -> Option<Up> {
    Some(Up {
        split,
        side: Side::Right,
    })
}

#[test]
fn eight_keys_have_seven_measures_which_tell_each_parent(rt: HostRuntime) -> Result<(), Fail> {
    let alloc = rt.alloc();
    let somewhere = box_of_point(at(0, 0, 0));
    let tree = plain(alloc, eight_keys().to_vec(alloc)?, &[somewhere; 8])?;
    let ways = Deltas::new(alloc, tree.keys())?;
    let measures = [52, 51, 53, 49, 50, 53, 51];
    assert_eq!(rt; ways.measures.as_slice(), measures.as_slice());
    // the ranges of the nodes are [0, 7], [0, 1], [2, 3], [0, 3], [4, 7], [5, 7] and [5, 6]
    let nodes = [
        None,
        left(1),
        right(1),
        left(3),
        right(3),
        right(4),
        left(6),
    ];
    assert_eq!(rt;
        above_nodes(alloc, &ways, &tree)?.as_slice(),
        nodes.as_slice()
    );
    let leaves = [
        left(0),
        right(0),
        left(2),
        right(2),
        left(4),
        left(5),
        right(5),
        right(6),
    ];
    assert_eq!(rt;
        above_leaves(alloc, &ways, tree.keys())?.as_slice(),
        leaves.as_slice()
    );
    Ok(())
}

/// The tree of the plain build.
fn plain_tree<R: Abort>(rt: &R, alloc: Global, boxes: &[Box3]) -> Result<Tree, Memory> {
    assert!(rt; boxes.len() <= 200000);
    assert!(rt; boxes.iter().all(|b| in_world(&b.lo) && in_world(&b.hi)));
    plain(alloc, order(alloc, boxes)?, boxes)
}

#[test]
fn three_equal_codes_are_told_apart_by_their_positions(rt: HostRuntime) -> Result<(), Fail> {
    let alloc = rt.alloc();
    let boxes = [box_of_point(at(5, 5, 5)); 3];
    let tree = plain_tree(&rt, alloc, &boxes)?;
    assert_eq!(rt; tree.keys().len(), 3);
    let ways = Deltas::new(alloc, tree.keys())?;
    assert_eq!(rt; ways.measures.as_slice(), [73, 72].as_slice());
    assert_eq!(rt;
        above_nodes(alloc, &ways, &tree)?.as_slice(),
        [None, left(1)].as_slice()
    );
    Ok(())
}

/// The tree by so many workers, and that of the plain build.
fn both<R: Threads + Sync + Abort, G: Gate>(
    rt: &R,
    alloc: Global,
    boxes: &[Box3],
    workers: u32,
    gate: &G,
) -> Result<(Built, Tree), Memory> {
    assert!(rt; boxes.len() <= 200000);
    assert!(rt; 0 < workers && workers <= 64);
    assert!(rt; boxes.iter().all(|b| in_world(&b.lo) && in_world(&b.hi)));
    let slow = plain(alloc, order(alloc, boxes)?, boxes)?;
    let keys = order(alloc, boxes)?;
    let built = build(rt, alloc, keys, boxes, workers, gate)?;
    Ok((built, slow))
}

/// A corner of a height field, in steps of 256.
fn corner(i: u32, j: u32) -> Point
    requires i { i ≤ 256 }
    requires j { j ≤ 256 }
{
    at(
        256 * i as i32 - 65536,
        256 * j as i32 - 65536,
        ((73 * i + 151 * j + 29 * i * j) % 1024) as i32,
    )
}

/// The boxes of the 2 * n * n triangles of a height field.
fn field(alloc: Global, n: u32) -> Result<Vec<Box3>, AllocError>
    requires { n ≤ 255 }
{
    let mut boxes = Vec::new(alloc);
    for j in 0..n {
        for i in 0..n {
            let (a, c) = (corner(i, j), corner(i + 1, j + 1));
            boxes.push(box_of(&Tri {
                a,
                b: corner(i + 1, j),
                c,
            }))?;
            boxes.push(box_of(&Tri {
                a,
                b: c,
                c: corner(i, j + 1),
            }))?;
        }
    }
    Ok(boxes)
}

#[test]
fn three_workers_fit_each_of_127_nodes_once_in_768_steps(rt: HostRuntime) -> Result<(), Fail> {
    let boxes = field(rt.alloc(), 8)?;
    let (built, slow) = both(&rt, rt.alloc(), &boxes, 3, &OpenGate)?;
    assert_eq!(rt; built.tally.fits, 127);
    assert_eq!(rt; built.tally.steps, 768);
    assert!(rt; built.tree.nodes() == slow.nodes());
    Ok(())
}

#[test]
fn two_keys_have_one_node_and_fewer_have_none(rt: HostRuntime) -> Result<(), Fail> {
    let boxes = [box_of_point(at(7, 0, 0)), box_of_point(at(3, 5, 0))];
    let (two, slow) = both(&rt, rt.alloc(), &boxes, 2, &OpenGate)?;
    assert_eq!(rt; slow.nodes().len(), 1);
    assert!(rt; two.tree.nodes() == slow.nodes());
    // two takes, two openings, two arrivals, a collecting and a leaving
    assert_eq!(rt; two.tally.fits, 1);
    assert_eq!(rt; two.tally.steps, 8);
    for count in [0, 1] {
        let (built, _) = both(&rt, rt.alloc(), &boxes[..count], 2, &OpenGate)?;
        assert_eq!(rt; built.tree.keys().len(), count);
        assert_eq!(rt; built.tree.nodes().len(), 0);
        assert_eq!(rt; built.tally.fits, 0);
        assert_eq!(rt; built.tally.steps, 0);
    }
    Ok(())
}

/// The boxes of points that jump about on a floor of 8 by 8 places, so that many have one code.
fn scattered(alloc: Global, count: usize, start: u64) -> Result<Vec<Box3>, AllocError> {
    let mut boxes = Vec::with_capacity(alloc, count)?;
    let mut seed = start;
    for _ in 0..count {
        seed = seed
            .wrapping_mul(6364136223846793005)
            .wrapping_add(1442695040888963407);
        let place = (seed >> 40) as i32;
        boxes.push(box_of_point(at(place % 8, place / 8 % 8, 0)))?;
    }
    Ok(boxes)
}

#[test]
fn a_hundred_meshes_with_many_equal_codes_have_the_trees_of_the_plain_build(
    rt: HostRuntime,
) -> Result<(), Fail> {
    for mesh in 0..100 {
        let boxes = scattered(rt.alloc(), 2 + 3 * mesh, mesh as u64)?;
        for workers in [1, 3, 64] {
            let (built, slow) = both(&rt, rt.alloc(), &boxes, workers, &OpenGate)?;
            assert!(rt; built.tree.nodes() == slow.nodes());
            assert!(rt; built.tree.keys() == slow.keys());
        }
    }
    Ok(())
}
