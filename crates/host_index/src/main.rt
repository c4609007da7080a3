//! A host with triangles of its own: their boxes, the keys in order, the tree by threads, and both queries over it.
//!
//! The tree speaks of boxes alone. That they are the boxes of the triangles, and lie in the world, are facts that
//! `Indexed` keeps, so each query is asked with nothing more to show.
#![tactic(auto)]

ghost use Rattle.std.specs.Prelude.{map, All, IsTrue};
ghost use Rattle.fixed_box.specs.Extent.{tri_box};
ghost use Rattle.fixed_box.specs.World.{TriInWorld};
ghost use Rattle.radix_tree.specs.Fit.{IsFitted};

use fixed_box::{Box3, Point, Tri, in_world};
use karras_build::{boxes_of, order_by_threads, tree_by_threads};
use morton_key::POSITION_WIDTH;
use outside::Memory;
use radix_tree::Tree;
use std::alloc::{AllocError, Global};
use std::io;
use std::thread::Threads;
use traversal::{nearest, overlaps};

/// Triangles of the world, and the tree over their boxes.
#[derive(Drop)]
struct Indexed {
    tris: Vec<Tri>,
    boxes: Vec<Box3>,
    tree: Tree,
    ghost world: { All TriInWorld tris.items },
    ghost over_boxes: { IsFitted tree boxes.items },
    ghost over_tris: { IsFitted tree (map tri_box tris.items) },
}

/// Whether all triangles lie in the world.
fn are_in_world(tris: &[Tri]) -> bool
    ensures { IsTrue result → All TriInWorld tris.now }
{
    tris.iter()
        .all(|t| in_world(&t.a) && in_world(&t.b) && in_world(&t.c))
}

/// The triangles with their tree; `None` where one is outside the world, or there are more than 1,048,576.
fn index<R: Threads + Sync>(
    rt: &R,
    alloc: Global,
    tris: Vec<Tri>,
) -> Result<Option<Indexed>, Memory> {
    if (1 << POSITION_WIDTH) < tris.len() || !are_in_world(&tris) {
        return Ok(None);
    }
    let boxes = boxes_of(alloc, &tris)?;
    let keys = order_by_threads(rt, alloc, &boxes)?;
    let tree = tree_by_threads(rt, alloc, keys, &boxes)?;
    Ok(Some(Indexed { tris, boxes, tree }))
}

/// Four flat steps of 64 by 64 grid steps, each 16 above the one before, of two triangles each.
fn stairs(alloc: Global) -> Result<Vec<Tri>, AllocError> {
    let mut tris = Vec::new(alloc);
    for (left, right, z) in [(0, 64, 0), (64, 128, 16), (128, 192, 32), (192, 256, 48)] {
        let a = Point { x: left, y: 0, z };
        let b = Point { x: right, y: 0, z };
        let c = Point { x: right, y: 64, z };
        let d = Point { x: left, y: 64, z };
        tris.push(Tri { a, b, c })?;
        tris.push(Tri { a, b: c, c: d })?;
    }
    Ok(tris)
}

fn main(rt: HostRuntime) -> io::Result<()> {
    let tris = stairs(rt.alloc())?;
    let Ok(Some(steps)) = index(&rt, rt.alloc(), tris) else {
        return Err(io::ErrorKind::OutOfMemory.into());
    };
    println!(rt;
        "triangles {} nodes {}",
        steps.tris.len(),
        steps.tree.nodes().len()
    )?;

    let corner = Point { x: 0, y: 0, z: 0 };
    let other = Point {
        x: 100,
        y: 10,
        z: 20,
    };
    let Ok(found) = overlaps(
        rt.alloc(),
        &steps.tree,
        &steps.boxes,
        &Box3::of_corners(corner, other),
    ) else {
        return Err(io::ErrorKind::OutOfMemory.into());
    };
    for number in found.numbers.items() {
        println!(rt; "overlaps {number}")?;
    }

    for x in [90, 200, 300] {
        let p = Point { x, y: 10, z: 100 };
        let q = Point { x, y: 10, z: -28 };
        match nearest(&steps.tree, &steps.tris, p, q) {
            Some((number, at)) => println!(rt; "at {x} hit {number} {}/{}", at.num, at.den)?,
            None => println!(rt; "at {x} miss")?,
        }
    }
    Ok(())
}
