//! A host that keeps a world: a mesh of its own, queries, and moves between them, with no script and no file.
//!
//! What `World::answer` promises of a reply and of the next world holds here as in a run of the program.
#![tactic(auto)]

ghost use Rattle.query_script.specs.Asks.{IsAskable};

use fixed_box::{Box3, Point};
use obj_text::{ArrayFault, Face, Mesh, one_group};
use outside::{Name, OpenGate};
use query_script::{Ask, Reply};
use std::alloc::Global;
use std::io;
use std::thread::Threads;
use world_index::{Build, World};

/// A point, in grid steps.
fn at(x: i32, y: i32, z: i32) -> Point {
    Point { x, y, z }
}

/// A floor of two triangles, and one above it, in one group; or why these arrays are no mesh.
fn own_mesh(alloc: Global) -> io::Result<Result<Mesh, ArrayFault>> {
    let floor = [at(0, 0, 0), at(8, 0, 0), at(8, 8, 0), at(0, 8, 0)];
    let above = [at(0, 0, 4), at(8, 0, 4), at(8, 8, 4)];
    let mut points = floor.to_vec(alloc)?;
    points.extend_from_slice(&above)?;
    let mut faces = Vec::new(alloc);
    for (a, b, c) in [(0, 1, 2), (0, 2, 3), (4, 5, 6)] {
        faces.push(Face { a, b, c })?;
    }
    let name = Name::new(b"house".to_vec(alloc)?);
    let Ok((group_of, groups)) = one_group(alloc, faces.len(), name) else {
        return Err(io::ErrorKind::OutOfMemory.into());
    };
    Ok(Mesh::of(points, faces, group_of, groups))
}

/// Asks the world, and writes what it replies.
fn tell<R: Threads + Sync + Print + AllocGlobal>(
    rt: &R,
    world: &mut World,
    ask: &Ask,
) -> io::Result<()>
    requires { IsAskable ask.now }
{
    let Ok(reply) = world.answer(rt, rt.alloc(), &OpenGate, ask) else {
        return Err(io::ErrorKind::OutOfMemory.into());
    };
    match &reply {
        Reply::Hit { tri, at } => {
            let at = at.frac();
            println!(rt; "triangle {tri} after {}/{} of the way", at.num, at.den)
        }
        Reply::Miss => println!(rt; "no triangle on the way"),
        Reply::Overlaps(numbers) => println!(rt; "boxes of {} triangles", numbers.items().len()),
        Reply::Moved(vertex) => println!(rt; "vertex {vertex} moved"),
        _ => println!(rt; "another reply"),
    }
}

fn main(rt: HostRuntime) -> io::Result<()> {
    let mesh = match own_mesh(rt.alloc())? {
        Ok(mesh) => mesh,
        Err(fault) => return println!(rt; "no mesh: {fault}"),
    };
    let Ok(mut world) = World::new(&rt, rt.alloc(), mesh, Build::Karras, 4, &OpenGate) else {
        return Err(io::ErrorKind::OutOfMemory.into());
    };

    let down = Ask::Seg {
        p: Point { x: 6, y: 2, z: 6 },
        q: Point { x: 6, y: 2, z: -6 },
    };
    let near_floor = Ask::Overlap {
        around: Box3::of_corners(Point { x: 1, y: 5, z: -1 }, Point { x: 2, y: 6, z: 1 }),
    };
    tell(&rt, &mut world, &down)?;
    tell(&rt, &mut world, &near_floor)?;

    // the third corner of the triangle above the floor goes back to its first, so it has no area
    let fold = Ask::Move {
        vertex: 7,
        to: Point { x: 0, y: 0, z: 4 },
    };
    tell(&rt, &mut world, &fold)?;
    tell(&rt, &mut world, &down)?;
    tell(&rt, &mut world, &near_floor)
}
