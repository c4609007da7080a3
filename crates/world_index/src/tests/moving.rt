//! A world whose vertices move about a thousand times, refitted and built anew between: each answer is that of looking
//! through all triangles as they stand then, and the last work that of the plain walk over the tree when it was asked.

ghost use Rattle.std.specs.Prelude.{◌<◌};

use super::asking::asked;
use crate::{Build, World};
use fixed_box::{Box3, Point, Tri, box_of, in_world, union};
use morton_key::order;
use obj_text::{Face, read_mesh};
use outside::OpenGate;
use query_script::{Ask, Reply};
use radix_tree::plain;
use refit::{moved, refit_in_turn};
use segment_hit::{Frac, cmp, hit};
use std::alloc::{AllocError, Global};
use std::cmp::Ordering;
use std::process::Abort;
use std::test::Fail;
use std::thread::Threads;
use traversal::overlaps;

const VERTICES: usize = 300;

const TRIANGLES: usize = 500;

/// The next number of a sequence that jumps about.
fn jump(seed: u64) -> u64 {
    seed.wrapping_mul(6364136223846793005)
        .wrapping_add(1442695040888963407)
}

/// A number below another, from a place in the sequence.
fn below(seed: u64, count: usize) -> usize
    requires { 0 < count }
    ensures { result < count }
{
    (seed >> 33) as usize % count
}

/// A point of a small cube, so that triangles lie close.
fn place(seed: u64) -> Point {
    let coordinate = |part: u64| below(jump(seed ^ part), 81) as i32 - 40;
    Point {
        x: coordinate(1),
        y: coordinate(2),
        z: coordinate(3),
    }
}

/// Points and faces, looked through one after another.
#[derive(Drop)]
struct Scan {
    points: Vec<Point>,
    faces: Vec<Face>,
}

impl Scan {
    /// Triangles between random vertices of a sequence.
    fn scattered(alloc: Global, mut seed: u64) -> Result<Scan, AllocError> {
        let mut points = Vec::new(alloc);
        for _ in 0..VERTICES {
            points.push(place(seed))?;
            seed = jump(seed);
        }
        let mut faces = Vec::new(alloc);
        for _ in 0..TRIANGLES {
            let corner = |part: u64| below(jump(seed ^ part), VERTICES) as u32;
            faces.push(Face {
                a: corner(1),
                b: corner(2),
                c: corner(3),
            })?;
            seed = jump(seed);
        }
        Ok(Scan { points, faces })
    }

    /// The mesh text of points and faces.
    fn text(&self, alloc: Global) -> Result<Vec<u8>, AllocError> {
        let mut text = Vec::new(alloc);
        for Point { x, y, z } in &self.points {
            text.extend_from_slice(format!(in alloc; "v {x} {y} {z}\n")?.as_bytes())?;
        }
        for face in &self.faces {
            let number = |corner: u32| corner.wrapping_add(1);
            let (a, b, c) = (number(face.a), number(face.b), number(face.c));
            text.extend_from_slice(format!(in alloc; "f {a} {b} {c}\n")?.as_bytes())?;
        }
        Ok(text)
    }

    /// The triangle at a position; all of them are there.
    fn triangle(&self, position: usize) -> Option<Tri> {
        let face = self.faces.get(position)?;
        Some(Tri {
            a: *self.points.get(face.a as usize)?,
            b: *self.points.get(face.b as usize)?,
            c: *self.points.get(face.c as usize)?,
        })
    }

    /// The numbers of the triangles whose boxes meet the box, coordinate by coordinate.
    fn meeting(&self, alloc: Global, around: &Box3) -> Result<Vec<u32>, AllocError> {
        let mut numbers = Vec::new(alloc);
        for position in 0..TRIANGLES {
            let Some(Tri { a, b, c }) = self.triangle(position) else {
                continue;
            };
            let meets = a.x.min(b.x).min(c.x) <= around.hi.x
                && around.lo.x <= a.x.max(b.x).max(c.x)
                && a.y.min(b.y).min(c.y) <= around.hi.y
                && around.lo.y <= a.y.max(b.y).max(c.y)
                && a.z.min(b.z).min(c.z) <= around.hi.z
                && around.lo.z <= a.z.max(b.z).max(c.z);
            if meets {
                numbers.push(position as u32 + 1)?;
            }
        }
        Ok(numbers)
    }

    /// The boxes of all triangles.
    fn boxes(&self, alloc: Global) -> Result<Vec<Box3>, AllocError> {
        let mut boxes = Vec::new(alloc);
        for position in 0..TRIANGLES {
            if let Some(tri) = self.triangle(position) {
                boxes.push(box_of(&tri))?;
            }
        }
        Ok(boxes)
    }

    /// The least box round all triangles.
    fn around(&self) -> Option<Box3> {
        let mut whole: Option<Box3> = None;
        for position in 0..TRIANGLES {
            let own = box_of(&self.triangle(position)?);
            whole = Some(match &whole {
                Some(others) => union(others, &own),
                None => own,
            });
        }
        whole
    }

    /// The triangle that the segment strikes first, the lowest number of those at one fraction.
    fn struck<R: Abort>(&self, rt: &R, p: Point, q: Point) -> Option<(u32, Frac)> {
        let mut first: Option<(u32, Frac)> = None;
        for position in 0..TRIANGLES {
            let tri = self.triangle(position)?;
            assert!(rt; in_world(&p) && in_world(&q));
            assert!(rt; in_world(&tri.a) && in_world(&tri.b) && in_world(&tri.c));
            let Some(at) = hit(p, q, &tri) else {
                continue;
            };
            let sooner = match &first {
                Some((_, best)) => cmp(&at, best) == Ordering::Less,
                None => true,
            };
            if sooner {
                first = Some((position as u32 + 1, at));
            }
        }
        first
    }
}

/// Moves a vertex in the world and in the scan.
fn moves<R: Threads + Sync + Abort + AllocGlobal>(
    rt: &R,
    world: &mut World,
    scan: &mut Scan,
    position: usize,
    to: Point,
) -> Result<(), Fail> {
    assert!(rt; in_world(&to));
    let vertex = (position as u64).wrapping_add(1);
    let reply = asked(rt, world, &Ask::Move { vertex, to })?;
    assert!(rt; matches!(reply, Reply::Moved(moved) if moved == vertex));
    if let Some(point) = scan.points.get_mut(position) {
        *point = to;
    }
    Ok(())
}

/// The work of a box by the plain walk, over a tree that is built over some boxes and then fitted to others.
fn plain_work<R: Abort + AllocGlobal>(
    rt: &R,
    built: &[Box3],
    now: &[Box3],
    around: &Box3,
) -> Result<u64, Fail> {
    let alloc = rt.alloc();
    assert!(rt; built.len() <= 1000);
    assert!(rt; now.len() == built.len());
    assert!(rt; built.iter().all(|b| in_world(&b.lo) && in_world(&b.hi)));
    let mut tree = plain(alloc, order(alloc, built)?, built)?;
    let moved = moved(alloc, &tree, built, now)?;
    refit_in_turn(&mut tree, now, &moved);
    Ok(overlaps(alloc, &tree, now, around)?.work)
}

/// Compares a box query, a segment query and the root's box with the scan, and answers the work of that box.
fn compares<R: Threads + Sync + Abort + AllocGlobal>(
    rt: &R,
    world: &mut World,
    scan: &Scan,
    built: &[Box3],
    p: Point,
    q: Point,
) -> Result<u64, Fail> {
    let around = Box3::of_corners(p, q);
    let found = asked(rt, world, &Ask::Overlap { around })?;
    let Reply::Overlaps(numbers) = found else {
        panic!(rt; "a box query is answered something else");
    };
    assert!(rt; numbers.items() == scan.meeting(rt.alloc(), &around)?.as_slice());
    assert!(rt; in_world(&p) && in_world(&q));
    let struck = match asked(rt, world, &Ask::Seg { p, q })? {
        Reply::Hit { tri, at } => Some((tri, at.frac())),
        Reply::Miss => None,
        _ => panic!(rt; "a segment query is answered something else"),
    };
    assert!(rt; struck == scan.struck(rt, p, q));
    let Reply::NodeIs { node, .. } = asked(rt, world, &Ask::NodeOf { number: 0 })? else {
        panic!(rt; "the root is answered something else");
    };
    assert!(rt; Some(node.fit) == scan.around());
    plain_work(rt, built, &scan.boxes(rt.alloc())?, &around)
}

/// Refits the world after some moves and builds it anew after others, and keeps the boxes of the last build.
fn renews<R: Threads + Sync + Abort + AllocGlobal>(
    rt: &R,
    world: &mut World,
    scan: &Scan,
    turn: usize,
    built: Vec<Box3>,
) -> Result<Vec<Box3>, Fail> {
    if turn % 17 == 5 {
        let reply = asked(rt, world, &Ask::Refit)?;
        assert!(rt; matches!(reply, Reply::Refitted));
    }
    if turn % 90 != 50 {
        return Ok(built);
    }
    let reply = asked(rt, world, &Ask::Rebuild)?;
    assert!(rt; matches!(reply, Reply::Rebuilt));
    Ok(scan.boxes(rt.alloc())?)
}

/// Compares the last work.
fn works<R: Threads + Sync + Abort + AllocGlobal>(
    rt: &R,
    world: &mut World,
    last: u64,
) -> Result<(), Fail> {
    let reply = asked(rt, world, &Ask::Work)?;
    assert!(rt; matches!(reply, Reply::WorkIs(work) if work == last));
    Ok(())
}

#[test]
fn a_thousand_moves_are_seen_by_the_next_answers(rt: HostRuntime) -> Result<(), Fail> {
    let alloc = rt.alloc();
    let mut scan = Scan::scattered(alloc, 2026)?;
    let text = scan.text(alloc)?;
    assert!(rt; text.len() <= 65_536);
    let mesh = read_mesh(alloc, &text, 1).map_err(|_| "the mesh is refused")?;
    let mut world = World::new(&rt, alloc, mesh, Build::Apetrei, 4, &OpenGate).map_err(
        |_| "no memory for the world",
    )?;
    let mut built = scan.boxes(alloc)?;
    let mut last = 0;
    let mut seed = 7;
    for turn in 0..1000_usize {
        let position = below(seed, VERTICES);
        moves(&rt, &mut world, &mut scan, position, place(jump(seed)))?;
        seed = jump(jump(seed));
        built = renews(&rt, &mut world, &scan, turn, built)?;
        if turn % 3 == 0 {
            last = compares(
                &rt,
                &mut world,
                &scan,
                &built,
                place(seed),
                place(jump(seed)),
            )?;
        }
        if turn % 4 != 2 {
            works(&rt, &mut world, last)?;
        }
        seed = jump(jump(seed));
    }
    Ok(())
}
