//! The triangles of a mesh, each made from its face and the points when it is looked up, and their boxes.

ghost use Rattle.std.specs.Prelude.{◌≡◌, ◌<◌, IfOk, length, All};
ghost use Rattle.fixed_box.specs.World.{InWorld, BoxInWorld};
ghost use Rattle.obj_text.specs.Meshes.{IsFaceOf};
ghost use Rattle.world_index.specs.Worlds.{tri_of, tris_at, boxes_at};
ghost use Rattle.world_index.specs.Kept.{box_at};

use fixed_box::{Box3, Point, Tri, box_of};
use karras_build::LEAST_LIST;
use obj_text::Face;
use outside::Memory;
use rayon::prelude::*;
use std::alloc::{AllocError, Global};
use std::thread::Threads;
use traversal::Triangles;

/// Faces over points, as triangles by their numbers.
#[derive(Clone, Copy)]
pub struct Corners<'a> {
    pub points: &'a [Point],
    pub faces: &'a [Face],
    pub ghost named: { All (IsFaceOf (length points.now)) faces.now },
}

impl<'a> Triangles for Corners<'a> {
    ghost list = { λ c. tris_at c.points.now c.faces.now };

    fn triangle(&self, number: u32) -> Tri {
        triangle(self.points, &self.faces[number as usize - 1])
    }
}

/// The triangle of a face.
pub fn triangle(points: &[Point], face: &Face) -> Tri
    requires { IsFaceOf (length points.now) face.now }
    ensures { result ≡ tri_of points.now face.now }
{
    Tri {
        a: points[face.a as usize],
        b: points[face.b as usize],
        c: points[face.c as usize],
    }
}

/// Fits the boxes in as many threads as there are processors.
fn fit_in_threads<R: Threads + Sync>(rt: &R, points: &[Point], faces: &[Face], boxes: &mut [Box3])
    requires named { All (IsFaceOf (length points.now)) faces.now }
    requires room { length boxes.old ≡ length faces.now }
    ensures { boxes.new ≡ boxes_at points.now faces.now }
{
    par_for_each_mut(
        rt,
        boxes,
        |i: usize, around: &mut Box3|
            requires { All (IsFaceOf (length points.now)) faces.now × (i < length faces.now) }
            ensures { around.new ≡ box_at points.entry.now faces.entry.now i }
        {
            *around = box_of(&triangle(points, &faces[i]));
        },
    );
}

/// The boxes, made one after another.
fn boxes_in_turn(alloc: Global, points: &[Point], faces: &[Face]) -> Result<Vec<Box3>, AllocError>
    requires named { All (IsFaceOf (length points.now)) faces.now }
    ensures { IfOk result (λ boxes. boxes.items ≡ boxes_at points.now faces.now) }
{
    let mut boxes = Vec::with_capacity(alloc, faces.len())?;
    for face in faces {
        boxes.push(box_of(&triangle(points, face)))?;
    }
    Ok(boxes)
}

/// The boxes, made by threads.
fn boxes_in_threads<R: Threads + Sync>(
    rt: &R,
    alloc: Global,
    points: &[Point],
    faces: &[Face],
) -> Result<Vec<Box3>, AllocError>
    requires named { All (IsFaceOf (length points.now)) faces.now }
    ensures { IfOk result (λ boxes. boxes.items ≡ boxes_at points.now faces.now) }
{
    let nowhere = Point { x: 0, y: 0, z: 0 };
    let nothing = Box3 {
        lo: nowhere,
        hi: nowhere,
    };
    let mut boxes = vec![in alloc; nothing; faces.len()]?;
    fit_in_threads(rt, points, faces, &mut boxes);
    Ok(boxes)
}

/// The box of each face's triangle, in the order of their numbers.
pub fn boxes_of<R: Threads + Sync>(
    rt: &R,
    alloc: Global,
    points: &[Point],
    faces: &[Face],
) -> Result<Vec<Box3>, Memory>
    requires world { All InWorld points.now }
    requires named { All (IsFaceOf (length points.now)) faces.now }
    ensures boxes { IfOk result (λ boxes. boxes.items ≡ boxes_at points.now faces.now) }
    ensures world { IfOk result (λ boxes. All BoxInWorld boxes.items) }
    ensures count { IfOk result (λ boxes. length boxes.items ≡ length faces.now) }
{
    let boxes = if faces.len() < LEAST_LIST {
        boxes_in_turn(alloc, points, faces)
    } else {
        boxes_in_threads(rt, alloc, points, faces)
    };
    boxes.map_err(|_| Memory)
}
