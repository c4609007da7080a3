//! A mesh from arrays of a program. What every mesh keeps is tested here once, and what is wrong first is told.

ghost use Rattle.std.specs.Prelude.{◌≡◌, ◌↔◌, IsTrue, [], ◌∷◌, replicate, None, IfSome, IfOk, IfErr};
ghost use Rattle.std.specs.List.{All};
ghost use Rattle.fixed_box.specs.World.{InWorld};
ghost use Rattle.obj_text.specs.Meshes.{IsFaceOf, IsPlaceIn};
ghost use Rattle.obj_text.specs.Arrays.{lists, IsFirstWrong, IsArrayFault};

use crate::array_fault::ArrayFault;
use crate::face::Face;
use crate::limits::{MOST_FACES, MOST_POINTS};
use crate::mesh::Mesh;
use fixed_box::{Point, in_world};
use indexmap::IndexSet;
use outside::{Memory, Name};
use std::alloc::Global;

/// The place of the first point outside the world.
fn first_outside(points: &[Point]) -> Option<usize>
    ensures some { IfSome result (IsFirstWrong InWorld points.now) }
    ensures none { result ≡ None → All InWorld points.now }
{
    for place in 0..points.len() {
        if !in_world(&points[place]) {
            return Some(place);
        }
    }
    None
}

/// Whether each corner of the face is one of so many points.
fn is_face_of(points: usize, face: &Face) -> bool
    ensures { IsTrue result ↔ IsFaceOf points face.now }
{
    (face.a as usize) < points && (face.b as usize) < points && (face.c as usize) < points
}

/// The place of the first face that names none of so many points.
pub fn first_loose(points: usize, faces: &[Face]) -> Option<usize>
    ensures some { IfSome result (IsFirstWrong (IsFaceOf points) faces.now) }
    ensures none { result ≡ None → All (IsFaceOf points) faces.now }
{
    for place in 0..faces.len() {
        if !is_face_of(points, &faces[place]) {
            return Some(place);
        }
    }
    None
}

/// The place of the first face that is in none of so many groups.
fn first_ungrouped(groups: usize, group_of: &[u32]) -> Option<usize>
    ensures some { IfSome result (IsFirstWrong (IsPlaceIn groups) group_of.now) }
    ensures none { result ≡ None → All (IsPlaceIn groups) group_of.now }
{
    for place in 0..group_of.len() {
        if groups <= group_of[place] as usize {
            return Some(place);
        }
    }
    None
}

/// For so many faces the position of the one group that all are in, and that group's name.
pub fn one_group(
    alloc: Global,
    faces: usize,
    name: Name,
) -> Result<(Vec<u32>, IndexSet<Name>), Memory>
    ensures group_of { IfOk result (λ r. r.0.items ≡ replicate faces 0) }
    ensures names { IfOk result (λ r. r.1.keys ≡ name ∷ []) }
{
    let Ok(group_of) = vec![in alloc; 0u32; faces] else {
        return Err(Memory);
    };
    let mut groups = IndexSet::new(alloc);
    match groups.insert_full(name) {
        Ok(_) => Ok((group_of, groups)),
        Err(_) => Err(Memory),
    }
}

impl Mesh {
    /// The mesh of these arrays: points in grid steps, faces over them, for each face the position of its group, and
    /// the groups' names.
    ///
    /// It takes no memory. Arrays that are no mesh are dropped, and their first fault is answered.
    pub fn of(
        points: Vec<Point>,
        faces: Vec<Face>,
        group_of: Vec<u32>,
        groups: IndexSet<Name>,
    ) -> Result<Mesh, ArrayFault>
        ensures mesh { IfOk result (λ mesh. mesh ≡ lists points.items faces.items groups.keys group_of.items) }
        ensures fault { IfErr result (IsArrayFault (lists points.items faces.items groups.keys group_of.items)) }
    {
        if MOST_POINTS < points.len() {
            return Err(ArrayFault::TooManyPoints);
        }
        if MOST_FACES < faces.len() {
            return Err(ArrayFault::TooManyFaces);
        }
        if group_of.len() != faces.len() {
            return Err(ArrayFault::NotOneGroupEach);
        }
        if let Some(point) = first_outside(&points) {
            return Err(ArrayFault::Outside { point });
        }
        if let Some(face) = first_loose(points.len(), &faces) {
            return Err(ArrayFault::NoSuchPoint { face });
        }
        if let Some(face) = first_ungrouped(groups.len(), &group_of) {
            return Err(ArrayFault::NoSuchGroup { face });
        }
        Ok(Mesh {
            points,
            faces,
            group_of,
            groups,
        })
    }
}
