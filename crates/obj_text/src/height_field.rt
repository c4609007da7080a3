//! The mesh of the large workload, which is made from one number: a height field over a square of the world.

ghost use Rattle.std.specs.Prelude.{◌≡◌, ◌≤◌, ◌<◌, ◌++◌, IfOk, OnOk};
ghost use Rattle.obj_text.specs.HeightFields.{along, height_at, vertex_at, place_at, row_points, field_points, square_faces, row_faces, field_faces, field_mesh};

use crate::face::Face;
use crate::groups::group_faces;
use crate::limits::{LEAST_GRID, MOST_GRID};
use crate::mesh::Mesh;
use fixed_box::Point;
use indexmap::IndexSet;
use outside::Memory;
use std::alloc::{AllocError, Global};

/// Grid steps from one column of a height field to the next, and from one row to the next.
pub const FIELD_SPACING: u32 = 256;

/// The first column and the first row of a height field stand at minus this.
pub const FIELD_CORNER: i32 = 65536;

/// Each height is below this.
const HEIGHTS: u32 = 1024;

/// A coordinate along a row or a column.
fn along(number: u32) -> i32
    requires { number ≤ MOST_GRID }
    ensures { result ≡ along number }
{
    (FIELD_SPACING * number) as i32 - FIELD_CORNER
}

fn height_at(column: u32, row: u32) -> u32
    requires column { column ≤ MOST_GRID }
    requires row { row ≤ MOST_GRID }
    ensures { result ≡ height_at column row }
{
    (73 * column + 151 * row + 29 * column * row) % HEIGHTS
}

fn vertex_at(column: u32, row: u32) -> Point
    requires column { column ≤ MOST_GRID }
    requires row { row ≤ MOST_GRID }
    ensures { result ≡ vertex_at column row }
{
    Point {
        x: along(column),
        y: along(row),
        z: height_at(column, row) as i32,
    }
}

/// The place of a vertex among all.
fn place_at(side: u32, column: u32, row: u32) -> u32
    requires side { side ≤ MOST_GRID }
    requires column { column ≤ MOST_GRID }
    requires row { row ≤ MOST_GRID }
    ensures { result ≡ place_at side column row }
{
    row * (side + 1) + column
}

/// Adds the vertices of a row.
fn add_row(points: &mut Vec<Point>, side: u32, row: u32) -> Result<(), AllocError>
    requires side { side ≤ MOST_GRID }
    requires row { row ≤ MOST_GRID }
    ensures { OnOk result (points.new.items ≡ points.old.items ++ row_points side row) }
{
    for column in 0..side + 1 {
        points.push(vertex_at(column, row))?;
    }
    Ok(())
}

fn field_points(alloc: Global, side: u32) -> Result<Vec<Point>, AllocError>
    requires { side ≤ MOST_GRID }
    ensures { IfOk result (λ points. points.items ≡ field_points side) }
{
    let mut points = Vec::new(alloc);
    for row in 0..side + 1 {
        add_row(&mut points, side, row)?;
    }
    Ok(points)
}

/// Adds the two triangles of a square, which is named by its least corner.
fn add_square(faces: &mut Vec<Face>, side: u32, column: u32, row: u32) -> Result<(), AllocError>
    requires side { side ≤ MOST_GRID }
    requires column { column < MOST_GRID }
    requires row { row < MOST_GRID }
    ensures { OnOk result (faces.new.items ≡ faces.old.items ++ square_faces side column row) }
{
    let near = place_at(side, column, row);
    let beside = place_at(side, column + 1, row);
    let across = place_at(side, column + 1, row + 1);
    let above = place_at(side, column, row + 1);
    let lower = Face {
        a: near,
        b: beside,
        c: across,
    };
    let upper = Face {
        a: near,
        b: across,
        c: above,
    };
    faces.push(lower)?;
    faces.push(upper)?;
    Ok(())
}

/// Adds the triangles of a row of squares.
fn add_squares(faces: &mut Vec<Face>, side: u32, row: u32) -> Result<(), AllocError>
    requires side { side ≤ MOST_GRID }
    requires row { row < MOST_GRID }
    ensures { OnOk result (faces.new.items ≡ faces.old.items ++ row_faces side row) }
{
    for column in 0..side {
        add_square(faces, side, column, row)?;
    }
    Ok(())
}

fn field_faces(alloc: Global, side: u32) -> Result<Vec<Face>, AllocError>
    requires { side ≤ MOST_GRID }
    ensures { IfOk result (λ faces. faces.items ≡ field_faces side) }
{
    let mut faces = Vec::new(alloc);
    for row in 0..side {
        add_squares(&mut faces, side, row)?;
    }
    Ok(faces)
}

fn field_mesh(alloc: Global, side: u32) -> Result<Mesh, AllocError>
    requires least { LEAST_GRID ≤ side }
    requires most { side ≤ MOST_GRID }
    ensures { IfOk result (λ mesh. mesh ≡ field_mesh side) }
{
    let points = field_points(alloc, side)?;
    let faces = field_faces(alloc, side)?;
    let mut groups = IndexSet::new(alloc);
    let mut group_of = Vec::new(alloc);
    group_faces(alloc, &mut groups, &mut group_of, b"grid", faces.len())?;
    Ok(Mesh {
        points,
        faces,
        group_of,
        groups,
    })
}

/// The mesh of the large workload: a height field of `side` squares along each side, two triangles to a square, all in
/// one group `grid`.
///
/// The vertex of column i and row j, both from 0 to `side`, has x = 256 i - 65536, y = 256 j - 65536 and
/// z = (73 i + 151 j + 29 i j) mod 1024, in grid steps; the vertices stand row after row. So do the squares, and the
/// triangles of each are (v(i, j), v(i+1, j), v(i+1, j+1)) and (v(i, j), v(i+1, j+1), v(i, j+1)), where v(i, j) is the
/// vertex of column i and row j.
pub fn grid_mesh(alloc: Global, side: u32) -> Result<Mesh, Memory>
    requires least { LEAST_GRID ≤ side }
    requires most { side ≤ MOST_GRID }
    ensures mesh { IfOk result (λ mesh. mesh ≡ field_mesh side) }
{
    match field_mesh(alloc, side) {
        Ok(mesh) => Ok(mesh),
        Err(_) => Err(Memory),
    }
}
