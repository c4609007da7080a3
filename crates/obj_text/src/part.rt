//! A part of a mesh text, read line after line, up to the first line that has a fault.

ghost use Rattle.std.specs.Prelude.{◌≡◌, ◌≤◌, ◌<◌, ◌++◌, length, replicate, codes, IfOk, IfErr, OnOk};
ghost use Rattle.text_words.specs.Joins.{joined_lines_of};
ghost use Rattle.obj_text.specs.Texts.{vertices_of, first_faulty};
ghost use Rattle.obj_text.specs.Places.{before, readings_at};
ghost use Rattle.obj_text.specs.Names.{known, names_or};
ghost use Rattle.obj_text.specs.Parts.{IsPart, IsFirstFault, MakesMesh, names_of, mesh_from};

use crate::face::Face;
use crate::fault::MeshFault;
use crate::gathered::Gathered;
use crate::groups::group_faces;
use crate::limits::{GREATEST_NUMBER, MOST_BYTES, MOST_POINTS};
use crate::line_fault::LineFault;
use crate::mesh::Mesh;
use crate::place::Place;
use crate::plain_rows::read_plain;
use crate::rows::read_line;
use crate::vertex_count::VertexCount;
use fixed_box::{Point, UNIT_MAX};
use indexmap::IndexSet;
use std::alloc::{AllocError, Global};
use text_words::JoinedLines;

/// Faces of one name, that follow one another: none where it is the one that is current before the part.
#[derive(Clone, Copy, Drop)]
pub struct Run<'a> {
    pub name: Option<&'a [u8]>,
    pub faces: usize,
}

/// The points and the faces of a part, the names of these, and the name that it leaves, where it has a group.
#[derive(Drop)]
pub struct Part<'a> {
    pub points: Vec<Point>,
    pub faces: Vec<Face>,
    pub runs: Vec<Run<'a>>,
    pub name: Option<&'a [u8]>,
}

/// Reads a part of a text that has so many vertices. Triangles are counted from the part's first line, and so are lines.
///
/// A part with more points than a mesh may have is given up as soon as it has them, as where memory runs out: what stands
/// anywhere is not known to be too much before it is put together.
pub fn read_part<'a>(
    alloc: Global,
    bytes: &'a [u8],
    unit: u32,
    vertices: &mut VertexCount,
    place: Place,
) -> Result<Part<'a>, MeshFault>
    requires few { length bytes.now ≤ MOST_BYTES }
    requires least_unit { 1 ≤ unit }
    requires greatest_unit { unit ≤ UNIT_MAX }
    requires vertices { vertices.old < GREATEST_NUMBER }
    requires within { before place (vertices_of (joined_lines_of bytes.now)) ≤ vertices.old }
    ensures part { IfOk result (λ part. IsPart unit vertices.old place (joined_lines_of bytes.now)
        part.points.items part.faces.items part.runs.items part.name) }
    ensures fault { IfErr result (IsFirstFault
        (first_faulty (readings_at unit vertices.old place 0 0 (joined_lines_of bytes.now)))) }
{
    let mut gathered = Gathered {
        points: Vec::new(alloc),
        faces: Vec::new(alloc),
        name: None,
    };
    let mut runs = Vec::new(alloc);
    let mut in_runs = 0;
    let mut lines = JoinedLines::new(bytes);
    loop {
        if gathered.points.len() > MOST_POINTS {
            return Err(MeshFault::Memory);
        }
        let before = place.before(gathered.points.len());
        match read_plain(&mut lines, unit, vertices, before, &mut gathered) {
            Ok(true) => continue,
            Ok(false) => {}
            Err(_) => return Err(MeshFault::Memory),
        }
        let Some(line) = lines.next_line() else {
            break;
        };
        let name = gathered.name;
        let renamed = match read_line(&mut lines, unit, vertices, before, &mut gathered) {
            Ok(renamed) => renamed,
            Err(LineFault::Faulty(why)) => return Err(MeshFault::Line { line, why }),
            Err(LineFault::Memory) => return Err(MeshFault::Memory),
        };
        if renamed {
            let faces = gathered.faces.len();
            let Ok(()) = add_run(&mut runs, name, faces - in_runs) else {
                return Err(MeshFault::Memory);
            };
            in_runs = faces;
        }
    }
    let Gathered {
        points,
        faces,
        name,
    } = gathered;
    let Ok(()) = add_run(&mut runs, name, faces.len() - in_runs) else {
        return Err(MeshFault::Memory);
    };
    Ok(Part {
        points,
        faces,
        runs,
        name,
    })
}

/// Adds a run of so many faces of a name, if there are any.
#[tactic(auto, using(crate::proofs::Runs::run_added))]
fn add_run<'a>(
    runs: &mut Vec<Run<'a>>,
    name: Option<&'a [u8]>,
    faces: usize,
) -> Result<(), AllocError>
    ensures names { OnOk result (names_of runs.new.items ≡ names_of runs.old.items ++ replicate faces (known name.entry)) }
{
    if faces == 0 {
        return Ok(());
    }
    match runs.push(Run { name, faces }) {
        Ok(()) => Ok(()),
        Err(_) => Err(AllocError),
    }
}

/// The mesh of a part that is a whole text, before which the name `default` is current.
pub fn mesh_of_part(alloc: Global, part: Part) -> Result<Mesh, AllocError>
    requires mesh { MakesMesh part.points.items part.faces.items
        (names_or (codes "default") (names_of part.runs.items)) }
    ensures mesh { IfOk result (λ mesh. mesh ≡ mesh_from part.entry.points.items part.entry.faces.items
        (names_or (codes "default") (names_of part.entry.runs.items))) }
{
    let Part {
        points,
        faces,
        runs,
        name: _,
    } = part;
    let mut groups = IndexSet::new(alloc);
    let mut group_of = Vec::new(alloc);
    for run in &runs {
        let name = run.name.unwrap_or(b"default");
        group_faces(alloc, &mut groups, &mut group_of, name, run.faces)?;
    }
    Ok(Mesh {
        points,
        faces,
        group_of,
        groups,
    })
}
