//! A whole text, read into a mesh: as one part, or in parts by several threads where it is long.

ghost use Rattle.std.specs.Prelude.{◌≡◌, ◌≤◌, length, Ok, IfOk, IfErr};
ghost use Rattle.obj_text.specs.Texts.{mesh_of, IsRefusalOf};

use crate::fault::MeshFault;
use crate::limits::MOST_BYTES;
use crate::mesh::Mesh;
use crate::part::{mesh_of_part, read_part};
use crate::place::Place;
use crate::split::{PartsFault, read_apart};
use crate::vertex_count::VertexCount;
use fixed_box::UNIT_MAX;
use std::alloc::Global;
use std::thread::Threads;

/// How few bytes are read on the calling thread: fewer are not worth others.
const LEAST_TEXT: usize = 1_048_576;

/// A longer text is halved to so many levels, and so read in eight parts.
const LEVELS: u32 = 3;

/// Reads a mesh text, with `unit` grid steps to each unit of its coordinates.
///
/// Lines `v`, `f`, `g` and `o` are read, and all others passed over; `docs/OBJ.md` and `specs/Rows` have their forms.
/// Vertices count from 1 in the text, and a face may stand before those that it names. `MeshFault::Line` names the
/// first line that has a fault, counted from 1, and the first of its faults.
pub fn read_mesh(alloc: Global, bytes: &[u8], unit: u32) -> Result<Mesh, MeshFault>
    requires few { length bytes.now ≤ MOST_BYTES }
    requires least_unit { 1 ≤ unit }
    requires greatest_unit { unit ≤ UNIT_MAX }
    ensures mesh { IfOk result (λ mesh. mesh_of unit bytes.now ≡ Ok mesh) }
    ensures refusal { IfErr result (IsRefusalOf (mesh_of unit bytes.now)) }
{
    let mut vertices = VertexCount::new(bytes);
    let part = read_part(alloc, bytes, unit, &mut vertices, Place::Behind(0))?;
    match mesh_of_part(alloc, part) {
        Ok(mesh) => Ok(mesh),
        Err(_) => Err(MeshFault::Memory),
    }
}

/// Reads a long text in parts.
fn read_long<R: Threads + Sync>(
    rt: &R,
    alloc: Global,
    bytes: &[u8],
    unit: u32,
) -> Result<Mesh, PartsFault>
    requires few { length bytes.now ≤ MOST_BYTES }
    requires least_unit { 1 ≤ unit }
    requires greatest_unit { unit ≤ UNIT_MAX }
    ensures { IfOk result (λ mesh. mesh_of unit bytes.now ≡ Ok mesh) }
{
    let part = read_apart(rt, alloc, bytes, unit, LEVELS)?;
    match mesh_of_part(alloc, part) {
        Ok(mesh) => Ok(mesh),
        Err(_) => Err(PartsFault::Memory),
    }
}

/// Reads a mesh text as `read_mesh` does, with the same answer: a long one in parts, by several threads.
///
/// A long text with a fault is read twice, and takes as long as by `read_mesh` and a part of that more. So is one whose
/// parts want more memory than there is. One whose references count back is read once in vain too, up to the first of
/// them in each part.
pub fn read_mesh_by_threads<R: Threads + Sync>(
    rt: &R,
    alloc: Global,
    bytes: &[u8],
    unit: u32,
) -> Result<Mesh, MeshFault>
    requires few { length bytes.now ≤ MOST_BYTES }
    requires least_unit { 1 ≤ unit }
    requires greatest_unit { unit ≤ UNIT_MAX }
    ensures mesh { IfOk result (λ mesh. mesh_of unit bytes.now ≡ Ok mesh) }
    ensures refusal { IfErr result (IsRefusalOf (mesh_of unit bytes.now)) }
{
    if bytes.len() < LEAST_TEXT {
        return read_mesh(alloc, bytes, unit);
    }
    match read_long(rt, alloc, bytes, unit) {
        Ok(mesh) => Ok(mesh),
        // as one, which tells the first fault and wants less memory
        Err(PartsFault::Reference | PartsFault::Faulty | PartsFault::Memory) => read_mesh(
            alloc, bytes, unit,
        ),
    }
}
