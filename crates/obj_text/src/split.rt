//! A text read in sections by several threads, all at the same time, with the triangles of each counted from none.
//!
//! They are read first as if they stood anywhere, since no more need be known where each reference counts from the first
//! vertex. Where one counts back, their vertices are counted by a pass ahead, and each is read behind those before it.

ghost use Rattle.std.specs.Prelude.{◌≡◌, ◌+◌, ◌<◌, ◌≤◌, ◌++◌, length, map, true, All, IfOk, OnOk};
ghost use Rattle.std.specs.Option.{option_or};
ghost use Rattle.std.specs.Thread.{IsSync};
ghost use Rattle.text_words.specs.Joins.{joined_lines_of};
ghost use Rattle.obj_text.specs.Texts.{vertices_of};
ghost use Rattle.obj_text.specs.Places.{before, place_behind};
ghost use Rattle.obj_text.specs.Parts.{IsPart, run_behind};
ghost use Rattle.obj_text.specs.Sections.{lines_in, is_counted, IsSection};
ghost use Rattle.obj_text.specs.declared.place.Place.TheVariants.{Behind};

use crate::arrays::first_loose;
use crate::fault::{MeshFault, Why};
use crate::limits::{GREATEST_NUMBER, MOST_BYTES, MOST_FACES, MOST_POINTS};
use crate::part::{Part, Run, read_part};
use crate::place::Place;
use crate::sections::{Section, cut, vertices_of_all};
use crate::vertex_count::VertexCount;
use fixed_box::UNIT_MAX;
use std::alloc::{AllocError, Global};
use std::thread::{Threads, join};

/// Why a text was not read in parts.
#[derive(Clone, Copy, Debug, PartialEq, Eq, Drop)]
pub enum PartsFault {
    /// A reference names no vertex, or none as the part is read: it may count back from a part that is read as if it
    /// stood anywhere.
    Reference,
    /// A part has another fault, or the parts have too many points or triangles together, or name too high a vertex. Which
    /// fault is the first of the text, a reading from its first line tells.
    Faulty,
    /// Memory ran out.
    Memory,
}

/// Adds the runs of a part behind one that leaves this name.
fn add_runs<'a>(
    runs: &mut Vec<Run<'a>>,
    later: &[Run<'a>],
    name: Option<&'a [u8]>,
) -> Result<(), AllocError>
    ensures runs { OnOk result (runs.new.items ≡ runs.old.items ++ map (run_behind name.entry) later.now) }
{
    for run in later {
        let behind = Run {
            name: run.name.or(name),
            faces: run.faces,
        };
        match runs.push(behind) {
            Ok(()) => {}
            Err(_) => return Err(AllocError),
        }
    }
    Ok(())
}

/// A part and the one behind it.
fn append<'a>(first: Part<'a>, second: Part<'a>) -> Result<Part<'a>, AllocError>
    ensures points { IfOk result (λ part. part.points.items ≡ first.entry.points.items ++ second.entry.points.items) }
    ensures faces { IfOk result (λ part. part.faces.items ≡ first.entry.faces.items ++ second.entry.faces.items) }
    ensures runs { IfOk result (λ part. part.runs.items
        ≡ first.entry.runs.items ++ map (run_behind first.entry.name) second.entry.runs.items) }
    ensures name { IfOk result (λ part. part.name ≡ option_or second.entry.name first.entry.name) }
{
    let Part {
        mut points,
        mut faces,
        mut runs,
        name,
    } = first;
    points.extend_from_slice(&second.points)?;
    faces.extend_from_slice(&second.faces)?;
    add_runs(&mut runs, &second.runs, name)?;
    Ok(Part {
        points,
        faces,
        runs,
        name: second.name.or(name),
    })
}

/// Reads a part of a text that has so many vertices.
fn read_alone<'a>(
    alloc: Global,
    bytes: &'a [u8],
    unit: u32,
    vertices: u32,
    place: Place,
) -> Result<Part<'a>, PartsFault>
    requires few { length bytes.now ≤ MOST_BYTES }
    requires least_unit { 1 ≤ unit }
    requires greatest_unit { unit ≤ UNIT_MAX }
    requires vertices { vertices < GREATEST_NUMBER }
    requires within { before place (vertices_of (joined_lines_of bytes.now)) ≤ vertices }
    ensures { IfOk result (λ part. IsPart unit vertices place (joined_lines_of bytes.now) part.points.items
        part.faces.items part.runs.items part.name) }
{
    let mut vertices = VertexCount::of(vertices);
    match read_part(alloc, bytes, unit, &mut vertices, place) {
        Ok(part) => Ok(part),
        Err(
            MeshFault::Line {
                line: _,
                why: Why::NoSuchVertex,
            },
        ) => Err(PartsFault::Reference),
        Err(MeshFault::Line { line: _, why: _ }) => Err(PartsFault::Faulty),
        Err(MeshFault::Memory) => Err(PartsFault::Memory),
    }
}

/// Where a part stands behind sections that stand there.
fn behind(place: Place, sections: &[Section]) -> Place
    requires each { All (IsSection (is_counted place)) sections.now }
    requires few { before place (vertices_of (lines_in sections.now)) < GREATEST_NUMBER }
    ensures { result ≡ place_behind place (vertices_of (lines_in sections.now)) }
{
    match place {
        Place::Behind(vertices) => Place::Behind(vertices + vertices_of_all(sections)),
        Place::Anywhere => Place::Anywhere,
    }
}

/// Reads sections of a text as one part, both halves of them at the same time, and theirs too, down to one section.
#[cycle(splits)]
fn read_sections<'a, R: Threads + Sync>(
    rt: &R,
    alloc: Global,
    sections: &[Section<'a>],
    unit: u32,
    vertices: u32,
    place: Place,
) -> Result<Part<'a>, PartsFault>
    requires each { All (IsSection (is_counted place)) sections.now }
    requires least_unit { 1 ≤ unit }
    requires greatest_unit { unit ≤ UNIT_MAX }
    requires vertices { vertices < GREATEST_NUMBER }
    requires within { before place (vertices_of (lines_in sections.now)) ≤ vertices }
    ensures { IfOk result (λ part. IsPart unit vertices place (lines_in sections.now) part.points.items
        part.faces.items part.runs.items part.name) }
{
    if sections.len() < 2 {
        let Some(only) = sections.first() else {
            return Ok(Part {
                points: Vec::new(alloc),
                faces: Vec::new(alloc),
                runs: Vec::new(alloc),
                name: None,
            });
        };
        return read_alone(alloc, only.text, unit, vertices, place);
    }
    let (left, right) = sections.split_at(sections.len() / 2);
    let next = behind(place, left);
    let first = || -> Result<Part, PartsFault>
        requires sync { IsSync R.row }
        requires each { All (IsSection (is_counted place)) left.now }
        requires least_unit { 1 ≤ unit }
        requires greatest_unit { unit ≤ UNIT_MAX }
        requires vertices { vertices < GREATEST_NUMBER }
        requires within { before place (vertices_of (lines_in left.now)) ≤ vertices }
        ensures { IfOk result (λ part. IsPart unit vertices place (lines_in left.entry.now)
            part.points.items part.faces.items part.runs.items part.name) }
    { read_sections(rt, alloc, left, unit, vertices, place) };
    let second = || -> Result<Part, PartsFault>
        requires sync { IsSync R.row }
        requires each { All (IsSection (is_counted next)) right.now }
        requires least_unit { 1 ≤ unit }
        requires greatest_unit { unit ≤ UNIT_MAX }
        requires vertices { vertices < GREATEST_NUMBER }
        requires within { before next (vertices_of (lines_in right.now)) ≤ vertices }
        ensures { IfOk result (λ part. IsPart unit vertices next (lines_in right.entry.now)
            part.points.items part.faces.items part.runs.items part.name) }
    { read_sections(rt, alloc, right, unit, vertices, next) };
    let (front, back) = join(rt, first, second);
    let Ok(part) = append(front?, back?) else {
        return Err(PartsFault::Memory);
    };
    if part.faces.len() > MOST_FACES {
        return Err(PartsFault::Faulty);
    }
    Ok(part)
}

/// Reads a whole text in sections, halved to so many levels, with no pass ahead. A reference that counts back is a fault
/// there.
fn read_anywhere<'a, R: Threads + Sync>(
    rt: &R,
    alloc: Global,
    bytes: &'a [u8],
    unit: u32,
    levels: u32,
) -> Result<Part<'a>, PartsFault>
    requires few { length bytes.now ≤ MOST_BYTES }
    requires least_unit { 1 ≤ unit }
    requires greatest_unit { unit ≤ UNIT_MAX }
    ensures { IfOk result (λ part. IsPart unit (vertices_of (joined_lines_of bytes.now)) (Behind 0)
        (joined_lines_of bytes.now) part.points.items part.faces.items part.runs.items part.name) }
{
    let Some(sections) = cut(rt, alloc, bytes, levels, false) else {
        return Err(PartsFault::Memory);
    };
    let part = read_sections(
        rt,
        alloc,
        &sections,
        unit,
        MOST_BYTES as u32,
        Place::Anywhere,
    )?;
    if part.points.len() > MOST_POINTS || first_loose(part.points.len(), &part.faces).is_some() {
        return Err(PartsFault::Faulty);
    }
    Ok(part)
}

/// Reads a whole text in sections, halved to so many levels, whose vertices are counted by a pass ahead.
fn read_counted<'a, R: Threads + Sync>(
    rt: &R,
    alloc: Global,
    bytes: &'a [u8],
    unit: u32,
    levels: u32,
) -> Result<Part<'a>, PartsFault>
    requires few { length bytes.now ≤ MOST_BYTES }
    requires least_unit { 1 ≤ unit }
    requires greatest_unit { unit ≤ UNIT_MAX }
    ensures { IfOk result (λ part. IsPart unit (vertices_of (joined_lines_of bytes.now)) (Behind 0)
        (joined_lines_of bytes.now) part.points.items part.faces.items part.runs.items part.name) }
{
    let Some(sections) = cut(rt, alloc, bytes, levels, true) else {
        return Err(PartsFault::Memory);
    };
    let vertices = vertices_of_all(&sections);
    read_sections(rt, alloc, &sections, unit, vertices, Place::Behind(0))
}

/// Reads a whole text in sections, halved to so many levels.
pub fn read_apart<'a, R: Threads + Sync>(
    rt: &R,
    alloc: Global,
    bytes: &'a [u8],
    unit: u32,
    levels: u32,
) -> Result<Part<'a>, PartsFault>
    requires few { length bytes.now ≤ MOST_BYTES }
    requires least_unit { 1 ≤ unit }
    requires greatest_unit { unit ≤ UNIT_MAX }
    ensures { IfOk result (λ part. IsPart unit (vertices_of (joined_lines_of bytes.now)) (Behind 0)
        (joined_lines_of bytes.now) part.points.items part.faces.items part.runs.items part.name) }
{
    match read_anywhere(rt, alloc, bytes, unit, levels) {
        Err(PartsFault::Reference) => read_counted(rt, alloc, bytes, unit, levels),
        answer => answer,
    }
}
