//! One line of a mesh text, read. What it may name depends on how many vertices the whole text has, so a face may stand
//! before its vertices.

ghost use Rattle.std.specs.Prelude.{◌≡◌, ◌+◌, ◌<◌, ◌≤◌, ◌∷◌, ◌++◌, [], length, drop, MatchOption, MatchResult, OnOk, IfErr, IfOk, Ok, false};
ghost use Rattle.obj_text.specs.Rows.{given_of, vertex_of, triangles_of, name_of, position, position_of};
ghost use Rattle.obj_text.specs.Rows.{Vertex};
ghost use Rattle.obj_text.specs.Names.{known};
ghost use Rattle.obj_text.specs.Steps.{IsAdded, KeepsName, IsLineFault, IsOutcome, extended, all_three, first_corners_of, fan_left};

use crate::coordinates::point;
use crate::face::Face;
use crate::fault::Why;
use crate::gathered::Gathered;
use crate::limits::{GREATEST_NUMBER, MOST_FACES, MOST_POINTS};
use crate::line_fault::LineFault;
use crate::references::{from_start, position};
use crate::vertex_count::VertexCount;
use fixed_box::Point;
use text_words::JoinedLines;

/// Reads the line at hand, of a text with so many vertices, of which so many stand before it, behind the faces that were
/// gathered. Answers whether the current name may be another now.
pub fn read_line<'a>(
    line: &mut JoinedLines<'a>,
    unit: u32,
    vertices: &mut VertexCount,
    before: u32,
    gathered: &mut Gathered<'a>,
) -> Result<bool, LineFault>
    requires vertices { vertices.old < GREATEST_NUMBER }
    requires before { before ≤ vertices.old }
    requires faces { length gathered.now.faces.items ≤ MOST_FACES }
    ensures added { OnOk result (IsAdded
        (given_of unit vertices.old before (length gathered.old.faces.items) line.old.words)
        gathered.old.points.items gathered.new.points.items gathered.old.faces.items gathered.new.faces.items
        (known gathered.old.name) (known gathered.new.name)) }
    ensures fault { IfErr result (IsLineFault
        (given_of unit vertices.old before (length gathered.old.faces.items) line.old.words)) }
    ensures name { IfOk result (KeepsName (known gathered.old.name) (known gathered.new.name)) }
    ensures later { line.new.later ≡ line.old.later }
    ensures same { vertices.new ≡ vertices.old }
{
    let Some(keyword) = line.next_word() else {
        return Ok(false);
    };
    if keyword == b"v".as_slice() {
        let point = vertex(line, unit, before)?;
        add_point(&mut gathered.points, point)?;
        return Ok(false);
    }
    if keyword == b"f".as_slice() {
        triangles(line, vertices, before, &mut gathered.faces)?;
        return Ok(false);
    }
    if keyword == b"g".as_slice() || keyword == b"o".as_slice() {
        gathered.name = Some(name(line));
        return Ok(true);
    }
    Ok(false)
}

/// The name behind the word `g` or `o`.
fn name<'a>(line: &mut JoinedLines<'a>) -> &'a [u8]
    ensures name { result.now ≡ name_of line.old.words }
    ensures later { line.new.later ≡ line.old.later }
{
    match line.next_word() {
        Some(word) => word,
        None => b"default",
    }
}

fn add_point(points: &mut Vec<Point>, point: Point) -> Result<(), LineFault>
    ensures points { OnOk result (points.new.items ≡ points.old.items ++ point ∷ []) }
    ensures memory { IfErr result (λ fault. fault ≡ LineFault.Memory) }
{
    match points.push(point) {
        Ok(()) => Ok(()),
        Err(_) => Err(LineFault::Memory),
    }
}

/// The point behind the word `v`, behind so many others.
fn vertex(line: &mut JoinedLines, unit: u32, before: u32) -> Result<Point, LineFault>
    ensures point { IfOk result (λ point. vertex_of unit before line.old.words ≡ Ok (Vertex point)) }
    ensures fault { IfErr result (IsLineFault (vertex_of unit before line.old.words)) }
    ensures later { line.new.later ≡ line.old.later }
{
    let Some((x, y, z)) = three(line) else {
        return Err(LineFault::Faulty(Why::TooFewWords));
    };
    match point(x, y, z, unit) {
        Ok(point) => {
            if before as usize >= MOST_POINTS {
                return Err(LineFault::Faulty(Why::TooManyVertices));
            }
            Ok(point)
        }
        Err(why) => Err(LineFault::Faulty(why)),
    }
}

/// The next three words, where there are as many.
fn three<'a>(line: &mut JoinedLines<'a>) -> Option<(&'a [u8], &'a [u8], &'a [u8])>
    ensures words { MatchOption result (length line.old.words < 3) (λ t.
        line.old.words ≡ t.0.now ∷ t.1.now ∷ t.2.now ∷ line.new.words) }
    ensures later { line.new.later ≡ line.old.later }
{
    let a = line.next_word()?;
    let b = line.next_word()?;
    let c = line.next_word()?;
    Some((a, b, c))
}

/// Adds the triangles behind the word `f`, in a text with so many vertices, of which so many stand before this line.
fn triangles(
    line: &mut JoinedLines,
    vertices: &mut VertexCount,
    before: u32,
    faces: &mut Vec<Face>,
) -> Result<(), LineFault>
    requires vertices { vertices.old < GREATEST_NUMBER }
    requires before { before ≤ vertices.old }
    requires faces { length faces.now.items ≤ MOST_FACES }
    ensures faces { OnOk result (extended faces.old.items
        (triangles_of vertices.old before (length faces.old.items) line.old.words) ≡ Ok faces.new.items) }
    ensures fault { IfErr result (IsLineFault
        (triangles_of vertices.old before (length faces.old.items) line.old.words)) }
    ensures later { line.new.later ≡ line.old.later }
    ensures same { vertices.new ≡ vertices.old }
{
    let (first, second, third) = first_corners(line, vertices, before)?;
    fan(line, vertices, before, first, second, third, faces)
}

/// The first three corners of a line. Most are numbers in digits alone, which are read in one pass.
fn first_corners(
    line: &mut JoinedLines,
    vertices: &mut VertexCount,
    before: u32,
) -> Result<(u32, u32, u32), LineFault>
    requires vertices { vertices.old < GREATEST_NUMBER }
    requires before { before ≤ vertices.old }
    ensures corners { IsOutcome (first_corners_of vertices.old before line.old.words) result }
    ensures words { OnOk result (line.new.words ≡ drop 3 line.old.words) }
    ensures later { line.new.later ≡ line.old.later }
    ensures same { vertices.new ≡ vertices.old }
{
    match line.three_numbers() {
        Some((a, b, c)) => numbered_corners(a, b, c, vertices, before),
        None => worded_corners(line, vertices, before),
    }
}

/// The corners that three numbers name.
pub fn numbered_corners(
    a: u32,
    b: u32,
    c: u32,
    vertices: &mut VertexCount,
    before: u32,
) -> Result<(u32, u32, u32), LineFault>
    requires before { before ≤ vertices.old }
    ensures corners { IsOutcome (all_three (position vertices.old 0 false a) (position vertices.old 0 false b)
        (position vertices.old 0 false c)) result }
    ensures same { vertices.new ≡ vertices.old }
{
    let a = numbered_corner(a, vertices, before)?;
    let b = numbered_corner(b, vertices, before)?;
    let c = numbered_corner(c, vertices, before)?;
    Ok((a, b, c))
}

fn numbered_corner(number: u32, vertices: &mut VertexCount, before: u32) -> Result<u32, LineFault>
    requires before { before ≤ vertices.old }
    ensures corner { IsOutcome (position vertices.old 0 false number) result }
    ensures same { vertices.new ≡ vertices.old }
{
    match from_start(number, vertices, before) {
        Ok(corner) => Ok(corner),
        Err(why) => Err(LineFault::Faulty(why)),
    }
}

/// The corners that the next three words name, in whichever form.
fn worded_corners(
    line: &mut JoinedLines,
    vertices: &mut VertexCount,
    before: u32,
) -> Result<(u32, u32, u32), LineFault>
    requires vertices { vertices.old < GREATEST_NUMBER }
    requires before { before ≤ vertices.old }
    ensures corners { IsOutcome (first_corners_of vertices.old before line.old.words) result }
    ensures words { OnOk result (line.new.words ≡ drop 3 line.old.words) }
    ensures later { line.new.later ≡ line.old.later }
    ensures same { vertices.new ≡ vertices.old }
{
    let Some((a, b, c)) = three(line) else {
        return Err(LineFault::Faulty(Why::TooFewWords));
    };
    let a = corner(a, vertices, before)?;
    let b = corner(b, vertices, before)?;
    let c = corner(c, vertices, before)?;
    Ok((a, b, c))
}

fn corner(word: &[u8], vertices: &mut VertexCount, before: u32) -> Result<u32, LineFault>
    requires vertices { vertices.old < GREATEST_NUMBER }
    requires before { before ≤ vertices.old }
    ensures corner { IsOutcome (position_of vertices.old before word.now) result }
    ensures same { vertices.new ≡ vertices.old }
{
    match position(word, vertices, before) {
        Ok(corner) => Ok(corner),
        Err(why) => Err(LineFault::Faulty(why)),
    }
}

/// Adds the triangles of a fan, whose first three corners are known, at the third and at the words that are left.
fn fan(
    line: &mut JoinedLines,
    vertices: &mut VertexCount,
    before: u32,
    first: u32,
    second: u32,
    third: u32,
    faces: &mut Vec<Face>,
) -> Result<(), LineFault>
    requires vertices { vertices.old < GREATEST_NUMBER }
    requires before { before ≤ vertices.old }
    requires faces { length faces.now.items ≤ MOST_FACES }
    ensures faces { OnOk result (fan_left vertices.old before false faces.old.items first second third line.old.words
        ≡ Ok faces.new.items) }
    ensures fault { IfErr result (IsLineFault
        (fan_left vertices.old before false faces.old.items first second third line.old.words)) }
    ensures later { line.new.later ≡ line.old.later }
    ensures same { vertices.new ≡ vertices.old }
{
    let mut last = second;
    let mut next = third;
    let mut over = false;
    loop {
        if faces.len() < MOST_FACES {
            add_face(
                faces,
                Face {
                    a: first,
                    b: last,
                    c: next,
                },
            )?;
        } else {
            over = true;
        }
        let Some(word) = line.next_word() else {
            break;
        };
        last = next;
        next = corner(word, vertices, before)?;
    }
    if over {
        return Err(LineFault::Faulty(Why::TooManyTriangles));
    }
    Ok(())
}

fn add_face(faces: &mut Vec<Face>, face: Face) -> Result<(), LineFault>
    ensures faces { OnOk result (faces.new.items ≡ faces.old.items ++ face ∷ []) }
    ensures memory { IfErr result (λ fault. fault ≡ LineFault.Memory) }
{
    match faces.push(face) {
        Ok(()) => Ok(()),
        Err(_) => Err(LineFault::Memory),
    }
}
