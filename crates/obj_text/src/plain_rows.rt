//! Lines as nearly all files write them: `v` with three short decimals, or `f` with three numbers, a space before each
//! and a line feed right behind the last. They are read in one pass, from the keyword to the line feed. Each other line
//! is left, to be read word by word.

ghost use Rattle.std.specs.Prelude.{◌≡◌, ◌+◌, ◌<◌, ◌≤◌, ◌∷◌, ◌++◌, length, IfOk, IfSome, Ok};
ghost use Rattle.text_words.specs.PlainLines.{IsPlainWord};
ghost use Rattle.text_words.specs.ThreeNumbers.{IsNumber};
ghost use Rattle.obj_text.specs.Rows.{coordinate_of};
ghost use Rattle.obj_text.specs.Names.{known};
ghost use Rattle.obj_text.specs.PlainRows.{BeginsWithPoint, BeginsWithNumbers, ReadsOneIf};

use crate::coordinates::in_world;
use crate::face::Face;
use crate::gathered::Gathered;
use crate::limits::{GREATEST_NUMBER, MOST_FACES, MOST_POINTS};
use crate::rows::numbered_corners;
use crate::vertex_count::VertexCount;
use decimals::grid_before;
use fixed_box::Point;
use std::alloc::AllocError;
use text_words::{JoinedLines, leading_number};

/// The number at the front, its word, and what follows the byte `stop` right behind it.
#[inline(always)]
fn number_before(stop: u8, text: &[u8]) -> Option<(u32, &[u8], &[u8])>
    ensures number { IfSome result (λ parts. IsNumber parts.1.now parts.0) }
    ensures whole { IfSome result (λ parts. text.now ≡ parts.1.now ++ stop ∷ parts.2.now) }
{
    let Some((number, word, rest)) = leading_number(text) else {
        return None;
    };
    let [b, behind @ ..] = rest else {
        return None;
    };
    if *b != stop {
        return None;
    }
    Some((number, word, behind))
}

/// The coordinate at the front, its word, and what follows the byte `stop` right behind it.
#[inline(always)]
fn coordinate_before(stop: u8, text: &[u8], unit: u32) -> Option<(i32, &[u8], &[u8])>
    requires { stop ≤ 32 }
    ensures value { IfSome result (λ parts. coordinate_of unit parts.1.now ≡ Ok parts.0) }
    ensures whole { IfSome result (λ parts. text.now ≡ parts.1.now ++ stop ∷ parts.2.now) }
    ensures plain { IfSome result (λ parts. IsPlainWord parts.1.now) }
{
    let Some((steps, word, rest)) = grid_before(stop, text, unit) else {
        return None;
    };
    let Ok(coordinate) = in_world(steps) else {
        return None;
    };
    Some((coordinate, word, rest))
}

/// The point of a plain `v` line at the front, and what follows the line.
#[inline(always)]
fn point_row(text: &[u8], unit: u32) -> Option<(Point, &[u8])>
    ensures { IfSome result (λ row. BeginsWithPoint unit text.now row.0 row.1.now) }
{
    let [b'v', b' ', text @ ..] = text else {
        return None;
    };
    let Some((x, _first, text)) = coordinate_before(b' ', text, unit) else {
        return None;
    };
    let Some((y, _second, text)) = coordinate_before(b' ', text, unit) else {
        return None;
    };
    let Some((z, _third, rest)) = coordinate_before(b'\n', text, unit) else {
        return None;
    };
    Some((Point { x, y, z }, rest))
}

/// The numbers of a plain `f` line of three at the front, and what follows the line.
#[inline(always)]
fn numbers_row(text: &[u8]) -> Option<(u32, u32, u32, &[u8])>
    ensures { IfSome result (λ row. BeginsWithNumbers text.now row.0 row.1 row.2 row.3.now) }
{
    let [b'f', b' ', text @ ..] = text else {
        return None;
    };
    let Some((a, _first, text)) = number_before(b' ', text) else {
        return None;
    };
    let Some((b, _second, text)) = number_before(b' ', text) else {
        return None;
    };
    let Some((c, _third, rest)) = number_before(b'\n', text) else {
        return None;
    };
    Some((a, b, c, rest))
}

/// Reads the next line where it is plain, of a text with so many vertices, of which so many stand before it, behind the
/// faces that were gathered. Answers whether it was.
pub fn read_plain<'a>(
    lines: &mut JoinedLines<'a>,
    unit: u32,
    vertices: &mut VertexCount,
    before: u32,
    gathered: &mut Gathered<'a>,
) -> Result<bool, AllocError>
    requires vertices { vertices.old < GREATEST_NUMBER }
    requires before { before ≤ vertices.old }
    ensures line { IfOk result (λ read. ReadsOneIf read unit vertices.old before lines.old.later lines.new.later
        gathered.old.points.items gathered.new.points.items gathered.old.faces.items gathered.new.faces.items
        (known gathered.old.name)) }
    ensures name { gathered.new.name ≡ gathered.old.name }
    ensures same { vertices.new ≡ vertices.old }
{
    let Some((number, text)) = lines.text_behind() else {
        return Ok(false);
    };
    if let Some((point, rest)) = point_row(text, unit) {
        if before as usize >= MOST_POINTS {
            return Ok(false);
        }
        gathered.points.push(point)?;
        *lines = JoinedLines::behind_lines(number + 1, rest);
        return Ok(true);
    }
    let Some((a, b, c, rest)) = numbers_row(text) else {
        return Ok(false);
    };
    if gathered.faces.len() >= MOST_FACES {
        return Ok(false);
    }
    let Ok((a, b, c)) = numbered_corners(a, b, c, vertices, before) else {
        return Ok(false);
    };
    gathered.faces.push(Face { a, b, c })?;
    *lines = JoinedLines::behind_lines(number + 1, rest);
    Ok(true)
}
