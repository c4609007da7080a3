//! Lines as nearly all scripts write them: short decimals, and one space before each word. What stands behind their
//! keyword is read in one pass, and no word is counted. Each other line is left, to be read word by word.

ghost use Rattle.std.specs.Prelude.{◌≡◌, ◌+◌, IfSome, Some, Ok, drop, length};
ghost use Rattle.text_words.specs.Lines.{words_of};
ghost use Rattle.query_script.specs.Asks.{counted_ask, coordinate_of, point_of, number_of, first_of, Within, IsWithin, IsAskable};

use crate::asks::Ask;
use crate::bounds::Bounds;
use crate::keywords::Keyword;
use crate::numbers::{coordinate_of, number_of, within};
use decimals::grid_before;
use fixed_box::{Box3, Point};
use text_words::first_word;

/// What a line asks, by its keyword and what stands behind it. `None` says nothing of the line.
pub fn plain_ask(keyword: Keyword, behind: &[u8], unit: u32) -> Option<Ask>
    ensures ask { IfSome result (λ ask. counted_ask unit (Some keyword) (words_of behind.now) ≡ Ok ask) }
    ensures askable { IfSome result IsAskable }
{
    match keyword {
        Keyword::Box => {
            let (p, q) = two_points(behind, unit, Bounds::Reach)?;
            let around = Box3::of_corners(p, q);
            Some(Ask::Overlap { around })
        }
        Keyword::Seg => {
            let (p, q) = two_points(behind, unit, Bounds::World)?;
            Some(Ask::Seg { p, q })
        }
        Keyword::Move => {
            let (vertex, to) = number_and_point(behind, unit, Bounds::World)?;
            Some(Ask::Move { vertex, to })
        }
        _ => None,
    }
}

/// The points that all six words write.
fn two_points(text: &[u8], unit: u32, bounds: Bounds) -> Option<(Point, Point)>
    ensures count { IfSome result (λ points. length (words_of text.now) ≡ 6) }
    ensures first { IfSome result (λ points. point_of unit bounds (words_of text.now) ≡ Ok points.0) }
    ensures second { IfSome result (λ points. point_of unit bounds (drop 3 (words_of text.now)) ≡ Ok points.1) }
    ensures first_within { IfSome result (λ points. IsWithin bounds points.0) }
    ensures second_within { IfSome result (λ points. IsWithin bounds points.1) }
{
    let text = behind_space(text)?;
    let (p, text) = point_before(text, unit, bounds)?;
    let q = last_point(text, unit, bounds)?;
    Some((p, q))
}

/// The number and the point that all four words write.
fn number_and_point(text: &[u8], unit: u32, bounds: Bounds) -> Option<(u64, Point)>
    ensures count { IfSome result (λ parts. length (words_of text.now) ≡ 4) }
    ensures number { IfSome result (λ parts. number_of (first_of (words_of text.now)) ≡ Ok parts.0) }
    ensures point { IfSome result (λ parts. point_of unit bounds (drop 1 (words_of text.now)) ≡ Ok parts.1) }
    ensures within { IfSome result (λ parts. IsWithin bounds parts.1) }
{
    let Some((word, text)) = first_word(text) else {
        return None;
    };
    let Ok(n) = number_of(word) else {
        return None;
    };
    let text = behind_space(text)?;
    let to = last_point(text, unit, bounds)?;
    Some((n, to))
}

/// The text behind the space that it begins with.
#[inline(always)]
fn behind_space(text: &[u8]) -> Option<&[u8]>
    ensures { IfSome result (λ rest. words_of rest.now ≡ words_of text.now) }
{
    match text.split_first() {
        Some((b' ', rest)) => Some(rest),
        _ => None,
    }
}

/// The point that the first three words write, and what follows the space right behind them.
#[inline(always)]
fn point_before(text: &[u8], unit: u32, bounds: Bounds) -> Option<(Point, &[u8])>
    ensures value { IfSome result (λ parts. point_of unit bounds (words_of text.now) ≡ Ok parts.0) }
    ensures rest { IfSome result (λ parts. words_of parts.1.now ≡ drop 3 (words_of text.now)) }
    ensures count { IfSome result (λ parts. length (words_of text.now) ≡ length (words_of parts.1.now) + 3) }
    ensures within { IfSome result (λ parts. IsWithin bounds parts.0) }
{
    let (x, text) = coordinate_before(text, unit, bounds)?;
    let (y, text) = coordinate_before(text, unit, bounds)?;
    let (z, text) = coordinate_before(text, unit, bounds)?;
    Some((Point { x, y, z }, text))
}

/// The point that all three words write.
#[inline(always)]
fn last_point(text: &[u8], unit: u32, bounds: Bounds) -> Option<Point>
    ensures value { IfSome result (λ point. point_of unit bounds (words_of text.now) ≡ Ok point) }
    ensures count { IfSome result (λ point. length (words_of text.now) ≡ 3) }
    ensures within { IfSome result (IsWithin bounds) }
{
    let (x, text) = coordinate_before(text, unit, bounds)?;
    let (y, text) = coordinate_before(text, unit, bounds)?;
    let z = last_coordinate(text, unit, bounds)?;
    Some(Point { x, y, z })
}

/// The coordinate that the first word writes, and what follows the space right behind it.
#[inline(always)]
fn coordinate_before(text: &[u8], unit: u32, bounds: Bounds) -> Option<(i32, &[u8])>
    ensures value { IfSome result (λ parts. coordinate_of unit bounds (first_of (words_of text.now)) ≡ Ok parts.0) }
    ensures rest { IfSome result (λ parts. words_of parts.1.now ≡ drop 1 (words_of text.now)) }
    ensures count { IfSome result (λ parts. length (words_of text.now) ≡ length (words_of parts.1.now) + 1) }
    ensures within { IfSome result (λ parts. Within bounds parts.0) }
{
    let Some((steps, _word, rest)) = grid_before(b' ', text, unit) else {
        return None;
    };
    let Ok(coordinate) = within(steps, bounds) else {
        return None;
    };
    Some((coordinate, rest))
}

/// The coordinate that the only word writes.
#[inline(always)]
fn last_coordinate(text: &[u8], unit: u32, bounds: Bounds) -> Option<i32>
    ensures value { IfSome result (λ x. coordinate_of unit bounds (first_of (words_of text.now)) ≡ Ok x) }
    ensures count { IfSome result (λ x. length (words_of text.now) ≡ 1) }
    ensures within { IfSome result (Within bounds) }
{
    let Some((word, rest)) = first_word(text) else {
        return None;
    };
    if first_word(rest).is_some() {
        return None;
    }
    let Ok(coordinate) = coordinate_of(word, unit, bounds) else {
        return None;
    };
    Some(coordinate)
}
