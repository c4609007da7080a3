//! A text cut into sections, so that they can be read apart.

ghost use Rattle.std.specs.Prelude.{◌≡◌, ◌<◌, ◌≤◌, ◌++◌, length, true, All, IfSome};
ghost use Rattle.std.specs.Thread.{IsSync};
ghost use Rattle.text_words.specs.Joins.{joined_lines_of};
ghost use Rattle.obj_text.specs.Texts.{vertices_of};
ghost use Rattle.obj_text.specs.Sections.{lines_in, IsSection, AreSections};

use crate::limits::{GREATEST_NUMBER, MOST_BYTES};
use crate::vertex_lines::vertex_lines;
use std::alloc::Global;
use std::thread::{Threads, join};
use text_words::halves;

/// A part of a text that begins and ends with a line, and how many of its lines begin with `v`, where they are counted.
#[derive(Clone, Copy, Drop)]
pub struct Section<'a> {
    pub text: &'a [u8],
    pub vertices: u32,
}

/// A text as one section. `None` where memory fails.
fn whole<'a>(alloc: Global, text: &'a [u8], counted: bool) -> Option<Vec<Section<'a>>>
    requires { length text.now ≤ MOST_BYTES }
    ensures { IfSome result (λ sections. AreSections counted sections.items (joined_lines_of text.now)) }
{
    let mut sections = Vec::new(alloc);
    let vertices = if counted { vertex_lines(text) } else { 0 };
    sections.push(Section { text, vertices }).ok()?;
    Some(sections)
}

/// A text in sections: its halves, and theirs, to so many levels, each half cut by a thread of its own, which counts its
/// vertices if that is wanted. `None` where memory fails.
#[cycle(cuts)]
pub fn cut<'a, R: Threads + Sync>(
    rt: &R,
    alloc: Global,
    text: &'a [u8],
    levels: u32,
    counted: bool,
) -> Option<Vec<Section<'a>>>
    requires { length text.now ≤ MOST_BYTES }
    ensures { IfSome result (λ sections. AreSections counted sections.items (joined_lines_of text.now)) }
{
    if levels == 0 {
        return whole(alloc, text, counted);
    }
    let Some((left, right)) = halves(text) else {
        return whole(alloc, text, counted);
    };
    let below = levels - 1;
    let first = || -> Option<Vec<Section>>
        requires { IsSync R.row × (length left.now ≤ MOST_BYTES) }
        ensures { IfSome result (λ sections. AreSections counted sections.items (joined_lines_of left.entry.now)) }
    { cut(rt, alloc, left, below, counted) };
    let second = || -> Option<Vec<Section>>
        requires { IsSync R.row × (length right.now ≤ MOST_BYTES) }
        ensures { IfSome result (λ sections. AreSections counted sections.items (joined_lines_of right.entry.now)) }
    { cut(rt, alloc, right, below, counted) };
    let (front, back) = join(rt, first, second);
    both(front?, back?)
}

/// Sections and those behind them. `None` where memory fails.
fn both<'a>(first: Vec<Section<'a>>, second: Vec<Section<'a>>) -> Option<Vec<Section<'a>>>
    ensures { IfSome result (λ sections. sections.items ≡ first.entry.items ++ second.entry.items) }
{
    let mut sections = first;
    sections.extend_from_slice(&second).ok()?;
    Some(sections)
}

/// How many vertices counted sections have.
pub fn vertices_of_all(sections: &[Section]) -> u32
    requires each { All (IsSection true) sections.now }
    requires few { vertices_of (lines_in sections.now) < GREATEST_NUMBER }
    ensures { result ≡ vertices_of (lines_in sections.now) }
{
    let [first, later @ ..] = sections else {
        return 0;
    };
    first.vertices + vertices_of_all(later)
}
