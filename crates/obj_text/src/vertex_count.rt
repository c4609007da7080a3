//! How many vertices a text has. Where it is not known, it is counted when it is first asked for: most texts never ask,
//! since their faces name vertices that stand before them.

ghost use Rattle.std.specs.Prelude.{◌≡◌, ◌≤◌, length};
ghost use Rattle.text_words.specs.Joins.{joined_lines_of};
ghost use Rattle.obj_text.specs.Texts.{vertices_of};

use crate::limits::MOST_BYTES;
use crate::vertex_lines::vertex_lines;
use std::marker::Model;

/// The number of lines of a text that begin with the word `v`.
#[derive(Drop)]
pub struct VertexCount<'a> {
    counted: Option<u32>,
    /// The text, which is empty where the number was given.
    text: &'a [u8],
}

impl<'a> Model for VertexCount<'a> {
    ghost use Rattle.std.specs.Prelude.{◌≤◌, ℕ, length};
    ghost use Rattle.std.specs.Option.{unwrap_or};
    ghost use Rattle.text_words.specs.Joins.{joined_lines_of};
    ghost use Rattle.obj_text.specs.Texts.{vertices_of};
    ghost use Rattle.obj_text.specs.declared.limits.TheConstants.{MOST_BYTES};

    ghost Value = { ℕ };

    ghost view = { λ a. unwrap_or a.counted (vertices_of (joined_lines_of a.text.now)) };

    ghost invariant = { λ a. length a.text.now ≤ MOST_BYTES };
}

impl<'a> VertexCount<'a> {
    /// That of this text, not counted yet.
    pub fn new(text: &'a [u8]) -> VertexCount<'a>
        requires { length text.now ≤ MOST_BYTES }
        ensures vertices { result ≡ vertices_of (joined_lines_of text.now) }
        ensures few { result ≤ MOST_BYTES }
    {
        VertexCount {
            counted: None,
            text,
        }
    }

    /// That of a text which is known to have so many.
    pub fn of(count: u32) -> VertexCount<'a>
        ensures vertices { result ≡ count }
    {
        VertexCount {
            counted: Some(count),
            text: b"",
        }
    }

    /// The number, counted at the first call.
    pub fn get(&mut self) -> u32
        ensures vertices { result ≡ self.old }
        ensures same { self.new ≡ self.old }
    {
        if let Some(count) = self.counted {
            return count;
        }
        let count = vertex_lines(self.text);
        self.counted = Some(count);
        count
    }
}
