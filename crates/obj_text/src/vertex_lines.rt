//! How many lines of a text begin with `v`, found by a pass over the first words of its lines.

ghost use Rattle.std.specs.Prelude.{◌≡◌, ◌+◌, ◌<◌, ◌≤◌, length, if◌then◌else◌};
ghost use Rattle.text_words.specs.Joins.{joined_lines_of};
ghost use Rattle.obj_text.specs.Rows.{is_vertex};
ghost use Rattle.obj_text.specs.Texts.{vertices_of};

use crate::limits::{GREATEST_NUMBER, MOST_BYTES};
use text_words::JoinedLines;

/// How many lines of the text begin with `v`.
#[inline(never)]
pub fn vertex_lines(text: &[u8]) -> u32
    requires { length text.now ≤ MOST_BYTES }
    ensures { result ≡ vertices_of (joined_lines_of text.now) }
{
    let mut lines = JoinedLines::new(text);
    let mut vertices = 0;
    while let Some(_) = lines.next_line() {
        pass_line(&mut lines, &mut vertices);
    }
    vertices
}

/// Passes the line at hand.
fn pass_line(line: &mut JoinedLines, vertices: &mut u32)
    requires { vertices.old < GREATEST_NUMBER }
    ensures vertices { vertices.new ≡ vertices.old + (if is_vertex line.old.words then 1 else 0) }
    ensures later { line.new.later ≡ line.old.later }
{
    let Some(keyword) = line.next_word() else {
        return;
    };
    if keyword == b"v".as_slice() {
        *vertices += 1;
    }
}
