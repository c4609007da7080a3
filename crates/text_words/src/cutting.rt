//! A text in two halves of whole lines, so that they can be read apart.

ghost use Rattle.std.specs.Prelude.{◌≡◌, ◌≤◌, ◌++◌, ℕ, map, length, IfSome, IfNone};
ghost use Rattle.text_words.specs.Joins.{joined_lines_of};
ghost use Rattle.text_words.specs.Lines.{lines_of};
ghost use Rattle.text_words.specs.Halves.{moved_by, may_join, IsCutPlace};

use memchr::memchr;

/// Cuts a text behind the first line feed at or behind its middle, byte `len / 2`, that joins no two lines. So no
/// joined line goes across, and each half can be read by itself: the lines of the second count on from those of the
/// first.
///
/// A line feed counts as one that might join where a `\`, or a `\` and a carriage return, stands right before it, even
/// where a `#` stands before these on the line. `None` where no other line feed stands at or behind the middle.
pub fn halves(text: &[u8]) -> Option<(&[u8], &[u8])>
    ensures whole { IfSome result (λ parts. text.now ≡ parts.0.now ++ parts.1.now) }
    ensures lines { IfSome result (λ parts. joined_lines_of text.now ≡ joined_lines_of parts.0.now
        ++ map (moved_by (length (lines_of parts.0.now))) (joined_lines_of parts.1.now)) }
    ensures place { IfSome result (λ parts. IsCutPlace text.now (length parts.0.now)) }
    ensures first { IfSome result (λ parts. (at : ℕ) → IsCutPlace text.now at → length parts.0.now ≤ at) }
    ensures none { IfNone result ((at : ℕ) → IsCutPlace text.now at → ⊥) }
{
    let mut from = text.len() / 2;
    while let Some(ahead) = memchr(b'\n', &text[from..]) {
        let feed = from + ahead;
        from = feed + 1;
        if !may_join(&text[..feed]) {
            return Some((&text[..from], &text[from..]));
        }
    }
    None
}

/// Whether a line feed behind this might join two lines.
fn may_join(front: &[u8]) -> bool
    ensures { result ≡ may_join front.now }
{
    front.ends_with(b"\\") || front.ends_with(b"\\\r")
}
