//! The lines of a text, one after another.

ghost use Rattle.std.specs.Prelude.{◌≡◌, ◌<◌, ◌∷◌, ◌++◌, [], length, MatchOption, IfSome};
ghost use Rattle.text_words.specs.Lines.{lines_of, IsOneLine};
ghost use Rattle.text_words.specs.Joins.{said, joins};
ghost use Rattle.text_words.specs.Parts.{IsPlain};

use crate::joins::said;
use memchr::memchr3;
use std::marker::Model;

/// The lines of a text that are still to be read. Contracts see it as their list.
#[derive(Drop)]
pub struct Lines<'a> {
    rest: &'a [u8],
}

impl<'a> Model for Lines<'a> {
    ghost use Rattle.std.specs.Prelude.{List, ℕ};
    ghost use Rattle.text_words.specs.Lines.{lines_of};

    ghost Value = { List (List ℕ) };

    ghost view = { λ a. lines_of a.rest.now };
}

impl<'a> Lines<'a> {
    /// All lines of the text. Where it ends with a line feed, there is no further line behind it.
    pub fn new(text: &'a [u8]) -> Lines<'a>
        ensures { result ≡ lines_of text.now }
    {
        Lines { rest: text }
    }

    /// The same lines, to read ahead.
    pub(crate) fn ahead(&self) -> Lines<'a>
        ensures { result ≡ self.now }
    {
        Lines { rest: self.rest }
    }

    /// The text that is still to be read.
    #[inline(always)]
    pub(crate) fn text(&self) -> &'a [u8]
        ensures { self.now ≡ lines_of result.now }
    {
        self.rest
    }

    /// The next line, without its line feed.
    pub fn next(&mut self) -> Option<&'a [u8]>
        ensures { MatchOption result ((self.old ≡ []) × (self.new ≡ [])) (λ line. self.old ≡ line.now ∷ self.new) }
    {
        if self.rest.is_empty() {
            return None;
        }
        let (line, rest) = next_line(self.rest);
        self.rest = rest;
        Some(line)
    }

    /// The next line, what it says, and whether it is joined with the line after it.
    #[inline(always)]
    pub fn next_part(&mut self) -> Option<(&'a [u8], &'a [u8], bool)>
        ensures { MatchOption result ((self.old ≡ []) × (self.new ≡ [])) (λ part.
            (self.old ≡ part.0.now ∷ self.new) × (part.1.now ≡ said part.0.now) × (part.2 ≡ joins part.0.now)) }
    {
        if let Some((line, rest)) = plain_line(self.rest) {
            self.rest = rest;
            return Some((line, line, false));
        }
        let line = self.next()?;
        let (front, joins) = said(line);
        Some((line, front, joins))
    }

    /// The same, behind a line that is joined with it. Such lines are few, so it stands apart from its callers' code.
    #[inline(never)]
    pub(crate) fn joined_part(&mut self) -> Option<(&'a [u8], &'a [u8], bool)>
        ensures { MatchOption result ((self.old ≡ []) × (self.new ≡ [])) (λ part.
            (self.old ≡ part.0.now ∷ self.new) × (part.1.now ≡ said part.0.now) × (part.2 ≡ joins part.0.now)) }
    {
        self.next_part()
    }
}

/// The first line and what follows its line feed, where neither `#` nor `\` stands in it: most lines, in one pass.
fn plain_line(text: &[u8]) -> Option<(&[u8], &[u8])>
    ensures line { IfSome result (λ parts.
        IsOneLine parts.0.now × (text.now ≡ parts.0.now ++ 10 ∷ parts.1.now)) }
    ensures plain { IfSome result (λ parts. IsPlain parts.0.now) }
{
    let at = memchr3(b'\n', b'#', b'\\', text)?;
    if text[at] != b'\n' {
        return None;
    }
    Some((&text[..at], &text[at + 1..]))
}

/// The first line of a text that is not empty, and what follows its line feed.
#[tactic(auto, using(crate::proofs::Cuts::lines_ended, crate::proofs::Cuts::lines_unfinished))]
fn next_line(text: &[u8]) -> (&[u8], &[u8])
    requires { 0 < length text.now }
    ensures lines { lines_of text.now ≡ result.0.now ∷ lines_of result.1.now }
{
    match first_line(text) {
        Some(parts) => parts,
        None => (text, &text[text.len()..]),
    }
}

/// What stands before the first line feed and behind it, or `None` where there is none.
pub fn first_line(text: &[u8]) -> Option<(&[u8], &[u8])>
    ensures { MatchOption result (IsOneLine text.now) (λ parts.
        IsOneLine parts.0.now × (text.now ≡ parts.0.now ++ 10 ∷ parts.1.now)) }
{
    for (at, b) in text.iter().enumerate() {
        if *b == b'\n' {
            return Some((&text[..at], &text[at + 1..]));
        }
    }
    None
}
