//! The words of a line, one after another.

ghost use Rattle.std.specs.Prelude.{◌≡◌, ◌<◌, ◌∷◌, [], length, MatchOption, IfNone};
ghost use Rattle.text_words.specs.Lines.{words_of, is_blank};
ghost use Rattle.text_words.specs.Cuts.{IsUnbroken, IsCut};
ghost use Rattle.text_words.specs.ThreeNumbers.{AreThreeNumbers, BeginSmall};

use crate::numbers::first_number;
use std::marker::Model;

/// The words of a line that are still to be read. Contracts see it as their list.
#[derive(Drop)]
pub struct Words<'a> {
    rest: &'a [u8],
}

impl<'a> Model for Words<'a> {
    ghost use Rattle.std.specs.Prelude.{List, ℕ};
    ghost use Rattle.text_words.specs.Lines.{words_of};

    ghost Value = { List (List ℕ) };

    ghost view = { λ a. words_of a.rest.now };
}

impl<'a> Words<'a> {
    /// All words of the line.
    pub fn new(line: &'a [u8]) -> Words<'a>
        ensures { result ≡ words_of line.now }
    {
        Words { rest: line }
    }

    /// The next word.
    pub fn next(&mut self) -> Option<&'a [u8]>
        ensures { MatchOption result ((self.old ≡ []) × (self.new ≡ [])) (λ word. self.old ≡ word.now ∷ self.new) }
    {
        let (word, rest) = first_word(self.rest)?;
        self.rest = rest;
        Some(word)
    }

    /// The numbers that the next three words write, where each is digits alone, in one pass over their bytes. `None`
    /// takes no word, and comes only where the next three are not all there, digits alone and below 10^9.
    #[inline(always)]
    pub fn three_numbers(&mut self) -> Option<(u32, u32, u32)>
        ensures numbers { MatchOption result (self.new ≡ self.old) (λ t.
            AreThreeNumbers self.old t.0 t.1 t.2 self.new) }
        ensures none { IfNone result (BeginSmall 3 self.old → ⊥) }
    {
        let (a, _first, rest) = first_number(self.rest)?;
        let (b, _second, rest) = first_number(rest)?;
        let (c, _third, behind) = first_number(rest)?;
        self.rest = behind;
        Some((a, b, c))
    }

    /// The same words, to read ahead.
    pub(crate) fn ahead(&self) -> Words<'a>
        ensures { result ≡ self.now }
    {
        Words { rest: self.rest }
    }

    /// How many words are left.
    pub fn count(&self) -> usize
        ensures { result ≡ length self.now }
    {
        count_words(self.rest)
    }
}

fn count_words(line: &[u8]) -> usize
    ensures { result ≡ length (words_of line.now) }
{
    let mut rest = line;
    let mut count = 0;
    while let Some((_, more)) = first_word(rest) {
        count += 1;
        rest = more;
    }
    count
}

/// The first word of a line, and what follows it.
pub fn first_word(line: &[u8]) -> Option<(&[u8], &[u8])>
    ensures { MatchOption result (words_of line.now ≡ []) (λ parts.
        (words_of line.now ≡ parts.0.now ∷ words_of parts.1.now) × (length parts.1.now < length line.now)) }
{
    let mut rest = line;
    while let [b, more @ ..] = rest {
        if !is_blank(*b) {
            return Some(cut_word(rest));
        }
        rest = more;
    }
    None
}

/// A line that begins with a word, cut behind that word.
fn cut_word(line: &[u8]) -> (&[u8], &[u8])
    requires { IsUnbroken line.now }
    ensures { IsCut line.now result.0.now result.1.now }
{
    for (at, b) in line.iter().enumerate() {
        if is_blank(*b) {
            return (&line[..at], &line[at..]);
        }
    }
    (line, &line[line.len()..])
}

pub(crate) fn is_blank(b: u8) -> bool
    ensures { result ≡ is_blank b }
{
    b <= 32 && matches!(b, 9 | 11 | 12 | 13 | 32)
}
