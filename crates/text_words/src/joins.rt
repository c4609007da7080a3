//! The joined lines of a text, and their words. A word never goes across a join, so each is lent from the text, and no
//! joined line is ever put together.

ghost use Rattle.std.specs.Prelude.{◌≡◌, ◌<◌, ◌+◌, ◌∷◌, ◌^◌, [], length, MatchOption, IfNone, IfSome};
ghost use Rattle.text_words.specs.Lines.{lines_of};
ghost use Rattle.text_words.specs.Joins.{said, joins, is_line_end, joined_lines, joined_lines_of};
ghost use Rattle.text_words.specs.ThreeNumbers.{AreThreeNumbers, BeginSmall};

use crate::lines::Lines;
use crate::numbers::number_of;
use crate::words::Words;
use std::marker::Model;

/// The joined lines of a text that are still to be read, of which one is at hand.
///
/// A line that ends with `\`, or with `\` and a carriage return, is joined with the next, with a space between; one
/// with a `#` is not. Contracts see the words that are left of the line at hand, and the lines behind it.
#[derive(Drop)]
pub struct JoinedLines<'a> {
    words: Words<'a>,
    joins: bool,
    lines: Lines<'a>,
    number: u32,
}

impl<'a> Model for JoinedLines<'a> {
    ghost use Rattle.std.specs.Prelude.{◌<◌, ◌+◌, ◌^◌, length};
    ghost use Rattle.text_words.specs.Joins.{LinesLeft, joined_lines};
    ghost use Rattle.text_words.specs.Parts.{left_of};

    ghost Value = { LinesLeft };

    ghost view = { λ a. left_of a.words a.joins (joined_lines (a.number + 1) a.lines) };

    ghost invariant = { λ a. a.number + length a.lines < 2 ^ 32 };
}

impl<'a> JoinedLines<'a> {
    /// All joined lines of the text, with none at hand.
    pub fn new(text: &'a [u8]) -> JoinedLines<'a>
        requires { length text.now < 2 ^ 32 }
        ensures words { result.words ≡ [] }
        ensures later { result.later ≡ joined_lines_of text.now }
    {
        JoinedLines::behind_lines(0, text)
    }

    /// The joined lines of a text that stands behind so many lines, with none at hand.
    #[inline(always)]
    pub fn behind_lines(number: u32, text: &'a [u8]) -> JoinedLines<'a>
        requires { number + length (lines_of text.now) < 2 ^ 32 }
        ensures words { result.words ≡ [] }
        ensures later { result.later ≡ joined_lines (number + 1) (lines_of text.now) }
    {
        JoinedLines {
            words: Words::new(&text[..0]),
            joins: false,
            lines: Lines::new(text),
            number,
        }
    }

    /// The text behind the line at hand, and behind how many lines it stands. `None` where the line at hand may go on
    /// in it.
    #[inline(always)]
    pub fn text_behind(&self) -> Option<(u32, &'a [u8])>
        ensures later { IfSome result (λ parts. self.now.later ≡ joined_lines (parts.0 + 1) (lines_of parts.1.now)) }
        ensures few { IfSome result (λ parts. parts.0 + length (lines_of parts.1.now) < 2 ^ 32) }
    {
        if self.joins {
            return None;
        }
        Some((self.number, self.lines.text()))
    }

    /// Goes on to the next joined line, and answers the number of its first line, counted from 1.
    pub fn next_line(&mut self) -> Option<u32>
        ensures { MatchOption result (self.old.later ≡ []) (λ number.
            self.old.later ≡ (record { number = number; words = self.new.words }) ∷ self.new.later) }
    {
        while self.joins {
            self.joins = self.lines.joined_part()?.2;
            self.number += 1;
        }
        let (_line, front, joins) = self.lines.next_part()?;
        self.words = Words::new(front);
        self.joins = joins;
        self.number += 1;
        Some(self.number)
    }

    /// The next word of the line at hand.
    pub fn next_word(&mut self) -> Option<&'a [u8]>
        ensures word { MatchOption result ((self.old.words ≡ []) × (self.new.words ≡ [])) (λ word.
            self.old.words ≡ word.now ∷ self.new.words) }
        ensures later { self.new.later ≡ self.old.later }
    {
        loop {
            if let Some(word) = self.words.next() {
                return Some(word);
            }
            if !self.joins {
                return None;
            }
            let Some((_line, front, joins)) = self.lines.joined_part() else {
                self.joins = false;
                return None;
            };
            self.words = Words::new(front);
            self.joins = joins;
            self.number += 1;
        }
    }

    /// The numbers that the next three words write, where each is digits alone. `None` takes no word, and comes only
    /// where the next three are not all there, digits alone and below 10^9.
    #[inline(always)]
    pub fn three_numbers(&mut self) -> Option<(u32, u32, u32)>
        ensures numbers { MatchOption result (self.new.words ≡ self.old.words) (λ t.
            AreThreeNumbers self.old.words t.0 t.1 t.2 self.new.words) }
        ensures none { IfNone result (BeginSmall 3 self.old.words → ⊥) }
        ensures later { self.new.later ≡ self.old.later }
    {
        if let Some(numbers) = self.words.three_numbers() {
            return Some(numbers);
        }
        if !self.joins {
            return None;
        }
        self.three_numbers_joined()
    }

    /// The same, word by word, where a join may stand among the three. Such lines are few, so it stands apart from its
    /// callers' code.
    #[inline(never)]
    fn three_numbers_joined(&mut self) -> Option<(u32, u32, u32)>
        ensures numbers { MatchOption result (self.new.words ≡ self.old.words) (λ t.
            AreThreeNumbers self.old.words t.0 t.1 t.2 self.new.words) }
        ensures none { IfNone result (BeginSmall 3 self.old.words → ⊥) }
        ensures later { self.new.later ≡ self.old.later }
    {
        let mut ahead = self.ahead();
        let a = number_of(ahead.next_word()?)?;
        let b = number_of(ahead.next_word()?)?;
        let c = number_of(ahead.next_word()?)?;
        *self = ahead;
        Some((a, b, c))
    }

    /// The same lines, to read ahead.
    fn ahead(&self) -> JoinedLines<'a>
        ensures { result ≡ self.now }
    {
        JoinedLines {
            words: self.words.ahead(),
            joins: self.joins,
            lines: self.lines.ahead(),
            number: self.number,
        }
    }
}

/// What a line says, and whether it is joined with the next.
pub fn said(line: &[u8]) -> (&[u8], bool)
    ensures said { result.0.now ≡ said line.now }
    ensures joins { result.1 ≡ joins line.now }
{
    for (at, b) in line.iter().enumerate() {
        if *b == b'#' {
            return (&line[..at], false);
        }
        if *b == b'\\' && is_line_end(&line[at + 1..]) {
            return (&line[..at], true);
        }
    }
    (line, false)
}

/// Whether this, behind a `\`, is the end of a line.
fn is_line_end(rest: &[u8]) -> bool
    ensures { result ≡ is_line_end rest.now }
{
    match rest {
        [] => true,
        [b] => *b == b'\r',
        _ => false,
    }
}
