//! A line of a script, read: one function for each step of the definition.

ghost use Rattle.std.specs.Prelude.{◌≡◌, OnOk, IfOk, IfErr, Some, drop};
ghost use Rattle.text_words.specs.Lines.{words_of};
ghost use Rattle.query_script.specs.Asks.{ask_of, counted_ask, fields_ask, point_of, keyword_of, count_of, starts_comment, IsAskable, IsWithin, IsOfLine};

use crate::asks::Ask;
use crate::bounds::Bounds;
use crate::faults::LineFault;
use crate::keywords::Keyword;
use crate::limits::LINE_MOST;
use crate::numbers::{coordinate, number};
use crate::plain_lines::plain_ask;
use fixed_box::{Box3, Point};
use text_words::{Words, first_word};

/// What a line asks, with `unit` grid steps to one unit of its coordinates, which is 1 to `UNIT_MAX`.
///
/// The line is without its line feed, and is cut into words at tabs, vertical tabs, form feeds, carriage returns and
/// spaces. These checks come one after another, and the first that fails is the answer:
///
/// - the line has at most 1,000 bytes, else `LineTooLong`;
/// - a line without words, or whose first word begins with `#`, asks nothing;
/// - the first word is one of the table's, else `UnknownWord`;
/// - as many words follow it as stand there, else `WrongCount`;
/// - each of them from left to right: a coordinate is a decimal (see `decimals::grid`) and a number is digits alone,
///   else `NotANumber`; either has at most 24 digits from the first that is not `0` on, a decimal's exponent aside, else
///   `NumberTooLong`; a coordinate behind `box` is from -2147483647 to 2147483647 grid steps and one behind `seg` or
///   `move` is in the world, else `OutOfRange`.
///
/// | line | asks |
/// |---|---|
/// | `box x0 y0 z0 x1 y1 z1` | which boxes meet the one between two corners |
/// | `seg px py pz qx qy qz` | which triangle a segment strikes first |
/// | `move v x y z` | that vertex number `v` stands there |
/// | `refit`, `rebuild` | that the boxes are fitted, that the tree is built anew |
/// | `node i` | node number `i` |
/// | `cells L` | the octree's cells of level `L` |
/// | `groups`, `stat`, `work` | the groups, the counts of the tree, the last box query's work |
///
/// The two corners of a `box` may stand in any order. It takes no memory.
pub fn read_line(line: &[u8], unit: u32) -> Result<Ask, LineFault>
    ensures ask { result ≡ ask_of unit line.now }
    ensures askable { IfOk result IsAskable }
    // The others are refusals of a world.
    ensures faults { IfErr result IsOfLine }
{
    if LINE_MOST < line.len() {
        return Err(LineFault::LineTooLong);
    }
    let Some((first, behind)) = first_word(line) else {
        return Ok(Ask::Nothing);
    };
    if starts_comment(first) {
        return Ok(Ask::Nothing);
    }
    asked(keyword(first), behind, unit)
}

fn starts_comment(word: &[u8]) -> bool
    ensures { result ≡ starts_comment word.now }
{
    match word.first() {
        Some(b) => *b == b'#',
        None => false,
    }
}

fn keyword(word: &[u8]) -> Option<Keyword>
    ensures { result ≡ keyword_of word.now }
{
    if word == b"box".as_slice() {
        return Some(Keyword::Box);
    }
    if word == b"seg".as_slice() {
        return Some(Keyword::Seg);
    }
    if word == b"move".as_slice() {
        return Some(Keyword::Move);
    }
    if word == b"refit".as_slice() {
        return Some(Keyword::Refit);
    }
    if word == b"rebuild".as_slice() {
        return Some(Keyword::Rebuild);
    }
    if word == b"node".as_slice() {
        return Some(Keyword::Node);
    }
    if word == b"cells".as_slice() {
        return Some(Keyword::Cells);
    }
    if word == b"groups".as_slice() {
        return Some(Keyword::Groups);
    }
    if word == b"stat".as_slice() {
        return Some(Keyword::Stat);
    }
    if word == b"work".as_slice() {
        return Some(Keyword::Work);
    }
    None
}

fn count_of(keyword: Keyword) -> usize
    ensures { result ≡ count_of keyword }
{
    match keyword {
        Keyword::Box => 6,
        Keyword::Seg => 6,
        Keyword::Move => 4,
        Keyword::Refit => 0,
        Keyword::Rebuild => 0,
        Keyword::Node => 1,
        Keyword::Cells => 1,
        Keyword::Groups => 0,
        Keyword::Stat => 0,
        Keyword::Work => 0,
    }
}

/// What a keyword and what stands behind it ask: at once where that is plain, else word by word.
fn asked(keyword: Option<Keyword>, behind: &[u8], unit: u32) -> Result<Ask, LineFault>
    ensures ask { result ≡ counted_ask unit keyword (words_of behind.now) }
    ensures askable { IfOk result IsAskable }
{
    let Some(keyword) = keyword else {
        return Err(LineFault::UnknownWord);
    };
    if let Some(ask) = plain_ask(keyword, behind, unit) {
        return Ok(ask);
    }
    counted(keyword, &mut Words::new(behind), unit)
}

/// What a keyword and the words behind it ask.
fn counted(keyword: Keyword, words: &mut Words, unit: u32) -> Result<Ask, LineFault>
    ensures ask { result ≡ counted_ask unit (Some keyword) words.old }
    ensures askable { IfOk result IsAskable }
{
    if words.count() != count_of(keyword) {
        return Err(LineFault::WrongCount);
    }
    fields(keyword, words, unit)
}

fn fields(keyword: Keyword, words: &mut Words, unit: u32) -> Result<Ask, LineFault>
    ensures ask { result ≡ fields_ask unit keyword words.old }
    ensures askable { IfOk result IsAskable }
{
    match keyword {
        Keyword::Box => {
            let p = point(words, unit, Bounds::Reach)?;
            let q = point(words, unit, Bounds::Reach)?;
            let around = Box3::of_corners(p, q);
            Ok(Ask::Overlap { around })
        }
        Keyword::Seg => {
            let p = point(words, unit, Bounds::World)?;
            let q = point(words, unit, Bounds::World)?;
            Ok(Ask::Seg { p, q })
        }
        Keyword::Move => {
            let vertex = number(words)?;
            let to = point(words, unit, Bounds::World)?;
            Ok(Ask::Move { vertex, to })
        }
        Keyword::Refit => Ok(Ask::Refit),
        Keyword::Rebuild => Ok(Ask::Rebuild),
        Keyword::Node => {
            let number = number(words)?;
            Ok(Ask::NodeOf { number })
        }
        Keyword::Cells => {
            let level = number(words)?;
            Ok(Ask::Cells { level })
        }
        Keyword::Groups => Ok(Ask::Groups),
        Keyword::Stat => Ok(Ask::Stat),
        Keyword::Work => Ok(Ask::Work),
    }
}

/// The next three words as a point.
fn point(words: &mut Words, unit: u32, bounds: Bounds) -> Result<Point, LineFault>
    ensures value { result ≡ point_of unit bounds words.old }
    ensures within { IfOk result (IsWithin bounds) }
    ensures rest { OnOk result (words.new ≡ drop 3 words.old) }
{
    let x = coordinate(words, unit, bounds)?;
    let y = coordinate(words, unit, bounds)?;
    let z = coordinate(words, unit, bounds)?;
    Ok(Point { x, y, z })
}
