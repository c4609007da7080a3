//! The texts of replies, byte for byte: words with one space between two of them, and a line feed.

ghost use Rattle.std.specs.Prelude.{◌≡◌, ◌≤◌, ◌++◌, [], ◌∷◌, IfOk, OnOk, codes, length, map, decimal};
ghost use Rattle.segment_hit.specs.HitOf.{ratio_of};
ghost use Rattle.query_script.specs.Replies.{reply_text, line_of, refusal_text, spaced, counted_words, group_words, tally_words, ratio_word, point_words, box_words, range_words, node_words, prefixes, stat_words, is_refused};

use crate::faults::LineFault;
use crate::fractions::HitFraction;
use crate::groups::GroupCount;
use crate::reasons::fault_text;
use crate::replies::Reply;
use fixed_box::{Box3, Point};
use itoa::{Buffer, Integer, write_digits};
use octree_cells::Cell;
use outside::Memory;
use radix_tree::Node;
use segment_hit::Frac;
use std::alloc::{AllocError, Global};

/// So many bytes are reserved for a line.
const LINE_ROOM: usize = 64;

/// And so many for the number of a triangle, of which there are at most 2^20, and the space before it.
const NUMBER_ROOM: usize = 8;

/// So many numbers are added at once.
const AT_ONCE: usize = 16;

/// That is their room: a number of 32 bits has at most ten digits, and a space stands before it.
const ROOM_AT_ONCE: usize = 176;

/// The text of the reply to the line of this number, with its line feed; no byte for `Nothing`.
///
/// - `Overlaps`: `overlaps K: n1 n2 n3` with the count and the numbers, or `overlaps 0`;
/// - `Hit`: `hit T N/D` with the triangle's number and the fraction; `Miss`: `miss`;
/// - `Moved`: `moved` and the vertex's number; `Refitted`: `refitted`; `Rebuilt`: `rebuilt`;
/// - `NodeIs`: `node`, the number, first and last position, split, and the coordinates of the box's corners;
/// - `CellsAre`: `cells L K: p1 p2 p3` with the level, the count and the prefixes, or `cells L 0`;
/// - `GroupsAre`: `groups K: name1 count1 name2 count2` with the count of groups, or `groups 0`;
/// - `StatIs`: `triangles T nodes I height H cells C`;
/// - `WorkIs`: `work` and the count;
/// - `Refused`: `line N: ` with the line's number and the reason (`fault_text`).
pub fn reply_text(alloc: Global, line: u32, reply: &Reply) -> Result<Vec<u8>, Memory>
    ensures { IfOk result (λ text. text.items ≡ reply_text line reply.now) }
{
    let Ok(mut text) = Vec::with_capacity(alloc, room_of(reply)) else {
        return Err(Memory);
    };
    match add_reply(&mut text, line, reply) {
        Ok(()) => Ok(text),
        Err(_) => Err(Memory),
    }
}

/// How many bytes are reserved for the text of a reply, so that it seldom has to grow.
fn room_of(reply: &Reply) -> usize {
    match reply {
        Reply::Nothing => 0,
        Reply::Overlaps(numbers) => numbers
            .items()
            .len()
            .saturating_mul(NUMBER_ROOM)
            .saturating_add(LINE_ROOM),
        _ => LINE_ROOM,
    }
}

fn add_reply(text: &mut Vec<u8>, line: u32, reply: &Reply) -> Result<(), AllocError>
    ensures { OnOk result (text.new.items ≡ text.old.items ++ reply_text line reply.now) }
{
    match reply {
        Reply::Nothing => Ok(()),
        Reply::Overlaps(numbers) => add_overlaps(text, numbers.items()),
        Reply::Hit { tri, at } => add_hit(text, *tri, at),
        Reply::Miss => text.extend_from_slice(b"miss\n"),
        Reply::Moved(vertex) => add_moved(text, *vertex),
        Reply::Refitted => text.extend_from_slice(b"refitted\n"),
        Reply::Rebuilt => text.extend_from_slice(b"rebuilt\n"),
        Reply::NodeIs { number, node } => add_node(text, *number, node),
        Reply::CellsAre { level, list } => add_cells(text, *level, list.items()),
        Reply::GroupsAre(groups) => add_groups(text, groups.items()),
        Reply::StatIs {
            triangles,
            nodes,
            height,
            cells,
        } => add_stat(text, *triangles, *nodes, *height, *cells),
        Reply::WorkIs(work) => add_work(text, *work),
        Reply::Refused(fault) => add_refusal(text, line, *fault),
    }
}

fn add_overlaps(text: &mut Vec<u8>, numbers: &[u32]) -> Result<(), AllocError>
    ensures { OnOk result (text.new.items ≡ text.old.items
        ++ line_of (codes "overlaps") (counted_words numbers.now)) }
{
    text.extend_from_slice(b"overlaps")?;
    add_number(text, numbers.len())?;
    if !numbers.is_empty() {
        text.extend_from_slice(b":")?;
        add_numbers(text, numbers)?;
    }
    text.extend_from_slice(b"\n")
}

/// Each number behind a space.
fn add_numbers(text: &mut Vec<u8>, numbers: &[u32]) -> Result<(), AllocError>
    ensures { OnOk result (text.new.items ≡ text.old.items ++ spaced (map decimal numbers.now)) }
{
    let mut rest = numbers;
    while !rest.is_empty() {
        let (few, more) = rest.split_at(rest.len().min(AT_ONCE));
        add_few_numbers(text, few)?;
        rest = more;
    }
    Ok(())
}

/// The same of few numbers, which are written from the last to the first, and then added at once.
fn add_few_numbers(text: &mut Vec<u8>, numbers: &[u32]) -> Result<(), AllocError>
    requires { length numbers.now ≤ AT_ONCE }
    ensures { OnOk result (text.new.items ≡ text.old.items ++ spaced (map decimal numbers.now)) }
{
    let mut words = [0u8; ROOM_AT_ONCE];
    let mut at = ROOM_AT_ONCE;
    let mut left = numbers.len();
    while left > 0 {
        left -= 1;
        at = write_digits(u64::from(numbers[left]), &mut words, at) - 1;
        words[at] = b' ';
    }
    text.extend_from_slice(&words[at..])
}

fn add_hit(text: &mut Vec<u8>, tri: u32, at: &HitFraction) -> Result<(), AllocError>
    ensures { OnOk result (text.new.items ≡ text.old.items
        ++ line_of (codes "hit") (decimal tri ∷ ratio_word at.now ∷ [])) }
{
    text.extend_from_slice(b"hit")?;
    add_number(text, tri)?;
    add_fraction(text, &at.frac())?;
    text.extend_from_slice(b"\n")
}

#[tactic(auto, unfolding(crate::specs::Replies::ratio_word))]
fn add_fraction(text: &mut Vec<u8>, frac: &Frac) -> Result<(), AllocError>
    ensures { OnOk result (text.new.items ≡ text.old.items ++ spaced (ratio_word (ratio_of frac.now) ∷ [])) }
{
    add_number(text, frac.num)?;
    text.extend_from_slice(b"/")?;
    add_digits(text, frac.den)
}

fn add_moved(text: &mut Vec<u8>, vertex: u64) -> Result<(), AllocError>
    ensures { OnOk result (text.new.items ≡ text.old.items ++ line_of (codes "moved") (decimal vertex ∷ [])) }
{
    text.extend_from_slice(b"moved")?;
    add_number(text, vertex)?;
    text.extend_from_slice(b"\n")
}

fn add_node(text: &mut Vec<u8>, number: u64, node: &Node) -> Result<(), AllocError>
    ensures { OnOk result (text.new.items ≡ text.old.items
        ++ line_of (codes "node") (decimal number ∷ node_words node.now)) }
{
    text.extend_from_slice(b"node")?;
    add_number(text, number)?;
    add_fields(text, node)?;
    text.extend_from_slice(b"\n")
}

fn add_fields(text: &mut Vec<u8>, node: &Node) -> Result<(), AllocError>
    ensures { OnOk result (text.new.items ≡ text.old.items ++ spaced (node_words node.now)) }
{
    add_range(text, node)?;
    add_box(text, &node.fit)
}

fn add_range(text: &mut Vec<u8>, node: &Node) -> Result<(), AllocError>
    ensures { OnOk result (text.new.items ≡ text.old.items ++ spaced (range_words node.now)) }
{
    add_number(text, node.first)?;
    add_number(text, node.last)?;
    add_number(text, node.split)
}

fn add_box(text: &mut Vec<u8>, b: &Box3) -> Result<(), AllocError>
    ensures { OnOk result (text.new.items ≡ text.old.items ++ spaced (box_words b.now)) }
{
    add_point(text, &b.lo)?;
    add_point(text, &b.hi)
}

fn add_point(text: &mut Vec<u8>, point: &Point) -> Result<(), AllocError>
    ensures { OnOk result (text.new.items ≡ text.old.items ++ spaced (point_words point.now)) }
{
    add_number(text, point.x)?;
    add_number(text, point.y)?;
    add_number(text, point.z)
}

fn add_cells(text: &mut Vec<u8>, level: u64, cells: &[Cell]) -> Result<(), AllocError>
    ensures { OnOk result (text.new.items ≡ text.old.items
        ++ line_of (codes "cells") (decimal level ∷ counted_words (prefixes cells.now))) }
{
    text.extend_from_slice(b"cells")?;
    add_number(text, level)?;
    add_number(text, cells.len())?;
    if !cells.is_empty() {
        text.extend_from_slice(b":")?;
        add_prefixes(text, cells)?;
    }
    text.extend_from_slice(b"\n")
}

/// Each prefix behind a space.
fn add_prefixes(text: &mut Vec<u8>, cells: &[Cell]) -> Result<(), AllocError>
    ensures { OnOk result (text.new.items ≡ text.old.items ++ spaced (map decimal (prefixes cells.now))) }
{
    for cell in cells {
        add_number(text, cell.prefix)?;
    }
    Ok(())
}

fn add_groups(text: &mut Vec<u8>, groups: &[GroupCount]) -> Result<(), AllocError>
    ensures { OnOk result (text.new.items ≡ text.old.items
        ++ line_of (codes "groups") (group_words groups.now)) }
{
    text.extend_from_slice(b"groups")?;
    add_number(text, groups.len())?;
    if !groups.is_empty() {
        text.extend_from_slice(b":")?;
        add_tallies(text, groups)?;
    }
    text.extend_from_slice(b"\n")
}

/// Each name and each count behind a space.
fn add_tallies(text: &mut Vec<u8>, groups: &[GroupCount]) -> Result<(), AllocError>
    ensures { OnOk result (text.new.items ≡ text.old.items ++ spaced (tally_words groups.now)) }
{
    for group in groups {
        add_tally(text, group)?;
    }
    Ok(())
}

fn add_tally(text: &mut Vec<u8>, group: &GroupCount) -> Result<(), AllocError>
    ensures { OnOk result (text.new.items ≡ text.old.items ++ spaced (group.now.name ∷ decimal group.now.count ∷ [])) }
{
    text.extend_from_slice(b" ")?;
    text.extend_from_slice(group.name.bytes())?;
    add_number(text, group.count)
}

fn add_stat(
    text: &mut Vec<u8>,
    triangles: u32,
    nodes: u32,
    height: u32,
    cells: u64,
) -> Result<(), AllocError>
    ensures { OnOk result (text.new.items ≡ text.old.items
        ++ line_of (codes "triangles") (stat_words triangles nodes height cells)) }
{
    text.extend_from_slice(b"triangles")?;
    add_number(text, triangles)?;
    add_named(text, " nodes", nodes)?;
    add_named(text, " height", height)?;
    add_named(text, " cells", cells)?;
    text.extend_from_slice(b"\n")
}

/// A word that stands behind a space, and the number that it names.
fn add_named<I: Integer>(text: &mut Vec<u8>, word: &str, n: I) -> Result<(), AllocError>
    ensures { OnOk result (text.new.items ≡ text.old.items ++ (word.now ++ (codes " " ++ I.text n))) }
{
    text.extend_from_slice(word.as_bytes())?;
    add_number(text, n)
}

fn add_work(text: &mut Vec<u8>, work: u64) -> Result<(), AllocError>
    ensures { OnOk result (text.new.items ≡ text.old.items ++ line_of (codes "work") (decimal work ∷ [])) }
{
    text.extend_from_slice(b"work")?;
    add_number(text, work)?;
    text.extend_from_slice(b"\n")
}

/// A space and the number.
fn add_number<I: Integer>(text: &mut Vec<u8>, n: I) -> Result<(), AllocError>
    ensures { OnOk result (text.new.items ≡ text.old.items ++ (codes " " ++ I.text n)) }
{
    text.extend_from_slice(b" ")?;
    add_digits(text, n)
}

fn add_digits<I: Integer>(text: &mut Vec<u8>, n: I) -> Result<(), AllocError>
    ensures { OnOk result (text.new.items ≡ text.old.items ++ I.text n) }
{
    let mut buffer = Buffer::new();
    text.extend_from_slice(buffer.format(n).as_bytes())
}

fn add_refusal(text: &mut Vec<u8>, line: u32, fault: LineFault) -> Result<(), AllocError>
    ensures { OnOk result (text.new.items ≡ text.old.items ++ refusal_text line fault) }
{
    text.extend_from_slice(b"line")?;
    add_number(text, line)?;
    text.extend_from_slice(b": ")?;
    text.extend_from_slice(fault_text(fault).as_bytes())?;
    text.extend_from_slice(b"\n")
}

/// Whether the reply is a refusal.
pub fn is_refused(reply: &Reply) -> bool
    ensures { result ≡ is_refused reply.now }
{
    matches!(reply, Reply::Refused(_))
}
