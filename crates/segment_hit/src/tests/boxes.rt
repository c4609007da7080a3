//! Worked segments against boxes, the same fractions compared with each other, and some thousand small ones beside all
//! candidates for the entry.

ghost use Rattle.std.specs.Prelude.{IsTrue};
ghost use Rattle.fixed_box.specs.World.{BoxInWorld};

use crate::tests::candidates::entered;
use crate::tests::{Digits, parts, point};
use crate::{Entry, Frac, Line, enters, entry, line_of, passage, reach};
use fixed_box::{Box3, Point, in_world};
use std::rt::HostRuntime;

/// The ends of a segment, the corners of a box, and where the segment enters it; 0/0 is a miss. A script outside this
/// repository reckoned the same by fractions.
static ENTRIES: [([i32; 6], [i32; 6], (i64, i64)); 45] = [
    // through a face, in either direction
    ([-2, 1, 1, 2, 1, 1], [0, 0, 0, 4, 4, 4], (1, 2)),
    ([-1, 2, 2, 5, 2, 2], [0, 0, 0, 4, 4, 4], (1, 6)),
    ([5, 2, 2, -1, 2, 2], [0, 0, 0, 4, 4, 4], (1, 6)),
    ([2, 9, 2, 2, 1, 2], [0, 0, 0, 4, 4, 4], (5, 8)),
    ([2, 2, -6, 2, 2, 3], [0, 0, 0, 4, 4, 4], (2, 3)),
    // by an edge, by a corner
    ([-1, -1, 2, 1, 1, 2], [0, 0, 0, 4, 4, 4], (1, 2)),
    ([-1, -1, -1, 2, 2, 2], [0, 0, 0, 4, 4, 4], (1, 3)),
    ([7, 6, 5, 1, 2, 3], [0, 0, 0, 4, 4, 4], (1, 2)),
    // at one point alone: a corner, then an edge
    ([-1, 1, 0, 1, -1, 0], [0, 0, 0, 4, 4, 4], (1, 2)),
    ([-1, 1, 1, 2, -2, -2], [0, 0, 0, 4, 4, 4], (1, 3)),
    ([3, 5, 4, 5, 3, 4], [0, 0, 0, 4, 4, 4], (1, 2)),
    ([-2, 2, 1, 2, -2, 3], [0, 0, 0, 4, 4, 4], (1, 2)),
    // just past that edge
    ([-2, 1, 1, 2, -2, 3], [0, 0, 0, 4, 4, 4], (0, 0)),
    // from inside, and from a face outwards
    ([1, 2, 3, 9, 9, 9], [0, 0, 0, 4, 4, 4], (0, 1)),
    ([1, 2, 3, 3, 2, 1], [0, 0, 0, 4, 4, 4], (0, 1)),
    ([0, 2, 2, -5, 2, 2], [0, 0, 0, 4, 4, 4], (0, 1)),
    // of one point: inside, on a corner, outside
    ([2, 2, 2, 2, 2, 2], [0, 0, 0, 4, 4, 4], (0, 1)),
    ([4, 4, 4, 4, 4, 4], [0, 0, 0, 4, 4, 4], (0, 1)),
    ([5, 2, 2, 5, 2, 2], [0, 0, 0, 4, 4, 4], (0, 0)),
    ([2, 2, -1, 2, 2, -1], [0, 0, 0, 4, 4, 4], (0, 0)),
    // along an axis: outside, along a face, along an edge
    ([-1, 5, 2, 5, 5, 2], [0, 0, 0, 4, 4, 4], (0, 0)),
    ([2, -3, -1, 2, 9, -1], [0, 0, 0, 4, 4, 4], (0, 0)),
    ([-1, 4, 2, 5, 4, 2], [0, 0, 0, 4, 4, 4], (1, 6)),
    ([6, 4, 4, -2, 4, 4], [0, 0, 0, 4, 4, 4], (1, 4)),
    // past a corner: the box of both ends meets the box
    ([-3, 1, 2, 1, -3, 2], [0, 0, 0, 4, 4, 4], (0, 0)),
    ([3, 9, 2, 9, 3, 2], [0, 0, 0, 4, 4, 4], (0, 0)),
    // up to the box, short of it, and away from it
    ([-3, 2, 2, 0, 2, 2], [0, 0, 0, 4, 4, 4], (1, 1)),
    ([9, 9, 9, 4, 4, 4], [0, 0, 0, 4, 4, 4], (1, 1)),
    ([-3, 2, 2, -1, 2, 2], [0, 0, 0, 4, 4, 4], (0, 0)),
    ([5, 2, 2, 9, 2, 2], [0, 0, 0, 4, 4, 4], (0, 0)),
    // the last axis decides
    ([-1, -4, 1, 3, 8, 2], [0, 0, 0, 4, 4, 4], (1, 3)),
    ([-1, 1, -3, 5, 2, 9], [0, 0, 0, 4, 4, 4], (1, 4)),
    // other boxes: flat, of one point, below 0
    ([0, 1, 1, 3, 1, 1], [2, 0, 0, 2, 4, 4], (2, 3)),
    ([0, 0, 0, 6, 9, 3], [2, 3, 1, 2, 3, 1], (1, 3)),
    ([0, 0, 0, 6, 9, 3], [2, 3, 2, 2, 3, 2], (0, 0)),
    ([0, 0, 0, -4, -4, -2], [-7, -5, -3, -2, -1, -1], (1, 2)),
    // from corner to corner of the world
    (
        [-131072, -131072, -131072, 131071, 131071, 131071],
        [-131072, -131072, -131072, 131071, 131071, 131071],
        (0, 1),
    ),
    (
        [-131072, -131072, -131072, 131071, 131071, 131071],
        [131071, 131071, 131071, 131071, 131071, 131071],
        (1, 1),
    ),
    (
        [131071, 131071, 131071, -131072, -131072, -131072],
        [131071, 131071, 131071, 131071, 131071, 131071],
        (0, 1),
    ),
    (
        [-131072, -131072, -131072, 131071, 131071, 131071],
        [0, 0, 0, 131071, 131071, 131071],
        (131072, 262143),
    ),
    (
        [131071, 131071, 131071, -131072, -131072, -131072],
        [-131072, -131072, -131072, -1, -1, -1],
        (131072, 262143),
    ),
    (
        [-131072, 131071, -131072, 131071, -131072, 131070],
        [0, -131072, -131072, 131071, 0, 0],
        (131072, 262143),
    ),
    (
        [-131072, 131071, -131072, 131071, -131072, 131070],
        [-131072, -131072, 1, 131071, -2, 131071],
        (131073, 262142),
    ),
    (
        [-131072, 131071, -131072, 131071, -131072, 131070],
        [1, 1, -131072, 131071, 131071, 131071],
        (0, 0),
    ),
    (
        [-131072, -131072, -131072, 131070, 131070, 131070],
        [-1, -1, -1, -1, -1, -1],
        (1, 2),
    ),
];

fn box_in_world(b: &Box3) -> bool
    ensures { IsTrue result → BoxInWorld b.now }
{
    in_world(&b.lo) && in_world(&b.hi)
}

fn enters_in_world(p: Point, q: Point, b: &Box3) -> Option<Frac> {
    if in_world(&p) && in_world(&q) && box_in_world(b) {
        enters(p, q, b)
    } else {
        None
    }
}

fn entry_in_world(p: Point, q: Point, b: &Box3) -> Option<Entry> {
    if in_world(&p) && in_world(&q) && box_in_world(b) {
        entry(p, q, b)
    } else {
        None
    }
}

fn start(s: &[i32; 6]) -> Point {
    point(s[0], s[1], s[2])
}

fn end(s: &[i32; 6]) -> Point {
    point(s[3], s[4], s[5])
}

fn between(c: &[i32; 6]) -> Box3 {
    Box3::of_corners(start(c), end(c))
}

/// Whether the first fraction is the lesser.
fn is_less(a: (i64, i64), b: (i64, i64)) -> bool {
    a.0.wrapping_mul(b.1) < b.0.wrapping_mul(a.1)
}

#[test]
fn sides_edges_and_corners_count_and_so_do_both_ends(rt: HostRuntime) {
    for (segment, corners, fraction) in ENTRIES.iter() {
        let found = enters_in_world(start(segment), end(segment), &between(corners));
        assert_eq!(rt; parts(found), *fraction, "{segment:?} {corners:?}");
    }
}

#[test]
fn entries_compare_as_their_values_do(rt: HostRuntime) {
    for (segment, corners, fraction) in ENTRIES.iter() {
        let found = entry_in_world(start(segment), end(segment), &between(corners));
        for (other_segment, other_corners, other_fraction) in ENTRIES.iter() {
            let around = between(other_corners);
            let other = entry_in_world(start(other_segment), end(other_segment), &around);
            let other_lowest = enters_in_world(start(other_segment), end(other_segment), &around);
            if let (Some(a), Some(b), Some(f)) = (found, other, other_lowest) {
                let before = is_less(*fraction, *other_fraction);
                let behind = is_less(*other_fraction, *fraction);
                assert_eq!(rt; a.is_before(&b), before, "{segment:?} {other_segment:?}");
                assert_eq!(rt; a.is_behind(&f), behind, "{segment:?} {other_segment:?}");
            }
        }
    }
}

#[test]
fn small_segments_enter_at_the_least_candidate(rt: HostRuntime) {
    let mut digits = Digits { seed: 12 };
    let mut entries = 0u32;
    for _ in 0..4000 {
        let p = digits.point();
        let q = digits.point();
        let b = Box3::of_corners(digits.point(), digits.point());
        let tried = entered(&p, &q, &b);
        let found = enters_in_world(p, q, &b);
        assert_eq!(rt; found.is_some(), tried.is_some(), "{p:?} {q:?} {b:?}");
        if let (Some(f), Some((time, whole))) = (found, tried) {
            entries = entries.saturating_add(1);
            assert_eq!(rt;
                f.num.wrapping_mul(whole),
                time.wrapping_mul(f.den),
                "{p:?} {q:?} {b:?}"
            );
        }
    }
    // counted by that script, which also found 485 of them between both ends and 139 at the end alone
    assert_eq!(rt; entries, 1004);
}

/// The line of a segment in the world.
fn line_in_world(p: Point, q: Point) -> Option<Line> {
    if in_world(&p) && in_world(&q) {
        Some(line_of(&p, &q))
    } else {
        None
    }
}

/// Where the line enters the box, if it is in the box at all.
fn passed(l: &Line, b: &Box3) -> Option<i64> {
    if box_in_world(b) {
        let way = passage(l, b);
        if way.enter.at <= way.leave.at && way.enter.at <= l.whole {
            return Some(way.enter.at);
        }
    }
    None
}

/// How far the line reaches up to the fraction.
fn reached(l: &Line, f: &Frac) -> Option<i64> {
    if 0 <= f.num && f.num <= f.den {
        Some(reach(l, f).at)
    } else {
        None
    }
}

/// Whether the line tells the entry that `enters` tells, or none where it tells none.
fn agrees(p: Point, q: Point, b: &Box3) -> bool {
    let Some(l) = line_in_world(p, q) else {
        return false;
    };
    match (enters_in_world(p, q, b), passed(&l, b)) {
        (Some(f), Some(place)) => {
            let own = i128::from(place) * i128::from(f.den);
            own == i128::from(f.num) * i128::from(l.whole) && reached(&l, &f) == Some(place)
        }
        (None, None) => true,
        _ => false,
    }
}

#[test]
fn a_line_enters_a_box_where_its_segment_does(rt: HostRuntime) {
    for (segment, corners, _) in ENTRIES.iter() {
        assert!(rt;
            agrees(start(segment), end(segment), &between(corners)),
            "{segment:?} {corners:?}"
        );
    }
    let mut digits = Digits { seed: 21 };
    for _ in 0..4000 {
        let p = digits.point();
        let q = digits.point();
        let b = Box3::of_corners(digits.point(), digits.point());
        assert!(rt; agrees(p, q, &b), "{p:?} {q:?} {b:?}");
    }
}
