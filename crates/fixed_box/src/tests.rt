//! Worked facts, and pairs of small boxes whose points were listed one by one by a script outside this repository.

use crate::{Box3, HALF, Point, Tri, box_of, centre, contains, in_world, meets, union};
use std::rt::HostRuntime;

/// Two boxes by two corners each; whether some point is in both; whether every point of the second is in the first;
/// and the least and greatest coordinates of the points of either.
const PAIRS: [([i32; 6], [i32; 6], bool, bool, [i32; 6]); 34] = [
    (
        [-1, -2, 0, 2, -3, -3],
        [2, -2, 0, 2, -2, 2],
        true,
        false,
        [-1, -3, -3, 2, -2, 2],
    ),
    (
        [-2, -3, -3, 0, 0, -3],
        [-1, -2, 2, 1, -2, 2],
        false,
        false,
        [-2, -3, -3, 1, 0, 2],
    ),
    (
        [-3, -2, 2, 2, 1, -3],
        [2, 2, 1, -2, -1, -2],
        true,
        false,
        [-3, -2, -3, 2, 2, 2],
    ),
    (
        [1, 3, -2, -1, 0, -2],
        [2, -2, 2, 0, 2, -1],
        false,
        false,
        [-1, -2, -2, 2, 3, 2],
    ),
    (
        [-3, 1, 1, 2, -2, -1],
        [-2, 2, -2, 2, -2, 2],
        true,
        false,
        [-3, -2, -2, 2, 2, 2],
    ),
    (
        [-2, 0, 2, 1, 0, 3],
        [0, 1, 2, 1, 0, 0],
        true,
        false,
        [-2, 0, 0, 1, 1, 3],
    ),
    (
        [-2, 3, -2, 2, 3, -2],
        [-2, 2, 0, 2, 1, 0],
        false,
        false,
        [-2, 1, -2, 2, 3, 0],
    ),
    (
        [2, 0, -1, 1, -3, -3],
        [2, 1, -1, 0, -1, 1],
        true,
        false,
        [0, -3, -3, 2, 1, 1],
    ),
    (
        [0, -3, 2, -3, 3, 1],
        [2, 0, 0, 0, 2, 1],
        true,
        false,
        [-3, -3, 0, 2, 3, 2],
    ),
    (
        [1, 3, 0, -3, 3, -3],
        [0, 1, -2, -2, 0, 2],
        false,
        false,
        [-3, 0, -3, 1, 3, 2],
    ),
    (
        [2, 3, 0, -1, 2, 0],
        [0, -2, 1, 0, -1, 2],
        false,
        false,
        [-1, -2, 0, 2, 3, 2],
    ),
    (
        [-3, 0, -3, -2, 3, -1],
        [-1, -1, 1, 1, 1, -2],
        false,
        false,
        [-3, -1, -3, 1, 3, 1],
    ),
    (
        [-2, 0, 0, 1, -1, -2],
        [1, 2, 0, 1, 0, 1],
        true,
        false,
        [-2, -1, -2, 1, 2, 1],
    ),
    (
        [-2, -2, -3, -2, -2, -2],
        [-1, -2, 1, 2, -1, 0],
        false,
        false,
        [-2, -2, -3, 2, -1, 1],
    ),
    (
        [-1, -3, -2, 0, 1, -1],
        [2, 2, 0, -1, 2, 2],
        false,
        false,
        [-1, -3, -2, 2, 2, 2],
    ),
    (
        [2, 2, 2, -3, 0, 3],
        [2, 1, 1, 1, 1, -2],
        false,
        false,
        [-3, 0, -2, 2, 2, 3],
    ),
    (
        [0, 2, 0, -3, -2, -3],
        [-1, 1, -1, -2, 0, 2],
        true,
        false,
        [-3, -2, -3, 0, 2, 2],
    ),
    (
        [-3, -3, -3, 1, -2, 1],
        [-2, 0, 2, -2, -2, -1],
        true,
        false,
        [-3, -3, -3, 1, 0, 2],
    ),
    (
        [1, 0, -2, 2, -1, -1],
        [2, 0, 1, -2, -2, 1],
        false,
        false,
        [-2, -2, -2, 2, 0, 1],
    ),
    (
        [0, 0, 0, -1, -3, -2],
        [-2, 0, 0, 1, -1, 2],
        true,
        false,
        [-2, -3, -2, 1, 0, 2],
    ),
    (
        [-3, -2, 1, -1, -2, 2],
        [2, -2, 2, 0, -2, 0],
        false,
        false,
        [-3, -2, 0, 2, -2, 2],
    ),
    (
        [1, -1, -2, -1, 3, -2],
        [2, 2, 2, 0, -1, 2],
        false,
        false,
        [-1, -1, -2, 2, 3, 2],
    ),
    (
        [3, 3, 3, 3, -2, 3],
        [-1, 1, -1, -1, 2, 1],
        false,
        false,
        [-1, -2, -1, 3, 3, 3],
    ),
    (
        [-1, 2, -3, -3, 3, -1],
        [1, 0, -1, 2, 0, 1],
        false,
        false,
        [-3, 0, -3, 2, 3, 1],
    ),
    (
        [3, 2, -1, -1, -3, -2],
        [-2, -1, 1, -1, 0, -1],
        true,
        false,
        [-2, -3, -2, 3, 2, 1],
    ),
    (
        [0, 1, 1, 3, -3, 0],
        [0, -2, -2, 1, -1, 1],
        true,
        false,
        [0, -3, -2, 3, 1, 1],
    ),
    (
        [-2, 0, 3, 2, -1, -3],
        [1, 1, 1, -2, -1, -1],
        true,
        false,
        [-2, -1, -3, 2, 1, 3],
    ),
    (
        [-2, -3, -2, 1, 0, 3],
        [-1, 2, 2, 1, 0, -1],
        true,
        false,
        [-2, -3, -2, 1, 2, 3],
    ),
    (
        [-2, 0, -3, 2, 3, 2],
        [1, 1, 2, 1, 2, 0],
        true,
        true,
        [-2, 0, -3, 2, 3, 2],
    ),
    (
        [-3, 0, -1, 1, 2, -2],
        [-1, 2, -2, -2, 0, -2],
        true,
        true,
        [-3, 0, -2, 1, 2, -1],
    ),
    (
        [2, -3, 2, -2, 2, 0],
        [0, 2, 0, 1, 1, 1],
        true,
        true,
        [-2, -3, 0, 2, 2, 2],
    ),
    (
        [-1, 0, -1, -1, 2, 3],
        [-1, 1, 2, -1, 2, -1],
        true,
        true,
        [-1, 0, -1, -1, 2, 3],
    ),
    (
        [-2, -2, 2, 1, 2, 0],
        [-2, 0, 1, 0, 0, 1],
        true,
        true,
        [-2, -2, 0, 1, 2, 2],
    ),
    (
        [-1, 3, 3, 2, -3, -3],
        [2, 2, 0, -1, -2, 0],
        true,
        true,
        [-1, -3, -3, 2, 3, 3],
    ),
];

/// The lower and the upper end on an axis, and half of their sum rounded down.
const MIDDLES: [(i32, i32, i32); 8] = [
    (0, 1, 0),
    (-1, 0, -1),
    (-3, -2, -3),
    (-4, 3, -1),
    (5, 5, 5),
    (-131072, 131071, -1),
    (131070, 131071, 131070),
    (-131072, -131071, -131072),
];

fn at(x: i32, y: i32, z: i32) -> Point {
    Point { x, y, z }
}

fn between(c: [i32; 6]) -> Box3 {
    Box3::of_corners(at(c[0], c[1], c[2]), at(c[3], c[4], c[5]))
}

fn corners(b: &Box3) -> [i32; 6] {
    [b.lo.x, b.lo.y, b.lo.z, b.hi.x, b.hi.y, b.hi.z]
}

fn centre_in_world(b: &Box3) -> Option<Point> {
    if in_world(&b.lo) && in_world(&b.hi) {
        Some(centre(b))
    } else {
        None
    }
}

#[test]
fn boxes_meet_contain_and_join_as_their_points_do(rt: HostRuntime) {
    for (a, b, meeting, inside, round) in PAIRS {
        let first = between(a);
        let second = between(b);
        assert_eq!(rt; meets(&first, &second), meeting, "{a:?} {b:?}");
        assert_eq!(rt; contains(&first, &second), inside, "{a:?} {b:?}");
        assert_eq!(rt; corners(&union(&first, &second)), round, "{a:?} {b:?}");
    }
}

#[test]
fn boxes_that_only_touch_at_a_corner_meet(rt: HostRuntime) {
    let small = Tri {
        a: at(0, 0, 0),
        b: at(4, 0, 0),
        c: at(0, 4, 0),
    };
    let around = box_of(&small);
    assert_eq!(rt; corners(&around), [0, 0, 0, 4, 4, 0]);
    assert!(rt; meets(&around, &between([4, 4, 0, 9, 9, 0])));
    assert!(rt; !meets(&around, &between([5, 4, 0, 9, 9, 0])));
}

#[test]
fn boxes_reach_the_ends_of_the_numbers(rt: HostRuntime) {
    let all = between([
        2147483647,
        -2147483648,
        -2147483647,
        -2147483648,
        2147483647,
        2147483647,
    ]);
    let last = between([
        2147483647, 2147483647, 2147483647, 2147483647, 2147483647, 2147483647,
    ]);
    assert!(rt; contains(&all, &last) && meets(&all, &last) && !contains(&last, &all));
    assert_eq!(rt; corners(&union(&last, &all)), corners(&all));
}

#[test]
fn a_centre_is_rounded_down_on_each_axis(rt: HostRuntime) {
    for (lo, hi, middle) in MIDDLES {
        let b = between([lo, 0, -9, hi, 0, -9]);
        assert_eq!(rt; centre_in_world(&b), Some(at(middle, 0, -9)), "{lo} {hi}");
    }
}

#[test]
fn the_world_ends_one_step_before_half_its_width(rt: HostRuntime) {
    assert!(rt; in_world(&at(-HALF, 0, HALF - 1)));
    assert!(rt; !in_world(&at(0, HALF, 0)));
    assert!(rt; !in_world(&at(0, 0, -HALF - 1)));
}
