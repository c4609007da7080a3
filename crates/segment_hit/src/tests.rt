//! Worked segments, a table of others that a script outside this repository solved, and some thousand small ones that
//! are solved here in another way. Segments against boxes stand in `boxes`.

mod boxes;
mod candidates;
mod sides;
mod table;

ghost use Rattle.std.specs.Prelude.{IsTrue};
ghost use Rattle.fixed_box.specs.World.{TriInWorld};

use crate::{Frac, cmp, hit};
use fixed_box::{Point, Tri, in_world};
use sides::met;
use std::cmp::Ordering;
use std::rt::HostRuntime;
use table::{CASES, FRACTIONS};

/// Segments against the triangle (0,0,0), (4,0,0), (0,4,0), each with its fraction; 0/0 is a miss.
const WORKED: [([i32; 6], (i64, i64)); 9] = [
    ([1, 1, -1, 1, 1, 1], (1, 2)),
    ([2, 2, -1, 2, 2, 3], (1, 4)),
    ([1, 1, -1, 1, 1, 0], (1, 1)),
    ([1, 1, 0, 1, 1, 5], (0, 1)),
    ([1, 1, 1, 1, 1, 3], (0, 0)),
    ([1, 1, -3, 1, 1, -1], (0, 0)),
    ([-1, 1, 0, 5, 1, 0], (0, 0)),
    ([1, 1, 0, 1, 1, 0], (0, 0)),
    ([3, 2, -1, 3, 2, 1], (0, 0)),
];

fn point(x: i32, y: i32, z: i32) -> Point {
    Point { x, y, z }
}

fn tri(t: [i32; 9]) -> Tri {
    Tri {
        a: point(t[0], t[1], t[2]),
        b: point(t[3], t[4], t[5]),
        c: point(t[6], t[7], t[8]),
    }
}

fn tri_in_world(t: &Tri) -> bool
    ensures { IsTrue result → TriInWorld t.now }
{
    in_world(&t.a) && in_world(&t.b) && in_world(&t.c)
}

fn hit_in_world(p: Point, q: Point, t: Tri) -> Option<Frac> {
    if in_world(&p) && in_world(&q) && tri_in_world(&t) {
        hit(p, q, &t)
    } else {
        None
    }
}

fn hit_of(s: [i32; 6], t: [i32; 9]) -> Option<Frac> {
    hit_in_world(point(s[0], s[1], s[2]), point(s[3], s[4], s[5]), tri(t))
}

fn hit_of_case(c: &[i32; 15]) -> Option<Frac> {
    hit_of(
        [c[0], c[1], c[2], c[3], c[4], c[5]],
        [c[6], c[7], c[8], c[9], c[10], c[11], c[12], c[13], c[14]],
    )
}

fn parts(f: Option<Frac>) -> (i64, i64) {
    match f {
        Some(f) => (f.num, f.den),
        None => (0, 0),
    }
}

fn sign(o: Ordering) -> i32 {
    match o {
        Ordering::Less => -1,
        Ordering::Equal => 0,
        Ordering::Greater => 1,
    }
}

#[test]
fn ends_and_edges_count_and_the_plane_itself_does_not(rt: HostRuntime) {
    for (segment, fraction) in WORKED {
        assert_eq!(rt;
            parts(hit_of(segment, [0, 0, 0, 4, 0, 0, 0, 4, 0])),
            fraction,
            "{segment:?}"
        );
    }
}

#[test]
fn hits_and_misses_are_as_elimination_finds_them(rt: HostRuntime) {
    for (case, (num, den, _)) in CASES.iter().zip(FRACTIONS.iter()) {
        assert_eq!(rt; parts(hit_of_case(case)), (*num, *den), "{case:?}");
    }
}

#[test]
fn fractions_compare_as_their_values_do(rt: HostRuntime) {
    let mut last: Option<Frac> = None;
    for (case, (_, _, order)) in CASES.iter().zip(FRACTIONS.iter()) {
        if let Some(f) = hit_of_case(case) {
            if let Some(g) = last {
                assert_eq!(rt; sign(cmp(&g, &f)), *order, "{case:?}");
            }
            last = Some(f);
        }
    }
}

/// Numbers from 0 to 7 that jump about.
#[derive(Drop)]
struct Digits {
    seed: u64,
}

impl Digits {
    fn next(&mut self) -> i32 {
        self.seed = self
            .seed
            .wrapping_mul(6364136223846793005)
            .wrapping_add(1442695040888963407);
        (self.seed >> 61) as i32
    }

    fn point(&mut self) -> Point {
        let x = self.next();
        let y = self.next();
        let z = self.next();
        Point { x, y, z }
    }
}

#[test]
fn small_segments_meet_where_the_sides_of_edges_say(rt: HostRuntime) {
    let mut digits = Digits { seed: 12 };
    let mut hits = 0u32;
    for _ in 0..4000 {
        let p = digits.point();
        let q = digits.point();
        let a = digits.point();
        let b = digits.point();
        let c = digits.point();
        let t = Tri { a, b, c };
        let solved = met(&p, &q, &t);
        let found = hit_in_world(p, q, t);
        assert_eq!(rt; found.is_some(), solved.is_some(), "{p:?} {q:?} {t:?}");
        if let (Some(f), Some((time, whole))) = (found, solved) {
            hits = hits.saturating_add(1);
            assert_eq!(rt;
                f.num.wrapping_mul(whole),
                time.wrapping_mul(f.den),
                "{p:?} {q:?} {t:?}"
            );
        }
    }
    // counted by a script outside this repository, which also found 137 of them on an edge
    assert_eq!(rt; hits, 479);
}
