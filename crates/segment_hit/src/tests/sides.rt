//! A second way to a meeting, for small numbers: where the way crosses the plane of the triangle, and on which side of
//! each edge that point lies. Nothing wraps: coordinates are from 0 to 7.

use fixed_box::{Point, Tri};

type Vector = [i64; 3];

fn vector(p: &Point) -> Vector {
    [i64::from(p.x), i64::from(p.y), i64::from(p.z)]
}

fn minus(a: Vector, b: Vector) -> Vector {
    [
        a[0].wrapping_sub(b[0]),
        a[1].wrapping_sub(b[1]),
        a[2].wrapping_sub(b[2]),
    ]
}

fn plus(a: Vector, b: Vector) -> Vector {
    [
        a[0].wrapping_add(b[0]),
        a[1].wrapping_add(b[1]),
        a[2].wrapping_add(b[2]),
    ]
}

fn scaled(a: Vector, k: i64) -> Vector {
    [
        a[0].wrapping_mul(k),
        a[1].wrapping_mul(k),
        a[2].wrapping_mul(k),
    ]
}

fn dot(a: Vector, b: Vector) -> i64 {
    let x = a[0].wrapping_mul(b[0]);
    let y = a[1].wrapping_mul(b[1]);
    let z = a[2].wrapping_mul(b[2]);
    x.wrapping_add(y).wrapping_add(z)
}

fn minor(a: i64, b: i64, c: i64, d: i64) -> i64 {
    a.wrapping_mul(d).wrapping_sub(b.wrapping_mul(c))
}

fn cross(a: Vector, b: Vector) -> Vector {
    [
        minor(a[1], a[2], b[1], b[2]),
        minor(a[2], a[0], b[2], b[0]),
        minor(a[0], a[1], b[0], b[1]),
    ]
}

/// The crossing of a line and a plane: `time / whole` of the way from `p` to `q`.
#[derive(Clone, Copy, Drop)]
struct Crossing {
    time: i64,
    whole: i64,
}

fn crossing_of(normal: Vector, p: Vector, q: Vector, a: Vector) -> Crossing {
    let whole = dot(normal, minus(q, p));
    let time = dot(normal, minus(a, p));
    if whole < 0 {
        Crossing {
            time: time.wrapping_neg(),
            whole: whole.wrapping_neg(),
        }
    } else {
        Crossing { time, whole }
    }
}

/// Whether the point `x / whole` is not outside the edge from `u` to `v`.
fn is_inside(normal: Vector, u: Vector, v: Vector, x: Vector, whole: i64) -> bool {
    let from_edge = minus(x, scaled(u, whole));
    dot(normal, cross(minus(v, u), from_edge)) >= 0
}

/// The fraction of the way at which the segment meets the triangle, not in lowest terms.
pub fn met(p: &Point, q: &Point, t: &Tri) -> Option<(i64, i64)> {
    let (p, q) = (vector(p), vector(q));
    let (a, b, c) = (vector(&t.a), vector(&t.b), vector(&t.c));
    let normal = cross(minus(b, a), minus(c, a));
    let at = crossing_of(normal, p, q, a);
    if at.whole == 0 || at.time < 0 || at.whole < at.time {
        return None;
    }
    let x = plus(scaled(p, at.whole), scaled(minus(q, p), at.time));
    let inside = is_inside(normal, a, b, x, at.whole)
        && is_inside(normal, b, c, x, at.whole)
        && is_inside(normal, c, a, x, at.whole);
    if inside {
        Some((at.time, at.whole))
    } else {
        None
    }
}
