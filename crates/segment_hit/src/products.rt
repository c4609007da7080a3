//! Exact products of differences of points. Two cross products serve all four determinants.

ghost use Rattle.std.specs.Prelude.{◌≡◌, ◌≤◌, ◌⊎◌, pos, ◌-ℤ◌, ◌*ℤ◌, ◌≤ℤ◌, neg_ℤ, unsigned_abs};
ghost use Rattle.fixed_box.specs.World.{IsCoordinate, InWorld, TriInWorld};
ghost use Rattle.segment_hit.specs.Vectors.{from_to, dot, cross};
ghost use Rattle.segment_hit.specs.Determinants.{vector_of, area_of, AreDeterminantsOf, AreNegated};

use crate::arithmetic::{minus, plus, times};
use crate::vectors::{AREA, Area, Arrow, BAR, Determinants, SPAN, SQUARE, TWO_BARS, VOLUME};
use fixed_box::{Point, Tri};

/// a * d - b * c
fn minor(a: i64, b: i64, c: i64, d: i64) -> i64
    requires a { unsigned_abs a ≤ SPAN }
    requires b { unsigned_abs b ≤ SPAN }
    requires c { unsigned_abs c ≤ SPAN }
    requires d { unsigned_abs d ≤ SPAN }
    ensures value { result ≡ (a *ℤ d) -ℤ (b *ℤ c) }
    ensures small { unsigned_abs result ≤ AREA }
{
    minus::<SQUARE, SQUARE>(times::<SPAN, SPAN>(a, d), times::<SPAN, SPAN>(b, c))
}

/// From one coordinate of the world to another.
pub fn step(from: i32, to: i32) -> i64
    requires from { IsCoordinate from }
    requires to { IsCoordinate to }
    ensures value { result ≡ to -ℤ from }
    ensures small { unsigned_abs result ≤ SPAN }
{
    i64::from(to) - i64::from(from)
}

/// From one point of the world to another.
fn between(p: &Point, q: &Point) -> Arrow
    requires p { InWorld p.now }
    requires q { InWorld q.now }
    ensures { vector_of result ≡ from_to p.now q.now }
{
    Arrow {
        x: step(p.x, q.x),
        y: step(p.y, q.y),
        z: step(p.z, q.z),
    }
}

/// The cross product a x b.
fn crossed(a: &Arrow, b: &Arrow) -> Area
    ensures { area_of result ≡ cross (vector_of a.now) (vector_of b.now) }
{
    Area {
        x: minor(a.y, a.z, b.y, b.z),
        y: minor(a.z, a.x, b.z, b.x),
        z: minor(a.x, a.y, b.x, b.y),
    }
}

/// The dot product of a difference and a cross product.
fn volume(a: &Arrow, n: &Area) -> i64
    ensures value { result ≡ dot (vector_of a.now) (area_of n.now) }
    ensures small { unsigned_abs result ≤ VOLUME }
{
    plus::<TWO_BARS, BAR>(
        plus::<BAR, BAR>(times::<SPAN, AREA>(a.x, n.x), times::<SPAN, AREA>(a.y, n.y)),
        times::<SPAN, AREA>(a.z, n.z),
    )
}

fn opposite(a: i64) -> i64
    requires small { unsigned_abs a ≤ VOLUME }
    ensures value { result ≡ neg_ℤ a }
    ensures small { unsigned_abs result ≤ VOLUME }
{
    -a
}

/// The determinants of the segment from `p` to `q` and the triangle.
pub fn measure(p: &Point, q: &Point, t: &Tri) -> Determinants
    requires p { InWorld p.now }
    requires q { InWorld q.now }
    requires t { TriInWorld t.now }
    ensures { AreDeterminantsOf p.now q.now t.now result }
{
    let way = between(p, q);
    let out = between(p, &t.a);
    let second_side = between(&t.a, &t.b);
    let third_side = between(&t.a, &t.c);
    let normal = crossed(&second_side, &third_side);
    let turn = crossed(&out, &way);
    Determinants {
        whole: volume(&way, &normal),
        time: volume(&out, &normal),
        second: volume(&third_side, &turn),
        third: opposite(volume(&second_side, &turn)),
    }
}

fn negated(m: &Determinants) -> Determinants
    ensures { AreNegated m.now result }
{
    Determinants {
        whole: opposite(m.whole),
        time: opposite(m.time),
        second: opposite(m.second),
        third: opposite(m.third),
    }
}

/// The same ratios, over a `whole` that is not below 0.
pub fn facing(m: Determinants) -> Determinants
    ensures same_ratios { (result ≡ m) ⊎ AreNegated m result }
    ensures front { pos 0 ≤ℤ result.whole }
{
    if m.whole < 0 { negated(&m) } else { m }
}
