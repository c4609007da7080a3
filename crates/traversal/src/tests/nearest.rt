//! Worked segments, and many more through triangles that all stand twice, each against a test of every triangle.

ghost use Rattle.std.specs.Prelude.{◌≡◌, map, IfOk};
ghost use Rattle.fixed_box.specs.Extent.{tri_box};
ghost use Rattle.radix_tree.specs.Fit.{IsFitted};

use crate::nearest;
use crate::tests::{LEVEL, corner, digit, jump, tree_of, triangle};
use fixed_box::{Box3, Tri, box_of, in_world};
use outside::Memory;
use radix_tree::Tree;
use segment_hit::{Frac, cmp, hit};
use std::alloc::{AllocError, Global};
use std::cmp::Ordering;
use std::process::Abort;
use std::rt::HostRuntime;
use std::test::Fail;

/// A triangle's number, and the fraction at which it is met.
type Struck = Option<(u32, i64, i64)>;

fn boxes_of(alloc: Global, tris: &[Tri]) -> Result<Vec<Box3>, AllocError>
    ensures { IfOk result (λ boxes. boxes.items ≡ map tri_box tris.now) }
{
    tris.iter().map(|t| box_of(t)).collect(alloc)
}

/// The tree of the triangles, which have to lie in the world.
fn fitted(rt: &impl Abort, alloc: Global, tris: &[Tri]) -> Result<Tree, Memory>
    ensures { IfOk result (λ t. IsFitted t (map tri_box tris.now)) }
{
    let Ok(boxes) = boxes_of(alloc, tris) else {
        return Err(Memory);
    };
    tree_of(rt, alloc, &boxes)
}

/// What the walk answers to a segment in the world.
fn walked(rt: &impl Abort, t: &Tree, tris: &[Tri], from: [i32; 3], to: [i32; 3]) -> Struck
    requires { IsFitted t.now (map tri_box tris.now) }
{
    let p = corner(from);
    let q = corner(to);
    assert!(rt; in_world(&p) && in_world(&q));
    assert!(rt;
        tris.iter()
            .all(|t| in_world(&t.a) && in_world(&t.b) && in_world(&t.c))
    );
    nearest(t, tris, p, q).map(|(number, at)| (number, at.num, at.den))
}

/// The least fraction at which a triangle is met, each tried in turn.
fn scanned(rt: &impl Abort, tris: &[Tri], from: [i32; 3], to: [i32; 3]) -> Struck {
    let p = corner(from);
    let q = corner(to);
    assert!(rt; in_world(&p) && in_world(&q));
    let mut best: Option<(u32, Frac)> = None;
    let mut number = 0u32;
    for t in tris {
        number = number.saturating_add(1);
        assert!(rt; in_world(&t.a) && in_world(&t.b) && in_world(&t.c));
        let Some(at) = hit(p, q, t) else {
            continue;
        };
        let nearer = match &best {
            Some((_, before)) => cmp(&at, before) == Ordering::Less,
            None => true,
        };
        if nearer {
            best = Some((number, at));
        }
    }
    best.map(|(number, at)| (number, at.num, at.den))
}

/// From, to, and what is struck of the triangle (0, 0, 0), (4, 0, 0), (0, 4, 0), which stands twice.
const SEGMENTS: [([i32; 3], [i32; 3], Struck); 8] = [
    ([1, 1, -1], [1, 1, 1], Some((1, 1, 2))),
    ([2, 2, -1], [2, 2, 3], Some((1, 1, 4))),
    ([1, 1, -1], [1, 1, 0], Some((1, 1, 1))),
    ([1, 1, 0], [1, 1, 5], Some((1, 0, 1))),
    ([1, 1, 1], [1, 1, 3], None),
    ([1, 1, -3], [1, 1, -1], None),
    ([-1, 1, 0], [5, 1, 0], None),
    ([3, 3, -1], [3, 3, 1], None),
];

#[test]
fn of_two_triangles_in_one_place_the_first_is_struck(rt: HostRuntime) -> Result<(), Fail> {
    let small = triangle([[0, 0, 0], [4, 0, 0], [0, 4, 0]]);
    let tris = [small, small];
    let t = fitted(&rt, rt.alloc(), &tris)?;
    for (from, to, struck) in SEGMENTS {
        assert_eq!(rt; walked(&rt, &t, &tris, from, to), struck, "{from:?} {to:?}");
    }
    Ok(())
}

#[test]
fn a_box_that_is_entered_just_at_the_best_hit_is_looked_at(rt: HostRuntime) -> Result<(), Fail> {
    // both are struck on the edge that they share; the box of the second is entered before, that of the first just there
    let flat = triangle([[0, 0, 0], [4, 0, 0], [0, 4, 0]]);
    let raised = triangle([[4, 0, 0], [0, 4, 0], [4, 4, 5]]);
    let tris = [flat, raised];
    let t = fitted(&rt, rt.alloc(), &tris)?;
    let struck = walked(&rt, &t, &tris, [2, 2, 10], [2, 2, -10]);
    assert_eq!(rt; struck, Some((1, 1, 2)));
    let tris = [raised, flat];
    let t = fitted(&rt, rt.alloc(), &tris)?;
    let struck = walked(&rt, &t, &tris, [2, 2, 10], [2, 2, -10]);
    assert_eq!(rt; struck, Some((1, 1, 2)));
    Ok(())
}

#[test]
fn a_shot_down_at_the_ramp_strikes_its_first_triangle(rt: HostRuntime) -> Result<(), Fail> {
    let mut tris = Vec::new(rt.alloc());
    for corners in LEVEL {
        tris.push(triangle(corners))?;
    }
    let t = fitted(&rt, rt.alloc(), &tris)?;
    let struck = walked(&rt, &t, &tris, [320, 64, 256], [320, 64, -256]);
    assert_eq!(rt; struck, Some((3, 7, 16)));
    Ok(())
}

#[test]
fn no_triangle_is_struck_where_there_is_none(rt: HostRuntime) -> Result<(), Fail> {
    let t = fitted(&rt, rt.alloc(), &[])?;
    assert_eq!(rt; walked(&rt, &t, &[], [0, 0, 0], [9, 9, 9]), None);
    Ok(())
}

fn point(seed: u64) -> [i32; 3] {
    let x = i32::from(digit(seed));
    let y = i32::from(digit(jump(seed)));
    let z = i32::from(digit(jump(jump(seed))));
    [x, y, z]
}

/// Triangles with corners in a block of 8 by 8 by 8 points, and then each of them again, the other way round.
fn twice(alloc: Global, count: usize) -> Result<Vec<Tri>, AllocError> {
    let mut tris = Vec::new(alloc);
    for turned in [false, true] {
        let mut seed = 2026;
        for _ in 0..count {
            let a = point(seed);
            let b = point(jump(jump(jump(seed))));
            let c = point(jump(jump(jump(jump(jump(jump(seed)))))));
            seed = jump(jump(jump(jump(jump(jump(jump(jump(jump(seed)))))))));
            tris.push(triangle(if turned { [c, b, a] } else { [a, b, c] }))?;
        }
    }
    Ok(tris)
}

#[test]
fn the_walk_strikes_what_a_scan_strikes(rt: HostRuntime) -> Result<(), Fail> {
    let tris = twice(rt.alloc(), 60)?;
    let t = fitted(&rt, rt.alloc(), &tris)?;
    let mut seed = 7;
    let mut struck = 0u32;
    for _ in 0..600 {
        let from = point(seed);
        let to = point(jump(jump(jump(seed))));
        seed = jump(jump(jump(jump(jump(jump(seed))))));
        let found = walked(&rt, &t, &tris, from, to);
        assert_eq!(rt; found, scanned(&rt, &tris, from, to), "{from:?} {to:?}");
        if let Some((number, _, _)) = found {
            assert!(rt; number <= 60);
            struck = struck.saturating_add(1);
        }
    }
    assert!(rt; struck > 300 && struck < 600);
    Ok(())
}
