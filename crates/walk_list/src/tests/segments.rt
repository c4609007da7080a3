//! Segments by the list, each against the walk over the tree: through triangles that all stand twice, with corners in a
//! block of 8 by 8 by 8 points, so that many segments lie in planes, pass edges and meet two triangles at one fraction.

ghost use Rattle.std.specs.Prelude.{map, All, IsTrue};
ghost use Rattle.fixed_box.specs.Extent.{tri_box};
ghost use Rattle.fixed_box.specs.World.{TriInWorld};
ghost use Rattle.radix_tree.specs.Fit.{IsFitted};
ghost use Rattle.traversal.specs.Nearest.{triangle_of};
ghost use Rattle.walk_list.specs.Lists.{IsOver};

use crate::tests::{at, boxes_of, digit, jump, list_of, tree_of};
use crate::{WalkList, nearest_among};
use fixed_box::{Point, Tri, in_world};
use radix_tree::Tree;
use std::alloc::{AllocError, Global};
use std::process::Abort;
use std::rt::HostRuntime;
use std::test::Fail;
use traversal::{Triangles, nearest};

/// Triangles in a list.
#[derive(Clone, Copy)]
struct Kept<'a> {
    tris: &'a [Tri],
}

impl<'a> Triangles for Kept<'a> {
    ghost list = { λ l. l.tris.now };

    #[tactic(auto, unfolding(traversal::specs::Nearest::triangle_of, traversal::specs::Nearest::no_tri, traversal::specs::Nearest::no_point))]
    fn triangle(&self, number: u32) -> Tri {
        self.tris[number as usize - 1]
    }
}

/// A triangle's number, and the fraction at which it is met.
type Struck = Option<(u32, i64, i64)>;

fn all_inside(tris: &[Tri]) -> bool
    ensures { IsTrue result → All TriInWorld tris.now }
{
    tris.iter()
        .all(|t| in_world(&t.a) && in_world(&t.b) && in_world(&t.c))
}

fn by_list(rt: &impl Abort, list: &WalkList, tris: &[Tri], p: Point, q: Point) -> Struck
    requires { IsOver list.now (map tri_box tris.now) }
{
    assert!(rt; in_world(&p) && in_world(&q));
    assert!(rt; all_inside(tris));
    nearest_among(list, &Kept { tris }, p, q).map(|(number, at)| (number, at.num, at.den))
}

fn by_tree(rt: &impl Abort, t: &Tree, tris: &[Tri], p: Point, q: Point) -> Struck
    requires { IsFitted t.now (map tri_box tris.now) }
{
    assert!(rt; in_world(&p) && in_world(&q));
    assert!(rt; all_inside(tris));
    nearest(t, tris, p, q).map(|(number, at)| (number, at.num, at.den))
}

fn point(seed: u64) -> Point {
    at(digit(seed), digit(jump(seed)), digit(jump(jump(seed))))
}

/// So many triangles, and then each of them again, the other way round.
fn twice(alloc: Global, count: usize) -> Result<Vec<Tri>, AllocError> {
    let mut tris = Vec::new(alloc);
    for turned in [false, true] {
        let mut seed = 2026;
        for _ in 0..count {
            let a = point(seed);
            let b = point(jump(jump(jump(seed))));
            let c = point(jump(jump(jump(jump(jump(jump(seed)))))));
            seed = jump(jump(jump(jump(jump(jump(jump(jump(jump(seed)))))))));
            tris.push(if turned {
                Tri { a: c, b, c: a }
            } else {
                Tri { a, b, c }
            })?;
        }
    }
    Ok(tris)
}

#[test]
fn the_list_strikes_what_the_tree_strikes(rt: HostRuntime) -> Result<(), Fail> {
    for (count, tries, least) in [
        (0usize, 10u32, 0u32),
        (1, 200, 1),
        (8, 200, 20),
        (9, 200, 20),
        (60, 400, 200),
    ] {
        let tris = twice(rt.alloc(), count)?;
        let boxes = boxes_of(rt.alloc(), &tris)?;
        let t = tree_of(&rt, rt.alloc(), &boxes)?;
        let list = list_of(&rt, rt.alloc(), &t, &boxes)?;
        let mut seed = 7;
        let mut struck = 0u32;
        for _ in 0..tries {
            let p = point(seed);
            let q = point(jump(jump(jump(seed))));
            seed = jump(jump(jump(jump(jump(jump(seed))))));
            let found = by_list(&rt, &list, &tris, p, q);
            assert_eq!(rt; found, by_tree(&rt, &t, &tris, p, q), "{p:?} {q:?}");
            if found.is_some() {
                struck = struck.saturating_add(1);
            }
        }
        assert!(rt; least <= struck);
    }
    Ok(())
}

#[test]
fn a_box_that_is_entered_just_at_the_best_hit_is_looked_at(rt: HostRuntime) -> Result<(), Fail> {
    // both are struck on the edge that they share; the box of the second is entered before, that of the first at it
    let flat = Tri {
        a: at(0, 0, 0),
        b: at(4, 0, 0),
        c: at(0, 4, 0),
    };
    let raised = Tri {
        a: at(4, 0, 0),
        b: at(0, 4, 0),
        c: at(4, 4, 5),
    };
    for tris in [[flat, raised], [raised, flat]] {
        let boxes = boxes_of(rt.alloc(), &tris)?;
        let t = tree_of(&rt, rt.alloc(), &boxes)?;
        let list = list_of(&rt, rt.alloc(), &t, &boxes)?;
        let struck = by_list(&rt, &list, &tris, at(2, 2, 10), at(2, 2, -10));
        assert_eq!(rt; struck, Some((1, 1, 2)));
    }
    Ok(())
}
