//! The triangles whose boxes meet a box, by a walk from the root that stops at each box that misses.
//! It lists triangles in the order of the tree, so the list is sorted once, at the end.

ghost use Rattle.std.specs.Prelude.{◌≡◌, ℕ, ◌+◌, ◌-◌, ◌*◌, ◌^◌, ◌<◌, ◌++◌, length, IfOk, OnOk};
ghost use Rattle.fixed_box.specs.Extent.{boxes_meet};
ghost use Rattle.radix_tree.specs.Ranges.{HasRange};
ghost use Rattle.radix_tree.specs.Table.{IsTable, node_at};
ghost use Rattle.radix_tree.specs.Fit.{IsFitted};
ghost use Rattle.radix_tree.specs.Filling.{IsChild};
ghost use Rattle.traversal.specs.Overlaps.{overlaps_of, work_of};
ghost use Rattle.traversal.specs.Walks.{met_in, met_below};

use crate::beginning::root;
use crate::{Found, Numbers};
use fixed_box::{Box3, meets};
use outside::Memory;
use radix_tree::{Child, Tree, left, right};
use std::alloc::{AllocError, Global};

/// Adds the triangle at a position, if its box meets the queried one.
fn test_leaf(
    t: &Tree,
    boxes: &[Box3],
    q: &Box3,
    position: u32,
    numbers: &mut Vec<u32>,
) -> Result<(), AllocError>
    requires fitted { IsFitted t.now boxes.now }
    requires within { position < length t.now.keys }
    ensures { OnOk result (numbers.new.items ≡ numbers.old.items
        ++ met_in t.now.keys boxes.now q.now position position) }
{
    let tri = t.keys()[position as usize].tri;
    let around = &boxes[tri as usize - 1];
    if meets(around, q) {
        numbers.push(tri)?;
    }
    Ok(())
}

/// Whether the box of the node of that number meets another.
pub(crate) fn node_meets(t: &Tree, q: &Box3, number: u32) -> bool
    requires { number < length t.now.nodes }
    ensures { result ≡ boxes_meet (node_at t.now.nodes number).fit q.now }
{
    meets(&t.nodes()[number as usize].fit, q)
}

/// Adds the triangles below a child whose boxes meet the queried one, and answers how many boxes it tested.
fn collect(
    t: &Tree,
    boxes: &[Box3],
    q: &Box3,
    child: Child,
    numbers: &mut Vec<u32>,
) -> Result<u64, AllocError>
    requires table { IsTable t.now }
    requires fitted { IsFitted t.now boxes.now }
    requires child { IsChild t.now child }
    ensures numbers { OnOk result ((a b : ℕ) → HasRange t.now.keys child a b →
        numbers.new.items ≡ numbers.old.items ++ met_in t.now.keys boxes.now q.now a b) }
    ensures tests { IfOk result (λ tests. (a b : ℕ) → HasRange t.now.keys child a b →
        tests ≡ 1 + 2 * met_below t.now.nodes q.now child a b) }
    ensures few { IfOk result (λ tests. tests < 2 ^ 22) }
{
    match child {
        Child::Leaf(position) => {
            test_leaf(t, boxes, q, position, numbers)?;
            Ok(1)
        }
        Child::Inner(number) => {
            if !node_meets(t, q, number) {
                return Ok(1);
            }
            let on_left = collect(t, boxes, q, left(t, number), numbers)?;
            let on_right = collect(t, boxes, q, right(t, number), numbers)?;
            Ok(1 + on_left + on_right)
        }
    }
}

/// Adds the triangles of the tree whose boxes meet the queried one, and answers how many boxes it tested.
fn collect_all(
    t: &Tree,
    boxes: &[Box3],
    q: &Box3,
    numbers: &mut Vec<u32>,
) -> Result<u64, AllocError>
    requires { IsFitted t.now boxes.now }
    ensures numbers { OnOk result (numbers.new.items ≡ numbers.old.items
        ++ met_in t.now.keys boxes.now q.now 0 (length t.now.keys - 1)) }
    ensures tests { IfOk result (λ tests. tests ≡ work_of t.now.keys boxes.now q.now) }
    ensures table { IsTable t.now }
{
    match root(t) {
        Some(child) => collect(t, boxes, q, child, numbers),
        None => Ok(0),
    }
}

/// The triangles whose boxes meet the box, and how many boxes were tested to find them.
///
/// `boxes[n - 1]` is the box of triangle `n`. Boxes are closed: one that only touches the queried box meets it. The
/// work is 0 for no triangle, 1 for one, and else 1 and twice the count of the inner nodes whose box, with the boxes of
/// all nodes above, meets the queried one. The walk takes no memory but for the answer's list, and is at most one call
/// deeper than the tree is high.
pub fn overlaps(alloc: Global, t: &Tree, boxes: &[Box3], q: &Box3) -> Result<Found, Memory>
    requires { IsFitted t.now boxes.now }
    ensures numbers { IfOk result (λ found. found.numbers ≡ overlaps_of boxes.now q.now) }
    ensures work { IfOk result (λ found. found.work ≡ work_of t.now.keys boxes.now q.now) }
{
    let mut numbers = Vec::new(alloc);
    let Ok(work) = collect_all(t, boxes, q, &mut numbers) else {
        return Err(Memory);
    };
    numbers.sort_unstable();
    Ok(Found {
        numbers: Numbers::new(numbers),
        work,
    })
}
