//! A list that is mended after moves, beside one that is made anew.

ghost use Rattle.std.specs.Prelude.{◌≡◌, ◌↔◌, ◌<◌, ◌^◌, [], All, IfOk, IsTrue, OnOk, length};
ghost use Rattle.std.specs.List.Sorted.{IsNonDecreasing};
ghost use Rattle.walk_list.specs.Lists.{IsOver};
ghost use Rattle.walk_list.specs.Moving.{AreOverBut};
ghost use Rattle.walk_list.specs.Stale.{HaveBoxes, ListsMoved};

use crate::tests::{all_in_world, at, crowd, list_of, tree_of};
use crate::{Leaf, WalkList, overlaps};
use fixed_box::{Box3, contains};
use std::alloc::{AllocError, Global};
use std::process::Abort;
use std::rt::HostRuntime;
use std::test::Fail;

/// The box, away by some steps.
fn away(b: &Box3, steps: i32) -> Box3 {
    Box3::of_corners(
        at(
            b.lo.x.saturating_add(steps),
            b.lo.y,
            b.lo.z.saturating_sub(steps),
        ),
        at(
            b.hi.x.saturating_add(steps),
            b.hi.y,
            b.hi.z.saturating_sub(steps),
        ),
    )
}

/// The boxes, each `every`th of them away by some steps.
fn some_away(
    alloc: Global,
    boxes: &[Box3],
    every: usize,
    steps: i32,
) -> Result<Vec<Box3>, AllocError> {
    let mut moved = Vec::new(alloc);
    for (i, b) in boxes.iter().enumerate() {
        moved.push(if every != 0 && i % every == 0 {
            away(b, steps)
        } else {
            *b
        })?;
    }
    Ok(moved)
}

/// Whether the leaf has that box: two boxes that contain each other are one.
fn has_box(leaf: &Leaf, b: &Box3) -> bool
    ensures { IsTrue result ↔ (leaf.now.fit ≡ b.now) }
{
    contains(&leaf.fit, b) && contains(b, &leaf.fit)
}

/// Lists the positions of the leaves that have not the boxes of their triangles, rising.
fn list_moved(leaves: &[Leaf], boxes: &[Box3], moved: &mut Vec<u32>) -> Result<(), AllocError>
    requires boxes { HaveBoxes leaves.now boxes.now }
    requires few { length leaves.now < 2 ^ 32 }
    requires empty { moved.old.items ≡ [] }
    ensures { OnOk result (ListsMoved leaves.now boxes.now (length leaves.now) moved.new.items) }
{
    for position in 0..leaves.len() {
        let leaf = &leaves[position];
        if !has_box(leaf, &boxes[leaf.number as usize - 1]) {
            moved.push(position as u32)?;
        }
    }
    Ok(())
}

/// The positions of the triangles whose boxes changed, rising.
fn moved_of(
    alloc: Global,
    list: &WalkList,
    before: &[Box3],
    boxes: &[Box3],
) -> Result<Vec<u32>, AllocError>
    requires over { IsOver list.now before.now }
    requires count { length boxes.now ≡ length before.now }
    ensures rising { IfOk result (λ moved. IsNonDecreasing moved.items) }
    ensures within { IfOk result (λ moved. All (λ p. p < length list.now.leaves) moved.items) }
    ensures over { IfOk result (λ moved. AreOverBut list.now.leaves boxes.now moved.items) }
{
    let mut moved = Vec::new(alloc);
    list_moved(list.leaves(), boxes, &mut moved)?;
    Ok(moved)
}

/// Mends the list after the boxes changed, and answers how many moved.
fn mended(
    rt: &impl Abort,
    alloc: Global,
    list: &mut WalkList,
    before: &[Box3],
    boxes: &[Box3],
) -> Result<usize, Fail>
    requires { IsOver list.old before.now }
{
    assert_eq!(rt; boxes.len(), before.len());
    assert!(rt; all_in_world(boxes));
    let moved = moved_of(alloc, list, before, boxes)?;
    list.refit(boxes, &moved);
    Ok(moved.len())
}

#[test]
fn a_mended_list_finds_what_one_made_anew_finds(rt: HostRuntime) -> Result<(), Fail> {
    for count in [0usize, 1, 2, 16, 17, 150] {
        let before = crowd(rt.alloc(), count, 2026)?;
        let t = tree_of(&rt, rt.alloc(), &before)?;
        for (every, steps) in [(0usize, 0i32), (1, 3), (7, 40), (50, -2)] {
            let boxes = some_away(rt.alloc(), &before, every, steps)?;
            let mut list = list_of(&rt, rt.alloc(), &t, &before)?;
            let moved = mended(&rt, rt.alloc(), &mut list, &before, &boxes)?;
            let expected = if every == 0 { 0 } else { count.div_ceil(every) };
            assert_eq!(rt; moved, expected);
            let other = tree_of(&rt, rt.alloc(), &boxes)?;
            let anew = list_of(&rt, rt.alloc(), &other, &boxes)?;
            let queries = crowd(rt.alloc(), 60, 7)?;
            for q in &queries {
                for place in [*q, away(q, steps)] {
                    let found = overlaps(rt.alloc(), &list, &place)?;
                    let wanted = overlaps(rt.alloc(), &anew, &place)?;
                    assert_eq!(rt; found.items(), wanted.items());
                }
            }
        }
    }
    Ok(())
}

#[test]
fn a_mended_list_is_as_tight_as_before(rt: HostRuntime) -> Result<(), Fail> {
    // there and back again: each record has the least box round its leaves, so all are as they were
    let before = crowd(rt.alloc(), 150, 2026)?;
    let t = tree_of(&rt, rt.alloc(), &before)?;
    let mut list = list_of(&rt, rt.alloc(), &t, &before)?;
    let first = list_of(&rt, rt.alloc(), &t, &before)?;
    let boxes = some_away(rt.alloc(), &before, 5, 60)?;
    assert_eq!(rt; boxes.len(), before.len());
    assert!(rt; all_in_world(&boxes));
    assert!(rt; all_in_world(&before));
    let moved = moved_of(rt.alloc(), &list, &before, &boxes)?;
    list.refit(&boxes, &moved);
    assert_ne!(rt; list.records(), first.records());
    let back = moved_of(rt.alloc(), &list, &boxes, &before)?;
    assert_eq!(rt; back, moved);
    list.refit(&before, &back);
    assert_eq!(rt; list.records(), first.records());
    assert_eq!(rt; list.leaves(), first.leaves());
    Ok(())
}
