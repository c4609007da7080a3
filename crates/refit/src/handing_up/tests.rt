//! Refits from live leaves worked by hand, and of many live lists beside the plain build.

ghost use Rattle.std.specs.Prelude.{◌≡◌, ◌<◌, ◌≤◌, AllPairs, length, true, false};
ghost use Rattle.morton_key.specs.Keys.{IsLawful, tri_at};
ghost use Rattle.radix_tree.specs.Fit.{IsFitted, box_of_triangle};
ghost use Rattle.arrival_core.specs.Settings.{live_in};
ghost use Rattle.arrival_core.specs.Tasks.{FitsButFor};

use crate::refit;
use crate::tests::{at, jump, scattered};
use box_handoff::{Tally, TreeWays};
use fixed_box::{Box3, in_world};
use morton_key::{Key, order};
use outside::{Memory, OpenGate};
use radix_tree::{Tree, plain};
use std::alloc::{AllocError, Global};
use std::process::Abort;
use std::rt::HostRuntime;
use std::test::Fail;
use std::thread::Threads;

/// Whether the numbers rise.
fn rises(live: &[u32]) -> bool
    ensures { result ≡ true → AllPairs (λ p q. p < q) live.now }
{
    for i in 1..live.len() {
        if live[i - 1] >= live[i] {
            return false;
        }
    }
    true
}

/// Whether some of the numbers, which rise, is this one.
fn has(live: &[u32], position: u32) -> bool
    requires { AllPairs (λ p q. p < q) live.now }
    ensures { result ≡ live_in live.now position position }
{
    let at = live.partition_point(|q| *q < position);
    if at == live.len() {
        return false;
    }
    live[at] <= position
}

/// The box of the triangle at a position.
fn box_at(keys: &[Key], boxes: &[Box3], position: usize) -> Box3
    requires lawful { IsLawful keys.now }
    requires count { length boxes.now ≡ length keys.now }
    requires within { position < length keys.now }
    ensures { result ≡ box_of_triangle boxes.now (tri_at keys.now position) }
{
    boxes[keys[position].tri as usize - 1]
}

/// Whether the position is live, or its triangle has the box that it had.
fn is_same(keys: &[Key], before: &[Box3], after: &[Box3], live: &[u32], position: usize) -> bool
    requires lawful { IsLawful keys.now }
    requires rising { AllPairs (λ p q. p < q) live.now }
    requires before { length before.now ≡ length keys.now }
    requires after { length after.now ≡ length keys.now }
    requires within { position < length keys.now }
    ensures { result ≡ true → live_in live.now position position ≡ false →
        box_of_triangle before.now (tri_at keys.now position) ≡ box_of_triangle after.now (tri_at keys.now position) }
{
    if has(live, position as u32) {
        return true;
    }
    box_at(keys, before, position) == box_at(keys, after, position)
}

/// Whether the boxes of all triangles but those at live positions are as before.
fn agree(tree: &Tree, before: &[Box3], after: &[Box3], live: &[u32]) -> bool
    requires rising { AllPairs (λ p q. p < q) live.now }
    requires before { length before.now ≡ length tree.now.keys }
    requires after { length after.now ≡ length tree.now.keys }
    requires fitted { IsFitted tree.now before.now }
    ensures { result ≡ true → FitsButFor tree.now after.now live.now }
{
    let keys = tree.keys();
    for p in 0..keys.len() {
        if !is_same(keys, before, after, live, p) {
            return false;
        }
    }
    true
}

/// The tree over the first boxes, refitted by threads to the second, the tally, and the tree of the plain build over the
/// same keys and the second boxes.
fn both<R: Threads + Sync + Abort>(
    rt: &R,
    alloc: Global,
    before: &[Box3],
    after: &[Box3],
    live: &[u32],
    workers: u32,
) -> Result<(Tree, Tally, Tree), Memory> {
    assert!(rt; before.len() <= 200000);
    assert!(rt; after.len() == before.len());
    assert!(rt; 0 < workers && workers <= 64);
    assert!(rt; before.iter().all(|b| in_world(&b.lo) && in_world(&b.hi)));
    let mut tree = plain(alloc, order(alloc, before)?, before)?;
    let slow = plain(alloc, order(alloc, before)?, after)?;
    assert!(rt; rises(live));
    assert!(rt; live.iter().all(|p| (*p as usize) < before.len()));
    assert!(rt; agree(&tree, before, after, live));
    let ways = TreeWays::of(alloc, &tree)?;
    let tally = refit(rt, alloc, &mut tree, after, live, &ways, workers, &OpenGate)?;
    Ok((tree, tally, slow))
}

#[test]
fn one_moved_triangle_of_three_takes_two_fits_in_ten_steps(rt: HostRuntime) -> Result<(), Fail> {
    let first = Box3::of_corners(at(0, 0, 0), at(4, 4, 0));
    let second = Box3::of_corners(at(100, 0, 0), at(104, 4, 0));
    let third = Box3::of_corners(at(200, 0, 0), at(204, 4, 0));
    let moved = Box3::of_corners(at(300, 0, 0), at(304, 4, 0));
    let old = [first, second, third];
    let (tree, tally, slow) = both(&rt, rt.alloc(), &old, &[moved, second, third], &[0], 2)?;
    assert_eq!(rt; (tally.fits, tally.steps), (2, 10));
    assert!(rt; tree.nodes() == slow.nodes());
    let (tree, tally, slow) = both(&rt, rt.alloc(), &old, &old, &[], 2)?;
    assert_eq!(rt; (tally.fits, tally.steps), (0, 0));
    assert!(rt; tree.nodes() == slow.nodes());
    let (_, tally, _) = both(&rt, rt.alloc(), &[first], &[moved], &[0], 1)?;
    assert_eq!(rt; (tally.fits, tally.steps), (0, 0));
    Ok(())
}

/// A live list of a kind: one position, neighbours, all, or each with a chance.
fn chosen(alloc: Global, count: u32, mut seed: u64) -> Result<Vec<u32>, AllocError> {
    let kind = (seed >> 33) % 5;
    let first = ((seed >> 40) % 4096) as u32;
    let chance = (seed >> 50) % 64 + 1;
    let mut live = Vec::new(alloc);
    for p in 0..count {
        seed = jump(seed);
        let here = match kind {
            0 => p == first.min(count - 1),
            1 => first <= p && p - first < 64,
            2 => true,
            _ => (seed >> 33) % 64 < chance,
        };
        if here {
            live.push(p)?;
        }
    }
    Ok(live)
}

/// How many of the live positions lie below each position, and below the end.
fn counted(alloc: Global, count: usize, live: &[u32]) -> Result<Vec<u64>, AllocError> {
    let mut below = Vec::new(alloc);
    let mut next = 0;
    for p in 0..count {
        below.push(next as u64)?;
        if next < live.len() && live[next] as usize == p {
            next += 1;
        }
    }
    below.push(next as u64)?;
    Ok(below)
}

/// The boxes with others at the triangles of the live positions.
fn moved(
    alloc: Global,
    keys: &[Key],
    before: &[Box3],
    other: &[Box3],
    live: &[u32],
) -> Result<Vec<Box3>, AllocError> {
    let mut after = Vec::from_slice(alloc, before)?;
    for p in live {
        let Some(key) = keys.get(*p as usize) else {
            continue;
        };
        let triangle = (key.tri as usize).wrapping_sub(1);
        if let Some(fit) = other.get(triangle) {
            if let Some(place) = after.get_mut(triangle) {
                *place = *fit;
            }
        }
    }
    Ok(after)
}

/// The tally that the count of live leaves and of live inner nodes asks for.
fn expected(
    alloc: Global,
    tree: &Tree,
    live: &[u32],
    workers: u32,
) -> Result<(u64, u64), AllocError> {
    let below = counted(alloc, tree.keys().len(), live)?;
    let mut fits: u64 = 0;
    for node in tree.nodes() {
        if below.get(node.first as usize) != below.get(node.last as usize + 1) {
            fits = fits.wrapping_add(1);
        }
    }
    if fits == 0 {
        return Ok((0, 0));
    }
    let leaves = live.len() as u64;
    let takes = (workers as u64).wrapping_mul((leaves / 64).wrapping_add((leaves % 64).min(1)));
    let children = leaves.wrapping_add(fits).wrapping_sub(1);
    Ok((
        fits,
        takes.wrapping_add(children.wrapping_add(fits).wrapping_mul(2)),
    ))
}

/// One refit of so many scattered boxes from a live list of a kind, beside the plain build.
fn tried<R: Threads + Sync + Abort>(
    rt: &R,
    alloc: Global,
    count: u32,
    seed: u64,
    workers: u32,
) -> Result<bool, Memory> {
    let Ok(before) = scattered(alloc, count as usize, seed) else {
        return Err(Memory);
    };
    let Ok(other) = scattered(alloc, count as usize, jump(seed)) else {
        return Err(Memory);
    };
    let Ok(live) = chosen(alloc, count, seed) else {
        return Err(Memory);
    };
    assert!(rt; before.len() <= 200000);
    assert!(rt; before.iter().all(|b| in_world(&b.lo) && in_world(&b.hi)));
    let keys = order(alloc, &before)?;
    let Ok(after) = moved(alloc, &keys, &before, &other, &live) else {
        return Err(Memory);
    };
    let (tree, tally, slow) = both(rt, alloc, &before, &after, &live, workers)?;
    let Ok(wanted) = expected(alloc, &tree, &live, workers) else {
        return Err(Memory);
    };
    Ok(tree.nodes() == slow.nodes() && (tally.fits, tally.steps) == wanted)
}

#[test]
fn five_hundred_live_lists_leave_the_plain_tree_and_exact_tallies(
    rt: HostRuntime,
) -> Result<(), Fail> {
    let mut seed = 731;
    for round in 0..500_u64 {
        seed = jump(seed);
        let most = if round % 2 == 0 { 12 } else { 3000 };
        let count = ((seed >> 33) % most + 1) as u32;
        let workers = if round % 25 == 0 {
            64
        } else {
            ((seed >> 20) % 5 + 1) as u32
        };
        assert!(rt; tried(&rt, rt.alloc(), count, seed, workers)?);
    }
    Ok(())
}
