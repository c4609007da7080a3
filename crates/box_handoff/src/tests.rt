//! Packets and counts worked by hand, runs by threads beside the plain build, and what a gate is told.

ghost use Rattle.std.specs.Prelude.{◌≡◌, ◌≤◌, IfOk, true, false};
ghost use Rattle.box_handoff.specs.Seats.{given_by, IsSeatOf, AreFresh, AreAll};

use crate::{Built, Fitted, HandSeat, Handoff, Packet, TreeWays, Ways, assemble, fit, fit_nodes};
use fixed_box::{Box3, Point, Tri, box_of, in_world};
use morton_key::order;
use outside::{Gate, Memory, OpenGate};
use radix_tree::{Tree, plain};
use std::alloc::{AllocError, Global};
use std::process::Abort;
use std::rt::HostRuntime;
use std::sync::atomic::{AtomicU64, Ordering};
use std::test::Fail;
use std::thread::{self, Threads, join_mut};

fn at(x: i32, y: i32, z: i32) -> Point {
    Point { x, y, z }
}

fn leaf(position: u32, fit: Box3) -> Packet {
    Packet {
        first: position,
        last: position,
        split: position,
        fit,
    }
}

/// A corner of a height field, in steps of 256.
fn corner(i: u32, j: u32) -> Point
    requires i { i ≤ 256 }
    requires j { j ≤ 256 }
{
    at(
        256 * i as i32 - 65536,
        256 * j as i32 - 65536,
        ((73 * i + 151 * j + 29 * i * j) % 1024) as i32,
    )
}

/// The boxes of the 2 * n * n triangles of a height field.
fn field(alloc: Global, n: u32) -> Result<Vec<Box3>, AllocError>
    requires { n ≤ 255 }
{
    let mut boxes = Vec::new(alloc);
    for j in 0..n {
        for i in 0..n {
            let (a, c) = (corner(i, j), corner(i + 1, j + 1));
            boxes.push(box_of(&Tri {
                a,
                b: corner(i + 1, j),
                c,
            }))?;
            boxes.push(box_of(&Tri {
                a,
                b: c,
                c: corner(i, j + 1),
            }))?;
        }
    }
    Ok(boxes)
}

/// The tree by so many workers, with the tallies added up, and the tree of the plain build.
fn both<R: Threads + Sync + Abort, G: Gate>(
    rt: &R,
    alloc: Global,
    boxes: &[Box3],
    workers: u32,
    gate: &G,
) -> Result<(Built, Tree), Memory> {
    assert!(rt; 1 < boxes.len() && boxes.len() <= 200000);
    assert!(rt; 0 < workers && workers <= 64);
    assert!(rt; boxes.iter().all(|b| in_world(&b.lo) && in_world(&b.hi)));
    let slow = plain(alloc, order(alloc, boxes)?, boxes)?;
    let ways = TreeWays::of(alloc, &slow)?;
    let keys = order(alloc, boxes)?;
    let at_once = fit_nodes(rt, alloc, &ways, &OpenGate, slow.keys(), boxes, workers)?;
    assert!(rt; at_once.nodes.as_slice() == slow.nodes());
    let fitted = fit(rt, alloc, &ways, gate, slow.keys(), boxes, workers)?;
    assert!(rt; at_once.tally == fitted.tally);
    let tree = assemble(alloc, keys, &fitted)?;
    let built = Built {
        tree,
        tally: fitted.tally,
    };
    Ok((built, slow))
}

#[test]
fn three_workers_fit_each_of_127_nodes_once_in_768_steps(rt: HostRuntime) -> Result<(), Fail> {
    let boxes = field(rt.alloc(), 8)?;
    let (built, slow) = both(&rt, rt.alloc(), &boxes, 3, &OpenGate)?;
    assert_eq!(rt; built.tally.fits, 127);
    assert_eq!(rt; built.tally.steps, 768);
    assert!(rt; built.tree.nodes() == slow.nodes());
    Ok(())
}

#[test]
fn any_number_of_workers_makes_the_tree_of_the_plain_build(rt: HostRuntime) -> Result<(), Fail> {
    let boxes = field(rt.alloc(), 64)?;
    for workers in [1, 2, 3, 7, 64] {
        let (built, slow) = both(&rt, rt.alloc(), &boxes, workers, &OpenGate)?;
        assert!(rt; built.tree.nodes() == slow.nodes());
        assert!(rt; built.tree.keys() == slow.keys());
    }
    Ok(())
}

/// Two seats climb at the same time, each in a thread.
fn climb_both<R: Threads + Sync, W: Ways, G: Gate>(
    rt: &R,
    handoff: &Handoff<'_>,
    first: &mut HandSeat,
    second: &mut HandSeat,
    ways: &W,
    gate: &G,
)
    requires first { IsSeatOf handoff.now first.old × (first.old.ended ≡ false) }
    requires second { IsSeatOf handoff.now second.old × (second.old.ended ≡ false) }
    requires ways { W.stands ways.now (given_by handoff.now).keys }
    ensures first { IsSeatOf handoff.now first.new × (first.new.ended ≡ true) × (first.new.number ≡ first.old.number) }
    ensures second { IsSeatOf handoff.now second.new × (second.new.ended ≡ true)
        × (second.new.number ≡ second.old.number) }
{
    let mut one = || -> ()
        requires { IsSeatOf handoff.now first.now × (first.now.ended ≡ false)
            × W.stands ways.now (given_by handoff.now).keys }
        ensures { IsSeatOf handoff.entry.now first.exit.now × (first.exit.now.ended ≡ true)
            × (first.exit.now.number ≡ first.entry.now.number) }
    {
        handoff.climb(first, ways, gate);
    };
    let mut two = || -> ()
        requires { IsSeatOf handoff.now second.now × (second.now.ended ≡ false)
            × W.stands ways.now (given_by handoff.now).keys }
        ensures { IsSeatOf handoff.entry.now second.exit.now × (second.exit.now.ended ≡ true)
            × (second.exit.now.number ≡ second.entry.now.number) }
    {
        handoff.climb(second, ways, gate);
    };
    join_mut(rt, &mut one, &mut two);
}

/// The seats of a handoff that has two, when both have climbed.
fn both_climbed<R: Threads + Sync, W: Ways>(
    rt: &R,
    handoff: &Handoff<'_>,
    mut seats: Vec<HandSeat>,
    ways: &W,
) -> Result<Vec<HandSeat>, AllocError>
    requires fresh { AreFresh handoff.now seats.items }
    requires two { (given_by handoff.now).seats ≡ 2 }
    requires ways { W.stands ways.now (given_by handoff.now).keys }
    ensures { IfOk result (λ v. AreAll handoff.now v.items) }
{
    let Some(mut second) = seats.pop() else {
        unreachable!()
    };
    let Some(mut first) = seats.pop() else {
        unreachable!()
    };
    climb_both(rt, handoff, &mut first, &mut second, ways, &OpenGate);
    seats.push(second)?;
    seats.push(first)?;
    Ok(seats)
}

/// What two seats, driven by the caller's own threads, leave: the packets, the tree, and the tree of the plain build.
fn by_own_threads<R: Threads + Sync + Abort>(
    rt: &R,
    alloc: Global,
    boxes: &[Box3],
) -> Result<(Fitted, Tree, Tree), Memory> {
    assert!(rt; 1 < boxes.len() && boxes.len() <= 200000);
    assert!(rt; boxes.iter().all(|b| in_world(&b.lo) && in_world(&b.hi)));
    let slow = plain(alloc, order(alloc, boxes)?, boxes)?;
    let ways = TreeWays::of(alloc, &slow)?;
    let keys = order(alloc, boxes)?;
    let (handoff, seats) = Handoff::fresh(alloc, slow.keys(), boxes, 2)?;
    let Ok(seats) = both_climbed(rt, &handoff, seats, &ways) else {
        return Err(Memory);
    };
    let fitted = handoff.close(alloc, seats)?;
    let tree = assemble(alloc, keys, &fitted)?;
    Ok((fitted, tree, slow))
}

#[test]
fn two_equal_triangles_meet_at_one_node(rt: HostRuntime) -> Result<(), Fail> {
    let (a, b, c) = (at(0, 0, 0), at(4, 0, 0), at(0, 4, 0));
    let one = box_of(&Tri { a, b, c });
    let (fitted, _, _) = by_own_threads(&rt, rt.alloc(), &[one, one])?;
    assert_eq!(rt; fitted.left.as_slice(), [leaf(0, one)].as_slice());
    assert_eq!(rt; fitted.right.as_slice(), [leaf(1, one)].as_slice());
    assert_eq!(rt; (fitted.tally.fits, fitted.tally.steps), (1, 8));
    Ok(())
}

#[test]
fn own_threads_make_the_tree_of_the_plain_build(rt: HostRuntime) -> Result<(), Fail> {
    let (a, b, c, d) = (at(0, 0, 0), at(256, 0, 0), at(256, 256, 0), at(0, 256, 0));
    let (e, f) = (at(416, 0, 80), at(416, 256, 80));
    let boxes = [
        box_of(&Tri { a, b, c }),
        box_of(&Tri { a, b: c, c: d }),
        box_of(&Tri { a: b, b: e, c: f }),
        box_of(&Tri { a: b, b: f, c }),
    ];
    let (fitted, tree, slow) = by_own_threads(&rt, rt.alloc(), &boxes)?;
    assert_eq!(rt; (fitted.tally.fits, fitted.tally.steps), (3, 20));
    assert!(rt; tree.nodes() == slow.nodes());
    Ok(())
}

/// A gate that counts the passes of two workers, and those out of turn.
#[derive(Drop)]
struct CountingGate {
    first: AtomicU64,
    second: AtomicU64,
    wrong: AtomicU64,
}

impl Gate for CountingGate {
    fn pass(&self, worker: u32, turn: u64) {
        let count = if worker == 0 {
            &self.first
        } else {
            &self.second
        };
        if count.fetch_add(1, Ordering::SeqCst) != turn || worker > 1 {
            self.wrong.fetch_add(1, Ordering::SeqCst);
        }
    }
}

#[test]
fn each_worker_passes_the_gate_before_each_batch(rt: HostRuntime) -> Result<(), Fail> {
    let gate = CountingGate {
        first: AtomicU64::new(0),
        second: AtomicU64::new(0),
        wrong: AtomicU64::new(0),
    };
    let boxes = field(rt.alloc(), 9)?;
    let (_, _) = both(&rt, rt.alloc(), &boxes, 2, &gate)?;
    // 162 leaves are 3 batches
    assert_eq!(rt; gate.first.load(Ordering::SeqCst), 3);
    assert_eq!(rt; gate.second.load(Ordering::SeqCst), 3);
    assert_eq!(rt; gate.wrong.load(Ordering::SeqCst), 0);
    Ok(())
}

/// A gate at which some passes leave the processor to others.
#[derive(Drop)]
struct YieldingGate {
    passes: AtomicU64,
}

impl Gate for YieldingGate {
    fn pass(&self, worker: u32, turn: u64) {
        let pass = self.passes.fetch_add(1, Ordering::SeqCst);
        let mixed = pass.wrapping_mul(6364136223846793005) ^ turn.wrapping_add(worker as u64);
        for _ in 0..(mixed >> 40) % 4 {
            thread::yield_now();
        }
    }
}

#[test]
fn two_hundred_runs_that_yield_at_random_make_one_tree(rt: HostRuntime) -> Result<(), Fail> {
    let gate = YieldingGate {
        passes: AtomicU64::new(0),
    };
    let boxes = field(rt.alloc(), 8)?;
    for _ in 0..200 {
        let (built, slow) = both(&rt, rt.alloc(), &boxes, 3, &gate)?;
        assert!(rt; built.tree.nodes() == slow.nodes());
        assert_eq!(rt; built.tally.steps, 768);
    }
    Ok(())
}
