//! A host whose own threads fit a tree: it makes a handoff over keys and boxes, lets each of two threads climb with a
//! seat, closes the handoff when both have ended, and puts the tree together.
//!
//! Whichever thread fits which node, the packets, the sum of the tallies and so the tree are the same.
#![tactic(auto)]

ghost use Rattle.std.specs.Prelude.{◌≡◌, ◌<◌, ◌≤◌, ◌^◌, length, All, IfOk, true, false};
ghost use Rattle.fixed_box.specs.World.{BoxInWorld};
ghost use Rattle.radix_tree.specs.Fit.{IsFitted};
ghost use Rattle.box_handoff.specs.Seats.{given_by, IsSeatOf, AreFresh, AreAll};

use box_handoff::{HandSeat, Handoff, Tally, Ways, assemble};
use fixed_box::{Box3, Point, in_world};
use karras_build::{links_of, order_by_threads, spans};
use morton_key::POSITION_WIDTH;
use outside::{Memory, OpenGate};
use radix_tree::Tree;
use std::alloc::{AllocError, Global};
use std::io;
use std::thread::{Threads, join_mut};

/// Two seats climb at the same time: one in a thread of its own, the other in this one.
fn climb_both<R: Threads + Sync, W: Ways>(
    rt: &R,
    handoff: &Handoff<'_>,
    first: &mut HandSeat,
    second: &mut HandSeat,
    ways: &W,
)
    requires first { IsSeatOf handoff.now first.old × (first.old.ended ≡ false) }
    requires second { IsSeatOf handoff.now second.old × (second.old.ended ≡ false) }
    requires ways { W.stands ways.now (given_by handoff.now).keys }
    ensures first { IsSeatOf handoff.now first.new × (first.new.ended ≡ true) × (first.new.number ≡ first.old.number) }
    ensures second { IsSeatOf handoff.now second.new × (second.new.ended ≡ true)
        × (second.new.number ≡ second.old.number) }
{
    let mut one = || -> ()
        requires { IsSeatOf handoff.now first.now × (first.now.ended ≡ false)
            × W.stands ways.now (given_by handoff.now).keys }
        ensures { IsSeatOf handoff.entry.now first.exit.now × (first.exit.now.ended ≡ true)
            × (first.exit.now.number ≡ first.entry.now.number) }
    {
        handoff.climb(first, ways, &OpenGate);
    };
    let mut two = || -> ()
        requires { IsSeatOf handoff.now second.now × (second.now.ended ≡ false)
            × W.stands ways.now (given_by handoff.now).keys }
        ensures { IsSeatOf handoff.entry.now second.exit.now × (second.exit.now.ended ≡ true)
            × (second.exit.now.number ≡ second.entry.now.number) }
    {
        handoff.climb(second, ways, &OpenGate);
    };
    join_mut(rt, &mut one, &mut two);
}

/// The two seats of a handoff, when both have climbed.
fn both_climbed<R: Threads + Sync, W: Ways>(
    rt: &R,
    handoff: &Handoff<'_>,
    mut seats: Vec<HandSeat>,
    ways: &W,
) -> Result<Vec<HandSeat>, AllocError>
    requires fresh { AreFresh handoff.now seats.items }
    requires two { (given_by handoff.now).seats ≡ 2 }
    requires ways { W.stands ways.now (given_by handoff.now).keys }
    ensures { IfOk result (λ v. AreAll handoff.now v.items) }
{
    let Some(mut second) = seats.pop() else {
        unreachable!()
    };
    let Some(mut first) = seats.pop() else {
        unreachable!()
    };
    climb_both(rt, handoff, &mut first, &mut second, ways);
    seats.push(second)?;
    seats.push(first)?;
    Ok(seats)
}

/// The tree over two boxes of the world or more, fitted by two threads, and what these did in all.
fn tree_of<R: Threads + Sync>(
    rt: &R,
    alloc: Global,
    boxes: &[Box3],
) -> Result<(Tree, Tally), Memory>
    requires two { 1 < length boxes.now }
    requires few { length boxes.now ≤ 2 ^ POSITION_WIDTH }
    requires world { All BoxInWorld boxes.now }
    ensures { IfOk result (λ r. IsFitted r.0 boxes.now) }
{
    let keys = order_by_threads(rt, alloc, boxes)?;
    let ways = links_of(alloc, &spans(rt, alloc, &keys)?)?;
    let (handoff, seats) = Handoff::fresh(alloc, &keys, boxes, 2)?;
    let Ok(seats) = both_climbed(rt, &handoff, seats, &ways) else {
        return Err(Memory);
    };
    let fitted = handoff.close(alloc, seats)?;
    let tree = assemble(alloc, keys, &fitted)?;
    Ok((tree, fitted.tally))
}

/// A row of boxes of 2 by 2 by 2 grid steps, each 8 steps from the next.
fn row(alloc: Global) -> Result<Vec<Box3>, AllocError> {
    let mut boxes = Vec::new(alloc);
    for place in 0..200u32 {
        let x = (8 * place) as i32;
        let low = Point { x, y: 0, z: 0 };
        let high = Point {
            x: x + 2,
            y: 2,
            z: 2,
        };
        boxes.push(Box3::of_corners(low, high))?;
    }
    Ok(boxes)
}

fn main(rt: HostRuntime) -> io::Result<()> {
    let boxes = row(rt.alloc())?;
    let are_few = 1 < boxes.len() && boxes.len() <= 1 << POSITION_WIDTH;
    if !are_few || !boxes.iter().all(|b| in_world(&b.lo) && in_world(&b.hi)) {
        return Err(io::ErrorKind::InvalidInput.into());
    }
    let Ok((tree, tally)) = tree_of(&rt, rt.alloc(), &boxes) else {
        return Err(io::ErrorKind::OutOfMemory.into());
    };
    println!(rt;
        "nodes {} fits {} steps {}",
        tree.nodes().len(),
        tally.fits,
        tally.steps
    )?;
    for node in tree.nodes().iter().take(2) {
        println!(rt;
            "{} to {}: x {} to {}",
            node.first, node.last, node.fit.lo.x, node.fit.hi.x
        )?;
    }
    Ok(())
}
