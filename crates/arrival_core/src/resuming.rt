//! What a worker does after an event: it goes on with what it carries, with what is pending, with a batch, or not at
//! all. The parent of what it carries is found on the way down from the root.

ghost use Rattle.std.specs.Prelude.{◌≡◌, ℕ, ◌+◌, ◌-◌, ◌*◌, ◌/◌, ◌^◌, ◌<◌, ◌≤◌, length, List, [], Bool, take, drop, if◌then◌else◌, Some, None};
ghost use Rattle.morton_key.specs.Keys.{tri_at};
ghost use Rattle.radix_tree.specs.Fit.{box_of_triangle};
ghost use Rattle.arrival_core.specs.declared.packets.TheConstants.{BATCH};
ghost use Rattle.arrival_core.specs.declared.packets.Phase.TheVariants.{Second};
ghost use Rattle.arrival_core.specs.Events.{join, resume, stepped, fitted, go_up};
ghost use Rattle.arrival_core.specs.Settings.{above, row_of, batch_count};
ghost use Rattle.arrival_core.specs.Terrains.{IsTerrain, frame_at};
ghost use Rattle.arrival_core.specs.Forks.{worker_of};

use crate::climbing::{leaf_up, node_up};
use crate::forks::Climber;
use crate::terrains::Terrain;
use crate::{BATCH, Load, Packet, Phase, Side, Tally};
use fixed_box::union;
use radix_tree::box_at;

/// The tally after an event.
pub(crate) fn one_step(tally: Tally) -> Tally
    requires { tally.steps + 1 < 2 ^ 64 }
    ensures { result ≡ stepped tally }
{
    Tally {
        fits: tally.fits,
        steps: tally.steps + 1,
    }
}

/// The packet of a leaf.
pub(crate) fn leaf_packet(g: &Terrain<'_>, p: u32) -> Packet
    requires terrain { IsTerrain g.now }
    requires within { p < length g.now.tree.now.keys }
    ensures { result ≡ record {
      first = p;
      last = p;
      split = p;
      fit = box_of_triangle g.now.boxes.now (tri_at g.now.tree.now.keys p);
    } }
{
    Packet {
        first: p,
        last: p,
        split: p,
        fit: box_at(g.tree.keys(), g.boxes, p as usize),
    }
}

/// The packet of a node, from that of its child on one side and that of the other child.
pub(crate) fn joined(split: u32, side: Side, own: Packet, found: Packet) -> Packet
    ensures { result ≡ join split side own found }
{
    match side {
        Side::Left => Packet {
            first: own.first,
            last: found.last,
            split,
            fit: union(&own.fit, &found.fit),
        },
        Side::Right => Packet {
            first: found.first,
            last: own.last,
            split,
            fit: union(&found.fit, &own.fit),
        },
    }
}

/// A worker that carries nothing, whose positions are a part of the live ones.
fn resumed(g: &Terrain<'_>, next: u32, from: u32, to: u32, tally: Tally) -> Climber
    requires terrain { IsTerrain g.now }
    requires part { from ≤ to }
    requires within { to ≤ length g.now.live.now }
    ensures value { (workers : ℕ) → worker_of g.now.live.now result
        ≡ resume (frame_at g.now workers) next (take (to - from) (drop from g.now.live.now)) tally }
    ensures part { result.from ≤ result.to }
    ensures within { result.to ≤ length g.now.live.now }
{
    if from == to {
        return Climber {
            next,
            from,
            to,
            phase: if next == g.batches {
                Phase::Ended
            } else {
                Phase::Looking
            },
            tally,
        };
    }
    let p = g.live[from as usize];
    let up = leaf_up(g.tree, 0, p);
    let load = Load {
        split: up.split,
        side: up.side,
        packet: leaf_packet(g, p),
    };
    Climber {
        next,
        from: from + 1,
        to,
        phase: Phase::Carry(load),
        tally,
    }
}

/// A worker behind its arrival, which was the second one or not.
pub(crate) fn after_arrival(g: &Terrain<'_>, was: Climber, l: Load, second: bool) -> Climber
    requires terrain { IsTerrain g.now }
    requires part { was.from ≤ was.to }
    requires within { was.to ≤ length g.now.live.now }
    requires room { was.tally.steps + 1 < 2 ^ 64 }
    ensures value { (workers : ℕ) → worker_of g.now.live.now result ≡ (if second
        then record (worker_of g.now.live.now was) { phase = Second l; tally = stepped was.tally }
        else resume (frame_at g.now workers) was.next (worker_of g.now.live.now was).pending (stepped was.tally)) }
    ensures part { result.from ≤ result.to }
    ensures within { result.to ≤ length g.now.live.now }
{
    let tally = one_step(was.tally);
    if second {
        return Climber {
            next: was.next,
            from: was.from,
            to: was.to,
            phase: Phase::Second(l),
            tally,
        };
    }
    resumed(g, was.next, was.from, was.to, tally)
}

/// A worker behind a node that it has left, with the packets of both children.
pub(crate) fn after_leaving(g: &Terrain<'_>, was: Climber, l: Load, found: Packet) -> Climber
    requires terrain { IsTerrain g.now }
    requires node { l.split + 1 < length g.now.tree.now.keys }
    requires part { was.from ≤ was.to }
    requires within { was.to ≤ length g.now.live.now }
    requires steps { was.tally.steps + 1 < 2 ^ 64 }
    requires fits { was.tally.fits + 1 < 2 ^ 64 }
    ensures value { (workers : ℕ) → worker_of g.now.live.now result ≡ go_up (frame_at g.now workers)
        (above g.now.tree.now.keys (row_of g.now.tree.now.keys l.split).first (row_of g.now.tree.now.keys l.split).last)
        (join l.split l.side l.packet found) (worker_of g.now.live.now was) }
    ensures part { result.from ≤ result.to }
    ensures within { result.to ≤ length g.now.live.now }
{
    let tally = Tally {
        fits: was.tally.fits + 1,
        steps: was.tally.steps + 1,
    };
    if g.tree.nodes()[0].split == l.split {
        return resumed(g, was.next, was.from, was.to, tally);
    }
    let up = node_up(g.tree, 0, l.split);
    let load = Load {
        split: up.split,
        side: up.side,
        packet: joined(l.split, l.side, l.packet, found),
    };
    Climber {
        next: was.next,
        from: was.from,
        to: was.to,
        phase: Phase::Carry(load),
        tally,
    }
}

/// A worker that took its next batch, which was claimed already or not.
pub(crate) fn after_taking(g: &Terrain<'_>, was: Climber, claimed: bool) -> Climber
    requires terrain { IsTerrain g.now }
    requires next { was.next < batch_count g.now.live.now }
    requires room { was.tally.steps + 1 < 2 ^ 64 }
    ensures value { (workers : ℕ) → worker_of g.now.live.now result ≡ resume (frame_at g.now workers) (was.next + 1)
        (if claimed then [] else take BATCH (drop (BATCH * was.next) g.now.live.now)) (stepped was.tally) }
    ensures part { result.from ≤ result.to }
    ensures within { result.to ≤ length g.now.live.now }
{
    let tally = one_step(was.tally);
    if claimed {
        return resumed(g, was.next + 1, 0, 0, tally);
    }
    let from = was.next as usize * BATCH;
    let to = (from + BATCH).min(g.live.len());
    resumed(g, was.next + 1, from as u32, to as u32, tally)
}
