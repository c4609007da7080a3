//! The laws of a state, counted over its lists from the tree's table alone.

ghost use Rattle.std.specs.Prelude.{◌<◌, ◌^◌};

use crate::forks::{Branch, Climber, Fork};
use crate::{BATCH, Load, Packet, Phase, Place, Side};
use fixed_box::Box3;
use radix_tree::{Child, Tree, left, right};
use std::alloc::{AllocError, Global};

/// A child: its packet, whether a live position lies below it, and its split if it is an inner node.
#[derive(Clone, Copy, Drop)]
pub(super) struct Expected {
    pub(super) packet: Packet,
    pub(super) live: bool,
    inner: bool,
}

/// The sides of all nodes, twice the split for a left one and one more for a right one.
#[derive(Drop)]
pub(super) struct Table {
    pub(super) children: Vec<Expected>,
    /// The side above each position.
    above: Vec<usize>,
    /// The side above each inner node, by its split; none above the root.
    above_inner: Vec<Option<usize>>,
}

impl Table {
    /// Whether a live position lies below a side.
    pub(super) fn is_live(&self, side: usize) -> bool {
        self.children.get(side).is_some_and(|child| child.live)
    }

    /// The side above the leaf at a position.
    pub(super) fn above_leaf(&self, position: u32) -> Option<usize> {
        self.above.get(position as usize).copied()
    }

    /// The side above an inner node, or none above the root.
    pub(super) fn above_node(&self, split: usize) -> Option<usize> {
        *self.above_inner.get(split)?
    }
}

pub(super) fn side_index(split: u32, side: Side) -> usize {
    let right = match side {
        Side::Left => 0,
        Side::Right => 1,
    };
    2 * split as usize + right
}

fn child_at(tree: &Tree, boxes: &[Box3], live: &[u32], child: Child) -> Option<Expected> {
    let (packet, inner) = match child {
        Child::Leaf(p) => {
            let key = tree.keys().get(p as usize)?;
            let fit = *boxes.get((key.tri as usize).wrapping_sub(1))?;
            (
                Packet {
                    first: p,
                    last: p,
                    split: p,
                    fit,
                },
                false,
            )
        }
        Child::Inner(number) => {
            let node = tree.nodes().get(number as usize)?;
            (
                Packet {
                    first: node.first,
                    last: node.last,
                    split: node.split,
                    fit: node.fit,
                },
                true,
            )
        }
    };
    let live = live.iter().any(|p| packet.first <= *p && *p <= packet.last);
    Some(Expected {
        packet,
        live,
        inner,
    })
}

/// The children of all nodes, read off the table.
pub(super) fn table_of(
    alloc: Global,
    tree: &Tree,
    boxes: &[Box3],
    live: &[u32],
) -> Result<Table, AllocError> {
    let none = Expected {
        packet: Packet {
            first: 0,
            last: 0,
            split: 0,
            fit: super::over(0),
        },
        live: false,
        inner: false,
    };
    let count = tree.nodes().len();
    let mut children = vec![in alloc; none; 2 * count]?;
    let mut above = vec![in alloc; 0; count + 1]?;
    let mut above_inner = vec![in alloc; None; count]?;
    for number in 0..count {
        let split = tree.nodes()[number].split;
        for (side, child) in [
            (Side::Left, left(tree, number as u32)),
            (Side::Right, right(tree, number as u32)),
        ] {
            let index = side_index(split, side);
            if let (Some(slot), Some(found)) = (
                children.get_mut(index),
                child_at(tree, boxes, live, child),
            ) {
                *slot = found;
                let at = found.packet.split as usize;
                if found.inner {
                    if let Some(up) = above_inner.get_mut(at) {
                        *up = Some(index);
                    }
                } else if let Some(up) = above.get_mut(at) {
                    *up = index;
                }
            }
        }
    }
    Ok(Table {
        children,
        above,
        above_inner,
    })
}

/// How often the child of each side is anywhere, and how many workers are behind an opening or a second arrival.
#[derive(Drop)]
pub(super) struct Seen {
    had: Vec<u64>,
    opened: Vec<u64>,
    second: Vec<u64>,
    collecting: Vec<u64>,
    /// How many workers hold the place of each side, and the last of them.
    holders: Vec<u64>,
    holder: Vec<u64>,
}

impl Seen {
    pub(super) fn blank(alloc: Global, nodes: usize) -> Result<Seen, AllocError>
        requires { nodes < 2 ^ 32 }
    {
        Ok(Seen {
            had: vec![in alloc; 0; 2 * nodes]?,
            opened: vec![in alloc; 0; 2 * nodes]?,
            second: vec![in alloc; 0; nodes]?,
            collecting: vec![in alloc; 0; nodes]?,
            holders: vec![in alloc; 0; 2 * nodes]?,
            holder: vec![in alloc; 0; 2 * nodes]?,
        })
    }
}

fn clear(counts: &mut [u64]) {
    for n in counts.iter_mut() {
        *n = 0;
    }
}

fn add(counts: &mut [u64], index: usize) {
    if let Some(n) = counts.get_mut(index) {
        *n = n.saturating_add(1);
    }
}

fn count_at(counts: &[u64], index: usize) -> u64 {
    counts.get(index).copied().unwrap_or(u64::MAX)
}

fn hold(seen: &mut Seen, index: usize, worker: usize) {
    add(&mut seen.holders, index);
    if let Some(holder) = seen.holder.get_mut(index) {
        *holder = worker as u64;
    }
}

fn is_collected(forks: &[Fork], split: u32, side: Side) -> bool {
    match (forks.get(split as usize), side) {
        (Some(fork), Side::Left) => fork.left.collected,
        (Some(fork), Side::Right) => fork.right.collected,
        (None, _) => false,
    }
}

fn look_at(
    seen: &mut Seen,
    table: &Table,
    claimed: &[bool],
    forks: &[Fork],
    climbers: &[Climber],
    live: &[u32],
) {
    clear(&mut seen.holders);
    clear(&mut seen.had);
    clear(&mut seen.opened);
    clear(&mut seen.second);
    clear(&mut seen.collecting);
    for (place, p) in live.iter().enumerate() {
        if let (Some(false), Some(side)) = (
            claimed.get(place / BATCH),
            table.above.get(*p as usize),
        ) {
            add(&mut seen.had, *side);
        }
    }
    for (worker, climber) in climbers.iter().enumerate() {
        for p in live
            .iter()
            .take(climber.to as usize)
            .skip(climber.from as usize)
        {
            if let Some(side) = table.above.get(*p as usize) {
                add(&mut seen.had, *side);
            }
        }
        match climber.phase {
            Phase::Carry(load) => add(&mut seen.had, side_index(load.split, load.side)),
            Phase::Opened(load) => {
                add(&mut seen.had, side_index(load.split, load.side));
                add(&mut seen.opened, side_index(load.split, load.side));
                hold(seen, side_index(load.split, load.side), worker);
            }
            Phase::Second(load) => add(&mut seen.second, load.split as usize),
            Phase::Collecting(load, _) => {
                add(&mut seen.collecting, load.split as usize);
                for side in [Side::Left, Side::Right] {
                    if is_collected(forks, load.split, side) {
                        hold(seen, side_index(load.split, side), worker);
                    }
                }
            }
            Phase::Looking | Phase::Ended => {}
        }
    }
}

fn is_carried_right(table: &Table, load: Load) -> bool {
    match table.children.get(side_index(load.split, load.side)) {
        Some(child) => load.packet == child.packet,
        None => false,
    }
}

fn is_side_lawful(
    seen: &Seen,
    index: usize,
    child: &Expected,
    forks: &[Fork],
    branch: &Branch,
) -> bool {
    let had = count_at(&seen.had, index);
    let below = forks.get(child.packet.split as usize);
    let ready = u64::from(!child.inner || below.is_some_and(|f| f.returned));
    let arrived = u64::from(branch.arrived);
    let counts = if child.live {
        had.saturating_add(arrived) == ready
            && u64::from(branch.opened) == arrived.saturating_add(count_at(&seen.opened, index))
    } else {
        branch.opened && branch.arrived && had == 0
    };
    let holders = count_at(&seen.holders, index);
    let place = match branch.place {
        Place::Nothing => !branch.opened && holders == 0,
        Place::Out(k) => branch.opened
            && holders == 1
            && count_at(&seen.holder, index) == u64::from(k),
        Place::Holds(packet) => branch.opened && holders == 0 && packet == child.packet,
    };
    counts && place
}

fn is_node_lawful(seen: &Seen, split: usize, live: bool, fork: &Fork) -> bool {
    let collecting = count_at(&seen.collecting, split);
    let met = count_at(&seen.second, split).saturating_add(collecting);
    let collected = u64::from(fork.left.collected) + u64::from(fork.right.collected);
    let both = fork.left.arrived && fork.right.arrived;
    met.saturating_add(u64::from(fork.returned)) == u64::from(both)
        && if live {
            collected == u64::from(fork.returned).saturating_add(collecting)
        } else {
            fork.returned && collected == 0
        }
}

fn is_worker_lawful(table: &Table, claimed: &[bool], climber: &Climber) -> bool {
    let next = climber.next as usize;
    let idle = climber.from == climber.to;
    let carried = match climber.phase {
        Phase::Looking => idle && next < claimed.len(),
        Phase::Carry(load) | Phase::Opened(load) | Phase::Second(load) => is_carried_right(
            table, load,
        ),
        Phase::Collecting(load, found) => {
            let other = side_index(load.split, load.side) ^ 1;
            is_carried_right(table, load)
                && table
                    .children
                    .get(other)
                    .is_some_and(|child| child.packet == found)
        }
        Phase::Ended => idle && next == claimed.len(),
    };
    carried && claimed.iter().take(next).all(|c| *c)
}

/// Whether the counts of a lawful state stand, part by part.
pub(super) fn is_lawful(
    seen: &mut Seen,
    table: &Table,
    claimed: &[bool],
    forks: &[Fork],
    climbers: &[Climber],
    live: &[u32],
) -> bool {
    look_at(seen, table, claimed, forks, climbers, live);
    let mut lawful = climbers.iter().all(|c| is_worker_lawful(table, claimed, c));
    let mut fits = 0u64;
    let mut steps = climbers
        .iter()
        .fold(0u64, |sum, c| sum.saturating_add(u64::from(c.next)));
    for (split, fork) in forks.iter().enumerate() {
        let mut node_live = false;
        for (index, branch) in [
            (split.saturating_mul(2), fork.left),
            (split.saturating_mul(2).saturating_add(1), fork.right),
        ] {
            if let Some(child) = table.children.get(index) {
                lawful = lawful && is_side_lawful(seen, index, child, forks, &branch);
                node_live = node_live || child.live;
                if child.live {
                    steps = steps.saturating_add(
                        u64::from(branch.opened) + u64::from(branch.arrived),
                    );
                }
            }
        }
        lawful = lawful && is_node_lawful(seen, split, node_live, fork);
        if node_live {
            let collected = u64::from(fork.left.collected) + u64::from(fork.right.collected);
            steps = steps.saturating_add(collected + u64::from(fork.returned));
            fits = fits.saturating_add(u64::from(fork.returned));
        }
    }
    lawful
        && climbers
            .iter()
            .fold(0u64, |sum, c| sum.saturating_add(c.tally.fits))
            == fits
        && climbers
            .iter()
            .fold(0u64, |sum, c| sum.saturating_add(c.tally.steps))
            == steps
}
