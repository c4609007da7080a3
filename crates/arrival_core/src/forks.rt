//! The words and the places of the nodes, and how far each worker is, as a state holds them.

ghost use Rattle.std.specs.Prelude.{◌≡◌, ◌<◌, length, slice_set, true};
ghost use Rattle.arrival_core.specs.Frames.{other};
ghost use Rattle.arrival_core.specs.Events.{held};
ghost use Rattle.arrival_core.specs.Forks.{fork_at, branch_of, with_branch, climber_at};

use crate::{Packet, Phase, Place, Side, Tally};
use std::mem::size_of;

/// One side of a node: three of its word's bits, and its place.
#[derive(Clone, Copy, Debug, PartialEq, Eq, Drop)]
pub struct Branch {
    pub opened: bool,
    pub arrived: bool,
    pub collected: bool,
    pub place: Place,
}

/// A node: both its sides, and the last bit of its word.
#[derive(Clone, Copy, Debug, PartialEq, Eq, Drop)]
pub struct Fork {
    pub left: Branch,
    pub right: Branch,
    pub returned: bool,
}

/// A worker: its next batch, its pending positions as a part of the live ones, its phase and its tally.
#[derive(Clone, Copy, Debug, PartialEq, Eq, Drop)]
pub struct Climber {
    pub next: u32,
    pub from: u32,
    pub to: u32,
    pub phase: Phase,
    pub tally: Tally,
}

// what the machine needs for each node beside the tree
const _: () = prove!(size_of::<Fork>() <= 92);

/// One side of the node with that split.
pub(crate) fn branch_at(forks: &[Fork], split: u32, side: Side) -> Branch
    requires { split < length forks.now }
    ensures { result ≡ branch_of (fork_at forks.now split) side }
{
    let fork = forks[split as usize];
    match side {
        Side::Left => fork.left,
        Side::Right => fork.right,
    }
}

/// Writes one side of the node with that split.
pub(crate) fn put_branch(forks: &mut [Fork], split: u32, side: Side, x: Branch)
    requires { split < length forks.old }
    ensures { forks.new ≡ slice_set forks.old split (with_branch (fork_at forks.old split) side x) }
{
    match side {
        Side::Left => forks[split as usize].left = x,
        Side::Right => forks[split as usize].right = x,
    }
}

/// Writes the returned bit of the node with that split.
pub(crate) fn put_returned(forks: &mut [Fork], split: u32)
    requires { split < length forks.old }
    ensures { forks.new ≡ slice_set forks.old split (record (fork_at forks.old split) { returned = true }) }
{
    forks[split as usize].returned = true;
}

/// The worker of that number.
pub(crate) fn climber_of(climbers: &[Climber], worker: u32) -> Climber
    requires { worker < length climbers.now }
    ensures { result ≡ climber_at climbers.now worker }
{
    climbers[worker as usize]
}

/// The other side of a node.
pub(crate) fn across(side: Side) -> Side
    ensures { result ≡ other side }
{
    match side {
        Side::Left => Side::Right,
        Side::Right => Side::Left,
    }
}

/// The packet in a place, or the other one where there is none.
pub(crate) fn packet_in(place: Place, none: Packet) -> Packet
    ensures { result ≡ held place none }
{
    match place {
        Place::Nothing => none,
        Place::Holds(packet) => packet,
        Place::Out(_) => none,
    }
}
