//! What workers carry up a tree, where it is put down, and how far a worker is.

use fixed_box::Box3;

/// How many live leaves a worker takes at once, so that workers meet seldom at the list of batches.
pub const BATCH: usize = 64;

/// The greatest count of workers of one machine.
pub const MOST_WORKERS: u32 = 64;

/// What a child tells its parent: its range of positions, both ends in it, its split, and the box round its triangles.
///
/// The split of an inner node is the last position of its left child. A leaf's `first`, `last` and `split` are its
/// position.
#[derive(Clone, Copy, Debug, PartialEq, Eq, Drop)]
pub struct Packet {
    pub first: u32,
    pub last: u32,
    pub split: u32,
    pub fit: Box3,
}

/// A side of an inner node.
#[derive(Clone, Copy, Debug, PartialEq, Eq, Drop)]
pub enum Side {
    Left,
    Right,
}

/// One side of the inner node with that split.
#[derive(Clone, Copy, Debug, PartialEq, Eq, Drop)]
pub struct Up {
    pub split: u32,
    pub side: Side,
}

/// How many nodes a worker has fitted, and how many events it has had.
#[derive(Clone, Copy, Debug, PartialEq, Eq, Drop)]
pub struct Tally {
    pub fits: u64,
    pub steps: u64,
}

/// A packet on its way to a side of the inner node with that split.
#[derive(Clone, Copy, Debug, PartialEq, Eq, Drop)]
pub struct Load {
    pub split: u32,
    pub side: Side,
    pub packet: Packet,
}

/// What a worker does next, with what it carries.
#[derive(Clone, Copy, Debug, PartialEq, Eq, Drop)]
pub enum Phase {
    /// It carries nothing, and takes its next batch.
    Looking,
    /// It opens the side that its packet is for.
    Carry(Load),
    /// It holds the place of that side, puts its packet there and arrives.
    Opened(Load),
    /// It came second at the node, and collects the packet of the other side.
    Second(Load),
    /// It holds the place of the other side, whose packet is the second one here, and leaves the node.
    Collecting(Load, Packet),
    /// It has no further event.
    Ended,
}

/// The place of one side of a node.
#[derive(Clone, Copy, Debug, PartialEq, Eq, Drop)]
pub enum Place {
    /// No packet has come.
    Nothing,
    /// A packet stands there.
    Holds(Packet),
    /// It is out with the worker of that number.
    Out(u32),
}
