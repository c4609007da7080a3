//! What a fitting run leaves.

use crate::{Packet, Tally};
use radix_tree::{Node, Tree};

/// The packets of the children of live inner nodes, in the order of the nodes' splits: at place `i` of each list stands
/// the one of the child on that side of the node with the `i`-th live split. Where all leaves are live, that is `i`.
#[derive(Debug, Drop)]
pub struct Fitted {
    pub left: Vec<Packet>,
    pub right: Vec<Packet>,
    /// The tallies of all workers, added up.
    pub tally: Tally,
}

/// The inner nodes of a tree that workers fitted, by their numbers.
#[derive(Debug, Drop)]
pub struct FittedNodes {
    pub nodes: Vec<Node>,
    /// The tallies of all workers, added up.
    pub tally: Tally,
}

/// A tree that workers fitted, and their tallies added up.
#[derive(Debug, Drop)]
pub struct Built {
    pub tree: Tree,
    pub tally: Tally,
}
