//! The radix tree over keys in order: a table of its inner nodes, found by a recursion from the top.
//!
//! A range of keys is parted where the highest bit in which its ends differ turns from 0 to 1. Every later build makes
//! this tree, and every walk goes over it.
#![tactic(auto)]

mod building;
mod descent;
mod nodes;
mod splitting;
mod trees;

pub use building::{box_at, plain};
pub use descent::{height, left, node_of, right};
pub use nodes::{Child, Node};
pub use splitting::split_of;
pub use trees::Tree;

#[cfg(test)]
mod tests;
