//! The octree that lies in a radix tree: cells of the world that hold the centres of two or more triangles' boxes.
//!
//! A cell is the prefix of a code, so the cells of a level are read from the tree, and the count of all from its keys;
//! nothing is built.
#![tactic(auto)]

mod cell;
mod counting;
mod listing;
mod sharing;

pub use cell::{Cell, CellList};
pub use counting::count;
pub use listing::cells;

#[cfg(test)]
mod tests;
