//! Queries over a tree of triangles: walks that prune, and answer what a test of every triangle would.
//!
//! A node's box goes round all triangles below it, so where it misses the query nothing below is looked at.
#![tactic(auto)]

mod approach;
mod beginning;
mod counted;
mod found;
mod nearest_hit;
mod overlapping;
mod triangles;

pub use beginning::root;
pub use counted::work;
pub use found::{Found, Numbers};
pub use nearest_hit::{better, nearest, nearest_among};
pub use overlapping::overlaps;
pub use triangles::Triangles;

#[cfg(test)]
mod tests;
