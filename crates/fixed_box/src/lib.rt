//! Points, closed boxes and triangles on a grid of whole steps, in a world of a fixed size.
//!
//! Every coordinate is a count of grid steps. Nothing here takes memory or can fail. Boxes may reach past the world,
//! to the ends of `i32`; only `centre` asks for a box of the world.
#![tactic(auto)]

mod boxes;
mod corners;
mod shapes;
mod world;

pub use boxes::{box_of, contains, meets, union};
pub use shapes::{Box3, HALF, Point, Tri, UNIT_MAX};
pub use world::{centre, in_world};

#[cfg(test)]
mod tests;
