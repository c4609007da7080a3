//! The world that a mesh opens, and what it answers to asks.
//!
//! A reply and the state after it are functions of the state before and the ask, stated in `specs/Worlds`;
//! `World::answer` has both as clauses.
#![tactic(auto)]

mod builds;
mod corners;
mod fans;
mod grouping;
mod index;
mod last_work;
mod live;
mod marks;
mod mending;
mod positions;
mod ways;
mod world;

pub use command_line::Build;
pub use world::World;

#[cfg(test)]
mod tests;
