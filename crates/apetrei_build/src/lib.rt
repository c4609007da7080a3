//! A build of the radix tree in one pass from the leaves up.
//!
//! What the ends of a range share with their neighbours tells which node stands above it, so no range is looked for.
#![tactic(auto)]

mod building;
mod deltas;

pub use box_handoff::{Built, Tally};
pub use building::build;
pub use deltas::Deltas;

#[cfg(test)]
mod tests;
