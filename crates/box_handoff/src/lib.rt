//! Boxes handed up a tree by workers over shared words, without a lock, a wait or a retry.
#![tactic(auto)]

mod assembling;
mod climbing;
mod climbs;
mod driving;
mod fitted;
mod gathering;
mod handoffs;
mod laying;
mod making;
mod numbering;
mod passing;
mod plays;
mod resting;
mod seats;
mod slots;
mod steps;
mod tree_ways;
mod views;
mod ways;
mod words;

pub use arrival_core::{Load, Packet, Phase, Side, Tally, Up};
pub use assembling::assemble;
pub use driving::{fit, fit_live, fit_nodes};
pub use fitted::{Built, Fitted, FittedNodes};
pub use handoffs::Handoff;
pub use seats::HandSeat;
pub use tree_ways::TreeWays;
pub use ways::Ways;

#[cfg(test)]
mod tests;
