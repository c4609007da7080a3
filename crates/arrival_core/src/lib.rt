//! The arrival machine: workers climb a tree from its leaves, hand boxes up, and fit each node when both its children
//! have come.
//!
//! It is a pure step on one state, with no thread, so that what holds of every order of steps can be proved here.
//! After the counters of Karras, HPG 2012, section 4; the five events are this repository's own.
#![tactic(auto)]

mod climbing;
mod cores;
mod forks;
mod packets;
mod resuming;
mod starting;
mod stepping;
mod terrains;

pub use cores::{CoreState, phase_of, replay, resting, step, tally_of, unfitted};
pub use packets::{BATCH, Load, MOST_WORKERS, Packet, Phase, Place, Side, Tally, Up};
pub use starting::start;
