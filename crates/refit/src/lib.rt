//! A tree over boxes that moved, fitted to them again: the boxes of the nodes above what moved are made anew from the
//! leaves up, by workers or in turn.
//!
//! Keys, ranges and splits stay those of the build, so a tree whose boxes moved far is right but slow, until it is
//! built anew.
#![tactic(auto)]

mod handing_up;
mod moving;
mod refitting;

pub use handing_up::refit;
pub use moving::moved;
pub use refitting::refit_in_turn;

#[cfg(test)]
mod tests;
